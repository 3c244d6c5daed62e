//! That the answers of `check` exclude one another.

ghost use Rattle.std.specs.Prelude.{◌≡◌, ◌≢◌, List};
ghost use Rattle.asp_syntax.specs.declared.tree.Statement.{Statement};
ghost use Rattle.asp_safety.specs.declared.fault.SafetyFault.{SafetyFault};
ghost use Rattle.asp_safety.specs.declared.fault.SafetyFault.TheVariants.{OutOfMemory};
ghost use Rattle.asp_safety.specs.Faults.{IsFault, IsAccepted};

/// A program has at most one fault beside want of memory, and one that is accepted has none. It does nothing: its contract is a law.
pub fn answers_exclude_one_another()
    ensures one_fault { (P : List Statement) (f g : SafetyFault) → IsFault P f → IsFault P g → f ≢ OutOfMemory → g ≢ OutOfMemory → f ≡ g }
    ensures accepted { (P : List Statement) (f : SafetyFault) → IsAccepted P → IsFault P f → f ≡ OutOfMemory }
{}
