//! A visit of a nogood, and the value that it gives.

ghost use Rattle.std.specs.Prelude.{◌≡◌, ◌<◌, ◌≤◌, ◌+◌, ℕ, List, length, slice_get, Some, None, true, false, OnOk, IfOk, IfErr, option_map};
ghost use Rattle.alpha_outside.specs.Outside.{with_event};
ghost use Rattle.search_values.specs.declared.entry.Why.TheVariants.{Given};
ghost use Rattle.search_values.specs.Values.{value_of};
ghost use Rattle.trail.specs.Assigning.{MayBecome, assigned};
ghost use Rattle.nogood_store.specs.Stored.{Stored, AllAreBelow};
ghost use Rattle.nogood_store.specs.Matching.{Matches, Suffices};
ghost use Rattle.propagation.specs.Runs.{Ran, Faulted, IsCause, IsStruckAt, OthersStay, TheseSuffice};

use alpha_outside::{AtomId, Event, NogoodId, Trace, TraceStop, Value};
use nogood_store::{NogoodStore, Steps, Visit};
use std::sync::ledger::Ledger;
use trail::Trail;

/// Why a propagation stopped.
#[derive(Clone, Copy, Debug, PartialEq, Eq)]
pub enum PropFault {
    TraceFault,
    OutOfMemory,
}

// Notes an event.
fn noted<T: Trace>(trace: &mut T, event: &Event) -> Result<(), PropFault>
    ensures later { T.faults trace.old ≤ T.faults trace.new }
    ensures ok { OnOk result (T.journal trace.new ≡ option_map (with_event event.now) (T.journal trace.old)) }
    ensures unchanged { IfErr result (λ f. T.journal trace.new ≡ T.journal trace.old) }
    ensures cause { IfErr result (IsCause (T.faults trace.old) (T.faults trace.new)) }
{
    match trace.note(event) {
        Ok(()) => Ok(()),
        Err(TraceStop::Failed) => Err(PropFault::TraceFault),
        Err(TraceStop::OutOfMemory) => Err(PropFault::OutOfMemory),
    }
}

/// Gives the atom the value, by the nogood.
pub fn give(trail: &mut Trail, atom: AtomId, value: Value, by: NogoodId)
    requires placed { atom < trail.old.atoms }
    requires may { MayBecome (value_of trail.old.stack atom) value }
    ensures { trail.new ≡ assigned trail.old atom value (Given by) }
{
    match value {
        Value::True => trail.set_true(atom, by),
        Value::MustBe => trail.set_mbt(atom, by),
        Value::False => trail.set_false(atom, by),
    }
}

/// Visits a nogood, and where it is unit gives the value and notes it. Tells whether it is struck.
pub fn visit_and_put<T: Trace, L: Ledger>(
    store: &mut NogoodStore,
    trail: &mut Trail,
    trace: &mut T,
    steps: &mut Steps<L>,
    id: NogoodId,
) -> Result<bool, PropFault>
    requires there { id < length store.old }
    requires below { AllAreBelow trail.old.atoms store.old }
    requires matches { Matches store.old trail.old }
    ensures ran { IfOk result (λ struck. Ran store.old store.new trail.old trail.new (T.journal trace.old) (T.journal trace.new)) }
    ensures suffices { IfOk result (λ struck. struck ≡ false → TheseSuffice (λ n. n ≡ id) trail.old.stack trail.new.stack store.new) }
    ensures struck { IfOk result (λ struck. struck ≡ true → IsStruckAt store.new trail.new.stack id) }
    ensures others { OthersStay (λ n. n ≡ id) store.old store.new }
    ensures err { IfErr result (λ f. Faulted store.old store.new trail.old trail.new (T.journal trace.old) (T.journal trace.new)) }
    ensures cause { IfErr result (IsCause (T.faults trace.old) (T.faults trace.new)) }
    ensures later { T.faults trace.old ≤ T.faults trace.new }
    ensures one_step { steps.new ≡ steps.old + 1 }
{
    // With the number of entries that were taken up comes that there are so many.
    let _ = trail.kept();
    match store.visit(id, &*trail, steps) {
        Ok(Visit::Idle) => Ok(false),
        Ok(Visit::Struck) => Ok(true),
        Ok(Visit::Unit { lit, value }) => {
            let atom = store.lits(id)[lit as usize].atom;
            give(trail, atom, value, id);
            match noted(
                trace,
                &Event::Put {
                    atom,
                    value,
                    by: id,
                },
            ) {
                Ok(()) => Ok(false),
                Err(fault) => Err(fault),
            }
        }
        Err(_) => Err(PropFault::OutOfMemory),
    }
}
