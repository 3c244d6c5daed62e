//! How fronts move on over what isn't open.

ghost use Rattle.std.specs.Prelude.{◌≡◌, ◌<◌, ◌≤◌, ℕ, List, length, true, false, None, Some, slice_get};
ghost use Rattle.search_values.specs.Values.{value_of};
ghost use Rattle.alpha_outside.specs.declared.literal.Value.TheVariants.{MustBe};
ghost use Rattle.trail.specs.Assigning.{MayRise};
ghost use Rattle.atom_pool.specs.declared.instances.Made.{Made};
ghost use Rattle.choice_manager.specs.Active.{ArePlaced};
ghost use Rattle.atom_pool.specs.declared.atom.AtomNode.{AtomNode};
ghost use Rattle.search_fronts.specs.Fronts.{AreFronts, IsNamedAt, HasSettledBody};

use crate::fronts::Fronts;
use alpha_outside::{AtomId, InstId, Value};
use atom_pool::{AtomPool, Instances, Made};
use trail::Trail;

// Whether the atom has no value, and is named.
fn is_unassigned(atoms: &AtomPool, trail: &Trail, atom: AtomId) -> bool
    requires there { atom < length atoms.now.atoms }
    requires placed { atom < trail.now.atoms }
    ensures yes { result ≡ true → value_of trail.now.stack atom ≡ None }
    ensures no { result ≡ false → IsNamedAt atoms.now.atoms atom → ¬ (value_of trail.now.stack atom ≡ None) }
{
    trail.value(atom).is_none() && atoms.pred_of(atom).is_some()
}

// Whether the atom is must-be-true, and is named.
fn is_must_be(atoms: &AtomPool, trail: &Trail, atom: AtomId) -> bool
    requires there { atom < length atoms.now.atoms }
    requires placed { atom < trail.now.atoms }
    ensures yes { result ≡ true → value_of trail.now.stack atom ≡ Some MustBe }
    ensures no { result ≡ false → IsNamedAt atoms.now.atoms atom → ¬ (value_of trail.now.stack atom ≡ Some MustBe) }
{
    trail.value(atom) == Some(Value::MustBe) && atoms.pred_of(atom).is_some()
}

// Whether the value is neither true nor false.
fn may_rise(value: Option<Value>) -> bool
    ensures yes { result ≡ true → MayRise value }
    ensures no { result ≡ false → ¬ MayRise value }
{
    match value {
        None => true,
        Some(Value::MustBe) => true,
        Some(_) => false,
    }
}

// Whether the instance has a body that is neither true nor false.
fn has_open_body(made: &Made, trail: &Trail) -> bool
    requires { (b : ℕ) → made.now.body ≡ Some b → b < trail.now.atoms }
    ensures yes { result ≡ true → ¬ HasSettledBody trail.now.stack made.now }
    ensures no { result ≡ false → HasSettledBody trail.now.stack made.now }
{
    match made.body {
        Some(body) => may_rise(trail.value(body)),
        None => false,
    }
}

impl Fronts {
    /// Moves on to the first named atom that is unassigned, or to the end.
    pub fn pass_assigned(&mut self, atoms: &AtomPool, trail: &Trail, end: u32)
        requires there { end ≤ length atoms.now.atoms }
        requires placed { end ≤ trail.now.atoms }
        ensures stops { self.new.assigned < end → value_of trail.now.stack self.new.assigned ≡ None }
        ensures fronts { (made : List Made) → AreFronts atoms.now.atoms made trail.now.stack self.old → AreFronts atoms.now.atoms made trail.now.stack self.new }
    {
        while self.assigned < end {
            if is_unassigned(atoms, trail, AtomId(self.assigned)) {
                return;
            }
            self.assigned += 1;
        }
    }

    /// Moves on to the first named atom that is must-be-true, or to the end.
    pub fn pass_not_must(&mut self, atoms: &AtomPool, trail: &Trail, end: u32)
        requires there { end ≤ length atoms.now.atoms }
        requires placed { end ≤ trail.now.atoms }
        ensures stops { self.new.not_must < end → value_of trail.now.stack self.new.not_must ≡ Some MustBe }
        ensures fronts { (made : List Made) → AreFronts atoms.now.atoms made trail.now.stack self.old → AreFronts atoms.now.atoms made trail.now.stack self.new }
    {
        while self.not_must < end {
            if is_must_be(atoms, trail, AtomId(self.not_must)) {
                return;
            }
            self.not_must += 1;
        }
    }

    /// Moves on to the first instance whose body is neither true nor false, or to the end.
    pub fn pass_settled(&mut self, instances: &Instances, trail: &Trail)
        requires { ArePlaced trail.now.atoms instances.now }
        ensures stops { (k : Made) → slice_get instances.now self.new.settled ≡ Some k → ¬ HasSettledBody trail.now.stack k }
        ensures fronts { (atoms : List AtomNode) → AreFronts atoms instances.now trail.now.stack self.old → AreFronts atoms instances.now trail.now.stack self.new }
    {
        let end = instances.len();
        while self.settled < end {
            if has_open_body(instances.get(InstId(self.settled)), trail) {
                return;
            }
            self.settled += 1;
        }
    }
}
