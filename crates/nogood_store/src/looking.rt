//! What a nogood says on a trail by its literals alone: nothing, that one more value follows, or a conflict. It costs one look at the value of each
//! literal, up to the second that doesn't hold.

ghost use Rattle.std.specs.Prelude.{◌≡◌, true, false, option_map, option_and_then, slice_get};
ghost use Rattle.search_values.specs.declared.entry.Entry.{Entry};
ghost use Rattle.nogood_store.specs.Stored.{IsHeadOf, LitsAreBelow, head_atom};
ghost use Rattle.nogood_store.specs.Visits.{SaysIs, value_holds, is_must_be_value, is_head_atom, answer_of};

use alpha_outside::{AtomId, Lit, Value};
use trail::Trail;

/// What a visit of a nogood answers.
#[derive(Clone, Copy, Debug, PartialEq, Eq)]
pub enum Visit {
    /// Nothing follows.
    Idle,
    /// It is unit, and gives the atom of the literal at this place the value.
    Unit { lit: u32, value: Value },
    /// All its literals hold.
    Struck,
}

/// What a nogood says: nothing, that one more value follows, or a conflict.
#[derive(Clone, Copy, Debug, PartialEq, Eq)]
pub enum Says {
    Nothing,
    /// It is unit, and gives the atom the value.
    Follows(AtomId, Value),
    /// All its literals hold.
    Conflict,
}

/// Whether a literal of this sign holds at this value of its atom.
pub fn holds(value: Option<Value>, positive: bool) -> bool
    ensures { result ≡ value_holds value positive }
{
    match value {
        None => false,
        Some(Value::True) => positive,
        Some(Value::MustBe) => positive,
        Some(Value::False) => !positive,
    }
}

fn is_must_be(value: Option<Value>) -> bool
    ensures { result ≡ is_must_be_value value }
{
    match value {
        Some(Value::MustBe) => true,
        _ => false,
    }
}

/// The atom of the head literal.
pub fn atom_of_head(lits: &[Lit], head: Option<u32>) -> Option<AtomId>
    requires { IsHeadOf lits.now head }
    ensures { result ≡ head_atom lits.now head }
{
    match head {
        Some(place) => Some(lits[place as usize].atom),
        None => None,
    }
}

fn is_head(head: Option<AtomId>, atom: AtomId) -> bool
    ensures { result ≡ is_head_atom head atom }
{
    match head {
        Some(h) => h == atom,
        None => false,
    }
}

// What a nogood says whose only literal that doesn't hold is this one, where the others hold fully or not, and it is the head
// literal or not.
fn answer(left: Lit, value: Option<Value>, fully: bool, heads: bool) -> Says
    ensures { result ≡ answer_of left value fully heads }
{
    match value {
        None => {
            if left.positive {
                Says::Follows(left.atom, Value::False)
            } else if fully && heads {
                Says::Follows(left.atom, Value::True)
            } else {
                Says::Follows(left.atom, Value::MustBe)
            }
        }
        Some(Value::MustBe) => {
            if fully && heads {
                Says::Follows(left.atom, Value::True)
            } else {
                Says::Nothing
            }
        }
        Some(_) => Says::Nothing,
    }
}

// Whether another literal was missing already.
fn is_second(missing: bool, left: Lit, l: Lit) -> bool
    ensures second { result ≡ true → (missing ≡ true) × (¬ (left ≡ l)) }
    ensures first { result ≡ false → missing ≡ true → left ≡ l }
{
    missing && left != l
}

/// What the nogood of these literals says on the trail. It looks at each literal once, or stops at the second that doesn't hold.
pub fn look_at(trail: &Trail, lits: &[Lit], head: Option<u32>) -> Says
    requires below { LitsAreBelow trail.now.atoms lits.now }
    requires negative { IsHeadOf lits.now head }
    ensures { SaysIs trail.now.stack (record { lits = lits.now; head = head_atom lits.now head }) result }
{
    let mut missing = false;
    let mut left = Lit {
        atom: AtomId(0),
        positive: false,
    };
    let mut fully = true;
    for l in lits {
        let value = trail.value(l.atom);
        if holds(value, l.positive) {
            if is_must_be(value) {
                fully = false;
            }
        } else {
            if is_second(missing, left, *l) {
                return Says::Nothing;
            }
            missing = true;
            left = *l;
        }
    }
    if !missing {
        return Says::Conflict;
    }
    let heads = is_head(atom_of_head(lits, head), left.atom);
    answer(left, trail.value(left.atom), fully, heads)
}
