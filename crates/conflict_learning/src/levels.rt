//! Levels of literals: the highest, the second highest, and whether a nogood is unit below its highest level.

ghost use Rattle.std.specs.Prelude.{◌≡◌, ◌<◌, true, false, Some};
ghost use Rattle.alpha_outside.specs.declared.literal.Value.{Value};
ghost use Rattle.search_values.specs.Values.{value_of, first_level};
ghost use Rattle.nogood_store.specs.Stored.{HasNoAtomTwice};
ghost use Rattle.journal_theory.specs.Resolution.{IsOneHighest};
ghost use Rattle.conflict_learning.specs.Analysing.{AllHold, IsUnitBelow, IsSecondLevel};
ghost use Rattle.conflict_learning.specs.Pending.{ArePlaces, highest_of, second_of};

use crate::places::is_closed_atom;
use alpha_outside::{AtomId, Lit};
use trail::Trail;

// The level of an atom's first value.
fn level(trail: &Trail, atom: AtomId) -> u32
    requires holds { (v : Value) × (value_of trail.now.stack atom ≡ Some v) }
    ensures { result ≡ first_level trail.now.stack atom }
{
    let _ = trail.entries();
    match trail.level_of(atom) {
        Some(level) => level,
        None => 0,
    }
}

/// The highest level of these literals, or 0.
pub fn highest_level(trail: &Trail, lits: &[Lit]) -> u32
    requires hold { AllHold trail.now.stack lits.now }
    ensures { result ≡ highest_of trail.now.stack lits.now }
{
    let mut highest = 0;
    for l in lits {
        highest = highest.max(level(trail, l.atom));
    }
    highest
}

/// The highest level of these literals that is below this one, or 0.
pub fn second_level(trail: &Trail, lits: &[Lit], top: u32) -> u32
    requires hold { AllHold trail.now.stack lits.now }
    ensures { result ≡ second_of trail.now.stack top lits.now }
{
    let mut second = 0;
    for l in lits {
        let here = level(trail, l.atom);
        if here < top {
            second = second.max(here);
        }
    }
    second
}

/// The level to which the search goes back where just one of these literals stands at their highest level: the second highest, or 0. It
/// looks twice at each literal.
pub fn unit_level(trail: &Trail, lits: &[Lit]) -> u32
    requires hold { AllHold trail.now.stack lits.now }
    requires one { IsOneHighest trail.now.stack lits.now }
    ensures { IsSecondLevel trail.now.stack lits.now result }
{
    let top = highest_level(trail, lits);
    second_level(trail, lits, top)
}

/// Whether no literal is closed, and just one is at their highest level, which isn't 0.
pub fn is_unit_below(trail: &Trail, places: &Vec<Option<usize>>, lits: &[Lit], top: u32) -> bool
    requires places { ArePlaces trail.now.stack places.now.items }
    requires hold { AllHold trail.now.stack lits.now }
    requires once { HasNoAtomTwice lits.now }
    requires top_is { top ≡ highest_of trail.now.stack lits.now }
    requires above_0 { 0 < top }
    ensures yes { result ≡ true → IsUnitBelow trail.now.stack lits.now }
    ensures no { result ≡ false → ¬ IsUnitBelow trail.now.stack lits.now }
{
    let _ = trail.entries();
    let mut found = false;
    for l in lits {
        if is_closed_atom(trail, places, l.atom) {
            return false;
        }
        if level(trail, l.atom) == top {
            if found {
                return false;
            }
            found = true;
        }
    }
    true
}
