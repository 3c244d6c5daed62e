//! Which struck nogood an analysis begins with.
//!
//! Where several are struck, it is one whose last literal came first, and among these one that is unit below its highest level, where there
//! is one. Otherwise a second one, struck as well, could be a subset of what is learned.

ghost use Rattle.std.specs.Prelude.{◌≡◌, ◌<◌, true, false, length, map, IfOk};
ghost use Rattle.nogood_store.specs.Stored.{HasNoAtomTwice, LitsAreBelow, AllAreBelow, nogood_of};
ghost use Rattle.nogood_store.specs.Visits.{value_holds};
ghost use Rattle.conflict_learning.specs.FirstValues.{first_place, count_to, came_with};
ghost use Rattle.conflict_learning.specs.Analysing.{AllHold, IsUnitBelow};
ghost use Rattle.conflict_learning.specs.Pending.{ArePlaces, IsPlaced};
ghost use Rattle.conflict_learning.specs.Choosing.{IsChoice, IsTold, first_of, comes_before};

use crate::levels::{highest_level, is_unit_below};
use crate::places::{first_places, place_of};
use alpha_outside::{AtomId, Lit, NogoodId, OutOfMemory, Value};
use nogood_store::NogoodStore;
use std::alloc::Global;
use trail::Trail;

/// A struck nogood.
#[derive(Clone, Copy, Debug)]
pub struct Conflict {
    pub id: NogoodId,
    /// How many entries there were when its last literal came.
    pub came: usize,
    /// Whether it is unit below its highest level.
    pub unit: bool,
}

// Whether a literal of this sign holds at this value of its atom.
fn holds(value: Option<Value>, positive: bool) -> bool
    ensures { result ≡ value_holds value positive }
{
    match value {
        None => false,
        Some(Value::True) => positive,
        Some(Value::MustBe) => positive,
        Some(Value::False) => !positive,
    }
}

// Whether all the literals hold.
fn all_hold(trail: &Trail, lits: &[Lit]) -> bool
    requires below { LitsAreBelow trail.now.atoms lits.now }
    ensures yes { result ≡ true → AllHold trail.now.stack lits.now }
    ensures no { result ≡ false → ¬ AllHold trail.now.stack lits.now }
{
    for l in lits {
        if !holds(trail.value(l.atom), l.positive) {
            return false;
        }
    }
    true
}

// How many entries there were when the atom got its first value, that one included.
fn count_with(trail: &Trail, places: &Vec<Option<usize>>, atom: AtomId) -> usize
    requires places { ArePlaces trail.now.stack places.now.items }
    requires placed { IsPlaced trail.now.stack atom }
    ensures { result ≡ count_to (first_place trail.now.stack atom) }
{
    let _ = trail.entries();
    place_of(trail, places, atom) + 1
}

// How many entries there were when the last literal came.
fn came_last(trail: &Trail, places: &Vec<Option<usize>>, lits: &[Lit]) -> usize
    requires places { ArePlaces trail.now.stack places.now.items }
    requires hold { AllHold trail.now.stack lits.now }
    ensures { result ≡ came_with trail.now.stack lits.now }
{
    let _ = trail.entries();
    let mut came = 0;
    for l in lits {
        came = came.max(count_with(trail, places, l.atom));
    }
    came
}

// Whether a nogood is unit below its highest level.
fn is_unit(trail: &Trail, places: &Vec<Option<usize>>, lits: &[Lit]) -> bool
    requires places { ArePlaces trail.now.stack places.now.items }
    requires hold { AllHold trail.now.stack lits.now }
    requires once { HasNoAtomTwice lits.now }
    ensures yes { result ≡ true → IsUnitBelow trail.now.stack lits.now }
    ensures no { result ≡ false → ¬ IsUnitBelow trail.now.stack lits.now }
{
    let top = highest_level(trail, lits);
    if top == 0 {
        return false;
    }
    is_unit_below(trail, places, lits, top)
}

// What is told of the nogood: nothing, where it isn't struck.
fn conflict_at(
    store: &NogoodStore,
    trail: &Trail,
    places: &Vec<Option<usize>>,
    id: NogoodId,
) -> Option<Conflict>
    requires there { id < length store.now }
    requires below { AllAreBelow trail.now.atoms store.now }
    requires places { ArePlaces trail.now.stack places.now.items }
    ensures { IsTold (map nogood_of store.now) trail.now.stack id result }
{
    let lits = store.lits(id);
    if !all_hold(trail, lits) {
        return None;
    }
    Some(Conflict {
        id,
        came: came_last(trail, places, lits),
        unit: is_unit(trail, places, lits),
    })
}

// Whether the first comes before the second.
fn is_before(this: &Conflict, other: &Conflict) -> bool
    ensures { result ≡ comes_before this.now other.now }
{
    this.came < other.came || (this.came == other.came && (this.unit && !other.unit))
}

// The one of two that comes first.
fn choose_first(best: Option<Conflict>, found: Option<Conflict>) -> Option<Conflict>
    ensures { result ≡ first_of best found }
{
    match best {
        None => found,
        Some(best) => match found {
            None => Some(best),
            Some(found) => {
                if is_before(&found, &best) {
                    Some(found)
                } else {
                    Some(best)
                }
            }
        },
    }
}

/// The struck nogood to analyse, or none, where none is struck: its last literal came first, and it is unit below its highest level where
/// another one with that last literal is.
///
/// # Errors
///
/// Want of memory.
///
/// # Cost
///
/// It looks at the literals of all nogoods, up to the first that doesn't hold. It takes place for the trail's atoms.
pub fn first_struck(
    alloc: Global,
    store: &NogoodStore,
    trail: &Trail,
) -> Result<Option<NogoodId>, OutOfMemory>
    requires below { AllAreBelow trail.now.atoms store.now }
    ensures choice { IfOk result (IsChoice (map nogood_of store.now) trail.now.stack) }
{
    let places = first_places(alloc, trail)?;
    let mut best: Option<Conflict> = None;
    let mut next = 0;
    while next < store.len() {
        best = choose_first(best, conflict_at(store, trail, &places, NogoodId(next)));
        next += 1;
    }
    match best {
        Some(best) => Ok(Some(best.id)),
        None => Ok(None),
    }
}
