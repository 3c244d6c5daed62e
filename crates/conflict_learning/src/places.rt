//! The places of first values on a trail, and which atoms are closed.

ghost use Rattle.std.specs.Prelude.{◌≡◌, ◌<◌, length, IfOk, true, false, Some};
ghost use Rattle.search_values.specs.Values.{is_closed, IsClosed};
ghost use Rattle.conflict_learning.specs.FirstValues.{first_place};
ghost use Rattle.conflict_learning.specs.Pending.{ArePlaces, IsPlaced};

use alpha_outside::{AtomId, OutOfMemory};
use std::alloc::Global;
use trail::{Entry, Trail, Why};

/// Whether the entry is closed.
pub fn is_closed_entry(entry: &Entry) -> bool
    ensures { result ≡ is_closed entry.now.why }
{
    match entry.why {
        Why::Given(_) => false,
        Why::Chosen => false,
        Why::Closed(_) => true,
    }
}

/// The places of the first values of the atoms.
pub fn first_places(alloc: Global, trail: &Trail) -> Result<Vec<Option<usize>>, OutOfMemory>
    ensures { IfOk result (λ places. ArePlaces trail.now.stack places.items) }
{
    let mut places = Vec::new(alloc);
    if places.resize(trail.atoms() as usize, None).is_err() {
        return Err(OutOfMemory);
    }
    let entries = trail.entries();
    let mut next = 0;
    while next < entries.len() {
        let place = entries[next].atom.place();
        if places[place].is_none() {
            places[place] = Some(next);
        }
        next += 1;
    }
    Ok(places)
}

/// The place of the atom's first value.
pub fn place_of(trail: &Trail, places: &Vec<Option<usize>>, atom: AtomId) -> usize
    requires places { ArePlaces trail.now.stack places.now.items }
    requires placed { IsPlaced trail.now.stack atom }
    ensures value { first_place trail.now.stack atom ≡ Some result }
    ensures low { result < length trail.now.stack }
{
    match places[atom.place()] {
        Some(place) => place,
        None => 0,
    }
}

/// Whether the atom, which has a value, is closed.
pub fn is_closed_atom(trail: &Trail, places: &Vec<Option<usize>>, atom: AtomId) -> bool
    requires places { ArePlaces trail.now.stack places.now.items }
    requires placed { IsPlaced trail.now.stack atom }
    ensures yes { result ≡ true → IsClosed trail.now.stack atom }
    ensures no { result ≡ false → ¬ IsClosed trail.now.stack atom }
{
    let entries = trail.entries();
    is_closed_entry(&entries[place_of(trail, places, atom)])
}
