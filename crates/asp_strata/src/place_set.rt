//! Sets of places, in the order in which they were put in.

ghost use Rattle.std.specs.Prelude.{◌≡◌, ◌⊎◌, ◌↔◌, ℕ, List, [], ◌++◌, length, IsTrue, OnOk};
ghost use Rattle.lists.specs.Lists.{◌∈◌, HasNoRepeats};
ghost use Rattle.asp_strata.specs.Graphs.{Adds};

use alpha_outside::OutOfMemory;
use indexmap::IndexSet;
use std::alloc::Global;
use std::marker::Model;

/// A set of places. Contracts see the list of them, oldest first.
#[derive(Drop)]
pub struct PlaceSet {
    places: IndexSet<usize>,
}

impl Model for PlaceSet {
    ghost use Rattle.std.specs.Prelude.{List, ℕ};

    ghost Value = { List ℕ };

    ghost view = { λ s. s.places.keys };
}

impl PlaceSet {
    /// The empty set, which holds no memory.
    pub fn new(alloc: Global) -> PlaceSet
        ensures { result ≡ [] }
    {
        PlaceSet {
            places: IndexSet::new(alloc),
        }
    }

    /// Whether the set has this place.
    pub fn has(&self, place: usize) -> bool
        ensures { IsTrue result ↔ (place ∈ self.now) }
    {
        self.places.contains(&place)
    }

    /// Puts a place in. One that is there stays where it is.
    pub fn add(&mut self, place: usize) -> Result<(), OutOfMemory>
        ensures { OnOk result (Adds self.old self.new place) }
    {
        match self.places.insert(place) {
            Ok(_) => Ok(()),
            Err(_) => Err(OutOfMemory),
        }
    }

    /// Puts each of these places in, in their order.
    pub fn add_all(&mut self, places: &[usize]) -> Result<(), OutOfMemory>
        ensures members { OnOk result ((i : ℕ) → (i ∈ self.new) ↔ ((i ∈ self.old) ⊎ (i ∈ places.now))) }
        ensures grown { OnOk result ((more : List ℕ) × (self.new ≡ self.old ++ more)) }
    {
        for place in places {
            self.add(*place)?;
        }
        Ok(())
    }

    /// The number of places.
    pub fn len(&self) -> usize
        ensures { result ≡ length self.now }
    {
        self.places.len()
    }

    /// The places, oldest first.
    pub fn as_slice(&self) -> &[usize]
        ensures places { result.now ≡ self.now }
        ensures once { HasNoRepeats self.now }
    {
        self.places.as_slice()
    }
}
