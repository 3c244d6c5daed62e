//! The predicates of a program, each with its place.

ghost use Rattle.std.specs.Prelude.{◌≡◌, ◌⊎◌, ◌↔◌, ℕ, None, Some, slice_get, [], IfOk, IfSome, OnOk, length};
ghost use Rattle.lists.specs.Lists.{◌∈◌};
ghost use Rattle.asp_strata.specs.declared.predicate.Predicate.{Predicate};
ghost use Rattle.asp_strata.specs.Recursion.{occurring};
ghost use Rattle.asp_strata.specs.Graphs.{IsPlaceOf};

use crate::place_set::PlaceSet;
use crate::predicate::Predicate;
use crate::predicates::push_occurring;
use alpha_outside::{List, OutOfMemory};
use asp_syntax::Statement;
use indexmap::IndexSet;
use std::alloc::Global;
use std::marker::Model;

/// Predicates, each once. Contracts see the list of them: a place in it is a predicate's number.
#[derive(Drop)]
pub struct Table {
    predicates: IndexSet<Predicate>,
}

impl Model for Table {
    ghost use Rattle.std.specs.Prelude.{List};
    ghost use Rattle.lists.specs.Lists.{HasNoRepeats};
    ghost use Rattle.asp_strata.specs.declared.predicate.Predicate.{Predicate};

    ghost Value = { List Predicate };

    ghost view = { λ t. t.predicates.keys };

    ghost invariant = { λ t. HasNoRepeats t.predicates.keys };
}

impl Table {
    /// A table without predicates.
    pub fn new(alloc: Global) -> Table
        ensures { result ≡ [] }
    {
        Table {
            predicates: IndexSet::new(alloc),
        }
    }

    /// Puts a predicate in, last if it isn't there.
    pub fn add(&mut self, predicate: Predicate) -> Result<(), OutOfMemory>
        ensures { OnOk result ((p : Predicate) → (p ∈ self.new) ↔ ((p ∈ self.old) ⊎ (p ≡ predicate))) }
    {
        match self.predicates.insert(predicate) {
            Ok(_) => Ok(()),
            Err(_) => Err(OutOfMemory),
        }
    }

    /// The number of predicates.
    pub fn len(&self) -> usize
        ensures { result ≡ length self.now }
    {
        self.predicates.len()
    }

    /// The one place of a predicate, if it is there.
    pub fn place_of(&self, predicate: &Predicate) -> Option<usize>
        ensures there { IfSome result (λ i. (j : ℕ) → (slice_get self.now j ≡ Some predicate.now) ↔ (j ≡ i)) }
        ensures none { result ≡ None → ¬ (predicate.now ∈ self.now) }
    {
        self.predicates.get_index_of(predicate)
    }

    /// The predicates, in the order of their places.
    pub fn as_slice(&self) -> &[Predicate]
        ensures { result.now ≡ self.now }
    {
        self.predicates.as_slice()
    }
}

// The table of these predicates.
fn table_of(alloc: Global, predicates: List<Predicate>) -> Result<Table, OutOfMemory>
    ensures { IfOk result (λ table. (p : Predicate) → (p ∈ table) ↔ (p ∈ predicates)) }
{
    let mut predicates = predicates;
    let mut table = Table::new(alloc);
    'moving: while let Some(predicate) = predicates.pop() {
        table.add(predicate)?;
    }
    Ok(table)
}

/// The table of the predicates that occur in a program.
pub fn occurring_in(alloc: Global, statements: &[Statement]) -> Result<Table, OutOfMemory>
    ensures { IfOk result (λ table. (p : Predicate) → (p ∈ table) ↔ (p ∈ occurring statements.now)) }
{
    let mut predicates = List::new(alloc);
    push_occurring(alloc, statements, &mut predicates)?;
    table_of(alloc, predicates)
}

// Puts the place of a predicate, if it has one, into a set.
fn add_place(table: &Table, predicate: &Predicate, into: &mut PlaceSet) -> Result<(), OutOfMemory>
    ensures { OnOk result ((i : ℕ) → (i ∈ into.new) ↔ ((i ∈ into.old) ⊎ (slice_get table.now i ≡ Some predicate.now))) }
{
    match table.place_of(predicate) {
        None => Ok(()),
        Some(place) => into.add(place),
    }
}

/// The places of those of the predicates that are in the table.
pub fn places_of(
    alloc: Global,
    table: &Table,
    predicates: &[Predicate],
) -> Result<PlaceSet, OutOfMemory>
    ensures { IfOk result (λ places. (i : ℕ) → (i ∈ places) ↔ IsPlaceOf table.now predicates.now i) }
{
    let mut places = PlaceSet::new(alloc);
    for predicate in predicates {
        add_place(table, predicate, &mut places)?;
    }
    Ok(places)
}
