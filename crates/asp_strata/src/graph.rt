//! The graph of a program: which predicates depend on which at once.
//!
//! Predicates are numbered by their places in a table. The row beside a predicate has the places of those that depend on it at once:
//! the head predicates of each statement that needs it.

ghost use Rattle.std.specs.Prelude.{◌≡◌, ◌⊎◌, ◌↔◌, ◌<◌, ℕ, [], length, IfOk, OnOk};
ghost use Rattle.lists.specs.Lists.{◌∈◌, Each};
ghost use Rattle.asp_strata.specs.Recursion.{head_predicates, needed_predicates};
ghost use Rattle.asp_strata.specs.Graphs.{IsPlaceOf, Leads, Linked, IsGraph};

use crate::place_set::PlaceSet;
use crate::places::{Table, occurring_in, places_of};
use crate::predicates::{push_head, push_needed};
use alpha_outside::{List, OutOfMemory};
use asp_syntax::Statement;
use std::alloc::Global;

/// The predicates of statements, and beside each those that depend on it at once.
#[derive(Drop)]
pub struct Graph<'a> {
    pub statements: &'a [Statement],
    pub table: Table,
    pub rows: Vec<PlaceSet>,
}

// So many empty rows.
fn empty_rows(alloc: Global, count: usize) -> Result<Vec<PlaceSet>, OutOfMemory>
    ensures count { IfOk result (λ rows. length rows.items ≡ count) }
    ensures empty { IfOk result (λ rows. Each (λ row. row ≡ []) rows.items) }
{
    let mut rows = Vec::new(alloc);
    for _ in 0..count {
        rows.push(PlaceSet::new(alloc))?;
    }
    Ok(rows)
}

// Puts these places into one row.
fn extend_row(rows: &mut Vec<PlaceSet>, place: usize, heads: &[usize]) -> Result<(), OutOfMemory>
    requires { place < length rows.old.items }
    ensures rows { OnOk result ((j i : ℕ) → Leads rows.new.items j i ↔ (Leads rows.old.items j i ⊎ ((j ≡ place) × (i ∈ heads.now)))) }
    ensures count { OnOk result (length rows.new.items ≡ length rows.old.items) }
{
    rows[place].add_all(heads)
}

// Puts the places of heads into the row of each predicate that is needed.
fn extend_rows(
    rows: &mut Vec<PlaceSet>,
    needed: &[usize],
    heads: &[usize],
) -> Result<(), OutOfMemory>
    requires { (j : ℕ) → j ∈ needed.now → j < length rows.old.items }
    ensures rows { OnOk result ((j i : ℕ) → Leads rows.new.items j i ↔ (Leads rows.old.items j i ⊎ ((j ∈ needed.now) × (i ∈ heads.now)))) }
    ensures count { OnOk result (length rows.new.items ≡ length rows.old.items) }
{
    for place in needed {
        extend_row(rows, *place, heads)?;
    }
    Ok(())
}

/// The places of the head predicates of a statement.
pub fn heads_of(
    alloc: Global,
    table: &Table,
    statement: &Statement,
) -> Result<PlaceSet, OutOfMemory>
    ensures { IfOk result (λ places. (i : ℕ) → (i ∈ places) ↔ IsPlaceOf table.now (head_predicates statement.now.head) i) }
{
    let mut heads = List::new(alloc);
    push_head(alloc, &statement.head, &mut heads)?;
    places_of(alloc, table, heads.as_slice())
}

// The places of the predicates that the head of a statement depends on at once.
fn needed_of(alloc: Global, table: &Table, statement: &Statement) -> Result<PlaceSet, OutOfMemory>
    ensures { IfOk result (λ places. (i : ℕ) → (i ∈ places) ↔ IsPlaceOf table.now (needed_predicates statement.now) i) }
{
    let mut needed = List::new(alloc);
    push_needed(alloc, statement, &mut needed)?;
    places_of(alloc, table, needed.as_slice())
}

// Puts what a statement says of its head predicates into the rows.
fn link(
    alloc: Global,
    table: &Table,
    statement: &Statement,
    rows: &mut Vec<PlaceSet>,
) -> Result<(), OutOfMemory>
    requires { length rows.old.items ≡ length table.now }
    ensures rows { OnOk result ((j i : ℕ) → Leads rows.new.items j i ↔ (Leads rows.old.items j i ⊎ (IsPlaceOf table.now (needed_predicates statement.now) j × IsPlaceOf table.now (head_predicates statement.now.head) i))) }
    ensures count { OnOk result (length rows.new.items ≡ length rows.old.items) }
{
    let heads = heads_of(alloc, table, statement)?;
    let needed = needed_of(alloc, table, statement)?;
    extend_rows(rows, needed.as_slice(), heads.as_slice())
}

// The row of each predicate of the table.
fn rows_of(
    alloc: Global,
    table: &Table,
    statements: &[Statement],
) -> Result<Vec<PlaceSet>, OutOfMemory>
    ensures rows { IfOk result (λ rows. (j i : ℕ) → Leads rows.items j i ↔ Linked table.now statements.now j i) }
    ensures count { IfOk result (λ rows. length rows.items ≡ length table.now) }
{
    let mut rows = empty_rows(alloc, table.len())?;
    for statement in statements {
        link(alloc, table, statement, &mut rows)?;
    }
    Ok(rows)
}

/// The graph of a program.
pub fn graph_of<'a>(alloc: Global, statements: &'a [Statement]) -> Result<Graph<'a>, OutOfMemory>
    ensures same { IfOk result (λ graph. graph.statements.now ≡ statements.now) }
    ensures graph { IfOk result (λ graph. IsGraph statements.now graph.table graph.rows.items) }
{
    let table = occurring_in(alloc, statements)?;
    let rows = rows_of(alloc, &table, statements)?;
    Ok(Graph {
        statements,
        table,
        rows,
    })
}
