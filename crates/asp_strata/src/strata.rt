//! Strata: numbers of predicates that rise where an aggregate lies between.
//!
//! All strata begin at 0. Each statement with an aggregate, one after another, raises by one those of its head predicates and of
//! all that depend on them. So what depends on a predicate is raised whenever it is, and strata don't fall from what is needed to a
//! head. A predicate in an element isn't raised with the head: else it would depend on it, and the aggregate be recursive.

ghost use Rattle.std.specs.Prelude.{◌≡◌, ◌+◌, ◌↔◌, ℕ, None, Some, [], length, slice_get, IfOk, IfErr, OnOk, IsTrue};
ghost use Rattle.std.specs.Option.{option_map};
ghost use Rattle.lists.specs.Lists.{◌∈◌, HasNoRepeats, Each};
ghost use Rattle.asp_syntax.specs.declared.tree.Statement.{Statement};
ghost use Rattle.asp_strata.specs.Recursion.{element_predicates, HasNoRecursion};
ghost use Rattle.asp_strata.specs.Graphs.{IsGraph, AreDependents, IsFound, FindsDependent, Raised, KeepsUp, IsLayered, Climbs};
ghost use Rattle.asp_strata.specs.Faults.{IsStatementFault, IsRecursionFault};

use crate::RecursionFault;
use crate::dependents::dependents_of;
use crate::graph::Graph;
use crate::place_set::PlaceSet;
use crate::places::Table;
use crate::predicate::Predicate;
use crate::predicates::push_element_predicates;
use alpha_outside::{List, Name, OutOfMemory};
use asp_syntax::Statement;
use std::alloc::Global;

// So many zeros.
fn zeros(alloc: Global, count: usize) -> Result<List<u32>, OutOfMemory>
    ensures count { IfOk result (λ strata. length strata ≡ count) }
    ensures zero { IfOk result (λ strata. Each (λ n. n ≡ 0) strata) }
{
    let mut strata = List::new(alloc);
    for _ in 0..count {
        strata.push(0)?;
    }
    Ok(strata)
}

// Raises the stratum at a place by one.
fn raise_one(strata: &mut List<u32>, place: usize) -> Result<(), OutOfMemory>
    ensures raised { OnOk result (slice_get strata.new place ≡ option_map (λ n. n + 1) (slice_get strata.old place)) }
    ensures others { OnOk result ((i : ℕ) → ¬ (i ≡ place) → slice_get strata.new i ≡ slice_get strata.old i) }
    ensures count { OnOk result (length strata.new ≡ length strata.old) }
{
    let Some(stratum) = strata.get(place) else {
        return Ok(());
    };
    match stratum.checked_add(1) {
        None => Err(OutOfMemory),
        Some(above) => {
            strata.set(place, above);
            Ok(())
        }
    }
}

// Raises the strata at these places by one.
fn raise(strata: &mut List<u32>, places: &[usize]) -> Result<(), OutOfMemory>
    requires { HasNoRepeats places.now }
    ensures { OnOk result (Raised strata.old strata.new places.now []) }
{
    for place in places {
        raise_one(strata, *place)?;
    }
    Ok(())
}

// Whether the place of a predicate was found.
fn is_found(table: &Table, found: &PlaceSet, predicate: &Predicate) -> bool
    ensures { IsTrue result ↔ IsFound table.now found.now predicate.now }
{
    match table.place_of(predicate) {
        None => false,
        Some(place) => found.has(place),
    }
}

// The first of the predicates that is in the statement's head or depends on it.
fn first_dependent(
    alloc: Global,
    graph: &Graph,
    statement: &Statement,
    found: &PlaceSet,
    predicates: &[Predicate],
) -> Result<Option<Name>, OutOfMemory>
    requires graph { IsGraph graph.now.statements.now graph.now.table graph.now.rows.items }
    requires there { statement.now ∈ graph.now.statements.now }
    requires found { AreDependents graph.now.statements.now graph.now.table statement.now found.now }
    ensures { IfOk result (λ o. FindsDependent graph.now.statements.now statement.now predicates.now o) }
{
    for predicate in predicates {
        if is_found(&graph.table, found, predicate) {
            let name = predicate.written(alloc)?;
            return Ok(Some(name));
        }
    }
    Ok(None)
}

// Raises the head of a statement with these predicates in its elements above them, or gives the first that depends on the head.
fn raise_head(
    alloc: Global,
    graph: &Graph,
    statement: &Statement,
    elements: &[Predicate],
    strata: &mut List<u32>,
) -> Result<Option<Name>, OutOfMemory>
    requires graph { IsGraph graph.now.statements.now graph.now.table graph.now.rows.items }
    requires there { statement.now ∈ graph.now.statements.now }
    requires elements { elements.now ≡ element_predicates statement.now }
    ensures found { IfOk result (λ o. FindsDependent graph.now.statements.now statement.now (element_predicates statement.now) o) }
    ensures layered { IfOk result (λ o. o ≡ None → KeepsUp graph.now.rows.items strata.old → IsLayered graph.now.table strata.new statement.now) }
    ensures climbs { IfOk result (λ o. o ≡ None → Climbs graph.now.table graph.now.rows.items graph.now.statements.now strata.old strata.new) }
{
    let found = dependents_of(alloc, graph, statement)?;
    if let Some(name) = first_dependent(alloc, graph, statement, &found, elements)? {
        return Ok(Some(name));
    }
    raise(strata, found.as_slice())?;
    Ok(None)
}

// Raises the head of a statement above the predicates in its elements, or gives the first that depends on the head.
fn layer(
    alloc: Global,
    graph: &Graph,
    statement: &Statement,
    strata: &mut List<u32>,
) -> Result<Option<Name>, OutOfMemory>
    requires graph { IsGraph graph.now.statements.now graph.now.table graph.now.rows.items }
    requires there { statement.now ∈ graph.now.statements.now }
    ensures found { IfOk result (λ o. FindsDependent graph.now.statements.now statement.now (element_predicates statement.now) o) }
    ensures layered { IfOk result (λ o. o ≡ None → KeepsUp graph.now.rows.items strata.old → IsLayered graph.now.table strata.new statement.now) }
    ensures climbs { IfOk result (λ o. o ≡ None → Climbs graph.now.table graph.now.rows.items graph.now.statements.now strata.old strata.new) }
{
    let mut elements = List::new(alloc);
    push_element_predicates(alloc, statement, &mut elements)?;
    if elements.is_empty() {
        return Ok(None);
    }
    raise_head(alloc, graph, statement, elements.as_slice(), strata)
}

// Raises the head of a statement above the predicates in its elements, or refuses the statement.
fn layer_or_refuse(
    alloc: Global,
    graph: &Graph,
    statement: &Statement,
    strata: &mut List<u32>,
) -> Result<(), RecursionFault>
    requires graph { IsGraph graph.now.statements.now graph.now.table graph.now.rows.items }
    requires there { statement.now ∈ graph.now.statements.now }
    ensures no_recursion { OnOk result (HasNoRecursion graph.now.statements.now statement.now) }
    ensures layered { OnOk result (KeepsUp graph.now.rows.items strata.old → IsLayered graph.now.table strata.new statement.now) }
    ensures climbs { OnOk result (Climbs graph.now.table graph.now.rows.items graph.now.statements.now strata.old strata.new) }
    ensures fault { IfErr result (IsStatementFault graph.now.statements.now statement.now) }
{
    match layer(alloc, graph, statement, strata) {
        Err(_) => Err(RecursionFault::OutOfMemory),
        Ok(None) => Ok(()),
        Ok(Some(name)) => Err(RecursionFault::Recursive {
            line: statement.line,
            name,
        }),
    }
}

// Raises the head of each statement above the predicates in its elements, or refuses the first for which that can't be.
fn layer_all(alloc: Global, graph: &Graph, strata: &mut List<u32>) -> Result<(), RecursionFault>
    requires graph { IsGraph graph.now.statements.now graph.now.table graph.now.rows.items }
    requires level { KeepsUp graph.now.rows.items strata.old }
    ensures no_recursion { OnOk result (Each (HasNoRecursion graph.now.statements.now) graph.now.statements.now) }
    ensures count { OnOk result (length strata.new ≡ length strata.old) }
    ensures keeps_up { OnOk result (KeepsUp graph.now.rows.items strata.new) }
    ensures layered { OnOk result ((s : Statement) → s ∈ graph.now.statements.now → IsLayered graph.now.table strata.new s) }
    ensures fault { IfErr result (IsRecursionFault graph.now.statements.now) }
{
    for statement in graph.statements {
        layer_or_refuse(alloc, graph, statement, strata)?;
    }
    Ok(())
}

/// The strata of the predicates of a graph, in the order of their places. If there are none, since an aggregate is recursive, the first
/// such statement, with the first predicate in its elements that depends on its head.
pub fn strata_of(alloc: Global, graph: &Graph) -> Result<List<u32>, RecursionFault>
    requires { IsGraph graph.now.statements.now graph.now.table graph.now.rows.items }
    ensures no_recursion { OnOk result (Each (HasNoRecursion graph.now.statements.now) graph.now.statements.now) }
    ensures count { IfOk result (λ strata. length strata ≡ length graph.now.table) }
    ensures keeps_up { IfOk result (λ strata. KeepsUp graph.now.rows.items strata) }
    ensures layered { IfOk result (λ strata. (s : Statement) → s ∈ graph.now.statements.now → IsLayered graph.now.table strata s) }
    ensures fault { IfErr result (IsRecursionFault graph.now.statements.now) }
{
    match zeros(alloc, graph.table.len()) {
        Err(_) => Err(RecursionFault::OutOfMemory),
        Ok(mut strata) => {
            layer_all(alloc, graph, &mut strata)?;
            Ok(strata)
        }
    }
}
