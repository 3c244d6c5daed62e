//! The predicates that are in a statement's head or depend on one of it.
//!
//! They are found by a search from the head over the rows of the graph: each place that was found is looked at once, in the order in
//! which they were found, and what its row has is found too.

ghost use Rattle.std.specs.Prelude.{◌≡◌, ◌↔◌, ◌<◌, ℕ, length, IfOk};
ghost use Rattle.lists.specs.Lists.{◌∈◌};
ghost use Rattle.asp_strata.specs.Graphs.{IsGraph, IsWithin, Reached, AreDependents};

use crate::graph::{Graph, heads_of};
use crate::place_set::PlaceSet;
use alpha_outside::OutOfMemory;
use asp_syntax::Statement;
use std::alloc::Global;

// The roots, and all places to which rows lead from them.
fn reach(rows: &Vec<PlaceSet>, roots: PlaceSet) -> Result<PlaceSet, OutOfMemory>
    requires roots { (i : ℕ) → i ∈ roots → i < length rows.now.items }
    requires rows { IsWithin rows.now.items }
    ensures { IfOk result (λ found. (i : ℕ) → (i ∈ found) ↔ Reached rows.now.items roots i) }
{
    let mut found = roots;
    let mut next = 0;
    'searching: while next < found.len() {
        let place = found.as_slice()[next];
        found.add_all(rows[place].as_slice())?;
        next += 1;
    }
    Ok(found)
}

/// The places of the predicates that are in the head of a statement of the graph's program or depend on one of it.
pub fn dependents_of(
    alloc: Global,
    graph: &Graph,
    statement: &Statement,
) -> Result<PlaceSet, OutOfMemory>
    requires graph { IsGraph graph.now.statements.now graph.now.table graph.now.rows.items }
    requires there { statement.now ∈ graph.now.statements.now }
    ensures { IfOk result (λ found. AreDependents graph.now.statements.now graph.now.table statement.now found) }
{
    let roots = heads_of(alloc, &graph.table, statement)?;
    reach(&graph.rows, roots)
}
