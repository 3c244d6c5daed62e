//! The predicates of a program with their strata.

ghost use Rattle.std.specs.Prelude.{◌≡◌, IfOk, IfErr, OnOk};
ghost use Rattle.lists.specs.Lists.{Each};
ghost use Rattle.asp_strata.specs.declared.predicate.Predicate.{Predicate};
ghost use Rattle.asp_strata.specs.Recursion.{HasNoRecursion};
ghost use Rattle.asp_strata.specs.Strata.{IsStratification, stratum_in, stratum_of};
ghost use Rattle.asp_strata.specs.Faults.{IsRecursionFault};

use crate::RecursionFault;
use crate::graph::{Graph, graph_of};
use crate::places::Table;
use crate::predicate::Predicate;
use crate::strata::strata_of;
use alpha_outside::List;
use asp_syntax::Statement;
use std::alloc::Global;
use std::marker::Model;

/// The predicates of a program, and beside each its stratum.
#[derive(Drop)]
pub struct Layers {
    table: Table,
    strata: List<u32>,
}

impl Model for Layers {
    ghost use Rattle.asp_strata.specs.Strata.{Levels};

    ghost Value = { Levels };

    ghost view = { λ l. record { predicates = l.table; strata = l.strata } };
}

impl Layers {
    /// The stratum of a predicate, if it has one.
    pub fn stratum(&self, negated: bool, name: &[u8], arity: u32) -> Option<u32>
        ensures { result ≡ stratum_of self.now (record { negated = negated; name = name.now; arity = arity }) }
    {
        look_up(
            self.table.as_slice(),
            self.strata.as_slice(),
            negated,
            name,
            arity as usize,
        )
    }
}

/// The layers of a program. If there are none, since an aggregate is recursive, the first such statement, with the first predicate in
/// its elements that depends on its head.
pub fn layers_of(alloc: Global, statements: &[Statement]) -> Result<Layers, RecursionFault>
    ensures no_recursion { OnOk result (Each (HasNoRecursion statements.now) statements.now) }
    ensures strata { IfOk result (λ layers. IsStratification statements.now (stratum_of layers)) }
    ensures fault { IfErr result (IsRecursionFault statements.now) }
{
    match graph_of(alloc, statements) {
        Err(_) => Err(RecursionFault::OutOfMemory),
        Ok(graph) => {
            let strata = strata_of(alloc, &graph)?;
            let Graph {
                statements: _,
                table,
                rows: _,
            } = graph;
            Ok(Layers { table, strata })
        }
    }
}

// The stratum that stands beside a predicate.
fn look_up(
    predicates: &[Predicate],
    strata: &[u32],
    negated: bool,
    name: &[u8],
    arity: usize,
) -> Option<u32>
    ensures { result ≡ stratum_in predicates.now strata.now (record { negated = negated; name = name.now; arity = arity }) }
{
    for place in 0..predicates.len() {
        if predicates[place].is(negated, name, arity) {
            return strata.get(place).copied();
        }
    }
    None
}
