//! Terms by the list of nodes in which they stand: the node at an id, and the order of two terms.
//!
//! A pool lends its nodes, so what only reads terms needs not know of which kind of pool they are.

ghost use Rattle.std.specs.Prelude.{◌≡◌, ◌<◌, Some, length, slice_get};
ghost use Rattle.asp_meaning.specs.Orders.{value_cmp};
ghost use Rattle.term_pool.specs.Nodes.{value_at, value_from, values, PartsBelow, HasArguments, IsPool};

use crate::order::{NodeOrder, order_of_nodes};
use alpha_outside::{Node, TermId};
use std::cmp::Ordering;

/// The outermost symbol of a term, and its parts.
pub fn node_at(nodes: &[Node], id: TermId) -> &Node
    requires pool { IsPool nodes.now }
    requires id { id < length nodes.now }
    ensures there { slice_get nodes.now id ≡ Some result.now }
    ensures parts { PartsBelow id result.now }
    ensures arguments { HasArguments result.now }
    ensures value { value_at nodes.now id ≡ value_from (values nodes.now) result.now }
{
    &nodes[id.place()]
}

/// The order of two terms. It goes down into the first parts that differ, and so costs no more than what they share on that way:
/// terms with different ids differ.
pub fn compare_terms(nodes: &[Node], a: TermId, b: TermId) -> Ordering
    requires pool { IsPool nodes.now }
    requires left { a < length nodes.now }
    requires right { b < length nodes.now }
    ensures { result ≡ value_cmp (value_at nodes.now a) (value_at nodes.now b) }
{
    let mut left = a;
    let mut right = b;
    loop {
        match order_of_nodes(node_at(nodes, left), node_at(nodes, right)) {
            NodeOrder::Known(order) => return order,
            NodeOrder::Parts(x, y) => {
                left = x;
                right = y;
            }
        }
    }
}
