ghost use Rattle.std.specs.Prelude.{◌≡◌, ◌<◌, length};
ghost use Rattle.term_pool.specs.Nodes.{HasArguments};
ghost use Rattle.term_pool.specs.Orders.{FirstApart, IsNodeOrder};
ghost use Rattle.alpha_outside.specs.declared.node.Node.TheVariants.{Fun as call_node};

use alpha_outside::{Name, Node, TermId};
use std::cmp::Ordering;

/// The order of two nodes: known, or that of these parts, which differ.
#[derive(Clone, Copy, Debug)]
pub enum NodeOrder {
    Known(Ordering),
    Parts(TermId, TermId),
}

// The first parts that differ.
fn first_apart(xs: &[TermId], ys: &[TermId]) -> Option<(TermId, TermId)>
    requires { length xs.now ≡ length ys.now }
    ensures { FirstApart xs.now ys.now result }
{
    for place in 0..xs.len() {
        let left = xs[place];
        let right = ys[place];
        if left != right {
            return Some((left, right));
        }
    }
    None
}

// The order of two functional terms: by the number of arguments, then by name, then by the first arguments that differ.
fn order_of_calls(f: &Name, xs: &[TermId], g: &Name, ys: &[TermId]) -> NodeOrder
    requires left { 0 < length xs.now }
    requires right { 0 < length ys.now }
    ensures { IsNodeOrder (call_node f.now xs.now) (call_node g.now ys.now) result }
{
    let by_length = xs.len().cmp(&ys.len());
    if by_length != Ordering::Equal {
        return NodeOrder::Known(by_length);
    }
    let by_name = f.cmp(g);
    if by_name != Ordering::Equal {
        return NodeOrder::Known(by_name);
    }
    match first_apart(xs, ys) {
        None => NodeOrder::Known(Ordering::Equal),
        Some((left, right)) => NodeOrder::Parts(left, right),
    }
}

/// The order of two nodes of one pool: by their outermost symbols, or by the first parts that differ.
pub fn order_of_nodes(x: &Node, y: &Node) -> NodeOrder
    requires left { HasArguments x.now }
    requires right { HasArguments y.now }
    ensures { IsNodeOrder x.now y.now result }
{
    match x {
        Node::Int(m) => match y {
            Node::Int(n) => NodeOrder::Known(m.cmp(n)),
            _ => NodeOrder::Known(Ordering::Less),
        },
        Node::Symbol(s) => match y {
            Node::Int(_) => NodeOrder::Known(Ordering::Greater),
            Node::Symbol(t) => NodeOrder::Known(s.cmp(t)),
            _ => NodeOrder::Known(Ordering::Less),
        },
        Node::Text(s) => match y {
            Node::Text(t) => NodeOrder::Known(s.cmp(t)),
            Node::Fun(_, _) => NodeOrder::Known(Ordering::Less),
            _ => NodeOrder::Known(Ordering::Greater),
        },
        Node::Fun(f, xs) => match y {
            Node::Fun(g, ys) => order_of_calls(f, xs.as_slice(), g, ys.as_slice()),
            _ => NodeOrder::Known(Ordering::Greater),
        },
    }
}
