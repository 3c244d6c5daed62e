//! The terms of a text, each once. Other than a `TermPool` this arena has no limit of their size, and keeps nothing beside a node: a
//! set that was printed by whatever run, of terms of whatever size, can be read.

ghost use Rattle.std.specs.Prelude.{◌≡◌, [], IfOk, length};
ghost use Rattle.term_pool.specs.Interning.{IsInterned};
ghost use Rattle.term_pool.specs.Nodes.{value_at, value_from, values, PartsBelow, HasArguments, IsPool, KeepsValues};

use alpha_outside::{Node, OutOfMemory, TermId};
use atom_pool::intern;
use indexmap::IndexSet;
use std::alloc::Global;
use std::marker::Model;

/// Terms, each once. A node's parts stand before it, and an entry never changes.
#[derive(Drop)]
pub struct ReadTerms {
    nodes: IndexSet<Node>,
}

impl Model for ReadTerms {
    ghost use Rattle.std.specs.Prelude.{List};
    ghost use Rattle.alpha_outside.specs.declared.node.Node.{Node};
    ghost use Rattle.term_pool.specs.Nodes.{IsPool};

    ghost Value = { List Node };

    ghost view = { λ p. p.nodes.keys };

    ghost invariant = { λ p. IsPool p.nodes.keys };
}

impl ReadTerms {
    /// No terms, which hold no memory.
    pub fn new(alloc: Global) -> ReadTerms
        ensures { result ≡ [] }
    {
        ReadTerms {
            nodes: IndexSet::new(alloc),
        }
    }

    /// The nodes of all terms, each at the place that is its id.
    pub fn nodes(&self) -> &[Node]
        ensures nodes { result.now ≡ self.now }
        ensures pool { IsPool self.now }
    {
        self.nodes.as_slice()
    }

    /// The id of a node, which is added last if it isn't there. It costs one look-up.
    pub fn intern(&mut self, node: Node) -> Result<TermId, OutOfMemory>
        requires parts { PartsBelow (length self.old) node }
        requires arguments { HasArguments node }
        ensures ok { IfOk result (λ id. IsInterned self.old self.new node id) }
        ensures value { IfOk result (λ id. value_at self.new id ≡ value_from (values self.old) node) }
        ensures kept { KeepsValues self.old self.new }
        ensures pool { IsPool self.new }
    {
        match intern(&mut self.nodes, node) {
            Ok(place) => Ok(TermId(place)),
            Err(fault) => Err(fault),
        }
    }
}
