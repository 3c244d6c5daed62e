//! The arena of terms. A node stands in it once, after the nodes of its parts, so a term is its id: equal terms have equal ids, and
//! different ones different ids. Nodes are only ever added at the end, so an id keeps its meaning.
//!
//! Beside each node stand the size and the text's length of its term, which were counted from those of its parts when it was added.

ghost use Rattle.std.specs.Prelude.{◌≡◌, ◌+◌, ◌<◌, ◌≤◌, ◌^◌, ℕ, [], Some, IfOk, IfErr, length, slice_get};
ghost use Rattle.asp_meaning.specs.Lines.{value_text};
ghost use Rattle.asp_meaning.specs.Orders.{value_cmp};
ghost use Rattle.term_pool.specs.Interning.{NoneTwice, IsInterned};
ghost use Rattle.term_pool.specs.Nodes.{most_symbols, value_at, value_from, values, value_size, PartsBelow, HasArguments, IsPool, KeepsValues};
ghost use Rattle.term_pool.specs.Refusals.{IsRefusal};

use crate::fault::PoolFault;
use crate::measure::{Table, add, measure_of};
use crate::places::{compare_terms, node_at};
use alpha_outside::{Node, TermId};
use indexmap::IndexMap;
use std::alloc::Global;
use std::cmp::Ordering;
use std::marker::Model;

/// The terms of a run, each once. A node's parts stand before it, and an entry never changes.
#[derive(Drop)]
pub struct TermPool {
    table: Table,
}

impl Model for TermPool {
    ghost use Rattle.std.specs.Prelude.{List};
    ghost use Rattle.std.specs.Map.{keys_of};
    ghost use Rattle.alpha_outside.specs.declared.node.Node.{Node};
    ghost use Rattle.term_pool.specs.Table.{IsTable};

    ghost Value = { List Node };

    ghost view = { λ p. keys_of p.table.entries };

    ghost invariant = { λ p. IsTable p.table.entries };
}

impl TermPool {
    /// An empty pool, which holds no memory.
    pub fn new(alloc: Global) -> TermPool
        ensures { result ≡ [] }
    {
        TermPool {
            table: IndexMap::new(alloc),
        }
    }

    /// The number of terms.
    pub fn len(&self) -> u32
        ensures len { result ≡ length self.now }
        ensures pool { IsPool self.now }
        ensures distinct { NoneTwice (values self.now) }
        ensures small { (id : ℕ) → id < length self.now → value_size (value_at self.now id) ≤ most_symbols }
    {
        self.table.len() as u32
    }

    /// The outermost symbol of a term, and its parts.
    pub fn node(&self, id: TermId) -> &Node
        requires { id < length self.now }
        ensures there { slice_get self.now id ≡ Some result.now }
        ensures parts { PartsBelow id result.now }
        ensures arguments { HasArguments result.now }
        ensures value { value_at self.now id ≡ value_from (values self.now) result.now }
    {
        node_at(self.nodes(), id)
    }

    /// The nodes of all terms, each at the place that is its id.
    pub fn nodes(&self) -> &[Node]
        ensures nodes { result.now ≡ self.now }
        ensures pool { IsPool self.now }
    {
        self.table.keys().as_slice()
    }

    /// The number of symbols of a term, counted as a tree.
    pub fn size(&self, id: TermId) -> u32
        requires { id < length self.now }
        ensures size { result ≡ value_size (value_at self.now id) }
        ensures small { result ≤ most_symbols }
    {
        self.table[id.place()].size
    }

    /// The length of a term's text in bytes.
    pub fn text_len(&self, id: TermId) -> u64
        requires { id < length self.now }
        ensures { result ≡ length (value_text (value_at self.now id)) }
    {
        self.table[id.place()].text_len
    }

    /// The id of a node, which is added last if it isn't there. It costs one look-up and, for a new node, a walk over its parts.
    ///
    /// Want of memory is also answered where the id would be 4,294,967,295, and where the length of the text has no place in a
    /// `u64`.
    pub fn intern(&mut self, node: Node) -> Result<TermId, PoolFault>
        requires parts { PartsBelow (length self.old) node }
        requires arguments { HasArguments node }
        ensures ok { IfOk result (λ id. IsInterned self.old self.new node id) }
        ensures value { IfOk result (λ id. value_at self.new id ≡ value_from (values self.old) node) }
        ensures small { IfOk result (λ _. value_size (value_from (values self.old) node) ≤ most_symbols) }
        ensures kept { KeepsValues self.old self.new }
        ensures refused { IfErr result (λ fault. IsRefusal self.old self.new node fault) }
        ensures pool { IsPool self.new }
    {
        match self.table.get_index_of(&node) {
            Some(place) => Ok(TermId(place as u32)),
            None => match measure_of(&self.table, &node) {
                Err(fault) => Err(fault),
                Ok(measure) => add(&mut self.table, node, measure),
            },
        }
    }

    /// The order of two terms. It goes down into the first parts that differ, and so costs no more than what they share on that
    /// way: terms with different ids differ.
    pub fn compare(&self, a: TermId, b: TermId) -> Ordering
        requires left { a < length self.now }
        requires right { b < length self.now }
        ensures { result ≡ value_cmp (value_at self.now a) (value_at self.now b) }
    {
        compare_terms(self.nodes(), a, b)
    }
}
