ghost use Rattle.std.specs.Prelude.{◌≡◌, ◌+◌, ◌<◌, ◌≤◌, ◌^◌, All, IfOk, IfSome, IfErr, length, sum_by, slice_get};
ghost use Rattle.std.specs.Map.{values_of};
ghost use Rattle.term_pool.specs.Nodes.{PartsBelow, most_symbols};
ghost use Rattle.term_pool.specs.Table.{size_at, text_len_at, node_size, node_text_len, marks};
ghost use Rattle.term_pool.specs.Measured.{Measures, IsAdded};
ghost use Rattle.std.specs.Prelude.{None, ◌++◌, [], ◌∷◌};
ghost use Rattle.alpha_outside.specs.Nodes.{node_eq};
ghost use Rattle.indexmap.specs.IndexMap.{get};
ghost use Rattle.asp_meaning.specs.Lines.{integer_text};

use crate::fault::PoolFault;
use alpha_outside::{Name, Node, TermId};
use indexmap::IndexMap;
use itoa::Buffer;

/// How many symbols a term has, and how long its text is.
#[derive(Clone, Copy, Debug)]
pub struct Measure {
    pub size: u32,
    pub text_len: u64,
}

/// The nodes of a pool, each with the measures of its term.
pub type Table = IndexMap<Node, Measure>;

/// The most symbols that a term may have.
const MOST_SYMBOLS: u64 = 1_048_576;

// The symbols of the parts together.
fn parts_size(table: &Table, parts: &[TermId]) -> Option<u64>
    requires { All (λ a. a < length table.now.entries) parts.now }
    ensures { IfSome result (λ n. n ≡ sum_by (size_at table.now.entries) parts.now) }
{
    let mut total: u64 = 0;
    for part in parts {
        let measure = &table[part.place()];
        total = total.checked_add(measure.size as u64)?;
    }
    Some(total)
}

// The bytes of the parts' texts together.
fn parts_text_len(table: &Table, parts: &[TermId]) -> Option<u64>
    requires { All (λ a. a < length table.now.entries) parts.now }
    ensures { IfSome result (λ n. n ≡ sum_by (text_len_at table.now.entries) parts.now) }
{
    let mut total: u64 = 0;
    for part in parts {
        let measure = &table[part.place()];
        total = total.checked_add(measure.text_len)?;
    }
    Some(total)
}

// The bytes that stand round and between so many parts.
fn mark_count(parts: &[TermId]) -> u64
    ensures { result ≡ marks parts.now }
{
    match parts.len() {
        0 => 0,
        count => count as u64 + 1,
    }
}

// The symbols of a node, where they can be counted.
fn size_of(table: &Table, node: &Node) -> Option<u64>
    requires { PartsBelow (length table.now.entries) node.now }
    ensures { IfSome result (λ n. n ≡ node_size (size_at table.now.entries) node.now) }
{
    match node {
        Node::Int(_) => Some(1),
        Node::Symbol(_) => Some(1),
        Node::Text(_) => Some(1),
        Node::Fun(_, parts) => parts_size(table, parts.as_slice())?.checked_add(1),
    }
}

// The length of a functional term's text.
fn call_text_len(table: &Table, name: &Name, parts: &[TermId]) -> Option<u64>
    requires { All (λ a. a < length table.now.entries) parts.now }
    ensures { IfSome result (λ n. n ≡ length name.now + (marks parts.now + sum_by (text_len_at table.now.entries) parts.now)) }
{
    let inside = mark_count(parts).checked_add(parts_text_len(table, parts)?)?;
    (name.as_bytes().len() as u64).checked_add(inside)
}

// The bytes of an integer's text.
fn integer_text_len(number: i64) -> u64
    ensures { result ≡ length (integer_text number) }
{
    let mut buffer = Buffer::new();
    buffer.format(number).len() as u64
}

// The length of a node's text, where it can be counted.
fn text_len_of(table: &Table, node: &Node) -> Option<u64>
    requires { PartsBelow (length table.now.entries) node.now }
    ensures { IfSome result (λ n. n ≡ node_text_len (text_len_at table.now.entries) node.now) }
{
    match node {
        Node::Int(x) => Some(integer_text_len(*x)),
        Node::Symbol(name) => Some(name.as_bytes().len() as u64),
        Node::Text(text) => (text.as_bytes().len() as u64).checked_add(2),
        Node::Fun(name, parts) => call_text_len(table, name, parts.as_slice()),
    }
}

/// The measures of a node whose parts stand in the table. A length that no number holds counts as want of memory.
pub fn measure_of(table: &Table, node: &Node) -> Result<Measure, PoolFault>
    requires { PartsBelow (length table.now.entries) node.now }
    ensures { Measures table.now.entries node.now result }
{
    match size_of(table, node) {
        None => Err(PoolFault::OutOfMemory),
        Some(size) if size > MOST_SYMBOLS => Err(PoolFault::TooLarge { size }),
        Some(size) => match text_len_of(table, node) {
            None => Err(PoolFault::OutOfMemory),
            Some(text_len) => Ok(Measure {
                size: size as u32,
                text_len,
            }),
        },
    }
}

/// The most nodes that a table holds.
const MOST_NODES: usize = 0xffff_ffff;

/// Puts a node that isn't there last.
pub fn add(table: &mut Table, node: Node, measure: Measure) -> Result<TermId, PoolFault>
    requires { get node_eq table.old node ≡ None }
    ensures { IsAdded table.old.entries table.new.entries node measure result }
{
    let place = table.len();
    if place >= MOST_NODES {
        return Err(PoolFault::OutOfMemory);
    }
    match table.insert(node, measure) {
        Ok(_) => Ok(TermId(place as u32)),
        Err(_) => Err(PoolFault::OutOfMemory),
    }
}
