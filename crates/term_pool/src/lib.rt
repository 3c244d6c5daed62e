//! The terms of a run, each once.
//!
//! A `TermPool` holds each term as a node, its outermost symbol with the ids of its parts. What a node means is a value of
//! `asp_meaning`; how pools and values stand to one another is defined in `specs/Nodes.antt`. Two terms are equal exactly where
//! their ids are, so equality costs one comparison of numbers, and the order of two terms goes down along one path.
#![tactic(auto)]

mod fault;
mod measure;
mod order;
mod places;
mod pool;

pub use fault::PoolFault;
pub use places::{compare_terms, node_at};
pub use pool::TermPool;

#[cfg(test)]
mod tests;
