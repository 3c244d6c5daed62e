//! The theory of the search: what a journal of a lawful lazy search is, and why such a search is right.
//!
//! There is no code here: the definitions stand in `specs/`, and the laws are the contracts of the functions below, which hold for
//! every numbering, every kind of atom and every kind of maker. A crate that searches ties its state to these definitions.
#![tactic(auto)]

mod laws;

pub use laws::{examples, refusals, search_laws};
