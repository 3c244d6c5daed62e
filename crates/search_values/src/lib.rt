//! What a search is about: values and the stack of assigned atoms, literals and nogoods, instances of core rules with their
//! numberings and core answer sets, and the table of an instance's nogoods.
//!
//! The definitions stand in `specs/`, over any kind of atoms and makers. They know no events: what a search does with them is the
//! theory's (`search_theory`).
#![tactic(auto)]

mod entry;

pub use entry::{Entry, Why};
