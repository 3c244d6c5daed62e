//! Answer sets of a core, one after another, each written as it is found.
//!
//! The instances without positive atoms are made first. Then the search propagates values, hands each atom that has become true or
//! must-be-true to the grounder, which makes the instances that are due with it, and chooses bodies, until a nogood is struck, an atom stays
//! must-be-true, a set is found, or the grounder stops. From a conflict it learns why, from a set and from most stuck atoms that these literals
//! aren't to be chosen again, and goes back to where what it learned gives a value. A set that the book lists is passed over.
//!
//! Why all this is right stands in `search_journals`: a contract here says what a step leaves in the words of its `specs`, and an answer
//! names its lemma.
#![tactic(auto)]

mod advance;
mod joining;
mod justifying;
mod learning;
mod moves;
mod propagating;
mod searching;
mod settle;
mod showing;
mod steps;
#[cfg(test)]
mod tests;

pub use search_journals::{End, SearchFault, Settings};
pub use searching::search;
