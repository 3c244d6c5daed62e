//! The state of a search for answer sets over a core with variables.
//!
//! Contracts see a search as a state of the search's theory: what was noted of the ground, the nogoods and the stack. Terms, atoms and
//! instances come into the ground before they are noted, by the grounder; each other step is one event, and each look at the state
//! answers a question of the theory. What follows what, and why that is right, is a crate's above.
#![tactic(auto)]

mod covering;
mod finding;
mod grounding;
mod laws;
mod learning;
mod noting;
mod propagating;
mod search;

pub use conflict_learning::Analysis;
pub use laws::joining;
pub use search::{Search, Stage};
