//! Closing: when nothing else is left to do, the named atoms without a value are set false, one after another, and what follows from each is
//! propagated.
#![tactic(auto)]

mod rounds;
mod stuck;

pub use rounds::{Closing, close_all};
