//! Why an atom is in no answer set that is still to come, told by the rules with variables: patterns of atoms that no core instance derives, made or
//! not, where some literals hold.
//!
//! Source: Bogaerts and Weinzierl, "Exploiting Justifications for Lazy Grounding of Answer Set Programs" (IJCAI 2018).
#![tactic(auto)]

mod base;
mod reason;
#[cfg(test)]
mod tests;

pub use base::{base_values, had};
pub use reason::Reason;
