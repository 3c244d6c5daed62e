//! Programs from their tokens.
//!
//! `parse` gives the one program of a text's tokens by the grammar of the language, or the first faulty token and why it is faulty.
#![tactic(auto)]

mod constructs;
mod fault;
mod nesting;
mod parsing;
#[cfg(test)]
mod shown;
mod taking;
#[cfg(test)]
mod tests;

pub use fault::ParseFault;
pub use parsing::parse;
