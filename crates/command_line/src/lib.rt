//! Reads the words of a command line: what they ask for, or that they are refused.
//!
//! Which words name which option or file is `clap`'s function of one simple command (`specs/Commands.antt`).
//! Words that are written plainly ask for just what they say (`specs/Plain.antt`).
#![tactic(auto)]

mod command;
mod number;
mod request;
#[cfg(test)]
mod tests;
mod words;

pub use request::Solve;
pub use words::{WordsFault, read_words};
