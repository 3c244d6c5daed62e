//! Set lines: how a set of atoms is written, and how a line is read as a set.
//!
//! `set_line` gives the line of a set of atoms of a pool. The line of a set is defined in `asp_meaning`: the atoms in their order,
//! between braces. `sorted_atoms` gives the ids of a set in that order. `read_set_line` reads any text of a set, with its blanks, in
//! whatever order and with whatever repeats, and gives the line of that set. Which bytes are which set is defined in
//! `specs/Words.antt` and `specs/Sets.antt`. Terms may be nested as deep as memory allows, so nothing here recurses.
#![tactic(auto)]

mod atoms;
mod fault;
mod lexing;
mod line;
mod phase;
mod read_terms;
mod reader;
mod reading;
mod terms;
mod words;

pub use fault::SetFault;
pub use line::{set_line, sorted_atoms};
pub use reading::read_set_line;

#[cfg(test)]
mod tests;
