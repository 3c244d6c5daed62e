//! The sets that an after file lists: a file of set lines, say the output of an earlier run, whose sets are not printed again.
//!
//! A line of the file is a set by whatever spelling, or it is empty or a comment. A book has each listed set once, by its canonical
//! line. Which bytes are which set is defined in `answer_printer`, and what a file lists in `specs/Listed.antt`.
#![tactic(auto)]

mod book;
mod fault;
mod lines;

pub use book::AfterBook;
pub use fault::AfterFault;

#[cfg(test)]
mod tests;
