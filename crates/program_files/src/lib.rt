//! The files of a command line: those of the program, read one after another into one text, and the file of the sets that are not to
//! be printed again.
//!
//! A file that can't be read is answered only where the shelf's count of faults rose, and one that makes the files too long only where
//! so many bytes were taken.
#![tactic(auto)]

mod fault;
mod reading;
#[cfg(test)]
mod tests;

pub use fault::FilesFault;
pub use reading::{read_listed, read_program};
