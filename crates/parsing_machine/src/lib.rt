//! The code of the machine that reads programs, one token after the other.
//!
//! What each token does stands in `asp_grammar`'s `specs/Machine.antt` and `specs/Reading.antt`; the functions here have the names
//! of the definitions there. Nothing recurs: what is still open stands in the state. A file for each thing
//! that is read calls only those named before it: the parts of states; what may stand after an item, a head, a condition, an
//! aggregate, a whole term, an operand; where an operand, a literal, an element or a statement begins; every state; a program.
#![tactic(auto)]

mod aggregates;
mod beginnings;
mod bodies;
mod conditions;
mod elements;
mod heads;
mod literals;
mod operands;
mod parts;
mod reading;
mod states;
mod steps;
mod terms;
mod whole_terms;

pub use reading::{advance, count_after, finish, may_end, signs_in, start};
