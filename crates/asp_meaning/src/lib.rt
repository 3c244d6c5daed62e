//! What programs mean: values, evaluation, when a body holds, answer sets, set lines.
//!
//! This crate is the front room of the solver. It has definitions alone, in `specs/`, over the whole language, and each promise of
//! the program is stated by them:
//!
//! | file | defines |
//! |---|---|
//! | `Terms.antt` | substitutions, and the value of a term |
//! | `Orders.antt` | the order of values, and comparisons |
//! | `Atoms.antt` | atoms without variables, and the atom that one with variables becomes |
//! | `Variables.antt` | which variables are global in a statement |
//! | `Bodies.antt` | literals, aggregates, and when a body holds |
//! | `Programs.antt` | instances, closed and founded sets, answer sets |
//! | `Lines.antt` | the line of a set |
//! | `Output.antt` | the set lines of an output |
//! | `Readable.antt` | atoms whose names and texts are those of the language |
//!
//! The language is a profile of ASP-Core-2 (Calimeri and others, *ASP-Core-2 Input Language Format*, 2020), whose sections the
//! definitions name. Answer sets are those of Gelfond and Lifschitz (1988, 1991), stated by an ordered list in place of the reduct.
//! There is no grounding, nogood, trail, numbering or search in them. `proofs/` has lemmas on the orders and the texts.
#![tactic(auto)]

mod value;

pub use value::Value;
