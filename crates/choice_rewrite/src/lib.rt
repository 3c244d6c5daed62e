//! Statements as single rules: the first step from programs to core rules.
//!
//! What single rules are and mean, which ones a program becomes, and that these have its answer sets: all that is in `single_rules`. Here is
//! the code, and no definition.
//!
//! | step | file |
//! |---|---|
//! | the terms that have to be defined, and all terms of a statement | `defined.rt`, `all_terms.rt` |
//! | new names for the local variables of a choice element | `above.rt`, `renaming.rt` |
//! | the rules of a choice, and the constraint for its bounds | `elements.rt` |
//! | the constraints for strong negation | `signs.rt` |
//! | the rules of a program | `splitting.rt` |
#![tactic(auto)]

mod above;
mod all_terms;
mod defined;
mod elements;
mod number;
mod renaming;
mod signs;
mod splitting;
#[cfg(test)]
mod tests;

pub use single_rules::SingleRule;
pub use splitting::split;
