//! Single rules as core rules: the second step from programs to core rules.
//!
//! What a rule becomes stands in `rewriting/specs`, and why that has the same answer sets in the laws of that crate. Rules with aggregates
//! aren't rewritten yet.
//!
//! | step | file |
//! |---|---|
//! | the first number that no anonymous variable of a rule has | `free.rt` |
//! | the negative literals and the comparisons of its body | `parts.rt` |
//! | arithmetic goes out of its positive atoms | `lifting.rt` |
//! | its variables in the order in which they come first | `table.rt`, `rule_table.rt` |
//! | terms, atoms and tests with numbers for variables | `numbering.rt` |
//! | the core rule | `rules.rt` |
//!
//! A rule is gone over a fixed number of times, and each look-up of a variable is one in a table of hashes.
#![tactic(auto)]

mod comparison;
mod free;
mod lifting;
mod number;
mod numbering;
mod parts;
mod rule_table;
mod rules;
mod table;
#[cfg(test)]
mod tests;

pub use rules::rewrite;
