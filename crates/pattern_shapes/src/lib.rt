//! Shapes: the atoms of a rule as patterns, where its variables stand for terms with holes.
//!
//! Under the most general unifier of the rule's head and a pattern (`unify`) each variable is such a term. An atom without arithmetic then is a
//! pattern, and what the pattern becomes is what the atom is under the values that the terms become.
#![tactic(auto)]

mod holes;
mod shapes;
#[cfg(test)]
mod tests;

pub use holes::has_no_holes;
pub use shapes::{shape_under, term_under};
