//! Unification: which instances of a rule have a head that a pattern covers.
//!
//! A pattern is an atom with holes. `unify` finds the most general unifier of the head of a core rule and a pattern: for each variable of the
//! rule a term with holes, and the values that these terms become are exactly the values for the variables that make the head an atom that
//! the pattern covers (`specs/Patterns.antt`, `specs/Unifiers.antt`). An arithmetic term in the head unifies with everything, since its value
//! isn't known.
//!
//! It is Robinson's unification, by the rules of Martelli and Montanari on a worklist of equations (`solve`): a hole gets its term unless it
//! stands in it, and two functional terms give equations between their arguments. Terms of the pool stand whole in an equation, and are taken
//! apart only where they meet a functional term.
#![tactic(auto)]

mod opening;
mod solving;
mod substitution;
mod unifying;

pub use opening::opened;
pub use solving::{Equation, solve};
pub use substitution::{above_holes, applied, moved};
pub use unifying::{own_terms, unify};
