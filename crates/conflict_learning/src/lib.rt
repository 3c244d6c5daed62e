//! Learning from a conflict: from a struck nogood a new one is resolved that is unit below the highest level of the conflict, so that the
//! search can go back and give the other value.
//!
//! A literal stands on the first value of its atom: its level, its place on the trail and its reason are those of that entry. When an
//! atom goes from must-be-true to true, no further literal holds.
//!
//! Contracts speak of the stored nogoods by `map nogood_of`, in the words of `journal_theory`: what follows by resolution, the form of
//! what analysis learns, and what the entries of a stack rest on.
#![tactic(auto)]

mod analysis;
mod choosing;
mod laws;
mod levels;
mod pending;
mod places;
#[cfg(test)]
mod tests;

pub use analysis::{Analysis, analyse};
pub use choosing::first_struck;
pub use laws::learning_laws;
pub use levels::unit_level;
