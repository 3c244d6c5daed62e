//! Why an atom is in no answer set that is still to come.
//!
//! So far only the simplest reason is looked for: that no instance of any rule, made or not, has the atom as its head. Then the atom alone is a
//! cover, which needs no literals.
#![tactic(auto)]

mod heads;
#[cfg(test)]
mod tests;

pub use heads::is_underivable;
