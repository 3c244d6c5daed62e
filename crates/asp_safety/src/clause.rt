//! Clauses: one variable is bound where others are.

use crate::key::Key;
use alpha_outside::List;

/// `gives` is bound where all of `needs` are.
#[derive(Debug, Drop)]
pub struct Clause {
    pub needs: List<Key>,
    pub gives: Key,
}
