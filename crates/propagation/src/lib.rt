//! Propagation by watches: values that unit nogoods give, until nothing is unit or struck, or a nogood is struck.
//!
//! A store and a trail match where the watches of each nogood that was visited suffice: before it is unit or struck, an entry that isn't
//! taken up yet makes a literal hold that it watches. So it is enough to visit each new nogood once, and to take up each entry and visit
//! the nogoods that watch its literal.
#![tactic(auto)]

mod admitting;
mod fixpoint;
mod putting;

pub use admitting::admit;
pub use fixpoint::{Fix, propagate};
pub use putting::{PropFault, give};
