//! How what came into a ground is noted to the trace, and how its instances come into the store of nogoods and the choices.
//!
//! First all terms are noted. Then come the atoms in the order of their ids, and before the body atom of an instance all earlier instances,
//! so that a body atom is always that of the next instance. At the end come the instances that are left.
//!
//! An instance is made in this order: its nogoods are stored, it is noted as a choice, and then its event is noted. So after a
//! fault of the trace the journal is a front of a longer one, and nothing but that front has to be looked at.
#![tactic(auto)]

mod drafting;
mod making;
mod naming;
mod noting;
mod telling;

pub use noting::note_ground;
pub use telling::{NoteFault, Told};

#[cfg(test)]
mod tests;
