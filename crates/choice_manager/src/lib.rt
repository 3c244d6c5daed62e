//! The bodies on which a search may choose. A body is active where the positive atoms of its instance are true and none of its negative ones
//! is true or must-be-true, while it is itself unassigned or must-be-true.
#![tactic(auto)]

mod active;
mod choices;
#[cfg(test)]
mod tests;

pub use active::active_body;
pub use choices::Choices;
