//! How far a search has looked: fronts before which no atom and no body is open, so that a look begins where the last one ended.
//!
//! A front moves on as far as there is nothing to find, falls to what is taken from the trail, and is otherwise left alone. So all looks
//! together cost one step for each atom and instance, and one more for each entry that is taken away.
#![tactic(auto)]

mod falling;
mod finding;
mod fronts;
mod passing;

pub use finding::first_active;
pub use fronts::Fronts;
