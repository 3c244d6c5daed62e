//! Why what a search does is a legal journal: where a search stands, what each of its steps leaves, and that it stands after each where
//! it stood before.
//!
//! There is no code here but the plain data of a search's answers. `specs/Standing.antt` says what it is for a search to stand where a
//! journal leads, `specs/Moves.antt` what may come next, `specs/Runs.antt` and `specs/Settling.antt` what steps leave, and
//! `specs/Search.antt` what a whole search promises.
#![tactic(auto)]

mod ends;
mod moves;

pub use ends::{End, Finish, SearchFault};
pub use moves::Move;
pub use search_settings::Settings;
