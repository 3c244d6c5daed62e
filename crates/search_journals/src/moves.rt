//! What a search may do next.

use alpha_outside::{ArithOp, AtomId, NogoodId};

/// What comes next.
#[derive(Clone, Copy, Debug, PartialEq, Eq)]
pub enum Move {
    /// The nogood is struck.
    Strike(NogoodId),
    /// The next entry of the trail is handed to the grounder.
    Join,
    /// No rule gives the atom, which has no value.
    Justify(AtomId),
    /// The body is active.
    Choose(AtomId),
    /// The atom is unassigned where the state is settled.
    Close(AtomId),
    /// An operation of a rule of this line, all of whose positive atoms are up, has no place in 64 bits.
    Overflow {
        line: u32,
        op: ArithOp,
        left: i64,
        right: i64,
    },
    /// A rule of this line, all of whose positive atoms are up, has a term of so many symbols, which are too many.
    TooLarge {
        line: u32,
        size: u64,
    },
    /// An instance is due, and no more may be made.
    Spent,
    /// The named atom stays must-be-true.
    Stuck(AtomId),
    /// A set is found.
    Full,
}
