//! How a search ends.

use alpha_outside::ArithOp;

/// How a search ends by itself.
#[derive(Clone, Copy, Debug, PartialEq, Eq)]
pub enum Finish {
    /// No set is left.
    Finished,
    /// As many sets were shown as the limit allows.
    LimitReached,
    /// As many nogoods were struck as the budget allows, and one more is struck.
    Conflicts,
    /// As many instances were made as the budget allows, and one more is due.
    Instances,
    /// Under a binding that makes all positive atoms of a rule of this line true or must-be-true, this operation has no place in 64 bits.
    Overflow {
        line: u32,
        op: ArithOp,
        left: i64,
        right: i64,
    },
    /// Under such a binding a term has so many symbols, which are more than 1,048,576.
    TermTooLarge {
        line: u32,
        size: u64,
    },
}

/// How a search ended by itself. `printed` is how many sets were written.
#[derive(Clone, Copy, Debug, PartialEq, Eq)]
pub enum End {
    /// Every answer set was written.
    Finished {
        printed: u64,
    },
    /// As many sets were written as the limit allows.
    LimitReached {
        printed: u64,
    },
    /// As many nogoods were noted as struck as the budget allows, and one more is struck.
    Conflicts {
        printed: u64,
    },
    /// As many instances were made as the budget allows, and one more is due.
    Instances {
        printed: u64,
    },
    /// Under a binding that makes all positive atoms of a rule of this line true or must-be-true, this operation has no place in 64 bits.
    Overflow {
        line: u32,
        op: ArithOp,
        left: i64,
        right: i64,
        printed: u64,
    },
    /// Under such a binding a term has so many symbols, which are more than 1,048,576.
    TermTooLarge {
        line: u32,
        size: u64,
        printed: u64,
    },
}

/// Why a search stopped.
#[derive(Clone, Copy, Debug, PartialEq, Eq)]
pub enum SearchFault {
    WriteFault,
    TraceFault,
    OutOfMemory,
}
