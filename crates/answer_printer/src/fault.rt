/// Why a line has no canonical line.
#[derive(Clone, Copy, Debug, PartialEq, Eq)]
pub enum SetFault {
    /// The bytes are no set.
    NotASet,
    /// There was no memory for reading it.
    OutOfMemory,
}
