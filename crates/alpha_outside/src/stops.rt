/// Why a read gave no bytes.
#[derive(Clone, Copy, Debug, PartialEq, Eq)]
pub enum ReadStop {
    /// The outside failed, or the file isn't there.
    Failed,
    /// The file has more bytes than were asked for at most.
    TooLong,
    OutOfMemory,
}

/// Why a piece wasn't written whole.
#[derive(Clone, Copy, Debug, PartialEq, Eq)]
pub enum SinkStop {
    /// The outside failed. A front of the piece may have been written.
    Failed,
    /// Nothing was written.
    OutOfMemory,
}

/// Why an event wasn't noted. Nothing was.
#[derive(Clone, Copy, Debug, PartialEq, Eq)]
pub enum TraceStop {
    Failed,
    OutOfMemory,
}
