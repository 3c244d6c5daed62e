ghost use Rattle.program_files.specs.Faults.{IsFaultOf};

use alpha_outside::{Name, ReadStop};
use std::alloc::Global;

/// Why the files of a command line aren't read.
#[derive(Debug, Drop)]
pub enum FilesFault {
    /// With this file there are more bytes than there may be.
    TooLong { name: Name },
    /// The outside failed at this file, or it isn't there.
    Unreadable { name: Name },
    OutOfMemory,
}

/// Why this file isn't read, of which a shelf gave no bytes.
pub fn fault_at(alloc: Global, name: &[u8], stop: ReadStop) -> FilesFault
    ensures { IsFaultOf name.now stop result }
{
    let Ok(name) = Name::from_bytes(alloc, name) else {
        return FilesFault::OutOfMemory;
    };
    match stop {
        ReadStop::TooLong => FilesFault::TooLong { name },
        ReadStop::Failed => FilesFault::Unreadable { name },
        ReadStop::OutOfMemory => FilesFault::OutOfMemory,
    }
}
