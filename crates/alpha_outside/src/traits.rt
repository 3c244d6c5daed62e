ghost use Rattle.std.specs.Prelude.{◌≡◌, ℕ, List, Option};
ghost use Rattle.alpha_outside.specs.Outside.{Reads, Writes, Journal, Begins, Notes};

use crate::{Event, ReadStop, SinkStop, TraceStop};
use std::alloc::Global;

/// Files by name.
pub trait Shelf {
    /// The files, where they are told. No call changes them.
    ghost files: { Self → Option (List ℕ → Option (List ℕ)) };

    /// How many bytes were taken so far. The number stays at 18,446,744,073,709,551,615.
    ghost taken: { Self → ℕ };

    /// How many calls failed so far. The number stays at 18,446,744,073,709,551,615.
    ghost faults: { Self → ℕ };

    /// Reads the whole file, where it has at most `at_most` bytes.
    fn read(&mut self, alloc: Global, name: &[u8], at_most: usize) -> Result<Vec<u8>, ReadStop>
        ensures kept { files self.new ≡ files self.old }
        ensures reads { Reads name.now at_most (files self.old) (taken self.old) (taken self.new) (faults self.old) (faults self.new) result };
}

/// Where bytes go.
pub trait Sink {
    /// What it holds, where this is told.
    ghost held: { Self → Option (List ℕ) };

    /// How many calls failed so far. The number stays at 18,446,744,073,709,551,615.
    ghost faults: { Self → ℕ };

    /// Appends the whole piece.
    fn write(&mut self, piece: &[u8]) -> Result<(), SinkStop>
        ensures { Writes piece.now (held self.old) (held self.new) (faults self.old) (faults self.new) result };
}

/// Where events go.
pub trait Trace {
    /// The events and the file's name, where they are told.
    ghost journal: { Self → Option Journal };

    /// How many calls failed so far. The number stays at 18,446,744,073,709,551,615.
    ghost faults: { Self → ℕ };

    /// Names the file to which the journal is written.
    fn begin(&mut self, name: &[u8]) -> Result<(), TraceStop>
        ensures { Begins name.now (journal self.old) (journal self.new) (faults self.old) (faults self.new) result };

    /// Appends the event, whether or not a file was named.
    fn note(&mut self, event: &Event) -> Result<(), TraceStop>
        ensures { Notes event.now (journal self.old) (journal self.new) (faults self.old) (faults self.new) result };
}
