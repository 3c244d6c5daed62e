//! The file to which a journal is written.
//!
//! This is the trusted edge, as the real files and streams are. What the file holds is told by no contract, but each fault of the
//! system is counted where it comes, so that the callers' causes hold here too.
//!
//! Lines are held back, and are written where the buffer is full and at the events after which a search may say that it is done: a
//! conflict, and a set that was shown or passed. So a file that can't be written is a fault of that event, and not one that comes
//! after the last line. What a search that ends elsewhere leaves is written by `finish`.

ghost use Rattle.std.specs.Prelude.{◌≡◌, ◌≤◌, None, OnErr};
ghost use Rattle.alpha_outside.specs.Outside.{Rose};
ghost use Rattle.alpha_outside.specs.declared.stops.TraceStop.TheVariants.{Failed};

use crate::event::push_event;
use alpha_outside::{Event, Trace, TraceStop};
use std::alloc::Global;
use std::fs::File;
use std::io::{BufWriter, Write};
use std::rt::Files;

/// The lines of a journal in the file that `begin` names. Where none was named, events are dropped. It tells no content. A name
/// that isn't UTF-8 is a fault.
#[derive(Drop)]
pub struct FileTrace<R: Files + Drop> {
    rt: R,
    alloc: Global,
    writer: Option<BufWriter<R::File>>,
    line: Vec<u8>,
    faults: u64,
}

// Whether a search may say that it is done after this event.
fn may_be_last(event: &Event) -> bool {
    matches!(
        event,
        Event::Struck { .. } | Event::Shown { .. } | Event::Passed { .. }
    )
}

// Hands a line on, with all that was held back where it goes out. Says whether that went well.
fn write_line<W: Write>(writer: &mut W, line: &[u8], goes_out: bool) -> bool {
    if writer.write_all(line).is_err() {
        return false;
    }
    !goes_out || writer.flush().is_ok()
}

// Counts a fault.
fn failed(faults: &mut u64) -> TraceStop
    ensures stop { result ≡ Failed }
    ensures later { faults.old ≤ faults.new }
    ensures rose { Rose faults.old faults.new }
{
    *faults = faults.saturating_add(1);
    TraceStop::Failed
}

impl<R: Files + Drop> FileTrace<R> {
    /// A trace over the runtime, without a file.
    pub fn new(alloc: Global, rt: R) -> FileTrace<R> {
        FileTrace {
            rt,
            alloc,
            writer: None,
            line: Vec::new(alloc),
            faults: 0,
        }
    }

    /// Writes what is held back. It is the last call: where the trace is dropped without it, a fault then goes unnoticed.
    pub fn finish(&mut self) -> Result<(), TraceStop>
        ensures later { self.old.faults ≤ self.new.faults }
        ensures failed { OnErr result (Rose self.old.faults self.new.faults) }
    {
        let Some(writer) = &mut self.writer else {
            return Ok(());
        };
        if writer.flush().is_ok() {
            return Ok(());
        }
        Err(failed(&mut self.faults))
    }
}

impl<R: Files + Drop> Trace for FileTrace<R> {
    ghost journal = { λ _. None };

    ghost faults = { λ t. t.faults };

    fn begin(&mut self, name: &[u8]) -> Result<(), TraceStop> {
        let Ok(path) = std::str::from_utf8(name) else {
            return Err(failed(&mut self.faults));
        };
        let Ok(file) = File::create(&self.rt, path) else {
            return Err(failed(&mut self.faults));
        };
        match BufWriter::new(self.alloc, file) {
            Ok(writer) => {
                self.writer = Some(writer);
                Ok(())
            }
            Err(_) => Err(TraceStop::OutOfMemory),
        }
    }

    fn note(&mut self, event: &Event) -> Result<(), TraceStop> {
        let Some(writer) = &mut self.writer else {
            return Ok(());
        };
        self.line.clear();
        if push_event(self.alloc, &mut self.line, event).is_err() {
            return Err(TraceStop::OutOfMemory);
        }
        if write_line(writer, self.line.as_slice(), may_be_last(event)) {
            return Ok(());
        }
        Err(failed(&mut self.faults))
    }
}
