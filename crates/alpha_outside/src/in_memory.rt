//! The outside in memory, for tests: files, a sink and a trace whose failures are chosen.
//!
//! The calls of an object are numbered from 0. A call fails, and is counted as a fault, exactly where its number is one of those
//! that it was made with (a read also where the file isn't there). Want of memory is no fault and is never counted.

ghost use Rattle.std.specs.Prelude.{◌≡◌, ◌≤◌, IsTrue, ◌+◌, ℕ, List, Option, None, Some, OnOk, OnErr, option_map};
ghost use Rattle.alpha_outside.specs.Files.{last_file};

use crate::{Event, List, Name, OutOfMemory, ReadStop, Shelf, Sink, SinkStop, Trace, TraceStop};
use std::alloc::Global;

/// A file of a `MemShelf`.
#[derive(Drop)]
pub struct StoredFile {
    name: Name,
    bytes: Name,
}

/// The calls of an object so far, and which of them fail.
#[derive(Drop)]
struct Calls {
    fails: List<u64>,
    next: u64,
    faults: u64,
}

impl Calls {
    ghost use Rattle.alpha_outside.specs.InMemory.{fails_next, counted};
    ghost use Rattle.alpha_outside.specs.Outside.{Rose};

    fn new(fails: List<u64>) -> Calls
        ensures fails { result.fails ≡ fails }
        ensures next { result.next ≡ 0 }
        ensures faults { result.faults ≡ 0 }
    {
        Calls {
            fails,
            next: 0,
            faults: 0,
        }
    }

    /// Numbers a call, and says whether it fails.
    fn next_fails(&mut self) -> bool
        ensures answer { result ≡ fails_next self.old }
        ensures next { self.new.next ≡ counted self.old.next }
        ensures fails { self.new.fails ≡ self.old.fails }
        ensures faults { self.new.faults ≡ self.old.faults }
    {
        let failed = self.fails.as_slice().contains(&self.next);
        self.next = self.next.saturating_add(1);
        failed
    }

    /// Counts a fault.
    fn fault(&mut self)
        ensures faults { self.new.faults ≡ counted self.old.faults }
        ensures later { self.old.faults ≤ self.new.faults }
        ensures rose { Rose self.old.faults self.new.faults }
        ensures fails { self.new.fails ≡ self.old.fails }
        ensures next { self.new.next ≡ self.old.next }
    {
        self.faults = self.faults.saturating_add(1);
    }
}

/// Files in memory. It tells them.
#[derive(Drop)]
pub struct MemShelf {
    files: List<StoredFile>,
    calls: Calls,
    taken: u64,
}

impl MemShelf {
    ghost use Rattle.alpha_outside.specs.InMemory.{shelf_files, put_file, shelf_fails};

    /// A shelf without files. The calls of `read` whose numbers are in `fails` fail.
    pub fn new(alloc: Global, fails: List<u64>) -> MemShelf
        ensures files { (name : List ℕ) → shelf_files result name ≡ None }
        ensures fails { shelf_fails result ≡ (fails, 0) }
    {
        MemShelf {
            files: List::new(alloc),
            calls: Calls::new(fails),
            taken: 0,
        }
    }

    /// Puts a file in, in place of one of the same name. It has no number as a call.
    pub fn add(&mut self, alloc: Global, name: &[u8], bytes: &[u8]) -> Result<(), OutOfMemory>
        ensures ok { OnOk result ((n : List ℕ) → shelf_files self.new n ≡ put_file name.now bytes.now (shelf_files self.old) n) }
        ensures fails { OnOk result (shelf_fails self.new ≡ shelf_fails self.old) }
        ensures err { OnErr result (self.new ≡ self.old) }
    {
        let name = Name::from_bytes(alloc, name)?;
        let bytes = Name::from_bytes(alloc, bytes)?;
        self.files.push(StoredFile { name, bytes })?;
        Ok(())
    }
}

// The file of this name that was put in last.
fn find<'a>(files: &'a [StoredFile], name: &[u8]) -> Option<&'a [u8]>
    ensures { option_map (λ x. x.now) result ≡ last_file files.now name.now None }
{
    let mut found = None;
    for file in files {
        if file.name.as_bytes() == name {
            found = Some(file.bytes.as_bytes());
        }
    }
    found
}

impl Shelf for MemShelf {
    ghost use Rattle.alpha_outside.specs.InMemory.{shelf_files, MemReads};
    ghost use Rattle.alpha_outside.specs.Outside.{Reads};

    ghost files = { λ s. Some (shelf_files s) };

    ghost taken = { λ s. s.taken };

    ghost faults = { λ s. s.calls.faults };

    fn read(&mut self, alloc: Global, name: &[u8], at_most: usize) -> Result<Vec<u8>, ReadStop>
        ensures kept { Some (shelf_files self.new) ≡ Some (shelf_files self.old) }
        ensures reads { Reads name.now at_most (Some (shelf_files self.old)) self.old.taken self.new.taken self.old.calls.faults self.new.calls.faults result }
        ensures fails { MemReads name.now at_most self.old self.new result }
    {
        if self.calls.next_fails() {
            self.calls.fault();
            return Err(ReadStop::Failed);
        }
        let Some(bytes) = find(self.files.as_slice(), name) else {
            self.calls.fault();
            return Err(ReadStop::Failed);
        };
        if bytes.len() > at_most {
            self.taken = self.taken.saturating_add(at_most as u64 + 1);
            return Err(ReadStop::TooLong);
        }
        self.taken = self.taken.saturating_add(bytes.len() as u64);
        match bytes.to_vec(alloc) {
            Ok(copy) => Ok(copy),
            Err(_) => Err(ReadStop::OutOfMemory),
        }
    }
}

/// Bytes in memory. It tells them.
#[derive(Drop)]
pub struct MemSink {
    held: Vec<u8>,
    cut: usize,
    calls: Calls,
}

impl MemSink {
    ghost use Rattle.alpha_outside.specs.InMemory.{sink_bytes, sink_fails};
    ghost use Rattle.std.specs.Prelude.{[]};

    /// A sink that holds nothing. A write whose number is in `fails` fails, and appends the first `cut` bytes of its piece, or
    /// the whole of a shorter one. A write of an empty piece has no number.
    pub fn new(alloc: Global, fails: List<u64>, cut: usize) -> MemSink
        ensures bytes { sink_bytes result ≡ [] }
        ensures fails { sink_fails result ≡ (fails, 0, cut) }
    {
        MemSink {
            held: Vec::new(alloc),
            cut,
            calls: Calls::new(fails),
        }
    }

    /// Shows what it holds.
    pub fn bytes(&self) -> &[u8]
        ensures { result.now ≡ sink_bytes self.now }
    {
        self.held.as_slice()
    }
}

impl Sink for MemSink {
    ghost use Rattle.alpha_outside.specs.InMemory.{sink_bytes, MemWrites};
    ghost use Rattle.alpha_outside.specs.Outside.{Writes};
    ghost use Rattle.std.specs.Prelude.{[], Ok};

    ghost held = { λ s. Some (sink_bytes s) };

    ghost faults = { λ s. s.calls.faults };

    fn write(&mut self, piece: &[u8]) -> Result<(), SinkStop>
        ensures writes { Writes piece.now (Some (sink_bytes self.old)) (Some (sink_bytes self.new)) self.old.calls.faults self.new.calls.faults result }
        ensures empty { piece.now ≡ [] → (result ≡ Ok tt) × (self.new ≡ self.old) }
        ensures fails { ¬ (piece.now ≡ []) → MemWrites piece.now self.old self.new result }
    {
        if piece.is_empty() {
            return Ok(());
        }
        if self.calls.next_fails() {
            let end = self.cut.min(piece.len());
            return match self.held.extend_from_slice(&piece[..end]) {
                Ok(()) => {
                    self.calls.fault();
                    Err(SinkStop::Failed)
                }
                Err(_) => Err(SinkStop::OutOfMemory),
            };
        }
        match self.held.extend_from_slice(piece) {
            Ok(()) => Ok(()),
            Err(_) => Err(SinkStop::OutOfMemory),
        }
    }
}

/// Events in memory. It tells them, and the name that was given last.
#[derive(Drop)]
pub struct MemTrace {
    alloc: Global,
    events: List<Event>,
    name: Option<Name>,
    calls: Calls,
}

impl MemTrace {
    ghost use Rattle.alpha_outside.specs.InMemory.{fails_next, trace_journal, trace_fails, IsNumbered};
    ghost use Rattle.alpha_outside.specs.Outside.{Journal, Rose, named, with_event};
    ghost use Rattle.std.specs.Prelude.{[]};

    /// A trace without events and without a name. The calls of `begin` and `note` are numbered together, and those whose numbers
    /// are in `fails` fail.
    pub fn new(alloc: Global, fails: List<u64>) -> MemTrace
        ensures journal { trace_journal result ≡ record { events = []; name = None } }
        ensures fails { trace_fails result ≡ (fails, 0) }
    {
        MemTrace {
            alloc,
            events: List::new(alloc),
            name: None,
            calls: Calls::new(fails),
        }
    }

    /// Shows the events, the oldest first.
    pub fn events(&self) -> &[Event]
        ensures { result.now ≡ Journal.events (trace_journal self.now) }
    {
        self.events.as_slice()
    }

    /// Shows the name, where one was given.
    pub fn name(&self) -> Option<&[u8]>
        ensures { option_map (λ n. n.now) result ≡ Journal.name (trace_journal self.now) }
    {
        match &self.name {
            Some(name) => Some(name.as_bytes()),
            None => None,
        }
    }

    // Numbers a call, and says whether it fails. One that fails is counted as a fault.
    fn call_fails(&mut self) -> bool
        ensures answer { result ≡ fails_next self.old.calls }
        ensures numbered { IsNumbered self.old.calls self.new.calls result }
        ensures journal { trace_journal self.new ≡ trace_journal self.old }
        ensures later { self.old.calls.faults ≤ self.new.calls.faults }
        ensures rose { IsTrue result → Rose self.old.calls.faults self.new.calls.faults }
    {
        let failed = self.calls.next_fails();
        if failed {
            self.calls.fault();
        }
        failed
    }

    // Takes a copy of the name.
    fn set_name(&mut self, name: &[u8]) -> Result<(), OutOfMemory>
        ensures ok { OnOk result (trace_journal self.new ≡ named name.now (trace_journal self.old)) }
        ensures err { OnErr result (trace_journal self.new ≡ trace_journal self.old) }
        ensures calls { self.new.calls ≡ self.old.calls }
    {
        self.name = Some(Name::from_bytes(self.alloc, name)?);
        Ok(())
    }

    // Puts a copy of the event at the end.
    fn push_copy(&mut self, event: &Event) -> Result<(), OutOfMemory>
        ensures ok { OnOk result (trace_journal self.new ≡ with_event event.now (trace_journal self.old)) }
        ensures err { OnErr result (trace_journal self.new ≡ trace_journal self.old) }
        ensures calls { self.new.calls ≡ self.old.calls }
    {
        self.events.push(event.copy(self.alloc)?)?;
        Ok(())
    }
}

impl Trace for MemTrace {
    ghost use Rattle.alpha_outside.specs.InMemory.{trace_journal, MemSteps};
    ghost use Rattle.alpha_outside.specs.Outside.{Begins, Notes, named, with_event};

    ghost journal = { λ t. Some (trace_journal t) };

    ghost faults = { λ t. t.calls.faults };

    fn begin(&mut self, name: &[u8]) -> Result<(), TraceStop>
        ensures begins { Begins name.now (Some (trace_journal self.old)) (Some (trace_journal self.new)) self.old.calls.faults self.new.calls.faults result }
        ensures fails { MemSteps (named name.now) self.old self.new result }
    {
        if self.call_fails() {
            return Err(TraceStop::Failed);
        }
        match self.set_name(name) {
            Ok(()) => Ok(()),
            Err(_) => Err(TraceStop::OutOfMemory),
        }
    }

    fn note(&mut self, event: &Event) -> Result<(), TraceStop>
        ensures notes { Notes event.now (Some (trace_journal self.old)) (Some (trace_journal self.new)) self.old.calls.faults self.new.calls.faults result }
        ensures fails { MemSteps (with_event event.now) self.old self.new result }
    {
        let failed = self.call_fails();
        if failed {
            return Err(TraceStop::Failed);
        }
        match self.push_copy(event) {
            Ok(()) => Ok(()),
            Err(_) => Err(TraceStop::OutOfMemory),
        }
    }
}

/// A trace that never fails and tells nothing.
#[derive(Drop)]
pub struct NoTrace;

impl Trace for NoTrace {
    ghost use Rattle.alpha_outside.specs.Outside.{Begins, Notes};
    ghost use Rattle.std.specs.Prelude.{Ok};

    ghost journal = { λ _. None };

    ghost faults = { λ _. 0 };

    fn begin(&mut self, name: &[u8]) -> Result<(), TraceStop>
        ensures begins { Begins name.now None None 0 0 result }
        ensures never_fails { result ≡ Ok tt }
    {
        Ok(())
    }

    fn note(&mut self, event: &Event) -> Result<(), TraceStop>
        ensures notes { Notes event.now None None 0 0 result }
        ensures never_fails { result ≡ Ok tt }
    {
        Ok(())
    }
}
