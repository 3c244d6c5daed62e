//! The outside as it is: the files of the system, and its standard streams.
//!
//! This is the trusted edge. What a file or a stream holds is told by no contract, but each fault of the system is counted where it
//! comes, so that the callers' causes hold here too.

ghost use Rattle.std.specs.Prelude.{None, ℕ, List};
ghost use Rattle.alpha_outside.specs.Outside.{Reads};

use crate::{ReadStop, Shelf, Sink, SinkStop};
use std::alloc::Global;
use std::fs::File;
use std::io::{Read, Write};
use std::rt::Files;

/// The files of the system, and standard input for the name `-`. It tells no content. A name that isn't UTF-8 is a fault.
#[derive(Drop)]
pub struct DirShelf<R: Files + Input + Drop> {
    rt: R,
    taken: u64,
    faults: u64,
}

impl<R: Files + Input + Drop> DirShelf<R> {
    /// A shelf over the runtime.
    pub fn new(rt: R) -> DirShelf<R> {
        DirShelf {
            rt,
            taken: 0,
            faults: 0,
        }
    }
}

// Reads to the end, or to one byte more than `at_most`.
fn read_to_end<I: Read>(
    alloc: Global,
    reader: &mut I,
    at_most: usize,
    taken: &mut u64,
    faults: &mut u64,
) -> Result<Vec<u8>, ReadStop>
    ensures { (name : List ℕ) → Reads name at_most None taken.old taken.new faults.old faults.new result }
{
    let mut bytes = Vec::new(alloc);
    let mut piece = [0u8; 4096];
    'pieces: loop {
        let Ok(count) = reader.read(&mut piece) else {
            *faults = faults.saturating_add(1);
            return Err(ReadStop::Failed);
        };
        *taken = taken.saturating_add(count as u64);
        if count == 0 {
            return Ok(bytes);
        }
        if count > at_most - bytes.len() {
            return Err(ReadStop::TooLong);
        }
        if bytes.extend_from_slice(&piece[..count]).is_err() {
            return Err(ReadStop::OutOfMemory);
        }
    }
}

impl<R: Files + Input + Drop> Shelf for DirShelf<R> {
    ghost files = { λ _. None };

    ghost taken = { λ s. s.taken };

    ghost faults = { λ s. s.faults };

    fn read(&mut self, alloc: Global, name: &[u8], at_most: usize) -> Result<Vec<u8>, ReadStop> {
        if name == b"-".as_slice() {
            let mut input = self.rt.reader();
            return read_to_end(
                alloc,
                &mut input,
                at_most,
                &mut self.taken,
                &mut self.faults,
            );
        }
        let Ok(path) = std::str::from_utf8(name) else {
            self.faults = self.faults.saturating_add(1);
            return Err(ReadStop::Failed);
        };
        let Ok(mut file) = File::open(&self.rt, path) else {
            self.faults = self.faults.saturating_add(1);
            return Err(ReadStop::Failed);
        };
        read_to_end(alloc, &mut file, at_most, &mut self.taken, &mut self.faults)
    }
}

/// A sink over a writer, as standard output. It tells what its writer tells. A write that takes nothing of a piece is a fault.
#[derive(Drop)]
pub struct StdSink<W: Write + Drop> {
    inner: W,
    faults: u64,
}

impl<W: Write + Drop> StdSink<W> {
    /// A sink over the writer.
    pub fn new(inner: W) -> StdSink<W> {
        StdSink { inner, faults: 0 }
    }
}

impl<W: Write + Drop> Sink for StdSink<W> {
    ghost held = { λ s. W.contents s.inner };

    ghost faults = { λ s. s.faults };

    fn write(&mut self, piece: &[u8]) -> Result<(), SinkStop> {
        let mut done = 0;
        while done < piece.len() {
            match self.inner.write(&piece[done..]) {
                Ok(count) if count > 0 => done += count,
                _ => {
                    self.faults = self.faults.saturating_add(1);
                    return Err(SinkStop::Failed);
                }
            }
        }
        Ok(())
    }
}
