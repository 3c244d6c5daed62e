//! Alpha reads answer set programs with variables and prints their answer sets.
#![tactic(auto)]

mod built;
mod cores;
mod reading;
mod run;
mod solving;
mod status;
#[cfg(test)]
mod tests;
mod text;

use alpha_outside::{DirShelf, Sink, StdSink};
use journal_file::FileTrace;
use run::run;
use status::{Status, message};
use std::alloc::Global;
use std::env;
use std::process::ExitCode;
use std::rt::Files;

// Ends the journal's file. Where the rest of it can't be written, this is the fault of a run that has none, with its message.
fn finish<R: Files + Drop, E: Sink>(
    alloc: Global,
    status: Status,
    err: &mut E,
    trace: &mut FileTrace<R>,
) -> Status {
    if trace.finish().is_ok() || status.has_message() {
        return status;
    }
    if let Ok(text) = message(alloc, &Status::TraceFault) {
        let _ = err.write(text.as_slice());
    }
    Status::TraceFault
}

fn main(rt: HostRuntime) -> ExitCode {
    let alloc = rt.alloc();
    let Ok(args) = env::args(&rt) else {
        return ExitCode::from(2);
    };
    let Ok(words) = args.skip(1).collect(alloc) else {
        return ExitCode::from(9);
    };
    let words: Vec<String> = words;
    let mut out = StdSink::new(rt.stdout());
    let mut err = StdSink::new(rt.stderr());
    let mut shelf = DirShelf::new(rt);
    let mut trace = FileTrace::new(alloc, rt);
    let status = run(alloc, &words, &mut shelf, &mut out, &mut err, &mut trace);
    let status = finish(alloc, status, &mut err, &mut trace);
    ExitCode::from(status.code())
}
