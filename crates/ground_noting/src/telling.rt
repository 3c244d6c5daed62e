//! How much of a ground was noted, and how an event is noted.

ghost use Rattle.std.specs.Prelude.{◌≡◌, ◌≤◌, Ok, OnOk, OnErr, IfErr, option_map};
ghost use Rattle.alpha_outside.specs.Outside.{with_event};
ghost use Rattle.alpha_outside.specs.declared.event.Event.{Event as Said};
ghost use Rattle.ground_noting.specs.Notings.{IsCause};

use alpha_outside::{Event, OutOfMemory, Trace, TraceStop};

/// How much of a ground was noted: so many terms, atoms and instances, each from the first on.
#[derive(Clone, Copy, Debug, PartialEq, Eq)]
pub struct Told {
    pub terms: u32,
    pub atoms: u32,
    pub instances: u32,
}

/// Why a ground wasn't noted to its end.
#[derive(Clone, Copy, Debug, PartialEq, Eq)]
pub enum NoteFault {
    TraceFault,
    OutOfMemory,
}

// Notes an event, where there was memory for it.
pub fn tell<T: Trace>(trace: &mut T, event: Result<Event, OutOfMemory>) -> Result<(), NoteFault>
    ensures ok { OnOk result ((e : Said) × (event ≡ Ok e) × (T.journal trace.new ≡ option_map (with_event e) (T.journal trace.old))) }
    ensures err { OnErr result (T.journal trace.new ≡ T.journal trace.old) }
    ensures later { T.faults trace.old ≤ T.faults trace.new }
    ensures cause { IfErr result (IsCause (T.faults trace.old) (T.faults trace.new)) }
{
    match event {
        Err(_) => Err(NoteFault::OutOfMemory),
        Ok(event) => match trace.note(&event) {
            Ok(()) => Ok(()),
            Err(TraceStop::Failed) => Err(NoteFault::TraceFault),
            Err(TraceStop::OutOfMemory) => Err(NoteFault::OutOfMemory),
        },
    }
}
