//! The search for the answer sets of a core: what it comes to is the status of the run, and the last line.

ghost use Rattle.std.specs.Prelude.{◌≡◌, ◌≤◌, ◌<◌};
ghost use Rattle.search_rules.specs.Stage.{IsSearchable};
ghost use Rattle.search_journals.specs.Search.{AreLinesOfSets};
ghost use Rattle.alpha.specs.Journals.{Task};
ghost use Rattle.alpha.specs.Outcomes.{IsCoreOf, Searched, status_of};

use crate::status::{BudgetKind, Status, last_line};
use after_book::AfterBook;
use alpha_outside::{Sink, SinkStop, Trace};
use core_rules::Core;
use enumerator::{End, SearchFault, Settings, search};
use std::alloc::Global;

// The status of a search with these settings that ended by itself.
fn ended(settings: Settings, end: End) -> Status
    ensures { result ≡ status_of settings end }
{
    match end {
        End::Finished { printed } => Status::Finished { printed },
        End::LimitReached { printed } => Status::LimitReached { printed },
        End::Conflicts { printed } => Status::BudgetSpent {
            budget: BudgetKind::Conflicts,
            number: settings.conflicts,
            printed,
        },
        End::Instances { printed } => Status::BudgetSpent {
            budget: BudgetKind::Instances,
            number: settings.instances,
            printed,
        },
        End::Overflow {
            line,
            op,
            left,
            right,
            printed,
        } => Status::Overflow {
            line,
            op,
            left,
            right,
            printed,
        },
        End::TermTooLarge {
            line,
            size,
            printed,
        } => Status::TermTooLarge {
            line,
            size,
            printed,
        },
    }
}

/// Writes the answer sets that the book doesn't list and the last line, and notes the events.
pub fn solve<O: Sink, T: Trace>(
    alloc: Global,
    core: Core,
    settings: Settings,
    book: &AfterBook,
    out: &mut O,
    trace: &mut T,
) -> Status
    requires searchable { IsSearchable core }
    requires some { 0 < settings.limit }
    ensures out_later { O.faults out.old ≤ O.faults out.new }
    ensures trace_later { T.faults trace.old ≤ T.faults trace.new }
    ensures searched { (k : Task) → IsCoreOf k.program core → k.settings ≡ settings → AreLinesOfSets book.now k.listed → Searched k
        (record { held = O.held out.old; held' = O.held out.new; faults = O.faults out.old; faults' = O.faults out.new })
        (record { told = T.journal trace.old; told' = T.journal trace.new; faults = T.faults trace.old; faults' = T.faults trace.new })
        result }
{
    let end = match search(alloc, core, settings, book, out, trace) {
        Ok(end) => end,
        Err(SearchFault::WriteFault) => return Status::WriteFault,
        Err(SearchFault::TraceFault) => return Status::TraceFault,
        Err(SearchFault::OutOfMemory) => return Status::OutOfMemory,
    };
    let status = ended(settings, end);
    let Ok(line) = last_line(alloc, &status) else {
        return Status::OutOfMemory;
    };
    match out.write(line.as_slice()) {
        Ok(()) => status,
        Err(SinkStop::Failed) => Status::WriteFault,
        Err(SinkStop::OutOfMemory) => Status::OutOfMemory,
    }
}
