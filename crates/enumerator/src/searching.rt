//! The search: the instances without positive atoms first, and then round after round until no set is left.

ghost use Rattle.std.specs.Prelude.{◌≡◌, ◌≤◌, ◌<◌, List, IfOk, IfErr};
ghost use Rattle.search_rules.specs.Stage.{IsSearchable};
ghost use Rattle.lazy_grounder.specs.Lawful.{IsLawful};
ghost use Rattle.asp_meaning.specs.Atoms.{Atom};
ghost use Rattle.search_journals.specs.Search.{SearchAnswer, AreLinesOfSets};
ghost use Rattle.search_journals.specs.Standing.{IsReady};
ghost use Rattle.search_journals.specs.Settling.{StandsSomewhere, EndsFrom, LeavesFrom, ended};
ghost use Rattle.enumerator.specs.Calls.{IsNew};

use crate::advance::advance;
use crate::joining::start;
use crate::settle::{end_by_stop, settle};
use after_book::AfterBook;
use alpha_outside::{Sink, Trace};
use core_rules::Core;
use search_journals::{End, Finish, SearchFault, Settings};
use search_state::Search;
use std::alloc::Global;

// Takes rounds until the search ends; `left` is how many sets may still be written, and `rest` how many nogoods struck.
fn rounds<O: Sink, T: Trace>(
    search: &mut Search,
    alloc: Global,
    book: &AfterBook,
    out: &mut O,
    trace: &mut T,
    left: &mut u64,
    rest: &mut u64,
) -> Result<Finish, SearchFault>
    requires ready { IsReady search.old }
    requires room { 0 < left.old }
    requires stands { StandsSomewhere book.now search.old (T.journal trace.old) (O.held out.old) left.old rest.old }
    ensures out_later { O.faults out.old ≤ O.faults out.new }
    ensures later { T.faults trace.old ≤ T.faults trace.new }
    ensures fewer { left.new ≤ left.old }
    ensures ok { IfOk result
        (EndsFrom book.now search.old (T.journal trace.old) (T.journal trace.new) (O.held out.old) (O.held out.new) (left.old, rest.old)
        (left.new, rest.new)) }
    ensures err { IfErr result
        (LeavesFrom book.now search.old (T.journal trace.old) (T.journal trace.new) (O.held out.old) (O.held out.new) (left.old, rest.old)
        (O.faults out.old, O.faults out.new) (T.faults trace.old, T.faults trace.new)) }
{
    'rounds: loop {
        let found = advance(search, alloc, trace)?;
        let finish = settle(search, alloc, found, book, out, trace, left, rest)?;
        match finish {
            Some(how) => return Ok(how),
            None => (),
        }
    }
}

// How a search ended that wrote so many sets.
fn end_by(finish: Finish, printed: u64) -> End
    ensures { result ≡ ended finish printed }
{
    match finish {
        Finish::Finished => End::Finished { printed },
        Finish::LimitReached => End::LimitReached { printed },
        Finish::Conflicts => End::Conflicts { printed },
        Finish::Instances => End::Instances { printed },
        Finish::Overflow {
            line,
            op,
            left,
            right,
        } => End::Overflow {
            line,
            op,
            left,
            right,
            printed,
        },
        Finish::TermTooLarge { line, size } => End::TermTooLarge {
            line,
            size,
            printed,
        },
    }
}

// Searches from the start to the end.
fn whole<O: Sink, T: Trace>(
    search: &mut Search,
    alloc: Global,
    settings: Settings,
    book: &AfterBook,
    out: &mut O,
    trace: &mut T,
) -> Result<End, SearchFault>
    requires new { IsNew settings search.old }
    requires searchable { IsSearchable search.old.core }
    requires lawful { IsLawful search.old.core search.old.ground }
    requires some { 0 < settings.limit }
    requires lists { (A : List (List Atom)) × AreLinesOfSets book.now A }
    ensures out_later { O.faults out.old ≤ O.faults out.new }
    ensures trace_later { T.faults trace.old ≤ T.faults trace.new }
    ensures answer { (A : List (List Atom)) → AreLinesOfSets book.now A → SearchAnswer search.old.core A settings
        (record { held = O.held out.old; held' = O.held out.new; faults = O.faults out.old; faults' = O.faults out.new })
        (record { told = T.journal trace.old; told' = T.journal trace.new; faults = T.faults trace.old; faults' = T.faults trace.new })
        result }
{
    if let Some(halt) = start(search, trace)? {
        return Ok(end_by(end_by_stop(&halt), 0));
    }
    let mut left = settings.limit;
    let mut rest = settings.conflicts;
    let finish = rounds(search, alloc, book, out, trace, &mut left, &mut rest)?;
    let printed = settings.limit - left;
    Ok(end_by(finish, printed))
}

/// Writes the line of each core answer set of the core that the book doesn't list, as one piece each, and notes each event. A set that
/// the book lists is noted as passed. Sets are told apart by their lines, which are those of one set each.
pub fn search<O: Sink, T: Trace>(
    alloc: Global,
    core: Core,
    settings: Settings,
    book: &AfterBook,
    out: &mut O,
    trace: &mut T,
) -> Result<End, SearchFault>
    requires searchable { IsSearchable core }
    requires some { 0 < settings.limit }
    ensures out_later { O.faults out.old ≤ O.faults out.new }
    ensures trace_later { T.faults trace.old ≤ T.faults trace.new }
    ensures answer { (A : List (List Atom)) → AreLinesOfSets book.now A → SearchAnswer core A settings
        (record { held = O.held out.old; held' = O.held out.new; faults = O.faults out.old; faults' = O.faults out.new })
        (record { told = T.journal trace.old; told' = T.journal trace.new; faults = T.faults trace.old; faults' = T.faults trace.new })
        result }
{
    let Ok(mut search) = Search::new(alloc, core, settings.instances) else {
        return Err(SearchFault::OutOfMemory);
    };
    // With the length comes what the book promises of itself: each of its lines is that of a set.
    let _ = book.len();
    whole(&mut search, alloc, settings, book, out, trace)
}
