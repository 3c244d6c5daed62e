//! What follows a halt: what is learned from a conflict or a stuck atom, or after a set, and that the search goes back. A set is shown or passed
//! before, and where no literal was chosen, the search is finished.

ghost use Rattle.std.specs.Prelude.{◌≡◌, ◌≤◌, ◌<◌, ℕ, List, Option, [], IfErr, IfOk};
ghost use Rattle.search_journals.specs.Standing.{IsReady, IsRoundFault};
ghost use Rattle.search_journals.specs.Moves.{MoveIs, IsHalt};
ghost use Rattle.search_journals.specs.Settling.{StandsSomewhere, Outcome, LeavesFrom, IsFound, IsSomewhere};
ghost use Rattle.enumerator.specs.Calls.{IsStop, IsEndBy};

use crate::learning::{back, learn, settle_struck, settle_stuck};
use crate::showing::find;
use after_book::AfterBook;
use alpha_outside::{How, List, Sink, Trace};
use search_journals::{Finish, Move, SearchFault};
use search_state::Search;
use std::alloc::Global;

/// How the search ends where the grounder stopped it.
pub fn end_by_stop(found: &Move) -> Finish
    requires { IsStop found.now }
    ensures { IsEndBy found.now result }
{
    match found {
        Move::Overflow {
            line,
            op,
            left,
            right,
        } => Finish::Overflow {
            line: *line,
            op: *op,
            left: *left,
            right: *right,
        },
        Move::TooLarge { line, size } => Finish::TermTooLarge {
            line: *line,
            size: *size,
        },
        Move::Spent => Finish::Instances,
        _ => unreachable!(),
    }
}

// After a set was found, where `left` more may be shown.
fn settle_found<T: Trace>(
    search: &mut Search,
    alloc: Global,
    trace: &mut T,
    left: u64,
) -> Result<Option<Finish>, SearchFault>
    requires found { IsFound search.old }
    requires stands { (rest : ℕ) × IsSomewhere search.old (T.journal trace.old) rest }
    ensures later { T.faults trace.old ≤ T.faults trace.new }
    ensures ok { IfOk result
        (λ end. (book : List (List ℕ)) → (held : Option (List ℕ)) → (rest : ℕ) → Outcome book search.old search.new (T.journal trace.old)
        (T.journal trace.new) held held (left, rest) (left, rest) end) }
    ensures err { IfErr result
        (λ f. (0 < left) × ((rest : ℕ) → IsRoundFault search.old (T.journal trace.old) (T.journal trace.new) rest (T.faults trace.old)
        (T.faults trace.new) f)) }
{
    if left == 0 {
        return Ok(Some(Finish::LimitReached));
    }
    let Ok(chosen) = search.chosen() else {
        return Err(SearchFault::OutOfMemory);
    };
    if chosen.is_empty() {
        return Ok(Some(Finish::Finished));
    }
    let nogood = learn(
        search,
        alloc,
        trace,
        How::Enumerated,
        List::from_vec(chosen),
    )?;
    let level = search.unit_level(nogood);
    match back(search, trace, level) {
        Ok(()) => Ok(None),
        Err(fault) => Err(fault),
    }
}

/// Learns from what was found, and goes back, or ends the search. A set that is found is shown before, or passed where its line is in the
/// book; `left` is how many more may be shown, and `rest` how many nogoods struck.
pub fn settle<O: Sink, T: Trace>(
    search: &mut Search,
    alloc: Global,
    found: Move,
    book: &AfterBook,
    out: &mut O,
    trace: &mut T,
    left: &mut u64,
    rest: &mut u64,
) -> Result<Option<Finish>, SearchFault>
    requires ready { IsReady search.old }
    requires next { MoveIs search.old found }
    requires halt { IsHalt found }
    requires room { 0 < left.old }
    requires stands { StandsSomewhere book.now search.old (T.journal trace.old) (O.held out.old) left.old rest.old }
    ensures out_later { O.faults out.old ≤ O.faults out.new }
    ensures later { T.faults trace.old ≤ T.faults trace.new }
    ensures fewer { left.new ≤ left.old }
    ensures ok { IfOk result
        (Outcome book.now search.old search.new (T.journal trace.old) (T.journal trace.new) (O.held out.old) (O.held out.new)
        (left.old, rest.old) (left.new, rest.new)) }
    ensures err { IfErr result
        (LeavesFrom book.now search.old (T.journal trace.old) (T.journal trace.new) (O.held out.old) (O.held out.new) (left.old, rest.old)
        (O.faults out.old, O.faults out.new) (T.faults trace.old, T.faults trace.new)) }
{
    match found {
        Move::Strike(nogood) => settle_struck(search, alloc, trace, nogood, rest),
        Move::Stuck(atom) => settle_stuck(search, alloc, trace, atom, rest),
        Move::Full => {
            find(search, book, out, trace, left)?;
            settle_found(search, alloc, trace, *left)
        }
        _ => Ok(Some(end_by_stop(&found))),
    }
}
