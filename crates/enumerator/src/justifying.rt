//! How an atom that no rule gives becomes false: the nogood that says so is learned, with the atom itself as its cover, and then it is
//! unit. Where the atom is stuck, the nogood is to be struck instead.

ghost use Rattle.std.specs.Prelude.{◌≤◌, IfErr, IfOk};
ghost use Rattle.search_state.specs.Searching.{IsAllTold};
ghost use Rattle.search_state.specs.Moves.{IsNamed};
ghost use Rattle.search_journals.specs.Standing.{IsReady, IsTraceFault};
ghost use Rattle.search_journals.specs.Moves.{MoveIs};
ghost use Rattle.search_journals.specs.Runs.{Stepped};
ghost use Rattle.search_journals.specs.Justifying.{IsCoverOf, MayJustifyNow, HasJustified};

use crate::steps::{noted, put};
use alpha_outside::{AtomId, Event, How, List, NogoodId, OutOfMemory, Pattern, Trace, Value};
use search_journals::{Move, SearchFault};
use search_state::Search;
use std::alloc::Global;

// The cover of this atom alone.
fn cover_of(search: &Search, alloc: Global, atom: AtomId) -> Result<List<Pattern>, OutOfMemory>
    requires told { IsAllTold search.now }
    requires named { IsNamed search.now atom }
    ensures { IfOk result (IsCoverOf search.now atom) }
{
    let pattern = search.pattern(atom)?;
    let mut cover = List::new(alloc);
    cover.push(pattern)?;
    Ok(cover)
}

/// Learns the nogood that no rule gives the atom.
pub fn learn_justified<T: Trace>(
    search: &mut Search,
    alloc: Global,
    trace: &mut T,
    atom: AtomId,
) -> Result<NogoodId, SearchFault>
    requires may { MayJustifyNow search.old atom }
    ensures later { T.faults trace.old ≤ T.faults trace.new }
    ensures learned { IfOk result (HasJustified search.old search.new (T.journal trace.old) (T.journal trace.new) atom) }
    ensures err { IfErr result (IsTraceFault search.old (T.journal trace.old) (T.journal trace.new) (T.faults trace.old) (T.faults trace.new)) }
{
    let Ok(cover) = cover_of(search, alloc, atom) else {
        return Err(SearchFault::OutOfMemory);
    };
    let Ok((nogood, lits)) = search.justify(atom) else {
        return Err(SearchFault::OutOfMemory);
    };
    noted(
        trace,
        &Event::Learned {
            nogood,
            how: How::Justified,
            lits,
            cover,
        },
    )?;
    Ok(nogood)
}

/// Learns that no rule gives the atom, and makes it false.
pub fn justify<T: Trace>(
    search: &mut Search,
    alloc: Global,
    trace: &mut T,
    atom: AtomId,
) -> Result<Option<Move>, SearchFault>
    requires ready { IsReady search.old }
    requires next { MoveIs search.old (Move.Justify atom) }
    ensures later { T.faults trace.old ≤ T.faults trace.new }
    ensures ok { IfOk result (Stepped search.old search.new (T.journal trace.old) (T.journal trace.new)) }
    ensures err { IfErr result (IsTraceFault search.old (T.journal trace.old) (T.journal trace.new) (T.faults trace.old) (T.faults trace.new)) }
{
    let nogood = learn_justified(search, alloc, trace, atom)?;
    put(search, trace, nogood, atom, Value::False)
}
