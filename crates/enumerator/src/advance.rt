//! The inner loop: steps until a nogood is struck, an atom stays must-be-true, a set is found, or the grounder stops.

ghost use Rattle.std.specs.Prelude.{◌≤◌, OnOk, IfErr, IfOk};
ghost use Rattle.search_journals.specs.Standing.{IsReady, IsTraceFault};
ghost use Rattle.search_journals.specs.Moves.{MoveIs, IsHalt};
ghost use Rattle.search_journals.specs.Runs.{Runs, Stepped};

use crate::joining::join;
use crate::justifying::justify;
use crate::moves::{is_halt, next_move};
use crate::steps::{choose, close};
use alpha_outside::Trace;
use search_journals::{Move, SearchFault};
use search_state::Search;
use std::alloc::Global;

// Takes the step that comes next. It may bring the search to a halt.
fn step<T: Trace>(
    search: &mut Search,
    alloc: Global,
    trace: &mut T,
    found: &Move,
) -> Result<Option<Move>, SearchFault>
    requires ready { IsReady search.old }
    requires next { MoveIs search.old found.now }
    requires goes_on { ¬ IsHalt found.now }
    ensures later { T.faults trace.old ≤ T.faults trace.new }
    ensures ok { IfOk result (Stepped search.old search.new (T.journal trace.old) (T.journal trace.new)) }
    ensures err { IfErr result
        (IsTraceFault search.old (T.journal trace.old) (T.journal trace.new) (T.faults trace.old) (T.faults trace.new)) }
{
    match found {
        Move::Join => join(search, trace),
        Move::Justify(atom) => justify(search, alloc, trace, *atom),
        Move::Choose(body) => choose(search, trace, *body),
        Move::Close(atom) => close(search, trace, *atom),
        Move::Strike(_) => unreachable!(),
        Move::Overflow { .. } => unreachable!(),
        Move::TooLarge { .. } => unreachable!(),
        Move::Spent => unreachable!(),
        Move::Stuck(_) => unreachable!(),
        Move::Full => unreachable!(),
    }
}

/// Goes on until the search comes to a halt, and says why.
pub fn advance<T: Trace>(
    search: &mut Search,
    alloc: Global,
    trace: &mut T,
) -> Result<Move, SearchFault>
    requires ready { IsReady search.old }
    ensures later { T.faults trace.old ≤ T.faults trace.new }
    ensures runs { OnOk result (Runs search.old search.new (T.journal trace.old) (T.journal trace.new)) }
    ensures halt { IfOk result IsHalt }
    ensures next { IfOk result (MoveIs search.new) }
    ensures err { IfErr result
        (IsTraceFault search.old (T.journal trace.old) (T.journal trace.new) (T.faults trace.old) (T.faults trace.new)) }
{
    'stepping: loop {
        let found = next_move(search, trace)?;
        if is_halt(&found) {
            return Ok(found);
        }
        if let Some(halt) = step(search, alloc, trace, &found)? {
            return Ok(halt);
        }
    }
}
