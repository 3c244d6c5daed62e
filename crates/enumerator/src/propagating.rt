//! The propagation of a search: values follow from unit nogoods until nothing is unit or struck, or a nogood is struck. Each is noted
//! before the next, so that the journal told so far stays the one that leads to the search's state; also at a fault.

ghost use Rattle.std.specs.Prelude.{◌≡◌, ◌≤◌, IfOk, IfErr};
ghost use Rattle.search_state.specs.Moves.{FixIs};
ghost use Rattle.search_journals.specs.Standing.{IsReady, IsTraceFault};
ghost use Rattle.search_journals.specs.Runs.{GoesOn};

use alpha_outside::Trace;
use propagation::{Fix, PropFault};
use search_journals::SearchFault;
use search_state::Search;

/// Gives the values of unit nogoods and notes each, until nothing is unit or struck, or a nogood is struck.
pub fn propagate<T: Trace>(search: &mut Search, trace: &mut T) -> Result<Fix, SearchFault>
    requires { IsReady search.old }
    ensures later { T.faults trace.old ≤ T.faults trace.new }
    ensures goes_on { IfOk result (λ fix. GoesOn search.old search.new (T.journal trace.old) (T.journal trace.new)) }
    ensures fix { IfOk result (FixIs search.new) }
    ensures err { IfErr result
        (IsTraceFault search.old (T.journal trace.old) (T.journal trace.new) (T.faults trace.old) (T.faults trace.new)) }
{
    match search.propagate(trace) {
        Ok(fix) => Ok(fix),
        Err(PropFault::TraceFault) => Err(SearchFault::TraceFault),
        Err(PropFault::OutOfMemory) => Err(SearchFault::OutOfMemory),
    }
}
