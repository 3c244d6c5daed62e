//! The steps that a search takes before the literals chosen are learned. Each changes the search, and then is noted.

ghost use Rattle.std.specs.Prelude.{◌≡◌, ◌≤◌, OnOk, IfOk, IfErr, option_map};
ghost use Rattle.alpha_outside.specs.Outside.{with_event};
ghost use Rattle.search_journals.specs.Standing.{IsTraceCause, IsReady, IsTraceFault};
ghost use Rattle.search_journals.specs.Moves.{MoveIs, GivesNow};
ghost use Rattle.search_journals.specs.Runs.{Stepped};

use alpha_outside::{AtomId, Event, NogoodId, Trace, TraceStop, Value};
use search_journals::{Move, SearchFault};
use search_state::Search;

/// Notes an event.
pub fn noted<T: Trace>(trace: &mut T, event: &Event) -> Result<(), SearchFault>
    ensures later { T.faults trace.old ≤ T.faults trace.new }
    ensures ok { OnOk result (T.journal trace.new ≡ option_map (with_event event.now) (T.journal trace.old)) }
    ensures unchanged { IfErr result (λ f. T.journal trace.new ≡ T.journal trace.old) }
    ensures cause { IfErr result (IsTraceCause (T.faults trace.old) (T.faults trace.new)) }
{
    match trace.note(event) {
        Ok(()) => Ok(()),
        Err(TraceStop::Failed) => Err(SearchFault::TraceFault),
        Err(TraceStop::OutOfMemory) => Err(SearchFault::OutOfMemory),
    }
}

/// Gives the atom the value, by the nogood.
pub fn put<T: Trace>(
    search: &mut Search,
    trace: &mut T,
    by: NogoodId,
    atom: AtomId,
    value: Value,
) -> Result<Option<Move>, SearchFault>
    requires ready { IsReady search.old }
    requires next { GivesNow search.old by atom value }
    ensures later { T.faults trace.old ≤ T.faults trace.new }
    ensures ok { IfOk result (Stepped search.old search.new (T.journal trace.old) (T.journal trace.new)) }
    ensures err { IfErr result
        (IsTraceFault search.old (T.journal trace.old) (T.journal trace.new) (T.faults trace.old) (T.faults trace.new)) }
{
    search.put(atom, value, by);
    noted(trace, &Event::Put { atom, value, by })?;
    Ok(None)
}

/// Decides that the body holds.
pub fn choose<T: Trace>(
    search: &mut Search,
    trace: &mut T,
    body: AtomId,
) -> Result<Option<Move>, SearchFault>
    requires ready { IsReady search.old }
    requires next { MoveIs search.old (Move.Choose body) }
    ensures later { T.faults trace.old ≤ T.faults trace.new }
    ensures ok { IfOk result (Stepped search.old search.new (T.journal trace.old) (T.journal trace.new)) }
    ensures err { IfErr result
        (IsTraceFault search.old (T.journal trace.old) (T.journal trace.new) (T.faults trace.old) (T.faults trace.new)) }
{
    search.choose(body);
    noted(trace, &Event::Chosen { body, up: true })?;
    Ok(None)
}

/// Sets the atom false.
pub fn close<T: Trace>(
    search: &mut Search,
    trace: &mut T,
    atom: AtomId,
) -> Result<Option<Move>, SearchFault>
    requires ready { IsReady search.old }
    requires next { MoveIs search.old (Move.Close atom) }
    ensures later { T.faults trace.old ≤ T.faults trace.new }
    ensures ok { IfOk result (Stepped search.old search.new (T.journal trace.old) (T.journal trace.new)) }
    ensures err { IfErr result
        (IsTraceFault search.old (T.journal trace.old) (T.journal trace.new) (T.faults trace.old) (T.faults trace.new)) }
{
    search.close(atom);
    noted(trace, &Event::Closed { atom })?;
    Ok(None)
}
