//! What a search does next. Propagation comes first, and a nogood that is struck by it; then an atom that stays must-be-true above a closed
//! one; then an entry of the trail that wasn't handed to the grounder. Where a body is active, an atom that no rule gives comes before it. Where
//! none is, the state is settled: a must-be-true atom stays so, or such an atom comes, or an unassigned atom is closed, or a set is found.

ghost use Rattle.std.specs.Prelude.{◌≡◌, ◌≤◌, Some, true, false, IfOk, IfErr, IfSome, IfNone};
ghost use Rattle.alpha_outside.specs.declared.literal.Value.TheVariants.{MustBe};
ghost use Rattle.search_values.specs.Values.{value_of, HasClosed};
ghost use Rattle.lazy_grounder.specs.Lawful.{IsLawful};
ghost use Rattle.search_state.specs.Searching.{IsAllTold};
ghost use Rattle.search_state.specs.Moves.{FixIs, IsNamed};
ghost use Rattle.search_state.specs.Underivable.{CanBeOut};
ghost use Rattle.search_journals.specs.Standing.{IsReady, IsTraceFault};
ghost use Rattle.search_journals.specs.Runs.{GoesOn};
ghost use Rattle.search_journals.specs.Moves.{MoveIs, IsHalt, IsQuiet, IsIdle, NoneSince};
ghost use Rattle.search_journals.specs.declared.moves.Move.TheVariants.{Choose};

use crate::propagating::propagate;
use alpha_outside::{AtomId, OutOfMemory, Trace};
use propagation::Fix;
use search_journals::{Move, SearchFault};
use search_state::Search;

/// Propagates, and then tells what comes next where nothing in particular has to.
pub fn next_move<T: Trace>(search: &mut Search, trace: &mut T) -> Result<Move, SearchFault>
    requires ready { IsReady search.old }
    ensures later { T.faults trace.old ≤ T.faults trace.new }
    ensures goes_on { IfOk result (λ found. GoesOn search.old search.new (T.journal trace.old) (T.journal trace.new)) }
    ensures next { IfOk result (MoveIs search.new) }
    ensures err { IfErr result
        (IsTraceFault search.old (T.journal trace.old) (T.journal trace.new) (T.faults trace.old) (T.faults trace.new)) }
{
    match propagate(search, trace) {
        Ok(fix) => match move_after(&*search, fix) {
            Ok(found) => Ok(found),
            Err(_) => Err(SearchFault::OutOfMemory),
        },
        Err(fault) => Err(fault),
    }
}

// What comes next after a propagation that ended so.
fn move_after(search: &Search, fix: Fix) -> Result<Move, OutOfMemory>
    requires lawful { IsLawful search.now.core search.now.ground }
    requires told { IsAllTold search.now }
    requires fix { FixIs search.now fix }
    ensures { IfOk result (MoveIs search.now) }
{
    match fix {
        Fix::Struck(nogood) => Ok(Move::Strike(nogood)),
        Fix::Quiet => quiet_move(search),
    }
}

// What comes next where nothing is struck or unit.
fn quiet_move(search: &Search) -> Result<Move, OutOfMemory>
    requires lawful { IsLawful search.now.core search.now.ground }
    requires told { IsAllTold search.now }
    requires quiet { IsQuiet search.now }
    ensures { IfOk result (MoveIs search.now) }
{
    if let Some(atom) = stuck_since(search) {
        return Ok(Move::Stuck(atom));
    }
    if search.has_risen() {
        return Ok(Move::Join);
    }
    match search.active() {
        Some(body) => active_move(search, body),
        None => idle_move(search),
    }
}

// The first named atom that is must-be-true above a closed one.
fn stuck_since(search: &Search) -> Option<AtomId>
    ensures some { IfSome result (λ x. IsNamed search.now x × (value_of search.now.stack x ≡ Some MustBe) × HasClosed search.now.stack) }
    ensures none { IfNone result (NoneSince search.now) }
{
    if !search.has_closed() {
        return None;
    }
    search.must_be()
}

// An atom without a value that no rule gives, where no atom is closed.
fn barred(search: &Search) -> Result<Option<AtomId>, OutOfMemory>
    requires { IsLawful search.now.core search.now.ground }
    ensures { IfOk result (λ found. IfSome found (λ x. (¬ HasClosed search.now.stack) × CanBeOut search.now x)) }
{
    if search.has_closed() {
        return Ok(None);
    }
    search.underivable()
}

// What comes next where this body is active.
fn active_move(search: &Search, body: AtomId) -> Result<Move, OutOfMemory>
    requires lawful { IsLawful search.now.core search.now.ground }
    requires next { MoveIs search.now (Choose body) }
    ensures { IfOk result (MoveIs search.now) }
{
    if let Some(atom) = barred(search)? {
        return Ok(Move::Justify(atom));
    }
    Ok(Move::Choose(body))
}

// What comes next where the state is settled.
fn idle_move(search: &Search) -> Result<Move, OutOfMemory>
    requires lawful { IsLawful search.now.core search.now.ground }
    requires quiet { IsQuiet search.now }
    requires idle { IsIdle search.now }
    ensures { IfOk result (MoveIs search.now) }
{
    if let Some(atom) = search.must_be() {
        return Ok(Move::Stuck(atom));
    }
    if let Some(atom) = barred(search)? {
        return Ok(Move::Justify(atom));
    }
    match search.unassigned() {
        Some(atom) => Ok(Move::Close(atom)),
        None => Ok(Move::Full),
    }
}

/// Whether something is learned next, or the search ends.
pub fn is_halt(found: &Move) -> bool
    ensures yes { result ≡ true → IsHalt found.now }
    ensures no { result ≡ false → ¬ IsHalt found.now }
{
    matches!(
        found,
        Move::Strike(_)
            | Move::Overflow { .. }
            | Move::TooLarge { .. }
            | Move::Spent
            | Move::Stuck(_)
            | Move::Full
    )
}
