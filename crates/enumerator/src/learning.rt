//! What follows a conflict or a stuck atom.
//!
//! A struck nogood is analysed, as in CDCL: where it is unit itself below its highest level it is kept, and else a nogood is learned that is; and
//! the search goes back to where it is unit. Where an atom that was closed stands in the way, which is false for no nogood's sake, and where a
//! named atom stays must-be-true, the literals chosen are learned and struck, unless no rule gives the stuck atom: then the nogood that says so
//! is. Before the literals chosen are learned, the atom is called wide; whether it is isn't looked at yet.
//!
//! Source: Weinzierl, "Blending Lazy-Grounding and CDNL Search for Answer-Set Solving" (LPNMR 2017).

ghost use Rattle.std.specs.Prelude.{◌≡◌, ◌≤◌, ◌<◌, ◌^◌, ℕ, true, false, OnOk, IfErr, IfOk, length};
ghost use Rattle.journal_theory.specs.States as phase;
ghost use Rattle.journal_theory.specs.Laws.{NoneEmpty};
ghost use Rattle.conflict_learning.specs.declared.analysis.Analysis.TheVariants.{NeedsReason, New};
ghost use Rattle.conflict_learning.specs.Analysing.{IsAnalysis};
ghost use Rattle.nogood_store.specs.Stored.{HasNoAtomTwice};
ghost use Rattle.search_state.specs.Searching.{ids, taken_back, LitsAreBelow};
ghost use Rattle.search_state.specs.Underivable.{IsUnderivable};
ghost use Rattle.search_journals.specs.Standing.{IsKept, IsReady, IsTraceFault, IsRoundFault};
ghost use Rattle.search_journals.specs.Moves.{MoveIs};
ghost use Rattle.search_journals.specs.Settling.{JumpsTo, MayStrikeNow, MayLearnNow, MayCallWide, IsToStrike, IsToLearn, IsSomewhere, Carried, Turned, Rounds, struck_by, learned_by, kept_by, called_wide, decided};

use crate::justifying::learn_justified;
use crate::steps::noted;
use alpha_outside::{AtomId, Event, How, List, Lit, NogoodId, Trace};
use search_journals::{Finish, Move, SearchFault};
use search_state::{Analysis, Search, Stage};
use std::alloc::Global;

/// How many patterns a cover may have. An atom to which more lead is wide.
const MOST_PATTERNS: u32 = 256;

// Notes the nogood as struck.
fn strike<T: Trace>(search: &mut Search, trace: &mut T, nogood: NogoodId) -> Result<(), SearchFault>
    requires there { nogood < length search.old.nogoods }
    requires may { MayStrikeNow search.old nogood }
    ensures later { T.faults trace.old ≤ T.faults trace.new }
    ensures struck { OnOk result (search.new ≡ struck_by search.old nogood) }
    ensures carries { OnOk result (Carried search.old search.new (T.journal trace.old) (T.journal trace.new) 1) }
    ensures err { IfErr result
        (IsTraceFault search.old (T.journal trace.old) (T.journal trace.new) (T.faults trace.old) (T.faults trace.new)) }
{
    search.strike(nogood);
    noted(trace, &Event::Struck { nogood })
}

/// Learns these literals.
pub fn learn<T: Trace>(
    search: &mut Search,
    alloc: Global,
    trace: &mut T,
    how: How,
    lits: List<Lit>,
) -> Result<NogoodId, SearchFault>
    requires may { MayLearnNow search.old how lits }
    requires below { LitsAreBelow (ids search.old) lits }
    requires once { HasNoAtomTwice lits }
    ensures later { T.faults trace.old ≤ T.faults trace.new }
    ensures learned { OnOk result (search.new ≡ learned_by search.old lits) }
    ensures number { IfOk result (λ n. n ≡ length search.old.nogoods) }
    ensures ids_fit { OnOk result (ids search.old < 2 ^ 32) }
    ensures carries { OnOk result (Carried search.old search.new (T.journal trace.old) (T.journal trace.new) 0) }
    ensures err { IfErr result
        (IsTraceFault search.old (T.journal trace.old) (T.journal trace.new) (T.faults trace.old) (T.faults trace.new)) }
{
    let Ok(nogood) = search.learn(lits.as_slice()) else {
        return Err(SearchFault::OutOfMemory);
    };
    let cover = List::new(alloc);
    match noted(
        trace,
        &Event::Learned {
            nogood,
            how,
            lits,
            cover,
        },
    ) {
        Ok(()) => Ok(nogood),
        Err(fault) => Err(fault),
    }
}

// Keeps the struck nogood, which is unit once levels are taken away.
fn keep<T: Trace>(search: &mut Search, trace: &mut T, nogood: NogoodId) -> Result<(), SearchFault>
    requires kept { IsKept search.old }
    requires must { search.old.phase ≡ phase.MustLearn nogood }
    requires jumps { (level : ℕ) × JumpsTo search.old nogood level }
    ensures later { T.faults trace.old ≤ T.faults trace.new }
    ensures kept_by { OnOk result (search.new ≡ kept_by search.old nogood) }
    ensures carries { OnOk result (Carried search.old search.new (T.journal trace.old) (T.journal trace.new) 0) }
    ensures err { IfErr result
        (IsTraceFault search.old (T.journal trace.old) (T.journal trace.new) (T.faults trace.old) (T.faults trace.new)) }
{
    search.keep(nogood);
    noted(trace, &Event::Kept { nogood })
}

/// Goes back to this level, where the nogood just learned or kept is unit.
pub fn back<T: Trace>(search: &mut Search, trace: &mut T, level: u32) -> Result<(), SearchFault>
    requires kept { IsKept search.old }
    requires jumps { (n : ℕ) × (search.old.phase ≡ phase.MustJump n) × JumpsTo search.old n level }
    ensures later { T.faults trace.old ≤ T.faults trace.new }
    ensures back { OnOk result (search.new ≡ taken_back search.old level) }
    ensures carries { OnOk result (Carried search.old search.new (T.journal trace.old) (T.journal trace.new) 0) }
    ensures err { IfErr result
        (IsTraceFault search.old (T.journal trace.old) (T.journal trace.new) (T.faults trace.old) (T.faults trace.new)) }
{
    search.back(level);
    noted(trace, &Event::Back { level })
}

// Keeps the struck nogood, and goes back to where it is unit.
fn keep_and_go<T: Trace>(
    search: &mut Search,
    trace: &mut T,
    nogood: NogoodId,
    level: u32,
) -> Result<Option<Finish>, SearchFault>
    requires kept { IsKept search.old }
    requires firm { NoneEmpty search.old.nogoods }
    requires must { search.old.phase ≡ phase.MustLearn nogood }
    requires jumps { JumpsTo search.old nogood level }
    ensures later { T.faults trace.old ≤ T.faults trace.new }
    ensures ok { IfOk result
        (λ end. (rest : ℕ) → Turned search.old search.new (T.journal trace.old) (T.journal trace.new) rest rest end) }
    ensures err { IfErr result
        (IsTraceFault search.old (T.journal trace.old) (T.journal trace.new) (T.faults trace.old) (T.faults trace.new)) }
{
    keep(search, trace, nogood)?;
    match back(search, trace, level) {
        Ok(()) => Ok(None),
        Err(fault) => Err(fault),
    }
}

// Learns what the analysis of a struck nogood gave, and goes back to where it is unit.
fn learn_and_go<T: Trace>(
    search: &mut Search,
    alloc: Global,
    trace: &mut T,
    struck: NogoodId,
    lits: List<Lit>,
    level: u32,
) -> Result<Option<Finish>, SearchFault>
    requires next { IsToLearn search.old struck }
    requires new { IsAnalysis search.old.nogoods search.old.stack struck (New lits level) }
    ensures later { T.faults trace.old ≤ T.faults trace.new }
    ensures ok { IfOk result
        (λ end. (rest : ℕ) → Turned search.old search.new (T.journal trace.old) (T.journal trace.new) rest rest end) }
    ensures err { IfErr result
        (IsTraceFault search.old (T.journal trace.old) (T.journal trace.new) (T.faults trace.old) (T.faults trace.new)) }
{
    learn(search, alloc, trace, How::Analysed, lits)?;
    match back(search, trace, level) {
        Ok(()) => Ok(None),
        Err(fault) => Err(fault),
    }
}

// Notes the atom as wide.
fn call_wide<T: Trace>(search: &mut Search, trace: &mut T, atom: AtomId) -> Result<(), SearchFault>
    requires may { MayCallWide search.old atom }
    ensures later { T.faults trace.old ≤ T.faults trace.new }
    ensures called { OnOk result (search.new ≡ called_wide search.old) }
    ensures carries { OnOk result (Carried search.old search.new (T.journal trace.old) (T.journal trace.new) 0) }
    ensures err { IfErr result
        (IsTraceFault search.old (T.journal trace.old) (T.journal trace.new) (T.faults trace.old) (T.faults trace.new)) }
{
    search.call_wide();
    noted(
        trace,
        &Event::Wide {
            atom,
            count: MOST_PATTERNS,
        },
    )
}

// Learns the literals chosen, after this atom was called wide.
fn decide<T: Trace>(
    search: &mut Search,
    alloc: Global,
    trace: &mut T,
    atom: AtomId,
) -> Result<NogoodId, SearchFault>
    requires kept { IsKept search.old }
    requires firm { NoneEmpty search.old.nogoods }
    requires may { MayCallWide search.old atom }
    ensures later { T.faults trace.old ≤ T.faults trace.new }
    ensures decided { OnOk result (search.new ≡ decided search.old) }
    ensures number { IfOk result (λ n. n ≡ length search.old.nogoods) }
    ensures carries { OnOk result (Carried search.old search.new (T.journal trace.old) (T.journal trace.new) 0) }
    ensures err { IfErr result
        (IsTraceFault search.old (T.journal trace.old) (T.journal trace.new) (T.faults trace.old) (T.faults trace.new)) }
{
    let Ok(chosen) = search.chosen() else {
        return Err(SearchFault::OutOfMemory);
    };
    call_wide(search, trace, atom)?;
    learn(search, alloc, trace, How::Decisions, List::from_vec(chosen))
}

// Whether the search has ended.
fn is_over(search: &Search) -> bool
    ensures yes { result ≡ true → search.now.phase ≡ phase.Over }
    ensures no { result ≡ false → ¬ (search.now.phase ≡ phase.Over) }
{
    matches!(search.stage(), Stage::Over)
}

// Strikes the nogood just learned, which ends the search, or is kept.
fn strike_learned<T: Trace>(
    search: &mut Search,
    trace: &mut T,
    nogood: NogoodId,
    rest: &mut u64,
) -> Result<Option<Finish>, SearchFault>
    requires next { IsToStrike search.old nogood }
    ensures later { T.faults trace.old ≤ T.faults trace.new }
    ensures fewer { rest.new ≤ rest.old }
    ensures ok { IfOk result (Rounds search.old search.new (T.journal trace.old) (T.journal trace.new) rest.old rest.new) }
    ensures err { IfErr result
        (IsRoundFault search.old (T.journal trace.old) (T.journal trace.new) rest.old (T.faults trace.old) (T.faults trace.new)) }
{
    if *rest == 0 {
        return Ok(Some(Finish::Conflicts));
    }
    strike(search, trace, nogood)?;
    *rest -= 1;
    if is_over(search) {
        return Ok(Some(Finish::Finished));
    }
    let level = search.unit_level(nogood);
    keep_and_go(search, trace, nogood, level)
}

// Learns and strikes the literals chosen, after this atom was called wide.
fn give_up<T: Trace>(
    search: &mut Search,
    alloc: Global,
    trace: &mut T,
    atom: AtomId,
    rest: &mut u64,
) -> Result<Option<Finish>, SearchFault>
    requires kept { IsKept search.old }
    requires firm { NoneEmpty search.old.nogoods }
    requires may { MayCallWide search.old atom }
    requires stands { IsSomewhere search.old (T.journal trace.old) rest.old }
    ensures later { T.faults trace.old ≤ T.faults trace.new }
    ensures fewer { rest.new ≤ rest.old }
    ensures ok { IfOk result (Rounds search.old search.new (T.journal trace.old) (T.journal trace.new) rest.old rest.new) }
    ensures err { IfErr result
        (IsRoundFault search.old (T.journal trace.old) (T.journal trace.new) rest.old (T.faults trace.old) (T.faults trace.new)) }
{
    let nogood = decide(search, alloc, trace, atom)?;
    strike_learned(search, trace, nogood, rest)
}

// Learns from the struck nogood.
fn learn_from<T: Trace>(
    search: &mut Search,
    alloc: Global,
    trace: &mut T,
    struck: NogoodId,
    rest: &mut u64,
) -> Result<Option<Finish>, SearchFault>
    requires next { IsToLearn search.old struck }
    requires stands { IsSomewhere search.old (T.journal trace.old) rest.old }
    ensures later { T.faults trace.old ≤ T.faults trace.new }
    ensures fewer { rest.new ≤ rest.old }
    ensures ok { IfOk result (Turned search.old search.new (T.journal trace.old) (T.journal trace.new) rest.old rest.new) }
    ensures err { IfErr result
        (IsRoundFault search.old (T.journal trace.old) (T.journal trace.new) rest.old (T.faults trace.old) (T.faults trace.new)) }
{
    let Ok(found) = search.analyse(struck) else {
        return Err(SearchFault::OutOfMemory);
    };
    match found {
        Analysis::Root => unreachable!(),
        Analysis::AlreadyUnit { back_to, .. } => keep_and_go(search, trace, struck, back_to),
        Analysis::New { lits, back_to } => learn_and_go(
            search, alloc, trace, struck, lits, back_to,
        ),
        Analysis::NeedsReason { atom } => give_up(search, alloc, trace, atom, rest),
    }
}

/// After a nogood was found struck; `rest` is how many may be struck.
pub fn settle_struck<T: Trace>(
    search: &mut Search,
    alloc: Global,
    trace: &mut T,
    nogood: NogoodId,
    rest: &mut u64,
) -> Result<Option<Finish>, SearchFault>
    requires ready { IsReady search.old }
    requires next { MoveIs search.old (Move.Strike nogood) }
    requires stands { IsSomewhere search.old (T.journal trace.old) rest.old }
    ensures later { T.faults trace.old ≤ T.faults trace.new }
    ensures ok { IfOk result (Rounds search.old search.new (T.journal trace.old) (T.journal trace.new) rest.old rest.new) }
    ensures err { IfErr result
        (IsRoundFault search.old (T.journal trace.old) (T.journal trace.new) rest.old (T.faults trace.old) (T.faults trace.new)) }
{
    if *rest == 0 {
        return Ok(Some(Finish::Conflicts));
    }
    let Ok(first) = search.first_struck() else {
        return Err(SearchFault::OutOfMemory);
    };
    let Some(struck) = first else { unreachable!() };
    strike(search, trace, struck)?;
    *rest -= 1;
    if is_over(search) {
        return Ok(Some(Finish::Finished));
    }
    learn_from(search, alloc, trace, struck, rest)
}

// Learns and strikes that no rule gives the stuck atom.
fn refute<T: Trace>(
    search: &mut Search,
    alloc: Global,
    trace: &mut T,
    atom: AtomId,
    rest: &mut u64,
) -> Result<Option<Finish>, SearchFault>
    requires ready { IsReady search.old }
    requires next { MoveIs search.old (Move.Stuck atom) }
    requires none_gives { IsUnderivable search.old atom }
    ensures later { T.faults trace.old ≤ T.faults trace.new }
    ensures ok { IfOk result (Rounds search.old search.new (T.journal trace.old) (T.journal trace.new) rest.old rest.new) }
    ensures err { IfErr result
        (IsRoundFault search.old (T.journal trace.old) (T.journal trace.new) rest.old (T.faults trace.old) (T.faults trace.new)) }
{
    let nogood = learn_justified(search, alloc, trace, atom)?;
    strike_learned(search, trace, nogood, rest)
}

/// After a named atom stayed must-be-true; `rest` is how many nogoods may be struck.
pub fn settle_stuck<T: Trace>(
    search: &mut Search,
    alloc: Global,
    trace: &mut T,
    atom: AtomId,
    rest: &mut u64,
) -> Result<Option<Finish>, SearchFault>
    requires ready { IsReady search.old }
    requires next { MoveIs search.old (Move.Stuck atom) }
    requires stands { IsSomewhere search.old (T.journal trace.old) rest.old }
    ensures later { T.faults trace.old ≤ T.faults trace.new }
    ensures ok { IfOk result (Rounds search.old search.new (T.journal trace.old) (T.journal trace.new) rest.old rest.new) }
    ensures err { IfErr result
        (IsRoundFault search.old (T.journal trace.old) (T.journal trace.new) rest.old (T.faults trace.old) (T.faults trace.new)) }
{
    let Ok(barred) = search.is_barred(atom) else {
        return Err(SearchFault::OutOfMemory);
    };
    if barred {
        refute(search, alloc, trace, atom, rest)
    } else {
        give_up(search, alloc, trace, atom, rest)
    }
}
