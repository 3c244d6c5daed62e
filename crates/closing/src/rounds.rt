//! Closing: each named atom without a value is set false, and what follows is propagated before the next one is looked for.
//!
//! The atoms are gone through once, in the order of their ids, and none is looked at again: what has a value keeps it, since no level is taken
//! away here. An atom is closed only where nothing is unit or struck and no named atom is must-be-true. That was so of the last one, so a named atom that
//! is must-be-true became so among the entries that came since, and only these are looked through.
//!
//! At the end each named atom is true or false. So is each body atom: its instance's atoms are named, and where nothing is unit or struck, the nogoods of
//! the instance make the body false with a positive atom that is false, a negative one that is true, or a head that is false and has to be chosen, and
//! else true. So no body atom is ever closed, and none has to be looked at. Nor does it matter which bodies were active.
//!
//! It costs one look at the value of each atom, one look at each entry that comes, and the propagations: first one that takes up what wasn't taken up yet,
//! which is nothing where the trail was marked since its last entry, and then one for each atom that is closed.

ghost use Rattle.std.specs.Prelude.{◌≡◌, ◌<◌, ◌≤◌, ℕ, List, length, drop, reverse, None, Some, IfOk, IfErr, OnOk, option_map};
ghost use Rattle.lists.specs.Lists.{Each};
ghost use Rattle.alpha_outside.specs.Outside.{with_event};
ghost use Rattle.alpha_outside.specs.declared.event.Event.TheVariants.{Closed as SaysClosed};
ghost use Rattle.search_values.specs.declared.entry.Why.TheVariants.{Closed};
ghost use Rattle.search_values.specs.Values.{Value, False, value_of};
ghost use Rattle.search_values.specs.Nogoods.{NoneStruck, NoneUnit};
ghost use Rattle.trail.specs.Assigning.{Trailed, assigned};
ghost use Rattle.nogood_store.specs.Stored.{Stored, AllAreBelow};
ghost use Rattle.nogood_store.specs.Matching.{Matches};
ghost use Rattle.propagation.specs.Runs.{nogoods_of, Propagated, Faulted, IsCause, IsBounded, FixIs};
ghost use Rattle.propagation.specs.declared.fixpoint.Fix.TheVariants.{Quiet};
ghost use Rattle.closing.specs.Closable.{IsNamed, IsClosable, HoldsAll, NoneMustBe, IsFull};
ghost use Rattle.closing.specs.Closings.{HasClosed, Stopped, IsSpent, SettledIs, ClosingIs};

use crate::stuck::{is_open, stuck_since};
use alpha_outside::{AtomId, Event, NogoodId, Trace, TraceStop};
use atom_pool::Ground;
use nogood_store::{NogoodStore, Steps};
use propagation::{Fix, PropFault, propagate};
use std::alloc::Global;
use std::sync::ledger::Ledger;
use trail::Trail;

/// How closing ends.
#[derive(Clone, Copy, Debug, PartialEq, Eq)]
pub enum Closing {
    /// Each atom has a value, and none is must-be-true.
    Closed,
    /// All literals of the nogood hold.
    Struck(NogoodId),
    /// The named atom became must-be-true, and nothing is left that would make it true.
    Stuck(AtomId),
}

// Notes an event.
fn noted<T: Trace>(trace: &mut T, event: &Event) -> Result<(), PropFault>
    ensures later { T.faults trace.old ≤ T.faults trace.new }
    ensures ok { OnOk result (T.journal trace.new ≡ option_map (with_event event.now) (T.journal trace.old)) }
    ensures unchanged { IfErr result (λ f. T.journal trace.new ≡ T.journal trace.old) }
    ensures cause { IfErr result (IsCause (T.faults trace.old) (T.faults trace.new)) }
{
    match trace.note(event) {
        Ok(()) => Ok(()),
        Err(TraceStop::Failed) => Err(PropFault::TraceFault),
        Err(TraceStop::OutOfMemory) => Err(PropFault::OutOfMemory),
    }
}

// Notes that the atom was closed.
fn noted_closed<T: Trace>(trace: &mut T, atom: AtomId) -> Result<(), PropFault>
    ensures later { T.faults trace.old ≤ T.faults trace.new }
    ensures ok { OnOk result (T.journal trace.new ≡ option_map (with_event (SaysClosed atom)) (T.journal trace.old)) }
    ensures unchanged { IfErr result (λ f. T.journal trace.new ≡ T.journal trace.old) }
    ensures cause { IfErr result (IsCause (T.faults trace.old) (T.faults trace.new)) }
{
    noted(trace, &Event::Closed { atom })
}

// Propagates, and tells what ends the closing: a struck nogood, or a named atom that became must-be-true and stays so.
fn settle<T: Trace, L: Ledger>(
    alloc: Global,
    ground: &Ground,
    store: &mut NogoodStore,
    trail: &mut Trail,
    trace: &mut T,
    steps: &mut Steps<L>,
) -> Result<Option<Closing>, PropFault>
    requires places { length ground.now.atoms.atoms ≤ trail.old.atoms }
    requires below { AllAreBelow (length ground.now.atoms.atoms) store.old }
    requires matches { Matches store.old trail.old }
    requires taken { Each (λ e. e.atom < length ground.now.atoms.atoms) (drop trail.old.kept (reverse trail.old.stack)) }
    requires none_must_be { NoneMustBe ground.now trail.old.stack }
    ensures values { IfOk result (λ halt. Propagated store.old store.new trail.old trail.new (T.journal trace.old) (T.journal trace.new)) }
    ensures settled { IfOk result (SettledIs ground.now store.new trail.new) }
    ensures err { IfErr result (λ f. Faulted store.old store.new trail.old trail.new (T.journal trace.old) (T.journal trace.new)) }
    ensures cause { IfErr result (IsCause (T.faults trace.old) (T.faults trace.new)) }
    ensures later { T.faults trace.old ≤ T.faults trace.new }
    ensures bound { IsBounded store.old store.new trail.old trail.new steps.old steps.new }
{
    let from = trail.kept();
    let fix = match propagate(alloc, store, trail, trace, steps) {
        Ok(fix) => fix,
        Err(fault) => return Err(fault),
    };
    match fix {
        Fix::Struck(nogood) => Ok(Some(Closing::Struck(nogood))),
        Fix::Quiet => match stuck_since(ground, &*trail, from) {
            Some(atom) => Ok(Some(Closing::Stuck(atom))),
            None => Ok(None),
        },
    }
}

// Closes the atom and notes it, and propagates.
fn close<T: Trace, L: Ledger>(
    alloc: Global,
    ground: &Ground,
    store: &mut NogoodStore,
    trail: &mut Trail,
    trace: &mut T,
    steps: &mut Steps<L>,
    atom: AtomId,
) -> Result<Option<Closing>, PropFault>
    requires places { length ground.now.atoms.atoms ≤ trail.old.atoms }
    requires below { AllAreBelow (length ground.now.atoms.atoms) store.old }
    requires matches { Matches store.old trail.old }
    requires quiet { FixIs store.old trail.old Quiet }
    requires none_must_be { NoneMustBe ground.now trail.old.stack }
    requires named { IsNamed ground.now atom }
    requires unassigned { value_of trail.old.stack atom ≡ None }
    ensures values { IfOk result (λ halt. HasClosed ground.now store.old store.new trail.old trail.new (T.journal trace.old) (T.journal trace.new)) }
    ensures settled { IfOk result (SettledIs ground.now store.new trail.new) }
    ensures valued { IfOk result (λ halt. (v : Value) × (value_of trail.new.stack atom ≡ Some v)) }
    ensures err { IfErr result (λ f. Stopped ground.now store.old store.new trail.old trail.new (T.journal trace.old) (T.journal trace.new)) }
    ensures cause { IfErr result (IsCause (T.faults trace.old) (T.faults trace.new)) }
    ensures later { T.faults trace.old ≤ T.faults trace.new }
    ensures bound { IsBounded store.old store.new (assigned trail.old atom False (Closed None)) trail.new steps.old steps.new }
{
    trail.close(atom);
    match noted_closed(trace, atom) {
        Ok(()) => settle(alloc, ground, store, trail, trace, steps),
        Err(fault) => Err(fault),
    }
}

// Closes the named atoms without a value, one after another, where the trail is marked.
fn close_each<T: Trace, L: Ledger>(
    alloc: Global,
    ground: &Ground,
    store: &mut NogoodStore,
    trail: &mut Trail,
    trace: &mut T,
    steps: &mut Steps<L>,
) -> Result<Closing, PropFault>
    requires closable { IsClosable ground.now }
    requires places { length ground.now.atoms.atoms ≤ trail.old.atoms }
    requires below { AllAreBelow (length ground.now.atoms.atoms) store.old }
    requires matches { Matches store.old trail.old }
    requires holds { HoldsAll ground.now (nogoods_of store.old) }
    requires quiet { FixIs store.old trail.old Quiet }
    requires none_must_be { NoneMustBe ground.now trail.old.stack }
    ensures values { IfOk result (λ closing. HasClosed ground.now store.old store.new trail.old trail.new (T.journal trace.old) (T.journal trace.new)) }
    ensures closing { IfOk result (ClosingIs ground.now store.new trail.old trail.new) }
    ensures err { IfErr result (λ f. Stopped ground.now store.old store.new trail.old trail.new (T.journal trace.old) (T.journal trace.new)) }
    ensures cause { IfErr result (IsCause (T.faults trace.old) (T.faults trace.new)) }
    ensures later { T.faults trace.old ≤ T.faults trace.new }
    ensures spent { (s : List Stored) (t : Trailed) (n : ℕ) → IsSpent s t n store.old trail.old steps.old → IsSpent s t n store.new trail.new steps.new }
{
    for place in 0..ground.atoms.len() {
        let atom = AtomId(place);
        if is_open(ground, &*trail, atom) {
            match close(alloc, ground, store, trail, trace, steps, atom) {
                Ok(None) => (),
                Ok(Some(closing)) => return Ok(closing),
                Err(fault) => return Err(fault),
            }
        }
    }
    Ok(Closing::Closed)
}

/// Closes the named atoms without a value, one after another, and propagates after each: until each atom has a value, a nogood is struck, or a named
/// atom is must-be-true where nothing is unit or struck.
///
/// Each atom is noted as closed before anything is propagated from it. It costs one look at the value of each atom, one at each entry that comes, and what
/// `spent` says of the propagations.
///
/// A fault is that of a note or of a propagation. What was noted by then is what was done, but for the newest entry, which may not be noted.
pub fn close_all<T: Trace, L: Ledger>(
    alloc: Global,
    ground: &Ground,
    store: &mut NogoodStore,
    trail: &mut Trail,
    trace: &mut T,
    steps: &mut Steps<L>,
) -> Result<Closing, PropFault>
    requires closable { IsClosable ground.now }
    requires places { length ground.now.atoms.atoms ≤ trail.old.atoms }
    requires below { AllAreBelow (length ground.now.atoms.atoms) store.old }
    requires matches { Matches store.old trail.old }
    requires holds { HoldsAll ground.now (nogoods_of store.old) }
    requires none_struck { NoneStruck trail.old.stack (nogoods_of store.old) }
    requires none_unit { NoneUnit trail.old.stack (nogoods_of store.old) }
    requires none_must_be { NoneMustBe ground.now trail.old.stack }
    ensures values { IfOk result (λ closing. HasClosed ground.now store.old store.new trail.old trail.new (T.journal trace.old) (T.journal trace.new)) }
    ensures closing { IfOk result (ClosingIs ground.now store.new trail.old trail.new) }
    ensures exact { IfOk result (λ closing. IsFull ground.now trail.new.stack → NoneStruck trail.new.stack (nogoods_of store.new) → closing ≡ Closing.Closed) }
    ensures err { IfErr result (λ f. Stopped ground.now store.old store.new trail.old trail.new (T.journal trace.old) (T.journal trace.new)) }
    ensures cause { IfErr result (IsCause (T.faults trace.old) (T.faults trace.new)) }
    ensures later { T.faults trace.old ≤ T.faults trace.new }
    ensures spent { IsSpent store.old trail.old steps.old store.new trail.new steps.new }
{
    // Nothing is unit, so no value comes: what wasn't taken up yet is taken up, and the trail is marked.
    let fix = match propagate(alloc, store, trail, trace, steps) {
        Ok(fix) => fix,
        Err(fault) => return Err(fault),
    };
    match fix {
        Fix::Struck(nogood) => Ok(Closing::Struck(nogood)),
        Fix::Quiet => close_each(alloc, ground, store, trail, trace, steps),
    }
}
