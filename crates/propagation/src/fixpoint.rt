//! Propagation: nogoods are visited until nothing is unit or struck, or one is struck.
//!
//! First each nogood is visited that wasn't before. Then the entries of the trail are taken up, the oldest first, from the first that wasn't: the
//! nogoods that watch the entry's literal are visited, and each value that follows is put on the trail's end, to be taken up in turn. When all are
//! taken up, the watches of all nogoods suffice on the whole stack, so that none is unit or struck, and the trail is marked.
//!
//! It costs one visit for each nogood that wasn't visited, and for each entry one for each nogood that watches its literal then; the ids of these
//! are copied before, since a visit changes the list.

ghost use Rattle.std.specs.Prelude.{◌≡◌, ◌<◌, ◌≤◌, ◌+◌, ◌↔◌, ◌-◌, ℕ, ⊤, List, length, slice_get, Some, None, OnOk, IfOk, IfErr, IfSome, reverse, get_or};
ghost use Rattle.lists.specs.Lists.{◌∈◌};
ghost use Rattle.search_values.specs.declared.entry.Entry.{Entry};
ghost use Rattle.propagation.specs.declared.putting.PropFault.TheVariants.{OutOfMemory};
ghost use Rattle.nogood_store.specs.Stored.{Stored, AllAreBelow};
ghost use Rattle.nogood_store.specs.Watched.{Watching, watch_count};
ghost use Rattle.nogood_store.specs.Matching.{Matches, Suffices, taken_up};
ghost use Rattle.propagation.specs.Runs.{Ran, Faulted, Propagated, IsCause, IsStruckAt, OthersStay, TheseSuffice, TakesUp, IsTakenUp, IsBounded, FixIs, literal_of, SameNogoods};

use crate::putting::{PropFault, visit_and_put};
use alpha_outside::{Lit, NogoodId, Trace, Value};
use nogood_store::{NogoodStore, Steps};
use search_values::Entry;
use std::alloc::Global;
use std::sync::ledger::Ledger;
use trail::Trail;

/// How a propagation ends.
#[derive(Clone, Copy, Debug, PartialEq, Eq)]
pub enum Fix {
    /// Nothing is unit or struck.
    Quiet,
    /// All literals of the nogood hold.
    Struck(NogoodId),
}

// Visits each of these nogoods, up to the first that is struck.
fn visit_all<T: Trace, L: Ledger>(
    store: &mut NogoodStore,
    trail: &mut Trail,
    trace: &mut T,
    steps: &mut Steps<L>,
    ids: &[NogoodId],
) -> Result<Option<NogoodId>, PropFault>
    requires there { (n : ℕ) → n ∈ ids.now → n < length store.old }
    requires below { AllAreBelow trail.old.atoms store.old }
    requires matches { Matches store.old trail.old }
    ensures ran { IfOk result (λ found. Ran store.old store.new trail.old trail.new (T.journal trace.old) (T.journal trace.new)) }
    ensures suffice { IfOk result (λ found. found ≡ None → TheseSuffice (λ n. n ∈ ids.now) trail.old.stack trail.new.stack store.new) }
    ensures struck { IfOk result (λ found. IfSome found (IsStruckAt store.new trail.new.stack)) }
    ensures others { OthersStay (λ n. n ∈ ids.now) store.old store.new }
    ensures err { IfErr result (λ f. Faulted store.old store.new trail.old trail.new (T.journal trace.old) (T.journal trace.new)) }
    ensures cause { IfErr result (IsCause (T.faults trace.old) (T.faults trace.new)) }
    ensures later { T.faults trace.old ≤ T.faults trace.new }
    ensures cost { steps.new ≤ steps.old + length ids.now }
{
    for id in ids {
        match visit_and_put(store, trail, trace, steps, *id) {
            Ok(struck) => {
                if struck {
                    return Ok(Some(*id));
                }
            }
            Err(fault) => return Err(fault),
        }
    }
    Ok(None)
}

// The literal that an entry makes hold.
fn literal(entry: &Entry) -> Lit
    ensures { result ≡ literal_of entry.now }
{
    Lit {
        atom: entry.atom,
        positive: match entry.value {
            Value::True => true,
            Value::MustBe => true,
            Value::False => false,
        },
    }
}

// The same ids.
fn copied(alloc: Global, ids: &[NogoodId]) -> Result<Vec<NogoodId>, PropFault>
    ensures ok { IfOk result (λ v. v.items ≡ ids.now) }
    ensures err { IfErr result (λ f. f ≡ OutOfMemory) }
{
    match ids.to_vec(alloc) {
        Ok(ids) => Ok(ids),
        Err(_) => Err(PropFault::OutOfMemory),
    }
}

// The nogoods that watch the literal of the entry at this place.
fn watchers_at(
    alloc: Global,
    store: &NogoodStore,
    trail: &Trail,
    place: usize,
) -> Result<Vec<NogoodId>, PropFault>
    requires { place < length trail.now.stack }
    ensures ok { IfOk result (λ ids. (e : Entry) × (slice_get (reverse trail.now.stack) place ≡ Some e) × ((n : ℕ) → (n ∈ ids.items) ↔ Watching store.now (literal_of e) n) × (length ids.items ≡ watch_count store.now (literal_of e))) }
    ensures err { IfErr result (λ f. f ≡ OutOfMemory) }
{
    copied(alloc, store.watchers(literal(&trail.entries()[place])))
}

// The ids from one up to another.
fn ids_between(alloc: Global, from: u32, to: u32) -> Result<Vec<NogoodId>, PropFault>
    ensures ok { IfOk result (λ ids. ((n : ℕ) → (n ∈ ids.items) ↔ ((from ≤ n) × (n < to))) × (length ids.items ≡ to - from)) }
    ensures err { IfErr result (λ f. f ≡ OutOfMemory) }
{
    let mut ids = Vec::new(alloc);
    for id in from..to {
        match ids.push(NogoodId(id)) {
            Ok(()) => (),
            Err(_) => return Err(PropFault::OutOfMemory),
        }
    }
    Ok(ids)
}

// Takes up the entry at this place: visits the nogoods that watch its literal.
fn take_up<T: Trace, L: Ledger>(
    alloc: Global,
    store: &mut NogoodStore,
    trail: &mut Trail,
    trace: &mut T,
    steps: &mut Steps<L>,
    place: usize,
) -> Result<Option<NogoodId>, PropFault>
    requires within { place < length trail.old.stack }
    requires below { AllAreBelow trail.old.atoms store.old }
    requires matches { Matches store.old trail.old }
    requires suffice { TheseSuffice (λ n. ⊤) (taken_up place trail.old.stack) trail.old.stack store.old }
    ensures ran { IfOk result (λ found. Ran store.old store.new trail.old trail.new (T.journal trace.old) (T.journal trace.new)) }
    ensures suffice { IfOk result (λ found. found ≡ None → TheseSuffice (λ n. ⊤) (taken_up (place + 1) trail.new.stack) trail.new.stack store.new) }
    ensures struck { IfOk result (λ found. IfSome found (IsStruckAt store.new trail.new.stack)) }
    ensures err { IfErr result (λ f. Faulted store.old store.new trail.old trail.new (T.journal trace.old) (T.journal trace.new)) }
    ensures cause { IfErr result (IsCause (T.faults trace.old) (T.faults trace.new)) }
    ensures later { T.faults trace.old ≤ T.faults trace.new }
    ensures others { (e : Entry) → slice_get (reverse trail.old.stack) place ≡ Some e → OthersStay (Watching store.old (literal_of e)) store.old store.new }
    ensures cost { (e : Entry) → slice_get (reverse trail.old.stack) place ≡ Some e → steps.new ≤ steps.old + watch_count store.old (literal_of e) }
{
    // With the entries comes what the trail promises of itself.
    let _ = trail.entries();
    match watchers_at(alloc, &*store, &*trail, place) {
        Ok(ids) => visit_all(store, trail, trace, steps, ids.as_slice()),
        Err(fault) => Err(fault),
    }
}

// Takes up the entries from this place on, up to the first by which a nogood is struck.
fn take_up_all<T: Trace, L: Ledger>(
    alloc: Global,
    store: &mut NogoodStore,
    trail: &mut Trail,
    trace: &mut T,
    steps: &mut Steps<L>,
    from: u32,
) -> Result<Option<NogoodId>, PropFault>
    requires within { from ≤ length trail.old.stack }
    requires below { AllAreBelow trail.old.atoms store.old }
    requires matches { Matches store.old trail.old }
    requires suffice { TheseSuffice (λ n. ⊤) (taken_up from trail.old.stack) trail.old.stack store.old }
    ensures ran { IfOk result (λ found. Ran store.old store.new trail.old trail.new (T.journal trace.old) (T.journal trace.new)) }
    ensures suffice { IfOk result (λ found. found ≡ None → TheseSuffice (λ n. ⊤) trail.new.stack trail.new.stack store.new) }
    ensures struck { IfOk result (λ found. IfSome found (IsStruckAt store.new trail.new.stack)) }
    ensures err { IfErr result (λ f. Faulted store.old store.new trail.old trail.new (T.journal trace.old) (T.journal trace.new)) }
    ensures cause { IfErr result (IsCause (T.faults trace.old) (T.faults trace.new)) }
    ensures later { T.faults trace.old ≤ T.faults trace.new }
    ensures cost { IsTakenUp from store.old store.new trail.new.stack steps.old steps.new }
{
    let mut next = from as usize;
    while next < trail.entries().len() {
        match take_up(alloc, store, trail, trace, steps, next) {
            Ok(None) => (),
            Ok(Some(id)) => return Ok(Some(id)),
            Err(fault) => return Err(fault),
        }
        next += 1;
    }
    Ok(None)
}

// Visits the nogoods that weren't visited, up to the first that is struck.
fn visit_new<T: Trace, L: Ledger>(
    alloc: Global,
    store: &mut NogoodStore,
    trail: &mut Trail,
    trace: &mut T,
    steps: &mut Steps<L>,
) -> Result<Option<NogoodId>, PropFault>
    requires below { AllAreBelow trail.old.atoms store.old }
    requires matches { Matches store.old trail.old }
    ensures ran { IfOk result (λ found. Ran store.old store.new trail.old trail.new (T.journal trace.old) (T.journal trace.new)) }
    ensures suffice { IfOk result (λ found. found ≡ None → TheseSuffice (λ n. ⊤) (taken_up trail.new.kept trail.new.stack) trail.new.stack store.new) }
    ensures struck { IfOk result (λ found. IfSome found (IsStruckAt store.new trail.new.stack)) }
    ensures others { OthersStay (λ n. trail.old.visited ≤ n) store.old store.new }
    ensures err { IfErr result (λ f. Faulted store.old store.new trail.old trail.new (T.journal trace.old) (T.journal trace.new)) }
    ensures cause { IfErr result (IsCause (T.faults trace.old) (T.faults trace.new)) }
    ensures later { T.faults trace.old ≤ T.faults trace.new }
    ensures cost { steps.new ≤ steps.old + (length store.old - trail.old.visited) }
{
    // With the entries and their count come what the trail promises of itself.
    let _ = trail.entries();
    let _ = trail.kept();
    match ids_between(alloc, trail.visited(), store.len()) {
        Ok(ids) => visit_all(store, trail, trace, steps, ids.as_slice()),
        Err(fault) => Err(fault),
    }
}

/// Gives the values of unit nogoods and notes each, until nothing is unit or struck, or a nogood is struck.
pub fn propagate<T: Trace, L: Ledger>(
    alloc: Global,
    store: &mut NogoodStore,
    trail: &mut Trail,
    trace: &mut T,
    steps: &mut Steps<L>,
) -> Result<Fix, PropFault>
    requires below { AllAreBelow trail.old.atoms store.old }
    requires matches { Matches store.old trail.old }
    ensures values { IfOk result (λ fix. Propagated store.old store.new trail.old trail.new (T.journal trace.old) (T.journal trace.new)) }
    ensures fix { IfOk result (FixIs store.new trail.new) }
    ensures err { IfErr result (λ f. Faulted store.old store.new trail.old trail.new (T.journal trace.old) (T.journal trace.new)) }
    ensures cause { IfErr result (IsCause (T.faults trace.old) (T.faults trace.new)) }
    ensures later { T.faults trace.old ≤ T.faults trace.new }
    ensures bound { IsBounded store.old store.new trail.old trail.new steps.old steps.new }
{
    match visit_new(alloc, store, trail, trace, steps) {
        Ok(None) => (),
        Ok(Some(id)) => return Ok(Fix::Struck(id)),
        Err(fault) => return Err(fault),
    }
    let from = trail.kept();
    match take_up_all(alloc, store, trail, trace, steps, from) {
        Ok(Some(id)) => Ok(Fix::Struck(id)),
        Ok(None) => {
            trail.mark(store.len());
            Ok(Fix::Quiet)
        }
        Err(fault) => Err(fault),
    }
}
