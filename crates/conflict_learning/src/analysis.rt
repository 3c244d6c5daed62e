//! The analysis of a struck nogood, on the way down the trail.
//!
//! The entries are gone through from the newest on. A literal at the highest level of the conflict is resolved with its reason as long as
//! another one there that isn't closed is left below; a closed one is always resolved, with the reason that was found for it, or it is
//! answered that one is needed. All else is kept. So just one literal is left at the highest level, and none is closed.
//!
//! Why it ends well: each reason has other literals that held before its entry, so what is added stands below. A closed entry opens its
//! level, so nothing of the highest level is left below a closed one. No stored nogood is a subset of what is learned: it would be
//! struck, with its last literal where the conflict has it, and unit below the highest level; so the struck nogood would be so too, and
//! nothing would have been resolved.

ghost use Rattle.std.specs.Prelude.{◌≡◌, ◌<◌, length, map, IfOk};
ghost use Rattle.nogood_store.specs.Stored.{nogood_of};
ghost use Rattle.journal_theory.specs.Resolution.{EachRests};
ghost use Rattle.journal_theory.specs.Events.{lits_at};
ghost use Rattle.conflict_learning.specs.Analysing.{AllHold, HasOpenHighest, CameFirst, IsUnitWhereOneIs, HasToResolve, IsAnalysis};
ghost use Rattle.conflict_learning.specs.Pending.{ArePlaces, highest_of, lit_of, treatment_of, IsBackWith};

use crate::levels::{highest_level, is_unit_below, second_level};
use crate::pending::Pending;
use crate::places::first_places;
use alpha_outside::{AtomId, List, Lit, NogoodId, OutOfMemory, Value};
use nogood_store::NogoodStore;
use std::alloc::Global;
use trail::{Entry, Trail, Why};

/// What the analysis of a struck nogood came to.
#[derive(Debug, Drop)]
pub enum Analysis {
    /// All its literals stand at level 0.
    Root,
    /// It, or a resolvent of it, has the literal of this atom, which is closed and has no reason.
    NeedsReason { atom: AtomId },
    /// It is unit itself after the search went back to this level.
    AlreadyUnit { id: NogoodId, back_to: u32 },
    /// This nogood follows, and is unit after the search went back to this level.
    New { lits: List<Lit>, back_to: u32 },
}

/// What comes of a literal.
#[derive(Clone, Copy, Debug, PartialEq, Eq)]
pub enum Treatment {
    /// It is one of the new nogood.
    Keep,
    /// It is resolved with this reason.
    Resolve(NogoodId),
    /// It has to be resolved, and has no reason.
    Missing,
}

// What comes of the literal of an entry, where so many open literals of the highest level are left with it.
fn treat(entry: &Entry, top: u32, count: usize) -> Treatment
    ensures { result ≡ treatment_of entry.now.why entry.now.level top count }
{
    match entry.why {
        Why::Given(by) => {
            if entry.level == top && 1 < count {
                Treatment::Resolve(by)
            } else {
                Treatment::Keep
            }
        }
        Why::Chosen => Treatment::Keep,
        Why::Closed(None) => Treatment::Missing,
        Why::Closed(Some(by)) => Treatment::Resolve(by),
    }
}

// The literal that holds by the entry.
fn literal(entry: &Entry) -> Lit
    ensures { result ≡ lit_of entry.now }
{
    Lit {
        atom: entry.atom,
        positive: entry.value != Value::False,
    }
}

// The level to go back to, where a literal at this level is kept as well: the highest of those below the level of the conflict.
fn back_with(back_to: u32, level: u32, top: u32) -> u32
    ensures { IsBackWith back_to level top result }
{
    if level < top {
        back_to.max(level)
    } else {
        back_to
    }
}

// Resolves as long as an open literal too many is at the highest level, or one that is closed is left.
fn resolve(
    alloc: Global,
    struck: NogoodId,
    store: &NogoodStore,
    trail: &Trail,
    places: &Vec<Option<usize>>,
    top: u32,
) -> Result<Analysis, OutOfMemory>
    requires there { struck < length store.now }
    requires holds { AllHold trail.now.stack (lits_at (map nogood_of store.now) struck) }
    requires rests { EachRests (map nogood_of store.now) trail.now.stack }
    requires open_highest { HasOpenHighest trail.now.stack (lits_at (map nogood_of store.now) struck) }
    requires first { CameFirst (map nogood_of store.now) trail.now.stack (lits_at (map nogood_of store.now) struck) }
    requires preferred { IsUnitWhereOneIs (map nogood_of store.now) trail.now.stack (lits_at (map nogood_of store.now) struck) }
    requires places { ArePlaces trail.now.stack places.now.items }
    requires top_is { top ≡ highest_of trail.now.stack (lits_at (map nogood_of store.now) struck) }
    requires to_do { HasToResolve trail.now.stack (lits_at (map nogood_of store.now) struck) }
    ensures { IfOk result (IsAnalysis (map nogood_of store.now) trail.now.stack struck) }
{
    let entries = trail.entries();
    let mut pending = Pending::new(alloc, entries.len())?;
    pending.mark_all(trail, places, store.lits(struck), entries.len(), top);
    let mut lits = List::new(alloc);
    let mut back_to = 0;
    let mut left = entries.len();
    while left > 0 {
        left -= 1;
        if pending.marks[left] {
            let entry = &entries[left];
            let count = pending.count;
            pending.pass(entry, top);
            match treat(entry, top, count) {
                Treatment::Keep => {
                    lits.push(literal(entry))?;
                    back_to = back_with(back_to, entry.level, top);
                }
                Treatment::Resolve(by) => pending.mark_all(
                    trail,
                    places,
                    store.lits(by),
                    left,
                    top,
                ),
                Treatment::Missing => return Ok(Analysis::NeedsReason { atom: entry.atom }),
            }
        }
    }
    Ok(Analysis::New { lits, back_to })
}

/// Analyses a struck nogood: whether all of it stands at level 0, whether it is unit itself after going back, what is learned, or which
/// closed atom needs a reason first.
///
/// The caller hands in the nogood whose last literal came first, and among these one that is unit below its highest level, where there is
/// one: such a one is that of `first_struck`.
///
/// # Errors
///
/// Want of memory.
///
/// # Cost
///
/// It looks twice at each entry of the trail, and a few times at each literal of the nogood and of the reasons that it resolves with. It
/// takes place for the trail's atoms and entries.
pub fn analyse(
    alloc: Global,
    struck: NogoodId,
    store: &NogoodStore,
    trail: &Trail,
) -> Result<Analysis, OutOfMemory>
    requires there { struck < length store.now }
    requires holds { AllHold trail.now.stack (lits_at (map nogood_of store.now) struck) }
    requires rests { EachRests (map nogood_of store.now) trail.now.stack }
    requires open_highest { HasOpenHighest trail.now.stack (lits_at (map nogood_of store.now) struck) }
    requires first { CameFirst (map nogood_of store.now) trail.now.stack (lits_at (map nogood_of store.now) struck) }
    requires preferred { IsUnitWhereOneIs (map nogood_of store.now) trail.now.stack (lits_at (map nogood_of store.now) struck) }
    ensures analysis { IfOk result (IsAnalysis (map nogood_of store.now) trail.now.stack struck) }
{
    let lits = store.lits(struck);
    let top = highest_level(trail, lits);
    if top == 0 {
        return Ok(Analysis::Root);
    }
    let places = first_places(alloc, trail)?;
    if is_unit_below(trail, &places, lits, top) {
        return Ok(Analysis::AlreadyUnit {
            id: struck,
            back_to: second_level(trail, lits, top),
        });
    }
    resolve(alloc, struck, store, trail, &places, top)
}
