//! What a visit makes of a nogood's watches. The first two move to literals that don't hold, where there are two; else they stay, and where
//! there is a head, the third moves to a literal beside it that doesn't hold fully, for the head becomes true once all of these do.
//!
//! A watch moves only to a literal that doesn't hold on the whole stack. It doesn't hold on any lower part then, so the watches go on to
//! suffice wherever a backjump leads.

ghost use Rattle.std.specs.Prelude.{◌≡◌, ◌<◌, ◌⊎◌, true, false, Some, None, IfSome, IfNone};
ghost use Rattle.lists.specs.Lists.{◌∈◌};
ghost use Rattle.alpha_outside.specs.declared.literal.Lit.{Lit};
ghost use Rattle.search_values.specs.Values.{Holds, HoldsFully};
ghost use Rattle.nogood_store.specs.Stored.{LitsAreBelow};
ghost use Rattle.nogood_store.specs.Watched.{IsMissing, IsDull, AreWatches, ThirdIsDull, AreMoved};
ghost use Rattle.nogood_store.specs.Visits.{value_is_full};

use crate::looking::holds;
use crate::watching::{Watches, copied};
use alpha_outside::{AtomId, Lit, Value};
use trail::Trail;

// Whether the slot has this literal.
fn is_same(slot: &Option<Lit>, l: &Lit) -> bool
    ensures yes { result ≡ true → slot.now ≡ Some l.now }
    ensures no { result ≡ false → ¬ (slot.now ≡ Some l.now) }
{
    match slot {
        None => false,
        Some(k) => *k == *l,
    }
}

// Whether the literal doesn't hold.
fn is_missing(trail: &Trail, l: &Lit) -> bool
    requires { l.now.atom < trail.now.atoms }
    ensures yes { result ≡ true → ¬ Holds trail.now.stack l.now }
    ensures no { result ≡ false → Holds trail.now.stack l.now }
{
    !holds(trail.value(l.atom), l.positive)
}

// Whether a literal of this sign holds fully at this value of its atom.
fn is_full(value: Option<Value>, positive: bool) -> bool
    ensures { result ≡ value_is_full value positive }
{
    match value {
        None => false,
        Some(Value::True) => positive,
        Some(Value::MustBe) => false,
        Some(Value::False) => !positive,
    }
}

// Whether the literal doesn't hold fully.
fn is_dull(trail: &Trail, l: &Lit) -> bool
    requires { l.now.atom < trail.now.atoms }
    ensures yes { result ≡ true → ¬ HoldsFully trail.now.stack l.now }
    ensures no { result ≡ false → HoldsFully trail.now.stack l.now }
{
    !is_full(trail.value(l.atom), l.positive)
}

// Whether the slot has a literal that doesn't hold.
fn has_missing(trail: &Trail, slot: &Option<Lit>) -> bool
    requires { (l : Lit) → slot.now ≡ Some l → l.atom < trail.now.atoms }
    ensures yes { result ≡ true → IsMissing trail.now.stack slot.now }
    ensures no { result ≡ false → ¬ IsMissing trail.now.stack slot.now }
{
    match slot {
        None => false,
        Some(l) => is_missing(trail, l),
    }
}

// Whether the slot has a literal that doesn't hold fully.
fn has_dull(trail: &Trail, slot: &Option<Lit>) -> bool
    requires { (l : Lit) → slot.now ≡ Some l → l.atom < trail.now.atoms }
    ensures yes { result ≡ true → IsDull trail.now.stack slot.now }
    ensures no { result ≡ false → ¬ IsDull trail.now.stack slot.now }
{
    match slot {
        None => false,
        Some(l) => is_dull(trail, l),
    }
}

// The first literal that doesn't hold, other than the slot's.
fn missing_beside(trail: &Trail, lits: &[Lit], beside: &Option<Lit>) -> Option<Lit>
    requires { LitsAreBelow trail.now.atoms lits.now }
    ensures some { IfSome result (λ l. (l ∈ lits.now) × (¬ Holds trail.now.stack l) × (¬ (beside.now ≡ Some l))) }
    ensures none { IfNone result ((l : Lit) → l ∈ lits.now → (¬ (beside.now ≡ Some l)) → Holds trail.now.stack l) }
{
    for l in lits {
        if is_missing(trail, l) && !is_same(beside, l) {
            return Some(*l);
        }
    }
    None
}

// The first literal that doesn't hold fully, other than that of this atom.
fn dull_beside(trail: &Trail, lits: &[Lit], head: AtomId) -> Option<Lit>
    requires { LitsAreBelow trail.now.atoms lits.now }
    ensures some { IfSome result (λ l. (l ∈ lits.now) × (¬ HoldsFully trail.now.stack l) × (¬ (l.atom ≡ head))) }
    ensures none { IfNone result ((l : Lit) → l ∈ lits.now → (¬ (l.atom ≡ head)) → HoldsFully trail.now.stack l) }
{
    for l in lits {
        if l.atom != head && is_dull(trail, l) {
            return Some(*l);
        }
    }
    None
}

// The slot, or a literal that doesn't hold in its place, where the slot's holds and there is one beside the other slot's.
fn next_missing(
    trail: &Trail,
    lits: &[Lit],
    slot: &Option<Lit>,
    beside: &Option<Lit>,
) -> Option<Lit>
    requires below { LitsAreBelow trail.now.atoms lits.now }
    requires among { (l : Lit) → slot.now ≡ Some l → l ∈ lits.now }
    requires differ { (l : Lit) → slot.now ≡ Some l → ¬ (beside.now ≡ Some l) }
    ensures moved { (result ≡ slot.now) ⊎ IsMissing trail.now.stack result }
    ensures among { (l : Lit) → result ≡ Some l → l ∈ lits.now }
    ensures differ { (l : Lit) → result ≡ Some l → ¬ (beside.now ≡ Some l) }
    ensures finds { (l : Lit) → l ∈ lits.now → (¬ Holds trail.now.stack l) → (¬ (beside.now ≡ Some l)) → IsMissing trail.now.stack result }
{
    if has_missing(trail, slot) {
        return copied(slot);
    }
    match missing_beside(trail, lits, beside) {
        Some(l) => Some(l),
        None => copied(slot),
    }
}

// The slot, or a literal that doesn't hold fully in its place, where the slot's does and there is one beside that of the head.
fn next_dull(trail: &Trail, lits: &[Lit], slot: &Option<Lit>, head: AtomId) -> Option<Lit>
    requires below { LitsAreBelow trail.now.atoms lits.now }
    requires among { (l : Lit) → slot.now ≡ Some l → l ∈ lits.now }
    requires beside { (l : Lit) → slot.now ≡ Some l → ¬ (l.atom ≡ head) }
    ensures moved { (result ≡ slot.now) ⊎ IsDull trail.now.stack result }
    ensures among { (l : Lit) → result ≡ Some l → l ∈ lits.now }
    ensures beside { (l : Lit) → result ≡ Some l → ¬ (l.atom ≡ head) }
    ensures finds { (l : Lit) → l ∈ lits.now → (¬ (l.atom ≡ head)) → (¬ HoldsFully trail.now.stack l) → IsDull trail.now.stack result }
{
    if has_dull(trail, slot) {
        return copied(slot);
    }
    match dull_beside(trail, lits, head) {
        Some(l) => Some(l),
        None => copied(slot),
    }
}

// The same, where there is a head.
fn third(trail: &Trail, lits: &[Lit], head: Option<AtomId>, watches: &Watches) -> Watches
    requires below { LitsAreBelow trail.now.atoms lits.now }
    requires are { AreWatches lits.now head watches.now }
    ensures first { result.first ≡ watches.now.first }
    ensures second { result.second ≡ watches.now.second }
    ensures third { (result.third ≡ watches.now.third) ⊎ IsDull trail.now.stack result.third }
    ensures are { AreWatches lits.now head result }
    ensures finds { ThirdIsDull trail.now.stack lits.now head result }
{
    match head {
        None => watches.copy(),
        Some(a) => Watches {
            first: copied(&watches.first),
            second: copied(&watches.second),
            third: next_dull(trail, lits, &watches.third, a),
        },
    }
}

/// What a visit makes of the watches.
pub fn rewatch(trail: &Trail, lits: &[Lit], head: Option<AtomId>, watches: &Watches) -> Watches
    requires below { LitsAreBelow trail.now.atoms lits.now }
    requires are { AreWatches lits.now head watches.now }
    ensures { AreMoved trail.now.stack lits.now head watches.now result }
{
    let first = next_missing(trail, lits, &watches.first, &watches.second);
    let second = next_missing(trail, lits, &watches.second, &first);
    if has_missing(trail, &first) && has_missing(trail, &second) {
        Watches {
            first,
            second,
            third: copied(&watches.third),
        }
    } else {
        third(trail, lits, head, watches)
    }
}
