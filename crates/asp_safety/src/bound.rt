//! Sets of variables.

ghost use Rattle.std.specs.Prelude.{◌≡◌, ◌↔◌, ◌⊎◌, OnOk, IfOk, IsTrue};
ghost use Rattle.lists.specs.Lists.{◌∈◌};
ghost use Rattle.asp_meaning.specs.Terms.{Variable};
ghost use Rattle.asp_safety.specs.ClauseLists.{is_among};
ghost use Rattle.asp_safety.specs.Settling.{IsMet};

use crate::key::Key;
use alpha_outside::{List, OutOfMemory};
use indexmap::IndexSet;
use std::alloc::Global;

/// Whether a variable is in the set.
pub fn is_in(set: &IndexSet<Key>, key: &Key) -> bool
    ensures member { IsTrue result ↔ (key.now ∈ set.now.keys) }
    ensures test { result ≡ is_among set.now.keys key.now }
{
    set.contains(key)
}

/// Puts a variable into the set.
pub fn add(set: &mut IndexSet<Key>, key: Key) -> Result<(), OutOfMemory>
    ensures { OnOk result ((v : Variable) → (v ∈ set.new.keys) ↔ ((v ∈ set.old.keys) ⊎ (v ≡ key))) }
{
    match set.insert(key) {
        Ok(_) => Ok(()),
        Err(_) => Err(OutOfMemory),
    }
}

/// The set of these variables.
pub fn set_of(alloc: Global, keys: List<Key>) -> Result<IndexSet<Key>, OutOfMemory>
    ensures { IfOk result (λ set. (v : Variable) → (v ∈ set.keys) ↔ (v ∈ keys)) }
{
    let mut keys = keys;
    let mut set = IndexSet::new(alloc);
    'moving: while let Some(key) = keys.pop() {
        add(&mut set, key)?;
    }
    Ok(set)
}

// Whether a variable is among what is given and what is bound.
pub fn is_met(given: &IndexSet<Key>, bound: &IndexSet<Key>, need: &Key) -> bool
    ensures { IsTrue result ↔ IsMet given.now.keys bound.now.keys need.now }
{
    is_in(given, need) || is_in(bound, need)
}
