//! Clauses that wait, each for a variable that isn't bound yet.

ghost use Rattle.std.specs.Prelude.{◌≡◌, ◌↔◌, ◌⊎◌, ◌+◌, [], length, OnOk};
ghost use Rattle.lists.specs.Lists.{◌∈◌};
ghost use Rattle.asp_meaning.specs.Terms.{Variable};
ghost use Rattle.asp_safety.specs.declared.clause.Clause.{Clause};
ghost use Rattle.asp_safety.specs.Settling.{Waits, waiting_count};

use crate::clause::Clause;
use crate::key::Key;
use alpha_outside::{List, OutOfMemory};
use indexmap::IndexMap;
use std::alloc::Global;
use std::marker::Model;
use std::mem;

/// Clauses, each in the row of the variable that it waits for. Contracts see the rows.
#[derive(Drop)]
pub struct Waiting {
    rows: IndexMap<Key, List<Clause>>,
}

impl Model for Waiting {
    ghost use Rattle.std.specs.Prelude.{List};
    ghost use Rattle.asp_meaning.specs.Terms.{Variable};
    ghost use Rattle.asp_safety.specs.declared.clause.Clause.{Clause};

    ghost Value = { List (Variable × List Clause) };

    ghost view = { λ w. w.rows.entries };
}

impl Waiting {
    /// A table in which no clause waits. It holds no memory.
    pub fn new(alloc: Global) -> Waiting
        ensures { result ≡ [] }
    {
        Waiting {
            rows: IndexMap::new(alloc),
        }
    }

    /// Lets a clause wait for a variable.
    pub fn put(&mut self, alloc: Global, key: Key, clause: Clause) -> Result<(), OutOfMemory>
        ensures waits { OnOk result ((v : Variable) (c : Clause) → Waits self.new v c ↔ (Waits self.old v c ⊎ ((v ≡ key) × (c ≡ clause)))) }
        ensures count { OnOk result (waiting_count self.new ≡ waiting_count self.old + 1) }
    {
        let row = self.rows.entry(key)?.or_insert(List::new(alloc));
        row.push(clause)?;
        Ok(())
    }

    /// Takes out the clauses that wait for a variable.
    pub fn take(&mut self, alloc: Global, key: &Key) -> List<Clause>
        ensures taken { (c : Clause) → (c ∈ result) ↔ Waits self.old key.now c }
        ensures left { (v : Variable) (c : Clause) → Waits self.new v c ↔ (Waits self.old v c × (¬ (v ≡ key.now))) }
        ensures count { waiting_count self.new + length result ≡ waiting_count self.old }
    {
        match self.rows.get_mut(key) {
            None => List::new(alloc),
            Some(row) => mem::replace(row, List::new(alloc)),
        }
    }
}
