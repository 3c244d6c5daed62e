//! What follows from clauses.
//!
//! A clause waits for one of its needs that isn't bound. When that becomes bound, the clause looks further along its needs for the next
//! one that isn't, and never goes back. So each need of each clause is looked at once.

ghost use Rattle.std.specs.Prelude.{◌≡◌, ◌↔◌, ◌⊎◌, ◌+◌, None, List, [], length, OnOk, IfOk, IfSome};
ghost use Rattle.lists.specs.Lists.{◌∈◌};
ghost use Rattle.asp_meaning.specs.Terms.{Variable};
ghost use Rattle.asp_safety.specs.declared.clause.Clause.{Clause};
ghost use Rattle.asp_safety.specs.Clauses.{Derives};
ghost use Rattle.asp_safety.specs.Settling.{IsMet, IsUnmet, Placed, IsSettling, waiting_count};

use crate::bound::{add, is_met};
use crate::clause::Clause;
use crate::key::Key;
use crate::waiting::Waiting;
use alpha_outside::{List, OutOfMemory};
use indexmap::IndexSet;
use std::alloc::Global;

// The variables that are known to be bound: those that are given, and those that were found.
#[derive(Drop)]
struct Known<'a> {
    given: &'a IndexSet<Key>,
    found: IndexSet<Key>,
}

// What is still to be done: the clauses that wait, and the variables of which no clause was told yet that they are bound.
#[derive(Drop)]
struct Agenda {
    waiting: Waiting,
    fresh: List<Key>,
}

// Takes needs off the end, up to one that isn't met.
fn take_unmet(known: &Known, needs: &mut List<Key>) -> Option<Key>
    ensures unmet { IfSome result (IsUnmet known.now.given.now.keys known.now.found.keys needs.old needs.new) }
    ensures met { result ≡ None → (w : Variable) → w ∈ needs.old → IsMet known.now.given.now.keys known.now.found.keys w }
{
    'taking: while let Some(need) = needs.pop() {
        if !is_met(known.given, &known.found, &need) {
            return Some(need);
        }
    }
    None
}

impl Agenda {
    // An agenda with nothing to do.
    fn new(alloc: Global) -> Agenda
        ensures waiting { result.waiting ≡ [] }
        ensures fresh { result.fresh ≡ [] }
    {
        Agenda {
            waiting: Waiting::new(alloc),
            fresh: List::new(alloc),
        }
    }

    // Lets a clause wait for a need that isn't met, or binds what it gives.
    fn place(&mut self, alloc: Global, known: &Known, clause: Clause) -> Result<(), OutOfMemory>
        ensures placed { OnOk result (Placed known.now.given.now.keys known.now.found.keys self.old.fresh self.new.fresh self.old.waiting self.new.waiting clause) }
        ensures count { OnOk result (waiting_count self.new.waiting + length self.new.fresh ≡ waiting_count self.old.waiting + length self.old.fresh + 1) }
    {
        let Clause { mut needs, gives } = clause;
        match take_unmet(known, &mut needs) {
            None => {
                self.fresh.push(gives)?;
                Ok(())
            }
            Some(need) => self.waiting.put(alloc, need, Clause { needs, gives }),
        }
    }

    // Does so with each clause.
    fn place_all(
        &mut self,
        alloc: Global,
        known: &Known,
        clauses: List<Clause>,
    ) -> Result<(), OutOfMemory>
        ensures settling { OnOk result ((all : List Clause) → IsSettling known.now.given.now.keys known.now.found.keys self.old.fresh self.old.waiting all clauses → IsSettling known.now.given.now.keys known.now.found.keys self.new.fresh self.new.waiting all []) }
        ensures count { OnOk result (waiting_count self.new.waiting + length self.new.fresh ≡ waiting_count self.old.waiting + length self.old.fresh + length clauses) }
    {
        let mut clauses = clauses;
        'placing: while let Some(clause) = clauses.pop() {
            self.place(alloc, known, clause)?;
        }
        Ok(())
    }
}

/// What follows from what is given, by the clauses, beside what is given.
pub fn settle(
    alloc: Global,
    given: &IndexSet<Key>,
    clauses: List<Clause>,
) -> Result<IndexSet<Key>, OutOfMemory>
    ensures { IfOk result (λ bound. (v : Variable) → ((v ∈ given.now.keys) ⊎ (v ∈ bound.keys)) ↔ Derives given.now.keys clauses v) }
{
    let mut known = Known {
        given,
        found: IndexSet::new(alloc),
    };
    let mut agenda = Agenda::new(alloc);
    agenda.place_all(alloc, &known, clauses)?;
    'settling: while let Some(key) = agenda.fresh.pop() {
        let clauses = agenda.waiting.take(alloc, &key);
        add(&mut known.found, key)?;
        agenda.place_all(alloc, &known, clauses)?;
    }
    let Known { given: _, found } = known;
    Ok(found)
}
