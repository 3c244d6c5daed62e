//! What a search looks for: a body that is active, and named atoms that are must-be-true, unassigned or true.

ghost use Rattle.std.specs.Prelude.{◌≡◌, ◌<◌, ◌++◌, ◌∷◌, ℕ, List, Option, None, Some, true, false, map, IfSome, IfNone, IfOk};
ghost use Rattle.lists.specs.Lists.{◌∈◌};
ghost use Rattle.alpha_outside.specs.declared.literal.Value.TheVariants.{True, MustBe};
ghost use Rattle.asp_meaning.specs.Atoms.{Atom as Fact};
ghost use Rattle.asp_meaning.specs.Lines.{IsSetLine};
ghost use Rattle.core_meaning.specs.Atoms.{User as OfProgram};
ghost use Rattle.search_values.specs.Values.{value_of, chosen as chosen_of, HasClosed};
ghost use Rattle.search_values.specs.Ids.{Names};
ghost use Rattle.journal_theory.specs.States.{IsActive};
ghost use Rattle.search_values.specs.Tables.{Made};
ghost use Rattle.trail.specs.Assigning.{IsStackOf};
ghost use Rattle.search_rules.specs.Tests.{Maker as Rule};
ghost use Rattle.search_state.specs.Searching.{ids, names, made, state_of, IsAllTold, adds_choice};
ghost use Rattle.search_state.specs.Moves.{NoChoice, IsNamed, AreTrueNames, AreTrueIds};

use crate::search::Search;
use alpha_outside::{AtomId, List, Lit, OutOfMemory, Value};
use answer_printer::{set_line, sorted_atoms};
use search_fronts::first_active;
use search_values::{Entry, Why};
use trail::Trail;

// Whether it is true.
fn is_true(value: Option<Value>) -> bool
    ensures yes { result ≡ true → value ≡ Some True }
    ensures no { result ≡ false → ¬ (value ≡ Some True) }
{
    match value {
        Some(Value::True) => true,
        _ => false,
    }
}

// Whether the entry adds to the literals chosen: it is a decision, and its atom has no older entry.
fn is_choice(trail: &Trail, entry: &Entry) -> bool
    requires stack { IsStackOf trail.now.atoms trail.now.stack }
    requires there { entry.now.atom < trail.now.atoms }
    ensures { (above rest : List Entry) → trail.now.stack ≡ above ++ entry.now ∷ rest → result ≡ adds_choice entry.now.why (value_of rest entry.now.atom) }
{
    match entry.why {
        Why::Given(_) => false,
        Why::Chosen => trail.level_of(entry.atom) == Some(entry.level),
        Why::Closed(_) => false,
    }
}

impl Search {
    /// The first active body.
    pub fn active(&self) -> Option<AtomId>
        requires { IsAllTold self.now }
        ensures some { IfSome result (λ b. (b < ids self.now) × ((k : Made Rule) × (k ∈ made self.now) × IsActive (state_of self.now) k b)) }
        ensures none { IfNone result (NoChoice self.now) }
    {
        first_active(&self.ground.instances, &self.trail, self.fronts.settled)
    }

    // Whether the id is that of a named atom, and not of a body.
    pub(crate) fn is_named(&self, atom: AtomId) -> bool
        requires { atom < ids self.now }
        ensures yes { result ≡ true → IsNamed self.now atom }
        ensures no { result ≡ false → ¬ IsNamed self.now atom }
    {
        self.ground.atoms.pred_of(atom).is_some()
    }

    /// The first named atom that is must-be-true.
    pub fn must_be(&self) -> Option<AtomId>
        ensures some { IfSome result (λ x. IsNamed self.now x × (value_of self.now.stack x ≡ Some MustBe)) }
        ensures none { IfNone result ((x : ℕ) → IsNamed self.now x → ¬ (value_of self.now.stack x ≡ Some MustBe)) }
    {
        for x in self.fronts.not_must..self.told.atoms {
            if self.trail.value(AtomId(x)) == Some(Value::MustBe) && self.is_named(AtomId(x)) {
                return Some(AtomId(x));
            }
        }
        None
    }

    /// The first named atom that is unassigned.
    pub fn unassigned(&self) -> Option<AtomId>
        ensures some { IfSome result (λ x. IsNamed self.now x × (value_of self.now.stack x ≡ None)) }
        ensures none { IfNone result ((x : ℕ) → IsNamed self.now x → ¬ (value_of self.now.stack x ≡ None)) }
    {
        for x in self.fronts.assigned..self.told.atoms {
            if self.trail.value(AtomId(x)).is_none() && self.is_named(AtomId(x)) {
                return Some(AtomId(x));
            }
        }
        None
    }

    // The named atoms that are true, in the order of their ids.
    fn true_ids(&self) -> Result<Vec<AtomId>, OutOfMemory>
        ensures { IfOk result (λ v. AreTrueNames self.now (ids self.now) v.items) }
    {
        let mut atoms = Vec::new(self.alloc);
        for x in 0..self.told.atoms {
            if is_true(self.trail.value(AtomId(x))) && self.is_named(AtomId(x)) {
                atoms.push(AtomId(x))?;
            }
        }
        Ok(atoms)
    }

    /// The named atoms that are true, in the order of a set line. It costs one sort.
    pub fn true_atoms(&self) -> Result<Vec<AtomId>, OutOfMemory>
        ensures { IfOk result (λ v. AreTrueIds self.now v.items) }
    {
        // With the length comes what the arena promises of itself.
        let _ = self.ground.atoms.len();
        let atoms = self.true_ids()?;
        sorted_atoms(
            self.alloc,
            atoms.as_slice(),
            &self.ground.atoms,
            &self.ground.terms,
        )
    }

    /// The line of the set of these atoms.
    pub fn set_line(&self, atoms: &[AtomId]) -> Result<List<u8>, OutOfMemory>
        requires { AreTrueIds self.now atoms.now }
        ensures { IfOk result (λ line. (set : List Fact) → Names (names self.now) atoms.now (map OfProgram set) → IsSetLine set line) }
    {
        // With the length comes what the arena promises of itself.
        let _ = self.ground.atoms.len();
        set_line(self.alloc, atoms, &self.ground.atoms, &self.ground.terms)
    }

    /// Whether a closed atom is on the trail.
    pub fn has_closed(&self) -> bool
        ensures yes { result ≡ true → HasClosed self.now.stack }
        ensures no { result ≡ false → ¬ HasClosed self.now.stack }
    {
        self.fronts.has_closed(&self.trail)
    }

    /// The literals chosen, the newest first.
    pub fn chosen(&self) -> Result<Vec<Lit>, OutOfMemory>
        ensures { IfOk result (λ lits. lits.items ≡ chosen_of self.now.stack) }
    {
        let mut lits = Vec::new(self.alloc);
        let entries = self.trail.entries();
        let mut left = entries.len();
        while left > 0 {
            left -= 1;
            let entry = &entries[left];
            if is_choice(&self.trail, entry) {
                lits.push(Lit {
                    atom: entry.atom,
                    positive: entry.value != Value::False,
                })?;
            }
        }
        Ok(lits)
    }
}
