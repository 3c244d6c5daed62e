//! What a search keeps, and its steps. Each step is one event of the search's theory.

ghost use Rattle.std.specs.Prelude.{◌≡◌, ◌<◌, ◌^◌, ◌++◌, ◌∷◌, [], List, None, Some, true, false, length, OnOk, IfOk};
ghost use Rattle.alpha_outside.specs.declared.literal.Lit.{Lit};
ghost use Rattle.alpha_outside.specs.declared.pred.Pred.{Pred};
ghost use Rattle.alpha_outside.specs.declared.literal.Value.TheVariants.{False};
ghost use Rattle.search_values.specs.declared.entry.Why.TheVariants.{Given, Chosen, Closed};
ghost use Rattle.search_values.specs.Values.{value_of, level_of, all_at_0, decision};
ghost use Rattle.journal_theory.specs.Events.{phase_struck, phase_learned, lits_at};
ghost use Rattle.journal_theory.specs.States as phase;
ghost use Rattle.nogood_store.specs.Stored.{Stored, HasNoAtomTwice};
ghost use Rattle.nogood_store.specs.Matching.{Matches};
ghost use Rattle.trail.specs.Assigning.{MayBecome, MayDecide};
ghost use Rattle.lazy_grounder.specs.Lawful.{IsLawful};
ghost use Rattle.search_rules.specs.Stage.{IsSearchable};
ghost use Rattle.search_state.specs.Searching.{ids, assigned, taken_back, phase_of, LitsAreBelow, is_level_0, fresh};

use alpha_outside::{AtomId, List, Lit, NogoodId, OutOfMemory, Value};
use atom_pool::{AtomPool, Budget, Ground, Instances};
use choice_manager::Choices;
use core_rules::Core;
use ground_noting::Told;
use lazy_grounder::Grounder;
use nogood_store::NogoodStore;
use propagation::{admit, give};
use search_fronts::Fronts;
use std::alloc::Global;
use std::marker::Model;
use term_pool::TermPool;
use trail::Trail;
use working_memory::Memory;

/// Nothing was noted.
const NOTHING: Told = Told {
    terms: 0,
    atoms: 0,
    instances: 0,
};

/// What has to come next.
#[derive(Clone, Copy, Debug, PartialEq, Eq)]
pub enum Stage {
    /// Nothing in particular.
    Free,
    /// This nogood is struck, and the search has to learn from it.
    MustLearn(NogoodId),
    /// An atom was called wide, and the literals chosen are to be learned.
    MustDecide,
    /// A set was found.
    Found,
    /// The nogood just learned is to be struck.
    MustStrike(NogoodId),
    /// The levels above one at which the nogood just learned or kept is unit are to be taken away.
    MustJump(NogoodId),
    /// The search has ended.
    Over,
}

/// A search over a core.
#[derive(Drop)]
pub struct Search {
    pub(crate) alloc: Global,
    pub(crate) core: Core,
    pub(crate) ground: Ground,
    /// How much of the ground was noted.
    pub(crate) told: Told,
    pub(crate) grounder: Grounder,
    pub(crate) memory: Memory,
    pub(crate) budget: Budget,
    /// How many entries of the trail, from the oldest on, have their atoms in the memory.
    pub(crate) risen: usize,
    /// How many of these were joined.
    pub(crate) joined: usize,
    pub(crate) choices: Choices,
    pub(crate) nogoods: NogoodStore,
    pub(crate) trail: Trail,
    /// Before which atoms, bodies and entries nothing is open.
    pub(crate) fronts: Fronts,
    /// From which atom on the next look goes for one that no rule gives.
    pub(crate) tried: u32,
    closing: bool,
    pub(crate) stage: Stage,
}

impl Model for Search {
    ghost use Rattle.search_state.specs.Searching.{Searching, searching, Ties, fields};
    ghost use Rattle.lazy_grounder.specs.Grounders.{IsGrounderOf};
    ghost use Rattle.search_fronts.specs.Fronts.{AreFronts};
    ghost use Rattle.core_rules.specs.contracts.rules.CoreTerm as term;
    ghost use Rattle.asp_meaning.specs.contracts.value.Value as value;
    ghost use Rattle.std.specs.Coded.{codes};

    ghost Value = { Searching };

    ghost coded = { Prim.hlevel (codes, term.the_row.coded, value.the_row.coded) };

    ghost view = { λ s. searching s.core s.ground s.told s.memory s.risen s.joined s.budget.left s.choices s.nogoods s.trail.stack s.closing
        s.stage };

    ghost invariant = { λ s. Ties (fields s.core s.ground s.told s.memory s.risen s.joined s.choices s.nogoods s.trail)
        × IsGrounderOf s.core s.ground.atoms.preds s.grounder
        × AreFronts s.ground.atoms.atoms s.ground.instances s.trail.stack s.fronts };
}

impl Search {
    /// A search over the core, before any event, that makes at most so many instances. It adds the core's predicates to its ground.
    pub fn new(alloc: Global, core: Core, instances: u64) -> Result<Search, OutOfMemory>
        requires { IsSearchable core }
        ensures fresh { IfOk result (λ s. (preds : List Pred) × (s ≡ fresh core preds instances)) }
        ensures lawful { IfOk result (λ s. IsLawful s.core s.ground) }
    {
        let mut ground = Ground {
            terms: TermPool::new(alloc),
            atoms: AtomPool::new(alloc),
            instances: Instances::new(alloc),
        };
        let grounder = Grounder::new(alloc, &core, &mut ground)?;
        Ok(Search {
            alloc,
            core,
            ground,
            told: NOTHING,
            grounder,
            memory: Memory::new(alloc),
            budget: Budget { left: instances },
            risen: 0,
            joined: 0,
            choices: Choices::new(alloc),
            nogoods: NogoodStore::new(alloc),
            trail: Trail::new(alloc),
            fronts: Fronts::new(),
            tried: 0,
            closing: false,
            stage: Stage::Free,
        })
    }

    /// What has to come next.
    pub fn stage(&self) -> Stage
        ensures { phase_of result ≡ self.now.phase }
    {
        self.stage
    }

    /// Gives the atom the value, by the nogood.
    pub fn put(&mut self, atom: AtomId, value: Value, by: NogoodId)
        requires there { atom < ids self.old }
        requires may { MayBecome (value_of self.old.stack atom) value }
        ensures assigned { self.new ≡ assigned self.old atom value (Given by) }
        ensures ids_fit { ids self.old < 2 ^ 32 }
    {
        // With the number of entries that were taken up comes that there are so many.
        let _ = self.trail.kept();
        let from = self.trail.entries().len();
        give(&mut self.trail, atom, value, by);
        self.fronts.take_up(&self.trail, from);
    }

    /// Decides that the body holds.
    pub fn choose(&mut self, body: AtomId)
        requires there { body < ids self.old }
        requires may { MayDecide (value_of self.old.stack body) true }
        ensures assigned { self.new ≡ record (assigned self.old body (decision true) Chosen) { closing = false } }
        ensures ids_fit { ids self.old < 2 ^ 32 }
    {
        take_all_up(&mut self.trail);
        let from = self.trail.entries().len();
        self.trail.decide(body, true);
        self.fronts.take_up(&self.trail, from);
        self.fronts
            .pass_settled(&self.ground.instances, &self.trail);
        self.tried = self.told.atoms;
        self.closing = false;
    }

    /// Sets the atom false.
    pub fn close(&mut self, atom: AtomId)
        requires there { atom < ids self.old }
        requires unassigned { value_of self.old.stack atom ≡ None }
        ensures assigned { self.new ≡ record (assigned self.old atom False (Closed None)) { closing = true } }
        ensures ids_fit { ids self.old < 2 ^ 32 }
    {
        take_all_up(&mut self.trail);
        let from = self.trail.entries().len();
        self.trail.close(atom);
        self.fronts.take_up(&self.trail, from);
        self.fronts
            .pass_assigned(&self.ground.atoms, &self.trail, self.told.atoms);
        self.fronts
            .pass_not_must(&self.ground.atoms, &self.trail, self.told.atoms);
        self.fronts
            .pass_settled(&self.ground.instances, &self.trail);
        self.closing = true;
    }

    /// Takes the levels above this one away. An atom that rises again will be joined again.
    pub fn back(&mut self, level: u32)
        requires { level < level_of self.old.stack }
        ensures { self.new ≡ taken_back self.old level }
    {
        // With the number of entries that were taken up comes that there are so many.
        let _ = self.trail.kept();
        self.fronts
            .take_back(&self.ground.atoms, &self.trail, level);
        self.trail.backjump(level);
        let left = self.trail.entries().len();
        self.risen = self.risen.min(left);
        self.joined = self.joined.min(left);
        self.closing = false;
        self.stage = Stage::Free;
    }

    /// Notes that a set was found.
    pub fn show(&mut self)
        ensures { self.new ≡ record self.old { phase = phase.Found } }
    {
        self.stage = Stage::Found;
    }

    /// Stores these literals as a nogood that was learned.
    pub fn learn(&mut self, lits: &[Lit]) -> Result<NogoodId, OutOfMemory>
        requires below { LitsAreBelow (ids self.old) lits.now }
        requires no_atom_twice { HasNoAtomTwice lits.now }
        ensures id { IfOk result (λ n. n ≡ length self.old.nogoods) }
        ensures ok { OnOk result (self.new ≡ record self.old { nogoods = self.old.nogoods ++ record { lits = lits.now; head = None } ∷ []; phase = phase_learned self.old.phase (length self.old.nogoods) }) }
        ensures ids_fit { ids self.old < 2 ^ 32 }
    {
        let nogood = admit(&mut self.nogoods, &self.trail, lits, None)?;
        self.stage = stage_learned(self.stage, nogood);
        Ok(nogood)
    }

    /// Notes that the nogood is struck.
    pub fn strike(&mut self, nogood: NogoodId)
        requires { nogood < length self.old.nogoods }
        ensures { self.new ≡ record self.old { phase = phase_struck nogood (all_at_0 self.old.stack (lits_at self.old.nogoods nogood)) } }
    {
        let root = are_at_0(&self.trail, self.nogoods.lits(nogood));
        self.stage = stage_struck(nogood, root);
    }

    /// Notes that the struck nogood is kept: it is unit once levels are taken away.
    pub fn keep(&mut self, nogood: NogoodId)
        ensures { self.new ≡ record self.old { phase = phase.MustJump nogood } }
    {
        self.stage = Stage::MustJump(nogood);
    }

    /// Notes that an atom was called wide.
    pub fn call_wide(&mut self)
        ensures { self.new ≡ record self.old { phase = phase.MustDecide } }
    {
        self.stage = Stage::MustDecide;
    }
}

// Marks all entries as taken up, so that a level may be opened. After a propagation they are; where they aren't, all nogoods are
// to be visited again.
fn take_all_up(trail: &mut Trail)
    ensures all { trail.new.kept ≡ length trail.new.stack }
    ensures same { trail.new ≡ record trail.old { kept = trail.new.kept; visited = trail.new.visited } }
    ensures matches { (store : List Stored) → Matches store trail.old → Matches store trail.new }
{
    if trail.kept() as usize != trail.entries().len() {
        trail.mark(0);
    }
}

// Whether all literals stand at level 0.
fn are_at_0(trail: &Trail, lits: &[Lit]) -> bool
    requires { LitsAreBelow trail.now.atoms lits.now }
    ensures { result ≡ all_at_0 trail.now.stack lits.now }
{
    for l in lits {
        if !is_0(trail.level_of(l.atom)) {
            return false;
        }
    }
    true
}

// Whether it is level 0, or none.
fn is_0(level: Option<u32>) -> bool
    ensures { result ≡ is_level_0 level }
{
    match level {
        Some(level) => level == 0,
        None => true,
    }
}

// What comes after this nogood was struck.
fn stage_struck(nogood: NogoodId, root: bool) -> Stage
    ensures { phase_of result ≡ phase_struck nogood root }
{
    if root {
        Stage::Over
    } else {
        Stage::MustLearn(nogood)
    }
}

// What comes after this nogood was learned.
fn stage_learned(stage: Stage, nogood: NogoodId) -> Stage
    ensures { phase_of result ≡ phase_learned (phase_of stage) nogood }
{
    match stage {
        Stage::MustDecide => Stage::MustStrike(nogood),
        _ => Stage::MustJump(nogood),
    }
}
