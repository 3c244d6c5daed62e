//! The nogoods in the order in which they came, which of them watch each literal, and the visit of one.
//!
//! A visit tells what the nogood says on a trail, and moves its watches so that they suffice once that is carried out. It is one step. It looks
//! at the nogood's literals from the first on, a few times each at most, and changes at most two lists; taking an id out of a list looks for it
//! from the list's end. A visit that wants memory changes nothing. Going back moves no watch: what suffices on a stack was asked of each lower part of it
//! before.
//!
//! Source: watched literals are those of Moskewicz and others, "Chaff: Engineering an Efficient SAT Solver" (DAC 2001); a third for the head those
//! of Weinzierl, "Blending Lazy-Grounding and CDNL Search for Answer-Set Solving" (LPNMR 2017).

ghost use Rattle.std.specs.Prelude.{◌≡◌, ◌<◌, ◌+◌, ◌-◌, ◌^◌, ◌↔◌, ℕ, List, [], ◌∷◌, ◌++◌, length, slice_get, None, Some, IfOk, OnOk, OnErr};
ghost use Rattle.lists.specs.Lists.{◌∈◌, HasNoRepeats};
ghost use Rattle.nogood_store.specs.Stored.{Stored, HasNoAtomTwice, IsHeadOf, LitsAreBelow, nogood_of, head_atom};
ghost use Rattle.nogood_store.specs.Visits.{VisitIs, IsPlaced, AnswerIs};
ghost use Rattle.nogood_store.specs.Watched.{first_watches, Watching, watch_count, AreListed, AreMoved, AreWatches};
ghost use Rattle.nogood_store.specs.Matching.{Visited, Matches};
ghost use Rattle.trail.specs.Assigning.{IsStackOf};

use crate::looking::{Says, Visit, atom_of_head, look_at};
use crate::nogood::Nogood;
use crate::seeking::rewatch;
use crate::steps::Steps;
use crate::watch_lists::WatchLists;
use crate::watching::Watches;
use alpha_outside::{AtomId, Lit, NogoodId, OutOfMemory};
use std::alloc::Global;
use std::marker::Model;
use std::sync::ledger::Ledger;
use trail::Trail;

/// The nogoods in the order in which they came, and which of them watch each literal.
#[derive(Drop)]
pub struct NogoodStore {
    nogoods: Vec<Nogood>,
    lists: WatchLists,
}

impl Model for NogoodStore {
    ghost use Rattle.std.specs.Prelude.{List, length, ◌<◌, ◌^◌};
    ghost use Rattle.nogood_store.specs.Stored.{Stored};
    ghost use Rattle.nogood_store.specs.Watched.{AreListed};

    ghost Value = { List Stored };

    ghost view = { λ s. s.nogoods.items };

    ghost invariant = { λ s. (length s.nogoods.items < 2 ^ 32) × AreListed s.lists s.nogoods.items };
}

// The place of the literal of this atom.
fn place_of(lits: &[Lit], atom: AtomId) -> u32
    requires few { length lits.now < 2 ^ 32 }
    requires there { (l : Lit) × (l ∈ lits.now) × (l.atom ≡ atom) }
    ensures { (l : Lit) × (slice_get lits.now result ≡ Some l) × (l.atom ≡ atom) }
{
    let mut place = 0;
    while place < lits.len() {
        if lits[place].atom == atom {
            return place as u32;
        }
        place += 1;
    }
    0
}

// What a visit answers, by what the nogood says.
fn answer(lits: &[Lit], says: Says) -> Visit
    requires few { length lits.now < 2 ^ 32 }
    requires there { IsPlaced lits.now says }
    ensures { AnswerIs lits.now says result }
{
    match says {
        Says::Nothing => Visit::Idle,
        Says::Follows(atom, value) => Visit::Unit {
            lit: place_of(lits, atom),
            value,
        },
        Says::Conflict => Visit::Struck,
    }
}

// What the nogood says on the trail.
fn visit_answer(nogood: &Nogood, trail: &Trail) -> Visit
    requires below { LitsAreBelow trail.now.atoms nogood.now.lits }
    ensures exact { VisitIs trail.now.stack nogood.now result }
{
    let lits = nogood.lits();
    answer(lits, look_at(trail, lits, nogood.head()))
}

// What a visit makes of the nogood's watches.
fn visit_watches(nogood: &Nogood, trail: &Trail) -> Watches
    requires below { LitsAreBelow trail.now.atoms nogood.now.lits }
    ensures moved { AreMoved trail.now.stack nogood.now.lits (head_atom nogood.now.lits nogood.now.head) nogood.now.watches result }
    ensures before { AreWatches nogood.now.lits (head_atom nogood.now.lits nogood.now.head) nogood.now.watches }
    ensures no_atom_twice { HasNoAtomTwice nogood.now.lits }
    ensures negative { IsHeadOf nogood.now.lits nogood.now.head }
{
    let lits = nogood.lits();
    rewatch(
        trail,
        lits,
        atom_of_head(lits, nogood.head()),
        &nogood.watches(),
    )
}

// Stores a nogood; or nothing, where memory is wanting.
fn store(
    nogoods: &mut Vec<Nogood>,
    lists: &mut WatchLists,
    nogood: Nogood,
) -> Result<(), OutOfMemory>
    requires few { length nogoods.old.items < 2 ^ 32 - 1 }
    requires listed { AreListed lists.old nogoods.old.items }
    ensures ok { OnOk result ((nogoods.new.items ≡ nogoods.old.items ++ nogood ∷ []) × AreListed lists.new nogoods.new.items) }
    ensures err { OnErr result ((nogoods.new.items ≡ nogoods.old.items) × AreListed lists.new nogoods.new.items) }
{
    let id = NogoodId(nogoods.len() as u32);
    let to = nogood.watches();
    match nogoods.push(nogood) {
        Ok(()) => match lists.change(id, &Watches::none(), &to) {
            Ok(()) => Ok(()),
            Err(fault) => {
                let _ = nogoods.pop();
                Err(fault)
            }
        },
        Err(_) => Err(OutOfMemory),
    }
}

impl NogoodStore {
    /// Takes no memory.
    pub fn new(alloc: Global) -> NogoodStore
        ensures { result ≡ [] }
    {
        NogoodStore {
            nogoods: Vec::new(alloc),
            lists: WatchLists::new(alloc),
        }
    }

    /// Stores a nogood of these literals. The head is the place of the head literal among them.
    pub fn add(&mut self, lits: &[Lit], head: Option<u32>) -> Result<NogoodId, OutOfMemory>
        requires no_atom_twice { HasNoAtomTwice lits.now }
        requires negative { IsHeadOf lits.now head }
        ensures id { IfOk result (λ id. id ≡ length self.old) }
        ensures ok { IfOk result (λ id. self.new ≡ self.old ++ (record { lits = lits.now; head = head; watches = first_watches lits.now }) ∷ []) }
        ensures err { OnErr result (self.new ≡ self.old) }
    {
        let stored = self.nogoods.len();
        if stored >= 4_294_967_295 {
            return Err(OutOfMemory);
        }
        match Nogood::new(*self.nogoods.allocator(), lits, head) {
            Ok(nogood) => match store(&mut self.nogoods, &mut self.lists, nogood) {
                Ok(()) => Ok(NogoodId(stored as u32)),
                Err(fault) => Err(fault),
            },
            Err(fault) => Err(fault),
        }
    }

    pub fn lits(&self, id: NogoodId) -> &[Lit]
        requires { id < length self.now }
        ensures value { (s : Stored) × (slice_get self.now id ≡ Some s) × (result.now ≡ s.lits) }
        ensures no_atom_twice { HasNoAtomTwice result.now }
    {
        self.nogoods[id.place()].lits()
    }

    /// The place of the head literal.
    pub fn head(&self, id: NogoodId) -> Option<u32>
        requires { id < length self.now }
        ensures { (s : Stored) × (slice_get self.now id ≡ Some s) × (result ≡ s.head) × IsHeadOf s.lits result }
    {
        self.nogoods[id.place()].head()
    }

    /// How many nogoods are stored.
    pub fn len(&self) -> u32
        ensures { result ≡ length self.now }
    {
        self.nogoods.len() as u32
    }

    /// The nogoods that watch the literal, each once.
    pub fn watchers(&self, lit: Lit) -> &[NogoodId]
        ensures exact { (n : ℕ) → (n ∈ result.now) ↔ Watching self.now lit n }
        ensures once { HasNoRepeats result.now }
        ensures count { length result.now ≡ watch_count self.now lit }
    {
        let _ = &self.nogoods;
        self.lists.of(&lit)
    }

    /// What the nogood says on the trail. It moves watches of this nogood where it must, so that they suffice once the answer is carried out.
    pub fn visit<L: Ledger>(
        &mut self,
        id: NogoodId,
        trail: &Trail,
        steps: &mut Steps<L>,
    ) -> Result<Visit, OutOfMemory>
        requires there { id < length self.old }
        requires below { (s : Stored) → slice_get self.old id ≡ Some s → LitsAreBelow trail.now.atoms s.lits }
        ensures ok { IfOk result (Visited trail.now.stack self.old self.new id) }
        ensures err { OnErr result (self.new ≡ self.old) }
        ensures matches { Matches self.old trail.now → Matches self.new trail.now }
        ensures one_step { steps.new ≡ steps.old + 1 }
    {
        steps.tick();
        // With the entries comes what the trail promises of itself.
        let _ = trail.entries();
        let place = id.place();
        let nogood = &self.nogoods[place];
        let answer = visit_answer(nogood, trail);
        let from = nogood.watches();
        let to = visit_watches(nogood, trail);
        match self.lists.change(id, &from, &to) {
            Ok(()) => {
                self.nogoods[place].watch(&to);
                Ok(answer)
            }
            Err(fault) => Err(fault),
        }
    }
}
