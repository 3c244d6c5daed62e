ghost use Rattle.std.specs.Prelude.{◌≡◌, ℕ, ◌+◌, ◌*◌, ◌<◌, ◌≤◌, min, length, reverse, take, List, [], ◌∷◌, OnOk, OnErr, vec_len, vec_capacity, true, false, Some, None, IfSome, IfNone};
ghost use Rattle.alpha_outside.specs.declared.literal.Value.TheVariants.{True, MustBe, False};
ghost use Rattle.search_values.specs.declared.entry.Why.TheVariants.{Given, Chosen, Closed};
ghost use Rattle.search_values.specs.declared.entry.Entry.{Entry};
ghost use Rattle.search_values.specs.Values.{value_of, level_of, opened, decision, explain, IsWithoutReason};
ghost use Rattle.trail.specs.Assigning.{Trailed, MayBecome, MayRise, MayDecide, IsStackOf, full_by, true_by, first_level_of, order_of, visits_with, assigned, jumped, MayClose, is_unexplained_entry, explained_newest, IsUnexplainedAt};

use crate::slot::Slot;
use alpha_outside::{AtomId, NogoodId, OutOfMemory, Value};
use search_values::{Entry, Why};
use std::alloc::Global;
use std::marker::Model;

/// The entries in the order in which they came, and the levels that are open.
#[derive(Drop)]
pub struct Trail {
    entries: Vec<Entry>,
    /// What is kept of each atom.
    slots: Vec<Slot>,
    /// What `visited` was as each level was opened.
    levels: Vec<u32>,
    /// How many entries make an atom true.
    trues: u32,
    kept: u32,
    visited: u32,
}

impl Model for Trail {
    ghost use Rattle.std.specs.Prelude.{length, reverse, vec_capacity};
    ghost use Rattle.trail.specs.Assigning.{Trailed};
    ghost use Rattle.trail.specs.Slots.{Keeps};

    ghost Value = { Trailed };

    ghost view = { λ t. record { stack = reverse t.entries.items; atoms = length t.slots.items; kept = t.kept; visited = t.visited; visits = t.levels.items } };

    ghost invariant = { λ t. Keeps (reverse t.entries.items) t.slots.items t.levels.items t.trues t.kept (vec_capacity t.entries) (vec_capacity t.levels) };
}

/// How many levels an entry for this reason opens.
fn opens(why: &Why) -> u32
    ensures { result ≡ opened why.now }
{
    match why {
        Why::Given(_) => 0,
        Why::Chosen => 1,
        Why::Closed(_) => 1,
    }
}

/// How many atoms the value makes true.
fn makes_true(value: Value) -> u32
    ensures { result ≡ true_by value }
{
    match value {
        Value::True => 1,
        Value::MustBe => 0,
        Value::False => 0,
    }
}

/// Opens a level where an entry for this reason does, and keeps the number of visited nogoods with it.
fn open_level(levels: &mut Vec<u32>, why: &Why, visited: u32)
    requires { vec_len levels.old + opened why.now ≤ vec_capacity levels.old }
    ensures items { levels.new.items ≡ visits_with why.now visited levels.old.items }
    ensures len { vec_len levels.new ≡ vec_len levels.old + opened why.now }
    ensures capacity { vec_capacity levels.new ≡ vec_capacity levels.old }
{
    match why {
        Why::Given(_) => (),
        Why::Chosen => levels.push_reserved(visited),
        Why::Closed(_) => levels.push_reserved(visited),
    }
}

/// The value that a decision gives.
fn decided(up: bool) -> Value
    ensures { result ≡ decision up }
{
    if up { Value::True } else { Value::False }
}

/// Whether the entry is that of this atom, closed without a reason.
fn is_unexplained(entry: &Entry, a: AtomId) -> bool
    ensures { result ≡ is_unexplained_entry entry.now a }
{
    match entry.why {
        Why::Closed(None) => entry.atom == a,
        _ => false,
    }
}

/// The place of the newest entry of this atom that is closed without a reason.
fn unexplained_place(entries: &Vec<Entry>, a: AtomId) -> Option<usize>
    ensures some { IfSome result (IsUnexplainedAt entries.now.items a) }
    ensures none { IfNone result ((n : ℕ) → explained_newest a n (reverse entries.now.items) ≡ reverse entries.now.items) }
{
    let mut left = entries.len();
    while left > 0 {
        left -= 1;
        if is_unexplained(&entries[left], a) {
            return Some(left);
        }
    }
    None
}

/// The entry, closed with this reason.
fn with_reason(entry: &Entry, by: NogoodId) -> Entry
    ensures { result ≡ record entry.now { why = Closed (Some by) } }
{
    Entry {
        atom: entry.atom,
        value: entry.value,
        level: entry.level,
        why: Why::Closed(Some(by)),
    }
}

impl Trail {
    /// Takes no memory.
    pub fn new(alloc: Global) -> Trail
        ensures { result ≡ record { stack = []; atoms = 0; kept = 0; visited = 0; visits = [] } }
    {
        Trail {
            entries: Vec::new(alloc),
            slots: Vec::new(alloc),
            levels: Vec::new(alloc),
            trues: 0,
            kept: 0,
            visited: 0,
        }
    }

    /// Makes place for one more atom, its two entries and one more level.
    pub fn reserve_atom(&mut self) -> Result<(), OutOfMemory>
        ensures ok { OnOk result (self.new ≡ record self.old { atoms = self.old.atoms + 1 }) }
        ensures err { OnErr result (self.new ≡ self.old) }
    {
        let atoms = self.slots.len();
        if atoms >= 2_147_483_647 {
            return Err(OutOfMemory);
        }
        if self
            .entries
            .reserve(2 * atoms + 2 - self.entries.len())
            .is_err()
        {
            return Err(OutOfMemory);
        }
        if self.levels.reserve(atoms + 1 - self.levels.len()).is_err() {
            return Err(OutOfMemory);
        }
        if self.slots.reserve(1).is_err() {
            return Err(OutOfMemory);
        }
        self.slots.push_reserved(Slot::Unassigned);
        Ok(())
    }

    /// How many atoms have a place.
    pub fn atoms(&self) -> u32
        ensures { result ≡ self.now.atoms }
    {
        self.slots.len() as u32
    }

    pub fn value(&self, a: AtomId) -> Option<Value>
        requires { a < self.now.atoms }
        ensures { result ≡ value_of self.now.stack a }
    {
        self.slots[a.place()].value()
    }

    /// How many levels are open.
    pub fn level(&self) -> u32
        ensures value { result ≡ level_of self.now.stack }
        ensures visits_are_kept { length self.now.visits ≡ level_of self.now.stack }
    {
        self.levels.len() as u32
    }

    /// The entries, the oldest first.
    pub fn entries(&self) -> &[Entry]
        ensures value { result.now ≡ reverse self.now.stack }
        ensures is_stack { IsStackOf self.now.atoms self.now.stack }
        ensures at_most_two { length result.now ≤ 2 * self.now.atoms }
    {
        let _ = &self.slots;
        self.entries.as_slice()
    }

    /// The level of the atom's first value.
    pub fn level_of(&self, a: AtomId) -> Option<u32>
        requires { a < self.now.atoms }
        ensures { result ≡ first_level_of self.now.stack a }
    {
        self.slots[a.place()].level()
    }

    /// How many atoms became true before this one did.
    pub fn order_of_true(&self, a: AtomId) -> Option<u32>
        requires { a < self.now.atoms }
        ensures { result ≡ order_of self.now.stack a }
    {
        self.slots[a.place()].order()
    }

    /// Adds an entry.
    fn assign(&mut self, a: AtomId, value: Value, why: Why)
        requires placed { a < self.old.atoms }
        requires may { MayBecome (value_of self.old.stack a) value }
        requires opens_full { opened why ≤ full_by value }
        requires closes { MayClose (value_of self.old.stack a) value why }
        ensures { self.new ≡ assigned self.old a value why }
    {
        let slot = self.slots[a.place()];
        open_level(&mut self.levels, &why, self.visited);
        let level = self.levels.len() as u32;
        self.slots[a.place()] = slot.after(value, level, self.trues);
        self.trues += makes_true(value);
        self.entries.push_reserved(Entry {
            atom: a,
            value,
            level,
            why,
        });
    }

    pub fn set_true(&mut self, a: AtomId, by: NogoodId)
        requires placed { a < self.old.atoms }
        requires may { MayRise (value_of self.old.stack a) }
        ensures { self.new ≡ assigned self.old a True (Given by) }
    {
        self.assign(a, Value::True, Why::Given(by));
    }

    pub fn set_mbt(&mut self, a: AtomId, by: NogoodId)
        requires placed { a < self.old.atoms }
        requires unassigned { value_of self.old.stack a ≡ None }
        ensures { self.new ≡ assigned self.old a MustBe (Given by) }
    {
        self.assign(a, Value::MustBe, Why::Given(by));
    }

    pub fn set_false(&mut self, a: AtomId, by: NogoodId)
        requires placed { a < self.old.atoms }
        requires unassigned { value_of self.old.stack a ≡ None }
        ensures { self.new ≡ assigned self.old a False (Given by) }
    {
        self.assign(a, Value::False, Why::Given(by));
    }

    /// How many entries, from the oldest on, have been taken up.
    pub fn kept(&self) -> u32
        ensures value { result ≡ self.now.kept }
        ensures within { result ≤ length self.now.stack }
    {
        self.kept
    }

    /// How many nogoods, from the first on, have been visited.
    pub fn visited(&self) -> u32
        ensures { result ≡ self.now.visited }
    {
        self.visited
    }

    /// Notes that all entries were taken up, and so many nogoods visited.
    pub fn mark(&mut self, stored: u32)
        ensures { self.new ≡ record self.old { kept = length self.old.stack; visited = stored } }
    {
        self.kept = self.entries.len() as u32;
        self.visited = stored;
    }

    /// Opens a level, and decides the atom.
    pub fn decide(&mut self, a: AtomId, up: bool)
        requires placed { a < self.old.atoms }
        requires may { MayDecide (value_of self.old.stack a) up }
        requires marked { self.old.kept ≡ length self.old.stack }
        ensures { self.new ≡ assigned self.old a (decision up) Chosen }
    {
        self.assign(a, decided(up), Why::Chosen);
    }

    /// Opens a level, and makes the atom false.
    pub fn close(&mut self, a: AtomId)
        requires placed { a < self.old.atoms }
        requires unassigned { value_of self.old.stack a ≡ None }
        requires marked { self.old.kept ≡ length self.old.stack }
        ensures { self.new ≡ assigned self.old a False (Closed None) }
    {
        self.assign(a, Value::False, Why::Closed(None));
    }

    // Keeps the nogood as the reason of the atom's newest entry that is closed and has none. It looks at the newer entries.
    fn explain_newest(&mut self, a: AtomId, by: NogoodId)
        ensures { self.new ≡ record self.old { stack = explained_newest a by self.old.stack } }
    {
        if let Some(place) = unexplained_place(&self.entries, a) {
            let entry = self.entries[place];
            self.entries[place] = with_reason(&entry, by);
        }
    }

    /// Keeps the nogood as the reason of a closed atom, which has none yet. It looks at the newer entries.
    pub fn explain(&mut self, a: AtomId, by: NogoodId)
        requires closed { IsWithoutReason self.old.stack a }
        ensures { self.new ≡ record self.old { stack = explain a by self.old.stack } }
    {
        let _ = self.entries();
        self.explain_newest(a, by);
    }

    /// Takes the newest entry away, and its level where it opened one.
    fn take_newest(&mut self)
        requires { 0 < level_of self.old.stack }
        ensures { (e : Entry) × (self.old.stack ≡ e ∷ self.new.stack) × (self.new ≡ record { stack = self.new.stack; atoms = self.old.atoms; kept = min self.old.kept (length self.new.stack); visited = self.old.visited; visits = take (level_of self.new.stack) self.old.visits }) }
    {
        if let Some(entry) = self.entries.pop() {
            let place = entry.atom.place();
            self.slots[place] = self.slots[place].before();
            self.levels
                .truncate((entry.level - opens(&entry.why)) as usize);
            self.trues -= makes_true(entry.value);
            self.kept = self.kept.min(self.entries.len() as u32);
        }
    }

    /// Takes the levels above this one away. An atom that was must-be-true before it became true there is so again.
    pub fn backjump(&mut self, level: u32)
        requires { level ≤ level_of self.old.stack }
        ensures { self.new ≡ jumped self.old level }
    {
        if level < self.level() {
            let lowest = self.levels[level as usize];
            while self.level() > level {
                self.take_newest();
            }
            self.visited = self.visited.min(lowest);
        }
    }
}
