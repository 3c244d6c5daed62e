//! The literals that an analysis still has to look at, as marks at the places where they came.

ghost use Rattle.std.specs.Prelude.{◌≡◌, ◌+◌, ◌-◌, ◌<◌, ◌≤◌, ◌^◌, cond, reverse, take, length, replicate, true, false, set, get_or, IfOk};
ghost use Rattle.conflict_learning.specs.Pending.{ArePlaces, AreMarked, is_open_at, one_if, open_at, pending, MayMark};

use crate::places::{is_closed_entry, place_of};
use alpha_outside::{Lit, OutOfMemory};
use std::alloc::Global;
use trail::{Entry, Trail};

/// The literals that an analysis still has to look at, as marks at the places of their first values.
#[derive(Drop)]
pub struct Pending {
    pub marks: Vec<bool>,
    /// How many of them are at the highest level and not closed.
    pub count: usize,
}

// Whether the entry is at this level and not closed.
fn is_open(entry: &Entry, top: u32) -> bool
    ensures { result ≡ is_open_at top entry.now }
{
    entry.level == top && !is_closed_entry(entry)
}

impl Pending {
    /// None, for so many entries.
    pub fn new(alloc: Global, entries: usize) -> Result<Pending, OutOfMemory>
        ensures marks { IfOk result (λ p. p.marks.items ≡ replicate entries false) }
        ensures count { IfOk result (λ p. p.count ≡ 0) }
    {
        let mut marks = Vec::new(alloc);
        if marks.resize(entries, false).is_err() {
            return Err(OutOfMemory);
        }
        Ok(Pending { marks, count: 0 })
    }

    // Marks the entry at this place.
    fn mark(&mut self, entry: &Entry, place: usize, top: u32)
        requires there { place < length self.old.marks.items }
        requires few { self.old.count < 2 ^ 63 }
        ensures marks { self.new.marks.items ≡ set self.old.marks.items place true }
        ensures count { self.new.count ≡ self.old.count + cond (get_or self.old.marks.items place false) 0 (one_if (is_open_at top entry.now)) }
    {
        if !self.marks[place] {
            self.marks[place] = true;
            if is_open(entry, top) {
                self.count += 1;
            }
        }
    }

    /// Marks the literals, whose first values are among the entries that are left; others of them are marked already.
    pub fn mark_all(
        &mut self,
        trail: &Trail,
        places: &Vec<Option<usize>>,
        lits: &[Lit],
        left: usize,
        top: u32,
    )
        requires places { ArePlaces trail.now.stack places.now.items }
        requires marks { length self.old.marks.items ≡ length trail.now.stack }
        requires may { MayMark trail.now.stack self.old.marks.items (reverse (take left (reverse trail.now.stack))) top lits.now }
        requires count { self.old.count ≡ open_at top (pending self.old.marks.items (reverse (take left (reverse trail.now.stack)))) }
        ensures marked { AreMarked top (reverse (take left (reverse trail.now.stack))) self.old.marks.items self.new.marks.items lits.now }
        ensures count { self.new.count ≡ open_at top (pending self.new.marks.items (reverse (take left (reverse trail.now.stack)))) }
    {
        let entries = trail.entries();
        for l in lits {
            let place = place_of(trail, places, l.atom);
            self.mark(&entries[place], place, top);
        }
    }

    /// The entry is no longer among those that are left.
    pub fn pass(&mut self, entry: &Entry, top: u32)
        requires { one_if (is_open_at top entry.now) ≤ self.old.count }
        ensures marks { self.new.marks.items ≡ self.old.marks.items }
        ensures count { self.new.count ≡ self.old.count - one_if (is_open_at top entry.now) }
    {
        if is_open(entry, top) {
            self.count -= 1;
        }
    }
}
