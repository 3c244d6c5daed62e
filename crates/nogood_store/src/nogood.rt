//! A nogood as it is stored: its literals, the place of its head literal, and which literals are watched.

ghost use Rattle.std.specs.Prelude.{◌≡◌, ◌<◌, ◌^◌, length, IfOk};
ghost use Rattle.nogood_store.specs.Stored.{HasNoAtomTwice, IsHeadOf, head_atom};
ghost use Rattle.nogood_store.specs.Watched.{AreWatches, first_watches};

use crate::watching::Watches;
use alpha_outside::{Lit, OutOfMemory};
use std::alloc::Global;
use std::marker::Model;

/// The literals of a nogood, the place of its head literal, and which literals are watched.
#[derive(Drop)]
pub struct Nogood {
    lits: Vec<Lit>,
    head: Option<u32>,
    watches: Watches,
}

impl Model for Nogood {
    ghost use Rattle.std.specs.Prelude.{length, ◌<◌, ◌^◌};
    ghost use Rattle.nogood_store.specs.Stored.{Stored, HasNoAtomTwice, IsHeadOf, head_atom};
    ghost use Rattle.nogood_store.specs.Watched.{AreWatches};

    ghost Value = { Stored };

    ghost view = { λ n. record { lits = n.lits.items; head = n.head; watches = n.watches } };

    ghost invariant = { λ n. HasNoAtomTwice n.lits.items × IsHeadOf n.lits.items n.head × AreWatches n.lits.items (head_atom n.lits.items n.head) n.watches × (length n.lits.items < 2 ^ 32) };
}

// The first two literals.
fn first_two(lits: &[Lit]) -> Watches
    ensures { result ≡ first_watches lits.now }
{
    let first = match lits.first() {
        None => None,
        Some(l) => Some(*l),
    };
    let second = match lits.get(1) {
        None => None,
        Some(l) => Some(*l),
    };
    Watches {
        first,
        second,
        third: None,
    }
}

impl Nogood {
    /// Copies the literals, and watches the first two.
    pub fn new(alloc: Global, lits: &[Lit], head: Option<u32>) -> Result<Nogood, OutOfMemory>
        requires no_atom_twice { HasNoAtomTwice lits.now }
        requires negative { IsHeadOf lits.now head }
        ensures { IfOk result (λ n. n ≡ record { lits = lits.now; head = head; watches = first_watches lits.now }) }
    {
        if lits.len() >= 4_294_967_295 {
            return Err(OutOfMemory);
        }
        let watches = first_two(lits);
        match lits.to_vec(alloc) {
            Ok(lits) => Ok(Nogood {
                lits,
                head,
                watches,
            }),
            Err(_) => Err(OutOfMemory),
        }
    }

    pub fn lits(&self) -> &[Lit]
        ensures value { result.now ≡ self.now.lits }
        ensures no_atom_twice { HasNoAtomTwice result.now }
        ensures few { length result.now < 2 ^ 32 }
    {
        self.lits.as_slice()
    }

    pub fn head(&self) -> Option<u32>
        ensures value { result ≡ self.now.head }
        ensures negative { IsHeadOf self.now.lits result }
    {
        let _ = &self.lits;
        self.head
    }

    pub fn watches(&self) -> Watches
        ensures value { result ≡ self.now.watches }
        ensures are { AreWatches self.now.lits (head_atom self.now.lits self.now.head) result }
    {
        let _ = &self.lits;
        let _ = self.head;
        self.watches.copy()
    }

    /// Watches these literals.
    pub fn watch(&mut self, watches: &Watches)
        requires { AreWatches self.old.lits (head_atom self.old.lits self.old.head) watches.now }
        ensures { self.new ≡ record { lits = self.old.lits; head = self.old.head; watches = watches.now } }
    {
        self.watches = watches.copy();
    }
}
