//! Which literals of a nogood are watched, and the number by which a literal has its list.

ghost use Rattle.std.specs.Prelude.{◌≡◌, ◌<◌, ◌^◌, true, false, Some};
ghost use Rattle.nogood_store.specs.Watched.{number_of, is_at, is_watched, no_watches, fresh, two_of};

use alpha_outside::Lit;

/// The literals of a nogood that are watched: two for the nogood, and one for its head.
#[derive(Clone, Copy, Debug, PartialEq, Eq)]
pub struct Watches {
    pub first: Option<Lit>,
    pub second: Option<Lit>,
    pub third: Option<Lit>,
}

/// The number of a literal: each atom has two.
pub fn number(l: &Lit) -> usize
    ensures value { result ≡ number_of l.now }
    ensures small { result < 2 ^ 33 }
{
    let even = 2 * (l.atom.0 as usize);
    if l.positive { even + 1 } else { even }
}

/// The same literal.
pub fn copied(slot: &Option<Lit>) -> Option<Lit>
    ensures { result ≡ slot.now }
{
    match slot {
        None => None,
        Some(l) => Some(*l),
    }
}

/// Whether the slot has this literal.
pub fn has(slot: &Option<Lit>, l: &Lit) -> bool
    ensures { result ≡ is_at slot.now l.now }
{
    match slot {
        None => false,
        Some(k) => number(k) == number(l),
    }
}

impl Watches {
    /// No literal is watched.
    pub fn none() -> Watches
        ensures { result ≡ no_watches }
    {
        Watches {
            first: None,
            second: None,
            third: None,
        }
    }

    /// Whether the literal is one of them.
    pub fn watch(&self, l: &Lit) -> bool
        ensures { result ≡ is_watched self.now l.now }
    {
        has(&self.first, l) || has(&self.second, l) || has(&self.third, l)
    }

    /// The first two alone.
    pub fn two(&self) -> Watches
        ensures { result ≡ two_of self.now }
    {
        Watches {
            first: copied(&self.first),
            second: copied(&self.second),
            third: None,
        }
    }

    pub fn copy(&self) -> Watches
        ensures { result ≡ self.now }
    {
        Watches {
            first: copied(&self.first),
            second: copied(&self.second),
            third: copied(&self.third),
        }
    }

    /// The slot's literal, unless it is watched.
    pub fn fresh(&self, slot: &Option<Lit>) -> Option<Lit>
        ensures { result ≡ fresh slot.now self.now }
    {
        match slot {
            None => None,
            Some(l) => { if self.watch(l) { None } else { Some(*l) } }
        }
    }
}
