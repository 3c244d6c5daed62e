//! The fronts, and how they take up what comes onto the trail.

ghost use Rattle.std.specs.Prelude.{◌≡◌, ◌<◌, ◌≤◌, ◌+◌, ◌++◌, ◌∷◌, ℕ, List, true, false, length};
ghost use Rattle.search_values.specs.Values.{before_closed, is_closed as is_closed_of, HasClosed};
ghost use Rattle.search_values.specs.declared.entry.Entry.{Entry as Row};
ghost use Rattle.alpha_outside.specs.declared.literal.Value.TheVariants.{MustBe};
ghost use Rattle.trail.specs.Assigning.{IsStackOf};
ghost use Rattle.atom_pool.specs.declared.atom.AtomNode.{AtomNode};
ghost use Rattle.atom_pool.specs.declared.instances.Made.{Made};
ghost use Rattle.search_fronts.specs.Fronts.{AreFronts, no_fronts};

use alpha_outside::Value;
use search_values::{Entry, Why};
use trail::Trail;

/// How far a search has looked.
#[derive(Clone, Copy, Debug, PartialEq, Eq)]
pub struct Fronts {
    /// Each named atom with a smaller id is assigned.
    pub assigned: u32,
    /// No named atom with a smaller id is must-be-true.
    pub not_must: u32,
    /// The body of each instance with a smaller id is true or false, where it has one.
    pub settled: u32,
    /// How many entries stand below the first closed one; all, where none is closed.
    pub unclosed: usize,
}

fn is_closed(entry: &Entry) -> bool
    ensures { result ≡ is_closed_of entry.now.why }
{
    match entry.why {
        Why::Given(_) => false,
        Why::Chosen => false,
        Why::Closed(_) => true,
    }
}

// How many entries stand below the first closed one, with this one as the newest of so many.
fn unclosed_with(unclosed: usize, entry: &Entry, count: usize) -> usize
    requires { 0 < count }
    ensures { (rest : List Row) → length rest + 1 ≡ count → unclosed ≡ length (before_closed rest) → result ≡ length (before_closed (entry.now ∷ rest)) }
{
    if is_closed(entry) {
        return unclosed;
    }
    if unclosed == count - 1 {
        count
    } else {
        unclosed
    }
}

// Before which id no named atom is must-be-true, with this entry.
fn not_must_with(not_must: u32, entry: &Entry) -> u32
    ensures fewer { result ≤ not_must }
    ensures low { entry.now.value ≡ MustBe → result ≤ entry.now.atom }
{
    match entry.value {
        Value::MustBe => not_must.min(entry.atom.0),
        _ => not_must,
    }
}

impl Fronts {
    /// Nothing was looked at.
    pub fn new() -> Fronts
        ensures { result ≡ no_fronts }
    {
        Fronts {
            assigned: 0,
            not_must: 0,
            settled: 0,
            unclosed: 0,
        }
    }

    // Takes up this entry, the newest of so many.
    fn add(&mut self, entry: &Entry, count: usize)
        requires { 0 < count }
        ensures { (atoms : List AtomNode) (made : List Made) (places : ℕ) (rest : List Row) → length rest + 1 ≡ count
            → IsStackOf places (entry.now ∷ rest) → AreFronts atoms made rest self.old → AreFronts atoms made (entry.now ∷ rest) self.new }
    {
        self.not_must = not_must_with(self.not_must, entry);
        self.unclosed = unclosed_with(self.unclosed, entry, count);
    }

    /// Takes up the entries that came onto the trail above so many. It costs one step for each.
    pub fn take_up(&mut self, trail: &Trail, from: usize)
        requires { from ≤ length trail.now.stack }
        ensures { (atoms : List AtomNode) (made : List Made) (above rest : List Row) → trail.now.stack ≡ above ++ rest → length rest ≡ from
            → AreFronts atoms made rest self.old → AreFronts atoms made trail.now.stack self.new }
    {
        let entries = trail.entries();
        for i in from..entries.len() {
            self.add(&entries[i], i + 1);
        }
    }

    /// Whether a closed entry is on the trail. It costs no look at the entries.
    pub fn has_closed(&self, trail: &Trail) -> bool
        requires { self.now.unclosed ≡ length (before_closed trail.now.stack) }
        ensures yes { result ≡ true → HasClosed trail.now.stack }
        ensures no { result ≡ false → ¬ HasClosed trail.now.stack }
    {
        self.unclosed < trail.entries().len()
    }
}
