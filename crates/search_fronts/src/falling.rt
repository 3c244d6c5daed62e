//! How fronts fall before levels are taken away.

ghost use Rattle.std.specs.Prelude.{◌≡◌, ◌<◌, ◌≤◌, ◌∷◌, ℕ, List, length};
ghost use Rattle.trail.specs.Assigning.{IsStackOf};
ghost use Rattle.lists.specs.Lists.{◌∈◌};
ghost use Rattle.search_values.specs.Values.{back_to};
ghost use Rattle.search_values.specs.declared.entry.Entry.{Entry as Row};
ghost use Rattle.alpha_outside.specs.declared.literal.Value.TheVariants.{True};
ghost use Rattle.atom_pool.specs.declared.atom.AtomNode.TheVariants.{Named, Body};
ghost use Rattle.atom_pool.specs.declared.instances.Made.{Made};
ghost use Rattle.search_fronts.specs.Fronts.{AreFronts, HaveBodies};

use crate::fronts::Fronts;
use alpha_outside::{AtomId, Value};
use atom_pool::{AtomNode, AtomPool};
use search_values::Entry;
use trail::Trail;

// A front among atoms, when this one, of this id, loses a value: it falls to it where it is named.
fn below_named(front: u32, node: &AtomNode, atom: AtomId) -> u32
    ensures fewer { result ≤ front }
    ensures low { (p : ℕ) (args : List ℕ) → node.now ≡ Named p args → result ≤ atom }
{
    match node {
        AtomNode::Named { .. } => front.min(atom.0),
        AtomNode::Body(_) => front,
    }
}

// The same front, where it speaks of must-be-true atoms: such an atom comes back only below one that is true.
fn below_risen(front: u32, node: &AtomNode, entry: &Entry) -> u32
    ensures fewer { result ≤ front }
    ensures low { entry.now.value ≡ True → (p : ℕ) (args : List ℕ) → node.now ≡ Named p args → result ≤ entry.now.atom }
{
    match entry.value {
        Value::True => below_named(front, node, entry.atom),
        _ => front,
    }
}

// A front among instances, when this atom loses its value: it falls to the instance whose body the atom is.
fn below_instance(front: u32, node: &AtomNode) -> u32
    ensures fewer { result ≤ front }
    ensures low { (i : ℕ) → node.now ≡ Body i → result ≤ i }
{
    match node {
        AtomNode::Named { .. } => front,
        AtomNode::Body(instance) => front.min(instance.0),
    }
}

impl Fronts {
    // Before the newest entry, which stands above so many, is taken away.
    fn fall(&mut self, atoms: &AtomPool, entry: &Entry, left: usize)
        requires placed { entry.now.atom < length atoms.now.atoms }
        ensures { (made : List Made) (places : ℕ) (rest : List Row) → HaveBodies atoms.now.atoms made → length rest ≡ left
            → IsStackOf places (entry.now ∷ rest) → AreFronts atoms.now.atoms made (entry.now ∷ rest) self.old
            → AreFronts atoms.now.atoms made rest self.new }
    {
        let node = atoms.get(entry.atom);
        self.assigned = below_named(self.assigned, node, entry.atom);
        self.not_must = below_risen(self.not_must, node, entry);
        self.settled = below_instance(self.settled, node);
        self.unclosed = self.unclosed.min(left);
    }

    /// Before the levels above this one are taken away. It costs one step for each entry that goes.
    pub fn take_back(&mut self, atoms: &AtomPool, trail: &Trail, level: u32)
        requires { (e : Row) → e ∈ trail.now.stack → e.atom < length atoms.now.atoms }
        ensures { (made : List Made) → HaveBodies atoms.now.atoms made → AreFronts atoms.now.atoms made trail.now.stack self.old
            → AreFronts atoms.now.atoms made (back_to level trail.now.stack) self.new }
    {
        let entries = trail.entries();
        let mut left = entries.len();
        while left > 0 {
            let entry = &entries[left - 1];
            if entry.level <= level {
                return;
            }
            left -= 1;
            self.fall(atoms, entry, left);
        }
    }
}
