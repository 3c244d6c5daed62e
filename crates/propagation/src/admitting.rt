//! How a nogood comes into a store that matches a trail. It isn't visited then: its id is at least the trail's number of visited nogoods, so the next
//! propagation visits it, also where it is unit or struck already, and again after a Back below the level at which it came. It costs a copy of its
//! literals.

ghost use Rattle.std.specs.Prelude.{◌≡◌, ◌++◌, ◌∷◌, [], length, IfOk, OnErr};
ghost use Rattle.nogood_store.specs.Stored.{HasNoAtomTwice, IsHeadOf};
ghost use Rattle.nogood_store.specs.Watched.{first_watches};
ghost use Rattle.nogood_store.specs.Matching.{Matches};

use alpha_outside::{Lit, NogoodId, OutOfMemory};
use nogood_store::NogoodStore;
use trail::Trail;

/// Adds a nogood, also one that is unit or struck already: it is visited by the next propagation.
pub fn admit(
    store: &mut NogoodStore,
    trail: &Trail,
    lits: &[Lit],
    head: Option<u32>,
) -> Result<NogoodId, OutOfMemory>
    requires matches { Matches store.old trail.now }
    requires no_atom_twice { HasNoAtomTwice lits.now }
    requires negative { IsHeadOf lits.now head }
    ensures id { IfOk result (λ id. id ≡ length store.old) }
    ensures ok { IfOk result (λ id. store.new ≡ store.old ++ (record { lits = lits.now; head = head; watches = first_watches lits.now }) ∷ []) }
    ensures err { OnErr result (store.new ≡ store.old) }
    ensures matches { Matches store.new trail.now }
{
    store.add(lits, head)
}
