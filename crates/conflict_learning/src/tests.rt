ghost use Rattle.std.specs.Prelude.{◌≡◌};
ghost use Rattle.search_values.specs.Values.{lit};

use crate::{Analysis, analyse};
use alpha_outside::{AtomId, Lit};
use nogood_store::NogoodStore;
use std::test::Fail;
use trail::Trail;

// The literal of this atom with this sign.
fn lit(atom: u32, positive: bool) -> Lit
    ensures { result ≡ lit atom positive }
{
    Lit {
        atom: AtomId(atom),
        positive,
    }
}

/// Atom 0 is chosen, which makes atom 1 must-be-true, but the two can't be true together: so atom 0 is false at level 0.
#[test]
fn what_was_chosen_is_learned_to_be_wrong(rt: HostRuntime) -> Result<(), Fail> {
    let mut store = NogoodStore::new(rt.alloc());
    let mut trail = Trail::new(rt.alloc());
    trail.reserve_atom()?;
    trail.reserve_atom()?;
    let gives = store.add(&[lit(0, true), lit(1, false)], None)?;
    let struck = store.add(&[lit(0, true), lit(1, true)], None)?;
    trail.decide(AtomId(0), true);
    trail.set_mbt(AtomId(1), gives);
    match analyse(rt.alloc(), struck, &store, &trail)? {
        Analysis::New { lits, back_to } => {
            assert_eq!(rt; back_to, 0);
            assert_eq!(rt; lits.as_slice().first(), Some(&lit(0, true)));
        }
        _ => assert!(rt; false),
    }
    Ok(())
}
