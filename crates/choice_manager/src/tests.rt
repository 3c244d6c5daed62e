ghost use Rattle.std.specs.Prelude.{◌≡◌, ◌<◌, ℕ, Some, IfOk, []};

use crate::Choices;
use alpha_outside::{AtomId, List, Maker, NogoodId, RuleKind};
use atom_pool::{Instances, Made};
use std::alloc::Global;
use std::test::Fail;
use trail::Trail;

const POSITIVE: AtomId = AtomId(0);

const NEGATED: AtomId = AtomId(1);

const BODY: AtomId = AtomId(2);

// Three atoms without values.
fn unassigned(alloc: Global) -> Result<Trail, Fail>
    ensures { IfOk result (λ trail. trail ≡ record { stack = []; atoms = 3; kept = 0; visited = 0; visits = [] }) }
{
    let mut trail = Trail::new(alloc);
    trail.reserve_atom()?;
    trail.reserve_atom()?;
    trail.reserve_atom()?;
    Ok(trail)
}

// What may be chosen where one instance was noted, with one positive atom and a negated one.
fn active(alloc: Global, trail: &Trail, body: Option<AtomId>) -> Result<Option<AtomId>, Fail>
    requires atoms { trail.now.atoms ≡ 3 }
    requires body { (b : ℕ) → body ≡ Some b → b < 3 }
{
    let mut instances = Instances::new(alloc);
    let inst = instances.add(Made {
        maker: Maker::Rule {
            rule: 0,
            binding: List::new(alloc),
        },
        kind: RuleKind::Plain,
        head: None,
        pos: List::from_slice(alloc, &[POSITIVE])?,
        neg: List::from_slice(alloc, &[NEGATED])?,
        body,
    })?;
    let mut choices = Choices::new(alloc);
    choices.note_instance(inst, &instances)?;
    Ok(choices.next_active(&instances, trail))
}

#[test]
fn a_body_is_active_until_its_negated_atom_is_true(rt: HostRuntime) -> Result<(), Fail> {
    let alloc = rt.alloc();
    let mut trail = unassigned(alloc)?;
    assert_eq!(rt; active(alloc, &trail, Some(BODY))?, None);
    trail.set_true(POSITIVE, NogoodId(0));
    assert_eq!(rt; active(alloc, &trail, Some(BODY))?, Some(BODY));
    trail.set_true(NEGATED, NogoodId(1));
    assert_eq!(rt; active(alloc, &trail, Some(BODY))?, None);
    Ok(())
}

#[test]
fn an_instance_without_a_body_is_passed_over(rt: HostRuntime) -> Result<(), Fail> {
    let alloc = rt.alloc();
    let mut trail = unassigned(alloc)?;
    trail.set_true(POSITIVE, NogoodId(0));
    assert_eq!(rt; active(alloc, &trail, None)?, None);
    Ok(())
}
