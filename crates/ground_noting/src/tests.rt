ghost use Rattle.std.specs.Prelude.{◌≡◌, [], ◌∷◌, None, Some, IfOk};
ghost use Rattle.alpha_outside.specs.declared.kinds.RuleKind.TheVariants.{Plain, Choice};
ghost use Rattle.alpha_outside.specs.declared.maker.Maker.TheVariants.{Rule};
ghost use Rattle.atom_pool.specs.declared.atom.AtomNode.TheVariants.{Named, Body};
ghost use Rattle.ground_noting.specs.Notings.{IsNotable};

use crate::{Told, note_ground};
use alpha_outside::{AtomId, Event, InstId, List, Maker, MemTrace, Pred, RuleKind};
use atom_pool::{AtomPool, Ground, Instances, Made};
use choice_manager::Choices;
use nogood_store::NogoodStore;
use std::alloc::Global;
use std::test::Fail;
use term_pool::TermPool;
use trail::Trail;

// An atom without arguments, and the body atom of the second instance.
fn atoms(alloc: Global) -> Result<AtomPool, Fail>
    ensures { IfOk result (λ pool. pool.atoms ≡ Named 0 [] ∷ Body 1 ∷ []) }
{
    let mut pool = AtomPool::new(alloc);
    let pred = pool.pred(Pred::Domain { agg: 0, arity: 0 })?;
    pool.intern(pred, &[])?;
    pool.intern_body(InstId(1))?;
    Ok(pool)
}

// The instance of this rule, of which the first atom is the head.
fn instance(alloc: Global, rule: u32, kind: RuleKind, body: Option<AtomId>) -> Made
    ensures { result ≡ record { maker = Rule rule []; kind = kind; head = Some 0; pos = []; neg = []; body = body } }
{
    Made {
        maker: Maker::Rule {
            rule,
            binding: List::new(alloc),
        },
        kind,
        head: Some(AtomId(0)),
        pos: List::new(alloc),
        neg: List::new(alloc),
        body,
    }
}

// A fact and a choice.
fn instances(alloc: Global) -> Result<Instances, Fail>
    ensures { IfOk result (λ made. made ≡ record { maker = Rule 0 []; kind = Plain; head = Some 0; pos = []; neg = []; body = None }
        ∷ record { maker = Rule 1 []; kind = Choice; head = Some 0; pos = []; neg = []; body = Some 1 } ∷ []) }
{
    let mut made = Instances::new(alloc);
    made.add(instance(alloc, 0, RuleKind::Plain, None))?;
    made.add(instance(alloc, 1, RuleKind::Choice, Some(AtomId(1))))?;
    Ok(made)
}

// The fact that the atom holds, and the choice of it.
fn fact_and_choice(alloc: Global) -> Result<Ground, Fail>
    ensures { IfOk result IsNotable }
{
    let atoms = atoms(alloc)?;
    let instances = instances(alloc)?;
    Ok(Ground {
        terms: TermPool::new(alloc),
        atoms,
        instances,
    })
}

// A letter for what each event notes.
fn letters(alloc: Global, events: &[Event]) -> Result<String, Fail> {
    let mut text = String::new(alloc);
    for event in events {
        text.push(match event {
            Event::Atom { .. } => 'a',
            Event::Body { .. } => 'b',
            Event::Made { .. } => 'm',
            _ => '?',
        })?;
    }
    Ok(text)
}

#[test]
fn the_first_instance_is_made_before_the_body_of_the_second(rt: HostRuntime) -> Result<(), Fail> {
    let alloc = rt.alloc();
    let ground = fact_and_choice(alloc)?;
    let mut told = Told {
        terms: 0,
        atoms: 0,
        instances: 0,
    };
    let mut nogoods = NogoodStore::new(alloc);
    let trail = Trail::new(alloc);
    let mut choices = Choices::new(alloc);
    let mut trace = MemTrace::new(alloc, List::new(alloc));
    let answer = note_ground(
        alloc,
        &ground,
        &mut told,
        &mut nogoods,
        &trail,
        &mut choices,
        &mut trace,
    );
    assert_eq!(rt; answer, Ok(()));
    assert_eq!(rt; letters(alloc, trace.events())?.as_str(), "ambm");
    assert_eq!(rt; nogoods.len(), 3);
    Ok(())
}
