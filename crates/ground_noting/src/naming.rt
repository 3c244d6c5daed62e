//! How terms and atoms are noted, each in the order of its id. Before the body atom of an instance all earlier instances are made.

ghost use Rattle.std.specs.Prelude.{◌≡◌, ◌<◌, ◌≤◌, ◌+◌, ◌∷◌, [], Some, length, slice_get, OnOk, OnErr, IfOk, IfErr};
ghost use Rattle.atom_pool.specs.declared.atom.AtomNode.TheVariants.{Named};
ghost use Rattle.atom_pool.specs.Pools.{Fits};
ghost use Rattle.nogood_store.specs.Matching.{Matches};
ghost use Rattle.ground_noting.specs.Notings.{IsNotable, IsTold, IsBodyOf, Notes, Noted, Stores, Adds, IsCause};

use crate::making::make_below;
use crate::telling::{NoteFault, Told, tell};
use alpha_outside::{AtomId, Event, InstId, List, OutOfMemory, PredId, TermId, Trace};
use atom_pool::{AtomNode, Ground};
use choice_manager::Choices;
use nogood_store::NogoodStore;
use std::alloc::Global;
use trail::Trail;

// The event that notes the next term.
fn term_event(alloc: Global, ground: &Ground, told: &Told) -> Result<Event, OutOfMemory>
    requires { told.now.terms < length ground.now.terms }
    ensures { IfOk result (λ e. Notes ground.now told.now (e ∷ []) (record told.now { terms = told.now.terms + 1 })) }
{
    let id = TermId(told.terms);
    let node = ground.terms.node(id).copy(alloc)?;
    Ok(Event::Term { id, node })
}

// Notes the next term.
fn note_term<T: Trace>(
    alloc: Global,
    ground: &Ground,
    told: &mut Told,
    trace: &mut T,
) -> Result<(), NoteFault>
    requires { told.old.terms < length ground.now.terms }
    ensures ok { OnOk result (told.new ≡ record told.old { terms = told.old.terms + 1 }) }
    ensures noted { Noted ground.now told.old told.new (T.journal trace.old) (T.journal trace.new) }
    ensures later { T.faults trace.old ≤ T.faults trace.new }
    ensures cause { IfErr result (IsCause (T.faults trace.old) (T.faults trace.new)) }
{
    // With the length comes that it has a place in 32 bits.
    let _ = ground.terms.len();
    tell(trace, term_event(alloc, ground, &*told))?;
    told.terms += 1;
    Ok(())
}

/// Notes all terms that weren't noted.
pub fn note_terms<T: Trace>(
    alloc: Global,
    ground: &Ground,
    told: &mut Told,
    trace: &mut T,
) -> Result<(), NoteFault>
    requires { told.old.terms ≤ length ground.now.terms }
    ensures ok { OnOk result (told.new ≡ record told.old { terms = length ground.now.terms }) }
    ensures noted { Noted ground.now told.old told.new (T.journal trace.old) (T.journal trace.new) }
    ensures later { T.faults trace.old ≤ T.faults trace.new }
    ensures cause { IfErr result (IsCause (T.faults trace.old) (T.faults trace.new)) }
{
    while told.terms < ground.terms.len() {
        note_term(alloc, ground, told, trace)?;
    }
    Ok(())
}

// The event that notes the next atom, which is this named one.
fn atom_event(
    alloc: Global,
    ground: &Ground,
    told: &Told,
    pred: PredId,
    args: &List<TermId>,
) -> Result<Event, OutOfMemory>
    requires notable { IsNotable ground.now }
    requires terms { told.now.terms ≡ length ground.now.terms }
    requires next { slice_get ground.now.atoms.atoms told.now.atoms ≡ Some (Named pred args.now) }
    requires fits { Fits ground.now.atoms.preds (Named pred args.now) }
    ensures { IfOk result (λ e. Notes ground.now told.now (e ∷ []) (record told.now { atoms = told.now.atoms + 1 })) }
{
    let id = AtomId(told.atoms);
    let pred = ground.atoms.pred_at(pred).copy(alloc)?;
    let args = List::from_slice(alloc, args.as_slice())?;
    Ok(Event::Atom { id, pred, args })
}

// Notes the next atom, which is this named one.
fn note_named<T: Trace>(
    alloc: Global,
    ground: &Ground,
    pred: PredId,
    args: &List<TermId>,
    told: &mut Told,
    trace: &mut T,
) -> Result<(), NoteFault>
    requires notable { IsNotable ground.now }
    requires terms { told.old.terms ≡ length ground.now.terms }
    requires there { told.old.atoms < length ground.now.atoms.atoms }
    requires next { slice_get ground.now.atoms.atoms told.old.atoms ≡ Some (Named pred args.now) }
    requires fits { Fits ground.now.atoms.preds (Named pred args.now) }
    ensures ok { OnOk result (told.new ≡ record told.old { atoms = told.old.atoms + 1 }) }
    ensures err { OnErr result (told.new ≡ told.old) }
    ensures noted { Noted ground.now told.old told.new (T.journal trace.old) (T.journal trace.new) }
    ensures later { T.faults trace.old ≤ T.faults trace.new }
    ensures cause { IfErr result (IsCause (T.faults trace.old) (T.faults trace.new)) }
{
    // With the length comes that it has a place in 32 bits.
    let _ = ground.atoms.len();
    tell(trace, atom_event(alloc, ground, &*told, pred, args))?;
    told.atoms += 1;
    Ok(())
}

// Notes the next atom, which is the body of this instance, after all earlier instances were made.
fn note_body<T: Trace>(
    alloc: Global,
    ground: &Ground,
    inst: InstId,
    told: &mut Told,
    nogoods: &mut NogoodStore,
    trail: &Trail,
    choices: &mut Choices,
    trace: &mut T,
) -> Result<(), NoteFault>
    requires notable { IsNotable ground.now }
    requires told { IsTold ground.now told.old }
    requires terms { told.old.terms ≡ length ground.now.terms }
    requires there { told.old.atoms < length ground.now.atoms.atoms }
    requires next { IsBodyOf ground.now told.old.atoms inst }
    requires matches { Matches nogoods.old trail.now }
    ensures ok { OnOk result (told.new ≡ record told.old { atoms = told.old.atoms + 1; instances = told.new.instances }) }
    ensures noted { Noted ground.now told.old told.new (T.journal trace.old) (T.journal trace.new) }
    ensures stores { OnOk result (Stores ground.now told.old.instances told.new.instances nogoods.old nogoods.new choices.old choices.new) }
    ensures adds { Adds ground.now nogoods.old nogoods.new choices.old choices.new }
    ensures matches { Matches nogoods.new trail.now }
    ensures later { T.faults trace.old ≤ T.faults trace.new }
    ensures cause { IfErr result (IsCause (T.faults trace.old) (T.faults trace.new)) }
{
    // With the length comes that it has a place in 32 bits.
    let _ = ground.atoms.len();
    make_below(alloc, ground, inst.0, told, nogoods, trail, choices, trace)?;
    let id = AtomId(told.atoms);
    tell(trace, Ok(Event::Body { id, inst }))?;
    told.atoms += 1;
    Ok(())
}

// Notes the next atom.
fn note_atom<T: Trace>(
    alloc: Global,
    ground: &Ground,
    told: &mut Told,
    nogoods: &mut NogoodStore,
    trail: &Trail,
    choices: &mut Choices,
    trace: &mut T,
) -> Result<(), NoteFault>
    requires notable { IsNotable ground.now }
    requires told { IsTold ground.now told.old }
    requires terms { told.old.terms ≡ length ground.now.terms }
    requires there { told.old.atoms < length ground.now.atoms.atoms }
    requires matches { Matches nogoods.old trail.now }
    ensures ok { OnOk result (told.new ≡ record told.old { atoms = told.old.atoms + 1; instances = told.new.instances }) }
    ensures noted { Noted ground.now told.old told.new (T.journal trace.old) (T.journal trace.new) }
    ensures stores { OnOk result (Stores ground.now told.old.instances told.new.instances nogoods.old nogoods.new choices.old choices.new) }
    ensures adds { Adds ground.now nogoods.old nogoods.new choices.old choices.new }
    ensures matches { Matches nogoods.new trail.now }
    ensures later { T.faults trace.old ≤ T.faults trace.new }
    ensures cause { IfErr result (IsCause (T.faults trace.old) (T.faults trace.new)) }
{
    match ground.atoms.get(AtomId(told.atoms)) {
        AtomNode::Named { pred, args } => note_named(alloc, ground, *pred, args, told, trace),
        AtomNode::Body(inst) => {
            note_body(alloc, ground, *inst, told, nogoods, trail, choices, trace)
        }
    }
}

/// Notes all atoms that weren't noted, where all terms were.
pub fn note_atoms<T: Trace>(
    alloc: Global,
    ground: &Ground,
    told: &mut Told,
    nogoods: &mut NogoodStore,
    trail: &Trail,
    choices: &mut Choices,
    trace: &mut T,
) -> Result<(), NoteFault>
    requires notable { IsNotable ground.now }
    requires told { IsTold ground.now told.old }
    requires terms { told.old.terms ≡ length ground.now.terms }
    requires matches { Matches nogoods.old trail.now }
    ensures ok { OnOk result (told.new ≡ record told.old { atoms = length ground.now.atoms.atoms; instances = told.new.instances }) }
    ensures noted { Noted ground.now told.old told.new (T.journal trace.old) (T.journal trace.new) }
    ensures stores { OnOk result (Stores ground.now told.old.instances told.new.instances nogoods.old nogoods.new choices.old choices.new) }
    ensures adds { Adds ground.now nogoods.old nogoods.new choices.old choices.new }
    ensures matches { Matches nogoods.new trail.now }
    ensures later { T.faults trace.old ≤ T.faults trace.new }
    ensures cause { IfErr result (IsCause (T.faults trace.old) (T.faults trace.new)) }
{
    while told.atoms < ground.atoms.len() {
        note_atom(alloc, ground, told, nogoods, trail, choices, trace)?;
    }
    Ok(())
}
