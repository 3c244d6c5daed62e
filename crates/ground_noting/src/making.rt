//! How instances are made: the nogoods of each are stored, it is noted as a choice, and then its event is noted.

ghost use Rattle.std.specs.Prelude.{◌≡◌, ◌⊎◌, ◌<◌, ◌≤◌, ◌+◌, ◌++◌, ◌∷◌, [], ℕ, Some, map, take, length, slice_get, OnOk, IfOk, IfErr};
ghost use Rattle.lists.specs.Lists.{◌∈◌, Each};
ghost use Rattle.atom_pool.specs.declared.instances.Made.{Made};
ghost use Rattle.nogood_store.specs.Stored.{Stored};
ghost use Rattle.nogood_store.specs.Matching.{Matches};
ghost use Rattle.ground_noting.specs.Instances.{IsWithin};
ghost use Rattle.ground_noting.specs.Drafts.{IsStorable, stored_of};
ghost use Rattle.ground_noting.specs.Notings.{IsNotable, Notes, Noted, Stores, Adds, IsCause};

use crate::drafting::{Draft, drafts_of};
use crate::telling::{NoteFault, Told, tell};
use alpha_outside::{Event, InstId, OutOfMemory, Trace};
use atom_pool::Ground;
use choice_manager::Choices;
use nogood_store::NogoodStore;
use propagation::admit;
use std::alloc::Global;
use trail::Trail;

// Stores nogoods, one after another.
fn store_all(nogoods: &mut NogoodStore, trail: &Trail, drafts: &[Draft]) -> Result<(), OutOfMemory>
    requires storable { Each IsStorable drafts.now }
    requires matches { Matches nogoods.old trail.now }
    ensures all { OnOk result (nogoods.new ≡ nogoods.old ++ map stored_of drafts.now) }
    ensures some { (s : Stored) → s ∈ nogoods.new → (s ∈ nogoods.old) ⊎ (s ∈ map stored_of drafts.now) }
    ensures matches { Matches nogoods.new trail.now }
{
    for draft in drafts {
        admit(nogoods, trail, draft.lits.as_slice(), draft.head)?;
    }
    Ok(())
}

// Stores the nogoods of the instance with this id, and notes it as a choice.
fn store_instance(
    alloc: Global,
    ground: &Ground,
    inst: InstId,
    nogoods: &mut NogoodStore,
    trail: &Trail,
    choices: &mut Choices,
) -> Result<(), OutOfMemory>
    requires notable { IsNotable ground.now }
    requires there { inst < length ground.now.instances }
    requires matches { Matches nogoods.old trail.now }
    ensures ok { OnOk result (Stores ground.now inst (inst + 1) nogoods.old nogoods.new choices.old choices.new) }
    ensures adds { Adds ground.now nogoods.old nogoods.new choices.old choices.new }
    ensures matches { Matches nogoods.new trail.now }
{
    let drafts = drafts_of(alloc, ground.instances.get(inst))?;
    store_all(nogoods, trail, drafts.as_slice())?;
    choices.note_instance(inst, &ground.instances)
}

// The event by which the next instance is made.
fn made_event(alloc: Global, ground: &Ground, told: &Told) -> Result<Event, OutOfMemory>
    requires notable { IsNotable ground.now }
    requires terms { told.now.terms ≡ length ground.now.terms }
    requires there { told.now.instances < length ground.now.instances }
    requires within { (k : Made) → slice_get ground.now.instances told.now.instances ≡ Some k → IsWithin told.now.atoms k }
    ensures { IfOk result (λ e. Notes ground.now told.now (e ∷ []) (record told.now { instances = told.now.instances + 1 })) }
{
    let inst = InstId(told.instances);
    let maker = ground.instances.get(inst).maker.copy(alloc)?;
    Ok(Event::Made { inst, maker })
}

// Makes the next instance.
fn make_next<T: Trace>(
    alloc: Global,
    ground: &Ground,
    told: &mut Told,
    nogoods: &mut NogoodStore,
    trail: &Trail,
    choices: &mut Choices,
    trace: &mut T,
) -> Result<(), NoteFault>
    requires notable { IsNotable ground.now }
    requires terms { told.old.terms ≡ length ground.now.terms }
    requires there { told.old.instances < length ground.now.instances }
    requires within { (k : Made) → slice_get ground.now.instances told.old.instances ≡ Some k → IsWithin told.old.atoms k }
    requires matches { Matches nogoods.old trail.now }
    ensures ok { OnOk result (told.new ≡ record told.old { instances = told.old.instances + 1 }) }
    ensures noted { Noted ground.now told.old told.new (T.journal trace.old) (T.journal trace.new) }
    ensures stores { OnOk result (Stores ground.now told.old.instances told.new.instances nogoods.old nogoods.new choices.old choices.new) }
    ensures adds { Adds ground.now nogoods.old nogoods.new choices.old choices.new }
    ensures matches { Matches nogoods.new trail.now }
    ensures later { T.faults trace.old ≤ T.faults trace.new }
    ensures cause { IfErr result (IsCause (T.faults trace.old) (T.faults trace.new)) }
{
    // With the length comes that it has a place in 32 bits.
    let _ = ground.instances.len();
    let inst = InstId(told.instances);
    match store_instance(alloc, ground, inst, nogoods, trail, choices) {
        Ok(()) => (),
        Err(_) => return Err(NoteFault::OutOfMemory),
    }
    tell(trace, made_event(alloc, ground, &*told))?;
    told.instances += 1;
    Ok(())
}

/// Makes the instances that come next, up to the one with this id.
pub fn make_below<T: Trace>(
    alloc: Global,
    ground: &Ground,
    upto: u32,
    told: &mut Told,
    nogoods: &mut NogoodStore,
    trail: &Trail,
    choices: &mut Choices,
    trace: &mut T,
) -> Result<(), NoteFault>
    requires notable { IsNotable ground.now }
    requires terms { told.old.terms ≡ length ground.now.terms }
    requires later { told.old.instances ≤ upto }
    requires there { upto ≤ length ground.now.instances }
    requires within { (i : ℕ) (k : Made) → i < upto → slice_get ground.now.instances i ≡ Some k → IsWithin told.old.atoms k }
    requires matches { Matches nogoods.old trail.now }
    ensures ok { OnOk result (told.new ≡ record told.old { instances = upto }) }
    ensures noted { Noted ground.now told.old told.new (T.journal trace.old) (T.journal trace.new) }
    ensures stores { OnOk result (Stores ground.now told.old.instances told.new.instances nogoods.old nogoods.new choices.old choices.new) }
    ensures adds { Adds ground.now nogoods.old nogoods.new choices.old choices.new }
    ensures matches { Matches nogoods.new trail.now }
    ensures later { T.faults trace.old ≤ T.faults trace.new }
    ensures cause { IfErr result (IsCause (T.faults trace.old) (T.faults trace.new)) }
{
    while told.instances < upto {
        make_next(alloc, ground, told, nogoods, trail, choices, trace)?;
    }
    Ok(())
}
