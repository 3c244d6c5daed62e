//! All that came into a ground is noted.

ghost use Rattle.std.specs.Prelude.{◌≡◌, ◌≤◌, OnOk, IfErr};
ghost use Rattle.nogood_store.specs.Matching.{Matches};
ghost use Rattle.ground_noting.specs.Notings.{IsNotable, IsTold, Noted, Stores, Adds, IsCause, all_of};

use crate::making::make_below;
use crate::naming::{note_atoms, note_terms};
use crate::telling::{NoteFault, Told};
use alpha_outside::Trace;
use atom_pool::Ground;
use choice_manager::Choices;
use nogood_store::NogoodStore;
use std::alloc::Global;
use trail::Trail;

/// Notes all that wasn't noted of the ground. The nogoods of each instance are stored, and it is noted as a choice, before its event is
/// noted. It costs time linear in what is noted.
pub fn note_ground<T: Trace>(
    alloc: Global,
    ground: &Ground,
    told: &mut Told,
    nogoods: &mut NogoodStore,
    trail: &Trail,
    choices: &mut Choices,
    trace: &mut T,
) -> Result<(), NoteFault>
    requires notable { IsNotable ground.now }
    requires told { IsTold ground.now told.old }
    requires matches { Matches nogoods.old trail.now }
    ensures all { OnOk result (told.new ≡ all_of ground.now) }
    ensures noted { Noted ground.now told.old told.new (T.journal trace.old) (T.journal trace.new) }
    ensures told { IsTold ground.now told.new }
    ensures stores { OnOk result (Stores ground.now told.old.instances told.new.instances nogoods.old nogoods.new choices.old choices.new) }
    ensures adds { Adds ground.now nogoods.old nogoods.new choices.old choices.new }
    ensures matches { Matches nogoods.new trail.now }
    ensures later { T.faults trace.old ≤ T.faults trace.new }
    ensures cause { IfErr result (IsCause (T.faults trace.old) (T.faults trace.new)) }
{
    note_terms(alloc, ground, told, trace)?;
    note_atoms(alloc, ground, told, nogoods, trail, choices, trace)?;
    let upto = ground.instances.len();
    make_below(alloc, ground, upto, told, nogoods, trail, choices, trace)
}
