//! How the new part of a search's ground is noted: all terms, then the atoms and the instances, each in the order of their ids. The
//! nogoods of these instances are stored with that, and those with a body atom are noted as choices.

ghost use Rattle.std.specs.Prelude.{◌≤◌, OnOk, IfErr};
ghost use Rattle.lazy_grounder.specs.Lawful.{IsLawful};
ghost use Rattle.ground_noting.specs.Notings.{IsNotable, IsTold, IsCause};
ghost use Rattle.search_state.specs.Searching.{IsAllTold};
ghost use Rattle.search_state.specs.Noting.{HasTold, HasStored};
ghost use Rattle.search_state.specs.Grounding.{HasLawfulStack};
ghost use Rattle.search_state.specs.Promised.{ArePools};

use crate::search::Search;
use alpha_outside::Trace;
use ground_noting::{NoteFault, note_ground};

impl Search {
    /// Notes what isn't noted of the ground.
    pub fn note_new<T: Trace>(&mut self, trace: &mut T) -> Result<(), NoteFault>
        requires { IsLawful self.old.core self.old.ground }
        ensures told { HasTold self.old self.new (T.journal trace.old) (T.journal trace.new) }
        ensures all { OnOk result (IsAllTold self.new) }
        ensures stored { OnOk result (HasStored self.old self.new) }
        ensures cause { IfErr result (IsCause (T.faults trace.old) (T.faults trace.new)) }
        ensures later { T.faults trace.old ≤ T.faults trace.new }
        ensures notable { IsNotable self.old.ground }
        ensures ordered { IsTold self.old.ground self.old.told }
        ensures pools { ArePools self.old.ground }
        ensures stack { HasLawfulStack self.new }
    {
        // With the numbers comes what the pools and the trail promise of themselves.
        let _ = self.ground.terms.len();
        let _ = self.ground.atoms.len();
        let _ = self.ground.instances.len();
        let _ = self.trail.entries();
        note_ground(
            self.alloc,
            &self.ground,
            &mut self.told,
            &mut self.nogoods,
            &self.trail,
            &mut self.choices,
            trace,
        )
    }
}
