//! Propagation: values that follow from unit nogoods are put on the trail and noted, until nothing is unit or struck, or a nogood is
//! struck.
//!
//! The work is `propagate`'s of the crate `propagation`, over the search's store and trail, which match. Its steps are counted in a ledger
//! of their own for each call. It costs one look at each nogood that was stored since the last call, and, for each value, one at each
//! nogood that watches its literal.

ghost use Rattle.std.specs.Prelude.{◌≡◌, ◌<◌, ◌≤◌, ◌^◌, length, IfOk, IfErr};
ghost use Rattle.nogood_store.specs.Stored.{AllAreBelow};
ghost use Rattle.nogood_store.specs.Matching.{Matches};
ghost use Rattle.propagation.specs.Runs.{Propagated, Faulted, IsCause, FixIs as EndsBy};
ghost use Rattle.search_state.specs.Searching.{ids, IsAllTold};
ghost use Rattle.search_state.specs.Moves.{HasPropagated, HasNoted, FixIs, NogoodsArePlaced};

use crate::search::Search;
use alpha_outside::Trace;
use nogood_store::{NogoodStore, Steps};
use propagation::{Fix, PropFault, propagate};
use std::alloc::Global;
use std::marker::Brand;
use std::sync::ledger::{Blank, Ledger};
use trail::Trail;

// Propagates, and counts the steps in the ledger of this blank.
fn propagate_counted<T: Trace, L: Ledger>(
    alloc: Global,
    nogoods: &mut NogoodStore,
    trail: &mut Trail,
    trace: &mut T,
    blank: Blank,
) -> Result<Fix, PropFault>
    requires name { blank.name ≡ L.name }
    requires parts { blank.parts ≡ L.parts }
    requires some { 0 < blank.parts }
    requires below { AllAreBelow trail.old.atoms nogoods.old }
    requires matches { Matches nogoods.old trail.old }
    ensures values { IfOk result (λ fix. Propagated nogoods.old nogoods.new trail.old trail.new (T.journal trace.old) (T.journal trace.new)) }
    ensures fix { IfOk result (EndsBy nogoods.new trail.new) }
    ensures err { IfErr result (λ f. Faulted nogoods.old nogoods.new trail.old trail.new (T.journal trace.old) (T.journal trace.new)) }
    ensures cause { IfErr result (IsCause (T.faults trace.old) (T.faults trace.new)) }
    ensures later { T.faults trace.old ≤ T.faults trace.new }
{
    let mut steps: Steps<L> = Steps::new(blank);
    propagate(alloc, nogoods, trail, trace, &mut steps)
}

impl Search {
    /// Gives the values of unit nogoods and notes each, until nothing is unit or struck, or a nogood is struck.
    pub fn propagate<T: Trace>(&mut self, trace: &mut T) -> Result<Fix, PropFault>
        ensures values { IfOk result (λ fix. HasPropagated self.old self.new (T.journal trace.old) (T.journal trace.new)) }
        ensures fix { IfOk result (FixIs self.new) }
        ensures err { IfErr result (λ f. HasNoted self.old (T.journal trace.old) (T.journal trace.new)) }
        ensures cause { IfErr result (IsCause (T.faults trace.old) (T.faults trace.new)) }
        ensures later { T.faults trace.old ≤ T.faults trace.new }
        ensures placed { IsAllTold self.old → NogoodsArePlaced self.old }
        ensures ids_fit { ids self.old < 2 ^ 32 }
    {
        let from = self.trail.entries().len();
        let fix = propagate_counted::<T, Brand>(
            self.alloc,
            &mut self.nogoods,
            &mut self.trail,
            trace,
            Blank::new(1),
        );
        self.fronts.take_up(&self.trail, from);
        fix
    }
}
