//! What a conflict teaches: which struck nogood is analysed, what the analysis comes to, and at which level a nogood is unit.
//!
//! The work is that of the crate `conflict_learning`, over the search's store and trail.

ghost use Rattle.std.specs.Prelude.{◌≡◌, ◌<◌, length, IfOk};
ghost use Rattle.journal_theory.specs.Events.{lits_at};
ghost use Rattle.journal_theory.specs.Resolution.{EachRests, IsOneHighest};
ghost use Rattle.conflict_learning.specs.Analysing.{AllHold, HasOpenHighest, CameFirst, IsUnitWhereOneIs, IsSecondLevel, IsAnalysis};
ghost use Rattle.conflict_learning.specs.Choosing.{IsChoice};

use crate::search::Search;
use alpha_outside::{NogoodId, OutOfMemory};
use conflict_learning::{Analysis, analyse, first_struck, unit_level};

impl Search {
    /// The struck nogood that an analysis begins with, or none, where none is struck. It costs a look at all nogoods.
    pub fn first_struck(&self) -> Result<Option<NogoodId>, OutOfMemory>
        ensures { IfOk result (IsChoice self.now.nogoods self.now.stack) }
    {
        first_struck(self.alloc, &self.nogoods, &self.trail)
    }

    /// What the analysis of a struck nogood comes to.
    pub fn analyse(&self, struck: NogoodId) -> Result<Analysis, OutOfMemory>
        requires there { struck < length self.now.nogoods }
        requires holds { AllHold self.now.stack (lits_at self.now.nogoods struck) }
        requires rests { EachRests self.now.nogoods self.now.stack }
        requires open_highest { HasOpenHighest self.now.stack (lits_at self.now.nogoods struck) }
        requires first { CameFirst self.now.nogoods self.now.stack (lits_at self.now.nogoods struck) }
        requires preferred { IsUnitWhereOneIs self.now.nogoods self.now.stack (lits_at self.now.nogoods struck) }
        ensures { IfOk result (IsAnalysis self.now.nogoods self.now.stack struck) }
    {
        analyse(self.alloc, struck, &self.nogoods, &self.trail)
    }

    /// The level to which the search goes back by a nogood whose literals hold, just one of them at the highest level.
    pub fn unit_level(&self, nogood: NogoodId) -> u32
        requires there { nogood < length self.now.nogoods }
        requires hold { AllHold self.now.stack (lits_at self.now.nogoods nogood) }
        requires one { IsOneHighest self.now.stack (lits_at self.now.nogoods nogood) }
        ensures { IsSecondLevel self.now.stack (lits_at self.now.nogoods nogood) result }
    {
        unit_level(&self.trail, self.nogoods.lits(nogood))
    }
}
