//! When a nogood may be analysed, and where the search goes back to after an analysis. What follows by resolution is sound by the laws of
//! `journal_theory`, whose words the contract of `analyse` uses.

ghost use Rattle.conflict_learning.specs.Laws.{HighestIsOpen, IsUnitAfterBack, IsUnitNoLower};

/// Where one literal that stands alone at the highest level isn't closed, as `journal_theory` shows of a struck nogood, `analyse` may be
/// called as far as closed literals go. After the search went back to the level that an analysis tells, the nogood is unit; at no lower
/// level it is.
pub fn learning_laws()
    ensures highest_is_open { HighestIsOpen }
    ensures is_unit_after_back { IsUnitAfterBack }
    ensures is_unit_no_lower { IsUnitNoLower }
{}
