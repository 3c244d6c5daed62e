//! Laws of core answer sets under numberings: what the steps that add up an aggregate derive.
//!
//! There is no code here: the definitions stand in `specs/`, and the laws are the contracts of the functions below. They hold for
//! instances of rules of any kind, and then for those of a core in core form.
//!
//! | file | defines |
//! |---|---|
//! | `Rules.antt` | rules beside steps, and the sets that both make |
//! | `Totals.antt` | what the members of an aggregate that are in a set come to |
//! | `Uses.antt` | the members whose numbers an instance uses |
//! | `TotalsInBodies.antt` | ground programs with totals in bodies, their answer sets and their core rules |
//! | `Laws.antt` | the laws |
#![tactic(auto)]

ghost use Rattle.aggregate_laws.specs.Laws.{CoreFormGivesRules, CoreSetsAreOfTheRules, SetsOfTheRulesAreCoreSets, SameInstancesMakeTheSameSets};
ghost use Rattle.aggregate_laws.specs.Laws.{TotalsAreOfMembers, TotalsOfTuplesAreTotals};
ghost use Rattle.aggregate_laws.specs.Laws.{TotalsAreExact, CoreTotalsAreExact, LaterNumbersChangeNothing, LaterCoreNumbersChangeNothing, InstancesStay, InstancesWereMadeBefore};
ghost use Rattle.aggregate_laws.specs.Laws.{MembersCanStandFirst, CoreMembersCanStandFirst};
ghost use Rattle.aggregate_laws.specs.Laws.{AnswerSetsBecomeCoreSets, CoreSetsBecomeAnswerSets, UserAtomsDetermineSets};

/// In a set that is closed and founded under rules and steps the total atoms of an aggregate are those of the keys to which it
/// applies, with the sum of the weights of the members in the set, whatever numbers the members have. `R` is the type of what
/// makes the instances of rules.
pub fn exact_totals<R>()
    ensures totals_are_exact { TotalsAreExact R }
    ensures totals_are_of_members { TotalsAreOfMembers R }
{}

/// The same of the core answer sets of a core in core form.
pub fn core_totals()
    ensures core_totals_are_exact { CoreTotalsAreExact }
{}

/// What a set says of the atoms known before holds of one under a numbering that leaves out the members that got their numbers since
/// and aren't in the set. So it doesn't matter that a search gives numbers to members that later turn out not to be in a set.
pub fn later_numbers<R>()
    ensures later_numbers_change_nothing { LaterNumbersChangeNothing R }
    ensures instances_stay { InstancesStay R }
    ensures instances_were_made_before { InstancesWereMadeBefore R }
{}

/// The same of the core answer sets of a core in core form.
pub fn later_core_numbers()
    ensures later_core_numbers_change_nothing { LaterCoreNumbersChangeNothing }
{}

/// Answer sets by the totals of aggregates are the user atoms of sets under the steps, whatever numbers members had before, and determine
/// them. `R`, `D` and `E` are the types of what makes the instances of rules, domains and elements.
pub fn totals_in_bodies<R, D, E>()
    ensures answer_sets_become_core_sets { AnswerSetsBecomeCoreSets R D E }
    ensures core_sets_become_answer_sets { CoreSetsBecomeAnswerSets R D E }
    ensures user_atoms_determine_sets { UserAtomsDetermineSets R D E }
{}

/// The total of tuples by their sides is the one of the definitions of aggregates: how many they are, or the sum of their weights.
pub fn totals_of_tuples()
    ensures totals_of_tuples_are_totals { TotalsOfTuplesAreTotals }
{}

/// The core answer sets of a core in core form are the sets of its rules beside the steps.
pub fn sets_of_a_core()
    ensures core_form_gives_rules { CoreFormGivesRules }
    ensures core_sets_are_of_the_rules { CoreSetsAreOfTheRules }
    ensures sets_of_the_rules_are_core_sets { SetsOfTheRulesAreCoreSets }
{}

/// Rules that have the same instances make the same sets. `R` and `S` are the types of what makes them.
pub fn same_instances<R, S>()
    ensures same_instances_make_the_same_sets { SameInstancesMakeTheSameSets R S }
{}

/// A set can be ordered so that each atom is given by an instance whose positive atoms stand earlier, and so do the members of the set
/// whose numbers the instance uses, even where it skips one.
pub fn members_first<R>()
    ensures members_can_stand_first { MembersCanStandFirst R }
{}

/// The same of the core answer sets of a core in core form.
pub fn core_members_first()
    ensures core_members_can_stand_first { CoreMembersCanStandFirst }
{}
