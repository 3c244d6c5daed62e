//! Laws that show that the definitions of answer sets mean what they should.
//!
//! Each function here does nothing: its contract is a law over every program of the language. The statements stand in
//! `specs/Laws.antt`, and the programs that they name in `specs/Examples.antt`.
#![tactic(auto)]

ghost use Rattle.std.specs.Cmp.{IsTotalOrder};
ghost use Rattle.asp_meaning.specs.Orders.{value_cmp};
ghost use Rattle.asp_meaning.specs.Lines.{atom_cmp};
ghost use Rattle.asp_laws.specs.Laws.{OrderOfStatementsDoesNotMatter, OrderOfAtomsDoesNotMatter};
ghost use Rattle.asp_laws.specs.Laws.{AnswerSetsAreThoseOfTheReduct, AnAnswerSetIsLeastUnderItsReduct, AnAnswerSetIsClosedUnderItsReduct};
ghost use Rattle.asp_laws.specs.Laws.{EachAtomIsLicensed, UnfoundedSetsAreOut, SelfSupportIsNoFoundation, ALoopHasTheEmptySet, MustBeTrueAloneIsNoSupport, MustBeTrueInALoopIsNoSupport};
ghost use Rattle.asp_laws.specs.Laws.{TheEmptyProgramHasTheEmptySet, AChoiceGivesBoth, AChoiceOfOneGivesEach, ChoicesThatRestOnOneAnother, TwoRulesWithoutEachOther, CountingStops, NoAtomFollowsFromItsAbsence};
ghost use Rattle.asp_laws.specs.Laws.{OnlyGlobalVariablesMatter};
ghost use Rattle.asp_laws.specs.Laws.{ALiteralNeverBesideItsDenial, ALiteralOrItsDenialHolds, AChoiceIsAFactOrNothing, NeverBesideStrongNegation, StrongNegationContradicts, NoAnswerSetLiesInAnother, APositiveProgramHasAtMostOne};
ghost use Rattle.asp_laws.specs.Laws.{AnExtentIsOneSet, AnAggregateHasOneTotal, EqualTuplesCountOnce, OtherTuplesCountEach, NeverBesideItsDenial, AnAggregateOrItsDenialHolds, TwoGuardsUnderNot, EqualLocalNamesAreTwoVariables, AChoiceHasOneNumber};
ghost use Rattle.asp_laws.specs.Laws.{AConstraintOnlyTakesAway, AFactIsInEachAnswerSet};
ghost use Rattle.asp_laws.specs.Laws.{ArithmeticWithoutAValueGivesNoInstance, AStatementWithoutInstancesSaysNothing, NoDivisionByZero, NoArithmeticOnSymbols, DivisionCutsTowardsZero};
ghost use Rattle.asp_laws.specs.Laws.{KindsAreInOrder, EachKindIsOrdered, EqualIsTheSame, ComparisonsAreOpposites};
ghost use Rattle.asp_laws.specs.Laws.{AtomsThatStandLevelAreTheSame, ASetHasALine, ASetHasOneLine, EachKindIsWritten, IntegersOfAnySizeHaveTheirOwnText, ALineIsWritten};
ghost use Rattle.asp_laws.specs.ReadableAtoms.{LinesTellTheirSets, OneLineForTheSameSet, LinesOfReadableAtomsAreWhole};
ghost use Rattle.asp_laws.specs.Laws.{ALineEndsAtItsLineFeed, NoLineWithoutALineFeed, ASetLineIsReadBack};

/// The order of the statements of a program does not matter, nor that of the atoms in a list that stands for a set.
pub fn order_does_not_matter()
    ensures order_of_statements_does_not_matter { OrderOfStatementsDoesNotMatter }
    ensures order_of_atoms_does_not_matter { OrderOfAtomsDoesNotMatter }
{}

/// The ordered list by which the definitions state foundation says what the reduct says, over the whole language.
pub fn answer_sets_are_stable()
    ensures answer_sets_are_those_of_the_reduct { AnswerSetsAreThoseOfTheReduct }
    ensures an_answer_set_is_least_under_its_reduct { AnAnswerSetIsLeastUnderItsReduct }
    ensures an_answer_set_is_closed_under_its_reduct { AnAnswerSetIsClosedUnderItsReduct }
{}

/// Each atom of an answer set has a rule that gives it, and rests on atoms that were there before it. So a set that supports
/// only itself is no answer set, and what must be true but has no rule is in none.
pub fn answer_sets_are_founded()
    ensures each_atom_is_licensed { EachAtomIsLicensed }
    ensures unfounded_sets_are_out { UnfoundedSetsAreOut }
    ensures self_support_is_no_foundation { SelfSupportIsNoFoundation }
    ensures a_loop_has_the_empty_set { ALoopHasTheEmptySet }
    ensures must_be_true_alone_is_no_support { MustBeTrueAloneIsNoSupport }
    ensures must_be_true_in_a_loop_is_no_support { MustBeTrueInALoopIsNoSupport }
{}

/// The answer sets of the smallest programs are those that one expects, and there are no others.
pub fn small_programs()
    ensures the_empty_program_has_exactly_the_empty_set { TheEmptyProgramHasTheEmptySet }
    ensures a_choice_gives_both { AChoiceGivesBoth }
    ensures a_choice_of_one_gives_each { AChoiceOfOneGivesEach }
    ensures choices_that_rest_on_one_another_choose_nothing { ChoicesThatRestOnOneAnother }
    ensures two_rules_without_each_other { TwoRulesWithoutEachOther }
    ensures counting_stops { CountingStops }
    ensures no_atom_follows_from_its_absence { NoAtomFollowsFromItsAbsence }
{}

/// Only the global variables of a statement tell its instances apart.
pub fn instances_are_told_by_global_variables()
    ensures only_global_variables_matter { OnlyGlobalVariablesMatter }
{}

/// Strong negation contradicts its atom, and only `not`, choices and aggregates make a program have several answer sets.
pub fn negation_and_choice()
    ensures a_literal_is_never_beside_its_denial { ALiteralNeverBesideItsDenial }
    ensures a_literal_or_its_denial_holds { ALiteralOrItsDenialHolds }
    ensures a_choice_is_a_fact_or_nothing { AChoiceIsAFactOrNothing }
    ensures never_beside_strong_negation { NeverBesideStrongNegation }
    ensures strong_negation_contradicts { StrongNegationContradicts }
    ensures no_answer_set_lies_in_another { NoAnswerSetLiesInAnother }
    ensures a_positive_program_has_at_most_one_answer_set { APositiveProgramHasAtMostOne }
{}

/// An aggregate has one total, since its extent has each tuple once: equal tuples count once. An instance of a choice has one
/// number of atoms in the same way.
pub fn aggregates_have_one_total()
    ensures an_extent_is_one_set { AnExtentIsOneSet }
    ensures an_aggregate_has_one_total { AnAggregateHasOneTotal }
    ensures equal_tuples_count_once { EqualTuplesCountOnce }
    ensures other_tuples_count_each { OtherTuplesCountEach }
    ensures never_beside_its_denial { NeverBesideItsDenial }
    ensures an_aggregate_or_its_denial_holds { AnAggregateOrItsDenialHolds }
    ensures two_guards_under_not_are_not_both { TwoGuardsUnderNot }
    ensures equal_local_names_are_two_variables { EqualLocalNamesAreTwoVariables }
    ensures a_choice_has_one_number { AChoiceHasOneNumber }
{}

/// A constraint only takes answer sets away, and a fact is in each of them.
pub fn constraints_and_facts()
    ensures a_constraint_only_takes_away { AConstraintOnlyTakesAway }
    ensures a_fact_is_in_each_answer_set { AFactIsInEachAnswerSet }
{}

/// Arithmetic that has no value is no error: it only leaves its instance out.
pub fn arithmetic_may_have_no_value()
    ensures arithmetic_without_a_value_gives_no_instance { ArithmeticWithoutAValueGivesNoInstance }
    ensures a_statement_without_instances_says_nothing { AStatementWithoutInstancesSaysNothing }
    ensures no_division_by_zero { NoDivisionByZero }
    ensures no_arithmetic_on_symbols { NoArithmeticOnSymbols }
    ensures division_cuts_towards_zero { DivisionCutsTowardsZero }
{}

/// Values are in a total order by which `=` is sameness. So comparisons mean what they say.
pub fn values_are_ordered()
    ensures the_order_of_values_is_total { IsTotalOrder value_cmp }
    ensures kinds_are_in_order { KindsAreInOrder }
    ensures each_kind_is_ordered { EachKindIsOrdered }
    ensures equal_is_the_same { EqualIsTheSame }
    ensures comparisons_are_opposites { ComparisonsAreOpposites }
{}

/// Each set has a line, and only one, so equal sets have equal lines. Different integers have
/// different texts, whatever their size. The last clause shows a line with an atom of each kind.
pub fn a_set_has_exactly_one_line()
    ensures the_order_of_atoms_is_total { IsTotalOrder atom_cmp }
    ensures atoms_that_stand_level_are_the_same { AtomsThatStandLevelAreTheSame }
    ensures a_set_has_a_line { ASetHasALine }
    ensures a_set_has_one_line { ASetHasOneLine }
    ensures each_kind_is_written { EachKindIsWritten }
    ensures integers_of_any_size_have_their_own_text { IntegersOfAnySizeHaveTheirOwnText }
    ensures a_line_is_written { ALineIsWritten }
{}

/// The set lines of an output are read back as they were written.
pub fn set_lines_are_read_back()
    ensures a_line_ends_at_its_line_feed { ALineEndsAtItsLineFeed }
    ensures no_line_without_a_line_feed { NoLineWithoutALineFeed }
    ensures a_set_line_is_read_back { ASetLineIsReadBack }
{}

/// A line tells its set, where the names and texts in it are those of the language: the atoms of two sets with one line are the same.
/// Such an atom has no line feed in its text, so that the line is one whole line.
pub fn lines_tell_their_sets()
    ensures lines_tell_their_sets { LinesTellTheirSets }
    ensures one_line_for_the_same_set { OneLineForTheSameSet }
    ensures lines_of_readable_atoms_are_whole { LinesOfReadableAtomsAreWhole }
{}
