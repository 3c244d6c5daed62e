//! The grammar of the language, apart from any parser.
//!
//! `specs/Grammar.antt` says which tokens are those of which tree, part by part, and `specs/Programs.antt` which are those of a
//! program. `specs/Machine.antt` and `specs/Reading.antt` are a machine that reads a program one token after the other, over the
//! states of `State` and `Progress`; `specs/Continuations.antt` says what each state means in the words of the grammar.
//! `specs/Faults.antt` says which token is the first faulty one, and why, with `specs/Nesting.antt` and `specs/UnaryMinus.antt`.
//!
//! The functions at the end do nothing: the contract of each is a set of laws over all lists of tokens, which tie these
//! definitions together and show what they mean. The statements stand in `specs/Laws.antt`.
#![tactic(auto)]

ghost use Rattle.asp_grammar.specs.Laws.{TokensHaveOneTree, TokensAreOneStatement};
ghost use Rattle.asp_grammar.specs.Laws.{TheMachineReadsJustThePrograms, AStepKeepsWhatMayCome, EachStateCanBeCompleted, TheMachineKnowsUnaryMinuses};
ghost use Rattle.asp_grammar.specs.Laws.{PassedTokensBeginAProgram, OtherTokensBeginNone, TokensBeginAProgramOrNone, ARefusedTokenBreaks, ATokenThatBreaksIsRefused, TheEndInsideAStatementStops};
ghost use Rattle.asp_grammar.specs.Laws.{AnAnswerComes, AProgramHasNoFault, OneFault, AProgramBeginsBeforeTheFirstFault, ANamedConstructIsUnsupported, DeepAndLargeNeverMeet};
ghost use Rattle.asp_grammar.specs.Laws.{NestingRisesByOne, EachParenthesisCounts, EachOperatorCounts, AGroupEnds, ASeparatorEndsAChain};
ghost use Rattle.asp_grammar.specs.Laws.{SumsGroupFromTheLeft, SumsDoNotGroupFromTheRight, ProductsGroupFromTheLeft, ProductsBindTighter, SumsDoNotBindTighter, ParenthesesGroup, AMinusBeforeANumberIsItsSign, AMinusBeforeANumberIsNoOperator, AMinusBeforeASymbolIsAnOperator, TwoMinusesBeforeANumber, EachKindOfOperand};
ghost use Rattle.asp_grammar.specs.Laws.{AnEmptyListOfArgumentsIsNone, ALiteralBeforeAComparisonIsATerm, ABodyMayBeEmpty, AStatementHasTheLineOfItsFirstToken, AChoiceMayHaveNoBounds, ABoundWithoutAnOperatorIsAtMost, ABoundHasItsOperator, AnAggregateMayBeDenied, AnAggregateHasAGuard};
ghost use Rattle.asp_grammar.specs.Laws.{AnAggregateNeedsAGuard, NoComparisonIsDenied, AVariableIsNoHead, ADisjunctionIsUnsupported, AStatementNeedsItsFullStop};
ghost use Rattle.asp_grammar.specs.Laws.{ASumMayBeTooDeep, ParenthesesMayBeTooDeep, TheLargestNumberNeedsAMinus, AMinusMakesTheLargestNumberFit};

mod frames;
mod state;

pub use frames::Stack;
pub use state::{Frame, LiteralRole, Opening, Owner, Pending, Progress, Purpose, State, TermRole};

/// The grammar gives tokens at most one program, and at most one statement.
pub fn tokens_have_one_tree()
    ensures one_program { TokensHaveOneTree }
    ensures one_statement { TokensAreOneStatement }
{}

/// The machine gives tokens a program exactly where the grammar does, since each of its steps keeps what may still come.
pub fn the_machine_reads_the_grammar()
    ensures the_machine_reads_just_the_programs { TheMachineReadsJustThePrograms }
    ensures a_step_keeps_what_may_come { AStepKeepsWhatMayCome }
    ensures each_state_can_be_completed { EachStateCanBeCompleted }
    ensures the_machine_knows_unary_minuses { TheMachineKnowsUnaryMinuses }
{}

/// The machine passes tokens exactly where the tokens of some program begin with them. So it refuses the first token that no program
/// has there, and it stands inside a statement exactly where the tokens begin a program and are none.
pub fn what_may_go_on()
    ensures passed_tokens_begin_a_program { PassedTokensBeginAProgram }
    ensures other_tokens_begin_none { OtherTokensBeginNone }
    ensures tokens_begin_a_program_or_none { TokensBeginAProgramOrNone }
    ensures a_refused_token_breaks { ARefusedTokenBreaks }
    ensures a_token_that_breaks_is_refused { ATokenThatBreaksIsRefused }
    ensures the_end_inside_a_statement_stops { TheEndInsideAStatementStops }
{}

/// Each list of tokens is a program without a fault, or has exactly one first fault.
pub fn there_is_one_answer()
    ensures an_answer_comes { AnAnswerComes }
    ensures a_program_has_no_fault { AProgramHasNoFault }
    ensures one_fault { OneFault }
    ensures a_program_begins_before_the_first_fault { AProgramBeginsBeforeTheFirstFault }
    ensures a_named_construct_is_unsupported { ANamedConstructIsUnsupported }
    ensures deep_and_large_never_meet { DeepAndLargeNeverMeet }
{}

/// Parentheses and operators both make tokens deeper.
pub fn nesting_is_counted_on_tokens()
    ensures nesting_rises_by_one { NestingRisesByOne }
    ensures each_parenthesis_counts { EachParenthesisCounts }
    ensures each_operator_counts { EachOperatorCounts }
    ensures a_group_ends { AGroupEnds }
    ensures a_separator_ends_a_chain { ASeparatorEndsAChain }
{}

/// Terms, with the trees that one expects and not others.
pub fn terms_are_read()
    ensures sums_group_from_the_left { SumsGroupFromTheLeft }
    ensures sums_do_not_group_from_the_right { SumsDoNotGroupFromTheRight }
    ensures products_group_from_the_left { ProductsGroupFromTheLeft }
    ensures products_bind_tighter { ProductsBindTighter }
    ensures sums_do_not_bind_tighter { SumsDoNotBindTighter }
    ensures parentheses_group { ParenthesesGroup }
    ensures a_minus_before_a_number_is_its_sign { AMinusBeforeANumberIsItsSign }
    ensures a_minus_before_a_number_is_no_operator { AMinusBeforeANumberIsNoOperator }
    ensures a_minus_before_a_symbol_is_an_operator { AMinusBeforeASymbolIsAnOperator }
    ensures two_minuses_before_a_number { TwoMinusesBeforeANumber }
    ensures each_kind_of_operand { EachKindOfOperand }
{}

/// Statements, choices and aggregates, with the trees that one expects.
pub fn statements_are_read()
    ensures an_empty_list_of_arguments_is_none { AnEmptyListOfArgumentsIsNone }
    ensures a_literal_before_a_comparison_is_a_term { ALiteralBeforeAComparisonIsATerm }
    ensures a_body_may_be_empty { ABodyMayBeEmpty }
    ensures a_statement_has_the_line_of_its_first_token { AStatementHasTheLineOfItsFirstToken }
    ensures a_choice_may_have_no_bounds { AChoiceMayHaveNoBounds }
    ensures a_bound_without_an_operator_is_at_most { ABoundWithoutAnOperatorIsAtMost }
    ensures a_bound_has_its_operator { ABoundHasItsOperator }
    ensures an_aggregate_may_be_denied { AnAggregateMayBeDenied }
    ensures an_aggregate_has_a_guard { AnAggregateHasAGuard }
{}

/// Tokens that are no program, with the token at which one sees it.
pub fn others_are_refused()
    ensures an_aggregate_needs_a_guard { AnAggregateNeedsAGuard }
    ensures no_comparison_is_denied { NoComparisonIsDenied }
    ensures a_variable_is_no_head { AVariableIsNoHead }
    ensures a_disjunction_is_unsupported { ADisjunctionIsUnsupported }
    ensures a_statement_needs_its_full_stop { AStatementNeedsItsFullStop }
{}

/// Tokens nested more than 200 deep are refused, and so is the number that only a minus sign directly before it makes fit.
pub fn nesting_and_numbers_have_limits()
    ensures a_sum_may_be_too_deep { ASumMayBeTooDeep }
    ensures parentheses_may_be_too_deep { ParenthesesMayBeTooDeep }
    ensures the_largest_number_needs_a_minus { TheLargestNumberNeedsAMinus }
    ensures a_minus_makes_the_largest_number_fit { AMinusMakesTheLargestNumberFit }
{}
