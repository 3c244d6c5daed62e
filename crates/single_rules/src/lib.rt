//! Single rules: which ones a program becomes, what they mean, and that they mean the same.
//!
//! A single rule has one head, which follows from its body or may be chosen, or none. The definitions stand in `specs/`, over whole bodies
//! with aggregates, and the laws are the contracts of the functions here, which do nothing. The code that makes the rules is
//! `choice_rewrite`.
//!
//! | what | file |
//! |---|---|
//! | what single rules mean, and when a set is an answer set of them | `SingleRules.antt`, `AnswerSets.antt` |
//! | new names for the local variables of a choice element | `Renaming.antt` |
//! | the constraints for strong negation | `Signs.antt` |
//! | the rules of a statement, and of a program | `Splitting.antt` |
#![tactic(auto)]

ghost use Rattle.single_rules.specs.Laws.{KeepsAnswerSets, GivesSingleRules, KeepsNames, AggregatesHaveExtents, ChosenAtomsCanBeListed};

mod single;

pub use single::SingleRule;

/// The single rules of a program have its answer sets.
pub fn single_rules_keep_answer_sets()
    ensures { KeepsAnswerSets }
{}

/// They are what all that takes single rules relies on.
pub fn single_rules_are_sound()
    ensures single { GivesSingleRules }
    ensures names { KeepsNames }
{}

/// What safe statements count is finite.
pub fn safe_statements_count_finitely()
    ensures extents { AggregatesHaveExtents }
    ensures chosen { ChosenAtomsCanBeListed }
{}
