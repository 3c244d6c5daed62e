//! From single rules to core rules: which core rules they become, and why these have the same answer sets.
//!
//! The definitions stand in `specs/`, and the laws are the contracts of the functions here, which do nothing. Rules with aggregates have no
//! core rules yet.
//!
//! | step | file |
//! |---|---|
//! | a rule's body is taken apart into positive atoms, negative atoms and comparisons | `Parts.antt` |
//! | each arithmetic subterm in a positive atom becomes a fresh variable, and an equation says what it is | `Lifting.antt` |
//! | variables become numbers | `Numbering.antt` |
//! | the core rule | `CoreRules.antt` |
#![tactic(auto)]

ghost use Rattle.rewriting.specs.Laws.{KeepsAnswerSets, IsDetermined, HasCoreForm, KeepsNames};

/// Rules without aggregates and their core rules have the same answer sets, each of which determines its core answer set.
pub fn core_rules_keep_answer_sets()
    ensures answer_sets { KeepsAnswerSets }
    ensures determined { IsDetermined }
{}

/// What single rules without aggregates become is in core form, with the names of a program.
pub fn core_rules_have_core_form()
    ensures form { HasCoreForm }
    ensures names { KeepsNames }
{}
