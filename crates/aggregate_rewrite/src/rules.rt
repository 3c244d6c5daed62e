//! The core of single rules, rule by rule.

ghost use Rattle.std.specs.Prelude.{◌≡◌, ◌↔◌, List, map, IfOk};
ghost use Rattle.lists.specs.Lists.{HasNoRepeats, Each};
ghost use Rattle.asp_meaning.specs.Atoms.{Atom as Fact};
ghost use Rattle.core_rules.specs.CoreForm.{IsCoreForm};
ghost use Rattle.core_rules.specs.Names.{IsNamedCore};
ghost use Rattle.core_meaning.specs.AnswerSets.{HasCoreSets, AreDetermined};
ghost use Rattle.single_rules.specs.SingleRules.{AreSingleRules, IsWellFormedRule};
ghost use Rattle.single_rules.specs.AnswerSets.{IsSingleAnswerSet};
ghost use Rattle.rewriting.specs.Parts.{HasNoAggregate};
ghost use Rattle.rewriting.specs.CoreRules.{number_rule, core_rule_of, core_of};
ghost use Rattle.aggregate_rewrite.specs.Lifters.{lifted_rule};

use crate::lifting::{LiftedBody, lift_rule};
use crate::numbering::{number_atoms, number_head, number_terms, number_tests};
use crate::rule_table::table_of;
use alpha_outside::{List, OutOfMemory};
use core_rules::{Core, CoreRule};
use rewriting::{core_rules_have_core_form, core_rules_keep_answer_sets};
use single_rules::SingleRule;
use std::alloc::Global;

// The core rule of a rule whose body was lifted.
fn number_rule(alloc: Global, rule: &SingleRule, body: &LiftedBody) -> Result<CoreRule, OutOfMemory>
    ensures { IfOk result (λ core. core ≡ number_rule (lifted_rule rule.now body.now)) }
{
    let table = table_of(alloc, rule, body)?;
    let head = number_head(alloc, &table, &rule.head)?;
    let pos = number_atoms(alloc, &table, body.pos.as_slice())?;
    let neg = number_atoms(alloc, &table, body.neg.as_slice())?;
    let tests = number_tests(alloc, &table, body.tests.as_slice())?;
    let defined = number_terms(alloc, &table, rule.defined.as_slice())?;
    let variables = table.count()?;
    Ok(CoreRule {
        kind: rule.kind,
        head,
        pos,
        neg,
        tests,
        defined,
        variables,
        line: rule.line,
    })
}

// The core rule of a single rule.
fn core_rule(alloc: Global, rule: &SingleRule) -> Result<CoreRule, OutOfMemory>
    ensures { IfOk result (λ core. core ≡ core_rule_of rule.now) }
{
    let body = lift_rule(alloc, rule)?;
    number_rule(alloc, rule, &body)
}

// The core rules of single rules.
fn core_rules(alloc: Global, rules: &[SingleRule]) -> Result<List<CoreRule>, OutOfMemory>
    ensures { IfOk result (λ core. core ≡ map core_rule_of rules.now) }
{
    let mut done = List::new(alloc);
    for rule in rules {
        done.push(core_rule(alloc, rule)?)?;
    }
    Ok(done)
}

/// The core of these rules, one core rule for each in their order.
///
/// A set of atoms is an answer set of the rules exactly where, for every numbering, it is the part of the program of a core answer set under
/// one that extends it; and it determines that core answer set.
pub fn rewrite(alloc: Global, rules: List<SingleRule>) -> Result<Core, OutOfMemory>
    requires single { AreSingleRules rules }
    requires well_formed { Each IsWellFormedRule rules }
    requires built { Each HasNoAggregate rules }
    ensures core { IfOk result (λ core. core ≡ core_of rules) }
    ensures form { IfOk result IsCoreForm }
    ensures names { IfOk result IsNamedCore }
    ensures answer_sets { IfOk result (λ core. (I : List Fact) → HasNoRepeats I → IsSingleAnswerSet rules I ↔ HasCoreSets core I) }
    ensures determined { IfOk result AreDetermined }
{
    core_rules_keep_answer_sets();
    core_rules_have_core_form();
    let rules = core_rules(alloc, rules.as_slice())?;
    Ok(Core {
        rules,
        aggregates: List::new(alloc),
    })
}
