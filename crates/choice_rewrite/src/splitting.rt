//! The single rules of a program.
//!
//! A statement with one head or none gives one rule, one with a choice a rule for each element and one for its bounds. The terms of the
//! statement outside elements stand beside each once more, as those that have to be defined. Constraints for strong negation come last.

ghost use Rattle.std.specs.Prelude.{◌≡◌, ◌↔◌, ◌++◌, ◌∷◌, [], List, map, OnOk, IfOk};
ghost use Rattle.lists.specs.Lists.{Each, concat};
ghost use Rattle.asp_syntax.specs.Trees.{IsWellFormedStatement};
ghost use Rattle.asp_meaning.specs.Atoms.{Atom as Fact};
ghost use Rattle.asp_meaning.specs.Programs.{IsAnswerSet};
ghost use Rattle.asp_meaning.specs.Variables.{global_terms};
ghost use Rattle.single_rules.specs.SingleRules.{AreSingleRules, IsWellFormedRule};
ghost use Rattle.single_rules.specs.AnswerSets.{IsSingleAnswerSet};
ghost use Rattle.single_rules.specs.Splitting.{constraint_rule as constraint_of, plain_rule as plain_of, element_rule, bound_rules, rules_with, rules_of, singles_of};

use crate::defined::defined_of;
use crate::elements::{copy_body, push_bounds, push_elements};
use crate::renaming::names_of;
use crate::signs::push_signs;
use alpha_outside::{List, OutOfMemory, RuleKind};
use asp_safety::SafeProgram;
use asp_syntax::{Atom, ChoiceElement, Guard, Head, Statement};
use single_rules::{SingleRule, single_rules_are_sound, single_rules_keep_answer_sets};
use std::alloc::Global;

// The rule of a statement without a head.
fn constraint_rule(alloc: Global, statement: &Statement) -> Result<SingleRule, OutOfMemory>
    ensures { IfOk result (λ rule. rule ≡ constraint_of statement.now) }
{
    let body = copy_body(alloc, statement.body.as_slice())?;
    let defined = defined_of(alloc, statement)?;
    Ok(SingleRule {
        kind: RuleKind::Constraint,
        head: None,
        body,
        defined,
        line: statement.line,
    })
}

// The rule of a statement with this head.
fn plain_rule(alloc: Global, statement: &Statement, head: &Atom) -> Result<SingleRule, OutOfMemory>
    ensures { IfOk result (λ rule. rule ≡ plain_of statement.now head.now) }
{
    let head = head.copy(alloc)?;
    let body = copy_body(alloc, statement.body.as_slice())?;
    let defined = defined_of(alloc, statement)?;
    Ok(SingleRule {
        kind: RuleKind::Plain,
        head: Some(head),
        body,
        defined,
        line: statement.line,
    })
}

// Puts the rules of a statement whose head is this choice at the end.
fn push_choice(
    alloc: Global,
    statement: &Statement,
    left: &Option<Guard>,
    elements: &[ChoiceElement],
    right: &Option<Guard>,
    into: &mut List<SingleRule>,
) -> Result<(), OutOfMemory>
    ensures { OnOk result (into.new ≡ into.old ++ (map (element_rule statement.now) elements.now ++ bound_rules statement.now left.now elements.now right.now)) }
{
    let defined = defined_of(alloc, statement)?;
    let names = names_of(alloc, statement, defined.as_slice())?;
    push_elements(alloc, statement, &names, defined.as_slice(), elements, into)?;
    push_bounds(
        alloc,
        statement,
        defined.as_slice(),
        left,
        elements,
        right,
        into,
    )
}

// Puts the rules of a statement at the end.
fn push_rules(
    alloc: Global,
    statement: &Statement,
    into: &mut List<SingleRule>,
) -> Result<(), OutOfMemory>
    ensures { OnOk result (into.new ≡ into.old ++ rules_with statement.now statement.now.head) }
{
    match &statement.head {
        Head::Absent => {
            into.push(constraint_rule(alloc, statement)?)?;
            Ok(())
        }
        Head::Single(atom) => {
            into.push(plain_rule(alloc, statement, atom)?)?;
            Ok(())
        }
        Head::Choice {
            left,
            elements,
            right,
        } => push_choice(alloc, statement, left, elements.as_slice(), right, into),
    }
}

// The rules of statements, in their order.
fn rules_of_all(alloc: Global, statements: &[Statement]) -> Result<List<SingleRule>, OutOfMemory>
    ensures { IfOk result (λ rules. rules ≡ concat (map rules_of statements.now)) }
{
    let mut rules = List::new(alloc);
    for statement in statements {
        push_rules(alloc, statement, &mut rules)?;
    }
    Ok(rules)
}

// The single rules of statements.
fn singles(alloc: Global, statements: &[Statement]) -> Result<List<SingleRule>, OutOfMemory>
    ensures { IfOk result (λ rules. rules ≡ singles_of statements.now) }
{
    let mut rules = rules_of_all(alloc, statements)?;
    push_signs(alloc, statements, &mut rules)?;
    Ok(rules)
}

/// The single rules of a program: those of its statements in their order, and then those for strong negation. They have its answer sets.
pub fn split(alloc: Global, program: SafeProgram) -> Result<List<SingleRule>, OutOfMemory>
    requires { Each IsWellFormedStatement program.statements }
    ensures rules { IfOk result (λ rules. rules ≡ singles_of program.statements) }
    ensures single { IfOk result AreSingleRules }
    ensures well_formed { IfOk result (Each IsWellFormedRule) }
    ensures answer_sets { IfOk result (λ rules. (I : List Fact) → IsAnswerSet program.statements I ↔ IsSingleAnswerSet rules I) }
{
    single_rules_are_sound();
    single_rules_keep_answer_sets();
    let rules = singles(alloc, program.statements())?;
    Ok(rules)
}
