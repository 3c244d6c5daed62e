//! The rules of a choice: one for each element, and one for its bounds.

ghost use Rattle.std.specs.Prelude.{◌≡◌, ◌++◌, ◌∷◌, [], map, OnOk, IfOk};
ghost use Rattle.asp_meaning.specs.Variables.{global_terms};
ghost use Rattle.asp_strata.specs.Recursion.{predicate_of, written};
ghost use Rattle.single_rules.specs.Renaming.{name_by, new_name};
ghost use Rattle.single_rules.specs.Splitting.{condition_item, element_rule as rule_of, counted as counted_of, count_of as number_of, bound_rule as bound_of, bound_rules};

use crate::defined::push_terms;
use crate::renaming::Names;
use alpha_outside::{List, Name, OutOfMemory, RuleKind};
use asp_strata::Predicate;
use asp_syntax::{
    AggKind, Aggregate, ChoiceElement, Element, Guard, Item, Literal, Statement, Term,
};
use single_rules::SingleRule;
use std::alloc::Global;

// A copy of terms.
fn copy_terms(alloc: Global, terms: &[Term]) -> Result<List<Term>, OutOfMemory>
    ensures { IfOk result (λ copies. copies ≡ terms.now) }
{
    let mut copies = List::new(alloc);
    push_terms(alloc, terms, &mut copies)?;
    Ok(copies)
}

/// A copy of a body.
pub fn copy_body(alloc: Global, body: &[Item]) -> Result<List<Item>, OutOfMemory>
    ensures { IfOk result (λ copies. copies ≡ body.now) }
{
    let mut copies = List::new(alloc);
    for item in body {
        copies.push(item.copy(alloc)?)?;
    }
    Ok(copies)
}

// Puts the literals of a condition at the end of a body, with new names.
fn push_condition(
    alloc: Global,
    statement: &Statement,
    names: &Names,
    condition: &[Literal],
    into: &mut List<Item>,
) -> Result<(), OutOfMemory>
    requires { name_by names.now.globals.keys names.now.marks names.now.numbers ≡ new_name statement.now }
    ensures { OnOk result (into.new ≡ into.old ++ map (condition_item statement.now) condition.now) }
{
    for literal in condition {
        into.push(Item::Plain(names.rename_literal(alloc, literal)?))?;
    }
    Ok(())
}

// The rule of an element.
fn element_rule(
    alloc: Global,
    statement: &Statement,
    names: &Names,
    defined: &[Term],
    element: &ChoiceElement,
) -> Result<SingleRule, OutOfMemory>
    requires names { name_by names.now.globals.keys names.now.marks names.now.numbers ≡ new_name statement.now }
    requires defined { defined.now ≡ global_terms statement.now }
    ensures { IfOk result (λ rule. rule ≡ rule_of statement.now element.now) }
{
    let head = names.rename_atom(alloc, &element.atom)?;
    let mut body = copy_body(alloc, statement.body.as_slice())?;
    push_condition(
        alloc,
        statement,
        names,
        element.condition.as_slice(),
        &mut body,
    )?;
    let defined = copy_terms(alloc, defined)?;
    Ok(SingleRule {
        kind: RuleKind::Choice,
        head: Some(head),
        body,
        defined,
        line: statement.line,
    })
}

/// Puts the rules of the elements of a choice at the end.
pub fn push_elements(
    alloc: Global,
    statement: &Statement,
    names: &Names,
    defined: &[Term],
    elements: &[ChoiceElement],
    into: &mut List<SingleRule>,
) -> Result<(), OutOfMemory>
    requires names { name_by names.now.globals.keys names.now.marks names.now.numbers ≡ new_name statement.now }
    requires defined { defined.now ≡ global_terms statement.now }
    ensures { OnOk result (into.new ≡ into.old ++ map (rule_of statement.now) elements.now) }
{
    for element in elements {
        into.push(element_rule(alloc, statement, names, defined, element)?)?;
    }
    Ok(())
}

// The name of an atom with its sign.
fn signed_name(alloc: Global, element: &ChoiceElement) -> Result<Name, OutOfMemory>
    ensures { IfOk result (λ name. name ≡ written (predicate_of element.now.atom)) }
{
    Predicate::of(alloc, &element.atom)?.written(alloc)
}

// Puts copies of literals at the end.
fn push_literals(
    alloc: Global,
    literals: &[Literal],
    into: &mut List<Literal>,
) -> Result<(), OutOfMemory>
    ensures { OnOk result (into.new ≡ into.old ++ literals.now) }
{
    for literal in literals {
        into.push(literal.copy(alloc)?)?;
    }
    Ok(())
}

// The tuple of an atom that may be chosen, with its condition.
fn counted(alloc: Global, element: &ChoiceElement) -> Result<Element, OutOfMemory>
    ensures { IfOk result (λ e. e ≡ counted_of element.now) }
{
    let mut terms = List::new(alloc);
    terms.push(Term::Text(signed_name(alloc, element)?))?;
    push_terms(alloc, element.atom.args.as_slice(), &mut terms)?;
    let mut condition = List::new(alloc);
    condition.push(Literal::Positive(element.atom.copy(alloc)?))?;
    push_literals(alloc, element.condition.as_slice(), &mut condition)?;
    Ok(Element { terms, condition })
}

// The tuples of all atoms that may be chosen.
fn all_counted(alloc: Global, elements: &[ChoiceElement]) -> Result<List<Element>, OutOfMemory>
    ensures { IfOk result (λ es. es ≡ map counted_of elements.now) }
{
    let mut done = List::new(alloc);
    for element in elements {
        done.push(counted(alloc, element)?)?;
    }
    Ok(done)
}

// A copy of a guard, if there is one.
fn copy_guard(alloc: Global, guard: &Option<Guard>) -> Result<Option<Guard>, OutOfMemory>
    ensures { IfOk result (λ copy. copy ≡ guard.now) }
{
    match guard {
        None => Ok(None),
        Some(guard) => Ok(Some(guard.copy(alloc)?)),
    }
}

// The number of atoms that are chosen.
fn count_of(
    alloc: Global,
    left: &Option<Guard>,
    elements: &[ChoiceElement],
    right: &Option<Guard>,
) -> Result<Aggregate, OutOfMemory>
    ensures { IfOk result (λ g. g ≡ number_of left.now elements.now right.now) }
{
    let elements = all_counted(alloc, elements)?;
    let left = copy_guard(alloc, left)?;
    let right = copy_guard(alloc, right)?;
    Ok(Aggregate {
        kind: AggKind::Count,
        elements,
        left,
        right,
    })
}

// The constraint for the bounds.
fn bound_rule(
    alloc: Global,
    statement: &Statement,
    defined: &[Term],
    aggregate: Aggregate,
) -> Result<SingleRule, OutOfMemory>
    requires defined { defined.now ≡ global_terms statement.now }
    ensures { IfOk result (λ rule. rule ≡ bound_of statement.now aggregate) }
{
    let mut body = copy_body(alloc, statement.body.as_slice())?;
    body.push(Item::Aggregate {
        denied: true,
        aggregate,
    })?;
    let defined = copy_terms(alloc, defined)?;
    Ok(SingleRule {
        kind: RuleKind::Constraint,
        head: None,
        body,
        defined,
        line: statement.line,
    })
}

/// Puts the constraint for the bounds of a choice at the end, if it has any.
pub fn push_bounds(
    alloc: Global,
    statement: &Statement,
    defined: &[Term],
    left: &Option<Guard>,
    elements: &[ChoiceElement],
    right: &Option<Guard>,
    into: &mut List<SingleRule>,
) -> Result<(), OutOfMemory>
    requires defined { defined.now ≡ global_terms statement.now }
    ensures { OnOk result (into.new ≡ into.old ++ bound_rules statement.now left.now elements.now right.now) }
{
    match left {
        None => match right {
            None => Ok(()),
            Some(_) => push_bound(alloc, statement, defined, left, elements, right, into),
        },
        Some(_) => push_bound(alloc, statement, defined, left, elements, right, into),
    }
}

// Puts the constraint for bounds at the end.
fn push_bound(
    alloc: Global,
    statement: &Statement,
    defined: &[Term],
    left: &Option<Guard>,
    elements: &[ChoiceElement],
    right: &Option<Guard>,
    into: &mut List<SingleRule>,
) -> Result<(), OutOfMemory>
    requires defined { defined.now ≡ global_terms statement.now }
    ensures { OnOk result (into.new ≡ into.old ++ bound_of statement.now (number_of left.now elements.now right.now) ∷ []) }
{
    let aggregate = count_of(alloc, left, elements, right)?;
    into.push(bound_rule(alloc, statement, defined, aggregate)?)?;
    Ok(())
}
