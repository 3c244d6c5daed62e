//! Copies of all terms of a statement, in the order of its text.

ghost use Rattle.std.specs.Prelude.{◌≡◌, [], ◌∷◌, ◌++◌, map, OnOk, IfOk};
ghost use Rattle.lists.specs.Lists.{concat};
ghost use Rattle.single_rules.specs.Renaming.{condition_terms, element_terms, choice_terms, all_item_terms, all_head_terms, all_terms};

use crate::defined::{push_guard, push_literal, push_terms};
use alpha_outside::{List, OutOfMemory};
use asp_syntax::{ChoiceElement, Element, Head, Item, Literal, Statement, Term};
use std::alloc::Global;

// Puts copies of the terms of a condition at the end.
fn push_condition(
    alloc: Global,
    condition: &[Literal],
    into: &mut List<Term>,
) -> Result<(), OutOfMemory>
    ensures { OnOk result (into.new ≡ into.old ++ condition_terms condition.now) }
{
    for literal in condition {
        push_literal(alloc, literal, into)?;
    }
    Ok(())
}

// Puts copies of the terms of an element of an aggregate at the end.
fn push_element(alloc: Global, element: &Element, into: &mut List<Term>) -> Result<(), OutOfMemory>
    ensures { OnOk result (into.new ≡ into.old ++ element_terms element.now) }
{
    push_terms(alloc, element.terms.as_slice(), into)?;
    push_condition(alloc, element.condition.as_slice(), into)
}

// Puts copies of the terms of elements of an aggregate at the end.
fn push_elements(
    alloc: Global,
    elements: &[Element],
    into: &mut List<Term>,
) -> Result<(), OutOfMemory>
    ensures { OnOk result (into.new ≡ into.old ++ concat (map element_terms elements.now)) }
{
    for element in elements {
        push_element(alloc, element, into)?;
    }
    Ok(())
}

// Puts copies of the terms of an element of a choice at the end.
fn push_choice(
    alloc: Global,
    element: &ChoiceElement,
    into: &mut List<Term>,
) -> Result<(), OutOfMemory>
    ensures { OnOk result (into.new ≡ into.old ++ choice_terms element.now) }
{
    push_terms(alloc, element.atom.args.as_slice(), into)?;
    push_condition(alloc, element.condition.as_slice(), into)
}

// Puts copies of the terms of elements of a choice at the end.
fn push_choices(
    alloc: Global,
    elements: &[ChoiceElement],
    into: &mut List<Term>,
) -> Result<(), OutOfMemory>
    ensures { OnOk result (into.new ≡ into.old ++ concat (map choice_terms elements.now)) }
{
    for element in elements {
        push_choice(alloc, element, into)?;
    }
    Ok(())
}

// Puts copies of the terms of an item of a body at the end, those in elements too.
fn push_item(alloc: Global, item: &Item, into: &mut List<Term>) -> Result<(), OutOfMemory>
    ensures { OnOk result (into.new ≡ into.old ++ all_item_terms item.now) }
{
    match item {
        Item::Plain(literal) => push_literal(alloc, literal, into),
        Item::Aggregate {
            denied: _,
            aggregate,
        } => {
            push_guard(alloc, &aggregate.left, into)?;
            push_elements(alloc, aggregate.elements.as_slice(), into)?;
            push_guard(alloc, &aggregate.right, into)
        }
    }
}

// Puts copies of the terms of a head at the end, those in elements too.
fn push_head(alloc: Global, head: &Head, into: &mut List<Term>) -> Result<(), OutOfMemory>
    ensures { OnOk result (into.new ≡ into.old ++ all_head_terms head.now) }
{
    match head {
        Head::Absent => Ok(()),
        Head::Single(atom) => push_terms(alloc, atom.args.as_slice(), into),
        Head::Choice {
            left,
            elements,
            right,
        } => {
            push_guard(alloc, left, into)?;
            push_choices(alloc, elements.as_slice(), into)?;
            push_guard(alloc, right, into)
        }
    }
}

// Puts copies of the terms of a body at the end, those in elements too.
fn push_body(alloc: Global, body: &[Item], into: &mut List<Term>) -> Result<(), OutOfMemory>
    ensures { OnOk result (into.new ≡ into.old ++ concat (map all_item_terms body.now)) }
{
    for item in body {
        push_item(alloc, item, into)?;
    }
    Ok(())
}

/// Copies of all terms of a statement, those in elements too.
pub fn all_terms_of(alloc: Global, statement: &Statement) -> Result<List<Term>, OutOfMemory>
    ensures { IfOk result (λ terms. terms ≡ all_terms statement.now) }
{
    let mut terms = List::new(alloc);
    push_head(alloc, &statement.head, &mut terms)?;
    push_body(alloc, statement.body.as_slice(), &mut terms)?;
    Ok(terms)
}
