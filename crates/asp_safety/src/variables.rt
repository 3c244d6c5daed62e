//! The variables of terms, literals, aggregates and statements, from left to right.

ghost use Rattle.std.specs.Prelude.{◌≡◌, [], ◌∷◌, ◌++◌, OnOk};
ghost use Rattle.asp_meaning.specs.Variables.{variables, guard_terms, item_terms, head_terms, global_variables};
ghost use Rattle.asp_safety.specs.Binding.{variables_of, literal_variables, condition_variables, element_variables, aggregate_variables, outside_arithmetic, outside_of, item_variables, body_variables};

use crate::key::Key;
use alpha_outside::{List, OutOfMemory};
use asp_syntax::{Aggregate, Element, Guard, Head, Item, Literal, Statement, Term};
use std::alloc::Global;

// Puts a key at the end.
fn push(into: &mut List<Key>, key: Key) -> Result<(), OutOfMemory>
    ensures { OnOk result (into.new ≡ into.old ++ key ∷ []) }
{
    into.push(key)?;
    Ok(())
}

/// Puts the variables of a term at the end.
pub fn push_variables(alloc: Global, term: &Term, into: &mut List<Key>) -> Result<(), OutOfMemory>
    ensures { OnOk result (into.new ≡ into.old ++ variables term.now) }
{
    match term {
        Term::Int(_) => Ok(()),
        Term::Variable(name) => push(into, Key::named(alloc, name)?),
        Term::Anonymous(number) => push(into, Key::anonymous(*number)),
        Term::Symbol(_) => Ok(()),
        Term::Text(_) => Ok(()),
        Term::Fun(_, args) => {
            for arg in args.as_slice() {
                push_variables(alloc, arg, into)?;
            }
            Ok(())
        }
        Term::Minus(inner) => push_variables(alloc, inner.get(), into),
        Term::Arith(_, left, right) => {
            push_variables(alloc, left.get(), into)?;
            push_variables(alloc, right.get(), into)
        }
    }
}

/// Puts the variables of a term that stand outside arithmetic at the end.
pub fn push_outside(alloc: Global, term: &Term, into: &mut List<Key>) -> Result<(), OutOfMemory>
    ensures { OnOk result (into.new ≡ into.old ++ outside_arithmetic term.now) }
{
    match term {
        Term::Int(_) => Ok(()),
        Term::Variable(name) => push(into, Key::named(alloc, name)?),
        Term::Anonymous(number) => push(into, Key::anonymous(*number)),
        Term::Symbol(_) => Ok(()),
        Term::Text(_) => Ok(()),
        Term::Fun(_, args) => {
            for arg in args.as_slice() {
                push_outside(alloc, arg, into)?;
            }
            Ok(())
        }
        Term::Minus(_) => Ok(()),
        Term::Arith(_, _, _) => Ok(()),
    }
}

/// Puts the variables of terms at the end.
pub fn push_all(alloc: Global, terms: &[Term], into: &mut List<Key>) -> Result<(), OutOfMemory>
    ensures { OnOk result (into.new ≡ into.old ++ variables_of terms.now) }
{
    for term in terms {
        push_variables(alloc, term, into)?;
    }
    Ok(())
}

/// Puts the variables of terms that stand outside arithmetic at the end.
pub fn push_all_outside(
    alloc: Global,
    terms: &[Term],
    into: &mut List<Key>,
) -> Result<(), OutOfMemory>
    ensures { OnOk result (into.new ≡ into.old ++ outside_of terms.now) }
{
    for term in terms {
        push_outside(alloc, term, into)?;
    }
    Ok(())
}

/// Puts the variables of a literal at the end.
pub fn push_literal(
    alloc: Global,
    literal: &Literal,
    into: &mut List<Key>,
) -> Result<(), OutOfMemory>
    ensures { OnOk result (into.new ≡ into.old ++ literal_variables literal.now) }
{
    match literal {
        Literal::Positive(atom) => push_all(alloc, atom.args.as_slice(), into),
        Literal::Negative(atom) => push_all(alloc, atom.args.as_slice(), into),
        Literal::Compare(_, left, right) => {
            push_variables(alloc, left, into)?;
            push_variables(alloc, right, into)
        }
    }
}

/// Puts the variables of a condition at the end.
pub fn push_condition(
    alloc: Global,
    condition: &[Literal],
    into: &mut List<Key>,
) -> Result<(), OutOfMemory>
    ensures { OnOk result (into.new ≡ into.old ++ condition_variables condition.now) }
{
    for literal in condition {
        push_literal(alloc, literal, into)?;
    }
    Ok(())
}

/// Puts the variables of an element at the end.
pub fn push_element(
    alloc: Global,
    element: &Element,
    into: &mut List<Key>,
) -> Result<(), OutOfMemory>
    ensures { OnOk result (into.new ≡ into.old ++ element_variables element.now) }
{
    push_all(alloc, element.terms.as_slice(), into)?;
    push_condition(alloc, element.condition.as_slice(), into)
}

/// Puts the variables in the elements of an aggregate at the end.
pub fn push_elements(
    alloc: Global,
    aggregate: &Aggregate,
    into: &mut List<Key>,
) -> Result<(), OutOfMemory>
    ensures { OnOk result (into.new ≡ into.old ++ aggregate_variables aggregate.now) }
{
    for element in aggregate.elements.as_slice() {
        push_element(alloc, element, into)?;
    }
    Ok(())
}

/// Puts the variables of a bound at the end.
pub fn push_guard(
    alloc: Global,
    guard: &Option<Guard>,
    into: &mut List<Key>,
) -> Result<(), OutOfMemory>
    ensures { OnOk result (into.new ≡ into.old ++ variables_of (guard_terms guard.now)) }
{
    match guard {
        None => Ok(()),
        Some(guard) => push_variables(alloc, &guard.term, into),
    }
}

/// Puts the global variables of an item of a body at the end.
pub fn push_item(alloc: Global, item: &Item, into: &mut List<Key>) -> Result<(), OutOfMemory>
    ensures { OnOk result (into.new ≡ into.old ++ variables_of (item_terms item.now)) }
{
    match item {
        Item::Plain(literal) => push_literal(alloc, literal, into),
        Item::Aggregate {
            denied: _,
            aggregate,
        } => {
            push_guard(alloc, &aggregate.left, into)?;
            push_guard(alloc, &aggregate.right, into)
        }
    }
}

/// Puts the global variables of a head at the end.
pub fn push_head(alloc: Global, head: &Head, into: &mut List<Key>) -> Result<(), OutOfMemory>
    ensures { OnOk result (into.new ≡ into.old ++ variables_of (head_terms head.now)) }
{
    match head {
        Head::Absent => Ok(()),
        Head::Single(atom) => push_all(alloc, atom.args.as_slice(), into),
        Head::Choice {
            left,
            elements: _,
            right,
        } => {
            push_guard(alloc, left, into)?;
            push_guard(alloc, right, into)
        }
    }
}

/// Puts the global variables of a body at the end.
pub fn push_body(alloc: Global, body: &[Item], into: &mut List<Key>) -> Result<(), OutOfMemory>
    ensures { OnOk result (into.new ≡ into.old ++ body_variables body.now) }
{
    for item in body {
        push_item(alloc, item, into)?;
    }
    Ok(())
}

/// Puts the global variables of a statement at the end.
#[tactic(auto, using(crate::proofs::TermLemmas::globals_in_parts, std::proofs::lemmas::Grind::common_steps))]
pub fn push_globals(
    alloc: Global,
    statement: &Statement,
    into: &mut List<Key>,
) -> Result<(), OutOfMemory>
    ensures { OnOk result (into.new ≡ into.old ++ global_variables statement.now) }
{
    push_head(alloc, &statement.head, into)?;
    push_body(alloc, statement.body.as_slice(), into)
}
