//! The first variable of a statement that isn't bound.

ghost use Rattle.std.specs.Prelude.{◌≡◌, ◌⊎◌, ◌↔◌, ◌++◌, IfOk, Some, None, map};
ghost use Rattle.lists.specs.Lists.{◌∈◌, concat};
ghost use Rattle.asp_meaning.specs.Terms.{Variable};
ghost use Rattle.asp_meaning.specs.Variables.{global_variables};
ghost use Rattle.asp_safety.specs.Binding.{IsBound, IsBoundInside, variables_of, literal_variables, occur, element_occurrences, choice_occurrences, guard_occurrences, item_occurrences, head_occurrences, occurrences};
ghost use Rattle.asp_safety.specs.Walks.{IsScope, Misses, Finds};

use crate::agenda::settle;
use crate::bound::{is_met, set_of};
use crate::clauses::{keep_local, push_body_clauses, push_condition_clauses};
use crate::key::Key;
use crate::variables::{
    push_all, push_condition, push_element, push_globals, push_guard, push_literal,
};
use alpha_outside::{List, Name, OutOfMemory};
use asp_syntax::{Aggregate, Atom, ChoiceElement, Element, Guard, Head, Item, Literal, Statement};
use indexmap::IndexSet;
use std::alloc::Global;

/// A statement with its global variables, and those of them that are bound.
#[derive(Drop)]
pub struct Scope<'a> {
    statement: &'a Statement,
    globals: IndexSet<Key>,
    bound: IndexSet<Key>,
}

// The set of the global variables.
fn globals_of(alloc: Global, statement: &Statement) -> Result<IndexSet<Key>, OutOfMemory>
    ensures { IfOk result (λ set. (v : Variable) → (v ∈ set.keys) ↔ (v ∈ global_variables statement.now)) }
{
    let mut keys = List::new(alloc);
    push_globals(alloc, statement, &mut keys)?;
    set_of(alloc, keys)
}

// The set of the global variables that are bound.
fn bound_of(
    alloc: Global,
    statement: &Statement,
    globals: &IndexSet<Key>,
) -> Result<IndexSet<Key>, OutOfMemory>
    requires { (v : Variable) → (v ∈ globals.now.keys) ↔ (v ∈ global_variables statement.now) }
    ensures { IfOk result (λ set. (v : Variable) → (v ∈ set.keys) ↔ IsBound statement.now v) }
{
    let mut clauses = List::new(alloc);
    push_body_clauses(alloc, globals, statement.body.as_slice(), &mut clauses)?;
    let none = IndexSet::new(alloc);
    settle(alloc, &none, clauses)
}

// The scope of a statement.
fn scope_of<'a>(alloc: Global, statement: &'a Statement) -> Result<Scope<'a>, OutOfMemory>
    ensures same { IfOk result (λ scope. scope.statement.now ≡ statement.now) }
    ensures scope { IfOk result (λ scope. IsScope statement.now scope.globals.keys scope.bound.keys) }
{
    let globals = globals_of(alloc, statement)?;
    let bound = bound_of(alloc, statement, &globals)?;
    Ok(Scope {
        statement,
        globals,
        bound,
    })
}

// What counts as bound under a condition, beside the global variables.
fn bound_inside(
    alloc: Global,
    scope: &Scope,
    condition: &[Literal],
) -> Result<IndexSet<Key>, OutOfMemory>
    requires { IsScope scope.now.statement.now scope.now.globals.keys scope.now.bound.keys }
    ensures { IfOk result (λ set. (v : Variable) → ((v ∈ scope.now.bound.keys) ⊎ (v ∈ set.keys)) ↔ IsBoundInside scope.now.statement.now condition.now v) }
{
    let mut clauses = List::new(alloc);
    push_condition_clauses(alloc, condition, &mut clauses)?;
    let clauses = keep_local(alloc, &scope.globals, clauses)?;
    settle(alloc, &scope.bound, clauses)
}

// The first of the variables that is in neither set.
fn first_missing(
    alloc: Global,
    given: &IndexSet<Key>,
    bound: &IndexSet<Key>,
    keys: &[Key],
) -> Result<Option<Name>, OutOfMemory>
    ensures { IfOk result (λ o. Misses given.now.keys bound.now.keys keys.now o) }
{
    for key in keys {
        if !is_met(given, bound, key) {
            let name = key.spelled(alloc)?;
            return Ok(Some(name));
        }
    }
    Ok(None)
}

// The first of the variables, which stand outside elements, that isn't bound.
fn first_outside(alloc: Global, scope: &Scope, keys: &[Key]) -> Result<Option<Name>, OutOfMemory>
    requires { IsScope scope.now.statement.now scope.now.globals.keys scope.now.bound.keys }
    ensures { IfOk result (λ o. Finds scope.now.statement.now (occur None keys.now) o) }
{
    first_missing(alloc, &scope.bound, &scope.bound, keys)
}

// The first of the variables, which stand in an element with this condition, that isn't bound.
fn first_inside(
    alloc: Global,
    scope: &Scope,
    condition: &[Literal],
    keys: &[Key],
) -> Result<Option<Name>, OutOfMemory>
    requires { IsScope scope.now.statement.now scope.now.globals.keys scope.now.bound.keys }
    ensures { IfOk result (λ o. Finds scope.now.statement.now (occur (Some condition.now) keys.now) o) }
{
    let inside = bound_inside(alloc, scope, condition)?;
    first_missing(alloc, &scope.bound, &inside, keys)
}

// The first variable of an element of an aggregate that isn't bound.
fn first_in_element(
    alloc: Global,
    scope: &Scope,
    element: &Element,
) -> Result<Option<Name>, OutOfMemory>
    requires { IsScope scope.now.statement.now scope.now.globals.keys scope.now.bound.keys }
    ensures { IfOk result (λ o. Finds scope.now.statement.now (element_occurrences element.now) o) }
{
    let mut keys = List::new(alloc);
    push_element(alloc, element, &mut keys)?;
    first_inside(alloc, scope, element.condition.as_slice(), keys.as_slice())
}

// The first variable of the elements of an aggregate that isn't bound.
fn first_in_elements(
    alloc: Global,
    scope: &Scope,
    elements: &[Element],
) -> Result<Option<Name>, OutOfMemory>
    requires { IsScope scope.now.statement.now scope.now.globals.keys scope.now.bound.keys }
    ensures { IfOk result (λ o. Finds scope.now.statement.now (concat (map element_occurrences elements.now)) o) }
{
    for element in elements {
        if let Some(name) = first_in_element(alloc, scope, element)? {
            return Ok(Some(name));
        }
    }
    Ok(None)
}

// The first variable of an element of a choice that isn't bound.
fn first_in_choice(
    alloc: Global,
    scope: &Scope,
    choice: &ChoiceElement,
) -> Result<Option<Name>, OutOfMemory>
    requires { IsScope scope.now.statement.now scope.now.globals.keys scope.now.bound.keys }
    ensures { IfOk result (λ o. Finds scope.now.statement.now (choice_occurrences choice.now) o) }
{
    let mut keys = List::new(alloc);
    push_all(alloc, choice.atom.args.as_slice(), &mut keys)?;
    push_condition(alloc, choice.condition.as_slice(), &mut keys)?;
    first_inside(alloc, scope, choice.condition.as_slice(), keys.as_slice())
}

// The first variable of the elements of a choice that isn't bound.
fn first_in_choices(
    alloc: Global,
    scope: &Scope,
    choices: &[ChoiceElement],
) -> Result<Option<Name>, OutOfMemory>
    requires { IsScope scope.now.statement.now scope.now.globals.keys scope.now.bound.keys }
    ensures { IfOk result (λ o. Finds scope.now.statement.now (concat (map choice_occurrences choices.now)) o) }
{
    for choice in choices {
        if let Some(name) = first_in_choice(alloc, scope, choice)? {
            return Ok(Some(name));
        }
    }
    Ok(None)
}

// The first variable of a guard or a bound that isn't bound.
fn first_in_guard(
    alloc: Global,
    scope: &Scope,
    guard: &Option<Guard>,
) -> Result<Option<Name>, OutOfMemory>
    requires { IsScope scope.now.statement.now scope.now.globals.keys scope.now.bound.keys }
    ensures { IfOk result (λ o. Finds scope.now.statement.now (guard_occurrences guard.now) o) }
{
    let mut keys = List::new(alloc);
    push_guard(alloc, guard, &mut keys)?;
    first_outside(alloc, scope, keys.as_slice())
}

// The first variable of an aggregate that isn't bound.
fn first_in_aggregate(
    alloc: Global,
    scope: &Scope,
    aggregate: &Aggregate,
) -> Result<Option<Name>, OutOfMemory>
    requires { IsScope scope.now.statement.now scope.now.globals.keys scope.now.bound.keys }
    ensures { IfOk result (λ o. Finds scope.now.statement.now (guard_occurrences aggregate.now.left ++ (concat (map element_occurrences aggregate.now.elements) ++ guard_occurrences aggregate.now.right)) o) }
{
    if let Some(name) = first_in_guard(alloc, scope, &aggregate.left)? {
        return Ok(Some(name));
    }
    if let Some(name) = first_in_elements(alloc, scope, aggregate.elements.as_slice())? {
        return Ok(Some(name));
    }
    first_in_guard(alloc, scope, &aggregate.right)
}

// The first variable of a literal of a body that isn't bound.
fn first_in_literal(
    alloc: Global,
    scope: &Scope,
    literal: &Literal,
) -> Result<Option<Name>, OutOfMemory>
    requires { IsScope scope.now.statement.now scope.now.globals.keys scope.now.bound.keys }
    ensures { IfOk result (λ o. Finds scope.now.statement.now (occur None (literal_variables literal.now)) o) }
{
    let mut keys = List::new(alloc);
    push_literal(alloc, literal, &mut keys)?;
    first_outside(alloc, scope, keys.as_slice())
}

// The first variable of an item of a body that isn't bound.
fn first_in_item(alloc: Global, scope: &Scope, item: &Item) -> Result<Option<Name>, OutOfMemory>
    requires { IsScope scope.now.statement.now scope.now.globals.keys scope.now.bound.keys }
    ensures { IfOk result (λ o. Finds scope.now.statement.now (item_occurrences item.now) o) }
{
    match item {
        Item::Plain(literal) => first_in_literal(alloc, scope, literal),
        Item::Aggregate {
            denied: _,
            aggregate,
        } => first_in_aggregate(alloc, scope, aggregate),
    }
}

// The first variable of a body that isn't bound.
fn first_in_body(alloc: Global, scope: &Scope, body: &[Item]) -> Result<Option<Name>, OutOfMemory>
    requires { IsScope scope.now.statement.now scope.now.globals.keys scope.now.bound.keys }
    ensures { IfOk result (λ o. Finds scope.now.statement.now (concat (map item_occurrences body.now)) o) }
{
    for item in body {
        if let Some(name) = first_in_item(alloc, scope, item)? {
            return Ok(Some(name));
        }
    }
    Ok(None)
}

// The first variable of an atom in a head that isn't bound.
fn first_in_atom(alloc: Global, scope: &Scope, atom: &Atom) -> Result<Option<Name>, OutOfMemory>
    requires { IsScope scope.now.statement.now scope.now.globals.keys scope.now.bound.keys }
    ensures { IfOk result (λ o. Finds scope.now.statement.now (occur None (variables_of atom.now.args)) o) }
{
    let mut keys = List::new(alloc);
    push_all(alloc, atom.args.as_slice(), &mut keys)?;
    first_outside(alloc, scope, keys.as_slice())
}

// The first variable of a head that isn't bound.
fn first_in_head(alloc: Global, scope: &Scope, head: &Head) -> Result<Option<Name>, OutOfMemory>
    requires { IsScope scope.now.statement.now scope.now.globals.keys scope.now.bound.keys }
    ensures { IfOk result (λ o. Finds scope.now.statement.now (head_occurrences head.now) o) }
{
    match head {
        Head::Absent => Ok(None),
        Head::Single(atom) => first_in_atom(alloc, scope, atom),
        Head::Choice {
            left,
            elements,
            right,
        } => first_in_choice_head(alloc, scope, left, elements.as_slice(), right),
    }
}

// The first variable of a head with a choice that isn't bound.
fn first_in_choice_head(
    alloc: Global,
    scope: &Scope,
    left: &Option<Guard>,
    elements: &[ChoiceElement],
    right: &Option<Guard>,
) -> Result<Option<Name>, OutOfMemory>
    requires { IsScope scope.now.statement.now scope.now.globals.keys scope.now.bound.keys }
    ensures { IfOk result (λ o. Finds scope.now.statement.now (guard_occurrences left.now ++ (concat (map choice_occurrences elements.now) ++ guard_occurrences right.now)) o) }
{
    if let Some(name) = first_in_guard(alloc, scope, left)? {
        return Ok(Some(name));
    }
    if let Some(name) = first_in_choices(alloc, scope, elements)? {
        return Ok(Some(name));
    }
    first_in_guard(alloc, scope, right)
}

// The first variable of the statement of a scope that isn't bound.
fn first_in_scope(alloc: Global, scope: &Scope) -> Result<Option<Name>, OutOfMemory>
    requires { IsScope scope.now.statement.now scope.now.globals.keys scope.now.bound.keys }
    ensures { IfOk result (λ o. Finds scope.now.statement.now (occurrences scope.now.statement.now) o) }
{
    if let Some(name) = first_in_head(alloc, scope, &scope.statement.head)? {
        return Ok(Some(name));
    }
    first_in_body(alloc, scope, scope.statement.body.as_slice())
}

/// The first variable of a statement, from left to right, that isn't bound.
pub fn first_unbound(alloc: Global, statement: &Statement) -> Result<Option<Name>, OutOfMemory>
    ensures { IfOk result (λ o. Finds statement.now (occurrences statement.now) o) }
{
    let scope = scope_of(alloc, statement)?;
    first_in_scope(alloc, &scope)
}
