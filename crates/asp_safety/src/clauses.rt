//! The clauses that bind the variables of a statement, and those of a condition.

ghost use Rattle.std.specs.Prelude.{◌≡◌, ◌↔◌, ◌⊎◌, [], ◌∷◌, ◌++◌, map, filter, IfOk, OnOk};
ghost use Rattle.lists.specs.Lists.{◌∈◌, concat};
ghost use Rattle.asp_meaning.specs.Variables.{variables};
ghost use Rattle.asp_safety.specs.Binding.{outside_of, aggregate_variables};
ghost use Rattle.asp_safety.specs.declared.clause.Clause.{Clause};
ghost use Rattle.asp_safety.specs.ClauseLists.{is_among, variable_of, fact, clause_for, equation_clauses, literal_clauses, equal_clauses, guard_clauses, aggregate_needs, item_clauses, body_clauses};

use crate::bound::is_in;
use crate::clause::Clause;
use crate::key::Key;
use crate::variables::{push_all_outside, push_elements, push_variables};
use alpha_outside::{List, OutOfMemory};
use asp_syntax::{Aggregate, CompareOp, Guard, Item, Literal, Term};
use indexmap::IndexSet;
use std::alloc::Global;

// The variable that a term is.
fn variable_of(alloc: Global, term: &Term) -> Result<Option<Key>, OutOfMemory>
    ensures { IfOk result (λ o. o ≡ variable_of term.now) }
{
    match term {
        Term::Int(_) => Ok(None),
        Term::Variable(name) => Ok(Some(Key::named(alloc, name)?)),
        Term::Anonymous(number) => Ok(Some(Key::anonymous(*number))),
        Term::Symbol(_) => Ok(None),
        Term::Text(_) => Ok(None),
        Term::Fun(_, _) => Ok(None),
        Term::Minus(_) => Ok(None),
        Term::Arith(_, _, _) => Ok(None),
    }
}

// Puts a clause at the end.
fn push_clause(into: &mut List<Clause>, clause: Clause) -> Result<(), OutOfMemory>
    ensures { OnOk result (into.new ≡ into.old ++ clause ∷ []) }
{
    into.push(clause)?;
    Ok(())
}

// Puts the clause for the variable that a term is, if it is one, at the end.
fn push_for(
    alloc: Global,
    term: &Term,
    needs: List<Key>,
    into: &mut List<Clause>,
) -> Result<(), OutOfMemory>
    ensures { OnOk result (into.new ≡ into.old ++ clause_for (variable_of term.now) needs) }
{
    match variable_of(alloc, term)? {
        None => Ok(()),
        Some(gives) => push_clause(into, Clause { needs, gives }),
    }
}

// Puts the clause for the variable that a term is, bound by the variables of another, at the end.
fn push_side(
    alloc: Global,
    term: &Term,
    other: &Term,
    into: &mut List<Clause>,
) -> Result<(), OutOfMemory>
    ensures { OnOk result (into.new ≡ into.old ++ clause_for (variable_of term.now) (variables other.now)) }
{
    let mut needs = List::new(alloc);
    push_variables(alloc, other, &mut needs)?;
    push_for(alloc, term, needs, into)
}

// Puts the clauses of a comparison at the end.
fn push_equation(
    alloc: Global,
    op: CompareOp,
    left: &Term,
    right: &Term,
    into: &mut List<Clause>,
) -> Result<(), OutOfMemory>
    ensures { OnOk result (into.new ≡ into.old ++ equation_clauses op left.now right.now) }
{
    match op {
        CompareOp::Equal => {
            push_side(alloc, left, right, into)?;
            push_side(alloc, right, left, into)
        }
        CompareOp::NotEqual => Ok(()),
        CompareOp::Less => Ok(()),
        CompareOp::LessEqual => Ok(()),
        CompareOp::Greater => Ok(()),
        CompareOp::GreaterEqual => Ok(()),
    }
}

// Puts a clause without needs for each variable at the end.
fn push_facts(alloc: Global, keys: &[Key], into: &mut List<Clause>) -> Result<(), OutOfMemory>
    ensures { OnOk result (into.new ≡ into.old ++ map fact keys.now) }
{
    for key in keys {
        let gives = key.copy(alloc)?;
        let needs = List::new(alloc);
        push_clause(into, Clause { needs, gives })?;
    }
    Ok(())
}

// Puts a clause for each variable of the terms that stands outside arithmetic at the end.
fn push_atom(alloc: Global, terms: &[Term], into: &mut List<Clause>) -> Result<(), OutOfMemory>
    ensures { OnOk result (into.new ≡ into.old ++ map fact (outside_of terms.now)) }
{
    let mut keys = List::new(alloc);
    push_all_outside(alloc, terms, &mut keys)?;
    push_facts(alloc, keys.as_slice(), into)
}

// Puts the clauses of a literal at the end.
fn push_literal_clauses(
    alloc: Global,
    literal: &Literal,
    into: &mut List<Clause>,
) -> Result<(), OutOfMemory>
    ensures { OnOk result (into.new ≡ into.old ++ literal_clauses literal.now) }
{
    match literal {
        Literal::Positive(atom) => push_atom(alloc, atom.args.as_slice(), into),
        Literal::Negative(_) => Ok(()),
        Literal::Compare(op, left, right) => push_equation(alloc, *op, left, right, into),
    }
}

/// Puts the clauses of a condition at the end.
pub fn push_condition_clauses(
    alloc: Global,
    condition: &[Literal],
    into: &mut List<Clause>,
) -> Result<(), OutOfMemory>
    ensures { OnOk result (into.new ≡ into.old ++ concat (map literal_clauses condition.now)) }
{
    for literal in condition {
        push_literal_clauses(alloc, literal, into)?;
    }
    Ok(())
}

// Copies those variables that are in the set.
fn copy_among(alloc: Global, set: &IndexSet<Key>, keys: &[Key]) -> Result<List<Key>, OutOfMemory>
    ensures { IfOk result (λ kept. kept ≡ filter (is_among set.now.keys) keys.now) }
{
    let mut kept = List::new(alloc);
    for key in keys {
        if is_in(set, key) {
            let key = key.copy(alloc)?;
            kept.push(key)?;
        }
    }
    Ok(kept)
}

// The global variables in the elements of an aggregate.
fn needs_of(
    alloc: Global,
    globals: &IndexSet<Key>,
    aggregate: &Aggregate,
) -> Result<List<Key>, OutOfMemory>
    ensures { IfOk result (λ needs. needs ≡ aggregate_needs globals.now.keys aggregate.now) }
{
    let mut keys = List::new(alloc);
    push_elements(alloc, aggregate, &mut keys)?;
    copy_among(alloc, globals, keys.as_slice())
}

// Puts the clause of a guard of an aggregate at the end.
fn push_guard_clauses(
    alloc: Global,
    globals: &IndexSet<Key>,
    aggregate: &Aggregate,
    guard: &Option<Guard>,
    into: &mut List<Clause>,
) -> Result<(), OutOfMemory>
    ensures { OnOk result (into.new ≡ into.old ++ guard_clauses guard.now (aggregate_needs globals.now.keys aggregate.now)) }
{
    match guard {
        None => Ok(()),
        Some(guard) => match guard.op {
            CompareOp::Equal => {
                let needs = needs_of(alloc, globals, aggregate)?;
                push_for(alloc, &guard.term, needs, into)
            }
            CompareOp::NotEqual => Ok(()),
            CompareOp::Less => Ok(()),
            CompareOp::LessEqual => Ok(()),
            CompareOp::Greater => Ok(()),
            CompareOp::GreaterEqual => Ok(()),
        },
    }
}

// Puts the clauses of an item of a body at the end.
fn push_item_clauses(
    alloc: Global,
    globals: &IndexSet<Key>,
    item: &Item,
    into: &mut List<Clause>,
) -> Result<(), OutOfMemory>
    ensures { OnOk result (into.new ≡ into.old ++ item_clauses globals.now.keys item.now) }
{
    match item {
        Item::Plain(literal) => push_literal_clauses(alloc, literal, into),
        Item::Aggregate { denied, aggregate } => {
            if *denied {
                return Ok(());
            }
            push_guard_clauses(alloc, globals, aggregate, &aggregate.left, into)?;
            push_guard_clauses(alloc, globals, aggregate, &aggregate.right, into)
        }
    }
}

/// Puts the clauses of a body at the end.
pub fn push_body_clauses(
    alloc: Global,
    globals: &IndexSet<Key>,
    body: &[Item],
    into: &mut List<Clause>,
) -> Result<(), OutOfMemory>
    ensures { OnOk result (into.new ≡ into.old ++ body_clauses globals.now.keys body.now) }
{
    for item in body {
        push_item_clauses(alloc, globals, item, into)?;
    }
    Ok(())
}

/// The clauses for variables that aren't in the set.
pub fn keep_local(
    alloc: Global,
    globals: &IndexSet<Key>,
    clauses: List<Clause>,
) -> Result<List<Clause>, OutOfMemory>
    ensures { IfOk result (λ kept. (c : Clause) → (c ∈ kept) ↔ ((c ∈ clauses) × (¬ (c.gives ∈ globals.now.keys)))) }
{
    let mut clauses = clauses;
    let mut kept = List::new(alloc);
    'moving: while let Some(clause) = clauses.pop() {
        keep_one(globals, clause, &mut kept)?;
    }
    Ok(kept)
}

// Keeps the clause, if it is for a variable that isn't in the set.
fn keep_one(
    globals: &IndexSet<Key>,
    clause: Clause,
    kept: &mut List<Clause>,
) -> Result<(), OutOfMemory>
    ensures { OnOk result ((c : Clause) → (c ∈ kept.new) ↔ ((c ∈ kept.old) ⊎ ((c ≡ clause) × (¬ (c.gives ∈ globals.now.keys))))) }
{
    if is_in(globals, &clause.gives) {
        Ok(())
    } else {
        push_clause(kept, clause)
    }
}
