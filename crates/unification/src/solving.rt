//! The most general solution of equations between terms with holes. For each hole a term is known, in which only holes stand that are their own
//! terms. An equation is taken from the worklist, and what is known is put into it; then it gives a hole its term, or equations between
//! arguments, or there is no solution.

ghost use Rattle.std.specs.Prelude.{◌≡◌, ◌<◌, ◌++◌, map, length, IfOk, OnOk};
ghost use Rattle.lists.specs.Lists.{Each};
ghost use Rattle.alpha_outside.specs.declared.pattern.PatternTerm.TheVariants.{Known};
ghost use Rattle.unification.specs.Patterns.{IsPatternTerm};
ghost use Rattle.unification.specs.Solving.{IsEquationOf, IsKnown, IsFree, equations_of, bound_to_hole, HoleTaken, KnownTaken, CallsTaken, TakenOrNot, SolvedOrNot};

use crate::substitution::{applied, has_hole, replaced};
use alpha_outside::{List, Name, Node, OutOfMemory, PatternTerm, TermId};
use std::alloc::Global;
use term_pool::TermPool;

/// Two terms that have to become the same value.
#[derive(Debug, Drop)]
pub struct Equation {
    pub left: PatternTerm,
    pub right: PatternTerm,
}

// Gives a hole that is its own term this term, in which it doesn't stand.
fn bind(
    alloc: Global,
    terms: &mut Vec<PatternTerm>,
    hole: u32,
    by: &PatternTerm,
) -> Result<(), OutOfMemory>
    ensures { OnOk result (terms.new.items ≡ bound_to_hole hole by.now terms.old.items) }
{
    let mut next = Vec::new(alloc);
    for term in terms.as_slice() {
        next.push(replaced(alloc, term, hole, by)?)?;
    }
    *terms = next;
    Ok(())
}

// Asks that the parts be the same, one by one.
fn ask_parts(
    alloc: Global,
    left: &[PatternTerm],
    right: &[PatternTerm],
    todo: &mut Vec<Equation>,
) -> Result<(), OutOfMemory>
    requires many { length left.now ≡ length right.now }
    ensures { OnOk result (todo.new.items ≡ todo.old.items ++ equations_of left.now right.now) }
{
    for (i, part) in left.iter().enumerate() {
        let left = part.copy(alloc)?;
        let right = right[i].copy(alloc)?;
        todo.push(Equation { left, right })?;
    }
    Ok(())
}

// Asks that the parts be these terms, one by one.
fn ask_known(
    alloc: Global,
    left: &[PatternTerm],
    right: &[TermId],
    todo: &mut Vec<Equation>,
) -> Result<(), OutOfMemory>
    requires many { length left.now ≡ length right.now }
    ensures { OnOk result (todo.new.items ≡ todo.old.items ++ equations_of left.now (map Known right.now)) }
{
    for (i, part) in left.iter().enumerate() {
        let left = part.copy(alloc)?;
        let right = PatternTerm::Known(right[i]);
        todo.push(Equation { left, right })?;
    }
    Ok(())
}

// Takes the equation of a term of the pool and a functional term.
fn take_known(
    alloc: Global,
    pool: &TermPool,
    id: TermId,
    name: &Name,
    args: &[PatternTerm],
    todo: &mut Vec<Equation>,
) -> Result<bool, OutOfMemory>
    requires { id < length pool.now }
    ensures { IfOk result (λ found. KnownTaken pool.now id name.now args.now todo.old.items todo.new.items found) }
{
    match pool.node(id) {
        Node::Fun(other, parts) if other.is_same(name) && parts.len() == args.len() => {
            ask_known(alloc, args, parts.as_slice(), todo)?;
            Ok(true)
        }
        _ => Ok(false),
    }
}

// Takes the equation of two functional terms.
fn take_calls(
    alloc: Global,
    name: &Name,
    args: &[PatternTerm],
    other: &Name,
    parts: &[PatternTerm],
    todo: &mut Vec<Equation>,
) -> Result<bool, OutOfMemory>
    ensures { IfOk result (λ found. CallsTaken name.now other.now args.now parts.now todo.old.items todo.new.items found) }
{
    if !name.is_same(other) || args.len() != parts.len() {
        return Ok(false);
    }
    ask_parts(alloc, args, parts, todo)?;
    Ok(true)
}

// Takes the equation of a hole and a term. There is no solution where the hole stands in another term.
fn take_hole(
    alloc: Global,
    terms: &mut Vec<PatternTerm>,
    hole: u32,
    term: &PatternTerm,
) -> Result<bool, OutOfMemory>
    ensures { IfOk result (λ found. HoleTaken hole term.now terms.old.items terms.new.items found) }
{
    if let PatternTerm::Hole(other) = term {
        if *other == hole {
            return Ok(true);
        }
    }
    if has_hole(term, hole) {
        return Ok(false);
    }
    bind(alloc, terms, hole, term)?;
    Ok(true)
}

// Takes an equation into which all that is known was put. False where it has no solution.
fn take(
    alloc: Global,
    pool: &TermPool,
    terms: &mut Vec<PatternTerm>,
    equation: &Equation,
    todo: &mut Vec<Equation>,
) -> Result<bool, OutOfMemory>
    requires formed { IsEquationOf (length terms.old.items) (length pool.now) equation.now }
    requires left_free { IsFree terms.old.items equation.now.left }
    requires right_free { IsFree terms.old.items equation.now.right }
    requires known { IsKnown pool.now terms.old.items }
    requires others { Each (IsEquationOf (length terms.old.items) (length pool.now)) todo.old.items }
    ensures { IfOk result (λ found. TakenOrNot pool.now equation.now terms.old.items todo.old.items terms.new.items todo.new.items found) }
{
    // With the length comes what the pool promises of itself.
    let _ = pool.len();
    match (&equation.left, &equation.right) {
        (PatternTerm::Hole(hole), _) => take_hole(alloc, terms, *hole, &equation.right),
        (PatternTerm::Known(_), PatternTerm::Hole(hole)) => {
            take_hole(alloc, terms, *hole, &equation.left)
        }
        (PatternTerm::Fun(..), PatternTerm::Hole(hole)) => {
            take_hole(alloc, terms, *hole, &equation.left)
        }
        (PatternTerm::Known(left), PatternTerm::Known(right)) => Ok(*left == *right),
        (PatternTerm::Known(id), PatternTerm::Fun(name, args)) => {
            take_known(alloc, pool, *id, name, args.as_slice(), todo)
        }
        (PatternTerm::Fun(name, args), PatternTerm::Known(id)) => {
            take_known(alloc, pool, *id, name, args.as_slice(), todo)
        }
        (PatternTerm::Fun(name, args), PatternTerm::Fun(other, parts)) => {
            take_calls(alloc, name, args.as_slice(), other, parts.as_slice(), todo)
        }
    }
}

// Takes an equation, into which all that is known is put first. False where it has no solution.
fn advance(
    alloc: Global,
    pool: &TermPool,
    terms: &mut Vec<PatternTerm>,
    next: &Equation,
    todo: &mut Vec<Equation>,
) -> Result<bool, OutOfMemory>
    requires known { IsKnown pool.now terms.old.items }
    requires formed { IsEquationOf (length terms.old.items) (length pool.now) next.now }
    requires others { Each (IsEquationOf (length terms.old.items) (length pool.now)) todo.old.items }
    ensures { IfOk result (λ found. TakenOrNot pool.now next.now terms.old.items todo.old.items terms.new.items todo.new.items found) }
{
    let left = applied(alloc, terms, &next.left)?;
    let right = applied(alloc, terms, &next.right)?;
    take(alloc, pool, terms, &Equation { left, right }, todo)
}

/// Finds the most general solution of the equations beside what is known of the holes, and says whether there is one. Where there is none, and
/// after an error, what is known and what is left of the equations have no meaning.
///
/// Each turn of the worklist takes the last equation, and copies it with all that is known put into it; where it gives a hole its term, what is
/// known of every hole is copied too, which happens at most once a hole. A solution takes at most as many turns as the left sides have symbols
/// under it, counted as trees.
pub fn solve(
    alloc: Global,
    pool: &TermPool,
    terms: &mut Vec<PatternTerm>,
    todo: &mut Vec<Equation>,
) -> Result<bool, OutOfMemory>
    requires known { IsKnown pool.now terms.old.items }
    requires formed { Each (IsEquationOf (length terms.old.items) (length pool.now)) todo.old.items }
    ensures { IfOk result (λ found. SolvedOrNot pool.now terms.old.items todo.old.items terms.new.items found) }
{
    // The equations come to an end long before.
    for _ in 0..u64::MAX {
        match todo.pop() {
            None => return Ok(true),
            Some(next) => {
                if !advance(alloc, pool, terms, &next, todo)? {
                    return Ok(false);
                }
            }
        }
    }
    Err(OutOfMemory)
}
