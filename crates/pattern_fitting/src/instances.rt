//! Whether terms with holes become only what others become.
//!
//! The equations between the terms and the others, whose holes are moved behind those of the terms, are solved. The terms become only what the
//! others become exactly where the most general solution leaves the holes of the terms apart: as holes, no two of them the same.

ghost use Rattle.std.specs.Prelude.{◌≡◌, ◌↔◌, map, length, IfOk, IsTrue};
ghost use Rattle.lists.specs.Lists.{◌∈◌, Each};
ghost use Rattle.alpha_outside.specs.declared.pattern.PatternTerm.{PatternTerm as PTerm};
ghost use Rattle.alpha_outside.specs.declared.pattern.PatternTerm.TheVariants.{Hole};
ghost use Rattle.unification.specs.Patterns.{IsPatternTerm, put, later_by};
ghost use Rattle.unification.specs.Solving.{HolesBelow, equations_of};
ghost use Rattle.pattern_fitting.specs.Instances.{AreInstances, AreApart};

use alpha_outside::{OutOfMemory, PatternTerm};
use std::alloc::Global;
use term_pool::TermPool;
use unification::{Equation, moved, own_terms, solve};

// Whether this hole is one of the terms.
fn has_this_hole(terms: &[PatternTerm], hole: u32) -> bool
    ensures { IsTrue result ↔ (Hole hole ∈ terms.now) }
{
    for term in terms {
        if let PatternTerm::Hole(x) = term {
            if *x == hole {
                return true;
            }
        }
    }
    false
}

// Whether the terms are holes, no two of them the same.
fn are_apart(terms: &[PatternTerm]) -> bool
    ensures { IsTrue result ↔ AreApart terms.now }
{
    let mut rest = terms;
    while let Some((first, others)) = rest.split_first() {
        let PatternTerm::Hole(hole) = first else {
            return false;
        };
        if has_this_hole(others, *hole) {
            return false;
        }
        rest = others;
    }
    true
}

// What the terms have to be, one by one: the others with holes behind the first so many.
fn equations(
    alloc: Global,
    first: u32,
    terms: &[PatternTerm],
    others: &[PatternTerm],
) -> Result<Vec<Equation>, OutOfMemory>
    requires many { length terms.now ≡ length others.now }
    ensures { IfOk result (λ todo. todo.items ≡ equations_of terms.now (map (put (later_by first)) others.now)) }
{
    let mut todo = Vec::new(alloc);
    for (i, term) in terms.iter().enumerate() {
        let left = term.copy(alloc)?;
        let right = moved(alloc, &others[i], first)?;
        todo.push(Equation { left, right })?;
    }
    Ok(todo)
}

/// Whether the terms, in which only the first so many holes stand, become only what the others become, in which only the first `second` stand. It
/// costs what solving the equations between them costs, and one look at each pair of the terms' holes.
pub fn are_instances(
    alloc: Global,
    pool: &TermPool,
    first: u32,
    terms: &[PatternTerm],
    second: u32,
    others: &[PatternTerm],
) -> Result<bool, OutOfMemory>
    requires formed { Each (IsPatternTerm (length pool.now)) terms.now }
    requires below { (t : PTerm) → t ∈ terms.now → HolesBelow first t }
    requires others_formed { Each (IsPatternTerm (length pool.now)) others.now }
    requires others_below { (t : PTerm) → t ∈ others.now → HolesBelow second t }
    ensures exact { IfOk result (λ are. IsTrue are ↔ AreInstances pool.now terms.now others.now) }
{
    if terms.len() != others.len() {
        return Ok(false);
    }
    let Some(holes) = first.checked_add(second) else {
        return Err(OutOfMemory);
    };
    let mut known = own_terms(alloc, holes)?;
    let mut todo = equations(alloc, first, terms, others)?;
    if !solve(alloc, pool, &mut known, &mut todo)? {
        return Ok(false);
    }
    Ok(are_apart(&known.as_slice()[..first as usize]))
}
