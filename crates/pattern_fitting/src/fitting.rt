//! Terms with holes against terms of the pool.

ghost use Rattle.std.specs.Prelude.{◌≡◌, ◌↔◌, ◌<◌, map, length, All, IfOk, IsTrue};
ghost use Rattle.lists.specs.Lists.{◌∈◌, Each};
ghost use Rattle.alpha_outside.specs.declared.pattern.PatternTerm.{PatternTerm as PTerm};
ghost use Rattle.alpha_outside.specs.declared.pattern.PatternTerm.TheVariants.{Known};
ghost use Rattle.term_pool.specs.Nodes.{value_at};
ghost use Rattle.unification.specs.Patterns.{IsPatternTerm, Become};
ghost use Rattle.unification.specs.Solving.{HolesBelow, equations_of};

use alpha_outside::{OutOfMemory, PatternTerm, TermId};
use std::alloc::Global;
use term_pool::TermPool;
use unification::{Equation, own_terms, solve};

// What the terms have to be, one by one.
fn equations(
    alloc: Global,
    terms: &[PatternTerm],
    ids: &[TermId],
) -> Result<Vec<Equation>, OutOfMemory>
    requires many { length terms.now ≡ length ids.now }
    ensures { IfOk result (λ todo. todo.items ≡ equations_of terms.now (map Known ids.now)) }
{
    let mut todo = Vec::new(alloc);
    for (i, term) in terms.iter().enumerate() {
        let left = term.copy(alloc)?;
        let right = PatternTerm::Known(ids[i]);
        todo.push(Equation { left, right })?;
    }
    Ok(todo)
}

/// Whether the terms, in which only the first so many holes stand, become these terms of the pool under some values for the holes. It costs what
/// solving the equations between them costs: each symbol of the terms is met once, beside copies of what is known of the holes.
pub fn can_become(
    alloc: Global,
    pool: &TermPool,
    holes: u32,
    terms: &[PatternTerm],
    ids: &[TermId],
) -> Result<bool, OutOfMemory>
    requires formed { Each (IsPatternTerm (length pool.now)) terms.now }
    requires below { (t : PTerm) → t ∈ terms.now → HolesBelow holes t }
    requires there { All (λ id. id < length pool.now) ids.now }
    ensures exact { IfOk result (λ can. IsTrue can ↔ Become pool.now terms.now (map (value_at pool.now) ids.now)) }
{
    if terms.len() != ids.len() {
        return Ok(false);
    }
    let mut known = own_terms(alloc, holes)?;
    let mut todo = equations(alloc, terms, ids)?;
    solve(alloc, pool, &mut known, &mut todo)
}
