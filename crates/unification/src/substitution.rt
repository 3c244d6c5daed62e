//! Terms in place of the holes of a pattern.

ghost use Rattle.std.specs.Prelude.{◌≡◌, ◌↔◌, ℕ, Some, IfOk, IsTrue};
ghost use Rattle.unification.specs.Patterns.{HasHole, put, only, at_places, later_by};
ghost use Rattle.unification.specs.Solving.{HolesBelow};

use alpha_outside::{List, OutOfMemory, PatternTerm};
use std::alloc::Global;

/// The term with another in place of one hole.
pub fn replaced(
    alloc: Global,
    term: &PatternTerm,
    hole: u32,
    by: &PatternTerm,
) -> Result<PatternTerm, OutOfMemory>
    ensures { IfOk result (λ t. t ≡ put (only hole by.now) term.now) }
{
    match term {
        PatternTerm::Hole(x) if *x == hole => by.copy(alloc),
        PatternTerm::Hole(x) => Ok(PatternTerm::Hole(*x)),
        PatternTerm::Known(id) => Ok(PatternTerm::Known(*id)),
        PatternTerm::Fun(name, args) => {
            let mut parts = List::new(alloc);
            for arg in args.as_slice() {
                parts.push(replaced(alloc, arg, hole, by)?)?;
            }
            Ok(PatternTerm::Fun(name.copy(alloc)?, parts))
        }
    }
}

/// The term with those at their places in place of its holes; a hole behind their end stays. It copies each of them as often as its hole stands
/// in the term.
pub fn applied(
    alloc: Global,
    terms: &Vec<PatternTerm>,
    term: &PatternTerm,
) -> Result<PatternTerm, OutOfMemory>
    ensures { IfOk result (λ t. t ≡ put (at_places terms.now.items) term.now) }
{
    match term {
        PatternTerm::Hole(x) => match terms.get(*x as usize) {
            Some(known) => known.copy(alloc),
            None => Ok(PatternTerm::Hole(*x)),
        },
        PatternTerm::Known(id) => Ok(PatternTerm::Known(*id)),
        PatternTerm::Fun(name, args) => {
            let mut parts = List::new(alloc);
            for arg in args.as_slice() {
                parts.push(applied(alloc, terms, arg)?)?;
            }
            Ok(PatternTerm::Fun(name.copy(alloc)?, parts))
        }
    }
}

/// The term with each hole so many places later, so that its holes are none of so many others. It costs one copy of the term.
///
/// Want of memory is also answered where a hole has no number of 32 bits.
pub fn moved(alloc: Global, term: &PatternTerm, by: u32) -> Result<PatternTerm, OutOfMemory>
    ensures { IfOk result (λ t. t ≡ put (later_by by) term.now) }
{
    match term {
        PatternTerm::Hole(x) => match by.checked_add(*x) {
            Some(later) => Ok(PatternTerm::Hole(later)),
            None => Err(OutOfMemory),
        },
        PatternTerm::Known(id) => Ok(PatternTerm::Known(*id)),
        PatternTerm::Fun(name, args) => {
            let mut parts = List::new(alloc);
            for arg in args.as_slice() {
                parts.push(moved(alloc, arg, by)?)?;
            }
            Ok(PatternTerm::Fun(name.copy(alloc)?, parts))
        }
    }
}

/// Whether the hole stands in the term.
pub fn has_hole(term: &PatternTerm, hole: u32) -> bool
    ensures { IsTrue result ↔ HasHole term.now hole }
{
    match term {
        PatternTerm::Hole(x) => *x == hole,
        PatternTerm::Known(_) => false,
        PatternTerm::Fun(_, args) => {
            for arg in args.as_slice() {
                if has_hole(arg, hole) {
                    return true;
                }
            }
            false
        }
    }
}

/// A number that is above those of all holes in the term, where there is one of 32 bits. It costs one walk over the term.
pub fn above_holes(term: &PatternTerm) -> Option<u32>
    ensures { (n : ℕ) → result ≡ Some n → HolesBelow n term.now }
{
    match term {
        PatternTerm::Hole(x) => x.checked_add(1),
        PatternTerm::Known(_) => Some(0),
        PatternTerm::Fun(_, args) => {
            let mut most = 0;
            for arg in args.as_slice() {
                match above_holes(arg) {
                    Some(n) => most = most.max(n),
                    None => return None,
                }
            }
            Some(most)
        }
    }
}
