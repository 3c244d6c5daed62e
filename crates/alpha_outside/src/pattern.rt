ghost use Rattle.std.specs.Prelude.{◌≡◌, IfOk};

use crate::ids::{AtomId, TermId};
use crate::pred::Pred;
use crate::{List, Name, OutOfMemory};
use std::alloc::Global;

/// A term of a pattern. Equal holes stand for equal terms.
#[derive(Debug, Drop)]
pub enum PatternTerm {
    Hole(u32),
    Known(TermId),
    Fun(Name, List<PatternTerm>),
}

/// It covers each atom of the predicate whose arguments arise by putting values for the holes, other than the atoms of `except`.
#[derive(Debug, Drop)]
pub struct Pattern {
    pub pred: Pred,
    pub args: List<PatternTerm>,
    pub except: List<AtomId>,
}

impl PatternTerm {
    /// Another copy.
    pub fn copy(&self, alloc: Global) -> Result<PatternTerm, OutOfMemory>
        ensures { IfOk result (λ t. t ≡ self.now) }
    {
        match self {
            PatternTerm::Hole(number) => Ok(PatternTerm::Hole(*number)),
            PatternTerm::Known(id) => Ok(PatternTerm::Known(*id)),
            PatternTerm::Fun(name, args) => {
                let mut copies = List::new(alloc);
                for arg in args.as_slice() {
                    copies.push(arg.copy(alloc)?)?;
                }
                Ok(PatternTerm::Fun(name.copy(alloc)?, copies))
            }
        }
    }
}

// Copies terms one by one.
fn copy_terms(alloc: Global, terms: &[PatternTerm]) -> Result<List<PatternTerm>, OutOfMemory>
    ensures { IfOk result (λ list. list ≡ terms.now) }
{
    let mut copies = List::new(alloc);
    for term in terms {
        copies.push(term.copy(alloc)?)?;
    }
    Ok(copies)
}

impl Pattern {
    /// Another copy.
    pub fn copy(&self, alloc: Global) -> Result<Pattern, OutOfMemory>
        ensures { IfOk result (λ p. p ≡ self.now) }
    {
        let args = copy_terms(alloc, self.args.as_slice())?;
        let pred = self.pred.copy(alloc)?;
        let except = List::from_slice(alloc, self.except.as_slice())?;
        Ok(Pattern { pred, args, except })
    }
}
