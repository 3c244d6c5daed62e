//! Terms in which no hole stands.

ghost use Rattle.std.specs.Prelude.{◌≡◌, ℕ, true, false};
ghost use Rattle.lists.specs.Lists.{◌∈◌};
ghost use Rattle.alpha_outside.specs.declared.pattern.PatternTerm.{PatternTerm as PTerm};
ghost use Rattle.unification.specs.Patterns.{HasHole};

use alpha_outside::PatternTerm;

// Whether no hole stands in the term. It costs one walk over it.
fn is_without_holes(term: &PatternTerm) -> bool
    ensures yes { result ≡ true → (x : ℕ) → ¬ HasHole term.now x }
    ensures no { result ≡ false → (x : ℕ) × HasHole term.now x }
{
    match term {
        PatternTerm::Hole(_) => false,
        PatternTerm::Known(_) => true,
        PatternTerm::Fun(_, args) => {
            for arg in args.as_slice() {
                if !is_without_holes(arg) {
                    return false;
                }
            }
            true
        }
    }
}

/// Whether no hole stands in the terms. It costs one walk over them.
pub fn has_no_holes(terms: &[PatternTerm]) -> bool
    ensures yes { result ≡ true → (t : PTerm) → t ∈ terms.now → (x : ℕ) → ¬ HasHole t x }
    ensures no { result ≡ false → (t : PTerm) × (t ∈ terms.now) × ((x : ℕ) × HasHole t x) }
{
    for term in terms {
        if !is_without_holes(term) {
            return false;
        }
    }
    true
}
