//! Terms and atoms of a rule as those of a pattern, where its variables are terms with holes.

ghost use Rattle.std.specs.Prelude.{◌≡◌, [], false, length, IfOk};
ghost use Rattle.lists.specs.Lists.{◌∈◌, Each};
ghost use Rattle.core_rules.specs.declared.rules.CoreTerm.{CoreTerm as CTerm};
ghost use Rattle.core_rules.specs.CoreForm.{HasNoArithmetic};
ghost use Rattle.core_rules.specs.Names.{IsNamedTerm};
ghost use Rattle.core_rules.specs.Variables.{has_arithmetic};
ghost use Rattle.term_pool.specs.Nodes.{IsPool, KeepsValues};
ghost use Rattle.term_eval.specs.Evals.{Grows};
ghost use Rattle.unification.specs.Patterns.{IsPatternTerm};
ghost use Rattle.unification.specs.Opening.{VariablesBelow};
ghost use Rattle.pattern_shapes.specs.Shapes.{IsTermUnder, AreTermsUnder};

use alpha_outside::{List, OutOfMemory, Pattern, PatternTerm};
use core_rules::{CoreAtom, CoreTerm};
use std::alloc::Global;
use term_pool::TermPool;
use unification::{applied, opened};

/// The term of a rule without arithmetic, where the rule's variables, of which there are so many, are these terms: under all values for the holes it becomes the value of the
/// term under what the terms become. It costs one walk over the term, a look-up in the pool for each integer, symbol and string, and a copy
/// of what stands for each variable.
///
/// Want of memory is also answered where the pool takes no more terms.
pub fn term_under(
    alloc: Global,
    pool: &mut TermPool,
    variables: u32,
    terms: &Vec<PatternTerm>,
    term: &CoreTerm,
) -> Result<PatternTerm, OutOfMemory>
    requires many { length terms.now.items ≡ variables }
    requires named { IsNamedTerm term.now }
    requires plain { has_arithmetic term.now ≡ false }
    requires below { VariablesBelow variables term.now }
    requires formed { Each (IsPatternTerm (length pool.old)) terms.now.items }
    ensures value { IfOk result (IsTermUnder pool.new terms.now.items term.now) }
    ensures formed { IfOk result (λ t. IsPatternTerm (length pool.new) t) }
    ensures grows { Grows pool.old pool.new }
    ensures kept { KeepsValues pool.old pool.new }
    ensures pool { IsPool pool.new }
{
    // With the length comes what the pool promises of itself.
    let _ = pool.len();
    let mut next = variables;
    let whole = opened(alloc, pool, term, &mut next)?;
    applied(alloc, terms, &whole)
}

/// The atom of a rule without arithmetic as a pattern without exceptions, where the rule's variables are these terms: under all values for the holes
/// it becomes the atom that the rule has under what the terms become. It costs what its arguments cost.
pub fn shape_under(
    alloc: Global,
    pool: &mut TermPool,
    variables: u32,
    terms: &Vec<PatternTerm>,
    atom: &CoreAtom,
) -> Result<Pattern, OutOfMemory>
    requires many { length terms.now.items ≡ variables }
    requires named { Each IsNamedTerm atom.now.args }
    requires plain { HasNoArithmetic atom.now }
    requires below { (t : CTerm) → t ∈ atom.now.args → VariablesBelow variables t }
    requires formed { Each (IsPatternTerm (length pool.old)) terms.now.items }
    ensures predicate { IfOk result (λ p. p.pred ≡ atom.now.pred) }
    ensures none_excepted { IfOk result (λ p. p.except ≡ []) }
    ensures values { IfOk result (λ p. AreTermsUnder pool.new terms.now.items atom.now.args p.args) }
    ensures formed { IfOk result (λ p. Each (IsPatternTerm (length pool.new)) p.args) }
    ensures grows { Grows pool.old pool.new }
    ensures kept { KeepsValues pool.old pool.new }
    ensures pool { IsPool pool.new }
{
    // With the length comes what the pool promises of itself.
    let _ = pool.len();
    let mut args = List::new(alloc);
    for arg in atom.args.as_slice() {
        args.push(term_under(alloc, pool, variables, terms, arg)?)?;
    }
    Ok(Pattern {
        pred: atom.pred.copy(alloc)?,
        args,
        except: List::new(alloc),
    })
}
