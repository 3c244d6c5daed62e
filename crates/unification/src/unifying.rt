//! The most general unifier of a rule's head and a pattern.

ghost use Rattle.std.specs.Prelude.{◌≡◌, ◌<◌, ◌≤◌, ℕ, Some, true, is_some, length, map, take, IfOk, IfSome, IfNone};
ghost use Rattle.lists.specs.Lists.{◌∈◌, Each};
ghost use Rattle.core_rules.specs.declared.rules.CoreAtom.{CoreAtom as Head};
ghost use Rattle.alpha_outside.specs.declared.pattern.PatternTerm.{PatternTerm as PTerm};
ghost use Rattle.core_rules.specs.declared.rules.CoreTerm.{CoreTerm as CTerm};
ghost use Rattle.core_rules.specs.CoreForm.{HasNoArithmetic};
ghost use Rattle.core_rules.specs.Names.{IsNamedHead, IsNamedTerm};
ghost use Rattle.core_rules.specs.Variables.{head_variables};
ghost use Rattle.term_pool.specs.Nodes.{IsPool, KeepsValues};
ghost use Rattle.term_eval.specs.Evals.{Grows};
ghost use Rattle.unification.specs.Patterns.{IsPatternTerm, put, later_by};
ghost use Rattle.unification.specs.Solving.{HolesBelow, equations_of};
ghost use Rattle.unification.specs.Opening.{VariablesBelow, AreOpened, AreOwn};
ghost use Rattle.unification.specs.Unifiers.{IsMostGeneral, NoneUnifies, NoneCovered, SomeCovered, ArgumentsUnified, HeadUnified};

use crate::opening::opened;
use crate::solving::{Equation, solve};
use crate::substitution::{above_holes, moved};
use alpha_outside::{List, OutOfMemory, Pattern, PatternTerm};
use core_rules::{CoreAtom, CoreRule, CoreTerm};
use std::alloc::Global;
use term_pool::TermPool;

// The arguments of a head as terms of a pattern. Operations are holes from `next` on.
fn opened_all(
    alloc: Global,
    pool: &mut TermPool,
    args: &[CoreTerm],
    next: &mut u32,
) -> Result<List<PatternTerm>, OutOfMemory>
    requires named { Each IsNamedTerm args.now }
    requires below { (u : CTerm) → u ∈ args.now → VariablesBelow next.old u }
    ensures opened { IfOk result (λ ts. AreOpened pool.new next.old next.new args.now ts) }
    ensures later { next.old ≤ next.new }
    ensures grows { Grows pool.old pool.new }
    ensures kept { KeepsValues pool.old pool.new }
    ensures pool { IsPool pool.new }
{
    // With the length comes what the pool promises of itself.
    let _ = pool.len();
    let mut terms = List::new(alloc);
    for arg in args {
        terms.push(opened(alloc, pool, arg, next)?)?;
    }
    Ok(terms)
}

// A number above those of all holes in the terms.
fn above_all(terms: &[PatternTerm]) -> Option<u32>
    ensures { (n : ℕ) → result ≡ Some n → (u : PTerm) → u ∈ terms.now → HolesBelow n u }
{
    let mut most = 0;
    for term in terms {
        match above_holes(term) {
            Some(n) => most = most.max(n),
            None => return None,
        }
    }
    Some(most)
}

// What the arguments have to be, where the holes on the right come so many places later.
fn equations(
    alloc: Global,
    left: &[PatternTerm],
    right: &[PatternTerm],
    by: u32,
) -> Result<Vec<Equation>, OutOfMemory>
    requires many { length left.now ≡ length right.now }
    ensures { IfOk result (λ todo. todo.items ≡ equations_of left.now (map (put (later_by by)) right.now)) }
{
    let mut todo = Vec::new(alloc);
    for (i, term) in left.iter().enumerate() {
        let left = term.copy(alloc)?;
        let right = moved(alloc, &right[i], by)?;
        todo.push(Equation { left, right })?;
    }
    Ok(todo)
}

/// So many holes, each its own term: what is known before the first equation.
pub fn own_terms(alloc: Global, many: u32) -> Result<Vec<PatternTerm>, OutOfMemory>
    ensures { IfOk result (λ terms. AreOwn many terms.items) }
{
    let mut terms = Vec::new(alloc);
    for x in 0..many {
        terms.push(PatternTerm::Hole(x))?;
    }
    Ok(terms)
}

// The first of the terms.
fn first_of(
    alloc: Global,
    terms: &Vec<PatternTerm>,
    many: u32,
) -> Result<List<PatternTerm>, OutOfMemory>
    requires { many ≤ length terms.now.items }
    ensures { IfOk result (λ firsts. firsts ≡ take many terms.now.items) }
{
    let mut firsts = List::new(alloc);
    for v in 0..many {
        firsts.push(terms[v as usize].copy(alloc)?)?;
    }
    Ok(firsts)
}

// The same for the arguments of a head, as many as those of the pattern. The holes of the pattern get numbers behind those of variables and
// operations.
fn unify_arguments(
    alloc: Global,
    pool: &mut TermPool,
    variables: u32,
    args: &[CoreTerm],
    pattern: &[PatternTerm],
) -> Result<Option<List<PatternTerm>>, OutOfMemory>
    requires many { length args.now ≡ length pattern.now }
    requires below { (u : CTerm) → u ∈ args.now → VariablesBelow variables u }
    requires named { Each IsNamedTerm args.now }
    requires formed { Each (IsPatternTerm (length pool.old)) pattern.now }
    ensures found { IfOk result (λ found. ArgumentsUnified pool.new variables args.now pattern.now found) }
    ensures grows { Grows pool.old pool.new }
    ensures kept { KeepsValues pool.old pool.new }
    ensures pool { IsPool pool.new }
{
    // With the length comes what the pool promises of itself.
    let _ = pool.len();
    let mut next = variables;
    let left = opened_all(alloc, pool, args, &mut next)?;
    let Some(holes) = above_all(pattern) else {
        return Err(OutOfMemory);
    };
    let Some(many) = next.checked_add(holes) else {
        return Err(OutOfMemory);
    };
    let mut todo = equations(alloc, left.as_slice(), pattern, next)?;
    let mut terms = own_terms(alloc, many)?;
    if !solve(alloc, pool, &mut terms, &mut todo)? {
        return Ok(None);
    }
    Ok(Some(first_of(alloc, &terms, variables)?))
}

// The same for a head with so many variables.
fn unify_head(
    alloc: Global,
    pool: &mut TermPool,
    variables: u32,
    head: &CoreAtom,
    pattern: &Pattern,
) -> Result<Option<List<PatternTerm>>, OutOfMemory>
    requires below { (u : CTerm) → u ∈ head.now.args → VariablesBelow variables u }
    requires named { Each IsNamedTerm head.now.args }
    requires formed { Each (IsPatternTerm (length pool.old)) pattern.now.args }
    ensures found { IfOk result (λ found. HeadUnified pool.new variables head.now pattern.now found) }
    ensures grows { Grows pool.old pool.new }
    ensures kept { KeepsValues pool.old pool.new }
    ensures pool { IsPool pool.new }
{
    // With the length comes what the pool promises of itself.
    let _ = pool.len();
    if head.pred != pattern.pred {
        return Ok(None);
    }
    if head.args.len() != pattern.args.len() {
        return Ok(None);
    }
    let args = head.args.as_slice();
    unify_arguments(alloc, pool, variables, args, pattern.args.as_slice())
}

/// For each variable of a rule, in order, its term under the most general unifier of the rule's head and a pattern; what is left of variables and
/// holes are holes, whatever their numbers. An arithmetic term in the head unifies with everything. Exceptions of the pattern are not looked at.
///
/// None comes only where the pattern's arguments cover no instance of the head; where the head has no arithmetic, exactly there.
///
/// The pool may have new terms after any answer, also after an error. It costs a copy of head and pattern, and what `solve` costs: where each
/// variable and hole stands once, the square of their number, and at worst exponentially much, since terms are trees here. Want of memory is
/// also answered where the pool takes no more terms, and where a hole has no number of 32 bits.
pub fn unify(
    alloc: Global,
    pool: &mut TermPool,
    rule: &CoreRule,
    pattern: &Pattern,
) -> Result<Option<List<PatternTerm>>, OutOfMemory>
    requires head { is_some rule.now.head ≡ true }
    requires below { (v : ℕ) → v ∈ head_variables rule.now.head → v < rule.now.variables }
    requires named { IsNamedHead rule.now.head }
    requires formed { Each (IsPatternTerm (length pool.old)) pattern.now.args }
    ensures some { IfOk result (λ found. IfSome found (λ terms. (head : Head) → rule.now.head ≡ Some head → IsMostGeneral pool.new rule.now.variables head pattern.now terms)) }
    ensures many { IfOk result (λ found. IfSome found (λ terms. length terms ≡ rule.now.variables)) }
    ensures formed { IfOk result (λ found. IfSome found (λ terms. Each (IsPatternTerm (length pool.new)) terms)) }
    ensures none { IfOk result (λ found. IfNone found ((head : Head) → rule.now.head ≡ Some head → NoneUnifies pool.new rule.now.variables head pattern.now)) }
    ensures uncovered { IfOk result (λ found. IfNone found ((head : Head) → rule.now.head ≡ Some head → NoneCovered pool.new rule.now.variables head pattern.now)) }
    ensures covered { IfOk result (λ found. IfSome found (λ _. (head : Head) → rule.now.head ≡ Some head → HasNoArithmetic head → SomeCovered pool.new rule.now.variables head pattern.now)) }
    ensures grows { Grows pool.old pool.new }
    ensures kept { KeepsValues pool.old pool.new }
    ensures pool { IsPool pool.new }
{
    match &rule.head {
        None => unreachable!(),
        Some(head) => unify_head(alloc, pool, rule.variables, head, pattern),
    }
}
