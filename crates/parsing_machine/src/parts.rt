//! The trees of terms and the small things of which states are made.

ghost use Rattle.std.specs.Prelude.{Some, ◌≡◌, ◌<◌, ◌≤◌, [], ◌∷◌, ◌++◌, IfOk};
ghost use Rattle.asp_syntax.specs.WellFormed.{largest};
ghost use Rattle.asp_grammar.specs.Machine.{join, minuses, numbered, call_term, signed, guard_of};

use alpha_outside::{Boxed, List, Name, OutOfMemory};
use asp_grammar::Pending;
use asp_syntax::{CompareOp, Guard, Term};
use std::alloc::Global;

/// A copy of the name.
pub fn copied(alloc: Global, name: &Name) -> Result<Name, OutOfMemory>
    ensures { IfOk result (λ n. n ≡ name.now) }
{
    Name::from_bytes(alloc, name.as_bytes())
}

/// The value in a box.
pub fn boxed<T: Drop>(alloc: Global, value: T) -> Result<Boxed<T>, OutOfMemory>
    ensures { IfOk result (λ b. b ≡ value) }
{
    Ok(Boxed::new(alloc, value)?)
}

/// The list with the item at its end.
pub fn with_last<T: Drop>(list: List<T>, item: T) -> Result<List<T>, OutOfMemory>
    ensures { IfOk result (λ l. l ≡ list ++ item ∷ []) }
{
    let mut list = list;
    list.push(item)?;
    Ok(list)
}

/// The bound out of its box.
pub fn unboxed(guard: Option<Boxed<Guard>>) -> Option<Guard>
    ensures { result ≡ guard }
{
    match guard {
        None => None,
        Some(guard) => Some(guard.into_inner()),
    }
}

/// A bound in a box.
pub fn guard_boxed(
    alloc: Global,
    op: CompareOp,
    term: Boxed<Term>,
) -> Result<Option<Boxed<Guard>>, OutOfMemory>
    ensures { IfOk result (λ g. g ≡ Some (guard_of op term)) }
{
    let guard = boxed(
        alloc,
        Guard {
            op,
            term: term.into_inner(),
        },
    )?;
    Ok(Some(guard))
}

/// The operand at the right of what waits for it.
pub fn joined(
    alloc: Global,
    waiting: Pending,
    term: Boxed<Term>,
) -> Result<Boxed<Term>, OutOfMemory>
    ensures { IfOk result (λ t. t ≡ join waiting term) }
{
    match waiting {
        Pending::Nothing => Ok(term),
        Pending::Waiting(op, first) => boxed(alloc, Term::Arith(op, first, term)),
    }
}

/// The term under so many minus signs.
pub fn with_minuses(
    alloc: Global,
    signs: u32,
    term: Boxed<Term>,
) -> Result<Boxed<Term>, OutOfMemory>
    ensures { IfOk result (λ t. t ≡ minuses signs term) }
{
    let mut term = term;
    for _i in 0..signs {
        term = boxed(alloc, Term::Minus(term))?;
    }
    Ok(term)
}

/// The term, under a minus sign where it is `negated`.
pub fn with_sign(
    alloc: Global,
    negated: bool,
    term: Boxed<Term>,
) -> Result<Boxed<Term>, OutOfMemory>
    ensures { IfOk result (λ t. t ≡ signed negated term) }
{
    if negated {
        boxed(alloc, Term::Minus(term))
    } else {
        Ok(term)
    }
}

/// The name with its arguments, as a term: without arguments it is a symbol.
pub fn called(name: Name, arguments: List<Term>) -> Term
    ensures { result ≡ call_term name arguments }
{
    if arguments.is_empty() {
        Term::Symbol(name)
    } else {
        Term::Fun(name, arguments)
    }
}

/// A number under so many minus signs: the last of them belongs to the integer.
pub fn number_term(alloc: Global, signs: u32, value: u64) -> Result<Boxed<Term>, OutOfMemory>
    requires most { value ≤ largest }
    requires fits { signs ≡ 0 → value < largest }
    ensures { IfOk result (λ t. t ≡ numbered signs value) }
{
    if signs == 0 {
        boxed(alloc, Term::Int(value as i64))
    } else if value < 9223372036854775808 {
        let term = boxed(alloc, Term::Int(-(value as i64)))?;
        with_minuses(alloc, signs - 1, term)
    } else {
        let term = boxed(alloc, Term::Int(i64::MIN))?;
        with_minuses(alloc, signs - 1, term)
    }
}
