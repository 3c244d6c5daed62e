use crate::{SafetyFault, check};
use alpha_outside::{ArithOp, Boxed, List, Name, OutOfMemory};
use asp_syntax::{
    AggKind, Aggregate, Atom, CompareOp, Element, Guard, Head, Item, Literal, Program, Statement,
    Term,
};
use std::alloc::Global;
use std::test::Fail;

fn name(alloc: Global, text: &[u8]) -> Result<Name, OutOfMemory> {
    Name::from_bytes(alloc, text)
}

fn variable(alloc: Global, text: &[u8]) -> Result<Term, OutOfMemory> {
    Ok(Term::Variable(name(alloc, text)?))
}

fn terms(alloc: Global, first: Term) -> Result<List<Term>, OutOfMemory> {
    let mut list = List::new(alloc);
    list.push(first)?;
    Ok(list)
}

fn atom(alloc: Global, text: &[u8], arg: Term) -> Result<Atom, OutOfMemory> {
    Ok(Atom {
        negated: false,
        name: name(alloc, text)?,
        args: terms(alloc, arg)?,
    })
}

fn holds(alloc: Global, arg: Term) -> Result<Literal, OutOfMemory> {
    Ok(Literal::Positive(atom(alloc, b"q", arg)?))
}

fn equal(left: Term, right: Term) -> Literal {
    Literal::Compare(CompareOp::Equal, left, right)
}

fn plus_one(alloc: Global, term: Term) -> Result<Term, OutOfMemory> {
    Ok(Term::Arith(
        ArithOp::Add,
        Boxed::new(alloc, term)?,
        Boxed::new(alloc, Term::Int(1))?,
    ))
}

fn body(alloc: Global, first: Literal) -> Result<List<Item>, OutOfMemory> {
    let mut list = List::new(alloc);
    list.push(Item::Plain(first))?;
    Ok(list)
}

fn two(alloc: Global, first: Literal, second: Literal) -> Result<List<Item>, OutOfMemory> {
    let mut list = body(alloc, first)?;
    list.push(Item::Plain(second))?;
    Ok(list)
}

// `X = #sum{ t : condition }`
fn sum(alloc: Global, number: &[u8], term: Term, condition: Literal) -> Result<Item, OutOfMemory> {
    let mut literals = List::new(alloc);
    literals.push(condition)?;
    let mut elements = List::new(alloc);
    elements.push(Element {
        terms: terms(alloc, term)?,
        condition: literals,
    })?;
    let guard = Guard {
        op: CompareOp::Equal,
        term: variable(alloc, number)?,
    };
    Ok(Item::Aggregate {
        denied: false,
        aggregate: Aggregate {
            kind: AggKind::Sum,
            elements,
            left: Some(guard),
            right: None,
        },
    })
}

fn only(alloc: Global, item: Item) -> Result<List<Item>, OutOfMemory> {
    let mut list = List::new(alloc);
    list.push(item)?;
    Ok(list)
}

// Whether the first variable that isn't bound in the statement `p(X) :- body.` has this name; an empty one says that it is safe.
fn finds(alloc: Global, body: List<Item>, wanted: &[u8]) -> Result<bool, OutOfMemory> {
    let head = Head::Single(atom(alloc, b"p", variable(alloc, b"X")?)?);
    let mut statements = List::new(alloc);
    statements.push(Statement {
        line: 1,
        head,
        body,
    })?;
    match check(alloc, Program { statements }) {
        Ok(_) => Ok(wanted.is_empty()),
        Err(SafetyFault::Unsafe { line, variable }) => {
            Ok(line == 1 && variable.as_bytes() == wanted)
        }
        Err(SafetyFault::AggregateRecursive { line: _, name: _ }) => Ok(false),
        Err(SafetyFault::OutOfMemory) => Err(OutOfMemory),
    }
}

// `not q(X)` binds nothing.
fn denied(alloc: Global) -> Result<bool, OutOfMemory> {
    let literal = Literal::Negative(atom(alloc, b"q", variable(alloc, b"X")?)?);
    finds(alloc, body(alloc, literal)?, b"X")
}

// `q(X + 1)` binds nothing.
fn in_arithmetic(alloc: Global) -> Result<bool, OutOfMemory> {
    let sum = plus_one(alloc, variable(alloc, b"X")?)?;
    finds(alloc, body(alloc, holds(alloc, sum)?)?, b"X")
}

// `X = Y, Y = 3` binds both.
fn chained(alloc: Global) -> Result<bool, OutOfMemory> {
    let first = equal(variable(alloc, b"X")?, variable(alloc, b"Y")?);
    let second = equal(variable(alloc, b"Y")?, Term::Int(3));
    finds(alloc, two(alloc, first, second)?, b"")
}

// `X = #sum{ W : q(W) }` binds X, and its condition the local W.
fn by_number(alloc: Global) -> Result<bool, OutOfMemory> {
    let condition = holds(alloc, variable(alloc, b"W")?)?;
    let item = sum(alloc, b"X", variable(alloc, b"W")?, condition)?;
    finds(alloc, only(alloc, item)?, b"")
}

// In `X = #sum{ V : q(W) }` nothing binds the local V.
fn loose(alloc: Global) -> Result<bool, OutOfMemory> {
    let condition = holds(alloc, variable(alloc, b"W")?)?;
    let item = sum(alloc, b"X", variable(alloc, b"V")?, condition)?;
    finds(alloc, only(alloc, item)?, b"V")
}

// In `X = #sum{ Z : q(Z) }, q(Z)` the later literal binds the global Z.
fn bound_later(alloc: Global) -> Result<bool, OutOfMemory> {
    let condition = holds(alloc, variable(alloc, b"Z")?)?;
    let item = sum(alloc, b"X", variable(alloc, b"Z")?, condition)?;
    let mut items = only(alloc, item)?;
    items.push(Item::Plain(holds(alloc, variable(alloc, b"Z")?)?))?;
    finds(alloc, items, b"")
}

// In `_ < 1, q(X)` the first variable isn't bound.
fn nameless(alloc: Global) -> Result<bool, OutOfMemory> {
    let less = Literal::Compare(CompareOp::Less, Term::Anonymous(0), Term::Int(1));
    let items = two(alloc, less, holds(alloc, variable(alloc, b"X")?)?)?;
    finds(alloc, items, b"_")
}

#[test]
fn rows_of_safety(rt: HostRuntime) -> Result<(), Fail> {
    assert!(rt; denied(rt.alloc())?);
    assert!(rt; in_arithmetic(rt.alloc())?);
    assert!(rt; chained(rt.alloc())?);
    assert!(rt; by_number(rt.alloc())?);
    assert!(rt; loose(rt.alloc())?);
    assert!(rt; bound_later(rt.alloc())?);
    assert!(rt; nameless(rt.alloc())?);
    Ok(())
}
