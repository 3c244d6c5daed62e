use crate::{SafetyFault, check};
use alpha_outside::{List, Name, OutOfMemory};
use asp_syntax::{
    AggKind, Aggregate, Atom, ChoiceElement, CompareOp, Element, Guard, Head, Item, Literal,
    Program, Statement, Term,
};
use std::alloc::Global;
use std::test::Fail;

// `name`, or `-name`
fn atom(alloc: Global, negated: bool, name: &[u8]) -> Result<Atom, OutOfMemory> {
    Ok(Atom {
        negated,
        name: Name::from_bytes(alloc, name)?,
        args: List::new(alloc),
    })
}

// `name(t)`
fn applied(alloc: Global, name: &[u8], term: Term) -> Result<Atom, OutOfMemory> {
    let mut args = List::new(alloc);
    args.push(term)?;
    Ok(Atom {
        negated: false,
        name: Name::from_bytes(alloc, name)?,
        args,
    })
}

fn one<T: Drop>(alloc: Global, item: T) -> Result<List<T>, OutOfMemory> {
    let mut list = List::new(alloc);
    list.push(item)?;
    Ok(list)
}

// `t : atom`
fn element(alloc: Global, term: Term, counted: Atom) -> Result<Element, OutOfMemory> {
    Ok(Element {
        terms: one(alloc, term)?,
        condition: one(alloc, Literal::Positive(counted))?,
    })
}

// `#count{ elements } = 0`
fn count(elements: List<Element>) -> Item {
    let guard = Guard {
        op: CompareOp::Equal,
        term: Term::Int(0),
    };
    Item::Aggregate {
        denied: false,
        aggregate: Aggregate {
            kind: AggKind::Count,
            elements,
            left: None,
            right: Some(guard),
        },
    }
}

// `#count{ 1 : atom } = 0`
fn counted(alloc: Global, atom: Atom) -> Result<Item, OutOfMemory> {
    let element = element(alloc, Term::Int(1), atom)?;
    Ok(count(one(alloc, element)?))
}

// `head :- item.`
fn rule(alloc: Global, line: u32, head: Head, item: Item) -> Result<Statement, OutOfMemory> {
    Ok(Statement {
        line,
        head,
        body: one(alloc, item)?,
    })
}

// `head :- body.`
fn plain(alloc: Global, line: u32, head: &[u8], body: &[u8]) -> Result<Statement, OutOfMemory> {
    let head = Head::Single(atom(alloc, false, head)?);
    let item = Item::Plain(Literal::Positive(atom(alloc, false, body)?));
    rule(alloc, line, head, item)
}

// `head :- #count{ 1 : body } = 0.`
fn counting(alloc: Global, line: u32, head: &[u8], body: &[u8]) -> Result<Statement, OutOfMemory> {
    let head = Head::Single(atom(alloc, false, head)?);
    let item = counted(alloc, atom(alloc, false, body)?)?;
    rule(alloc, line, head, item)
}

// Whether the program is refused for this line and predicate; an empty one says that it is accepted.
fn finds(
    alloc: Global,
    statements: List<Statement>,
    wanted_line: u32,
    wanted: &[u8],
) -> Result<bool, OutOfMemory> {
    match check(alloc, Program { statements }) {
        Ok(_) => Ok(wanted.is_empty()),
        Err(
            SafetyFault::Unsafe {
                line: _,
                variable: _,
            },
        ) => Ok(false),
        Err(SafetyFault::AggregateRecursive { line, name }) => {
            Ok(line == wanted_line && name.as_bytes() == wanted)
        }
        Err(SafetyFault::OutOfMemory) => Err(OutOfMemory),
    }
}

// `p(1) :- #count{X : p(X)} = 0.`
fn own_head(alloc: Global) -> Result<bool, OutOfMemory> {
    let x = Term::Variable(Name::from_bytes(alloc, b"X")?);
    let y = Term::Variable(Name::from_bytes(alloc, b"X")?);
    let element = element(alloc, x, applied(alloc, b"p", y)?)?;
    let head = Head::Single(applied(alloc, b"p", Term::Int(1))?);
    let statement = rule(alloc, 1, head, count(one(alloc, element)?))?;
    finds(alloc, one(alloc, statement)?, 1, b"p")
}

// `p :- #count{1 : q} = 0. q :- r. r :- p.`
fn through_two_others(alloc: Global) -> Result<bool, OutOfMemory> {
    let mut statements = one(alloc, counting(alloc, 1, b"p", b"q")?)?;
    statements.push(plain(alloc, 2, b"q", b"r")?)?;
    statements.push(plain(alloc, 3, b"r", b"p")?)?;
    finds(alloc, statements, 1, b"q")
}

// `{q : p} :- r.`
fn choice(alloc: Global, line: u32) -> Result<Statement, OutOfMemory> {
    let condition = Literal::Positive(atom(alloc, false, b"p")?);
    let element = ChoiceElement {
        atom: atom(alloc, false, b"q")?,
        condition: one(alloc, condition)?,
    };
    let head = Head::Choice {
        left: None,
        elements: one(alloc, element)?,
        right: None,
    };
    let item = Item::Plain(Literal::Positive(atom(alloc, false, b"r")?));
    rule(alloc, line, head, item)
}

// `p :- #count{1 : q} = 0. {q : p} :- r.`
fn through_a_condition(alloc: Global) -> Result<bool, OutOfMemory> {
    let mut statements = one(alloc, counting(alloc, 1, b"p", b"q")?)?;
    statements.push(choice(alloc, 2)?)?;
    finds(alloc, statements, 1, b"q")
}

// `-p :- #count{1 : -p} = 0.`
fn strongly_negated(alloc: Global) -> Result<bool, OutOfMemory> {
    let head = Head::Single(atom(alloc, true, b"p")?);
    let item = counted(alloc, atom(alloc, true, b"p")?)?;
    let statement = rule(alloc, 1, head, item)?;
    finds(alloc, one(alloc, statement)?, 1, b"-p")
}

// In `p :- #count{1 : -p} = 0.` the two predicates differ by their signs.
fn other_sign(alloc: Global) -> Result<bool, OutOfMemory> {
    let head = Head::Single(atom(alloc, false, b"p")?);
    let item = counted(alloc, atom(alloc, true, b"p")?)?;
    let statement = rule(alloc, 1, head, item)?;
    finds(alloc, one(alloc, statement)?, 1, b"")
}

// In `p(1) :- #count{1 : p} = 0.` they differ by their numbers of arguments.
fn other_arity(alloc: Global) -> Result<bool, OutOfMemory> {
    let head = Head::Single(applied(alloc, b"p", Term::Int(1))?);
    let item = counted(alloc, atom(alloc, false, b"p")?)?;
    let statement = rule(alloc, 1, head, item)?;
    finds(alloc, one(alloc, statement)?, 1, b"")
}

// `:- #count{1 : p} = 0. p :- p.`
fn constraint(alloc: Global) -> Result<bool, OutOfMemory> {
    let item = counted(alloc, atom(alloc, false, b"p")?)?;
    let mut statements = one(alloc, rule(alloc, 1, Head::Absent, item)?)?;
    statements.push(plain(alloc, 2, b"p", b"p")?)?;
    finds(alloc, statements, 1, b"")
}

// In `q :- #count{1 : r} = 0.` and, in line 2, `p :- #count{1 : q; 1 : p} = 0.` the second statement's second element is at fault.
fn second_of_second(alloc: Global) -> Result<bool, OutOfMemory> {
    let mut elements = one(
        alloc,
        element(alloc, Term::Int(1), atom(alloc, false, b"q")?)?,
    )?;
    elements.push(element(alloc, Term::Int(1), atom(alloc, false, b"p")?)?)?;
    let head = Head::Single(atom(alloc, false, b"p")?);
    let mut statements = one(alloc, counting(alloc, 1, b"q", b"r")?)?;
    statements.push(rule(alloc, 2, head, count(elements))?)?;
    finds(alloc, statements, 2, b"p")
}

// `p :- #count{1 : q} = 0. q :- #count{1 : r} = 0. s :- p.`
fn three_layers(alloc: Global) -> Result<Program, OutOfMemory> {
    let mut statements = one(alloc, counting(alloc, 1, b"p", b"q")?)?;
    statements.push(counting(alloc, 2, b"q", b"r")?)?;
    statements.push(plain(alloc, 3, b"s", b"p")?)?;
    Ok(Program { statements })
}

// Its strata rise with each aggregate, and what doesn't occur has none.
fn strata_rise(alloc: Global) -> Result<bool, OutOfMemory> {
    match check(alloc, three_layers(alloc)?) {
        Ok(safe) => Ok(
            safe.statements().len() == 3
                && safe.stratum(false, b"r", 0) == Some(0)
                && safe.stratum(false, b"q", 0) == Some(1)
                && safe.stratum(false, b"p", 0) == Some(2)
                && safe.stratum(false, b"s", 0) == Some(2)
                && safe.stratum(true, b"p", 0).is_none()
                && safe.stratum(false, b"p", 1).is_none(),
        ),
        Err(_) => Ok(false),
    }
}

#[test]
fn rows_of_recursion(rt: HostRuntime) -> Result<(), Fail> {
    assert!(rt; own_head(rt.alloc())?);
    assert!(rt; through_two_others(rt.alloc())?);
    assert!(rt; through_a_condition(rt.alloc())?);
    assert!(rt; strongly_negated(rt.alloc())?);
    assert!(rt; other_sign(rt.alloc())?);
    assert!(rt; other_arity(rt.alloc())?);
    assert!(rt; constraint(rt.alloc())?);
    assert!(rt; second_of_second(rt.alloc())?);
    assert!(rt; strata_rise(rt.alloc())?);
    Ok(())
}
