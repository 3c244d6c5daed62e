//! Trees as text, for the tests: every operation in parentheses, and each part of a list followed by its sign.

use alpha_outside::{ArithOp, Name};
use asp_syntax::{
    AggKind, Aggregate, Atom, ChoiceElement, CompareOp, Element, Guard, Head, Item, Literal,
    Program, Statement, Term,
};
use std::alloc::Global;
use std::test::Fail;

fn put(into: &mut String, piece: &str) -> Result<(), Fail> {
    into.push_str(piece)?;
    Ok(())
}

fn put_name(into: &mut String, name: &Name) -> Result<(), Fail> {
    put(
        into,
        std::str::from_utf8(name.as_bytes()).unwrap_or("no text"),
    )
}

fn put_integer(alloc: Global, into: &mut String, number: i64) -> Result<(), Fail> {
    let text = format!(in alloc; "{number}")?;
    put(into, text.as_str())
}

fn put_number(alloc: Global, into: &mut String, sign: &str, number: u32) -> Result<(), Fail> {
    let text = format!(in alloc; "{sign}{number}")?;
    put(into, text.as_str())
}

fn arith_sign(op: ArithOp) -> &'static str {
    match op {
        ArithOp::Add => "+",
        ArithOp::Sub => "-",
        ArithOp::Mul => "*",
        ArithOp::Div => "/",
    }
}

fn compare_sign(op: CompareOp) -> &'static str {
    match op {
        CompareOp::Equal => "=",
        CompareOp::NotEqual => "!=",
        CompareOp::Less => "<",
        CompareOp::LessEqual => "<=",
        CompareOp::Greater => ">",
        CompareOp::GreaterEqual => ">=",
    }
}

fn kind_sign(kind: AggKind) -> &'static str {
    match kind {
        AggKind::Count => "#count",
        AggKind::Sum => "#sum",
    }
}

// A name between quotes, and other leaves; the rest is for `put_term`.
fn put_text(into: &mut String, inside: &Name) -> Result<(), Fail> {
    put(into, "\"")?;
    put_name(into, inside)?;
    put(into, "\"")
}

fn put_term(alloc: Global, into: &mut String, term: &Term) -> Result<(), Fail> {
    match term {
        Term::Int(number) => put_integer(alloc, into, *number),
        Term::Variable(name) => put_name(into, name),
        Term::Anonymous(number) => put_number(alloc, into, "_", *number),
        Term::Symbol(name) => put_name(into, name),
        Term::Text(inside) => put_text(into, inside),
        Term::Fun(name, args) => {
            put_name(into, name)?;
            put(into, "(")?;
            for arg in args.as_slice() {
                put_term(alloc, into, arg)?;
                put(into, ",")?;
            }
            put(into, ")")
        }
        Term::Minus(inner) => {
            put(into, "(-")?;
            put_term(alloc, into, inner.get())?;
            put(into, ")")
        }
        Term::Arith(op, left, right) => {
            put(into, "(")?;
            put_term(alloc, into, left.get())?;
            put(into, arith_sign(*op))?;
            put_term(alloc, into, right.get())?;
            put(into, ")")
        }
    }
}

fn put_terms(alloc: Global, into: &mut String, terms: &[Term]) -> Result<(), Fail> {
    for term in terms {
        put_term(alloc, into, term)?;
        put(into, ",")?;
    }
    Ok(())
}

fn put_atom(alloc: Global, into: &mut String, atom: &Atom) -> Result<(), Fail> {
    if atom.negated {
        put(into, "-")?;
    }
    put_name(into, &atom.name)?;
    put(into, "(")?;
    put_terms(alloc, into, atom.args.as_slice())?;
    put(into, ")")
}

fn put_literal(alloc: Global, into: &mut String, literal: &Literal) -> Result<(), Fail> {
    match literal {
        Literal::Positive(atom) => put_atom(alloc, into, atom),
        Literal::Negative(atom) => {
            put(into, "not ")?;
            put_atom(alloc, into, atom)
        }
        Literal::Compare(op, left, right) => {
            put_term(alloc, into, left)?;
            put(into, compare_sign(*op))?;
            put_term(alloc, into, right)
        }
    }
}

fn put_condition(alloc: Global, into: &mut String, condition: &[Literal]) -> Result<(), Fail> {
    put(into, ":")?;
    for literal in condition {
        put_literal(alloc, into, literal)?;
        put(into, ",")?;
    }
    put(into, ";")
}

fn put_left(alloc: Global, into: &mut String, bound: &Option<Guard>) -> Result<(), Fail> {
    match bound {
        None => Ok(()),
        Some(guard) => {
            put_term(alloc, into, &guard.term)?;
            put(into, compare_sign(guard.op))
        }
    }
}

fn put_right(alloc: Global, into: &mut String, bound: &Option<Guard>) -> Result<(), Fail> {
    match bound {
        None => Ok(()),
        Some(guard) => {
            put(into, compare_sign(guard.op))?;
            put_term(alloc, into, &guard.term)
        }
    }
}

fn put_element(alloc: Global, into: &mut String, element: &Element) -> Result<(), Fail> {
    put_terms(alloc, into, element.terms.as_slice())?;
    put_condition(alloc, into, element.condition.as_slice())
}

fn put_aggregate(alloc: Global, into: &mut String, aggregate: &Aggregate) -> Result<(), Fail> {
    put_left(alloc, into, &aggregate.left)?;
    put(into, kind_sign(aggregate.kind))?;
    put(into, "{")?;
    for element in aggregate.elements.as_slice() {
        put_element(alloc, into, element)?;
    }
    put(into, "}")?;
    put_right(alloc, into, &aggregate.right)
}

fn put_item(alloc: Global, into: &mut String, item: &Item) -> Result<(), Fail> {
    match item {
        Item::Plain(literal) => put_literal(alloc, into, literal),
        Item::Aggregate { denied, aggregate } => {
            if *denied {
                put(into, "not ")?;
            }
            put_aggregate(alloc, into, aggregate)
        }
    }
}

fn put_chosen(alloc: Global, into: &mut String, element: &ChoiceElement) -> Result<(), Fail> {
    put_atom(alloc, into, &element.atom)?;
    put_condition(alloc, into, element.condition.as_slice())
}

fn put_head(alloc: Global, into: &mut String, head: &Head) -> Result<(), Fail> {
    match head {
        Head::Absent => Ok(()),
        Head::Single(atom) => put_atom(alloc, into, atom),
        Head::Choice {
            left,
            elements,
            right,
        } => {
            put_left(alloc, into, left)?;
            put(into, "{")?;
            for element in elements.as_slice() {
                put_chosen(alloc, into, element)?;
            }
            put(into, "}")?;
            put_right(alloc, into, right)
        }
    }
}

// A statement after its line, as `1 a():-b(),.`
fn put_statement(alloc: Global, into: &mut String, statement: &Statement) -> Result<(), Fail> {
    put_number(alloc, into, "", statement.line)?;
    put(into, " ")?;
    put_head(alloc, into, &statement.head)?;
    put(into, ":-")?;
    for item in statement.body.as_slice() {
        put_item(alloc, into, item)?;
        put(into, ",")?;
    }
    put(into, ".")
}

/// The statements of the program, one after another.
pub fn shown(alloc: Global, program: &Program) -> Result<String, Fail> {
    let mut text = String::new(alloc);
    for statement in program.statements.as_slice() {
        put_statement(alloc, &mut text, statement)?;
    }
    Ok(text)
}
