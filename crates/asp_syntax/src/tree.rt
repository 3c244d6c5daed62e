use alpha_outside::{ArithOp, Boxed, List, Name};

/// A comparison. `<>` is read as `NotEqual`.
#[derive(Clone, Copy, Debug, PartialEq, Eq)]
pub enum CompareOp {
    Equal,
    NotEqual,
    Less,
    LessEqual,
    Greater,
    GreaterEqual,
}

/// A term, with variables and arithmetic.
#[derive(Debug, Drop)]
pub enum Term {
    Int(i64),
    Variable(Name),
    /// `_`, with the number of such signs before it in the text: each is a variable of its own.
    Anonymous(u32),
    Symbol(Name),
    /// A string: the bytes between its quotes.
    Text(Name),
    /// A functional term. It has at least one argument: `f()` is read as the symbol `f`.
    Fun(Name, List<Term>),
    Minus(Boxed<Term>),
    Arith(ArithOp, Boxed<Term>, Boxed<Term>),
}

/// A classical literal: an atom, or its strong negation where `negated`.
#[derive(Debug, Drop)]
pub struct Atom {
    pub negated: bool,
    pub name: Name,
    pub args: List<Term>,
}

/// A literal of a body or a condition.
#[derive(Debug, Drop)]
pub enum Literal {
    Positive(Atom),
    /// The atom under `not`.
    Negative(Atom),
    Compare(CompareOp, Term, Term),
}

/// An element of an aggregate: a tuple, and the condition under which it counts.
#[derive(Debug, Drop)]
pub struct Element {
    pub terms: List<Term>,
    pub condition: List<Literal>,
}

/// A bound of an aggregate or a choice. One on the left stands as it is written: the term, the comparison, the aggregate.
#[derive(Debug, Drop)]
pub struct Guard {
    pub op: CompareOp,
    pub term: Term,
}

#[derive(Clone, Copy, Debug, PartialEq, Eq)]
pub enum AggKind {
    Count,
    Sum,
}

/// `#count` or `#sum` over its elements, with at least one guard.
#[derive(Debug, Drop)]
pub struct Aggregate {
    pub kind: AggKind,
    pub elements: List<Element>,
    pub left: Option<Guard>,
    pub right: Option<Guard>,
}

/// An item of a body: a literal, or an aggregate, before which `not` stands where it is `denied`.
#[derive(Debug)]
pub enum Item {
    Plain(Literal),
    Aggregate { denied: bool, aggregate: Aggregate },
}

impl Drop for Item {
    fn drop(self) {
        match self {
            Item::Plain(_) => {}
            Item::Aggregate {
                denied: _,
                aggregate: _,
            } => {}
        }
    }
}

/// An atom that may be chosen, and the condition under which it may.
#[derive(Debug, Drop)]
pub struct ChoiceElement {
    pub atom: Atom,
    pub condition: List<Literal>,
}

/// The head of a statement. A constraint has none.
#[derive(Debug)]
pub enum Head {
    Absent,
    Single(Atom),
    Choice {
        left: Option<Guard>,
        elements: List<ChoiceElement>,
        right: Option<Guard>,
    },
}

impl Drop for Head {
    fn drop(self) {
        match self {
            Head::Absent => {}
            Head::Single(_) => {}
            Head::Choice {
                left: _,
                elements: _,
                right: _,
            } => {}
        }
    }
}

/// A fact, a rule or a constraint. The line is that of its first token, counted from 1.
#[derive(Debug, Drop)]
pub struct Statement {
    pub line: u32,
    pub head: Head,
    pub body: List<Item>,
}

/// A program, in the order of its text.
#[derive(Debug, Drop)]
pub struct Program {
    pub statements: List<Statement>,
}
