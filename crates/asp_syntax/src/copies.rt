//! Copies of tokens and trees. Each equals what it is a copy of; a list is copied item by item.

ghost use Rattle.std.specs.Prelude.{◌≡◌, IfOk};

use crate::{
    Aggregate, Atom, ChoiceElement, Element, Guard, Head, Item, Literal, Program, Spanned,
    Statement, Term, Token,
};
use alpha_outside::{Boxed, List, Name, OutOfMemory};
use std::alloc::Global;

fn copy_name(alloc: Global, name: &Name) -> Result<Name, OutOfMemory>
    ensures { IfOk result (λ copy. copy ≡ name.now) }
{
    Name::from_bytes(alloc, name.as_bytes())
}

impl Term {
    /// A copy. It recurses as deep as the term is nested.
    pub fn copy(&self, alloc: Global) -> Result<Term, OutOfMemory>
        ensures { IfOk result (λ copy. copy ≡ self.now) }
    {
        match self {
            Term::Int(number) => Ok(Term::Int(*number)),
            Term::Variable(name) => Ok(Term::Variable(copy_name(alloc, name)?)),
            Term::Anonymous(number) => Ok(Term::Anonymous(*number)),
            Term::Symbol(name) => Ok(Term::Symbol(copy_name(alloc, name)?)),
            Term::Text(inside) => Ok(Term::Text(copy_name(alloc, inside)?)),
            Term::Fun(name, args) => {
                let mut copies = List::new(alloc);
                for arg in args.as_slice() {
                    copies.push(arg.copy(alloc)?)?;
                }
                Ok(Term::Fun(copy_name(alloc, name)?, copies))
            }
            Term::Minus(inner) => {
                let inner = inner.get().copy(alloc)?;
                Ok(Term::Minus(Boxed::new(alloc, inner)?))
            }
            Term::Arith(op, left, right) => {
                let left = Boxed::new(alloc, left.get().copy(alloc)?)?;
                let right = Boxed::new(alloc, right.get().copy(alloc)?)?;
                Ok(Term::Arith(*op, left, right))
            }
        }
    }
}

fn copy_terms(alloc: Global, terms: &[Term]) -> Result<List<Term>, OutOfMemory>
    ensures { IfOk result (λ copies. copies ≡ terms.now) }
{
    let mut copies = List::new(alloc);
    for term in terms {
        copies.push(term.copy(alloc)?)?;
    }
    Ok(copies)
}

impl Atom {
    /// A copy.
    pub fn copy(&self, alloc: Global) -> Result<Atom, OutOfMemory>
        ensures { IfOk result (λ copy. copy ≡ self.now) }
    {
        let name = copy_name(alloc, &self.name)?;
        let args = copy_terms(alloc, self.args.as_slice())?;
        Ok(Atom {
            negated: self.negated,
            name,
            args,
        })
    }
}

impl Literal {
    /// A copy.
    pub fn copy(&self, alloc: Global) -> Result<Literal, OutOfMemory>
        ensures { IfOk result (λ copy. copy ≡ self.now) }
    {
        match self {
            Literal::Positive(atom) => Ok(Literal::Positive(atom.copy(alloc)?)),
            Literal::Negative(atom) => Ok(Literal::Negative(atom.copy(alloc)?)),
            Literal::Compare(op, left, right) => {
                let left = left.copy(alloc)?;
                let right = right.copy(alloc)?;
                Ok(Literal::Compare(*op, left, right))
            }
        }
    }
}

fn copy_literals(alloc: Global, literals: &[Literal]) -> Result<List<Literal>, OutOfMemory>
    ensures { IfOk result (λ copies. copies ≡ literals.now) }
{
    let mut copies = List::new(alloc);
    for literal in literals {
        copies.push(literal.copy(alloc)?)?;
    }
    Ok(copies)
}

impl Element {
    /// A copy.
    pub fn copy(&self, alloc: Global) -> Result<Element, OutOfMemory>
        ensures { IfOk result (λ copy. copy ≡ self.now) }
    {
        let terms = copy_terms(alloc, self.terms.as_slice())?;
        let condition = copy_literals(alloc, self.condition.as_slice())?;
        Ok(Element { terms, condition })
    }
}

fn copy_elements(alloc: Global, elements: &[Element]) -> Result<List<Element>, OutOfMemory>
    ensures { IfOk result (λ copies. copies ≡ elements.now) }
{
    let mut copies = List::new(alloc);
    for element in elements {
        copies.push(element.copy(alloc)?)?;
    }
    Ok(copies)
}

impl Guard {
    /// A copy.
    pub fn copy(&self, alloc: Global) -> Result<Guard, OutOfMemory>
        ensures { IfOk result (λ copy. copy ≡ self.now) }
    {
        let term = self.term.copy(alloc)?;
        Ok(Guard { op: self.op, term })
    }
}

fn copy_guard(alloc: Global, guard: &Option<Guard>) -> Result<Option<Guard>, OutOfMemory>
    ensures { IfOk result (λ copy. copy ≡ guard.now) }
{
    match guard {
        None => Ok(None),
        Some(guard) => Ok(Some(guard.copy(alloc)?)),
    }
}

impl Aggregate {
    /// A copy.
    pub fn copy(&self, alloc: Global) -> Result<Aggregate, OutOfMemory>
        ensures { IfOk result (λ copy. copy ≡ self.now) }
    {
        let elements = copy_elements(alloc, self.elements.as_slice())?;
        let left = copy_guard(alloc, &self.left)?;
        let right = copy_guard(alloc, &self.right)?;
        Ok(Aggregate {
            kind: self.kind,
            elements,
            left,
            right,
        })
    }
}

impl Item {
    /// A copy.
    pub fn copy(&self, alloc: Global) -> Result<Item, OutOfMemory>
        ensures { IfOk result (λ copy. copy ≡ self.now) }
    {
        match self {
            Item::Plain(literal) => Ok(Item::Plain(literal.copy(alloc)?)),
            Item::Aggregate { denied, aggregate } => Ok(Item::Aggregate {
                denied: *denied,
                aggregate: aggregate.copy(alloc)?,
            }),
        }
    }
}

fn copy_items(alloc: Global, items: &[Item]) -> Result<List<Item>, OutOfMemory>
    ensures { IfOk result (λ copies. copies ≡ items.now) }
{
    let mut copies = List::new(alloc);
    for item in items {
        copies.push(item.copy(alloc)?)?;
    }
    Ok(copies)
}

impl ChoiceElement {
    /// A copy.
    pub fn copy(&self, alloc: Global) -> Result<ChoiceElement, OutOfMemory>
        ensures { IfOk result (λ copy. copy ≡ self.now) }
    {
        let atom = self.atom.copy(alloc)?;
        let condition = copy_literals(alloc, self.condition.as_slice())?;
        Ok(ChoiceElement { atom, condition })
    }
}

fn copy_choices(
    alloc: Global,
    elements: &[ChoiceElement],
) -> Result<List<ChoiceElement>, OutOfMemory>
    ensures { IfOk result (λ copies. copies ≡ elements.now) }
{
    let mut copies = List::new(alloc);
    for element in elements {
        copies.push(element.copy(alloc)?)?;
    }
    Ok(copies)
}

impl Head {
    /// A copy.
    pub fn copy(&self, alloc: Global) -> Result<Head, OutOfMemory>
        ensures { IfOk result (λ copy. copy ≡ self.now) }
    {
        match self {
            Head::Absent => Ok(Head::Absent),
            Head::Single(atom) => Ok(Head::Single(atom.copy(alloc)?)),
            Head::Choice {
                left,
                elements,
                right,
            } => {
                let left = copy_guard(alloc, left)?;
                let elements = copy_choices(alloc, elements.as_slice())?;
                let right = copy_guard(alloc, right)?;
                Ok(Head::Choice {
                    left,
                    elements,
                    right,
                })
            }
        }
    }
}

impl Statement {
    /// A copy.
    pub fn copy(&self, alloc: Global) -> Result<Statement, OutOfMemory>
        ensures { IfOk result (λ copy. copy ≡ self.now) }
    {
        let head = self.head.copy(alloc)?;
        let body = copy_items(alloc, self.body.as_slice())?;
        Ok(Statement {
            line: self.line,
            head,
            body,
        })
    }
}

fn copy_statements(alloc: Global, statements: &[Statement]) -> Result<List<Statement>, OutOfMemory>
    ensures { IfOk result (λ copies. copies ≡ statements.now) }
{
    let mut copies = List::new(alloc);
    for statement in statements {
        copies.push(statement.copy(alloc)?)?;
    }
    Ok(copies)
}

impl Program {
    /// A copy.
    pub fn copy(&self, alloc: Global) -> Result<Program, OutOfMemory>
        ensures { IfOk result (λ copy. copy ≡ self.now) }
    {
        let statements = copy_statements(alloc, self.statements.as_slice())?;
        Ok(Program { statements })
    }
}

impl Token {
    /// A copy.
    pub fn copy(&self, alloc: Global) -> Result<Token, OutOfMemory>
        ensures { IfOk result (λ copy. copy ≡ self.now) }
    {
        match self {
            Token::Id(name) => Ok(Token::Id(copy_name(alloc, name)?)),
            Token::Variable(name) => Ok(Token::Variable(copy_name(alloc, name)?)),
            Token::Text(inside) => Ok(Token::Text(copy_name(alloc, inside)?)),
            Token::Number(number) => Ok(Token::Number(*number)),
            Token::Compare(op) => Ok(Token::Compare(*op)),
            Token::Not => Ok(Token::Not),
            Token::Anonymous => Ok(Token::Anonymous),
            Token::Dot => Ok(Token::Dot),
            Token::Comma => Ok(Token::Comma),
            Token::Colon => Ok(Token::Colon),
            Token::Semicolon => Ok(Token::Semicolon),
            Token::Open => Ok(Token::Open),
            Token::Close => Ok(Token::Close),
            Token::OpenBrace => Ok(Token::OpenBrace),
            Token::CloseBrace => Ok(Token::CloseBrace),
            Token::If => Ok(Token::If),
            Token::Plus => Ok(Token::Plus),
            Token::Minus => Ok(Token::Minus),
            Token::Star => Ok(Token::Star),
            Token::Slash => Ok(Token::Slash),
            Token::Count => Ok(Token::Count),
            Token::Sum => Ok(Token::Sum),
            Token::Bar => Ok(Token::Bar),
            Token::DotDot => Ok(Token::DotDot),
            Token::Backslash => Ok(Token::Backslash),
            Token::WeakIf => Ok(Token::WeakIf),
            Token::Question => Ok(Token::Question),
            Token::MinMax => Ok(Token::MinMax),
            Token::Directive => Ok(Token::Directive),
            Token::At => Ok(Token::At),
            Token::OpenBracket => Ok(Token::OpenBracket),
            Token::CloseBracket => Ok(Token::CloseBracket),
            Token::Ampersand => Ok(Token::Ampersand),
        }
    }
}

impl Spanned {
    /// A copy.
    pub fn copy(&self, alloc: Global) -> Result<Spanned, OutOfMemory>
        ensures { IfOk result (λ copy. copy ≡ self.now) }
    {
        let token = self.token.copy(alloc)?;
        Ok(Spanned {
            token,
            at: self.at,
            line: self.line,
        })
    }
}
