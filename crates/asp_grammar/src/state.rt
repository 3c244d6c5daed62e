//! Where a reader of tokens stands: in a statement (`State`), and in a program (`Progress`).
//!
//! The machine of `specs/Machine.antt` goes from state to state, one token at a time. What is still open in a statement stands
//! in the state itself: the open parentheses of a term as a stack of frames, everything outside that term as its purpose. So
//! nothing is read by recursion.

use crate::Stack;
use alpha_outside::{ArithOp, Boxed, List, Name};
use asp_syntax::{
    AggKind, Atom, ChoiceElement, CompareOp, Element, Guard, Head, Item, Literal, Statement, Term,
};

/// What waits for an operand at its right: nothing, or an operation with its left side.
#[derive(Drop)]
pub enum Pending {
    Nothing,
    Waiting(ArithOp, Boxed<Term>),
}

/// What stands before an aggregate's `#count` or `#sum`: the head and the items before it, whether `not` stands before it, and
/// its left guard.
#[derive(Drop)]
pub struct Opening {
    pub head: Boxed<Head>,
    pub items: List<Item>,
    pub denied: bool,
    pub left: Option<Boxed<Guard>>,
}

/// What a condition, the literals after a `:`, belongs to.
#[derive(Drop)]
pub enum Owner {
    /// An atom of a choice, after the elements before it.
    Chosen {
        left: Option<Boxed<Guard>>,
        elements: List<ChoiceElement>,
        atom: Atom,
    },
    /// A tuple of an aggregate, after the elements before it.
    Tuple {
        opening: Boxed<Opening>,
        kind: AggKind,
        elements: List<Element>,
        terms: List<Term>,
    },
}

/// What a literal is read as, with what stands before it.
#[derive(Drop)]
pub enum LiteralRole {
    AsHead,
    /// After `not` in a body.
    AsDenied {
        head: Boxed<Head>,
        items: List<Item>,
    },
    AsItem {
        head: Boxed<Head>,
        items: List<Item>,
    },
    /// The atom of an element of a choice.
    AsChosen {
        left: Option<Boxed<Guard>>,
        elements: List<ChoiceElement>,
    },
    InCondition {
        owner: Boxed<Owner>,
        condition: List<Literal>,
    },
    /// After `not` in a condition.
    DeniedInCondition {
        owner: Boxed<Owner>,
        condition: List<Literal>,
    },
}

/// What a term that is no part of another is read as, with what stands before it.
#[derive(Drop)]
pub enum TermRole {
    /// The left side of a comparison in a body, or the left guard of an aggregate.
    BodyLeft {
        denied: bool,
        head: Boxed<Head>,
        items: List<Item>,
    },
    /// The right side of a comparison in a body.
    BodyRight {
        head: Boxed<Head>,
        items: List<Item>,
        op: CompareOp,
        first: Boxed<Term>,
    },
    /// The left bound of a choice.
    HeadLeft,
    /// The right bound of a choice.
    HeadRight {
        left: Option<Boxed<Guard>>,
        elements: List<ChoiceElement>,
        op: CompareOp,
    },
    /// The left side of a comparison in a condition.
    ConditionLeft {
        owner: Boxed<Owner>,
        condition: List<Literal>,
    },
    /// The right side of a comparison in a condition.
    ConditionRight {
        owner: Boxed<Owner>,
        condition: List<Literal>,
        op: CompareOp,
        first: Boxed<Term>,
    },
    /// The right guard of an aggregate.
    GuardRight {
        opening: Boxed<Opening>,
        kind: AggKind,
        elements: List<Element>,
        op: CompareOp,
    },
}

/// An open `(` in a term, with what stands before it in its level: the sum and the product that wait for their right sides,
/// and how many minus signs.
#[derive(Drop)]
pub enum Frame {
    Group {
        sum: Pending,
        product: Pending,
        signs: u32,
    },
    /// The `(` of arguments, with those before.
    Call {
        sum: Pending,
        product: Pending,
        signs: u32,
        name: Name,
        arguments: List<Term>,
    },
}

/// What the outermost term that is being read is for.
#[derive(Drop)]
pub enum Purpose {
    ForTerm(Boxed<TermRole>),
    /// An argument of a literal, after those before.
    ForArguments {
        role: Boxed<LiteralRole>,
        negated: bool,
        name: Name,
        arguments: List<Term>,
    },
    /// A term of a tuple of an aggregate, after those before.
    ForTuple {
        opening: Boxed<Opening>,
        kind: AggKind,
        elements: List<Element>,
        terms: List<Term>,
    },
}

/// Where a reader stands in a statement.
#[derive(Drop)]
pub enum State {
    /// Before the first token.
    Starting,
    /// After `:-`.
    BodyOpened(Boxed<Head>),
    /// After a term and a comparison in a head.
    BraceDue(Option<Boxed<Guard>>),
    /// After the `{` of a choice.
    BraceOpened(Option<Boxed<Guard>>),
    /// After the `}` of a choice.
    BraceClosed {
        left: Option<Boxed<Guard>>,
        elements: List<ChoiceElement>,
    },
    /// After a term and a comparison in a body.
    CompareRead {
        denied: bool,
        head: Boxed<Head>,
        items: List<Item>,
        op: CompareOp,
        first: Boxed<Term>,
    },
    /// After `#count` or `#sum`.
    KindRead {
        opening: Boxed<Opening>,
        kind: AggKind,
    },
    /// After the `{` of an aggregate.
    ElementsOpened {
        opening: Boxed<Opening>,
        kind: AggKind,
    },
    /// After a `;` of an aggregate.
    ElementDue {
        opening: Boxed<Opening>,
        kind: AggKind,
        elements: List<Element>,
    },
    /// After the `}` of an aggregate.
    FunctionClosed {
        opening: Boxed<Opening>,
        kind: AggKind,
        elements: List<Element>,
    },
    /// After the `:` of a condition.
    ConditionOpened(Boxed<Owner>),
    /// Where a literal must begin, or what may stand in its place.
    LiteralDue(Boxed<LiteralRole>),
    /// After the `-` with which a literal or a term begins.
    SignRead(Boxed<LiteralRole>),
    /// After the name of a literal, which may yet turn out to be a term.
    NameRead {
        role: Boxed<LiteralRole>,
        negated: bool,
        name: Name,
    },
    /// After the `(` of a literal.
    ArgumentsOpened {
        role: Boxed<LiteralRole>,
        negated: bool,
        name: Name,
    },
    /// After the `)` of a literal.
    ArgumentsRead {
        role: Boxed<LiteralRole>,
        negated: bool,
        name: Name,
        arguments: List<Term>,
    },
    /// Where an operand of a term must begin, or after so many minus signs of it.
    OperandDue {
        sum: Pending,
        product: Pending,
        signs: u32,
        frames: Stack<Frame>,
        purpose: Boxed<Purpose>,
    },
    /// After a name in a term.
    SymbolRead {
        sum: Pending,
        product: Pending,
        signs: u32,
        frames: Stack<Frame>,
        purpose: Boxed<Purpose>,
        name: Name,
    },
    /// After a name and `(` in a term.
    CallOpened {
        sum: Pending,
        product: Pending,
        signs: u32,
        frames: Stack<Frame>,
        purpose: Boxed<Purpose>,
        name: Name,
    },
    /// After an operand: the term is the product so far.
    OperandRead {
        sum: Pending,
        term: Boxed<Term>,
        frames: Stack<Frame>,
        purpose: Boxed<Purpose>,
    },
    /// After the full stop.
    Ended {
        head: Boxed<Head>,
        items: List<Item>,
    },
}

/// Where a reader stands in a program: between statements, or in one that began on a line, after those that are done.
#[derive(Drop)]
pub enum Progress {
    Between(List<Statement>),
    Inside {
        done: List<Statement>,
        line: u32,
        state: State,
    },
}
