//! What may stand after a term that is no part of another: its role says what it ends, and what it begins.

ghost use Rattle.std.specs.Prelude.{Some, ◌≡◌, [], ◌∷◌, ◌++◌, IfOk};
ghost use Rattle.asp_grammar.specs.Terminals.{terminal_of};
ghost use Rattle.asp_grammar.specs.Machine.{owned_next, whole_term_next, term_next};

use crate::aggregates::aggregate_done;
use crate::bodies::item_done;
use crate::conditions::{condition_done, owned_next};
use crate::heads::{brace_due, brace_opened, choice_done};
use crate::parts::{boxed, with_last};
use crate::states::{purpose_due, term_due};
use alpha_outside::{Boxed, List, Name, OutOfMemory};
use asp_grammar::{LiteralRole, Opening, Owner, Pending, Purpose, State, TermRole};
use asp_syntax::{
    AggKind, ChoiceElement, CompareOp, Element, Guard, Head, Item, Literal, Term, Token,
};
use std::alloc::Global;

fn left_next(
    denied: bool,
    head: Boxed<Head>,
    items: List<Item>,
    term: Boxed<Term>,
    token: &Token,
    number: u32,
) -> Result<Option<State>, OutOfMemory>
    ensures { IfOk result (λ next. next ≡ whole_term_next (TermRole.BodyLeft denied head items) term (terminal_of number token.now)) }
{
    match token {
        Token::Compare(op) => Ok(Some(State::CompareRead {
            denied,
            head,
            items,
            op: *op,
            first: term,
        })),
        _ => Ok(None),
    }
}

fn compared(
    alloc: Global,
    head: Boxed<Head>,
    items: List<Item>,
    op: CompareOp,
    first: Boxed<Term>,
    term: Boxed<Term>,
    token: &Token,
    number: u32,
) -> Result<Option<State>, OutOfMemory>
    ensures { IfOk result (λ next. next ≡ whole_term_next (TermRole.BodyRight head items op first) term (terminal_of number token.now)) }
{
    item_done(
        alloc,
        head,
        items,
        Item::Plain(Literal::Compare(op, first.into_inner(), term.into_inner())),
        token,
        number,
    )
}

fn head_left_next(
    alloc: Global,
    term: Boxed<Term>,
    token: &Token,
    number: u32,
) -> Result<Option<State>, OutOfMemory>
    ensures { IfOk result (λ next. next ≡ whole_term_next TermRole.HeadLeft term (terminal_of number token.now)) }
{
    match token {
        Token::Compare(op) => brace_due(alloc, *op, term),
        Token::OpenBrace => brace_opened(alloc, CompareOp::LessEqual, term),
        _ => Ok(None),
    }
}

fn head_right_next(
    alloc: Global,
    left: Option<Boxed<Guard>>,
    elements: List<ChoiceElement>,
    op: CompareOp,
    term: Boxed<Term>,
    token: &Token,
    number: u32,
) -> Result<Option<State>, OutOfMemory>
    ensures { IfOk result (λ next. next ≡ whole_term_next (TermRole.HeadRight left elements op) term (terminal_of number token.now)) }
{
    choice_done(
        alloc,
        left,
        elements,
        Some(Guard {
            op,
            term: term.into_inner(),
        }),
        token,
        number,
    )
}

fn condition_left_next(
    alloc: Global,
    owner: Boxed<Owner>,
    condition: List<Literal>,
    term: Boxed<Term>,
    token: &Token,
    number: u32,
) -> Result<Option<State>, OutOfMemory>
    ensures { IfOk result (λ next. next ≡ whole_term_next (TermRole.ConditionLeft owner condition) term (terminal_of number token.now)) }
{
    match token {
        Token::Compare(op) => term_due(
            alloc,
            TermRole::ConditionRight {
                owner,
                condition,
                op: *op,
                first: term,
            },
        ),
        _ => Ok(None),
    }
}

fn condition_compared(
    alloc: Global,
    owner: Boxed<Owner>,
    condition: List<Literal>,
    op: CompareOp,
    first: Boxed<Term>,
    term: Boxed<Term>,
    token: &Token,
    number: u32,
) -> Result<Option<State>, OutOfMemory>
    ensures { IfOk result (λ next. next ≡ whole_term_next (TermRole.ConditionRight owner condition op first) term (terminal_of number token.now)) }
{
    condition_done(
        alloc,
        owner,
        condition,
        Literal::Compare(op, first.into_inner(), term.into_inner()),
        token,
        number,
    )
}

fn guard_right_next(
    alloc: Global,
    opening: Boxed<Opening>,
    kind: AggKind,
    elements: List<Element>,
    op: CompareOp,
    term: Boxed<Term>,
    token: &Token,
    number: u32,
) -> Result<Option<State>, OutOfMemory>
    ensures { IfOk result (λ next. next ≡ whole_term_next (TermRole.GuardRight opening kind elements op) term (terminal_of number token.now)) }
{
    aggregate_done(
        alloc,
        opening.into_inner(),
        kind,
        elements,
        Some(Guard {
            op,
            term: term.into_inner(),
        }),
        token,
        number,
    )
}

fn whole_term_next(
    alloc: Global,
    role: TermRole,
    term: Boxed<Term>,
    token: &Token,
    number: u32,
) -> Result<Option<State>, OutOfMemory>
    ensures { IfOk result (λ next. next ≡ whole_term_next role term (terminal_of number token.now)) }
{
    match role {
        TermRole::BodyLeft {
            denied,
            head,
            items,
        } => left_next(denied, head, items, term, token, number),
        TermRole::BodyRight {
            head,
            items,
            op,
            first,
        } => compared(alloc, head, items, op, first, term, token, number),
        TermRole::HeadLeft => head_left_next(alloc, term, token, number),
        TermRole::HeadRight { left, elements, op } => head_right_next(
            alloc, left, elements, op, term, token, number,
        ),
        TermRole::ConditionLeft { owner, condition } => condition_left_next(
            alloc, owner, condition, term, token, number,
        ),
        TermRole::ConditionRight {
            owner,
            condition,
            op,
            first,
        } => condition_compared(alloc, owner, condition, op, first, term, token, number),
        TermRole::GuardRight {
            opening,
            kind,
            elements,
            op,
        } => guard_right_next(alloc, opening, kind, elements, op, term, token, number),
    }
}

fn tuple_comma(
    alloc: Global,
    opening: Boxed<Opening>,
    kind: AggKind,
    elements: List<Element>,
    terms: List<Term>,
    term: Boxed<Term>,
) -> Result<Option<State>, OutOfMemory>
    ensures { IfOk result (λ next. next ≡ Some (State.OperandDue Pending.Nothing Pending.Nothing 0 [] (Purpose.ForTuple opening kind elements (terms ++ term ∷ [])))) }
{
    let terms = with_last(terms, term.into_inner())?;
    purpose_due(
        alloc,
        Purpose::ForTuple {
            opening,
            kind,
            elements,
            terms,
        },
    )
}

fn tuple_end(
    alloc: Global,
    opening: Boxed<Opening>,
    kind: AggKind,
    elements: List<Element>,
    terms: List<Term>,
    term: Boxed<Term>,
    token: &Token,
    number: u32,
) -> Result<Option<State>, OutOfMemory>
    ensures { IfOk result (λ next. next ≡ owned_next (Owner.Tuple opening kind elements (terms ++ term ∷ [])) (terminal_of number token.now)) }
{
    let terms = with_last(terms, term.into_inner())?;
    let owner = boxed(
        alloc,
        Owner::Tuple {
            opening,
            kind,
            elements,
            terms,
        },
    )?;
    owned_next(alloc, owner, token, number)
}

fn tuple_term_next(
    alloc: Global,
    opening: Boxed<Opening>,
    kind: AggKind,
    elements: List<Element>,
    terms: List<Term>,
    term: Boxed<Term>,
    token: &Token,
    number: u32,
) -> Result<Option<State>, OutOfMemory>
    ensures { IfOk result (λ next. next ≡ term_next [] (Purpose.ForTuple opening kind elements terms) term (terminal_of number token.now)) }
{
    match token {
        Token::Comma => tuple_comma(alloc, opening, kind, elements, terms, term),
        _ => tuple_end(alloc, opening, kind, elements, terms, term, token, number),
    }
}

fn arguments_closed(
    role: Boxed<LiteralRole>,
    negated: bool,
    name: Name,
    arguments: List<Term>,
    term: Boxed<Term>,
) -> Result<Option<State>, OutOfMemory>
    ensures { IfOk result (λ next. next ≡ Some (State.ArgumentsRead role negated name (arguments ++ term ∷ []))) }
{
    let arguments = with_last(arguments, term.into_inner())?;
    Ok(Some(State::ArgumentsRead {
        role,
        negated,
        name,
        arguments,
    }))
}

fn arguments_more(
    alloc: Global,
    role: Boxed<LiteralRole>,
    negated: bool,
    name: Name,
    arguments: List<Term>,
    term: Boxed<Term>,
) -> Result<Option<State>, OutOfMemory>
    ensures { IfOk result (λ next. next ≡ Some (State.OperandDue Pending.Nothing Pending.Nothing 0 [] (Purpose.ForArguments role negated name (arguments ++ term ∷ [])))) }
{
    let arguments = with_last(arguments, term.into_inner())?;
    purpose_due(
        alloc,
        Purpose::ForArguments {
            role,
            negated,
            name,
            arguments,
        },
    )
}

fn arguments_term_next(
    alloc: Global,
    role: Boxed<LiteralRole>,
    negated: bool,
    name: Name,
    arguments: List<Term>,
    term: Boxed<Term>,
    token: &Token,
    number: u32,
) -> Result<Option<State>, OutOfMemory>
    ensures { IfOk result (λ next. next ≡ term_next [] (Purpose.ForArguments role negated name arguments) term (terminal_of number token.now)) }
{
    match token {
        Token::Close => arguments_closed(role, negated, name, arguments, term),
        Token::Comma => arguments_more(alloc, role, negated, name, arguments, term),
        _ => Ok(None),
    }
}

/// After a whole term that is no part of another.
pub fn outermost_next(
    alloc: Global,
    purpose: Purpose,
    term: Boxed<Term>,
    token: &Token,
    number: u32,
) -> Result<Option<State>, OutOfMemory>
    ensures { IfOk result (λ next. next ≡ term_next [] purpose term (terminal_of number token.now)) }
{
    match purpose {
        Purpose::ForTerm(role) => whole_term_next(alloc, role.into_inner(), term, token, number),
        Purpose::ForArguments {
            role,
            negated,
            name,
            arguments,
        } => arguments_term_next(alloc, role, negated, name, arguments, term, token, number),
        Purpose::ForTuple {
            opening,
            kind,
            elements,
            terms,
        } => tuple_term_next(alloc, opening, kind, elements, terms, term, token, number),
    }
}
