//! What may stand where a statement, a literal or a term must begin.

ghost use Rattle.std.specs.Prelude.{Some, ◌≡◌, [], IfOk};
ghost use Rattle.asp_grammar.specs.Terminals.{terminal_of};
ghost use Rattle.parsing_machine.specs.Fitting.{Fits};
ghost use Rattle.asp_grammar.specs.Machine.{term_role, term_begins, sign_next, begin_next, due_next, body_next, start_next, brace_due_next, brace_opened_next, condition_opened_next, brace_closed_next};

use crate::aggregates::kind_read;
use crate::conditions::{owner_closed, owner_more};
use crate::heads::choice_done;
use crate::operands::term_begun;
use crate::parts::{boxed, copied};
use crate::states::{literal_due, term_due};
use alpha_outside::{Boxed, List, Name, OutOfMemory};
use asp_grammar::{LiteralRole, Owner, State, TermRole};
use asp_syntax::{AggKind, ChoiceElement, CompareOp, Guard, Head, Item, Literal, Token};
use std::alloc::Global;

fn begins(
    alloc: Global,
    role: LiteralRole,
    signs: u32,
    token: &Token,
    number: u32,
) -> Result<Option<State>, OutOfMemory>
    requires fits { Fits signs token.now }
    ensures { IfOk result (λ next. next ≡ term_begins (term_role role) signs (terminal_of number token.now)) }
{
    match role {
        LiteralRole::AsHead => term_begun(alloc, TermRole::HeadLeft, signs, token, number),
        LiteralRole::AsDenied { head, items } => term_begun(
            alloc,
            TermRole::BodyLeft {
                denied: true,
                head,
                items,
            },
            signs,
            token,
            number,
        ),
        LiteralRole::AsItem { head, items } => term_begun(
            alloc,
            TermRole::BodyLeft {
                denied: false,
                head,
                items,
            },
            signs,
            token,
            number,
        ),
        LiteralRole::AsChosen {
            left: _,
            elements: _,
        } => Ok(None),
        LiteralRole::InCondition { owner, condition } => term_begun(
            alloc,
            TermRole::ConditionLeft { owner, condition },
            signs,
            token,
            number,
        ),
        LiteralRole::DeniedInCondition {
            owner: _,
            condition: _,
        } => Ok(None),
    }
}

fn name_begun(
    alloc: Global,
    role: LiteralRole,
    negated: bool,
    name: &Name,
) -> Result<Option<State>, OutOfMemory>
    ensures { IfOk result (λ next. next ≡ Some (State.NameRead role negated name.now)) }
{
    let name = copied(alloc, name)?;
    let role = boxed(alloc, role)?;
    Ok(Some(State::NameRead {
        role,
        negated,
        name,
    }))
}

fn sign_begun(alloc: Global, role: LiteralRole) -> Result<Option<State>, OutOfMemory>
    ensures { IfOk result (λ next. next ≡ Some (State.SignRead role)) }
{
    let role = boxed(alloc, role)?;
    Ok(Some(State::SignRead(role)))
}

/// After the `-` with which a literal or a term begins.
pub fn sign_next(
    alloc: Global,
    role: LiteralRole,
    token: &Token,
    number: u32,
) -> Result<Option<State>, OutOfMemory>
    requires fits { Fits 1 token.now }
    ensures { IfOk result (λ next. next ≡ sign_next role (terminal_of number token.now)) }
{
    match token {
        Token::Id(name) => name_begun(alloc, role, true, name),
        _ => begins(alloc, role, 1, token, number),
    }
}

fn begin_next(
    alloc: Global,
    role: LiteralRole,
    token: &Token,
    number: u32,
) -> Result<Option<State>, OutOfMemory>
    requires fits { Fits 0 token.now }
    ensures { IfOk result (λ next. next ≡ begin_next role (terminal_of number token.now)) }
{
    match token {
        Token::Id(name) => name_begun(alloc, role, false, name),
        Token::Minus => sign_begun(alloc, role),
        _ => begins(alloc, role, 0, token, number),
    }
}

fn item_due(
    alloc: Global,
    head: Boxed<Head>,
    items: List<Item>,
    token: &Token,
    number: u32,
) -> Result<Option<State>, OutOfMemory>
    requires fits { Fits 0 token.now }
    ensures { IfOk result (λ next. next ≡ due_next (LiteralRole.AsItem head items) (terminal_of number token.now)) }
{
    match token {
        Token::Not => literal_due(alloc, LiteralRole::AsDenied { head, items }),
        Token::Count => kind_read(alloc, head, items, false, None, AggKind::Count),
        Token::Sum => kind_read(alloc, head, items, false, None, AggKind::Sum),
        _ => begin_next(alloc, LiteralRole::AsItem { head, items }, token, number),
    }
}

fn denied_due(
    alloc: Global,
    head: Boxed<Head>,
    items: List<Item>,
    token: &Token,
    number: u32,
) -> Result<Option<State>, OutOfMemory>
    requires fits { Fits 0 token.now }
    ensures { IfOk result (λ next. next ≡ due_next (LiteralRole.AsDenied head items) (terminal_of number token.now)) }
{
    match token {
        Token::Count => kind_read(alloc, head, items, true, None, AggKind::Count),
        Token::Sum => kind_read(alloc, head, items, true, None, AggKind::Sum),
        _ => begin_next(alloc, LiteralRole::AsDenied { head, items }, token, number),
    }
}

fn condition_due(
    alloc: Global,
    owner: Boxed<Owner>,
    condition: List<Literal>,
    token: &Token,
    number: u32,
) -> Result<Option<State>, OutOfMemory>
    requires fits { Fits 0 token.now }
    ensures { IfOk result (λ next. next ≡ due_next (LiteralRole.InCondition owner condition) (terminal_of number token.now)) }
{
    match token {
        Token::Not => literal_due(alloc, LiteralRole::DeniedInCondition { owner, condition }),
        _ => begin_next(
            alloc,
            LiteralRole::InCondition { owner, condition },
            token,
            number,
        ),
    }
}

/// Where a literal must begin, or what may stand in its place.
pub fn due_next(
    alloc: Global,
    role: LiteralRole,
    token: &Token,
    number: u32,
) -> Result<Option<State>, OutOfMemory>
    requires fits { Fits 0 token.now }
    ensures { IfOk result (λ next. next ≡ due_next role (terminal_of number token.now)) }
{
    match role {
        LiteralRole::AsHead => begin_next(alloc, LiteralRole::AsHead, token, number),
        LiteralRole::AsDenied { head, items } => denied_due(alloc, head, items, token, number),
        LiteralRole::AsItem { head, items } => item_due(alloc, head, items, token, number),
        LiteralRole::AsChosen { left, elements } => begin_next(
            alloc,
            LiteralRole::AsChosen { left, elements },
            token,
            number,
        ),
        LiteralRole::InCondition { owner, condition } => condition_due(
            alloc, owner, condition, token, number,
        ),
        LiteralRole::DeniedInCondition { owner, condition } => begin_next(
            alloc,
            LiteralRole::DeniedInCondition { owner, condition },
            token,
            number,
        ),
    }
}

fn first_item(
    alloc: Global,
    head: Boxed<Head>,
    token: &Token,
    number: u32,
) -> Result<Option<State>, OutOfMemory>
    requires fits { Fits 0 token.now }
    ensures { IfOk result (λ next. next ≡ due_next (LiteralRole.AsItem head []) (terminal_of number token.now)) }
{
    item_due(alloc, head, List::new(alloc), token, number)
}

/// After `:-`.
pub fn body_next(
    alloc: Global,
    head: Boxed<Head>,
    token: &Token,
    number: u32,
) -> Result<Option<State>, OutOfMemory>
    requires fits { Fits 0 token.now }
    ensures { IfOk result (λ next. next ≡ body_next head (terminal_of number token.now)) }
{
    match token {
        Token::Dot => Ok(Some(State::Ended {
            head,
            items: List::new(alloc),
        })),
        _ => first_item(alloc, head, token, number),
    }
}

fn constraint_begun(alloc: Global) -> Result<Option<State>, OutOfMemory>
    ensures { IfOk result (λ next. next ≡ Some (State.BodyOpened Head.Absent)) }
{
    let head = boxed(alloc, Head::Absent)?;
    Ok(Some(State::BodyOpened(head)))
}

/// At the first token of a statement.
pub fn start_next(alloc: Global, token: &Token, number: u32) -> Result<Option<State>, OutOfMemory>
    requires fits { Fits 0 token.now }
    ensures { IfOk result (λ next. next ≡ start_next (terminal_of number token.now)) }
{
    match token {
        Token::If => constraint_begun(alloc),
        Token::OpenBrace => Ok(Some(State::BraceOpened(None))),
        _ => begin_next(alloc, LiteralRole::AsHead, token, number),
    }
}

/// After a term and a comparison in a head.
pub fn brace_due_next(
    left: Option<Boxed<Guard>>,
    token: &Token,
    number: u32,
) -> Result<Option<State>, OutOfMemory>
    ensures { IfOk result (λ next. next ≡ brace_due_next left (terminal_of number token.now)) }
{
    match token {
        Token::OpenBrace => Ok(Some(State::BraceOpened(left))),
        _ => Ok(None),
    }
}

fn first_chosen(
    alloc: Global,
    left: Option<Boxed<Guard>>,
    token: &Token,
    number: u32,
) -> Result<Option<State>, OutOfMemory>
    requires fits { Fits 0 token.now }
    ensures { IfOk result (λ next. next ≡ due_next (LiteralRole.AsChosen left []) (terminal_of number token.now)) }
{
    begin_next(
        alloc,
        LiteralRole::AsChosen {
            left,
            elements: List::new(alloc),
        },
        token,
        number,
    )
}

/// After the `{` of a choice.
pub fn brace_opened_next(
    alloc: Global,
    left: Option<Boxed<Guard>>,
    token: &Token,
    number: u32,
) -> Result<Option<State>, OutOfMemory>
    requires fits { Fits 0 token.now }
    ensures { IfOk result (λ next. next ≡ brace_opened_next left (terminal_of number token.now)) }
{
    match token {
        Token::CloseBrace => Ok(Some(State::BraceClosed {
            left,
            elements: List::new(alloc),
        })),
        _ => first_chosen(alloc, left, token, number),
    }
}

/// After the `}` of a choice.
pub fn brace_closed_next(
    alloc: Global,
    left: Option<Boxed<Guard>>,
    elements: List<ChoiceElement>,
    token: &Token,
    number: u32,
) -> Result<Option<State>, OutOfMemory>
    requires fits { Fits 0 token.now }
    ensures { IfOk result (λ next. next ≡ brace_closed_next left elements (terminal_of number token.now)) }
{
    match token {
        Token::Compare(op) => term_due(
            alloc,
            TermRole::HeadRight {
                left,
                elements,
                op: *op,
            },
        ),
        Token::Dot => choice_done(alloc, left, elements, None, token, number),
        Token::If => choice_done(alloc, left, elements, None, token, number),
        _ => term_begun(
            alloc,
            TermRole::HeadRight {
                left,
                elements,
                op: CompareOp::LessEqual,
            },
            0,
            token,
            number,
        ),
    }
}

fn first_in_condition(
    alloc: Global,
    owner: Boxed<Owner>,
    token: &Token,
    number: u32,
) -> Result<Option<State>, OutOfMemory>
    requires fits { Fits 0 token.now }
    ensures { IfOk result (λ next. next ≡ due_next (LiteralRole.InCondition owner []) (terminal_of number token.now)) }
{
    condition_due(alloc, owner, List::new(alloc), token, number)
}

/// After the `:` of a condition.
pub fn condition_opened_next(
    alloc: Global,
    owner: Boxed<Owner>,
    token: &Token,
    number: u32,
) -> Result<Option<State>, OutOfMemory>
    requires fits { Fits 0 token.now }
    ensures { IfOk result (λ next. next ≡ condition_opened_next owner (terminal_of number token.now)) }
{
    match token {
        Token::Semicolon => owner_more(alloc, owner.into_inner(), List::new(alloc)),
        Token::CloseBrace => owner_closed(owner.into_inner(), List::new(alloc)),
        _ => first_in_condition(alloc, owner, token, number),
    }
}
