//! What may stand after a comparison in a body, and where an element of an aggregate must begin.

ghost use Rattle.std.specs.Prelude.{Some, ◌≡◌, [], IfOk};
ghost use Rattle.asp_grammar.specs.Terminals.{terminal_of};
ghost use Rattle.parsing_machine.specs.Fitting.{Fits};
ghost use Rattle.asp_grammar.specs.Machine.{operand, second_next, compare_next, element_due_next, elements_opened_next};

use crate::aggregates::guarded_kind;
use crate::operands::{purpose_begun, term_begun};
use crate::parts::boxed;
use alpha_outside::{Boxed, List, OutOfMemory};
use asp_grammar::{Opening, Owner, Pending, Purpose, State, TermRole};
use asp_syntax::{AggKind, CompareOp, Element, Head, Item, Term, Token};
use std::alloc::Global;

fn second_next(
    alloc: Global,
    denied: bool,
    head: Boxed<Head>,
    items: List<Item>,
    op: CompareOp,
    term: Boxed<Term>,
    token: &Token,
    number: u32,
) -> Result<Option<State>, OutOfMemory>
    requires fits { Fits 0 token.now }
    ensures { IfOk result (λ next. next ≡ second_next denied head items op term (terminal_of number token.now)) }
{
    if denied {
        Ok(None)
    } else {
        term_begun(
            alloc,
            TermRole::BodyRight {
                head,
                items,
                op,
                first: term,
            },
            0,
            token,
            number,
        )
    }
}

/// After a term and a comparison in a body.
pub fn compare_next(
    alloc: Global,
    denied: bool,
    head: Boxed<Head>,
    items: List<Item>,
    op: CompareOp,
    term: Boxed<Term>,
    token: &Token,
    number: u32,
) -> Result<Option<State>, OutOfMemory>
    requires fits { Fits 0 token.now }
    ensures { IfOk result (λ next. next ≡ compare_next denied head items op term (terminal_of number token.now)) }
{
    match token {
        Token::Count => guarded_kind(alloc, denied, head, items, op, term, AggKind::Count),
        Token::Sum => guarded_kind(alloc, denied, head, items, op, term, AggKind::Sum),
        _ => second_next(alloc, denied, head, items, op, term, token, number),
    }
}

fn untupled(
    alloc: Global,
    opening: Boxed<Opening>,
    kind: AggKind,
    elements: List<Element>,
) -> Result<Option<State>, OutOfMemory>
    ensures { IfOk result (λ next. next ≡ Some (State.ConditionOpened (Owner.Tuple opening kind elements []))) }
{
    let owner = boxed(
        alloc,
        Owner::Tuple {
            opening,
            kind,
            elements,
            terms: List::new(alloc),
        },
    )?;
    Ok(Some(State::ConditionOpened(owner)))
}

fn tuple_begun(
    alloc: Global,
    opening: Boxed<Opening>,
    kind: AggKind,
    elements: List<Element>,
    token: &Token,
    number: u32,
) -> Result<Option<State>, OutOfMemory>
    requires fits { Fits 0 token.now }
    ensures { IfOk result (λ next. next ≡ operand Pending.Nothing Pending.Nothing 0 [] (Purpose.ForTuple opening kind elements []) (terminal_of number token.now)) }
{
    purpose_begun(
        alloc,
        Purpose::ForTuple {
            opening,
            kind,
            elements,
            terms: List::new(alloc),
        },
        0,
        token,
        number,
    )
}

/// Where an element of an aggregate must begin.
pub fn element_due_next(
    alloc: Global,
    opening: Boxed<Opening>,
    kind: AggKind,
    elements: List<Element>,
    token: &Token,
    number: u32,
) -> Result<Option<State>, OutOfMemory>
    requires fits { Fits 0 token.now }
    ensures { IfOk result (λ next. next ≡ element_due_next opening kind elements (terminal_of number token.now)) }
{
    match token {
        Token::Colon => untupled(alloc, opening, kind, elements),
        _ => tuple_begun(alloc, opening, kind, elements, token, number),
    }
}

fn first_element(
    alloc: Global,
    opening: Boxed<Opening>,
    kind: AggKind,
    token: &Token,
    number: u32,
) -> Result<Option<State>, OutOfMemory>
    requires fits { Fits 0 token.now }
    ensures { IfOk result (λ next. next ≡ element_due_next opening kind [] (terminal_of number token.now)) }
{
    element_due_next(alloc, opening, kind, List::new(alloc), token, number)
}

/// After the `{` of an aggregate.
pub fn elements_opened_next(
    alloc: Global,
    opening: Boxed<Opening>,
    kind: AggKind,
    token: &Token,
    number: u32,
) -> Result<Option<State>, OutOfMemory>
    requires fits { Fits 0 token.now }
    ensures { IfOk result (λ next. next ≡ elements_opened_next opening kind (terminal_of number token.now)) }
{
    match token {
        Token::CloseBrace => Ok(Some(State::FunctionClosed {
            opening,
            kind,
            elements: List::new(alloc),
        })),
        _ => first_element(alloc, opening, kind, token, number),
    }
}
