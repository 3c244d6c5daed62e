//! What may stand after `#count` or `#sum`, and after the `}` of an aggregate.

ghost use Rattle.std.specs.Prelude.{Some, ◌≡◌, IfOk};
ghost use Rattle.asp_grammar.specs.Terminals.{terminal_of};
ghost use Rattle.asp_grammar.specs.Machine.{guard_of, opening_of, with_aggregate, item_next, kind_next, unguarded_next, function_closed_next};

use crate::bodies::item_done;
use crate::parts::{boxed, guard_boxed, unboxed};
use crate::states::term_due;
use alpha_outside::{Boxed, List, OutOfMemory};
use asp_grammar::{Opening, State, TermRole};
use asp_syntax::{AggKind, Aggregate, CompareOp, Element, Guard, Head, Item, Term, Token};
use std::alloc::Global;

/// After this aggregate.
pub fn aggregate_done(
    alloc: Global,
    opening: Opening,
    kind: AggKind,
    elements: List<Element>,
    right: Option<Guard>,
    token: &Token,
    number: u32,
) -> Result<Option<State>, OutOfMemory>
    ensures { IfOk result (λ next. next ≡ item_next opening.head (with_aggregate opening kind elements right) (terminal_of number token.now)) }
{
    let Opening {
        head,
        items,
        denied,
        left,
    } = opening;
    let aggregate = Aggregate {
        kind,
        elements,
        left: unboxed(left),
        right,
    };
    item_done(
        alloc,
        head,
        items,
        Item::Aggregate { denied, aggregate },
        token,
        number,
    )
}

/// After `#count` or `#sum`.
pub fn kind_read(
    alloc: Global,
    head: Boxed<Head>,
    items: List<Item>,
    denied: bool,
    left: Option<Boxed<Guard>>,
    kind: AggKind,
) -> Result<Option<State>, OutOfMemory>
    ensures { IfOk result (λ next. next ≡ Some (State.KindRead (opening_of head items denied left) kind)) }
{
    let opening = boxed(
        alloc,
        Opening {
            head,
            items,
            denied,
            left,
        },
    )?;
    Ok(Some(State::KindRead { opening, kind }))
}

/// After `#count` or `#sum` behind a left bound.
pub fn guarded_kind(
    alloc: Global,
    denied: bool,
    head: Boxed<Head>,
    items: List<Item>,
    op: CompareOp,
    term: Boxed<Term>,
    kind: AggKind,
) -> Result<Option<State>, OutOfMemory>
    ensures { IfOk result (λ next. next ≡ Some (State.KindRead (opening_of head items denied (Some (guard_of op term))) kind)) }
{
    let left = guard_boxed(alloc, op, term)?;
    kind_read(alloc, head, items, denied, left, kind)
}

/// After `#count` or `#sum`.
pub fn kind_next(
    opening: Boxed<Opening>,
    kind: AggKind,
    token: &Token,
    number: u32,
) -> Result<Option<State>, OutOfMemory>
    ensures { IfOk result (λ next. next ≡ kind_next opening kind (terminal_of number token.now)) }
{
    match token {
        Token::OpenBrace => Ok(Some(State::ElementsOpened { opening, kind })),
        _ => Ok(None),
    }
}

fn unguarded_next(
    alloc: Global,
    opening: Opening,
    kind: AggKind,
    elements: List<Element>,
    token: &Token,
    number: u32,
) -> Result<Option<State>, OutOfMemory>
    ensures { IfOk result (λ next. next ≡ unguarded_next opening.left opening kind elements (terminal_of number token.now)) }
{
    let Opening {
        head,
        items,
        denied,
        left,
    } = opening;
    match left {
        None => Ok(None),
        Some(left) => aggregate_done(
            alloc,
            Opening {
                head,
                items,
                denied,
                left: Some(left),
            },
            kind,
            elements,
            None,
            token,
            number,
        ),
    }
}

/// After the `}` of an aggregate.
pub fn function_closed_next(
    alloc: Global,
    opening: Boxed<Opening>,
    kind: AggKind,
    elements: List<Element>,
    token: &Token,
    number: u32,
) -> Result<Option<State>, OutOfMemory>
    ensures { IfOk result (λ next. next ≡ function_closed_next opening kind elements (terminal_of number token.now)) }
{
    match token {
        Token::Compare(op) => term_due(
            alloc,
            TermRole::GuardRight {
                opening,
                kind,
                elements,
                op: *op,
            },
        ),
        _ => unguarded_next(alloc, opening.into_inner(), kind, elements, token, number),
    }
}
