//! What may stand after a head, and after the left bound of a choice.

ghost use Rattle.std.specs.Prelude.{Some, ◌≡◌, IfOk};
ghost use Rattle.asp_grammar.specs.Terminals.{terminal_of};
ghost use Rattle.asp_grammar.specs.Machine.{guard_of, head_next};

use crate::parts::{boxed, guard_boxed, unboxed};
use alpha_outside::{Boxed, List, OutOfMemory};
use asp_grammar::State;
use asp_syntax::{ChoiceElement, CompareOp, Guard, Head, Term, Token};
use std::alloc::Global;

fn head_next(
    alloc: Global,
    head: Boxed<Head>,
    token: &Token,
    number: u32,
) -> Result<Option<State>, OutOfMemory>
    ensures { IfOk result (λ next. next ≡ head_next head (terminal_of number token.now)) }
{
    match token {
        Token::Dot => Ok(Some(State::Ended {
            head,
            items: List::new(alloc),
        })),
        Token::If => Ok(Some(State::BodyOpened(head))),
        _ => Ok(None),
    }
}

/// After this head.
pub fn head_done(
    alloc: Global,
    head: Head,
    token: &Token,
    number: u32,
) -> Result<Option<State>, OutOfMemory>
    ensures { IfOk result (λ next. next ≡ head_next head (terminal_of number token.now)) }
{
    let head = boxed(alloc, head)?;
    head_next(alloc, head, token, number)
}

/// After this choice.
pub fn choice_done(
    alloc: Global,
    left: Option<Boxed<Guard>>,
    elements: List<ChoiceElement>,
    right: Option<Guard>,
    token: &Token,
    number: u32,
) -> Result<Option<State>, OutOfMemory>
    ensures { IfOk result (λ next. next ≡ head_next (Head.Choice left elements right) (terminal_of number token.now)) }
{
    head_done(
        alloc,
        Head::Choice {
            left: unboxed(left),
            elements,
            right,
        },
        token,
        number,
    )
}

/// After the left bound of a choice.
pub fn brace_due(
    alloc: Global,
    op: CompareOp,
    term: Boxed<Term>,
) -> Result<Option<State>, OutOfMemory>
    ensures { IfOk result (λ next. next ≡ Some (State.BraceDue (Some (guard_of op term)))) }
{
    let guard = guard_boxed(alloc, op, term)?;
    Ok(Some(State::BraceDue(guard)))
}

/// After the left bound of a choice and its `{`.
pub fn brace_opened(
    alloc: Global,
    op: CompareOp,
    term: Boxed<Term>,
) -> Result<Option<State>, OutOfMemory>
    ensures { IfOk result (λ next. next ≡ Some (State.BraceOpened (Some (guard_of op term)))) }
{
    let guard = guard_boxed(alloc, op, term)?;
    Ok(Some(State::BraceOpened(guard)))
}
