//! What may stand after an atom of a choice or a tuple of an aggregate, and after each literal of its condition.

ghost use Rattle.std.specs.Prelude.{Some, ◌≡◌, [], ◌∷◌, ◌++◌, IfOk};
ghost use Rattle.asp_grammar.specs.Terminals.{terminal_of};
ghost use Rattle.asp_grammar.specs.Machine.{owner_more, owner_closed, owner_next, condition_next, owned_next};

use crate::parts::with_last;
use crate::states::literal_due;
use alpha_outside::{Boxed, List, OutOfMemory};
use asp_grammar::{LiteralRole, Opening, Owner, State};
use asp_syntax::{AggKind, ChoiceElement, Element, Guard, Literal, Token};
use std::alloc::Global;

fn chosen_more(
    alloc: Global,
    left: Option<Boxed<Guard>>,
    elements: List<ChoiceElement>,
    element: ChoiceElement,
) -> Result<Option<State>, OutOfMemory>
    ensures { IfOk result (λ next. next ≡ Some (State.LiteralDue (LiteralRole.AsChosen left (elements ++ element ∷ [])))) }
{
    let elements = with_last(elements, element)?;
    literal_due(alloc, LiteralRole::AsChosen { left, elements })
}

fn tuple_more(
    opening: Boxed<Opening>,
    kind: AggKind,
    elements: List<Element>,
    element: Element,
) -> Result<Option<State>, OutOfMemory>
    ensures { IfOk result (λ next. next ≡ Some (State.ElementDue opening kind (elements ++ element ∷ []))) }
{
    let elements = with_last(elements, element)?;
    Ok(Some(State::ElementDue {
        opening,
        kind,
        elements,
    }))
}

fn chosen_closed(
    left: Option<Boxed<Guard>>,
    elements: List<ChoiceElement>,
    element: ChoiceElement,
) -> Result<Option<State>, OutOfMemory>
    ensures { IfOk result (λ next. next ≡ Some (State.BraceClosed left (elements ++ element ∷ []))) }
{
    let elements = with_last(elements, element)?;
    Ok(Some(State::BraceClosed { left, elements }))
}

fn tuple_closed(
    opening: Boxed<Opening>,
    kind: AggKind,
    elements: List<Element>,
    element: Element,
) -> Result<Option<State>, OutOfMemory>
    ensures { IfOk result (λ next. next ≡ Some (State.FunctionClosed opening kind (elements ++ element ∷ []))) }
{
    let elements = with_last(elements, element)?;
    Ok(Some(State::FunctionClosed {
        opening,
        kind,
        elements,
    }))
}

/// After the `;` behind what a condition belongs to, and the condition.
pub fn owner_more(
    alloc: Global,
    owner: Owner,
    condition: List<Literal>,
) -> Result<Option<State>, OutOfMemory>
    ensures { IfOk result (λ next. next ≡ Some (owner_more owner condition)) }
{
    match owner {
        Owner::Chosen {
            left,
            elements,
            atom,
        } => chosen_more(alloc, left, elements, ChoiceElement { atom, condition }),
        Owner::Tuple {
            opening,
            kind,
            elements,
            terms,
        } => tuple_more(opening, kind, elements, Element { terms, condition }),
    }
}

/// After the `}` behind what a condition belongs to, and the condition.
pub fn owner_closed(owner: Owner, condition: List<Literal>) -> Result<Option<State>, OutOfMemory>
    ensures { IfOk result (λ next. next ≡ Some (owner_closed owner condition)) }
{
    match owner {
        Owner::Chosen {
            left,
            elements,
            atom,
        } => chosen_closed(left, elements, ChoiceElement { atom, condition }),
        Owner::Tuple {
            opening,
            kind,
            elements,
            terms,
        } => tuple_closed(opening, kind, elements, Element { terms, condition }),
    }
}

fn owner_next(
    alloc: Global,
    owner: Boxed<Owner>,
    condition: List<Literal>,
    token: &Token,
    number: u32,
) -> Result<Option<State>, OutOfMemory>
    ensures { IfOk result (λ next. next ≡ owner_next owner condition (terminal_of number token.now)) }
{
    match token {
        Token::Semicolon => owner_more(alloc, owner.into_inner(), condition),
        Token::CloseBrace => owner_closed(owner.into_inner(), condition),
        _ => Ok(None),
    }
}

fn owner_bare(
    alloc: Global,
    owner: Boxed<Owner>,
    token: &Token,
    number: u32,
) -> Result<Option<State>, OutOfMemory>
    ensures { IfOk result (λ next. next ≡ owner_next owner [] (terminal_of number token.now)) }
{
    owner_next(alloc, owner, List::new(alloc), token, number)
}

fn condition_next(
    alloc: Global,
    owner: Boxed<Owner>,
    condition: List<Literal>,
    token: &Token,
    number: u32,
) -> Result<Option<State>, OutOfMemory>
    ensures { IfOk result (λ next. next ≡ condition_next owner condition (terminal_of number token.now)) }
{
    match token {
        Token::Comma => literal_due(alloc, LiteralRole::InCondition { owner, condition }),
        _ => owner_next(alloc, owner, condition, token, number),
    }
}

/// After this literal of a condition.
pub fn condition_done(
    alloc: Global,
    owner: Boxed<Owner>,
    condition: List<Literal>,
    literal: Literal,
    token: &Token,
    number: u32,
) -> Result<Option<State>, OutOfMemory>
    ensures { IfOk result (λ next. next ≡ condition_next owner (condition ++ literal ∷ []) (terminal_of number token.now)) }
{
    let condition = with_last(condition, literal)?;
    condition_next(alloc, owner, condition, token, number)
}

/// Behind what a condition may belong to.
pub fn owned_next(
    alloc: Global,
    owner: Boxed<Owner>,
    token: &Token,
    number: u32,
) -> Result<Option<State>, OutOfMemory>
    ensures { IfOk result (λ next. next ≡ owned_next owner (terminal_of number token.now)) }
{
    match token {
        Token::Colon => Ok(Some(State::ConditionOpened(owner))),
        _ => owner_bare(alloc, owner, token, number),
    }
}
