//! What may stand after an operand: an operator, or the end of the term, which may end a parenthesis.

ghost use Rattle.std.specs.Prelude.{Some, ◌≡◌, [], ◌∷◌, ◌++◌, IfOk};
ghost use Rattle.asp_grammar.specs.Terminals.{terminal_of};
ghost use Rattle.asp_grammar.specs.Machine.{join, minuses, call_term, term_next, operand_next};

use crate::parts::{boxed, called, joined, with_last, with_minuses};
use crate::states::{Level, Spot, level_of, operand_due, operand_read};
use crate::whole_terms::outermost_next;
use alpha_outside::{ArithOp, Boxed, List, Name, OutOfMemory};
use asp_grammar::{Frame, Pending, State};
use asp_syntax::{Term, Token};
use std::alloc::Global;

fn operand_taken(
    alloc: Global,
    level: Level,
    spot: Spot,
    term: Boxed<Term>,
) -> Result<Option<State>, OutOfMemory>
    ensures { IfOk result (λ next. next ≡ Some (State.OperandRead level.sum (join level.product (minuses level.signs term)) spot.frames spot.purpose)) }
{
    let Level {
        sum,
        product,
        signs,
    } = level;
    let term = with_minuses(alloc, signs, term)?;
    let term = joined(alloc, product, term)?;
    Ok(Some(operand_read(sum, term, spot)))
}

/// After this operand.
pub fn operand_taken_new(
    alloc: Global,
    level: Level,
    spot: Spot,
    term: Term,
) -> Result<Option<State>, OutOfMemory>
    ensures { IfOk result (λ next. next ≡ Some (State.OperandRead level.sum (join level.product (minuses level.signs term)) spot.frames spot.purpose)) }
{
    let term = boxed(alloc, term)?;
    operand_taken(alloc, level, spot, term)
}

fn group_next(
    alloc: Global,
    level: Level,
    spot: Spot,
    term: Boxed<Term>,
    token: &Token,
    number: u32,
) -> Result<Option<State>, OutOfMemory>
    ensures { IfOk result (λ next. next ≡ term_next (Frame.Group level.sum level.product level.signs ∷ spot.frames) spot.purpose term (terminal_of number token.now)) }
{
    match token {
        Token::Close => operand_taken(alloc, level, spot, term),
        _ => Ok(None),
    }
}

/// A call that is not closed.
#[derive(Drop)]
struct Call {
    level: Level,
    name: Name,
    arguments: List<Term>,
}

fn with_argument(call: Call, term: Boxed<Term>) -> Result<Call, OutOfMemory>
    ensures { IfOk result (λ c. c ≡ record call { arguments = call.arguments ++ term ∷ [] }) }
{
    let Call {
        level,
        name,
        arguments,
    } = call;
    let arguments = with_last(arguments, term.into_inner())?;
    Ok(Call {
        level,
        name,
        arguments,
    })
}

fn frame_of(call: Call) -> Frame
    ensures { result ≡ Frame.Call call.level.sum call.level.product call.level.signs call.name call.arguments }
{
    let Call {
        level,
        name,
        arguments,
    } = call;
    let Level {
        sum,
        product,
        signs,
    } = level;
    Frame::Call {
        sum,
        product,
        signs,
        name,
        arguments,
    }
}

/// After the `(` of this frame.
pub fn pushed(spot: Spot, frame: Frame) -> Result<Option<State>, OutOfMemory>
    ensures { IfOk result (λ next. next ≡ Some (State.OperandDue Pending.Nothing Pending.Nothing 0 (frame ∷ spot.frames) spot.purpose)) }
{
    let Spot { frames, purpose } = spot;
    let frames = frames.push(frame)?;
    Ok(Some(operand_due(level_of(0), Spot { frames, purpose })))
}

fn call_closed(
    alloc: Global,
    call: Call,
    spot: Spot,
    term: Boxed<Term>,
) -> Result<Option<State>, OutOfMemory>
    ensures { IfOk result (λ next. next ≡ Some (State.OperandRead call.level.sum (join call.level.product (minuses call.level.signs (call_term call.name (call.arguments ++ term ∷ [])))) spot.frames spot.purpose)) }
{
    let Call {
        level,
        name,
        arguments,
    } = with_argument(call, term)?;
    operand_taken_new(alloc, level, spot, called(name, arguments))
}

fn call_more(call: Call, spot: Spot, term: Boxed<Term>) -> Result<Option<State>, OutOfMemory>
    ensures { IfOk result (λ next. next ≡ Some (State.OperandDue Pending.Nothing Pending.Nothing 0 (Frame.Call call.level.sum call.level.product call.level.signs call.name (call.arguments ++ term ∷ []) ∷ spot.frames) spot.purpose)) }
{
    let call = with_argument(call, term)?;
    pushed(spot, frame_of(call))
}

fn call_argument_next(
    alloc: Global,
    call: Call,
    spot: Spot,
    term: Boxed<Term>,
    token: &Token,
    number: u32,
) -> Result<Option<State>, OutOfMemory>
    ensures { IfOk result (λ next. next ≡ term_next (Frame.Call call.level.sum call.level.product call.level.signs call.name call.arguments ∷ spot.frames) spot.purpose term (terminal_of number token.now)) }
{
    match token {
        Token::Close => call_closed(alloc, call, spot, term),
        Token::Comma => call_more(call, spot, term),
        _ => Ok(None),
    }
}

fn frame_next(
    alloc: Global,
    frame: Frame,
    spot: Spot,
    term: Boxed<Term>,
    token: &Token,
    number: u32,
) -> Result<Option<State>, OutOfMemory>
    ensures { IfOk result (λ next. next ≡ term_next (frame ∷ spot.frames) spot.purpose term (terminal_of number token.now)) }
{
    match frame {
        Frame::Group {
            sum,
            product,
            signs,
        } => group_next(
            alloc,
            Level {
                sum,
                product,
                signs,
            },
            spot,
            term,
            token,
            number,
        ),
        Frame::Call {
            sum,
            product,
            signs,
            name,
            arguments,
        } => {
            let level = Level {
                sum,
                product,
                signs,
            };
            call_argument_next(
                alloc,
                Call {
                    level,
                    name,
                    arguments,
                },
                spot,
                term,
                token,
                number,
            )
        }
    }
}

fn after_term(
    alloc: Global,
    spot: Spot,
    term: Boxed<Term>,
    token: &Token,
    number: u32,
) -> Result<Option<State>, OutOfMemory>
    ensures { IfOk result (λ next. next ≡ term_next spot.frames spot.purpose term (terminal_of number token.now)) }
{
    let Spot { frames, purpose } = spot;
    let mut frames = frames;
    match frames.pop() {
        None => outermost_next(alloc, purpose.into_inner(), term, token, number),
        Some(frame) => frame_next(alloc, frame, Spot { frames, purpose }, term, token, number),
    }
}

fn sum_begun(
    alloc: Global,
    op: ArithOp,
    sum: Pending,
    term: Boxed<Term>,
    spot: Spot,
) -> Result<Option<State>, OutOfMemory>
    ensures { IfOk result (λ next. next ≡ Some (State.OperandDue (Pending.Waiting op (join sum term)) Pending.Nothing 0 spot.frames spot.purpose)) }
{
    let term = joined(alloc, sum, term)?;
    let level = Level {
        sum: Pending::Waiting(op, term),
        product: Pending::Nothing,
        signs: 0,
    };
    Ok(Some(operand_due(level, spot)))
}

fn product_begun(op: ArithOp, sum: Pending, term: Boxed<Term>, spot: Spot) -> Option<State>
    ensures { result ≡ Some (State.OperandDue sum (Pending.Waiting op term) 0 spot.frames spot.purpose) }
{
    let level = Level {
        sum,
        product: Pending::Waiting(op, term),
        signs: 0,
    };
    Some(operand_due(level, spot))
}

fn sum_done(
    alloc: Global,
    sum: Pending,
    term: Boxed<Term>,
    spot: Spot,
    token: &Token,
    number: u32,
) -> Result<Option<State>, OutOfMemory>
    ensures { IfOk result (λ next. next ≡ term_next spot.frames spot.purpose (join sum term) (terminal_of number token.now)) }
{
    let term = joined(alloc, sum, term)?;
    after_term(alloc, spot, term, token, number)
}

/// After an operand, where `sum` waits for the product so far.
pub fn operand_next(
    alloc: Global,
    sum: Pending,
    term: Boxed<Term>,
    spot: Spot,
    token: &Token,
    number: u32,
) -> Result<Option<State>, OutOfMemory>
    ensures { IfOk result (λ next. next ≡ operand_next sum term spot.frames spot.purpose (terminal_of number token.now)) }
{
    match token {
        Token::Star => Ok(product_begun(ArithOp::Mul, sum, term, spot)),
        Token::Slash => Ok(product_begun(ArithOp::Div, sum, term, spot)),
        Token::Plus => sum_begun(alloc, ArithOp::Add, sum, term, spot),
        Token::Minus => sum_begun(alloc, ArithOp::Sub, sum, term, spot),
        _ => sum_done(alloc, sum, term, spot, token, number),
    }
}
