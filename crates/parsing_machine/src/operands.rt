//! What may stand where an operand must begin.

ghost use Rattle.std.specs.Prelude.{Some, suc, ◌≡◌, ◌<◌, ◌≤◌, [], ◌∷◌, IfOk};
ghost use Rattle.asp_grammar.specs.Terminals.{terminal_of};
ghost use Rattle.parsing_machine.specs.Fitting.{Fits};
ghost use Rattle.asp_syntax.specs.WellFormed.{largest};
ghost use Rattle.asp_grammar.specs.Machine.{join, minuses, numbered, operand, operand_next, symbol_next, call_next};

use crate::parts::{boxed, copied, joined, number_term, with_minuses};
use crate::states::{Level, Spot, level_of, operand_due, operand_read, spot_of};
use crate::terms::{operand_next, operand_taken_new, pushed};
use alpha_outside::{List, Name, OutOfMemory};
use asp_grammar::{Frame, Pending, Purpose, State, TermRole};
use asp_syntax::{Term, Token};
use std::alloc::Global;

fn more_signs(level: Level, spot: Spot) -> Result<Option<State>, OutOfMemory>
    ensures { IfOk result (λ next. next ≡ Some (State.OperandDue level.sum level.product (suc level.signs) spot.frames spot.purpose)) }
{
    let Level {
        sum,
        product,
        signs,
    } = level;
    match signs.checked_add(1) {
        Some(signs) => Ok(Some(operand_due(
            Level {
                sum,
                product,
                signs,
            },
            spot,
        ))),
        None => Err(OutOfMemory),
    }
}

fn group_opened(level: Level, spot: Spot) -> Result<Option<State>, OutOfMemory>
    ensures { IfOk result (λ next. next ≡ Some (State.OperandDue Pending.Nothing Pending.Nothing 0 (Frame.Group level.sum level.product level.signs ∷ spot.frames) spot.purpose)) }
{
    let Level {
        sum,
        product,
        signs,
    } = level;
    pushed(
        spot,
        Frame::Group {
            sum,
            product,
            signs,
        },
    )
}

fn symbol_begun(
    alloc: Global,
    level: Level,
    spot: Spot,
    name: &Name,
) -> Result<Option<State>, OutOfMemory>
    ensures { IfOk result (λ next. next ≡ Some (State.SymbolRead level.sum level.product level.signs spot.frames spot.purpose name.now)) }
{
    let name = copied(alloc, name)?;
    let Level {
        sum,
        product,
        signs,
    } = level;
    let Spot { frames, purpose } = spot;
    Ok(Some(State::SymbolRead {
        sum,
        product,
        signs,
        frames,
        purpose,
        name,
    }))
}

fn text_taken(
    alloc: Global,
    level: Level,
    spot: Spot,
    name: &Name,
) -> Result<Option<State>, OutOfMemory>
    ensures { IfOk result (λ next. next ≡ Some (State.OperandRead level.sum (join level.product (minuses level.signs (Term.Text name.now))) spot.frames spot.purpose)) }
{
    let name = copied(alloc, name)?;
    operand_taken_new(alloc, level, spot, Term::Text(name))
}

fn variable_taken(
    alloc: Global,
    level: Level,
    spot: Spot,
    name: &Name,
) -> Result<Option<State>, OutOfMemory>
    ensures { IfOk result (λ next. next ≡ Some (State.OperandRead level.sum (join level.product (minuses level.signs (Term.Variable name.now))) spot.frames spot.purpose)) }
{
    let name = copied(alloc, name)?;
    operand_taken_new(alloc, level, spot, Term::Variable(name))
}

fn number_taken(
    alloc: Global,
    level: Level,
    spot: Spot,
    value: u64,
) -> Result<Option<State>, OutOfMemory>
    requires most { value ≤ largest }
    requires fits { level.signs ≡ 0 → value < largest }
    ensures { IfOk result (λ s. s ≡ Some (State.OperandRead level.sum (join level.product (numbered level.signs value)) spot.frames spot.purpose)) }
{
    let Level {
        sum,
        product,
        signs,
    } = level;
    let term = number_term(alloc, signs, value)?;
    let term = joined(alloc, product, term)?;
    Ok(Some(operand_read(sum, term, spot)))
}

/// Where an operand must begin, after so many minus signs.
pub fn operand(
    alloc: Global,
    level: Level,
    spot: Spot,
    token: &Token,
    number: u32,
) -> Result<Option<State>, OutOfMemory>
    requires fits { Fits level.signs token.now }
    ensures { IfOk result (λ next. next ≡ operand level.sum level.product level.signs spot.frames spot.purpose (terminal_of number token.now)) }
{
    match token {
        Token::Minus => more_signs(level, spot),
        Token::Open => group_opened(level, spot),
        Token::Id(name) => symbol_begun(alloc, level, spot, name),
        Token::Number(value) => number_taken(alloc, level, spot, *value),
        Token::Text(name) => text_taken(alloc, level, spot, name),
        Token::Variable(name) => variable_taken(alloc, level, spot, name),
        Token::Anonymous => operand_taken_new(alloc, level, spot, Term::Anonymous(number)),
        _ => Ok(None),
    }
}

/// The first token of a term, for this purpose.
pub fn purpose_begun(
    alloc: Global,
    purpose: Purpose,
    signs: u32,
    token: &Token,
    number: u32,
) -> Result<Option<State>, OutOfMemory>
    requires fits { Fits signs token.now }
    ensures { IfOk result (λ next. next ≡ operand Pending.Nothing Pending.Nothing signs [] purpose (terminal_of number token.now)) }
{
    let spot = spot_of(alloc, purpose)?;
    operand(alloc, level_of(signs), spot, token, number)
}

/// The first token of a term, in this role.
pub fn term_begun(
    alloc: Global,
    role: TermRole,
    signs: u32,
    token: &Token,
    number: u32,
) -> Result<Option<State>, OutOfMemory>
    requires fits { Fits signs token.now }
    ensures { IfOk result (λ next. next ≡ operand Pending.Nothing Pending.Nothing signs [] (Purpose.ForTerm role) (terminal_of number token.now)) }
{
    let role = boxed(alloc, role)?;
    purpose_begun(alloc, Purpose::ForTerm(role), signs, token, number)
}

fn call_begun(level: Level, spot: Spot, name: Name) -> Result<Option<State>, OutOfMemory>
    ensures { IfOk result (λ next. next ≡ Some (State.CallOpened level.sum level.product level.signs spot.frames spot.purpose name)) }
{
    let Level {
        sum,
        product,
        signs,
    } = level;
    let Spot { frames, purpose } = spot;
    Ok(Some(State::CallOpened {
        sum,
        product,
        signs,
        frames,
        purpose,
        name,
    }))
}

fn symbol_done(
    alloc: Global,
    level: Level,
    spot: Spot,
    name: Name,
    token: &Token,
    number: u32,
) -> Result<Option<State>, OutOfMemory>
    ensures { IfOk result (λ next. next ≡ operand_next level.sum (join level.product (minuses level.signs (Term.Symbol name))) spot.frames spot.purpose (terminal_of number token.now)) }
{
    let Level {
        sum,
        product,
        signs,
    } = level;
    let term = boxed(alloc, Term::Symbol(name))?;
    let term = with_minuses(alloc, signs, term)?;
    let term = joined(alloc, product, term)?;
    operand_next(alloc, sum, term, spot, token, number)
}

/// After a name in a term.
pub fn symbol_next(
    alloc: Global,
    level: Level,
    spot: Spot,
    name: Name,
    token: &Token,
    number: u32,
) -> Result<Option<State>, OutOfMemory>
    ensures { IfOk result (λ next. next ≡ symbol_next level.sum level.product level.signs spot.frames spot.purpose name (terminal_of number token.now)) }
{
    match token {
        Token::Open => call_begun(level, spot, name),
        _ => symbol_done(alloc, level, spot, name, token, number),
    }
}

fn first_argument(
    alloc: Global,
    level: Level,
    spot: Spot,
    name: Name,
    token: &Token,
    number: u32,
) -> Result<Option<State>, OutOfMemory>
    requires fits { Fits 0 token.now }
    ensures { IfOk result (λ next. next ≡ operand Pending.Nothing Pending.Nothing 0 (Frame.Call level.sum level.product level.signs name [] ∷ spot.frames) spot.purpose (terminal_of number token.now)) }
{
    let Level {
        sum,
        product,
        signs,
    } = level;
    let Spot { frames, purpose } = spot;
    let frames = frames.push(Frame::Call {
        sum,
        product,
        signs,
        name,
        arguments: List::new(alloc),
    })?;
    operand(alloc, level_of(0), Spot { frames, purpose }, token, number)
}

/// After a name and `(` in a term.
pub fn call_next(
    alloc: Global,
    level: Level,
    spot: Spot,
    name: Name,
    token: &Token,
    number: u32,
) -> Result<Option<State>, OutOfMemory>
    requires fits { Fits 0 token.now }
    ensures { IfOk result (λ next. next ≡ call_next level.sum level.product level.signs spot.frames spot.purpose name (terminal_of number token.now)) }
{
    match token {
        Token::Close => operand_taken_new(alloc, level, spot, Term::Symbol(name)),
        _ => first_argument(alloc, level, spot, name, token, number),
    }
}
