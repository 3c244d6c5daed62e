//! What waits around an operand, and the states in which something must begin.

ghost use Rattle.std.specs.Prelude.{Some, ◌≡◌, [], IfOk};

use crate::parts::boxed;
use alpha_outside::{Boxed, OutOfMemory};
use asp_grammar::{Frame, LiteralRole, Pending, Purpose, Stack, State, TermRole};
use asp_syntax::Term;
use std::alloc::Global;

/// What waits left of an operand.
#[derive(Drop)]
pub struct Level {
    pub sum: Pending,
    pub product: Pending,
    pub signs: u32,
}

/// What a term stands in.
#[derive(Drop)]
pub struct Spot {
    pub frames: Stack<Frame>,
    pub purpose: Boxed<Purpose>,
}

/// Nothing waits but so many minus signs.
pub fn level_of(signs: u32) -> Level
    ensures { result ≡ record { sum = Pending.Nothing; product = Pending.Nothing; signs = signs } }
{
    Level {
        sum: Pending::Nothing,
        product: Pending::Nothing,
        signs,
    }
}

/// A term that is no part of another.
pub fn spot_of(alloc: Global, purpose: Purpose) -> Result<Spot, OutOfMemory>
    ensures { IfOk result (λ s. (s.frames ≡ []) × (s.purpose ≡ purpose)) }
{
    let purpose = boxed(alloc, purpose)?;
    Ok(Spot {
        frames: Stack::new(alloc),
        purpose,
    })
}

/// An operand must begin.
pub fn operand_due(level: Level, spot: Spot) -> State
    ensures { result ≡ State.OperandDue level.sum level.product level.signs spot.frames spot.purpose }
{
    State::OperandDue {
        sum: level.sum,
        product: level.product,
        signs: level.signs,
        frames: spot.frames,
        purpose: spot.purpose,
    }
}

/// An operand was read.
pub fn operand_read(sum: Pending, term: Boxed<Term>, spot: Spot) -> State
    ensures { result ≡ State.OperandRead sum term spot.frames spot.purpose }
{
    State::OperandRead {
        sum,
        term,
        frames: spot.frames,
        purpose: spot.purpose,
    }
}

/// A literal must begin.
pub fn literal_due(alloc: Global, role: LiteralRole) -> Result<Option<State>, OutOfMemory>
    ensures { IfOk result (λ next. next ≡ Some (State.LiteralDue role)) }
{
    let role = boxed(alloc, role)?;
    Ok(Some(State::LiteralDue(role)))
}

/// A term must begin, for this purpose.
pub fn purpose_due(alloc: Global, purpose: Purpose) -> Result<Option<State>, OutOfMemory>
    ensures { IfOk result (λ next. next ≡ Some (State.OperandDue Pending.Nothing Pending.Nothing 0 [] purpose)) }
{
    let spot = spot_of(alloc, purpose)?;
    Ok(Some(operand_due(level_of(0), spot)))
}

/// A term must begin, in this role.
pub fn term_due(alloc: Global, role: TermRole) -> Result<Option<State>, OutOfMemory>
    ensures { IfOk result (λ next. next ≡ Some (State.OperandDue Pending.Nothing Pending.Nothing 0 [] (Purpose.ForTerm role))) }
{
    let role = boxed(alloc, role)?;
    purpose_due(alloc, Purpose::ForTerm(role))
}
