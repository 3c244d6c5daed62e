//! One token of a statement, in each state.

ghost use Rattle.std.specs.Prelude.{◌≡◌, IfOk};
ghost use Rattle.asp_grammar.specs.Terminals.{terminal_of};
ghost use Rattle.parsing_machine.specs.Fitting.{Fits};
ghost use Rattle.asp_grammar.specs.Reading.{signs_of};
ghost use Rattle.asp_grammar.specs.Machine.{step};

use crate::aggregates::{function_closed_next, kind_next};
use crate::beginnings::{
    body_next, brace_closed_next, brace_due_next, brace_opened_next, condition_opened_next,
    due_next, sign_next, start_next,
};
use crate::elements::{compare_next, element_due_next, elements_opened_next};
use crate::literals::{arguments_next, name_next, opened_next};
use crate::operands::{call_next, operand, symbol_next};
use crate::states::{Level, Spot};
use crate::terms::operand_next;
use alpha_outside::OutOfMemory;
use asp_grammar::State;
use asp_syntax::Token;
use std::alloc::Global;

/// One step of a statement. None says that the token is refused.
pub fn step(
    alloc: Global,
    state: State,
    token: &Token,
    number: u32,
) -> Result<Option<State>, OutOfMemory>
    requires fits { Fits (signs_of state) token.now }
    ensures { IfOk result (λ next. next ≡ step state (terminal_of number token.now)) }
{
    match state {
        State::Starting => start_next(alloc, token, number),
        State::BodyOpened(head) => body_next(alloc, head, token, number),
        State::BraceDue(left) => brace_due_next(left, token, number),
        State::BraceOpened(left) => brace_opened_next(alloc, left, token, number),
        State::BraceClosed { left, elements } => brace_closed_next(
            alloc, left, elements, token, number,
        ),
        State::CompareRead {
            denied,
            head,
            items,
            op,
            first: term,
        } => compare_next(alloc, denied, head, items, op, term, token, number),
        State::KindRead { opening, kind } => kind_next(opening, kind, token, number),
        State::ElementsOpened { opening, kind } => elements_opened_next(
            alloc, opening, kind, token, number,
        ),
        State::ElementDue {
            opening,
            kind,
            elements,
        } => element_due_next(alloc, opening, kind, elements, token, number),
        State::FunctionClosed {
            opening,
            kind,
            elements,
        } => function_closed_next(alloc, opening, kind, elements, token, number),
        State::ConditionOpened(owner) => condition_opened_next(alloc, owner, token, number),
        State::LiteralDue(role) => due_next(alloc, role.into_inner(), token, number),
        State::SignRead(role) => sign_next(alloc, role.into_inner(), token, number),
        State::NameRead {
            role,
            negated,
            name,
        } => name_next(alloc, role, negated, name, token, number),
        State::ArgumentsOpened {
            role,
            negated,
            name,
        } => opened_next(alloc, role, negated, name, token, number),
        State::ArgumentsRead {
            role,
            negated,
            name,
            arguments,
        } => arguments_next(
            alloc,
            role.into_inner(),
            negated,
            name,
            arguments,
            token,
            number,
        ),
        State::OperandDue {
            sum,
            product,
            signs,
            frames,
            purpose,
        } => operand(
            alloc,
            Level {
                sum,
                product,
                signs,
            },
            Spot { frames, purpose },
            token,
            number,
        ),
        State::SymbolRead {
            sum,
            product,
            signs,
            frames,
            purpose,
            name,
        } => symbol_next(
            alloc,
            Level {
                sum,
                product,
                signs,
            },
            Spot { frames, purpose },
            name,
            token,
            number,
        ),
        State::CallOpened {
            sum,
            product,
            signs,
            frames,
            purpose,
            name,
        } => call_next(
            alloc,
            Level {
                sum,
                product,
                signs,
            },
            Spot { frames, purpose },
            name,
            token,
            number,
        ),
        State::OperandRead {
            sum,
            term,
            frames,
            purpose,
        } => operand_next(alloc, sum, term, Spot { frames, purpose }, token, number),
        State::Ended { head: _, items: _ } => Ok(None),
    }
}
