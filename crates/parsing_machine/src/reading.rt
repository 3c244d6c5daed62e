//! One token of a program, from statement to statement; and the program that is read where the tokens end.
//!
//! A caller keeps the progress, and counts the `_` of the tokens that were passed.

ghost use Rattle.std.specs.Prelude.{◌≡◌, ◌<◌, [], Some, IfOk, is_some};
ghost use Rattle.asp_grammar.specs.Machine.{step};
ghost use Rattle.asp_grammar.specs.Terminals.{terminal_of, anonymous_after};
ghost use Rattle.asp_grammar.specs.Reading.{settled, settle, advance_on, standing, program_at, signs_of, signs_in};
ghost use Rattle.parsing_machine.specs.Fitting.{Fits};

use crate::steps::step;
use alpha_outside::{List, OutOfMemory};
use asp_grammar::{Progress, State};
use asp_syntax::{Program, Statement, Token};
use std::alloc::Global;

/// Where a reader stands before the first token.
pub fn start(alloc: Global) -> Progress
    ensures { Some result ≡ standing [] }
{
    Progress::Between(List::new(alloc))
}

/// How many `_` stand before what follows the token, where `count` stand before the token.
pub fn count_after(token: &Token, count: u32) -> u32
    requires { count < 4294967295 }
    ensures { result ≡ anonymous_after count token.now }
{
    match token {
        Token::Anonymous => count + 1,
        _ => count,
    }
}

fn signs_of(state: &State) -> u32
    ensures { result ≡ signs_of state.now }
{
    match state {
        State::SignRead(_) => 1,
        State::OperandDue {
            sum: _,
            product: _,
            signs,
            frames: _,
            purpose: _,
        } => *signs,
        _ => 0,
    }
}

/// How many unary minuses wait for their operand.
pub fn signs_in(progress: &Progress) -> u32
    ensures { result ≡ signs_in progress.now }
{
    match progress {
        Progress::Between(_) => 0,
        Progress::Inside {
            done: _,
            line: _,
            state,
        } => signs_of(state),
    }
}

fn settled(done: List<Statement>, line: u32, state: State) -> Result<Progress, OutOfMemory>
    ensures { IfOk result (λ p. p ≡ settled done line state) }
{
    match state {
        State::Ended { head, items } => {
            let mut done = done;
            done.push(Statement {
                line,
                head: head.into_inner(),
                body: items,
            })?;
            Ok(Progress::Between(done))
        }
        state => Ok(Progress::Inside { done, line, state }),
    }
}

fn advanced(
    alloc: Global,
    done: List<Statement>,
    line: u32,
    state: State,
    token: &Token,
    count: u32,
) -> Result<Option<Progress>, OutOfMemory>
    requires fits { Fits (signs_of state) token.now }
    ensures { IfOk result (λ next. next ≡ settle done line (step state (terminal_of count token.now))) }
{
    match step(alloc, state, token, count)? {
        None => Ok(None),
        Some(state) => Ok(Some(settled(done, line, state)?)),
    }
}

/// Where a reader stands after the token on its line, before which `count` times `_` stand; or `None`, where the token may not
/// stand there.
pub fn advance(
    alloc: Global,
    progress: Progress,
    token: &Token,
    line: u32,
    count: u32,
) -> Result<Option<Progress>, OutOfMemory>
    requires fits { Fits (signs_in progress) token.now }
    ensures { IfOk result (λ next. next ≡ advance_on progress count line token.now) }
{
    match progress {
        Progress::Between(done) => advanced(alloc, done, line, State::Starting, token, count),
        Progress::Inside {
            done,
            line: first,
            state,
        } => advanced(alloc, done, first, state, token, count),
    }
}

/// Whether a program may end here.
pub fn may_end(progress: &Progress) -> bool
    ensures { result ≡ is_some (program_at (Some progress.now)) }
{
    match progress {
        Progress::Between(_) => true,
        Progress::Inside {
            done: _,
            line: _,
            state: _,
        } => false,
    }
}

/// The program that is read where the tokens end here; or `None`, where they end inside a statement.
pub fn finish(progress: Progress) -> Option<Program>
    ensures { result ≡ program_at (Some progress) }
{
    match progress {
        Progress::Between(statements) => Some(Program { statements }),
        Progress::Inside {
            done: _,
            line: _,
            state: _,
        } => None,
    }
}
