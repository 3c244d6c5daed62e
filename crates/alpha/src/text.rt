//! From a text to its program: tokens, the tree, and whether each of its statements is built.

ghost use Rattle.std.specs.Prelude.{◌≡◌, ◌≤◌, length, None, IfOk, IfErr};
ghost use Rattle.asp_syntax.specs.Trees.{IsWellFormedProgram};
ghost use Rattle.alpha.specs.Built.{unbuilt};
ghost use Rattle.alpha.specs.TextAnswers.{IsBuiltText, IsStopOf, lex_status, parse_status};

use crate::built::unbuilt;
use crate::status::{Refusal, Status};
use asp_lexer::{LexFault, lex};
use asp_parser::{ParseFault, parse};
use asp_syntax::{Place, Program};
use std::alloc::Global;

// The status for a text that has no tokens.
fn lex_status(fault: LexFault) -> Status
    ensures { result ≡ lex_status fault }
{
    match fault {
        LexFault::Lex { at } => Status::Refused(Refusal::Lex { at }),
        LexFault::NumberTooLarge { at } => Status::Refused(Refusal::NumberTooLarge { at }),
        LexFault::OutOfMemory => Status::OutOfMemory,
    }
}

// The status for tokens that are refused.
fn parse_status(fault: ParseFault) -> Status
    ensures { result ≡ parse_status fault }
{
    match fault {
        ParseFault::Unsupported { at, what } => Status::Refused(Refusal::Unsupported { at, what }),
        ParseFault::Syntax { at } => Status::Refused(Refusal::Syntax { at }),
        ParseFault::TooDeep { at } => Status::Refused(Refusal::TooDeep { at }),
        ParseFault::NumberTooLarge { at } => Status::Refused(Refusal::NumberTooLarge { at }),
        ParseFault::OutOfMemory => Status::OutOfMemory,
    }
}

/// The program of a text, each of whose statements is built; or the status with which the run ends.
pub fn read_text(alloc: Global, text: &[u8]) -> Result<Program, Status>
    requires { length text.now ≤ 16842752 }
    ensures program { IfOk result (λ program. IsBuiltText text.now program.statements) }
    ensures well_formed { IfOk result IsWellFormedProgram }
    ensures built { IfOk result (λ program. unbuilt program.statements ≡ None) }
    ensures stop { IfErr result (IsStopOf text.now) }
{
    let tokens = match lex(alloc, text) {
        Ok(tokens) => tokens,
        Err(fault) => return Err(lex_status(fault)),
    };
    let end = Place(text.len() as u32);
    let program = match parse(alloc, tokens.as_slice(), end) {
        Ok(program) => program,
        Err(fault) => return Err(parse_status(fault)),
    };
    match unbuilt(&program) {
        None => Ok(program),
        Some(line) => Err(Status::Refused(Refusal::NotYet { line })),
    }
}
