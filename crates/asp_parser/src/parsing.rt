//! Programs from their tokens.
//!
//! The machine of the grammar takes one token after the other. It refuses a token exactly where no program goes on with it, so the
//! first refused token is the first that breaks the grammar; nesting and numbers are looked at beside it. What is kept for each token
//! taken is bounded by what is read so far, nothing is read again, and nothing recurs.

ghost use Rattle.std.specs.Prelude.{◌≡◌, ◌≤◌, List, length, Ok, Err, IfOk, IfErr};
ghost use Rattle.lists.specs.Lists.{Each};
ghost use Rattle.asp_syntax.specs.Places.{IsRising};
ghost use Rattle.asp_syntax.specs.WellFormed.{IsWellFormed};
ghost use Rattle.asp_syntax.specs.Trees.{IsWellFormedProgram};
ghost use Rattle.asp_syntax.specs.declared.tree.Program.{Program as Tree};
ghost use Rattle.asp_syntax.specs.declared.token.Place.{Place as Offset};
ghost use Rattle.asp_grammar.specs.Programs.{IsProgram};
ghost use Rattle.asp_grammar.specs.Faults.{Cause, FaultAt, Parsed};
ghost use Rattle.asp_parser.specs.Answer.{IsFault, IsOnly, IsAnswer, fault_of, Gives, HasOneAnswer};

use crate::fault::ParseFault;
use crate::nesting::{DEEPEST, nested, unnested};
use crate::taking::take;
use asp_syntax::{Place, Program, Spanned};
use parsing_machine::{count_after, finish, start};
use std::alloc::Global;

// The program, or the fault.
fn read_all(alloc: Global, tokens: &[Spanned], end: Place) -> Result<Program, ParseFault>
    requires few { length tokens.now ≤ end.0 }
    requires well_formed { Each (λ spanned. IsWellFormed spanned.token) tokens.now }
    ensures { IsAnswer tokens.now end result }
{
    let mut progress = start(alloc);
    let mut nesting = unnested(alloc);
    let mut count = 0u32;
    for token in tokens {
        match take(alloc, progress, token, count) {
            Ok(next) => progress = next,
            Err(fault) => return Err(fault),
        }
        nesting = nested(nesting, &token.token)?;
        if nesting.depth > DEEPEST {
            return Err(ParseFault::TooDeep { at: token.at });
        }
        count = count_after(&token.token, count);
    }
    match finish(progress) {
        Some(program) => Ok(program),
        None => Err(ParseFault::Syntax { at: end }),
    }
}

/// The program that the tokens are; `end` is the place behind them.
///
/// # Errors
/// The first faulty token, as `ParseFault` says for each kind of fault; `OutOfMemory` for want of memory alone.
pub fn parse(alloc: Global, tokens: &[Spanned], end: Place) -> Result<Program, ParseFault>
    requires rising { IsRising 0 end.0 tokens.now }
    requires well_formed { Each (λ spanned. IsWellFormed spanned.token) tokens.now }

    // A program is the one tree of the tokens, none of which is faulty, and a fault is the tokens' own.
    ensures program { IfOk result (IsProgram tokens.now) }
    ensures only { IfOk result (IsOnly tokens.now) }
    ensures faultless { IfOk result (Parsed tokens.now) }
    ensures tree { IfOk result IsWellFormedProgram }
    ensures fault { IfErr result (IsFault tokens.now end) }

    // Tokens without a fault give their program, and each fault is answered.
    ensures each_program { (program : Tree) → Parsed tokens.now program → Gives result (Ok program) }
    ensures each_fault { (cause : Cause) (place : Offset) → FaultAt tokens.now end cause place → Gives result (Err (fault_of cause place)) }

    // Of the tokens alone: they have just one of these answers.
    ensures one_answer { HasOneAnswer tokens.now end }
{
    read_all(alloc, tokens, end)
}
