//! The words of a command line.

ghost use Rattle.std.specs.Prelude.{◌≡◌, IfOk, IfErr, map, string_bytes, None, Some};
ghost use Rattle.command_line.specs.Commands.{asked, asked_of_solve};
ghost use Rattle.command_line.specs.Plain.{IsPlain};
ghost use Rattle.command_line.specs.declared.request.Solve.{Solve};
ghost use Rattle.command_line.specs.declared.words.WordsFault.TheVariants.{Usage};

use crate::Solve;
use crate::command::read_matches;
use crate::request::request_of;
use std::alloc::Global;

/// Why words give no request.
#[derive(Clone, Copy, Debug, PartialEq, Eq)]
pub enum WordsFault {
    /// The words are refused.
    Usage,
    OutOfMemory,
}

/// What the words ask for. The name of the program is none of them.
pub fn read_words(alloc: Global, words: &[String]) -> Result<Solve, WordsFault>
    // what is answered is what the words ask for
    ensures request { IfOk result (λ r. asked (map string_bytes words.now) ≡ Some r) }
    // words are refused only where they ask for nothing
    ensures usage { IfErr result (λ e. e ≡ Usage → asked (map string_bytes words.now) ≡ None) }
    // words that are written plainly ask for just what they say
    ensures plain { (r : Solve) → IsPlain (map string_bytes words.now) r → asked (map string_bytes words.now) ≡ Some r }
{
    match words.split_first() {
        Some((command, rest)) if command.as_str() == "solve" => read_solve(alloc, rest),
        _ => Err(WordsFault::Usage),
    }
}

// What the words behind `solve` ask for.
fn read_solve(alloc: Global, words: &[String]) -> Result<Solve, WordsFault>
    ensures request { IfOk result (λ r. asked_of_solve (map string_bytes words.now) ≡ Some r) }
    ensures usage { IfErr result (λ e. e ≡ Usage → asked_of_solve (map string_bytes words.now) ≡ None) }
{
    match read_matches(alloc, words) {
        Ok(matches) => request_of(alloc, &matches),
        Err(fault) => Err(fault),
    }
}
