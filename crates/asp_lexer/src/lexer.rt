//! Reading a text from its start to its end.
//!
//! In each turn what stands first in the bytes that are left is passed over or taken as a token. Each byte is looked at a few times
//! at most, so the time is linear. What has been taken and what is left together are always the whole text, so at the end the tokens
//! are those of the text; and a text is read in one way only, so where it can't be read on, it has no tokens at all.

ghost use Rattle.std.specs.Prelude.{◌≡◌, ◌≤◌, ◌<◌, ◌+◌, ◌-◌, ◌^◌, ◌==◌, ℕ, List, length, take, drop, count_by, Ok, Err, IfOk, IfErr};
ghost use Rattle.lists.specs.Lists.{Each};
ghost use Rattle.asp_syntax.specs.declared.token.Spanned.{Spanned as Placed};
ghost use Rattle.asp_syntax.specs.Places.{IsRising};
ghost use Rattle.asp_syntax.specs.WellFormed.{IsWellFormed};
ghost use Rattle.asp_lexer.specs.Lexing.{line_feeds, AreTokens, IsFirstBad, IsFirstTooLarge};
ghost use Rattle.asp_lexer.specs.Answer.{IsFault, IsAnswer, Gives, bad_at, too_large_at, HasOneList, HasOneAnswer};

use crate::fault::LexFault;
use crate::first::read_first;
use crate::lexeme::Lexeme;
use alpha_outside::List;
use asp_syntax::{Place, Spanned};
use std::alloc::Global;

// The bytes from a place on.
fn rest_from(text: &[u8], at: usize) -> &[u8]
    requires { at ≤ length text.now }
    ensures { result.now ≡ drop at text.now }
{
    &text[at..]
}

// How many line feeds the first bytes have.
fn feeds_in(bytes: &[u8], len: usize) -> u32
    requires within { len ≤ length bytes.now }
    requires short { length bytes.now < 2 ^ 32 }
    ensures is { result ≡ line_feeds (take len bytes.now) }
    ensures most { result ≤ len }
{
    let first = &bytes[..len];
    first.iter().filter(|byte| **byte == b'\n').count() as u32
}

// The tokens, or the fault.
fn read_all(alloc: Global, text: &[u8]) -> Result<List<Spanned>, LexFault>
    requires { length text.now < 4294967295 }
    ensures { IsAnswer text.now result }
{
    let mut tokens = List::new(alloc);
    let mut line = 1u32;
    let mut at = 0;
    'turns: while at < text.len() {
        let rest = rest_from(text, at);
        let place = Place(at as u32);
        let Ok(first) = read_first(alloc, rest) else {
            return Err(LexFault::OutOfMemory);
        };
        match first {
            Lexeme::Skipped(len) => {
                line += feeds_in(rest, len);
                at += len;
            }
            Lexeme::Token(token, len) => {
                let spanned = Spanned {
                    token,
                    at: place,
                    line,
                };
                let Ok(()) = tokens.push(spanned) else {
                    return Err(LexFault::OutOfMemory);
                };
                line += feeds_in(rest, len);
                at += len;
            }
            Lexeme::TooLarge(_) => return Err(LexFault::NumberTooLarge { at: place }),
            Lexeme::Bad => return Err(LexFault::Lex { at: place }),
        }
    }
    Ok(tokens)
}

/// The tokens of a text: the longest at each place, up to the text's end.
///
/// Blanks are space, tab, line feed and carriage return; `%` begins a comment to the end of its line, and `%*` one to the next `*%`.
/// A place is the number of bytes before the token's first byte, and a line is counted from 1, by line feeds.
///
/// # Errors
/// `Lex` and `NumberTooLarge` where the text can't be read, whichever comes first in it; `OutOfMemory` for want of memory alone.
pub fn lex(alloc: Global, text: &[u8]) -> Result<List<Spanned>, LexFault>
    requires short { length text.now < 4294967295 }

    // Tokens are those of the text, and a fault is the text's own.
    ensures tokens { IfOk result (AreTokens text.now) }
    ensures fault { IfErr result (IsFault text.now) }

    // A text that has tokens gives them, and one with bad bytes or a too large number first names their place.
    ensures all_tokens { (tokens : List Placed) → AreTokens text.now tokens → Gives result (Ok tokens) }
    ensures each_bad { (at : ℕ) → IsFirstBad text.now at → Gives result (Err (bad_at at)) }
    ensures each_too_large { (at : ℕ) → IsFirstTooLarge text.now at → Gives result (Err (too_large_at at)) }

    // A parser may ask that the places rise and lie within the text, and that names, texts and numbers are right.
    ensures rising { IfOk result (IsRising 0 (length text.now)) }
    ensures well_formed { IfOk result (Each (λ spanned. IsWellFormed spanned.token)) }

    // Of the text alone: it has at most one list of tokens, and just one of the three answers.
    ensures one_list { HasOneList text.now }
    ensures one_answer { HasOneAnswer text.now }
{
    read_all(alloc, text)
}
