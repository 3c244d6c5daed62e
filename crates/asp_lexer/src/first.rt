//! What stands first in bytes.
//!
//! The first byte alone says what kind of thing may begin there, and each kind is read as far as it goes. So the token that is found
//! is the longest one at its place.

ghost use Rattle.std.specs.Prelude.{◌≡◌, IfOk};
ghost use Rattle.asp_lexer.specs.Lexemes.{other_lexeme, lexeme_of};

use crate::bytes::{is_blank, is_digit, is_lower, is_upper};
use crate::comments::read_comment;
use crate::lexeme::Lexeme;
use crate::numbers::read_number;
use crate::signs::read_sign;
use crate::strings::read_string;
use crate::words::{read_hash, read_variable, read_word};
use alpha_outside::OutOfMemory;
use asp_syntax::Token;
use std::alloc::Global;

// What a byte begins that begins neither a word nor a number, with the bytes behind it.
fn read_other(alloc: Global, first: u8, rest: &[u8]) -> Result<Lexeme, OutOfMemory>
    ensures { IfOk result (λ found. found ≡ other_lexeme first rest.now) }
{
    if is_blank(first) {
        return Ok(Lexeme::Skipped(1));
    }
    if first == b'%' {
        return Ok(read_comment(rest));
    }
    if first == b'"' {
        return read_string(alloc, rest);
    }
    if first == b'#' {
        return Ok(read_hash(rest));
    }
    Ok(read_sign(first, rest))
}

/// The blank, the comment or the longest token that stands first.
pub fn read_first(alloc: Global, bytes: &[u8]) -> Result<Lexeme, OutOfMemory>
    ensures { IfOk result (λ found. found ≡ lexeme_of bytes.now) }
{
    let Some((first, rest)) = bytes.split_first() else {
        return Ok(Lexeme::Bad);
    };
    let first = *first;
    if is_lower(first) {
        return read_word(alloc, bytes);
    }
    if is_upper(first) {
        return read_variable(alloc, bytes);
    }
    if first == b'0' {
        return Ok(Lexeme::Token(Token::Number(0), 1));
    }
    if is_digit(first) {
        return Ok(read_number(bytes));
    }
    read_other(alloc, first, rest)
}
