//! Strings.
//!
//! A string ends at the first quote that isn't directly after a backslash, in its own line. Only the byte before a quote counts, so
//! a quote after two backslashes ends nothing. The value of a string is its raw bytes, with the backslashes.

ghost use Rattle.std.specs.Prelude.{◌≡◌, ◌<◌, length, IfOk, IfSome};
ghost use Rattle.asp_syntax.specs.Bytes.{quote};
ghost use Rattle.asp_lexer.specs.Lexemes.{is_closing, closing_quote, text_lexeme};

use crate::bytes::first_bytes;
use crate::lexeme::Lexeme;
use alpha_outside::{Name, OutOfMemory};
use asp_syntax::Token;
use std::alloc::Global;

// A quote that isn't directly after a backslash.
fn is_closing(previous: u8, byte: u8) -> bool
    ensures { result ≡ is_closing previous byte }
{
    byte == b'"' && previous != b'\\'
}

/// How many bytes stand before the quote that ends a string, behind the quote that begins it.
pub fn closing_quote(bytes: &[u8]) -> Option<usize>
    ensures is { result ≡ closing_quote quote bytes.now }
    ensures within { IfSome result (λ n. n < length bytes.now) }
{
    let mut previous = b'"';
    for (i, byte) in bytes.iter().enumerate() {
        if *byte == b'\n' {
            return None;
        }
        if is_closing(previous, *byte) {
            return Some(i);
        }
        previous = *byte;
    }
    None
}

/// The string that a quote begins, with the bytes behind it.
pub fn read_string(alloc: Global, bytes: &[u8]) -> Result<Lexeme, OutOfMemory>
    ensures { IfOk result (λ found. found ≡ text_lexeme bytes.now (closing_quote quote bytes.now)) }
{
    let Some(len) = closing_quote(bytes) else {
        return Ok(Lexeme::Bad);
    };
    let inside = Name::from_bytes(alloc, first_bytes(bytes, len))?;
    Ok(Lexeme::Token(Token::Text(inside), len + 2))
}
