//! Comments.
//!
//! A line comment goes up to the next line feed or the end of the text. A block comment goes from `%*` to the next `*%`, and doesn't
//! nest; the star of its `%*` doesn't serve for its `*%` too, so `%*%` is open.

ghost use Rattle.std.specs.Prelude.{◌≡◌, ◌≤◌, length, IfSome};
ghost use Rattle.asp_lexer.specs.Lexemes.{is_block_end, block_length, comment_lexeme};

use crate::bytes::line_len;
use crate::lexeme::Lexeme;

// The second byte of `*%`.
fn is_block_end(previous: u8, byte: u8) -> bool
    ensures { result ≡ is_block_end previous byte }
{
    previous == b'*' && byte == b'%'
}

// How many bytes there are up to the first `*%` and with it.
fn block_length(bytes: &[u8]) -> Option<usize>
    ensures is { result ≡ block_length 0 bytes.now }
    ensures within { IfSome result (λ n. n ≤ length bytes.now) }
{
    let mut previous = 0;
    for (i, byte) in bytes.iter().enumerate() {
        if is_block_end(previous, *byte) {
            return Some(i + 1);
        }
        previous = *byte;
    }
    None
}

/// The comment that `%` begins, with the bytes behind it.
pub fn read_comment(bytes: &[u8]) -> Lexeme
    ensures { result ≡ comment_lexeme bytes.now }
{
    let Some((first, rest)) = bytes.split_first() else {
        return Lexeme::Skipped(1);
    };
    if *first != b'*' {
        return Lexeme::Skipped(line_len(bytes) + 1);
    }
    match block_length(rest) {
        Some(len) => Lexeme::Skipped(len + 2),
        None => Lexeme::Bad,
    }
}
