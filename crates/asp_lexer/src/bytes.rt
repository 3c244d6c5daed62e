//! Classes of bytes, and how many bytes of a class stand first.
//!
//! Letters and digits are those of ASCII, so a byte above 127 is in no class.

ghost use Rattle.std.specs.Prelude.{◌≡◌, ◌≤◌, length, take, take_while};
ghost use Rattle.std.specs.List.{prefix_len};
ghost use Rattle.asp_syntax.specs.Bytes.{is_lower, is_upper, is_letter, is_digit, is_word, is_blank};
ghost use Rattle.asp_lexer.specs.Lexing.{is_in_line};
ghost use Rattle.asp_lexer.specs.Lexemes.{first_is};

pub fn is_lower(byte: u8) -> bool
    ensures { result ≡ is_lower byte }
{
    byte >= b'a' && byte <= b'z'
}

pub fn is_upper(byte: u8) -> bool
    ensures { result ≡ is_upper byte }
{
    byte >= b'A' && byte <= b'Z'
}

pub fn is_letter(byte: u8) -> bool
    ensures { result ≡ is_letter byte }
{
    is_lower(byte) || is_upper(byte)
}

pub fn is_digit(byte: u8) -> bool
    ensures { result ≡ is_digit byte }
{
    byte >= b'0' && byte <= b'9'
}

/// A byte of a name behind its first.
pub fn is_word(byte: u8) -> bool
    ensures { result ≡ is_word byte }
{
    is_letter(byte) || is_digit(byte) || byte == b'_'
}

pub fn is_blank(byte: u8) -> bool
    ensures { result ≡ is_blank byte }
{
    byte == b' ' || byte == b'\t' || byte == b'\n' || byte == b'\r'
}

/// The first bytes.
pub fn first_bytes(bytes: &[u8], len: usize) -> &[u8]
    requires { len ≤ length bytes.now }
    ensures { result.now ≡ take len bytes.now }
{
    &bytes[..len]
}

/// Whether the first byte is this one.
pub fn first_is(bytes: &[u8], wanted: u8) -> bool
    ensures { result ≡ first_is wanted bytes.now }
{
    match bytes.first() {
        Some(byte) => *byte == wanted,
        None => false,
    }
}

/// How many letters, digits and `_` stand first.
pub fn word_len(bytes: &[u8]) -> usize
    ensures is { result ≡ prefix_len is_word bytes.now }
    ensures within { result ≤ length bytes.now }
{
    bytes.iter().take_while(|byte| is_word(**byte)).count()
}

/// How many digits stand first.
pub fn digits_len(bytes: &[u8]) -> usize
    ensures is { result ≡ prefix_len is_digit bytes.now }
    ensures within { result ≤ length bytes.now }
{
    bytes.iter().take_while(|byte| is_digit(**byte)).count()
}

/// How many letters stand first.
pub fn letters_len(bytes: &[u8]) -> usize
    ensures is { result ≡ prefix_len is_letter bytes.now }
    ensures within { result ≤ length bytes.now }
{
    bytes.iter().take_while(|byte| is_letter(**byte)).count()
}

/// How many bytes stand before the first line feed, or the end.
pub fn line_len(bytes: &[u8]) -> usize
    ensures is { result ≡ prefix_len is_in_line bytes.now }
    ensures within { result ≤ length bytes.now }
{
    bytes.iter().take_while(|byte| **byte != b'\n').count()
}
