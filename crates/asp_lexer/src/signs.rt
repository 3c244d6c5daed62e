//! Signs, of one byte or two.
//!
//! A sign of two bytes is taken before one of one byte that begins like it.

ghost use Rattle.std.specs.Prelude.{◌≡◌};
ghost use Rattle.asp_lexer.specs.Lexemes.{single_sign, single_lexeme, dot_lexeme, colon_lexeme, less_lexeme, greater_lexeme, exclamation_lexeme, sign_lexeme};

use crate::bytes::first_is;
use crate::lexeme::Lexeme;
use asp_syntax::{CompareOp, Token};

// The token of a sign that begins no longer one.
fn single_sign(byte: u8) -> Option<Token>
    ensures { result ≡ single_sign byte }
{
    match byte {
        b',' => Some(Token::Comma),
        b'(' => Some(Token::Open),
        b')' => Some(Token::Close),
        b';' => Some(Token::Semicolon),
        b'{' => Some(Token::OpenBrace),
        b'}' => Some(Token::CloseBrace),
        b'+' => Some(Token::Plus),
        b'-' => Some(Token::Minus),
        b'*' => Some(Token::Star),
        b'/' => Some(Token::Slash),
        b'=' => Some(Token::Compare(CompareOp::Equal)),
        b'_' => Some(Token::Anonymous),
        b'|' => Some(Token::Bar),
        b'\\' => Some(Token::Backslash),
        b'?' => Some(Token::Question),
        b'@' => Some(Token::At),
        b'[' => Some(Token::OpenBracket),
        b']' => Some(Token::CloseBracket),
        b'&' => Some(Token::Ampersand),
        _ => None,
    }
}

fn read_single(byte: u8) -> Lexeme
    ensures { result ≡ single_lexeme (single_sign byte) }
{
    match single_sign(byte) {
        Some(token) => Lexeme::Token(token, 1),
        None => Lexeme::Bad,
    }
}

// What `.` begins, with the bytes behind it.
fn read_dot(bytes: &[u8]) -> Lexeme
    ensures { result ≡ dot_lexeme bytes.now }
{
    if first_is(bytes, b'.') {
        return Lexeme::Token(Token::DotDot, 2);
    }
    Lexeme::Token(Token::Dot, 1)
}

// What `:` begins.
fn read_colon(bytes: &[u8]) -> Lexeme
    ensures { result ≡ colon_lexeme bytes.now }
{
    if first_is(bytes, b'-') {
        return Lexeme::Token(Token::If, 2);
    }
    if first_is(bytes, b'~') {
        return Lexeme::Token(Token::WeakIf, 2);
    }
    Lexeme::Token(Token::Colon, 1)
}

// What `<` begins.
fn read_less(bytes: &[u8]) -> Lexeme
    ensures { result ≡ less_lexeme bytes.now }
{
    if first_is(bytes, b'=') {
        return Lexeme::Token(Token::Compare(CompareOp::LessEqual), 2);
    }
    if first_is(bytes, b'>') {
        return Lexeme::Token(Token::Compare(CompareOp::NotEqual), 2);
    }
    Lexeme::Token(Token::Compare(CompareOp::Less), 1)
}

// What `>` begins.
fn read_greater(bytes: &[u8]) -> Lexeme
    ensures { result ≡ greater_lexeme bytes.now }
{
    if first_is(bytes, b'=') {
        return Lexeme::Token(Token::Compare(CompareOp::GreaterEqual), 2);
    }
    Lexeme::Token(Token::Compare(CompareOp::Greater), 1)
}

// What `!` begins.
fn read_exclamation(bytes: &[u8]) -> Lexeme
    ensures { result ≡ exclamation_lexeme bytes.now }
{
    if first_is(bytes, b'=') {
        return Lexeme::Token(Token::Compare(CompareOp::NotEqual), 2);
    }
    Lexeme::Bad
}

/// What a sign begins, with the bytes behind it. A byte that is no sign begins nothing.
pub fn read_sign(first: u8, rest: &[u8]) -> Lexeme
    ensures { result ≡ sign_lexeme first rest.now }
{
    match first {
        b'.' => read_dot(rest),
        b':' => read_colon(rest),
        b'<' => read_less(rest),
        b'>' => read_greater(rest),
        b'!' => read_exclamation(rest),
        _ => read_single(first),
    }
}
