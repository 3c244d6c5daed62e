//! Words: names, variables, `not`, and `#` with letters behind it.
//!
//! A word goes on as far as its bytes do, and only then it is asked which word it is. So `nothing` is a name, and `#counter` is one
//! directive and not `#count` with letters behind it.

ghost use Rattle.std.specs.Prelude.{◌≡◌, take_while, IfOk};
ghost use Rattle.asp_syntax.specs.Bytes.{is_word, is_letter};
ghost use Rattle.asp_lexer.specs.Lexemes.{word_lexeme, variable_lexeme, hash_lexeme};

use crate::bytes::{first_bytes, letters_len, word_len};
use crate::lexeme::Lexeme;
use alpha_outside::{Name, OutOfMemory};
use asp_syntax::Token;
use std::alloc::Global;

/// `not` or an ID, where a lower-case letter stands first.
pub fn read_word(alloc: Global, bytes: &[u8]) -> Result<Lexeme, OutOfMemory>
    ensures { IfOk result (λ found. found ≡ word_lexeme (take_while is_word bytes.now)) }
{
    let word = first_bytes(bytes, word_len(bytes));
    if word == b"not".as_slice() {
        return Ok(Lexeme::Token(Token::Not, word.len()));
    }
    let name = Name::from_bytes(alloc, word)?;
    Ok(Lexeme::Token(Token::Id(name), word.len()))
}

/// A variable, where an upper-case letter stands first.
pub fn read_variable(alloc: Global, bytes: &[u8]) -> Result<Lexeme, OutOfMemory>
    ensures { IfOk result (λ found. found ≡ variable_lexeme (take_while is_word bytes.now)) }
{
    let word = first_bytes(bytes, word_len(bytes));
    let name = Name::from_bytes(alloc, word)?;
    Ok(Lexeme::Token(Token::Variable(name), word.len()))
}

/// What `#` begins, with the bytes behind it.
pub fn read_hash(bytes: &[u8]) -> Lexeme
    ensures { result ≡ hash_lexeme (take_while is_letter bytes.now) }
{
    let word = first_bytes(bytes, letters_len(bytes));
    let len = word.len();
    if len == 0 {
        return Lexeme::Bad;
    }
    if word == b"count".as_slice() {
        return Lexeme::Token(Token::Count, len + 1);
    }
    if word == b"sum".as_slice() {
        return Lexeme::Token(Token::Sum, len + 1);
    }
    if word == b"min".as_slice() {
        return Lexeme::Token(Token::MinMax, len + 1);
    }
    if word == b"max".as_slice() {
        return Lexeme::Token(Token::MinMax, len + 1);
    }
    Lexeme::Token(Token::Directive, len + 1)
}
