//! The word that stands first in bytes.
//!
//! The first byte alone says what kind of word may begin there, and each kind is read as far as it goes.

ghost use Rattle.std.specs.Prelude.{◌≡◌, ◌≤◌, ◌<◌, ◌^◌, true, length, IfOk, take_while};
ghost use Rattle.std.specs.List.{list_all};
ghost use Rattle.asp_syntax.specs.Bytes.{is_digit, is_word, quote};
ghost use Rattle.asp_syntax.specs.WellFormed.{largest};
ghost use Rattle.asp_lexer.specs.Lexemes.{closing_quote};
ghost use Rattle.answer_printer.specs.Found.{found, id_found, integer_found, integer_of, is_needless, mark_found, minus_found, signed_number, text_found};

use crate::words::{Found, Word};
use alpha_outside::{Name, OutOfMemory};
use asp_lexer::{
    closing_quote, digits_len, first_bytes, is_digit, is_lower, number_value, word_len,
};
use std::alloc::Global;

/// The number of the least integer.
const LARGEST: u64 = 9_223_372_036_854_775_808;

// The name that a lower-case letter begins, unless it is `not`.
fn read_id(alloc: Global, bytes: &[u8]) -> Result<Found, OutOfMemory>
    ensures { IfOk result (λ first. first ≡ id_found (take_while is_word bytes.now)) }
{
    let word = first_bytes(bytes, word_len(bytes));
    if word == b"not".as_slice() {
        return Ok(Found::Nothing);
    }
    let name = Name::from_bytes(alloc, word)?;
    Ok(Found::Word(Word::Id(name), word.len()))
}

// Whether digits have a `0` too many: one before other digits, or behind a sign. No digits are no number either.
fn is_needless(negative: bool, digits: &[u8]) -> bool
    ensures { result ≡ is_needless negative digits.now }
{
    match digits.split_first() {
        None => true,
        Some((first, more)) => *first == b'0' && (negative || more.len() != 0),
    }
}

// The integer of a sign and a number, if it has 64 bits.
fn signed_number(negative: bool, number: u64) -> Option<i64>
    requires { number ≤ largest }
    ensures { result ≡ signed_number negative number }
{
    if !negative {
        return if number < LARGEST {
            Some(number as i64)
        } else {
            None
        };
    }
    if number == 0 {
        return None;
    }
    Some(-((number - 1) as i64) - 1)
}

// The integer of a sign and digits, if it has 64 bits and no `0` too many.
fn integer_of(negative: bool, digits: &[u8]) -> Option<i64>
    requires { list_all is_digit digits.now ≡ true }
    ensures { result ≡ integer_of negative digits.now }
{
    if is_needless(negative, digits) {
        return None;
    }
    match number_value(digits) {
        Some(number) => signed_number(negative, number),
        None => None,
    }
}

// The integer as a word of so many bytes.
fn as_word(integer: Option<i64>, len: usize) -> Found
    ensures { result ≡ integer_found len integer }
{
    match integer {
        Some(number) => Found::Word(Word::Integer(number), len),
        None => Found::Nothing,
    }
}

// The digits that stand first.
#[tactic(auto, using(asp_lexer::proofs::Runs::run_passes))]
fn first_digits(bytes: &[u8]) -> &[u8]
    ensures is { result.now ≡ take_while is_digit bytes.now }
    ensures digits { list_all is_digit result.now ≡ true }
{
    first_bytes(bytes, digits_len(bytes))
}

// What a minus begins, with the digits behind it.
fn read_minus(digits: &[u8]) -> Found
    requires digits { list_all is_digit digits.now ≡ true }
    requires room { length digits.now < 2 ^ 63 }
    ensures { result ≡ minus_found digits.now }
{
    if digits.len() == 0 {
        return Found::Word(Word::Minus, 1);
    }
    as_word(integer_of(true, digits), digits.len() + 1)
}

// The string that a quote begins, with the bytes behind it.
fn read_text(alloc: Global, bytes: &[u8]) -> Result<Found, OutOfMemory>
    ensures { IfOk result (λ first. first ≡ text_found bytes.now (closing_quote quote bytes.now)) }
{
    let Some(len) = closing_quote(bytes) else {
        return Ok(Found::Nothing);
    };
    let inside = Name::from_bytes(alloc, first_bytes(bytes, len))?;
    Ok(Found::Word(Word::Text(inside), len + 2))
}

// The mark that a byte is.
fn read_mark(byte: u8) -> Found
    ensures { result ≡ mark_found byte }
{
    match byte {
        b',' => Found::Word(Word::Comma, 1),
        b'(' => Found::Word(Word::Open, 1),
        b')' => Found::Word(Word::Close, 1),
        b'{' => Found::Word(Word::OpenBrace, 1),
        b'}' => Found::Word(Word::CloseBrace, 1),
        _ => Found::Nothing,
    }
}

/// The word that stands first.
pub fn first_word(alloc: Global, bytes: &[u8]) -> Result<Found, OutOfMemory>
    ensures { IfOk result (λ first. first ≡ found bytes.now) }
{
    let Some((first, rest)) = bytes.split_first() else {
        return Ok(Found::Nothing);
    };
    let first = *first;
    if is_lower(first) {
        return read_id(alloc, bytes);
    }
    if is_digit(first) {
        let digits = first_digits(bytes);
        return Ok(as_word(integer_of(false, digits), digits.len()));
    }
    if first == b'-' {
        return Ok(read_minus(first_digits(rest)));
    }
    if first == b'"' {
        return read_text(alloc, rest);
    }
    Ok(read_mark(first))
}
