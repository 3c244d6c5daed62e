//! Numbers.
//!
//! The value is built digit by digit, and reading its digits stops at the first one that makes it too large: further digits make no
//! number smaller. A number is never cut: it takes all the digits that stand there, but behind a first `0` there are none.

ghost use Rattle.std.specs.Prelude.{◌≡◌, ◌≤◌, ◌+◌, ◌-◌, ◌*◌, true, take_while};
ghost use Rattle.std.specs.List.{list_all};
ghost use Rattle.asp_syntax.specs.Bytes.{is_digit};
ghost use Rattle.asp_syntax.specs.WellFormed.{largest};
ghost use Rattle.asp_lexer.specs.Tokens.{decimal};
ghost use Rattle.asp_lexer.specs.Lexemes.{fitting, numeral_lexeme};

use crate::bytes::{digits_len, first_bytes};
use crate::lexeme::Lexeme;
use asp_syntax::Token;

/// The largest number that a token may have: a minus sign before it gives the least `i64`.
const LARGEST: u64 = 9_223_372_036_854_775_808;

// A number with one more digit, unless it is too large.
fn with_digit(value: u64, digit: u8) -> Option<u64>
    requires fits { value ≤ largest }
    requires digit { is_digit digit ≡ true }
    ensures { result ≡ fitting (value * 10 + (digit - 48)) }
{
    if value > LARGEST / 10 {
        return None;
    }
    let next = value * 10 + u64::from(digit - b'0');
    if next <= LARGEST { Some(next) } else { None }
}

/// The number that digits are, unless it is too large.
pub fn number_value(digits: &[u8]) -> Option<u64>
    requires { list_all is_digit digits.now ≡ true }
    ensures { result ≡ fitting (decimal digits.now) }
{
    let mut value = 0u64;
    for digit in digits {
        let Some(next) = with_digit(value, *digit) else {
            return None;
        };
        value = next;
    }
    Some(value)
}

/// A number, where a digit other than `0` stands first.
#[tactic(auto, using(crate::proofs::Runs::run_passes))]
pub fn read_number(bytes: &[u8]) -> Lexeme
    ensures { result ≡ numeral_lexeme (take_while is_digit bytes.now) }
{
    let digits = first_bytes(bytes, digits_len(bytes));
    match number_value(digits) {
        Some(value) => Lexeme::Token(Token::Number(value), digits.len()),
        None => Lexeme::TooLarge(digits.len()),
    }
}
