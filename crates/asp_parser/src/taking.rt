//! What the parser does with a token: it is taken, or refused as a named construct, for the grammar, or for its number.

ghost use Rattle.std.specs.Prelude.{◌≡◌, IsTrue, IfOk, IfErr, false, None, is_some};
ghost use Rattle.asp_syntax.specs.WellFormed.{IsWellFormed, largest};
ghost use Rattle.asp_grammar.specs.Reading.{signs_in, advance_on};
ghost use Rattle.asp_grammar.specs.Faults.{what_of};
ghost use Rattle.parsing_machine.specs.Fitting.{Fits};
ghost use Rattle.asp_parser.specs.Taking.{IsTaken, IsRefused};

use crate::constructs::what_of;
use crate::fault::ParseFault;
use alpha_outside::OutOfMemory;
use asp_grammar::Progress;
use asp_syntax::{Spanned, Token};
use parsing_machine::{advance, signs_in};
use std::alloc::Global;

// Whether the token is the number that fits only under a minus, and none waits.
fn is_too_large(token: &Token, signs: u32) -> bool
    requires { IsWellFormed token.now }
    ensures large { IsTrue result → (token.now ≡ Token.Number largest) × (signs ≡ 0) }
    ensures fits { result ≡ false → Fits signs token.now }
{
    match token {
        Token::Number(value) => *value == 9223372036854775808 && signs == 0,
        _ => false,
    }
}

// Whether the machine goes on with the token.
fn goes_on(
    alloc: Global,
    progress: Progress,
    token: &Token,
    line: u32,
    count: u32,
) -> Result<bool, OutOfMemory>
    requires fits { Fits (signs_in progress) token.now }
    ensures { IfOk result (λ there. there ≡ is_some (advance_on progress count line token.now)) }
{
    match advance(alloc, progress, token, line, count) {
        Ok(next) => Ok(next.is_some()),
        Err(fault) => Err(fault),
    }
}

// The fault of the number that is too large. Where no number may stand, the grammar refuses it first; whether one may doesn't depend on
// its value, so one that fits is tried in its place.
fn large_fault(alloc: Global, progress: Progress, token: &Spanned, count: u32) -> ParseFault
    requires large { token.now.token ≡ Token.Number largest }
    requires unsigned { signs_in progress ≡ 0 }
    ensures { IsRefused progress count token.now result }
{
    match goes_on(alloc, progress, &Token::Number(0), token.line, count) {
        Ok(true) => ParseFault::NumberTooLarge { at: token.at },
        Ok(false) => ParseFault::Syntax { at: token.at },
        Err(_) => ParseFault::OutOfMemory,
    }
}

// A token that is no named construct, and whose number fits.
fn take_fitting(
    alloc: Global,
    progress: Progress,
    token: &Spanned,
    count: u32,
) -> Result<Progress, ParseFault>
    requires plain { what_of token.now.token ≡ None }
    requires fits { Fits (signs_in progress) token.now.token }
    ensures taken { IfOk result (λ next. IsTaken progress count token.now next) }
    ensures refused { IfErr result (λ fault. IsRefused progress count token.now fault) }
{
    match advance(alloc, progress, &token.token, token.line, count) {
        Ok(Some(next)) => Ok(next),
        Ok(None) => Err(ParseFault::Syntax { at: token.at }),
        Err(_) => Err(ParseFault::OutOfMemory),
    }
}

/// Where the parser stands after the token, before which `count` times `_` stand; or the token's fault, but for its nesting.
pub fn take(
    alloc: Global,
    progress: Progress,
    token: &Spanned,
    count: u32,
) -> Result<Progress, ParseFault>
    requires { IsWellFormed token.now.token }
    ensures taken { IfOk result (λ next. IsTaken progress count token.now next) }
    ensures refused { IfErr result (λ fault. IsRefused progress count token.now fault) }
{
    if let Some(what) = what_of(&token.token) {
        return Err(ParseFault::Unsupported { at: token.at, what });
    }
    if is_too_large(&token.token, signs_in(&progress)) {
        return Err(large_fault(alloc, progress, token, count));
    }
    take_fitting(alloc, progress, token, count)
}
