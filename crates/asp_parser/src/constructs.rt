//! Constructs of other dialects that this language hasn't.

ghost use Rattle.std.specs.Prelude.{◌≡◌};
ghost use Rattle.asp_grammar.specs.Faults.{what_of};

use asp_syntax::{Token, What};

/// The construct that the token belongs to, where no program of this language has the token.
pub fn what_of(token: &Token) -> Option<What>
    ensures { result ≡ what_of token.now }
{
    match token {
        Token::Bar => Some(What::Disjunction),
        Token::DotDot => Some(What::Interval),
        Token::Backslash => Some(What::Modulo),
        Token::WeakIf => Some(What::WeakConstraint),
        Token::Question => Some(What::Query),
        Token::MinMax => Some(What::MinMax),
        Token::Directive => Some(What::Directive),
        Token::At => Some(What::Other),
        Token::OpenBracket => Some(What::Other),
        Token::CloseBracket => Some(What::Other),
        Token::Ampersand => Some(What::Other),
        _ => None,
    }
}
