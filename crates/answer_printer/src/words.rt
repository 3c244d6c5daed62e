//! The words of a set line: what stands in it, but for its blanks.

use alpha_outside::Name;

/// A word. Which bytes are which word is defined in `specs/Words.antt`.
#[derive(Debug, Drop)]
pub enum Word {
    /// The name of an atom, a symbol or a functional term.
    Id(Name),
    /// An integer, with its sign directly before its digits.
    Integer(i64),
    /// A string, by the bytes between its quotes.
    Text(Name),
    /// The sign of an atom under strong negation.
    Minus,
    Comma,
    Open,
    Close,
    OpenBrace,
    CloseBrace,
}

/// What stands first in bytes: a word and how many bytes it takes, or none.
#[derive(Debug, Drop)]
pub enum Found {
    Word(Word, usize),
    Nothing,
}
