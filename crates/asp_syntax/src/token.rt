use crate::CompareOp;
use alpha_outside::Name;

/// A byte offset into the joined text.
#[derive(Clone, Copy, Debug, PartialEq, Eq)]
pub struct Place(pub u32);

/// A token. Those from `Bar` on are read, so that a program which has one can be refused by name, but no program of this
/// language has them.
#[derive(Debug, Drop)]
pub enum Token {
    /// A name that begins with a lower-case letter, other than `not`.
    Id(Name),
    Not,
    Variable(Name),
    /// `_`
    Anonymous,
    /// At most 9223372036854775808, so that a minus sign before it gives an integer of 64 bits.
    Number(u64),
    /// The bytes between the quotes.
    Text(Name),
    Dot,
    Comma,
    Colon,
    Semicolon,
    Open,
    Close,
    OpenBrace,
    CloseBrace,
    /// `:-`
    If,
    Plus,
    Minus,
    Star,
    Slash,
    Compare(CompareOp),
    /// `#count`
    Count,
    /// `#sum`
    Sum,
    /// `|`
    Bar,
    /// `..`
    DotDot,
    Backslash,
    /// `:~`
    WeakIf,
    Question,
    /// `#min` or `#max`
    MinMax,
    /// `#` and other letters
    Directive,
    At,
    OpenBracket,
    CloseBracket,
    Ampersand,
}

/// A token, where its first byte stands, and that byte's line, counted from 1.
#[derive(Debug, Drop)]
pub struct Spanned {
    pub token: Token,
    pub at: Place,
    pub line: u32,
}
