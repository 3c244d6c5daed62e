use asp_syntax::Token;

/// What stands first in bytes, and how many bytes it takes.
#[derive(Debug, Drop)]
pub enum Lexeme {
    /// A blank or a comment.
    Skipped(usize),
    /// The longest token.
    Token(Token, usize),
    /// A number above the largest.
    TooLarge(usize),
    /// None of these.
    Bad,
}
