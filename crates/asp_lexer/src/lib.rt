//! The tokens of a text.
//!
//! `lex` gives the one list of tokens of a text, each with its place and its line, or says where the text can't be read. What a
//! token is stands in `specs/Tokens.antt`, what a text's tokens are in `specs/Lexing.antt`, both apart from the code.
//!
//! The other calls read names, digits and strings for a text of other tokens, as a set line is.
#![tactic(auto)]

mod bytes;
mod comments;
mod fault;
mod first;
mod lexeme;
mod lexer;
mod numbers;
mod signs;
mod strings;
mod words;

pub use bytes::{digits_len, first_bytes, is_digit, is_lower, word_len};
pub use fault::LexFault;
pub use lexer::lex;
pub use numbers::number_value;
pub use strings::closing_quote;

#[cfg(test)]
mod tests;
