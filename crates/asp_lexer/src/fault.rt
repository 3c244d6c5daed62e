use asp_syntax::Place;

/// Why a text has no tokens.
#[derive(Clone, Copy, Debug, PartialEq, Eq)]
pub enum LexFault {
    /// No token, blank or comment begins here, and all before is well: the byte begins none, or it is a quote that isn't closed
    /// in its line, or the `%*` of a comment without its end.
    Lex { at: Place },
    /// A number above 9223372036854775808 begins here, and all before is well.
    NumberTooLarge { at: Place },
    /// There was no memory for the tokens.
    OutOfMemory,
}
