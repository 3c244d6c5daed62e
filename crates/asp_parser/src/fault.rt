use alpha_outside::OutOfMemory;
use asp_syntax::{Place, What};

/// Why tokens give no program: the first faulty token, or the end of the tokens. Where a token is faulty in several ways, the first of
/// this list counts.
#[derive(Clone, Copy, Debug, PartialEq, Eq)]
pub enum ParseFault {
    /// A construct of other dialects that this language hasn't, where the tokens before it begin some program.
    Unsupported { at: Place, what: What },
    /// The first token with which no program goes on; or the end, where the tokens begin a program and are none.
    Syntax { at: Place },
    /// The token with which the nesting passes 200.
    TooDeep { at: Place },
    /// The number 9223372036854775808, where no unary minus stands directly before it.
    NumberTooLarge { at: Place },
    OutOfMemory,
}

impl From<OutOfMemory> for ParseFault {
    ghost use Rattle.std.specs.Prelude.{◌≡◌};
    ghost use Rattle.asp_parser.specs.declared.fault.ParseFault.TheVariants as fault;

    ghost from_gives = { λ _ e. e ≡ fault.OutOfMemory };

    fn from(_: OutOfMemory) -> Self {
        ParseFault::OutOfMemory
    }
}
