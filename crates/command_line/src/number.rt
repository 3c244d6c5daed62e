//! The numbers of a command line.

ghost use Rattle.std.specs.Prelude.{◌≡◌};
ghost use Rattle.command_line.specs.Numbers.{number_of};

// The most that a number may be.
const MOST_NUMBER: u64 = 1_000_000_000_000;

// The most digits that a number may have.
const MOST_DIGITS: usize = 13;

/// The number that a text is: one to thirteen digits, the first not `0`, and at most 1,000,000,000,000.
pub(crate) fn number_of(text: &str) -> Option<u64>
    ensures { result ≡ number_of text.now }
{
    let first = text.as_bytes().first()?;
    if *first == b'0' || *first == b'+' || text.len() > MOST_DIGITS {
        return None;
    }
    match text.parse::<u64>() {
        Ok(number) if number <= MOST_NUMBER => Some(number),
        _ => None,
    }
}
