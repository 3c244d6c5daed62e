//! The lines of an after file.

ghost use Rattle.std.specs.Prelude.{◌≡◌, ◌<◌, ◌⊎◌, ◌↔◌, ◌∷◌, ◌==◌, [], IfSome, IsTrue, MatchOption, length};
ghost use Rattle.std.specs.List.{position};
ghost use Rattle.answer_printer.specs.Sets.{is_set_blank};
ghost use Rattle.after_book.specs.Parts.{parts, IsComment, IsEmptyLine};

// Where the first line feed stands.
fn first_line_feed(bytes: &[u8]) -> Option<usize>
    ensures { result ≡ position (λ b. b == 10) bytes.now }
{
    bytes.iter().position(|byte| *byte == b'\n')
}

/// The text before the first line feed, and what stands behind it; none where no line is ended.
pub fn split_line(bytes: &[u8]) -> Option<(&[u8], &[u8])>
    ensures parts { MatchOption result (parts bytes.now ≡ bytes.now ∷ []) (λ r. parts bytes.now ≡ r.0.now ∷ parts r.1.now) }
    ensures shorter { IfSome result (λ r. length r.1.now < length bytes.now) }
{
    let end = first_line_feed(bytes)?;
    Some((&bytes[..end], &bytes[end + 1..]))
}

// A blank of a line.
fn is_blank(byte: u8) -> bool
    ensures { result ≡ is_set_blank byte }
{
    byte == b' ' || byte == b'\t' || byte == b'\r'
}

/// Whether a line is empty or a comment.
pub fn lists_nothing(line: &[u8]) -> bool
    ensures { IsTrue result ↔ (IsEmptyLine line.now ⊎ IsComment line.now) }
{
    for byte in line {
        if !is_blank(*byte) {
            return *byte == b'%';
        }
    }
    true
}
