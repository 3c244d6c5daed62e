//! Words of a line, each behind a blank. After want of memory a part may have been added.

ghost use Rattle.std.specs.Prelude.{◌≡◌, ◌++◌, codes, OnOk};
ghost use Rattle.std.specs.Fmt.{decimal, signed_decimal};
ghost use Rattle.journal_file.specs.Lines.{behind, id_words};

use alpha_outside::{AtomId, OutOfMemory, TermId};
use itoa::Buffer;

/// The digits of a number.
pub fn push_digits(text: &mut Vec<u8>, number: u32) -> Result<(), OutOfMemory>
    ensures { OnOk result (text.new.items ≡ text.old.items ++ decimal number) }
{
    let mut buffer = Buffer::new();
    text.extend_from_slice(buffer.format(number).as_bytes())?;
    Ok(())
}

/// A word.
pub fn push_word(text: &mut Vec<u8>, word: &[u8]) -> Result<(), OutOfMemory>
    ensures { OnOk result (text.new.items ≡ text.old.items ++ (codes " " ++ word.now)) }
{
    text.extend_from_slice(b" ")?;
    text.extend_from_slice(word)?;
    Ok(())
}

/// A number.
pub fn push_number(text: &mut Vec<u8>, number: u32) -> Result<(), OutOfMemory>
    ensures { OnOk result (text.new.items ≡ text.old.items ++ (codes " " ++ decimal number)) }
{
    text.extend_from_slice(b" ")?;
    push_digits(text, number)
}

/// An integer.
pub fn push_integer(text: &mut Vec<u8>, number: i64) -> Result<(), OutOfMemory>
    ensures { OnOk result (text.new.items ≡ text.old.items ++ (codes " " ++ signed_decimal number)) }
{
    let mut buffer = Buffer::new();
    push_word(text, buffer.format(number).as_bytes())
}

/// The ids of terms.
pub fn push_terms(text: &mut Vec<u8>, ids: &[TermId]) -> Result<(), OutOfMemory>
    ensures { OnOk result (text.new.items ≡ text.old.items ++ behind (id_words ids.now)) }
{
    for id in ids {
        push_number(text, id.0)?;
    }
    Ok(())
}

/// The ids of atoms.
pub fn push_atoms(text: &mut Vec<u8>, ids: &[AtomId]) -> Result<(), OutOfMemory>
    ensures { OnOk result (text.new.items ≡ text.old.items ++ behind (id_words ids.now)) }
{
    for id in ids {
        push_number(text, id.0)?;
    }
    Ok(())
}
