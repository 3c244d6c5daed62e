ghost use Rattle.std.specs.Prelude.{◌≡◌, ◌⊎◌, ◌≤◌, ◌+◌, ◌∷◌, ◌++◌, [], ℕ, List, Option, IfOk, IfErr, IfSome, OnOk, length};
ghost use Rattle.alpha_outside.specs.Outside.{FileIs, Rose};
ghost use Rattle.program_files.specs.Files.{IsJoinedText, MakesTooLong, IsLonger, most_bytes, most_listed_bytes};
ghost use Rattle.program_files.specs.Faults.{FileReads, IsFilesCause, IsListedCause};

use crate::fault::{FilesFault, fault_at};
use alpha_outside::{Name, OutOfMemory, Shelf};
use std::alloc::Global;

/// The most bytes that the program's files have together.
const MOST_BYTES: usize = 16_777_216;

/// The most bytes of the file of the sets that are not to be printed again.
const MOST_LISTED_BYTES: usize = 268_435_456;

// The bytes of one file that may have so many at most.
fn read_file<F: Shelf>(
    alloc: Global,
    name: &[u8],
    at_most: usize,
    shelf: &mut F,
) -> Result<Vec<u8>, FilesFault>
    ensures kept { F.files shelf.new ≡ F.files shelf.old }
    ensures reads { FileReads name.now at_most
        (F.files shelf.old) (F.taken shelf.old) (F.taken shelf.new) (F.faults shelf.old) (F.faults shelf.new) result }
{
    match shelf.read(alloc, name, at_most) {
        Ok(bytes) => Ok(bytes),
        Err(stop) => Err(fault_at(alloc, name, stop)),
    }
}

// Appends a file's bytes and a line feed.
fn push_file(text: &mut Vec<u8>, bytes: &[u8]) -> Result<(), OutOfMemory>
    ensures { OnOk result (text.new.items ≡ text.old.items ++ (bytes.now ++ 10 ∷ [])) }
{
    text.extend_from_slice(bytes)?;
    text.push(b'\n')?;
    Ok(())
}

/// The text of the program's files: the bytes of each, in order, each followed by one line feed. Together they may have at most
/// 16,777,216 bytes of their own. The first file that can't be read, or with which they have more, ends the reading.
pub fn read_program<F: Shelf>(
    alloc: Global,
    names: &[Name],
    shelf: &mut F,
) -> Result<Vec<u8>, FilesFault>
    ensures kept { F.files shelf.new ≡ F.files shelf.old }
    ensures taken_later { F.taken shelf.old ≤ F.taken shelf.new }
    ensures faults_later { F.faults shelf.old ≤ F.faults shelf.new }

    // Where the files are told, the text is theirs, and they have no more bytes than they may.
    ensures text { IfOk result (λ text. IfSome (F.files shelf.old) (λ files. IsJoinedText files names.now text.items)) }
    ensures length { IfOk result (λ text. length text.items ≤ most_bytes + length names.now) }

    // Each fault comes only by its cause.
    ensures causes { IfErr result (IsFilesCause names.now
        (F.files shelf.old) (F.taken shelf.old) (F.taken shelf.new) (F.faults shelf.old) (F.faults shelf.new)) }

    // Where the files are told and a file makes them too long, this is answered with its name, unless the outside fails.
    ensures each_too_long { (files : List ℕ → Option (List ℕ)) (name : List ℕ)
        → F.files shelf.old ≡ Some files → MakesTooLong files names.now name → ¬ Rose (F.faults shelf.old) (F.faults shelf.new)
        → (result ≡ Err (FilesFault.TooLong name)) ⊎ (result ≡ Err FilesFault.OutOfMemory) }
{
    let mut text = Vec::new(alloc);
    let mut left = MOST_BYTES;
    for name in names {
        let bytes = match read_file(alloc, name.as_bytes(), left, shelf) {
            Ok(bytes) => bytes,
            Err(fault) => return Err(fault),
        };
        left -= bytes.len();
        if push_file(&mut text, &bytes).is_err() {
            return Err(FilesFault::OutOfMemory);
        }
    }
    Ok(text)
}

/// The bytes of one file, which may have at most 268,435,456.
pub fn read_listed<F: Shelf>(
    alloc: Global,
    name: &[u8],
    shelf: &mut F,
) -> Result<Vec<u8>, FilesFault>
    ensures kept { F.files shelf.new ≡ F.files shelf.old }
    ensures taken_later { F.taken shelf.old ≤ F.taken shelf.new }
    ensures faults_later { F.faults shelf.old ≤ F.faults shelf.new }

    // Where the files are told, the bytes are the file's, and there are no more than there may be.
    ensures bytes { IfOk result (λ bytes. FileIs (F.files shelf.old) name.now bytes.items) }
    ensures length { IfOk result (λ bytes. length bytes.items ≤ most_listed_bytes) }

    // Each fault comes only by its cause.
    ensures causes { IfErr result (IsListedCause name.now
        (F.files shelf.old) (F.taken shelf.old) (F.taken shelf.new) (F.faults shelf.old) (F.faults shelf.new)) }

    // Where the files are told and the file is longer, this is answered, unless the outside fails.
    ensures each_too_long { (files : List ℕ → Option (List ℕ))
        → F.files shelf.old ≡ Some files → IsLonger files most_listed_bytes name.now → ¬ Rose (F.faults shelf.old) (F.faults shelf.new)
        → (result ≡ Err (FilesFault.TooLong name.now)) ⊎ (result ≡ Err FilesFault.OutOfMemory) }
{
    read_file(alloc, name, MOST_LISTED_BYTES, shelf)
}
