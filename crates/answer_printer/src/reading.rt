//! The set of a line, read from its start to its end.
//!
//! In each turn a blank is passed over or a word is taken. So each byte is looked at a few times at most, and reading is linear but
//! for the one sort of the atoms. What may still come is known in each turn exactly, so a line is refused only where it is no set.

ghost use Rattle.std.specs.Prelude.{◌≡◌, ◌≤◌, ◌<◌, ◌++◌, [], ◌∷◌, false, IfOk, List, length, drop, slice_index};
ghost use Rattle.lists.specs.Lists.{Each};
ghost use Rattle.asp_meaning.specs.Atoms.{Atom};
ghost use Rattle.asp_meaning.specs.Lines.{IsSetLine};
ghost use Rattle.answer_printer.specs.Machine.{State};
ghost use Rattle.answer_printer.specs.Sets.{is_set_blank, IsSetText, CanBeRead};
ghost use Rattle.answer_printer.specs.Readers.{HasRead, StandsIn, Turns, below};
ghost use Rattle.answer_printer.specs.Answers.{IsAnswer, ReadsAsItself};

use crate::fault::SetFault;
use crate::lexing::first_word;
use crate::line::set_line_of;
use crate::reader::Reader;
use crate::words::Found;
use alpha_outside::{AtomId, List, OutOfMemory};
use std::alloc::Global;

// The bytes from a place on.
fn rest_from(line: &[u8], at: usize) -> &[u8]
    requires { at ≤ length line.now }
    ensures { result.now ≡ drop at line.now }
{
    &line[at..]
}

// A blank of a line.
fn is_set_blank(byte: u8) -> bool
    ensures { result ≡ is_set_blank byte }
{
    byte == b' ' || byte == b'\t' || byte == b'\r'
}

// Takes the word that stands first, and says how many bytes it has.
fn take_word(alloc: Global, reader: &mut Reader, bytes: &[u8]) -> Result<usize, SetFault>
    requires stands { (s : State) × StandsIn reader.old s }
    requires some { 0 < length bytes.now }
    requires no_blank { is_set_blank (slice_index bytes.now 0) ≡ false }
    ensures { (s : State) → StandsIn reader.old s → Turns s bytes.now reader.new result }
{
    match first_word(alloc, bytes) {
        Err(_) => Err(SetFault::OutOfMemory),
        Ok(first) => match first {
            Found::Nothing => Err(SetFault::NotASet),
            Found::Word(word, len) => match reader.take(alloc, word) {
                Ok(()) => Ok(len),
                Err(fault) => Err(fault),
            },
        },
    }
}

// Takes the blank or the word that stands first, and says how many bytes it has.
fn turn(alloc: Global, reader: &mut Reader, bytes: &[u8]) -> Result<usize, SetFault>
    requires stands { (s : State) × StandsIn reader.old s }
    requires some { 0 < length bytes.now }
    ensures { (s : State) → StandsIn reader.old s → Turns s bytes.now reader.new result }
{
    if is_set_blank(bytes[0]) {
        return Ok(1);
    }
    take_word(alloc, reader, bytes)
}

// What the whole line has.
fn read_all(alloc: Global, line: &[u8]) -> Result<Reader, SetFault>
    ensures { HasRead line.now result }
{
    let mut reader = Reader::new(alloc);
    let mut at = 0;
    'turns: while at < line.len() {
        match turn(alloc, &mut reader, rest_from(line, at)) {
            Ok(len) => at += len,
            Err(fault) => return Err(fault),
        }
    }
    if !reader.phase.is_end() {
        return Err(SetFault::NotASet);
    }
    Ok(reader)
}

/// The ids of so many atoms.
pub fn ids(alloc: Global, count: u32) -> Result<Vec<AtomId>, OutOfMemory>
    ensures { IfOk result (λ all. all.items ≡ below count) }
{
    let mut all = Vec::new(alloc);
    for id in 0..count {
        all.push(AtomId(id))?;
    }
    Ok(all)
}

// The line of all atoms that were read.
fn line_of_all(alloc: Global, reader: &Reader) -> Result<List<u8>, OutOfMemory>
    requires { (s : State) × StandsIn reader.now s }
    ensures { (s : State) → StandsIn reader.now s → IfOk result (IsSetLine s.atoms) }
{
    let all = ids(alloc, reader.atoms.len())?;
    set_line_of(alloc, all.as_slice(), &reader.atoms, reader.terms.nodes())
}

/// The canonical line of the set that a line is, with its line feed. The line is given without its line feed.
///
/// Blanks, the order of the atoms and repeats don't matter. There is no limit of the size of a term or of its nesting. It costs time
/// linear in the line, and one sort of its atoms.
///
/// # Errors
/// `NotASet` exactly where the bytes are no set; `OutOfMemory` for want of memory alone, which is also answered for an atom of
/// 4,294,967,296 arguments or more.
pub fn read_set_line(alloc: Global, line: &[u8]) -> Result<List<u8>, SetFault>
    // A line is a set where it is answered, and no set where it is refused; and no bytes are two sets.
    ensures answer { IsAnswer line.now result }
    ensures one_set { (xs ys : List Atom) → IsSetText line.now xs → IsSetText line.now ys → xs ≡ ys }

    // A set has its canonical line, and the line of a set that can be read is that set and its own canonical line.
    ensures canonical { (atoms : List Atom) → IsSetText line.now atoms → IfOk result (IsSetLine atoms) }
    ensures itself { (atoms : List Atom) → Each CanBeRead atoms → IsSetLine atoms (line.now ++ 10 ∷ []) → ReadsAsItself line.now result }
{
    match read_all(alloc, line) {
        Err(fault) => Err(fault),
        Ok(reader) => match line_of_all(alloc, &reader) {
            Ok(canonical) => Ok(canonical),
            Err(_) => Err(SetFault::OutOfMemory),
        },
    }
}
