//! The sets that an after file lists, each by its canonical line.

ghost use Rattle.std.specs.Prelude.{◌≡◌, ◌↔◌, ℕ, false, [], List, length, IsTrue, IfErr, IfOk, OnErr, OnOk};
ghost use Rattle.lists.specs.Lists.{◌∈◌, AtLeastOne, Each, HasNoRepeats};
ghost use Rattle.asp_meaning.specs.Atoms.{Atom};
ghost use Rattle.asp_meaning.specs.Lines.{IsSetLine};
ghost use Rattle.asp_meaning.specs.Readable.{IsReadable};
ghost use Rattle.answer_printer.specs.Answers.{IsAnswer};
ghost use Rattle.answer_printer.specs.Sets.{IsSetText};
ghost use Rattle.after_book.specs.Parts.{ended_lines, IsFine};
ghost use Rattle.after_book.specs.Listed.{IsCanonical, IsListed, Lists};
ghost use Rattle.after_book.specs.Book.{IsAdded, IsDueFault, IsLineRead, IsSet, TakesUp};

use crate::fault::AfterFault;
use crate::lines::{lists_nothing, split_line};
use alpha_outside::{List, OutOfMemory};
use answer_printer::{SetFault, read_set_line};
use indexmap::IndexSet;
use std::alloc::Global;
use std::marker::Model;

/// Sets that are not to be printed again. Contracts see the list of their lines, in the order in which they were added.
#[derive(Drop)]
pub struct AfterBook {
    alloc: Global,
    lines: IndexSet<Vec<u8>>,
}

impl Model for AfterBook {
    ghost use Rattle.std.specs.Prelude.{List, ℕ, map};
    ghost use Rattle.lists.specs.Lists.{Each, HasNoRepeats};
    ghost use Rattle.after_book.specs.Listed.{IsCanonical};

    ghost Value = { List (List ℕ) };

    ghost view = { λ b. map (λ line. line.items) b.lines.keys };

    ghost invariant = { λ b. Each IsCanonical (map (λ line. line.items) b.lines.keys) × HasNoRepeats (map (λ line. line.items) b.lines.keys) };
}

// The canonical line of the set that a text is.
fn canonical_line(alloc: Global, text: &[u8]) -> Result<List<u8>, SetFault>
    ensures canonical { IfOk result IsCanonical }
    ensures answer { IsAnswer text.now result }
    ensures one_set { (xs ys : List Atom) → IsSetText text.now xs → IsSetText text.now ys → xs ≡ ys }
{
    read_set_line(alloc, text)
}

impl AfterBook {
    /// A book without lines, which takes no memory.
    pub fn new(alloc: Global) -> AfterBook
        ensures { result ≡ [] }
    {
        AfterBook {
            alloc,
            lines: IndexSet::new(alloc),
        }
    }

    /// How many sets the book has.
    pub fn len(&self) -> usize
        ensures count { result ≡ length self.now }
        ensures canonical { Each IsCanonical self.now }
        ensures once { HasNoRepeats self.now }
    {
        self.lines.len()
    }

    /// Whether the book has this line. It takes no memory, and expected constant time beside the line's length.
    pub fn has(&self, line: &[u8]) -> bool
        ensures there { IsTrue result ↔ (line.now ∈ self.now) }
        ensures canonical { Each IsCanonical self.now }
        ensures once { HasNoRepeats self.now }
    {
        self.lines.contains(line)
    }

    /// Adds a set by its canonical line, and says whether it is new.
    ///
    /// # Errors
    /// For want of memory alone; a line that is there needs none.
    pub fn add(&mut self, line: &[u8]) -> Result<bool, OutOfMemory>
        requires { IsCanonical line.now }
        ensures added { IfOk result (IsAdded self.old self.new line.now) }
        ensures known { line.now ∈ self.old → result ≡ Ok false }
        ensures err { OnErr result (self.new ≡ self.old) }
        ensures canonical { Each IsCanonical self.new }
        ensures once { HasNoRepeats self.new }
    {
        if self.has(line) {
            return Ok(false);
        }
        let line = Vec::from_slice(self.alloc, line)?;
        match self.lines.insert(line) {
            Ok(_) => Ok(true),
            Err(_) => Err(OutOfMemory),
        }
    }

    // Adds the set that a text is, if it is one, and says whether it is.
    #[tactic(auto, using(crate::proofs::BookLemmas::taken_up))]
    fn take_up(&mut self, text: &[u8]) -> Result<bool, OutOfMemory>
        ensures taken { OnOk result (TakesUp self.old self.new text.now) }
        ensures is_set { IfOk result (λ is_set. IsTrue is_set ↔ IsSet text.now) }
        ensures canonical { OnOk result (Each IsCanonical self.new) }
        ensures once { OnOk result (HasNoRepeats self.new) }
    {
        match canonical_line(self.alloc, text) {
            Ok(line) => match self.add(line.as_slice()) {
                Ok(_) => Ok(true),
                Err(_) => Err(OutOfMemory),
            },
            Err(SetFault::NotASet) => Ok(false),
            Err(SetFault::OutOfMemory) => Err(OutOfMemory),
        }
    }

    // Takes up the line of this number.
    fn read_line(&mut self, line: &[u8], number: u64) -> Result<(), AfterFault>
        ensures { IsLineRead self.old self.new line.now number result }
    {
        match self.take_up(line) {
            Ok(true) => Ok(()),
            Ok(false) => {
                if lists_nothing(line) {
                    Ok(())
                } else {
                    Err(AfterFault::Refused { line: number })
                }
            }
            Err(_) => Err(AfterFault::OutOfMemory),
        }
    }

    /// The sets that a file lists: one a line, between empty lines and comments. A last line without a line feed counts where it is a
    /// set, and is passed over otherwise. It costs time linear in the file, beside one sort of the atoms of each line.
    ///
    /// # Errors
    /// `Refused` exactly for the first other line; `OutOfMemory` for want of memory alone.
    pub fn read(alloc: Global, bytes: &[u8]) -> Result<AfterBook, AfterFault>
        ensures fine { OnOk result (Each IsFine (ended_lines bytes.now)) }
        ensures listed { IfOk result (λ book. (atoms : List Atom) → Lists bytes.now atoms → AtLeastOne (IsSetLine atoms) book) }
        ensures only { IfOk result (Each (λ line. (atoms : List Atom) × Lists bytes.now atoms × IsSetLine atoms line)) }

        // So the book has the line of a set exactly where the file lists this set, by whatever spelling.
        ensures exact { IfOk result (λ book. (I : List Atom) (line : List ℕ) → Each IsReadable I → IsSetLine I line → (line ∈ book) ↔ IsListed bytes.now I) }
        ensures canonical { IfOk result (Each IsCanonical) }
        ensures once { IfOk result HasNoRepeats }
        ensures refused { IfErr result (IsDueFault bytes.now) }
    {
        let mut book = AfterBook::new(alloc);
        let mut rest = bytes;
        let mut number: u64 = 0;
        'lines: while let Some((line, behind)) = split_line(rest) {
            number += 1;
            match book.read_line(line, number) {
                Ok(()) => rest = behind,
                Err(fault) => return Err(fault),
            }
        }
        match book.take_up(rest) {
            Ok(_) => Ok(book),
            Err(_) => Err(AfterFault::OutOfMemory),
        }
    }
}
