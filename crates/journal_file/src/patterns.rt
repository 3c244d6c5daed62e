//! Literals and patterns of a nogood, as words behind blanks.

ghost use Rattle.std.specs.Prelude.{◌≡◌, ◌++◌, map, OnOk};
ghost use Rattle.lists.specs.Lists.{concat};
ghost use Rattle.journal_file.specs.Lines.{behind, lit_text, pattern_words};
ghost use Rattle.journal_file.specs.Terms.{term_text};

use crate::preds::{push_pred, side_mark};
use crate::terms::push_term;
use crate::words::{push_atoms, push_digits, push_word};
use alpha_outside::{Lit, OutOfMemory, Pattern, PatternTerm};
use std::alloc::Global;

// Literals.
fn push_lits(text: &mut Vec<u8>, lits: &[Lit]) -> Result<(), OutOfMemory>
    ensures { OnOk result (text.new.items ≡ text.old.items ++ behind (map lit_text lits.now)) }
{
    for lit in lits {
        push_word(text, side_mark(lit.positive))?;
        push_digits(text, lit.atom.0)?;
    }
    Ok(())
}

// The arguments of a pattern.
fn push_arguments(
    alloc: Global,
    text: &mut Vec<u8>,
    args: &[PatternTerm],
) -> Result<(), OutOfMemory>
    ensures { OnOk result (text.new.items ≡ text.old.items ++ behind (map term_text args.now)) }
{
    for arg in args {
        text.extend_from_slice(b" ")?;
        push_term(alloc, text, arg)?;
    }
    Ok(())
}

// A pattern behind a bar.
fn push_pattern(alloc: Global, text: &mut Vec<u8>, pattern: &Pattern) -> Result<(), OutOfMemory>
    ensures { OnOk result (text.new.items ≡ text.old.items ++ behind (pattern_words pattern.now)) }
{
    push_word(text, b"|")?;
    push_pred(text, &pattern.pred)?;
    push_arguments(alloc, text, pattern.args.as_slice())?;
    push_word(text, b"/")?;
    push_atoms(text, pattern.except.as_slice())
}

// The patterns of a cover.
fn push_cover(alloc: Global, text: &mut Vec<u8>, patterns: &[Pattern]) -> Result<(), OutOfMemory>
    ensures { OnOk result (text.new.items ≡ text.old.items ++ behind (concat (map pattern_words patterns.now))) }
{
    for pattern in patterns {
        push_pattern(alloc, text, pattern)?;
    }
    Ok(())
}

/// The literals of a nogood, and the patterns of its cover.
pub fn push_nogood(
    alloc: Global,
    text: &mut Vec<u8>,
    lits: &[Lit],
    patterns: &[Pattern],
) -> Result<(), OutOfMemory>
    ensures { OnOk result (text.new.items ≡ text.old.items ++ behind (map lit_text lits.now ++ concat (map pattern_words patterns.now))) }
{
    push_lits(text, lits)?;
    push_cover(alloc, text, patterns)
}
