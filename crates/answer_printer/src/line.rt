//! The line of a set of atoms of a pool. The ids are sorted once, by what their atoms mean, and then printed in order.

ghost use Rattle.std.specs.Prelude.{◌≡◌, ◌++◌, IfOk, OnOk, codes, length, map};
ghost use Rattle.lists.specs.Lists.{Each, HasNoRepeats, SameSet};
ghost use Rattle.asp_meaning.specs.Lines.{IsInOrder, IsSetLine, atom_text, each_after, joined, line_of};
ghost use Rattle.term_pool.specs.Nodes.{IsPool};
ghost use Rattle.atom_pool.specs.Meanings.{IsBeside, IsUserAtom, atom_at};

use crate::atoms::{compare_atoms, push_atom};
use alpha_outside::{AtomId, List, Node, OutOfMemory};
use atom_pool::AtomPool;
use std::alloc::Global;
use term_pool::TermPool;

// Each atom after a comma and a blank.
fn push_each_after(
    alloc: Global,
    text: &mut Vec<u8>,
    pool: &AtomPool,
    terms: &[Node],
    atoms: &[AtomId],
) -> Result<(), OutOfMemory>
    requires terms { IsPool terms.now }
    requires beside { IsBeside pool.now (length terms.now) }
    ensures { OnOk result (text.new.items ≡ text.old.items ++ each_after (codes ", ") (map (λ id. atom_text (atom_at terms.now pool.now id)) atoms.now)) }
{
    for atom in atoms {
        text.extend_from_slice(b", ")?;
        push_atom(alloc, text, pool, terms, *atom)?;
    }
    Ok(())
}

// The atoms with a comma and a blank between them.
fn push_joined(
    alloc: Global,
    text: &mut Vec<u8>,
    pool: &AtomPool,
    terms: &[Node],
    atoms: &[AtomId],
) -> Result<(), OutOfMemory>
    requires terms { IsPool terms.now }
    requires beside { IsBeside pool.now (length terms.now) }
    ensures { OnOk result (text.new.items ≡ text.old.items ++ joined (codes ", ") (map (λ id. atom_text (atom_at terms.now pool.now id)) atoms.now)) }
{
    if atoms.is_empty() {
        return Ok(());
    }
    push_atom(alloc, text, pool, terms, atoms[0])?;
    push_each_after(alloc, text, pool, terms, &atoms[1..])
}

// The line of atoms, as they stand in the list.
fn line_in_order(
    alloc: Global,
    atoms: &[AtomId],
    pool: &AtomPool,
    terms: &[Node],
) -> Result<List<u8>, OutOfMemory>
    requires terms { IsPool terms.now }
    requires beside { IsBeside pool.now (length terms.now) }
    ensures { IfOk result (λ line. line ≡ line_of (map (atom_at terms.now pool.now) atoms.now)) }
{
    let mut text = Vec::new(alloc);
    text.extend_from_slice(b"{")?;
    push_joined(alloc, &mut text, pool, terms, atoms)?;
    text.extend_from_slice(b"}\n")?;
    Ok(List::from_vec(text))
}

// The ids of a set of atoms whose terms are these nodes, in the order of its line.
fn sorted_ids(
    alloc: Global,
    atoms: &[AtomId],
    pool: &AtomPool,
    terms: &[Node],
) -> Result<Vec<AtomId>, OutOfMemory>
    requires terms { IsPool terms.now }
    requires user { Each (IsUserAtom pool.now) atoms.now }
    requires distinct { HasNoRepeats atoms.now }
    requires beside { IsBeside pool.now (length terms.now) }
    ensures same { IfOk result (λ v. SameSet atoms.now v.items) }
    ensures in_order { IfOk result (λ v. IsInOrder (map (atom_at terms.now pool.now) v.items)) }
{
    // The length comes with what the pool promises of itself: nothing stands twice, so different ids differ in meaning.
    let _ = pool.len();
    let mut sorted = Vec::from_slice(alloc, atoms)?;
    sorted.sort_unstable_by(|a, b| compare_atoms(pool, terms, *a, *b));
    Ok(sorted)
}

/// The ids of a set of atoms in the order of its line. It costs one sort.
pub fn sorted_atoms(
    alloc: Global,
    atoms: &[AtomId],
    pool: &AtomPool,
    terms: &TermPool,
) -> Result<Vec<AtomId>, OutOfMemory>
    requires user { Each (IsUserAtom pool.now) atoms.now }
    requires distinct { HasNoRepeats atoms.now }
    requires beside { IsBeside pool.now (length terms.now) }
    ensures same { IfOk result (λ v. SameSet atoms.now v.items) }
    ensures in_order { IfOk result (λ v. IsInOrder (map (atom_at terms.now pool.now) v.items)) }
{
    sorted_ids(alloc, atoms, pool, terms.nodes())
}

/// The line of a set of atoms whose terms are these nodes, with its line feed.
pub fn set_line_of(
    alloc: Global,
    atoms: &[AtomId],
    pool: &AtomPool,
    terms: &[Node],
) -> Result<List<u8>, OutOfMemory>
    requires terms { IsPool terms.now }
    requires user { Each (IsUserAtom pool.now) atoms.now }
    requires distinct { HasNoRepeats atoms.now }
    requires beside { IsBeside pool.now (length terms.now) }
    ensures { IfOk result (IsSetLine (map (atom_at terms.now pool.now) atoms.now)) }
{
    let sorted = sorted_ids(alloc, atoms, pool, terms)?;
    line_in_order(alloc, sorted.as_slice(), pool, terms)
}

/// The line of a set of atoms, with its line feed. It costs one sort of the ids and the line's length.
pub fn set_line(
    alloc: Global,
    atoms: &[AtomId],
    pool: &AtomPool,
    terms: &TermPool,
) -> Result<List<u8>, OutOfMemory>
    requires user { Each (IsUserAtom pool.now) atoms.now }
    requires distinct { HasNoRepeats atoms.now }
    requires beside { IsBeside pool.now (length terms.now) }
    ensures { IfOk result (IsSetLine (map (atom_at terms.now pool.now) atoms.now)) }
{
    set_line_of(alloc, atoms, pool, terms.nodes())
}
