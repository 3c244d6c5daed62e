//! The negative literals and the comparisons of a body.

ghost use Rattle.std.specs.Prelude.{◌≡◌, ◌++◌, IfOk, OnOk};
ghost use Rattle.rewriting.specs.Parts.{of_item, literal_negatives, literal_comparisons, negatives, comparisons};

use crate::comparison::Comparison;
use alpha_outside::{List, OutOfMemory};
use asp_syntax::{Atom, Item, Literal};
use std::alloc::Global;

// Puts the atom of an item that is a negative literal at the end.
fn push_negative(alloc: Global, item: &Item, into: &mut List<Atom>) -> Result<(), OutOfMemory>
    ensures { OnOk result (into.new ≡ into.old ++ of_item literal_negatives item.now) }
{
    if let Item::Plain(Literal::Negative(atom)) = item {
        into.push(atom.copy(alloc)?)?;
    }
    Ok(())
}

/// The atoms of the negative literals.
pub fn negatives_of(alloc: Global, body: &[Item]) -> Result<List<Atom>, OutOfMemory>
    ensures { IfOk result (λ atoms. atoms ≡ negatives body.now) }
{
    let mut atoms = List::new(alloc);
    for item in body {
        push_negative(alloc, item, &mut atoms)?;
    }
    Ok(atoms)
}

// Puts an item that is a comparison at the end.
fn push_comparison(
    alloc: Global,
    item: &Item,
    into: &mut List<Comparison>,
) -> Result<(), OutOfMemory>
    ensures { OnOk result (into.new ≡ into.old ++ of_item literal_comparisons item.now) }
{
    if let Item::Plain(Literal::Compare(op, left, right)) = item {
        let left = left.copy(alloc)?;
        let right = right.copy(alloc)?;
        into.push(Comparison {
            op: *op,
            left,
            right,
        })?;
    }
    Ok(())
}

/// The comparisons of a body.
pub fn comparisons_of(alloc: Global, body: &[Item]) -> Result<List<Comparison>, OutOfMemory>
    ensures { IfOk result (λ found. found ≡ comparisons body.now) }
{
    let mut found = List::new(alloc);
    for item in body {
        push_comparison(alloc, item, &mut found)?;
    }
    Ok(found)
}
