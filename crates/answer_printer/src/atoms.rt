//! Atoms beside their terms: how two compare, and the text of one.

ghost use Rattle.std.specs.Prelude.{◌≡◌, ◌++◌, ◌<◌, [], All, List, OnOk, codes, false, length, map, ℕ};
ghost use Rattle.alpha_outside.specs.declared.node.Node.{Node};
ghost use Rattle.asp_meaning.specs.Lines.{atom_cmp, atom_text, call_text, each_after, sign_text, value_text};
ghost use Rattle.asp_meaning.specs.Orders.{values_cmp};
ghost use Rattle.term_pool.specs.Nodes.{value_at, IsPool};
ghost use Rattle.atom_pool.specs.Meanings.{IsBeside, atom_at};
ghost use Rattle.answer_printer.specs.Pieces.{term_text};

use crate::terms::push_term;
use alpha_outside::{AtomId, Node, OutOfMemory, Pred, TermId};
use atom_pool::{AtomNode, AtomPool};
use std::alloc::Global;
use std::cmp::Ordering;
use term_pool::compare_terms;

/// What is printed of an atom.
#[derive(Clone, Copy, Debug)]
pub struct AtomParts<'a> {
    pub negated: bool,
    pub name: &'a [u8],
    pub args: &'a [TermId],
}

// What is no user's atom has an empty name. A sort may ask for any id, so this is an answer and no condition.
fn nothing<'a>() -> AtomParts<'a>
    ensures negated { result.negated ≡ false }
    ensures name { result.name.now ≡ [] }
    ensures args { result.args.now ≡ [] }
{
    AtomParts {
        negated: false,
        name: &[],
        args: &[],
    }
}

/// What is printed of the atom with this id.
pub fn parts_of(pool: &AtomPool, id: AtomId) -> AtomParts<'_>
    ensures atom { (terms : List Node) → atom_at terms pool.now id ≡ record { negated = result.negated; name = result.name.now; args = map (value_at terms) result.args.now } }
    ensures below { (n : ℕ) → IsBeside pool.now n → All (λ a. a < n) result.args.now }
{
    if id.0 >= pool.len() {
        return nothing();
    }
    match pool.get(id) {
        AtomNode::Named { pred, args } => match pool.pred_at(*pred) {
            Pred::User {
                negated,
                name,
                arity: _,
            } => AtomParts {
                negated: *negated,
                name: name.as_bytes(),
                args: args.as_slice(),
            },
            _ => nothing(),
        },
        AtomNode::Body(_) => nothing(),
    }
}

// The order of two lists of arguments, from the left.
fn compare_args(terms: &[Node], xs: &[TermId], ys: &[TermId]) -> Ordering
    requires pool { IsPool terms.now }
    requires many { length xs.now ≡ length ys.now }
    requires left { All (λ a. a < length terms.now) xs.now }
    requires right { All (λ a. a < length terms.now) ys.now }
    ensures { result ≡ values_cmp (map (value_at terms.now) xs.now) (map (value_at terms.now) ys.now) }
{
    for place in 0..xs.len() {
        let order = compare_terms(terms, xs[place], ys[place]);
        if order != Ordering::Equal {
            return order;
        }
    }
    Ordering::Equal
}

/// The order of two atoms: by name, number of arguments, arguments from the left, and then sign, the positive one first.
pub fn compare_atoms(pool: &AtomPool, terms: &[Node], a: AtomId, b: AtomId) -> Ordering
    requires terms { IsPool terms.now }
    requires beside { IsBeside pool.now (length terms.now) }
    ensures { result ≡ atom_cmp (atom_at terms.now pool.now a) (atom_at terms.now pool.now b) }
{
    let left = parts_of(pool, a);
    let right = parts_of(pool, b);
    let by_name = left.name.cmp(right.name);
    if by_name != Ordering::Equal {
        return by_name;
    }
    let by_length = left.args.len().cmp(&right.args.len());
    if by_length != Ordering::Equal {
        return by_length;
    }
    let by_args = compare_args(terms, left.args, right.args);
    if by_args != Ordering::Equal {
        return by_args;
    }
    left.negated.cmp(&right.negated)
}

// The mark of strong negation, where it stands.
fn push_sign(text: &mut Vec<u8>, negated: bool) -> Result<(), OutOfMemory>
    ensures { OnOk result (text.new.items ≡ text.old.items ++ sign_text negated) }
{
    if negated {
        text.extend_from_slice(b"-")?;
    }
    Ok(())
}

// Each argument after a comma.
fn push_each_after(
    alloc: Global,
    text: &mut Vec<u8>,
    terms: &[Node],
    args: &[TermId],
) -> Result<(), OutOfMemory>
    requires pool { IsPool terms.now }
    requires args { All (λ a. a < length terms.now) args.now }
    ensures { OnOk result (text.new.items ≡ text.old.items ++ each_after (codes ",") (map (term_text terms.now) args.now)) }
{
    for arg in args {
        text.extend_from_slice(b",")?;
        push_term(alloc, text, terms, *arg)?;
    }
    Ok(())
}

// The arguments in parentheses, or nothing where there are none.
fn push_args(
    alloc: Global,
    text: &mut Vec<u8>,
    terms: &[Node],
    args: &[TermId],
) -> Result<(), OutOfMemory>
    requires pool { IsPool terms.now }
    requires args { All (λ a. a < length terms.now) args.now }
    ensures { OnOk result (text.new.items ≡ text.old.items ++ call_text [] (map (term_text terms.now) args.now)) }
{
    if args.is_empty() {
        return Ok(());
    }
    text.extend_from_slice(b"(")?;
    push_term(alloc, text, terms, args[0])?;
    push_each_after(alloc, text, terms, &args[1..])?;
    text.extend_from_slice(b")")?;
    Ok(())
}

/// Adds the text of an atom. After want of memory a part of it may have been added.
pub fn push_atom(
    alloc: Global,
    text: &mut Vec<u8>,
    pool: &AtomPool,
    terms: &[Node],
    id: AtomId,
) -> Result<(), OutOfMemory>
    requires terms { IsPool terms.now }
    requires beside { IsBeside pool.now (length terms.now) }
    ensures { OnOk result (text.new.items ≡ text.old.items ++ atom_text (atom_at terms.now pool.now id)) }
{
    let AtomParts {
        negated,
        name,
        args,
    } = parts_of(pool, id);
    push_sign(text, negated)?;
    text.extend_from_slice(name)?;
    push_args(alloc, text, terms, args)
}
