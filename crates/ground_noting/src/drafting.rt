//! The nogoods of an instance as they are stored: each literal once, and none where both signs of an atom would stand in one.

ghost use Rattle.std.specs.Prelude.{◌≡◌, ◌<◌, ℕ, [], ◌∷◌, ◌++◌, None, Some, map, IfOk, true, false, OnOk, MatchOption};
ghost use Rattle.lists.specs.Lists.{Each};
ghost use Rattle.search_values.specs.Values.{lit};
ghost use Rattle.search_values.specs.Tables.{both_signs, once, set_of, lits_of, each_with, with_body};
ghost use Rattle.nogood_store.specs.Stored.{HasNoAtomTwice, LitsAreBelow, atom_of};
ghost use Rattle.ground_noting.specs.Instances.{AreBelow, IsWithin, instance_of, nogoods_of};
ghost use Rattle.ground_noting.specs.Drafts.{IsDraft, nogood_of, place_of, StartsWith, AddsOnce, head_lits};

use alpha_outside::{AtomId, Lit, OutOfMemory, RuleKind};
use atom_pool::Made;
use indexmap::IndexSet;
use std::alloc::Global;

/// The literals of a nogood, and the place of its head literal.
#[derive(Drop)]
pub struct Draft {
    pub lits: Vec<Lit>,
    pub head: Option<u32>,
}

/// The nogoods of an instance, in time linear in the length of its body.
pub fn drafts_of(alloc: Global, made: &Made) -> Result<Vec<Draft>, OutOfMemory>
    ensures table { IfOk result (λ v. map nogood_of v.items ≡ nogoods_of made.now) }
    ensures drafts { IfOk result (λ v. (n : ℕ) → IsWithin n made.now → Each (IsDraft n) v.items) }
{
    let Some(head) = made.head else {
        return of_constraint(alloc, made);
    };
    match made.kind {
        RuleKind::Plain => match made.body {
            None => of_plain(alloc, made, head),
            Some(body) => of_body(alloc, made, body, head, false),
        },
        RuleKind::Choice => match made.body {
            None => Ok(Vec::new(alloc)),
            Some(body) => of_body(alloc, made, body, head, true),
        },
        RuleKind::Constraint => of_constraint(alloc, made),
    }
}

// The nogoods of a plain instance that has no body atom.
fn of_plain(alloc: Global, made: &Made, head: AtomId) -> Result<Vec<Draft>, OutOfMemory>
    ensures table { IfOk result (λ v. map nogood_of v.items ≡ set_of (Some head) (lit head false ∷ lits_of true made.now.pos)) }
    ensures drafts { IfOk result (λ v. (n : ℕ) → head < n → AreBelow n made.now.pos → Each (IsDraft n) v.items) }
{
    let mut drafts = Vec::new(alloc);
    let mut lits = Vec::new(alloc);
    push_lit(&mut lits, head, false)?;
    push_lits(&mut lits, true, made.pos.as_slice())?;
    push_set(alloc, &mut drafts, Some(head), lits.as_slice())?;
    Ok(drafts)
}

// The nogoods of a constraint.
fn of_constraint(alloc: Global, made: &Made) -> Result<Vec<Draft>, OutOfMemory>
    ensures table { IfOk result (λ v. map nogood_of v.items ≡ set_of None (lits_of true made.now.pos ++ lits_of false made.now.neg)) }
    ensures drafts { IfOk result (λ v. (n : ℕ) → AreBelow n made.now.pos → AreBelow n made.now.neg → Each (IsDraft n) v.items) }
{
    let mut drafts = Vec::new(alloc);
    let mut lits = Vec::new(alloc);
    push_lits(&mut lits, true, made.pos.as_slice())?;
    push_lits(&mut lits, false, made.neg.as_slice())?;
    push_set(alloc, &mut drafts, None, lits.as_slice())?;
    Ok(drafts)
}

// The nogoods of an instance with a body atom, in which the head may have to be chosen.
fn of_body(
    alloc: Global,
    made: &Made,
    body: AtomId,
    head: AtomId,
    chosen: bool,
) -> Result<Vec<Draft>, OutOfMemory>
    ensures table { IfOk result (λ v. map nogood_of v.items ≡ with_body body (head_lits chosen head) (instance_of made.now) head) }
    ensures drafts { IfOk result (λ v. (n : ℕ) → body < n → head < n → AreBelow n made.now.pos → AreBelow n made.now.neg
        → Each (IsDraft n) v.items) }
{
    let mut drafts = Vec::new(alloc);
    let lits = body_lits(alloc, made, body, head, chosen)?;
    push_set(alloc, &mut drafts, Some(body), lits.as_slice())?;
    push_each(alloc, &mut drafts, body, false, made.pos.as_slice())?;
    push_each(alloc, &mut drafts, body, true, made.neg.as_slice())?;
    let lits = two_lits(alloc, head, false, body, true)?;
    push_set(alloc, &mut drafts, Some(head), lits.as_slice())?;
    Ok(drafts)
}

// The literals of the nogood by which the body atom becomes true.
fn body_lits(
    alloc: Global,
    made: &Made,
    body: AtomId,
    head: AtomId,
    chosen: bool,
) -> Result<Vec<Lit>, OutOfMemory>
    ensures { IfOk result (λ v. v.items
        ≡ lit body false ∷ head_lits chosen head ++ lits_of true made.now.pos ++ lits_of false made.now.neg) }
{
    let mut lits = Vec::new(alloc);
    push_lit(&mut lits, body, false)?;
    push_chosen(&mut lits, head, chosen)?;
    push_lits(&mut lits, true, made.pos.as_slice())?;
    push_lits(&mut lits, false, made.neg.as_slice())?;
    Ok(lits)
}

// The positive literal of the head, if it has to be chosen.
fn push_chosen(lits: &mut Vec<Lit>, head: AtomId, chosen: bool) -> Result<(), OutOfMemory>
    ensures { OnOk result (lits.new.items ≡ lits.old.items ++ head_lits chosen head) }
{
    if chosen {
        push_lit(lits, head, true)
    } else {
        Ok(())
    }
}

// The list of two literals.
fn two_lits(
    alloc: Global,
    first: AtomId,
    first_sign: bool,
    last: AtomId,
    last_sign: bool,
) -> Result<Vec<Lit>, OutOfMemory>
    ensures { IfOk result (λ v. v.items ≡ lit first first_sign ∷ lit last last_sign ∷ []) }
{
    let mut lits = Vec::new(alloc);
    push_lit(&mut lits, first, first_sign)?;
    push_lit(&mut lits, last, last_sign)?;
    Ok(lits)
}

// The literal of this atom with this sign.
fn push_lit(lits: &mut Vec<Lit>, atom: AtomId, positive: bool) -> Result<(), OutOfMemory>
    ensures { OnOk result (lits.new.items ≡ lits.old.items ++ lit atom positive ∷ []) }
{
    match lits.push(Lit { atom, positive }) {
        Ok(()) => Ok(()),
        Err(_) => Err(OutOfMemory),
    }
}

// A literal of this sign for each atom.
fn push_lits(lits: &mut Vec<Lit>, positive: bool, atoms: &[AtomId]) -> Result<(), OutOfMemory>
    ensures { OnOk result (lits.new.items ≡ lits.old.items ++ lits_of positive atoms.now) }
{
    for atom in atoms {
        push_lit(lits, *atom, positive)?;
    }
    Ok(())
}

// For each of the atoms the nogood of the body atom and the atom's literal of this sign.
fn push_each(
    alloc: Global,
    drafts: &mut Vec<Draft>,
    body: AtomId,
    positive: bool,
    atoms: &[AtomId],
) -> Result<(), OutOfMemory>
    ensures table { OnOk result (map nogood_of drafts.new.items ≡ map nogood_of drafts.old.items ++ each_with body positive atoms.now) }
    ensures drafts { OnOk result ((n : ℕ) → body < n → AreBelow n atoms.now → Each (IsDraft n) drafts.old.items
        → Each (IsDraft n) drafts.new.items) }
{
    for atom in atoms {
        let lits = two_lits(alloc, body, true, *atom, positive)?;
        push_set(alloc, drafts, None, lits.as_slice())?;
    }
    Ok(())
}

// The nogood of these literals, unless both signs of an atom are among them.
fn push_set(
    alloc: Global,
    drafts: &mut Vec<Draft>,
    head: Option<AtomId>,
    lits: &[Lit],
) -> Result<(), OutOfMemory>
    requires { StartsWith head lits.now }
    ensures table { OnOk result (map nogood_of drafts.new.items ≡ map nogood_of drafts.old.items ++ set_of head lits.now) }
    ensures drafts { OnOk result ((n : ℕ) → LitsAreBelow n lits.now → Each (IsDraft n) drafts.old.items
        → Each (IsDraft n) drafts.new.items) }
{
    match each_once(alloc, lits)? {
        None => Ok(()),
        Some(lits) => {
            let draft = Draft {
                lits,
                head: place_of_head(head),
            };
            match drafts.push(draft) {
                Ok(()) => Ok(()),
                Err(_) => Err(OutOfMemory),
            }
        }
    }
}

// The head literal is the first.
fn place_of_head(head: Option<AtomId>) -> Option<u32>
    ensures { result ≡ place_of head }
{
    match head {
        None => None,
        Some(_) => Some(0),
    }
}

// The literals once each, where they come first, or none if both signs of an atom are among them.
fn each_once(alloc: Global, lits: &[Lit]) -> Result<Option<Vec<Lit>>, OutOfMemory>
    ensures { IfOk result (λ r. MatchOption r (both_signs lits.now ≡ true)
        (λ v. (both_signs lits.now ≡ false) × (v.items ≡ once lits.now) × HasNoAtomTwice v.items)) }
{
    let mut atoms = IndexSet::new(alloc);
    let mut kept = Vec::new(alloc);
    for lit in lits {
        if !add_once(&mut atoms, &mut kept, *lit)? {
            return Ok(None);
        }
    }
    Ok(Some(kept))
}

// Adds the literal, unless it is there already. Says whether the other sign of its atom isn't there. The atoms are those of the literals.
fn add_once(
    atoms: &mut IndexSet<AtomId>,
    kept: &mut Vec<Lit>,
    lit: Lit,
) -> Result<bool, OutOfMemory>
    requires { atoms.old.keys ≡ map atom_of kept.old.items }
    ensures atoms { OnOk result (atoms.new.keys ≡ map atom_of kept.new.items) }
    ensures kept { IfOk result (λ fits. AddsOnce fits kept.old.items lit kept.new.items) }
{
    match atoms.insert_full(lit.atom) {
        Err(_) => Err(OutOfMemory),
        Ok((place, is_new)) => {
            if is_new {
                match kept.push(lit) {
                    Ok(()) => Ok(true),
                    Err(_) => Err(OutOfMemory),
                }
            } else {
                Ok(kept[place].positive == lit.positive)
            }
        }
    }
}

#[cfg(test)]
mod tests {
    use super::drafts_of;
    use alpha_outside::{AtomId, List, Maker, RuleKind};
    use atom_pool::Made;
    use std::alloc::{AllocError, Global};
    use std::test::Fail;

    // An instance with this head, these atoms and this body atom.
    fn made(
        alloc: Global,
        head: Option<AtomId>,
        pos: &[AtomId],
        neg: &[AtomId],
        body: Option<AtomId>,
    ) -> Result<Made, AllocError> {
        let kind = match head {
            Some(_) => RuleKind::Plain,
            None => RuleKind::Constraint,
        };
        let binding = List::new(alloc);
        let pos = List::from_slice(alloc, pos)?;
        let neg = List::from_slice(alloc, neg)?;
        Ok(Made {
            maker: Maker::Rule { rule: 0, binding },
            kind,
            head,
            pos,
            neg,
            body,
        })
    }

    #[test]
    fn a_body_gives_four(rt: HostRuntime) -> Result<(), Fail> {
        let head = Some(AtomId(0));
        let rule = made(
            rt.alloc(),
            head,
            &[AtomId(1)],
            &[AtomId(2)],
            Some(AtomId(3)),
        )?;
        let drafts = drafts_of(rt.alloc(), &rule)?;
        assert_eq!(rt; drafts.len(), 4);
        Ok(())
    }

    #[test]
    fn a_repeated_atom_stands_once(rt: HostRuntime) -> Result<(), Fail> {
        let head = Some(AtomId(0));
        let pos = [AtomId(1), AtomId(2), AtomId(1)];
        let drafts = drafts_of(rt.alloc(), &made(rt.alloc(), head, &pos, &[], None)?)?;
        assert_eq!(rt; drafts.len(), 1);
        assert_eq!(rt; drafts[0].lits.len(), 3);
        Ok(())
    }

    #[test]
    fn both_signs_give_none(rt: HostRuntime) -> Result<(), Fail> {
        let rule = made(rt.alloc(), None, &[AtomId(1)], &[AtomId(1)], None)?;
        let drafts = drafts_of(rt.alloc(), &rule)?;
        assert!(rt; drafts.is_empty());
        Ok(())
    }
}
