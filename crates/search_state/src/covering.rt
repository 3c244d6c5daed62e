//! An atom that no rule gives: no instance of any rule, made or not, has it as its head. It is in no answer set, whatever is made later, so
//! the nogood that says so holds for good, and the atom alone is its cover.
//!
//! Without it, of `a :- b, not c.` where no rule gives c, each instance doubles the work: that c can't be is known only where all else is
//! chosen, and for that choice alone. It costs one look at the head of each rule for each atom that is tried.
//!
//! Source: Bogaerts and Weinzierl, "Exploiting Justifications for Lazy Grounding of Answer Set Programs" (IJCAI 2018).

ghost use Rattle.std.specs.Prelude.{◌≡◌, ◌<◌, ◌≤◌, None, true, false, map, length, IfOk, IfSome, OnOk};
ghost use Rattle.alpha_outside.specs.declared.pattern.PatternTerm.TheVariants.{Known};
ghost use Rattle.search_values.specs.Values.{value_of};
ghost use Rattle.lazy_grounder.specs.Lawful.{IsLawful};
ghost use Rattle.journal_theory.specs.Events.{phase_justified};
ghost use Rattle.search_state.specs.Searching.{ids, IsAllTold, phase_of};
ghost use Rattle.search_state.specs.Moves.{IsNamed};
ghost use Rattle.search_state.specs.Underivable.{IsUnderivable, CanBeOut, justified_lits, with_justified, IsPatternAt};

use crate::search::{Search, Stage};
use alpha_outside::{
    AtomId, List, Lit, NogoodId, OutOfMemory, Pattern, PatternTerm, TermId, Value,
};
use atom_pool::AtomNode;
use justification::is_underivable;
use propagation::admit;
use std::alloc::Global;

// The literals of the nogood that this atom is true.
fn lits_for(alloc: Global, atom: AtomId) -> Result<List<Lit>, OutOfMemory>
    ensures { IfOk result (λ lits. lits ≡ justified_lits atom) }
{
    let mut lits = List::new(alloc);
    lits.push(Lit {
        atom,
        positive: true,
    })?;
    Ok(lits)
}

// These terms, as parts of a pattern.
fn known_terms(alloc: Global, args: &[TermId]) -> Result<List<PatternTerm>, OutOfMemory>
    ensures { IfOk result (λ terms. terms ≡ map Known args.now) }
{
    let mut terms = List::new(alloc);
    for t in args {
        terms.push(PatternTerm::Known(*t))?;
    }
    Ok(terms)
}

// What comes after the nogood of an atom with this value was justified.
fn stage_justified(stage: Stage, value: Option<Value>, nogood: NogoodId) -> Stage
    ensures { phase_of result ≡ phase_justified (phase_of stage) value nogood }
{
    match stage {
        Stage::Free => match value {
            None => Stage::Free,
            Some(_) => Stage::MustStrike(nogood),
        },
        other => other,
    }
}

impl Search {
    /// Whether no rule gives the named atom.
    ///
    /// It costs one look at the head of each rule.
    pub fn is_barred(&self, id: AtomId) -> Result<bool, OutOfMemory>
        requires lawful { IsLawful self.now.core self.now.ground }
        requires named { IsNamed self.now id }
        ensures { IfOk result (λ barred. barred ≡ true → IsUnderivable self.now id) }
    {
        is_underivable(self.alloc, &self.core, &self.ground, id)
    }

    // Whether the id is that of a named atom without a value that no rule gives.
    fn is_ruled_out(&self, id: AtomId) -> Result<bool, OutOfMemory>
        requires lawful { IsLawful self.now.core self.now.ground }
        requires there { id < ids self.now }
        ensures { IfOk result (λ out. out ≡ true → CanBeOut self.now id) }
    {
        if self.trail.value(id).is_some() || !self.is_named(id) {
            return Ok(false);
        }
        self.is_barred(id)
    }

    // The first such atom among the ids from one on and below another.
    fn underivable_in(&self, from: u32, to: u32) -> Result<Option<AtomId>, OutOfMemory>
        requires lawful { IsLawful self.now.core self.now.ground }
        requires there { to ≤ ids self.now }
        ensures { IfOk result (λ found. IfSome found (CanBeOut self.now)) }
    {
        for id in from..to {
            if self.is_ruled_out(AtomId(id))? {
                return Ok(Some(AtomId(id)));
            }
        }
        Ok(None)
    }

    /// An atom without a value that no rule gives. Above level 0 it tries only the atoms that weren't tried before; at level 0 it tries all, those first
    /// that come after the last one found.
    ///
    /// None says only that none was found. It costs one look at the head of each rule for each atom that is tried.
    pub fn underivable(&self) -> Result<Option<AtomId>, OutOfMemory>
        requires { IsLawful self.now.core self.now.ground }
        ensures { IfOk result (λ found. IfSome found (CanBeOut self.now)) }
    {
        let all = self.told.atoms;
        let tried = self.tried.min(all);
        let found = self.underivable_in(tried, all)?;
        if found.is_some() || self.trail.level() > 0 {
            return Ok(found);
        }
        self.underivable_in(0, tried)
    }

    /// Stores the nogood that this atom is in the set.
    pub fn justify(&mut self, atom: AtomId) -> Result<(NogoodId, List<Lit>), OutOfMemory>
        requires { IsUnderivable self.old atom }
        ensures id { IfOk result (λ r. r.0 ≡ length self.old.nogoods) }
        ensures lits { IfOk result (λ r. r.1 ≡ justified_lits atom) }
        ensures ok { OnOk result (self.new ≡ with_justified self.old atom) }
    {
        let lits = lits_for(self.alloc, atom)?;
        let nogood = admit(&mut self.nogoods, &self.trail, lits.as_slice(), None)?;
        self.stage = stage_justified(self.stage, self.trail.value(atom), nogood);
        self.tried = atom.0.saturating_add(1);
        Ok((nogood, lits))
    }

    /// The pattern of a named atom alone.
    pub fn pattern(&self, id: AtomId) -> Result<Pattern, OutOfMemory>
        requires told { IsAllTold self.now }
        requires named { IsNamed self.now id }
        ensures { IfOk result (IsPatternAt self.now id) }
    {
        match self.ground.atoms.get(id) {
            AtomNode::Body(_) => unreachable!(),
            AtomNode::Named { pred, args } => Ok(Pattern {
                pred: self.ground.atoms.pred_at(*pred).copy(self.alloc)?,
                args: known_terms(self.alloc, args.as_slice())?,
                except: List::new(self.alloc),
            }),
        }
    }
}
