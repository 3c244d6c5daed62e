//! Arithmetic goes out of the positive atoms of a rule.

ghost use Rattle.std.specs.Prelude.{◌≡◌, ◌++◌, ◌∷◌, [], suc, map, IfOk, OnOk};
ghost use Rattle.asp_syntax.specs.declared.tree.CompareOp.TheVariants.{Equal};
ghost use Rattle.asp_syntax.specs.declared.tree.Term.TheVariants.{Anonymous};
ghost use Rattle.rewriting.specs.Parts.{of_item, literal_positives, positives};
ghost use Rattle.rewriting.specs.Lifting.{equation_test, lift_term, lift_atom, lift_each, lift_rule};
ghost use Rattle.aggregate_rewrite.specs.Lifters.{lifted_rule};

use crate::comparison::Comparison;
use crate::free::free_in;
use crate::number::number;
use crate::parts::{comparisons_of, negatives_of};
use alpha_outside::{List, OutOfMemory};
use asp_syntax::{Atom, CompareOp, Item, Literal, Term};
use single_rules::SingleRule;
use std::alloc::Global;

/// The equations for what went out so far, and the first number that is free.
#[derive(Drop)]
struct Lifter {
    next: usize,
    equations: List<Comparison>,
}

impl Lifter {
    // Puts a term out, and gives the variable that stands for it.
    fn put_out(&mut self, term: Term) -> Result<Term, OutOfMemory>
        ensures variable { IfOk result (λ t. t ≡ Anonymous self.old.next) }
        ensures equations { OnOk result (self.new.equations ≡ self.old.equations ++ record { op = Equal; left = Anonymous self.old.next; right = term } ∷ []) }
        ensures next { OnOk result (self.new.next ≡ suc self.old.next) }
    {
        let fresh = number(self.next)?;
        self.equations.push(Comparison {
            op: CompareOp::Equal,
            left: Term::Anonymous(fresh),
            right: term,
        })?;
        self.next = fresh as usize + 1;
        Ok(Term::Anonymous(fresh))
    }

    // The term without its arithmetic.
    fn lift_term(&mut self, alloc: Global, term: &Term) -> Result<Term, OutOfMemory>
        ensures lifted { IfOk result (λ t. t ≡ (lift_term term.now self.old.next).lifted) }
        ensures equations { OnOk result (self.new.equations ≡ self.old.equations ++ map equation_test (lift_term term.now self.old.next).equations) }
        ensures next { OnOk result (self.new.next ≡ (lift_term term.now self.old.next).next) }
    {
        match term {
            Term::Int(number) => Ok(Term::Int(*number)),
            Term::Variable(name) => Ok(Term::Variable(name.copy(alloc)?)),
            Term::Anonymous(number) => Ok(Term::Anonymous(*number)),
            Term::Symbol(name) => Ok(Term::Symbol(name.copy(alloc)?)),
            Term::Text(inside) => Ok(Term::Text(inside.copy(alloc)?)),
            Term::Fun(name, args) => {
                let mut lifted = List::new(alloc);
                for arg in args.as_slice() {
                    lifted.push(self.lift_term(alloc, arg)?)?;
                }
                Ok(Term::Fun(name.copy(alloc)?, lifted))
            }
            Term::Minus(_) => self.put_out(term.copy(alloc)?),
            Term::Arith(_, _, _) => self.put_out(term.copy(alloc)?),
        }
    }

    // The terms without their arithmetic.
    fn lift_terms(&mut self, alloc: Global, terms: &[Term]) -> Result<List<Term>, OutOfMemory>
        ensures lifted { IfOk result (λ ts. ts ≡ (lift_each lift_term terms.now self.old.next).lifted) }
        ensures equations { OnOk result (self.new.equations ≡ self.old.equations ++ map equation_test (lift_each lift_term terms.now self.old.next).equations) }
        ensures next { OnOk result (self.new.next ≡ (lift_each lift_term terms.now self.old.next).next) }
    {
        let mut lifted = List::new(alloc);
        for term in terms {
            lifted.push(self.lift_term(alloc, term)?)?;
        }
        Ok(lifted)
    }

    // The atom without its arithmetic.
    fn lift_atom(&mut self, alloc: Global, atom: &Atom) -> Result<Atom, OutOfMemory>
        ensures lifted { IfOk result (λ a. a ≡ (lift_atom atom.now self.old.next).lifted) }
        ensures equations { OnOk result (self.new.equations ≡ self.old.equations ++ map equation_test (lift_atom atom.now self.old.next).equations) }
        ensures next { OnOk result (self.new.next ≡ (lift_atom atom.now self.old.next).next) }
    {
        let args = self.lift_terms(alloc, atom.args.as_slice())?;
        let name = atom.name.copy(alloc)?;
        Ok(Atom {
            negated: atom.negated,
            name,
            args,
        })
    }

    // Puts the atom of an item that is a positive literal at the end, without its arithmetic.
    fn lift_item(
        &mut self,
        alloc: Global,
        item: &Item,
        into: &mut List<Atom>,
    ) -> Result<(), OutOfMemory>
        ensures lifted { OnOk result (into.new ≡ into.old ++ (lift_each lift_atom (of_item literal_positives item.now) self.old.next).lifted) }
        ensures equations { OnOk result (self.new.equations ≡ self.old.equations ++ map equation_test (lift_each lift_atom (of_item literal_positives item.now) self.old.next).equations) }
        ensures next { OnOk result (self.new.next ≡ (lift_each lift_atom (of_item literal_positives item.now) self.old.next).next) }
    {
        if let Item::Plain(Literal::Positive(atom)) = item {
            into.push(self.lift_atom(alloc, atom)?)?;
        }
        Ok(())
    }

    // The atoms of the positive literals without their arithmetic.
    fn lift_body(&mut self, alloc: Global, body: &[Item]) -> Result<List<Atom>, OutOfMemory>
        ensures lifted { IfOk result (λ atoms. atoms ≡ (lift_each lift_atom (positives body.now) self.old.next).lifted) }
        ensures equations { OnOk result (self.new.equations ≡ self.old.equations ++ map equation_test (lift_each lift_atom (positives body.now) self.old.next).equations) }
    {
        let mut atoms = List::new(alloc);
        for item in body {
            self.lift_item(alloc, item, &mut atoms)?;
        }
        Ok(atoms)
    }
}

/// A body taken apart: atoms without arithmetic, atoms under `not`, and comparisons.
#[derive(Drop)]
pub struct LiftedBody {
    pub pos: List<Atom>,
    pub neg: List<Atom>,
    pub tests: List<Comparison>,
}

/// The body of a rule whose positive atoms have no arithmetic. The equations for what went out of them stand before the comparisons, and
/// aggregates are passed over.
pub fn lift_rule(alloc: Global, rule: &SingleRule) -> Result<LiftedBody, OutOfMemory>
    ensures { IfOk result (λ body. lifted_rule rule.now body ≡ lift_rule rule.now) }
{
    let mut lifter = Lifter {
        next: free_in(rule),
        equations: List::new(alloc),
    };
    let pos = lifter.lift_body(alloc, rule.body.as_slice())?;
    let neg = negatives_of(alloc, rule.body.as_slice())?;
    let comparisons = comparisons_of(alloc, rule.body.as_slice())?;
    let Lifter {
        next: _,
        equations: mut tests,
    } = lifter;
    tests.append(comparisons)?;
    Ok(LiftedBody { pos, neg, tests })
}
