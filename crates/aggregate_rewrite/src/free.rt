//! Numbers that no anonymous variable has.

ghost use Rattle.std.specs.Prelude.{◌≡◌};
ghost use Rattle.asp_meaning.specs.Variables.{variables, guard_terms, item_terms, literal_terms};
ghost use Rattle.asp_safety.specs.Binding.{variables_of, body_variables};
ghost use Rattle.rewriting.specs.Numbering.{atom_terms};
ghost use Rattle.rewriting.specs.Lifting.{free_above, free_in};

use asp_syntax::{Atom, Guard, Item, Literal, Term};
use single_rules::SingleRule;

// The first number above those of the anonymous variables of a term.
fn above_term(term: &Term) -> usize
    ensures { result ≡ free_above (variables term.now) }
{
    match term {
        Term::Int(_) => 0,
        Term::Variable(_) => 0,
        Term::Anonymous(number) => *number as usize + 1,
        Term::Symbol(_) => 0,
        Term::Text(_) => 0,
        Term::Fun(_, args) => {
            let mut free: usize = 0;
            for arg in args.as_slice() {
                free = free.max(above_term(arg));
            }
            free
        }
        Term::Minus(inner) => above_term(inner.get()),
        Term::Arith(_, left, right) => above_term(left.get()).max(above_term(right.get())),
    }
}

// The same for terms.
fn above_terms(terms: &[Term]) -> usize
    ensures { result ≡ free_above (variables_of terms.now) }
{
    let mut free: usize = 0;
    for term in terms {
        free = free.max(above_term(term));
    }
    free
}

// The same for a literal.
#[tactic(auto, using(crate::proofs::FreeLemmas::free_above_both, std::proofs::lemmas::Grind::common_steps))]
fn above_literal(literal: &Literal) -> usize
    ensures { result ≡ free_above (variables_of (literal_terms literal.now)) }
{
    match literal {
        Literal::Positive(atom) => above_terms(atom.args.as_slice()),
        Literal::Negative(atom) => above_terms(atom.args.as_slice()),
        Literal::Compare(_, left, right) => above_term(left).max(above_term(right)),
    }
}

// The same for a guard.
fn above_guard(guard: &Option<Guard>) -> usize
    ensures { result ≡ free_above (variables_of (guard_terms guard.now)) }
{
    match guard {
        None => 0,
        Some(guard) => above_term(&guard.term),
    }
}

// The same for the terms of an item that stand outside elements.
#[tactic(auto, using(crate::proofs::FreeLemmas::free_above_both, std::proofs::lemmas::Grind::common_steps))]
fn above_item(item: &Item) -> usize
    ensures { result ≡ free_above (variables_of (item_terms item.now)) }
{
    match item {
        Item::Plain(literal) => above_literal(literal),
        Item::Aggregate {
            denied: _,
            aggregate,
        } => above_guard(&aggregate.left).max(above_guard(&aggregate.right)),
    }
}

// The same for a body.
fn above_body(body: &[Item]) -> usize
    ensures { result ≡ free_above (body_variables body.now) }
{
    let mut free: usize = 0;
    for item in body {
        free = free.max(above_item(item));
    }
    free
}

// The same for a head.
fn above_head(head: &Option<Atom>) -> usize
    ensures { result ≡ free_above (variables_of (atom_terms head.now)) }
{
    match head {
        None => 0,
        Some(atom) => above_terms(atom.args.as_slice()),
    }
}

/// The first number above those of the anonymous variables of a rule.
pub fn free_in(rule: &SingleRule) -> usize
    ensures { result ≡ free_in rule.now }
{
    let head = above_head(&rule.head);
    let body = above_body(rule.body.as_slice());
    let defined = above_terms(rule.defined.as_slice());
    head.max(body).max(defined)
}
