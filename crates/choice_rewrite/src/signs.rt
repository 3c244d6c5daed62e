//! The constraints for predicates that occur both with and without strong negation.
//!
//! The predicates of a program are gone over in the order of its text, with a set of those that were seen. One whose other sign was seen
//! before it gives a constraint, once.

ghost use Rattle.std.specs.Prelude.{◌≡◌, ◌++◌, ◌∷◌, [], List, map, false, OnOk, IfOk};
ghost use Rattle.lists.specs.Lists.{concat};
ghost use Rattle.asp_syntax.specs.declared.tree.Item.TheVariants.{Plain as ItemPlain};
ghost use Rattle.asp_syntax.specs.declared.tree.Literal.TheVariants.{Positive as LiteralPositive};
ghost use Rattle.asp_strata.specs.declared.predicate.Predicate.{Predicate as Sort};
ghost use Rattle.single_rules.specs.Signs.{opposite, has_predicate, choice_in_text, head_in_text, item_in_text, statement_in_text, predicates_in_text, later_signs, variables_from, atom_over, both_signs, sign_rule as rule_of, sign_rules as rules_of};

use crate::number::number;
use alpha_outside::{List, Name, OutOfMemory, RuleKind};
use asp_strata::{Predicate, push_atom, push_condition, push_elements, push_literal};
use asp_syntax::{Atom, ChoiceElement, Head, Item, Literal, Statement, Term};
use indexmap::IndexSet;
use single_rules::SingleRule;
use std::alloc::Global;

// Puts the predicates of an element of a choice at the end.
fn push_choice(
    alloc: Global,
    element: &ChoiceElement,
    into: &mut List<Predicate>,
) -> Result<(), OutOfMemory>
    ensures { OnOk result (into.new ≡ into.old ++ choice_in_text element.now) }
{
    push_atom(alloc, &element.atom, into)?;
    push_condition(alloc, element.condition.as_slice(), into)
}

// Puts the predicates of the elements of a choice at the end.
fn push_choices(
    alloc: Global,
    elements: &[ChoiceElement],
    into: &mut List<Predicate>,
) -> Result<(), OutOfMemory>
    ensures { OnOk result (into.new ≡ into.old ++ concat (map choice_in_text elements.now)) }
{
    for element in elements {
        push_choice(alloc, element, into)?;
    }
    Ok(())
}

// Puts the predicates of a head at the end.
fn push_head(alloc: Global, head: &Head, into: &mut List<Predicate>) -> Result<(), OutOfMemory>
    ensures { OnOk result (into.new ≡ into.old ++ head_in_text head.now) }
{
    match head {
        Head::Absent => Ok(()),
        Head::Single(atom) => push_atom(alloc, atom, into),
        Head::Choice {
            left: _,
            elements,
            right: _,
        } => push_choices(alloc, elements.as_slice(), into),
    }
}

// Puts the predicates of an item of a body at the end.
fn push_item(alloc: Global, item: &Item, into: &mut List<Predicate>) -> Result<(), OutOfMemory>
    ensures { OnOk result (into.new ≡ into.old ++ item_in_text item.now) }
{
    match item {
        Item::Plain(literal) => push_literal(alloc, literal, into),
        Item::Aggregate {
            denied: _,
            aggregate,
        } => push_elements(alloc, aggregate.elements.as_slice(), into),
    }
}

// Puts the predicates of a body at the end.
fn push_body(alloc: Global, body: &[Item], into: &mut List<Predicate>) -> Result<(), OutOfMemory>
    ensures { OnOk result (into.new ≡ into.old ++ concat (map item_in_text body.now)) }
{
    for item in body {
        push_item(alloc, item, into)?;
    }
    Ok(())
}

// Puts the predicates of a statement at the end.
fn push_statement(
    alloc: Global,
    statement: &Statement,
    into: &mut List<Predicate>,
) -> Result<(), OutOfMemory>
    ensures { OnOk result (into.new ≡ into.old ++ statement_in_text statement.now) }
{
    push_head(alloc, &statement.head, into)?;
    push_body(alloc, statement.body.as_slice(), into)
}

// The predicates of a program as they stand in its text.
fn predicates_of(alloc: Global, statements: &[Statement]) -> Result<List<Predicate>, OutOfMemory>
    ensures { IfOk result (λ predicates. predicates ≡ predicates_in_text statements.now) }
{
    let mut predicates = List::new(alloc);
    for statement in statements {
        push_statement(alloc, statement, &mut predicates)?;
    }
    Ok(predicates)
}

// The predicate with this sign.
fn with_sign(alloc: Global, predicate: &Predicate, negated: bool) -> Result<Predicate, OutOfMemory>
    ensures { IfOk result (λ p. p ≡ record { negated = negated; name = predicate.now.name; arity = predicate.now.arity }) }
{
    let name = predicate.name.copy(alloc)?;
    Ok(Predicate {
        negated,
        name,
        arity: predicate.arity,
    })
}

// The predicates that were seen, and those of them whose other sign was seen before.
#[derive(Drop)]
struct Signs {
    seen: IndexSet<Predicate>,
    later: List<Predicate>,
}

impl Signs {
    // Whether the predicate was seen.
    fn has_seen(&self, predicate: &Predicate) -> bool
        ensures { result ≡ has_predicate self.now.seen.keys predicate.now }
    {
        self.seen.contains(predicate)
    }

    // Puts a predicate that was not seen to those that were.
    fn see(&mut self, predicate: Predicate) -> Result<(), OutOfMemory>
        requires { has_predicate self.now.seen.keys predicate ≡ false }
        ensures seen { OnOk result (self.new.seen.keys ≡ self.old.seen.keys ++ predicate ∷ []) }
        ensures later { self.new.later ≡ self.old.later }
    {
        match self.seen.insert(predicate) {
            Ok(_) => Ok(()),
            Err(_) => Err(OutOfMemory),
        }
    }

    // Puts a predicate whose other sign was seen to the later ones.
    fn put_later(&mut self, predicate: Predicate) -> Result<(), OutOfMemory>
        ensures later { OnOk result (self.new.later ≡ self.old.later ++ predicate ∷ []) }
        ensures seen { self.new.seen ≡ self.old.seen }
    {
        self.later.push(predicate)?;
        Ok(())
    }

    // Notes the next predicate of the text.
    fn note(&mut self, alloc: Global, predicate: &Predicate) -> Result<(), OutOfMemory>
        ensures { OnOk result ((ps : List Sort) → self.new.later ++ later_signs self.new.seen.keys ps ≡ self.old.later ++ later_signs self.old.seen.keys (predicate.now ∷ ps)) }
    {
        if self.has_seen(predicate) {
            return Ok(());
        }
        let other = with_sign(alloc, predicate, !predicate.negated)?;
        if self.has_seen(&other) {
            self.put_later(with_sign(alloc, predicate, predicate.negated)?)?;
            return self.see(with_sign(alloc, predicate, predicate.negated)?);
        }
        self.see(with_sign(alloc, predicate, predicate.negated)?)
    }
}

// Of these predicates those whose other sign came before them, each where it comes first.
fn later_of(alloc: Global, predicates: &[Predicate]) -> Result<List<Predicate>, OutOfMemory>
    ensures { IfOk result (λ later. later ≡ later_signs [] predicates.now) }
{
    let mut signs = Signs {
        seen: IndexSet::new(alloc),
        later: List::new(alloc),
    };
    for predicate in predicates {
        signs.note(alloc, predicate)?;
    }
    let Signs { seen: _, later } = signs;
    Ok(later)
}

// So many variables, with numbers from 0 on.
fn variables(alloc: Global, arity: usize) -> Result<List<Term>, OutOfMemory>
    ensures { IfOk result (λ terms. terms ≡ variables_from 0 arity) }
{
    let mut terms = List::new(alloc);
    let mut next: usize = 0;
    'counting: while next < arity {
        terms.push(Term::Anonymous(number(next)?))?;
        next += 1;
    }
    Ok(terms)
}

// A positive literal of this sign, name and number of arguments.
fn literal_over(
    alloc: Global,
    negated: bool,
    name: &Name,
    arity: usize,
) -> Result<Item, OutOfMemory>
    ensures { IfOk result (λ i. i ≡ ItemPlain (LiteralPositive (atom_over negated name.now arity))) }
{
    let args = variables(alloc, arity)?;
    let name = name.copy(alloc)?;
    Ok(Item::Plain(Literal::Positive(Atom {
        negated,
        name,
        args,
    })))
}

// The constraint that an atom of this name and number of arguments does not hold together with its strong negation.
fn sign_rule(alloc: Global, predicate: &Predicate) -> Result<SingleRule, OutOfMemory>
    ensures { IfOk result (λ rule. rule ≡ rule_of predicate.now) }
{
    let mut body = List::new(alloc);
    body.push(literal_over(alloc, false, &predicate.name, predicate.arity)?)?;
    body.push(literal_over(alloc, true, &predicate.name, predicate.arity)?)?;
    Ok(SingleRule {
        kind: RuleKind::Constraint,
        head: None,
        body,
        defined: List::new(alloc),
        line: 0,
    })
}

// Puts the constraints for these predicates at the end.
fn push_sign_rules(
    alloc: Global,
    predicates: &[Predicate],
    into: &mut List<SingleRule>,
) -> Result<(), OutOfMemory>
    ensures { OnOk result (into.new ≡ into.old ++ map rule_of predicates.now) }
{
    for predicate in predicates {
        into.push(sign_rule(alloc, predicate)?)?;
    }
    Ok(())
}

/// Puts the constraints for predicates that occur with both signs at the end.
pub fn push_signs(
    alloc: Global,
    statements: &[Statement],
    into: &mut List<SingleRule>,
) -> Result<(), OutOfMemory>
    ensures { OnOk result (into.new ≡ into.old ++ rules_of statements.now) }
{
    let predicates = predicates_of(alloc, statements)?;
    let later = later_of(alloc, predicates.as_slice())?;
    push_sign_rules(alloc, later.as_slice(), into)
}
