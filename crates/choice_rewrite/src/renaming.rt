//! New names for the local variables of choice elements.

ghost use Rattle.std.specs.Prelude.{◌≡◌, ◌++◌, map, IfOk};
ghost use Rattle.asp_meaning.specs.Terms.{named, anonymous};
ghost use Rattle.asp_meaning.specs.Variables.{global_terms};
ghost use Rattle.asp_safety.specs.Binding.{term_of};
ghost use Rattle.single_rules.specs.Renaming.{marked, name_by, new_name, renamed, renamed_atom, renamed_literal};

use crate::above::{marks_in, numbers_in};
use crate::all_terms::all_terms_of;
use crate::number::number;
use alpha_outside::{Boxed, List, Name, OutOfMemory};
use asp_safety::{Key, is_in, push_all, set_of};
use asp_syntax::{Atom, Literal, Statement, Term};
use indexmap::IndexSet;
use std::alloc::Global;

/// The global variables of a statement, and what all names of its variables stay below.
#[derive(Drop)]
pub struct Names {
    globals: IndexSet<Key>,
    marks: usize,
    numbers: usize,
}

// The name with so many marks before it.
fn mark(alloc: Global, marks: usize, name: &Name) -> Result<Name, OutOfMemory>
    ensures { IfOk result (λ n. n ≡ marked marks name.now) }
{
    let mut bytes = Vec::new(alloc);
    let mut left = marks;
    while left > 0 {
        bytes.push(b'\'')?;
        left -= 1;
    }
    bytes.extend_from_slice(name.as_bytes())?;
    Name::from_bytes(alloc, bytes.as_slice())
}

/// What is needed to rename the variables of a statement, with its terms outside elements.
pub fn names_of(
    alloc: Global,
    statement: &Statement,
    defined: &[Term],
) -> Result<Names, OutOfMemory>
    requires { defined.now ≡ global_terms statement.now }
    ensures { IfOk result (λ names. name_by names.globals.keys names.marks names.numbers ≡ new_name statement.now) }
{
    let mut keys = List::new(alloc);
    push_all(alloc, defined, &mut keys)?;
    let globals = set_of(alloc, keys)?;
    let terms = all_terms_of(alloc, statement)?;
    let marks = marks_in(terms.as_slice());
    let numbers = numbers_in(terms.as_slice());
    Ok(Names {
        globals,
        marks,
        numbers,
    })
}

impl Names {
    // What a variable with a name becomes.
    fn rename_named(&self, alloc: Global, name: &Name) -> Result<Term, OutOfMemory>
        ensures { IfOk result (λ t. t ≡ term_of (name_by self.now.globals.keys self.now.marks self.now.numbers (named name.now))) }
    {
        let key = Key::named(alloc, name)?;
        if is_in(&self.globals, &key) {
            return Ok(Term::Variable(name.copy(alloc)?));
        }
        Ok(Term::Variable(mark(alloc, self.marks, name)?))
    }

    // What an anonymous variable becomes.
    fn rename_anonymous(&self, own: u32) -> Result<Term, OutOfMemory>
        ensures { IfOk result (λ t. t ≡ term_of (name_by self.now.globals.keys self.now.marks self.now.numbers (anonymous own))) }
    {
        let key = Key::anonymous(own);
        if is_in(&self.globals, &key) {
            return Ok(Term::Anonymous(own));
        }
        match self.numbers.checked_add(own as usize) {
            Some(sum) => Ok(Term::Anonymous(number(sum)?)),
            None => Err(OutOfMemory),
        }
    }

    /// The term with new names for its variables. It recurses as deep as the term is nested.
    pub fn rename_term(&self, alloc: Global, term: &Term) -> Result<Term, OutOfMemory>
        ensures { IfOk result (λ t. t ≡ renamed (name_by self.now.globals.keys self.now.marks self.now.numbers) term.now) }
    {
        match term {
            Term::Int(number) => Ok(Term::Int(*number)),
            Term::Variable(name) => self.rename_named(alloc, name),
            Term::Anonymous(own) => self.rename_anonymous(*own),
            Term::Symbol(name) => Ok(Term::Symbol(name.copy(alloc)?)),
            Term::Text(inside) => Ok(Term::Text(inside.copy(alloc)?)),
            Term::Fun(name, args) => {
                let mut parts = List::new(alloc);
                for arg in args.as_slice() {
                    parts.push(self.rename_term(alloc, arg)?)?;
                }
                Ok(Term::Fun(name.copy(alloc)?, parts))
            }
            Term::Minus(inner) => {
                let inner = self.rename_term(alloc, inner.get())?;
                Ok(Term::Minus(Boxed::new(alloc, inner)?))
            }
            Term::Arith(op, left, right) => {
                let left = Boxed::new(alloc, self.rename_term(alloc, left.get())?)?;
                let right = Boxed::new(alloc, self.rename_term(alloc, right.get())?)?;
                Ok(Term::Arith(*op, left, right))
            }
        }
    }

    // The terms with new names for their variables.
    fn rename_terms(&self, alloc: Global, terms: &[Term]) -> Result<List<Term>, OutOfMemory>
        ensures { IfOk result (λ ts. ts ≡ map (renamed (name_by self.now.globals.keys self.now.marks self.now.numbers)) terms.now) }
    {
        let mut done = List::new(alloc);
        for term in terms {
            done.push(self.rename_term(alloc, term)?)?;
        }
        Ok(done)
    }

    /// The atom with new names for its variables.
    pub fn rename_atom(&self, alloc: Global, atom: &Atom) -> Result<Atom, OutOfMemory>
        ensures { IfOk result (λ a. a ≡ renamed_atom (name_by self.now.globals.keys self.now.marks self.now.numbers) atom.now) }
    {
        let args = self.rename_terms(alloc, atom.args.as_slice())?;
        let name = atom.name.copy(alloc)?;
        Ok(Atom {
            negated: atom.negated,
            name,
            args,
        })
    }

    /// The literal with new names for its variables.
    pub fn rename_literal(&self, alloc: Global, literal: &Literal) -> Result<Literal, OutOfMemory>
        ensures { IfOk result (λ l. l ≡ renamed_literal (name_by self.now.globals.keys self.now.marks self.now.numbers) literal.now) }
    {
        match literal {
            Literal::Positive(atom) => Ok(Literal::Positive(self.rename_atom(alloc, atom)?)),
            Literal::Negative(atom) => Ok(Literal::Negative(self.rename_atom(alloc, atom)?)),
            Literal::Compare(op, left, right) => {
                let left = self.rename_term(alloc, left)?;
                let right = self.rename_term(alloc, right)?;
                Ok(Literal::Compare(*op, left, right))
            }
        }
    }
}
