//! The variables of a rule and their numbers.

ghost use Rattle.std.specs.Prelude.{◌≡◌, [], length, IfOk, OnOk};
ghost use Rattle.asp_meaning.specs.Variables.{variables};
ghost use Rattle.asp_safety.specs.Binding.{variables_of};
ghost use Rattle.rewriting.specs.Numbering.{with_variable, with_variables, place};

use crate::number::number;
use alpha_outside::OutOfMemory;
use asp_safety::Key;
use asp_syntax::Term;
use indexmap::IndexSet;
use std::alloc::Global;
use std::marker::Model;

/// Variables, each once, in the order in which they came. Contracts see the list of them: a place in it is a variable's number.
#[derive(Drop)]
pub struct Table {
    variables: IndexSet<Key>,
}

impl Model for Table {
    ghost use Rattle.std.specs.Prelude.{List};
    ghost use Rattle.asp_meaning.specs.Terms.{Variable};

    ghost Value = { List Variable };

    ghost view = { λ t. t.variables.keys };
}

impl Table {
    /// A table without variables.
    pub fn new(alloc: Global) -> Table
        ensures { result ≡ [] }
    {
        Table {
            variables: IndexSet::new(alloc),
        }
    }

    // Puts a variable in, last if it isn't there.
    fn add(&mut self, variable: Key) -> Result<(), OutOfMemory>
        ensures { OnOk result (self.new ≡ with_variable self.old variable) }
    {
        match self.variables.insert(variable) {
            Ok(_) => Ok(()),
            Err(_) => Err(OutOfMemory),
        }
    }

    /// Puts the variables of a term in, each that isn't there last.
    pub fn add_term(&mut self, alloc: Global, term: &Term) -> Result<(), OutOfMemory>
        ensures { OnOk result (self.new ≡ with_variables self.old (variables term.now)) }
    {
        match term {
            Term::Int(_) => Ok(()),
            Term::Variable(name) => self.add(Key::named(alloc, name)?),
            Term::Anonymous(number) => self.add(Key::anonymous(*number)),
            Term::Symbol(_) => Ok(()),
            Term::Text(_) => Ok(()),
            Term::Fun(_, args) => {
                for arg in args.as_slice() {
                    self.add_term(alloc, arg)?;
                }
                Ok(())
            }
            Term::Minus(inner) => self.add_term(alloc, inner.get()),
            Term::Arith(_, left, right) => {
                self.add_term(alloc, left.get())?;
                self.add_term(alloc, right.get())
            }
        }
    }

    /// Puts the variables of terms in, each that isn't there last.
    pub fn add_terms(&mut self, alloc: Global, terms: &[Term]) -> Result<(), OutOfMemory>
        ensures { OnOk result (self.new ≡ with_variables self.old (variables_of terms.now)) }
    {
        for term in terms {
            self.add_term(alloc, term)?;
        }
        Ok(())
    }

    /// The number of a variable. One that isn't there has the number that the next would get.
    pub fn number_of(&self, variable: &Key) -> Result<u32, OutOfMemory>
        ensures { IfOk result (λ n. n ≡ place self.now variable.now) }
    {
        match self.variables.get_index_of(variable) {
            Some(place) => number(place),
            None => number(self.variables.len()),
        }
    }

    /// How many variables there are.
    pub fn count(&self) -> Result<u32, OutOfMemory>
        ensures { IfOk result (λ n. n ≡ length self.now) }
    {
        number(self.variables.len())
    }
}
