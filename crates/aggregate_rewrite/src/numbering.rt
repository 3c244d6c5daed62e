//! Terms and atoms with numbers for variables.

ghost use Rattle.std.specs.Prelude.{◌≡◌, map, IfOk};
ghost use Rattle.rewriting.specs.Numbering.{numbered, numbered_atom, numbered_head, numbered_test};

use crate::comparison::Comparison;
use crate::number::number;
use crate::table::Table;
use alpha_outside::{Boxed, List, OutOfMemory, Pred};
use asp_safety::Key;
use asp_syntax::{Atom, Term};
use core_rules::{CoreAtom, CoreTerm, Test};
use std::alloc::Global;

/// The term with numbers for its variables. It recurses as deep as the term is nested.
pub fn number_term(alloc: Global, table: &Table, term: &Term) -> Result<CoreTerm, OutOfMemory>
    ensures { IfOk result (λ t. t ≡ numbered table.now term.now) }
{
    match term {
        Term::Int(number) => Ok(CoreTerm::Int(*number)),
        Term::Variable(name) => {
            let variable = Key::named(alloc, name)?;
            Ok(CoreTerm::Var(table.number_of(&variable)?))
        }
        Term::Anonymous(number) => {
            let variable = Key::anonymous(*number);
            Ok(CoreTerm::Var(table.number_of(&variable)?))
        }
        Term::Symbol(name) => Ok(CoreTerm::Symbol(name.copy(alloc)?)),
        Term::Text(inside) => Ok(CoreTerm::Text(inside.copy(alloc)?)),
        Term::Fun(name, args) => {
            let mut parts = List::new(alloc);
            for arg in args.as_slice() {
                parts.push(number_term(alloc, table, arg)?)?;
            }
            Ok(CoreTerm::Fun(name.copy(alloc)?, parts))
        }
        Term::Minus(inner) => {
            let inner = number_term(alloc, table, inner.get())?;
            Ok(CoreTerm::Minus(Boxed::new(alloc, inner)?))
        }
        Term::Arith(op, left, right) => {
            let left = Boxed::new(alloc, number_term(alloc, table, left.get())?)?;
            let right = Boxed::new(alloc, number_term(alloc, table, right.get())?)?;
            Ok(CoreTerm::Arith(*op, left, right))
        }
    }
}

/// The terms with numbers for their variables.
pub fn number_terms(
    alloc: Global,
    table: &Table,
    terms: &[Term],
) -> Result<List<CoreTerm>, OutOfMemory>
    ensures { IfOk result (λ ts. ts ≡ map (numbered table.now) terms.now) }
{
    let mut done = List::new(alloc);
    for term in terms {
        done.push(number_term(alloc, table, term)?)?;
    }
    Ok(done)
}

// The atom of the core rule.
fn number_atom(alloc: Global, table: &Table, atom: &Atom) -> Result<CoreAtom, OutOfMemory>
    ensures { IfOk result (λ a. a ≡ numbered_atom table.now atom.now) }
{
    let name = atom.name.copy(alloc)?;
    let arity = number(atom.args.len())?;
    let args = number_terms(alloc, table, atom.args.as_slice())?;
    let pred = Pred::User {
        negated: atom.negated,
        name,
        arity,
    };
    Ok(CoreAtom { pred, args })
}

/// The atoms of the core rule.
pub fn number_atoms(
    alloc: Global,
    table: &Table,
    atoms: &[Atom],
) -> Result<List<CoreAtom>, OutOfMemory>
    ensures { IfOk result (λ done. done ≡ map (numbered_atom table.now) atoms.now) }
{
    let mut done = List::new(alloc);
    for atom in atoms {
        done.push(number_atom(alloc, table, atom)?)?;
    }
    Ok(done)
}

/// The head of the core rule.
pub fn number_head(
    alloc: Global,
    table: &Table,
    head: &Option<Atom>,
) -> Result<Option<CoreAtom>, OutOfMemory>
    ensures { IfOk result (λ done. done ≡ numbered_head table.now head.now) }
{
    match head {
        None => Ok(None),
        Some(atom) => Ok(Some(number_atom(alloc, table, atom)?)),
    }
}

// The test of the core rule.
fn number_test(alloc: Global, table: &Table, test: &Comparison) -> Result<Test, OutOfMemory>
    ensures { IfOk result (λ done. done ≡ numbered_test table.now test.now) }
{
    let left = number_term(alloc, table, &test.left)?;
    let right = number_term(alloc, table, &test.right)?;
    Ok(Test::Compare(test.op, left, right))
}

/// The tests of the core rule.
pub fn number_tests(
    alloc: Global,
    table: &Table,
    tests: &[Comparison],
) -> Result<List<Test>, OutOfMemory>
    ensures { IfOk result (λ done. done ≡ map (numbered_test table.now) tests.now) }
{
    let mut done = List::new(alloc);
    for test in tests {
        done.push(number_test(alloc, table, test)?)?;
    }
    Ok(done)
}
