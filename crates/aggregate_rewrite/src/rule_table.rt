//! The table of a rule.

ghost use Rattle.std.specs.Prelude.{◌≡◌, ◌∷◌, [], map, IfOk, OnOk};
ghost use Rattle.lists.specs.Lists.{concat};
ghost use Rattle.asp_safety.specs.Binding.{variables_of};
ghost use Rattle.rewriting.specs.Numbering.{with_variables, atom_terms, table_of};
ghost use Rattle.aggregate_rewrite.specs.Lifters.{lifted_rule, atoms_terms, tests_terms};

use crate::comparison::Comparison;
use crate::lifting::LiftedBody;
use crate::table::Table;
use alpha_outside::OutOfMemory;
use asp_syntax::Atom;
use single_rules::SingleRule;
use std::alloc::Global;

// Puts in the variables of a head.
fn add_head(alloc: Global, table: &mut Table, head: &Option<Atom>) -> Result<(), OutOfMemory>
    ensures { OnOk result (table.new ≡ with_variables table.old (variables_of (atom_terms head.now))) }
{
    match head {
        None => Ok(()),
        Some(atom) => table.add_terms(alloc, atom.args.as_slice()),
    }
}

// Puts in the variables of atoms.
fn add_atoms(alloc: Global, table: &mut Table, atoms: &[Atom]) -> Result<(), OutOfMemory>
    ensures { OnOk result (table.new ≡ with_variables table.old (variables_of (atoms_terms atoms.now))) }
{
    for atom in atoms {
        table.add_terms(alloc, atom.args.as_slice())?;
    }
    Ok(())
}

// Puts in the variables of a comparison.
fn add_test(alloc: Global, table: &mut Table, test: &Comparison) -> Result<(), OutOfMemory>
    ensures { OnOk result (table.new ≡ with_variables table.old (variables_of (test.now.left ∷ test.now.right ∷ []))) }
{
    table.add_term(alloc, &test.left)?;
    table.add_term(alloc, &test.right)
}

// Puts in the variables of comparisons.
fn add_tests(alloc: Global, table: &mut Table, tests: &[Comparison]) -> Result<(), OutOfMemory>
    ensures { OnOk result (table.new ≡ with_variables table.old (variables_of (tests_terms tests.now))) }
{
    for test in tests {
        add_test(alloc, table, test)?;
    }
    Ok(())
}

/// The variables of a rule with this body, each where it comes first.
pub fn table_of(alloc: Global, rule: &SingleRule, body: &LiftedBody) -> Result<Table, OutOfMemory>
    ensures { IfOk result (λ table. table ≡ table_of (lifted_rule rule.now body.now)) }
{
    let mut table = Table::new(alloc);
    add_head(alloc, &mut table, &rule.head)?;
    add_atoms(alloc, &mut table, body.pos.as_slice())?;
    add_atoms(alloc, &mut table, body.neg.as_slice())?;
    add_tests(alloc, &mut table, body.tests.as_slice())?;
    table.add_terms(alloc, rule.defined.as_slice())?;
    Ok(table)
}
