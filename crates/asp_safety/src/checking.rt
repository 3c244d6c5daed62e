//! Whether a program is safe and has no recursive aggregate.

ghost use Rattle.std.specs.Prelude.{◌≡◌, IfOk, IfErr, OnOk};
ghost use Rattle.lists.specs.Lists.{Each};
ghost use Rattle.asp_safety.specs.Binding.{IsSafe};
ghost use Rattle.asp_safety.specs.Faults.{IsStatementFault, IsVariableFault, IsFault, IsAccepted};

use crate::scope::first_unbound;
use crate::{SafeProgram, SafetyFault};
use alpha_outside::List;
use asp_strata::{RecursionFault, layers_of};
use asp_syntax::{Program, Statement};
use std::alloc::Global;

// Whether all variables of a statement are bound.
fn check_statement(alloc: Global, statement: &Statement) -> Result<(), SafetyFault>
    ensures safe { OnOk result (IsSafe statement.now) }
    ensures fault { IfErr result (IsStatementFault statement.now) }
{
    match first_unbound(alloc, statement) {
        Err(_) => Err(SafetyFault::OutOfMemory),
        Ok(None) => Ok(()),
        Ok(Some(variable)) => Err(SafetyFault::Unsafe {
            line: statement.line,
            variable,
        }),
    }
}

// Whether all statements are safe; if not, the first that isn't, with its first variable, from left to right, that isn't bound.
fn check_variables(alloc: Global, statements: &[Statement]) -> Result<(), SafetyFault>
    ensures safe { OnOk result (Each IsSafe statements.now) }
    ensures fault { IfErr result (IsVariableFault statements.now) }
{
    for statement in statements {
        check_statement(alloc, statement)?;
    }
    Ok(())
}

// Keeps statements that are safe, with the strata of their predicates.
fn with_strata(alloc: Global, statements: List<Statement>) -> Result<SafeProgram, SafetyFault>
    requires { Each IsSafe statements }
    ensures statements { IfOk result (λ safe. safe.statements ≡ statements) }
    ensures accepted { OnOk result (IsAccepted statements) }
    ensures fault { IfErr result (IsFault statements) }
{
    match layers_of(alloc, statements.as_slice()) {
        Ok(layers) => Ok(SafeProgram::keep(statements, layers)),
        Err(RecursionFault::Recursive { line, name }) => {
            Err(SafetyFault::AggregateRecursive { line, name })
        }
        Err(RecursionFault::OutOfMemory) => Err(SafetyFault::OutOfMemory),
    }
}

/// Tests the safety of all statements, and then that no aggregate is recursive.
pub fn check(alloc: Global, program: Program) -> Result<SafeProgram, SafetyFault>
    ensures statements { IfOk result (λ safe. safe.statements ≡ program.statements) }
    ensures accepted { OnOk result (IsAccepted program.statements) }
    ensures fault { IfErr result (IsFault program.statements) }
{
    let Program { statements } = program;
    check_variables(alloc, statements.as_slice())?;
    with_strata(alloc, statements)
}
