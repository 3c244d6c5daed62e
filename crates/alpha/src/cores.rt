//! From a program to its core: safety, single rules, core rules.

ghost use Rattle.std.specs.Prelude.{◌≡◌, ◌↔◌, None, List, IfOk, IfErr, OnOk};
ghost use Rattle.lists.specs.Lists.{HasNoRepeats};
ghost use Rattle.asp_syntax.specs.Trees.{IsWellFormedProgram};
ghost use Rattle.asp_meaning.specs.Atoms.{Atom as Fact};
ghost use Rattle.asp_meaning.specs.Programs.{IsAnswerSet};
ghost use Rattle.asp_safety.specs.Faults.{IsAccepted};
ghost use Rattle.core_meaning.specs.AnswerSets.{HasCoreSets};
ghost use Rattle.search_rules.specs.Stage.{IsSearchable};
ghost use Rattle.alpha.specs.Built.{unbuilt};
ghost use Rattle.alpha.specs.Journals.{core_for};
ghost use Rattle.alpha.specs.TextAnswers.{safety_status, IsFaultOf};

use crate::status::{Refusal, Status};
use aggregate_rewrite::rewrite;
use asp_safety::{SafetyFault, check};
use asp_syntax::Program;
use choice_rewrite::split;
use core_rules::Core;
use std::alloc::Global;

// The status for a program that is refused.
fn safety_status(fault: SafetyFault) -> Status
    ensures { result ≡ safety_status fault }
{
    match fault {
        SafetyFault::Unsafe { line, variable } => {
            Status::Refused(Refusal::Unsafe { line, variable })
        }
        SafetyFault::AggregateRecursive { line, name } => {
            Status::Refused(Refusal::AggregateRecursive { line, name })
        }
        SafetyFault::OutOfMemory => Status::OutOfMemory,
    }
}

/// The core of a program, each of whose statements is built; or the status with which the run ends.
pub fn core_for(alloc: Global, program: Program) -> Result<Core, Status>
    requires well_formed { IsWellFormedProgram program }
    requires built { unbuilt program.statements ≡ None }
    ensures core { IfOk result (λ core. core ≡ core_for program.statements) }
    ensures searchable { IfOk result IsSearchable }
    ensures accepted { OnOk result (IsAccepted program.statements) }
    ensures answer_sets { OnOk result ((I : List Fact) → HasNoRepeats I → IsAnswerSet program.statements I ↔ HasCoreSets (core_for program.statements) I) }
    ensures stop { IfErr result (IsFaultOf program.statements) }
{
    let safe = match check(alloc, program) {
        Ok(safe) => safe,
        Err(fault) => return Err(safety_status(fault)),
    };
    let Ok(rules) = split(alloc, safe) else {
        return Err(Status::OutOfMemory);
    };
    match rewrite(alloc, rules) {
        Ok(core) => Ok(core),
        Err(_) => Err(Status::OutOfMemory),
    }
}
