//! What a run reads before it searches: the program files, in order, and then the file of sets that aren't to be printed.

ghost use Rattle.std.specs.Prelude.{◌≡◌, ◌≤◌, ◌+◌, ℕ, List, length, IfOk, IfErr};
ghost use Rattle.asp_syntax.specs.declared.tree.Statement.{Statement as Rule};
ghost use Rattle.search_rules.specs.Stage.{IsSearchable};
ghost use Rattle.program_files.specs.Files.{most_bytes};
ghost use Rattle.alpha.specs.TextAnswers.{IsProgramText, IsStopOf};
ghost use Rattle.alpha.specs.Promises.{IsProgramOf, IsListOf};
ghost use Rattle.alpha.specs.Outcomes.{IsCoreOf, IsBookOf, IsCoreStop, IsListStop, files_status};

use crate::cores::core_for;
use crate::status::Status;
use crate::text::read_text;
use after_book::{AfterBook, AfterFault};
use alpha_outside::Shelf;
use command_line::Solve;
use core_rules::Core;
use program_files::{FilesFault, read_listed, read_program};
use std::alloc::Global;

// The status for files that give no text.
fn files_status(fault: FilesFault) -> Status
    ensures { result ≡ files_status fault }
{
    match fault {
        FilesFault::TooLong { name } => Status::TextTooLong { name },
        FilesFault::Unreadable { name } => Status::ReadFault { name },
        FilesFault::OutOfMemory => Status::OutOfMemory,
    }
}

// The core of the program of a text; or the status with which the run ends.
fn core_of_text(alloc: Global, text: &[u8]) -> Result<Core, Status>
    requires { length text.now ≤ most_bytes + 65536 }
    ensures core { IfOk result (λ core. (P : List Rule) × IsProgramText text.now P × IsCoreOf P core) }
    ensures searchable { IfOk result IsSearchable }
    ensures stop { IfErr result (IsStopOf text.now) }
{
    match read_text(alloc, text) {
        Ok(program) => core_for(alloc, program),
        Err(status) => Err(status),
    }
}

/// The core of the program of the files that are asked for; or the status with which the run ends.
pub fn read_core<F: Shelf>(alloc: Global, request: &Solve, shelf: &mut F) -> Result<Core, Status>
    requires few { length request.now.files ≤ 65536 }
    ensures kept { F.files shelf.new ≡ F.files shelf.old }
    ensures faults_later { F.faults shelf.old ≤ F.faults shelf.new }
    ensures taken_later { F.taken shelf.old ≤ F.taken shelf.new }
    ensures core { IfOk result (λ core. (P : List Rule) × IsProgramOf (F.files shelf.old) request.now.files P × IsCoreOf P core) }
    ensures searchable { IfOk result IsSearchable }
    ensures stop { IfErr result (IsCoreStop (F.files shelf.old) request.now.files
        (record { faults = F.faults shelf.old; faults' = F.faults shelf.new; taken = F.taken shelf.old; taken' = F.taken shelf.new })) }
{
    match read_program(alloc, request.files.as_slice(), shelf) {
        Ok(text) => core_of_text(alloc, &text),
        Err(fault) => Err(files_status(fault)),
    }
}

/// The book of the sets that aren't to be printed, which has none where no file of sets is asked for; or the status with which the run ends.
pub fn read_book<F: Shelf>(
    alloc: Global,
    request: &Solve,
    shelf: &mut F,
) -> Result<AfterBook, Status>
    ensures kept { F.files shelf.new ≡ F.files shelf.old }
    ensures faults_later { F.faults shelf.old ≤ F.faults shelf.new }
    ensures taken_later { F.taken shelf.old ≤ F.taken shelf.new }
    ensures book { IfOk result (λ book. (bytes : List ℕ) × IsListOf (F.files shelf.old) request.now.after bytes × IsBookOf bytes book) }
    ensures stop { IfErr result (IsListStop (F.files shelf.old) request.now.after
        (record { faults = F.faults shelf.old; faults' = F.faults shelf.new; taken = F.taken shelf.old; taken' = F.taken shelf.new })) }
{
    let Some(name) = &request.after else {
        return Ok(AfterBook::new(alloc));
    };
    let bytes = match read_listed(alloc, name.as_bytes(), shelf) {
        Ok(bytes) => bytes,
        Err(fault) => return Err(files_status(fault)),
    };
    match AfterBook::read(alloc, &bytes) {
        Ok(book) => Ok(book),
        Err(AfterFault::Refused { line }) => Err(Status::AfterRefused { line }),
        Err(AfterFault::OutOfMemory) => Err(Status::OutOfMemory),
    }
}
