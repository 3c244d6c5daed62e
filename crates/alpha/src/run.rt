//! The whole of what the program does: words and files in, bytes, events and a status out.

ghost use Rattle.std.specs.Prelude.{◌≡◌, ◌⊎◌, ◌≤◌, ◌<◌, None, Some, true, map, string_bytes, ℕ, ℤ, List, length, OnOk, IfErr};
ghost use Rattle.alpha_outside.specs.declared.kinds.ArithOp.{ArithOp as Operation};
ghost use Rattle.lists.specs.Lists.{Each, HasNoRepeats};
ghost use Rattle.alpha_outside.specs.declared.event.Event.{Event};
ghost use Rattle.alpha_outside.specs.Outside.{Rose};
ghost use Rattle.asp_meaning.specs.Output.{set_lines};
ghost use Rattle.command_line.specs.Commands.{asked};
ghost use Rattle.command_line.specs.Plain.{IsPlain};
ghost use Rattle.command_line.specs.declared.request.Solve.{Solve as Asked};
ghost use Rattle.alpha.specs.Texts.{has_message};
ghost use Rattle.alpha.specs.Journals.{Task, shown_sets, AreLegal, LinesAre, most_of, AreSpent, AreEnded, AreOverflow, AreTooLarge};
ghost use Rattle.alpha.specs.Promises.{IsAccepted, IsRefusedFile, IsOverlong, IsOverlongList, IsRefusedList, IsNewLine, HaveAllOthers};
ghost use Rattle.alpha.specs.Promises.{IsAppended, OnlyAppends, OutputIs, MessageIs, IsNoted, OnlyNotes, TraceNameIs, begun, trace_name};
ghost use Rattle.alpha.specs.Promises.{IsUnsearched, IsEnded, IsRefusedWords, IsCaused, Gives, Counts};
ghost use Rattle.alpha.specs.Outcomes.{Outcome, IsTraceStop};
ghost use Rattle.alpha.specs.declared.status.Refusal.{Refusal as Reason};

use crate::reading::{read_book, read_core};
use crate::solving::solve;
use crate::status::{BudgetKind, Status, message};
use alpha_outside::{Shelf, Sink, SinkStop, Trace, TraceStop};
use command_line::{Solve, WordsFault, read_words};
use std::alloc::Global;

// Names the file of the journal to the trace, where one is asked for; or gives the status with which the run ends.
fn begin<T: Trace>(request: &Solve, trace: &mut T) -> Result<(), Status>
    ensures later { T.faults trace.old ≤ T.faults trace.new }
    ensures ok { OnOk result (T.journal trace.new ≡ begun request.now.trace (T.journal trace.old)) }
    ensures kept { IfErr result (λ s. T.journal trace.new ≡ T.journal trace.old) }
    ensures stop { IfErr result (IsTraceStop (T.faults trace.old) (T.faults trace.new)) }
{
    let Some(name) = &request.trace else {
        return Ok(());
    };
    match trace.begin(name.as_bytes()) {
        Ok(()) => Ok(()),
        Err(TraceStop::Failed) => Err(Status::TraceFault),
        Err(TraceStop::OutOfMemory) => Err(Status::OutOfMemory),
    }
}

// Does what is asked for, but for the message.
fn answer<F: Shelf, O: Sink, T: Trace>(
    alloc: Global,
    request: &Solve,
    shelf: &mut F,
    out: &mut O,
    trace: &mut T,
) -> Status
    requires few { length request.now.files ≤ 65536 }
    requires some { 0 < request.now.settings.limit }
    ensures kept { F.files shelf.new ≡ F.files shelf.old }
    ensures outcome { Outcome (F.files shelf.old)
        (record { faults = F.faults shelf.old; faults' = F.faults shelf.new; taken = F.taken shelf.old; taken' = F.taken shelf.new })
        (record { held = O.held out.old; held' = O.held out.new; faults = O.faults out.old; faults' = O.faults out.new })
        (record { told = T.journal trace.old; told' = T.journal trace.new; faults = T.faults trace.old; faults' = T.faults trace.new })
        (Some request.now) result }
{
    let core = match read_core(alloc, request, shelf) {
        Ok(core) => core,
        Err(status) => return status,
    };
    let book = match read_book(alloc, request, shelf) {
        Ok(book) => book,
        Err(status) => return status,
    };
    if let Err(status) = begin(request, trace) {
        return status;
    }
    solve(alloc, core, request.settings, &book, out, trace)
}

// Does what the words ask for, but for the message.
fn work<F: Shelf, O: Sink, T: Trace>(
    alloc: Global,
    words: &[String],
    shelf: &mut F,
    out: &mut O,
    trace: &mut T,
) -> Status
    ensures kept { F.files shelf.new ≡ F.files shelf.old }
    ensures outcome { Outcome (F.files shelf.old)
        (record { faults = F.faults shelf.old; faults' = F.faults shelf.new; taken = F.taken shelf.old; taken' = F.taken shelf.new })
        (record { held = O.held out.old; held' = O.held out.new; faults = O.faults out.old; faults' = O.faults out.new })
        (record { told = T.journal trace.old; told' = T.journal trace.new; faults = T.faults trace.old; faults' = T.faults trace.new })
        (asked (map string_bytes words.now)) result }
{
    match read_words(alloc, words) {
        Ok(request) => answer(alloc, &request, shelf, out, trace),
        Err(WordsFault::Usage) => Status::Usage,
        Err(WordsFault::OutOfMemory) => Status::OutOfMemory,
    }
}

// Writes the message of a status. Want of memory becomes the status; a fault of the sink changes nothing.
fn report<E: Sink>(alloc: Global, status: Status, err: &mut E) -> Status
    ensures same { (result ≡ status) ⊎ ((has_message status ≡ true) × (result ≡ Status.OutOfMemory)) }
    ensures message { (m : List ℕ) → IsAppended (E.held err.old) (E.held err.new) m → MessageIs (E.faults err.old) (E.faults err.new) result m }
    ensures appends { OnlyAppends (E.held err.old) (E.held err.new) }
{
    if !status.has_message() {
        return status;
    }
    let Ok(text) = message(alloc, &status) else {
        return Status::OutOfMemory;
    };
    match err.write(text.as_slice()) {
        Ok(()) => status,
        Err(SinkStop::Failed) => status,
        Err(SinkStop::OutOfMemory) => Status::OutOfMemory,
    }
}

/// Does all that the program does: reads the words and the files, notes each event of the search to `trace`, writes each answer set as
/// it is found and a last line to `out`, or a message to `err`, and says how it ended.
///
/// The words don't contain the program's own name.
pub fn run<F: Shelf, O: Sink, E: Sink, T: Trace>(
    alloc: Global,
    words: &[String],
    shelf: &mut F,
    out: &mut O,
    err: &mut E,
    trace: &mut T,
) -> Status
    // Each line that begins with `{` is the line of an answer set of the program with variables that the file of sets doesn't list, at
    // every status.
    ensures shown_are_answer_sets { (k : Task) (b : List ℕ) → IsAccepted (asked (map string_bytes words.now)) (F.files shelf.old) k
        → IsAppended (O.held out.old) (O.held out.new) b → Each (IsNewLine k) (set_lines b) }

    // No two of these lines are equal, at every status.
    ensures shown_once { (k : Task) (b : List ℕ) → IsAccepted (asked (map string_bytes words.now)) (F.files shelf.old) k
        → IsAppended (O.held out.old) (O.held out.new) b → HasNoRepeats (set_lines b) }

    // At `Finished` every answer set that isn't listed has its line.
    ensures finished_is_complete { (k : Task) (b : List ℕ) (printed : ℕ) → IsAccepted (asked (map string_bytes words.now)) (F.files shelf.old) k
        → IsAppended (O.held out.old) (O.held out.new) b → result ≡ Status.Finished printed → HaveAllOthers k (set_lines b) }

    // And the journal has ended: its last nogood was struck at level 0, or a set was found while no literal was chosen.
    ensures finished_has_ended { (k : Task) (E : List Event) (printed : ℕ) → IsAccepted (asked (map string_bytes words.now)) (F.files shelf.old) k
        → IsNoted (T.journal trace.old) (T.journal trace.new) E → result ≡ Status.Finished printed → AreEnded k E }

    // The events are a legal journal of the program and the sets that are listed: what a lawful search may note. So each instance was made
    // when its positive atoms were true or had to be.
    ensures journal_is_legal { (k : Task) (E : List Event) → IsAccepted (asked (map string_bytes words.now)) (F.files shelf.old) k
        → IsNoted (T.journal trace.old) (T.journal trace.new) E → AreLegal k E }

    // The set lines are those of the sets of the `Shown` events, in order; after a fault or want of memory there may be one more.
    ensures lines_are_shown_events { (k : Task) (b : List ℕ) (E : List Event) → IsAccepted (asked (map string_bytes words.now)) (F.files shelf.old) k
        → IsAppended (O.held out.old) (O.held out.new) b → IsNoted (T.journal trace.old) (T.journal trace.new) E
        → LinesAre k result E (set_lines b) }

    // Where as many sets were noted as shown as may be written, and no write failed, the limit is reached.
    ensures limit_is_reached { (k : Task) (E : List Event) → IsAccepted (asked (map string_bytes words.now)) (F.files shelf.old) k
        → IsNoted (T.journal trace.old) (T.journal trace.new) E → length (shown_sets E) ≡ k.settings.limit
        → ¬ Rose (O.faults out.old) (O.faults out.new) → Gives result (Status.LimitReached k.settings.limit) }

    // Where the budget of conflicts is spent, so many nogoods were struck, and one more is; where that of instances is, so many were made,
    // and one more is due.
    ensures budget_is_spent { (k : Task) (E : List Event) (kind : BudgetKind) (number printed : ℕ) → IsAccepted (asked (map string_bytes words.now)) (F.files shelf.old) k
        → IsNoted (T.journal trace.old) (T.journal trace.new) E → result ≡ Status.BudgetSpent kind number printed
        → (number ≡ most_of kind k.settings) × AreSpent k E kind number }

    // Where an operation has no place in 64 bits, it stands in a rule of this line and has these operands, where all positive atoms of the rule
    // are true or must-be-true.
    ensures overflow_in_rule { (k : Task) (E : List Event) (line : ℕ) (op : Operation) (left right : ℤ) (printed : ℕ)
        → IsAccepted (asked (map string_bytes words.now)) (F.files shelf.old) k
        → IsNoted (T.journal trace.old) (T.journal trace.new) E → result ≡ Status.Overflow line op left right printed
        → AreOverflow k E line op left right }

    // Where a term is too large, a rule of this line, whose positive atoms are all true or must-be-true, has a term or part of a term of
    // this size.
    ensures term_too_large { (k : Task) (E : List Event) (line size printed : ℕ) → IsAccepted (asked (map string_bytes words.now)) (F.files shelf.old) k
        → IsNoted (T.journal trace.old) (T.journal trace.new) E → result ≡ Status.TermTooLarge line size printed
        → AreTooLarge k E line size }

    // What was written, byte for byte, at every status and whatever the file; what stood there before stays.
    ensures output_is_appended { OnlyAppends (O.held out.old) (O.held out.new) }
    ensures output_bytes { (b : List ℕ) → IsAppended (O.held out.old) (O.held out.new) b → OutputIs (O.faults out.old) (O.faults out.new) result b }

    // The events are appended to those before, and where nothing is searched there are none.
    ensures events_are_appended { OnlyNotes (T.journal trace.old) (T.journal trace.new) }
    ensures nothing_is_noted { IsUnsearched result → T.journal trace.new ≡ T.journal trace.old }

    // The message, byte for byte, and the name of the journal's file.
    ensures message_is_appended { OnlyAppends (E.held err.old) (E.held err.new) }
    ensures message_and_trace_name { ((m : List ℕ) → IsAppended (E.held err.old) (E.held err.new) m → MessageIs (E.faults err.old) (E.faults err.new) result m)
        × TraceNameIs (trace_name (asked (map string_bytes words.now))) (T.journal trace.old) (T.journal trace.new) result }
    ensures files_are_unchanged { F.files shelf.new ≡ F.files shelf.old }

    // Each status by its cause.
    ensures causes { IsCaused (asked (map string_bytes words.now)) (F.files shelf.old)
        (record { faults = F.faults shelf.old; faults' = F.faults shelf.new; taken = F.taken shelf.old; taken' = F.taken shelf.new })
        (record { held = O.held out.old; held' = O.held out.new; faults = O.faults out.old; faults' = O.faults out.new })
        (record { told = T.journal trace.old; told' = T.journal trace.new; faults = T.faults trace.old; faults' = T.faults trace.new })
        result }
    ensures refused_words { asked (map string_bytes words.now) ≡ None → IsRefusedWords result }

    // Plain words are never refused: they ask for just what they say.
    ensures plain_words { (request : Asked) → IsPlain (map string_bytes words.now) request → asked (map string_bytes words.now) ≡ Some request }

    // A file that is too long ends so, a text or a file of sets that is refused too, and an accepted one as a search that nothing stopped.
    ensures each_too_long { (name : List ℕ) → IsOverlong (asked (map string_bytes words.now)) (F.files shelf.old) name
        → ¬ Rose (F.faults shelf.old) (F.faults shelf.new) → Gives result (Status.TextTooLong name) }
    ensures each_refusal { (reason : Reason) → IsRefusedFile (asked (map string_bytes words.now)) (F.files shelf.old) reason
        → ¬ Rose (F.faults shelf.old) (F.faults shelf.new) → Gives result (Status.Refused reason) }
    ensures each_list_too_long { (name : List ℕ) → IsOverlongList (asked (map string_bytes words.now)) (F.files shelf.old) name
        → ¬ Rose (F.faults shelf.old) (F.faults shelf.new) → Gives result (Status.TextTooLong name) }
    ensures each_list_refusal { (line : ℕ) → IsRefusedList (asked (map string_bytes words.now)) (F.files shelf.old) line
        → ¬ Rose (F.faults shelf.old) (F.faults shelf.new) → Gives result (Status.AfterRefused line) }
    ensures accepted_ends { (k : Task) → IsAccepted (asked (map string_bytes words.now)) (F.files shelf.old) k
        → ¬ Rose (F.faults shelf.old) (F.faults shelf.new) → ¬ Rose (O.faults out.old) (O.faults out.new)
        → ¬ Rose (T.faults trace.old) (T.faults trace.new) → IsEnded result }
{
    let status = work(alloc, words, shelf, out, trace);
    report(alloc, status, err)
}
