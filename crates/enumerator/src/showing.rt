//! What is done with a set that is found. Where its line is in the book, it was printed before: it is noted as passed, and nothing is written.
//! Else its line is written as one piece, and then the set is noted as shown. So lines and events agree, but for one line where a note fails.

ghost use Rattle.std.specs.Prelude.{◌≡◌, ◌≤◌, ◌<◌, ◌+◌, ℕ, List, Option, OnOk, IfErr};
ghost use Rattle.lists.specs.Lists.{◌∈◌};
ghost use Rattle.asp_meaning.specs.Lines.{IsSetLine};
ghost use Rattle.journal_theory.specs.States as phase;
ghost use Rattle.search_state.specs.Moves.{AreTrueIds};
ghost use Rattle.search_journals.specs.Standing.{IsReady, CarriesOver, Fits, Given, Stands, Leaves};
ghost use Rattle.search_journals.specs.Moves.{MoveIs};
ghost use Rattle.search_journals.specs.Settling.{LeavesFrom};

use crate::steps::noted;
use after_book::AfterBook;
use alpha_outside::{AtomId, Event, List, Sink, SinkStop, Trace};
use search_journals::{Move, SearchFault};
use search_state::Search;

// Notes the set of these atoms, whose line is in the book, as passed.
fn pass<T: Trace>(
    search: &mut Search,
    trace: &mut T,
    ids: Vec<AtomId>,
    line: &[u8],
) -> Result<(), SearchFault>
    requires ready { IsReady search.old }
    requires full { MoveIs search.old Move.Full }
    requires atoms { (are : AreTrueIds search.old ids.items) × IsSetLine are.set line.now }
    ensures later { T.faults trace.old ≤ T.faults trace.new }
    ensures found { OnOk result (search.new ≡ record search.old { phase = phase.Found }) }
    ensures carries { OnOk result
        ((book : List (List ℕ)) → line.now ∈ book → (held : Option (List ℕ)) → (left rest : ℕ)
        → CarriesOver book search.old search.new (T.journal trace.old) (T.journal trace.new) held held (left, rest) (left, rest)) }
    ensures err { IfErr result
        (λ f. (g : Given) → Fits g search.old → (held : Option (List ℕ)) → (left rest : ℕ) → 0 < left
        → Stands g search.old (T.journal trace.old) held left rest
        → (sink : ℕ × ℕ) → Leaves g (T.journal trace.new) held sink (T.faults trace.old, T.faults trace.new) f) }
{
    search.show();
    let atoms = List::from_vec(ids);
    noted(trace, &Event::Passed { atoms })
}

// Writes the line of the set of these atoms, which isn't in the book, and notes the set as shown.
fn show<O: Sink, T: Trace>(
    search: &mut Search,
    out: &mut O,
    trace: &mut T,
    ids: Vec<AtomId>,
    line: &[u8],
) -> Result<(), SearchFault>
    requires ready { IsReady search.old }
    requires full { MoveIs search.old Move.Full }
    requires atoms { (are : AreTrueIds search.old ids.items) × IsSetLine are.set line.now }
    ensures out_later { O.faults out.old ≤ O.faults out.new }
    ensures later { T.faults trace.old ≤ T.faults trace.new }
    ensures found { OnOk result (search.new ≡ record search.old { phase = phase.Found }) }
    ensures carries { OnOk result
        ((book : List (List ℕ)) → ¬ (line.now ∈ book) → (left rest : ℕ)
        → CarriesOver book search.old search.new (T.journal trace.old) (T.journal trace.new) (O.held out.old) (O.held out.new)
        (left + 1, rest) (left, rest)) }
    ensures err { IfErr result
        (λ f. (book : List (List ℕ)) → ¬ (line.now ∈ book) → (g : Given) → Fits g search.old → g.lists.book ≡ book → (left rest : ℕ)
        → 0 < left → Stands g search.old (T.journal trace.old) (O.held out.old) left rest
        → Leaves g (T.journal trace.new) (O.held out.new) (O.faults out.old, O.faults out.new) (T.faults trace.old, T.faults trace.new) f) }
{
    match out.write(line) {
        Ok(()) => (),
        Err(SinkStop::Failed) => return Err(SearchFault::WriteFault),
        Err(SinkStop::OutOfMemory) => return Err(SearchFault::OutOfMemory),
    }
    search.show();
    let atoms = List::from_vec(ids);
    noted(trace, &Event::Shown { atoms })
}

/// Shows the set found, after which one set less may be shown; or passes it, where its line is in the book.
pub fn find<O: Sink, T: Trace>(
    search: &mut Search,
    book: &AfterBook,
    out: &mut O,
    trace: &mut T,
    left: &mut u64,
) -> Result<(), SearchFault>
    requires ready { IsReady search.old }
    requires full { MoveIs search.old Move.Full }
    requires room { 0 < left.old }
    ensures out_later { O.faults out.old ≤ O.faults out.new }
    ensures later { T.faults trace.old ≤ T.faults trace.new }
    ensures fewer { left.new ≤ left.old }
    ensures found { OnOk result (search.new ≡ record search.old { phase = phase.Found }) }
    ensures carries { OnOk result
        ((rest : ℕ) → CarriesOver book.now search.old search.new (T.journal trace.old) (T.journal trace.new) (O.held out.old) (O.held out.new)
        (left.old, rest) (left.new, rest)) }
    ensures err { IfErr result
        (λ f. (rest : ℕ) → LeavesFrom book.now search.old (T.journal trace.old) (T.journal trace.new) (O.held out.old) (O.held out.new)
        (left.old, rest) (O.faults out.old, O.faults out.new) (T.faults trace.old, T.faults trace.new) f) }
{
    let Ok(ids) = search.true_atoms() else {
        return Err(SearchFault::OutOfMemory);
    };
    let Ok(line) = search.set_line(ids.as_slice()) else {
        return Err(SearchFault::OutOfMemory);
    };
    if book.has(line.as_slice()) {
        return pass(search, trace, ids, line.as_slice());
    }
    show(search, out, trace, ids, line.as_slice())?;
    *left -= 1;
    Ok(())
}
