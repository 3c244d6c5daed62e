ghost use Rattle.std.specs.Prelude.{◌≡◌, IfOk};
ghost use Rattle.alpha_outside.specs.declared.event.Event.TheVariants.{Atom, Learned};

use crate::ids::{AtomId, InstId, NogoodId, TermId};
use crate::literal::{Lit, Value};
use crate::maker::Maker;
use crate::node::Node;
use crate::pattern::Pattern;
use crate::pred::Pred;
use crate::{List, OutOfMemory};
use std::alloc::Global;

/// How a nogood was learned.
#[derive(Clone, Copy, Debug, PartialEq, Eq)]
pub enum How {
    /// By resolution from earlier nogoods.
    Analysed,
    /// From patterns that the rules with variables cannot derive.
    Justified,
    /// It consists of the literals chosen.
    Decisions,
    /// It consists of the literals chosen, directly after a set was shown or passed.
    Enumerated,
}

/// What a search tells of itself, in the order in which it happens.
#[derive(Debug, Drop)]
pub enum Event {
    /// The next term.
    Term {
        id: TermId,
        node: Node,
    },
    /// The next atom, a named one.
    Atom {
        id: AtomId,
        pred: Pred,
        args: List<TermId>,
    },
    /// The next atom, the body of the instance that the next `Made` makes.
    Body {
        id: AtomId,
        inst: InstId,
    },
    /// A member of an aggregate got its number.
    Numbered {
        atom: AtomId,
        number: u32,
    },
    /// The next instance.
    Made {
        inst: InstId,
        maker: Maker,
    },
    /// A value that a unit nogood gave.
    Put {
        atom: AtomId,
        value: Value,
        by: NogoodId,
    },
    /// A decision on a body: true where `up`, else false.
    Chosen {
        body: AtomId,
        up: bool,
    },
    /// An unassigned atom was set false.
    Closed {
        atom: AtomId,
    },
    /// A conflict: all literals of the nogood hold.
    Struck {
        nogood: NogoodId,
    },
    /// The struck nogood is unit after the `Back` that follows.
    Kept {
        nogood: NogoodId,
    },
    /// The next nogood, without a head literal. `cover` is empty but for `Justified`.
    Learned {
        nogood: NogoodId,
        how: How,
        lits: List<Lit>,
        cover: List<Pattern>,
    },
    /// The levels above this one were taken away.
    Back {
        level: u32,
    },
    /// A justification needs more patterns than there may be.
    Wide {
        atom: AtomId,
        count: u32,
    },
    /// A set was written: its atoms in the order of its line.
    Shown {
        atoms: List<AtomId>,
    },
    /// A set of the after file was met.
    Passed {
        atoms: List<AtomId>,
    },
}

impl Event {
    /// Another copy.
    pub fn copy(&self, alloc: Global) -> Result<Event, OutOfMemory>
        ensures { IfOk result (λ e. e ≡ self.now) }
    {
        match *self {
            Event::Term { id, ref node } => {
                let node = node.copy(alloc)?;
                Ok(Event::Term { id, node })
            }
            Event::Atom {
                id,
                ref pred,
                ref args,
            } => copy_atom(alloc, id, pred, args.as_slice()),
            Event::Body { id, inst } => Ok(Event::Body { id, inst }),
            Event::Numbered { atom, number } => Ok(Event::Numbered { atom, number }),
            Event::Made { inst, ref maker } => {
                let maker = maker.copy(alloc)?;
                Ok(Event::Made { inst, maker })
            }
            Event::Put { atom, value, by } => Ok(Event::Put { atom, value, by }),
            Event::Chosen { body, up } => Ok(Event::Chosen { body, up }),
            Event::Closed { atom } => Ok(Event::Closed { atom }),
            Event::Struck { nogood } => Ok(Event::Struck { nogood }),
            Event::Kept { nogood } => Ok(Event::Kept { nogood }),
            Event::Learned {
                nogood,
                how,
                ref lits,
                ref cover,
            } => copy_learned(alloc, nogood, how, lits.as_slice(), cover.as_slice()),
            Event::Back { level } => Ok(Event::Back { level }),
            Event::Wide { atom, count } => Ok(Event::Wide { atom, count }),
            Event::Shown { ref atoms } => Ok(Event::Shown {
                atoms: List::from_slice(alloc, atoms.as_slice())?,
            }),
            Event::Passed { ref atoms } => Ok(Event::Passed {
                atoms: List::from_slice(alloc, atoms.as_slice())?,
            }),
        }
    }
}

// An `Atom` event with copies of these.
fn copy_atom(alloc: Global, id: AtomId, pred: &Pred, args: &[TermId]) -> Result<Event, OutOfMemory>
    ensures { IfOk result (λ e. e ≡ Atom id pred.now args.now) }
{
    let pred = pred.copy(alloc)?;
    let args = List::from_slice(alloc, args)?;
    Ok(Event::Atom { id, pred, args })
}

// A `Learned` event with copies of these.
fn copy_learned(
    alloc: Global,
    nogood: NogoodId,
    how: How,
    lits: &[Lit],
    patterns: &[Pattern],
) -> Result<Event, OutOfMemory>
    ensures { IfOk result (λ e. e ≡ Learned nogood how lits.now patterns.now) }
{
    let lits = List::from_slice(alloc, lits)?;
    let cover = copy_patterns(alloc, patterns)?;
    Ok(Event::Learned {
        nogood,
        how,
        lits,
        cover,
    })
}

// Copies patterns one by one.
fn copy_patterns(alloc: Global, patterns: &[Pattern]) -> Result<List<Pattern>, OutOfMemory>
    ensures { IfOk result (λ list. list ≡ patterns.now) }
{
    let mut copies = List::new(alloc);
    for pattern in patterns {
        copies.push(pattern.copy(alloc)?)?;
    }
    Ok(copies)
}
