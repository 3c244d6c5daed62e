//! The line of an event.

ghost use Rattle.std.specs.Prelude.{◌≡◌, ◌++◌, ◌∷◌, [], IfOk, OnOk};
ghost use Rattle.std.specs.Fmt.{decimal};
ghost use Rattle.journal_file.specs.Lines.{decision_text, event_line, event_words, how_text, id_words, spaced, value_text};

use crate::makers::{push_maker, push_node};
use crate::patterns::push_nogood;
use crate::preds::push_pred;
use crate::words::{push_atoms, push_number, push_terms, push_word};
use alpha_outside::{AtomId, Event, How, List, OutOfMemory, Value};
use std::alloc::Global;

// How a nogood was learned.
fn how_word(how: How) -> &'static [u8]
    ensures { result.now ≡ how_text how }
{
    match how {
        How::Analysed => b"analysed",
        How::Justified => b"justified",
        How::Decisions => b"decisions",
        How::Enumerated => b"enumerated",
    }
}

fn value_word(value: Value) -> &'static [u8]
    ensures { result.now ≡ value_text value }
{
    match value {
        Value::True => b"T",
        Value::MustBe => b"M",
        Value::False => b"F",
    }
}

// Whether a decision makes its body true.
fn decision_word(up: bool) -> &'static [u8]
    ensures { result.now ≡ decision_text up }
{
    if up { b"T" } else { b"F" }
}

// What happened, and to which id.
fn push_first(text: &mut Vec<u8>, word: &[u8], id: u32) -> Result<(), OutOfMemory>
    ensures { OnOk result (text.new.items ≡ text.old.items ++ spaced (word.now ∷ decimal id ∷ [])) }
{
    text.extend_from_slice(word)?;
    push_number(text, id)
}

// What happened, to which id, and a number.
fn push_pair(text: &mut Vec<u8>, word: &[u8], id: u32, number: u32) -> Result<(), OutOfMemory>
    ensures { OnOk result (text.new.items ≡ text.old.items ++ spaced (word.now ∷ decimal id ∷ decimal number ∷ [])) }
{
    push_first(text, word, id)?;
    push_number(text, number)
}

// A set: what happened to it, and its atoms.
fn push_set(text: &mut Vec<u8>, word: &[u8], atoms: &[AtomId]) -> Result<(), OutOfMemory>
    ensures { OnOk result (text.new.items ≡ text.old.items ++ spaced (word.now ∷ id_words atoms.now)) }
{
    text.extend_from_slice(word)?;
    push_atoms(text, atoms)
}

// The words of an event, with a blank between two of them.
fn push_words(alloc: Global, text: &mut Vec<u8>, event: &Event) -> Result<(), OutOfMemory>
    ensures { OnOk result (text.new.items ≡ text.old.items ++ spaced (event_words event.now)) }
{
    match event {
        Event::Term { id, node } => {
            push_first(text, b"term", id.0)?;
            push_node(text, node)
        }
        Event::Atom { id, pred, args } => {
            push_first(text, b"atom", id.0)?;
            push_pred(text, pred)?;
            push_terms(text, args.as_slice())
        }
        Event::Body { id, inst } => push_pair(text, b"body", id.0, inst.0),
        Event::Numbered { atom, number } => push_pair(text, b"number", atom.0, *number),
        Event::Made { inst, maker } => {
            push_first(text, b"made", inst.0)?;
            push_maker(text, maker)
        }
        Event::Put { atom, value, by } => {
            push_first(text, b"put", atom.0)?;
            push_word(text, value_word(*value))?;
            push_number(text, by.0)
        }
        Event::Chosen { body, up } => {
            push_first(text, b"choose", body.0)?;
            push_word(text, decision_word(*up))
        }
        Event::Closed { atom } => push_first(text, b"close", atom.0),
        Event::Struck { nogood } => push_first(text, b"struck", nogood.0),
        Event::Kept { nogood } => push_first(text, b"kept", nogood.0),
        Event::Learned {
            nogood,
            how,
            lits,
            cover,
        } => {
            push_first(text, b"learned", nogood.0)?;
            push_word(text, how_word(*how))?;
            push_nogood(alloc, text, lits.as_slice(), cover.as_slice())
        }
        Event::Back { level } => push_first(text, b"back", *level),
        Event::Wide { atom, count } => push_pair(text, b"wide", atom.0, *count),
        Event::Shown { atoms } => push_set(text, b"shown", atoms.as_slice()),
        Event::Passed { atoms } => push_set(text, b"passed", atoms.as_slice()),
    }
}

/// Adds the line of an event. After want of memory a part of it may have been added.
pub fn push_event(alloc: Global, text: &mut Vec<u8>, event: &Event) -> Result<(), OutOfMemory>
    ensures { OnOk result (text.new.items ≡ text.old.items ++ event_line event.now) }
{
    push_words(alloc, text, event)?;
    text.extend_from_slice(b"\n")?;
    Ok(())
}

/// The line of an event, with its line feed.
pub fn event_text(alloc: Global, event: &Event) -> Result<List<u8>, OutOfMemory>
    ensures { IfOk result (λ line. line ≡ event_line event.now) }
{
    let mut text = Vec::new(alloc);
    push_event(alloc, &mut text, event)?;
    Ok(List::from_vec(text))
}
