//! Makers of instances, and terms by their outermost symbol, as words behind blanks.

ghost use Rattle.std.specs.Prelude.{◌≡◌, ◌++◌, codes, OnOk};
ghost use Rattle.journal_file.specs.Lines.{behind, maker_words, member_words, node_words, side_words, step_words, sum_words};

use crate::preds::side_mark;
use crate::words::{push_integer, push_number, push_terms, push_word};
use alpha_outside::{Maker, Name, Node, OutOfMemory, Step, TermId};

// A string with its quotes.
fn push_quoted(text: &mut Vec<u8>, quoted: &Name) -> Result<(), OutOfMemory>
    ensures { OnOk result (text.new.items ≡ text.old.items ++ (codes " " ++ (codes "\"" ++ (quoted.now ++ codes "\"")))) }
{
    push_word(text, b"\"")?;
    text.extend_from_slice(quoted.as_bytes())?;
    text.extend_from_slice(b"\"")?;
    Ok(())
}

/// A term by its outermost symbol.
pub fn push_node(text: &mut Vec<u8>, node: &Node) -> Result<(), OutOfMemory>
    ensures { OnOk result (text.new.items ≡ text.old.items ++ behind (node_words node.now)) }
{
    match node {
        Node::Int(number) => {
            push_word(text, b"int")?;
            push_integer(text, *number)
        }
        Node::Symbol(name) => {
            push_word(text, b"sym")?;
            push_word(text, name.as_bytes())
        }
        Node::Text(quoted) => {
            push_word(text, b"str")?;
            push_quoted(text, quoted)
        }
        Node::Fun(name, args) => {
            push_word(text, b"fun")?;
            push_word(text, name.as_bytes())?;
            push_terms(text, args.as_slice())
        }
    }
}

// What a step does, its aggregate and the side.
fn push_side(text: &mut Vec<u8>, word: &[u8], agg: u32, plus: bool) -> Result<(), OutOfMemory>
    ensures { OnOk result (text.new.items ≡ text.old.items ++ behind (side_words word.now agg plus)) }
{
    push_word(text, word)?;
    push_number(text, agg)?;
    push_word(text, side_mark(plus))
}

// The number of a member, a sum, and the key.
fn push_member(text: &mut Vec<u8>, k: u32, sum: i64, key: &[TermId]) -> Result<(), OutOfMemory>
    ensures { OnOk result (text.new.items ≡ text.old.items ++ behind (member_words k sum key.now)) }
{
    push_number(text, k)?;
    push_integer(text, sum)?;
    push_terms(text, key)
}

// Two sums, and the key.
fn push_sums(text: &mut Vec<u8>, x: i64, y: i64, key: &[TermId]) -> Result<(), OutOfMemory>
    ensures { OnOk result (text.new.items ≡ text.old.items ++ behind (sum_words x y key.now)) }
{
    push_integer(text, x)?;
    push_integer(text, y)?;
    push_terms(text, key)
}

// A step of an aggregate.
fn push_step(text: &mut Vec<u8>, step: &Step) -> Result<(), OutOfMemory>
    ensures { OnOk result (text.new.items ≡ text.old.items ++ behind (step_words step.now)) }
{
    match step {
        Step::Zero { agg, plus, key } => {
            push_side(text, b"zero", *agg, *plus)?;
            push_terms(text, key.as_slice())
        }
        Step::Skip {
            agg,
            plus,
            k,
            sum,
            key,
        } => {
            push_side(text, b"skip", *agg, *plus)?;
            push_member(text, *k, *sum, key.as_slice())
        }
        Step::Add {
            agg,
            plus,
            k,
            sum,
            key,
        } => {
            push_side(text, b"add", *agg, *plus)?;
            push_member(text, *k, *sum, key.as_slice())
        }
        Step::Reach {
            agg,
            plus,
            k,
            sum,
            key,
        } => {
            push_side(text, b"reach", *agg, *plus)?;
            push_member(text, *k, *sum, key.as_slice())
        }
        Step::Above {
            agg,
            plus,
            low,
            high,
            key,
        } => {
            push_side(text, b"above", *agg, *plus)?;
            push_sums(text, *low, *high, key.as_slice())
        }
        Step::Total { agg, up, down, key } => {
            push_word(text, b"total")?;
            push_number(text, *agg)?;
            push_sums(text, *up, *down, key.as_slice())
        }
    }
}

/// What makes an instance.
pub fn push_maker(text: &mut Vec<u8>, maker: &Maker) -> Result<(), OutOfMemory>
    ensures { OnOk result (text.new.items ≡ text.old.items ++ behind (maker_words maker.now)) }
{
    match maker {
        Maker::Rule { rule, binding } => {
            push_word(text, b"rule")?;
            push_number(text, *rule)?;
            push_terms(text, binding.as_slice())
        }
        Maker::Step(step) => push_step(text, step),
    }
}
