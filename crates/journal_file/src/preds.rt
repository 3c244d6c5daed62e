//! Predicates as words.

ghost use Rattle.std.specs.Prelude.{◌≡◌, ◌++◌, codes, OnOk};
ghost use Rattle.std.specs.Fmt.{decimal};
ghost use Rattle.journal_file.specs.Lines.{pred_text, side_text, sided_text, sign_text};

use crate::words::push_digits;
use alpha_outside::{Name, OutOfMemory, Pred};

/// The mark of a side: of the positive weights, or the negative ones.
pub fn side_mark(plus: bool) -> &'static [u8]
    ensures { result.now ≡ side_text plus }
{
    if plus { b"+" } else { b"-" }
}

// A user's predicate.
fn push_user(text: &mut Vec<u8>, negated: bool, name: &Name) -> Result<(), OutOfMemory>
    ensures { OnOk result (text.new.items ≡ text.old.items ++ (sign_text negated ++ name.now)) }
{
    if negated {
        text.extend_from_slice(b"-")?;
    }
    text.extend_from_slice(name.as_bytes())?;
    Ok(())
}

// A predicate that says something of an aggregate.
fn push_plain(text: &mut Vec<u8>, word: &[u8], agg: u32) -> Result<(), OutOfMemory>
    ensures { OnOk result (text.new.items ≡ text.old.items ++ (word.now ++ decimal agg)) }
{
    text.extend_from_slice(word)?;
    push_digits(text, agg)
}

// A predicate that says something of a side of an aggregate.
fn push_sided(text: &mut Vec<u8>, word: &[u8], agg: u32, plus: bool) -> Result<(), OutOfMemory>
    ensures { OnOk result (text.new.items ≡ text.old.items ++ sided_text word.now agg plus) }
{
    push_plain(text, word, agg)?;
    text.extend_from_slice(b".")?;
    text.extend_from_slice(side_mark(plus))?;
    Ok(())
}

// The text of a predicate.
fn push_text(text: &mut Vec<u8>, pred: &Pred) -> Result<(), OutOfMemory>
    ensures { OnOk result (text.new.items ≡ text.old.items ++ pred_text pred.now) }
{
    match pred {
        Pred::User {
            negated,
            name,
            arity: _,
        } => push_user(text, *negated, name),
        Pred::Domain { agg, arity: _ } => push_plain(text, b"#dom.", *agg),
        Pred::Member { agg, arity: _ } => push_plain(text, b"#mem.", *agg),
        Pred::Total { agg, arity: _ } => push_plain(text, b"#total.", *agg),
        Pred::Grid {
            agg,
            plus,
            arity: _,
        } => push_sided(text, b"#grid.", *agg, *plus),
        Pred::Reach {
            agg,
            plus,
            arity: _,
        } => push_sided(text, b"#reach.", *agg, *plus),
        Pred::Above {
            agg,
            plus,
            arity: _,
        } => push_sided(text, b"#above.", *agg, *plus),
    }
}

/// A predicate behind a blank. Its number of arguments is told by the ids that follow.
pub fn push_pred(text: &mut Vec<u8>, pred: &Pred) -> Result<(), OutOfMemory>
    ensures { OnOk result (text.new.items ≡ text.old.items ++ (codes " " ++ pred_text pred.now)) }
{
    text.extend_from_slice(b" ")?;
    push_text(text, pred)
}
