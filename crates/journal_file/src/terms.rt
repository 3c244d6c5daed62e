//! The text of a term of a pattern. A stack of open calls stands in for recursion, since terms may be nested deeply. Of each it holds
//! the arguments that are left, and those of the innermost, on top, are written next.

ghost use Rattle.std.specs.Prelude.{◌≡◌, ◌++◌, OnOk};
ghost use Rattle.std.specs.Fmt.{decimal};
ghost use Rattle.journal_file.specs.Terms.{comma, term_text, IsCallWritten, IsTermWritten};

use crate::words::push_digits;
use alpha_outside::{OutOfMemory, PatternTerm};
use std::alloc::Global;

/// A functional term whose name is written, with the arguments that are left. It has begun where one of its arguments is written.
#[derive(Clone, Copy)]
pub struct OpenCall<'a> {
    args: &'a [PatternTerm],
    begun: bool,
}

// A sign, and the digits of a number.
fn write_marked(text: &mut Vec<u8>, mark: &[u8], number: u32) -> Result<(), OutOfMemory>
    ensures { OnOk result (text.new.items ≡ text.old.items ++ (mark.now ++ decimal number)) }
{
    text.extend_from_slice(mark)?;
    push_digits(text, number)
}

// The outermost symbol of a term, and its arguments onto the stack.
fn write_term<'a>(
    text: &mut Vec<u8>,
    stack: &mut Vec<OpenCall<'a>>,
    term: &'a PatternTerm,
) -> Result<(), OutOfMemory>
    ensures { OnOk result (IsTermWritten term.now text.old.items stack.old.items text.new.items stack.new.items) }
{
    match term {
        PatternTerm::Hole(number) => write_marked(text, b"?", *number),
        PatternTerm::Known(id) => write_marked(text, b"#", id.0),
        PatternTerm::Fun(name, args) => {
            text.extend_from_slice(name.as_bytes())?;
            text.extend_from_slice(b"(")?;
            stack.push(OpenCall {
                args: args.as_slice(),
                begun: false,
            })?;
            Ok(())
        }
    }
}

// The comma before an argument that isn't the first.
fn write_comma(text: &mut Vec<u8>, begun: bool) -> Result<(), OutOfMemory>
    ensures { OnOk result (text.new.items ≡ text.old.items ++ comma begun) }
{
    if begun {
        text.extend_from_slice(b",")?;
    }
    Ok(())
}

// The next argument of an open call, but for what goes onto the stack, or its end.
fn write_call<'a>(
    text: &mut Vec<u8>,
    stack: &mut Vec<OpenCall<'a>>,
    call: OpenCall<'a>,
) -> Result<(), OutOfMemory>
    ensures { OnOk result (IsCallWritten call.entry text.old.items stack.old.items text.new.items stack.new.items) }
{
    let Some((first, others)) = call.args.split_first() else {
        text.extend_from_slice(b")")?;
        return Ok(());
    };
    write_comma(text, call.begun)?;
    stack.push(OpenCall {
        args: others,
        begun: true,
    })?;
    write_term(text, stack, first)
}

/// Adds the text of a term. After want of memory a part of it may have been added.
pub fn push_term(alloc: Global, text: &mut Vec<u8>, term: &PatternTerm) -> Result<(), OutOfMemory>
    ensures { OnOk result (text.new.items ≡ text.old.items ++ term_text term.now) }
{
    let mut stack = Vec::new(alloc);
    write_term(text, &mut stack, term)?;
    while let Some(call) = stack.pop() {
        write_call(text, &mut stack, call)?;
    }
    Ok(())
}
