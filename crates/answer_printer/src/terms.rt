//! The text of a term. A stack of what is left to write stands in for recursion: the top is written next. A functional term writes
//! its name and puts its arguments onto the stack, the first on top, above the parenthesis that ends it.

ghost use Rattle.std.specs.Prelude.{◌≡◌, ◌++◌, ◌<◌, ◌*◌, [], ◌∷◌, length, codes, OnOk};
ghost use Rattle.asp_meaning.specs.Lines.{integer_text, value_text};
ghost use Rattle.term_pool.specs.Nodes.{value_at, IsPool, PartsBelow};
ghost use Rattle.answer_printer.specs.Pieces.{pieces, AreWithin, IsWithin, IsPrinted, IsCallWritten, IsNodeWritten};

use alpha_outside::{Name, Node, OutOfMemory, TermId};
use itoa::Buffer;
use std::alloc::Global;
use term_pool::node_at;

/// What is left to write of a term.
#[derive(Clone, Copy, Debug)]
pub enum Piece {
    Term(TermId),
    /// A comma, and then the term.
    Next(TermId),
    Close,
}

// The parts of a functional term, of which the first is written first, and then the end of the term.
fn push_parts(stack: &mut Vec<Piece>, args: &[TermId]) -> Result<(), OutOfMemory>
    requires { 0 < length args.now }
    ensures { OnOk result (stack.new.items ≡ stack.old.items ++ pieces args.now) }
{
    stack.push(Piece::Close)?;
    let mut place = args.len() - 1;
    while place > 0 {
        stack.push(Piece::Next(args[place]))?;
        place -= 1;
    }
    stack.push(Piece::Term(args[0]))?;
    Ok(())
}

// The name of a functional term, and its parts onto the stack.
fn write_call(
    text: &mut Vec<u8>,
    stack: &mut Vec<Piece>,
    name: &Name,
    args: &[TermId],
) -> Result<(), OutOfMemory>
    ensures { OnOk result (IsCallWritten name.now args.now text.old.items stack.old.items text.new.items stack.new.items) }
{
    text.extend_from_slice(name.as_bytes())?;
    if args.is_empty() {
        return Ok(());
    }
    text.extend_from_slice(b"(")?;
    push_parts(stack, args)
}

// A string with its quotes.
fn write_quoted(text: &mut Vec<u8>, quoted: &Name) -> Result<(), OutOfMemory>
    ensures { OnOk result (text.new.items ≡ text.old.items ++ (codes "\"" ++ (quoted.now ++ codes "\""))) }
{
    text.extend_from_slice(b"\"")?;
    text.extend_from_slice(quoted.as_bytes())?;
    text.extend_from_slice(b"\"")?;
    Ok(())
}

// An integer.
fn write_integer(text: &mut Vec<u8>, number: i64) -> Result<(), OutOfMemory>
    ensures { OnOk result (text.new.items ≡ text.old.items ++ integer_text number) }
{
    let mut buffer = Buffer::new();
    text.extend_from_slice(buffer.format(number).as_bytes())?;
    Ok(())
}

// The outermost symbol of a term, and its parts onto the stack.
fn write_node(text: &mut Vec<u8>, stack: &mut Vec<Piece>, node: &Node) -> Result<(), OutOfMemory>
    ensures { OnOk result (IsNodeWritten node.now text.old.items stack.old.items text.new.items stack.new.items) }
{
    match node {
        Node::Int(number) => write_integer(text, *number),
        Node::Symbol(name) => {
            text.extend_from_slice(name.as_bytes())?;
            Ok(())
        }
        Node::Text(quoted) => write_quoted(text, quoted),
        Node::Fun(name, args) => write_call(text, stack, name, args.as_slice()),
    }
}

// One piece.
fn write_piece(
    text: &mut Vec<u8>,
    stack: &mut Vec<Piece>,
    terms: &[Node],
    piece: Piece,
) -> Result<(), OutOfMemory>
    requires pool { IsPool terms.now }
    requires piece { IsWithin (length terms.now) piece }
    requires stack { AreWithin (length terms.now) stack.old.items }
    ensures { OnOk result (IsPrinted terms.now piece text.old.items stack.old.items text.new.items stack.new.items) }
{
    match piece {
        Piece::Term(id) => write_node(text, stack, node_at(terms, id)),
        Piece::Next(id) => {
            text.extend_from_slice(b",")?;
            write_node(text, stack, node_at(terms, id))
        }
        Piece::Close => {
            text.extend_from_slice(b")")?;
            Ok(())
        }
    }
}

/// Adds the text of a term. After want of memory a part of it may have been added.
pub fn push_term(
    alloc: Global,
    text: &mut Vec<u8>,
    terms: &[Node],
    id: TermId,
) -> Result<(), OutOfMemory>
    requires pool { IsPool terms.now }
    requires id { id < length terms.now }
    ensures { OnOk result (text.new.items ≡ text.old.items ++ value_text (value_at terms.now id)) }
{
    let mut stack = Vec::new(alloc);
    stack.push(Piece::Term(id))?;
    while let Some(piece) = stack.pop() {
        write_piece(text, &mut stack, terms, piece)?;
    }
    Ok(())
}
