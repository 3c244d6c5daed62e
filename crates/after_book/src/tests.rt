ghost use Rattle.after_book.specs.Listed.{IsCanonical};

use crate::{AfterBook, AfterFault};
use answer_printer::read_set_line;
use std::alloc::Global;

// Whether the file is read, and its book has the first line and not the other.
fn has_but_not(alloc: Global, bytes: &[u8], line: &[u8], other: &[u8]) -> bool {
    match AfterBook::read(alloc, bytes) {
        Ok(book) => book.has(line) && !book.has(other),
        Err(_) => false,
    }
}

// Whether the file is refused at the line of this number.
fn is_refused_at(alloc: Global, bytes: &[u8], number: u64) -> bool {
    match AfterBook::read(alloc, bytes) {
        Ok(_) => false,
        Err(fault) => fault == AfterFault::Refused { line: number },
    }
}

// Whether a canonical line is new to a book without lines, and whether it is so again.
fn new_twice(alloc: Global, line: &[u8]) -> Option<(bool, bool)>
    requires { IsCanonical line.now }
{
    let mut book = AfterBook::new(alloc);
    let first = book.add(line).ok()?;
    let second = book.add(line).ok()?;
    Some((first, second))
}

// The same of the set of a text.
fn added_twice(alloc: Global, text: &[u8]) -> Option<(bool, bool)> {
    match read_set_line(alloc, text) {
        Ok(line) => new_twice(alloc, line.as_slice()),
        Err(_) => None,
    }
}

#[test]
fn files_list_sets(rt: HostRuntime) {
    let alloc = rt.alloc();
    let rows = [
        // A last line that was torn off is passed over, and one that is a set counts.
        (
            b"{ a }\n{b".as_slice(),
            b"{a}\n".as_slice(),
            b"{b}\n".as_slice(),
        ),
        (b"{b}\n{a}", b"{a}\n", b"{c}\n"),
        // Sets are compared as sets.
        (b"{b,a}\n{a, b}\n", b"{a, b}\n", b"{b,a}\n"),
        // Empty lines and comments list nothing.
        (
            b"\n \t\r\n% complete, 2 printed\n\t%{b}\n{a}\r\n",
            b"{a}\n",
            b"{b}\n",
        ),
    ];
    for (bytes, line, other) in rows {
        assert!(rt; has_but_not(alloc, bytes, line, other), "{bytes:?}");
    }
}

#[test]
fn other_lines_are_refused(rt: HostRuntime) {
    let alloc = rt.alloc();
    let rows = [
        (b"{x\n".as_slice(), 1),
        (b"{a}\n% {\na\n{b\n", 3),
        (b"\n{a} % b\n", 2),
    ];
    for (bytes, number) in rows {
        assert!(rt; is_refused_at(alloc, bytes, number), "{bytes:?}");
    }
}

#[test]
fn a_set_is_new_once(rt: HostRuntime) {
    assert!(rt; added_twice(rt.alloc(), b"{ b }") == Some((true, false)));
}
