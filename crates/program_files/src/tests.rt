use crate::{FilesFault, read_listed, read_program};
use alpha_outside::{List, MemShelf, Name};
use std::alloc::Global;
use std::test::Fail;

// The names of a command line, with blanks between them.
fn names_of(alloc: Global, words: &str) -> Result<Vec<Name>, Fail> {
    let mut names = Vec::new(alloc);
    if words.is_empty() {
        return Ok(names);
    }
    for word in words.split(' ') {
        names.push(Name::from_bytes(alloc, word.as_bytes())?)?;
    }
    Ok(names)
}

// A shelf with the files `a` and `b`, of which reads with these numbers fail.
fn shelf_of(alloc: Global, a: &[u8], b: &[u8], failing: &[u64]) -> Result<MemShelf, Fail> {
    let mut shelf = MemShelf::new(alloc, List::from_slice(alloc, failing)?);
    shelf.add(alloc, b"a", a)?;
    shelf.add(alloc, b"b", b)?;
    Ok(shelf)
}

fn is_text(answer: &Result<Vec<u8>, FilesFault>, want: &[u8]) -> bool {
    match answer {
        Ok(text) => text.as_slice() == want,
        Err(_) => false,
    }
}

fn is_unreadable(answer: &Result<Vec<u8>, FilesFault>, want: &str) -> bool {
    match answer {
        Err(FilesFault::Unreadable { name }) => name.as_bytes() == want.as_bytes(),
        _ => false,
    }
}

fn is_too_long(answer: &Result<Vec<u8>, FilesFault>, want: &str) -> bool {
    match answer {
        Err(FilesFault::TooLong { name }) => name.as_bytes() == want.as_bytes(),
        _ => false,
    }
}

// Reads files of which `a` has `x.` and `b` has `y. % z`.
fn read_small(
    alloc: Global,
    words: &str,
    failing: &[u64],
) -> Result<Result<Vec<u8>, FilesFault>, Fail> {
    let names = names_of(alloc, words)?;
    let mut shelf = shelf_of(alloc, b"x.", b"y. % z", failing)?;
    Ok(read_program(alloc, &names, &mut shelf))
}

#[test]
fn files_are_joined_in_order_each_with_a_line_feed(rt: HostRuntime) -> Result<(), Fail> {
    let rows = [
        ("", b"".as_slice()),
        ("a", b"x.\n".as_slice()),
        ("a b", b"x.\ny. % z\n".as_slice()),
        ("b a b", b"y. % z\nx.\ny. % z\n".as_slice()),
    ];
    for (words, want) in rows {
        let answer = read_small(rt.alloc(), words, &[])?;
        assert!(rt; is_text(&answer, want), "at {words}");
    }
    Ok(())
}

#[test]
fn the_first_file_that_cannot_be_read_is_named(rt: HostRuntime) -> Result<(), Fail> {
    let rows = [
        ("a none b", [].as_slice(), "none"),
        ("a b none", [1].as_slice(), "b"),
        ("none a", [].as_slice(), "none"),
    ];
    for (words, failing, want) in rows {
        let answer = read_small(rt.alloc(), words, failing)?;
        assert!(rt; is_unreadable(&answer, want), "at {words}");
    }
    Ok(())
}

#[test]
fn files_are_measured_together(rt: HostRuntime) -> Result<(), Fail> {
    let alloc = rt.alloc();
    let mut most = Vec::new(alloc);
    most.resize(16_777_216, b' ')?;
    let mut shelf = shelf_of(alloc, &most, b"\n", &[])?;
    let both = read_program(alloc, &names_of(alloc, "a b")?, &mut shelf);
    assert!(rt; is_too_long(&both, "b"));
    most.push(b'\n')?;
    let alone = read_program(alloc, &names_of(alloc, "a")?, &mut shelf);
    assert!(rt; is_text(&alone, &most));
    Ok(())
}

#[test]
fn a_listed_file_is_read_as_it_is(rt: HostRuntime) -> Result<(), Fail> {
    let alloc = rt.alloc();
    let mut shelf = shelf_of(alloc, b"{x}\n", b"", &[])?;
    assert!(rt; is_text(&read_listed(alloc, b"a", &mut shelf), b"{x}\n"));
    assert!(rt; is_unreadable(&read_listed(alloc, b"none", &mut shelf), "none"));
    Ok(())
}
