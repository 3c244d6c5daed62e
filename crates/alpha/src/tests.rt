use crate::run::run;
use crate::status::{Refusal, Status, message};
use alpha_outside::{
    ArithOp, Event, List, Maker, MemShelf, MemSink, MemTrace, Name, ReadStop, Shelf,
};
use std::alloc::Global;
use std::test::Fail;

// One run: its words with blanks between them, the files, which writes to the output fail, having taken how much, and which calls of
// the trace fail.
#[derive(Clone, Copy)]
struct Case<'a> {
    words: &'a str,
    files: &'a [(&'a [u8], &'a [u8])],
    failing: &'a [u64],
    cut: usize,
    untraced: &'a [u64],
}

fn owned(alloc: Global, words: &str) -> Result<Vec<String>, Fail> {
    let mut all = Vec::new(alloc);
    if words.is_empty() {
        return Ok(all);
    }
    for word in words.split(' ') {
        all.push(String::from_str(alloc, word)?)?;
    }
    Ok(all)
}

// How many sets the trace was told of.
fn shown(events: &[Event]) -> usize {
    events
        .iter()
        .filter(|event| matches!(event, Event::Shown { .. }))
        .count()
}

// A shelf with these files.
fn shelf_of(alloc: Global, files: &[(&[u8], &[u8])]) -> Result<MemShelf, Fail> {
    let mut shelf = MemShelf::new(alloc, List::new(alloc));
    for (name, bytes) in files {
        shelf.add(alloc, name, bytes)?;
    }
    Ok(shelf)
}

// The code, the bytes of the output, those of the messages, and how many sets the trace was told of.
fn ran(alloc: Global, case: &Case<'_>) -> Result<String, Fail> {
    let words = owned(alloc, case.words)?;
    let mut shelf = shelf_of(alloc, case.files)?;
    let mut out = MemSink::new(alloc, List::from_slice(alloc, case.failing)?, case.cut);
    let mut err = MemSink::new(alloc, List::new(alloc), 0);
    let mut trace = MemTrace::new(alloc, List::from_slice(alloc, case.untraced)?);
    let status = run(alloc, &words, &mut shelf, &mut out, &mut err, &mut trace);
    let bytes = std::str::from_utf8(out.bytes()).unwrap_or("no text");
    let message = std::str::from_utf8(err.bytes()).unwrap_or("no text");
    let sets = shown(trace.events());
    Ok(format!(in alloc; "{} {bytes}|{message}|{sets}", status.code())?)
}

// The same of a run in which nothing fails.
fn ran_well(alloc: Global, words: &str, files: &[(&[u8], &[u8])]) -> Result<String, Fail> {
    ran(
        alloc,
        &Case {
            words,
            files,
            failing: &[],
            cut: 0,
            untraced: &[],
        },
    )
}

fn solved(alloc: Global, text: &[u8]) -> Result<String, Fail> {
    ran_well(alloc, "solve p.lp", &[(b"p.lp", text)])
}

#[test]
fn programs_and_their_answer_sets(rt: HostRuntime) -> Result<(), Fail> {
    let rows = [
        (b"".as_slice(), "0 {}\n% complete, 1 printed\n||1"),
        (
            b"b. a :- b. c :- d.".as_slice(),
            "0 {a, b}\n% complete, 1 printed\n||1",
        ),
        (b"b. :- b.".as_slice(), "0 % complete, 0 printed\n||0"),
        (b":- .".as_slice(), "0 % complete, 0 printed\n||0"),
        (
            b"a :- b, c. c :- b. b. :- d.".as_slice(),
            "0 {a, b, c}\n% complete, 1 printed\n||1",
        ),
        (
            b"z. y10. y1. y2. y1 :- z.".as_slice(),
            "0 {y1, y10, y2, z}\n% complete, 1 printed\n||1",
        ),
    ];
    for (text, want) in rows {
        assert_eq!(rt; solved(rt.alloc(), text)?.as_str(), want);
    }
    Ok(())
}

#[test]
fn atoms_with_arguments(rt: HostRuntime) -> Result<(), Fail> {
    let rows = [
        (
            b"p(f(1)). q(\"a b\",-2) :- p(f(1)), not r.".as_slice(),
            "0 {p(f(1)), q(\"a b\",-2)}\n% complete, 1 printed\n||1",
        ),
        (
            b"p(10). p(9). p(a) :- p(10), not p(b). p. :- p(b).".as_slice(),
            "0 {p, p(9), p(10), p(a)}\n% complete, 1 printed\n||1",
        ),
        (
            b"p(1) :- p(2). p(2) :- p(1).".as_slice(),
            "0 {}\n% complete, 1 printed\n||1",
        ),
    ];
    for (text, want) in rows {
        assert_eq!(rt; solved(rt.alloc(), text)?.as_str(), want);
    }
    Ok(())
}

#[test]
fn what_may_be_chosen(rt: HostRuntime) -> Result<(), Fail> {
    let rows = [
        (
            b"{a}. {a}.".as_slice(),
            "0 {a}\n{}\n% complete, 2 printed\n||2",
        ),
        (
            b"{a}. :- not a.".as_slice(),
            "0 {a}\n% complete, 1 printed\n||1",
        ),
        (
            b"{x}. a :- x, not b, not c. b :- y. c :- y. :- a.".as_slice(),
            "0 {}\n% complete, 1 printed\n||1",
        ),
        (
            b"{a : b}. {b : a}.".as_slice(),
            "0 {}\n% complete, 1 printed\n||1",
        ),
        (
            b"{p(1) : q; p(2) : not q, not r} :- s. s. {q}.".as_slice(),
            "0 {p(1), q, s}\n{q, s}\n{p(2), s}\n{s}\n% complete, 4 printed\n||4",
        ),
    ];
    for (text, want) in rows {
        assert_eq!(rt; solved(rt.alloc(), text)?.as_str(), want);
    }
    Ok(())
}

// Whether the last event is a set.
fn ends_with_a_set(events: &[Event]) -> bool {
    match events.last() {
        Some(event) => matches!(event, Event::Shown { .. }),
        None => false,
    }
}

// The status of a run over this one file, which notes to the trace.
fn traced(alloc: Global, text: &[u8], trace: &mut MemTrace) -> Result<Status, Fail> {
    let words = owned(alloc, "solve p.lp")?;
    let mut shelf = shelf_of(alloc, &[(b"p.lp", text)])?;
    let mut out = MemSink::new(alloc, List::new(alloc), 0);
    let mut err = MemSink::new(alloc, List::new(alloc), 0);
    Ok(run(alloc, &words, &mut shelf, &mut out, &mut err, trace))
}

// The body of the choice had to be true before it was chosen, so no literal was chosen, and the set is the last one.
#[test]
fn a_choice_that_must_be_taken_ends_with_its_set(rt: HostRuntime) -> Result<(), Fail> {
    let mut trace = MemTrace::new(rt.alloc(), List::new(rt.alloc()));
    let status = traced(rt.alloc(), b"{a}. :- not a.", &mut trace)?;
    assert_eq!(rt; status.code(), 0);
    assert!(rt; ends_with_a_set(trace.events()));
    Ok(())
}

// How many instances of the core rule of this number were made.
fn made(events: &[Event], number: u32) -> usize {
    events
        .iter()
        .filter(|event| match event {
            Event::Made { maker, .. } => match maker {
                Maker::Rule { rule, .. } => *rule == number,
                Maker::Step(_) => false,
            },
            _ => false,
        })
        .count()
}

#[test]
fn rules_that_are_not_reached_have_no_instances(rt: HostRuntime) -> Result<(), Fail> {
    // The text, the number of a rule that is reached, how many instances it has, and the number of the one that isn't.
    let rows = [
        (
            b"p(0). q(X) :- p(X), not r(X). r(X) :- p(X), not q(X). s(X,Y) :- q(X), d(Y).".as_slice(),
            1,
            1,
            3,
        ),
        (
            b"{stop}. :- not stop. n(0) :- not stop. n(f(X)) :- n(X).".as_slice(),
            2,
            1,
            3,
        ),
    ];
    for (text, reached, many, unreached) in rows {
        let mut trace = MemTrace::new(rt.alloc(), List::new(rt.alloc()));
        let status = traced(rt.alloc(), text, &mut trace)?;
        assert_eq!(rt; status.code(), 0);
        assert_eq!(rt; made(trace.events(), reached), many);
        assert_eq!(rt; made(trace.events(), unreached), 0);
    }
    Ok(())
}

#[test]
fn budgets_end_a_run(rt: HostRuntime) -> Result<(), Fail> {
    let rows = [
        (
            "solve --instances 5 p.lp",
            b"p(0). p(s(X)) :- p(X).".as_slice(),
            "11 % budget instances 5, 0 printed\n||0",
        ),
        (
            "solve --conflicts 1 p.lp",
            b"{a; b}. :- a, b. :- a, not b. :- not a, b. :- not a, not b.".as_slice(),
            "11 % budget conflicts 1, 0 printed\n||0",
        ),
    ];
    for (words, text, want) in rows {
        assert_eq!(rt;
            ran_well(rt.alloc(), words, &[(b"p.lp", text)])?.as_str(),
            want
        );
    }
    Ok(())
}

// Where so many sets are written as may be, nothing is said of further ones.
#[test]
fn limits_end_a_run(rt: HostRuntime) -> Result<(), Fail> {
    let rows = [
        ("solve --limit 2 p.lp", "10 {", 2, "% limit, 2 printed\n||2"),
        ("solve --limit 3 p.lp", "10 {", 3, "% limit, 3 printed\n||3"),
        ("solve --limit 4 p.lp", "10 {", 4, "% limit, 4 printed\n||4"),
        (
            "solve --limit 5 p.lp",
            "0 {",
            4,
            "% complete, 4 printed\n||4",
        ),
    ];
    for (words, start, many, end) in rows {
        let got = ran_well(rt.alloc(), words, &[(b"p.lp", b"{a; b}.")])?;
        let got = got.as_str();
        assert!(rt; got.starts_with(start) && got.ends_with(end), "at {words}");
        assert_eq!(rt; got.split("}\n").count(), many + 1);
    }
    Ok(())
}

#[test]
fn what_is_known_to_be_false(rt: HostRuntime) -> Result<(), Fail> {
    let rows = [
        (
            b"-a. a :- not b.".as_slice(),
            "0 % complete, 0 printed\n||0",
        ),
        (
            b"-a. b :- not a. -c :- -a, not -d.".as_slice(),
            "0 {-a, b, -c}\n% complete, 1 printed\n||1",
        ),
        (
            b"{a; -a}.".as_slice(),
            "0 {a}\n{-a}\n{}\n% complete, 3 printed\n||3",
        ),
    ];
    for (text, want) in rows {
        assert_eq!(rt; solved(rt.alloc(), text)?.as_str(), want);
    }
    Ok(())
}

#[test]
fn what_supports_itself_alone_is_in_no_set(rt: HostRuntime) -> Result<(), Fail> {
    let rows = [
        (
            b"a :- b. b :- a.".as_slice(),
            "0 {}\n% complete, 1 printed\n||1",
        ),
        (b"a :- not a.".as_slice(), "0 % complete, 0 printed\n||0"),
        (
            b"a :- b. b :- a. :- not a.".as_slice(),
            "0 % complete, 0 printed\n||0",
        ),
        (
            b"% a rule with `not`\na :- not b.".as_slice(),
            "0 {a}\n% complete, 1 printed\n||1",
        ),
    ];
    for (text, want) in rows {
        assert_eq!(rt; solved(rt.alloc(), text)?.as_str(), want);
    }
    Ok(())
}

#[test]
fn each_of_two_blocks_the_other(rt: HostRuntime) -> Result<(), Fail> {
    let got = solved(rt.alloc(), b"a :- not b. b :- not a.")?;
    let got = got.as_str();
    assert!(rt;
        got == "0 {a}\n{b}\n% complete, 2 printed\n||2"
            || got == "0 {b}\n{a}\n% complete, 2 printed\n||2"
    );
    Ok(())
}

#[test]
fn texts_that_are_refused_by_place(rt: HostRuntime) -> Result<(), Fail> {
    let rows = [
        (b"a :- b".as_slice(), "3 |alpha: syntax fault at byte 7\n|0"),
        (
            b"a :- b c.".as_slice(),
            "3 |alpha: syntax fault at byte 7\n|0",
        ),
        (b"X.".as_slice(), "3 |alpha: syntax fault at byte 1\n|0"),
        (b"a | b.".as_slice(), "3 |alpha: unsupported at byte 2\n|0"),
        (
            b"p(1..3).".as_slice(),
            "3 |alpha: unsupported at byte 3\n|0",
        ),
        (b"a ! b.".as_slice(), "3 |alpha: unreadable at byte 2\n|0"),
        (b"p(\"x".as_slice(), "3 |alpha: unreadable at byte 2\n|0"),
        (
            b"p(9223372036854775808).".as_slice(),
            "3 |alpha: number too large at byte 2\n|0",
        ),
        (
            b"p(9223372036854775809).".as_slice(),
            "3 |alpha: number too large at byte 2\n|0",
        ),
    ];
    for (text, want) in rows {
        assert_eq!(rt; solved(rt.alloc(), text)?.as_str(), want);
    }
    Ok(())
}

#[test]
fn forms_that_are_not_built_are_refused_by_line(rt: HostRuntime) -> Result<(), Fail> {
    let rows = [
        (
            b"{a; b}.\n{a} <= 1.".as_slice(),
            "3 |alpha: line 2: not built yet\n|0",
        ),
        (
            b"a :- #count{X : p(X)} > 0.".as_slice(),
            "3 |alpha: line 1: not built yet\n|0",
        ),
    ];
    for (text, want) in rows {
        assert_eq!(rt; solved(rt.alloc(), text)?.as_str(), want);
    }
    Ok(())
}

#[test]
fn rules_with_variables(rt: HostRuntime) -> Result<(), Fail> {
    let rows = [
        (
            b"p(0). q(X) :- p(X), not r(X). r(X) :- p(X), not q(X). s(X,Y) :- q(X), d(Y).".as_slice(),
            "0 {p(0), q(0)}\n{p(0), r(0)}\n% complete, 2 printed\n||2",
        ),
        (
            b"n(0). n(X+1) :- n(X), X < 3.".as_slice(),
            "0 {n(0), n(1), n(2), n(3)}\n% complete, 1 printed\n||1",
        ),
        (
            b"p(7). q(X/2) :- p(X). r(X/0) :- p(X). s(-7/2). t(a+1).".as_slice(),
            "0 {p(7), q(3), s(-3)}\n% complete, 1 printed\n||1",
        ),
        (
            b"e(a,b). e(b,c). r(a). r(Y) :- r(X), e(X,Y). p(X,X) :- r(X), X != a.".as_slice(),
            "0 {e(a,b), e(b,c), p(b,b), p(c,c), r(a), r(b), r(c)}\n% complete, 1 printed\n||1",
        ),
        (
            b"d(1). d(2). {in(X) : d(X)}. :- in(X), in(Y), X < Y. -in(X) :- d(X), not in(X).".as_slice(),
            "0 {d(1), d(2), in(1), -in(2)}\n{d(1), d(2), -in(1), in(2)}\n{d(1), d(2), -in(1), -in(2)}\n% complete, 3 printed\n||3",
        ),
    ];
    for (text, want) in rows {
        assert_eq!(rt; solved(rt.alloc(), text)?.as_str(), want);
    }
    Ok(())
}

#[test]
fn arithmetic_at_its_ends(rt: HostRuntime) -> Result<(), Fail> {
    let rows = [
        (
            b"p(9223372036854775807). q(X+1) :- p(X).".as_slice(),
            "12 % overflow line 1, 0 printed\n||0",
        ),
        (
            b"p(-9223372036854775808).".as_slice(),
            "0 {p(-9223372036854775808)}\n% complete, 1 printed\n||1",
        ),
        (
            b"t(0,a).\nt(N+1,f(X,X)) :- t(N,X), N < 25.".as_slice(),
            "13 % term too large line 2, 0 printed\n||0",
        ),
    ];
    for (text, want) in rows {
        assert_eq!(rt; solved(rt.alloc(), text)?.as_str(), want);
    }
    Ok(())
}

#[test]
fn an_overflow_holds_its_operation(rt: HostRuntime) -> Result<(), Fail> {
    let mut trace = MemTrace::new(rt.alloc(), List::new(rt.alloc()));
    let text = b"p(9223372036854775807). q(X+1) :- p(X).";
    match traced(rt.alloc(), text, &mut trace)? {
        Status::Overflow {
            line,
            op,
            left,
            right,
            printed,
        } => {
            assert_eq!(rt; line, 1);
            assert_eq!(rt; op, ArithOp::Add);
            assert_eq!(rt; left, i64::MAX);
            assert_eq!(rt; right, 1);
            assert_eq!(rt; printed, 0);
        }
        _ => assert!(rt; false),
    }
    Ok(())
}

#[test]
fn a_term_that_is_too_large_holds_its_size(rt: HostRuntime) -> Result<(), Fail> {
    let mut trace = MemTrace::new(rt.alloc(), List::new(rt.alloc()));
    let text = b"t(0,a). t(N+1,f(X,X)) :- t(N,X), N < 25.";
    match traced(rt.alloc(), text, &mut trace)? {
        Status::TermTooLarge {
            line,
            size,
            printed,
        } => {
            assert_eq!(rt; line, 1);
            assert_eq!(rt; size, 2_097_151);
            assert_eq!(rt; printed, 0);
        }
        _ => assert!(rt; false),
    }
    Ok(())
}

#[test]
fn unsafe_statements_are_refused_by_line(rt: HostRuntime) -> Result<(), Fail> {
    let rows = [
        (
            b"p(X) :- not q(X).".as_slice(),
            "3 |alpha: line 1: variable X is not bound\n|0",
        ),
        (
            b"a.\np(X).".as_slice(),
            "3 |alpha: line 2: variable X is not bound\n|0",
        ),
    ];
    for (text, want) in rows {
        assert_eq!(rt; solved(rt.alloc(), text)?.as_str(), want);
    }
    Ok(())
}

#[test]
fn nesting_has_a_limit(rt: HostRuntime) -> Result<(), Fail> {
    let alloc = rt.alloc();
    let mut text = Vec::new(alloc);
    text.push(b'p')?;
    text.resize(202, b'(')?;
    assert_eq!(rt;
        solved(alloc, &text)?.as_str(),
        "3 |alpha: nested too deep at byte 201\n|0"
    );
    Ok(())
}

// What a run says, of which nothing fails but the first reading of a file; and whether no file was read.
fn ran_unread(alloc: Global, words: &str) -> Result<(String, bool), Fail> {
    let words = owned(alloc, words)?;
    let mut shelf = MemShelf::new(alloc, List::from_slice(alloc, &[0])?);
    shelf.add(alloc, b"p.lp", b"a.")?;
    let mut out = MemSink::new(alloc, List::new(alloc), 0);
    let mut err = MemSink::new(alloc, List::new(alloc), 0);
    let mut trace = MemTrace::new(alloc, List::new(alloc));
    let status = run(alloc, &words, &mut shelf, &mut out, &mut err, &mut trace);
    let message = std::str::from_utf8(err.bytes()).unwrap_or("no text");
    let said = format!(in alloc; "{} {message}", status.code())?;
    let is_first = matches!(shelf.read(alloc, b"p.lp", 2), Err(ReadStop::Failed));
    Ok((said, is_first && out.bytes().is_empty()))
}

#[test]
fn words_that_are_refused(rt: HostRuntime) -> Result<(), Fail> {
    let usage =
        "2 alpha: usage: alpha solve [--after FILE] [--limit N] [--conflicts N] [--instances N] [--trace FILE] FILE... or alpha sample SEED N\n";
    let rows = [
        "",
        "solve",
        "solve --limit 2",
        "solve --help p.lp",
        "solve -x p.lp",
        "solve p.lp --after",
        "solve --limit 1 --limit 2 p.lp",
        "solve --limit 0 p.lp",
        "solve --limit 01 p.lp",
        "solve --conflicts 10000000000000 p.lp",
        "solve --instances 10000000000000 p.lp",
        "solve --instances 00000000000001 p.lp",
        "prove p.lp",
        "sample 1 0",
    ];
    for words in rows {
        let (said, is_unread) = ran_unread(rt.alloc(), words)?;
        assert_eq!(rt; said.as_str(), usage, "at {words}");
        assert!(rt; is_unread, "at {words}");
    }
    Ok(())
}

#[test]
fn files_of_a_program_are_one_text(rt: HostRuntime) -> Result<(), Fail> {
    let rows = [
        (
            "solve p q",
            b"a".as_slice(),
            b".".as_slice(),
            "0 {a}\n% complete, 1 printed\n||1",
        ),
        (
            "solve p q",
            b"a. % and so on".as_slice(),
            b"b :- a.".as_slice(),
            "0 {a, b}\n% complete, 1 printed\n||1",
        ),
        (
            "solve p none q",
            b"a.".as_slice(),
            b"b".as_slice(),
            "6 |alpha: cannot read none\n|0",
        ),
    ];
    for (words, first, second, want) in rows {
        let files = [(b"p".as_slice(), first), (b"q".as_slice(), second)];
        assert_eq!(rt; ran_well(rt.alloc(), words, &files)?.as_str(), want);
    }
    Ok(())
}

#[test]
fn sets_that_are_listed_are_left_out(rt: HostRuntime) -> Result<(), Fail> {
    let rows = [
        (
            b"a :- not b. b :- not a.".as_slice(),
            b"{ a }\n{b".as_slice(),
            "0 {b}\n% complete, 1 printed\n||1",
        ),
        (
            b"a :- not b. b :- not a.".as_slice(),
            b"% two sets\n\n{b}\n{a}".as_slice(),
            "0 % complete, 0 printed\n||0",
        ),
        (
            b"{a}. b.".as_slice(),
            b"{b,a}\n{a, b}\n".as_slice(),
            "0 {b}\n% complete, 1 printed\n||1",
        ),
        (
            b"{a}. b.".as_slice(),
            b"{x\n".as_slice(),
            "4 |alpha: line 1 of the after file is not a set\n|0",
        ),
        (
            b"{a}. b.".as_slice(),
            b"{a}\n\n{b}, {x}\n{b\n".as_slice(),
            "4 |alpha: line 3 of the after file is not a set\n|0",
        ),
        (
            b"{a} <= 1.".as_slice(),
            b"{x\n".as_slice(),
            "3 |alpha: line 1: not built yet\n|0",
        ),
    ];
    for (program, listed, want) in rows {
        let files = [(b"p.lp".as_slice(), program), (b"s".as_slice(), listed)];
        let got = ran_well(rt.alloc(), "solve --after s p.lp", &files)?;
        assert_eq!(rt; got.as_str(), want);
    }
    let missing = ran_well(rt.alloc(), "solve --after s p.lp", &[(b"p.lp", b"a.")])?;
    assert_eq!(rt; missing.as_str(), "6 |alpha: cannot read s\n|0");
    Ok(())
}

// What a run writes in which nothing fails.
fn written(alloc: Global, words: &str, files: &[(&[u8], &[u8])]) -> Result<Vec<u8>, Fail> {
    let words = owned(alloc, words)?;
    let mut shelf = shelf_of(alloc, files)?;
    let mut out = MemSink::new(alloc, List::new(alloc), 0);
    let mut err = MemSink::new(alloc, List::new(alloc), 0);
    let mut trace = MemTrace::new(alloc, List::new(alloc));
    let _status = run(alloc, &words, &mut shelf, &mut out, &mut err, &mut trace);
    Ok(out.bytes().to_vec(alloc)?)
}

// How often a text has this line. Its last line may have no line feed.
fn times(text: &[u8], line: &str) -> usize {
    let text = std::str::from_utf8(text).unwrap_or("");
    text.split('\n').filter(|one| *one == line).count()
}

// However an output was cut off, a run that goes on after it writes each of the other sets once.
#[test]
fn a_run_goes_on_after_each_front_of_its_output(rt: HostRuntime) -> Result<(), Fail> {
    let alloc = rt.alloc();
    let program = b"{a; b}.".as_slice();
    let whole = written(alloc, "solve p.lp", &[(b"p.lp", program)])?;
    for end in 0..=whole.len() {
        let front = whole.get(..end).unwrap_or(b"");
        let files = [(b"p.lp".as_slice(), program), (b"s".as_slice(), front)];
        let rest = written(alloc, "solve --after s p.lp", &files)?;
        for line in ["{}", "{a}", "{b}", "{a, b}"] {
            let both = (times(front, line), times(&rest, line));
            assert!(rt; both == (1, 0) || both == (0, 1), "{line} at {end}");
        }
    }
    Ok(())
}

// The code of a run whose calls of the trace of these numbers fail, the name that the trace was given, and how many events.
fn named(alloc: Global, words: &str, text: &[u8], untraced: &[u64]) -> Result<String, Fail> {
    let words = owned(alloc, words)?;
    let mut shelf = shelf_of(alloc, &[(b"p.lp", text)])?;
    let mut out = MemSink::new(alloc, List::new(alloc), 0);
    let mut err = MemSink::new(alloc, List::new(alloc), 0);
    let mut trace = MemTrace::new(alloc, List::from_slice(alloc, untraced)?);
    let status = run(alloc, &words, &mut shelf, &mut out, &mut err, &mut trace);
    let name = match trace.name() {
        Some(name) => std::str::from_utf8(name).unwrap_or("no text"),
        None => "none",
    };
    let sets = shown(trace.events());
    Ok(format!(in alloc; "{} {name} {sets}", status.code())?)
}

#[test]
fn a_journal_is_begun_where_a_search_is(rt: HostRuntime) -> Result<(), Fail> {
    let rows = [
        ("solve p.lp", b"a.".as_slice(), [].as_slice(), "0 none 1"),
        (
            "solve --trace t p.lp",
            b"a.".as_slice(),
            [].as_slice(),
            "0 t 1",
        ),
        (
            "solve --trace t p.lp",
            b"a".as_slice(),
            [].as_slice(),
            "3 none 0",
        ),
        (
            "solve --trace t --after s p.lp",
            b"a.".as_slice(),
            [].as_slice(),
            "6 none 0",
        ),
        (
            "solve --trace t p.lp",
            b"a.".as_slice(),
            [0].as_slice(),
            "8 none 0",
        ),
        (
            "solve --trace t p.lp",
            b"a.".as_slice(),
            [1].as_slice(),
            "8 t 0",
        ),
    ];
    for (words, text, untraced, want) in rows {
        assert_eq!(rt; named(rt.alloc(), words, text, untraced)?.as_str(), want);
    }
    Ok(())
}

#[test]
fn writes_that_fail_keep_what_was_written(rt: HostRuntime) -> Result<(), Fail> {
    let rows = [
        ([0].as_slice(), 2, "7 {a|alpha: cannot write\n|0"),
        ([0].as_slice(), 9, "7 {a}\n|alpha: cannot write\n|0"),
        ([1].as_slice(), 3, "7 {a}\n% c|alpha: cannot write\n|1"),
        ([2].as_slice(), 3, "0 {a}\n% complete, 1 printed\n||1"),
    ];
    for (failing, cut, want) in rows {
        let case = Case {
            words: "solve p.lp",
            files: &[(b"p.lp", b"a.")],
            failing,
            cut,
            untraced: &[],
        };
        assert_eq!(rt; ran(rt.alloc(), &case)?.as_str(), want);
    }
    Ok(())
}

#[test]
fn a_write_that_fails_between_two_sets(rt: HostRuntime) -> Result<(), Fail> {
    let case = Case {
        words: "solve p.lp",
        files: &[(b"p.lp", b"a :- not b. b :- not a.")],
        failing: &[1],
        cut: 2,
        untraced: &[],
    };
    let got = ran(rt.alloc(), &case)?;
    let got = got.as_str();
    assert!(rt;
        got == "7 {a}\n{b|alpha: cannot write\n|1" || got == "7 {b}\n{a|alpha: cannot write\n|1"
    );
    Ok(())
}

#[test]
fn a_trace_that_fails_ends_the_run(rt: HostRuntime) -> Result<(), Fail> {
    let case = Case {
        words: "solve p.lp",
        files: &[(b"p.lp", b"a :- not b. b :- not a.")],
        failing: &[],
        cut: 0,
        untraced: &[1],
    };
    assert_eq!(rt;
        ran(rt.alloc(), &case)?.as_str(),
        "8 |alpha: cannot write the trace\n|0"
    );
    Ok(())
}

// Whether the status has this code and this message.
fn speaks_so(alloc: Global, status: &Status, code: u8, want: &[u8]) -> bool {
    match message(alloc, status) {
        Ok(text) => status.code() == code && text.as_slice() == want,
        Err(_) => false,
    }
}

#[test]
fn messages_of_programs_that_are_refused(rt: HostRuntime) -> Result<(), Fail> {
    let alloc = rt.alloc();
    let refused = Status::Refused(Refusal::Unsafe {
        line: 12,
        variable: Name::from_bytes(alloc, b"X1")?,
    });
    assert!(rt;
        speaks_so(
            alloc,
            &refused,
            3,
            b"alpha: line 12: variable X1 is not bound\n"
        )
    );
    let recursive = Status::Refused(Refusal::AggregateRecursive {
        line: 2,
        name: Name::from_bytes(alloc, b"-p")?,
    });
    assert!(rt;
        speaks_so(
            alloc,
            &recursive,
            3,
            b"alpha: line 2: the aggregate over -p depends on its own head\n"
        )
    );
    Ok(())
}
