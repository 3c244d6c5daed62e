use crate::{
    AtomId, DirShelf, Event, How, List, Lit, Maker, MemShelf, MemSink, MemTrace, Name, NoTrace,
    Node, NogoodId, Pattern, PatternTerm, Pred, ReadStop, Shelf, Sink, SinkStop, StdSink, Step,
    TermId, Trace, TraceStop,
};
use std::alloc::Global;
use std::fs::File;
use std::test::Fail;

fn numbers(alloc: Global, items: &[u64]) -> Result<List<u64>, Fail> {
    Ok(List::from_slice(alloc, items)?)
}

// What a shelf answers for a name, as text.
fn read<F: Shelf>(
    alloc: Global,
    shelf: &mut F,
    name: &[u8],
    at_most: usize,
) -> Result<String, Fail> {
    match shelf.read(alloc, name, at_most) {
        Ok(bytes) => Ok(format!(in alloc; "{bytes:?}")?),
        Err(stop) => Ok(format!(in alloc; "{stop:?}")?),
    }
}

#[test]
fn a_shelf_in_memory_fails_where_it_is_told_to(rt: HostRuntime) -> Result<(), Fail> {
    let alloc = rt.alloc();
    let mut shelf = MemShelf::new(alloc, numbers(alloc, &[1])?);
    shelf.add(alloc, b"a", b"xy")?;
    shelf.add(alloc, b"a", b"z")?;
    let rows = [
        (b"a".as_slice(), 1, "[122]"),
        (b"a".as_slice(), 1, "Failed"),
        (b"a".as_slice(), 0, "TooLong"),
        (b"b".as_slice(), 1, "Failed"),
    ];
    for (name, at_most, want) in rows {
        assert_eq!(rt; read(alloc, &mut shelf, name, at_most)?.as_str(), want);
    }
    Ok(())
}

#[test]
fn a_sink_in_memory_takes_a_part_where_it_fails(rt: HostRuntime) -> Result<(), Fail> {
    let alloc = rt.alloc();
    let mut sink = MemSink::new(alloc, numbers(alloc, &[1, 2])?, 2);
    assert_eq!(rt; sink.write(b"abc"), Ok(()));
    assert_eq!(rt; sink.write(b""), Ok(()));
    assert_eq!(rt; sink.write(b"def"), Err(SinkStop::Failed));
    assert_eq!(rt; sink.write(b"g"), Err(SinkStop::Failed));
    assert_eq!(rt; sink.write(b"h"), Ok(()));
    assert_eq!(rt; sink.bytes(), b"abcdegh".as_slice());
    Ok(())
}

#[test]
fn names_and_lists_hold_what_they_are_given(rt: HostRuntime) -> Result<(), Fail> {
    let alloc = rt.alloc();
    let name = Name::from_bytes(alloc, b"ab")?;
    assert_eq!(rt; name.as_bytes(), b"ab".as_slice());
    let mut list = List::new(alloc);
    list.push(3u64)?;
    list.push(5u64)?;
    assert_eq!(rt; list.as_slice(), [3u64, 5].as_slice());
    let mut trace = NoTrace;
    assert!(rt; trace.begin(b"t").is_ok());
    assert!(rt;
        trace
            .note(&Event::Struck {
                nogood: NogoodId(0)
            })
            .is_ok()
    );
    Ok(())
}

#[test]
fn a_missing_file_is_a_fault(rt: HostRuntime) -> Result<(), Fail> {
    let alloc = rt.alloc();
    let mut shelf = DirShelf::new(rt);
    let missing = shelf.read(alloc, b"no/such/file", 8);
    let not_text = shelf.read(alloc, b"\xff", 8);
    let mut answers = String::new(alloc);
    answers.push_str(if let Err(ReadStop::Failed) = missing {
        "failed"
    } else {
        "other"
    })?;
    answers.push_str(if let Err(ReadStop::Failed) = not_text {
        ", failed"
    } else {
        ", other"
    })?;
    if answers.as_str() == "failed, failed" {
        return Ok(());
    }
    Err(Fail::from(ReadStop::TooLong))
}

// Whether the answer is these bytes.
fn is_read(answer: Result<Vec<u8>, ReadStop>, want: &[u8]) -> bool {
    match answer {
        Ok(bytes) => bytes.as_slice() == want,
        Err(_) => false,
    }
}

#[test]
fn a_file_holds_what_was_written_to_it(rt: HostRuntime) -> Result<(), Fail> {
    let alloc = rt.alloc();
    let piece = [b'x'; 5000];
    let mut sink = StdSink::new(File::create(&rt, "written")?);
    assert_eq!(rt; sink.write(piece.as_slice()), Ok(()));
    let mut shelf = DirShelf::new(rt);
    let whole = is_read(shelf.read(alloc, b"written", 5000), piece.as_slice());
    let too_long = matches!(shelf.read(alloc, b"written", 4999), Err(ReadStop::TooLong));
    if whole && too_long {
        return Ok(());
    }
    Err(Fail::from(ReadStop::TooLong))
}

// A writer that takes one byte at a time, and nothing once it has three.
#[derive(Drop)]
struct Slow {
    taken: u64,
}

impl std::io::Write for Slow {
    fn write(&mut self, piece: &[u8]) -> std::io::Result<usize> {
        if self.taken >= 3 || piece.is_empty() {
            return Ok(0);
        }
        self.taken += 1;
        Ok(1)
    }

    fn flush(&mut self) -> std::io::Result<()> {
        Ok(())
    }
}

#[test]
fn a_writer_that_takes_nothing_is_a_fault(rt: HostRuntime) -> Result<(), Fail> {
    let mut sink = StdSink::new(Slow { taken: 0 });
    assert_eq!(rt; sink.write(b"ab"), Ok(()));
    assert_eq!(rt; sink.write(b"cd"), Err(SinkStop::Failed));
    assert_eq!(rt; sink.write(b""), Ok(()));
    Ok(())
}

#[test]
fn a_trace_in_memory_fails_where_it_is_told_to(rt: HostRuntime) -> Result<(), Fail> {
    let alloc = rt.alloc();
    let mut trace = MemTrace::new(alloc, numbers(alloc, &[1, 2])?);
    assert_eq!(rt; trace.note(&Event::Back { level: 4 }), Ok(()));
    assert_eq!(rt;
        trace.note(&Event::Back { level: 5 }),
        Err(TraceStop::Failed)
    );
    assert_eq!(rt; trace.begin(b"j"), Err(TraceStop::Failed));
    assert!(rt; trace.name().is_none());
    assert_eq!(rt; trace.begin(b"k"), Ok(()));
    assert_eq!(rt; trace.note(&Event::Back { level: 6 }), Ok(()));
    assert!(rt; trace.name() == Some(b"k".as_slice()));
    assert!(rt; levels_are(trace.events(), &[4, 6]));
    Ok(())
}

// Whether the events are `Back` to these levels.
fn levels_are(events: &[Event], levels: &[u32]) -> bool {
    let mut at = 0;
    for event in events {
        let Event::Back { level } = event else {
            return false;
        };
        if levels.get(at) != Some(level) {
            return false;
        }
        at += 1;
    }
    at == levels.len()
}

#[test]
fn a_name_a_node_and_a_predicate_are_copied(rt: HostRuntime) -> Result<(), Fail> {
    let alloc = rt.alloc();
    let name = Name::from_bytes(alloc, b"f")?;
    let args = List::from_slice(alloc, &[TermId(3), TermId(1)])?;
    let node = Node::Fun(name.copy(alloc)?, args);
    let pred = Pred::User {
        negated: true,
        name,
        arity: 2,
    };
    assert!(rt; node.copy(alloc)? == node);
    assert!(rt; pred.copy(alloc)? == pred);
    Ok(())
}

// Whether the maker is this step with this key.
fn is_added(maker: &Maker, key: &[TermId]) -> bool {
    match maker {
        Maker::Step(
            Step::Add {
                agg: 1,
                plus: false,
                k: 2,
                sum: -7,
                key: copied,
            },
        ) => copied.as_slice() == key,
        _ => false,
    }
}

#[test]
fn a_maker_is_copied(rt: HostRuntime) -> Result<(), Fail> {
    let alloc = rt.alloc();
    let maker = Maker::Step(Step::Add {
        agg: 1,
        plus: false,
        k: 2,
        sum: -7,
        key: List::from_slice(alloc, &[TermId(5)])?,
    });
    assert!(rt; is_added(&maker.copy(alloc)?, &[TermId(5)]));
    Ok(())
}

// The pattern q(f(_0)), but for atom 9.
fn small_pattern(alloc: Global) -> Result<Pattern, Fail> {
    let mut parts = List::new(alloc);
    parts.push(PatternTerm::Hole(0))?;
    let mut args = List::new(alloc);
    args.push(PatternTerm::Fun(Name::from_bytes(alloc, b"f")?, parts))?;
    Ok(Pattern {
        pred: Pred::User {
            negated: false,
            name: Name::from_bytes(alloc, b"q")?,
            arity: 1,
        },
        args,
        except: List::from_slice(alloc, &[AtomId(9)])?,
    })
}

// Whether the terms are f(_0) alone.
fn is_small(terms: &[PatternTerm]) -> bool {
    match terms {
        [PatternTerm::Fun(name, parts)] => match parts.as_slice() {
            [PatternTerm::Hole(0)] => name.as_bytes() == b"f".as_slice(),
            _ => false,
        },
        _ => false,
    }
}

#[test]
fn a_pattern_is_copied(rt: HostRuntime) -> Result<(), Fail> {
    let alloc = rt.alloc();
    let pattern = small_pattern(alloc)?;
    let copied = pattern.copy(alloc)?;
    assert!(rt; copied.pred == pattern.pred);
    assert!(rt; copied.except.as_slice() == pattern.except.as_slice());
    assert!(rt; is_small(copied.args.as_slice()));
    Ok(())
}

// Whether the event is that of this nogood with one pattern.
fn is_learned(event: &Event) -> bool {
    match event {
        Event::Learned {
            nogood: NogoodId(2),
            how: How::Justified,
            lits,
            cover,
        } => lits.len() == 1 && cover.len() == 1,
        _ => false,
    }
}

#[test]
fn an_event_is_copied(rt: HostRuntime) -> Result<(), Fail> {
    let alloc = rt.alloc();
    let lit = Lit {
        atom: AtomId(3),
        positive: true,
    };
    let mut cover = List::new(alloc);
    cover.push(small_pattern(alloc)?)?;
    let event = Event::Learned {
        nogood: NogoodId(2),
        how: How::Justified,
        lits: List::from_slice(alloc, &[lit])?,
        cover,
    };
    assert!(rt; is_learned(&event.copy(alloc)?));
    Ok(())
}
