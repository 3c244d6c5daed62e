use crate::{FileTrace, event_text};
use alpha_outside::{
    AtomId, Event, How, InstId, List, Lit, Maker, Name, NogoodId, Pattern, PatternTerm, Pred, Step,
    TermId, Trace, TraceStop,
};
use std::alloc::Global;
use std::fs;
use std::test::Fail;

// Whether the event has this line.
fn has_line(alloc: Global, event: &Event, line: &[u8]) -> bool {
    match event_text(alloc, event) {
        Ok(text) => text.as_slice() == line,
        Err(_) => false,
    }
}

#[test]
fn a_step_stands_behind_its_instance(rt: HostRuntime) -> Result<(), Fail> {
    let alloc = rt.alloc();
    let made = Event::Made {
        inst: InstId(9),
        maker: Maker::Step(Step::Skip {
            agg: 1,
            plus: false,
            k: 2,
            sum: -7,
            key: List::from_slice(alloc, &[TermId(4)])?,
        }),
    };
    assert!(rt; has_line(alloc, &made, b"made 9 skip 1 - 2 -7 4\n"));
    Ok(())
}

// It covers the atoms `-p` of `f` of anything and term 6.
fn pattern(alloc: Global) -> Result<Pattern, Fail> {
    let mut inner = List::new(alloc);
    inner.push(PatternTerm::Hole(0))?;
    inner.push(PatternTerm::Known(TermId(6)))?;
    let mut args = List::new(alloc);
    args.push(PatternTerm::Fun(Name::from_bytes(alloc, b"f")?, inner))?;
    let pred = Pred::User {
        negated: true,
        name: Name::from_bytes(alloc, b"p")?,
        arity: 1,
    };
    let except = List::from_slice(alloc, &[AtomId(7)])?;
    Ok(Pattern { pred, args, except })
}

#[test]
fn a_cover_stands_behind_its_nogood(rt: HostRuntime) -> Result<(), Fail> {
    let alloc = rt.alloc();
    let mut cover = List::new(alloc);
    cover.push(pattern(alloc)?)?;
    let lit = Lit {
        atom: AtomId(3),
        positive: true,
    };
    let learned = Event::Learned {
        nogood: NogoodId(15),
        how: How::Justified,
        lits: List::from_slice(alloc, &[lit])?,
        cover,
    };
    assert!(rt;
        has_line(
            alloc,
            &learned,
            b"learned 15 justified +3 | -p f(?0,#6) / 7\n"
        )
    );
    Ok(())
}

// Whether the trace takes this set.
fn takes_a_set<T: Trace>(alloc: Global, trace: &mut T) -> bool {
    let atoms = List::new(alloc);
    trace.note(&Event::Shown { atoms }).is_ok()
}

#[test]
fn a_file_takes_lines_or_a_fault_shows(rt: HostRuntime) -> Result<(), Fail> {
    let alloc = rt.alloc();
    let name = "/tmp/alpha_journal_file_test";
    let mut trace = FileTrace::new(alloc, rt);
    let dropped = takes_a_set(alloc, &mut trace);
    let missing = trace.begin(b"no/such/folder/journal").is_ok();
    let not_text = trace.begin(b"\xff").is_ok();
    let full = trace.begin(b"/dev/full").is_ok() && takes_a_set(alloc, &mut trace);
    let begun = trace.begin(name.as_bytes()).is_ok();
    let noted = trace.note(&Event::Back { level: 2 }).is_ok() && trace.finish().is_ok();
    let written = fs::read(&rt, name)?;
    fs::remove_file(&rt, name)?;
    if dropped
        && !missing
        && !not_text
        && !full
        && begun
        && noted
        && written.as_slice() == b"back 2\n".as_slice()
    {
        return Ok(());
    }
    Err(Fail::from(TraceStop::Failed))
}
