ghost use Rattle.std.specs.Prelude.{◌≡◌, ◌↔◌, ◌<◌, [], None, false, IfOk};
ghost use Rattle.lists.specs.Lists.{Each};
ghost use Rattle.alpha_outside.specs.declared.kinds.RuleKind.TheVariants.{Constraint};
ghost use Rattle.asp_syntax.specs.WellFormed.{IsId};
ghost use Rattle.core_rules.specs.CoreForm.{IsFitting, HasNoArithmetic, IsHead, IsRuleForm};
ghost use Rattle.core_rules.specs.Names.{IsNamedAtom, IsNamedHead, IsNamedRule, IsNamedTerm};
ghost use Rattle.core_rules.specs.Variables.{has_arithmetic, variables, atom_variables, head_variables};
ghost use Rattle.search_rules.specs.Stage.{IsSearchable};

use crate::{End, SearchFault, Settings, search};
use after_book::AfterBook;
use alpha_outside::{Event, How, List, MemSink, MemTrace, Name, OutOfMemory, Pred, RuleKind};
use core_rules::{Core, CoreAtom, CoreRule, CoreTerm};
use std::alloc::Global;
use std::test::Fail;

// An atom: `a`, `b`, `p(f(1))`, `q("a b",-2)` or `-r(g)`.
#[derive(Clone, Copy)]
enum Letter {
    A,
    B,
    P,
    Q,
    R,
}

use Letter::{A, B, P, Q, R};

// What stands in the head of a rule.
#[derive(Clone, Copy)]
enum Top {
    Fact(Letter),
    Chosen(Letter),
    Nothing,
}

use Top::{Chosen, Fact, Nothing};

// A rule: its head, its positive atoms and its negative atoms.
type Line<'a> = (Top, &'a [Letter], &'a [Letter]);

// One search: its rules, how far it may go, which writes to the sink fail, having taken how much, and which notes fail.
#[derive(Clone, Copy)]
struct Case<'a> {
    lines: &'a [Line<'a>],
    limit: u64,
    conflicts: u64,
    instances: u64,
    failing: &'a [u64],
    cut: usize,
    untraced: &'a [u64],
}

// The term `f(1)`.
fn call(alloc: Global) -> Result<CoreTerm, OutOfMemory>
    ensures { IfOk result (λ t. (has_arithmetic t ≡ false) × IsNamedTerm t × (variables t ≡ [])) }
{
    let name = Name::from_bytes(alloc, b"f")?;
    let mut args = List::new(alloc);
    args.push(CoreTerm::Int(1))?;
    Ok(CoreTerm::Fun(name, args))
}

// The atom of that name without arguments.
fn bare(alloc: Global, name: &[u8]) -> Result<CoreAtom, OutOfMemory>
    requires { IsId name.now }
    ensures { IfOk result (λ a. IsFitting [] a × HasNoArithmetic a × IsNamedAtom a × (atom_variables a ≡ [])) }
{
    let name = Name::from_bytes(alloc, name)?;
    Ok(CoreAtom {
        pred: Pred::User {
            negated: false,
            name,
            arity: 0,
        },
        args: List::new(alloc),
    })
}

fn p_atom(alloc: Global) -> Result<CoreAtom, OutOfMemory>
    ensures { IfOk result (λ a. IsFitting [] a × HasNoArithmetic a × IsNamedAtom a × (atom_variables a ≡ [])) }
{
    let name = Name::from_bytes(alloc, b"p")?;
    let mut args = List::new(alloc);
    args.push(call(alloc)?)?;
    Ok(CoreAtom {
        pred: Pred::User {
            negated: false,
            name,
            arity: 1,
        },
        args,
    })
}

fn q_atom(alloc: Global) -> Result<CoreAtom, OutOfMemory>
    ensures { IfOk result (λ a. IsFitting [] a × HasNoArithmetic a × IsNamedAtom a × (atom_variables a ≡ [])) }
{
    let name = Name::from_bytes(alloc, b"q")?;
    let mut args = List::new(alloc);
    args.push(CoreTerm::Text(Name::from_bytes(alloc, b"a b")?))?;
    args.push(CoreTerm::Int(-2))?;
    Ok(CoreAtom {
        pred: Pred::User {
            negated: false,
            name,
            arity: 2,
        },
        args,
    })
}

fn r_atom(alloc: Global) -> Result<CoreAtom, OutOfMemory>
    ensures { IfOk result (λ a. IsFitting [] a × HasNoArithmetic a × IsNamedAtom a × (atom_variables a ≡ [])) }
{
    let name = Name::from_bytes(alloc, b"r")?;
    let mut args = List::new(alloc);
    args.push(CoreTerm::Symbol(Name::from_bytes(alloc, b"g")?))?;
    Ok(CoreAtom {
        pred: Pred::User {
            negated: true,
            name,
            arity: 1,
        },
        args,
    })
}

fn atom(alloc: Global, letter: Letter) -> Result<CoreAtom, OutOfMemory>
    ensures { IfOk result (λ a. IsFitting [] a × HasNoArithmetic a × IsNamedAtom a × (atom_variables a ≡ [])) }
{
    match letter {
        A => bare(alloc, b"a"),
        B => bare(alloc, b"b"),
        P => p_atom(alloc),
        Q => q_atom(alloc),
        R => r_atom(alloc),
    }
}

fn atoms(alloc: Global, letters: &[Letter]) -> Result<List<CoreAtom>, OutOfMemory>
    ensures { IfOk result (Each (λ a. IsFitting [] a × HasNoArithmetic a × IsNamedAtom a × (atom_variables a ≡ []))) }
{
    let mut atoms = List::new(alloc);
    for letter in letters {
        atoms.push(atom(alloc, *letter)?)?;
    }
    Ok(atoms)
}

// The kind of a rule with this head, and the head.
fn head(alloc: Global, top: Top) -> Result<(RuleKind, Option<CoreAtom>), OutOfMemory>
    ensures fits { IfOk result (λ h. IsHead [] h.1 × IsNamedHead h.1 × (head_variables h.1 ≡ [])) }
    ensures kind { IfOk result (λ h. (h.1 ≡ None) ↔ (h.0 ≡ Constraint)) }
{
    match top {
        Fact(letter) => Ok((RuleKind::Plain, Some(atom(alloc, letter)?))),
        Chosen(letter) => Ok((RuleKind::Choice, Some(atom(alloc, letter)?))),
        Nothing => Ok((RuleKind::Constraint, None)),
    }
}

fn rule(alloc: Global, line: Line<'_>) -> Result<CoreRule, OutOfMemory>
    ensures { IfOk result (λ r. IsRuleForm [] r × IsNamedRule r) }
{
    let (top, pos, neg) = line;
    let (kind, head) = head(alloc, top)?;
    let pos = atoms(alloc, pos)?;
    let neg = atoms(alloc, neg)?;
    Ok(CoreRule {
        kind,
        head,
        pos,
        neg,
        tests: List::new(alloc),
        defined: List::new(alloc),
        variables: 0,
        line: 1,
    })
}

fn core(alloc: Global, lines: &[Line<'_>]) -> Result<Core, OutOfMemory>
    ensures { IfOk result IsSearchable }
{
    let mut rules = List::new(alloc);
    for line in lines {
        rules.push(rule(alloc, *line)?)?;
    }
    Ok(Core {
        rules,
        aggregates: List::new(alloc),
    })
}

// How a search ended, in a word.
fn word(answer: &Result<End, SearchFault>) -> &'static str {
    match answer {
        Ok(End::Finished { .. }) => "finished",
        Ok(End::LimitReached { .. }) => "limit",
        Ok(End::Conflicts { .. }) => "conflicts",
        Ok(End::Instances { .. }) => "instances",
        Ok(End::Overflow { .. }) => "overflow",
        Ok(End::TermTooLarge { .. }) => "term too large",
        Err(SearchFault::WriteFault) => "write fault",
        Err(SearchFault::TraceFault) => "trace fault",
        Err(SearchFault::OutOfMemory) => "out of memory",
    }
}

// How many sets it says were written.
fn printed(answer: &Result<End, SearchFault>) -> u64 {
    match answer {
        Ok(End::Finished { printed }) => *printed,
        Ok(End::LimitReached { printed }) => *printed,
        Ok(End::Conflicts { printed }) => *printed,
        Ok(End::Instances { printed }) => *printed,
        Ok(End::Overflow { printed, .. }) => *printed,
        Ok(End::TermTooLarge { printed, .. }) => *printed,
        Err(_) => 0,
    }
}

// How many sets the trace was told of.
fn shown(events: &[Event]) -> usize {
    events
        .iter()
        .filter(|event| matches!(event, Event::Shown { .. }))
        .count()
}

// How many nogoods the trace was told of that are justified by one atom.
fn justified(events: &[Event]) -> usize {
    events
        .iter()
        .filter(|event| match event {
            Event::Learned { how, cover, .. } => *how == How::Justified && cover.len() == 1,
            _ => false,
        })
        .count()
}

// How the search ended, how many sets it says were written, the bytes that were, and how many sets the trace was told of.
fn searched(alloc: Global, case: &Case<'_>) -> Result<String, Fail>
    requires { 0 < case.now.limit }
{
    let settings = Settings {
        limit: case.limit,
        conflicts: case.conflicts,
        instances: case.instances,
    };
    let core = core(alloc, case.lines)?;
    let mut out = MemSink::new(alloc, List::from_slice(alloc, case.failing)?, case.cut);
    let mut trace = MemTrace::new(alloc, List::from_slice(alloc, case.untraced)?);
    let book = AfterBook::new(alloc);
    let answer = search(alloc, core, settings, &book, &mut out, &mut trace);
    let bytes = std::str::from_utf8(out.bytes()).unwrap_or("no text");
    let sets = shown(trace.events());
    Ok(format!(in alloc; "{} {}|{bytes}|{sets}", word(&answer), printed(&answer))?)
}

// `a :- not b. b :- not a.`
const EACH_BLOCKS_THE_OTHER: [Line<'static>; 2] = [(Fact(A), &[], &[B]), (Fact(B), &[], &[A])];

// `a :- not a.`
const DENIES_ITSELF: [Line<'static>; 1] = [(Fact(A), &[], &[A])];

// `a :- b. b :- a. :- not a.`
const SUPPORTS_ITSELF: [Line<'static>; 3] = [
    (Fact(A), &[B], &[]),
    (Fact(B), &[A], &[]),
    (Nothing, &[], &[A]),
];

// `:- not a. a :- a.`
const WANTS_SUPPORT: [Line<'static>; 2] = [(Nothing, &[], &[A]), (Fact(A), &[A], &[])];

// `p(f(1)). q("a b",-2) :- p(f(1)), not -r(g).`
const HAS_TERMS: [Line<'static>; 2] = [(Fact(P), &[], &[]), (Fact(Q), &[P], &[R])];

// `{ -r(g) }. :- not -r(g).`
const CHOSEN_AND_WANTED: [Line<'static>; 2] = [(Chosen(R), &[], &[]), (Nothing, &[], &[R])];

// `b :- not a.`
const NOTHING_GIVES_A: [Line<'static>; 1] = [(Fact(B), &[], &[A])];

// `a. :- a.`
const BROKEN: [Line<'static>; 2] = [(Fact(A), &[], &[]), (Nothing, &[A], &[])];

// `a :- not b. b :- not a. :- b.`
const ONE_IS_OUT: [Line<'static>; 3] = [
    (Fact(A), &[], &[B]),
    (Fact(B), &[], &[A]),
    (Nothing, &[B], &[]),
];

// `a :- not b. b :- not a. :- b, not a.`
const ONE_HAS_TO_BE: [Line<'static>; 3] = [
    (Fact(A), &[], &[B]),
    (Fact(B), &[], &[A]),
    (Nothing, &[B], &[A]),
];

#[test]
fn what_is_in_the_sets(rt: HostRuntime) -> Result<(), Fail> {
    let rows = [
        ([].as_slice(), "finished 1|{}\n|1"),
        (
            HAS_TERMS.as_slice(),
            "finished 1|{p(f(1)), q(\"a b\",-2)}\n|1",
        ),
        (CHOSEN_AND_WANTED.as_slice(), "finished 1|{-r(g)}\n|1"),
        (ONE_IS_OUT.as_slice(), "finished 1|{a}\n|1"),
        (BROKEN.as_slice(), "finished 0||0"),
        (DENIES_ITSELF.as_slice(), "finished 0||0"),
        (SUPPORTS_ITSELF.as_slice(), "finished 0||0"),
        (WANTS_SUPPORT.as_slice(), "finished 0||0"),
    ];
    for (lines, want) in rows {
        let case = Case {
            lines,
            limit: 5,
            conflicts: 5,
            instances: 1_000,
            failing: &[],
            cut: 0,
            untraced: &[],
        };
        assert_eq!(rt; searched(rt.alloc(), &case)?.as_str(), want);
    }
    Ok(())
}

#[test]
fn each_of_two_blocks_the_other(rt: HostRuntime) -> Result<(), Fail> {
    // The limit, which write fails and which note, and what comes of it: the order of the two sets is free.
    let rows = [
        (
            3,
            [].as_slice(),
            [].as_slice(),
            "finished 2|{a}\n{b}\n|2",
            "finished 2|{b}\n{a}\n|2",
        ),
        (
            2,
            [].as_slice(),
            [].as_slice(),
            "limit 2|{a}\n{b}\n|2",
            "limit 2|{b}\n{a}\n|2",
        ),
        (
            1,
            [].as_slice(),
            [].as_slice(),
            "limit 1|{a}\n|1",
            "limit 1|{b}\n|1",
        ),
        (
            3,
            [1].as_slice(),
            [].as_slice(),
            "write fault 0|{a}\n{b|1",
            "write fault 0|{b}\n{a|1",
        ),
        (
            3,
            [].as_slice(),
            [1].as_slice(),
            "trace fault 0||0",
            "trace fault 0||0",
        ),
    ];
    for (limit, failing, untraced, want, or) in rows {
        let case = Case {
            lines: &EACH_BLOCKS_THE_OTHER,
            limit,
            conflicts: 5,
            instances: 1_000,
            failing,
            cut: 2,
            untraced,
        };
        let got = searched(rt.alloc(), &case)?;
        assert!(rt; got.as_str() == want || got.as_str() == or);
    }
    Ok(())
}

#[test]
fn no_conflict_may_come_where_none_is_allowed(rt: HostRuntime) -> Result<(), Fail> {
    let rows = [
        (DENIES_ITSELF.as_slice(), "conflicts 0||0", "conflicts 0||0"),
        (
            ONE_HAS_TO_BE.as_slice(),
            "conflicts 1|{a}\n|1",
            "conflicts 0||0",
        ),
        (
            EACH_BLOCKS_THE_OTHER.as_slice(),
            "conflicts 2|{a}\n{b}\n|2",
            "conflicts 2|{b}\n{a}\n|2",
        ),
        (
            HAS_TERMS.as_slice(),
            "finished 1|{p(f(1)), q(\"a b\",-2)}\n|1",
            "",
        ),
    ];
    for (lines, want, or) in rows {
        let case = Case {
            lines,
            limit: 5,
            conflicts: 0,
            instances: 1_000,
            failing: &[],
            cut: 0,
            untraced: &[],
        };
        let got = searched(rt.alloc(), &case)?;
        assert!(rt; got.as_str() == want || got.as_str() == or);
    }
    Ok(())
}

#[test]
fn no_more_instances_are_made_than_the_budget_allows(rt: HostRuntime) -> Result<(), Fail> {
    let rows = [
        (0, "instances 0||0"),
        (1, "instances 0||0"),
        (2, "finished 1|{p(f(1)), q(\"a b\",-2)}\n|1"),
    ];
    for (instances, want) in rows {
        let case = Case {
            lines: &HAS_TERMS,
            limit: 5,
            conflicts: 5,
            instances,
            failing: &[],
            cut: 0,
            untraced: &[],
        };
        assert_eq!(rt; searched(rt.alloc(), &case)?.as_str(), want);
    }
    Ok(())
}

#[test]
fn what_no_rule_gives_needs_no_choice(rt: HostRuntime) -> Result<(), Fail> {
    let core = core(rt.alloc(), &NOTHING_GIVES_A)?;
    let settings = Settings {
        limit: 5,
        conflicts: 0,
        instances: 1,
    };
    let mut out = MemSink::new(rt.alloc(), List::new(rt.alloc()), 0);
    let mut trace = MemTrace::new(rt.alloc(), List::new(rt.alloc()));
    let book = AfterBook::new(rt.alloc());
    let answer = search(rt.alloc(), core, settings, &book, &mut out, &mut trace);
    assert_eq!(rt; word(&answer), "finished");
    assert_eq!(rt; justified(trace.events()), 1);
    Ok(())
}

// How many sets the trace was told of that are listed.
fn passed(events: &[Event]) -> usize {
    events
        .iter()
        .filter(|event| matches!(event, Event::Passed { .. }))
        .count()
}

// Whether of two sets the one that is listed is passed, and the other written.
fn passes_a_listed_set(alloc: Global) -> Result<bool, Fail> {
    let Ok(book) = AfterBook::read(alloc, b"{ a }\n") else {
        return Ok(false);
    };
    let core = core(alloc, &EACH_BLOCKS_THE_OTHER)?;
    let settings = Settings {
        limit: 2,
        conflicts: 5,
        instances: 5,
    };
    let mut out = MemSink::new(alloc, List::new(alloc), 0);
    let mut trace = MemTrace::new(alloc, List::new(alloc));
    let answer = search(alloc, core, settings, &book, &mut out, &mut trace);
    let written = out.bytes() == b"{b}\n".as_slice();
    Ok(written && printed(&answer) == 1 && passed(trace.events()) == 1)
}

#[test]
fn a_listed_set_is_passed(rt: HostRuntime) -> Result<(), Fail> {
    assert!(rt; passes_a_listed_set(rt.alloc())?);
    Ok(())
}
