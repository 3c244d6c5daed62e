ghost use Rattle.lists.specs.Lists.{Each};
ghost use Rattle.asp_syntax.specs.Places.{IsRising};
ghost use Rattle.asp_syntax.specs.WellFormed.{IsWellFormed};

use crate::parse;
use crate::shown::shown;
use asp_lexer::lex;
use asp_syntax::{Place, Spanned};
use std::alloc::Global;
use std::test::Fail;

// The program of the tokens as text, or the fault.
fn tree_or_fault(alloc: Global, tokens: &[Spanned], end: Place) -> Result<String, Fail>
    requires rising { IsRising 0 end.0 tokens.now }
    requires well_formed { Each (λ spanned. IsWellFormed spanned.token) tokens.now }
{
    match parse(alloc, tokens, end) {
        Ok(program) => shown(alloc, &program),
        Err(fault) => Ok(format!(in alloc; "{fault:?}")?),
    }
}

// The same of a text.
fn row(alloc: Global, text: &[u8]) -> Result<String, Fail> {
    if text.len() >= 4_294_967_295 {
        return Ok(String::new(alloc));
    }
    match lex(alloc, text) {
        Ok(tokens) => tree_or_fault(alloc, tokens.as_slice(), Place(text.len() as u32)),
        Err(fault) => Ok(format!(in alloc; "{fault:?}")?),
    }
}

#[test]
fn first_faults_by_place(rt: HostRuntime) -> Result<(), Fail> {
    let rows = [
        // A text ends with a line feed, behind which the end is.
        (b"a :- b\n".as_slice(), "Syntax { at: Place(7) }"),
        (b"a :- b c.\n".as_slice(), "Syntax { at: Place(7) }"),
        (b"X.\n".as_slice(), "Syntax { at: Place(1) }"),
        (
            b"a | b.\n".as_slice(),
            "Unsupported { at: Place(2), what: Disjunction }",
        ),
        (
            b"p(1..3).\n".as_slice(),
            "Unsupported { at: Place(3), what: Interval }",
        ),
        (
            b"p(9223372036854775808).\n".as_slice(),
            "NumberTooLarge { at: Place(2) }",
        ),
        // The other constructs that are known by name.
        (
            b"p(1\\2).\n".as_slice(),
            "Unsupported { at: Place(3), what: Modulo }",
        ),
        (
            b"a. :~ b.\n".as_slice(),
            "Unsupported { at: Place(3), what: WeakConstraint }",
        ),
        (
            b"a?\n".as_slice(),
            "Unsupported { at: Place(1), what: Query }",
        ),
        (
            b"a :- #min{X : b(X)} = 1.\n".as_slice(),
            "Unsupported { at: Place(5), what: MinMax }",
        ),
        (
            b"#show a.\n".as_slice(),
            "Unsupported { at: Place(0), what: Directive }",
        ),
        (
            b"a :- b & c.\n".as_slice(),
            "Unsupported { at: Place(7), what: Other }",
        ),
        // The first fault is named, whichever it is.
        (b"a :- b c | d.\n".as_slice(), "Syntax { at: Place(7) }"),
        (
            b"a b. p(9223372036854775808).\n".as_slice(),
            "Syntax { at: Place(2) }",
        ),
        (
            b"p(9223372036854775808). a b.\n".as_slice(),
            "NumberTooLarge { at: Place(2) }",
        ),
        (
            b"a 9223372036854775808.\n".as_slice(),
            "Syntax { at: Place(2) }",
        ),
        // Minuses before the largest number.
        (
            b"p(1-9223372036854775808).\n".as_slice(),
            "NumberTooLarge { at: Place(4) }",
        ),
        (
            b"p(-(9223372036854775808)).\n".as_slice(),
            "NumberTooLarge { at: Place(4) }",
        ),
        // What only looks like a literal or a guard.
        (b"a :- not a < b.\n".as_slice(), "Syntax { at: Place(13) }"),
        (
            b"a :- #count{X : b(X)}.\n".as_slice(),
            "Syntax { at: Place(21) }",
        ),
        (b"a :- b, .\n".as_slice(), "Syntax { at: Place(8) }"),
        (b"p(1,).\n".as_slice(), "Syntax { at: Place(4) }"),
    ];
    for (text, want) in rows {
        assert_eq!(rt; row(rt.alloc(), text)?.as_str(), want);
    }
    Ok(())
}

#[test]
fn trees_of_terms(rt: HostRuntime) -> Result<(), Fail> {
    let rows = [
        (b"p(1-2-3*4/5).".as_slice(), "1 p(((1-2)-((3*4)/5)),):-."),
        (
            b"p((1-(2-X))*_,_).".as_slice(),
            "1 p(((1-(2-X))*_0),_1,):-.",
        ),
        (
            b"p(-1,-a,--1,--a,- -2).".as_slice(),
            "1 p(-1,(-a),(--1),(-(-a)),(--2),):-.",
        ),
        (
            b"p(2 - -1,2--a,-1*2,-(1)).".as_slice(),
            "1 p((2--1),(2-(-a)),(-1*2),(-1),):-.",
        ),
        (
            b"p(-9223372036854775808).".as_slice(),
            "1 p(-9223372036854775808,):-.",
        ),
        (
            b"p(f(),f(g(X),1),\"a b\").".as_slice(),
            "1 p(f,f(g(X,),1,),\"a b\",):-.",
        ),
    ];
    for (text, want) in rows {
        assert_eq!(rt; row(rt.alloc(), text)?.as_str(), want);
    }
    Ok(())
}

#[test]
fn trees_of_statements(rt: HostRuntime) -> Result<(), Fail> {
    let rows = [
        (b"".as_slice(), ""),
        (
            b"a.\n:-.\n:- b.\nc() :- .\n-d :- e, not -f(1).".as_slice(),
            "1 a():-.2 :-.3 :-b(),.4 c():-.5 -d():-e(),not -f(1,),.",
        ),
        (
            b"a :- X = f(Y), 1+2 < b, -c >= -d, e <> 1.".as_slice(),
            "1 a():-X=f(Y,),(1+2)<b,(-c)>=(-d),e!=1,.",
        ),
        (b"{}.".as_slice(), "1 {}:-."),
        (
            b"1 {a; -b(X) : c(X), not d, X < 2; e :} 2 :- f.".as_slice(),
            "1 1<={a():;-b(X,):c(X,),not d(),X<2,;e():;}<=2:-f(),.",
        ),
        (
            b"X = {a} != 1+1. f(1) < {b}. {c} > N.".as_slice(),
            "1 X={a():;}!=(1+1):-.1 f(1,)<{b():;}:-.1 {c():;}>N:-.",
        ),
        (
            b"a :- X < #count{1,Y : b(Y), not c; 2; : d; :}.".as_slice(),
            "1 a():-X<#count{1,Y,:b(Y,),not c(),;2,:;:d(),;:;},.",
        ),
        (
            b"a :- not X < #count{}, not #sum{1} > 2, 1 = #sum{2:} != 3.".as_slice(),
            "1 a():-not X<#count{},not #sum{1,:;}>2,1=#sum{2,:;}!=3,.",
        ),
    ];
    for (text, want) in rows {
        assert_eq!(rt; row(rt.alloc(), text)?.as_str(), want);
    }
    Ok(())
}

// `p`, then so many times `(`, and `1` with as many `)` behind it.
fn nested_text(alloc: Global, depth: usize) -> Result<String, Fail> {
    let mut text = String::new(alloc);
    text.push_str("p")?;
    for _i in 0..depth {
        text.push_str("(")?;
    }
    text.push_str("1")?;
    for _i in 0..depth {
        text.push_str(")")?;
    }
    text.push_str(".\n")?;
    Ok(text)
}

#[test]
fn nesting_up_to_200(rt: HostRuntime) -> Result<(), Fail> {
    let most = nested_text(rt.alloc(), 200)?;
    assert_eq!(rt; row(rt.alloc(), most.as_bytes())?.as_str(), "1 p(1,):-.");
    let deeper = nested_text(rt.alloc(), 201)?;
    assert_eq!(rt;
        row(rt.alloc(), deeper.as_bytes())?.as_str(),
        "TooDeep { at: Place(201) }"
    );
    Ok(())
}
