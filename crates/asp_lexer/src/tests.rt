use crate::{LexFault, lex};
use alpha_outside::{List, Name};
use asp_syntax::{Spanned, Token};
use std::alloc::Global;
use std::test::Fail;

// A token with a name in it, as `Id(a)`.
fn named(alloc: Global, kind: &str, name: &Name) -> Result<String, Fail> {
    match std::str::from_utf8(name.as_bytes()) {
        Ok(text) => Ok(format!(in alloc; "{kind}({text})")?),
        Err(_) => Ok(format!(in alloc; "{kind}(no text)")?),
    }
}

fn described(alloc: Global, token: &Token) -> Result<String, Fail> {
    match token {
        Token::Id(name) => named(alloc, "Id", name),
        Token::Variable(name) => named(alloc, "Variable", name),
        Token::Text(inside) => named(alloc, "Text", inside),
        other => Ok(format!(in alloc; "{other:?}")?),
    }
}

// The tokens, each with its place and its line, or the fault.
fn shown(alloc: Global, answer: Result<List<Spanned>, LexFault>) -> Result<String, Fail> {
    let tokens = match answer {
        Ok(tokens) => tokens,
        Err(fault) => return Ok(format!(in alloc; "{fault:?}")?),
    };
    let mut line = String::new(alloc);
    for spanned in tokens.as_slice() {
        let token = described(alloc, &spanned.token)?;
        let text = format!(in alloc; "{token}@{}:{} ", spanned.at.0, spanned.line)?;
        line.push_str(text.as_str())?;
    }
    Ok(line)
}

fn row(alloc: Global, text: &[u8]) -> Result<String, Fail> {
    if text.len() >= 4_294_967_295 {
        return Ok(String::new(alloc));
    }
    shown(alloc, lex(alloc, text))
}

#[test]
fn tokens_and_faults_by_place(rt: HostRuntime) -> Result<(), Fail> {
    let rows = [
        // Where a text can't be read.
        (b"a ! b.".as_slice(), "Lex { at: Place(2) }"),
        (b"a ! b\nX :-".as_slice(), "Lex { at: Place(2) }"),
        (b"p(\"x".as_slice(), "Lex { at: Place(2) }"),
        (
            b"p(9223372036854775809).".as_slice(),
            "NumberTooLarge { at: Place(2) }",
        ),
        (
            b"a ! 9223372036854775809".as_slice(),
            "Lex { at: Place(2) }",
        ),
        (
            b"9223372036854775809 !".as_slice(),
            "NumberTooLarge { at: Place(0) }",
        ),
        (b".\xc3\xa9".as_slice(), "Lex { at: Place(1) }"),
        (b".\0".as_slice(), "Lex { at: Place(1) }"),
        // Numbers.
        (
            b"p(9223372036854775808).".as_slice(),
            "Id(p)@0:1 Open@1:1 Number(9223372036854775808)@2:1 Close@21:1 Dot@22:1 ",
        ),
        (b"01".as_slice(), "Number(0)@0:1 Number(1)@1:1 "),
        (b"10a".as_slice(), "Number(10)@0:1 Id(a)@2:1 "),
        // Blanks and comments.
        (b"".as_slice(), ""),
        (b" \t\r\n% end".as_slice(), ""),
        (b"a%\n%\r.\nB".as_slice(), "Id(a)@0:1 Variable(B)@7:3 "),
        (b"%* a\n *%\n.".as_slice(), "Dot@9:3 "),
        (b"%* %* *% a *%".as_slice(), "Id(a)@9:1 Star@11:1 "),
        (b".%* a".as_slice(), "Lex { at: Place(1) }"),
        (b"%*%".as_slice(), "Lex { at: Place(0) }"),
        (b"%***%.".as_slice(), "Dot@5:1 "),
        // Words.
        (
            b"not nothing not1 aB_9 Bc_".as_slice(),
            "Not@0:1 Id(nothing)@4:1 Id(not1)@12:1 Id(aB_9)@17:1 Variable(Bc_)@22:1 ",
        ),
        (b"_x".as_slice(), "Anonymous@0:1 Id(x)@1:1 "),
        (
            b"#count #counter #count1".as_slice(),
            "Count@0:1 Directive@7:1 Count@16:1 Number(1)@22:1 ",
        ),
        (
            b"#sum#min#max#show".as_slice(),
            "Sum@0:1 MinMax@4:1 MinMax@8:1 Directive@12:1 ",
        ),
        (b"a #".as_slice(), "Lex { at: Place(2) }"),
        // Strings.
        (b"\"\"\"%*\"".as_slice(), "Text()@0:1 Text(%*)@2:1 "),
        (b"\"a\\\"\"".as_slice(), "Text(a\\\")@0:1 "),
        (b"\"a\\\\\"".as_slice(), "Lex { at: Place(0) }"),
        (b"\"\n\"".as_slice(), "Lex { at: Place(0) }"),
        // Signs.
        (
            b".,:;(){}".as_slice(),
            "Dot@0:1 Comma@1:1 Colon@2:1 Semicolon@3:1 Open@4:1 Close@5:1 OpenBrace@6:1 CloseBrace@7:1 ",
        ),
        (
            b"+-*/:-".as_slice(),
            "Plus@0:1 Minus@1:1 Star@2:1 Slash@3:1 If@4:1 ",
        ),
        (
            b"= != <> < > <= >=".as_slice(),
            "Compare(Equal)@0:1 Compare(NotEqual)@2:1 Compare(NotEqual)@5:1 Compare(Less)@8:1 Compare(Greater)@10:1 Compare(LessEqual)@12:1 Compare(GreaterEqual)@15:1 ",
        ),
        (
            b"|?@[]&\\".as_slice(),
            "Bar@0:1 Question@1:1 At@2:1 OpenBracket@3:1 CloseBracket@4:1 Ampersand@5:1 Backslash@6:1 ",
        ),
        (b"...".as_slice(), "DotDot@0:1 Dot@2:1 "),
        (b":-:~:".as_slice(), "If@0:1 WeakIf@2:1 Colon@4:1 "),
        (b"a | b.".as_slice(), "Id(a)@0:1 Bar@2:1 Id(b)@4:1 Dot@5:1 "),
        (
            b"p(1..3).".as_slice(),
            "Id(p)@0:1 Open@1:1 Number(1)@2:1 DotDot@3:1 Number(3)@5:1 Close@6:1 Dot@7:1 ",
        ),
    ];
    for (text, want) in rows {
        let got = row(rt.alloc(), text)?;
        assert_eq!(rt; got.as_str(), want);
    }
    Ok(())
}
