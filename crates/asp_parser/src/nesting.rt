//! How deep tokens are nested: the number of open `(`, and of the operators since the last separator in each open level.
//!
//! The sum is kept beside its parts, so each token takes constant time.

ghost use Rattle.std.specs.Prelude.{◌≡◌, ◌≤◌, ℕ, IfOk};
ghost use Rattle.asp_grammar.specs.Nesting.{levels_of, one_level, levels_after, opened, closed, with_operator, separated, depth, deepest};

use alpha_outside::OutOfMemory;
use asp_grammar::Stack;
use asp_syntax::Token;
use std::alloc::Global;

/// The deepest nesting that a program may have.
pub const DEEPEST: u32 = 200;

/// The operators since the last separator in the innermost level and in those outside it, and the nesting.
#[derive(Drop)]
pub struct Nesting {
    pub operators: u32,
    pub outside: Stack<u32>,
    pub depth: u32,
}

/// Before the first token.
pub fn unnested(alloc: Global) -> Nesting
    ensures levels { levels_of result.operators result.outside ≡ one_level }
    ensures depth { result.depth ≡ depth (levels_of result.operators result.outside) }
    ensures least { result.depth ≡ 0 }
{
    Nesting {
        operators: 0,
        outside: Stack::new(alloc),
        depth: 0,
    }
}

fn after_open(nesting: Nesting) -> Result<Nesting, OutOfMemory>
    requires low { nesting.depth ≤ deepest }
    requires depth { nesting.depth ≡ depth (levels_of nesting.operators nesting.outside) }
    ensures levels { IfOk result (λ n. levels_of n.operators n.outside ≡ opened (levels_of nesting.operators nesting.outside)) }
    ensures depth { IfOk result (λ n. n.depth ≡ depth (levels_of n.operators n.outside)) }
{
    let Nesting {
        operators,
        outside,
        depth,
    } = nesting;
    let outside = outside.push(operators)?;
    Ok(Nesting {
        operators: 0,
        outside,
        depth: depth + 1,
    })
}

fn after_close(nesting: Nesting) -> Nesting
    requires low { nesting.depth ≤ deepest }
    requires depth { nesting.depth ≡ depth (levels_of nesting.operators nesting.outside) }
    ensures levels { levels_of result.operators result.outside ≡ closed nesting.operators nesting.outside }
    ensures depth { result.depth ≡ depth (levels_of result.operators result.outside) }
{
    let Nesting {
        operators,
        outside,
        depth,
    } = nesting;
    let mut outside = outside;
    match outside.pop() {
        None => Nesting {
            operators,
            outside,
            depth,
        },
        Some(outer) => Nesting {
            operators: outer,
            outside,
            depth: depth - operators - 1,
        },
    }
}

fn after_operator(nesting: Nesting) -> Nesting
    requires low { nesting.depth ≤ deepest }
    requires depth { nesting.depth ≡ depth (levels_of nesting.operators nesting.outside) }
    ensures levels { levels_of result.operators result.outside ≡ with_operator (levels_of nesting.operators nesting.outside) }
    ensures depth { result.depth ≡ depth (levels_of result.operators result.outside) }
{
    let Nesting {
        operators,
        outside,
        depth,
    } = nesting;
    Nesting {
        operators: operators + 1,
        outside,
        depth: depth + 1,
    }
}

fn after_separator(nesting: Nesting) -> Nesting
    requires low { nesting.depth ≤ deepest }
    requires depth { nesting.depth ≡ depth (levels_of nesting.operators nesting.outside) }
    ensures levels { levels_of result.operators result.outside ≡ separated (levels_of nesting.operators nesting.outside) }
    ensures depth { result.depth ≡ depth (levels_of result.operators result.outside) }
{
    let Nesting {
        operators,
        outside,
        depth,
    } = nesting;
    Nesting {
        operators: 0,
        outside,
        depth: depth - operators,
    }
}

/// After the token.
pub fn nested(nesting: Nesting, token: &Token) -> Result<Nesting, OutOfMemory>
    requires low { nesting.depth ≤ deepest }
    requires depth { nesting.depth ≡ depth (levels_of nesting.operators nesting.outside) }
    ensures levels { IfOk result (λ n. levels_of n.operators n.outside ≡ levels_after (levels_of nesting.operators nesting.outside) token.now) }
    ensures depth { IfOk result (λ n. n.depth ≡ depth (levels_of n.operators n.outside)) }
{
    match token {
        Token::Open => after_open(nesting),
        Token::Close => Ok(after_close(nesting)),
        Token::Plus | Token::Minus | Token::Star | Token::Slash => Ok(after_operator(nesting)),
        Token::Comma
        | Token::Semicolon
        | Token::Colon
        | Token::OpenBrace
        | Token::CloseBrace
        | Token::If
        | Token::Dot
        | Token::Compare(_) => Ok(after_separator(nesting)),
        _ => Ok(nesting),
    }
}
