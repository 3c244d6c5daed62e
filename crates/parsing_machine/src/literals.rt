//! What may stand after the name of a literal and after its arguments.
//!
//! A comparison or an operator makes them a term, so what stands there is read as both until then.

ghost use Rattle.std.specs.Prelude.{◌≡◌, [], IfOk};
ghost use Rattle.asp_grammar.specs.Terminals.{terminal_of};
ghost use Rattle.parsing_machine.specs.Fitting.{Fits};
ghost use Rattle.asp_grammar.specs.Machine.{call_term, signed, operand, owned_next, operand_next, arguments_next, name_next, opened_next};

use crate::bodies::item_done;
use crate::conditions::{condition_done, owned_next};
use crate::heads::head_done;
use crate::operands::purpose_begun;
use crate::parts::{boxed, called, with_sign};
use crate::states::spot_of;
use crate::terms::operand_next;
use alpha_outside::{Boxed, List, Name, OutOfMemory};
use asp_grammar::{LiteralRole, Owner, Pending, Purpose, State, TermRole};
use asp_syntax::{Atom, ChoiceElement, Guard, Head, Item, Literal, Term, Token};
use std::alloc::Global;

fn literal_term(
    alloc: Global,
    role: TermRole,
    negated: bool,
    name: Name,
    arguments: List<Term>,
    token: &Token,
    number: u32,
) -> Result<Option<State>, OutOfMemory>
    ensures { IfOk result (λ next. next ≡ operand_next Pending.Nothing (signed negated (call_term name arguments)) [] (Purpose.ForTerm role) (terminal_of number token.now)) }
{
    let role = boxed(alloc, role)?;
    let spot = spot_of(alloc, Purpose::ForTerm(role))?;
    let term = boxed(alloc, called(name, arguments))?;
    let term = with_sign(alloc, negated, term)?;
    operand_next(alloc, Pending::Nothing, term, spot, token, number)
}

fn head_arguments(
    alloc: Global,
    negated: bool,
    name: Name,
    arguments: List<Term>,
    token: &Token,
    number: u32,
) -> Result<Option<State>, OutOfMemory>
    ensures { IfOk result (λ next. next ≡ arguments_next LiteralRole.AsHead negated name arguments (terminal_of number token.now)) }
{
    match token {
        Token::Dot => head_done(
            alloc,
            Head::Single(Atom {
                negated,
                name,
                args: arguments,
            }),
            token,
            number,
        ),
        Token::If => head_done(
            alloc,
            Head::Single(Atom {
                negated,
                name,
                args: arguments,
            }),
            token,
            number,
        ),
        _ => literal_term(
            alloc,
            TermRole::HeadLeft,
            negated,
            name,
            arguments,
            token,
            number,
        ),
    }
}

fn denied_arguments(
    alloc: Global,
    head: Boxed<Head>,
    items: List<Item>,
    negated: bool,
    name: Name,
    arguments: List<Term>,
    token: &Token,
    number: u32,
) -> Result<Option<State>, OutOfMemory>
    ensures { IfOk result (λ next. next ≡ arguments_next (LiteralRole.AsDenied head items) negated name arguments (terminal_of number token.now)) }
{
    match token {
        Token::Comma => item_done(
            alloc,
            head,
            items,
            Item::Plain(Literal::Negative(Atom {
                negated,
                name,
                args: arguments,
            })),
            token,
            number,
        ),
        Token::Dot => item_done(
            alloc,
            head,
            items,
            Item::Plain(Literal::Negative(Atom {
                negated,
                name,
                args: arguments,
            })),
            token,
            number,
        ),
        _ => literal_term(
            alloc,
            TermRole::BodyLeft {
                denied: true,
                head,
                items,
            },
            negated,
            name,
            arguments,
            token,
            number,
        ),
    }
}

fn item_arguments(
    alloc: Global,
    head: Boxed<Head>,
    items: List<Item>,
    negated: bool,
    name: Name,
    arguments: List<Term>,
    token: &Token,
    number: u32,
) -> Result<Option<State>, OutOfMemory>
    ensures { IfOk result (λ next. next ≡ arguments_next (LiteralRole.AsItem head items) negated name arguments (terminal_of number token.now)) }
{
    match token {
        Token::Comma => item_done(
            alloc,
            head,
            items,
            Item::Plain(Literal::Positive(Atom {
                negated,
                name,
                args: arguments,
            })),
            token,
            number,
        ),
        Token::Dot => item_done(
            alloc,
            head,
            items,
            Item::Plain(Literal::Positive(Atom {
                negated,
                name,
                args: arguments,
            })),
            token,
            number,
        ),
        _ => literal_term(
            alloc,
            TermRole::BodyLeft {
                denied: false,
                head,
                items,
            },
            negated,
            name,
            arguments,
            token,
            number,
        ),
    }
}

fn condition_arguments(
    alloc: Global,
    owner: Boxed<Owner>,
    condition: List<Literal>,
    negated: bool,
    name: Name,
    arguments: List<Term>,
    token: &Token,
    number: u32,
) -> Result<Option<State>, OutOfMemory>
    ensures { IfOk result (λ next. next ≡ arguments_next (LiteralRole.InCondition owner condition) negated name arguments (terminal_of number token.now)) }
{
    match token {
        Token::Comma => condition_done(
            alloc,
            owner,
            condition,
            Literal::Positive(Atom {
                negated,
                name,
                args: arguments,
            }),
            token,
            number,
        ),
        Token::Semicolon => condition_done(
            alloc,
            owner,
            condition,
            Literal::Positive(Atom {
                negated,
                name,
                args: arguments,
            }),
            token,
            number,
        ),
        Token::CloseBrace => condition_done(
            alloc,
            owner,
            condition,
            Literal::Positive(Atom {
                negated,
                name,
                args: arguments,
            }),
            token,
            number,
        ),
        _ => literal_term(
            alloc,
            TermRole::ConditionLeft { owner, condition },
            negated,
            name,
            arguments,
            token,
            number,
        ),
    }
}

fn chosen_done(
    alloc: Global,
    left: Option<Boxed<Guard>>,
    elements: List<ChoiceElement>,
    atom: Atom,
    token: &Token,
    number: u32,
) -> Result<Option<State>, OutOfMemory>
    ensures { IfOk result (λ next. next ≡ owned_next (Owner.Chosen left elements atom) (terminal_of number token.now)) }
{
    let owner = boxed(
        alloc,
        Owner::Chosen {
            left,
            elements,
            atom,
        },
    )?;
    owned_next(alloc, owner, token, number)
}

/// After the name and arguments of a literal, which a comparison or an operator makes a term.
#[tactic(auto, using(crate::proofs::CodeLemmas::or_else_none))]
pub fn arguments_next(
    alloc: Global,
    role: LiteralRole,
    negated: bool,
    name: Name,
    arguments: List<Term>,
    token: &Token,
    number: u32,
) -> Result<Option<State>, OutOfMemory>
    ensures { IfOk result (λ next. next ≡ arguments_next role negated name arguments (terminal_of number token.now)) }
{
    match role {
        LiteralRole::AsHead => head_arguments(alloc, negated, name, arguments, token, number),
        LiteralRole::AsDenied { head, items } => denied_arguments(
            alloc, head, items, negated, name, arguments, token, number,
        ),
        LiteralRole::AsItem { head, items } => item_arguments(
            alloc, head, items, negated, name, arguments, token, number,
        ),
        LiteralRole::AsChosen { left, elements } => chosen_done(
            alloc,
            left,
            elements,
            Atom {
                negated,
                name,
                args: arguments,
            },
            token,
            number,
        ),
        LiteralRole::InCondition { owner, condition } => condition_arguments(
            alloc, owner, condition, negated, name, arguments, token, number,
        ),
        LiteralRole::DeniedInCondition { owner, condition } => condition_done(
            alloc,
            owner,
            condition,
            Literal::Negative(Atom {
                negated,
                name,
                args: arguments,
            }),
            token,
            number,
        ),
    }
}

fn bare_name(
    alloc: Global,
    role: LiteralRole,
    negated: bool,
    name: Name,
    token: &Token,
    number: u32,
) -> Result<Option<State>, OutOfMemory>
    ensures { IfOk result (λ next. next ≡ arguments_next role negated name [] (terminal_of number token.now)) }
{
    arguments_next(alloc, role, negated, name, List::new(alloc), token, number)
}

/// After the name of a literal.
pub fn name_next(
    alloc: Global,
    role: Boxed<LiteralRole>,
    negated: bool,
    name: Name,
    token: &Token,
    number: u32,
) -> Result<Option<State>, OutOfMemory>
    ensures { IfOk result (λ next. next ≡ name_next role negated name (terminal_of number token.now)) }
{
    match token {
        Token::Open => Ok(Some(State::ArgumentsOpened {
            role,
            negated,
            name,
        })),
        _ => bare_name(alloc, role.into_inner(), negated, name, token, number),
    }
}

fn arguments_begun(
    alloc: Global,
    role: Boxed<LiteralRole>,
    negated: bool,
    name: Name,
    token: &Token,
    number: u32,
) -> Result<Option<State>, OutOfMemory>
    requires fits { Fits 0 token.now }
    ensures { IfOk result (λ next. next ≡ operand Pending.Nothing Pending.Nothing 0 [] (Purpose.ForArguments role negated name []) (terminal_of number token.now)) }
{
    purpose_begun(
        alloc,
        Purpose::ForArguments {
            role,
            negated,
            name,
            arguments: List::new(alloc),
        },
        0,
        token,
        number,
    )
}

/// After the name of a literal and `(`.
pub fn opened_next(
    alloc: Global,
    role: Boxed<LiteralRole>,
    negated: bool,
    name: Name,
    token: &Token,
    number: u32,
) -> Result<Option<State>, OutOfMemory>
    requires fits { Fits 0 token.now }
    ensures { IfOk result (λ next. next ≡ opened_next role negated name (terminal_of number token.now)) }
{
    match token {
        Token::Close => Ok(Some(State::ArgumentsRead {
            role,
            negated,
            name,
            arguments: List::new(alloc),
        })),
        _ => arguments_begun(alloc, role, negated, name, token, number),
    }
}
