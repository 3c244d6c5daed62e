//! What may stand after an item of a body.

ghost use Rattle.std.specs.Prelude.{◌≡◌, [], ◌∷◌, ◌++◌, IfOk};
ghost use Rattle.asp_grammar.specs.Terminals.{terminal_of};
ghost use Rattle.asp_grammar.specs.Machine.{item_next};

use crate::parts::with_last;
use crate::states::literal_due;
use alpha_outside::{Boxed, List, OutOfMemory};
use asp_grammar::{LiteralRole, State};
use asp_syntax::{Head, Item, Token};
use std::alloc::Global;

fn item_next(
    alloc: Global,
    head: Boxed<Head>,
    items: List<Item>,
    token: &Token,
    number: u32,
) -> Result<Option<State>, OutOfMemory>
    ensures { IfOk result (λ next. next ≡ item_next head items (terminal_of number token.now)) }
{
    match token {
        Token::Comma => literal_due(alloc, LiteralRole::AsItem { head, items }),
        Token::Dot => Ok(Some(State::Ended { head, items })),
        _ => Ok(None),
    }
}

/// After this item.
pub fn item_done(
    alloc: Global,
    head: Boxed<Head>,
    items: List<Item>,
    item: Item,
    token: &Token,
    number: u32,
) -> Result<Option<State>, OutOfMemory>
    ensures { IfOk result (λ next. next ≡ item_next head (items ++ item ∷ []) (terminal_of number token.now)) }
{
    let items = with_last(items, item)?;
    item_next(alloc, head, items, token, number)
}
