//! Which statements are built: facts, rules with `not` and comparisons, choices without bounds, and constraints, over any terms.
//! Aggregates, and so bounds of choices, are refused by the line of the first statement with one.

ghost use Rattle.std.specs.Prelude.{◌≡◌};
ghost use Rattle.std.specs.List.{list_all};
ghost use Rattle.alpha.specs.Built.{is_built_item, is_built_head, is_built, unbuilt};

use asp_syntax::{Head, Item, Program, Statement};

fn is_built_item(item: &Item) -> bool
    ensures { result ≡ is_built_item item.now }
{
    match item {
        Item::Plain(_) => true,
        Item::Aggregate { .. } => false,
    }
}

// A choice is built where it has no bounds.
fn is_built_head(head: &Head) -> bool
    ensures { result ≡ is_built_head head.now }
{
    match head {
        Head::Absent => true,
        Head::Single(_) => true,
        Head::Choice {
            left: None,
            right: None,
            ..
        } => true,
        Head::Choice { .. } => false,
    }
}

fn is_built_body(body: &[Item]) -> bool
    ensures { result ≡ list_all is_built_item body.now }
{
    for item in body {
        if !is_built_item(item) {
            return false;
        }
    }
    true
}

fn is_built(statement: &Statement) -> bool
    ensures { result ≡ is_built statement.now }
{
    is_built_head(&statement.head) && is_built_body(statement.body.as_slice())
}

/// The line of the first statement that isn't built; `None` where every statement is.
///
/// Built is a statement without aggregates and without bounds of a choice. It takes no memory.
pub fn unbuilt(program: &Program) -> Option<u32>
    ensures { result ≡ unbuilt program.now.statements }
{
    for statement in program.statements.as_slice() {
        if !is_built(statement) {
            return Some(statement.line);
        }
    }
    None
}
