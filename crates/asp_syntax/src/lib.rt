//! Programs as they are written: tokens, and the trees that the grammar gives them.
#![tactic(auto)]

mod copies;
mod token;
mod tree;
mod what;

pub use token::{Place, Spanned, Token};
pub use tree::{
    AggKind, Aggregate, Atom, ChoiceElement, CompareOp, Element, Guard, Head, Item, Literal,
    Program, Statement, Term,
};
pub use what::What;
