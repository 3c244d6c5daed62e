use alpha_outside::{Boxed, List, Name};

/// What a term without variables stands for (ASP-Core-2, "Terms").
///
/// The type stands for definitions alone: there the integer has no bound.
#[derive(Debug, Drop)]
pub enum Value {
    Int(i64),
    Symbol(Name),
    /// A string, by the bytes between its quotes.
    Text(Name),
    /// A functional term: its name, its first argument and its further ones, so that it has at least one.
    Fun(Name, Boxed<Value>, List<Value>),
}
