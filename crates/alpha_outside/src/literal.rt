use crate::ids::AtomId;

/// What is known of an atom in a search: it is in the set, it must be in it but has no support yet, or it isn't in it.
/// An unassigned atom has no value.
#[derive(Clone, Copy, Debug, PartialEq, Eq)]
pub enum Value {
    True,
    MustBe,
    False,
}

/// A literal of a nogood. A positive one holds where its atom is true or must-be-true, a negative one where it is false.
#[derive(Clone, Copy, Debug, PartialEq, Eq)]
pub struct Lit {
    pub atom: AtomId,
    pub positive: bool,
}
