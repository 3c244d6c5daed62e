ghost use Rattle.std.specs.Prelude.{◌≡◌};

use std::marker::Model;

/// The id of a term: its place in its arena, counted from 0.
#[derive(Clone, Copy, Debug, PartialEq, Eq, PartialOrd, Ord, Hash)]
pub struct TermId(pub u32);

impl Model for TermId {
    ghost use Rattle.std.specs.Prelude.{ℕ};

    ghost Value = { ℕ };

    ghost view = { λ id. id.0 };

    ghost inverse = { λ n. record { 0 = n } };
}

impl TermId {
    /// The place as an index.
    pub fn place(self) -> usize
        ensures { result ≡ self }
    {
        self.0 as usize
    }
}

/// The id of a predicate: its place in its arena, counted from 0.
#[derive(Clone, Copy, Debug, PartialEq, Eq, PartialOrd, Ord, Hash)]
pub struct PredId(pub u32);

impl Model for PredId {
    ghost use Rattle.std.specs.Prelude.{ℕ};

    ghost Value = { ℕ };

    ghost view = { λ id. id.0 };

    ghost inverse = { λ n. record { 0 = n } };
}

impl PredId {
    /// The place as an index.
    pub fn place(self) -> usize
        ensures { result ≡ self }
    {
        self.0 as usize
    }
}

/// The id of a atom, named or of a body: its place in its arena, counted from 0.
#[derive(Clone, Copy, Debug, PartialEq, Eq, PartialOrd, Ord, Hash)]
pub struct AtomId(pub u32);

impl Model for AtomId {
    ghost use Rattle.std.specs.Prelude.{ℕ};

    ghost Value = { ℕ };

    ghost view = { λ id. id.0 };

    ghost inverse = { λ n. record { 0 = n } };
}

impl AtomId {
    /// The place as an index.
    pub fn place(self) -> usize
        ensures { result ≡ self }
    {
        self.0 as usize
    }
}

/// The id of a instance of a rule, or aggregate step: its place in its arena, counted from 0.
#[derive(Clone, Copy, Debug, PartialEq, Eq, PartialOrd, Ord, Hash)]
pub struct InstId(pub u32);

impl Model for InstId {
    ghost use Rattle.std.specs.Prelude.{ℕ};

    ghost Value = { ℕ };

    ghost view = { λ id. id.0 };

    ghost inverse = { λ n. record { 0 = n } };
}

impl InstId {
    /// The place as an index.
    pub fn place(self) -> usize
        ensures { result ≡ self }
    {
        self.0 as usize
    }
}

/// The id of a nogood: its place in its arena, counted from 0.
#[derive(Clone, Copy, Debug, PartialEq, Eq, PartialOrd, Ord, Hash)]
pub struct NogoodId(pub u32);

impl Model for NogoodId {
    ghost use Rattle.std.specs.Prelude.{ℕ};

    ghost Value = { ℕ };

    ghost view = { λ id. id.0 };

    ghost inverse = { λ n. record { 0 = n } };
}

impl NogoodId {
    /// The place as an index.
    pub fn place(self) -> usize
        ensures { result ≡ self }
    {
        self.0 as usize
    }
}
