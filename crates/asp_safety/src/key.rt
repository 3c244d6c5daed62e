//! Variables that are owned, and can be looked up.

ghost use Rattle.std.specs.Prelude.{◌≡◌, IfOk, fold};
ghost use Rattle.std.proofs.Common.{ap};
ghost use Rattle.std.specs.Cmp.{partial_equiv_from_equiv};
ghost use Rattle.asp_meaning.specs.Terms.{named, anonymous};
ghost use Rattle.asp_safety.specs.Keys.{variable_eq, variable_writes, spelled};
ghost use Rattle.asp_safety.specs.KeyLaws.{variable_same, variable_equivalence};

use alpha_outside::{Name, OutOfMemory};
use std::alloc::Global;
use std::hash::{Hash, Hasher};
use std::marker::Model;

#[derive(Debug, Drop)]
enum Kind {
    Named(Name),
    Anonymous(u32),
}

/// A variable. Contracts see the one of the definitions.
#[derive(Debug, Drop)]
pub struct Key {
    kind: Kind,
}

impl Model for Key {
    ghost use Rattle.asp_meaning.specs.Terms.{Variable};
    ghost use Rattle.asp_safety.specs.Keys.{variable_in};

    ghost Value = { Variable };

    ghost view = { λ k. variable_in k.kind };
}

impl PartialEq for Key {
    ghost eq = { variable_eq };

    ghost laws = { partial_equiv_from_equiv variable_equivalence };

    fn eq(&self, other: &Key) -> bool {
        match &self.kind {
            Kind::Named(x) => match &other.kind {
                Kind::Named(y) => *x == *y,
                Kind::Anonymous(_) => false,
            },
            Kind::Anonymous(j) => match &other.kind {
                Kind::Named(_) => false,
                Kind::Anonymous(k) => *j == *k,
            },
        }
    }
}

impl Eq for Key {
    ghost laws = { variable_equivalence };
}

impl Hash for Key {
    ghost hash_input = { variable_writes };

    ghost respects_eq = { λ x y e. ap variable_writes (variable_same x y e) };

    fn hash<H: Hasher>(&self, state: &mut H) {
        match &self.kind {
            Kind::Named(x) => {
                state.write_u8(0);
                x.as_bytes().hash(state);
            }
            Kind::Anonymous(k) => {
                state.write_u8(1);
                k.hash(state);
            }
        }
    }
}

impl Key {
    /// The variable of this name.
    pub fn named(alloc: Global, name: &Name) -> Result<Key, OutOfMemory>
        ensures { IfOk result (λ v. v ≡ named name.now) }
    {
        let name = Name::from_bytes(alloc, name.as_bytes())?;
        Ok(Key {
            kind: Kind::Named(name),
        })
    }

    /// The anonymous variable of this number.
    pub fn anonymous(number: u32) -> Key
        ensures { result ≡ anonymous number }
    {
        Key {
            kind: Kind::Anonymous(number),
        }
    }

    /// Another copy.
    pub fn copy(&self, alloc: Global) -> Result<Key, OutOfMemory>
        ensures { IfOk result (λ v. v ≡ self.now) }
    {
        match &self.kind {
            Kind::Named(name) => Key::named(alloc, name),
            Kind::Anonymous(number) => Ok(Key::anonymous(*number)),
        }
    }

    /// The name under which a fault speaks of the variable.
    pub fn spelled(&self, alloc: Global) -> Result<Name, OutOfMemory>
        ensures { IfOk result (λ n. n ≡ spelled self.now) }
    {
        match &self.kind {
            Kind::Named(name) => Name::from_bytes(alloc, name.as_bytes()),
            Kind::Anonymous(_) => Name::from_bytes(alloc, b"_"),
        }
    }
}
