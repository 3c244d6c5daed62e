//! Predicates that are owned, and can be looked up.

ghost use Rattle.std.specs.Prelude.{◌≡◌, IfOk};
ghost use Rattle.std.proofs.Common.{ap};
ghost use Rattle.std.specs.Cmp.{partial_equiv_from_equiv};
ghost use Rattle.asp_strata.specs.Predicates.{predicate_eq, predicate_writes};
ghost use Rattle.asp_strata.specs.PredicateLaws.{predicate_same, predicate_equivalence};
ghost use Rattle.asp_strata.specs.Recursion.{predicate_of, written};

use alpha_outside::{Name, OutOfMemory};
use asp_syntax::Atom;
use std::alloc::Global;
use std::hash::{Hash, Hasher};

/// A predicate: its sign, its name and its number of arguments.
#[derive(Debug, Drop)]
pub struct Predicate {
    pub negated: bool,
    pub name: Name,
    pub arity: usize,
}

impl PartialEq for Predicate {
    ghost eq = { predicate_eq };

    ghost laws = { partial_equiv_from_equiv predicate_equivalence };

    fn eq(&self, other: &Predicate) -> bool {
        self.negated == other.negated && self.arity == other.arity && self.name == other.name
    }
}

impl Eq for Predicate {
    ghost laws = { predicate_equivalence };
}

impl Hash for Predicate {
    ghost hash_input = { predicate_writes };

    ghost respects_eq = { λ p q e. ap predicate_writes (predicate_same p q e) };

    fn hash<H: Hasher>(&self, state: &mut H) {
        self.negated.hash(state);
        self.arity.hash(state);
        self.name.as_bytes().hash(state);
    }
}

impl Predicate {
    /// The predicate of an atom.
    pub fn of(alloc: Global, atom: &Atom) -> Result<Predicate, OutOfMemory>
        ensures { IfOk result (λ p. p ≡ predicate_of atom.now) }
    {
        let name = Name::from_bytes(alloc, atom.name.as_bytes())?;
        Ok(Predicate {
            negated: atom.negated,
            name,
            arity: atom.args.len(),
        })
    }

    /// Whether this is the predicate of this sign, name and number of arguments.
    pub fn is(&self, negated: bool, name: &[u8], arity: usize) -> bool
        ensures { result ≡ predicate_eq self.now (record { negated = negated; name = name.now; arity = arity }) }
    {
        self.negated == negated && self.arity == arity && self.name.as_bytes() == name
    }

    /// The name under which a fault speaks of the predicate: a negated one has its `-`.
    pub fn written(&self, alloc: Global) -> Result<Name, OutOfMemory>
        ensures { IfOk result (λ n. n ≡ written self.now) }
    {
        if !self.negated {
            return Name::from_bytes(alloc, self.name.as_bytes());
        }
        let mut bytes = Vec::new(alloc);
        bytes.push(b'-')?;
        bytes.extend_from_slice(self.name.as_bytes())?;
        Name::from_bytes(alloc, bytes.as_slice())
    }
}
