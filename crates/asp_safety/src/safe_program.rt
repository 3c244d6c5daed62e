//! Programs that were checked.

ghost use Rattle.std.specs.Prelude.{◌≡◌, ◌↔◌, None};
ghost use Rattle.lists.specs.Lists.{◌∈◌, Each};
ghost use Rattle.asp_safety.specs.Binding.{IsSafe};
ghost use Rattle.asp_strata.specs.Recursion.{HasNoRecursion, occurring};
ghost use Rattle.asp_strata.specs.Strata.{IsStratification, stratum_of};
ghost use Rattle.asp_safety.specs.Checked.{IsChecked};

use alpha_outside::List;
use asp_strata::Layers;
use asp_syntax::Statement;
use std::marker::Model;

/// A program whose statements are safe and have no recursive aggregate, with the strata of its predicates.
#[derive(Drop)]
pub struct SafeProgram {
    statements: List<Statement>,
    layers: Layers,
}

impl Model for SafeProgram {
    ghost use Rattle.asp_safety.specs.Checked.{Checked, IsChecked};
    ghost use Rattle.asp_syntax.specs.contracts.tree.Term as term;
    ghost use Rattle.std.specs.Coded.{codes};

    ghost Value = { Checked };

    ghost coded = { Prim.hlevel (codes, term.the_row.coded) };

    ghost view = { λ p. record { statements = p.statements; levels = p.layers } };

    ghost invariant = { λ p. IsChecked (record { statements = p.statements; levels = p.layers }) };
}

impl SafeProgram {
    // Keeps statements that were checked, with the layers of their predicates.
    pub(crate) fn keep(statements: List<Statement>, layers: Layers) -> SafeProgram
        requires { IsChecked (record { statements = statements; levels = layers }) }
        ensures { result ≡ record { statements = statements; levels = layers } }
    {
        SafeProgram { statements, layers }
    }

    /// The statements, in the order of the text.
    pub fn statements(&self) -> &[Statement]
        ensures statements { result.now ≡ self.now.statements }
        ensures safe { Each IsSafe self.now.statements }
        ensures no_recursion { Each (HasNoRecursion self.now.statements) self.now.statements }
    {
        self.statements.as_slice()
    }

    /// The stratum of a predicate, if it occurs in the program. In each statement the strata of the head predicates are at least those
    /// of the predicates in its body outside aggregates and in its choice elements' conditions, and greater than those of the predicates
    /// in its aggregates' elements. It takes no memory.
    pub fn stratum(&self, negated: bool, name: &[u8], arity: u32) -> Option<u32>
        ensures stratum { result ≡ stratum_of self.now.levels (record { negated = negated; name = name.now; arity = arity }) }
        ensures none { (result ≡ None) ↔ ¬ (record { negated = negated; name = name.now; arity = arity } ∈ occurring self.now.statements) }
        ensures strata { IsStratification self.now.statements (stratum_of self.now.levels) }
    {
        self.layers.stratum(negated, name, arity)
    }
}
