use alpha_outside::OutOfMemory;
use asp_syntax::{CompareOp, Term};
use std::alloc::Global;
use std::marker::Model;

/// Two terms that are compared.
#[derive(Debug, Drop)]
pub struct Comparison {
    pub op: CompareOp,
    pub left: Term,
    pub right: Term,
}

impl Model for Comparison {
    ghost use Rattle.rewriting.specs.Parts.{Comparison as Compared};
    ghost use Rattle.std.specs.Coded.{codes};
    ghost use Rattle.asp_syntax.specs.contracts.tree.Term as term;

    ghost Value = { Compared };

    ghost coded = { Prim.hlevel (codes, term.the_row.coded) };

    ghost view = { λ c. record { op = c.op; left = c.left; right = c.right } };
}
