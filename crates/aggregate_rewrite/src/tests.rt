ghost use Rattle.std.specs.Prelude.{IfOk};
ghost use Rattle.lists.specs.Lists.{Each};
ghost use Rattle.single_rules.specs.SingleRules.{AreSingleRules, IsWellFormedRule};
ghost use Rattle.rewriting.specs.Parts.{HasNoAggregate};

use crate::rewrite;
use alpha_outside::{ArithOp, Boxed, List, Name, OutOfMemory, Pred, RuleKind};
use asp_syntax::{Atom, CompareOp, Item, Literal, Term};
use core_rules::{CoreAtom, CoreRule, CoreTerm, Test};
use single_rules::SingleRule;
use std::alloc::Global;
use std::test::Fail;

// The constraint `:- q(1 + 2).`
fn constraint(alloc: Global) -> Result<List<SingleRule>, OutOfMemory>
    ensures single { IfOk result AreSingleRules }
    ensures well_formed { IfOk result (Each IsWellFormedRule) }
    ensures built { IfOk result (Each HasNoAggregate) }
{
    let left = Boxed::new(alloc, Term::Int(1))?;
    let right = Boxed::new(alloc, Term::Int(2))?;
    let mut args = List::new(alloc);
    args.push(Term::Arith(ArithOp::Add, left, right))?;
    let atom = Atom {
        negated: false,
        name: Name::from_bytes(alloc, b"q")?,
        args,
    };
    let mut body = List::new(alloc);
    body.push(Item::Plain(Literal::Positive(atom)))?;
    let mut rules = List::new(alloc);
    rules.push(SingleRule {
        kind: RuleKind::Constraint,
        head: None,
        body,
        defined: List::new(alloc),
        line: 7,
    })?;
    Ok(rules)
}

// Whether these are one atom q with variable 0.
fn is_atom_of_first(atoms: &[CoreAtom]) -> bool {
    match atoms {
        [atom] => match &atom.pred {
            Pred::User {
                negated,
                name,
                arity,
            } => {
                !*negated
                    && name.as_bytes() == b"q".as_slice()
                    && *arity == 1
                    && matches!(atom.args.as_slice(), [CoreTerm::Var(0)])
            }
            _ => false,
        },
        _ => false,
    }
}

// Whether this is one test that variable 0 is a sum.
fn is_test_of_first(tests: &[Test]) -> bool {
    match tests {
        [Test::Compare(op, CoreTerm::Var(0), CoreTerm::Arith(_, _, _))] => *op == CompareOp::Equal,
        _ => false,
    }
}

// Whether this is `:- q(V0), V0 = 1 + 2.` of line 7.
fn is_constraint(rule: &CoreRule) -> bool {
    rule.kind == RuleKind::Constraint
        && rule.head.is_none()
        && is_atom_of_first(rule.pos.as_slice())
        && rule.neg.is_empty()
        && is_test_of_first(rule.tests.as_slice())
        && rule.variables == 1
        && rule.line == 7
}

#[test]
fn arithmetic_goes_out(rt: HostRuntime) -> Result<(), Fail> {
    let rules = constraint(rt.alloc())?;
    let core = rewrite(rt.alloc(), rules)?;
    assert_eq!(rt; core.rules.len(), 1);
    let found = core.rules.get(0).map_or(false, |rule| is_constraint(rule));
    assert!(rt; found);
    Ok(())
}
