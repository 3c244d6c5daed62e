use crate::{has_no_holes, shape_under, term_under};
use alpha_outside::{List, PatternTerm, Pred};
use core_rules::{CoreAtom, CoreTerm};
use std::test::Fail;
use term_pool::TermPool;

#[test]
fn what_has_no_variables_has_no_holes(rt: HostRuntime) -> Result<(), Fail> {
    let alloc = rt.alloc();
    let mut pool = TermPool::new(alloc);
    let terms = Vec::new(alloc);
    let number = term_under(alloc, &mut pool, 0, &terms, &CoreTerm::Int(5))?;
    assert!(rt; matches!(number, PatternTerm::Known(_)));
    let atom = CoreAtom {
        pred: Pred::Domain { agg: 0, arity: 0 },
        args: List::new(alloc),
    };
    let shape = shape_under(alloc, &mut pool, 0, &terms, &atom)?;
    assert!(rt; has_no_holes(shape.args.as_slice()));
    Ok(())
}
