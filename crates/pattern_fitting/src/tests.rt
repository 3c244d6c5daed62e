use crate::{are_instances, can_become};
use alpha_outside::{Node, OutOfMemory, PatternTerm};
use std::alloc::Global;
use term_pool::TermPool;

// Whether `p(?0, ?0)` covers the atom of these two numbers.
fn covers_pair(alloc: Global, first: i64, second: i64) -> Result<bool, OutOfMemory> {
    let mut pool = TermPool::new(alloc);
    let Ok(left) = pool.intern(Node::Int(first)) else {
        return Err(OutOfMemory);
    };
    let Ok(right) = pool.intern(Node::Int(second)) else {
        return Err(OutOfMemory);
    };
    let terms = [PatternTerm::Hole(0), PatternTerm::Hole(0)];
    can_become(alloc, &pool, 1, &terms, &[left, right])
}

#[test]
fn a_hole_has_one_value(rt: HostRuntime) {
    assert!(rt; covers_pair(rt.alloc(), 1, 1) == Ok(true));
    assert!(rt; covers_pair(rt.alloc(), 1, 2) == Ok(false));
}

// Whether `p(?0, ?0)` becomes only what `p(?0, ?1)` does.
fn same_in_any(alloc: Global) -> Result<bool, OutOfMemory> {
    let pool = TermPool::new(alloc);
    let same = [PatternTerm::Hole(0), PatternTerm::Hole(0)];
    let any = [PatternTerm::Hole(0), PatternTerm::Hole(1)];
    are_instances(alloc, &pool, 1, &same, 2, &any)
}

// And whether `p(?0, ?1)` becomes only what `p(?0, ?0)` does.
fn any_in_same(alloc: Global) -> Result<bool, OutOfMemory> {
    let pool = TermPool::new(alloc);
    let same = [PatternTerm::Hole(0), PatternTerm::Hole(0)];
    let any = [PatternTerm::Hole(0), PatternTerm::Hole(1)];
    are_instances(alloc, &pool, 2, &any, 1, &same)
}

#[test]
fn holes_that_are_the_same_are_less_than_any(rt: HostRuntime) {
    assert!(rt; same_in_any(rt.alloc()) == Ok(true));
    assert!(rt; any_in_same(rt.alloc()) == Ok(false));
}
