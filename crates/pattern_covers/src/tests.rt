use crate::{base_values, had};
use alpha_outside::{AtomId, Value};
use std::test::Fail;
use trail::Trail;

#[test]
fn values_are_those_before_the_first_closed_entry(rt: HostRuntime) -> Result<(), Fail> {
    let mut trail = Trail::new(rt.alloc());
    trail.reserve_atom()?;
    trail.reserve_atom()?;
    trail.mark(0);
    trail.decide(AtomId(0), true);
    trail.mark(0);
    trail.close(AtomId(1));
    let values = base_values(rt.alloc(), &trail)?;
    assert!(rt; had(&values, AtomId(0), Value::True));
    assert!(rt; !had(&values, AtomId(0), Value::False));
    assert!(rt; !had(&values, AtomId(1), Value::False));
    Ok(())
}
