ghost use Rattle.std.specs.Prelude.{◌≡◌, ◌≤◌, ◌<◌, All, IfOk, length};
ghost use Rattle.term_pool.specs.Nodes.{PartsBelow, HasArguments};

use crate::{PoolFault, TermPool};
use alpha_outside::{List, Name, Node, TermId};
use std::alloc::Global;
use std::test::Fail;

fn id_of(pool: &mut TermPool, node: Node) -> Result<TermId, Fail>
    requires parts { PartsBelow (length pool.old) node }
    requires arguments { HasArguments node }
    ensures there { IfOk result (λ id. id < length pool.new) }
    ensures grows { length pool.old ≤ length pool.new }
{
    Ok(pool.intern(node)?)
}

fn symbol(alloc: Global, pool: &mut TermPool, name: &[u8]) -> Result<TermId, Fail>
    ensures there { IfOk result (λ id. id < length pool.new) }
    ensures grows { length pool.old ≤ length pool.new }
{
    let name = Name::from_bytes(alloc, name)?;
    id_of(pool, Node::Symbol(name))
}

fn call(alloc: Global, pool: &mut TermPool, name: &[u8], args: &[TermId]) -> Result<TermId, Fail>
    requires parts { All (λ a. a < length pool.old) args.now }
    requires arguments { 0 < length args.now }
    ensures there { IfOk result (λ id. id < length pool.new) }
    ensures grows { length pool.old ≤ length pool.new }
{
    let name = Name::from_bytes(alloc, name)?;
    let args = List::from_slice(alloc, args)?;
    id_of(pool, Node::Fun(name, args))
}

#[test]
fn values_have_one_id_and_stand_in_order(rt: HostRuntime) -> Result<(), Fail> {
    let alloc = rt.alloc();
    let mut pool = TermPool::new(alloc);
    let call_one = {
        let one = id_of(&mut pool, Node::Int(1))?;
        call(alloc, &mut pool, b"f", &[one])?
    };
    let zero = id_of(&mut pool, Node::Int(0))?;
    let call_zeros = call(alloc, &mut pool, b"f", &[zero, zero])?;
    let text = Name::from_bytes(alloc, b"b")?;
    let text = id_of(&mut pool, Node::Text(text))?;
    let g = symbol(alloc, &mut pool, b"g")?;
    let a = symbol(alloc, &mut pool, b"a")?;
    let negative = id_of(&mut pool, Node::Int(-1))?;
    let len = pool.len();
    let again = call(alloc, &mut pool, b"f", &[zero, zero])?;
    assert_eq!(rt; (again, pool.len()), (call_zeros, len));

    let rows = [
        (negative, 1, 2),
        (zero, 1, 1),
        (a, 1, 1),
        (g, 1, 1),
        (text, 1, 3),
        (call_one, 2, 4),
        (call_zeros, 3, 6),
    ];
    for i in 0..rows.len() {
        let (left, size, text_len) = rows[i];
        assert!(rt; left.0 < pool.len());
        assert_eq!(rt;
            (pool.size(left), pool.text_len(left)),
            (size, text_len),
            "row {i}"
        );
        for j in 0..rows.len() {
            let (right, _, _) = rows[j];
            assert!(rt; right.0 < pool.len());
            assert_eq!(rt; pool.compare(left, right), i.cmp(&j), "rows {i} and {j}");
        }
    }
    Ok(())
}

#[test]
fn terms_may_have_1048576_symbols(rt: HostRuntime) -> Result<(), Fail> {
    let alloc = rt.alloc();
    let mut pool = TermPool::new(alloc);
    let mut term = symbol(alloc, &mut pool, b"a")?;
    for _ in 0..19 {
        assert!(rt; term.0 < pool.len());
        term = call(alloc, &mut pool, b"f", &[term, term])?;
    }
    assert!(rt; term.0 < pool.len());
    assert_eq!(rt; pool.size(term), 1_048_575);

    let name = Name::from_bytes(alloc, b"f")?;
    let args = List::from_slice(alloc, &[term, term])?;
    let refused = pool.intern(Node::Fun(name, args));
    assert_eq!(rt; refused, Err(PoolFault::TooLarge { size: 2_097_151 }));

    let largest = call(alloc, &mut pool, b"g", &[term])?;
    assert_eq!(rt; pool.size(largest), 1_048_576);
    let name = Name::from_bytes(alloc, b"g")?;
    let args = List::from_slice(alloc, &[largest])?;
    let refused = pool.intern(Node::Fun(name, args));
    assert_eq!(rt; refused, Err(PoolFault::TooLarge { size: 1_048_577 }));
    assert_eq!(rt; pool.len(), 21);
    Ok(())
}
