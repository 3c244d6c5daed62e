//! Named atoms: which have no value, and which of those that entries of the trail give values are must-be-true.

ghost use Rattle.std.specs.Prelude.{◌≡◌, ◌<◌, ◌≤◌, true, false, None, Some, length, drop, reverse, IfSome, IfNone};
ghost use Rattle.lists.specs.Lists.{Each};
ghost use Rattle.search_values.specs.Values.{Value as AnyValue, MustBe, value_of};
ghost use Rattle.closing.specs.Closable.{IsNamed};

use alpha_outside::{AtomId, Value};
use atom_pool::{AtomNode, Ground};
use search_values::Entry;
use trail::Trail;

// Whether the id is that of a named atom, and not of a body.
fn is_named(ground: &Ground, atom: AtomId) -> bool
    requires { atom < length ground.now.atoms.atoms }
    ensures yes { result ≡ true → IsNamed ground.now atom }
    ensures no { result ≡ false → ¬ IsNamed ground.now atom }
{
    match ground.atoms.get(atom) {
        AtomNode::Named { pred: _, args: _ } => true,
        AtomNode::Body(_) => false,
    }
}

// Whether it is must-be-true.
fn must_be(value: Option<Value>) -> bool
    ensures yes { result ≡ true → value ≡ Some MustBe }
    ensures no { result ≡ false → ¬ (value ≡ Some MustBe) }
{
    match value {
        Some(Value::MustBe) => true,
        _ => false,
    }
}

/// Whether it is a named atom without a value.
pub fn is_open(ground: &Ground, trail: &Trail, atom: AtomId) -> bool
    requires there { atom < length ground.now.atoms.atoms }
    requires places { length ground.now.atoms.atoms ≤ trail.now.atoms }
    ensures named { result ≡ true → IsNamed ground.now atom }
    ensures unassigned { result ≡ true → value_of trail.now.stack atom ≡ None }
    ensures no { result ≡ false → IsNamed ground.now atom → (v : AnyValue) × (value_of trail.now.stack atom ≡ Some v) }
{
    match trail.value(atom) {
        None => is_named(ground, atom),
        Some(_) => false,
    }
}

// The first of the entries' atoms that is a named one and must-be-true.
fn stuck_among(ground: &Ground, trail: &Trail, entries: &[Entry]) -> Option<AtomId>
    requires places { length ground.now.atoms.atoms ≤ trail.now.atoms }
    requires there { Each (λ e. e.atom < length ground.now.atoms.atoms) entries.now }
    ensures some { IfSome result (λ a. IsNamed ground.now a × (value_of trail.now.stack a ≡ Some MustBe)) }
    ensures none { IfNone result (Each (λ e. IsNamed ground.now e.atom → ¬ (value_of trail.now.stack e.atom ≡ Some MustBe)) entries.now) }
{
    for entry in entries {
        let atom = entry.atom;
        if must_be(trail.value(atom)) && is_named(ground, atom) {
            return Some(atom);
        }
    }
    None
}

/// The first named atom that is must-be-true, of those to which the entries from this place on give values.
pub fn stuck_since(ground: &Ground, trail: &Trail, from: u32) -> Option<AtomId>
    requires within { from ≤ length trail.now.stack }
    requires places { length ground.now.atoms.atoms ≤ trail.now.atoms }
    requires there { Each (λ e. e.atom < length ground.now.atoms.atoms) (drop from (reverse trail.now.stack)) }
    ensures some { IfSome result (λ a. IsNamed ground.now a × (value_of trail.now.stack a ≡ Some MustBe)) }
    ensures none { IfNone result (Each (λ e. IsNamed ground.now e.atom → ¬ (value_of trail.now.stack e.atom ≡ Some MustBe)) (drop from (reverse trail.now.stack))) }
{
    stuck_among(ground, trail, &trail.entries()[from as usize..])
}
