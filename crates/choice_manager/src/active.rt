//! When the body of one instance is active.

ghost use Rattle.std.specs.Prelude.{◌≡◌, ◌<◌, ◌⊎◌, ℕ, None, Some, true, false, IfSome, IfNone};
ghost use Rattle.lists.specs.Lists.{Each};
ghost use Rattle.alpha_outside.specs.declared.literal.Value.{Value};
ghost use Rattle.alpha_outside.specs.declared.literal.Value.TheVariants.{True, MustBe};
ghost use Rattle.search_values.specs.Values.{Holds, lit, value_of, is_up as up_of};
ghost use Rattle.choice_manager.specs.Active.{IsActiveBody};

use alpha_outside::{AtomId, Value};
use atom_pool::Made;
use trail::Trail;

/// The body atom of the instance, where it is active. Where it has a value that says otherwise, no other atom is looked at.
pub fn active_body(made: &Made, trail: &Trail) -> Option<AtomId>
    requires body { (b : ℕ) → made.now.body ≡ Some b → b < trail.now.atoms }
    requires pos { Each (λ p. p < trail.now.atoms) made.now.pos }
    requires neg { Each (λ n. n < trail.now.atoms) made.now.neg }
    ensures some { IfSome result (IsActiveBody trail.now.stack made.now) }
    ensures none { IfNone result ((b : ℕ) → ¬ IsActiveBody trail.now.stack made.now b) }
{
    let body = made.body?;
    if may_rise(trail.value(body))
        && are_true(trail, made.pos.as_slice())
        && are_not_up(trail, made.neg.as_slice())
    {
        Some(body)
    } else {
        None
    }
}

// Whether it is unassigned or must-be-true.
fn may_rise(value: Option<Value>) -> bool
    ensures yes { result ≡ true → (value ≡ None) ⊎ (value ≡ Some MustBe) }
    ensures no { result ≡ false → ¬ ((value ≡ None) ⊎ (value ≡ Some MustBe)) }
{
    match value {
        None => true,
        Some(Value::MustBe) => true,
        Some(_) => false,
    }
}

// Whether it is true.
fn is_true(value: Option<Value>) -> bool
    ensures yes { result ≡ true → value ≡ Some True }
    ensures no { result ≡ false → ¬ (value ≡ Some True) }
{
    match value {
        Some(Value::True) => true,
        _ => false,
    }
}

// Whether all these atoms are true.
fn are_true(trail: &Trail, atoms: &[AtomId]) -> bool
    requires { Each (λ a. a < trail.now.atoms) atoms.now }
    ensures yes { result ≡ true → Each (λ a. value_of trail.now.stack a ≡ Some True) atoms.now }
    ensures no { result ≡ false → ¬ Each (λ a. value_of trail.now.stack a ≡ Some True) atoms.now }
{
    for a in atoms {
        if !is_true(trail.value(*a)) {
            return false;
        }
    }
    true
}

// Whether it is true or must-be-true.
fn is_up(value: Option<Value>) -> bool
    ensures yes { result ≡ true → (v : Value) × (value ≡ Some v) × (up_of v ≡ true) }
    ensures no { result ≡ false → (v : Value) → value ≡ Some v → ¬ (up_of v ≡ true) }
{
    match value {
        Some(Value::True) => true,
        Some(Value::MustBe) => true,
        _ => false,
    }
}

// Whether none of these atoms is true or must-be-true.
fn are_not_up(trail: &Trail, atoms: &[AtomId]) -> bool
    requires { Each (λ a. a < trail.now.atoms) atoms.now }
    ensures yes { result ≡ true → Each (λ a. ¬ Holds trail.now.stack (lit a true)) atoms.now }
    ensures no { result ≡ false → ¬ Each (λ a. ¬ Holds trail.now.stack (lit a true)) atoms.now }
{
    for a in atoms {
        if is_up(trail.value(*a)) {
            return false;
        }
    }
    true
}
