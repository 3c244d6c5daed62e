//! The values before the first closed entry: what a justification may rest on, since a closed atom is false for no nogood's sake.

ghost use Rattle.std.specs.Prelude.{◌≡◌, ◌↔◌, Some, IfOk, IsTrue, slice_get};
ghost use Rattle.pattern_covers.specs.Base.{AreBaseValues};

use alpha_outside::{AtomId, OutOfMemory, Value};
use search_values::Why;
use std::alloc::Global;
use trail::Trail;

/// The value of each atom before the first closed entry, or now where none is closed. One look at each entry up to there.
pub fn base_values(alloc: Global, trail: &Trail) -> Result<Vec<Option<Value>>, OutOfMemory>
    ensures { IfOk result (λ values. AreBaseValues trail.now.atoms trail.now.stack values.items) }
{
    let mut values = Vec::new(alloc);
    if values.resize(trail.atoms() as usize, None).is_err() {
        return Err(OutOfMemory);
    }
    for entry in trail.entries() {
        match entry.why {
            Why::Closed(_) => return Ok(values),
            _ => values[entry.atom.place()] = Some(entry.value),
        }
    }
    Ok(values)
}

/// Whether the atom had this value.
pub fn had(values: &[Option<Value>], atom: AtomId, value: Value) -> bool
    ensures { IsTrue result ↔ (slice_get values.now atom ≡ Some (Some value)) }
{
    match values.get(atom.place()) {
        Some(found) => *found == Some(value),
        None => false,
    }
}
