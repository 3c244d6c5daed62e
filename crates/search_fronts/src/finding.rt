//! A body that is active, from a front on.

ghost use Rattle.std.specs.Prelude.{◌≡◌, ◌≤◌, ℕ, Some, slice_get, IfSome, IfNone};
ghost use Rattle.atom_pool.specs.declared.instances.Made.{Made};
ghost use Rattle.choice_manager.specs.Active.{ArePlaced, IsActiveBody};

use alpha_outside::{AtomId, InstId};
use atom_pool::Instances;
use choice_manager::active_body;
use trail::Trail;

/// The first active body of the instances from this one on. It takes no memory.
pub fn first_active(instances: &Instances, trail: &Trail, from: u32) -> Option<AtomId>
    requires { ArePlaced trail.now.atoms instances.now }
    ensures some { IfSome result (λ b. (i : ℕ) × (k : Made) × (slice_get instances.now i ≡ Some k) × IsActiveBody trail.now.stack k b) }
    ensures none { IfNone result ((i : ℕ) → from ≤ i → (k : Made) → slice_get instances.now i ≡ Some k → (b : ℕ) → ¬ IsActiveBody trail.now.stack k b) }
{
    for i in from..instances.len() {
        if let Some(body) = active_body(instances.get(InstId(i)), trail) {
            return Some(body);
        }
    }
    None
}
