//! The instances whose bodies may be chosen. An active one is looked for in the order in which they were noted.

ghost use Rattle.std.specs.Prelude.{◌≡◌, ◌<◌, [], Some, IfSome, IfNone, OnOk, OnErr, length, slice_get};
ghost use Rattle.atom_pool.specs.declared.instances.Made.{Made as Instance};
ghost use Rattle.choice_manager.specs.Active.{with_noted, AreThere, ArePlaced, IsActiveIn, NoneActiveIn};

use crate::active::active_body;
use alpha_outside::{AtomId, InstId, OutOfMemory};
use atom_pool::Instances;
use std::alloc::Global;
use std::marker::Model;
use trail::Trail;

/// The noted instances that have a body atom.
#[derive(Drop)]
pub struct Choices {
    noted: Vec<InstId>,
}

impl Model for Choices {
    ghost use Rattle.std.specs.Prelude.{List, ℕ};

    ghost Value = { List ℕ };

    ghost view = { λ c. c.noted.items };
}

impl Choices {
    /// No instances. Takes no memory.
    pub fn new(alloc: Global) -> Choices
        ensures { result ≡ [] }
    {
        Choices {
            noted: Vec::new(alloc),
        }
    }

    /// Notes an instance; one without a body atom is passed over.
    pub fn note_instance(&mut self, inst: InstId, instances: &Instances) -> Result<(), OutOfMemory>
        requires { inst < length instances.now }
        ensures ok { OnOk result ((k : Instance) → slice_get instances.now inst ≡ Some k → self.new ≡ with_noted self.old inst k.body) }
        ensures err { OnErr result (self.new ≡ self.old) }
    {
        match instances.get(inst).body {
            Some(_) => {
                self.noted.push(inst)?;
                Ok(())
            }
            None => Ok(()),
        }
    }

    /// An active body of a noted instance, and none exactly where there is none. It takes no memory.
    pub fn next_active(&self, instances: &Instances, trail: &Trail) -> Option<AtomId>
        requires there { AreThere instances.now self.now }
        requires placed { ArePlaced trail.now.atoms instances.now }
        ensures some { IfSome result (IsActiveIn trail.now.stack instances.now self.now) }
        ensures none { IfNone result (NoneActiveIn trail.now.stack instances.now self.now) }
    {
        for inst in &self.noted {
            if let Some(body) = active_body(instances.get(*inst), trail) {
                return Some(body);
            }
        }
        None
    }
}
