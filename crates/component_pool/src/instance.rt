//! A running copy of a component.

ghost use Rattle.std.specs.Prelude.{◌≡◌};

use crash_base::ComponentNo;
use std::marker::Model;

/// The token of an instance that is taken, which contracts see as the number of that instance: its key among those of
/// the pool. Only a pool makes one, and it cannot be cloned: so no two frames have one instance, and an instance is
/// given back at most once. The number is given again once the instance is given back or gone.
#[derive(Drop)]
pub struct InstanceNo {
    key: u64,
}

impl Model for InstanceNo {
    ghost use Rattle.std.specs.Prelude.{ℕ};

    ghost Value = { ℕ };

    ghost view = { λ i. i.key };
}

impl InstanceNo {
    /// The token of the instance under a key.
    pub(crate) fn new(key: u64) -> InstanceNo
        ensures { result ≡ key }
    {
        InstanceNo { key }
    }

    /// The number of the instance.
    pub fn number(&self) -> u64
        ensures { result ≡ self.now }
    {
        self.key
    }
}

/// A running copy of a component.
#[derive(Clone, Copy)]
pub struct Instance {
    /// The component that it is a copy of.
    pub component: ComponentNo,
    /// How often the component's group had been rebooted when it was made.
    pub generation: u64,
    /// Whether it serves a frame of a call. Where it does not, it is idle.
    pub is_taken: bool,
}
