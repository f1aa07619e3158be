//! Faults that a deployment is given, to be recovered from.

use crate::bounded::BoundedItems;
use crate::numbers::{ComponentNo, Level};

/// What a component that fails does.
#[derive(Clone, Copy, PartialEq)]
pub enum FaultKind {
    /// It fails at once.
    Raise,
    /// It does not come back.
    Hang,
    /// It comes back, and keeps memory each time.
    Leak,
}

/// A component fails from its entering of number `after` on, until a reboot of this level.
#[derive(Clone, Copy, PartialEq)]
pub struct FaultPlan {
    /// The component that fails.
    pub component: ComponentNo,
    /// How often it was entered, since the container's start, before the first time that it fails.
    pub after: u64,
    /// What it does then.
    pub kind: FaultKind,
    /// The least level of a reboot of its group that ends the plan. The number of a group is not looked at.
    pub cured_by: Level,
}

/// The most fault plans of a container.
pub const MAX_FAULT_PLANS: usize = 65_536;

/// Fault plans in the order of their numbers, the first of which is 0.
pub type FaultList = BoundedItems<FaultPlan, MAX_FAULT_PLANS>;
