//! Lines of the head.

use crate::line::HexBytes;
use crash_base::{ComponentName, FaultKind};

/// The least level of a reboot that cures a fault.
#[derive(Clone, Copy)]
pub enum CureLevel {
    /// One recovery group, which is that of the component.
    Group,
    /// The whole application.
    App,
    /// The process that the application runs in.
    Process,
}

/// A line of the head, with what its words say, in their order.
#[derive(Drop)]
pub enum HeadLine {
    /// The component.
    Component(ComponentName),
    /// The component, and the one that it refers to by a hard reference.
    Hard(ComponentName, ComponentName),
    /// The component, and the one that it refers to by a soft reference.
    Soft(ComponentName, ComponentName),
    /// The component, and the number of a table of its own.
    Owns(ComponentName, u64),
    /// The component that fails, how often it is entered before the first time that it fails, what it does then, and
    /// what cures it.
    Fault(ComponentName, u64, FaultKind, CureLevel),
    /// The most entries of the journal, and the most bytes.
    Limit(u64, u64),
    /// How many bricks there are, the most that a write asks, and the fewest that are to store its value.
    Bricks(u64, u64, u64),
    /// The key of the service, under which cookies are made.
    Key(HexBytes),
    /// Nothing: the components, the tables and the bricks are those of the site.
    Site,
}
