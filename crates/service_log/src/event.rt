//! What happens to a server of a site.

use crash_base::Scope;

/// What happens to a server of a site, as its operator is told.
#[derive(Clone, Copy)]
pub enum ServiceEvent {
    /// A boot was started, over so many rows of its keeper.
    Started { boot: u32, rows: u64 },
    /// A group, or all of the application, was rebooted, and was down for so long.
    Rebooted { scope: Scope, milliseconds: u64 },
    /// The container was stopped, to be started again, with so many entries in its journal.
    Stopped { entries: u64 },
    /// Reboots do not help: a person is called.
    HumanNeeded,
}
