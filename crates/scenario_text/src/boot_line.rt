//! Lines over the boot.

use crash_base::{ComponentName, Items, WordText};

/// The most components that a line `report` may name.
pub const MAX_PATH: usize = 16;

/// Names of components.
pub type NameList = Items<ComponentName>;

/// A line over the boot, with what its words say, in their order. A caller `cN` is its number N.
///
/// A `begin` and a `drop` are among these since they act on the boot's room for tickets: a call that begins takes its
/// ticket from there, and one that is dropped gives it back. A `report` is among these since reboots are decided by it.
#[derive(Drop)]
pub enum BootLine {
    /// The caller that begins a call.
    Begin(u64),
    /// The caller whose call is dropped.
    Drop(u64),
    /// The word for what goes down: the name of a component, or `app` for the whole application. A word that is
    /// neither stands here too, until the boot is asked what it names.
    Down(WordText),
    /// The word for what comes up.
    Up(WordText),
    /// The word for what goes down and comes up at once.
    Reboot(WordText),
    /// The current rows are written.
    Table,
    /// The journal is written.
    Journal,
    /// The names of the components that a request went through which failed, one or more. A name that no component has
    /// stands here too, and so do more names than `MAX_PATH`, until the request is reported.
    Report(NameList),
}
