//! What keeps a call from its commit though no group of it was rebooted.

use crate::entry::ReadMark;
use crash_base::Place;

/// A row or a table that was written after a call began, which read or writes it.
#[derive(Clone, Copy)]
pub struct Conflict {
    /// What the call read, or the row that it writes.
    pub mark: ReadMark,
    /// The length of the journal when the call began.
    pub at: Place,
    /// The place after the last commit that writes it.
    pub newest: Place,
}
