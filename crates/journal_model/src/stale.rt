//! What a stale touch shows.

use crash_base::GroupNo;

/// A group that was rebooted after a call entered it.
#[derive(Clone, Copy)]
pub struct Stale {
    pub group: GroupNo,
    /// The generation that the group had when the call first entered it.
    pub had: u64,
    /// The generation that it has now.
    pub now: u64,
}
