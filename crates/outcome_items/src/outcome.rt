//! What became of a request.

use crash_base::{Moment, Place};
use request_decisions::Refusal;
use request_tries::RequestOutcome;
use send_windows::WindowList;
use ssm_stub::CauseList;

/// What became of a request.
#[derive(Drop)]
pub enum ItemOutcome {
    /// It was refused before anything was asked of anyone.
    Refused(Refusal),
    /// A serial number was to be drawn for it, and none is left: this number was looked at.
    SerialsSpent {
        seen: u64,
    },
    /// Its moment is past the expiry of its cookie.
    Expired {
        now: Moment,
        expiry: Moment,
    },
    /// No brick of its cookie has its session: each has its cause.
    Lost(CauseList),
    /// It came to this end in the container. A page's session was written, where it had to be.
    Ended(RequestOutcome),
    /// It is committed, by an earlier call of it where `again` is true. Its session was to be written, and too few
    /// bricks could be asked: these windows were full.
    Overload {
        place: Place,
        again: bool,
        full: WindowList,
    },
    /// It is committed, by an earlier call of it where `again` is true. Its session was to be written, and too few
    /// bricks stored it: each other one has its cause.
    Missed {
        place: Place,
        again: bool,
        causes: CauseList,
    },
}
