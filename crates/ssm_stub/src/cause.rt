//! Why a brick did not serve.

use crash_base::{BrickNo, Items, Moment};

/// Why a brick did not serve.
#[derive(Clone, Copy)]
pub enum Cause {
    /// The link answered that the brick was silent: to the send of the ask, or after it, before
    /// `MAX_STRAYS` other frames came.
    Silent,
    /// `MAX_STRAYS` frames came, and none of them was a lawful reply.
    Strayed,
    /// The brick has no room for the value. It keeps so many values, which have so many bytes.
    Full { entries: u32, bytes: u64 },
    /// The brick has this incarnation, and not the one that stored the value.
    Crashed { incarnation: u64 },
    /// The brick was swept at this moment, which is past the lease and the grace.
    Swept { moment: Moment },
}

/// A brick, and why it did not serve.
#[derive(Clone, Copy)]
pub struct BrickCause {
    pub brick: BrickNo,
    pub cause: Cause,
}

/// Bricks with their causes, in the order in which they were asked.
pub type CauseList = Items<BrickCause>;
