//! What happens to a brick.

use crate::kept::Kept;
use crash_base::Moment;

/// What happened to a brick. A Put that it had no room for is none.
#[derive(Drop)]
pub enum BrickEvent {
    /// It stored this value, in place of one under the same key and version, if there was one.
    Stored(Kept),
    /// It was swept at this moment.
    Sweep(Moment),
    /// It lost all that it kept.
    Crash,
}
