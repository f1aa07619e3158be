//! A value that a brick keeps, and the limits of a brick.

ghost use Rattle.std.specs.Prelude.{◌≡◌, IfOk};

use crash_base::{Moment, OutOfMemory, SessionBytes, SessionKey, Version};
use std::alloc::Global;

/// The most values that a brick keeps.
pub const MAX_BRICK_VALUES: u64 = 65_536;

/// The most bytes that the values of a brick have together.
pub const MAX_BRICK_BYTES: u64 = 67_108_864;

/// A value that a brick keeps.
#[derive(Drop)]
pub struct Kept {
    /// Of which session it is.
    pub key: SessionKey,
    /// Which version of the session's value it is.
    pub version: Version,
    /// Until when it is asked for. No sweep takes it until `SWEEP_GRACE` past this.
    pub expiry: Moment,
    /// The value.
    pub value: SessionBytes,
}

/// A copy of a value.
pub(crate) fn copied_value(alloc: Global, value: &SessionBytes) -> Result<SessionBytes, OutOfMemory>
    ensures { IfOk result (λ copy. copy ≡ value.now) }
{
    Ok(SessionBytes::from_vec(Vec::from_slice(alloc, value.as_slice())?))
}
