//! Frames, which calls and bricks send to each other.

ghost use Rattle.std.specs.Prelude.{◌≡◌};
ghost use Rattle.ssm_frames.specs.Requests.{is_request};

use crash_base::{BrickNo, Moment, SessionBytes, SessionKey, Version};

/// A frame: a request to a brick, or a brick's reply. Each carries the nonce of its call.
#[derive(Drop)]
pub enum Frame {
    /// Asks a brick to keep a value under this key and version. Its lease ends at `expiry`.
    Put {
        nonce: Version,
        key: SessionKey,
        version: Version,
        expiry: Moment,
        value: SessionBytes,
    },
    /// Asks a brick for the value that it keeps under this key and version.
    Get {
        nonce: Version,
        key: SessionKey,
        version: Version,
    },
    /// Asks a brick to throw away the values whose expiry is more than 60,000 ms (`SWEEP_GRACE`)
    /// before `moment`.
    Sweep {
        nonce: Version,
        moment: Moment,
    },
    /// The brick keeps the value of the Put with this nonce.
    Stored {
        nonce: Version,
        key: SessionKey,
        version: Version,
        brick: BrickNo,
        incarnation: u64,
    },
    /// The brick keeps this value under this key and version. Its lease ends at `expiry`.
    Found {
        nonce: Version,
        key: SessionKey,
        version: Version,
        brick: BrickNo,
        incarnation: u64,
        expiry: Moment,
        value: SessionBytes,
    },
    /// The brick keeps no value under this key and version. `swept` is the greatest moment that it was
    /// swept at since it last crashed, or 0.
    Absent {
        nonce: Version,
        key: SessionKey,
        version: Version,
        brick: BrickNo,
        incarnation: u64,
        swept: Moment,
    },
    /// The brick has no room for the value of the Put with this nonce. It keeps so many values, which
    /// have so many bytes together.
    BrickFull {
        nonce: Version,
        key: SessionKey,
        version: Version,
        brick: BrickNo,
        incarnation: u64,
        entries: u32,
        bytes: u64,
    },
    /// The brick was swept at this moment.
    Swept {
        nonce: Version,
        brick: BrickNo,
        incarnation: u64,
        moment: Moment,
    },
}

/// By how many milliseconds a sweep's moment has to be past an expiry for the value to go.
pub const SWEEP_GRACE: u64 = 60_000;

/// Whether a frame is a request to a brick: a Put, a Get or a Sweep. The others are replies. It takes
/// no memory.
pub fn is_request(frame: &Frame) -> bool
    ensures { result ≡ is_request frame.now }
{
    matches!(
        frame,
        Frame::Put { .. } | Frame::Get { .. } | Frame::Sweep { .. }
    )
}
