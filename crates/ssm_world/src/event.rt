//! What happens in a world.

use crash_base::{BrickNo, Moment, SessionBytes, SessionKey, Version};
use session_cookie::Cookie;
use ssm_frames::Frame;
use ssm_stub::BrickList;

/// A frame on its way.
#[derive(Drop)]
pub struct Packet {
    /// The brick that a request is for, or that made a reply.
    pub brick: BrickNo,
    /// The request or the reply.
    pub frame: Frame,
}

/// An event of a world. Calls and packets are numbered from 0, in the order in which they begin or are sent.
#[derive(Drop)]
pub enum WorldEvent {
    /// A write begins, whose value at least so many of these bricks are to store. It may where no call
    /// has its nonce, the bricks are 1 to 16 distinct ones, and `least` is from 1 to their number.
    Write {
        nonce: Version,
        key: SessionKey,
        value: SessionBytes,
        expiry: Moment,
        bricks: BrickList,
        least: u16,
    },
    /// A read of a cookie begins. It may where no call has its nonce, and the cookie names 1 to 16 distinct
    /// bricks.
    Read {
        nonce: Version,
        now: Moment,
        cookie: Cookie,
    },
    /// A call that is to send its ask sends it. The packet is sent where the link is not silent to it, and
    /// where it is, only if `sent` says so.
    Send {
        call: u64,
        silent: bool,
        sent: bool,
    },
    /// A request that was sent reaches its brick, if there is one, and the brick's reply is sent.
    Deliver {
        packet: u64,
    },
    /// A reply that was sent comes to a call that is to receive from its brick.
    Hear {
        call: u64,
        packet: u64,
    },
    /// The link is silent to a call that is to receive.
    Hush {
        call: u64,
    },
    /// A brick crashes. It may where its incarnation is below 2^64 - 1.
    Crash {
        brick: BrickNo,
    },
    /// A brick is swept at a moment.
    Sweep {
        brick: BrickNo,
        moment: Moment,
    },
}
