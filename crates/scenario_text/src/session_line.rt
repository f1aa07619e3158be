//! The lines of a scenario that are about sessions.

use crate::line::HexBytes;
use crash_base::CookieText;

/// The highest number of a session key. The lowest is 1.
pub const MAX_KEY: u64 = 65_535;

/// How a pass that was held is spent.
#[derive(Clone, Copy)]
pub enum Freed {
    /// As one that was answered.
    Answered,
    /// As one that met silence.
    Silent,
}

/// A line about sessions, with what its words say, in their order. A session key `kN` is its number N.
#[derive(Drop)]
pub enum SessionLine {
    /// The present moment.
    Now(u64),
    /// The key, and the value that is written under it.
    Write(u64, HexBytes),
    /// The key.
    Fetch(u64),
    /// The key.
    Cookie(u64),
    /// The text of a cookie.
    Present(CookieText),
    /// The brick, and how many of its next replies are lost.
    Lose(u64, u64),
    /// The brick, and how many of the next asks to it are dropped.
    Mute(u64, u64),
    /// The brick, and which of its replies comes once more, counted from 1.
    Repeat(u64, u64),
    /// The brick.
    Crash(u64),
    /// The brick, and the moment at which it is swept, where it is not the present one.
    Sweep(u64, Option<u64>),
    /// The brick.
    Values(u64),
    /// Nothing: the windows of all bricks are written.
    Windows,
    /// The brick to which a pass is held.
    Hold(u64),
    /// The brick whose last held pass is spent, and how.
    Free(u64, Freed),
}
