//! The lines of a scenario that are about connections of browsers.

use crate::line::HexBytes;

/// The highest number of a connection. The lowest is 1.
pub const MAX_SEAT: u64 = 64;

/// A line about connections, with what its words say, in their order. A connection `sN` is its number N.
#[derive(Drop)]
pub enum SeatLine {
    /// The connection that opens.
    Conn(u64),
    /// The connection, and the bytes that come in on it.
    Bytes(u64, HexBytes),
    /// The connection whose input ends.
    End(u64),
    /// The connection that makes one step.
    Step(u64),
    /// The connection that makes steps until it waits for bytes or is gone.
    Run(u64),
}
