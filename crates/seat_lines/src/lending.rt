//! What is lent to a connection.

use session_lanes::Lanes;

/// Bricks that are lent to a connection, and the serial that is drawn next.
#[derive(Drop)]
pub(crate) struct Lending {
    pub(crate) lanes: Lanes,
    pub(crate) serial: u64,
}
