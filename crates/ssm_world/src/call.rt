//! Calls of a world.

use ssm_stub::{ReadCall, WriteCall};

/// A write or a read of a world, as far as it has come.
#[derive(Drop)]
pub enum Call {
    /// A write, which goes on after its answer to hear the bricks that it has not heard.
    Write(WriteCall),
    /// A read, up to its answer.
    Read(ReadCall),
}
