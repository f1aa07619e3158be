//! How long a client is waited for.

ghost use Rattle.std.specs.Prelude.{◌↔◌, IsTrue};
ghost use Rattle.client_sockets.specs.Waits.{IsIdleTooLong};

use std::time::{Clock, Duration, Instant};

/// How long one wait for a client takes at most, in milliseconds.
pub(crate) const WAIT_MILLIS: u64 = 100;

/// How many waits in a row a connection may be idle between two requests.
pub(crate) const MAX_IDLE_WAITS: u64 = 600;

/// How many waits in a row it may be idle while no worker is free.
pub(crate) const MAX_BUSY_WAITS: u64 = 2;

/// How many requests a connection may make before it is ended at the next wait that gives nothing. What was served over
/// a connection is kept until it ends.
pub(crate) const MANY_REQUESTS: u64 = 1000;

/// How many waits a write has at most.
pub(crate) const MAX_WRITE_WAITS: u64 = 600;

/// How long a request may take to come, and a response to be taken, in seconds.
pub(crate) const PATIENCE_SECONDS: u64 = 10;

/// Whether a connection between two requests has been idle for too long: so many waits in a row, behind so many requests,
/// with so many workers that are free.
pub(crate) fn is_idle_too_long(waits: u64, requests: u64, free: u64) -> bool
    ensures { IsTrue result ↔ IsIdleTooLong waits requests free }
{
    waits >= MAX_IDLE_WAITS || requests >= MANY_REQUESTS || (waits >= MAX_BUSY_WAITS && free == 0)
}

/// Whether the patience with what began at this moment is over. It is not where the clock fails.
pub(crate) fn is_patience_over(clock: &impl Clock, begun: Instant) -> bool {
    match begun.elapsed(clock) {
        Ok(since) => since >= Duration::from_secs(PATIENCE_SECONDS),
        Err(_) => false,
    }
}
