//! A sink over a connection.

ghost use Rattle.std.specs.Prelude.{◌≡◌, ◌<◌, ◌≤◌, length, None, IfSome};

use crate::door::Door;
use crate::line::{Line, Put};
use crate::waits::{MAX_WRITE_WAITS, is_patience_over};
use outside::{Failed, Sink};
use std::alloc::Global;
use std::marker::Model;
use std::sync::Arc;
use std::time::{Clock, Instant};

/// A sink over a connection, which tells nothing of its bytes. It is a fault where a client does not take all of a
/// response within ten seconds, or is still waited for when the door is stopped. Contracts see it as the count of its
/// faults.
#[derive(Drop)]
pub struct ClientSink<'a, C: Clock> {
    clock: &'a C,
    door: &'a Door,
    line: Arc<Line, Global>,
    /// How often the door was stopped before this connection came.
    stops: u64,
    /// When the client was first waited for, where no write has taken all of its bytes since.
    blocked: Option<Instant>,
    faults: u64,
}

impl<'a, C: Clock> Model for ClientSink<'a, C> {
    ghost use Rattle.std.specs.Prelude.{ℕ};

    ghost Value = { ℕ };

    ghost view = { λ s. s.faults };
}

impl<'a, C: Clock> ClientSink<'a, C> {
    /// A sink over a new connection, which came when the door had been stopped so often.
    pub(crate) fn new(
        clock: &'a C,
        door: &'a Door,
        line: Arc<Line, Global>,
        stops: u64,
    ) -> ClientSink<'a, C> {
        ClientSink {
            clock,
            door,
            line,
            stops,
            blocked: None,
            faults: 0,
        }
    }

    /// Whether the door was stopped since the connection came, which is then to be ended with no wait.
    fn is_stopped(&self) -> bool {
        if self.door.stops() == self.stops {
            return false;
        }
        self.line.hurry();
        true
    }

    /// Whether the client is waited for no longer.
    fn is_late(&self) -> bool {
        match self.blocked {
            Some(blocked) => self.is_stopped() || is_patience_over(self.clock, blocked),
            None => false,
        }
    }

    /// Heeds whether a write took all of its bytes.
    fn heed(&mut self, is_all: bool)
        ensures { self.new ≡ self.old }
    {
        if is_all {
            self.blocked = None;
        } else if self.blocked.is_none() {
            self.blocked = Instant::now(self.clock).ok();
        }
    }

    /// How many of the bytes one write took. None where none were, or the client is late.
    fn put(&mut self, bytes: &[u8]) -> Option<usize>
        ensures same { self.new ≡ self.old }
        ensures within { IfSome result (λ n. n ≤ length bytes.now) }
        ensures some { IfSome result (λ n. 0 < n) }
    {
        for _ in 0..MAX_WRITE_WAITS {
            if self.is_late() {
                return None;
            }
            match self.line.write(bytes) {
                Put::Bytes(count) => {
                    self.heed(count == bytes.len());
                    return Some(count);
                }
                Put::Nothing => self.heed(false),
                Put::Failed => return None,
            }
        }
        None
    }
}

impl<'a, C: Clock> Sink for ClientSink<'a, C> {
    ghost written = { λ _. None };

    ghost faults = { λ s. s };

    fn write(&mut self, bytes: &[u8]) -> Result<usize, Failed> {
        match self.put(bytes) {
            Some(count) => Ok(count),
            None => {
                self.faults = self.faults.saturating_add(1);
                Err(Failed)
            }
        }
    }
}
