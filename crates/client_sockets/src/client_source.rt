//! A source over a connection.

ghost use Rattle.std.specs.Prelude.{◌≡◌, ◌≤◌, length, None, IfOk};

use crate::door::Door;
use crate::line::{Got, Line};
use crate::waits::{MAX_IDLE_WAITS, is_idle_too_long, is_patience_over};
use outside::{Failed, Source};
use std::alloc::Global;
use std::marker::Model;
use std::sync::Arc;
use std::time::{Clock, Instant};

/// A source over a connection, which tells nothing of its bytes. Where the client was waited for too long it is at its
/// end. Contracts see it as the count of its faults.
#[derive(Drop)]
pub struct ClientSource<'a, C: Clock> {
    clock: &'a C,
    door: &'a Door,
    line: Arc<Line, Global>,
    /// How often the door was stopped before this connection came.
    stops: u64,
    /// When the request that is open was waited for again.
    begun: Option<Instant>,
    /// How often it was waited for a request, each the first time.
    requests: u64,
    faults: u64,
}

impl<'a, C: Clock> Model for ClientSource<'a, C> {
    ghost use Rattle.std.specs.Prelude.{ℕ};

    ghost Value = { ℕ };

    ghost view = { λ s. s.faults };
}

impl<'a, C: Clock> ClientSource<'a, C> {
    /// A source over a new connection, which came when the door had been stopped so often.
    pub(crate) fn new(
        clock: &'a C,
        door: &'a Door,
        line: Arc<Line, Global>,
        stops: u64,
    ) -> ClientSource<'a, C> {
        ClientSource {
            clock,
            door,
            line,
            stops,
            begun: None,
            requests: 0,
            faults: 0,
        }
    }

    /// Whether the door was stopped since the connection came, which is then to be ended with no wait.
    fn is_stopped(&self) -> bool {
        if self.door.stops() == self.stops {
            return false;
        }
        self.line.hurry();
        true
    }

    /// Heeds that the client is waited for, and says whether its request has taken too long to come.
    fn is_late(&mut self) -> bool
        ensures { self.new ≡ self.old }
    {
        if !self.line.is_asked() {
            self.begun = None;
            self.requests = self.requests.saturating_add(1);
            return false;
        }
        match self.begun {
            Some(begun) => is_patience_over(self.clock, begun),
            None => {
                self.begun = Instant::now(self.clock).ok();
                false
            }
        }
    }

    /// Whether the client is waited for no longer, after so many waits in a row.
    fn is_over(&self, waits: u64) -> bool {
        if self.is_stopped() {
            return true;
        }
        match self.begun {
            Some(begun) => is_patience_over(self.clock, begun),
            None => is_idle_too_long(waits, self.requests, self.door.free()),
        }
    }

    /// The bytes of the first wait that gives some, into the room.
    fn wait(&self, into: &mut [u8]) -> Result<usize, Failed>
        ensures { IfOk result (λ n. n ≤ length into.old) }
    {
        for waits in 0..MAX_IDLE_WAITS {
            match self.line.read(into) {
                Got::Bytes(count) => return Ok(count),
                Got::Failed => return Err(Failed),
                Got::Nothing => {}
            }
            if self.is_over(waits + 1) {
                return Ok(0);
            }
        }
        Ok(0)
    }
}

impl<'a, C: Clock> Source for ClientSource<'a, C> {
    ghost left = { λ _. None };

    ghost faults = { λ s. s };

    fn read(&mut self, into: &mut [u8]) -> Result<usize, Failed> {
        if self.is_late() || self.is_stopped() {
            return Ok(0);
        }
        match self.wait(into) {
            Ok(count) => Ok(count),
            Err(failed) => {
                self.faults = self.faults.saturating_add(1);
                Err(failed)
            }
        }
    }
}
