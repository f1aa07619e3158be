//! What the threads of a boot tell each other.

use connection_server::{Point, Points};
use crash_base::WorkerNo;
use std::sync::atomic::{AtomicBool, AtomicU64, Ordering};

/// What the threads of a boot tell each other.
#[derive(Drop)]
pub(crate) struct Signals {
    stopped: AtomicBool,
    ended: AtomicBool,
    inside: AtomicU64,
}

impl Signals {
    /// Nothing was told yet.
    pub fn new() -> Signals {
        Signals {
            stopped: AtomicBool::new(false),
            ended: AtomicBool::new(false),
            inside: AtomicU64::new(0),
        }
    }

    /// The container was stopped.
    pub fn stop(&self) {
        self.stopped.store(true, Ordering::SeqCst);
    }

    pub fn is_stopped(&self) -> bool {
        self.stopped.load(Ordering::SeqCst)
    }

    /// All workers have ended.
    pub fn end(&self) {
        self.ended.store(true, Ordering::SeqCst);
    }

    pub fn have_ended(&self) -> bool {
        self.ended.load(Ordering::SeqCst)
    }

    /// How many requests are inside: they have begun in the container, and are not answered yet.
    pub fn inside(&self) -> u64 {
        self.inside.load(Ordering::SeqCst)
    }
}

/// A gate that is told of the points of one connection, and counts its request while that is inside.
#[derive(Drop)]
pub(crate) struct Watch<'a, G: Points> {
    gate: &'a G,
    signals: &'a Signals,
    is_inside: AtomicBool,
}

impl<'a, G: Points> Watch<'a, G> {
    /// No request of the connection is inside.
    pub fn new(gate: &'a G, signals: &'a Signals) -> Watch<'a, G> {
        Watch {
            gate,
            signals,
            is_inside: AtomicBool::new(false),
        }
    }

    fn enter(&self) {
        if !self.is_inside.swap(true, Ordering::SeqCst) {
            self.signals.inside.fetch_add(1, Ordering::SeqCst);
        }
    }

    /// The request of the connection is no more inside, if one was.
    pub fn leave(&self) {
        if self.is_inside.swap(false, Ordering::SeqCst) {
            self.signals.inside.fetch_sub(1, Ordering::SeqCst);
        }
    }
}

impl<'a, G: Points> Points for Watch<'a, G> {
    fn pass(&self, worker: WorkerNo, point: Point) {
        match point {
            Point::Entered(_) | Point::Stepped => self.enter(),
            Point::Answered => self.leave(),
            Point::Rebooted(_) => {}
        }
        self.gate.pass(worker, point);
    }
}
