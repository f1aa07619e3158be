//! A server to whose gate one client comes, a connection for each request.

ghost use Rattle.std.specs.Prelude.{◌≡◌, [], ◌∷◌};

use crate::clients::{Connection, Ear, EarSink, Ended, connection, request};
use crate::links::{HostClock, HostKit, LinkShelf, ThreadClock};
use brick_house::HouseLink;
use container_server::{Gate, Point, Points};
use crash_base::{FaultList, FaultPlan, OutOfMemory, WorkerNo};
use outside::{PlainRandom, SureSource};
use std::alloc::Global;
use std::sync::Wait;
use std::sync::atomic::{AtomicU64, Ordering};
use std::thread::yield_now;

/// How often the client waits before the gate gives up.
const WAITS: u64 = 10_000_000;

/// The thread that decides, behind the one worker and the thread that sweeps.
const DECIDER: u32 = 3;

/// A target, the form of an action, if it is one, and how many acts there were of the thread that decides before it is
/// asked for: its looks at the clock, and reboots once they are over.
pub type Ask = (&'static str, &'static str, u64);

/// A gate to which one client comes for what it asks, one after the other, and for no more. One worker is to serve it.
/// The thread that decides moves the clock of the host.
#[derive(Drop)]
pub struct StoryGate<'a, W: Wait> {
    rt: &'a W,
    alloc: Global,
    shelf: LinkShelf<'a, W>,
    fault: FaultPlan,
    asks: &'static [Ask],
    ear: &'a Ear,
    /// How much was asked for.
    asked: AtomicU64,
    host: &'a HostClock,
    reboots: AtomicU64,
    /// How many acts were seen.
    seen: AtomicU64,
    /// How often the client waited.
    waits: AtomicU64,
}

impl<'a, W: Wait> StoryGate<'a, W> {
    /// A gate of which nothing was asked yet.
    pub fn new(
        rt: &'a W,
        alloc: Global,
        shelf: LinkShelf<'a, W>,
        fault: FaultPlan,
        asks: &'static [Ask],
        ear: &'a Ear,
        host: &'a HostClock,
    ) -> StoryGate<'a, W> {
        StoryGate {
            rt,
            alloc,
            shelf,
            fault,
            asks,
            ear,
            asked: AtomicU64::new(0),
            host,
            reboots: AtomicU64::new(0),
            seen: AtomicU64::new(0),
            waits: AtomicU64::new(0),
        }
    }

    /// Whether the client has waited too often.
    pub fn has_given_up(&self) -> bool {
        self.waits.load(Ordering::SeqCst) >= WAITS
    }

    /// Lets the client wait once.
    fn wait(&self) {
        self.waits.fetch_add(1, Ordering::SeqCst);
        yield_now();
    }

    /// What is asked for next.
    fn next_ask(&self) -> Option<&'static Ask> {
        self.asks.get(self.asked.load(Ordering::SeqCst) as usize)
    }

    /// Whether there were as many acts, and the worker has looked since whether it is to stop.
    fn has_seen(&self, acts: u64) -> bool {
        let reboots = self.reboots.load(Ordering::SeqCst);
        let made = self.host.looks().saturating_add(reboots);
        let seen = self.seen.swap(made, Ordering::SeqCst);
        seen == made && made >= acts
    }

    /// The connection over which the client asks, by what it has heard.
    fn ask(&self, target: &str, form: &str) -> Result<Connection<'a, W>, OutOfMemory> {
        let heard = self.ear.heard(self.rt, self.alloc)?;
        let heard = std::str::from_utf8(heard.as_slice()).unwrap_or("");
        let asked = request(self.alloc, heard, target, form)?;
        connection(self.rt, self.alloc, asked.as_bytes(), self.ear)
    }
}

impl<'a, W: Wait> Points for StoryGate<'a, W> {
    fn pass(&self, _worker: WorkerNo, point: Point) {
        if let Point::Rebooted(_) = point {
            self.reboots.fetch_add(1, Ordering::SeqCst);
        }
    }
}

impl<'a, W: Wait + Sync> Gate for StoryGate<'a, W> {
    ghost plans = { λ gate plans. plans ≡ gate.fault ∷ [] };

    type In = SureSource;

    type Out = EarSink<'a, W>;

    type L = HouseLink<'a, W>;

    type C = ThreadClock<'a>;

    type R = PlainRandom;

    type Closed = Ended;

    fn next(&self, _worker: WorkerNo) -> Result<Option<Connection<'a, W>>, Ended> {
        let Some((target, form, acts)) = self.next_ask() else {
            return Err(Ended);
        };
        if self.has_given_up() {
            return Err(Ended);
        }
        if !self.has_seen(*acts) {
            self.wait();
            return Ok(None);
        }
        self.asked.fetch_add(1, Ordering::SeqCst);
        match self.ask(target, form) {
            Ok(made) => Ok(Some(made)),
            Err(OutOfMemory) => Err(Ended),
        }
    }

    fn tools(&self, worker: WorkerNo) -> Result<HostKit<'a, W>, OutOfMemory> {
        let decides = worker.0 == DECIDER;
        self.shelf.host_kit(worker, self.host, decides)
    }

    fn plan(&self) -> Result<FaultList, OutOfMemory> {
        let mut plans = Vec::new(self.alloc);
        plans.push(self.fault)?;
        Ok(FaultList::from_vec(plans))
    }

    fn rest(&self) {
        yield_now();
    }
}
