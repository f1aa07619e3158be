//! A server whose gate holds a request until a group was rebooted.

ghost use Rattle.std.specs.Prelude.{◌≡◌, [], ◌∷◌};

use crate::clients::{Connection, Ear, EarSink, Ended, connection};
use crate::links::{Kit, LinkShelf};
use brick_house::HouseLink;
use container_server::{Gate, Point, Points};
use crash_base::{ComponentNo, FaultList, FaultPlan, GroupNo, Level, OutOfMemory, WorkerNo};
use outside::{PlainClock, PlainRandom, SureSource};
use std::alloc::Global;
use std::sync::Wait;
use std::sync::atomic::{AtomicBool, AtomicU64, Ordering};
use std::thread::yield_now;

/// How often threads rest before the gate gives up.
const RESTS: u64 = 1_000_000;

/// How often a worker that is held looks whether it may go on, before it gives up.
const LOOKS: u64 = 20_000_000;

/// What the first client asks.
const HOME: &str = "GET / HTTP/1.1\r\nHost: localhost\r\n\r\n";

/// What the second one asks.
const CATEGORIES_THRICE: &str = "GET /categories HTTP/1.1\r\nHost: localhost\r\n\r\n\
GET /categories HTTP/1.1\r\nHost: localhost\r\n\r\n\
GET /categories HTTP/1.1\r\nHost: localhost\r\n\r\n";

/// A gate that gives two connections, and holds the worker of the first, once it has entered Web, until Web was
/// rebooted and three responses were written to the second.
#[derive(Drop)]
pub struct HoldingGate<'a, W: Wait> {
    rt: &'a W,
    alloc: Global,
    shelf: LinkShelf<'a, W>,
    fault: FaultPlan,
    first: &'a Ear,
    second: &'a Ear,
    /// The worker of the first connection; 0 before there is one.
    holder: AtomicU64,
    is_held: AtomicBool,
    is_second_given: AtomicBool,
    is_rebooted: AtomicBool,
    /// How many responses were written to the second client.
    answers: AtomicU64,
    rests: AtomicU64,
}

impl<'a, W: Wait> HoldingGate<'a, W> {
    /// A gate for two clients.
    pub fn new(
        rt: &'a W,
        alloc: Global,
        shelf: LinkShelf<'a, W>,
        fault: FaultPlan,
        first: &'a Ear,
        second: &'a Ear,
    ) -> HoldingGate<'a, W> {
        HoldingGate {
            rt,
            alloc,
            shelf,
            fault,
            first,
            second,
            holder: AtomicU64::new(0),
            is_held: AtomicBool::new(false),
            is_second_given: AtomicBool::new(false),
            is_rebooted: AtomicBool::new(false),
            answers: AtomicU64::new(0),
            rests: AtomicU64::new(0),
        }
    }

    /// Whether threads have rested too often.
    pub fn has_given_up(&self) -> bool {
        self.rests.load(Ordering::SeqCst) >= RESTS
    }

    /// Whether the worker that is held may go on.
    fn may_go_on(&self) -> bool {
        self.has_given_up()
            || (self.is_rebooted.load(Ordering::SeqCst) && self.answers.load(Ordering::SeqCst) >= 3)
    }

    /// Holds a worker until it may go on, or the gate gives up.
    fn hold(&self) {
        self.is_held.store(true, Ordering::SeqCst);
        for _ in 0..LOOKS {
            if self.may_go_on() {
                return;
            }
            yield_now();
        }
        self.rests.store(RESTS, Ordering::SeqCst);
    }

    /// Whether this worker has the first connection.
    fn has_first(&self, worker: WorkerNo) -> bool {
        self.holder.load(Ordering::SeqCst) == u64::from(worker.0)
    }

    /// A connection of a client; that no more come, where there is no memory for it.
    fn connect(&self, bytes: &str, ear: &'a Ear) -> Result<Option<Connection<'a, W>>, Ended> {
        match connection(self.rt, self.alloc, bytes.as_bytes(), ear) {
            Ok(made) => Ok(Some(made)),
            Err(OutOfMemory) => Err(Ended),
        }
    }
}

impl<'a, W: Wait> Points for HoldingGate<'a, W> {
    fn pass(&self, worker: WorkerNo, point: Point) {
        match point {
            Point::Entered(ComponentNo(0)) => {
                if self.has_first(worker) && !self.is_held.load(Ordering::SeqCst) {
                    self.hold();
                }
            }
            Point::Answered => {
                if !self.has_first(worker) {
                    self.answers.fetch_add(1, Ordering::SeqCst);
                }
            }
            Point::Rebooted(Level::Group(GroupNo(0))) => {
                self.is_rebooted.store(true, Ordering::SeqCst);
            }
            _ => {}
        }
    }
}

impl<'a, W: Wait + Sync> Gate for HoldingGate<'a, W> {
    ghost plans = { λ gate plans. plans ≡ gate.fault ∷ [] };

    type In = SureSource;

    type Out = EarSink<'a, W>;

    type L = HouseLink<'a, W>;

    type C = PlainClock;

    type R = PlainRandom;

    type Closed = Ended;

    /// The second connection is given once the first one is held.
    fn next(&self, worker: WorkerNo) -> Result<Option<Connection<'a, W>>, Ended> {
        let own = u64::from(worker.0);
        if self
            .holder
            .compare_exchange(0, own, Ordering::SeqCst, Ordering::SeqCst)
            .is_ok()
        {
            return self.connect(HOME, self.first);
        }
        if self.has_given_up() {
            return Err(Ended);
        }
        if !self.is_held.load(Ordering::SeqCst) {
            yield_now();
            return Ok(None);
        }
        if self.is_second_given.swap(true, Ordering::SeqCst) {
            return Err(Ended);
        }
        self.connect(CATEGORIES_THRICE, self.second)
    }

    fn tools(&self, worker: WorkerNo) -> Result<Kit<'a, W>, OutOfMemory> {
        self.shelf.kit(worker)
    }

    fn plan(&self) -> Result<FaultList, OutOfMemory> {
        let mut plans = Vec::new(self.alloc);
        plans.push(self.fault)?;
        Ok(FaultList::from_vec(plans))
    }

    fn rest(&self) {
        self.rests.fetch_add(1, Ordering::SeqCst);
        yield_now();
    }
}
