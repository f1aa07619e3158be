//! A server to whose gate one client comes that asks without end, until it was restarted.

ghost use Rattle.std.specs.Prelude.{◌≡◌, ◌≤◌, [], None};

use crate::clients::Ended;
use crate::links::{Kit, LinkShelf};
use brick_house::HouseLink;
use container_server::{Gate, Point, Points};
use crash_base::{FaultList, Level, OutOfMemory, WorkerNo};
use outside::{Failed, PlainClock, PlainRandom, Sink, Source};
use std::alloc::Global;
use std::sync::Wait;
use std::sync::atomic::{AtomicBool, AtomicU64, Ordering};
use std::thread::sleep;
use std::time::{Clock, Duration};

/// What is asked for.
const REQUEST: &[u8] = b"GET /category/1 HTTP/1.1\r\nHost: localhost\r\n\r\n";

/// How often it is asked for before the server was restarted, at most: as often as a journal may have entries.
const MOST: u64 = 262_144;

/// How often it is asked for behind the restart.
pub const MORE: u64 = 1000;

/// What became of requests.
#[derive(Drop)]
pub struct Tally {
    /// How many were read.
    pub asked: AtomicU64,
    /// How many were answered by the page of a bad row.
    pub pages: AtomicU64,
    /// How many were answered otherwise.
    pub others: AtomicU64,
}

impl Tally {
    /// Nothing was asked yet.
    pub fn new() -> Tally {
        Tally {
            asked: AtomicU64::new(0),
            pages: AtomicU64::new(0),
            others: AtomicU64::new(0),
        }
    }
}

/// A source of so many requests, one with each call.
#[derive(Drop)]
pub struct FloodSource<'a> {
    tally: &'a Tally,
    left: u64,
}

impl<'a> Source for FloodSource<'a> {
    ghost left = { λ _. None };

    ghost faults = { λ _. 0 };

    /// It ends where a request does not fit.
    fn read(&mut self, into: &mut [u8]) -> Result<usize, Failed> {
        let size = REQUEST.len();
        if self.left == 0 || into.len() < size {
            return Ok(0);
        }
        into[..size].copy_from_slice(REQUEST);
        self.left -= 1;
        self.tally.asked.fetch_add(1, Ordering::SeqCst);
        Ok(size)
    }
}

/// A sink that is written one response with each call, and counts it.
#[derive(Drop)]
pub struct FloodSink<'a> {
    tally: &'a Tally,
}

impl<'a> Sink for FloodSink<'a> {
    ghost written = { λ _. None };

    ghost faults = { λ _. 0 };

    fn write(&mut self, bytes: &[u8]) -> Result<usize, Failed> {
        if bytes.starts_with(b"HTTP/1.1 500 Internal Server Error\r\n") {
            self.tally.pages.fetch_add(1, Ordering::SeqCst);
        } else {
            self.tally.others.fetch_add(1, Ordering::SeqCst);
        }
        Ok(bytes.len())
    }
}

/// A gate to which a client comes that asks until the server was restarted, and then a while longer.
#[derive(Drop)]
pub struct FloodGate<'a, W: Wait> {
    rt: &'a W,
    alloc: Global,
    shelf: LinkShelf<'a, W>,
    tally: &'a Tally,
    is_restarted: AtomicBool,
    is_done: AtomicBool,
}

impl<'a, W: Wait> FloodGate<'a, W> {
    /// A gate to which the client has not come yet.
    pub fn new(
        rt: &'a W,
        alloc: Global,
        shelf: LinkShelf<'a, W>,
        tally: &'a Tally,
    ) -> FloodGate<'a, W> {
        FloodGate {
            rt,
            alloc,
            shelf,
            tally,
            is_restarted: AtomicBool::new(false),
            is_done: AtomicBool::new(false),
        }
    }

    /// How many requests come over the next connection.
    fn next_count(&self) -> u64 {
        if !self.is_restarted.load(Ordering::SeqCst) {
            MOST.saturating_sub(self.tally.asked.load(Ordering::SeqCst))
        } else if self.is_done.swap(true, Ordering::SeqCst) {
            0
        } else {
            MORE
        }
    }
}

impl<'a, W: Wait> Points for FloodGate<'a, W> {
    fn pass(&self, _worker: WorkerNo, point: Point) {
        if let Point::Rebooted(Level::Process) = point {
            self.is_restarted.store(true, Ordering::SeqCst);
        }
    }
}

impl<'a, W: Wait + Clock + Sync> Gate for FloodGate<'a, W> {
    ghost plans = { λ _ plans. plans ≡ [] };

    type In = FloodSource<'a>;

    type Out = FloodSink<'a>;

    type L = HouseLink<'a, W>;

    type C = PlainClock;

    type R = PlainRandom;

    type Closed = Ended;

    fn next(&self, _worker: WorkerNo) -> Result<Option<(FloodSource<'a>, FloodSink<'a>)>, Ended> {
        let left = self.next_count();
        if left == 0 {
            return Err(Ended);
        }
        let tally = self.tally;
        Ok(Some((FloodSource { tally, left }, FloodSink { tally })))
    }

    fn tools(&self, worker: WorkerNo) -> Result<Kit<'a, W>, OutOfMemory> {
        self.shelf.kit(worker)
    }

    fn plan(&self) -> Result<FaultList, OutOfMemory> {
        Ok(FaultList::from_vec(Vec::new(self.alloc)))
    }

    fn rest(&self) {
        sleep(self.rt, Duration::from_millis(1));
    }
}
