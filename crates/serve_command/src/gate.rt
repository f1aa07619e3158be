//! The gate to the system: where connections come from, and what each thread works with.
//!
//! This file is trusted: no contract says what a socket, a clock or a random source gives.

ghost use Rattle.std.specs.Prelude.{◌≡◌, []};

use client_sockets::{ClientSink, ClientSource, Door};
use container_server::{Gate, Point, Points};
use crash_base::{FaultList, Level, OutOfMemory, WorkerNo};
use outside::{Link, Random, SystemClock};
use std::alloc::Global;
use std::sync::{Mutex, Wait};
use std::time::{Clock, Duration};
use std::{io, thread};

/// How long a thread rests that has nothing to do, in milliseconds.
const REST_MILLIS: u64 = 5;

/// What was put last onto a shelf that threads share, if it is not empty.
fn take_last<T: Drop, W: Wait>(rt: &W, shelf: &Mutex<Vec<T>>) -> Option<T> {
    shelf.lock(rt).pop()
}

/// A gate to the clients of a door, with a link to the bricks and a source of random words for each thread.
#[derive(Drop)]
pub(crate) struct SystemGate<
    'a,
    S: Wait + Clock + Sync,
    T: Link + Drop + Send,
    N: Random + Drop + Send,
> {
    system: &'a S,
    alloc: Global,
    door: &'a Door,
    /// What was not taken yet.
    kits: Mutex<Vec<(T, N)>>,
}

impl<'a, S: Wait + Clock + Sync, T: Link + Drop + Send, N: Random + Drop + Send> SystemGate<
    'a,
    S,
    T,
    N,
> {
    /// A gate with what each thread works with.
    pub fn new(
        system: &'a S,
        alloc: Global,
        door: &'a Door,
        kits: Vec<(T, N)>,
    ) -> SystemGate<'a, S, T, N> {
        SystemGate {
            system,
            alloc,
            door,
            kits: Mutex::new(kits),
        }
    }
}

impl<'a, S: Wait + Clock + Sync, T: Link + Drop + Send, N: Random + Drop + Send> Points
    for SystemGate<'a, S, T, N> {
    /// Where the container was stopped, those who were let in are waited for no longer.
    fn pass(&self, _worker: WorkerNo, point: Point) {
        if let Point::Rebooted(Level::Process) = point {
            self.door.stop();
        }
    }
}

impl<'a, S: Wait + Clock + Sync, T: Link + Drop + Send, N: Random + Drop + Send> Gate
    for SystemGate<'a, S, T, N> {
    type In = ClientSource<'a, S>;

    type Out = ClientSink<'a, S>;

    type L = T;

    type C = SystemClock<&'a S>;

    type R = N;

    type Closed = io::Error;

    /// It may give none.
    ghost plans = { λ _ plans. plans ≡ [] };

    fn next(
        &self,
        _worker: WorkerNo,
    ) -> io::Result<Option<(ClientSource<'a, S>, ClientSink<'a, S>)>> {
        self.door.next(self.system, self.alloc)
    }

    /// As of the trait: one for each call, as far as there are.
    fn tools(&self, _worker: WorkerNo) -> Result<(T, SystemClock<&'a S>, N), OutOfMemory> {
        match take_last(self.system, &self.kits) {
            Some((link, random)) => Ok((link, SystemClock::new(self.system), random)),
            None => Err(OutOfMemory),
        }
    }

    fn plan(&self) -> Result<FaultList, OutOfMemory> {
        Ok(FaultList::from_vec(Vec::new(self.alloc)))
    }

    fn rest(&self) {
        thread::sleep(self.system, Duration::from_millis(REST_MILLIS));
    }
}
