//! Threads that hold a lock.

ghost use Rattle.std.specs.Prelude.{◌≡◌, ◌+◌, ◌≤◌, ◌<◌, ℕ, All, IfSome, false};
ghost use Rattle.lock_bench.specs.Workers.{IsSeatOf, IsWorkerOf};

use crate::held::Held;
use std::alloc::Global;
use std::rt::Clock;
use std::sync::Wait;
use std::thread::{Threads, for_each_mut};
use std::time::Instant;
use turn_lock::{Seat, TurnLock};

/// What a thread has.
#[derive(Drop)]
pub struct Worker {
    pub seat: Seat<Held>,
    /// The nanoseconds that each take waited, where they are timed.
    pub waits: Vec<u64>,
}

/// What is to be run.
#[derive(Clone, Copy)]
pub struct Load {
    pub threads: u16,
    /// How many holds each thread makes.
    pub holds: u64,
    /// How many turns of work are done in a hold.
    pub turns: u64,
    /// Whether each take is timed.
    pub times_waits: bool,
}

/// What came of a run.
#[derive(Drop)]
pub struct Outcome {
    /// How often the lock was held.
    pub count: u64,
    /// The nanoseconds that each take waited, where they were timed.
    pub waits: Vec<u64>,
}

/// One hold.
#[tactic(auto, using(crate::proofs::Empty::empty_begins))]
fn hold<R: Wait>(rt: &R, lock: &TurnLock<Held>, seat: &mut Seat<Held>, turns: u64)
    requires { IsSeatOf lock.now seat.old }
    ensures { IsSeatOf lock.now seat.new }
{
    let mut held = lock.take(rt, seat);
    held.work(turns);
    lock.give(seat, held);
}

/// One hold, and the nanoseconds that its take waited. 0 where the clock cannot be read.
#[tactic(auto, using(crate::proofs::Empty::empty_begins))]
fn timed_hold<R: Wait + Clock>(
    rt: &R,
    lock: &TurnLock<Held>,
    seat: &mut Seat<Held>,
    turns: u64,
) -> u64
    requires { IsSeatOf lock.now seat.old }
    ensures { IsSeatOf lock.now seat.new }
{
    let before = Instant::now(rt);
    let mut held = lock.take(rt, seat);
    let after = Instant::now(rt);
    held.work(turns);
    lock.give(seat, held);
    match (before, after) {
        (Ok(before), Ok(after)) => nanoseconds(before, after),
        _ => 0,
    }
}

/// The nanoseconds between two readings of a clock, at most a second.
fn nanoseconds(before: Instant, after: Instant) -> u64 {
    let waited = after.duration_since(before);
    if waited.as_secs() > 0 {
        1_000_000_000
    } else {
        waited.subsec_nanos() as u64
    }
}

/// All holds of one thread.
fn hold_often<R: Wait + Clock>(rt: &R, lock: &TurnLock<Held>, worker: &mut Worker, load: &Load)
    requires { IsWorkerOf lock.now worker.old }
    ensures { IsWorkerOf lock.now worker.new }
{
    for _ in 0..load.holds {
        if load.times_waits {
            let waited = timed_hold(rt, lock, &mut worker.seat, load.turns);
            let _ = worker.waits.push(waited);
        } else {
            hold(rt, lock, &mut worker.seat, load.turns);
        }
    }
}

/// A worker for each thread, with a part each and room for its waits. None where memory ran out.
#[tactic(auto, using(crate::proofs::Hiring::none_work, crate::proofs::Hiring::one_more))]
fn workers(
    alloc: Global,
    lock: &TurnLock<Held>,
    seat: &mut Seat<Held>,
    threads: u16,
    room: usize,
) -> Option<Vec<Worker>>
    requires seat { IsSeatOf lock.now seat.old }
    requires parts { seat.old.parts ≡ threads + 1 }
    ensures seat { IsSeatOf lock.now seat.new }
    ensures workers { IfSome result (λ workers. All (IsWorkerOf lock.now) workers.items) }
{
    let mut workers = Vec::new(alloc);
    for cut in 0..threads {
        let waits = Vec::with_capacity(alloc, room).ok()?;
        let worker = Worker {
            seat: lock.split(seat, 1),
            waits,
        };
        workers.push(worker).ok()?;
    }
    Some(workers)
}

/// The waits of all.
fn gathered(alloc: Global, workers: &[Worker]) -> Option<Vec<u64>> {
    let mut waits = Vec::new(alloc);
    for worker in workers {
        waits.extend_from_slice(worker.waits.as_slice()).ok()?;
    }
    Some(waits)
}

/// Runs the threads. None where there are none, or where memory ran out.
pub fn run<R: Threads + Wait + Clock + Sync>(
    rt: &R,
    alloc: Global,
    load: &Load,
) -> Option<Outcome> {
    if load.threads == 0 {
        return None;
    }
    let held = Held { state: 1, count: 0 };
    let (lock, mut seat) = TurnLock::new(alloc, held, load.threads as u32 + 1).ok()?;
    let room = if load.times_waits {
        load.holds as usize
    } else {
        0
    };
    let mut workers = workers(alloc, &lock, &mut seat, load.threads, room)?;
    let shared = &lock;
    for_each_mut(
        rt,
        workers.as_mut_slice(),
        load.threads as usize,
        &|_, worker: &mut Worker|
            requires { IsWorkerOf shared.now worker.old }
        { hold_often(rt, shared, worker, load) },
    );
    let held = lock.take(rt, &mut seat);
    let count = held.count;
    let waits = gathered(alloc, workers.as_slice())?;
    Some(Outcome { count, waits })
}
