//! A server whose gate waits until each brick was swept twice.

ghost use Rattle.std.specs.Prelude.{◌≡◌, []};

use crate::clients::{Connection, EarSink, Ended};
use crate::links::{BRICKS, HostClock, HostKit, LinkShelf, NOW, ThreadClock};
use brick_house::HouseLink;
use container_server::{Gate, Point, Points};
use crash_base::{BrickNo, FaultList, FrameBytes, OutOfMemory, SessionKey, Version, WorkerNo};
use outside::{Link, PlainRandom, Received, Sent, SureSource};
use ssm_frames::{Frame, decode, encode};
use std::alloc::Global;
use std::sync::atomic::{AtomicBool, AtomicU64, Ordering};
use std::sync::{Mutex, Wait};
use std::thread::yield_now;

/// How often the gate looks before it gives up.
const LOOKS: u64 = 1_000_000;

/// A gate that gives no connection. It asks each brick, over a link of its own, until each was swept at what the clocks
/// show at first or later, and then until each was swept at a later moment still.
#[derive(Drop)]
pub struct SweptGate<'a, W: Wait> {
    rt: &'a W,
    alloc: Global,
    shelf: LinkShelf<'a, W>,
    host: &'a HostClock,
    own: Mutex<HouseLink<'a, W>>,
    looks: AtomicU64,
    /// The least moment at which a brick was swept when each had been swept once; 0 before that.
    first: AtomicU64,
    are_swept: AtomicBool,
}

/// How far a brick was swept that has never stored what it is asked for. None where it does not answer so.
fn swept_at<L: Link>(
    alloc: Global,
    link: &mut L,
    brick: BrickNo,
) -> Result<Option<u64>, OutOfMemory> {
    let version = Version {
        node: 9,
        boot: 9,
        serial: 9,
    };
    let asked = Frame::Get {
        nonce: version,
        key: SessionKey([9; 16]),
        version,
    };
    let asked = encode(alloc, &asked)?;
    let mut reply = FrameBytes::new(alloc);
    if link.send(alloc, brick, asked.as_slice()) != Sent::Done
        || link.receive(alloc, brick, &mut reply) != Received::Got
    {
        return Ok(None);
    }
    match decode(alloc, reply.as_slice())? {
        Some(Frame::Absent { swept, .. }) => Ok(Some(swept.0)),
        _ => Ok(None),
    }
}

/// The least moment at which a brick was swept last. None where one does not answer so.
fn least_swept<L: Link>(alloc: Global, link: &mut L) -> Result<Option<u64>, OutOfMemory> {
    let mut least = u64::MAX;
    for at in 0..BRICKS {
        match swept_at(alloc, link, BrickNo(at + 1))? {
            Some(swept) => least = least.min(swept),
            None => return Ok(None),
        }
    }
    Ok(Some(least))
}

impl<'a, W: Wait> SweptGate<'a, W> {
    /// A gate that has looked at no brick yet.
    ///
    /// # Errors
    /// `OutOfMemory` where no link is left for it.
    pub fn new(
        rt: &'a W,
        alloc: Global,
        shelf: LinkShelf<'a, W>,
        host: &'a HostClock,
    ) -> Result<SweptGate<'a, W>, OutOfMemory> {
        let own = Mutex::new(shelf.take()?);
        Ok(SweptGate {
            rt,
            alloc,
            shelf,
            host,
            own,
            looks: AtomicU64::new(0),
            first: AtomicU64::new(0),
            are_swept: AtomicBool::new(false),
        })
    }

    /// Whether it found each brick swept twice.
    pub fn are_swept(&self) -> bool {
        self.are_swept.load(Ordering::SeqCst)
    }

    /// Whether each brick was swept twice, where each was swept at this moment or later.
    fn is_second(&self, least: u64) -> bool {
        let first = self.first.load(Ordering::SeqCst);
        if first == 0 && least >= NOW {
            self.first.store(least, Ordering::SeqCst);
        }
        first != 0 && least > first
    }

    /// Looks once. Whether each brick was swept twice.
    fn look(&self) -> bool {
        let mut own = self.own.lock(self.rt);
        match least_swept(self.alloc, &mut *own) {
            Ok(Some(least)) => self.is_second(least),
            _ => false,
        }
    }
}

impl<'a, W: Wait> Points for SweptGate<'a, W> {
    fn pass(&self, _worker: WorkerNo, _point: Point) {}
}

impl<'a, W: Wait + Sync> Gate for SweptGate<'a, W> {
    ghost plans = { λ _ plans. plans ≡ [] };

    type In = SureSource;

    type Out = EarSink<'a, W>;

    type L = HouseLink<'a, W>;

    type C = ThreadClock<'a>;

    type R = PlainRandom;

    type Closed = Ended;

    fn next(&self, _worker: WorkerNo) -> Result<Option<Connection<'a, W>>, Ended> {
        if self.look() {
            self.are_swept.store(true, Ordering::SeqCst);
            return Err(Ended);
        }
        if self.looks.fetch_add(1, Ordering::SeqCst) >= LOOKS {
            return Err(Ended);
        }
        yield_now();
        Ok(None)
    }

    fn tools(&self, worker: WorkerNo) -> Result<HostKit<'a, W>, OutOfMemory> {
        self.shelf.host_kit(worker, self.host, true)
    }

    fn plan(&self) -> Result<FaultList, OutOfMemory> {
        Ok(FaultList::from_vec(Vec::new(self.alloc)))
    }

    fn rest(&self) {
        yield_now();
    }
}
