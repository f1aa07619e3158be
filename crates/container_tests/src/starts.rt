//! A server to whose gate nobody comes.

ghost use Rattle.std.specs.Prelude.{◌≡◌, []};

use crate::clients::{Connection, EarSink, Ended};
use crate::links::{Kit, LinkShelf};
use brick_house::HouseLink;
use container_server::{Gate, Point, Points};
use crash_base::{FaultList, OutOfMemory, WorkerNo};
use outside::{PlainClock, PlainRandom, SureSource};
use std::alloc::Global;
use std::sync::Wait;

/// A gate to which nobody comes, which may have no memory for its plans.
#[derive(Drop)]
pub struct LonelyGate<'a, W: Wait> {
    pub alloc: Global,
    pub shelf: LinkShelf<'a, W>,
    pub has_plans: bool,
}

impl<'a, W: Wait> Points for LonelyGate<'a, W> {
    fn pass(&self, _worker: WorkerNo, _point: Point) {}
}

impl<'a, W: Wait + Sync> Gate for LonelyGate<'a, W> {
    ghost plans = { λ _ plans. plans ≡ [] };

    type In = SureSource;

    type Out = EarSink<'a, W>;

    type L = HouseLink<'a, W>;

    type C = PlainClock;

    type R = PlainRandom;

    type Closed = Ended;

    fn next(&self, _worker: WorkerNo) -> Result<Option<Connection<'a, W>>, Ended> {
        Err(Ended)
    }

    fn tools(&self, worker: WorkerNo) -> Result<Kit<'a, W>, OutOfMemory> {
        self.shelf.kit(worker)
    }

    fn plan(&self) -> Result<FaultList, OutOfMemory> {
        if self.has_plans {
            Ok(FaultList::from_vec(Vec::new(self.alloc)))
        } else {
            Err(OutOfMemory)
        }
    }

    fn rest(&self) {}
}
