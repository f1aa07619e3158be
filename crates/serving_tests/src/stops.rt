//! Points at one of which a container is stopped.

ghost use Rattle.std.specs.Prelude.{◌≡◌, false};

use connection_server::{Point, Points};
use crash_base::WorkerNo;
use outside::MapKeeper;
use site_locks::{ContainerLock, ContainerSeat};
use std::cell::RefCell;
use std::sync::Wait;

/// A seat with which a container is stopped, and how many steps were told of.
#[derive(Drop)]
struct Watch<'a> {
    lock: &'a ContainerLock<MapKeeper>,
    seat: ContainerSeat<MapKeeper>,
    steps: u64,
    ghost home: { (seat.lock ≡ lock.now.id) × (seat.holds ≡ false) },
}

impl<'a> Watch<'a> {
    /// A step was made: the container is stopped, if it was this one.
    fn step<W: Wait>(&mut self, rt: &W, at: u64) {
        self.steps = self.steps.saturating_add(1);
        if self.steps == at {
            self.lock.stop(rt, &mut self.seat);
        }
    }
}

/// Points at one of which the container is stopped: behind this many steps in it, counted from 1.
#[derive(Drop)]
pub struct Stopper<'a, W: Wait> {
    rt: &'a W,
    at: u64,
    watch: RefCell<Watch<'a>>,
}

impl<'a, W: Wait> Stopper<'a, W> {
    pub fn new(
        rt: &'a W,
        lock: &'a ContainerLock<MapKeeper>,
        seat: ContainerSeat<MapKeeper>,
        at: u64,
    ) -> Stopper<'a, W>
        requires { (seat.lock ≡ lock.now.id) × (seat.holds ≡ false) }
    {
        Stopper {
            rt,
            at,
            watch: RefCell::new(Watch {
                lock,
                seat,
                steps: 0,
            }),
        }
    }

    /// How many steps were made.
    pub fn steps(&self) -> u64 {
        match self.watch.try_borrow() {
            Ok(watch) => watch.steps,
            Err(_) => 0,
        }
    }
}

impl<'a, W: Wait> Points for Stopper<'a, W> {
    fn pass(&self, _worker: WorkerNo, point: Point) {
        match point {
            Point::Entered(_) | Point::Stepped => {
                if let Ok(mut watch) = self.watch.try_borrow_mut() {
                    watch.step(self.rt, self.at);
                }
            }
            Point::Answered | Point::Rebooted(_) => {}
        }
    }
}
