//! What the threads of a server work with: links to one house of bricks, clocks that stand or are moved, and words that
//! are counted.

ghost use Rattle.std.specs.Prelude.{◌≡◌};
ghost use Rattle.container_tests.specs.declared.links.TheConstants.{LINKS};

use brick_house::{BrickHouse, HouseLink, HouseSeats};
use crash_base::{Moment, OutOfMemory, WorkerNo};
use outside::{Clock, MOMENTS_END, PlainClock, PlainRandom};
use std::alloc::Global;
use std::sync::atomic::{AtomicU64, Ordering};
use std::sync::{Mutex, Wait};

/// How many bricks the house has.
pub const BRICKS: u16 = 3;

/// How many links to the house there are.
pub const LINKS: u32 = 4;

/// What each clock shows at first.
pub const NOW: u64 = 7;

/// The clock of a host, at which all threads look. It shows more behind each look of a thread that moves it.
#[derive(Drop)]
pub struct HostClock {
    shown: AtomicU64,
    /// How many milliseconds more it shows behind each of these looks. The last number is that of each further look.
    steps: &'static [u64],
    looks: AtomicU64,
}

impl HostClock {
    /// A clock at which nobody has looked.
    pub fn new(steps: &'static [u64]) -> HostClock {
        HostClock {
            shown: AtomicU64::new(NOW),
            steps,
            looks: AtomicU64::new(0),
        }
    }

    /// How many looks of threads that move it there were. It has moved by each of them.
    pub fn looks(&self) -> u64 {
        self.looks.load(Ordering::SeqCst)
    }

    /// What it shows.
    fn look(&self) -> u64 {
        self.shown.load(Ordering::SeqCst)
    }

    /// What it shows before it is moved.
    fn look_and_move(&self) -> u64 {
        let step = self.steps.get(self.looks() as usize).or(self.steps.last());
        let step = step.copied().unwrap_or(0);
        let shown = self.shown.fetch_add(step, Ordering::SeqCst);
        self.looks.fetch_add(1, Ordering::SeqCst);
        shown
    }
}

/// The clock of a thread, which shows what its host's does.
#[derive(Drop)]
pub struct ThreadClock<'a> {
    host: &'a HostClock,
    moves: bool,
    clock: PlainClock,
}

impl<'a> Clock for ThreadClock<'a> {
    ghost told = { λ c. c.clock.told.0 };

    fn now(&mut self) -> Moment {
        let before = self.clock.now();
        let shown = if self.moves {
            self.host.look_and_move()
        } else {
            self.host.look()
        };
        if shown < before.0 || shown >= MOMENTS_END {
            return before;
        }
        self.clock.set(Moment(shown));
        self.clock.now()
    }
}

/// What a thread works with.
pub type Kit<'a, W> = (HouseLink<'a, W>, PlainClock, PlainRandom);

/// What a thread works with that looks at its host's clock.
pub type HostKit<'a, W> = (HouseLink<'a, W>, ThreadClock<'a>, PlainRandom);

/// The words of a thread, which are none of another thread's.
fn words_of(worker: WorkerNo) -> PlainRandom {
    PlainRandom::new(u64::from(worker.0).wrapping_mul(1_000_000_000))
}

/// Links that nobody has taken yet.
#[derive(Drop)]
pub struct LinkShelf<'a, W: Wait> {
    rt: &'a W,
    links: Mutex<Vec<HouseLink<'a, W>>>,
}

impl<'a, W: Wait> LinkShelf<'a, W> {
    /// All links to a house, of which these are the seats.
    pub fn new(
        rt: &'a W,
        alloc: Global,
        house: &'a BrickHouse,
        mut seats: HouseSeats,
    ) -> Result<LinkShelf<'a, W>, OutOfMemory>
        requires { seats ≡ record { house = house.now; parts = LINKS } }
    {
        let one = house.split(alloc, &mut seats)?;
        let two = house.split(alloc, &mut seats)?;
        let three = house.split(alloc, &mut seats)?;
        let mut links = Vec::new(alloc);
        links.push(HouseLink::new(rt, alloc, house, one)?)?;
        links.push(HouseLink::new(rt, alloc, house, two)?)?;
        links.push(HouseLink::new(rt, alloc, house, three)?)?;
        links.push(HouseLink::new(rt, alloc, house, seats)?)?;
        Ok(LinkShelf {
            rt,
            links: Mutex::new(links),
        })
    }

    /// A link that nobody else has.
    ///
    /// # Errors
    /// `OutOfMemory` where none is left.
    pub fn take(&self) -> Result<HouseLink<'a, W>, OutOfMemory> {
        match self.links.lock(self.rt).pop() {
            Some(link) => Ok(link),
            None => Err(OutOfMemory),
        }
    }

    /// What a thread works with. Its words are none of another thread's.
    ///
    /// # Errors
    /// `OutOfMemory` where no link is left.
    pub fn kit(&self, worker: WorkerNo) -> Result<Kit<'a, W>, OutOfMemory> {
        let link = self.take()?;
        Ok((link, PlainClock::new(Moment(NOW)), words_of(worker)))
    }

    /// The same with the clock of a host, which this thread moves or does not.
    ///
    /// # Errors
    /// `OutOfMemory` where no link is left.
    pub fn host_kit(
        &self,
        worker: WorkerNo,
        host: &'a HostClock,
        moves: bool,
    ) -> Result<HostKit<'a, W>, OutOfMemory> {
        let link = self.take()?;
        let clock = ThreadClock {
            host,
            moves,
            clock: PlainClock::new(Moment(NOW)),
        };
        Ok((link, clock, words_of(worker)))
    }
}
