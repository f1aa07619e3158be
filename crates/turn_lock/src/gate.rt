//! A gate in front of the tickets. It decides how long a thread waits, and nothing else: no proof speaks of it.
//!
//! A lock that serves tickets in order hands over to a thread that does not run as soon as more threads have a ticket
//! than there are processors, and then each hold waits for the system. So there is one permit, and who has it takes a
//! ticket. The others look for it; then they let other threads run between two looks, the one that holds among them;
//! and then they try to sleep, once. Who tried goes through, with or without the permit: so nobody is passed by without
//! end, and now and then a few threads have a ticket at once.

use crossbeam_utils::CachePadded;
use std::hint::spin_loop;
use std::sync::Wait;
use std::sync::atomic::{AtomicU64, Ordering};
use std::thread::yield_now;

/// How many permits there are. A thread that tried to sleep goes through without one.
const PERMITS: u64 = 1;

/// `left` where no permit is left. It is less where threads went through without one.
const NONE_LEFT: u64 = 1 << 32;

/// How often a thread looks before it lets others run.
const LOOKS: u32 = 100;

/// How often it lets others run before it sleeps.
const YIELDS: u32 = 200;

/// At how many holds at the latest a sleeper is woken, where others look all the time.
const ROUND: u64 = 16;

#[derive(Drop)]
pub struct Gate {
    /// How many permits are left, above `NONE_LEFT`.
    left: CachePadded<AtomicU64>,
    /// How many threads look for a permit.
    lookers: CachePadded<AtomicU64>,
    /// How many sleep for one, or are about to.
    sleepers: CachePadded<AtomicU64>,
}

impl Gate {
    /// A gate with all its permits.
    pub fn new() -> Gate {
        Gate {
            left: CachePadded::new(AtomicU64::new(NONE_LEFT + PERMITS)),
            lookers: CachePadded::new(AtomicU64::new(0)),
            sleepers: CachePadded::new(AtomicU64::new(0)),
        }
    }

    /// Takes a permit.
    ///
    /// # Errors
    /// What was left, where that is no permit or where another thread was faster.
    fn pass(&self) -> Result<(), u64> {
        let left = self.left.load(Ordering::SeqCst);
        if left <= NONE_LEFT {
            return Err(left);
        }
        match self
            .left
            .compare_exchange(left, left - 1, Ordering::SeqCst, Ordering::SeqCst)
        {
            Ok(_) => Ok(()),
            Err(_) => Err(left),
        }
    }

    /// Looks for a permit, and says whether it took one.
    fn finds_one(&self) -> bool {
        for _ in 0..LOOKS {
            if self.pass().is_ok() {
                return true;
            }
            spin_loop();
        }
        for _ in 0..YIELDS {
            if self.pass().is_ok() {
                return true;
            }
            yield_now();
        }
        false
    }

    /// Looks for a permit for a while, and goes through without one behind one try to sleep.
    pub fn enter<W: Wait>(&self, rt: &W) {
        if self.pass().is_ok() {
            return;
        }
        self.lookers.fetch_add(1, Ordering::SeqCst);
        let found = self.finds_one();
        self.lookers.fetch_sub(1, Ordering::SeqCst);
        if !found {
            self.sleepers.fetch_add(1, Ordering::SeqCst);
            self.sleep(rt);
            self.sleepers.fetch_sub(1, Ordering::SeqCst);
        }
    }

    /// Sleeps where no permit is left and `left` does not change meanwhile, and goes through.
    fn sleep<W: Wait>(&self, rt: &W) {
        match self.pass() {
            Ok(()) => return,
            // Above `NONE_LEFT` another thread took a permit just now, and there may be more.
            Err(left) if left <= NONE_LEFT => self.left.park(rt, (left % (1 << 32)) as u32),
            Err(_) => {}
        }
        if self.pass().is_err() {
            self.left.fetch_sub(1, Ordering::SeqCst);
        }
    }

    /// Gives the permit back behind a hold of the ticket, and wakes a thread that sleeps for one where a permit is left
    /// and nobody looks for it, and at each `ROUND`th ticket.
    ///
    /// To wake a thread costs more than a hold. No sleeper is forgotten: it counts itself before it tries to pass for
    /// the last time, and `park` returns at once unless `left` is still what it saw then. So whoever sleeps began while
    /// others were inside, and the last of those to leave finds it counted. That one wakes nobody only where another
    /// thread looks. Each thread that looks tries to pass at least once more, in `sleep` if not before: so it takes the
    /// permit that is left here, or another thread has taken it, and whoever took it leaves later and finds the sleeper
    /// counted. Where others come all the time, the `ROUND`th ticket wakes.
    pub fn leave(&self, ticket: u64) {
        let left = self.left.fetch_add(1, Ordering::SeqCst);
        if self.sleepers.load(Ordering::SeqCst) == 0 {
            return;
        }
        let is_wanted = left < NONE_LEFT || self.lookers.load(Ordering::SeqCst) > 0;
        if !is_wanted || ticket % ROUND == 0 {
            self.left.wake_one();
        }
    }
}
