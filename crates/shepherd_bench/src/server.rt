//! The site in memory, with one connection.

use crate::shop::{KEY, LEAST, cookie, rows};
use container_core::{JournalLimits, MAX_ENTRIES, MAX_JOURNAL_BYTES, StartRefusal};
use crash_base::{FaultList, Moment, OutOfMemory};
use link_memory::ScriptLink;
use memory_site::{MemorySite, StepEnd};
use outside::{CallList, MapKeeper};
use send_windows::Windows;
use std::alloc::Global;

/// As much as a boot may hold.
const LIMITS: JournalLimits = JournalLimits {
    entries: MAX_ENTRIES,
    bytes: MAX_JOURNAL_BYTES,
};

/// A shop with one item, a connection to it, and the cookie of its client.
#[derive(Drop)]
pub(crate) struct House {
    site: MemorySite,
    at: usize,
    pub(crate) cookie: String,
}

/// What requests came to, as far as their connection has told.
#[derive(Clone, Copy)]
pub(crate) struct Served {
    /// How many responses were put out with status 200.
    pub(crate) answered: u64,
    /// How many items were taken.
    pub(crate) items: u64,
}

impl Served {
    /// Counts what came of a step. Whether the connection has more to do.
    fn count(&mut self, end: StepEnd) -> bool {
        match end {
            StepEnd::Called | StepEnd::Alone => true,
            StepEnd::Response(bytes) => {
                if bytes.as_slice().starts_with(b"HTTP/1.1 200 ") {
                    self.answered = self.answered.wrapping_add(1);
                }
                true
            }
            StepEnd::Item(_) => {
                self.items = self.items.wrapping_add(1);
                true
            }
            StepEnd::Waits | StepEnd::Ended(_) => false,
        }
    }
}

/// A shop that is not started is none; but want of memory is told.
fn unstarted(why: StartRefusal) -> Result<Option<House>, OutOfMemory> {
    match why {
        StartRefusal::OutOfMemory => Err(OutOfMemory),
        _ => Ok(None),
    }
}

/// What a shop is opened with.
#[derive(Drop)]
struct Parts {
    keeper: MapKeeper,
    link: ScriptLink,
    windows: Windows,
}

/// A keeper of the rows of the shop, a link to three bricks, and their windows.
fn new_parts(alloc: Global) -> Result<Parts, OutOfMemory> {
    let keeper = MapKeeper::new(alloc, rows(alloc)?, CallList::new(alloc))?;
    let link = match ScriptLink::new(alloc, 3) {
        Ok(link) => link,
        Err(OutOfMemory) => {
            drop(keeper);
            return Err(OutOfMemory);
        }
    };
    match Windows::new(alloc, 3, 3, LEAST, false) {
        Ok(windows) => Ok(Parts {
            keeper,
            link,
            windows,
        }),
        Err(OutOfMemory) => {
            drop(keeper);
            drop(link);
            Err(OutOfMemory)
        }
    }
}

/// The site, with a connection for the client with this cookie.
fn connected(
    alloc: Global,
    mut site: MemorySite,
    cookie: String,
) -> Result<Option<House>, OutOfMemory> {
    match site.connect(alloc) {
        Ok(at) => Ok(Some(House { site, at, cookie })),
        Err(OutOfMemory) => {
            drop(site);
            Err(OutOfMemory)
        }
    }
}

/// The shop, for the client with this cookie.
fn opened(alloc: Global, parts: Parts, cookie: String) -> Result<Option<House>, OutOfMemory> {
    let Parts {
        keeper,
        link,
        windows,
    } = parts;
    let plans = FaultList::from_vec(Vec::new(alloc));
    match MemorySite::start(alloc, keeper, plans, LIMITS, windows, link, KEY, 0) {
        Ok(site) => connected(alloc, site, cookie),
        Err(fail) => {
            let why = fail.refusal;
            drop(fail);
            unstarted(why)
        }
    }
}

impl House {
    /// None where the shop is not started, or too few bricks stored the session of its client.
    pub(crate) fn start(alloc: Global) -> Result<Option<House>, OutOfMemory> {
        let mut parts = new_parts(alloc)?;
        match cookie(alloc, &mut parts.link, &mut parts.windows) {
            Ok(Some(cookie)) => opened(alloc, parts, cookie),
            Ok(None) => {
                drop(parts);
                Ok(None)
            }
            Err(OutOfMemory) => {
                drop(parts);
                Err(OutOfMemory)
            }
        }
    }

    /// Half of the lease has gone by, and a moment more.
    pub(crate) fn pass_time(&mut self) -> bool {
        self.site.set_clock(Moment(900_001))
    }

    /// How many entries the journal has.
    pub(crate) fn entries(&self) -> u64 {
        self.site.container().journal().len()
    }

    /// How many passes are out.
    pub(crate) fn passes_out(&self) -> u64 {
        let mut sum: u64 = 0;
        for fact in self.site.windows() {
            sum = sum.wrapping_add(fact.in_flight);
        }
        sum
    }

    /// Gives up what the connection holds, and begins another one.
    pub(crate) fn give_up(&mut self, alloc: Global) {
        let _ = self.site.give_up(alloc, self.at);
    }

    /// Bytes come over the connection, and all that came is served, until it waits for bytes or has ended.
    pub(crate) fn serve(
        &mut self,
        alloc: Global,
        served: &mut Served,
        bytes: &[u8],
    ) -> Result<(), OutOfMemory> {
        self.site.feed(self.at, bytes)?;
        for _ in 0..100_000 {
            let end = self.site.step(alloc, self.at)?;
            if !served.count(end) {
                return Ok(());
            }
        }
        Ok(())
    }
}
