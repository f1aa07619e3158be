//! The loops.

use crate::server::{House, Served};
use crate::shop::{bid, page};
use crash_base::OutOfMemory;
use std::alloc::Global;

/// A request of curl.
const CURL: &[u8] =
    b"GET / HTTP/1.1\r\nHost: localhost\r\nUser-Agent: curl/8.5.0\r\nAccept: */*\r\n\r\n";

/// Nothing was served yet.
const NOTHING: Served = Served {
    answered: 0,
    items: 0,
};

/// A loop of requests.
#[derive(Clone, Copy)]
pub(crate) enum Loop {
    /// Asks for the page of the signed out. How many were answered with 200.
    Pages,
    /// Makes bids. How many were answered with 200.
    Bids,
    /// Makes the requests of bids, and sends none. How many have a body.
    Forms,
}

/// Asks `count` times for the page of the signed out.
fn pages(alloc: Global, house: &mut House, count: u64) -> Result<u64, OutOfMemory> {
    let mut served = NOTHING;
    for _ in 0..count {
        house.serve(alloc, &mut served, CURL)?;
    }
    Ok(served.answered)
}

/// Makes `count` bids.
fn bids(alloc: Global, house: &mut House, count: u64) -> Result<u64, OutOfMemory> {
    let mut served = NOTHING;
    for round in 0..count {
        let request = bid(alloc, house.cookie.as_str(), round)?;
        house.serve(alloc, &mut served, request.as_bytes())?;
    }
    Ok(served.answered)
}

/// Makes the requests of `count` bids, and sends none.
fn forms(alloc: Global, house: &House, count: u64) -> Result<u64, OutOfMemory> {
    let mut made: u64 = 0;
    for round in 0..count {
        let request = bid(alloc, house.cookie.as_str(), round)?;
        if request.len() > 100 {
            made = made.wrapping_add(1);
        }
    }
    Ok(made)
}

/// Goes round a loop `count` times in a new house. None where the house is not started.
pub(crate) fn rounds(alloc: Global, of: Loop, count: u64) -> Result<Option<u64>, OutOfMemory> {
    let Some(mut house) = House::start(alloc)? else {
        return Ok(None);
    };
    let counted = match of {
        Loop::Pages => pages(alloc, &mut house, count),
        Loop::Bids => bids(alloc, &mut house, count),
        Loop::Forms => forms(alloc, &house, count),
    };
    drop(house);
    let counted = counted?;
    Ok(Some(counted))
}

/// How a request went over a connection of its own.
#[derive(Clone, Copy)]
pub(crate) struct Tried {
    /// Whether its connection ended, since there was no memory.
    pub(crate) ended: bool,
    /// How many responses were put out with status 200.
    pub(crate) answered: u64,
    /// How many entries the journal has then.
    pub(crate) entries: u64,
    /// How many passes are out then.
    pub(crate) out: u64,
}

/// How the requests of `want` went, and how each went once more, where its connection had ended.
#[derive(Clone, Copy)]
pub(crate) struct Wanted {
    pub(crate) bid: Tried,
    pub(crate) bid_again: Option<Tried>,
    pub(crate) page: Tried,
    pub(crate) page_again: Option<Tried>,
}

/// Sends a request over a connection of its own, which is given up then.
fn attempt(alloc: Global, house: &mut House, bytes: &[u8]) -> Tried {
    let mut served = NOTHING;
    let ended = house.serve(alloc, &mut served, bytes).is_err();
    house.give_up(alloc);
    Tried {
        ended,
        answered: served.answered,
        entries: house.entries(),
        out: house.passes_out(),
    }
}

/// Sends a request once more, where its connection ended for want of memory.
fn attempt_again(alloc: Global, house: &mut House, bytes: &[u8], first: Tried) -> Option<Tried> {
    if first.ended {
        Some(attempt(alloc, house, bytes))
    } else {
        None
    }
}

/// Makes a bid, and then asks for a page with which the session is written. How both went.
fn both(alloc: Global, house: &mut House) -> Result<Wanted, OutOfMemory> {
    let request = bid(alloc, house.cookie.as_str(), 0)?;
    let late = page(alloc, house.cookie.as_str())?;
    let first = attempt(alloc, house, request.as_bytes());
    let again = attempt_again(alloc, house, request.as_bytes(), first);
    house.pass_time();
    let last = attempt(alloc, house, late.as_bytes());
    let last_again = attempt_again(alloc, house, late.as_bytes(), last);
    Ok(Wanted {
        bid: first,
        bid_again: again,
        page: last,
        page_again: last_again,
    })
}

/// Makes a bid, and then asks for a page with which the session is written. How both went. None where the house is not
/// started.
pub(crate) fn wants(alloc: Global) -> Result<Option<Wanted>, OutOfMemory> {
    let Some(mut house) = House::start(alloc)? else {
        return Ok(None);
    };
    let wanted = both(alloc, &mut house);
    drop(house);
    let wanted = wanted?;
    Ok(Some(wanted))
}
