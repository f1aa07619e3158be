//! Loops of requests over one connection in memory, whose time `bench/shepherd` takes.
//!
//! The words are a loop and how often it goes round. What it writes is the loop and how many requests were answered
//! with 200, which is known beforehand.
//!
//! - `page`: a request of curl for the page of the signed out.
//! - `bid`: a bid by a browser with a cookie, each for one cent more on one item: its token is looked at, its session
//!   read from a brick, and its bid committed.
//! - `form`: the same requests made and not sent, to be taken off.
//! - `want`, with any number: a bid, and then a page whose session is due and is written, each over a connection of its
//!   own, and once more where that ended for want of memory. It writes for each `told` with how many responses had 200,
//!   or `ended`, and then how many entries the journal has, and how many passes are out.
#![tactic(auto)]

mod loops;
mod server;
mod shop;

use crash_base::OutOfMemory;
use loops::{Loop, Tried, Wanted, rounds, wants};
use std::alloc::Global;
use std::process::ExitCode;
use std::{env, io};

/// A loop and how often it goes round, where there are two words and the second one is a number.
fn words(rt: &HostRuntime) -> Option<(String, u64)> {
    let mut words = env::args(rt).ok()?.skip(1);
    let name = words.next()?;
    let count = words.next()?.parse().ok()?;
    Some((name, count))
}

/// The count of a loop. None where there is no such loop, or its house is not started.
fn count_of(alloc: Global, name: &str, count: u64) -> Result<Option<u64>, OutOfMemory> {
    match name {
        "page" => rounds(alloc, Loop::Pages, count),
        "bid" => rounds(alloc, Loop::Bids, count),
        "form" => rounds(alloc, Loop::Forms, count),
        _ => Ok(None),
    }
}

/// Tells how a request went.
fn tell(rt: &HostRuntime, name: &str, tried: Tried) -> io::Result<()> {
    let Tried {
        ended,
        answered,
        entries,
        out,
    } = tried;
    let word = if ended { "ended" } else { "told" };
    println!(rt; "{name} {word} {answered} {entries} {out}")
}

/// Tells how a request went once more, where it was sent once more.
fn tell_again(rt: &HostRuntime, name: &str, again: Option<Tried>) -> io::Result<()> {
    match again {
        Some(again) => tell(rt, name, again),
        None => Ok(()),
    }
}

/// Tells how the requests of `want` went.
fn tell_each(rt: &HostRuntime, wanted: Wanted) -> io::Result<()> {
    tell(rt, "bid", wanted.bid)?;
    tell_again(rt, "bid", wanted.bid_again)?;
    tell(rt, "page", wanted.page)?;
    tell_again(rt, "page", wanted.page_again)
}

/// Tells of the requests of `want`.
fn tell_wants(rt: &HostRuntime) -> ExitCode {
    match wants(rt.alloc()) {
        Ok(Some(wanted)) => match tell_each(rt, wanted) {
            Ok(()) => ExitCode::from(0),
            Err(_) => ExitCode::from(5),
        },
        Ok(None) => ExitCode::from(2),
        Err(OutOfMemory) => ExitCode::from(9),
    }
}

/// Tells the count of a loop.
fn tell_count(rt: &HostRuntime, name: &str, count: u64) -> ExitCode {
    match count_of(rt.alloc(), name, count) {
        Ok(Some(count)) => match println!(rt; "{name} {count}") {
            Ok(()) => ExitCode::from(0),
            Err(_) => ExitCode::from(5),
        },
        Ok(None) => ExitCode::from(2),
        Err(OutOfMemory) => ExitCode::from(9),
    }
}

fn main(rt: HostRuntime) -> ExitCode {
    let Some((name, count)) = words(&rt) else {
        return ExitCode::from(2);
    };
    if name.as_str() == "want" {
        tell_wants(&rt)
    } else {
        tell_count(&rt, name.as_str(), count)
    }
}
