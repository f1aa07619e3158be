//! Loops of commits, lists and looks over one boot, and of passes over one container, whose time and memory
//! `bench/boot` takes.
//!
//! The words are one of these loops with its numbers. What it writes is the loop and a count, which is known
//! beforehand.
//!
//! - `commits N ROWS`: N calls that each put a row and commit, over so many rows. The count is of the commits.
//! - `falling N`: the same over rows of their own, by requests whose numbers fall.
//! - `lists N LISTS`: lists of a table of 1,000 rows, after N commits to another table. The count is of the rows
//!   listed.
//! - `looks N`: 200,000 commits over four rows, and then as many looks at what a row was at a place. The count is of
//!   the looks that found what was committed there.
//! - `passes N`: N times a call of the container enters a component and leaves it. The count is of those where nothing
//!   was refused.
//! - `retries N`: N commits over three rows, each made once more where there was no memory for it. The count is of
//!   those that were answered their places and left the others as they were.
//!
//! It then reads its input to the end, so that its memory can be seen.
#![tactic(auto)]

mod loops;
mod null_keeper;
mod passes;
mod store;

use crash_base::OutOfMemory;
use loops::{commits, falling, lists, looks, retries};
use passes::passes;
use std::alloc::Global;
use std::process::ExitCode;
use std::{env, io};
use store::Store;

/// A loop and its numbers, of which the second is 0 where there is none.
fn words(rt: &HostRuntime) -> Option<(String, u64, u64)> {
    let mut words = env::args(rt).ok()?.skip(1);
    let name = words.next()?;
    let count = words.next()?.parse().ok()?;
    let more = match words.next() {
        Some(word) => word.parse().ok()?,
        None => 0,
    };
    Some((name, count, more))
}

/// The count of a loop over a boot. None where there is no such loop.
fn count_over(
    alloc: Global,
    store: &mut Store,
    name: &str,
    count: u64,
    more: u64,
) -> Result<Option<u64>, OutOfMemory> {
    match name {
        "commits" => Ok(Some(commits(alloc, store, count, more)?)),
        "falling" => Ok(Some(falling(alloc, store, count)?)),
        "lists" => Ok(Some(lists(alloc, store, count, more)?)),
        "looks" => Ok(Some(looks(alloc, store, count)?)),
        "retries" => Ok(Some(retries(alloc, store, count)?)),
        _ => Ok(None),
    }
}

/// The count of a loop. None where there is no such loop, or what it goes over is not started.
fn count_of(alloc: Global, name: &str, count: u64, more: u64) -> Result<Option<u64>, OutOfMemory> {
    if name == "passes" {
        return passes(alloc, count);
    }
    let Some(mut store) = Store::start(alloc)? else {
        return Ok(None);
    };
    count_over(alloc, &mut store, name, count, more)
}

/// Tells the count of a loop, and waits for the end of the input.
fn tell(rt: &HostRuntime, name: &str, count: u64) -> io::Result<()> {
    println!(rt; "{name} {count}")?;
    io::read_to_string(rt.alloc(), rt.stdin())?;
    Ok(())
}

fn main(rt: HostRuntime) -> ExitCode {
    let Some((name, count, more)) = words(&rt) else {
        return ExitCode::from(2);
    };
    match count_of(rt.alloc(), name.as_str(), count, more) {
        Ok(Some(count)) => match tell(&rt, name.as_str(), count) {
            Ok(()) => ExitCode::from(0),
            Err(_) => ExitCode::from(5),
        },
        Ok(None) => ExitCode::from(2),
        Err(OutOfMemory) => ExitCode::from(9),
    }
}
