//! Loops of actions over a shop of 10,000 items in memory, whose time `bench/auction` takes.
//!
//! The words are a loop, `bid` or `browse`, and how often it goes round. What it writes is the loop, how many actions
//! were answered with 200, and how many steps they made, which are known beforehand: a bid makes 11 steps, and a page
//! of 16 items 104. It then reads its input to the end, so that its memory can be seen.
#![tactic(auto)]

mod loops;
mod runs;
mod shop_rows;

use crash_base::OutOfMemory;
use loops::{bids, browses};
use runs::Tally;
use std::alloc::Global;
use std::process::ExitCode;
use std::{env, io};

/// A loop and how often it goes round, where there are two words and the second one is a number.
fn words(rt: &HostRuntime) -> Option<(String, u64)> {
    let mut words = env::args(rt).ok()?.skip(1);
    let name = words.next()?;
    let count = words.next()?.parse().ok()?;
    Some((name, count))
}

/// What the actions of a loop came to. None where there is no such loop.
fn tally_of(alloc: Global, name: &str, count: u64) -> Result<Option<Tally>, OutOfMemory> {
    match name {
        "bid" => Ok(Some(bids(alloc, count)?)),
        "browse" => Ok(Some(browses(alloc, count)?)),
        _ => Ok(None),
    }
}

/// Tells what the actions of a loop came to, and waits for the end of the input.
fn tell(rt: &HostRuntime, name: &str, tally: Tally) -> io::Result<()> {
    let answered = tally.answered;
    let steps = tally.steps;
    println!(rt; "{name} {answered} {steps}")?;
    io::read_to_string(rt.alloc(), rt.stdin())?;
    Ok(())
}

fn main(rt: HostRuntime) -> ExitCode {
    let Some((name, count)) = words(&rt) else {
        return ExitCode::from(2);
    };
    match tally_of(rt.alloc(), name.as_str(), count) {
        Ok(Some(tally)) => match tell(&rt, name.as_str(), tally) {
            Ok(()) => ExitCode::from(0),
            Err(_) => ExitCode::from(5),
        },
        Ok(None) => ExitCode::from(2),
        Err(OutOfMemory) => ExitCode::from(9),
    }
}
