//! Holds of a lock by many threads, whose time `bench/lock` takes.
//!
//! The words are how many threads there are, how many holds each of them makes, and how many turns of work are done in
//! a hold. What it writes is how many holds there were.
//!
//! With the fourth word `waits` each thread also reads a clock around each take, and a second line has the nanoseconds
//! that a take waited: the median, the 99th of a hundred, and the most.
#![tactic(auto)]

mod held;
mod threads;

use std::process::ExitCode;
use std::{env, io};
use threads::{Load, Outcome, run};

/// What is to be run.
fn load(rt: &HostRuntime) -> Option<Load> {
    let mut words = env::args(rt).ok()?.skip(1);
    let threads = words.next()?.parse().ok()?;
    let holds = words.next()?.parse().ok()?;
    let turns = words.next()?.parse().ok()?;
    let times_waits = words.next().is_some();
    Some(Load {
        threads,
        holds,
        turns,
        times_waits,
    })
}

/// The nanoseconds that so many of a hundred waits did not reach. 0 where there are none.
fn below(waits: &[u64], percent: usize) -> u64 {
    let index = (waits.len() / 100).saturating_mul(percent);
    match waits.get(index) {
        Some(nanoseconds) => *nanoseconds,
        None => 0,
    }
}

/// Writes what came of a run.
fn tell(rt: &HostRuntime, outcome: Outcome) -> io::Result<()> {
    println!(rt; "holds {}", outcome.count)?;
    let mut waits = outcome.waits;
    if waits.is_empty() || waits.sort().is_err() {
        return Ok(());
    }
    let most = match waits.last() {
        Some(nanoseconds) => *nanoseconds,
        None => 0,
    };
    println!(rt;
        "waits {} {} {}",
        below(&waits, 50),
        below(&waits, 99),
        most
    )
}

fn main(rt: HostRuntime) -> ExitCode {
    let Some(load) = load(&rt) else {
        return ExitCode::from(2);
    };
    match run(&rt, rt.alloc(), &load) {
        Some(outcome) => match tell(&rt, outcome) {
            Ok(()) => ExitCode::from(0),
            Err(_) => ExitCode::from(5),
        },
        None => ExitCode::from(9),
    }
}
