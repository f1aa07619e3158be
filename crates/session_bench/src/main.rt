//! Loops over frames, a brick and a link in memory, whose time `bench/sessions` takes.
//!
//! The words are a loop, `encode`, `decode`, `put`, `renew`, `fresh`, `get`, `idle`, `sweep` or `pair`, and how often
//! it goes round. What it writes is the loop and a sum, which is known beforehand: the bytes of the frames, the bytes
//! of the values that were decoded, found or read back, or how many values were stored, or were kept after each sweep.
#![tactic(auto)]

mod loops;
mod pairs;

use crash_base::OutOfMemory;
use loops::{decoded, encoded, freshened, got, renewed, stored, swept, swept_in_vain};
use pairs::paired;
use std::alloc::Global;
use std::env;
use std::process::ExitCode;

/// A loop and how often it goes round, where there are two words and the second one is a number.
fn words(rt: &HostRuntime) -> Option<(String, u64)> {
    let mut words = env::args(rt).ok()?.skip(1);
    let name = words.next()?;
    let count = words.next()?.parse().ok()?;
    Some((name, count))
}

/// The sum of a loop. None where there is no such loop.
fn sum_of(alloc: Global, name: &str, count: u64) -> Result<Option<u64>, OutOfMemory> {
    match name {
        "encode" => Ok(Some(encoded(alloc, count)?)),
        "decode" => Ok(Some(decoded(alloc, count)?)),
        "put" => Ok(Some(stored(alloc, count)?)),
        "renew" => Ok(Some(renewed(alloc, count)?)),
        "fresh" => Ok(Some(freshened(alloc, count)?)),
        "get" => Ok(Some(got(alloc, count)?)),
        "idle" => Ok(Some(swept_in_vain(alloc, count)?)),
        "sweep" => Ok(Some(swept(alloc, count)?)),
        "pair" => Ok(Some(paired(alloc, count)?)),
        _ => Ok(None),
    }
}

fn main(rt: HostRuntime) -> ExitCode {
    let Some((name, count)) = words(&rt) else {
        return ExitCode::from(2);
    };
    match sum_of(rt.alloc(), name.as_str(), count) {
        Ok(Some(sum)) => match println!(&rt; "{name} {sum}") {
            Ok(()) => ExitCode::from(0),
            Err(_) => ExitCode::from(5),
        },
        Ok(None) => ExitCode::from(2),
        Err(OutOfMemory) => ExitCode::from(9),
    }
}
