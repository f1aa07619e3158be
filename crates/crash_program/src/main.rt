//! The program `crash`: its words, its streams and its exit status.
//!
//! Everything else is `drive_engine::run_command`, which is proved over any source, sink and keeper. Here it gets the
//! standard streams, and a keeper in memory.
#![tactic(auto)]

#[cfg(test)]
mod command_tests;
mod words;

ghost use Rattle.std.specs.Prelude.{◌≡◌, ◌⊎◌, [], IfOk, codes};
ghost use Rattle.outside.specs.Faults.{Rose};
ghost use Rattle.outside.specs.Sink.{appended, AppendsPrefix, AppendsOrFails};

use crash_base::{OutOfMemory, RowList, WordText};
use drive_engine::{USAGE, run_command};
use outside::{CallList, InputSource, MapKeeper, OutputSink, Sink, write_all};
use serve_command::{serve, serve_words};
use std::alloc::Global;
use std::process::ExitCode;
use std::random::RandomSource;
use std::sync::Wait;
use std::thread::Threads;
use std::time::Clock;
use words::Invocation;

/// What `--help` writes after the usage line: a line for each word.
const HELP: &str =
    "drive: reads a scenario from standard input and writes its transcript to standard output\n\
groups: reads descriptors in TOML from standard input and writes each component with its recovery group\n\
workload: makes the calls and the reboots that the number NUMBER draws, in COUNT turns, and sums them up\n\
serve: serves the shop on PORT of 127.0.0.1, over the database FILE, under the key in KEYFILE, by WORKERS threads\n";

/// What `--version` writes.
const VERSION: &str = "crash 0.2.0\n";

/// Writes a text, and answers the status of that: 0; or 5 where the output failed, which is reported.
fn answer<T: Sink, E: Sink>(out: &mut T, errors: &mut E, text: &str) -> u8
    ensures status { (result ≡ 0) ⊎ (result ≡ 5) }
    ensures done { result ≡ 0 → (errors.new ≡ errors.old)
        × (T.written out.new ≡ appended (T.written out.old) text.now) }
    ensures failed { result ≡ 5 → Rose (T.faults out.old) (T.faults out.new)
        × AppendsPrefix (T.written out.old) (T.written out.new) text.now
        × AppendsOrFails (E.written errors.old) (E.written errors.new)
        (E.faults errors.old) (E.faults errors.new) (codes "write failed\n") }
{
    match write_all(out, text.as_bytes()) {
        Ok(()) => 0,
        Err(_) => {
            let _ = write_all(errors, "write failed\n".as_bytes());
            5
        }
    }
}

/// A keeper in memory that holds no rows, and of which no call fails.
fn empty_keeper(alloc: Global) -> Result<MapKeeper, OutOfMemory>
    ensures { IfOk result (λ keeper. keeper ≡ record {
      told = record { rows = []; calls = 0; failed = [] };
      failing = [];
      faults = 0;
    }) }
{
    MapKeeper::new(alloc, RowList::new(alloc), CallList::new(alloc))
}

/// Reports that there was no memory to begin with, and answers the status of that.
fn out_of_memory<E: Sink>(errors: &mut E) -> u8
    ensures status { result ≡ 9 }
    ensures reported { AppendsOrFails (E.written errors.old) (E.written errors.new)
        (E.faults errors.old) (E.faults errors.new) (codes "out of memory\n") }
{
    let _ = write_all(errors, "out of memory\n".as_bytes());
    9
}

/// Runs a command that ends with its input, and answers the status.
fn run_on_streams(host: &HostRuntime, words: &[WordText]) -> u8 {
    let alloc = host.alloc();
    let mut input = InputSource::new(host.stdin());
    let mut out = OutputSink::new(host.stdout());
    let mut errors = OutputSink::new(host.stderr());
    let Ok(keeper) = empty_keeper(alloc) else {
        return out_of_memory(&mut errors);
    };
    let (status, _) = run_command(alloc, words, &mut input, &mut out, &mut errors, keeper);
    status
}

/// Runs a command, and answers the status.
fn command<R: Threads + Wait + Clock + RandomSource + Sync>(
    rt: &R,
    host: &HostRuntime,
    words: &[WordText],
) -> u8 {
    match serve_words(words) {
        Some(said) => {
            let (status, _) = serve(rt, host, &said, OutputSink::new(host.stderr()));
            status
        }
        None => run_on_streams(host, words),
    }
}

/// Runs what the words ask for, and answers the status.
fn run<R: Threads + Wait + Clock + RandomSource + Sync>(
    rt: &R,
    host: &HostRuntime,
    words: &[WordText],
) -> u8 {
    let mut out = OutputSink::new(host.stdout());
    let mut errors = OutputSink::new(host.stderr());
    match words::invocation_of(words) {
        Invocation::Help => match answer(&mut out, &mut errors, USAGE) {
            0 => answer(&mut out, &mut errors, HELP),
            status => status,
        },
        Invocation::Version => answer(&mut out, &mut errors, VERSION),
        Invocation::Command => command(rt, host, words),
    }
}

fn main(rt: HostRuntime) -> ExitCode {
    let status = match words::read(&rt) {
        Ok(words) => run(&rt, &rt, words.as_slice()),
        Err(_) => out_of_memory(&mut OutputSink::new(rt.stderr())),
    };
    ExitCode::from(status)
}
