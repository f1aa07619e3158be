//! The command.

ghost use Rattle.std.specs.Prelude.{◌≡◌, ◌≢◌, ◌≤◌, ℕ, List, IfOk, MatchOption, None, OnErr, box_value, string_bytes};
ghost use Rattle.container_server.specs.Running.{seen};
ghost use Rattle.outside.specs.Sink.{AppendsOrFails};
ghost use Rattle.service_log.specs.Logging.{WritesLine, log_of};
ghost use Rattle.serve_command.specs.Ending.{report_of, status_of};
ghost use Rattle.serve_command.specs.Opening.{TellsServing, place_text, serving_line};
ghost use Rattle.serve_command.specs.Serving.{HasRun, HasServedShop, RanToEnd};

use crate::ending::{StartFault, report_fault};
use crate::file_keeper::{Explains, FileKeeper};
use crate::gate::SystemGate;
use crate::house::{BRICKS, make_kits, open_house};
use crate::last_line::LastLine;
use crate::opening::{open_door, open_keeper, open_key, port_failed};
use crate::reasons::reason_of_end;
use crate::words::ServeWords;
use client_sockets::Door;
use container_server::{Gate, SiteConfig, run_serve};
use crash_base::{Items, OutOfMemory};
use outside::{Keeper, Sink, write_all};
use std::alloc::Global;
use std::io;
use std::random::RandomSource;
use std::sync::Wait;
use std::thread::Threads;
use std::time::Clock;

/// What a server has opened.
#[derive(Drop)]
struct Opened<K: Keeper + Drop> {
    key: Items<u8>,
    keeper: K,
    door: Door,
}

/// Opens the port, behind the files.
fn open_last<K: Keeper + Drop>(
    host: &HostRuntime,
    port: u16,
    key: Items<u8>,
    keeper: K,
) -> Result<Opened<K>, StartFault>
    ensures { IfOk result (λ opened. opened.keeper ≡ keeper) }
{
    match open_door(host, port) {
        Ok(door) => Ok(Opened { key, keeper, door }),
        Err(fault) => Err(fault),
    }
}

/// Opens what the words name: the file of the key, the database and the port, in this order.
fn open(host: &HostRuntime, words: &ServeWords<'_>) -> Result<Opened<FileKeeper>, StartFault>
    ensures { IfOk result (λ opened. (box_value opened.keeper.inner).faults ≡ 0) }
{
    let key = open_key(host, words.key_file)?;
    match open_keeper(host, words.file) {
        Ok(keeper) => open_last(host, words.port, key, keeper),
        Err(fault) => Err(fault),
    }
}

/// The site is served under this key, and each session is sent to three bricks, two of which have to store it.
fn site_config(key: Items<u8>) -> SiteConfig
    ensures key { result.key ≡ key }
    ensures node { result.node ≡ 1 }
    ensures bricks { (result.w ≡ 3) × (result.wq ≡ 2) }
{
    SiteConfig {
        key,
        node: 1,
        w: 3,
        wq: 2,
    }
}

/// Where a server is, and how many workers it has.
fn place_text(alloc: Global, port: u16, workers: u16) -> Result<String, OutOfMemory>
    ensures { IfOk result (λ text. string_bytes text ≡ place_text port workers) }
{
    let text = format!(in alloc; " on 127.0.0.1:{port} by {workers} workers\n")?;
    Ok(text)
}

/// The line of a server that has opened its file and its port.
fn serving_line(alloc: Global, file: &[u8], port: u16, workers: u16) -> Result<Vec<u8>, OutOfMemory>
    ensures { IfOk result (λ line. line.items ≡ serving_line file.now port workers) }
{
    let place = place_text(alloc, port, workers)?;
    let mut line = Vec::from_slice(alloc, b"serving ")?;
    line.extend_from_slice(file)?;
    line.extend_from_slice(place.as_bytes())?;
    Ok(line)
}

/// Writes a line that there is, if there is one.
fn write_found<E: Sink>(errors: &mut E, line: Result<Vec<u8>, OutOfMemory>)
    ensures some { IfOk line (λ line. WritesLine line.items (log_of (E.written errors.old) (E.faults errors.old))
        (log_of (E.written errors.new) (E.faults errors.new))) }
    ensures none { OnErr line (log_of (E.written errors.new) (E.faults errors.new)
        ≡ log_of (E.written errors.old) (E.faults errors.old)) }
{
    if let Ok(line) = line {
        let _ = write_all(errors, line.as_slice());
    }
}

/// Tells what is served, and where. Where there is no memory for the line, nothing is told.
fn tell_serving<E: Sink>(alloc: Global, errors: &mut E, words: &ServeWords<'_>)
    ensures { TellsServing words.now (log_of (E.written errors.old) (E.faults errors.old))
        (log_of (E.written errors.new) (E.faults errors.new)) }
{
    let line = serving_line(alloc, words.file, words.port, words.workers);
    write_found(errors, line);
}

/// Tells why no more connections came, where that is why a server ended.
fn tell_closed<E: Sink>(alloc: Global, errors: &mut E, port: u16, closed: Option<io::Error>)
    ensures none { closed ≡ None → errors.new ≡ errors.old }
    ensures told { (reason : List ℕ) × AppendsOrFails (E.written errors.old) (E.written errors.new)
        (E.faults errors.old) (E.faults errors.new) reason }
    ensures count { E.faults errors.old ≤ E.faults errors.new }
{
    match closed {
        Some(error) => {
            let fault = port_failed(alloc, port, error);
            let _ = write_all(errors, fault.reason());
        }
        None => {}
    }
}

/// Runs a server through a gate to its end, and writes the line of the end behind its reason. The status, and that no
/// more connections come, if that is why; and the keeper.
fn run_to_end<
    R: Threads + Wait + Sync,
    G: Gate<Closed = io::Error> + Sync,
    E: Sink + Send + Drop,
    K: Keeper + Explains + Drop,
>(
    rt: &R,
    alloc: Global,
    gate: &G,
    words: &ServeWords<'_>,
    config: &SiteConfig,
    errors: E,
    keeper: K,
) -> (u8, Option<io::Error>, E, K)
    requires some { 1 ≤ words.now.workers }
    requires few { words.now.workers ≤ 64 }
    requires bricks { (config.now.w ≡ 3) × (config.now.wq ≡ 2) }
    ensures ran { HasRun (G.plans gate.now) result.0 (seen (K.told keeper) (K.faults keeper))
        (seen (K.told result.3) (K.faults result.3)) (log_of (E.written errors) (E.faults errors))
        (log_of (E.written result.2) (E.faults result.2)) }
    ensures closed { MatchOption result.1 (result.0 ≢ 0) (λ _. result.0 ≡ 0) }
{
    let mut last_line = LastLine::new(alloc, errors);
    let (status, closed, keeper) = run_serve(
        rt,
        alloc,
        gate,
        words.workers,
        config,
        BRICKS,
        &mut last_line,
        keeper,
    );
    let reason = reason_of_end(alloc, words.file, status, keeper.last_fault());
    let errors = last_line.end(reason.as_slice());
    (status, closed, errors, keeper)
}

/// Serves through a gate to the end, and answers the status.
fn serve_through<
    R: Threads + Wait + Sync,
    G: Gate<Closed = io::Error> + Sync + Drop,
    E: Sink + Send + Drop,
    K: Keeper + Explains + Drop,
>(
    rt: &R,
    alloc: Global,
    gate: G,
    words: &ServeWords<'_>,
    key: Items<u8>,
    errors: E,
    keeper: K,
) -> (u8, E)
    requires some { 1 ≤ words.now.workers }
    requires few { words.now.workers ≤ 64 }
    ensures { RanToEnd (G.plans gate) result.0 (seen (K.told keeper) (K.faults keeper))
        (log_of (E.written errors) (E.faults errors)) (log_of (E.written result.1) (E.faults result.1)) }
{
    let config = site_config(key);
    let (status, closed, errors, keeper) = run_to_end(
        rt, alloc, &gate, words, &config, errors, keeper,
    );
    drop(keeper);
    let mut errors = errors;
    tell_closed(alloc, &mut errors, words.port, closed);
    (status, errors)
}

/// Tells why a server was not started, and answers the status.
fn not_started<E: Sink>(errors: E, fault: StartFault) -> (u8, E)
    ensures status { result.0 ≡ status_of fault }
    ensures told { AppendsOrFails (E.written errors) (E.written result.1)
        (E.faults errors) (E.faults result.1) (report_of fault) }
{
    let mut errors = errors;
    let status = report_fault(&mut errors, &fault);
    (status, errors)
}

/// Serves what was opened, to its end, and answers the status.
fn serve_opened<
    R: Threads + Wait + Clock + RandomSource + Sync,
    E: Sink + Send + Drop,
    K: Keeper + Explains + Drop,
>(rt: &R, alloc: Global, words: &ServeWords<'_>, errors: E, opened: Opened<K>) -> (u8, E)
    requires some { 1 ≤ words.now.workers }
    requires few { words.now.workers ≤ 64 }
    ensures { HasServedShop words.now result.0 (seen (K.told opened.keeper) (K.faults opened.keeper))
        (log_of (E.written errors) (E.faults errors)) (log_of (E.written result.1) (E.faults result.1)) }
{
    let Opened { key, keeper, door } = opened;
    let links = words.workers as u32 + 2;
    let (house, seats) = match open_house(rt, alloc, links) {
        Ok(made) => made,
        Err(fault) => return not_started(errors, fault),
    };
    let kits = match make_kits(rt, alloc, &house, seats, links) {
        Ok(kits) => kits,
        Err(fault) => return not_started(errors, fault),
    };
    let gate = SystemGate::new(rt, alloc, &door, kits);
    let mut errors = errors;
    tell_serving(alloc, &mut errors, words);
    serve_through(rt, alloc, gate, words, key, errors, keeper)
}

/// Serves the shop as the words say: on this port of 127.0.0.1, over the database in this file, which is made where
/// there is none, under the key in this file, by so many workers. It runs until the process is ended, or as follows.
///
/// The status:
///
/// - 0: no more connections come, since the system's listener failed.
/// - 6: the keeper failed while a container was to be started.
/// - 7: the keeper gave a row that may not be loaded.
/// - 9: memory ran out.
/// - 11: no container was started, since the number of the last boot is the greatest that there is.
/// - 13: the file of the key has fewer than 16 bytes, or more than 1,024.
/// - 14: the file of the key, the database or the port was not opened, or the key not read, or the system gave no
///   random words.
///
/// On `errors`, which is given back, the operator is told what is served once all is open, then what `run_serve` of
/// `container_server` tells. The line of the status is the last one, and the one before it names the file or the port,
/// and the reason; but for 9, which has one only where the database wanted memory.
pub fn serve<R: Threads + Wait + Clock + RandomSource + Sync, E: Sink + Send + Drop>(
    rt: &R,
    host: &HostRuntime,
    words: &ServeWords<'_>,
    errors: E,
) -> (u8, E)
    requires some { 1 ≤ words.now.workers }
    requires few { words.now.workers ≤ 64 }
    ensures { HasServedShop words.now result.0 (seen None 0)
        (log_of (E.written errors) (E.faults errors)) (log_of (E.written result.1) (E.faults result.1)) }
{
    match open(host, words) {
        Ok(opened) => serve_opened(rt, host.alloc(), words, errors, opened),
        Err(fault) => not_started(errors, fault),
    }
}
