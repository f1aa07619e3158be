//! Servers that ran to their end.

ghost use Rattle.std.specs.Prelude.{◌≡◌, ◌≤◌};
ghost use Rattle.container_tests.specs.declared.links.TheConstants.{LINKS};

use crate::clients::{Ear, last_between};
use crate::links::{BRICKS, LINKS};
use auction_rows::CATEGORIES;
use brick_house::{BrickHouse, HouseSeats};
use container_server::{Gate, SiteConfig, run_serve};
use crash_base::{
    ComponentNo, FaultKind, FaultPlan, Items, Level, RowBytes, RowId, RowList, RowWrite,
};
use outside::{BytesSink, CallList, MapKeeper};
use std::alloc::Global;
use std::fmt::Write;
use std::process::Abort;
use std::sync::Wait;
use std::thread::Threads;

/// How a server ended.
#[derive(Drop)]
pub struct Run {
    pub status: u8,
    /// Whether it gave the last word of its gate back.
    pub has_closed: bool,
    /// What its operator was told.
    pub log: BytesSink,
    pub keeper: MapKeeper,
}

/// A house of three bricks of incarnation 1.
pub fn house(rt: &impl Abort, alloc: Global) -> (BrickHouse, HouseSeats)
    ensures { result.1 ≡ record { house = result.0; parts = LINKS } }
{
    BrickHouse::new(alloc, BRICKS, 1, LINKS).expect(rt, "a house")
}

/// Categories fails from its first entering on, until a reboot of this level.
pub fn categories_fail(cured_by: Level) -> FaultPlan {
    FaultPlan {
        component: ComponentNo(CATEGORIES),
        after: 0,
        kind: FaultKind::Raise,
        cured_by,
    }
}

/// A keeper of no rows, which does not fail.
pub fn no_rows(rt: &impl Abort, alloc: Global) -> MapKeeper {
    MapKeeper::new(alloc, RowList::new(alloc), CallList::new(alloc)).expect(rt, "a keeper")
}

/// A keeper of one row, which does not fail.
pub fn of_row(rt: &impl Abort, alloc: Global, table: u8, key: u64, bytes: &[u8]) -> MapKeeper {
    let mut rows = RowList::new(alloc);
    let row = RowWrite {
        id: RowId { table, key },
        bytes: RowBytes::copied(alloc, bytes).expect(rt, "bytes"),
    };
    rows.push(row).expect(rt, "a row");
    MapKeeper::new(alloc, rows, CallList::new(alloc)).expect(rt, "a keeper")
}

/// The key of the service.
const KEY: &[u8] = b"thirty-two bytes are this key's.";

/// A log with room for all that a server tells here.
fn empty_log(rt: &impl Abort, alloc: Global) -> BytesSink {
    BytesSink::new(alloc, 10_000, CallList::new(alloc)).expect(rt, "a log")
}

/// Lets a server run, with sessions that two of three bricks are to store.
pub fn let_run<R: Threads + Wait + Abort + Sync, G: Gate + Sync>(
    rt: &R,
    alloc: Global,
    gate: &G,
    workers: u16,
    keeper: MapKeeper,
) -> Run
    requires { (1 ≤ workers) × (workers ≤ 64) }
{
    let config = SiteConfig {
        key: Items::copied(alloc, KEY).expect(rt, "a key"),
        node: 1,
        w: 3,
        wq: 2,
    };
    let mut log = empty_log(rt, alloc);
    let (status, closed, keeper) = run_serve(
        rt, alloc, gate, workers, &config, BRICKS, &mut log, keeper,
    );
    Run {
        status,
        has_closed: closed.is_some(),
        log,
        keeper,
    }
}

/// What the operator was told.
pub fn log_of<'a>(rt: &impl Abort, ran: &'a Run) -> &'a str {
    std::str::from_utf8(ran.log.as_slice()).expect(rt, "a log")
}

/// The status and the heading of each response that a client has heard, in a line each.
pub fn responses<W: Wait + Abort>(rt: &W, alloc: Global, ear: &Ear) -> String {
    let bytes = ear.heard(rt, alloc).expect(rt, "what was heard");
    let text = std::str::from_utf8(bytes.as_slice()).expect(rt, "a text");
    let mut lines = String::new(alloc);
    for response in text.split("HTTP/1.1 ").skip(1) {
        let (status, _) = response.split_once("\r\n").expect(rt, "a status");
        let heading = last_between(response, "<h1>", "</h1>");
        writeln!(lines, "{status}: {heading}").expect(rt, "a line");
    }
    lines
}
