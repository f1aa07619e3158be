//! The workers of a boot.

ghost use Rattle.std.specs.Prelude.{◌≡◌, ◌+◌, ◌<◌, ◌≤◌, length};
ghost use denote.Param.Send.{IsSend, IsSync};
ghost use Rattle.connection_server.specs.Seats.{IsOfSite};
ghost use Rattle.container_server.specs.Seats.{AreOf, HaveParts, WereUsed};
ghost use Rattle.report_queue.specs.Passes.{AreTo};

use crate::gate::Gate;
use crate::seats::Seats;
use crate::signals::Signals;
use crate::site::Site;
use crate::tools::ToolBox;
use crate::working::work;
use crash_base::WorkerNo;
use outside::Keeper;
use report_queue::ReportPassList;
use std::alloc::Global;
use std::sync::Wait;
use std::thread::{Threads, join};

/// The first of two, if there is one, and else the other.
fn either<T: Drop>(first: Option<T>, second: Option<T>) -> Option<T> {
    match first {
        Some(found) => Some(found),
        None => second,
    }
}

/// Lets so many workers work, the first of which has this place among the tools, each in a thread of its own where one
/// can be started, and the last in this one; those without a thread work here behind it. That no more connections come,
/// if one of them was told so.
pub(crate) fn work_all<G: Gate + Sync, K: Keeper + Drop, R: Threads + Wait + Sync>(
    rt: &R,
    alloc: Global,
    gate: &G,
    site: &Site<K>,
    signals: &Signals,
    tools: &[ToolBox<G>],
    from: usize,
    count: usize,
    mut seats: Seats<K>,
    mut passes: ReportPassList,
) -> (Seats<K>, Option<G::Closed>)
    requires bounds { IsSend K.row × IsSend G.Closed.row × IsSend G.L.row × IsSend G.C.row × IsSend G.R.row × IsSync G.row
        × IsSync R.row × IsSend G.In.row × IsSend G.Out.row }
    requires some { (1 ≤ count) × (from + count ≤ 64) × (from + count ≤ length tools.now) }
    requires seats { AreOf site.now seats }
    requires seen { IsOfSite site.now.home seats.container.seen }
    requires parts { HaveParts count seats }
    requires passes { (length passes + 1 ≡ count) × AreTo site.now.reports tt passes }
    ensures seats { AreOf site.now result.0 × WereUsed seats result.0 }
{
    let tool = &tools[from];
    if count == 1 {
        let closed = work::<G, K, R>(rt, alloc, gate, site, signals, tool, &mut seats);
        return (seats, closed);
    }
    let pass = site.take_pass(&mut passes);
    let next = from + 1;
    let rest = count - 1;
    let others = site.split(&mut seats, WorkerNo(next as u32 + 1), rest as u32, pass);
    let (mine, theirs) = join(
        rt,
        move || -> (Seats<K>, Option<G::Closed>)
            requires sync { IsSync R.row }
            requires seats { AreOf site.now seats }
            requires seen { IsOfSite site.now.home seats.container.seen }
            ensures seats { AreOf site.entry.now result.0 × WereUsed seats result.0 }
        {
            let mut seats = seats;
            let closed = work::<G, K, R>(rt, alloc, gate, site, signals, tool, &mut seats);
            (seats, closed)
        },
        move || -> (Seats<K>, Option<G::Closed>)
            requires sync { IsSync R.row }
            requires bounds { IsSend K.row × IsSend G.Closed.row × IsSend G.L.row × IsSend G.C.row × IsSend G.R.row × IsSync G.row
                × IsSync R.row × IsSend G.In.row × IsSend G.Out.row }
            requires some { (1 ≤ rest) × (next + rest ≤ 64) × (next + rest ≤ length tools.now) }
            requires seats { AreOf site.now others }
            requires seen { IsOfSite site.now.home others.container.seen }
            requires parts { HaveParts rest others }
            requires passes { (length passes + 1 ≡ rest) × AreTo site.now.reports tt passes }
            ensures seats { AreOf site.entry.now result.0 × WereUsed others result.0 }
        {
            work_all::<G, K, R>(
                rt, alloc, gate, site, signals, tools, next, rest, others, passes,
            )
        },
    );
    let (mut seats, closed) = mine;
    let (others, closed_too) = theirs;
    site.join(&mut seats, others);
    (seats, either(closed, closed_too))
}
