//! One boot, from its start to the end of its threads.

ghost use Rattle.std.specs.Prelude.{◌≡◌, ◌+◌, ◌≤◌, length, IfErr, IfOk};
ghost use denote.Param.Send.{IsSend, IsSync};
ghost use Rattle.auction_rows.specs.Parts.{site_parts};
ghost use Rattle.connection_server.specs.Seats.{IsOfSite};
ghost use Rattle.container_core.specs.Container.{HasGrownBy, HoldsRows};
ghost use Rattle.container_server.specs.Seats.{AreOf, HaveParts, WereUsed};
ghost use Rattle.container_server.specs.Telling.{HasTold};
ghost use Rattle.report_queue.specs.Passes.{AreTo};
ghost use Rattle.service_log.specs.Logging.{log_of};

use crate::config::SiteConfig;
use crate::crew::work_all;
use crate::deciding::{Desk, decide};
use crate::gate::Gate;
use crate::seats::Seats;
use crate::signals::Signals;
use crate::site::{Site, open_site};
use crate::sweeping::sweep;
use crate::tools::ToolBox;
use container_core::{Container, Remains};
use crash_base::WorkerNo;
use outside::{Keeper, Sink};
use report_queue::ReportPassList;
use site_locks::histories_tell_their_containers;
use std::alloc::Global;
use std::sync::Wait;
use std::thread::{Threads, join};

/// What the threads of a boot end with: the seats of the workers and that no more connections come, if they were told
/// so; the seats of the thread that decides, and its desk.
type Ended<'a, G, K, E> = (Seats<K>, Option<<G as Gate>::Closed>, Seats<K>, Desk<'a, E>);

/// Decides and sweeps, in a thread each where it can be started. What the boot before left is dropped before the first
/// sweep.
fn decide_and_sweep<'a, G: Gate + Sync, K: Keeper + Drop, E: Sink + Send, R: Threads + Wait + Sync>(
    rt: &R,
    alloc: Global,
    gate: &G,
    site: &Site<K>,
    signals: &Signals,
    sweeper: &ToolBox<G>,
    decider: &ToolBox<G>,
    bricks: u16,
    remains: Option<Remains>,
    seats: Seats<K>,
    desk: Desk<'a, E>,
) -> (Seats<K>, Desk<'a, E>)
    requires bricks { bricks ≤ 16 }
    requires seats { AreOf site.now seats }
    requires names { desk.deployment.now ≡ site_parts }
    ensures seats { AreOf site.now result.0 × WereUsed seats result.0 }
    ensures desk { result.1.errors.ghost_name ≡ desk.entry.errors.ghost_name }
    ensures names { result.1.deployment.now ≡ desk.entry.deployment.now }
    ensures told { HasTold (log_of (E.written desk.entry.errors.now) (E.faults desk.entry.errors.now))
        (log_of (E.written result.1.errors.now) (E.faults result.1.errors.now)) }
{
    let home = site.home();
    let ((), decided) = join(
        rt,
        move ||
            requires bricks { bricks ≤ 16 }
        {
            drop(remains);
            sweep::<G, R>(rt, alloc, gate, signals, sweeper, bricks, home)
        },
        move || -> (Seats<K>, Desk<E>)
            requires seats { AreOf site.now seats }
            requires names { desk.deployment.now ≡ site_parts }
            ensures seats { AreOf site.entry.now result.0 × WereUsed seats result.0 }
            ensures desk { result.1.errors.ghost_name ≡ desk.entry.errors.ghost_name }
            ensures names { result.1.deployment.now ≡ desk.entry.deployment.now }
            ensures told { HasTold (log_of (E.written desk.entry.errors.now) (E.faults desk.entry.errors.now))
                (log_of (E.written result.1.errors.now) (E.faults result.1.errors.now)) }
        {
            let mut seats = seats;
            let mut desk = desk;
            decide::<G, K, E, R>(
                rt, alloc, gate, site, signals, decider, &mut seats, &mut desk,
            );
            (seats, desk)
        },
    );
    decided
}

/// Lets the workers work, and beside them decides and sweeps, until all have ended. Where no thread can be started for
/// that, it comes behind the workers' end, and finds nothing to do.
fn run_threads<'a, G: Gate + Sync, K: Keeper + Drop, E: Sink + Send, R: Threads + Wait + Sync>(
    rt: &R,
    alloc: Global,
    gate: &G,
    site: &Site<K>,
    tools: &[ToolBox<G>],
    workers: u16,
    bricks: u16,
    seats: Seats<K>,
    passes: ReportPassList,
    decider: Seats<K>,
    desk: Desk<'a, E>,
    remains: Option<Remains>,
) -> Ended<'a, G, K, E>
    requires workers { (1 ≤ workers) × (workers ≤ 64) × (workers + 2 ≡ length tools.now) }
    requires bricks { bricks ≤ 16 }
    requires seats { AreOf site.now seats × AreOf site.now decider }
    requires seen { IsOfSite site.now.home seats.container.seen }
    requires parts { HaveParts workers seats }
    requires passes { (length passes + 1 ≡ workers) × AreTo site.now.reports tt passes }
    requires names { desk.deployment.now ≡ site_parts }
    ensures seats { AreOf site.now result.0 × WereUsed seats result.0 }
    ensures decider { AreOf site.now result.2 × WereUsed decider result.2 }
    ensures desk { result.3.errors.ghost_name ≡ desk.entry.errors.ghost_name }
    ensures names { result.3.deployment.now ≡ desk.entry.deployment.now }
    ensures told { HasTold (log_of (E.written desk.entry.errors.now) (E.faults desk.entry.errors.now))
        (log_of (E.written result.3.errors.now) (E.faults result.3.errors.now)) }
{
    let signals = Signals::new();
    let signals = &signals;
    let count = workers as usize;
    let sweeping = &tools[count];
    let deciding = &tools[count + 1];
    let (decided, worked) = join(
        rt,
        move || -> (Seats<K>, Desk<E>)
            requires sync { IsSync R.row }
            requires bricks { bricks ≤ 16 }
            requires seats { AreOf site.now decider }
            requires names { desk.deployment.now ≡ site_parts }
            ensures seats { AreOf site.entry.now result.0 × WereUsed decider result.0 }
            ensures desk { result.1.errors.ghost_name ≡ desk.entry.errors.ghost_name }
            ensures names { result.1.deployment.now ≡ desk.entry.deployment.now }
            ensures told { HasTold (log_of (E.written desk.entry.errors.now) (E.faults desk.entry.errors.now))
                (log_of (E.written result.1.errors.now) (E.faults result.1.errors.now)) }
        {
            decide_and_sweep::<G, K, E, R>(
                rt, alloc, gate, site, signals, sweeping, deciding, bricks, remains, decider, desk,
            )
        },
        move || -> (Seats<K>, Option<G::Closed>)
            requires sync { IsSync R.row }
            requires bounds { IsSend K.row × IsSend G.Closed.row × IsSend G.L.row × IsSend G.C.row × IsSend G.R.row × IsSync G.row
                × IsSync R.row × IsSend G.In.row × IsSend G.Out.row }
            requires some { (1 ≤ count) × (0 + count ≤ 64) × (0 + count ≤ length tools.now) }
            requires seats { AreOf site.now seats }
            requires seen { IsOfSite site.now.home seats.container.seen }
            requires parts { HaveParts count seats }
            requires passes { (length passes + 1 ≡ count) × AreTo site.now.reports tt passes }
            ensures seats { AreOf site.entry.now result.0 × WereUsed seats result.0 }
        {
            let worked = work_all::<G, K, R>(
                rt, alloc, gate, site, signals, tools, 0, count, seats, passes,
            );
            signals.end();
            worked
        },
    );
    let (seats, closed) = worked;
    let (decider, desk) = decided;
    (seats, closed, decider, desk)
}

/// What came of a boot: the container behind its last event, and that no more connections come, if they do not; or the
/// container as it was, where there was no memory for its threads.
pub(crate) type Served<G, K> = Result<(Container<K>, Option<<G as Gate>::Closed>), Container<K>>;

/// Serves a site in this container, until each worker has ended, and drops beside it what the boot before left.
pub(crate) fn serve_boot<
    'a,
    G: Gate + Sync,
    K: Keeper + Drop,
    E: Sink + Send,
    R: Threads + Wait + Sync,
>(
    rt: &R,
    alloc: Global,
    gate: &G,
    config: &SiteConfig,
    tools: &[ToolBox<G>],
    workers: u16,
    bricks: u16,
    container: Container<K>,
    remains: Option<Remains>,
    desk: Desk<'a, E>,
) -> (Served<G, K>, Desk<'a, E>)
    requires workers { (1 ≤ workers) × (workers ≤ 64) × (workers + 2 ≡ length tools.now) }
    requires quorum { (1 ≤ config.now.wq) × (config.now.wq ≤ config.now.w) × (config.now.w ≤ bricks) × (bricks ≤ 16) }
    requires site { container.boot.start.deployment ≡ site_parts }
    requires names { desk.deployment.now ≡ site_parts }
    ensures grown { IfOk result.0 (λ served. HasGrownBy container served.0) }
    ensures back { IfErr result.0 (λ given. given ≡ container) }
    ensures desk { result.1.errors.ghost_name ≡ desk.entry.errors.ghost_name }
    ensures names { result.1.deployment.now ≡ desk.entry.deployment.now }
    ensures told { HasTold (log_of (E.written desk.entry.errors.now) (E.faults desk.entry.errors.now))
        (log_of (E.written result.1.errors.now) (E.faults result.1.errors.now)) }
{
    histories_tell_their_containers();
    let threads = workers + 1;
    let (site, mut seats, mut passes) = match open_site(alloc, config, bricks, container, threads) {
        Ok(made) => made,
        Err(container) => return (Err(container), desk),
    };
    let pass = site.take_pass(&mut passes);
    let number = WorkerNo(workers as u32 + 2);
    let decider = site.split(&mut seats, number, 1, pass);
    let (mut seats, closed, decider, desk) = run_threads::<G, K, E, R>(
        rt, alloc, gate, &site, tools, workers, bricks, seats, passes, decider, desk, remains,
    );
    site.join(&mut seats, decider);
    (Ok((site.close(seats), closed)), desk)
}
