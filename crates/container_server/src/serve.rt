//! A site that is served, from its first boot to its last.

ghost use Rattle.std.specs.Prelude.{◌≡◌, ◌≢◌, ◌+◌, ◌≤◌, ℕ, List, length, vec_len, IfErr, IfOk, IfSome, IsSome, MatchOption, MatchResult, None};
ghost use Rattle.auction_rows.specs.Parts.{site_parts};
ghost use Rattle.component_pool.specs.Plans.{left_by_process};
ghost use Rattle.container_core.specs.Start.{IsStarted};
ghost use Rattle.container_server.specs.Running.{EndedOver, HasStarted, IsSoundContainer, RanFrom, RanOver, ServerSeen, TellsClosed, end_of, seen, server_seen, service_limits};
ghost use Rattle.container_server.specs.Telling.{start_of, started_rows};
ghost use Rattle.crash_base.specs.declared.fault_plans.FaultPlan.{FaultPlan};
ghost use Rattle.service_log.specs.Ending.{status_of};
ghost use Rattle.service_log.specs.Logging.{LogsEvent, log_of};

use crate::boot::serve_boot;
use crate::config::SiteConfig;
use crate::deciding::Desk;
use crate::gate::Gate;
use crate::tools::{ToolBox, Tools, take_tools};
use auction_rows::site_deployment;
use container_core::{
    Container, JournalLimits, MAX_ENTRIES, MAX_JOURNAL_BYTES, Remains, StartFail, StartRefusal,
};
use crash_base::{FaultList, OutOfMemory, Place};
use deployment::Deployment;
use outside::{Keeper, Sink};
use recovery_manager::Manager;
use service_log::{ServiceEnd, ServiceEvent, log_event, report_end};
use std::alloc::Global;
use std::sync::{Mutex, Wait};
use std::thread::Threads;

/// How a server ended whose container was not started.
fn end_of(refusal: StartRefusal) -> ServiceEnd
    ensures { result ≡ end_of refusal }
{
    match refusal {
        StartRefusal::KeeperFailed => ServiceEnd::KeeperFailed,
        StartRefusal::BadRow { id } => ServiceEnd::BadRow(id),
        StartRefusal::BootsSpent => ServiceEnd::BootsSpent,
        StartRefusal::OutOfMemory => ServiceEnd::OutOfMemory,
    }
}

/// What a server is made with, before its first boot.
#[derive(Drop)]
struct Beginning<L: Drop, C: Drop, R: Drop> {
    tools: Vec<Mutex<Tools<L, C, R>>>,
    plans: FaultList,
    manager: Manager,
    /// For the container, and for the names in what the operator is told.
    deployment: Deployment,
    names: Deployment,
}

/// How full the journal of a boot may be.
fn limits() -> JournalLimits
    ensures { result ≡ service_limits }
{
    JournalLimits {
        entries: MAX_ENTRIES,
        bytes: MAX_JOURNAL_BYTES,
    }
}

/// How many rows a boot was started over, beside that of its number.
fn row_count<K: Keeper + Drop>(alloc: Global, container: &Container<K>) -> Result<u64, OutOfMemory>
    ensures { IfOk result (λ count. count ≡ started_rows container.now) }
{
    let rows = container.rows().all_at(alloc, Place(0))?;
    let count = rows.as_slice().len() as u64;
    Ok(count.saturating_sub(1))
}

/// Tells the operator of the start of a boot. Where there is no memory to count its rows, nothing is told.
fn log_start<K: Keeper + Drop, E: Sink>(
    alloc: Global,
    errors: &mut E,
    names: &Deployment,
    container: &Container<K>,
)
    requires names { names.now ≡ site_parts }
    ensures told { LogsEvent site_parts (start_of container.now) (log_of (E.written errors.old) (E.faults errors.old))
        (log_of (E.written errors.new) (E.faults errors.new)) }
{
    if let Ok(rows) = row_count(alloc, container) {
        let boot = container.boot();
        log_event(alloc, errors, names, ServiceEvent::Started { boot, rows });
    }
}

/// What a server was made with, before its first boot.
fn begin<G: Gate>(
    alloc: Global,
    gate: &G,
    workers: u16,
) -> Result<Beginning<G::L, G::C, G::R>, OutOfMemory>
    requires { workers ≤ 64 }
    ensures tools { IfOk result (λ made. vec_len made.tools ≡ workers + 2) }
    ensures plans { IfOk result (λ made. G.plans gate.now made.plans) }
    ensures deployment { IfOk result (λ made. (made.deployment ≡ site_parts) × (made.names ≡ site_parts)) }
{
    let tools = take_tools(alloc, gate, workers as u32 + 2)?;
    let plans = gate.plan()?;
    let names = site_deployment(alloc)?;
    let manager = Manager::new(alloc, &names)?;
    let deployment = site_deployment(alloc)?;
    Ok(Beginning {
        tools,
        plans,
        manager,
        deployment,
        names,
    })
}

/// How a server ended, that no more connections come, if that is why, and its keeper.
#[derive(Drop)]
struct ServeResult<C: Drop, K: Keeper + Drop> {
    end: ServiceEnd,
    closed: Option<C>,
    keeper: K,
}

/// A server whose container was not started.
fn unstarted<C: Drop, K: Keeper + Drop>(fail: StartFail<K>) -> ServeResult<C, K>
    ensures end { result.end ≡ end_of fail.refusal }
    ensures closed { result.closed ≡ None }
    ensures keeper { result.keeper ≡ fail.keeper }
{
    let StartFail { refusal, keeper } = fail;
    ServeResult {
        end: end_of(refusal),
        closed: None,
        keeper,
    }
}

/// What is so of a container at any time.
fn containers_are_sound<K: Keeper + Drop>(container: &Container<K>)
    ensures sound { IsSoundContainer container.now }
{
    let _ = container.journal();
    let _ = container.as_boot();
}

/// A container that was started again, and what the boot before it left.
type Again<K> = (Container<K>, Remains);

/// Goes on behind a boot: starts the container again, unless no more connections come.
fn go_on<C: Drop, K: Keeper + Drop>(
    alloc: Global,
    container: Container<K>,
    closed: Option<C>,
) -> Result<Again<K>, ServeResult<C, K>>
    ensures again { IfOk result (λ again. IsStarted container.boot.start.deployment
        (left_by_process container.boot.start.plans) container.boot.start.limits container.told again.0) }
    ensures ended { IfErr result (λ ended. EndedOver ended.end (seen container.told container.faults)
        (seen (K.told ended.keeper) (K.faults ended.keeper))) }
    ensures closed { IfErr result (λ ended. TellsClosed ended.closed ended.end) }
{
    match closed {
        Some(closed) => Err(ServeResult {
            end: ServiceEnd::Closed,
            closed: Some(closed),
            keeper: container.into_keeper(),
        }),
        None => {
            let (opened, remains) = container.reopen(alloc);
            match opened {
                Ok(again) => Ok((again, remains)),
                Err(fail) => Err(unstarted(fail)),
            }
        }
    }
}

/// Serves one boot, beside which is dropped what the boot before it left, and starts the container again, if there is
/// to be another one.
fn serve_once<'a, G: Gate + Sync, K: Keeper + Drop, E: Sink + Send, R: Threads + Wait + Sync>(
    rt: &R,
    alloc: Global,
    gate: &G,
    config: &SiteConfig,
    tools: &[ToolBox<G>],
    workers: u16,
    bricks: u16,
    container: Container<K>,
    remains: Option<Remains>,
    desk: Desk<'a, E>,
) -> (Result<Again<K>, ServeResult<G::Closed, K>>, Desk<'a, E>)
    requires workers { (1 ≤ workers) × (workers ≤ 64) × (workers + 2 ≡ length tools.now) }
    requires quorum { (1 ≤ config.now.wq) × (config.now.wq ≤ config.now.w) × (config.now.w ≤ bricks) × (bricks ≤ 16) }
    requires site { container.boot.start.deployment ≡ site_parts }
    requires names { desk.deployment.now ≡ site_parts }
    ensures desk { result.1.errors.ghost_name ≡ desk.entry.errors.ghost_name }
    ensures names { result.1.deployment.now ≡ desk.entry.deployment.now }
    ensures on { let log = log_of (E.written result.1.errors.now) (E.faults result.1.errors.now) in
        (plans : List FaultPlan) (before : ServerSeen)
        → HasStarted plans before container (log_of (E.written desk.entry.errors.now) (E.faults desk.entry.errors.now))
        → MatchResult result.0 (λ again. HasStarted plans before again.0 log)
        (λ ended. RanFrom plans ended.end before (server_seen (seen (K.told ended.keeper) (K.faults ended.keeper)) log)) }
    ensures closed { IfErr result.0 (λ ended. TellsClosed ended.closed ended.end) }
{
    let names = desk.deployment;
    log_start(alloc, desk.errors, names, &container);
    let (served, desk) = serve_boot::<G, K, E, R>(
        rt, alloc, gate, config, tools, workers, bricks, container, remains, desk,
    );
    match served {
        Ok((container, closed)) => {
            containers_are_sound(&container);
            (go_on(alloc, container, closed), desk)
        }
        Err(container) => {
            containers_are_sound(&container);
            let keeper = container.into_keeper();
            let ended = ServeResult {
                end: ServiceEnd::OutOfMemory,
                closed: None,
                keeper,
            };
            (Err(ended), desk)
        }
    }
}

/// Serves boots, one after the other, in this container and then in those that are started again. How the server ended
/// is put behind `out`: what is written of the desk is known to a caller that gets nothing of its own beside it.
fn serve_boots<'a, G: Gate + Sync, K: Keeper + Drop, E: Sink + Send, R: Threads + Wait + Sync>(
    rt: &R,
    alloc: Global,
    gate: &G,
    config: &SiteConfig,
    tools: &[ToolBox<G>],
    workers: u16,
    bricks: u16,
    container: Container<K>,
    desk: Desk<'a, E>,
    out: &mut Option<ServeResult<G::Closed, K>>,
) -> Desk<'a, E>
    requires workers { (1 ≤ workers) × (workers ≤ 64) × (workers + 2 ≡ length tools.now) }
    requires quorum { (1 ≤ config.now.wq) × (config.now.wq ≤ config.now.w) × (config.now.w ≤ bricks) × (bricks ≤ 16) }
    requires names { desk.deployment.now ≡ site_parts }
    requires started { (plans : List FaultPlan) × (before : ServerSeen)
        × HasStarted plans before container (log_of (E.written desk.errors.now) (E.faults desk.errors.now)) }
    ensures desk { result.errors.ghost_name ≡ desk.entry.errors.ghost_name }
    ensures some { IsSome out.new }
    ensures on { (plans : List FaultPlan) (before : ServerSeen)
        → HasStarted plans before container (log_of (E.written desk.entry.errors.now) (E.faults desk.entry.errors.now))
        → IfSome out.new (λ ended. RanFrom plans ended.end before
        (server_seen (seen (K.told ended.keeper) (K.faults ended.keeper))
        (log_of (E.written result.errors.now) (E.faults result.errors.now)))) }
    ensures closed { IfSome out.new (λ ended. TellsClosed ended.closed ended.end) }
{
    let mut container = container;
    let mut remains = None;
    let mut desk = desk;
    for _ in rt.forever() {
        let (served, kept) = serve_once::<G, K, E, R>(
            rt, alloc, gate, config, tools, workers, bricks, container, remains, desk,
        );
        match served {
            Ok((again, left)) => {
                container = again;
                remains = Some(left);
                desk = kept;
            }
            Err(ended) => {
                *out = Some(ended);
                return kept;
            }
        }
    }
    unreachable!()
}

/// Serves a site over a keeper, with what was made before.
fn serve_over<G: Gate + Sync, K: Keeper + Drop, E: Sink + Send, R: Threads + Wait + Sync>(
    rt: &R,
    alloc: Global,
    gate: &G,
    config: &SiteConfig,
    workers: u16,
    bricks: u16,
    errors: &mut E,
    keeper: K,
    beginning: Beginning<G::L, G::C, G::R>,
) -> ServeResult<G::Closed, K>
    requires workers { (1 ≤ workers) × (workers ≤ 64) × (workers + 2 ≡ vec_len beginning.tools) }
    requires quorum { (1 ≤ config.now.wq) × (config.now.wq ≤ config.now.w) × (config.now.w ≤ bricks) × (bricks ≤ 16) }
    requires site { (beginning.deployment ≡ site_parts) × (beginning.names ≡ site_parts) }
    ensures ran { RanFrom beginning.plans result.end
        (server_seen (seen (K.told keeper) (K.faults keeper)) (log_of (E.written errors.old) (E.faults errors.old)))
        (server_seen (seen (K.told result.keeper) (K.faults result.keeper))
        (log_of (E.written errors.new) (E.faults errors.new))) }
    ensures closed { TellsClosed result.closed result.end }
{
    let Beginning {
        tools,
        plans,
        manager,
        deployment,
        names,
    } = beginning;
    let container = match Container::start(alloc, deployment, keeper, plans, limits()) {
        Ok(container) => container,
        Err(fail) => return unstarted(fail),
    };
    let mut manager = manager;
    let mut called = None;
    let mut out = None;
    let desk = Desk {
        errors,
        manager: &mut manager,
        called: &mut called,
        deployment: &names,
    };
    let _desk = serve_boots::<G, K, E, R>(
        rt,
        alloc,
        gate,
        config,
        tools.as_slice(),
        workers,
        bricks,
        container,
        desk,
        &mut out,
    );
    match out {
        Some(ended) => ended,
        None => unreachable!(),
    }
}

/// Serves a site over a keeper, by so many workers, with bricks 1 to `bricks`, until no more connections come or a
/// container cannot be started.
///
/// The workers take connections of the gate and serve them, as `serve_gated` of `connection_server` says. One thread
/// decides on the requests that failed, and reboots what its decisions name. Another one sweeps the bricks. Where the
/// process is to be rebooted, or a restart is due before the journal is full (`is_restart_due`), the container is
/// stopped, all threads end, and it is started again over its keeper with the fault plans that no reboot cures. The
/// journal and the rows of the boot before are dropped by the thread that sweeps, before its first sweep: so no request
/// waits for that.
///
/// Work that no thread can be started for is done by the caller, behind the end of the work beside which it was to be
/// done: that of a worker behind that of those after it, and what decides and sweeps behind the end of all workers,
/// where nothing is left to do.
///
/// The status, the last word of the gate, if it had one, and the keeper, whatever the status is:
///
/// - 0: the gate gave its last word: no more connections come.
/// - 6: the keeper failed while a container was to be started.
/// - 7: the keeper gave a row that may not be loaded.
/// - 9: memory ran out.
/// - 11: no container was started, since the number of the last boot is the greatest that there is.
///
/// The operator is told on `errors` of each start, each reboot and each stop, and at the end of the status, except 0:
/// in whole lines, each as `service_log` has it, but for a fault there, which changes nothing else. A line for which
/// there is no memory is left out, except that of the status.
///
/// It returns only if its workers do: that any connection is served, that anything is rebooted or swept, is not
/// promised.
pub fn run_serve<R: Threads + Wait + Sync, G: Gate + Sync, E: Sink + Send, K: Keeper + Drop>(
    rt: &R,
    alloc: Global,
    gate: &G,
    workers: u16,
    config: &SiteConfig,
    bricks: u16,
    errors: &mut E,
    keeper: K,
) -> (u8, Option<G::Closed>, K)
    requires workers { (1 ≤ workers) × (workers ≤ 64) }
    requires quorum { (1 ≤ config.now.wq) × (config.now.wq ≤ config.now.w) × (config.now.w ≤ bricks) × (bricks ≤ 16) }
    // There were boots, one after the other, each over the keeper that the one before left, and why there is no other
    // one the status says; the first was over the keeper that was given, with fault plans of the gate, and the last one
    // left the keeper that is handed back, or it was asked for another boot that was not started. What was written on
    // `errors` is the start of each boot, each with what happened in it, and behind all the line of the status.
    ensures ran { (end : ServiceEnd) × (result.0 ≡ status_of end)
        × RanOver (G.plans gate.now) end
        (server_seen (seen (K.told keeper) (K.faults keeper)) (log_of (E.written errors.old) (E.faults errors.old)))
        (server_seen (seen (K.told result.2) (K.faults result.2)) (log_of (E.written errors.new) (E.faults errors.new))) }
    // The status is 0 exactly where the last word of the gate stands beside it.
    ensures closed { MatchOption result.1 (result.0 ≢ 0) (λ _. result.0 ≡ 0) }
{
    let beginning = match begin(alloc, gate, workers) {
        Ok(beginning) => beginning,
        Err(OutOfMemory) => {
            let end = report_end(alloc, errors, ServiceEnd::OutOfMemory);
            return (end.status(), None, keeper);
        }
    };
    let ended = serve_over::<G, K, E, R>(
        rt, alloc, gate, config, workers, bricks, errors, keeper, beginning,
    );
    let ServeResult {
        end,
        closed,
        keeper,
    } = ended;
    let end = report_end(alloc, errors, end);
    (end.status(), closed, keeper)
}
