//! What the thread does that decides on reboots.

ghost use Rattle.std.specs.Prelude.{◌≡◌, IfSome};
ghost use Rattle.auction_rows.specs.Parts.{site_parts};
ghost use Rattle.commit_journal.specs.Journal.{IsScope};
ghost use Rattle.container_server.specs.Seats.{AreOf, WereUsed};
ghost use Rattle.container_server.specs.Telling.{HasTold};
ghost use Rattle.service_log.specs.Logging.{log_of};

use crate::gate::Gate;
use crate::pace::is_due;
use crate::planning::is_restart_due;
use crate::seats::Seats;
use crate::signals::Signals;
use crate::site::Site;
use crate::tools::ToolBox;
use connection_server::Point;
use crash_base::{Level, MAX_GROUPS, Moment, Scope};
use deployment::Deployment;
use failure_scores::FailureReport;
use outside::{Clock, Keeper, Sink};
use recovery_manager::{Decision, Manager, WIDENED_MILLISECONDS};
use service_log::{ServiceEvent, log_event};
use std::alloc::Global;
use std::sync::Wait;

/// What the thread decides with, over all boots: what is told of reports, where the operator is told of reboots, and
/// when a human was called last. It owns nothing, so that what was written is known where it is let go.
#[derive(Drop)]
pub(crate) struct Desk<'a, E: Sink> {
    pub errors: &'a mut E,
    pub manager: &'a mut Manager,
    pub called: &'a mut Option<Moment>,
    pub deployment: &'a Deployment,
}

/// What is rebooted of the container at a level.
fn scope_of(level: Level) -> Option<Scope>
    ensures { IfSome result (λ scope. IsScope scope) }
{
    match level {
        Level::Group(group) => {
            if group.0 < MAX_GROUPS {
                Some(Scope::Group(group))
            } else {
                None
            }
        }
        Level::App => Some(Scope::App),
        Level::Process | Level::Human => None,
    }
}

/// Reboots what is rebooted at a level: goes down and comes up, in one hold each.
fn reboot<G: Gate, K: Keeper + Drop, E: Sink, W: Wait>(
    rt: &W,
    alloc: Global,
    gate: &G,
    site: &Site<K>,
    clock: &mut G::C,
    seats: &mut Seats<K>,
    desk: &mut Desk<'_, E>,
    scope: Scope,
    level: Level,
)
    requires seats { AreOf site.now seats.old }
    requires names { desk.old.deployment.now ≡ site_parts }
    requires scope { IsScope scope }
    ensures seats { AreOf site.now seats.new }
    ensures used { WereUsed seats.old seats.new }
    ensures desk { desk.new.errors.ghost_name ≡ desk.old.errors.ghost_name }
    ensures names { desk.new.deployment.now ≡ desk.old.deployment.now }
    ensures told { HasTold (log_of (E.written desk.old.errors.now) (E.faults desk.old.errors.now))
        (log_of (E.written desk.new.errors.now) (E.faults desk.new.errors.now)) }
{
    let begun = clock.now();
    let Ok(down) = seats.go_down(rt, site, scope) else {
        return;
    };
    let _ = seats.come_up(rt, site, down);
    let milliseconds = clock.now().0.saturating_sub(begun.0);
    let event = ServiceEvent::Rebooted {
        scope,
        milliseconds,
    };
    log_event(alloc, desk.errors, desk.deployment, event);
    gate.pass(seats.worker(), Point::Rebooted(level));
}

/// Stops the container, so that it is started again.
fn stop<G: Gate, K: Keeper + Drop, E: Sink, W: Wait>(
    rt: &W,
    alloc: Global,
    gate: &G,
    site: &Site<K>,
    signals: &Signals,
    seats: &mut Seats<K>,
    desk: &mut Desk<'_, E>,
)
    requires seats { AreOf site.now seats.old }
    requires names { desk.old.deployment.now ≡ site_parts }
    ensures seats { AreOf site.now seats.new }
    ensures used { WereUsed seats.old seats.new }
    ensures desk { desk.new.errors.ghost_name ≡ desk.old.errors.ghost_name }
    ensures names { desk.new.deployment.now ≡ desk.old.deployment.now }
    ensures told { HasTold (log_of (E.written desk.old.errors.now) (E.faults desk.old.errors.now))
        (log_of (E.written desk.new.errors.now) (E.faults desk.new.errors.now)) }
{
    let entries = seats.fullness(rt, site).entries;
    seats.stop(rt, site);
    signals.stop();
    log_event(
        alloc,
        desk.errors,
        desk.deployment,
        ServiceEvent::Stopped { entries },
    );
    gate.pass(seats.worker(), Point::Rebooted(Level::Process));
}

/// Calls a human, unless one was called in the time for which an act counts.
fn call_human<C: Clock, E: Sink>(alloc: Global, clock: &mut C, desk: &mut Desk<'_, E>)
    requires names { desk.old.deployment.now ≡ site_parts }
    ensures desk { desk.new.errors.ghost_name ≡ desk.old.errors.ghost_name }
    ensures names { desk.new.deployment.now ≡ desk.old.deployment.now }
    ensures told { HasTold (log_of (E.written desk.old.errors.now) (E.faults desk.old.errors.now))
        (log_of (E.written desk.new.errors.now) (E.faults desk.new.errors.now)) }
{
    let now = clock.now();
    if !is_due(*desk.called, WIDENED_MILLISECONDS, now) {
        return;
    }
    *desk.called = Some(now);
    log_event(
        alloc,
        desk.errors,
        desk.deployment,
        ServiceEvent::HumanNeeded,
    );
}

/// Does what was decided.
fn carry_out<G: Gate, K: Keeper + Drop, E: Sink, W: Wait>(
    rt: &W,
    alloc: Global,
    gate: &G,
    site: &Site<K>,
    signals: &Signals,
    clock: &mut G::C,
    seats: &mut Seats<K>,
    desk: &mut Desk<'_, E>,
    level: Level,
)
    requires seats { AreOf site.now seats.old }
    requires names { desk.old.deployment.now ≡ site_parts }
    ensures seats { AreOf site.now seats.new }
    ensures used { WereUsed seats.old seats.new }
    ensures desk { desk.new.errors.ghost_name ≡ desk.old.errors.ghost_name }
    ensures names { desk.new.deployment.now ≡ desk.old.deployment.now }
    ensures told { HasTold (log_of (E.written desk.old.errors.now) (E.faults desk.old.errors.now))
        (log_of (E.written desk.new.errors.now) (E.faults desk.new.errors.now)) }
{
    match level {
        Level::Group(_) | Level::App => {
            if let Some(scope) = scope_of(level) {
                reboot::<G, K, E, W>(rt, alloc, gate, site, clock, seats, desk, scope, level);
            }
        }
        Level::Process => stop::<G, K, E, W>(rt, alloc, gate, site, signals, seats, desk),
        Level::Human => call_human(alloc, clock, desk),
    }
}

/// What is to be done about a report, if anything. One for which there is no memory is dropped.
fn hear(manager: &mut Manager, report: FailureReport) -> Option<Level> {
    match manager.hear(report) {
        Ok(Decision::Reboot(level)) => Some(level),
        Ok(Decision::None) => None,
        Err(_) => None,
    }
}

/// Heeds the report at the front of the queue, or plans a restart where none is there and one is due, or rests.
fn decide_once<G: Gate, K: Keeper + Drop, E: Sink, W: Wait>(
    rt: &W,
    alloc: Global,
    gate: &G,
    site: &Site<K>,
    signals: &Signals,
    clock: &mut G::C,
    seats: &mut Seats<K>,
    desk: &mut Desk<'_, E>,
)
    requires seats { AreOf site.now seats.old }
    requires names { desk.old.deployment.now ≡ site_parts }
    ensures seats { AreOf site.now seats.new }
    ensures used { WereUsed seats.old seats.new }
    ensures desk { desk.new.errors.ghost_name ≡ desk.old.errors.ghost_name }
    ensures names { desk.new.deployment.now ≡ desk.old.deployment.now }
    ensures told { HasTold (log_of (E.written desk.old.errors.now) (E.faults desk.old.errors.now))
        (log_of (E.written desk.new.errors.now) (E.faults desk.new.errors.now)) }
{
    match seats.next_report(rt, site) {
        Some(report) => {
            if let Some(level) = hear(desk.manager, report) {
                carry_out::<G, K, E, W>(rt, alloc, gate, site, signals, clock, seats, desk, level);
            }
        }
        None => {
            let full = seats.fullness(rt, site);
            if is_restart_due(full, signals.inside()) {
                stop::<G, K, E, W>(rt, alloc, gate, site, signals, seats, desk);
            } else {
                gate.rest();
            }
        }
    }
}

/// Decides on reports and makes reboots, until all workers have ended. Once the container is stopped, it only rests.
pub(crate) fn decide<G: Gate, K: Keeper + Drop, E: Sink, W: Wait>(
    rt: &W,
    alloc: Global,
    gate: &G,
    site: &Site<K>,
    signals: &Signals,
    tools: &ToolBox<G>,
    seats: &mut Seats<K>,
    desk: &mut Desk<'_, E>,
)
    requires seats { AreOf site.now seats.old }
    requires names { desk.old.deployment.now ≡ site_parts }
    ensures seats { AreOf site.now seats.new }
    ensures used { WereUsed seats.old seats.new }
    ensures desk { desk.new.errors.ghost_name ≡ desk.old.errors.ghost_name }
    ensures names { desk.new.deployment.now ≡ desk.old.deployment.now }
    ensures told { HasTold (log_of (E.written desk.old.errors.now) (E.faults desk.old.errors.now))
        (log_of (E.written desk.new.errors.now) (E.faults desk.new.errors.now)) }
{
    let mut tools = tools.lock(rt);
    for _ in rt.forever() {
        if signals.have_ended() {
            return;
        }
        if signals.is_stopped() {
            gate.rest();
        } else {
            decide_once::<G, K, E, W>(
                rt,
                alloc,
                gate,
                site,
                signals,
                &mut tools.clock,
                seats,
                desk,
            );
        }
    }
    unreachable!()
}
