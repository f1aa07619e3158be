//! The seats of a thread.

ghost use Rattle.std.specs.Prelude.{◌≡◌, ◌+◌, ◌-◌, ◌<◌, ◌≤◌, length, IfSome, OnSome};
ghost use mathlib.Core.List.{IsPrefix};
ghost use Rattle.commit_journal.specs.Journal.{IsScope};
ghost use Rattle.connection_server.specs.Seats.{IsOfSite};
ghost use Rattle.container_server.specs.Seats.{AreOf, WereUsed};

use crate::site::Site;
use connection_server::{Points, ServedEnd, WorkerSeat, serve_gated};
use container_core::{FullAt, RebootRefusal};
use crash_base::{Place, Scope, WorkerNo};
use failure_scores::FailureReport;
use outside::{Clock, Keeper, Link, Random, Sink, Source};
use report_queue::Free;
use std::alloc::Global;
use std::marker::Model;
use std::sync::Wait;

/// The seats of a thread, with which it serves connections and makes reboots.
#[derive(Drop)]
pub(crate) struct Seats<K: Keeper + Drop> {
    pub(crate) seat: WorkerSeat<K>,
}

impl<K: Keeper + Drop> Model for Seats<K> {
    ghost use Rattle.container_server.specs.Seats.{SeatsValue};

    ghost Value = { SeatsValue };

    ghost view = { λ s. record {
      container = s.seat.container;
      windows = s.seat.windows;
      words = s.seat.words;
      pass = s.seat.pass;
    } };
}

impl<K: Keeper + Drop> Seats<K> {
    /// The number of the thread.
    pub fn worker(&self) -> WorkerNo {
        self.seat.worker
    }

    /// Serves a connection, as `serve_gated` says. How that ended.
    pub fn serve<W: Wait, S: Source, T: Sink, L: Link, C: Clock, R: Random, G: Points>(
        &mut self,
        rt: &W,
        alloc: Global,
        site: &Site<K>,
        source: &mut S,
        sink: &mut T,
        link: &mut L,
        clock: &mut C,
        random: &mut R,
        gate: &G,
    ) -> ServedEnd
        requires seats { AreOf site.now self.old }
        requires seen { IsOfSite site.now.home self.old.container.seen }
        ensures seats { AreOf site.now self.new }
        ensures seen { IsOfSite site.now.home self.new.container.seen }
        ensures used { WereUsed self.old self.new }
    {
        let served = serve_gated(
            rt,
            alloc,
            &mut self.seat,
            &site.shared,
            source,
            sink,
            link,
            clock,
            random,
            gate,
        );
        served.ended
    }

    /// Begins the reboot of a scope, as `ContainerLock::go_down` says.
    pub fn go_down<W: Wait>(
        &mut self,
        rt: &W,
        site: &Site<K>,
        scope: Scope,
    ) -> Result<Place, RebootRefusal>
        requires seats { AreOf site.now self.old }
        requires scope { IsScope scope }
        ensures seats { AreOf site.now self.new }
        ensures used { WereUsed self.old self.new }
    {
        site.shared
            .container
            .go_down(rt, &mut self.seat.container, scope)
    }

    /// Ends a reboot, as `ContainerLock::come_up` says.
    pub fn come_up<W: Wait>(&mut self, rt: &W, site: &Site<K>, down: Place) -> bool
        requires seats { AreOf site.now self.old }
        ensures seats { AreOf site.now self.new }
        ensures used { WereUsed self.old self.new }
    {
        site.shared
            .container
            .come_up(rt, &mut self.seat.container, down)
    }

    /// Stops the container.
    pub fn stop<W: Wait>(&mut self, rt: &W, site: &Site<K>)
        requires seats { AreOf site.now self.old }
        ensures seats { AreOf site.now self.new }
        ensures used { WereUsed self.old self.new }
    {
        site.shared.container.stop(rt, &mut self.seat.container);
    }

    /// How full the journal is.
    pub fn fullness<W: Wait>(&mut self, rt: &W, site: &Site<K>) -> FullAt
        requires seats { AreOf site.now self.old }
        ensures seats { AreOf site.now self.new }
        ensures used { WereUsed self.old self.new }
    {
        site.shared.container.fullness(rt, &mut self.seat.container)
    }

    /// The report at the front of the queue, if one is there.
    pub fn next_report<W: Wait>(&mut self, rt: &W, site: &Site<K>) -> Option<FailureReport>
        requires seats { AreOf site.now self.old }
        ensures seats { AreOf site.now self.new }
        ensures used { WereUsed self.old self.new }
    {
        site.shared.reports.take::<Free, W>(rt, &mut self.seat.pass)
    }
}
