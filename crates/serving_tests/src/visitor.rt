//! Who serves connections of a site.

ghost use Rattle.std.specs.Prelude.{◌≡◌, ◌<◌, ◌≤◌, false, IfOk};
ghost use Rattle.commit_journal.specs.Journal.{IsScope};
ghost use Rattle.connection_server.specs.Seats.{AreSeatsOf, ids_of};
ghost use Rattle.serving_tests.specs.Site.{BeginsSite};

use crate::site::BRICKS;
use connection_server::{Points, Served, Shared, WorkerSeat, serve_connection, serve_gated};
use crash_base::{Moment, OutOfMemory, Scope, WorkerNo};
use link_memory::ScriptLink;
use outside::{BytesSink, BytesSource, MapKeeper, PlainClock, PlainRandom};
use report_queue::ReportPass;
use site_locks::ContainerSeat;
use std::alloc::Global;
use std::sync::Wait;

/// Who serves connections of a site: with its seats, over bricks of its own, by its own clock and random words.
#[derive(Drop)]
pub struct Visitor<'a> {
    pub shared: &'a Shared<MapKeeper>,
    seat: WorkerSeat<MapKeeper>,
    /// How many parts of the container's lock its seat has.
    parts: u32,
    link: ScriptLink,
    clock: PlainClock,
    random: PlainRandom,
    ghost parts_are: { seat.container.parts ≡ parts },
    ghost seats: { AreSeatsOf (ids_of shared.now.container shared.now.windows shared.now.words shared.now.reports)
        seat.container seat.windows seat.words seat.pass },
    ghost of_site: { BeginsSite shared.now.home seat.container.seen },
}

impl<'a> Visitor<'a> {
    /// Who has these seats, with so many parts of the container's lock. Its clock shows 0, and its random words go from
    /// this one on.
    pub fn new(
        alloc: Global,
        shared: &'a Shared<MapKeeper>,
        seat: WorkerSeat<MapKeeper>,
        parts: u32,
        random: u64,
    ) -> Result<Visitor<'a>, OutOfMemory>
        requires parts { seat.container.parts ≡ parts }
        requires seats { AreSeatsOf (ids_of shared.now.container shared.now.windows shared.now.words shared.now.reports)
            seat.container seat.windows seat.words seat.pass }
        requires site { BeginsSite shared.now.home seat.container.seen }
        ensures there { IfOk result (λ visitor. visitor.shared.now ≡ shared.now) }
    {
        match ScriptLink::new(alloc, BRICKS) {
            Ok(link) => Ok(Visitor {
                shared,
                seat,
                parts,
                link,
                clock: PlainClock::new(Moment(0)),
                random: PlainRandom::new(random),
            }),
            Err(OutOfMemory) => {
                drop(seat);
                Err(OutOfMemory)
            }
        }
    }

    /// Serves a connection.
    #[tactic(auto, using(crate::proofs::Seeing::to_site, crate::proofs::Seeing::of_site))]
    pub fn serve<W: Wait>(
        &mut self,
        rt: &W,
        alloc: Global,
        source: &mut BytesSource,
        sink: &mut BytesSink,
    ) -> Served
        ensures there { self.new.shared.now ≡ self.old.shared.now }
    {
        serve_connection(
            rt,
            alloc,
            &mut self.seat,
            self.shared,
            source,
            sink,
            &mut self.link,
            &mut self.clock,
            &mut self.random,
        )
    }

    /// Serves a connection, and tells a gate of its points.
    #[tactic(auto, using(crate::proofs::Seeing::to_site, crate::proofs::Seeing::of_site))]
    pub fn serve_gated<W: Wait, G: Points>(
        &mut self,
        rt: &W,
        alloc: Global,
        source: &mut BytesSource,
        sink: &mut BytesSink,
        gate: &G,
    ) -> Served {
        serve_gated(
            rt,
            alloc,
            &mut self.seat,
            self.shared,
            source,
            sink,
            &mut self.link,
            &mut self.clock,
            &mut self.random,
            gate,
        )
    }

    /// Reboots a group, or all. Whether it did.
    #[tactic(auto, using(crate::proofs::Seeing::site_on, crate::proofs::Seeing::seats_on, crate::proofs::Seeing::parts_on))]
    pub fn reboot<W: Wait>(&mut self, rt: &W, scope: Scope) -> bool
        requires { IsScope scope }
    {
        match self
            .shared
            .container
            .go_down(rt, &mut self.seat.container, scope)
        {
            Ok(down) => self
                .shared
                .container
                .come_up(rt, &mut self.seat.container, down),
            Err(_) => false,
        }
    }

    /// Its seats, and how many parts of the container's lock they have.
    pub fn into_seat(self) -> (WorkerSeat<MapKeeper>, u32)
        ensures parts { result.0.container.parts ≡ result.1 }
        ensures seats { AreSeatsOf (ids_of self.entry.shared.now.container self.entry.shared.now.windows
            self.entry.shared.now.words self.entry.shared.now.reports)
            result.0.container result.0.windows result.0.words result.0.pass }
        ensures site { BeginsSite self.entry.shared.now.home result.0.container.seen }
    {
        let Visitor {
            shared: _,
            seat,
            parts,
            link: _,
            clock: _,
            random: _,
        } = self;
        (seat, parts)
    }
}
