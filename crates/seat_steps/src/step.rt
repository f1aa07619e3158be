//! A step of a seat.

ghost use Rattle.std.specs.Prelude.{◌≡◌, ◌≤◌, ◌<◌, ◌^◌, true, IfOk, OnErr, OnOk};
ghost use Rattle.auction_rows.specs.Parts.{site_parts};
ghost use Rattle.container_core.specs.Container.{HasGrownBy};
ghost use Rattle.outside.specs.declared.clock.TheConstants.{MOMENTS_END};
ghost use Rattle.seat_steps.specs.Going.{GoesOnAtSeat};
ghost use Rattle.seat_steps.specs.Seats.{SeatGivens, SeatOutcome, report_at};
ghost use Rattle.seat_steps.specs.Stepped.{BreaksOff, GoesAloneTwice, HasStepped, world_from};
ghost use Rattle.seat_steps.specs.Twinned.{Twinned, twinned, way_in};

use crate::alone::go_alone;
use crate::events::make_event;
use crate::reporting::report_behind;
use crate::seat::{NextDraws, Seat};
use crate::twins::look_after_twin;
use auction_actions::ActionProgram;
use container_core::Container;
use crash_base::{Moment, OutOfMemory, ResponseBytes, WorkerNo};
use failure_scores::FailureReport;
use lane_link::LaneLink;
use outcome_items::ItemList;
use outside::{Keeper, PlainClock, PlainRandom, PlainSerials};
use session_lanes::Lanes;
use shepherd::ShepherdTurn;
use shepherd_steps::{
    counted_numbers_come_in_turn, events_are_fixed, going_alone_ends, items_are_fixed,
    opened_requests_are_fixed, own_steps_are_fixed, requests_are_decided_as_read, steps_are_fixed,
};
use site_programs::SiteMaker;
use site_routes::SiteRouter;
use std::alloc::Global;
use text_readings::{cookies_are_accepted_of_their_texts, tokens_are_read_once};

/// What came of a step.
#[derive(Drop)]
pub struct SeatStepped {
    /// The bytes that are to be put out.
    pub bytes: ResponseBytes,
    /// The items of requests that were taken.
    pub items: ItemList,
    /// What a manager is to be told of the request whose step it was, if that failed.
    pub report: Option<FailureReport>,
}

/// The random word that is given next: it is one of 64 bits.
fn word_of(next: &NextDraws) -> u64
    ensures value { result ≡ next.now.word }
    ensures small { result < 2 ^ 64 }
{
    next.word
}

impl Seat {
    /// The connection goes on by itself until others are to step, and what it then holds has a twin. The items that it
    /// gave.
    fn come_to_rest<K: Keeper + Drop>(
        &mut self,
        alloc: Global,
        key: &[u8],
        worker: WorkerNo,
        container: &Container<K>,
        lanes: &mut Lanes,
    ) -> Result<ItemList, OutOfMemory>
        requires site { container.now.boot.start.deployment ≡ site_parts }
        requires goes { GoesOnAtSeat container.now self.old.connection }
        ensures goes { GoesOnAtSeat container.now self.new.connection }
        ensures alone { IfOk result (GoesAloneTwice key.now worker self.old.connection self.new.connection) }
        ensures twin { OnOk result ((let t : Twinned = record { twin = self.new.twin; store = lanes.new } in t)
            ≡ twinned (way_in self.new.connection.stage) self.old.twin lanes.old) }
        ensures want { OnErr result (self.new.connection.wants_memory ≡ true) }
    {
        let items = go_alone(alloc, key, worker, &mut self.connection, container)?;
        match look_after_twin(alloc, &self.connection.stage, self.twin, lanes) {
            Ok(twin) => {
                self.twin = twin;
                Ok(items)
            }
            Err(OutOfMemory) => {
                self.connection.wants_memory = true;
                Err(OutOfMemory)
            }
        }
    }

    /// What follows the event of a step, which was made at this turn: the connection reports its request, if that
    /// failed, and comes to rest. The report, and the items that it gave.
    fn follow_event<K: Keeper + Drop>(
        &mut self,
        alloc: Global,
        key: &[u8],
        worker: WorkerNo,
        turn: ShepherdTurn,
        container: &Container<K>,
        lanes: &mut Lanes,
    ) -> Result<(Option<FailureReport>, ItemList), OutOfMemory>
        requires site { container.now.boot.start.deployment ≡ site_parts }
        requires goes { GoesOnAtSeat container.now self.old.connection }
        ensures goes { GoesOnAtSeat container.now self.new.connection }
        ensures reported { IfOk result (λ made. made.0 ≡ report_at turn self.old.connection.stage) }
        ensures alone { IfOk result (λ made.
            GoesAloneTwice key.now worker self.old.connection self.new.connection made.1) }
        ensures twin { OnOk result ((let t : Twinned = record { twin = self.new.twin; store = lanes.new } in t)
            ≡ twinned (way_in self.new.connection.stage) self.old.twin lanes.old) }
        ensures want { OnErr result (self.new.connection.wants_memory ≡ true) }
    {
        match report_behind(alloc, turn, &mut self.connection, container) {
            Ok(report) => match self.come_to_rest(alloc, key, worker, container, lanes) {
                Ok(items) => Ok((report, items)),
                Err(OutOfMemory) => Err(OutOfMemory),
            },
            Err(OutOfMemory) => Err(OutOfMemory),
        }
    }

    /// Makes the next step of a connection, at this moment, over bricks by their lanes: one call of its turn, and what
    /// it then does by itself. Its twin is the active call of the bricks meanwhile; what the connection then holds has
    /// a twin, which has begun where there was none. A request that failed at the call is reported.
    ///
    /// # Errors
    /// There is no memory: the connection has ended. Nothing was added then, to the history of the container or by its
    /// keeper; or the event of the step was made, and memory was wanted behind it.
    pub fn step<K: Keeper + Drop>(
        &mut self,
        alloc: Global,
        router: &SiteRouter,
        key: &[u8],
        worker: WorkerNo,
        now: Moment,
        container: &mut Container<K>,
        lanes: Lanes,
        next: &mut NextDraws,
    ) -> (Lanes, Result<SeatStepped, OutOfMemory>)
        requires small { now.0 < MOMENTS_END }
        requires site { container.old.boot.start.deployment ≡ site_parts }
        requires goes { GoesOnAtSeat container.old self.old.connection }
        ensures step { IfOk result.1 (λ stepped. HasStepped key.now worker now self.old container.old
            (world_from container.old lanes next.old) container.new (record {
              seat = self.new;
              world = world_from container.new result.0 next.new;
              bytes = stepped.bytes;
              items = stepped.items;
              report = stepped.report;
            })) }
        ensures goes { GoesOnAtSeat container.new self.new.connection }
        ensures grown { HasGrownBy container.old container.new }
        ensures count { container.old.faults ≤ container.new.faults }
        ensures want { OnErr result.1 (self.new.connection.wants_memory ≡ true) }
        ensures broke { OnErr result.1 (BreaksOff key.now now self.old container.old lanes next.old container.new next.new) }
    {
        steps_are_fixed::<
            ActionProgram,
            LaneLink,
            SiteMaker,
            PlainClock,
            PlainRandom,
            PlainSerials,
        >();
        events_are_fixed::<
            ActionProgram,
            LaneLink,
            SiteMaker,
            PlainClock,
            PlainRandom,
            PlainSerials,
        >();
        going_alone_ends::<ActionProgram>();
        own_steps_are_fixed::<ActionProgram>();
        opened_requests_are_fixed::<ActionProgram, SiteMaker>();
        items_are_fixed::<ActionProgram>();
        counted_numbers_come_in_turn();
        requests_are_decided_as_read();
        cookies_are_accepted_of_their_texts();
        tokens_are_read_once();
        word_of(next);
        let turn = self.turn();
        let link = LaneLink {
            lanes,
            active: self.twin,
        };
        let (link, answer) = make_event(
            alloc,
            router,
            key,
            now,
            &mut self.connection,
            container,
            link,
            next,
        );
        let LaneLink { lanes, active: _ } = link;
        let mut lanes = lanes;
        match answer {
            Err(OutOfMemory) => (lanes, Err(OutOfMemory)),
            Ok(bytes) => match self.follow_event(alloc, key, worker, turn, container, &mut lanes) {
                Ok((report, items)) => {
                    let stepped = SeatStepped {
                        bytes,
                        items,
                        report,
                    };
                    (lanes, Ok(stepped))
                }
                Err(OutOfMemory) => (lanes, Err(OutOfMemory)),
            },
        }
    }
}
