//! The call that is the event at the turn of a connection.

ghost use Rattle.std.specs.Prelude.{◌≡◌, ◌≤◌, ◌<◌, ℕ, true, List, IfOk, OnErr, OnOk};
ghost use Rattle.container_core.specs.Container.{HasGrownBy};
ghost use Rattle.crash_base.specs.declared.numbers.Moment.{Moment};
ghost use Rattle.lane_link.specs.declared.link.LaneLink.{LaneLink};
ghost use Rattle.outside.specs.declared.clock.TheConstants.{MOMENTS_END};
ghost use Rattle.request_visit.specs.Stepping.{VisitsWindows};
ghost use Rattle.session_cookie.specs.declared.cookie.TheConstants.{MAX_HOLDERS};
ghost use Rattle.shepherd.specs.Shepherds.{turn};
ghost use Rattle.shepherd.specs.Steps.{ShepherdSteps};
ghost use Rattle.seat_steps.specs.Going.{GoesOnAtSeat};
ghost use Rattle.seat_steps.specs.Stepped.{AddedNothing, EventMade, TakesAt, told_at};
ghost use Rattle.seat_steps.specs.declared.seat.NextDraws.{NextDraws};

use crate::seat::{NODE, NextDraws, SeatShepherd};
use auction_actions::ActionProgram;
use container_core::{Container, histories_grow};
use crash_base::{Moment, OutOfMemory, ResponseBytes};
use lane_link::{LaneLink, lent_windows_fit};
use outside::{Clock, Keeper, PlainClock, PlainRandom, PlainSerials, Random, Serials, Spent};
use request_intake::HomeBoot;
use session_lanes::Lanes;
use shepherd::{ShepherdTurn, connections_go_on, taken_requests_go_on};
use shepherd_steps::steps_inside_are_fixed;
use site_programs::SiteMaker;
use site_routes::SiteRouter;
use std::alloc::Global;

/// A clock that has told the moment that it shows.
fn clock_at(now: Moment) -> PlainClock
    requires { now.0 < MOMENTS_END }
    ensures { result ≡ told_at now }
{
    let mut clock = PlainClock::new(now);
    clock.now();
    clock
}

/// The serial number that is looked at next.
fn next_serial(serials: PlainSerials) -> u64
    ensures { result ≡ serials }
{
    let mut serials = serials;
    match serials.draw() {
        Ok(serial) => serial,
        Err(Spent { seen }) => seen,
    }
}

/// The random word that is given next.
fn next_word(random: PlainRandom) -> u64
    ensures { result ≡ random }
{
    let mut random = random;
    random.word()
}

/// A request is taken off the bytes of a connection, at a moment. A clock that was set to one tells no later one; where
/// one did, the connection would end as where there is no memory.
fn take_at(
    alloc: Global,
    router: &SiteRouter,
    key: &[u8],
    home: HomeBoot,
    now: Moment,
    link: &LaneLink,
    connection: &mut SeatShepherd,
    next: &mut NextDraws,
) -> Result<(), OutOfMemory>
    requires turn { turn connection.old ≡ ShepherdTurn.Request }
    requires small { now.0 < MOMENTS_END }
    ensures taken { OnOk result (TakesAt key.now home link.now now connection.old next.old connection.new next.new) }
    ensures want { OnErr result (connection.new.wants_memory ≡ true) }
{
    let mut clock = clock_at(now);
    let mut random = PlainRandom::new(next.word);
    let mut serials = PlainSerials::new(next.serial);
    match connection.take_request(
        alloc,
        router,
        key,
        home,
        link,
        &mut clock,
        &mut random,
        &mut serials,
    ) {
        Ok(()) => {
            *next = NextDraws {
                word: next_word(random),
                serial: next_serial(serials),
            };
            if clock.now().0 <= now.0 {
                Ok(())
            } else {
                connection.wants_memory = true;
                Err(OutOfMemory)
            }
        }
        Err(OutOfMemory) => Err(OutOfMemory),
    }
}

/// The windows of lanes, which are lent and put back, after a connection made one call of them.
fn call_windows(
    alloc: Global,
    connection: &mut SeatShepherd,
    lanes: Lanes,
) -> (Lanes, Result<(), OutOfMemory>)
    requires { turn connection.old ≡ ShepherdTurn.Windows }
    ensures step { OnOk result.1 (ShepherdSteps (λ v after. VisitsWindows v lanes.windows after result.0.windows)
        connection.old connection.new) }
    ensures rest { result.0 ≡ record lanes { windows = result.0.windows } }
    ensures some { 1 ≤ lanes.windows.wq }
    ensures few { lanes.windows.wq ≤ MAX_HOLDERS }
    ensures want { OnErr result.1 (connection.new.wants_memory ≡ true) }
{
    lent_windows_fit();
    let (lent, mut windows) = lanes.lend_windows();
    // The windows keep their limits: 1 to 16 bricks are asked.
    let _ = windows.facts();
    let answer = connection.step_windows(alloc, &mut windows);
    let lanes = lent.with_windows(windows);
    (lanes, answer)
}

/// A request is taken.
fn request_event<K: Keeper + Drop>(
    alloc: Global,
    router: &SiteRouter,
    key: &[u8],
    now: Moment,
    connection: &mut SeatShepherd,
    container: &Container<K>,
    link: LaneLink,
    next: &mut NextDraws,
) -> (LaneLink, Result<ResponseBytes, OutOfMemory>)
    requires turn { turn connection.old ≡ ShepherdTurn.Request }
    requires small { now.0 < MOMENTS_END }
    requires goes { GoesOnAtSeat container.now connection.old }
    ensures goes { GoesOnAtSeat container.now connection.new }
    ensures event { IfOk result.1 (λ bytes. EventMade key.now now connection.old container.now link next.old bytes connection.new container.now result.0 next.new) }
    ensures want { OnErr result.1 (connection.new.wants_memory ≡ true) }
{
    connections_go_on::<ActionProgram, LaneLink, SiteMaker>();
    taken_requests_go_on::<ActionProgram, LaneLink, PlainClock, PlainRandom, PlainSerials>();
    let home = HomeBoot {
        node: NODE,
        boot: container.boot(),
    };
    match take_at(alloc, router, key, home, now, &link, connection, next) {
        Ok(()) => (link, Ok(ResponseBytes::new(alloc))),
        Err(OutOfMemory) => (link, Err(OutOfMemory)),
    }
}

/// One call of the link.
fn link_event<K: Keeper + Drop>(
    alloc: Global,
    now: Moment,
    connection: &mut SeatShepherd,
    container: &Container<K>,
    link: LaneLink,
    next: &NextDraws,
) -> (LaneLink, Result<ResponseBytes, OutOfMemory>)
    requires turn { turn connection.old ≡ ShepherdTurn.Outside }
    requires goes { GoesOnAtSeat container.now connection.old }
    ensures goes { GoesOnAtSeat container.now connection.new }
    ensures event { IfOk result.1 (λ bytes. (key : List ℕ) → EventMade key now connection.old container.now link next.now bytes connection.new container.now result.0 next.now) }
    ensures want { OnErr result.1 (connection.new.wants_memory ≡ true) }
{
    connections_go_on::<ActionProgram, LaneLink, SiteMaker>();
    let mut link = link;
    match connection.step_outside(alloc, &mut link) {
        Ok(()) => (link, Ok(ResponseBytes::new(alloc))),
        Err(OutOfMemory) => (link, Err(OutOfMemory)),
    }
}

/// One call of the windows.
fn windows_event<K: Keeper + Drop>(
    alloc: Global,
    now: Moment,
    connection: &mut SeatShepherd,
    container: &Container<K>,
    link: LaneLink,
    next: &NextDraws,
) -> (LaneLink, Result<ResponseBytes, OutOfMemory>)
    requires turn { turn connection.old ≡ ShepherdTurn.Windows }
    requires goes { GoesOnAtSeat container.now connection.old }
    ensures goes { GoesOnAtSeat container.now connection.new }
    ensures event { IfOk result.1 (λ bytes. (key : List ℕ) → EventMade key now connection.old container.now link next.now bytes connection.new container.now result.0 next.now) }
    ensures want { OnErr result.1 (connection.new.wants_memory ≡ true) }
{
    connections_go_on::<ActionProgram, LaneLink, SiteMaker>();
    let LaneLink { lanes, active } = link;
    let (lanes, answer) = call_windows(alloc, connection, lanes);
    let link = LaneLink { lanes, active };
    match answer {
        Ok(()) => (link, Ok(ResponseBytes::new(alloc))),
        Err(OutOfMemory) => (link, Err(OutOfMemory)),
    }
}

/// One step in the container.
fn container_event<K: Keeper + Drop>(
    alloc: Global,
    connection: &mut SeatShepherd,
    container: &mut Container<K>,
) -> Result<ResponseBytes, OutOfMemory>
    requires turn { turn connection.old ≡ ShepherdTurn.Inside }
    requires goes { GoesOnAtSeat container.old connection.old }
    ensures goes { GoesOnAtSeat container.new connection.new }
    ensures event { IfOk result (λ bytes. (key : List ℕ) (now : Moment) (link : LaneLink) (next : NextDraws)
        → EventMade key now connection.old container.old link next bytes connection.new container.new link next) }
    ensures want { OnErr result (connection.new.wants_memory ≡ true) }
    ensures nothing { OnErr result (AddedNothing container.old container.new) }
    ensures count { container.old.faults ≤ container.new.faults }
    ensures grown { HasGrownBy container.old container.new }
{
    connections_go_on::<ActionProgram, LaneLink, SiteMaker>();
    steps_inside_are_fixed::<ActionProgram>();
    match connection.step_inside(alloc, container) {
        Ok(()) => Ok(ResponseBytes::new(alloc)),
        Err(OutOfMemory) => Err(OutOfMemory),
    }
}

/// A response leaves.
fn output_event<K: Keeper + Drop>(
    connection: &mut SeatShepherd,
    container: &Container<K>,
) -> ResponseBytes
    requires turn { turn connection.old ≡ ShepherdTurn.Output }
    requires goes { GoesOnAtSeat container.now connection.old }
    ensures goes { GoesOnAtSeat container.now connection.new }
    ensures event { (key : List ℕ) (now : Moment) (link : LaneLink) (next : NextDraws)
        → EventMade key now connection.old container.now link next result connection.new container.now link next }
{
    connections_go_on::<ActionProgram, LaneLink, SiteMaker>();
    connection.output()
}

/// Makes the call that is the event at the turn of a connection, over a link whose active call is its twin: a request
/// is taken at this moment; the link, the windows or the container are called; or a response leaves, whose bytes are
/// given. At another turn nothing happens.
///
/// # Errors
/// There is no memory: the connection has ended.
pub(crate) fn make_event<K: Keeper + Drop>(
    alloc: Global,
    router: &SiteRouter,
    key: &[u8],
    now: Moment,
    connection: &mut SeatShepherd,
    container: &mut Container<K>,
    link: LaneLink,
    next: &mut NextDraws,
) -> (LaneLink, Result<ResponseBytes, OutOfMemory>)
    requires small { now.0 < MOMENTS_END }
    requires goes { GoesOnAtSeat container.old connection.old }
    ensures goes { GoesOnAtSeat container.new connection.new }
    ensures event { IfOk result.1 (λ bytes. EventMade key.now now connection.old container.old link next.old bytes connection.new container.new result.0 next.new) }
    ensures want { OnErr result.1 (connection.new.wants_memory ≡ true) }
    ensures nothing { OnErr result.1 (AddedNothing container.old container.new) }
    ensures count { container.old.faults ≤ container.new.faults }
    ensures grown { HasGrownBy container.old container.new }
{
    histories_grow();
    match connection.turn() {
        ShepherdTurn::Request => request_event(
            alloc, router, key, now, connection, container, link, next,
        ),
        ShepherdTurn::Outside => link_event(alloc, now, connection, container, link, next),
        ShepherdTurn::Windows => windows_event(alloc, now, connection, container, link, next),
        ShepherdTurn::Inside => {
            let answer = container_event(alloc, connection, container);
            (link, answer)
        }
        ShepherdTurn::Output => (link, Ok(output_event(connection, container))),
        ShepherdTurn::Bytes => (link, Ok(ResponseBytes::new(alloc))),
        ShepherdTurn::Program => (link, Ok(ResponseBytes::new(alloc))),
        ShepherdTurn::Own => (link, Ok(ResponseBytes::new(alloc))),
        ShepherdTurn::Item => (link, Ok(ResponseBytes::new(alloc))),
        ShepherdTurn::Ended(_) => (link, Ok(ResponseBytes::new(alloc))),
    }
}
