//! One turn of a connection: each call makes one step of its shepherd, in one hold at most.

ghost use Rattle.std.specs.Prelude.{◌≡◌, ◌≤◌, ◌++◌, ◌∷◌, [], false, true, IfOk, OnErr, OnOk};
ghost use Rattle.auction_site.specs.Actions.{steps_of};
ghost use Rattle.outside.specs.Link.{Made};
ghost use Rattle.request_visit.specs.Stepping.{counted};
ghost use Rattle.seat_serials.specs.Drawing.{HasDrawnOn, SeatLooks};
ghost use Rattle.served_connections.specs.Resting.{HasLeftAll};
ghost use Rattle.shepherd.specs.Shepherds.{has_item, turn};
ghost use Rattle.shepherd.specs.Steps.{TakesItem, TakesRequest};
ghost use Rattle.connection_server.specs.Serving.{ComesTo, IsAccepted, KeepsServing, service_of};
ghost use Rattle.connection_server.specs.Stands.{GivesAll, HasCalled, HasGiven, Stand};
ghost use Rattle.connection_server.specs.Turning.{ended_so, stopped_so};

use crate::connection::Connection;
use crate::outset::Outset;
use crate::points::{Point, Points};
use crate::served::ServedEnd;
use crate::shared::Shared;
use auction_actions::ActionProgram;
use crash_base::{OutOfMemory, WorkerNo};
use outside::{Clock, Failed, Keeper, Link, Random, Sink, Source, write_all};
use report_queue::{Free, ReportPass, ReportQueue};
use seat_serials::{Lent, Loan, SeatSerials};
use served_connections::{
    connections_are_served_behind_their_steps, connections_are_served_from_their_begin,
    connections_come_to_rest, connections_stop_where_memory_is_wanted,
    requests_join_their_connections,
};
use shared_words::WordSeat;
use shepherd::{
    EndKind, Shepherd, ShepherdTurn, Stage, connections_go_on, items_are_for_requests_in_order,
};
use site_locks::{ContainerLock, ContainerSeat, WindowsLock, WindowsSeat};
use site_programs::{SiteMaker, site_programs_are_accepted};
use std::alloc::Global;
use std::marker::Brand;
use std::sync::Wait;

/// How many bytes are read at once.
const READ_BYTES: usize = 4096;

/// Reads what comes, once; or no more comes.
pub(crate) fn read<B: Outset, S: Source, L: Link, C: Clock, R: Random>(
    alloc: Global,
    connection: &mut Connection,
    source: &mut S,
) -> Option<ServedEnd>
    requires { turn connection.old.shepherd ≡ ShepherdTurn.Bytes }
    ensures { (rest : Stand) → KeepsServing L.makes R.gives B.service B.begun
        (record rest { left = S.left source.old; read_faults = S.faults source.old }) connection.old
        → ComesTo L.makes R.gives B.service B.begun result
        (record rest { left = S.left source.new; read_faults = S.faults source.new }) connection.new }
{
    connections_are_served_from_their_begin::<
        ActionProgram,
        L,
        SiteMaker,
        C,
        R,
        SeatSerials<'static, Brand>,
    >();
    connections_stop_where_memory_is_wanted::<
        ActionProgram,
        L,
        SiteMaker,
        C,
        R,
        SeatSerials<'static, Brand>,
    >();
    connections_come_to_rest::<ActionProgram>();
    let mut room = [0u8; READ_BYTES];
    match source.read(&mut room) {
        Err(Failed) => Some(ServedEnd::ReadFault),
        Ok(0) => {
            connection.shepherd.end();
            None
        }
        Ok(count) => match connection.shepherd.feed(&room[..count]) {
            Ok(()) => None,
            Err(OutOfMemory) => Some(ServedEnd::OutOfMemory),
        },
    }
}

/// Takes the next request off the bytes, and hands back the seat of words that was lent for it. Nothing but draws was
/// done with that, whatever came of the request, which `taken` tells.
fn take_lent<'a, B: Loan, K: Keeper + Drop, L: Link, C: Clock, R: Random>(
    alloc: Global,
    shared: &Shared<K>,
    lent: Lent<'a>,
    shepherd: &mut Shepherd<ActionProgram>,
    link: &L,
    clock: &mut C,
    random: &mut R,
    taken: &mut Result<(), OutOfMemory>,
) -> Lent<'a>
    requires turn { turn shepherd.old ≡ ShepherdTurn.Request }
    requires words { lent.seat.now.words ≡ lent.words.now.id }
    requires loan { (B.loan ≡ lent.seat.ghost_name) × (B.lent ≡ lent.seat.now) }
    ensures taken { OnOk taken.new (TakesRequest C.told R.gives SeatLooks shared.now.key shared.now.home
        (counted (L.tally link.now)) shepherd.old clock.old random.old lent.entry.seat.now shepherd.new clock.new
        random.new result.seat.now) }
    ensures same { OnErr taken.new (shepherd.new.stage ≡ shepherd.old.stage) }
    ensures rises { C.told clock.old ≤ C.told clock.new }
    ensures loan { result.seat.ghost_name ≡ lent.entry.seat.ghost_name }
    ensures drawn { HasDrawnOn lent.entry.seat.now result.seat.now }
{
    let key = shared.key.as_slice();
    let mut serials = SeatSerials::<'a, B>::new(lent);
    *taken = shepherd.take_request(
        alloc,
        &shared.router,
        key,
        shared.home,
        link,
        clock,
        random,
        &mut serials,
    );
    serials.into_lent()
}

/// Takes the next request off the bytes. What it draws is drawn with the call's seat of words.
pub(crate) fn take_request<B: Outset, K: Keeper + Drop, L: Link, C: Clock, R: Random>(
    alloc: Global,
    shared: &Shared<K>,
    connection: &mut Connection,
    words: &mut WordSeat,
    link: &L,
    clock: &mut C,
    random: &mut R,
) -> Option<ServedEnd>
    requires turn { turn connection.old.shepherd ≡ ShepherdTurn.Request }
    requires service { B.service ≡ service_of shared.now.key shared.now.home }
    requires words { words.old.words ≡ shared.now.words.id }
    ensures words { words.new.words ≡ shared.now.words.id }
    ensures on { (rest : Stand) (first : R) → GivesAll R.gives first rest.given random.old
        → KeepsServing L.makes R.gives B.service B.begun (record rest {
          words = words.old;
          counts = counted (L.tally link.now);
          moment = C.told clock.old;
        }) connection.old
        → HasGiven R.gives first random.new result (λ given. ComesTo L.makes R.gives B.service B.begun result
        (record rest {
          words = words.new;
          counts = counted (L.tally link.now);
          given = given;
          moment = C.told clock.new;
        }) connection.new) }
{
    requests_join_their_connections::<
        ActionProgram,
        L,
        SiteMaker,
        C,
        R,
        SeatSerials<'static, Brand>,
    >();
    connections_stop_where_memory_is_wanted::<
        ActionProgram,
        L,
        SiteMaker,
        C,
        R,
        SeatSerials<'static, Brand>,
    >();
    let lent = Lent {
        words: &shared.words,
        seat: &mut *words,
    };
    let mut taken = Ok(());
    let lent = take_lent::<Brand, K, L, C, R>(
        alloc,
        shared,
        lent,
        &mut connection.shepherd,
        link,
        clock,
        random,
        &mut taken,
    );
    let Lent { words: _, seat: _ } = lent;
    match taken {
        Ok(()) => {
            connection.stopped = false;
            None
        }
        Err(OutOfMemory) => Some(ServedEnd::OutOfMemory),
    }
}

/// Makes one call of the link.
pub(crate) fn call_link<B: Outset, L: Link, C: Clock, R: Random>(
    alloc: Global,
    connection: &mut Connection,
    link: &mut L,
) -> Option<ServedEnd>
    requires { turn connection.old.shepherd ≡ ShepherdTurn.Outside }
    ensures { (rest : Stand) (from : L) → Made L.makes from rest.heard link.old
        → KeepsServing L.makes R.gives B.service B.begun
        (record rest { counts = counted (L.tally link.old) }) connection.old
        → HasCalled L.makes from link.new (λ heard. ComesTo L.makes R.gives B.service B.begun result
        (record rest { counts = counted (L.tally link.new); heard = heard }) connection.new) }
{
    connections_are_served_behind_their_steps::<
        ActionProgram,
        L,
        SiteMaker,
        C,
        R,
        SeatSerials<'static, Brand>,
    >();
    connections_stop_where_memory_is_wanted::<
        ActionProgram,
        L,
        SiteMaker,
        C,
        R,
        SeatSerials<'static, Brand>,
    >();
    match connection.shepherd.step_outside(alloc, link) {
        Ok(()) => None,
        Err(OutOfMemory) => Some(ServedEnd::OutOfMemory),
    }
}

/// Makes one call of the windows, in one hold.
pub(crate) fn call_windows<B: Outset, W: Wait, L: Link, C: Clock, R: Random>(
    rt: &W,
    alloc: Global,
    lock: &WindowsLock,
    seat: &mut WindowsSeat,
    connection: &mut Connection,
) -> Option<ServedEnd>
    requires turn { turn connection.old.shepherd ≡ ShepherdTurn.Windows }
    requires seat { (seat.old.lock ≡ lock.now.id) × (seat.old.holds ≡ false) }
    ensures seat { (seat.new.lock ≡ lock.now.id) × (seat.new.holds ≡ false) }
    ensures on { (rest : Stand) → KeepsServing L.makes R.gives B.service B.begun
        (record rest { windows = seat.old }) connection.old
        → ComesTo L.makes R.gives B.service B.begun result
        (record rest { windows = seat.new }) connection.new }
{
    connections_are_served_behind_their_steps::<
        ActionProgram,
        L,
        SiteMaker,
        C,
        R,
        SeatSerials<'static, Brand>,
    >();
    connections_stop_where_memory_is_wanted::<
        ActionProgram,
        L,
        SiteMaker,
        C,
        R,
        SeatSerials<'static, Brand>,
    >();
    match lock.step::<W, ActionProgram, L>(rt, alloc, seat, &mut connection.shepherd) {
        Ok(()) => None,
        Err(OutOfMemory) => Some(ServedEnd::OutOfMemory),
    }
}

/// Tells whoever decides on reboots of the request that is open, where there is memory and room for it.
fn report<W: Wait>(
    rt: &W,
    alloc: Global,
    reports: &ReportQueue,
    pass: &mut ReportPass,
    shepherd: &Shepherd<ActionProgram>,
)
    requires { pass.old.queue ≡ reports.now }
    ensures { pass.new.queue ≡ reports.now }
{
    match shepherd.report(alloc) {
        Ok(Some(report)) => match reports.put::<Free, W>(rt, pass, report) {
            Ok(()) => {}
            Err(dropped) => drop(dropped),
        },
        Ok(None) => {}
        Err(OutOfMemory) => {}
    }
}

/// Tells a gate of a step in the container.
fn pass_step<G: Points>(worker: WorkerNo, gate: &G, shepherd: &Shepherd<ActionProgram>) {
    match shepherd.last_entered() {
        Some(component) => gate.pass(worker, Point::Entered(component)),
        None => gate.pass(worker, Point::Stepped),
    }
}

/// Makes one step in the container, in one hold; and behind it reports the request, where it has failed.
pub(crate) fn call_container<
    B: Outset,
    K: Keeper + Drop,
    W: Wait,
    G: Points,
    L: Link,
    C: Clock,
    R: Random,
>(
    rt: &W,
    alloc: Global,
    worker: WorkerNo,
    gate: &G,
    lock: &ContainerLock<K>,
    reports: &ReportQueue,
    seat: &mut ContainerSeat<K>,
    pass: &mut ReportPass,
    connection: &mut Connection,
) -> Option<ServedEnd>
    requires turn { turn connection.old.shepherd ≡ ShepherdTurn.Inside }
    requires seat { (seat.old.lock ≡ lock.now.id) × (seat.old.holds ≡ false) }
    requires pass { pass.old.queue ≡ reports.now }
    requires serving { (rest : Stand) × KeepsServing L.makes R.gives B.service
        B.begun (record rest { container = seat.old }) connection.old }
    ensures seat { (seat.new.lock ≡ lock.now.id) × (seat.new.holds ≡ false) }
    ensures pass { pass.new.queue ≡ reports.now }
    ensures on { (rest : Stand) → KeepsServing L.makes R.gives B.service B.begun
        (record rest { container = seat.old }) connection.old
        → ComesTo L.makes R.gives B.service B.begun result
        (record rest { container = seat.new }) connection.new }
{
    connections_are_served_behind_their_steps::<
        ActionProgram,
        L,
        SiteMaker,
        C,
        R,
        SeatSerials<'static, Brand>,
    >();
    connections_are_served_from_their_begin::<
        ActionProgram,
        L,
        SiteMaker,
        C,
        R,
        SeatSerials<'static, Brand>,
    >();
    connections_stop_where_memory_is_wanted::<
        ActionProgram,
        L,
        SiteMaker,
        C,
        R,
        SeatSerials<'static, Brand>,
    >();
    match lock.step_inside::<W, ActionProgram, L>(rt, alloc, seat, &mut connection.shepherd) {
        Ok(stopped) => {
            connection.heed(stopped);
            report(rt, alloc, reports, pass, &connection.shepherd);
            pass_step(worker, gate, &connection.shepherd);
            None
        }
        Err(OutOfMemory) => Some(ServedEnd::OutOfMemory),
    }
}

/// Makes the program of the request that is open.
pub(crate) fn make_program<B: Outset, L: Link, C: Clock, R: Random>(
    alloc: Global,
    worker: WorkerNo,
    connection: &mut Connection,
) -> Option<ServedEnd>
    requires turn { turn connection.old.shepherd ≡ ShepherdTurn.Program }
    requires serving { (now : Stand) × KeepsServing L.makes R.gives B.service
        B.begun now connection.old }
    ensures { (now : Stand) → KeepsServing L.makes R.gives B.service B.begun
        now connection.old
        → ComesTo L.makes R.gives B.service B.begun result now connection.new }
{
    connections_are_served_behind_their_steps::<
        ActionProgram,
        L,
        SiteMaker,
        C,
        R,
        SeatSerials<'static, Brand>,
    >();
    connections_go_on::<ActionProgram, L, SiteMaker>();
    connections_stop_where_memory_is_wanted::<
        ActionProgram,
        L,
        SiteMaker,
        C,
        R,
        SeatSerials<'static, Brand>,
    >();
    site_programs_are_accepted();
    match connection.shepherd.open(alloc, worker, &SiteMaker) {
        Ok(()) => None,
        Err(OutOfMemory) => Some(ServedEnd::OutOfMemory),
    }
}

/// Lets the request that is open do what it does by itself.
pub(crate) fn advance<B: Outset, K: Keeper + Drop, L: Link, C: Clock, R: Random>(
    alloc: Global,
    shared: &Shared<K>,
    connection: &mut Connection,
) -> Option<ServedEnd>
    requires turn { turn connection.old.shepherd ≡ ShepherdTurn.Own }
    requires service { B.service ≡ service_of shared.now.key shared.now.home }
    requires serving { (now : Stand) × KeepsServing L.makes R.gives B.service
        B.begun now connection.old }
    ensures { (now : Stand) → KeepsServing L.makes R.gives B.service B.begun
        now connection.old
        → ComesTo L.makes R.gives B.service B.begun result now connection.new }
{
    connections_are_served_behind_their_steps::<
        ActionProgram,
        L,
        SiteMaker,
        C,
        R,
        SeatSerials<'static, Brand>,
    >();
    connections_go_on::<ActionProgram, L, SiteMaker>();
    connections_stop_where_memory_is_wanted::<
        ActionProgram,
        L,
        SiteMaker,
        C,
        R,
        SeatSerials<'static, Brand>,
    >();
    match connection.shepherd.advance(alloc, shared.key.as_slice()) {
        Ok(()) => None,
        Err(OutOfMemory) => Some(ServedEnd::OutOfMemory),
    }
}

/// Puts out a response, and writes it whole.
pub(crate) fn put_out<B: Outset, T: Sink, G: Points, L: Link, C: Clock, R: Random>(
    worker: WorkerNo,
    gate: &G,
    connection: &mut Connection,
    sink: &mut T,
) -> Option<ServedEnd>
    requires { turn connection.old.shepherd ≡ ShepherdTurn.Output }
    ensures { (rest : Stand) → KeepsServing L.makes R.gives B.service B.begun
        (record rest { written = T.written sink.old; write_faults = T.faults sink.old }) connection.old
        → ComesTo L.makes R.gives B.service B.begun result
        (record rest { written = T.written sink.new; write_faults = T.faults sink.new }) connection.new }
{
    connections_are_served_from_their_begin::<
        ActionProgram,
        L,
        SiteMaker,
        C,
        R,
        SeatSerials<'static, Brand>,
    >();
    connections_come_to_rest::<ActionProgram>();
    let response = connection.shepherd.output();
    match write_all(sink, response.as_slice()) {
        Ok(()) => {
            gate.pass(worker, Point::Answered);
            None
        }
        Err(Failed) => Some(ServedEnd::WriteFault),
    }
}

/// How a connection ended by itself.
pub(crate) fn ended_so(end: EndKind) -> ServedEnd
    ensures { result ≡ ended_so end }
{
    match end {
        EndKind::Closed => ServedEnd::Closed,
        EndKind::Cut => ServedEnd::Cut,
        EndKind::Refused(why) => ServedEnd::Refused(why),
        EndKind::OutOfMemory => ServedEnd::OutOfMemory,
    }
}

/// How a connection ends behind an item of a request that found the container stopped: its response closed it, or no
/// further request is taken.
fn stopped_so<P>(stage: &Stage<P>) -> ServedEnd
    ensures { result ≡ stopped_so stage.now }
{
    match stage {
        Stage::Over(end) => ended_so(*end),
        Stage::Resting => ServedEnd::Stopped,
        Stage::Serving(_, _) => ServedEnd::Stopped,
        Stage::Refusing(_, _) => ServedEnd::Stopped,
    }
}

/// Takes the item of the request.
pub(crate) fn take_item<B: Outset, L: Link, C: Clock, R: Random>(
    connection: &mut Connection,
) -> Option<ServedEnd>
    requires { turn connection.old.shepherd ≡ ShepherdTurn.Item }
    ensures { (now : Stand) → KeepsServing L.makes R.gives B.service B.begun
        now connection.old
        → ComesTo L.makes R.gives B.service B.begun result now connection.new }
{
    connections_are_served_from_their_begin::<
        ActionProgram,
        L,
        SiteMaker,
        C,
        R,
        SeatSerials<'static, Brand>,
    >();
    connections_come_to_rest::<ActionProgram>();
    connections_stop_where_memory_is_wanted::<
        ActionProgram,
        L,
        SiteMaker,
        C,
        R,
        SeatSerials<'static, Brand>,
    >();
    items_are_for_requests_in_order::<ActionProgram>();
    match connection.reserve() {
        Ok(()) => {}
        Err(OutOfMemory) => return Some(ServedEnd::OutOfMemory),
    }
    connection.add_item();
    if connection.stopped {
        Some(stopped_so(&connection.shepherd.stage))
    } else {
        None
    }
}
