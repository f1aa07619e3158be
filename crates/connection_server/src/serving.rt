//! A connection, from its first byte to its end.

ghost use Rattle.std.specs.Prelude.{◌≡◌, ◌++◌, [], false, IfOk, MatchOption, None, Some, option_to_list};
ghost use Rattle.crash_base.specs.declared.numbers.Place.{Place as PlaceValue};
ghost use Rattle.outside.specs.Link.{Tally};
ghost use Rattle.shepherd.specs.Standing.{last_front};
ghost use Rattle.connection_server.specs.Ending.{HasServedConnection, HasServedItems};
ghost use Rattle.connection_server.specs.Seats.{AreSeatsOf, IsOfSite, ids_of};
ghost use Rattle.connection_server.specs.Serving.{ComesTo, Ends, KeepsServing, service_of};
ghost use Rattle.connection_server.specs.Stands.{HasCalled, HasGiven, Stand, stand_of};

use crate::connection::Connection;
use crate::outset::Outset;
use crate::points::{NoPoints, Points};
use crate::served::{Served, ServedEnd};
use crate::shared::{Shared, WorkerSeat};
use crate::steps::{
    advance, call_container, call_link, call_windows, ended_so, make_program, put_out, read,
    take_item, take_request,
};
use auction_actions::ActionProgram;
use crash_base::{Items, OutOfMemory, Place, WorkerNo};
use outcome_items::{Item, ItemList};
use outside::{Clock, Keeper, Link, Random, Sink, Source};
use report_queue::ReportPass;
use seat_serials::SeatSerials;
use served_connections::{
    connections_are_served_from_their_begin, connections_come_to_rest,
    connections_stop_where_memory_is_wanted, courses_tell_what_was_served,
};
use shared_words::WordSeat;
use shepherd::ShepherdTurn;
use site_locks::{ContainerSeat, WindowsSeat};
use site_programs::SiteMaker;
use std::alloc::Global;
use std::marker::Brand;
use std::sync::Wait;

/// Makes one turn of a connection. How it came to an end, where it did.
fn turn_once<
    B: Outset,
    W: Wait,
    K: Keeper + Drop,
    S: Source,
    T: Sink,
    L: Link,
    C: Clock,
    R: Random,
    G: Points,
>(
    rt: &W,
    alloc: Global,
    shared: &Shared<K>,
    worker: WorkerNo,
    container: &mut ContainerSeat<K>,
    windows: &mut WindowsSeat,
    words: &mut WordSeat,
    pass: &mut ReportPass,
    source: &mut S,
    sink: &mut T,
    link: &mut L,
    clock: &mut C,
    random: &mut R,
    gate: &G,
    connection: &mut Connection,
) -> Option<ServedEnd>
    requires service { B.service ≡ service_of shared.now.key shared.now.home }
    requires seats { AreSeatsOf (ids_of shared.now.container shared.now.windows shared.now.words shared.now.reports)
        container.old windows.old words.old pass.old }
    requires serving { (from : L) × (first : R) × HasCalled L.makes from link.old (λ heard.
        HasGiven R.gives first random.old None (λ given. KeepsServing L.makes R.gives B.service B.begun
        (record (stand_of container.old windows.old words.old (S.left source.old) (S.faults source.old)
        (T.written sink.old) (T.faults sink.old) (L.tally link.old) (C.told clock.old))
        { heard = heard; given = given }) connection.old)) }
    ensures seats { AreSeatsOf (ids_of shared.now.container shared.now.windows shared.now.words shared.now.reports)
        container.new windows.new words.new pass.new }
    ensures comes { (from : L) (first : R)
        → HasCalled L.makes from link.old (λ heard.
        HasGiven R.gives first random.old None (λ given. KeepsServing L.makes R.gives B.service B.begun
        (record (stand_of container.old windows.old words.old (S.left source.old) (S.faults source.old)
        (T.written sink.old) (T.faults sink.old) (L.tally link.old) (C.told clock.old))
        { heard = heard; given = given }) connection.old))
        → HasCalled L.makes from link.new (λ heard.
        HasGiven R.gives first random.new result (λ given. ComesTo L.makes R.gives B.service B.begun result
        (record (stand_of container.new windows.new words.new (S.left source.new) (S.faults source.new)
        (T.written sink.new) (T.faults sink.new) (L.tally link.new) (C.told clock.new))
        { heard = heard; given = given }) connection.new)) }
{
    match connection.shepherd.turn() {
        ShepherdTurn::Bytes => read::<B, S, L, C, R>(alloc, connection, source),
        ShepherdTurn::Request => take_request::<B, K, L, C, R>(
            alloc, shared, connection, words, link, clock, random,
        ),
        ShepherdTurn::Outside => call_link::<B, L, C, R>(alloc, connection, link),
        ShepherdTurn::Windows => {
            call_windows::<B, W, L, C, R>(rt, alloc, &shared.windows, windows, connection)
        }
        ShepherdTurn::Inside => call_container::<B, K, W, G, L, C, R>(
            rt,
            alloc,
            worker,
            gate,
            &shared.container,
            &shared.reports,
            container,
            pass,
            connection,
        ),
        ShepherdTurn::Program => make_program::<B, L, C, R>(alloc, worker, connection),
        ShepherdTurn::Own => advance::<B, K, L, C, R>(alloc, shared, connection),
        ShepherdTurn::Output => { put_out::<B, T, G, L, C, R>(worker, gate, connection, sink) }
        ShepherdTurn::Item => take_item::<B, L, C, R>(connection),
        ShepherdTurn::Ended(end) => Some(ended_so(end)),
    }
}

/// Turns until the end.
fn turn_all<
    B: Outset,
    W: Wait,
    K: Keeper + Drop,
    S: Source,
    T: Sink,
    L: Link,
    C: Clock,
    R: Random,
    G: Points,
>(
    rt: &W,
    alloc: Global,
    shared: &Shared<K>,
    worker: WorkerNo,
    container: &mut ContainerSeat<K>,
    windows: &mut WindowsSeat,
    words: &mut WordSeat,
    pass: &mut ReportPass,
    source: &mut S,
    sink: &mut T,
    link: &mut L,
    clock: &mut C,
    random: &mut R,
    gate: &G,
    connection: &mut Connection,
) -> ServedEnd
    requires service { B.service ≡ service_of shared.now.key shared.now.home }
    requires seats { AreSeatsOf (ids_of shared.now.container shared.now.windows shared.now.words shared.now.reports)
        container.old windows.old words.old pass.old }
    requires serving { KeepsServing L.makes R.gives B.service B.begun
        (stand_of container.old windows.old words.old (S.left source.old) (S.faults source.old)
        (T.written sink.old) (T.faults sink.old) (L.tally link.old) (C.told clock.old)) connection.old }
    ensures seats { AreSeatsOf (ids_of shared.now.container shared.now.windows shared.now.words shared.now.reports)
        container.new windows.new words.new pass.new }
    ensures ends { HasCalled L.makes link.old link.new (λ heard.
        HasGiven R.gives random.old random.new (Some result) (λ given. Ends L.makes R.gives B.service B.begun result
        (record (stand_of container.new windows.new words.new (S.left source.new) (S.faults source.new)
        (T.written sink.new) (T.faults sink.new) (L.tally link.new) (C.told clock.new))
        { heard = heard; given = given }) connection.new)) }
{
    for _ in rt.forever() {
        if let Some(end) = turn_once::<B, W, K, S, T, L, C, R, G>(
            rt, alloc, shared, worker, container, windows, words, pass, source, sink, link, clock,
            random, gate, connection,
        ) {
            return end;
        }
    }
    unreachable!()
}

/// Gives up the call and the passes that a connection holds, in a hold each, and takes the item that is left, if any.
fn leave<B: Outset, W: Wait, K: Keeper + Drop, L: Link, C: Clock, R: Random>(
    rt: &W,
    shared: &Shared<K>,
    container: &mut ContainerSeat<K>,
    windows: &mut WindowsSeat,
    mut connection: Connection,
    end: ServedEnd,
) -> ItemList
    requires container { (container.old.lock ≡ shared.now.container.id) × (container.old.holds ≡ false) }
    requires windows { (windows.old.lock ≡ shared.now.windows.id) × (windows.old.holds ≡ false) }
    ensures container { (container.new.lock ≡ shared.now.container.id) × (container.new.holds ≡ false) }
    ensures windows { (windows.new.lock ≡ shared.now.windows.id) × (windows.new.holds ≡ false) }
    ensures served { (rest : Stand) → Ends L.makes R.gives B.service B.begun
        end (record rest { container = container.old; windows = windows.old }) connection
        → HasServedItems L.makes R.gives B.service B.begun
        (record rest { container = container.new; windows = windows.new }) result end
        × IsOfSite B.service.home container.new.seen }
{
    let _ = end;
    connections_are_served_from_their_begin::<
        ActionProgram,
        L,
        SiteMaker,
        C,
        R,
        SeatSerials<'static, Brand>,
    >();
    connections_come_to_rest::<ActionProgram>();
    connections_stop_where_memory_is_wanted::<
        ActionProgram,
        L,
        SiteMaker,
        C,
        R,
        SeatSerials<'static, Brand>,
    >();
    courses_tell_what_was_served::<ActionProgram, L, SiteMaker, R, SeatSerials<'static, Brand>>();
    shared
        .container
        .drop_call(rt, container, &mut connection.shepherd);
    shared
        .windows
        .drop_passes(rt, windows, &mut connection.shepherd);
    connection.into_items()
}

/// The front of the last of these items; 0 where there is none. It visits each once.
fn last_front(items: &[Item]) -> Place
    ensures { result ≡ last_front (record { 0 = 0 }) items.now }
{
    let mut front = Place(0);
    let mut rest = items;
    while let [first, after @ ..] = rest {
        front = first.holds.front;
        rest = after;
    }
    front
}

/// What was served where a connection could not begin, for want of memory.
fn unbegun(alloc: Global) -> Served
    ensures { result ≡ record {
      items = [];
      front = record { 0 = 0 };
      ended = ServedEnd.OutOfMemory;
    } }
{
    Served {
        items: Items::new(alloc),
        front: Place(0),
        ended: ServedEnd::OutOfMemory,
    }
}

/// Serves a connection, with what the call began with, and tells what was served.
fn serve_with<
    B: Outset,
    W: Wait,
    K: Keeper + Drop,
    S: Source,
    T: Sink,
    L: Link,
    C: Clock,
    R: Random,
    G: Points,
>(
    rt: &W,
    alloc: Global,
    shared: &Shared<K>,
    worker: WorkerNo,
    container: &mut ContainerSeat<K>,
    windows: &mut WindowsSeat,
    words: &mut WordSeat,
    pass: &mut ReportPass,
    source: &mut S,
    sink: &mut T,
    link: &mut L,
    clock: &mut C,
    random: &mut R,
    gate: &G,
) -> Served
    requires service { B.service ≡ service_of shared.now.key shared.now.home }
    requires begun { B.begun ≡ stand_of container.old windows.old words.old (S.left source.old) (S.faults source.old)
        (T.written sink.old) (T.faults sink.old) (L.tally link.old) (C.told clock.old) }
    requires seats { AreSeatsOf (ids_of shared.now.container shared.now.windows shared.now.words shared.now.reports)
        container.old windows.old words.old pass.old }
    requires site { IsOfSite shared.now.home container.old.seen }
    ensures seats { AreSeatsOf (ids_of shared.now.container shared.now.windows shared.now.words shared.now.reports)
        container.new windows.new words.new pass.new }
    ensures site { IsOfSite shared.now.home container.new.seen }
    ensures served { HasServedConnection L.makes link.old link.new R.gives random.old random.new B.service B.begun
        (stand_of container.new windows.new words.new (S.left source.new) (S.faults source.new) (T.written sink.new)
        (T.faults sink.new) (L.tally link.new) (C.told clock.new)) result }
{
    connections_are_served_from_their_begin::<
        ActionProgram,
        L,
        SiteMaker,
        C,
        R,
        SeatSerials<'static, Brand>,
    >();
    courses_tell_what_was_served::<ActionProgram, L, SiteMaker, R, SeatSerials<'static, Brand>>();
    let mut connection = match Connection::new(alloc) {
        Ok(connection) => connection,
        Err(OutOfMemory) => return unbegun(alloc),
    };
    let ended = turn_all::<B, W, K, S, T, L, C, R, G>(
        rt,
        alloc,
        shared,
        worker,
        container,
        windows,
        words,
        pass,
        source,
        sink,
        link,
        clock,
        random,
        gate,
        &mut connection,
    );
    let items = leave::<B, W, K, L, C, R>(rt, shared, container, windows, connection, ended);
    let front = last_front(items.as_slice());
    Served {
        items,
        front,
        ended,
    }
}

/// Serves a connection to its end, and tells what was served over it. At each point the gate is told of it.
///
/// Whatever other threads do meanwhile in the container, in the windows and with the words: the items are for the first
/// requests of the bytes, in order, each once, and each tells what was served of its own request, by its own call, as
/// the user of its own session, at its own moment and under its own number. What was put out are the responses to them.
/// The events that the seat added to the history of the container, and the marks that it added to that of the windows,
/// are those that the items tell of. No item is older than what the seat had seen, or than the item before.
/// `HasServedConnection` says it, with how the call ended.
///
/// It takes each lock for one step at a time: the windows for one take or one spend of passes, the container for one
/// step of a request or one commit. It holds none while it reads, writes, asks a brick or passes a point. At the end,
/// in every case, it gives up the call and the passes that it holds, in one hold each.
///
/// A hold of the windows goes over the bricks, at most 16. A hold of the container goes over the answers that the
/// request has got so far, to find what it asks for next, and copies the row or goes over the table that it reads; one
/// with a commit copies the rows that the call wrote, and lasts as long as the keeper takes.
///
/// It returns only if its holds do, and what it is given to read, to write and to ask.
pub fn serve_gated<
    W: Wait,
    K: Keeper + Drop,
    S: Source,
    T: Sink,
    L: Link,
    C: Clock,
    R: Random,
    G: Points,
>(
    rt: &W,
    alloc: Global,
    seat: &mut WorkerSeat<K>,
    shared: &Shared<K>,
    source: &mut S,
    sink: &mut T,
    link: &mut L,
    clock: &mut C,
    random: &mut R,
    gate: &G,
) -> Served
    requires seats { AreSeatsOf (ids_of shared.now.container shared.now.windows shared.now.words shared.now.reports)
        seat.old.container seat.old.windows seat.old.words seat.old.pass }
    requires site { IsOfSite shared.now.home seat.old.container.seen }
    ensures worker { seat.new.worker ≡ seat.old.worker }
    ensures seats { AreSeatsOf (ids_of shared.now.container shared.now.windows shared.now.words shared.now.reports)
        seat.new.container seat.new.windows seat.new.words seat.new.pass }
    ensures site { IsOfSite shared.now.home seat.new.container.seen }
    ensures served { HasServedConnection L.makes link.old link.new R.gives random.old random.new
        (service_of shared.now.key shared.now.home)
        (stand_of seat.old.container seat.old.windows seat.old.words (S.left source.old) (S.faults source.old)
        (T.written sink.old) (T.faults sink.old) (L.tally link.old) (C.told clock.old))
        (stand_of seat.new.container seat.new.windows seat.new.words (S.left source.new) (S.faults source.new)
        (T.written sink.new) (T.faults sink.new) (L.tally link.new) (C.told clock.new)) result }
{
    let worker = seat.worker;
    serve_with::<Brand, W, K, S, T, L, C, R, G>(
        rt,
        alloc,
        shared,
        worker,
        &mut seat.container,
        &mut seat.windows,
        &mut seat.words,
        &mut seat.pass,
        source,
        sink,
        link,
        clock,
        random,
        gate,
    )
}

/// Serves a connection to its end, as `serve_gated` says, and waits at no point.
pub fn serve_connection<
    W: Wait,
    K: Keeper + Drop,
    S: Source,
    T: Sink,
    L: Link,
    C: Clock,
    R: Random,
>(
    rt: &W,
    alloc: Global,
    seat: &mut WorkerSeat<K>,
    shared: &Shared<K>,
    source: &mut S,
    sink: &mut T,
    link: &mut L,
    clock: &mut C,
    random: &mut R,
) -> Served
    requires seats { AreSeatsOf (ids_of shared.now.container shared.now.windows shared.now.words shared.now.reports)
        seat.old.container seat.old.windows seat.old.words seat.old.pass }
    requires site { IsOfSite shared.now.home seat.old.container.seen }
    ensures worker { seat.new.worker ≡ seat.old.worker }
    ensures seats { AreSeatsOf (ids_of shared.now.container shared.now.windows shared.now.words shared.now.reports)
        seat.new.container seat.new.windows seat.new.words seat.new.pass }
    ensures site { IsOfSite shared.now.home seat.new.container.seen }
    ensures served { HasServedConnection L.makes link.old link.new R.gives random.old random.new
        (service_of shared.now.key shared.now.home)
        (stand_of seat.old.container seat.old.windows seat.old.words (S.left source.old) (S.faults source.old)
        (T.written sink.old) (T.faults sink.old) (L.tally link.old) (C.told clock.old))
        (stand_of seat.new.container seat.new.windows seat.new.words (S.left source.new) (S.faults source.new)
        (T.written sink.new) (T.faults sink.new) (L.tally link.new) (C.told clock.new)) result }
{
    serve_gated(
        rt, alloc, seat, shared, source, sink, link, clock, random, &NoPoints,
    )
}
