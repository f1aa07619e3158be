//! Two threads that serve bids on one item at once.

ghost use Rattle.std.specs.Prelude.{◌≡◌};
ghost use Rattle.connection_server.specs.Seats.{AreSeatsOf, ids_of};
ghost use Rattle.serving_tests.specs.Site.{BeginsSite, IsBack};
ghost use denote.Param.Send.{IsSync};

use crate::browser::Client;
use crate::play::ask;
use crate::shop::{Ask, OFFER, expect_page, expect_pages};
use crate::site::{open, split};
use crate::visitor::Visitor;
use auction_rows::{AuctionRow, BID_TABLE, decode_row};
use connection_server::{Shared, WorkerSeat};
use crash_base::RowWrite;
use outside::MapKeeper;
use std::alloc::Global;
use std::process::Abort;
use std::sync::Wait;
use std::thread::{Threads, join};

/// How often each thread bids.
const BIDS: u64 = 1000;

/// The client of each thread registers.
const JOINS: [[Ask; 2]; 2] = [
    [
        ("cat", "/form/register", "", "Form register"),
        ("cat", "/register", "name=cat&password=pw3", "Welcome cat"),
    ],
    [
        ("dan", "/form/register", "", "Form register"),
        ("dan", "/register", "name=dan&password=pw4", "Welcome dan"),
    ],
];

/// The form before each bid.
const FORM: Ask = ("cat", "/form/bid", "", "Form bid");

/// Whether a response is one to a bid that another thread came before: it is too low, or each of its tries was in
/// conflict.
fn is_outbid(response: &str) -> bool {
    response.contains("<h1>Bid too low</h1>") || response.starts_with("HTTP/1.1 503 ")
}

/// A client bids often, always more. The amounts that it was told to have bid.
fn bid_often<R: Wait + Abort>(
    rt: &R,
    alloc: Global,
    visitor: &mut Visitor<'_>,
    client: &mut Client,
    first: u64,
) -> Vec<u64>
    ensures there { visitor.new.shared.now ≡ visitor.old.shared.now }
{
    let mut made = Vec::new(alloc);
    for at in 0..BIDS {
        expect_page(rt, alloc, visitor, client, &FORM, 1000);
        let amount = first.wrapping_add(2 * at);
        let fields = format!(in alloc; "item=1&amount={amount}").expect(rt, "a bid");
        let request = client.post(rt, alloc, "/bid", &fields);
        let (response, _) = ask(rt, alloc, visitor, client, &request, 1000);
        if response.starts_with("HTTP/1.1 200 OK\r\n") {
            made.push(amount).expect(rt, "an amount");
        } else {
            assert!(rt; is_outbid(&response));
        }
    }
    made
}

/// What a thread gives back: its seats, how many parts of the container's lock they have, and the amounts that its
/// client was told to have bid.
type Given = (WorkerSeat<MapKeeper>, u32, Vec<u64>);

/// A thread serves a client that registers and bids.
fn serve_bids<R: Wait + Abort>(
    rt: &R,
    alloc: Global,
    shared: &Shared<MapKeeper>,
    seat: WorkerSeat<MapKeeper>,
    joins: &[Ask; 2],
    first: u64,
) -> Given
    requires parts { seat.container.parts ≡ 1 }
    requires seats { AreSeatsOf (ids_of shared.now.container shared.now.windows shared.now.words shared.now.reports)
        seat.container seat.windows seat.words seat.pass }
    requires site { BeginsSite shared.now.home seat.container.seen }
    ensures { IsBack shared.now.container.id result.1 result.0.container }
{
    let random = first.wrapping_mul(1_000_000);
    let mut visitor = Visitor::new(alloc, shared, seat, 1, random).expect(rt, "who serves");
    let mut client = Client::new(alloc);
    expect_page(rt, alloc, &mut visitor, &mut client, &joins[0], 1000);
    expect_page(rt, alloc, &mut visitor, &mut client, &joins[1], 1000);
    let made = bid_often(rt, alloc, &mut visitor, &mut client, first);
    let (seat, parts) = visitor.into_seat();
    (seat, parts, made)
}

/// Two threads at once.
fn serve_both<R: Threads + Wait + Abort + Sync>(
    rt: &R,
    alloc: Global,
    shared: &Shared<MapKeeper>,
    seat: WorkerSeat<MapKeeper>,
    other: WorkerSeat<MapKeeper>,
) -> (Given, Given)
    requires parts { (seat.container.parts ≡ 1) × (other.container.parts ≡ 1) }
    requires seats { AreSeatsOf (ids_of shared.now.container shared.now.windows shared.now.words shared.now.reports)
        seat.container seat.windows seat.words seat.pass }
    requires others { AreSeatsOf (ids_of shared.now.container shared.now.windows shared.now.words shared.now.reports)
        other.container other.windows other.words other.pass }
    requires site { BeginsSite shared.now.home seat.container.seen × BeginsSite shared.now.home other.container.seen }
    ensures one { IsBack shared.now.container.id result.0.1 result.0.0.container }
    ensures other { IsBack shared.now.container.id result.1.1 result.1.0.container }
{
    let (one, two) = join(
        rt,
        move || -> Given
            requires sync { IsSync R.row }
            requires parts { seat.container.parts ≡ 1 }
            requires seats { AreSeatsOf (ids_of shared.now.container shared.now.windows shared.now.words shared.now.reports)
                seat.container seat.windows seat.words seat.pass }
            requires site { BeginsSite shared.now.home seat.container.seen }
            ensures { IsBack shared.entry.now.container.id result.1 result.0.container }
        { serve_bids(rt, alloc, shared, seat, &JOINS[0], 1_000) },
        move || -> Given
            requires sync { IsSync R.row }
            requires parts { other.container.parts ≡ 1 }
            requires seats { AreSeatsOf (ids_of shared.now.container shared.now.windows shared.now.words shared.now.reports)
                other.container other.windows other.words other.pass }
            requires site { BeginsSite shared.now.home other.container.seen }
            ensures { IsBack shared.entry.now.container.id result.1 result.0.container }
        { serve_bids(rt, alloc, shared, other, &JOINS[1], 1_001) },
    );
    (one, two)
}

/// The amounts of the bids in these rows, in their order.
fn amounts_in(rt: &impl Abort, alloc: Global, rows: &[RowWrite]) -> Vec<u64> {
    let mut amounts = Vec::new(alloc);
    for row in rows {
        if row.id.table == BID_TABLE {
            match decode_row(alloc, BID_TABLE, row.bytes.as_slice()).expect(rt, "memory") {
                Some(AuctionRow::Bid(bid)) => amounts.push(bid.amount).expect(rt, "an amount"),
                _ => panic!(rt; "a row of bids"),
            }
        }
    }
    amounts
}

/// Whether each number is greater than the one before.
fn rise(numbers: &[u64]) -> bool {
    numbers.is_sorted_by(|a, b| a < b)
}

#[test]
fn each_acknowledged_bid_is_in_the_rows_once(rt: HostRuntime) {
    let alloc = rt.alloc();
    let (shared, mut seat, pass) = open(alloc).expect(&rt, "a site");
    let other = split(&shared, &mut seat, pass);
    let mut visitor = Visitor::new(alloc, &shared, seat, 1, 1).expect(&rt, "who serves");
    let mut ann = Client::new(alloc);
    let mut ben = Client::new(alloc);
    expect_pages(&rt, alloc, &mut visitor, &mut ann, &mut ben, &OFFER, 0);
    let (seat, parts) = visitor.into_seat();
    assert!(rt; parts == 1);
    let (first, second) = serve_both(&rt, alloc, &shared, seat, other);
    let (mut seat, parts, made) = first;
    let (other, other_parts, more) = second;
    assert!(rt; parts == 1);
    assert!(rt; other_parts == 1);
    shared.container.join(&mut seat.container, other.container);
    let container = shared.container.close(seat.container);
    let rows = container.into_keeper().rows(alloc).expect(&rt, "the rows");
    let amounts = amounts_in(&rt, alloc, rows.as_slice());
    assert!(rt; rise(&amounts));
    assert!(rt; rise(&made));
    assert!(rt; rise(&more));
    assert!(rt; amounts.len() == made.len() + more.len());
    assert!(rt; !amounts.is_empty());
    for amount in made.iter() {
        assert!(rt; amounts.contains(amount));
    }
    for amount in more.iter() {
        assert!(rt; amounts.contains(amount));
    }
}
