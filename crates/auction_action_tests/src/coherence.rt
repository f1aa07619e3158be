//! Whether rows are coherent, by plain code of its own.

use crate::driver::row_at;
use crate::shop::SHOP;
use crate::tables::{change, rows_of};
use crate::words::expect_so;
use auction_rows::{AuctionRow, BidRow, CounterRow, ItemRow, TableRow, decode_row};
use crash_base::{RowId, RowWrite};
use std::alloc::Global;
use std::process::Abort;

/// How many keys the bids of an item have.
const BID_KEYS: u64 = 1_048_576;

/// A bid, with the item and the number in its key.
#[derive(Clone, Copy)]
struct PlacedBid {
    item: u64,
    number: u64,
    bidder: u32,
    amount: u64,
}

fn placed_bid(id: RowId, bid: &BidRow) -> PlacedBid {
    PlacedBid {
        item: id.key / BID_KEYS,
        number: id.key % BID_KEYS,
        bidder: bid.bidder,
        amount: bid.amount,
    }
}

fn push_bid(rt: &impl Abort, alloc: Global, bids: &mut Vec<PlacedBid>, row: &RowWrite) {
    let found = BidRow::decode(alloc, row.bytes.as_slice()).expect(rt, "a bid");
    if let Some(bid) = found {
        bids.push(placed_bid(row.id, &bid)).expect(rt, "a bid");
    }
}

/// All bids, in order of key.
fn bids_in(rt: &impl Abort, alloc: Global, rows: &[RowWrite]) -> Vec<PlacedBid> {
    let mut bids = Vec::new(alloc);
    for row in rows {
        if row.id.table == 6 {
            push_bid(rt, alloc, &mut bids, row);
        }
    }
    bids
}

/// The bids on an item, in order of number.
fn bids_on(rt: &impl Abort, alloc: Global, bids: &[PlacedBid], item: u64) -> Vec<PlacedBid> {
    let mut own = Vec::new(alloc);
    for bid in bids {
        if bid.item == item {
            own.push(*bid).expect(rt, "a bid");
        }
    }
    own
}

/// Whether bids are numbered from 1 on.
fn are_numbered(bids: &[PlacedBid]) -> bool {
    bids.iter().enumerate().all(|(place, bid)| bid.number.checked_sub(1) == Some(place as u64))
}

/// How many bids have this amount.
fn count_of(bids: &[PlacedBid], amount: u64) -> usize {
    bids.iter().filter(|bid| bid.amount == amount).count()
}

/// Whether no two bids have the same amount.
fn amounts_differ(bids: &[PlacedBid]) -> bool {
    bids.iter().all(|bid| count_of(bids, bid.amount) == 1)
}

/// The amount and the bidder of the greatest bid, or 0 and 0.
fn greatest(bids: &[PlacedBid]) -> (u64, u32) {
    let mut best = (0, 0);
    for bid in bids {
        if bid.amount > best.0 {
            best = (bid.amount, bid.bidder);
        }
    }
    best
}

/// Whether an item's row tells of just these bids.
fn tells_bids(item: &ItemRow, bids: &[PlacedBid]) -> bool {
    let (amount, bidder) = greatest(bids);
    item.bids as usize == bids.len()
        && are_numbered(bids)
        && amounts_differ(bids)
        && item.best == amount
        && item.best_bidder == bidder
}

fn count_in(rt: &impl Abort, alloc: Global, row: &RowWrite) -> u64 {
    let found = CounterRow::decode(alloc, row.bytes.as_slice()).expect(rt, "a counter");
    found.expect(rt, "a counter").count
}

/// The number of items that the counter tells.
pub fn last_item(rt: &impl Abort, alloc: Global, rows: &[RowWrite]) -> u64 {
    match row_at(rows, RowId { table: 3, key: 2 }) {
        None => 0,
        Some(row) => count_in(rt, alloc, row),
    }
}

/// Whether a row is decoded, and tells of its bids where it is an item's.
fn is_row_coherent(
    rt: &impl Abort,
    alloc: Global,
    bids: &[PlacedBid],
    last: u64,
    row: &RowWrite,
) -> bool {
    match decode_row(alloc, row.id.table, row.bytes.as_slice()).expect(rt, "a row") {
        None => false,
        Some(AuctionRow::Item(item)) => {
            let own = bids_on(rt, alloc, bids, row.id.key);
            row.id.key <= last && tells_bids(&item, &own)
        }
        Some(_) => true,
    }
}

/// Whether the item of a bid has a row, and a number up to the last.
fn has_item(rows: &[RowWrite], bid: PlacedBid, last: u64) -> bool {
    let id = RowId {
        table: 4,
        key: bid.item,
    };
    bid.item <= last && row_at(rows, id).is_some()
}

/// Whether rows are coherent: each is decoded; the bids of each item are numbered from 1 to as many as it has, with
/// amounts that differ, and its best is the greatest of them, or 0; and no item or bid is of a number over the counter.
pub fn are_coherent(rt: &impl Abort, alloc: Global, rows: &[RowWrite]) -> bool {
    let last = last_item(rt, alloc, rows);
    let bids = bids_in(rt, alloc, rows);
    let mut coherent = bids.iter().all(|bid| has_item(rows, *bid, last));
    for row in rows {
        coherent = coherent && is_row_coherent(rt, alloc, &bids, last, row);
    }
    coherent
}

/// Changes of the small shop, after each of which its rows are not coherent.
const BROKEN: &str = "\
with 4.2 item running 2 1 100 500 251 3 2 5000 0 none Novel
with 4.2 item running 2 1 100 500 120 4 2 5000 0 none Novel
with 4.2 item running 2 1 100 500 250 4 2 5000 0 none Novel
with 4.2 item running 2 1 100 500 250 3 1 5000 0 none Novel
with 4.2 item running 2 1 100 500 250 3 3 5000 0 none Novel
with 4.1 item running 2 1 100 500 100 3 0 5000 0 none Atlas
with 4.8 item running 2 1 100 500 0 0 0 5000 0 none Globe
with 3.2 counter 6
with 6.1048577 bid 4 100 400
with 6.2097153 bid 4 250 400
with 6.2097155 bid 4 240 700
with 6.2097156 bid 4 260 700
with 6.8388609 bid 4 100 400
with 1.1 bytes 00
with 6.2097154 bytes 00
gone 6.2097153
gone 6.2097154
gone 4.6
gone 3.2";

fn is_broken(rt: &impl Abort, alloc: Global, line: &str) -> bool {
    let mut rows = rows_of(rt, alloc, SHOP);
    change(rt, alloc, &mut rows, line);
    !are_coherent(rt, alloc, &rows)
}

#[test]
fn coherence_is_told(rt: HostRuntime) {
    let rows = rows_of(&rt, rt.alloc(), SHOP);
    expect_so(&rt, are_coherent(&rt, rt.alloc(), &rows), "the shop");
    for line in BROKEN.split('\n') {
        expect_so(&rt, is_broken(&rt, rt.alloc(), line), line);
    }
}
