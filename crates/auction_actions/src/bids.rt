//! Bids.

ghost use Rattle.std.specs.Prelude.{◌≡◌, ◌<◌, ◌+◌, nat_le, ◌++◌, [], true, codes, IfOk};
ghost use Rattle.std.specs.Fmt.{decimal};
ghost use Rattle.action_plans.specs.Plans.{HasCome, walk};
ghost use Rattle.auction_rows.specs.Bounds.{is_item};
ghost use Rattle.auction_site.specs.Answers.{shows};
ghost use Rattle.auction_site.specs.Outcomes.{bid_made, with_bid};
ghost use Rattle.auction_site.specs.Planned.{bid_plan};
ghost use Rattle.auction_site.specs.declared.limits.TheConstants.{LAST_BID};

use action_plans::{Outcome, Reads, Stop};
use auction_pieces::{asks_row, refuses_by, refuses_if, says, write_row};
use auction_rows::{BidRow, ItemRow, bid_id, item_id};
use auction_rules::bid_refusal;
use auction_site::LAST_BID;
use crash_base::{Moment, OutOfMemory, WriteList};
use journal_model::DoneText;
use std::alloc::Global;
use std::fmt::Write;

/// The most bytes of the answer to a bid, in which two numbers have ten digits each at most.
const ANSWER_BYTES: usize = 33;

/// The item after a bid.
fn with_bid(mut item: ItemRow, bidder: u32, amount: u64) -> ItemRow
    requires { item.bids < LAST_BID }
    ensures { result ≡ with_bid item bidder amount }
{
    item.best = amount;
    item.best_bidder = bidder;
    item.bids += 1;
    item
}

/// Whether an item has had its last bid.
fn has_last_bid(item: &ItemRow) -> bool
    ensures { result ≡ nat_le LAST_BID item.now.bids }
{
    u64::from(item.bids) >= LAST_BID
}

/// The answer to a bid.
fn bid_done(alloc: Global, n: u32, number: u32) -> Result<DoneText, OutOfMemory>
    ensures { IfOk result (λ done. done
        ≡ shows 200 (codes "Bid " ++ decimal n ++ codes " on item " ++ decimal number) []) }
{
    let mut heading = String::with_capacity(alloc, ANSWER_BYTES)?;
    write!(heading, "Bid {n} on item {number}")?;
    says(alloc, 200, heading.as_bytes())
}

/// The next bid on the item, which is its best one.
#[tactic(auto, using(auction_site::proofs::Bounds::with_bid_is, auction_rows::proofs::Sizes::bid_few), unfolding(auction_site::specs::Outcomes::bid_made))]
fn bid_made(
    alloc: Global,
    bidder: u32,
    now: Moment,
    number: u32,
    amount: u64,
    item: ItemRow,
) -> Result<Outcome, OutOfMemory>
    requires within { is_item item ≡ true }
    requires room { item.bids < LAST_BID }
    ensures { IfOk result (λ outcome. outcome ≡ bid_made bidder now.0 number amount item) }
{
    let item = with_bid(item, bidder, amount);
    let bid = BidRow {
        bidder,
        amount,
        moment: now,
    };
    let mut writes = WriteList::new(alloc);
    write_row(alloc, &mut writes, bid_id(number, item.bids), &bid)?;
    write_row(alloc, &mut writes, item_id(number), &item)?;
    let done = bid_done(alloc, item.bids, number)?;
    Ok(Outcome { writes, done })
}

/// A bid on an item: as far as these reads bring it. It reads one row, and writes two.
#[tactic(auto, unfolding(auction_site::specs::Planned::bid_plan))]
pub fn bid(
    alloc: Global,
    user: u32,
    now: Moment,
    number: u32,
    amount: u64,
    reads: &mut Reads<'_>,
) -> Result<Outcome, Stop>
    ensures { HasCome result reads.new (walk (bid_plan user now.0 number amount) reads.old) }
{
    refuses_if(alloc, user == 0, 403, b"Sign in first")?;
    let item = asks_row::<ItemRow>(alloc, reads, item_id(number))?;
    refuses_by(alloc, bid_refusal(&item, user, amount, now))?;
    refuses_if(alloc, has_last_bid(&item), 409, b"No more numbers")?;
    let outcome = bid_made(alloc, user, now, number, amount, item)?;
    Ok(outcome)
}
