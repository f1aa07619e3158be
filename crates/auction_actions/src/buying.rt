//! Sales at once, and auctions that their sellers end.

ghost use Rattle.std.specs.Prelude.{◌≡◌, ◌∷◌, [], true, IfOk};
ghost use Rattle.action_plans.specs.Plans.{HasCome, walk};
ghost use Rattle.auction_rows.specs.Bounds.{is_item};
ghost use Rattle.auction_rows.specs.Ids.{item_id};
ghost use Rattle.auction_rows.specs.Spelling.{item_bytes};
ghost use Rattle.auction_site.specs.Outcomes.{row, sold_to, after_close, bought, closed};
ghost use Rattle.auction_site.specs.Planned.{buy_plan, close_plan};

use action_plans::{Outcome, Reads, Stop};
use auction_pieces::{asks_row, refuses_by, refuses_if, says_number, write_row};
use auction_rows::{ItemRow, ItemState, item_id};
use auction_rules::{buy_refusal, close_refusal};
use crash_base::{Moment, OutOfMemory, WriteList};
use std::alloc::Global;

/// The item sold to a buyer.
fn sold_to(mut item: ItemRow, buyer: u32) -> ItemRow
    ensures { result ≡ sold_to item buyer }
{
    item.state = ItemState::Sold;
    item.buyer = buyer;
    item
}

/// The item at the end of its auction.
fn after_close(mut item: ItemRow) -> ItemRow
    ensures { result ≡ after_close item }
{
    if item.best == 0 {
        item.state = ItemState::Closed;
        item
    } else {
        let bidder = item.best_bidder;
        sold_to(item, bidder)
    }
}

/// An item written, and nothing else.
fn item_written(alloc: Global, number: u32, item: &ItemRow) -> Result<WriteList, OutOfMemory>
    requires { is_item item.now ≡ true }
    ensures { IfOk result (λ writes. writes ≡ row (item_id number) (item_bytes item.now) ∷ []) }
{
    let mut writes = WriteList::new(alloc);
    write_row(alloc, &mut writes, item_id(number), item)?;
    Ok(writes)
}

/// The item is sold to the user.
#[tactic(auto, using(auction_site::proofs::Bounds::sold_to_is), unfolding(auction_site::specs::Outcomes::bought))]
fn bought(alloc: Global, buyer: u32, number: u32, item: ItemRow) -> Result<Outcome, OutOfMemory>
    requires { is_item item ≡ true }
    ensures { IfOk result (λ outcome. outcome ≡ bought buyer number item) }
{
    let item = sold_to(item, buyer);
    let writes = item_written(alloc, number, &item)?;
    let done = says_number(alloc, "Bought item ", number)?;
    Ok(Outcome { writes, done })
}

/// The auction of the item ends.
#[tactic(auto, using(auction_site::proofs::Bounds::after_close_is))]
fn closed(alloc: Global, number: u32, item: ItemRow) -> Result<Outcome, OutOfMemory>
    requires { is_item item ≡ true }
    ensures { IfOk result (λ outcome. outcome ≡ closed number item) }
{
    let item = after_close(item);
    let writes = item_written(alloc, number, &item)?;
    let done = says_number(alloc, "Closed item ", number)?;
    Ok(Outcome { writes, done })
}

/// An item bought at once: as far as these reads bring it. It reads one row, and writes one.
#[tactic(auto, unfolding(auction_site::specs::Planned::buy_plan))]
pub fn buy(
    alloc: Global,
    user: u32,
    now: Moment,
    number: u32,
    reads: &mut Reads<'_>,
) -> Result<Outcome, Stop>
    ensures { HasCome result reads.new (walk (buy_plan user now.0 number) reads.old) }
{
    refuses_if(alloc, user == 0, 403, b"Sign in first")?;
    let item = asks_row::<ItemRow>(alloc, reads, item_id(number))?;
    refuses_by(alloc, buy_refusal(&item, user, now))?;
    let outcome = bought(alloc, user, number, item)?;
    Ok(outcome)
}

/// The end of an own item's auction: as far as these reads bring it. It reads one row, and writes one.
#[tactic(auto, unfolding(auction_site::specs::Planned::close_plan))]
pub fn close(alloc: Global, user: u32, number: u32, reads: &mut Reads<'_>) -> Result<Outcome, Stop>
    ensures { HasCome result reads.new (walk (close_plan user number) reads.old) }
{
    refuses_if(alloc, user == 0, 403, b"Sign in first")?;
    let item = asks_row::<ItemRow>(alloc, reads, item_id(number))?;
    refuses_by(alloc, close_refusal(&item, user))?;
    let outcome = closed(alloc, number, item)?;
    Ok(outcome)
}
