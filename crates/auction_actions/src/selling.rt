//! Items that sellers offer.

ghost use Rattle.std.specs.Prelude.{◌≡◌, ◌<◌, ◌≤◌, ◌+◌, ◌^◌, nat_le, [], ◌∷◌, ◌++◌, true, IfOk, OnOk};
ghost use Rattle.action_plans.specs.Plans.{HasCome, walk};
ghost use Rattle.auction_calls.specs.Calls.{is_text};
ghost use Rattle.auction_rows.specs.Bounds.{is_user};
ghost use Rattle.auction_rows.specs.Ids.{items_counter, category_counter, category_id, item_id, entry_id, user_id, own_item_id};
ghost use Rattle.auction_rows.specs.Spelling.{item_bytes, entry_bytes, user_bytes, own_item_bytes};
ghost use Rattle.auction_site.specs.Outcomes.{row, counter_row, new_item, with_items, offered};
ghost use Rattle.auction_site.specs.Planned.{offer_plan, sell_plan};
ghost use Rattle.auction_site.specs.Rules.{sells_too_low};
ghost use Rattle.auction_site.specs.declared.limits.TheConstants.{LAST_NUMBER};

use crate::offer::Offer;
use action_plans::{Outcome, Reads, Stop};
use auction_pieces::{
    asks_counter, asks_row, asks_row_or, is_last_number, next_number, refuses_if, says_number,
    write_counter, write_row,
};
use auction_rows::{
    CategoryRow, EntryRow, GivenFeedback, ItemRow, ItemState, OwnItemRow, UserRow,
    category_counter, category_id, entry_id, item_id, items_counter, own_item_id, user_id,
};
use auction_site::{HOUR, LAST_NUMBER};
use crash_base::{FieldText, Moment, OutOfMemory, RowId, WriteList};
use std::alloc::Global;

/// Whether an offer is sold at once for less than its least bid.
fn sells_too_low(offer: &Offer<'_>) -> bool
    ensures { result ≡ sells_too_low offer.now }
{
    offer.buy_now != 0 && offer.buy_now < offer.start
}

/// The category of an offer.
fn category_of(offer: &Offer<'_>) -> RowId
    ensures { result ≡ category_id offer.now.category }
{
    category_id(offer.category)
}

/// The counter of the entries of an offer's category.
fn entries_of(offer: &Offer<'_>) -> RowId
    ensures { result ≡ category_counter offer.now.category }
{
    category_counter(offer.category)
}

/// Whether a user has offered as many items as may be.
fn has_last_item(user: &UserRow) -> bool
    ensures { result ≡ nat_le LAST_NUMBER user.now.items }
{
    is_last_number(u64::from(user.items))
}

/// An item without a bid, from now on for the hours of the offer.
fn new_item(
    alloc: Global,
    seller: u32,
    now: Moment,
    offer: &Offer<'_>,
) -> Result<ItemRow, OutOfMemory>
    requires early { now.0 < 2 ^ 62 }
    requires hours { offer.now.hours ≤ 720 }
    ensures { IfOk result (λ item. item ≡ new_item seller now.0 offer.now) }
{
    let title = FieldText::copied(alloc, offer.title)?;
    Ok(ItemRow {
        state: ItemState::Running,
        seller,
        category: offer.category,
        start: offer.start,
        buy_now: offer.buy_now,
        best: 0,
        best_bidder: 0,
        bids: 0,
        ends: Moment(now.0 + u64::from(offer.hours) * HOUR),
        buyer: 0,
        given: GivenFeedback {
            by_buyer: false,
            by_seller: false,
        },
        title,
    })
}

/// The user who has offered so many items.
fn with_items(mut user: UserRow, items: u32) -> UserRow
    ensures { result ≡ with_items user items }
{
    user.items = items;
    user
}

/// Adds the counters of items, and of those of a category, to the rows that are written.
fn write_counters(
    alloc: Global,
    writes: &mut WriteList,
    category: u32,
    item: u32,
    entry: u32,
) -> Result<(), OutOfMemory>
    ensures { OnOk result (writes.new ≡ writes.old
        ++ counter_row items_counter item ∷ counter_row (category_counter category) entry ∷ []) }
{
    write_counter(alloc, writes, items_counter(), item)?;
    write_counter(alloc, writes, category_counter(category), entry)
}

/// Adds an item, and its entry in its category, to the rows that are written.
#[tactic(auto, using(auction_site::proofs::Bounds::new_item_is, auction_rows::proofs::Sizes::entry_few))]
fn write_item(
    alloc: Global,
    writes: &mut WriteList,
    seller: u32,
    now: Moment,
    offer: &Offer<'_>,
    item: u32,
    entry: u32,
) -> Result<(), OutOfMemory>
    requires early { now.0 < 2 ^ 62 }
    requires hours { offer.now.hours ≤ 720 }
    requires title { is_text 1 80 offer.now.title ≡ true }
    ensures { OnOk result (writes.new ≡ writes.old
        ++ row (item_id item) (item_bytes (new_item seller now.0 offer.now))
        ∷ row (entry_id offer.now.category entry) (entry_bytes (record { item = item })) ∷ []) }
{
    let new = new_item(alloc, seller, now, offer)?;
    write_row(alloc, writes, item_id(item), &new)?;
    let entered = EntryRow { item };
    write_row(alloc, writes, entry_id(offer.category, entry), &entered)
}

/// Adds a user with one more own item, and this item, to the rows that are written.
#[tactic(auto, using(auction_site::proofs::Bounds::with_items_is, auction_rows::proofs::Sizes::own_item_few))]
fn write_own_item(
    alloc: Global,
    writes: &mut WriteList,
    seller: u32,
    item: u32,
    user: UserRow,
) -> Result<(), OutOfMemory>
    requires within { is_user user ≡ true }
    requires room { user.items < LAST_NUMBER }
    ensures { OnOk result (writes.new ≡ writes.old
        ++ row (user_id seller) (user_bytes (with_items user (user.items + 1)))
        ∷ row (own_item_id seller (user.items + 1)) (own_item_bytes (record { item = item })) ∷ []) }
{
    let n = user.items + 1;
    let user = with_items(user, n);
    write_row(alloc, writes, user_id(seller), &user)?;
    let own = OwnItemRow { item };
    write_row(alloc, writes, own_item_id(seller, n), &own)
}

/// An item of this number, which is this entry of its category, and the next own item of its seller.
#[tactic(auto, unfolding(auction_site::specs::Outcomes::offered))]
fn offered(
    alloc: Global,
    seller: u32,
    now: Moment,
    offer: &Offer<'_>,
    item: u32,
    entry: u32,
    user: UserRow,
) -> Result<Outcome, OutOfMemory>
    requires early { now.0 < 2 ^ 62 }
    requires hours { offer.now.hours ≤ 720 }
    requires title { is_text 1 80 offer.now.title ≡ true }
    requires within { is_user user ≡ true }
    requires room { user.items < LAST_NUMBER }
    ensures { IfOk result (λ outcome. outcome ≡ offered seller now.0 offer.now item entry user) }
{
    let mut writes = WriteList::new(alloc);
    write_counters(alloc, &mut writes, offer.category, item, entry)?;
    write_item(alloc, &mut writes, seller, now, offer, item, entry)?;
    write_own_item(alloc, &mut writes, seller, item, user)?;
    let done = says_number(alloc, "Item ", item)?;
    Ok(Outcome { writes, done })
}

/// An item of this number offered: as far as these reads bring it.
#[tactic(auto, unfolding(auction_site::specs::Planned::offer_plan))]
fn offer_item(
    alloc: Global,
    seller: u32,
    now: Moment,
    offer: &Offer<'_>,
    item: u32,
    reads: &mut Reads<'_>,
) -> Result<Outcome, Stop>
    requires early { now.0 < 2 ^ 62 }
    requires hours { offer.now.hours ≤ 720 }
    requires title { is_text 1 80 offer.now.title ≡ true }
    ensures { HasCome result reads.new (walk (offer_plan seller now.0 offer.now item) reads.old) }
{
    let entries = asks_counter(alloc, reads, entries_of(offer))?;
    refuses_if(alloc, is_last_number(entries), 409, b"No more numbers")?;
    let user = asks_row::<UserRow>(alloc, reads, user_id(seller))?;
    refuses_if(alloc, has_last_item(&user), 409, b"No more numbers")?;
    let entry = next_number(entries);
    let outcome = offered(alloc, seller, now, offer, item, entry, user)?;
    Ok(outcome)
}

/// An item offered: as far as these reads bring it. It reads four rows, and writes six. The title is
/// copied once.
#[tactic(auto, unfolding(auction_site::specs::Planned::sell_plan))]
pub fn sell(
    alloc: Global,
    seller: u32,
    now: Moment,
    offer: &Offer<'_>,
    reads: &mut Reads<'_>,
) -> Result<Outcome, Stop>
    requires early { now.0 < 2 ^ 62 }
    requires hours { offer.now.hours ≤ 720 }
    requires title { is_text 1 80 offer.now.title ≡ true }
    ensures { HasCome result reads.new (walk (sell_plan seller now.0 offer.now) reads.old) }
{
    refuses_if(alloc, seller == 0, 403, b"Sign in first")?;
    refuses_if(alloc, sells_too_low(offer), 400, b"Bad field buy_now")?;
    let category = category_of(offer);
    asks_row_or::<CategoryRow>(alloc, reads, category, 409, b"No such category")?;
    let items = asks_counter(alloc, reads, items_counter())?;
    refuses_if(alloc, is_last_number(items), 409, b"No more numbers")?;
    let item = next_number(items);
    offer_item(alloc, seller, now, offer, item, reads)
}
