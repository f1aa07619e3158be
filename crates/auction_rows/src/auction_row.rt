//! Rows of any table.

ghost use Rattle.std.specs.Prelude.{◌≡◌, ◌≤◌, Some, true, length, IfOk, IfSome};
ghost use Rattle.crash_base.specs.declared.rows.TheConstants.{MAX_ROW_BYTES};
ghost use Rattle.auction_rows.specs.Bounds.{IsRow, is_row};
ghost use Rattle.auction_rows.specs.Reading.{row_of};
ghost use Rattle.auction_rows.specs.Spelling.{row_bytes, table_of};

use crate::bids::is_bid;
use crate::categories::is_category;
use crate::counters::is_counter;
use crate::entries::is_entry;
use crate::feedback::is_feedback;
use crate::items::is_item;
use crate::names::is_name;
use crate::own_items::is_own_item;
use crate::ranges::{
    bid_is_in_range, category_is_in_range, counter_is_in_range, entry_is_in_range,
    feedback_is_in_range, item_is_in_range, name_is_in_range, own_item_is_in_range,
    user_is_in_range,
};
use crate::rows::{
    AuctionRow, BID_TABLE, BidRow, CATEGORY_TABLE, COUNTER_TABLE, CategoryRow, CounterRow,
    ENTRY_TABLE, EntryRow, FEEDBACK_TABLE, FeedbackRow, ITEM_TABLE, ItemRow, NAME_TABLE, NameRow,
    OWN_ITEM_TABLE, OwnItemRow, USER_TABLE, UserRow,
};
use crate::table_row::TableRow;
use crate::users::is_user;
use crash_base::{OutOfMemory, RowBytes};
use std::alloc::Global;

/// Whether a row is within its bounds: its text is UTF-8, and its bytes are at most 4,096. It takes no
/// memory, and visits each byte of the text once.
pub fn is_row(row: &AuctionRow) -> bool
    ensures { result ≡ is_row row.now }
{
    match row {
        AuctionRow::User(user) => is_user(user),
        AuctionRow::Name(name) => is_name(name),
        AuctionRow::Counter(counter) => is_counter(counter),
        AuctionRow::Item(item) => is_item(item),
        AuctionRow::Category(category) => is_category(category),
        AuctionRow::Bid(bid) => is_bid(bid),
        AuctionRow::Entry(entry) => is_entry(entry),
        AuctionRow::Feedback(feedback) => is_feedback(feedback),
        AuctionRow::OwnItem(own) => is_own_item(own),
    }
}

/// A row within its bounds has its numbers in their ranges, which laws of rows have as their premise.
/// It does nothing: a caller that needs the fact calls it.
pub fn row_is_in_range(row: &AuctionRow)
    requires { is_row row.now ≡ true }
    ensures { IsRow row.now }
{
    match row {
        AuctionRow::User(user) => user_is_in_range(user),
        AuctionRow::Name(name) => name_is_in_range(name),
        AuctionRow::Counter(counter) => counter_is_in_range(counter),
        AuctionRow::Item(item) => item_is_in_range(item),
        AuctionRow::Category(category) => category_is_in_range(category),
        AuctionRow::Bid(bid) => bid_is_in_range(bid),
        AuctionRow::Entry(entry) => entry_is_in_range(entry),
        AuctionRow::Feedback(feedback) => feedback_is_in_range(feedback),
        AuctionRow::OwnItem(own) => own_item_is_in_range(own),
    }
}

/// The bytes of a row, which are decoded to it again.
///
/// # Errors
/// `OutOfMemory` where there was no memory for them.
#[tactic(auto, unfolding(crate::specs::Reading::row_of))]
pub fn encode_row(alloc: Global, row: &AuctionRow) -> Result<RowBytes, OutOfMemory>
    requires { is_row row.now ≡ true }
    ensures bytes { IfOk result (λ bytes. bytes ≡ row_bytes row.now) }
    ensures few { IfOk result (λ bytes. length bytes ≤ MAX_ROW_BYTES) }
    ensures back { IfOk result (λ bytes. row_of (table_of row.now) bytes ≡ Some row.now) }
{
    match row {
        AuctionRow::User(user) => user.encode(alloc),
        AuctionRow::Name(name) => name.encode(alloc),
        AuctionRow::Counter(counter) => counter.encode(alloc),
        AuctionRow::Item(item) => item.encode(alloc),
        AuctionRow::Category(category) => category.encode(alloc),
        AuctionRow::Bid(bid) => bid.encode(alloc),
        AuctionRow::Entry(entry) => entry.encode(alloc),
        AuctionRow::Feedback(feedback) => feedback.encode(alloc),
        AuctionRow::OwnItem(own) => own.encode(alloc),
    }
}

/// The row of a table that bytes spell, all of them. None exactly where no row of that table does, so
/// also where the table is none of 1 to 9. Its text is copied once, and each byte is visited a few
/// times.
///
/// # Errors
/// `OutOfMemory` where there was no memory for the text.
#[tactic(auto, unfolding(crate::specs::Reading::row_of))]
pub fn decode_row(alloc: Global, table: u8, bytes: &[u8]) -> Result<Option<AuctionRow>, OutOfMemory>
    ensures exact { IfOk result (λ found. found ≡ row_of table bytes.now) }
    ensures within { IfOk result (λ found. IfSome found (λ row. is_row row ≡ true)) }
{
    match table {
        USER_TABLE => Ok(UserRow::decode(alloc, bytes)?.map(AuctionRow::User)),
        NAME_TABLE => Ok(NameRow::decode(alloc, bytes)?.map(AuctionRow::Name)),
        COUNTER_TABLE => Ok(CounterRow::decode(alloc, bytes)?.map(AuctionRow::Counter)),
        ITEM_TABLE => Ok(ItemRow::decode(alloc, bytes)?.map(AuctionRow::Item)),
        CATEGORY_TABLE => Ok(CategoryRow::decode(alloc, bytes)?.map(AuctionRow::Category)),
        BID_TABLE => Ok(BidRow::decode(alloc, bytes)?.map(AuctionRow::Bid)),
        ENTRY_TABLE => Ok(EntryRow::decode(alloc, bytes)?.map(AuctionRow::Entry)),
        FEEDBACK_TABLE => Ok(FeedbackRow::decode(alloc, bytes)?.map(AuctionRow::Feedback)),
        OWN_ITEM_TABLE => Ok(OwnItemRow::decode(alloc, bytes)?.map(AuctionRow::OwnItem)),
        _ => Ok(None),
    }
}
