//! Rows of the auction, and the bytes that spell them.
//!
//! The auction keeps what it knows in nine tables of rows: users, names of users, counters, items,
//! categories, bids, entries of items in categories, feedback, and the items that each user offers. A
//! container takes a row as bytes, and this crate says which bytes they are.
//!
//! ```text
//! let bytes = item.encode(alloc)?;                  // is_item(&item) must hold
//! ItemRow::decode(alloc, bytes.as_slice())?         // that item again
//! decode_row(alloc, ITEM_TABLE, &[2, 0])?           // None: no item is spelled so
//! ```
//!
//! A row is spelled by its fields in the order in which its struct has them: big-endian numbers, of 8
//! bytes where they are a `u64`, a `Moment` or the number of a user, an item or a category, and else of
//! 4; texts as their length in 2 bytes and their bytes; and states, feedback that was given, and truth
//! values as a number in 1 byte. Nothing follows the last field. A number of a user, an item or a
//! category is at most 4,294,967,295, a text is UTF-8, and a row has at most 4,096 bytes.
//!
//! Each kind of row is a `TableRow`, so a function may be generic in it; `AuctionRow` is a row of any
//! table. `user_of`, `name_of` and so on say what bytes are decoded to, and `user_bytes`, `name_bytes`
//! and so on what a row is encoded to; the calls answer them, unless memory runs out. The laws tie them:
//! bytes are decoded to exactly the row that they spell, and to none exactly where they spell none
//! (`rows_are_exact`, `rows_read_back`, and one law for each kind).
//!
//! The ids say under which key a row stands; those with a number differ where the numbers are in their
//! ranges (`ids_differ`). A session's value is its user and the moment at which it was set
//! (`encode_session`, `session_user`). `site_deployment` is the deployment whose components own the
//! nine tables, in five recovery groups (`site_groups`); `site_tables` are the tables with their owners. `WEB` to
//! `FEEDBACK`, `CALL` and `BUY` are the numbers of components and methods.
//!
//! Each call goes over its bytes a few times at most, and copies a text once.
#![tactic(auto)]

mod auction_row;
mod bids;
mod categories;
mod components;
mod counters;
mod entries;
mod feedback;
mod fields;
mod ids;
mod item_parts;
mod items;
mod laws;
mod names;
mod own_items;
mod ranges;
mod rows;
mod session;
mod site;
mod table_row;
mod users;

pub use auction_row::{decode_row, encode_row, is_row, row_is_in_range};
pub use bids::is_bid;
pub use byte_fields::bytes_are_in_range;
pub use categories::is_category;
pub use components::{
    BIDS, BUY, CALL, CATEGORIES, FEEDBACK, ITEMS, NUMBERS, PURCHASES, USERS, WEB,
};
pub use counters::is_counter;
pub use entries::is_entry;
pub use feedback::is_feedback;
pub use ids::{
    bid_id, categories_counter, category_counter, category_id, entry_id, feedback_id, item_id,
    items_counter, name_id, own_item_id, user_id, users_counter,
};
pub use items::is_item;
pub use laws::{
    bids_are_exact, categories_are_exact, counters_are_exact, entries_are_exact, feedback_is_exact,
    ids_differ, items_are_exact, names_are_exact, own_items_are_exact, rows_are_exact,
    rows_read_back, sessions_read_back, site_groups, texts_decide_bounds, users_are_exact,
};
pub use names::is_name;
pub use own_items::is_own_item;
pub use ranges::{
    bid_is_in_range, category_is_in_range, counter_is_in_range, entry_is_in_range,
    feedback_is_in_range, item_is_in_range, name_is_in_range, own_item_is_in_range,
    user_is_in_range,
};
pub use rows::{
    AuctionRow, BID_TABLE, BidRow, CATEGORY_TABLE, COUNTER_TABLE, CategoryRow, CounterRow,
    ENTRY_TABLE, EntryRow, FEEDBACK_TABLE, FeedbackRow, GivenFeedback, ITEM_TABLE, ItemRow,
    ItemState, NAME_TABLE, NameRow, OWN_ITEM_TABLE, OwnItemRow, USER_TABLE, UserRow,
};
pub use session::{SESSION_BYTES, encode_session, session_user};
pub use site::{site_deployment, site_tables};
pub use table_row::TableRow;
pub use users::is_user;
