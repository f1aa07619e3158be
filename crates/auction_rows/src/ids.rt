//! Ids of rows. No function takes memory.

ghost use Rattle.std.specs.Prelude.{◌≡◌};
ghost use Rattle.auction_rows.specs.Ids.{user_id, name_id, users_counter, items_counter, categories_counter, category_counter, item_id, category_id, bid_id, entry_id, feedback_id, own_item_id};

use crate::rows::{
    BID_TABLE, CATEGORY_TABLE, COUNTER_TABLE, ENTRY_TABLE, FEEDBACK_TABLE, ITEM_TABLE, NAME_TABLE,
    OWN_ITEM_TABLE, USER_TABLE,
};
use crash_base::{RowId, take_u64};
use sha2::{Digest, Sha256};

/// How many keys the bids of an item have, and the feedback about a user: 2^20.
const SHORT_RANGE: u64 = 1_048_576;

/// How many keys the entries of a category have, and the own items of a user: 2^32.
const LONG_RANGE: u64 = 4_294_967_296;

/// A user, by number.
pub fn user_id(user: u32) -> RowId
    ensures { result ≡ user_id user }
{
    RowId {
        table: USER_TABLE,
        key: u64::from(user),
    }
}

/// A name, by the first 8 bytes of its SHA-256, a big-endian number. It visits each byte of the name
/// once.
#[tactic(auto, unfolding(crate::specs::Ids::name_id))]
pub fn name_id(name: &[u8]) -> RowId
    ensures { result ≡ name_id name.now }
{
    let digest = Sha256::digest(name);
    match take_u64(&digest) {
        Some((key, _)) => RowId {
            table: NAME_TABLE,
            key,
        },
        None => unreachable!(),
    }
}

/// The counter of users.
pub fn users_counter() -> RowId
    ensures { result ≡ users_counter }
{
    RowId {
        table: COUNTER_TABLE,
        key: 1,
    }
}

/// The counter of items.
pub fn items_counter() -> RowId
    ensures { result ≡ items_counter }
{
    RowId {
        table: COUNTER_TABLE,
        key: 2,
    }
}

/// The counter of categories.
pub fn categories_counter() -> RowId
    ensures { result ≡ categories_counter }
{
    RowId {
        table: COUNTER_TABLE,
        key: 3,
    }
}

/// The counter of the items in a category.
pub fn category_counter(category: u32) -> RowId
    ensures { result ≡ category_counter category }
{
    RowId {
        table: COUNTER_TABLE,
        key: LONG_RANGE + u64::from(category),
    }
}

/// An item, by number.
pub fn item_id(item: u32) -> RowId
    ensures { result ≡ item_id item }
{
    RowId {
        table: ITEM_TABLE,
        key: u64::from(item),
    }
}

/// A category, by number.
pub fn category_id(category: u32) -> RowId
    ensures { result ≡ category_id category }
{
    RowId {
        table: CATEGORY_TABLE,
        key: u64::from(category),
    }
}

/// The bid of this number on an item. Bids of two items have different ids where their numbers are
/// below 2^20.
pub fn bid_id(item: u32, number: u32) -> RowId
    ensures { result ≡ bid_id item number }
{
    RowId {
        table: BID_TABLE,
        key: u64::from(item) * SHORT_RANGE + u64::from(number),
    }
}

/// The entry of this number in a category.
pub fn entry_id(category: u32, number: u32) -> RowId
    ensures { result ≡ entry_id category number }
{
    RowId {
        table: ENTRY_TABLE,
        key: u64::from(category) * LONG_RANGE + u64::from(number),
    }
}

/// The feedback of this number about a user. Feedback about two users has different ids where the
/// numbers are below 2^20.
pub fn feedback_id(user: u32, number: u32) -> RowId
    ensures { result ≡ feedback_id user number }
{
    RowId {
        table: FEEDBACK_TABLE,
        key: u64::from(user) * SHORT_RANGE + u64::from(number),
    }
}

/// The item of this number that a user offers.
pub fn own_item_id(user: u32, number: u32) -> RowId
    ensures { result ≡ own_item_id user number }
{
    RowId {
        table: OWN_ITEM_TABLE,
        key: u64::from(user) * LONG_RANGE + u64::from(number),
    }
}
