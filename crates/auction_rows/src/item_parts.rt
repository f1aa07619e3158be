//! The parts of an item that are read one after the other, off the front of bytes.

ghost use Rattle.std.specs.Prelude.{◌≡◌};
ghost use Rattle.byte_fields.specs.Answers.{Reads};
ghost use Rattle.auction_rows.specs.Reading.{item_head_at, item_amounts_at, item_end_at};

use crate::fields::{given_at, state_at};
use crate::rows::{GivenFeedback, ItemState};
use byte_fields::{NoField, id_at, u32_at, u64_at};
use crash_base::Moment;

/// What an item has up to its category.
#[derive(Clone, Copy)]
pub struct ItemHead {
    pub state: ItemState,
    pub seller: u32,
    pub category: u32,
}

/// The prices of an item, and its bids.
#[derive(Clone, Copy)]
pub struct ItemAmounts {
    pub start: u64,
    pub buy_now: u64,
    pub best: u64,
    pub best_bidder: u32,
    pub bids: u32,
}

/// When an item ends, its buyer, and the feedback given.
#[derive(Clone, Copy)]
pub struct ItemEnd {
    pub ends: Moment,
    pub buyer: u32,
    pub given: GivenFeedback,
}

/// What an item has up to its category.
#[tactic(auto, unfolding(crate::specs::Reading::item_head_at))]
pub fn item_head_at(bytes: &[u8]) -> Result<(ItemHead, &[u8]), NoField>
    ensures { Reads (λ f. (f.0, f.1.now)) result (item_head_at bytes.now) }
{
    let (state, rest) = state_at(bytes)?;
    let (seller, rest) = id_at(rest)?;
    let (category, rest) = id_at(rest)?;
    let head = ItemHead {
        state,
        seller,
        category,
    };
    Ok((head, rest))
}

/// The prices of an item, and its bids.
#[tactic(auto, unfolding(crate::specs::Reading::item_amounts_at))]
pub fn item_amounts_at(bytes: &[u8]) -> Result<(ItemAmounts, &[u8]), NoField>
    ensures { Reads (λ f. (f.0, f.1.now)) result (item_amounts_at bytes.now) }
{
    let (start, rest) = u64_at(bytes)?;
    let (buy_now, rest) = u64_at(rest)?;
    let (best, rest) = u64_at(rest)?;
    let (best_bidder, rest) = id_at(rest)?;
    let (bids, rest) = u32_at(rest)?;
    let amounts = ItemAmounts {
        start,
        buy_now,
        best,
        best_bidder,
        bids,
    };
    Ok((amounts, rest))
}

/// When an item ends, its buyer, and the feedback given.
#[tactic(auto, unfolding(crate::specs::Reading::item_end_at))]
pub fn item_end_at(bytes: &[u8]) -> Result<(ItemEnd, &[u8]), NoField>
    ensures { Reads (λ f. (f.0, f.1.now)) result (item_end_at bytes.now) }
{
    let (ends, rest) = u64_at(bytes)?;
    let (buyer, rest) = id_at(rest)?;
    let (given, rest) = given_at(rest)?;
    let end = ItemEnd {
        ends: Moment(ends),
        buyer,
        given,
    };
    Ok((end, rest))
}
