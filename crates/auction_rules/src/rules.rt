//! The rules.

ghost use Rattle.std.specs.Prelude.{◌≡◌, ◌==◌};
ghost use Rattle.auction_rules.specs.Rules.{is_open, is_sold, is_running, is_too_low, is_not_for_sale, is_on_a_side, other_side, has_given, bid_refusal, buy_refusal, close_refusal, feedback_refusal};

use crate::refusal::RuleRefusal;
use auction_rows::{ItemRow, ItemState};
use crash_base::Moment;

/// Whether this is the state of an item that is neither closed nor sold.
fn is_open(state: ItemState) -> bool
    ensures { result ≡ is_open state }
{
    matches!(state, ItemState::Running)
}

/// Whether this is the state of a sold item.
fn is_sold(state: ItemState) -> bool
    ensures { result ≡ is_sold state }
{
    matches!(state, ItemState::Sold)
}

/// Whether an item is running: its state is `Running`, and its auction has not ended. It takes no
/// memory.
pub fn is_running(item: &ItemRow, now: Moment) -> bool
    ensures { result ≡ is_running item.now now.0 }
{
    is_open(item.state) && now.0 < item.ends.0
}

/// Whether a user sells an item.
fn is_seller(item: &ItemRow, user: u32) -> bool
    ensures { result ≡ (item.now.seller == user) }
{
    item.seller == user
}

/// Whether an amount is not above the best bid, or below the start.
fn is_too_low(item: &ItemRow, amount: u64) -> bool
    ensures { result ≡ is_too_low item.now amount }
{
    amount <= item.best || amount < item.start
}

/// Whether an item has no price for which it is sold at once, or a best bid as high.
fn is_not_for_sale(item: &ItemRow) -> bool
    ensures { result ≡ is_not_for_sale item.now }
{
    item.buy_now == 0 || item.buy_now <= item.best
}

/// Whether a user is the seller or the buyer.
fn is_on_a_side(item: &ItemRow, user: u32) -> bool
    ensures { result ≡ is_on_a_side item.now user }
{
    item.buyer == user || is_seller(item, user)
}

/// The other side of a sale: the seller for the buyer, and the buyer for the seller. Who is both
/// counts as the buyer. It takes no memory.
pub fn other_side(item: &ItemRow, user: u32) -> u32
    ensures { result ≡ other_side item.now user }
{
    if item.buyer == user {
        item.seller
    } else {
        item.buyer
    }
}

/// Whether a side of a sale has given its feedback.
fn has_given(item: &ItemRow, user: u32) -> bool
    ensures { result ≡ has_given item.now user }
{
    if item.buyer == user {
        item.given.by_buyer
    } else {
        item.given.by_seller
    }
}

/// Why a bid of a user is refused. It takes no memory.
///
/// The first of these that holds: `AuctionOver` where the item is not running, `OwnItem` where the
/// user is its seller, `BidTooLow` where the amount is at most the best bid or below the start.
pub fn bid_refusal(item: &ItemRow, user: u32, amount: u64, now: Moment) -> Option<RuleRefusal>
    ensures { result ≡ bid_refusal item.now user amount now.0 }
{
    if !is_running(item, now) {
        Some(RuleRefusal::AuctionOver)
    } else if is_seller(item, user) {
        Some(RuleRefusal::OwnItem)
    } else if is_too_low(item, amount) {
        Some(RuleRefusal::BidTooLow)
    } else {
        None
    }
}

/// Why it is refused that a user buys an item at once. It takes no memory.
///
/// The first of these that holds: `AuctionOver` where the item is not running, `OwnItem` where the
/// user is its seller, `NotForSale` where it has no price for that or its best bid is as high.
pub fn buy_refusal(item: &ItemRow, user: u32, now: Moment) -> Option<RuleRefusal>
    ensures { result ≡ buy_refusal item.now user now.0 }
{
    if !is_running(item, now) {
        Some(RuleRefusal::AuctionOver)
    } else if is_seller(item, user) {
        Some(RuleRefusal::OwnItem)
    } else if is_not_for_sale(item) {
        Some(RuleRefusal::NotForSale)
    } else {
        None
    }
}

/// Why it is refused that a user closes an item. It takes no memory.
///
/// The first of these that holds: `NotAllowed` where the user is not its seller, `AuctionOver` where
/// its state is not `Running`. An item whose auction has ended may be closed.
pub fn close_refusal(item: &ItemRow, user: u32) -> Option<RuleRefusal>
    ensures { result ≡ close_refusal item.now user }
{
    if !is_seller(item, user) {
        Some(RuleRefusal::NotAllowed)
    } else if !is_open(item.state) {
        Some(RuleRefusal::AuctionOver)
    } else {
        None
    }
}

/// Why a user's feedback on a sale is refused. It takes no memory.
///
/// The first of these that holds: `NotSold` where the item is not sold, `NotAllowed` where the user
/// is neither its seller nor its buyer, `AlreadyGiven` where the user's own mark is set. Who is both
/// counts as the buyer.
pub fn feedback_refusal(item: &ItemRow, user: u32) -> Option<RuleRefusal>
    ensures { result ≡ feedback_refusal item.now user }
{
    if !is_sold(item.state) {
        Some(RuleRefusal::NotSold)
    } else if !is_on_a_side(item, user) {
        Some(RuleRefusal::NotAllowed)
    } else if has_given(item, user) {
        Some(RuleRefusal::AlreadyGiven)
    } else {
        None
    }
}
