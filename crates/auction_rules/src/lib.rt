//! The rules of the auction: when an action on an item is refused, and why.
//!
//! ```text
//! match bid_refusal(&item, user, amount, now) {
//!     None => ..              // the bid stands
//!     Some(refusal) => ..     // RuleRefusal::BidTooLow, say
//! }
//! ```
//!
//! Each rule answers the first of its refusals that holds, in the order from left to right, and none where
//! none does.
//!
//! | Action | Refusals |
//! |---|---|
//! | bid | `AuctionOver`: the item is not running. `OwnItem`: the user sells it. `BidTooLow`: the amount is at most the best bid, or below the start |
//! | buy | `AuctionOver` and `OwnItem`, as for a bid. `NotForSale`: there is no price for a sale at once, or the best bid is as high |
//! | close | `NotAllowed`: the user does not sell it. `AuctionOver`: its state is not `Running` |
//! | feedback | `NotSold`: the item is not sold. `NotAllowed`: the user neither sold nor bought it. `AlreadyGiven`: the user's own mark is set |
//!
//! An item is running where its state is `Running` and now is before its end. A user who is both seller and
//! buyer counts as the buyer.
//!
//! The laws say of each refusal exactly where it comes (`bid_refusals_are_exact` and the others). No rule
//! takes memory.
#![tactic(auto)]

mod laws;
mod refusal;
mod rules;

pub use laws::{
    bid_refusals_are_exact, buy_refusals_are_exact, close_refusals_are_exact,
    feedback_refusals_are_exact, other_sides_are_exact, running_is_exact,
};
pub use refusal::RuleRefusal;
pub use rules::{
    bid_refusal, buy_refusal, close_refusal, feedback_refusal, is_running, other_side,
};
