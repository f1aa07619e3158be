//! Why a rule of the auction refuses.

/// Why a rule of the auction refuses an action on an item.
#[derive(Clone, Copy, PartialEq)]
pub enum RuleRefusal {
    /// The item is not running; where it is to be closed, its state is not `Running`.
    AuctionOver,
    /// The user sells the item.
    OwnItem,
    /// The amount is below the start, or not above the best bid.
    BidTooLow,
    /// The item is not sold at once, or no longer.
    NotForSale,
    /// The item is not sold.
    NotSold,
    /// The user is not one who may do this.
    NotAllowed,
    /// The user has given feedback on this sale.
    AlreadyGiven,
}
