//! The rows of the auction, as they are read and written.

use crash_base::{FieldText, Moment};

/// The table of users, each under its number.
pub const USER_TABLE: u8 = 1;

/// The table of names of users, each under the number that its SHA-256 begins with.
pub const NAME_TABLE: u8 = 2;

/// The table of counters.
pub const COUNTER_TABLE: u8 = 3;

/// The table of items, each under its number.
pub const ITEM_TABLE: u8 = 4;

/// The table of categories, each under its number.
pub const CATEGORY_TABLE: u8 = 5;

/// The table of bids, each under its item and its number there.
pub const BID_TABLE: u8 = 6;

/// The table of entries, each under its category and its number there.
pub const ENTRY_TABLE: u8 = 7;

/// The table of feedback, each under the user that it is about and its number there.
pub const FEEDBACK_TABLE: u8 = 8;

/// The table of users' own items, each under its seller and its number there.
pub const OWN_ITEM_TABLE: u8 = 9;

/// A user.
#[derive(Drop)]
pub struct UserRow {
    pub name: FieldText,
    /// The random bytes that stand before the password where it is hashed.
    pub salt: [u8; 8],
    /// The SHA-256 of the salt and the password.
    pub digest: [u8; 32],
    /// How often feedback about this user was good.
    pub good: u32,
    /// How often it was bad.
    pub bad: u32,
    /// How many items this user has offered.
    pub items: u32,
}

/// A name, and the user who has it.
#[derive(Drop)]
pub struct NameRow {
    pub name: FieldText,
    pub user: u32,
}

/// How many users, items or categories there are, or entries of one category.
#[derive(Drop)]
pub struct CounterRow {
    pub count: u64,
}

/// What has become of an item.
#[derive(Clone, Copy, PartialEq)]
pub enum ItemState {
    /// It is for sale until its auction ends.
    Running,
    /// It was closed without a bid.
    Closed,
    /// It is sold to its buyer.
    Sold,
}

/// Who has given feedback on the sale of an item.
#[derive(Clone, Copy, PartialEq)]
pub struct GivenFeedback {
    pub by_buyer: bool,
    pub by_seller: bool,
}

/// An item. Amounts are in cents.
#[derive(Drop)]
pub struct ItemRow {
    pub state: ItemState,
    /// The user who offers it.
    pub seller: u32,
    pub category: u32,
    /// The least amount that may be bid.
    pub start: u64,
    /// For what it is sold at once, or 0 where it is not.
    pub buy_now: u64,
    /// The greatest amount that was bid, or 0 where nothing was.
    pub best: u64,
    /// The user who bid it, or 0.
    pub best_bidder: u32,
    /// How many bids there are.
    pub bids: u32,
    /// When its auction ends.
    pub ends: Moment,
    /// The user who bought it, or 0.
    pub buyer: u32,
    pub given: GivenFeedback,
    pub title: FieldText,
}

/// A category of items.
#[derive(Drop)]
pub struct CategoryRow {
    pub name: FieldText,
}

/// A bid on an item.
#[derive(Drop)]
pub struct BidRow {
    pub bidder: u32,
    /// In cents.
    pub amount: u64,
    /// When it was made.
    pub moment: Moment,
}

/// An item, as a category lists it.
#[derive(Drop)]
pub struct EntryRow {
    pub item: u32,
}

/// What one user says about another after a sale.
#[derive(Drop)]
pub struct FeedbackRow {
    /// The user who says it.
    pub from: u32,
    /// The item that was sold.
    pub item: u32,
    pub good: bool,
    pub text: FieldText,
}

/// An item, as its seller lists it.
#[derive(Drop)]
pub struct OwnItemRow {
    pub item: u32,
}

/// A row of the auction.
#[derive(Drop)]
pub enum AuctionRow {
    User(UserRow),
    Name(NameRow),
    Counter(CounterRow),
    Item(ItemRow),
    Category(CategoryRow),
    Bid(BidRow),
    Entry(EntryRow),
    Feedback(FeedbackRow),
    OwnItem(OwnItemRow),
}
