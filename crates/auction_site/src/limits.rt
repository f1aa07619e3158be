//! The limits of the auction's numbers and lists.

/// The last number of a user, of an item, of a category, of an entry of a category, and of an own item.
pub const LAST_NUMBER: u64 = 4_294_967_295;

/// The last number of a bid on an item.
pub const LAST_BID: u64 = 1_048_575;

/// The last number of feedback about a user.
pub const LAST_FEEDBACK: u64 = 1_048_575;

/// The most items that a page lists.
pub const PAGE_ITEMS: u64 = 16;

/// The number of the user who may add categories.
pub const CATEGORY_EDITOR: u32 = 1;

/// The milliseconds of an hour.
pub const HOUR: u64 = 3_600_000;
