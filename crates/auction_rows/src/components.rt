//! The components of the site and their methods, by number.

/// What each call enters first. It may call each other component.
pub const WEB: u16 = 0;

/// Owns the rows of users and of names.
pub const USERS: u16 = 1;

/// Owns the counters.
pub const NUMBERS: u16 = 2;

/// Owns the rows of items, of the entries of categories, and of own items.
pub const ITEMS: u16 = 3;

/// Owns the rows of categories.
pub const CATEGORIES: u16 = 4;

/// Owns the rows of bids.
pub const BIDS: u16 = 5;

/// Sells and closes items. It owns no table.
pub const PURCHASES: u16 = 6;

/// Owns the rows of feedback.
pub const FEEDBACK: u16 = 7;

/// The method `call` of each component, which may be called again.
pub const CALL: u8 = 0;

/// The method `buy` of Purchases, which may not be called again.
pub const BUY: u8 = 1;
