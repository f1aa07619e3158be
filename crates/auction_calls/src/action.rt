//! What a client asks of the auction.

use crash_base::{FieldText, Moment, SessionKey};

/// The actions that a form is filled in for.
#[derive(Clone, Copy, PartialEq)]
pub enum FormKind {
    Register,
    SignIn,
    SignOut,
    /// The form of a new category.
    Category,
    Sell,
    Bid,
    Buy,
    Close,
    Feedback,
}

/// What a client asks. Texts are UTF-8; amounts are in cents.
#[derive(Drop)]
pub enum Action {
    /// The first page.
    Home,
    /// Become a user, of this name.
    Register {
        name: FieldText,
        password: FieldText,
    },
    SignIn {
        name: FieldText,
        password: FieldText,
    },
    SignOut,
    /// The list of categories.
    Categories,
    /// A category more.
    AddCategory {
        name: FieldText,
    },
    /// The items of a category, 16 a page; the first page is 0.
    Browse {
        category: u32,
        page: u32,
    },
    /// The page of an item.
    Item {
        item: u32,
    },
    /// The page of a user.
    User {
        user: u32,
    },
    /// The last 16 items of the user who asks.
    About,
    /// Offer an item, for so many hours. `start` is the least bid, and for `buy_now` it is sold at
    /// once, unless that is 0.
    Sell {
        title: FieldText,
        category: u32,
        start: u64,
        buy_now: u64,
        hours: u32,
    },
    Bid {
        item: u32,
        amount: u64,
    },
    /// Buy an item at once.
    Buy {
        item: u32,
    },
    /// End the auction of an own item.
    Close {
        item: u32,
    },
    /// Say something about the other side of a sale.
    Feedback {
        item: u32,
        good: bool,
        text: FieldText,
    },
    /// The form of an action.
    Form {
        kind: FormKind,
    },
}

/// What a client asks, by whom and when, and all else that its answer depends on besides the rows.
#[derive(Drop)]
pub struct ActionCall {
    pub action: Action,
    /// The user of the session, or 0 where nobody is signed in.
    pub user: u32,
    /// The key of the session.
    pub key: SessionKey,
    /// When the request came.
    pub now: Moment,
    /// A random number, whose eight bytes are the salt of a new password.
    pub fresh: u64,
    /// The token that a form carries.
    pub form: [u8; 56],
}
