//! What a request asks of the auction: the action with its fields, or the first field that is bad.
//!
//! A path and a method lead to one of sixteen actions, and say the id of a category, an item or a user, or the kind of
//! a form. What else an action needs stands in the query of a GET and in the body of a POST:
//!
//! ```text
//! let action = asked_action(alloc, SiteAction::Bid, b"", b"item=7&amount=500")?;  // Bid { item: 7, amount: 500 }
//! asked_action(alloc, SiteAction::Bid, b"", b"item=0&amount=0")                   // Err(Bad(Item)): the first one
//! asked_action(alloc, SiteAction::Browse { category: 3 }, b"", b"")?              // page 0, where none is said
//! ```
//!
//! | Action | Fields, in their order |
//! |---|---|
//! | register, sign in | `name` 1 to 24 letters of ASCII, digits or `_`; `password` 1 to 72 bytes |
//! | add category | `name` 1 to 40 bytes |
//! | browse | `page` 0 to 9,999 in the query, 0 where it is missing |
//! | sell | `title` 1 to 80 bytes; `category`; `start` 1 to 4,000,000,000; `buy_now` 0 to the same; `hours` 1 to 720 |
//! | bid | `item`; `amount` 1 to 4,000,000,000 |
//! | buy, close | `item` |
//! | feedback | `item`; `good` 0 or 1; `text` 0 to 200 bytes |
//! | each other | none |
//!
//! Each POST has besides a `token` of 56 bytes (`token_in`), which is looked at behind the fields.
//!
//! `category` and `item` are 1 to 4,294,967,295. How a form spells a text and a number is said by `form_values`. Bytes
//! are counted once the text is decoded, where U+FFFD, which stands for what is no UTF-8, has 3.
//!
//! `specs/Asked.antt` has this table as the function `asked_action`, and the code answers exactly what it says, unless
//! memory runs out. The law `bad_fields_are_first` says it by `specs/Table.antt`, where each field stands with whether
//! the form says it well: the field that is named is the first that is not, and none is named where each is. The law
//! `actions_are_read_exactly` says which action is read: the one whose values stand in the fields of their names
//! (`specs/Said.antt`) and are in the ranges of `auction_calls`.
//!
//! `auction_calls` tests the fields that a call has, and this crate those that a form says: a number that is none and a
//! text that is missing are bad here alone, and an id of a path, which a call has as a field, is the router's to test.
#![tactic(auto)]

mod asked;
mod error;
mod form_field;
mod laws;
mod reading;

pub use asked::asked_action;
pub use error::FieldError;
pub use form_field::FormField;
pub use laws::{actions_are_read_exactly, bad_fields_are_first};
pub use reading::token_in;
