//! What clients ask of the auction, and the texts that say it in the journal.
//!
//! A call is one of sixteen actions, with who asks, when, and all else that its answer depends on besides
//! the rows: a journal of the texts of calls can be played again. `CheckedCall` is a call whose fields are
//! in their ranges, and nothing else makes one but the check and the reading of a text.
//!
//! ```text
//! let call = ActionCall { action: Action::Buy { item: 7 }, user: 3, key, now, fresh, form };
//! let Ok(call) = CheckedCall::check(call) else { .. };    // item 0 would be handed back, with CallField::Item
//! let text = action_text(alloc, &call)?;                  // 0d, then 96 bytes, then 8 of the item
//! read_action(alloc, text.as_slice())?                    // that call again
//! ```
//!
//! A text is the number of the action in one byte, 1 to 16 in the order of `Action`; the user in eight
//! bytes, the key of the session in 16, the moment in eight, the random number in eight and the token in
//! 56; and then the fields of the action in their order. A number has eight bytes, big end first, `good`
//! is 1 or 0, and a text is its length in two bytes and its bytes, as is the word of a form
//! (`FormKind::word`). Nothing follows the last field.
//!
//! | Field | Range |
//! |---|---|
//! | the moment | below 2^62 |
//! | an item, a user or a category of an action | 1 to 4,294,967,295 |
//! | the name of a user | 1 to 24 letters of ASCII, digits or `_` |
//! | a password | 1 to 72 bytes of UTF-8 |
//! | the name of a category | 1 to 40 bytes of UTF-8 |
//! | a title | 1 to 80 bytes of UTF-8 |
//! | the text of a feedback | 0 to 200 bytes of UTF-8 |
//! | a page | 0 to 9,999 |
//! | `start` and the amount of a bid | 1 to 4,000,000,000 cents |
//! | `buy_now` | 0 to 4,000,000,000 cents |
//! | hours | 1 to 720 |
//!
//! Each limit is a public constant (`MAX_TITLE_BYTES`), and the first field that is out of its range is named
//! (`bad_field`): the moment, or a field of the action in the order above.
//!
//! `is_call` says which calls are in their ranges, `call_bytes` what the text of each is, and `Spells` that
//! a text spells a call. A text is read as exactly the call in its ranges that it spells, and as none
//! exactly where it spells none (`texts_are_exact`); what is written is read as itself
//! (`texts_read_back`); and no text spells two calls (`texts_spell_one_call`).
#![tactic(auto)]

mod action;
mod call_field;
mod checked;
mod fields;
mod kinds;
mod laws;
mod ranges;
mod reading;
mod writing;

pub use action::{Action, ActionCall, FormKind};
pub use call_field::CallField;
pub use checked::{BadCall, CheckedCall};
pub use laws::{
    bad_fields_are_first, ranges_are, texts_are_exact, texts_read_back, texts_spell_one_call,
    user_names_are_utf8, words_are_of_one_form,
};
pub use ranges::{
    MAX_AMOUNT, MAX_CATEGORY_NAME_BYTES, MAX_FEEDBACK_BYTES, MAX_HOURS, MAX_PAGE,
    MAX_PASSWORD_BYTES, MAX_TITLE_BYTES, MAX_USER_NAME_BYTES, MOMENT_LIMIT, bad_field,
};
pub use reading::read_action;
pub use writing::action_text;
