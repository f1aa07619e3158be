//! Which calls a client may make: the ranges of fields, and the first field that is out of its own.

ghost use Rattle.std.specs.Prelude.{◌≡◌, ◌≤◌, ◌<◌, ◌^◌, nat_le, [], ◌∷◌, length, true, false, MatchOption};
ghost use Rattle.std.specs.Str.{is_utf8};
ghost use Rattle.auction_calls.specs.Calls.{is_between, is_id, is_text, is_user_name, is_sized, is_call};
ghost use Rattle.auction_calls.specs.declared.call_field.CallField.TheVariants.{Category, Item, Page};
ghost use Rattle.auction_calls.specs.BadFields.{field_test, credential_fields, offer_fields, action_fields, first_out, bad_field};

use crate::action::{Action, ActionCall};
use crate::call_field::CallField;
use byte_fields::is_utf8;
use crash_base::is_name;

/// The most bytes of a user's name. The least is 1, and each is a letter of ASCII, a digit or `_`.
pub const MAX_USER_NAME_BYTES: usize = 24;

/// The most bytes of a password. The least is 1.
pub const MAX_PASSWORD_BYTES: usize = 72;

/// The most bytes of a category's name. The least is 1.
pub const MAX_CATEGORY_NAME_BYTES: usize = 40;

/// The most bytes of an item's title. The least is 1.
pub const MAX_TITLE_BYTES: usize = 80;

/// The most bytes of a feedback's text, which may be empty.
pub const MAX_FEEDBACK_BYTES: usize = 200;

/// The last page of a category. The first is 0.
pub const MAX_PAGE: u32 = 9999;

/// The greatest amount, in cents. The least is 1, and 0 for the price of a sale at once.
pub const MAX_AMOUNT: u64 = 4_000_000_000;

/// The most hours that an auction runs. The least is 1.
pub const MAX_HOURS: u32 = 720;

/// Moments are below it.
pub const MOMENT_LIMIT: u64 = 1 << 62;

fn is_id(number: u32) -> bool
    ensures { result ≡ is_id number }
{
    1 <= number
}

fn is_text(least: usize, most: usize, text: &[u8]) -> bool
    ensures { result ≡ is_text least most text.now }
{
    least <= text.len() && text.len() <= most && is_utf8(text)
}

fn is_user_name(name: &[u8]) -> bool
    ensures { result ≡ is_user_name name.now }
{
    name.len() <= MAX_USER_NAME_BYTES && is_name(name)
}

fn is_amount(amount: u64) -> bool
    ensures { result ≡ is_between 1 4000000000 amount }
{
    1 <= amount && amount <= MAX_AMOUNT
}

fn are_hours(hours: u32) -> bool
    ensures { result ≡ is_between 1 720 hours }
{
    1 <= hours && hours <= MAX_HOURS
}

/// The field, where it is out of its range.
fn unless(is_in: bool, field: CallField) -> Option<CallField>
    ensures { result ≡ first_out (field_test field is_in ∷ []) }
{
    if is_in { None } else { Some(field) }
}

/// The first of a name of a user and a password that is out of its range.
fn bad_credential(name: &[u8], password: &[u8]) -> Option<CallField>
    ensures { result ≡ first_out (credential_fields name.now password.now) }
{
    if is_user_name(name) {
        unless(
            is_text(1, MAX_PASSWORD_BYTES, password),
            CallField::Password,
        )
    } else {
        Some(CallField::Name)
    }
}

/// The first field of an offer that is out of its range.
fn bad_offer(title: &[u8], category: u32, start: u64, buy_now: u64, hours: u32) -> Option<CallField>
    ensures { result ≡ first_out (offer_fields title.now category start buy_now hours) }
{
    if !is_text(1, MAX_TITLE_BYTES, title) {
        Some(CallField::Title)
    } else if !is_id(category) {
        Some(CallField::Category)
    } else if !is_amount(start) {
        Some(CallField::Start)
    } else if buy_now > MAX_AMOUNT {
        Some(CallField::BuyNow)
    } else {
        unless(are_hours(hours), CallField::Hours)
    }
}

/// The number of an item, and another field behind it.
fn bad_item(item: u32, is_in: bool, field: CallField) -> Option<CallField>
    ensures { result ≡ first_out (field_test Item (is_id item) ∷ field_test field is_in ∷ []) }
{
    if is_id(item) {
        unless(is_in, field)
    } else {
        Some(CallField::Item)
    }
}

/// A category and a page.
fn bad_browse(category: u32, page: u32) -> Option<CallField>
    ensures { result ≡ first_out (field_test Category (is_id category) ∷ field_test Page (nat_le page 9999) ∷ []) }
{
    if is_id(category) {
        unless(page <= MAX_PAGE, CallField::Page)
    } else {
        Some(CallField::Category)
    }
}

/// The first field of an action that is out of its range. It visits each byte of its texts once, and takes no memory.
fn bad_in_action(action: &Action) -> Option<CallField>
    ensures { result ≡ first_out (action_fields action.now) }
{
    match action {
        Action::Register { name, password } | Action::SignIn { name, password } => {
            bad_credential(name.as_slice(), password.as_slice())
        }
        Action::AddCategory { name } => unless(
            is_text(1, MAX_CATEGORY_NAME_BYTES, name.as_slice()),
            CallField::Name,
        ),
        Action::Browse { category, page } => bad_browse(*category, *page),
        Action::User { user } => unless(is_id(*user), CallField::User),
        Action::Sell {
            title,
            category,
            start,
            buy_now,
            hours,
        } => bad_offer(title.as_slice(), *category, *start, *buy_now, *hours),
        Action::Bid { item, amount } => bad_item(*item, is_amount(*amount), CallField::Amount),
        Action::Item { item } | Action::Buy { item } | Action::Close { item } => {
            unless(is_id(*item), CallField::Item)
        }
        Action::Feedback {
            item,
            good: _,
            text,
        } => bad_item(
            *item,
            is_text(0, MAX_FEEDBACK_BYTES, text.as_slice()),
            CallField::Text,
        ),
        Action::Home
        | Action::SignOut
        | Action::Categories
        | Action::About
        | Action::Form { kind: _ } => None,
    }
}

fn numbers_are_sized(user: u32, fresh: u64)
    ensures { (user ≤ 4294967295) × (fresh < 2 ^ 64) }
{}

fn arrays_are_sized(key: &[u8; 16], form: &[u8; 56])
    ensures { (length key.now ≡ 16) × (length form.now ≡ 56) }
{}

/// The fields of a call have the sizes that their types give them.
fn call_is_sized(call: &ActionCall)
    ensures { is_sized call.entry.now ≡ true }
{
    numbers_are_sized(call.user, call.fresh);
    arrays_are_sized(&call.key.0, &call.form)
}

/// The first bad field of a call, in order.
fn first_bad(call: &ActionCall) -> Option<CallField>
    ensures { result ≡ bad_field call.entry.now }
{
    if call.now.0 < MOMENT_LIMIT {
        bad_in_action(&call.action)
    } else {
        Some(CallField::Moment)
    }
}

/// The first field of a call that is out of its range: its moment, or a field of its action in their order. None
/// exactly where each is in its range. It visits each byte of the texts of its action once, and takes no memory.
pub fn bad_field(call: &ActionCall) -> Option<CallField>
    ensures value { result ≡ bad_field call.entry.now }
    ensures exact { MatchOption result (is_call call.entry.now ≡ true) (λ field. is_call call.entry.now ≡ false) }
{
    call_is_sized(call);
    first_bad(call)
}
