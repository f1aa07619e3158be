//! Calls from their texts.

ghost use Rattle.std.specs.Prelude.{◌≡◌, IfOk, MatchOption};
ghost use Rattle.byte_fields.specs.Answers.{Answers, Reads};
ghost use Rattle.auction_calls.specs.Reading.{credentials_at, register_at, sign_in_at, add_category_at, browse_at, item_at, user_at, sell_at, bid_at, buy_at, close_at, feedback_at, form_at, action_at, call_at, call_of};
ghost use Rattle.auction_calls.specs.Texts.{Spells, SpellsNoCall};

use crate::action::{Action, ActionCall};
use crate::checked::CheckedCall;
use crate::fields::{CallHead, Credentials, head_at, kind_at, truth_at};
use crate::laws::texts_are_exact;
use byte_fields::{NoField, ReadError, bytes_are_in_range, found, id_at, text_at, u64_at};
use crash_base::{FieldText, OutOfMemory};
use std::alloc::Global;

/// A name and a password.
#[tactic(auto, unfolding(crate::specs::Reading::credentials_at))]
fn credentials_at<'a>(alloc: Global, bytes: &'a [u8]) -> Result<(Credentials, &'a [u8]), ReadError>
    ensures { Answers (λ f. (f.0, f.1.now)) result (credentials_at bytes.now) }
{
    let (name, rest) = text_at(bytes)?;
    let (password, rest) = text_at(rest)?;
    let credentials = Credentials {
        name: FieldText::copied(alloc, name)?,
        password: FieldText::copied(alloc, password)?,
    };
    Ok((credentials, rest))
}

#[tactic(auto, unfolding(crate::specs::Reading::register_at))]
fn register_at<'a>(alloc: Global, bytes: &'a [u8]) -> Result<(Action, &'a [u8]), ReadError>
    ensures { Answers (λ f. (f.0, f.1.now)) result (register_at bytes.now) }
{
    let (Credentials { name, password }, rest) = credentials_at(alloc, bytes)?;
    Ok((Action::Register { name, password }, rest))
}

#[tactic(auto, unfolding(crate::specs::Reading::sign_in_at))]
fn sign_in_at<'a>(alloc: Global, bytes: &'a [u8]) -> Result<(Action, &'a [u8]), ReadError>
    ensures { Answers (λ f. (f.0, f.1.now)) result (sign_in_at bytes.now) }
{
    let (Credentials { name, password }, rest) = credentials_at(alloc, bytes)?;
    Ok((Action::SignIn { name, password }, rest))
}

#[tactic(auto, unfolding(crate::specs::Reading::add_category_at))]
fn add_category_at<'a>(alloc: Global, bytes: &'a [u8]) -> Result<(Action, &'a [u8]), ReadError>
    ensures { Answers (λ f. (f.0, f.1.now)) result (add_category_at bytes.now) }
{
    let (name, rest) = text_at(bytes)?;
    let name = FieldText::copied(alloc, name)?;
    Ok((Action::AddCategory { name }, rest))
}

#[tactic(auto, unfolding(crate::specs::Reading::browse_at))]
fn browse_at(bytes: &[u8]) -> Result<(Action, &[u8]), NoField>
    ensures { Reads (λ f. (f.0, f.1.now)) result (browse_at bytes.now) }
{
    let (category, rest) = id_at(bytes)?;
    let (page, rest) = id_at(rest)?;
    Ok((Action::Browse { category, page }, rest))
}

#[tactic(auto, unfolding(crate::specs::Reading::item_at))]
fn item_at(bytes: &[u8]) -> Result<(Action, &[u8]), NoField>
    ensures { Reads (λ f. (f.0, f.1.now)) result (item_at bytes.now) }
{
    let (item, rest) = id_at(bytes)?;
    Ok((Action::Item { item }, rest))
}

#[tactic(auto, unfolding(crate::specs::Reading::user_at))]
fn user_at(bytes: &[u8]) -> Result<(Action, &[u8]), NoField>
    ensures { Reads (λ f. (f.0, f.1.now)) result (user_at bytes.now) }
{
    let (user, rest) = id_at(bytes)?;
    Ok((Action::User { user }, rest))
}

#[tactic(auto, unfolding(crate::specs::Reading::sell_at))]
fn sell_at<'a>(alloc: Global, bytes: &'a [u8]) -> Result<(Action, &'a [u8]), ReadError>
    ensures { Answers (λ f. (f.0, f.1.now)) result (sell_at bytes.now) }
{
    let (title, rest) = text_at(bytes)?;
    let (category, rest) = id_at(rest)?;
    let (start, rest) = u64_at(rest)?;
    let (buy_now, rest) = u64_at(rest)?;
    let (hours, rest) = id_at(rest)?;
    let action = Action::Sell {
        title: FieldText::copied(alloc, title)?,
        category,
        start,
        buy_now,
        hours,
    };
    Ok((action, rest))
}

#[tactic(auto, unfolding(crate::specs::Reading::bid_at))]
fn bid_at(bytes: &[u8]) -> Result<(Action, &[u8]), NoField>
    ensures { Reads (λ f. (f.0, f.1.now)) result (bid_at bytes.now) }
{
    let (item, rest) = id_at(bytes)?;
    let (amount, rest) = u64_at(rest)?;
    Ok((Action::Bid { item, amount }, rest))
}

#[tactic(auto, unfolding(crate::specs::Reading::buy_at))]
fn buy_at(bytes: &[u8]) -> Result<(Action, &[u8]), NoField>
    ensures { Reads (λ f. (f.0, f.1.now)) result (buy_at bytes.now) }
{
    let (item, rest) = id_at(bytes)?;
    Ok((Action::Buy { item }, rest))
}

#[tactic(auto, unfolding(crate::specs::Reading::close_at))]
fn close_at(bytes: &[u8]) -> Result<(Action, &[u8]), NoField>
    ensures { Reads (λ f. (f.0, f.1.now)) result (close_at bytes.now) }
{
    let (item, rest) = id_at(bytes)?;
    Ok((Action::Close { item }, rest))
}

#[tactic(auto, unfolding(crate::specs::Reading::feedback_at))]
fn feedback_at<'a>(alloc: Global, bytes: &'a [u8]) -> Result<(Action, &'a [u8]), ReadError>
    ensures { Answers (λ f. (f.0, f.1.now)) result (feedback_at bytes.now) }
{
    let (item, rest) = id_at(bytes)?;
    let (good, rest) = truth_at(rest)?;
    let (text, rest) = text_at(rest)?;
    let text = FieldText::copied(alloc, text)?;
    Ok((Action::Feedback { item, good, text }, rest))
}

#[tactic(auto, unfolding(crate::specs::Reading::form_at))]
fn form_at(bytes: &[u8]) -> Result<(Action, &[u8]), NoField>
    ensures { Reads (λ f. (f.0, f.1.now)) result (form_at bytes.now) }
{
    let (kind, rest) = kind_at(bytes)?;
    Ok((Action::Form { kind }, rest))
}

/// The action of this number, by its fields.
fn action_at<'a>(
    alloc: Global,
    number: u8,
    bytes: &'a [u8],
) -> Result<(Action, &'a [u8]), ReadError>
    ensures { Answers (λ f. (f.0, f.1.now)) result (action_at number bytes.now) }
{
    match number {
        1 => Ok((Action::Home, bytes)),
        2 => register_at(alloc, bytes),
        3 => sign_in_at(alloc, bytes),
        4 => Ok((Action::SignOut, bytes)),
        5 => Ok((Action::Categories, bytes)),
        6 => add_category_at(alloc, bytes),
        7 => Ok(browse_at(bytes)?),
        8 => Ok(item_at(bytes)?),
        9 => Ok(user_at(bytes)?),
        10 => Ok((Action::About, bytes)),
        11 => sell_at(alloc, bytes),
        12 => Ok(bid_at(bytes)?),
        13 => Ok(buy_at(bytes)?),
        14 => Ok(close_at(bytes)?),
        15 => feedback_at(alloc, bytes),
        16 => Ok(form_at(bytes)?),
        _ => Err(ReadError::Bad),
    }
}

/// A call, and the bytes after it.
#[tactic(auto, unfolding(crate::specs::Reading::call_at))]
fn call_at<'a>(alloc: Global, text: &'a [u8]) -> Result<(ActionCall, &'a [u8]), ReadError>
    ensures { Answers (λ f. (f.0, f.1.now)) result (call_at text.now) }
{
    let [number, bytes @ ..] = text else {
        return Err(ReadError::Bad);
    };
    let (head, bytes) = head_at(bytes)?;
    let (action, bytes) = action_at(alloc, *number, bytes)?;
    let CallHead {
        user,
        key,
        now,
        fresh,
        form,
    } = head;
    let call = ActionCall {
        action,
        user,
        key,
        now,
        fresh,
        form,
    };
    Ok((call, bytes))
}

/// The call that a text spells, the first to the last of its bytes.
#[tactic(auto, unfolding(crate::specs::Reading::call_of))]
fn call_of(alloc: Global, text: &[u8]) -> Result<CheckedCall, ReadError>
    ensures { Answers (λ call. call) result (call_of text.now) }
{
    let (call, rest) = call_at(alloc, text)?;
    if !rest.is_empty() {
        return Err(ReadError::Bad);
    }
    match CheckedCall::check(call) {
        Ok(checked) => Ok(checked),
        Err(_) => Err(ReadError::Bad),
    }
}

/// The call that a text spells. None exactly where no call in its ranges spells it. It visits each byte
/// at most three times, and takes memory for the texts among the fields of the action.
pub fn read_action(alloc: Global, text: &[u8]) -> Result<Option<CheckedCall>, OutOfMemory>
    ensures value { IfOk result (λ found. found ≡ call_of text.now) }
    ensures exact { IfOk result (λ found. MatchOption found (SpellsNoCall text.now)
        (λ call. Spells text.now call)) }
{
    bytes_are_in_range(text);
    texts_are_exact();
    let found = found(call_of(alloc, text))?;
    Ok(found)
}
