//! Texts of calls.

ghost use Rattle.std.specs.Prelude.{◌≡◌, ◌<◌, ◌^◌, ◌++◌, ◌∷◌, length, true, Some, IfOk, OnOk};
ghost use Rattle.auction_calls.specs.Calls.{are_credentials, is_offer, is_text, is_action, is_call};
ghost use Rattle.byte_fields.specs.Spelling.{u64_bytes, text16, flag};
ghost use Rattle.auction_calls.specs.Texts.{kind_text, action_number, head_bytes, field_bytes, call_bytes};
ghost use Rattle.auction_calls.specs.Reading.{call_of};
ghost use Rattle.auction_calls.specs.declared.action.Action.TheVariants.{Register, Sell, Feedback, Form};

use crate::action::{Action, ActionCall, FormKind};
use crate::checked::CheckedCall;
use crate::laws::texts_read_back;
use byte_fields::{write_id, write_text, write_u64};
use crash_base::{ActionText, OutOfMemory};
use std::alloc::Global;

/// The number of an action.
fn action_number(action: &Action) -> u8
    ensures { result ≡ action_number action.now }
{
    match action {
        Action::Home => 1,
        Action::Register { .. } => 2,
        Action::SignIn { .. } => 3,
        Action::SignOut => 4,
        Action::Categories => 5,
        Action::AddCategory { .. } => 6,
        Action::Browse { .. } => 7,
        Action::Item { .. } => 8,
        Action::User { .. } => 9,
        Action::About => 10,
        Action::Sell { .. } => 11,
        Action::Bid { .. } => 12,
        Action::Buy { .. } => 13,
        Action::Close { .. } => 14,
        Action::Feedback { .. } => 15,
        Action::Form { .. } => 16,
    }
}

fn write_two(out: &mut Vec<u8>, first: u64, second: u64) -> Result<(), OutOfMemory>
    ensures { OnOk result (out.new.items ≡ out.old.items ++ (u64_bytes first ++ u64_bytes second)) }
{
    write_u64(out, first)?;
    write_u64(out, second)?;
    Ok(())
}

fn write_credentials(out: &mut Vec<u8>, name: &[u8], password: &[u8]) -> Result<(), OutOfMemory>
    requires { are_credentials name.now password.now ≡ true }
    ensures { OnOk result (out.new.items ≡ out.old.items ++ (text16 name.now ++ text16 password.now)) }
{
    write_text(out, name)?;
    write_text(out, password)?;
    Ok(())
}

fn write_offer(
    out: &mut Vec<u8>,
    title: &[u8],
    category: u32,
    start: u64,
    buy_now: u64,
    hours: u32,
) -> Result<(), OutOfMemory>
    requires { length title.now < 2 ^ 16 }
    ensures { OnOk result (out.new.items ≡ out.old.items
        ++ (text16 title.now ++ (u64_bytes category
        ++ (u64_bytes start ++ (u64_bytes buy_now ++ u64_bytes hours))))) }
{
    write_text(out, title)?;
    write_two(out, u64::from(category), start)?;
    write_two(out, buy_now, u64::from(hours))?;
    Ok(())
}

fn write_feedback(out: &mut Vec<u8>, item: u32, good: bool, text: &[u8]) -> Result<(), OutOfMemory>
    requires { length text.now < 2 ^ 16 }
    ensures { OnOk result (out.new.items ≡ out.old.items
        ++ (u64_bytes item ++ (u64_bytes (flag good) ++ text16 text.now))) }
{
    write_two(out, u64::from(item), u64::from(good))?;
    write_text(out, text)?;
    Ok(())
}

fn write_kind(out: &mut Vec<u8>, kind: FormKind) -> Result<(), OutOfMemory>
    ensures { OnOk result (out.new.items ≡ out.old.items ++ text16 (kind_text kind)) }
{
    write_text(out, kind.word().as_bytes())?;
    Ok(())
}

/// Writes the fields of an action.
#[tactic(auto, unfolding(crate::specs::Texts::field_bytes))]
fn write_fields(out: &mut Vec<u8>, action: &Action) -> Result<(), OutOfMemory>
    requires { is_action action.now ≡ true }
    ensures { OnOk result (out.new.items ≡ out.old.items ++ field_bytes action.now) }
{
    match action {
        Action::Home | Action::SignOut | Action::Categories | Action::About => Ok(()),
        Action::Register { name, password } | Action::SignIn { name, password } => {
            write_credentials(out, name.as_slice(), password.as_slice())
        }
        Action::AddCategory { name } => write_text(out, name.as_slice()),
        Action::Browse { category, page } => {
            write_two(out, u64::from(*category), u64::from(*page))
        }
        Action::User { user } => write_id(out, *user),
        Action::Sell {
            title,
            category,
            start,
            buy_now,
            hours,
        } => write_offer(out, title.as_slice(), *category, *start, *buy_now, *hours),
        Action::Bid { item, amount } => write_two(out, u64::from(*item), *amount),
        Action::Item { item } | Action::Buy { item } | Action::Close { item } => {
            write_id(out, *item)
        }
        Action::Feedback { item, good, text } => {
            write_feedback(out, *item, *good, text.as_slice())
        }
        Action::Form { kind } => write_kind(out, *kind),
    }
}

/// Writes who asks, when, and what else the answer depends on.
#[tactic(auto, unfolding(crate::specs::Texts::head_bytes))]
fn write_head(out: &mut Vec<u8>, call: &ActionCall) -> Result<(), OutOfMemory>
    ensures { OnOk result (out.new.items ≡ out.old.items ++ head_bytes call.entry.now) }
{
    write_id(out, call.user)?;
    out.extend_from_slice(&call.key.0)?;
    write_two(out, call.now.0, call.fresh)?;
    out.extend_from_slice(&call.form)?;
    Ok(())
}

/// Writes a call.
#[tactic(auto, unfolding(crate::specs::Texts::call_bytes))]
fn write_call(out: &mut Vec<u8>, call: &ActionCall) -> Result<(), OutOfMemory>
    requires { is_call call.now ≡ true }
    ensures { OnOk result (out.new.items ≡ out.old.items ++ call_bytes call.entry.now) }
{
    out.push(action_number(&call.action))?;
    write_head(out, call)?;
    write_fields(out, &call.action)?;
    Ok(())
}

/// The text of a call, which `read_action` reads as it. It visits each byte of the texts of its action
/// once.
pub fn action_text(alloc: Global, call: &CheckedCall) -> Result<ActionText, OutOfMemory>
    ensures value { IfOk result (λ text. text ≡ call_bytes call.now) }
    ensures back { IfOk result (λ text. call_of text ≡ Some call.now) }
{
    texts_read_back();
    let mut out = Vec::new(alloc);
    write_call(&mut out, call.call())?;
    Ok(ActionText::from_vec(out))
}
