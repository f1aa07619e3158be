//! The action that a request asks for.

ghost use Rattle.std.specs.Prelude.{◌≡◌};
ghost use Rattle.action_fields.specs.Asked.{asked_action, bid_in, browse_in, buy_in, category_in, close_in, feedback_in, register_in, sell_in, sign_in_in};
ghost use Rattle.action_fields.specs.Reading.{Answers};

use crate::error::FieldError;
use crate::form_field::FormField;
use crate::reading::{good_in, id_in, number_in, page_in, small_in, text_in, user_name_in};
use auction_calls::{
    Action, MAX_AMOUNT, MAX_CATEGORY_NAME_BYTES, MAX_FEEDBACK_BYTES, MAX_HOURS, MAX_PASSWORD_BYTES,
    MAX_TITLE_BYTES,
};
use site_routes::SiteAction;
use std::alloc::Global;

#[tactic(auto, unfolding(crate::specs::Asked::register_in))]
fn register_in(alloc: Global, form: &[u8]) -> Result<Action, FieldError>
    ensures { Answers result (register_in form.now) }
{
    let name = user_name_in(alloc, form)?;
    let password = text_in(
        alloc,
        FormField::Password,
        1,
        MAX_PASSWORD_BYTES as u64,
        form,
    )?;
    Ok(Action::Register { name, password })
}

#[tactic(auto, unfolding(crate::specs::Asked::sign_in_in))]
fn sign_in_in(alloc: Global, form: &[u8]) -> Result<Action, FieldError>
    ensures { Answers result (sign_in_in form.now) }
{
    let name = user_name_in(alloc, form)?;
    let password = text_in(
        alloc,
        FormField::Password,
        1,
        MAX_PASSWORD_BYTES as u64,
        form,
    )?;
    Ok(Action::SignIn { name, password })
}

#[tactic(auto, unfolding(crate::specs::Asked::category_in))]
fn category_in(alloc: Global, form: &[u8]) -> Result<Action, FieldError>
    ensures { Answers result (category_in form.now) }
{
    let name = text_in(
        alloc,
        FormField::Name,
        1,
        MAX_CATEGORY_NAME_BYTES as u64,
        form,
    )?;
    Ok(Action::AddCategory { name })
}

#[tactic(auto, unfolding(crate::specs::Asked::browse_in))]
fn browse_in(alloc: Global, category: u32, query: &[u8]) -> Result<Action, FieldError>
    ensures { Answers result (browse_in category query.now) }
{
    let page = page_in(alloc, query)?;
    Ok(Action::Browse { category, page })
}

#[tactic(auto, unfolding(crate::specs::Asked::sell_in))]
fn sell_in(alloc: Global, form: &[u8]) -> Result<Action, FieldError>
    ensures { Answers result (sell_in form.now) }
{
    let title = text_in(alloc, FormField::Title, 1, MAX_TITLE_BYTES as u64, form)?;
    let category = id_in(alloc, FormField::Category, form)?;
    let start = number_in(alloc, FormField::Start, 1, MAX_AMOUNT, form)?;
    let buy_now = number_in(alloc, FormField::BuyNow, 0, MAX_AMOUNT, form)?;
    let hours = small_in(alloc, FormField::Hours, 1, MAX_HOURS, form)?;
    Ok(Action::Sell {
        title,
        category,
        start,
        buy_now,
        hours,
    })
}

#[tactic(auto, unfolding(crate::specs::Asked::bid_in))]
fn bid_in(alloc: Global, form: &[u8]) -> Result<Action, FieldError>
    ensures { Answers result (bid_in form.now) }
{
    let item = id_in(alloc, FormField::Item, form)?;
    let amount = number_in(alloc, FormField::Amount, 1, MAX_AMOUNT, form)?;
    Ok(Action::Bid { item, amount })
}

#[tactic(auto, unfolding(crate::specs::Asked::buy_in))]
fn buy_in(alloc: Global, form: &[u8]) -> Result<Action, FieldError>
    ensures { Answers result (buy_in form.now) }
{
    let item = id_in(alloc, FormField::Item, form)?;
    Ok(Action::Buy { item })
}

#[tactic(auto, unfolding(crate::specs::Asked::close_in))]
fn close_in(alloc: Global, form: &[u8]) -> Result<Action, FieldError>
    ensures { Answers result (close_in form.now) }
{
    let item = id_in(alloc, FormField::Item, form)?;
    Ok(Action::Close { item })
}

#[tactic(auto, unfolding(crate::specs::Asked::feedback_in))]
fn feedback_in(alloc: Global, form: &[u8]) -> Result<Action, FieldError>
    ensures { Answers result (feedback_in form.now) }
{
    let item = id_in(alloc, FormField::Item, form)?;
    let good = good_in(alloc, form)?;
    let text = text_in(alloc, FormField::Text, 0, MAX_FEEDBACK_BYTES as u64, form)?;
    Ok(Action::Feedback { item, good, text })
}

/// The action that a request asks for: `asked` is where its path and method lead, `query` what stands behind the path,
/// and `form` its body. A GET reads no body, and a POST no query. It visits the query or the form once for each field
/// up to the pair of its name, and takes memory for texts.
///
/// # Errors
/// `Bad` with the first field, in the order of the action's, that is missing or not as it must be, and `OutOfMemory`
/// where memory ran out.
pub fn asked_action(
    alloc: Global,
    asked: SiteAction,
    query: &[u8],
    form: &[u8],
) -> Result<Action, FieldError>
    ensures { Answers result (asked_action asked query.now form.now) }
{
    match asked {
        SiteAction::Home => Ok(Action::Home),
        SiteAction::Register => register_in(alloc, form),
        SiteAction::SignIn => sign_in_in(alloc, form),
        SiteAction::SignOut => Ok(Action::SignOut),
        SiteAction::Categories => Ok(Action::Categories),
        SiteAction::AddCategory => category_in(alloc, form),
        SiteAction::Browse { category } => browse_in(alloc, category, query),
        SiteAction::Item { item } => Ok(Action::Item { item }),
        SiteAction::User { user } => Ok(Action::User { user }),
        SiteAction::About => Ok(Action::About),
        SiteAction::Sell => sell_in(alloc, form),
        SiteAction::Bid => bid_in(alloc, form),
        SiteAction::Buy => buy_in(alloc, form),
        SiteAction::Close => close_in(alloc, form),
        SiteAction::Feedback => feedback_in(alloc, form),
        SiteAction::Form { kind } => Ok(Action::Form { kind }),
    }
}
