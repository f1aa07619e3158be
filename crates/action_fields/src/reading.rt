//! One field of a form.

ghost use Rattle.std.specs.Prelude.{◌≡◌, ◌≤◌, IfOk};
ghost use Rattle.action_fields.specs.Reading.{Answers, good_in, id_in, number_in, page_in, text_in, token_in, user_name_in};
ghost use Rattle.action_fields.specs.declared.form_field.FormField.TheVariants.{Name, Page};

use crate::error::FieldError;
use crate::form_field::FormField;
use auction_calls::{MAX_PAGE, MAX_USER_NAME_BYTES};
use crash_base::{FieldText, is_name};
use form_values::{FieldRefusal, number_field, text_field};
use site_routes::MAX_ID;
use std::alloc::Global;

/// How many bytes the token of a form has, as `auction_calls` has it in a call.
const TOKEN_BYTES: u64 = 56;

/// The text of a field, which has `least` to `most` bytes once it is decoded; U+FFFD counts as 3.
#[tactic(auto, unfolding(crate::specs::Reading::text_in))]
pub fn text_in(
    alloc: Global,
    field: FormField,
    least: u64,
    most: u64,
    form: &[u8],
) -> Result<FieldText, FieldError>
    ensures { Answers result (text_in field least most form.now) }
{
    match text_field(alloc, form, field.word().as_bytes(), least, most) {
        Ok(text) => Ok(text),
        Err(FieldRefusal::Missing) => Err(FieldError::Bad(field)),
        Err(FieldRefusal::Length { .. }) => Err(FieldError::Bad(field)),
        Err(FieldRefusal::NotNumber) => Err(FieldError::Bad(field)),
        Err(FieldRefusal::Range { .. }) => Err(FieldError::Bad(field)),
        Err(FieldRefusal::OutOfMemory) => Err(FieldError::OutOfMemory),
    }
}

/// The number of a field, which is `least` to `most`.
#[tactic(auto, unfolding(crate::specs::Reading::number_in))]
pub fn number_in(
    alloc: Global,
    field: FormField,
    least: u64,
    most: u64,
    form: &[u8],
) -> Result<u64, FieldError>
    ensures value { Answers result (number_in field least most form.now) }
    ensures within { IfOk result (λ number. number ≤ most) }
{
    match number_field(alloc, form, field.word().as_bytes(), least, most) {
        Ok(number) => Ok(number),
        Err(FieldRefusal::Missing) => Err(FieldError::Bad(field)),
        Err(FieldRefusal::Length { .. }) => Err(FieldError::Bad(field)),
        Err(FieldRefusal::NotNumber) => Err(FieldError::Bad(field)),
        Err(FieldRefusal::Range { .. }) => Err(FieldError::Bad(field)),
        Err(FieldRefusal::OutOfMemory) => Err(FieldError::OutOfMemory),
    }
}

/// The name of a user.
#[tactic(auto, unfolding(crate::specs::Reading::user_name_in))]
pub fn user_name_in(alloc: Global, form: &[u8]) -> Result<FieldText, FieldError>
    ensures { Answers result (user_name_in form.now) }
{
    let name = text_in(alloc, FormField::Name, 1, MAX_USER_NAME_BYTES as u64, form)?;
    if is_name(name.as_slice()) {
        Ok(name)
    } else {
        Err(FieldError::Bad(FormField::Name))
    }
}

/// The number of a field, which is `least` to `most`.
pub fn small_in(
    alloc: Global,
    field: FormField,
    least: u32,
    most: u32,
    form: &[u8],
) -> Result<u32, FieldError>
    ensures { Answers result (number_in field least most form.now) }
{
    let number = number_in(alloc, field, u64::from(least), u64::from(most), form)?;
    Ok(number as u32)
}

/// The number of a category, an item or a user.
#[tactic(auto, unfolding(crate::specs::Reading::id_in))]
pub fn id_in(alloc: Global, field: FormField, form: &[u8]) -> Result<u32, FieldError>
    ensures { Answers result (id_in field form.now) }
{
    let number = number_in(alloc, field, 1, MAX_ID, form)?;
    Ok(number as u32)
}

/// The page of a category, which is 0 where it is missing.
#[tactic(auto, unfolding(crate::specs::Reading::page_in))]
pub fn page_in(alloc: Global, query: &[u8]) -> Result<u32, FieldError>
    ensures { Answers result (page_in query.now) }
{
    let word = FormField::Page.word();
    match number_field(alloc, query, word.as_bytes(), 0, u64::from(MAX_PAGE)) {
        Ok(page) => Ok(page as u32),
        Err(FieldRefusal::Missing) => Ok(0),
        Err(FieldRefusal::Length { .. }) => Err(FieldError::Bad(FormField::Page)),
        Err(FieldRefusal::NotNumber) => Err(FieldError::Bad(FormField::Page)),
        Err(FieldRefusal::Range { .. }) => Err(FieldError::Bad(FormField::Page)),
        Err(FieldRefusal::OutOfMemory) => Err(FieldError::OutOfMemory),
    }
}

/// Whether a feedback is good.
#[tactic(auto, unfolding(crate::specs::Reading::good_in))]
pub fn good_in(alloc: Global, form: &[u8]) -> Result<bool, FieldError>
    ensures { Answers result (good_in form.now) }
{
    let number = number_in(alloc, FormField::Good, 0, 1, form)?;
    Ok(number == 1)
}

/// The text of a form's token, which has as many bytes as a token has once it is decoded. It takes memory for the text.
///
/// # Errors
/// `Bad` with `Token` where it is missing or of another length, and `OutOfMemory` where memory ran out.
#[tactic(auto, unfolding(crate::specs::Reading::token_in))]
pub fn token_in(alloc: Global, form: &[u8]) -> Result<FieldText, FieldError>
    ensures { Answers result (token_in form.now) }
{
    text_in(alloc, FormField::Token, TOKEN_BYTES, TOKEN_BYTES, form)
}
