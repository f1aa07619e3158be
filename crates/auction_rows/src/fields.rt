//! The fields that rows alone have: the states of items and the feedback that was given, as one byte each,
//! and how many bytes there may be.

ghost use Rattle.std.specs.Prelude.{◌≡◌, ◌==◌, nat_lt, if◌then◌else◌, length, Some, None};
ghost use Rattle.crash_base.specs.declared.rows.TheConstants.{MAX_ROW_BYTES};
ghost use Rattle.byte_fields.specs.Answers.{Answers, Reads};
ghost use Rattle.byte_fields.specs.Reading.{byte_as};
ghost use Rattle.auction_rows.specs.Reading.{state_of, given_of};
ghost use Rattle.auction_rows.specs.Spelling.{state_number, given_number};

use crate::rows::{GivenFeedback, ItemState};
use byte_fields::{NoField, ReadError, u8_at};
use crash_base::MAX_ROW_BYTES;

/// A state, as one byte.
pub(crate) fn state_at(bytes: &[u8]) -> Result<(ItemState, &[u8]), NoField>
    ensures { Reads (λ f. (f.0, f.1.now)) result (byte_as state_of bytes.now) }
{
    let (byte, rest) = u8_at(bytes)?;
    match byte {
        0 => Ok((ItemState::Running, rest)),
        1 => Ok((ItemState::Closed, rest)),
        2 => Ok((ItemState::Sold, rest)),
        _ => Err(NoField),
    }
}

fn given(by_buyer: bool, by_seller: bool) -> GivenFeedback
    ensures buyer { result.by_buyer ≡ by_buyer }
    ensures seller { result.by_seller ≡ by_seller }
{
    GivenFeedback {
        by_buyer,
        by_seller,
    }
}

/// Who has given feedback, as one byte.
pub(crate) fn given_at(bytes: &[u8]) -> Result<(GivenFeedback, &[u8]), NoField>
    ensures { Reads (λ f. (f.0, f.1.now)) result (byte_as given_of bytes.now) }
{
    let (byte, rest) = u8_at(bytes)?;
    match byte {
        0 => Ok((given(false, false), rest)),
        1 => Ok((given(true, false), rest)),
        2 => Ok((given(false, true), rest)),
        3 => Ok((given(true, true), rest)),
        _ => Err(NoField),
    }
}

/// Refuses bytes that are too many for a row.
pub(crate) fn check_few(bytes: &[u8]) -> Result<(), ReadError>
    ensures { Answers (λ _. bytes.now) result
        (if nat_lt MAX_ROW_BYTES (length bytes.now) then None else Some bytes.now) }
{
    if bytes.len() > MAX_ROW_BYTES {
        return Err(ReadError::Bad);
    }
    Ok(())
}

/// Refuses bytes behind the last field.
pub(crate) fn check_end(rest: &[u8]) -> Result<(), ReadError>
    ensures { Answers (λ _. rest.now) result
        (if length rest.now == 0 then Some rest.now else None) }
{
    if !rest.is_empty() {
        return Err(ReadError::Bad);
    }
    Ok(())
}

/// The number of a state.
pub(crate) fn state_number(state: ItemState) -> u8
    ensures { result ≡ state_number state }
{
    match state {
        ItemState::Running => 0,
        ItemState::Closed => 1,
        ItemState::Sold => 2,
    }
}

/// The number of who has given feedback.
pub(crate) fn given_number(given: GivenFeedback) -> u8
    ensures { result ≡ given_number given }
{
    match (given.by_buyer, given.by_seller) {
        (false, false) => 0,
        (true, false) => 1,
        (false, true) => 2,
        (true, true) => 3,
    }
}
