//! The fields that calls alone have, read off the front of bytes.

ghost use Rattle.std.specs.Prelude.{◌≡◌};
ghost use Rattle.byte_fields.specs.Answers.{Reads};
ghost use Rattle.byte_fields.specs.Reading.{flag_of};
ghost use Rattle.auction_calls.specs.Reading.{truth_at, kind_at, head_at};

use crate::action::FormKind;
use byte_fields::{NoField, array_at, id_at, text_at, u64_at};
use crash_base::{FieldText, Moment, SessionKey};

/// Who asks, when, and what else the answer to a call depends on besides its action.
#[derive(Clone, Copy)]
pub struct CallHead {
    pub user: u32,
    pub key: SessionKey,
    pub now: Moment,
    pub fresh: u64,
    pub form: [u8; 56],
}

/// A name and a password.
#[derive(Drop)]
pub struct Credentials {
    pub name: FieldText,
    pub password: FieldText,
}

fn truth_of(number: u64) -> Option<bool>
    ensures { result ≡ flag_of number }
{
    match number {
        0 => Some(false),
        1 => Some(true),
        _ => None,
    }
}

/// A truth, in eight bytes.
#[tactic(auto, unfolding(crate::specs::Reading::truth_at))]
pub fn truth_at(bytes: &[u8]) -> Result<(bool, &[u8]), NoField>
    ensures { Reads (λ f. (f.0, f.1.now)) result (truth_at bytes.now) }
{
    let (number, rest) = u64_at(bytes)?;
    match truth_of(number) {
        None => Err(NoField),
        Some(truth) => Ok((truth, rest)),
    }
}

/// The word of a form.
#[tactic(auto, unfolding(crate::specs::Reading::kind_at))]
pub fn kind_at(bytes: &[u8]) -> Result<(FormKind, &[u8]), NoField>
    ensures { Reads (λ f. (f.0, f.1.now)) result (kind_at bytes.now) }
{
    let (word, rest) = text_at(bytes)?;
    match FormKind::of(word) {
        None => Err(NoField),
        Some(kind) => Ok((kind, rest)),
    }
}

/// Who asks, when, and the rest.
#[tactic(auto, unfolding(crate::specs::Reading::head_at))]
pub fn head_at(bytes: &[u8]) -> Result<(CallHead, &[u8]), NoField>
    ensures { Reads (λ f. (f.0, f.1.now)) result (head_at bytes.now) }
{
    let (user, rest) = id_at(bytes)?;
    let (key, rest) = array_at(rest)?;
    let (now, rest) = u64_at(rest)?;
    let (fresh, rest) = u64_at(rest)?;
    let (form, rest) = array_at(rest)?;
    let head = CallHead {
        user,
        key: SessionKey(key),
        now: Moment(now),
        fresh,
        form,
    };
    Ok((head, rest))
}
