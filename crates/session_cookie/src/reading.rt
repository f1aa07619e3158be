//! Fields that are taken off bytes.

ghost use Rattle.std.specs.Prelude.{◌≡◌, ◌≢◌, ◌⊎◌, ◌+◌, ◌<◌, ◌^◌, ◌∷◌, [], length, slice_index, MatchOption};
ghost use Rattle.std.specs.Int.{to_be_bytes, w16, w32, w64};
ghost use Rattle.session_cookie.specs.declared.cookie.TheConstants.{HEAD_BYTES, HOLDER_BYTES};
ghost use Rattle.session_cookie.specs.Cookie.{head_bytes, holder_bytes, version_bytes, IsHead, IsHolder, IsKey, IsVersion};
ghost use Rattle.session_cookie.specs.Reading.{IsTaken};

use crate::cookie::{HEAD_BYTES, HOLDER_BYTES, Holder, key_is_in_range};
use crash_base::{BrickNo, Moment, SessionKey, Version, take_u16, take_u32, take_u64};

/// The fields before the bricks.
#[derive(Clone, Copy)]
pub struct Head {
    pub key: SessionKey,
    pub version: Version,
    pub expiry: Moment,
    /// How many bricks follow.
    pub count: u8,
}

fn take_two(bytes: &[u8]) -> Option<(u16, &[u8])>
    ensures { MatchOption result (length bytes.now < 2)
        (λ field. IsTaken (to_be_bytes w16 field.0) bytes.now field.1.now × (field.0 < 2 ^ 16)) }
{
    let (number, rest) = take_u16(bytes)?;
    Some((number, rest))
}

pub fn take_four(bytes: &[u8]) -> Option<(u32, &[u8])>
    ensures { MatchOption result (length bytes.now < 4)
        (λ field. IsTaken (to_be_bytes w32 field.0) bytes.now field.1.now × (field.0 < 2 ^ 32)) }
{
    let (number, rest) = take_u32(bytes)?;
    Some((number, rest))
}

pub fn take_eight(bytes: &[u8]) -> Option<(u64, &[u8])>
    ensures { MatchOption result (length bytes.now < 8)
        (λ field. IsTaken (to_be_bytes w64 field.0) bytes.now field.1.now × (field.0 < 2 ^ 64)) }
{
    let (number, rest) = take_u64(bytes)?;
    Some((number, rest))
}

/// None exactly where there are fewer than 14 bytes.
#[tactic(auto, unfolding(crate::specs::Cookie::version_bytes))]
fn take_version(bytes: &[u8]) -> Option<(Version, &[u8])>
    ensures { MatchOption result (length bytes.now < 14)
        (λ field. IsTaken (version_bytes field.0) bytes.now field.1.now × IsVersion field.0
        × (length bytes.now ≡ 14 + length field.1.now)) }
{
    let (node, rest) = take_two(bytes)?;
    let (boot, rest) = take_four(rest)?;
    let (serial, rest) = take_eight(rest)?;
    Some((Version { node, boot, serial }, rest))
}

fn take_key(bytes: &[u8]) -> Option<(SessionKey, &[u8])>
    ensures { MatchOption result (length bytes.now < 16)
        (λ field. IsTaken field.0.0 bytes.now field.1.now × IsKey field.0) }
{
    let (key, rest) = bytes.split_first_chunk::<16>()?;
    let key = SessionKey(*key);
    key_is_in_range(&key);
    Some((key, rest))
}

fn take_byte(bytes: &[u8]) -> Option<(u8, &[u8])>
    ensures { MatchOption result (length bytes.now < 1)
        (λ field. IsTaken (field.0 ∷ []) bytes.now field.1.now) }
{
    let (byte, rest) = bytes.split_first()?;
    Some((*byte, rest))
}

/// None exactly where there are fewer than 10 bytes.
#[tactic(auto, unfolding(crate::specs::Cookie::holder_bytes))]
pub fn take_holder(bytes: &[u8]) -> Option<(Holder, &[u8])>
    ensures { MatchOption result (length bytes.now < HOLDER_BYTES)
        (λ field. IsTaken (holder_bytes field.0) bytes.now field.1.now × IsHolder field.0) }
{
    let (brick, rest) = take_two(bytes)?;
    let (incarnation, rest) = take_eight(rest)?;
    let brick = BrickNo(brick);
    Some((Holder { brick, incarnation }, rest))
}

/// None exactly where there are fewer than 40 bytes, or the first of them is not 1.
#[tactic(auto, unfolding(crate::specs::Cookie::head_bytes))]
pub fn take_head(bytes: &[u8]) -> Option<(Head, &[u8])>
    ensures { MatchOption result ((length bytes.now < HEAD_BYTES) ⊎ (slice_index bytes.now 0 ≢ 1))
        (λ field. IsTaken (head_bytes field.0.key field.0.version field.0.expiry field.0.count)
        bytes.now field.1.now × IsHead field.0.key field.0.version field.0.expiry) }
{
    let (format, rest) = take_byte(bytes)?;
    if format != 1 {
        return None;
    }
    let (key, rest) = take_key(rest)?;
    let (version, rest) = take_version(rest)?;
    let (expiry, rest) = take_eight(rest)?;
    let (count, rest) = take_byte(rest)?;
    let expiry = Moment(expiry);
    Some((
        Head {
            key,
            version,
            expiry,
            count,
        },
        rest,
    ))
}
