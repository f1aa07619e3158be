//! Lawful replies.

ghost use Rattle.std.specs.Prelude.{◌≡◌, ◌+◌, nat_lt};
ghost use Rattle.std.specs.Option.{option_and_then};
ghost use Rattle.ssm_frames.specs.declared.frame.TheConstants.{SWEEP_GRACE};
ghost use Rattle.ssm_stub.specs.Replies.{is_reply, lawful_put, lawful_get, absence};

use crash_base::{
    BrickNo, Moment, SessionBytes, SessionKey, Version, is_same_key, is_same_version,
};
use session_cookie::Holder;
use ssm_frames::{Frame, SWEEP_GRACE};

/// What a brick replies to a Put.
#[derive(Clone, Copy)]
pub enum WriteReply {
    /// It stored the value, in this incarnation.
    Stored { incarnation: u64 },
    /// It has no room for the value. It keeps so many values, which have so many bytes.
    Full { entries: u32, bytes: u64 },
}

/// What a brick replies to a Get.
#[derive(Drop)]
pub enum ReadReply {
    /// It has the value.
    Found(SessionBytes),
    /// It has this incarnation, and not the holder's.
    Crashed { incarnation: u64 },
    /// It was swept at this moment, which is past the lease and the grace.
    Swept { moment: Moment },
}

/// What a reply refers to: the nonce of a call, the key and the version of a value, and the brick.
#[derive(Clone, Copy)]
pub struct Reference {
    pub nonce: Version,
    pub key: SessionKey,
    pub version: Version,
    pub brick: BrickNo,
}

/// Whether a frame that refers to this is a reply where that is wanted.
fn is_reply(wanted: Reference, to: Reference) -> bool
    ensures { result ≡ is_reply wanted to }
{
    is_same_version(to.nonce, wanted.nonce)
        && (is_same_key(to.key, wanted.key)
            && (is_same_version(to.version, wanted.version) && to.brick.0 == wanted.brick.0))
}

/// The lawful reply to a Put that a frame is, if it is one.
fn lawful_put(wanted: Reference, frame: &Frame) -> Option<WriteReply>
    ensures { result ≡ lawful_put wanted frame.now }
{
    match frame {
        Frame::Stored {
            nonce,
            key,
            version,
            brick,
            incarnation,
        } => {
            let to = Reference {
                nonce: *nonce,
                key: *key,
                version: *version,
                brick: *brick,
            };
            if is_reply(wanted, to) {
                Some(WriteReply::Stored {
                    incarnation: *incarnation,
                })
            } else {
                None
            }
        }
        Frame::BrickFull {
            nonce,
            key,
            version,
            brick,
            entries,
            bytes,
            ..
        } => {
            let to = Reference {
                nonce: *nonce,
                key: *key,
                version: *version,
                brick: *brick,
            };
            if is_reply(wanted, to) {
                Some(WriteReply::Full {
                    entries: *entries,
                    bytes: *bytes,
                })
            } else {
                None
            }
        }
        _ => None,
    }
}

/// The lawful reply to a Put that came, if one did.
pub(crate) fn put_reply(wanted: Reference, frame: &Option<Frame>) -> Option<WriteReply>
    ensures { result ≡ option_and_then (lawful_put wanted) frame.now }
{
    match frame {
        Some(frame) => lawful_put(wanted, frame),
        None => None,
    }
}

/// Whether a brick that was swept at this moment may have thrown away a value with this expiry.
fn is_past_grace(expiry: Moment, swept: Moment) -> bool
    ensures { result ≡ nat_lt (expiry.0 + SWEEP_GRACE) swept.0 }
{
    expiry.0 < swept.0.saturating_sub(SWEEP_GRACE)
}

/// What it tells of a holder that a value is absent, if it tells something.
fn absence(holder: Holder, expiry: Moment, incarnation: u64, swept: Moment) -> Option<ReadReply>
    ensures { result ≡ absence holder expiry incarnation swept }
{
    if incarnation != holder.incarnation {
        Some(ReadReply::Crashed { incarnation })
    } else if is_past_grace(expiry, swept) {
        Some(ReadReply::Swept { moment: swept })
    } else {
        None
    }
}

/// The lawful reply to a Get that a frame is, if it is one.
fn lawful_get(wanted: Reference, holder: Holder, expiry: Moment, frame: Frame) -> Option<ReadReply>
    ensures { result ≡ lawful_get wanted holder expiry frame }
{
    match frame {
        Frame::Found {
            nonce,
            key,
            version,
            brick,
            value,
            ..
        } => {
            let to = Reference {
                nonce,
                key,
                version,
                brick,
            };
            if is_reply(wanted, to) {
                Some(ReadReply::Found(value))
            } else {
                None
            }
        }
        Frame::Absent {
            nonce,
            key,
            version,
            brick,
            incarnation,
            swept,
        } => {
            let to = Reference {
                nonce,
                key,
                version,
                brick,
            };
            if is_reply(wanted, to) {
                absence(holder, expiry, incarnation, swept)
            } else {
                None
            }
        }
        _ => None,
    }
}

/// The lawful reply to a Get that came, if one did.
pub(crate) fn get_reply(
    wanted: Reference,
    holder: Holder,
    expiry: Moment,
    frame: Option<Frame>,
) -> Option<ReadReply>
    ensures { result ≡ option_and_then (lawful_get wanted holder expiry) frame }
{
    match frame {
        Some(frame) => lawful_get(wanted, holder, expiry, frame),
        None => None,
    }
}
