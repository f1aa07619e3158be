//! Copies of what holds memory.

ghost use Rattle.std.specs.Prelude.{◌≡◌, IfOk};

use crash_base::{BrickNo, Items, OutOfMemory, SessionBytes};
use session_cookie::Cookie;
use ssm_frames::Frame;
use ssm_stub::BrickList;
use std::alloc::Global;

/// A copy of a session's value.
pub(crate) fn copied_value(alloc: Global, value: &SessionBytes) -> Result<SessionBytes, OutOfMemory>
    ensures { IfOk result (λ copy. copy ≡ value.now) }
{
    Ok(SessionBytes::from_vec(Vec::from_slice(alloc, value.as_slice())?))
}

/// A copy of a frame. It copies the value of a Put and of a Found.
pub(crate) fn copied_frame(alloc: Global, frame: &Frame) -> Result<Frame, OutOfMemory>
    ensures { IfOk result (λ copy. copy ≡ frame.now) }
{
    match frame {
        Frame::Put {
            nonce,
            key,
            version,
            expiry,
            value,
        } => {
            let value = copied_value(alloc, value)?;
            Ok(Frame::Put {
                nonce: *nonce,
                key: *key,
                version: *version,
                expiry: *expiry,
                value,
            })
        }
        Frame::Get {
            nonce,
            key,
            version,
        } => Ok(Frame::Get {
            nonce: *nonce,
            key: *key,
            version: *version,
        }),
        Frame::Sweep { nonce, moment } => Ok(Frame::Sweep {
            nonce: *nonce,
            moment: *moment,
        }),
        Frame::Stored {
            nonce,
            key,
            version,
            brick,
            incarnation,
        } => Ok(Frame::Stored {
            nonce: *nonce,
            key: *key,
            version: *version,
            brick: *brick,
            incarnation: *incarnation,
        }),
        Frame::Found {
            nonce,
            key,
            version,
            brick,
            incarnation,
            expiry,
            value,
        } => {
            let value = copied_value(alloc, value)?;
            Ok(Frame::Found {
                nonce: *nonce,
                key: *key,
                version: *version,
                brick: *brick,
                incarnation: *incarnation,
                expiry: *expiry,
                value,
            })
        }
        Frame::Absent {
            nonce,
            key,
            version,
            brick,
            incarnation,
            swept,
        } => Ok(Frame::Absent {
            nonce: *nonce,
            key: *key,
            version: *version,
            brick: *brick,
            incarnation: *incarnation,
            swept: *swept,
        }),
        Frame::BrickFull {
            nonce,
            key,
            version,
            brick,
            incarnation,
            entries,
            bytes,
        } => Ok(Frame::BrickFull {
            nonce: *nonce,
            key: *key,
            version: *version,
            brick: *brick,
            incarnation: *incarnation,
            entries: *entries,
            bytes: *bytes,
        }),
        Frame::Swept {
            nonce,
            brick,
            incarnation,
            moment,
        } => Ok(Frame::Swept {
            nonce: *nonce,
            brick: *brick,
            incarnation: *incarnation,
            moment: *moment,
        }),
    }
}

/// A copy of a list of bricks.
pub(crate) fn copied_bricks(alloc: Global, bricks: &BrickList) -> Result<BrickList, OutOfMemory>
    ensures { IfOk result (λ copy. copy ≡ bricks.now) }
{
    Ok(Items::from_vec(Vec::from_slice(alloc, bricks.as_slice())?))
}

/// A copy of a cookie. It visits each brick of the cookie.
///
/// # Errors
/// Out of memory.
pub fn copied_cookie(alloc: Global, cookie: &Cookie) -> Result<Cookie, OutOfMemory>
    ensures { IfOk result (λ copy. copy ≡ cookie.now) }
{
    Ok(Cookie {
        key: cookie.key,
        version: cookie.version,
        expiry: cookie.expiry,
        bricks: Items::from_vec(Vec::from_slice(alloc, cookie.bricks.as_slice())?),
    })
}
