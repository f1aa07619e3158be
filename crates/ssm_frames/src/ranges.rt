//! That the numbers and bytes of a frame are in their ranges, since the types of its fields keep them.

ghost use Rattle.std.specs.Prelude.{◌^◌, ◌<◌};
ghost use Rattle.ssm_frames.specs.Spelling.{IsVersion, IsSubject, IsSender, IsMoment, IsValue, IsInRange};

use crate::frame::Frame;
use byte_fields::bytes_are_in_range;
use crash_base::{BrickNo, Moment, SessionBytes, SessionKey, Version};

fn version_is_in_range(version: Version)
    ensures { IsVersion version }
{}

fn moment_is_in_range(moment: Moment)
    ensures { IsMoment moment }
{}

fn sender_is_in_range(brick: BrickNo, incarnation: u64)
    ensures { IsSender brick incarnation }
{}

fn value_is_in_range(value: &SessionBytes)
    ensures { IsValue value.now }
{
    bytes_are_in_range(value.as_slice())
}

fn subject_is_in_range(nonce: &Version, key: &SessionKey, version: &Version)
    ensures { IsSubject nonce.now key.now version.now }
{
    version_is_in_range(*nonce);
    bytes_are_in_range(&key.0);
    version_is_in_range(*version)
}

fn numbers_are_in_range(entries: u32, bytes: u64)
    ensures { (entries < 2 ^ 32) × (bytes < 2 ^ 64) }
{}

/// A frame that the code holds is in its ranges, which laws of frames have as their premise. It does
/// nothing: a caller that needs the law calls it.
pub fn frame_is_in_range(frame: &Frame)
    ensures { IsInRange frame.now }
{
    match frame {
        Frame::Put {
            nonce,
            key,
            version,
            expiry,
            value,
        } => {
            subject_is_in_range(nonce, key, version);
            moment_is_in_range(*expiry);
            value_is_in_range(value)
        }
        Frame::Get {
            nonce,
            key,
            version,
        } => subject_is_in_range(nonce, key, version),
        Frame::Sweep { nonce, moment } => {
            version_is_in_range(*nonce);
            moment_is_in_range(*moment)
        }
        Frame::Stored {
            nonce,
            key,
            version,
            brick,
            incarnation,
        } => {
            subject_is_in_range(nonce, key, version);
            sender_is_in_range(*brick, *incarnation)
        }
        Frame::Found {
            nonce,
            key,
            version,
            brick,
            incarnation,
            expiry,
            value,
        } => {
            subject_is_in_range(nonce, key, version);
            sender_is_in_range(*brick, *incarnation);
            moment_is_in_range(*expiry);
            value_is_in_range(value)
        }
        Frame::Absent {
            nonce,
            key,
            version,
            brick,
            incarnation,
            swept,
        } => {
            subject_is_in_range(nonce, key, version);
            sender_is_in_range(*brick, *incarnation);
            moment_is_in_range(*swept)
        }
        Frame::BrickFull {
            nonce,
            key,
            version,
            brick,
            incarnation,
            entries,
            bytes,
        } => {
            subject_is_in_range(nonce, key, version);
            sender_is_in_range(*brick, *incarnation);
            numbers_are_in_range(*entries, *bytes)
        }
        Frame::Swept {
            nonce,
            brick,
            incarnation,
            moment,
        } => {
            version_is_in_range(*nonce);
            sender_is_in_range(*brick, *incarnation);
            moment_is_in_range(*moment)
        }
    }
}
