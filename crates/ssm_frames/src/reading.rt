//! Frames from bytes.

ghost use Rattle.std.specs.Prelude.{◌≡◌, ◌≤◌, length, IfOk, IfErr, OnErr, IsTrue, MatchOption};
ghost use Rattle.crash_base.specs.declared.bounded.TheConstants.{MAX_SESSION_BYTES};
ghost use Rattle.byte_fields.specs.Answers.{Answers, Reads};
ghost use Rattle.ssm_frames.specs.Reading.{put_at, get_at, sweep_at, stored_at, found_at, absent_at, brick_full_at, swept_at, frame_behind, frame_at, decode_of, has_value, takes_memory, LacksMemoryOnlyIf};
ghost use Rattle.ssm_frames.specs.Spelling.{Spells, SpellsNoFrame};

use crate::fields::{moment_at, sender_at, subject_at, value_at, version_at};
use crate::frame::Frame;
use crate::laws::frames_are_exact;
use byte_fields::{NoField, ReadError, bytes_are_in_range, u32_at, u64_at};
use crash_base::{OutOfMemory, SessionBytes};
use std::alloc::Global;

/// A copy of a value.
fn copied(alloc: Global, value: &[u8]) -> Result<SessionBytes, OutOfMemory>
    requires { length value.now ≤ MAX_SESSION_BYTES }
    ensures { IfOk result (λ copy. copy ≡ value.now) }
{
    Ok(SessionBytes::from_vec(Vec::from_slice(alloc, value)?))
}

#[tactic(auto, unfolding(crate::specs::Reading::put_at))]
fn put_at<'a>(alloc: Global, bytes: &'a [u8]) -> Result<(Frame, &'a [u8]), ReadError>
    ensures { Answers (λ f. (f.0, f.1.now)) result (put_at bytes.now) }
{
    let (subject, rest) = subject_at(bytes)?;
    let (expiry, rest) = moment_at(rest)?;
    let (value, rest) = value_at(rest)?;
    let frame = Frame::Put {
        nonce: subject.nonce,
        key: subject.key,
        version: subject.version,
        expiry,
        value: copied(alloc, value)?,
    };
    Ok((frame, rest))
}

#[tactic(auto, unfolding(crate::specs::Reading::get_at))]
fn get_at(bytes: &[u8]) -> Result<(Frame, &[u8]), NoField>
    ensures { Reads (λ f. (f.0, f.1.now)) result (get_at bytes.now) }
{
    let (subject, rest) = subject_at(bytes)?;
    let frame = Frame::Get {
        nonce: subject.nonce,
        key: subject.key,
        version: subject.version,
    };
    Ok((frame, rest))
}

#[tactic(auto, unfolding(crate::specs::Reading::sweep_at))]
fn sweep_at(bytes: &[u8]) -> Result<(Frame, &[u8]), NoField>
    ensures { Reads (λ f. (f.0, f.1.now)) result (sweep_at bytes.now) }
{
    let (nonce, rest) = version_at(bytes)?;
    let (moment, rest) = moment_at(rest)?;
    Ok((Frame::Sweep { nonce, moment }, rest))
}

#[tactic(auto, unfolding(crate::specs::Reading::stored_at))]
fn stored_at(bytes: &[u8]) -> Result<(Frame, &[u8]), NoField>
    ensures { Reads (λ f. (f.0, f.1.now)) result (stored_at bytes.now) }
{
    let (subject, rest) = subject_at(bytes)?;
    let (sender, rest) = sender_at(rest)?;
    let frame = Frame::Stored {
        nonce: subject.nonce,
        key: subject.key,
        version: subject.version,
        brick: sender.brick,
        incarnation: sender.incarnation,
    };
    Ok((frame, rest))
}

#[tactic(auto, unfolding(crate::specs::Reading::found_at))]
fn found_at<'a>(alloc: Global, bytes: &'a [u8]) -> Result<(Frame, &'a [u8]), ReadError>
    ensures { Answers (λ f. (f.0, f.1.now)) result (found_at bytes.now) }
{
    let (subject, rest) = subject_at(bytes)?;
    let (sender, rest) = sender_at(rest)?;
    let (expiry, rest) = moment_at(rest)?;
    let (value, rest) = value_at(rest)?;
    let frame = Frame::Found {
        nonce: subject.nonce,
        key: subject.key,
        version: subject.version,
        brick: sender.brick,
        incarnation: sender.incarnation,
        expiry,
        value: copied(alloc, value)?,
    };
    Ok((frame, rest))
}

#[tactic(auto, unfolding(crate::specs::Reading::absent_at))]
fn absent_at(bytes: &[u8]) -> Result<(Frame, &[u8]), NoField>
    ensures { Reads (λ f. (f.0, f.1.now)) result (absent_at bytes.now) }
{
    let (subject, rest) = subject_at(bytes)?;
    let (sender, rest) = sender_at(rest)?;
    let (swept, rest) = moment_at(rest)?;
    let frame = Frame::Absent {
        nonce: subject.nonce,
        key: subject.key,
        version: subject.version,
        brick: sender.brick,
        incarnation: sender.incarnation,
        swept,
    };
    Ok((frame, rest))
}

#[tactic(auto, unfolding(crate::specs::Reading::brick_full_at))]
fn brick_full_at(bytes: &[u8]) -> Result<(Frame, &[u8]), NoField>
    ensures { Reads (λ f. (f.0, f.1.now)) result (brick_full_at bytes.now) }
{
    let (subject, rest) = subject_at(bytes)?;
    let (sender, rest) = sender_at(rest)?;
    let (entries, rest) = u32_at(rest)?;
    let (size, rest) = u64_at(rest)?;
    let frame = Frame::BrickFull {
        nonce: subject.nonce,
        key: subject.key,
        version: subject.version,
        brick: sender.brick,
        incarnation: sender.incarnation,
        entries,
        bytes: size,
    };
    Ok((frame, rest))
}

#[tactic(auto, unfolding(crate::specs::Reading::swept_at))]
fn swept_at(bytes: &[u8]) -> Result<(Frame, &[u8]), NoField>
    ensures { Reads (λ f. (f.0, f.1.now)) result (swept_at bytes.now) }
{
    let (nonce, rest) = version_at(bytes)?;
    let (sender, rest) = sender_at(rest)?;
    let (moment, rest) = moment_at(rest)?;
    let frame = Frame::Swept {
        nonce,
        brick: sender.brick,
        incarnation: sender.incarnation,
        moment,
    };
    Ok((frame, rest))
}

fn frame_behind<'a>(
    alloc: Global,
    first: u8,
    rest: &'a [u8],
) -> Result<(Frame, &'a [u8]), ReadError>
    ensures value { Answers (λ f. (f.0, f.1.now)) result (frame_behind first rest.now) }
    ensures memory { IfErr result (LacksMemoryOnlyIf (has_value first)) }
{
    match first {
        0x01 => put_at(alloc, rest),
        0x02 => Ok(get_at(rest)?),
        0x03 => Ok(sweep_at(rest)?),
        0x81 => Ok(stored_at(rest)?),
        0x82 => found_at(alloc, rest),
        0x83 => Ok(absent_at(rest)?),
        0x84 => Ok(brick_full_at(rest)?),
        0x85 => Ok(swept_at(rest)?),
        _ => Err(ReadError::Bad),
    }
}

#[tactic(auto, unfolding(crate::specs::Reading::frame_at))]
fn frame_at<'a>(alloc: Global, bytes: &'a [u8]) -> Result<(Frame, &'a [u8]), ReadError>
    ensures value { Answers (λ f. (f.0, f.1.now)) result (frame_at bytes.now) }
    ensures memory { IfErr result (LacksMemoryOnlyIf (takes_memory bytes.now)) }
{
    match bytes {
        [] => Err(ReadError::Bad),
        [first, rest @ ..] => frame_behind(alloc, *first, rest),
    }
}

/// The frame that bytes spell, the first to the last of them. None exactly where they spell none. It
/// visits each byte once at most, and its one error is want of memory for a copy of the value of a Put
/// or a Found: where the first byte is that of another frame or of none, there is no error.
#[tactic(auto, unfolding(crate::specs::Reading::decode_of))]
pub fn decode(alloc: Global, bytes: &[u8]) -> Result<Option<Frame>, OutOfMemory>
    ensures value { IfOk result (λ found. found ≡ decode_of bytes.now) }
    ensures exact { IfOk result (λ found. MatchOption found (SpellsNoFrame bytes.now)
        (λ frame. Spells bytes.now frame)) }
    ensures memory { OnErr result (IsTrue (takes_memory bytes.now)) }
{
    bytes_are_in_range(bytes);
    frames_are_exact();
    let (frame, rest) = match frame_at(alloc, bytes) {
        Ok(read) => read,
        Err(ReadError::Bad) => return Ok(None),
        Err(ReadError::OutOfMemory) => return Err(OutOfMemory),
    };
    if !rest.is_empty() {
        return Ok(None);
    }
    Ok(Some(frame))
}
