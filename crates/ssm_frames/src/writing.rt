//! Bytes from frames.

ghost use Rattle.std.specs.Prelude.{◌≡◌, ◌++◌, ◌≤◌, length, Some, IfOk, OnOk};
ghost use Rattle.ssm_frames.specs.Reading.{decode_of};
ghost use Rattle.ssm_frames.specs.Spelling.{encode_of};
ghost use Rattle.crash_base.specs.declared.items.TheConstants.{MAX_FRAME_BYTES};
ghost use Rattle.ssm_frames.specs.declared.frame.Frame.TheVariants.{Put, Get, Sweep, Stored, Found, Absent, BrickFull, Swept};

use crate::fields::{
    Sender, Subject, write_moment, write_sender, write_subject, write_value, write_version,
};
use crate::frame::Frame;
use crate::ranges::frame_is_in_range;
use byte_fields::{write_u32, write_u64};
use crash_base::{
    BrickNo, FrameBytes, MAX_FRAME_BYTES, MAX_SESSION_BYTES, Moment, OutOfMemory, SessionBytes,
    SessionKey, Version,
};
use std::alloc::Global;

#[tactic(auto, unfolding(crate::specs::Spelling::encode_of))]
fn write_put(
    out: &mut Vec<u8>,
    subject: Subject,
    expiry: Moment,
    value: &SessionBytes,
) -> Result<(), OutOfMemory>
    ensures { OnOk result (out.new.items ≡ out.old.items
        ++ encode_of (Put subject.nonce subject.key subject.version expiry value.now)) }
{
    out.push(0x01)?;
    write_subject(out, subject)?;
    write_moment(out, expiry)?;
    write_value(out, value)?;
    Ok(())
}

#[tactic(auto, unfolding(crate::specs::Spelling::encode_of))]
fn write_get(out: &mut Vec<u8>, subject: Subject) -> Result<(), OutOfMemory>
    ensures { OnOk result (out.new.items ≡ out.old.items
        ++ encode_of (Get subject.nonce subject.key subject.version)) }
{
    out.push(0x02)?;
    write_subject(out, subject)?;
    Ok(())
}

#[tactic(auto, unfolding(crate::specs::Spelling::encode_of))]
fn write_sweep(out: &mut Vec<u8>, nonce: Version, moment: Moment) -> Result<(), OutOfMemory>
    ensures { OnOk result (out.new.items ≡ out.old.items ++ encode_of (Sweep nonce moment)) }
{
    out.push(0x03)?;
    write_version(out, nonce)?;
    write_moment(out, moment)?;
    Ok(())
}

#[tactic(auto, unfolding(crate::specs::Spelling::encode_of))]
fn write_stored(out: &mut Vec<u8>, subject: Subject, sender: Sender) -> Result<(), OutOfMemory>
    ensures { OnOk result (out.new.items ≡ out.old.items
        ++ encode_of (Stored subject.nonce subject.key subject.version
        sender.brick sender.incarnation)) }
{
    out.push(0x81)?;
    write_subject(out, subject)?;
    write_sender(out, sender)?;
    Ok(())
}

#[tactic(auto, unfolding(crate::specs::Spelling::encode_of))]
fn write_found(
    out: &mut Vec<u8>,
    subject: Subject,
    sender: Sender,
    expiry: Moment,
    value: &SessionBytes,
) -> Result<(), OutOfMemory>
    ensures { OnOk result (out.new.items ≡ out.old.items
        ++ encode_of (Found subject.nonce subject.key subject.version
        sender.brick sender.incarnation expiry value.now)) }
{
    out.push(0x82)?;
    write_subject(out, subject)?;
    write_sender(out, sender)?;
    write_moment(out, expiry)?;
    write_value(out, value)?;
    Ok(())
}

#[tactic(auto, unfolding(crate::specs::Spelling::encode_of))]
fn write_absent(
    out: &mut Vec<u8>,
    subject: Subject,
    sender: Sender,
    swept: Moment,
) -> Result<(), OutOfMemory>
    ensures { OnOk result (out.new.items ≡ out.old.items
        ++ encode_of (Absent subject.nonce subject.key subject.version
        sender.brick sender.incarnation swept)) }
{
    out.push(0x83)?;
    write_subject(out, subject)?;
    write_sender(out, sender)?;
    write_moment(out, swept)?;
    Ok(())
}

#[tactic(auto, unfolding(crate::specs::Spelling::encode_of))]
fn write_brick_full(
    out: &mut Vec<u8>,
    subject: Subject,
    sender: Sender,
    entries: u32,
    bytes: u64,
) -> Result<(), OutOfMemory>
    ensures { OnOk result (out.new.items ≡ out.old.items
        ++ encode_of (BrickFull subject.nonce subject.key subject.version
        sender.brick sender.incarnation entries bytes)) }
{
    out.push(0x84)?;
    write_subject(out, subject)?;
    write_sender(out, sender)?;
    write_u32(out, entries)?;
    write_u64(out, bytes)?;
    Ok(())
}

#[tactic(auto, unfolding(crate::specs::Spelling::encode_of))]
fn write_swept(
    out: &mut Vec<u8>,
    nonce: Version,
    sender: Sender,
    moment: Moment,
) -> Result<(), OutOfMemory>
    ensures { OnOk result (out.new.items ≡ out.old.items
        ++ encode_of (Swept nonce sender.brick sender.incarnation moment)) }
{
    out.push(0x85)?;
    write_version(out, nonce)?;
    write_sender(out, sender)?;
    write_moment(out, moment)?;
    Ok(())
}

/// What a frame with these fields is about.
fn subject(nonce: &Version, key: &SessionKey, version: &Version) -> Subject
    ensures { (result.nonce ≡ nonce.now) × (result.key ≡ key.now) × (result.version ≡ version.now) }
{
    Subject {
        nonce: *nonce,
        key: *key,
        version: *version,
    }
}

/// Where a frame with these fields is from.
fn sender(brick: &BrickNo, incarnation: &u64) -> Sender
    ensures { (result.brick ≡ brick.now) × (result.incarnation ≡ incarnation.now) }
{
    Sender {
        brick: *brick,
        incarnation: *incarnation,
    }
}

fn write_frame(out: &mut Vec<u8>, frame: &Frame) -> Result<(), OutOfMemory>
    ensures { OnOk result (out.new.items ≡ out.old.items ++ encode_of frame.now) }
{
    match frame {
        Frame::Put {
            nonce,
            key,
            version,
            expiry,
            value,
        } => write_put(out, subject(nonce, key, version), *expiry, value),
        Frame::Get {
            nonce,
            key,
            version,
        } => write_get(out, subject(nonce, key, version)),
        Frame::Sweep { nonce, moment } => write_sweep(out, *nonce, *moment),
        Frame::Stored {
            nonce,
            key,
            version,
            brick,
            incarnation,
        } => write_stored(
            out,
            subject(nonce, key, version),
            sender(brick, incarnation),
        ),
        Frame::Found {
            nonce,
            key,
            version,
            brick,
            incarnation,
            expiry,
            value,
        } => write_found(
            out,
            subject(nonce, key, version),
            sender(brick, incarnation),
            *expiry,
            value,
        ),
        Frame::Absent {
            nonce,
            key,
            version,
            brick,
            incarnation,
            swept,
        } => write_absent(
            out,
            subject(nonce, key, version),
            sender(brick, incarnation),
            *swept,
        ),
        Frame::BrickFull {
            nonce,
            key,
            version,
            brick,
            incarnation,
            entries,
            bytes,
        } => write_brick_full(
            out,
            subject(nonce, key, version),
            sender(brick, incarnation),
            *entries,
            *bytes,
        ),
        Frame::Swept {
            nonce,
            brick,
            incarnation,
            moment,
        } => write_swept(out, *nonce, sender(brick, incarnation), *moment),
    }
}

/// The bytes that spell a frame, from 1 to 4,161 (`MAX_FRAME_BYTES`), which are decoded to this frame
/// again. It visits each byte once, and its one error is want of memory for them.
pub fn encode(alloc: Global, frame: &Frame) -> Result<FrameBytes, OutOfMemory>
    ensures bytes { IfOk result (λ bytes. bytes ≡ encode_of frame.now) }
    ensures some { IfOk result (λ bytes. 1 ≤ length bytes) }
    ensures few { IfOk result (λ bytes. length bytes ≤ MAX_FRAME_BYTES) }
    ensures back { IfOk result (λ bytes. decode_of bytes ≡ Some frame.now) }
{
    let mut out = Vec::with_capacity(alloc, MAX_FRAME_BYTES - MAX_SESSION_BYTES)?;
    write_frame(&mut out, frame)?;
    frame_is_in_range(frame);
    Ok(FrameBytes::from_vec(out))
}
