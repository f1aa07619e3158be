//! The fields that frames alone have, read off the front of bytes and written at the end of others.

ghost use Rattle.std.specs.Prelude.{◌≡◌, ◌++◌, ◌≤◌, length, IfOk, OnOk};
ghost use Rattle.byte_fields.specs.Answers.{Reads};
ghost use Rattle.crash_base.specs.declared.bounded.TheConstants.{MAX_SESSION_BYTES};
ghost use Rattle.ssm_frames.specs.Reading.{version_at, key_at, subject_at, sender_at, moment_at, value_at};
ghost use Rattle.ssm_frames.specs.Spelling.{version_bytes, subject_bytes, sender_bytes, moment_bytes, value_bytes};

use byte_fields::{
    NoField, array_at, bytes_at, u16_at, u32_at, u64_at, write_u16, write_u32, write_u64,
};
use crash_base::{
    BrickNo, MAX_SESSION_BYTES, Moment, OutOfMemory, SessionBytes, SessionKey, Version,
};

/// Which value a frame is about, and of which call the frame is.
#[derive(Clone, Copy)]
pub struct Subject {
    pub nonce: Version,
    pub key: SessionKey,
    pub version: Version,
}

/// Which brick replies.
#[derive(Clone, Copy)]
pub struct Sender {
    pub brick: BrickNo,
    pub incarnation: u64,
}

/// A version.
#[tactic(auto, unfolding(crate::specs::Reading::version_at))]
pub fn version_at(bytes: &[u8]) -> Result<(Version, &[u8]), NoField>
    ensures { Reads (λ f. (f.0, f.1.now)) result (version_at bytes.now) }
{
    let (node, rest) = u16_at(bytes)?;
    let (boot, rest) = u32_at(rest)?;
    let (serial, rest) = u64_at(rest)?;
    Ok((Version { node, boot, serial }, rest))
}

#[tactic(auto, unfolding(crate::specs::Reading::key_at))]
fn key_at(bytes: &[u8]) -> Result<(SessionKey, &[u8]), NoField>
    ensures { Reads (λ f. (f.0, f.1.now)) result (key_at bytes.now) }
{
    let (key, rest) = array_at(bytes)?;
    Ok((SessionKey(key), rest))
}

/// Which value, and of which call.
#[tactic(auto, unfolding(crate::specs::Reading::subject_at))]
pub fn subject_at(bytes: &[u8]) -> Result<(Subject, &[u8]), NoField>
    ensures { Reads (λ f. (f.0, f.1.now)) result (subject_at bytes.now) }
{
    let (nonce, rest) = version_at(bytes)?;
    let (key, rest) = key_at(rest)?;
    let (version, rest) = version_at(rest)?;
    let subject = Subject {
        nonce,
        key,
        version,
    };
    Ok((subject, rest))
}

/// Which brick.
#[tactic(auto, unfolding(crate::specs::Reading::sender_at))]
pub fn sender_at(bytes: &[u8]) -> Result<(Sender, &[u8]), NoField>
    ensures { Reads (λ f. (f.0, f.1.now)) result (sender_at bytes.now) }
{
    let (brick, rest) = u16_at(bytes)?;
    let (incarnation, rest) = u64_at(rest)?;
    let sender = Sender {
        brick: BrickNo(brick),
        incarnation,
    };
    Ok((sender, rest))
}

/// A moment.
#[tactic(auto, unfolding(crate::specs::Reading::moment_at))]
pub fn moment_at(bytes: &[u8]) -> Result<(Moment, &[u8]), NoField>
    ensures { Reads (λ f. (f.0, f.1.now)) result (moment_at bytes.now) }
{
    let (moment, rest) = u64_at(bytes)?;
    Ok((Moment(moment), rest))
}

/// A value, which is not copied.
#[tactic(auto, unfolding(crate::specs::Reading::value_at))]
pub fn value_at(bytes: &[u8]) -> Result<(&[u8], &[u8]), NoField>
    ensures value { Reads (λ f. (f.0.now, f.1.now)) result (value_at bytes.now) }
    ensures few { IfOk result (λ f. length f.0.now ≤ MAX_SESSION_BYTES) }
{
    let (size, rest) = u16_at(bytes)?;
    let size = usize::from(size);
    if size > MAX_SESSION_BYTES {
        return Err(NoField);
    }
    bytes_at(size, rest)
}

/// Writes a version.
#[tactic(auto, unfolding(crate::specs::Spelling::version_bytes))]
pub fn write_version(out: &mut Vec<u8>, version: Version) -> Result<(), OutOfMemory>
    ensures { OnOk result (out.new.items ≡ out.old.items ++ version_bytes version) }
{
    write_u16(out, version.node)?;
    write_u32(out, version.boot)?;
    write_u64(out, version.serial)?;
    Ok(())
}

/// Writes which value, and of which call.
#[tactic(auto, unfolding(crate::specs::Spelling::subject_bytes))]
pub fn write_subject(out: &mut Vec<u8>, subject: Subject) -> Result<(), OutOfMemory>
    ensures { OnOk result
        (out.new.items ≡ out.old.items ++ subject_bytes subject.nonce subject.key subject.version) }
{
    write_version(out, subject.nonce)?;
    out.extend_from_slice(&subject.key.0)?;
    write_version(out, subject.version)?;
    Ok(())
}

/// Writes which brick.
#[tactic(auto, unfolding(crate::specs::Spelling::sender_bytes))]
pub fn write_sender(out: &mut Vec<u8>, sender: Sender) -> Result<(), OutOfMemory>
    ensures { OnOk result
        (out.new.items ≡ out.old.items ++ sender_bytes sender.brick sender.incarnation) }
{
    write_u16(out, sender.brick.0)?;
    write_u64(out, sender.incarnation)?;
    Ok(())
}

/// Writes a moment.
#[tactic(auto, unfolding(crate::specs::Spelling::moment_bytes))]
pub fn write_moment(out: &mut Vec<u8>, moment: Moment) -> Result<(), OutOfMemory>
    ensures { OnOk result (out.new.items ≡ out.old.items ++ moment_bytes moment) }
{
    write_u64(out, moment.0)?;
    Ok(())
}

/// Writes a value.
#[tactic(auto, unfolding(crate::specs::Spelling::value_bytes))]
pub fn write_value(out: &mut Vec<u8>, value: &SessionBytes) -> Result<(), OutOfMemory>
    ensures { OnOk result (out.new.items ≡ out.old.items ++ value_bytes value.now) }
{
    let bytes = value.as_slice();
    write_u16(out, bytes.len() as u16)?;
    out.extend_from_slice(bytes)?;
    Ok(())
}
