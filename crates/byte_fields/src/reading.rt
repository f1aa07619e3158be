//! Fields that are read off the front of bytes.

ghost use Rattle.std.specs.Prelude.{◌≡◌, length, IfOk};
ghost use Rattle.std.specs.Int.{w16, w32, w64};
ghost use Rattle.byte_fields.specs.Answers.{Reads};
ghost use Rattle.byte_fields.specs.Reading.{bytes_at, number_at, u8_at, id_at, text_at, flag_of, byte_as};

use crate::bytes::is_utf8;
use crate::error::NoField;
use crash_base::{take_u16, take_u32, take_u64};

/// This many bytes, which are not copied, and the bytes after them.
///
/// # Errors
/// `NoField` where there are fewer.
#[tactic(auto, unfolding(crate::specs::Reading::bytes_at))]
pub fn bytes_at(size: usize, bytes: &[u8]) -> Result<(&[u8], &[u8]), NoField>
    ensures value { Reads (λ f. (f.0.now, f.1.now)) result (bytes_at size bytes.now) }
    ensures size { IfOk result (λ f. length f.0.now ≡ size) }
{
    if bytes.len() < size {
        return Err(NoField);
    }
    Ok(bytes.split_at(size))
}

/// An array, which is `N` bytes, and the bytes after it.
///
/// # Errors
/// `NoField` where there are fewer.
#[tactic(auto, unfolding(crate::specs::Reading::bytes_at))]
pub fn array_at<const N: usize>(bytes: &[u8]) -> Result<([u8; N], &[u8]), NoField>
    ensures { Reads (λ f. (f.0, f.1.now)) result (bytes_at N bytes.now) }
{
    match bytes.split_first_chunk::<N>() {
        None => Err(NoField),
        Some((array, rest)) => Ok((*array, rest)),
    }
}

/// A number of one byte, and the bytes after it.
///
/// # Errors
/// `NoField` where there is no byte.
#[tactic(auto, unfolding(crate::specs::Reading::u8_at))]
pub fn u8_at(bytes: &[u8]) -> Result<(u8, &[u8]), NoField>
    ensures { Reads (λ f. (f.0, f.1.now)) result (u8_at bytes.now) }
{
    match bytes {
        [] => Err(NoField),
        [byte, rest @ ..] => Ok((*byte, rest)),
    }
}

/// A number of two bytes, and the bytes after it.
///
/// # Errors
/// `NoField` where there are fewer.
#[tactic(auto, unfolding(crate::specs::Reading::number_at))]
pub fn u16_at(bytes: &[u8]) -> Result<(u16, &[u8]), NoField>
    ensures { Reads (λ f. (f.0, f.1.now)) result (number_at w16 bytes.now) }
{
    match take_u16(bytes) {
        None => Err(NoField),
        Some((number, rest)) => Ok((number, rest)),
    }
}

/// A number of four bytes, and the bytes after it.
///
/// # Errors
/// `NoField` where there are fewer.
#[tactic(auto, unfolding(crate::specs::Reading::number_at))]
pub fn u32_at(bytes: &[u8]) -> Result<(u32, &[u8]), NoField>
    ensures { Reads (λ f. (f.0, f.1.now)) result (number_at w32 bytes.now) }
{
    match take_u32(bytes) {
        None => Err(NoField),
        Some((number, rest)) => Ok((number, rest)),
    }
}

/// A number of eight bytes, and the bytes after it.
///
/// # Errors
/// `NoField` where there are fewer.
#[tactic(auto, unfolding(crate::specs::Reading::number_at))]
pub fn u64_at(bytes: &[u8]) -> Result<(u64, &[u8]), NoField>
    ensures { Reads (λ f. (f.0, f.1.now)) result (number_at w64 bytes.now) }
{
    match take_u64(bytes) {
        None => Err(NoField),
        Some((number, rest)) => Ok((number, rest)),
    }
}

/// An id, which is eight bytes of which the first four are 0, and the bytes after it.
///
/// # Errors
/// `NoField` where there are fewer bytes, or the number is over 4,294,967,295.
#[tactic(auto, unfolding(crate::specs::Reading::id_at))]
pub fn id_at(bytes: &[u8]) -> Result<(u32, &[u8]), NoField>
    ensures { Reads (λ f. (f.0, f.1.now)) result (id_at bytes.now) }
{
    let (number, rest) = u64_at(bytes)?;
    if number > u64::from(u32::MAX) {
        return Err(NoField);
    }
    Ok((number as u32, rest))
}

/// A text, which is not copied, and the bytes after it. It visits each byte of the text once.
///
/// # Errors
/// `NoField` where there are fewer bytes than the text's length says, or they are not UTF-8.
#[tactic(auto, unfolding(crate::specs::Reading::text_at))]
pub fn text_at(bytes: &[u8]) -> Result<(&[u8], &[u8]), NoField>
    ensures { Reads (λ f. (f.0.now, f.1.now)) result (text_at bytes.now) }
{
    let (size, rest) = u16_at(bytes)?;
    let (text, rest) = bytes_at(usize::from(size), rest)?;
    if !is_utf8(text) {
        return Err(NoField);
    }
    Ok((text, rest))
}

/// Whether something is so, as one byte, and the bytes after it.
///
/// # Errors
/// `NoField` where there is no byte, or it is neither 0 nor 1.
pub fn flag_at(bytes: &[u8]) -> Result<(bool, &[u8]), NoField>
    ensures { Reads (λ f. (f.0, f.1.now)) result (byte_as flag_of bytes.now) }
{
    let (byte, rest) = u8_at(bytes)?;
    match byte {
        0 => Ok((false, rest)),
        1 => Ok((true, rest)),
        _ => Err(NoField),
    }
}
