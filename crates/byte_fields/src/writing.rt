//! Fields that are written at the end of bytes.

ghost use Rattle.std.specs.Prelude.{◌≡◌, ◌++◌, ◌<◌, ◌^◌, length, OnOk};
ghost use Rattle.byte_fields.specs.Spelling.{u8_bytes, u16_bytes, u32_bytes, u64_bytes, text16, flag};

use crash_base::OutOfMemory;

/// Writes a number of one byte.
///
/// # Errors
/// `OutOfMemory` where there was no memory for it.
#[tactic(auto, unfolding(crate::specs::Spelling::u8_bytes))]
pub fn write_u8(out: &mut Vec<u8>, number: u8) -> Result<(), OutOfMemory>
    ensures { OnOk result (out.new.items ≡ out.old.items ++ u8_bytes number) }
{
    Ok(out.push(number)?)
}

/// Writes a number of two bytes.
///
/// # Errors
/// `OutOfMemory` where there was no memory for them.
#[tactic(auto, unfolding(crate::specs::Spelling::u16_bytes))]
pub fn write_u16(out: &mut Vec<u8>, number: u16) -> Result<(), OutOfMemory>
    ensures { OnOk result (out.new.items ≡ out.old.items ++ u16_bytes number) }
{
    Ok(out.extend_from_slice(&u16::to_be_bytes(number))?)
}

/// Writes a number of four bytes.
///
/// # Errors
/// `OutOfMemory` where there was no memory for them.
#[tactic(auto, unfolding(crate::specs::Spelling::u32_bytes))]
pub fn write_u32(out: &mut Vec<u8>, number: u32) -> Result<(), OutOfMemory>
    ensures { OnOk result (out.new.items ≡ out.old.items ++ u32_bytes number) }
{
    Ok(out.extend_from_slice(&u32::to_be_bytes(number))?)
}

/// Writes a number of eight bytes.
///
/// # Errors
/// `OutOfMemory` where there was no memory for them.
#[tactic(auto, unfolding(crate::specs::Spelling::u64_bytes))]
pub fn write_u64(out: &mut Vec<u8>, number: u64) -> Result<(), OutOfMemory>
    ensures { OnOk result (out.new.items ≡ out.old.items ++ u64_bytes number) }
{
    Ok(out.extend_from_slice(&u64::to_be_bytes(number))?)
}

/// Writes an id, in eight bytes.
///
/// # Errors
/// `OutOfMemory` where there was no memory for them.
pub fn write_id(out: &mut Vec<u8>, number: u32) -> Result<(), OutOfMemory>
    ensures { OnOk result (out.new.items ≡ out.old.items ++ u64_bytes number) }
{
    write_u64(out, u64::from(number))
}

/// Writes a text, of at most 65,535 bytes, which it copies.
///
/// # Errors
/// `OutOfMemory` where there was no memory for it.
#[tactic(auto, unfolding(crate::specs::Spelling::text16))]
pub fn write_text(out: &mut Vec<u8>, text: &[u8]) -> Result<(), OutOfMemory>
    requires { length text.now < 2 ^ 16 }
    ensures { OnOk result (out.new.items ≡ out.old.items ++ text16 text.now) }
{
    write_u16(out, text.len() as u16)?;
    out.extend_from_slice(text)?;
    Ok(())
}

/// 1 where something is so, and else 0.
pub fn flag_number(is_so: bool) -> u8
    ensures { result ≡ flag is_so }
{
    if is_so { 1 } else { 0 }
}
