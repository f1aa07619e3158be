//! Numbers in big-endian order of their bytes, as frames and cookies have them.

ghost use Rattle.std.specs.Prelude.{◌≡◌, ◌<◌, take, length, MatchOption};
ghost use Rattle.std.specs.Int.{from_be_bytes, w16, w32, w64};
ghost use Rattle.crash_base.specs.BigEndian.{TakesField};

/// The big-endian number of the first 2 bytes, and the bytes after them. None exactly where there are fewer.
pub fn take_u16(bytes: &[u8]) -> Option<(u16, &[u8])>
    ensures { MatchOption result (length bytes.now < 2)
        (λ field. TakesField 2 bytes.now (from_be_bytes w16
        (take 2 bytes.now)) field.0 field.1.now) }
{
    let (field, rest) = bytes.split_first_chunk::<2>()?;
    Some((u16::from_be_bytes(*field), rest))
}

/// The big-endian number of the first 4 bytes, and the bytes after them. None exactly where there are fewer.
pub fn take_u32(bytes: &[u8]) -> Option<(u32, &[u8])>
    ensures { MatchOption result (length bytes.now < 4)
        (λ field. TakesField 4 bytes.now (from_be_bytes w32
        (take 4 bytes.now)) field.0 field.1.now) }
{
    let (field, rest) = bytes.split_first_chunk::<4>()?;
    Some((u32::from_be_bytes(*field), rest))
}

/// The big-endian number of the first 8 bytes, and the bytes after them. None exactly where there are fewer.
pub fn take_u64(bytes: &[u8]) -> Option<(u64, &[u8])>
    ensures { MatchOption result (length bytes.now < 8)
        (λ field. TakesField 8 bytes.now (from_be_bytes w64
        (take 8 bytes.now)) field.0 field.1.now) }
{
    let (field, rest) = bytes.split_first_chunk::<8>()?;
    Some((u64::from_be_bytes(*field), rest))
}
