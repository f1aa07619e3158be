//! Bytes as text.

ghost use Rattle.std.specs.Prelude.{◌≡◌, ◌+◌, ◌<◌, ◌≤◌, ◌++◌, OnOk, OnErr, string_bytes, string_len};
ghost use Rattle.std.specs.Char.{digit_char};
ghost use Rattle.std.specs.String.{string_capacity};
ghost use Rattle.scenario_text.specs.Texts.{hex_text, byte_text};

use crash_base::OutOfMemory;

/// The hexadecimal digit of a number, in lower case.
fn digit_char(n: u8) -> char
    requires { n < 16 }
    ensures { result ≡ digit_char n }
{
    char::from_digit(u32::from(n), 16).unwrap()
}

/// Adds the digits of a byte to a text that has room for them.
fn write_byte(text: &mut String, byte: u8)
    requires { string_len text.old + 2 ≤ string_capacity text.old }
    ensures bytes { string_bytes text.new ≡ string_bytes text.old ++ byte_text byte }
    ensures len { string_len text.new ≡ string_len text.old + 2 }
    ensures room { string_capacity text.old ≤ string_capacity text.new }
{
    let _ = text.push(digit_char(byte / 16));
    let _ = text.push(digit_char(byte % 16));
}

/// Adds bytes in lower case hexadecimal, two digits each, or `-` where there are none.
///
/// Where memory ran out, the text is as it was. It visits each byte once.
pub fn write_hex(text: &mut String, bytes: &[u8]) -> Result<(), OutOfMemory>
    ensures ok { OnOk result (string_bytes text.new ≡ string_bytes text.old ++ hex_text bytes.now) }
    ensures err { OnErr result (string_bytes text.new ≡ string_bytes text.old) }
{
    if bytes.is_empty() {
        return Ok(text.push_str("-")?);
    }
    let room = bytes.len().checked_mul(2).ok_or(OutOfMemory)?;
    text.reserve(room)?;
    for byte in bytes {
        write_byte(text, *byte);
    }
    Ok(())
}
