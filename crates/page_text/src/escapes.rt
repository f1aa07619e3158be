//! Escaped texts.

ghost use Rattle.std.specs.Prelude.{◌≡◌, ◌++◌, OnOk};
ghost use Rattle.page_text.specs.Escapes.{escape_byte, escaped};

use crash_base::OutOfMemory;

/// Adds a byte, or the reference that stands for it.
fn write_byte(page: &mut Vec<u8>, byte: u8) -> Result<(), OutOfMemory>
    ensures { OnOk result (page.new.items ≡ page.old.items ++ escape_byte byte) }
{
    match byte {
        b'&' => page.extend_from_slice(b"&amp;")?,
        b'<' => page.extend_from_slice(b"&lt;")?,
        b'>' => page.extend_from_slice(b"&gt;")?,
        b'"' => page.extend_from_slice(b"&quot;")?,
        b'\'' => page.extend_from_slice(b"&#39;")?,
        _ => page.push(byte)?,
    }
    Ok(())
}

/// Adds a text, escaped. It visits each byte once, and writes at most 6 for it.
#[tactic(auto, unfolding(crate::specs::Escapes::escaped))]
pub fn write_escaped(page: &mut Vec<u8>, text: &[u8]) -> Result<(), OutOfMemory>
    ensures { OnOk result (page.new.items ≡ page.old.items ++ escaped text.now) }
{
    for byte in text {
        write_byte(page, *byte)?;
    }
    Ok(())
}
