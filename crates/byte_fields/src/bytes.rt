//! What is known of bytes.

ghost use Rattle.std.specs.Prelude.{◌≡◌};
ghost use Rattle.std.specs.Str.{is_utf8};
ghost use Rattle.byte_fields.specs.Spelling.{AreBytes};

/// Whether bytes are UTF-8. It takes no memory, and visits each byte once.
pub fn is_utf8(bytes: &[u8]) -> bool
    ensures { result ≡ is_utf8 bytes.now }
{
    match std::str::from_utf8(bytes) {
        Ok(_) => true,
        Err(_) => false,
    }
}

/// Bytes that the code holds are numbers below 256, which laws of what is read have as their premise. It
/// does nothing: a caller that needs the fact calls it.
pub fn bytes_are_in_range(bytes: &[u8])
    ensures { AreBytes bytes.now }
{}
