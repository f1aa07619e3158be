//! Base64url without padding, as text.

ghost use Rattle.std.specs.Prelude.{IfOk, MatchOption};
ghost use Rattle.session_cookie.specs.Text.{Spells, SpellsNoBytes};

use base64::DecodeAllocError;
use base64::engine::general_purpose::URL_SAFE_NO_PAD;
use crash_base::{CookieText, OutOfMemory};
use std::alloc::Global;

/// The bytes that a text spells. None exactly where it spells none.
pub fn bytes_of_text(alloc: Global, text: &[u8]) -> Result<Option<Vec<u8>>, OutOfMemory>
    ensures { IfOk result (λ found. MatchOption found (SpellsNoBytes text.now)
        (λ bytes. Spells text.now bytes.items)) }
{
    match URL_SAFE_NO_PAD.decode(alloc, text) {
        Ok(bytes) => Ok(Some(bytes)),
        Err(DecodeAllocError::OutOfMemory) => Err(OutOfMemory),
        Err(_) => Ok(None),
    }
}

/// The text that spells bytes.
pub fn text_of_bytes(alloc: Global, bytes: &[u8]) -> Result<CookieText, OutOfMemory>
    ensures { IfOk result (λ text. Spells text bytes.now) }
{
    let text = URL_SAFE_NO_PAD.encode(alloc, bytes)?;
    Ok(CookieText::from_vec(text.into_bytes()))
}
