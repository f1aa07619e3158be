//! Cookies as text.

ghost use Rattle.std.specs.Prelude.{◌≡◌, ◌↔◌, ◌≤◌, ◌-◌, ◌++◌, length, take, IfOk, IsTrue};
ghost use Rattle.session_cookie.specs.Cookie.{AreHolders, IsCookie, cookie_fields};
ghost use Rattle.session_cookie.specs.Hmac.{hmac};
ghost use Rattle.session_cookie.specs.declared.cookie.TheConstants.{TAG_BYTES};
ghost use Rattle.session_cookie.specs.Reading.{IsAnswerOfBytes};
ghost use Rattle.session_cookie.specs.Text.{IsAnswer, IsTextOf, tag_of};

use crate::base64url::{bytes_of_text, text_of_bytes};
use crate::cookie::{Cookie, TAG_BYTES, fields_of};
use crate::form::form_of;
use crate::hmac::{hmac_sha256, is_same};
use crash_base::{CookieText, OutOfMemory};
use std::alloc::Global;

/// Why a text is no cookie. Each of the first three is told only where none before it holds; out of
/// memory may come at any text.
#[derive(Clone, Copy, PartialEq)]
pub enum CookieRefusal {
    /// It is no base64url without padding (RFC 4648, section 5), or its unused bits are not zero.
    NotBase64,
    /// Its bytes are not exactly the fields of a cookie, with 1 to 16 distinct bricks, and 32 bytes.
    Form,
    /// The last 32 bytes are not the HMAC of the fields under the service's key.
    Tag,
    /// The allocator had no memory.
    OutOfMemory,
}

/// The fields of a cookie and their tag.
fn signed(alloc: Global, key: &[u8], cookie: &Cookie) -> Result<Vec<u8>, OutOfMemory>
    requires { AreHolders cookie.now.bricks }
    ensures { IfOk result (λ bytes. IsCookie cookie.now
        × (bytes.items ≡ cookie_fields cookie.now ++ tag_of key.now cookie.now)) }
{
    let mut bytes = fields_of(alloc, cookie)?;
    let tag = hmac_sha256(key, bytes.as_slice());
    bytes.extend_from_slice(&tag)?;
    Ok(bytes)
}

/// The text of a cookie under the service's key (RFC 4648, section 5). The key has any length; 32
/// bytes or more from a random source are what HMAC is meant for (RFC 2104, section 3).
///
/// The cookie has 1 to 16 distinct bricks. It fails only where memory ran out. It visits each byte a
/// few times, and a text has at most 310 characters.
pub fn encode_cookie(alloc: Global, key: &[u8], cookie: &Cookie) -> Result<CookieText, OutOfMemory>
    requires { AreHolders cookie.now.bricks }
    ensures { IfOk result (λ text. IsTextOf key.now cookie.now text) }
{
    let bytes = signed(alloc, key, cookie)?;
    text_of_bytes(alloc, bytes.as_slice())
}

/// Whether the bytes before the last 32 have these as their tag.
fn has_tag(key: &[u8], bytes: &[u8], tag: &[u8]) -> bool
    requires tag { length tag.now ≡ TAG_BYTES }
    requires bytes { TAG_BYTES ≤ length bytes.now }
    ensures { IsTrue result ↔ (tag.now ≡ hmac key.now (take (length bytes.now - TAG_BYTES) bytes.now)) }
{
    let fields = &bytes[..bytes.len() - TAG_BYTES];
    is_same(tag, &hmac_sha256(key, fields))
}

/// The cookie that bytes are under the service's key.
fn cookie_of(alloc: Global, key: &[u8], bytes: &[u8]) -> Result<Cookie, CookieRefusal>
    ensures { IsAnswerOfBytes key.now bytes.now result }
{
    match form_of(alloc, bytes) {
        Err(OutOfMemory) => Err(CookieRefusal::OutOfMemory),
        Ok(None) => Err(CookieRefusal::Form),
        Ok(Some((cookie, tag))) => {
            if has_tag(key, bytes, tag) {
                Ok(cookie)
            } else {
                Err(CookieRefusal::Tag)
            }
        }
    }
}

/// The cookie that a text is under the service's key, or why it is none: `CookieRefusal` says when
/// each refusal comes. A key and a text may be any bytes. It visits each byte of the text a few times,
/// and compares all bytes of a tag, also after one that differs.
pub fn decode_cookie(alloc: Global, key: &[u8], text: &[u8]) -> Result<Cookie, CookieRefusal>
    ensures { IsAnswer key.now text.now result }
{
    match bytes_of_text(alloc, text) {
        Err(OutOfMemory) => Err(CookieRefusal::OutOfMemory),
        Ok(None) => Err(CookieRefusal::NotBase64),
        Ok(Some(bytes)) => cookie_of(alloc, key, bytes.as_slice()),
    }
}
