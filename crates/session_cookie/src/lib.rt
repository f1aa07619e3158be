//! The cookie by which a client names its session, and the tokens of its forms.
//!
//! A cookie says which session it is, which version of it, until when, and which bricks hold it:
//!
//! ```text
//! let text = encode_cookie(alloc, key, &cookie)?;
//! let cookie = decode_cookie(alloc, key, text.as_slice())?;
//! ```
//!
//! A cookie's fields are, in order and with big-endian numbers:
//!
//! ```text
//! 01                the format number
//! 16 bytes          the session's key
//! 2, 4 and 8 bytes  the version: its node, boot and serial
//! 8 bytes           the expiry
//! 1 byte            how many bricks there are, 1 to 16, and for each of them, no two alike:
//! 2 and 8 bytes     the brick and its incarnation
//! ```
//!
//! Then comes a tag of 32 bytes, which is the HMAC-SHA-256 (RFC 2104) of the fields under the service's
//! key. The text is base64url without padding (RFC 4648, section 5) of both. It is strict: its unused
//! bits are zero. So a cookie has one text under a key, and a text is at most one cookie.
//!
//! `encode_cookie` gives that text, and `decode_cookie` the cookie exactly where a text is it; else it
//! tells what the text lacks. The laws `cookies_decode_back` and `texts_have_one_answer` say that both
//! belong together and that each refusal comes just where it is called for. Who does not have the key
//! can make a tag only by guessing it: this rests on SHA-256, and no contract says it.
//!
//! A form token is 56 digits that say for which request of which session a form was written:
//! `form_token` writes it, and `read_token` reads the request, or nothing where none has this token.
//!
//! Decoding and encoding visit each byte a few times. The HMAC and the tokens take no memory.
#![tactic(auto)]

mod base64url;
mod codec;
mod cookie;
mod form;
mod hmac;
mod laws;
mod reading;
mod tokens;

pub use codec::{CookieRefusal, decode_cookie, encode_cookie};
pub use cookie::{Cookie, Holder, HolderList, MAX_HOLDERS};
pub use hmac::hmac_sha256;
pub use laws::{
    cookies_decode_back, cookies_have_few_bricks, texts_have_one_answer, texts_spell_one_cookie,
    tokens_are_of_one_request, tokens_read_back,
};
pub use tokens::{TOKEN_DIGITS, form_token, read_token};
