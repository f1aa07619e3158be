//! Form tokens.

ghost use Rattle.std.specs.Prelude.{◌≡◌, ◌+◌, ◌<◌, ◌≤◌, ◌++◌, ℕ, length, take, drop, slice_index, IfSome, IsSome};
ghost use Rattle.std.specs.Char.{digit_char};
ghost use Rattle.session_cookie.specs.Reading.{byte_at, hex_value};
ghost use Rattle.session_cookie.specs.Token.{hex_text, request_bytes, token_bytes, token_message, token_of, IsReadAs, IsRequest};

use crate::hmac::{hmac_sha256, is_same};
use crate::reading::{take_eight, take_four};
use crash_base::{RequestNo, SessionKey};

/// How many digits a token has.
pub const TOKEN_DIGITS: usize = 56;

/// Puts a piece in place of the bytes at a place.
fn put(block: &mut [u8], at: usize, piece: &[u8])
    requires { at + length piece.now ≤ length block.old }
    ensures { block.new ≡ take at block.old ++ (piece.now ++ drop (at + length piece.now) block.old) }
{
    for i in 0..piece.len() {
        block[at + i] = piece[i];
    }
}

/// The message of a token's tag.
fn token_message(session: SessionKey, request: RequestNo) -> [u8; 32]
    ensures { result ≡ token_message session request }
{
    let mut message = [0u8; 32];
    put(&mut message, 0, b"form");
    put(&mut message, 4, &session.0);
    put(&mut message, 20, &request.boot.to_be_bytes());
    put(&mut message, 24, &request.serial.to_be_bytes());
    message
}

fn token_bytes(key: &[u8], session: SessionKey, request: RequestNo) -> [u8; 28]
    ensures { result ≡ token_bytes key.now session request }
{
    let tag = hmac_sha256(key, &token_message(session, request));
    let tag = &tag[..16];
    let mut bytes = [0u8; 28];
    put(&mut bytes, 0, &request.boot.to_be_bytes());
    put(&mut bytes, 4, &request.serial.to_be_bytes());
    put(&mut bytes, 12, tag);
    bytes
}

/// The hexadecimal digit of a number, in lower case.
fn digit_of(n: u8) -> u8
    requires { n < 16 }
    ensures { result ≡ digit_char n }
{
    if n < 10 { b'0' + n } else { b'a' - 10 + n }
}

fn hex_text(bytes: &[u8; 28]) -> [u8; 56]
    ensures { result ≡ hex_text bytes.now }
{
    let mut text = [0u8; 56];
    for i in 0..28 {
        text[2 * i] = digit_of(bytes[i] / 16);
        text[2 * i + 1] = digit_of(bytes[i] % 16);
    }
    text
}

/// The token of a form that was written for a request of a session: 56 hexadecimal digits in lower
/// case. They are the request's boot and serial, as big-endian numbers, and the first 16 bytes of the
/// HMAC-SHA-256 (RFC 2104) of `form`, the session's key, the boot and the serial, under the service's
/// key, which has any length. It takes no memory.
pub fn form_token(key: &[u8], session: SessionKey, request: RequestNo) -> [u8; 56]
    ensures { result ≡ token_of key.now session request }
{
    hex_text(&token_bytes(key, session, request))
}

/// The value of a hexadecimal digit in lower case, and 0 of any other byte.
fn hex_value(digit: u8) -> u8
    ensures value { result ≡ hex_value digit }
    ensures small { result < 16 }
{
    if digit.is_ascii_digit() {
        digit - b'0'
    } else if b'a' <= digit && digit <= b'f' {
        digit - b'a' + 10
    } else {
        0
    }
}

/// The bytes that the first 24 digits of a text are, if they are digits.
fn first_bytes(text: &[u8]) -> [u8; 12]
    requires { 24 ≤ length text.now }
    ensures { (k : ℕ) → k < 12 → slice_index result k ≡ byte_at text.now k }
{
    let mut bytes = [0u8; 12];
    for i in 0..12 {
        bytes[i] = 16 * hex_value(text[2 * i]) + hex_value(text[2 * i + 1]);
    }
    bytes
}

/// The request that the first 24 digits of a text are, if they are digits.
fn first_request(text: &[u8]) -> Option<RequestNo>
    requires { 24 ≤ length text.now }
    ensures there { IsSome result }
    ensures value { IfSome result (λ r. IsRequest r
        × ((k : ℕ) → k < 12 → slice_index (request_bytes r) k ≡ byte_at text.now k)) }
{
    let bytes = first_bytes(text);
    let (boot, rest) = take_four(&bytes)?;
    let (serial, _) = take_eight(rest)?;
    Some(RequestNo { boot, serial })
}

/// The request whose token of the session a text is. None exactly where it is the token of none, as
/// where a digit is a capital letter. A text is the token of one request at most. The key has any
/// length. It takes no memory, and compares all digits, also after one that differs.
pub fn read_token(key: &[u8], session: SessionKey, text: &[u8]) -> Option<RequestNo>
    ensures { IsReadAs key.now session text.now result }
{
    if text.len() != TOKEN_DIGITS {
        return None;
    }
    let request = first_request(text)?;
    if is_same(&form_token(key, session, request), text) {
        Some(request)
    } else {
        None
    }
}
