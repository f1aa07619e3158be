//! What one word of a line says.

ghost use Rattle.std.specs.Prelude.{◌≡◌, ◌<◌, ◌≤◌, ◌*◌, length, IfOk, IfSome, Option};
ghost use Rattle.std.specs.Option.{option_map};
ghost use Rattle.std.specs.List.{list_all};
ghost use Rattle.scenario_text.specs.Fields.{name_of, decimal_number, brick_number, lettered_number, caller_number, key_number, seat_number, hex_digit, hex_byte, bytes_of_digits, hex_bytes, is_text_byte, text_of, freed_of, kind_of, level_of};

use crate::head_line::CureLevel;
use crate::line::{HexBytes, MAX_CALLER, MAX_HEX_BYTES};
use crate::seat_line::MAX_SEAT;
use crate::session_line::{Freed, MAX_KEY};
use crash_base::{ComponentName, FaultKind, OutOfMemory, WordText, is_name};
use std::alloc::Global;

/// A copy of a word that is a name.
pub fn name_of(alloc: Global, word: &[u8]) -> Result<Option<ComponentName>, OutOfMemory>
    ensures { IfOk result (λ name. name ≡ name_of word.now) }
{
    if !is_name(word) {
        return Ok(None);
    }
    Ok(Some(ComponentName::copied(alloc, word)?))
}

/// A number in decimal digits without leading zeros.
pub fn decimal_number(word: &[u8]) -> Option<u64>
    ensures { result ≡ decimal_number word.now }
{
    if word.is_empty() || (word.len() > 1 && word[0] == b'0') {
        return None;
    }
    let mut n: u64 = 0;
    for b in word {
        if !b.is_ascii_digit() {
            return None;
        }
        let digit = u64::from(*b - b'0');
        if n > (u64::MAX - digit) / 10 {
            return None;
        }
        n = 10 * n + digit;
    }
    Some(n)
}

/// The number of a brick, from 1 on.
pub fn brick_number(word: &[u8]) -> Option<u64>
    ensures { result ≡ brick_number word.now }
{
    let n = decimal_number(word)?;
    if 1 <= n { Some(n) } else { None }
}

/// A letter, and a number from 1 to a highest one.
fn lettered_number(word: &[u8], letter: u8, highest: u64) -> Option<u64>
    ensures { result ≡ lettered_number letter highest word.now }
{
    match word {
        [] => None,
        [first, digits @ ..] => {
            let n = decimal_number(digits)?;
            if *first == letter && 1 <= n && n <= highest {
                Some(n)
            } else {
                None
            }
        }
    }
}

/// The number of a caller.
pub fn caller_number(word: &[u8]) -> Option<u64>
    ensures { result ≡ caller_number word.now }
{
    lettered_number(word, b'c', MAX_CALLER)
}

/// The number of a session key.
pub fn key_number(word: &[u8]) -> Option<u64>
    ensures { result ≡ key_number word.now }
{
    lettered_number(word, b'k', MAX_KEY)
}

/// The number of a connection.
pub fn seat_number(word: &[u8]) -> Option<u64>
    ensures { result ≡ seat_number word.now }
{
    lettered_number(word, b's', MAX_SEAT)
}

/// The value of a lower case hexadecimal digit.
fn hex_digit(b: u8) -> Option<u8>
    ensures value { result ≡ hex_digit b }
    ensures small { IfSome result (λ n. n < 16) }
{
    if b.is_ascii_digit() {
        Some(b - b'0')
    } else if b'a' <= b && b <= b'f' {
        Some(b - b'a' + 10)
    } else {
        None
    }
}

/// The byte of two digits.
fn hex_byte(a: u8, b: u8) -> Option<u8>
    ensures { result ≡ hex_byte a b }
{
    let high = hex_digit(a)?;
    let low = hex_digit(b)?;
    Some(16 * high + low)
}

/// The bytes of two digits each, in a vector without spare room.
fn bytes_of_digits(alloc: Global, word: &[u8]) -> Result<Option<Vec<u8>>, OutOfMemory>
    ensures value { IfOk result (λ bytes.
        option_map (λ v. v.items) bytes ≡ bytes_of_digits word.now) }
    ensures few { IfOk result (λ bytes. IfSome bytes (λ v. 2 * length v.items ≤ length word.now)) }
{
    let mut bytes = Vec::with_capacity(alloc, word.len() / 2)?;
    let mut rest = word;
    while rest.len() >= 2 {
        let Some(byte) = hex_byte(rest[0], rest[1]) else {
            return Ok(None);
        };
        bytes.push_reserved(byte);
        rest = &rest[2..];
    }
    if !rest.is_empty() {
        return Ok(None);
    }
    Ok(Some(bytes))
}

/// Bytes in hexadecimal, or `-` where there are none.
pub fn hex_bytes(alloc: Global, word: &[u8]) -> Result<Option<HexBytes>, OutOfMemory>
    ensures { IfOk result (λ bytes. bytes ≡ hex_bytes word.now) }
{
    if word == b"-".as_slice() {
        return Ok(Some(HexBytes::from_vec(Vec::new(alloc))));
    }
    if word.is_empty() || word.len() > 2 * MAX_HEX_BYTES {
        return Ok(None);
    }
    let Some(bytes) = bytes_of_digits(alloc, word)? else {
        return Ok(None);
    };
    Ok(Some(HexBytes::from_vec(bytes)))
}

/// Whether a text may have this byte.
fn is_text_byte(b: u8) -> bool
    ensures { result ≡ is_text_byte b }
{
    b.is_ascii() && b != b' ' && b != b'\r'
}

/// Whether a text may have each of these bytes.
fn has_text_bytes(word: &[u8]) -> bool
    ensures { result ≡ list_all is_text_byte word.now }
{
    word.iter().all(|b| is_text_byte(*b))
}

/// A copy of a word that is a text, as any word of ASCII is.
pub fn text_of(alloc: Global, word: &[u8]) -> Result<Option<WordText>, OutOfMemory>
    ensures { IfOk result (λ text. text ≡ text_of word.now) }
{
    if word.is_empty() || !has_text_bytes(word) {
        return Ok(None);
    }
    Ok(Some(WordText::copied(alloc, word)?))
}

/// How a pass is spent, by the word for it.
pub fn freed_of(word: &[u8]) -> Option<Freed>
    ensures { result ≡ freed_of word.now }
{
    if word == b"answered".as_slice() {
        Some(Freed::Answered)
    } else if word == b"silent".as_slice() {
        Some(Freed::Silent)
    } else {
        None
    }
}

/// What a component does that fails, by the word for it.
pub fn kind_of(word: &[u8]) -> Option<FaultKind>
    ensures { result ≡ kind_of word.now }
{
    if word == b"raise".as_slice() {
        Some(FaultKind::Raise)
    } else if word == b"hang".as_slice() {
        Some(FaultKind::Hang)
    } else {
        None
    }
}

/// What cures a fault, by the word for it.
pub fn level_of(word: &[u8]) -> Option<CureLevel>
    ensures { result ≡ level_of word.now }
{
    if word == b"group".as_slice() {
        Some(CureLevel::Group)
    } else if word == b"app".as_slice() {
        Some(CureLevel::App)
    } else if word == b"process".as_slice() {
        Some(CureLevel::Process)
    } else {
        None
    }
}
