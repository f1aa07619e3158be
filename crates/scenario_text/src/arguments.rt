//! What the words after a first one say together, or None where they do not say it.

ghost use Rattle.std.specs.Prelude.{◌≡◌, IfOk};
ghost use Rattle.scenario_text.specs.Arguments.{one_name, one_number, one_caller, one_key, one_bytes, one_text, two_names, two_numbers, name_and_number, name_and_fault, caller_and_name, caller_and_number, key_and_bytes, one_brick, brick_and_number, brick_and_freed, caller_and_two_numbers, three_numbers, one_seat, seat_and_bytes, names_of, some_names};
ghost use Rattle.scenario_text.specs.Words.{words_after};

use crate::boot_line::NameList;
use crate::fields::{
    brick_number, caller_number, decimal_number, freed_of, hex_bytes, key_number, kind_of,
    level_of, name_of, seat_number, text_of,
};
use crate::head_line::CureLevel;
use crate::line::HexBytes;
use crate::session_line::Freed;
use crate::words::{four_words, next_word, one_word, three_words, two_words};
use crash_base::{ComponentName, FaultKind, OutOfMemory, WordText};
use std::alloc::Global;

/// The name that is the only word.
pub fn one_name(alloc: Global, left: &[u8]) -> Result<Option<ComponentName>, OutOfMemory>
    ensures { IfOk result (λ name. name ≡ one_name (words_after left.now)) }
{
    match one_word(left) {
        Some(name) => name_of(alloc, name),
        None => Ok(None),
    }
}

/// The caller that is the only word.
pub fn one_caller(left: &[u8]) -> Option<u64>
    ensures { result ≡ one_caller (words_after left.now) }
{
    caller_number(one_word(left)?)
}

/// Two words, a name each.
pub fn two_names(
    alloc: Global,
    left: &[u8],
) -> Result<Option<(ComponentName, ComponentName)>, OutOfMemory>
    ensures { IfOk result (λ names. names ≡ two_names (words_after left.now)) }
{
    let Some((name, other)) = two_words(left) else {
        return Ok(None);
    };
    let name = name_of(alloc, name)?;
    let other = name_of(alloc, other)?;
    Ok(name.zip(other))
}

/// Two words, a number each.
pub fn two_numbers(left: &[u8]) -> Option<(u64, u64)>
    ensures { result ≡ two_numbers (words_after left.now) }
{
    let (number, other) = two_words(left)?;
    decimal_number(number).zip(decimal_number(other))
}

/// Two words, a name and a number.
pub fn name_and_number(
    alloc: Global,
    left: &[u8],
) -> Result<Option<(ComponentName, u64)>, OutOfMemory>
    ensures { IfOk result (λ words. words ≡ name_and_number (words_after left.now)) }
{
    let Some((name, number)) = two_words(left) else {
        return Ok(None);
    };
    let name = name_of(alloc, name)?;
    Ok(name.zip(decimal_number(number)))
}

/// Four words, a name, a number, and the words for what a component does that fails and for what cures it.
pub fn name_and_fault(
    alloc: Global,
    left: &[u8],
) -> Result<Option<(ComponentName, (u64, (FaultKind, CureLevel)))>, OutOfMemory>
    ensures { IfOk result (λ words. words ≡ name_and_fault (words_after left.now)) }
{
    let Some((name, number, kind, level)) = four_words(left) else {
        return Ok(None);
    };
    let name = name_of(alloc, name)?;
    Ok(name.zip(decimal_number(number).zip(kind_of(kind).zip(level_of(level)))))
}

/// Two words, a caller and a name.
pub fn caller_and_name(
    alloc: Global,
    left: &[u8],
) -> Result<Option<(u64, ComponentName)>, OutOfMemory>
    ensures { IfOk result (λ words. words ≡ caller_and_name (words_after left.now)) }
{
    let Some((caller, name)) = two_words(left) else {
        return Ok(None);
    };
    let name = name_of(alloc, name)?;
    Ok(caller_number(caller).zip(name))
}

/// Two words, a caller and a number.
pub fn caller_and_number(left: &[u8]) -> Option<(u64, u64)>
    ensures { result ≡ caller_and_number (words_after left.now) }
{
    let (caller, number) = two_words(left)?;
    caller_number(caller).zip(decimal_number(number))
}

/// Three words, a caller and two numbers.
pub fn caller_and_two_numbers(left: &[u8]) -> Option<(u64, (u64, u64))>
    ensures { result ≡ caller_and_two_numbers (words_after left.now) }
{
    let (caller, number, other) = three_words(left)?;
    caller_number(caller).zip(decimal_number(number).zip(decimal_number(other)))
}

/// The number that is the only word.
pub fn one_number(left: &[u8]) -> Option<u64>
    ensures { result ≡ one_number (words_after left.now) }
{
    decimal_number(one_word(left)?)
}

/// The bytes that the only word gives.
pub fn one_bytes(alloc: Global, left: &[u8]) -> Result<Option<HexBytes>, OutOfMemory>
    ensures { IfOk result (λ bytes. bytes ≡ one_bytes (words_after left.now)) }
{
    match one_word(left) {
        Some(hex) => hex_bytes(alloc, hex),
        None => Ok(None),
    }
}

/// The session key that is the only word.
pub fn one_key(left: &[u8]) -> Option<u64>
    ensures { result ≡ one_key (words_after left.now) }
{
    key_number(one_word(left)?)
}

/// The text that is the only word.
pub fn one_text(alloc: Global, left: &[u8]) -> Result<Option<WordText>, OutOfMemory>
    ensures { IfOk result (λ text. text ≡ one_text (words_after left.now)) }
{
    match one_word(left) {
        Some(text) => text_of(alloc, text),
        None => Ok(None),
    }
}

/// Two words, a session key and bytes.
pub fn key_and_bytes(alloc: Global, left: &[u8]) -> Result<Option<(u64, HexBytes)>, OutOfMemory>
    ensures { IfOk result (λ words. words ≡ key_and_bytes (words_after left.now)) }
{
    let Some((key, hex)) = two_words(left) else {
        return Ok(None);
    };
    let bytes = hex_bytes(alloc, hex)?;
    Ok(key_number(key).zip(bytes))
}

/// The brick that is the only word.
pub fn one_brick(left: &[u8]) -> Option<u64>
    ensures { result ≡ one_brick (words_after left.now) }
{
    brick_number(one_word(left)?)
}

/// Two words, a brick and a number.
pub fn brick_and_number(left: &[u8]) -> Option<(u64, u64)>
    ensures { result ≡ brick_and_number (words_after left.now) }
{
    let (brick, number) = two_words(left)?;
    brick_number(brick).zip(decimal_number(number))
}

/// Two words, a brick and how a pass is spent.
pub fn brick_and_freed(left: &[u8]) -> Option<(u64, Freed)>
    ensures { result ≡ brick_and_freed (words_after left.now) }
{
    let (brick, freed) = two_words(left)?;
    brick_number(brick).zip(freed_of(freed))
}

/// Three words, a number each.
pub fn three_numbers(left: &[u8]) -> Option<(u64, (u64, u64))>
    ensures { result ≡ three_numbers (words_after left.now) }
{
    let (first, second, third) = three_words(left)?;
    decimal_number(first).zip(decimal_number(second).zip(decimal_number(third)))
}

/// The connection that is the only word.
pub fn one_seat(left: &[u8]) -> Option<u64>
    ensures { result ≡ one_seat (words_after left.now) }
{
    seat_number(one_word(left)?)
}

/// Two words, a connection and bytes.
pub fn seat_and_bytes(alloc: Global, left: &[u8]) -> Result<Option<(u64, HexBytes)>, OutOfMemory>
    ensures { IfOk result (λ words. words ≡ seat_and_bytes (words_after left.now)) }
{
    let Some((seat, hex)) = two_words(left) else {
        return Ok(None);
    };
    let bytes = hex_bytes(alloc, hex)?;
    Ok(seat_number(seat).zip(bytes))
}

/// The names that the words are, where each of them is one.
fn names_of(alloc: Global, left: &[u8]) -> Result<Option<NameList>, OutOfMemory>
    ensures { IfOk result (λ names. names ≡ names_of (words_after left.now)) }
{
    let mut names = NameList::new(alloc);
    let mut rest = left;
    while let Some((word, after)) = next_word(rest) {
        let Some(name) = name_of(alloc, word)? else {
            return Ok(None);
        };
        names.push(name)?;
        rest = after;
    }
    Ok(Some(names))
}

/// One name or more.
pub fn some_names(alloc: Global, left: &[u8]) -> Result<Option<NameList>, OutOfMemory>
    ensures { IfOk result (λ names. names ≡ some_names (words_after left.now)) }
{
    match next_word(left) {
        None => Ok(None),
        Some(_) => names_of(alloc, left),
    }
}
