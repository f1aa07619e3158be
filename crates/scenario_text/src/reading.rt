//! Lines from text.

ghost use Rattle.std.specs.Prelude.{◌≡◌, ◌∷◌, IfOk};
ghost use Rattle.std.specs.List.{list_all};
ghost use Rattle.scenario_text.specs.Words.{words_after};
ghost use Rattle.scenario_text.specs.Reading.{line_of, passes, is_comment_byte, line_from, head_line, event_line, call_or_other, call_line, boot_or_other, session_or_seat, boot_line, put_line};

use crate::arguments::{
    caller_and_name, caller_and_number, caller_and_two_numbers, name_and_fault, name_and_number,
    one_bytes, one_caller, one_name, one_text, some_names, three_numbers, two_names, two_numbers,
};
use crate::boot_line::BootLine;
use crate::call_line::CallLine;
use crate::fields::{caller_number, decimal_number, hex_bytes};
use crate::head_line::HeadLine;
use crate::line::{Line, MAX_LINE_BYTES};
use crate::seat_reading::seat_line;
use crate::session_reading::session_line;
use crate::words::{first_word, four_words, no_words};
use crash_base::OutOfMemory;
use std::alloc::Global;

/// The line of `put`: a caller, the numbers of a table and a key, and bytes.
fn put_line(alloc: Global, left: &[u8]) -> Result<Option<(u64, CallLine)>, OutOfMemory>
    ensures { IfOk result (λ line. line ≡ put_line (words_after left.now)) }
{
    let Some((caller, table, key, hex)) = four_words(left) else {
        return Ok(None);
    };
    let Some(caller) = caller_number(caller) else {
        return Ok(None);
    };
    let Some(table) = decimal_number(table) else {
        return Ok(None);
    };
    let Some(key) = decimal_number(key) else {
        return Ok(None);
    };
    let bytes = hex_bytes(alloc, hex)?;
    Ok(bytes.map(|bytes| (caller, CallLine::Put(table, key, bytes))))
}

/// The caller and the line of its call that a first word and the words after it spell.
fn call_line(
    alloc: Global,
    first: &[u8],
    left: &[u8],
) -> Result<Option<(u64, CallLine)>, OutOfMemory>
    ensures { IfOk result (λ line. line ≡ call_line first.now (words_after left.now)) }
{
    if first == b"enter".as_slice() {
        Ok(caller_and_name(alloc, left)?.map(|(caller, name)| (caller, CallLine::Enter(name))))
    } else if first == b"exit".as_slice() {
        Ok(one_caller(left).map(|caller| (caller, CallLine::Exit)))
    } else if first == b"read".as_slice() {
        Ok(caller_and_two_numbers(left).map(|(caller, row)| (caller, CallLine::Read(row.0, row.1))))
    } else if first == b"list".as_slice() {
        Ok(caller_and_number(left).map(|(caller, table)| (caller, CallLine::List(table))))
    } else if first == b"put".as_slice() {
        put_line(alloc, left)
    } else {
        Ok(None)
    }
}

/// The line over the boot that they spell.
fn boot_line(alloc: Global, first: &[u8], left: &[u8]) -> Result<Option<BootLine>, OutOfMemory>
    ensures { IfOk result (λ line. line ≡ boot_line first.now (words_after left.now)) }
{
    if first == b"begin".as_slice() {
        Ok(one_caller(left).map(BootLine::Begin))
    } else if first == b"drop".as_slice() {
        Ok(one_caller(left).map(BootLine::Drop))
    } else if first == b"down".as_slice() {
        Ok(one_text(alloc, left)?.map(BootLine::Down))
    } else if first == b"up".as_slice() {
        Ok(one_text(alloc, left)?.map(BootLine::Up))
    } else if first == b"reboot".as_slice() {
        Ok(one_text(alloc, left)?.map(BootLine::Reboot))
    } else if first == b"table".as_slice() {
        Ok(no_words(left).map(|()| BootLine::Table))
    } else if first == b"journal".as_slice() {
        Ok(no_words(left).map(|()| BootLine::Journal))
    } else if first == b"report".as_slice() {
        Ok(some_names(alloc, left)?.map(BootLine::Report))
    } else {
        Ok(None)
    }
}

/// The line of the head that they spell.
fn head_line(alloc: Global, first: &[u8], left: &[u8]) -> Result<Option<HeadLine>, OutOfMemory>
    ensures { IfOk result (λ line. line ≡ head_line first.now (words_after left.now)) }
{
    if first == b"component".as_slice() {
        Ok(one_name(alloc, left)?.map(HeadLine::Component))
    } else if first == b"hard".as_slice() {
        Ok(two_names(alloc, left)?.map(|(name, other)| HeadLine::Hard(name, other)))
    } else if first == b"soft".as_slice() {
        Ok(two_names(alloc, left)?.map(|(name, other)| HeadLine::Soft(name, other)))
    } else if first == b"owns".as_slice() {
        Ok(name_and_number(alloc, left)?.map(|(name, table)| HeadLine::Owns(name, table)))
    } else if first == b"fault".as_slice() {
        Ok(name_and_fault(alloc, left)?.map(|(name, plan)| {
            HeadLine::Fault(name, plan.0, plan.1.0, plan.1.1)
        }))
    } else if first == b"limit".as_slice() {
        Ok(two_numbers(left).map(|(entries, bytes)| HeadLine::Limit(entries, bytes)))
    } else if first == b"bricks".as_slice() {
        Ok(three_numbers(left).map(|(bricks, writes)| HeadLine::Bricks(bricks, writes.0, writes.1)))
    } else if first == b"key".as_slice() {
        Ok(one_bytes(alloc, left)?.map(HeadLine::Key))
    } else if first == b"site".as_slice() {
        Ok(no_words(left).map(|()| HeadLine::Site))
    } else {
        Ok(None)
    }
}

/// The line about sessions, or else about connections, that they spell.
fn session_or_seat(alloc: Global, first: &[u8], left: &[u8]) -> Result<Option<Line>, OutOfMemory>
    ensures { IfOk result (λ line. line ≡ session_or_seat first.now (words_after left.now)) }
{
    match session_line(alloc, first, left)? {
        Some(line) => Ok(Some(Line::Session(line))),
        None => Ok(seat_line(alloc, first, left)?.map(Line::Seat)),
    }
}

/// The line over the boot, or else about sessions or connections, that they spell.
fn boot_or_other(alloc: Global, first: &[u8], left: &[u8]) -> Result<Option<Line>, OutOfMemory>
    ensures { IfOk result (λ line. line ≡ boot_or_other first.now (words_after left.now)) }
{
    match boot_line(alloc, first, left)? {
        Some(line) => Ok(Some(Line::Boot(line))),
        None => session_or_seat(alloc, first, left),
    }
}

/// The line of a live call, or else one that is neither of the head nor of a call, that they spell.
fn call_or_other(alloc: Global, first: &[u8], left: &[u8]) -> Result<Option<Line>, OutOfMemory>
    ensures { IfOk result (λ line. line ≡ call_or_other first.now (words_after left.now)) }
{
    match call_line(alloc, first, left)? {
        Some((caller, line)) => Ok(Some(Line::Call(caller, line))),
        None => boot_or_other(alloc, first, left),
    }
}

/// The event line that they spell.
fn event_line(alloc: Global, first: &[u8], left: &[u8]) -> Result<Option<Line>, OutOfMemory>
    ensures { IfOk result (λ line. line ≡ event_line first.now (words_after left.now)) }
{
    if first == b"commit".as_slice() {
        Ok(one_caller(left).map(Line::Commit))
    } else if first == b"reopen".as_slice() {
        Ok(no_words(left).map(|()| Line::Reopen))
    } else {
        call_or_other(alloc, first, left)
    }
}

/// The line of the head, or else the event line, that they spell.
fn line_from(alloc: Global, first: &[u8], left: &[u8]) -> Result<Option<Line>, OutOfMemory>
    ensures { IfOk result (λ line. line ≡ line_from first.now (words_after left.now)) }
{
    match head_line(alloc, first, left)? {
        Some(line) => Ok(Some(Line::Head(line))),
        None => event_line(alloc, first, left),
    }
}

/// Whether a comment may have this byte.
fn is_comment_byte(b: u8) -> bool
    ensures { result ≡ is_comment_byte b }
{
    b.is_ascii() && b != b'\r'
}

/// Whether a comment may have each of these bytes.
fn has_comment_bytes(text: &[u8]) -> bool
    ensures { result ≡ list_all is_comment_byte text.now }
{
    text.iter().all(|b| is_comment_byte(*b))
}

/// Whether a line is passed over.
fn passes(text: &[u8]) -> bool
    ensures { result ≡ passes text.now }
{
    match text {
        [] => true,
        [first, rest @ ..] => *first == b'#' && has_comment_bytes(rest),
    }
}

/// The line that a text spells, or None exactly where it spells no line.
///
/// It visits each byte of a text of at most `MAX_LINE_BYTES` a few times, and none of a longer one.
#[tactic(auto, unfolding(crate::specs::Reading::line_of))]
pub fn read_line(alloc: Global, text: &[u8]) -> Result<Option<Line>, OutOfMemory>
    ensures { IfOk result (λ line. line ≡ line_of text.now) }
{
    if text.len() > MAX_LINE_BYTES {
        return Ok(None);
    }
    if passes(text) {
        return Ok(Some(Line::Pass));
    }
    let (first, left) = first_word(text);
    line_from(alloc, first, left)
}
