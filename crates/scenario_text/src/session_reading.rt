//! Lines about sessions from their words.

ghost use Rattle.std.specs.Prelude.{◌≡◌, IfOk};
ghost use Rattle.scenario_text.specs.SessionReading.{session_line, sweep_line};
ghost use Rattle.scenario_text.specs.Words.{words_after};

use crate::arguments::{
    brick_and_freed, brick_and_number, key_and_bytes, one_brick, one_key, one_number, one_text,
};
use crate::session_line::SessionLine;
use crate::words::no_words;
use crash_base::OutOfMemory;
use std::alloc::Global;

/// The line of `sweep`: a brick, and maybe a moment.
fn sweep_line(left: &[u8]) -> Option<SessionLine>
    ensures { result ≡ sweep_line (words_after left.now) }
{
    let at = brick_and_number(left).map(|(brick, moment)| SessionLine::Sweep(brick, Some(moment)));
    one_brick(left)
        .map(|brick| SessionLine::Sweep(brick, None))
        .or(at)
}

/// The line about sessions that a first word and the words after it spell.
pub fn session_line(
    alloc: Global,
    first: &[u8],
    left: &[u8],
) -> Result<Option<SessionLine>, OutOfMemory>
    ensures { IfOk result (λ line. line ≡ session_line first.now (words_after left.now)) }
{
    if first == b"now".as_slice() {
        Ok(one_number(left).map(SessionLine::Now))
    } else if first == b"write".as_slice() {
        Ok(key_and_bytes(alloc, left)?.map(|(key, bytes)| SessionLine::Write(key, bytes)))
    } else if first == b"fetch".as_slice() {
        Ok(one_key(left).map(SessionLine::Fetch))
    } else if first == b"cookie".as_slice() {
        Ok(one_key(left).map(SessionLine::Cookie))
    } else if first == b"present".as_slice() {
        Ok(one_text(alloc, left)?.map(SessionLine::Present))
    } else if first == b"lose".as_slice() {
        Ok(brick_and_number(left).map(|(brick, count)| SessionLine::Lose(brick, count)))
    } else if first == b"mute".as_slice() {
        Ok(brick_and_number(left).map(|(brick, count)| SessionLine::Mute(brick, count)))
    } else if first == b"repeat".as_slice() {
        Ok(brick_and_number(left).map(|(brick, index)| SessionLine::Repeat(brick, index)))
    } else if first == b"crash".as_slice() {
        Ok(one_brick(left).map(SessionLine::Crash))
    } else if first == b"sweep".as_slice() {
        Ok(sweep_line(left))
    } else if first == b"values".as_slice() {
        Ok(one_brick(left).map(SessionLine::Values))
    } else if first == b"windows".as_slice() {
        Ok(no_words(left).map(|()| SessionLine::Windows))
    } else if first == b"hold".as_slice() {
        Ok(one_brick(left).map(SessionLine::Hold))
    } else if first == b"free".as_slice() {
        Ok(brick_and_freed(left).map(|(brick, freed)| SessionLine::Free(brick, freed)))
    } else {
        Ok(None)
    }
}
