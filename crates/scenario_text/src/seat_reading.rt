//! Lines about connections from their words.

ghost use Rattle.std.specs.Prelude.{◌≡◌, IfOk};
ghost use Rattle.scenario_text.specs.SeatReading.{seat_line};
ghost use Rattle.scenario_text.specs.Words.{words_after};

use crate::arguments::{one_seat, seat_and_bytes};
use crate::seat_line::SeatLine;
use crash_base::OutOfMemory;
use std::alloc::Global;

/// The line about connections that a first word and the words after it spell.
pub fn seat_line(alloc: Global, first: &[u8], left: &[u8]) -> Result<Option<SeatLine>, OutOfMemory>
    ensures { IfOk result (λ line. line ≡ seat_line first.now (words_after left.now)) }
{
    if first == b"conn".as_slice() {
        Ok(one_seat(left).map(SeatLine::Conn))
    } else if first == b"bytes".as_slice() {
        Ok(seat_and_bytes(alloc, left)?.map(|(seat, bytes)| SeatLine::Bytes(seat, bytes)))
    } else if first == b"end".as_slice() {
        Ok(one_seat(left).map(SeatLine::End))
    } else if first == b"step".as_slice() {
        Ok(one_seat(left).map(SeatLine::Step))
    } else if first == b"run".as_slice() {
        Ok(one_seat(left).map(SeatLine::Run))
    } else {
        Ok(None)
    }
}
