//! The bytes of what a call read and wrote.

ghost use Rattle.std.specs.Prelude.{◌≡◌, ◌<◌, ◌^◌, length, sum_by};
ghost use Rattle.journal_model.specs.Limits.{value_bytes};

use crate::entry::Mark;
use crash_base::{RowBytes, RowWrite};

/// The bytes of a value, if there is one.
pub fn value_bytes(value: &Option<RowBytes>) -> u64
    ensures { result ≡ value_bytes value.now }
{
    match value {
        None => 0,
        Some(bytes) => bytes.len() as u64,
    }
}

/// The bytes of the values that were read. It visits each mark.
pub fn read_bytes(marks: &[Mark]) -> u64
    requires { sum_by (λ m. value_bytes m.value) marks.now < 2 ^ 64 }
    ensures { result ≡ sum_by (λ m. value_bytes m.value) marks.now }
{
    let mut bytes = 0u64;
    let mut rest = marks;
    while let [first, after @ ..] = rest {
        bytes += value_bytes(&first.value);
        rest = after;
    }
    bytes
}

/// The bytes of the rows that are written. It visits each write.
pub fn written_bytes(writes: &[RowWrite]) -> u64
    requires { sum_by (λ w. length w.bytes) writes.now < 2 ^ 64 }
    ensures { result ≡ sum_by (λ w. length w.bytes) writes.now }
{
    let mut bytes = 0u64;
    let mut rest = writes;
    while let [first, after @ ..] = rest {
        bytes += first.bytes.len() as u64;
        rest = after;
    }
    bytes
}
