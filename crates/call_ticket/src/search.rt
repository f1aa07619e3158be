//! Searches of what a call read and wrote.

ghost use Rattle.std.specs.Prelude.{◌≡◌, ◌<◌, ◌≤◌, vec_len, vec_capacity, position, option_map, false};
ghost use Rattle.crash_base.specs.RowId.{same_id};
ghost use Rattle.crash_base.specs.Rows.{row_in};
ghost use Rattle.journal_model.specs.Calls.{is_put, with_write, same_mark, is_marked};

use crate::limits::MAX_WRITES;
use crash_base::{RowBytes, RowId, RowWrite};
use journal_model::{Mark, ReadMark};

/// Whether both are marks of the same row, or of the same table.
fn is_same_mark(a: &ReadMark, b: &ReadMark) -> bool
    ensures { result ≡ same_mark a.now b.now }
{
    match (a, b) {
        (ReadMark::Row(own), ReadMark::Row(its)) => own.is_same(*its),
        (ReadMark::Table(own), ReadMark::Table(its)) => own == its,
        _ => false,
    }
}

/// Whether this row or table is marked.
pub(crate) fn is_marked(marks: &[Mark], read: &ReadMark) -> bool
    ensures { result ≡ is_marked marks.now read.now }
{
    marks.iter().any(|mark| is_same_mark(&mark.read, read))
}

/// The place of the first write of a row.
fn place_of_write(writes: &[RowWrite], id: RowId) -> Option<usize>
    ensures { result ≡ position (λ w. same_id w.id id) writes.now }
{
    writes.iter().position(|w| w.id.is_same(id))
}

/// The bytes of the first write of a row.
pub(crate) fn bytes_of_write(writes: &[RowWrite], id: RowId) -> Option<&RowBytes>
    ensures { option_map (λ bytes. bytes.now) result ≡ row_in writes.now id }
{
    match place_of_write(writes, id) {
        Some(at) => Some(&writes[at].bytes),
        None => None,
    }
}

/// Adds a write, in place of the earlier one of its row, or else last.
pub(crate) fn add_write(writes: &mut Vec<RowWrite>, write: RowWrite)
    requires few { vec_len writes.old ≤ MAX_WRITES }
    requires free { is_put writes.old.items write.id ≡ false → vec_len writes.old < MAX_WRITES }
    requires room { MAX_WRITES ≤ vec_capacity writes.old }
    ensures items { writes.new.items ≡ with_write writes.old.items write }
    ensures few { vec_len writes.new ≤ MAX_WRITES }
    ensures room { vec_capacity writes.old ≤ vec_capacity writes.new }
{
    match place_of_write(writes, write.id) {
        Some(at) => writes[at] = write,
        None => writes.push_reserved(write),
    }
}
