//! Which rows may be loaded, and which boot they are of.

ghost use Rattle.std.specs.Prelude.{◌≡◌, ◌∷◌, option_map, None, true, false};
ghost use Rattle.std.specs.List.{list_any};
ghost use Rattle.crash_base.specs.declared.rows.RowWrite.{RowWrite};
ghost use Rattle.crash_base.specs.RowId.{same_id};
ghost use Rattle.crash_base.specs.Rows.{row_in, AreOrdered};
ghost use Rattle.container_core.specs.Start.{is_strange, is_bad, first_bad, last_boot};

use crash_base::{MAX_ROW_BYTES, RowBytes, RowId, RowWrite, SERVICE_TABLE, take_u32};

/// The row that holds the number of the last boot.
pub(crate) const BOOT_ID: RowId = RowId {
    table: SERVICE_TABLE,
    key: 0,
};

/// Whether a row comes before the first of those after it, if there is one.
fn is_before_next(row: &RowWrite, after: &[RowWrite]) -> bool
    ensures { result ≡ true → AreOrdered after.now → AreOrdered (row.now ∷ after.now) }
{
    match after {
        [next, ..] => row.id.is_before(next.id),
        [] => true,
    }
}

/// Whether each row comes before the next one. It visits each row.
fn are_in_order(rows: &[RowWrite]) -> bool
    ensures { result ≡ true → AreOrdered rows.now }
{
    let mut rest = rows;
    while let [first, after @ ..] = rest {
        if !is_before_next(first, after) {
            return false;
        }
        rest = after;
    }
    true
}

/// Whether one of the rows has this id. It visits each row.
fn has_id(rows: &[RowWrite], id: RowId) -> bool
    ensures { result ≡ list_any (λ e. same_id e.id id) rows.now }
{
    rows.iter().any(|e| e.id.is_same(id))
}

/// Whether the service's own table would have another row than that of the boot's number.
fn is_strange(row: &RowWrite) -> bool
    ensures { result ≡ is_strange row.now }
{
    row.id.table == SERVICE_TABLE && !(row.id.key == 0 && row.bytes.len() == 4)
}

/// Whether a row may not be loaded after these. Where its id is known to be new, it visits none of them, and else each.
fn is_bad(earlier: &[RowWrite], row: &RowWrite, is_new: bool) -> bool
    requires { is_new ≡ true → list_any (λ e. same_id e.id row.now.id) earlier.now ≡ false }
    ensures { result ≡ is_bad earlier.now row.now }
{
    row.bytes.len() > MAX_ROW_BYTES || (!is_new && has_id(earlier, row.id)) || is_strange(row)
}

/// The id of the first row that may not be loaded. Where the rows are in order, it visits each row once, and else each
/// row visits those before it.
pub(crate) fn first_bad(rows: &[RowWrite]) -> Option<RowId>
    ensures { result ≡ first_bad rows.now }
{
    let in_order = are_in_order(rows);
    for i in 0..rows.len() {
        let row = &rows[i];
        if is_bad(&rows[..i], row, in_order) {
            return Some(row.id);
        }
    }
    None
}

/// The bytes of the first row of an id. It visits each row up to that one.
fn bytes_of<'a>(rows: &'a [RowWrite], id: RowId) -> Option<&'a RowBytes>
    ensures { option_map (λ bytes. bytes.now) result ≡ row_in rows.now id }
{
    let mut rest = rows;
    while let [first, after @ ..] = rest {
        if first.id.is_same(id) {
            return Some(&first.bytes);
        }
        rest = after;
    }
    None
}

/// The number of the last boot that these rows have, and 0 where they have none.
pub(crate) fn last_boot(rows: &[RowWrite]) -> u32
    requires { first_bad rows.now ≡ None }
    ensures { result ≡ last_boot rows.now }
{
    match bytes_of(rows, BOOT_ID) {
        Some(bytes) => match take_u32(bytes.as_slice()) {
            Some((number, _)) => number,
            None => 0,
        },
        None => 0,
    }
}
