//! Whether what a call read or writes was written since it began.

ghost use Rattle.std.specs.Prelude.{◌≡◌, List, [], ◌∷◌, map};
ghost use Rattle.crash_base.specs.declared.rows.RowWrite.{RowWrite};
ghost use Rattle.journal_model.specs.declared.entry.Entry.{Entry};
ghost use Rattle.journal_model.specs.declared.entry.ReadMark.TheVariants.{Row};
ghost use Rattle.journal_model.specs.Conflicts.{conflict_in, conflict_of};
ghost use Rattle.journal_model.specs.Snapshots.{newest};
ghost use Rattle.row_store.specs.Rows.{AreRowsOf};

use call_ticket::Ticket;
use commit_journal::{Conflict, Mark, ReadMark};
use crash_base::{Place, RowWrite};
use row_store::Rows;

/// The place after the last commit that writes of what was read. It is found as `Rows::newest` finds it.
fn newest(rows: &Rows, read: ReadMark) -> Place
    ensures { (base : List RowWrite) (es : List Entry) → AreRowsOf rows.now base es →
        result.0 ≡ newest es read }
{
    match read {
        ReadMark::Row(id) => rows.newest(id),
        ReadMark::Table(table) => rows.table_newest(table),
    }
}

/// The conflict of what was read with what was written after a place, if there is one.
fn conflict_at(rows: &Rows, at: Place, read: ReadMark) -> Option<Conflict>
    ensures { (base : List RowWrite) (es : List Entry) → AreRowsOf rows.now base es →
        result ≡ conflict_in es at.0 (read ∷ []) }
{
    let newest = newest(rows, read);
    if at.0 < newest.0 {
        return Some(Conflict {
            mark: read,
            at,
            newest,
        });
    }
    None
}

/// The first conflict of what was read, if there is one. It visits each mark.
fn conflict_of_marks(rows: &Rows, at: Place, marks: &[Mark]) -> Option<Conflict>
    ensures { (base : List RowWrite) (es : List Entry) → AreRowsOf rows.now base es →
        result ≡ conflict_in es at.0 (map (λ m. m.read) marks.now) }
{
    for mark in marks {
        if let Some(conflict) = conflict_at(rows, at, mark.read) {
            return Some(conflict);
        }
    }
    None
}

/// The first conflict of what is written, if there is one. It visits each write.
fn conflict_of_writes(rows: &Rows, at: Place, writes: &[RowWrite]) -> Option<Conflict>
    ensures { (base : List RowWrite) (es : List Entry) → AreRowsOf rows.now base es →
        result ≡ conflict_in es at.0 (map (λ w. Row w.id) writes.now) }
{
    for write in writes {
        if let Some(conflict) = conflict_at(rows, at, ReadMark::Row(write.id)) {
            return Some(conflict);
        }
    }
    None
}

/// The first conflict of a call, if it has one. It visits each read and each write.
pub(crate) fn conflict_of(rows: &Rows, ticket: &Ticket) -> Option<Conflict>
    ensures { (base : List RowWrite) (es : List Entry) → AreRowsOf rows.now base es →
        result ≡ conflict_of es ticket.now.call }
{
    match conflict_of_marks(rows, ticket.at(), ticket.marks()) {
        Some(conflict) => Some(conflict),
        None => conflict_of_writes(rows, ticket.at(), ticket.writes()),
    }
}
