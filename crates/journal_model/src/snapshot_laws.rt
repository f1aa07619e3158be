//! Laws of snapshots, reads and the order of commits, as contracts of functions that do nothing.

ghost use Rattle.std.specs.Prelude.{◌≡◌, ◌↔◌, ℕ, ◌+◌, ◌<◌, ◌≤◌, List, ◌++◌, length, slice_get, true, false, Some, None, All};
ghost use Rattle.crash_base.specs.declared.row_id.RowId.{RowId};
ghost use Rattle.crash_base.specs.declared.rows.RowWrite.{RowWrite};
ghost use Rattle.crash_base.specs.Rows.{row_in, AreOrdered};
ghost use Rattle.journal_model.specs.declared.conflict.Conflict.{Conflict};
ghost use Rattle.journal_model.specs.declared.entry.CommitEntry.{CommitEntry};
ghost use Rattle.journal_model.specs.declared.entry.Entry.{Entry};
ghost use Rattle.journal_model.specs.declared.entry.Entry.TheVariants.{Commit};
ghost use Rattle.journal_model.specs.declared.entry.Mark.{Mark};
ghost use Rattle.journal_model.specs.declared.entry.ReadMark.{ReadMark};
ghost use Rattle.journal_model.specs.Calls.{seen, listed};
ghost use Rattle.journal_model.specs.Conflicts.{conflict_in, IsFirstNewer};
ghost use Rattle.journal_model.specs.Fits.{AreApart};
ghost use Rattle.journal_model.specs.Legal.{IsLegal, IsCurrent};
ghost use Rattle.journal_model.specs.Requests.{same_request};
ghost use Rattle.journal_model.specs.Rows.{writes_of, rows_after};
ghost use Rattle.journal_model.specs.Serial.{IsSerial};
ghost use Rattle.journal_model.specs.Snapshots.{snapshot, writes_read, newest, AgreeOn};

/// A snapshot stays as it is, whatever commits later, and is the rows of the journal up to its place.
pub fn snapshots_stay()
    ensures stays { (base : List RowWrite) (es more : List Entry) (at : ℕ) → at ≤ length es →
        snapshot base (es ++ more) at ≡ snapshot base es at }
    ensures whole { (base : List RowWrite) (es : List Entry) →
        snapshot base es (length es) ≡ rows_after base es }
{}

/// The newest place of what was read is the one after the last entry that writes it, and 0 exactly where none does.
pub fn newest_is_after_the_last_write()
    ensures later { (es : List Entry) (read : ReadMark) (place : ℕ) (e : Entry) →
        slice_get es place ≡ Some e → newest es read ≤ place →
        writes_read read (writes_of e) ≡ false }
    ensures last { (es : List Entry) (read : ReadMark) → 0 < newest es read →
        (place : ℕ) × (e : Entry) × (newest es read ≡ place + 1) × (slice_get es place ≡ Some e)
        × (writes_read read (writes_of e) ≡ true) }
    ensures within { (es : List Entry) (read : ReadMark) → newest es read ≤ length es }
{}

/// What was not written since a place is as it was there. So all that a current commit read at its begin is the same
/// where it commits.
pub fn reads_still_hold()
    ensures unwritten { (base : List RowWrite) (es : List Entry) (at : ℕ) (read : ReadMark) →
        at ≤ length es → newest es read ≤ at →
        AgreeOn (snapshot base es at) (rows_after base es) read }
    ensures current { (base : List RowWrite) (es : List Entry) (e : CommitEntry) →
        IsCurrent base es e →
        All (λ (m : Mark). AgreeOn (snapshot base es e.at.0) (rows_after base es) m.read) e.reads }
{}

/// A legal journal is a serial execution of its calls in its order: replayed one after the other over the base, each
/// finds in the rows just what it read. And a request commits once.
pub fn legal_journals_are_serial()
    ensures serial { (base : List RowWrite) (es : List Entry) →
        IsLegal base es → IsSerial base es }
    ensures once { (base : List RowWrite) (es : List Entry) (i j : ℕ) (d e : CommitEntry) →
        IsLegal base es → slice_get es i ≡ Some (Commit d) → slice_get es j ≡ Some (Commit e) →
        same_request d.request e.request ≡ true → i ≡ j }
{}

/// The conflict that is found is the first one, and none is found exactly where nothing was written since.
pub fn conflicts_are_found()
    ensures first { (es : List Entry) (at : ℕ) (reads : List ReadMark) (c : Conflict) →
        conflict_in es at reads ≡ Some c → IsFirstNewer es at reads c }
    ensures none { (es : List Entry) (at : ℕ) (reads : List ReadMark) →
        (conflict_in es at reads ≡ None) ↔ All (λ r. newest es r ≤ at) reads }
{}

/// A list has the rows of its table alone, in order of id, and each is what a read of it would find; a row that a read
/// would not find is not in it. So a call's own puts are seen by its lists as by its reads.
pub fn lists_show_what_reads_find()
    ensures ordered { (rows writes : List RowWrite) (t : ℕ) →
        AreOrdered rows → AreOrdered (listed rows writes t) }
    ensures found { (rows writes : List RowWrite) (id : RowId) → AreApart writes →
        row_in (listed rows writes id.table) id ≡ seen rows writes id }
    ensures own { (rows writes : List RowWrite) (t : ℕ) →
        All (λ (r : RowWrite). r.id.table ≡ t) (listed rows writes t) }
{}
