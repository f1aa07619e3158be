//! Laws above the definitions, as contracts of functions that do nothing.

ghost use Rattle.std.specs.Prelude.{◌≡◌, ℕ, ◌+◌, ◌<◌, ◌≤◌, List, [], ◌∷◌, ◌++◌, length, map, slice_get, true, false, Option, Some, None};
ghost use Rattle.crash_base.specs.declared.numbers.ComponentNo.{ComponentNo};
ghost use Rattle.crash_base.specs.declared.numbers.RequestNo.{RequestNo};
ghost use Rattle.crash_base.specs.declared.row_id.RowId.{RowId};
ghost use Rattle.crash_base.specs.declared.numbers.WorkerNo.{WorkerNo};
ghost use Rattle.crash_base.specs.declared.rows.RowWrite.{RowWrite};
ghost use Rattle.crash_base.specs.RowId.{same_id};
ghost use Rattle.crash_base.specs.Rows.{put_all, row_in, last_write, AreOrdered};
ghost use Rattle.journal_model.specs.declared.entry.ActionEntry.{ActionEntry};
ghost use Rattle.journal_model.specs.declared.entry.Entry.{Entry};
ghost use Rattle.journal_model.specs.declared.entry.Entry.TheVariants.{Commit};
ghost use Rattle.journal_model.specs.Calls.{Call, begun, entered, left, is_put, with_write, has_read, has_listed, kept, entry_of};
ghost use Rattle.journal_model.specs.Conflicts.{conflict_of};
ghost use Rattle.journal_model.specs.Fits.{Fits, IsWrite};
ghost use Rattle.journal_model.specs.Legal.{IsLegal, MayCome, AreInTurn};
ghost use Rattle.journal_model.specs.Reboots.{generation, down_of};
ghost use Rattle.journal_model.specs.Requests.{commit_of};
ghost use Rattle.journal_model.specs.Rows.{writes_of, row_of, rows_after};
ghost use Rattle.journal_model.specs.Snapshots.{snapshot};
ghost use Rattle.journal_model.specs.Stale.{stale_in};

use crash_base::MAX_GROUPS;

/// An empty journal is legal, and a legal one stays so by each entry that may come. Its reboots are in turn.
pub fn grows_legally()
    ensures empty { (base : List RowWrite) → IsLegal base [] }
    ensures more { (base : List RowWrite) (es : List Entry) (e : Entry) →
        IsLegal base es → MayCome base es e → IsLegal base (es ++ e ∷ []) }
    ensures turns { (base : List RowWrite) (es : List Entry) → IsLegal base es → AreInTurn es }
{}

/// A call fits from its begin on: after each of its steps, whatever else enters the journal meanwhile, and
/// until it commits, which it then may where its request has not committed, none of its touches is stale, and nothing
/// that it read or writes was written since it began.
pub fn fits_until_commit()
    ensures begun { (base : List RowWrite) (es : List Entry)
        (request : RequestNo) (worker : WorkerNo) →
        Fits base es (begun request worker (record { 0 = length es })) }
    ensures entered { (base : List RowWrite) (es : List Entry)
        (g : ℕ) (c : ComponentNo) (call : Call) → g < MAX_GROUPS → down_of es g ≡ None →
        Fits base es call → Fits base es (entered es g c call) }
    ensures left { (base : List RowWrite) (es : List Entry) (call : Call) →
        Fits base es call → Fits base es (left call) }
    ensures read { (base : List RowWrite) (es : List Entry) (id : RowId) (call : Call) →
        Fits base es call → Fits base es (has_read (snapshot base es call.at.0) id call) }
    ensures listed { (base : List RowWrite) (es : List Entry) (t : ℕ) (call : Call) →
        Fits base es call → Fits base es (has_listed t call) }
    ensures kept { (base : List RowWrite) (es : List Entry) (w : RowWrite) (call : Call) →
        IsWrite w → Fits base es call → Fits base es (kept w call) }
    ensures meanwhile { (base : List RowWrite) (es more : List Entry) (call : Call) →
        Fits base es call → Fits base (es ++ more) call }
    ensures commit { (base : List RowWrite) (es : List Entry)
        (call : Call) (action : Option ActionEntry) →
        Fits base es call → commit_of es call.request ≡ None →
        stale_in es call.touched ≡ None → conflict_of es call ≡ None →
        MayCome base es (Commit (entry_of call action)) }
{}

/// A write that a call keeps is read back, and no other row changes. A row that was put before keeps its
/// place among the rows put, as does every write of another row; a row that is new comes last.
pub fn write_takes_its_place()
    ensures written { (ws : List RowWrite) (w : RowWrite) →
        row_in (with_write ws w) w.id ≡ Some w.bytes }
    ensures others { (ws : List RowWrite) (w : RowWrite) (id : RowId) →
        same_id w.id id ≡ false → row_in (with_write ws w) id ≡ row_in ws id }
    ensures places { (ws : List RowWrite) (w x : RowWrite) (i : ℕ) →
        slice_get ws i ≡ Some x → same_id x.id w.id ≡ false →
        slice_get (with_write ws w) i ≡ Some x }
    ensures again { (ws : List RowWrite) (w : RowWrite) → is_put ws w.id ≡ true →
        map (λ (x : RowWrite). x.id) (with_write ws w) ≡ map (λ (x : RowWrite). x.id) ws }
    ensures length { (ws : List RowWrite) (w : RowWrite) →
        is_put ws w.id ≡ true → length (with_write ws w) ≡ length ws }
    ensures first { (ws : List RowWrite) (w : RowWrite) →
        is_put ws w.id ≡ false → with_write ws w ≡ ws ++ w ∷ [] }
{}

/// An entry's writes are put over the rows before it, the first first. An entry without writes leaves them.
pub fn commit_is_in_the_rows()
    ensures commit { (base : List RowWrite) (es : List Entry) (e : Entry) →
        rows_after base (es ++ e ∷ []) ≡ put_all (writes_of e) (rows_after base es) }
    ensures silent { (base : List RowWrite) (es : List Entry) (e : Entry) →
        writes_of e ≡ [] → rows_after base (es ++ e ∷ []) ≡ rows_after base es }
{}

/// A row has the bytes of its last write: that of the new entry, if it writes the row, and else the one
/// before. The rows after a journal are in order of id, each id once, and each is that last write.
pub fn last_write_counts()
    ensures ordered { (base : List RowWrite) (es : List Entry) → AreOrdered (rows_after base es) }
    ensures each { (base : List RowWrite) (es : List Entry) (id : RowId) →
        row_in (rows_after base es) id ≡ row_of base es id }
    ensures more { (base : List RowWrite) (es : List Entry) (e : Entry) (id : RowId) →
        row_of base (es ++ e ∷ []) id ≡ last_write (row_of base es id) (writes_of e) id }
{}

/// The reboots of a group are those in a prefix of the journal and those in the rest, so its generation
/// never falls.
pub fn generations_add_up()
    ensures sum { (es more : List Entry) (g : ℕ) →
        generation (es ++ more) g ≡ generation es g + generation more g }
    ensures grown { (es more : List Entry) (g : ℕ) →
        generation es g ≤ generation (es ++ more) g }
{}
