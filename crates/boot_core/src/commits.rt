//! Whether a call may commit, the room that its entry takes, and what is handed to the keeper.

ghost use Rattle.std.specs.Prelude.{◌≡◌, ◌≤◌, ◌<◌, ◌+◌, ◌^◌, List, [], length, None, All, IfOk, IfSome, OnOk, OnErr, MatchResult};
ghost use Rattle.crash_base.specs.declared.numbers.Place.{Place};
ghost use Rattle.crash_base.specs.declared.rows.RowWrite.{RowWrite};
ghost use Rattle.outside.specs.Faults.{Rose};
ghost use Rattle.journal_model.specs.declared.entry.Entry.{Entry};
ghost use Rattle.journal_model.specs.declared.entry.Entry.TheVariants.{Commit};
ghost use Rattle.journal_model.specs.Calls.{entry_of};
ghost use Rattle.journal_model.specs.Limits.{entry_bytes, counted, full_for};
ghost use Rattle.journal_model.specs.Stale.{IsTouch};
ghost use Rattle.row_store.specs.Rows.{RowsValue, AreRowsOf};
ghost use Rattle.boot_core.specs.Keeping.{with_writes};
ghost use Rattle.boot_core.specs.Keeper.{kept_writes, TellsCause, IsOfKeeper};
ghost use Rattle.boot_core.specs.Refusals.{commit_refusal, IsTested};

use crate::conflicts::conflict_of;
use crate::refusals::{CommitRefusal, Refused};
use crate::staleness::stale_in;
use call_ticket::{Ticket, TicketParts};
use commit_journal::{ActionEntry, FullAt, Journal, action_bytes};
use crash_base::{OutOfMemory, Place, RowWrite, WriteList};
use outside::{Keeper, KeeperFault};
use row_store::Rows;
use std::alloc::Global;

/// The bytes of the entry of a call. None exactly where they are 2^64 or more. It visits each read and each write.
fn bytes_of_call(ticket: &Ticket, action: &Option<ActionEntry>) -> Option<u64>
    ensures { result ≡ counted (entry_bytes (Commit (entry_of ticket.now.call action.now))) }
{
    action_bytes(action)?.checked_add(ticket.bytes())
}

/// How full the journal is where it has no room for the entry of a call. It visits each read and each write.
fn full_for_call(journal: &Journal, ticket: &Ticket, action: &Option<ActionEntry>) -> Option<FullAt>
    ensures value { result ≡ full_for journal.now.limits journal.now.entries 1
        (entry_bytes (Commit (entry_of ticket.now.call action.now))) }
    ensures few { result ≡ None → length journal.now.entries + 1 < 2 ^ 64 }
{
    // A limit is below 2^64, so an entry of as many bytes passes it, and one entry more has a place below 2^64.
    let _limits = journal.limits();
    match bytes_of_call(ticket, action) {
        Some(bytes) => journal.full_for(1, bytes),
        None => Some(journal.fullness()),
    }
}

/// Why a call may not commit. It visits each group that the call entered, each read and each write, and finds the
/// request as `Journal::commit_of` does and the newest write of each row and table as `Rows::newest` does.
pub(crate) fn commit_refusal(
    journal: &Journal,
    rows: &Rows,
    ticket: &Ticket,
    action: &Option<ActionEntry>,
) -> Option<CommitRefusal>
    requires touches { All (IsTouch journal.now.entries) ticket.now.call.touched }
    requires rows { (base : List RowWrite) × AreRowsOf rows.now base journal.now.entries }
    ensures value { result ≡ commit_refusal journal.now.limits journal.now.entries
        ticket.now.call action.now }
    ensures tested { IfSome result IsTested }
    ensures few { result ≡ None → length journal.now.entries + 1 < 2 ^ 64 }
{
    if let Some(place) = journal.commit_of(ticket.request()) {
        return Some(CommitRefusal::Already { place });
    }
    if let Some(stale) = stale_in(journal, ticket.touched()) {
        return Some(CommitRefusal::Revoked(stale));
    }
    if let Some(conflict) = conflict_of(rows, ticket) {
        return Some(CommitRefusal::Conflict(conflict));
    }
    match full_for_call(journal, ticket, action) {
        Some(full) => Some(CommitRefusal::JournalFull(full)),
        None => None,
    }
}

/// Takes the room of a commit: for one entry more in the journal, and exactly what the lists of the entry need, into
/// which they are moved. Where memory ran out, the ticket holds what it held.
pub(crate) fn take_room(
    alloc: Global,
    journal: &mut Journal,
    ticket: &mut Ticket,
) -> Result<TicketParts, OutOfMemory>
    ensures entries { journal.new.entries ≡ journal.old.entries }
    ensures limits { journal.new.limits ≡ journal.old.limits }
    ensures room { OnOk result (1 ≤ journal.new.spare) }
    ensures touched { IfOk result (λ parts. parts.touched ≡ ticket.old.call.touched) }
    ensures marks { IfOk result (λ parts. parts.marks ≡ ticket.old.call.marks) }
    ensures writes { IfOk result (λ parts. parts.writes ≡ ticket.old.call.writes) }
    ensures err { OnErr result (ticket.new ≡ ticket.old) }
{
    journal.reserve(1)?;
    ticket.take_parts(alloc)
}

/// Notes the writes of a commit, where it has some.
fn note_writes(
    alloc: Global,
    rows: &mut Rows,
    writes: &[RowWrite],
    place: Place,
) -> Result<(), OutOfMemory>
    requires { (base : List RowWrite) × (es : List Entry)
        × AreRowsOf rows.old base es × (length es ≡ place.0) × (place.0 + 1 < 2 ^ 64) }
    ensures ok { OnOk result (rows.new ≡ with_writes rows.old place writes.now) }
    ensures err { OnErr result (rows.new ≡ rows.old) }
{
    if writes.is_empty() {
        return Ok(());
    }
    rows.note(alloc, writes, place)
}

/// Takes the note of these writes back, which was made last.
fn forget_writes(rows: &mut Rows, writes: &[RowWrite])
    requires { (before : RowsValue) × (place : Place)
        × (rows.old ≡ with_writes before place writes.now) }
    ensures { (before : RowsValue) (place : Place) →
        rows.old ≡ with_writes before place writes.now → rows.new ≡ before }
{
    if !writes.is_empty() {
        rows.forget_last();
    }
}

/// Hands writes to the keeper, where there are some.
fn hand_over<K: Keeper>(
    alloc: Global,
    keeper: &mut K,
    writes: &WriteList,
) -> Result<(), CommitRefusal>
    ensures tells { MatchResult result
        (λ _. K.told keeper.new ≡ kept_writes writes.now (K.told keeper.old))
        (λ cause. IsOfKeeper cause
        × TellsCause cause writes.now (K.told keeper.old) (K.told keeper.new)) }
    ensures failed { result ≡ Err CommitRefusal.KeeperFailed
        → Rose (K.faults keeper.old) (K.faults keeper.new) }
    ensures count { K.faults keeper.old ≤ K.faults keeper.new }
    ensures untouched { writes.now ≡ [] → keeper.new ≡ keeper.old }
{
    if writes.is_empty() {
        return Ok(());
    }
    match keeper.apply(alloc, writes) {
        Ok(()) => Ok(()),
        Err(KeeperFault::OutOfMemory) => Err(CommitRefusal::OutOfMemory),
        Err(KeeperFault::Failed) => Err(CommitRefusal::KeeperFailed),
    }
}

/// Notes the writes of a commit and hands them to the keeper: all memory but the keeper's own is taken before it is
/// called. Where it refuses, or no memory is left for the note, the rows are as they were.
pub(crate) fn keep_writes<K: Keeper>(
    alloc: Global,
    rows: &mut Rows,
    keeper: &mut K,
    writes: &WriteList,
    place: Place,
) -> Result<(), CommitRefusal>
    requires { (base : List RowWrite) × (es : List Entry)
        × AreRowsOf rows.old base es × (length es ≡ place.0) × (place.0 + 1 < 2 ^ 64) }
    ensures ok { OnOk result (rows.new ≡ with_writes rows.old place writes.now) }
    ensures err { OnErr result (rows.new ≡ rows.old) }
    ensures tells { MatchResult result
        (λ _. K.told keeper.new ≡ kept_writes writes.now (K.told keeper.old))
        (λ cause. IsOfKeeper cause
        × TellsCause cause writes.now (K.told keeper.old) (K.told keeper.new)) }
    ensures failed { result ≡ Err CommitRefusal.KeeperFailed
        → Rose (K.faults keeper.old) (K.faults keeper.new) }
    ensures count { K.faults keeper.old ≤ K.faults keeper.new }
    ensures untouched { writes.now ≡ [] → keeper.new ≡ keeper.old }
{
    if note_writes(alloc, rows, writes.as_slice(), place).is_err() {
        return Err(CommitRefusal::OutOfMemory);
    }
    match hand_over(alloc, keeper, writes) {
        Ok(()) => Ok(()),
        Err(cause) => {
            forget_writes(rows, writes.as_slice());
            Err(cause)
        }
    }
}

/// The answer of a call whose commit was refused.
pub(crate) fn refused(ticket: Ticket, cause: CommitRefusal) -> Refused
    ensures { result ≡ record {
      request = ticket.call.request;
      marks = ticket.call.marks;
      cause = cause;
    } }
{
    let request = ticket.request();
    Refused {
        request,
        marks: ticket.into_parts().marks,
        cause,
    }
}
