//! What a call reads, and what that leaves of its ticket.

ghost use Rattle.std.specs.Prelude.{◌≡◌, ◌≢◌, ◌<◌, ◌≤◌, List, true, false, length, None, option_map, All, IfOk, IfSome, OnOk, OnErr};
ghost use Rattle.crash_base.specs.declared.rows.RowWrite.{RowWrite};
ghost use Rattle.crash_base.specs.declared.rows.TheConstants.{MAX_ROW_BYTES};
ghost use Rattle.crash_base.specs.Rows.{row_in};
ghost use Rattle.call_ticket.specs.declared.limits.TheConstants.{MAX_MARKS, MAX_STEPS};
ghost use Rattle.journal_model.specs.declared.entry.ReadMark.TheVariants.{Row, Table};
ghost use Rattle.journal_model.specs.Calls.{is_put, is_marked, seen, listed};
ghost use Rattle.journal_model.specs.Limits.{value_bytes};
ghost use Rattle.journal_model.specs.Stale.{IsTouch};
ghost use Rattle.row_store.specs.Rows.{all_before};
ghost use Rattle.boot_core.specs.Refusals.{read_refusal, list_refusal, reads_refusal};
ghost use Rattle.boot_core.specs.Steps.{ticket_marked, ticket_has_read, ticket_has_listed};

use crate::refusals::CallRefusal;
use crate::staleness::stale_in;
use call_ticket::{MAX_MARKS, MAX_STEPS, Ticket};
use commit_journal::{Journal, ReadMark};
use crash_base::{OutOfMemory, RowBytes, RowId, RowList};
use row_store::{Rows, put_table};
use std::alloc::Global;

/// Why no mark may be added for what is read. It visits each mark.
fn reads_refusal(ticket: &Ticket, read: &ReadMark) -> Option<CallRefusal>
    ensures value { result ≡ reads_refusal ticket.now.call read.now }
    ensures memory { IfSome result (λ e. e ≢ CallRefusal.OutOfMemory) }
    ensures room { result ≡ None → is_marked ticket.now.call.marks read.now ≡ false →
        length ticket.now.call.marks < MAX_MARKS }
{
    if !ticket.marked(read) && ticket.marks().len() == MAX_MARKS {
        return Some(CallRefusal::Reads);
    }
    None
}

/// Why a row may not be read. It visits each group that the call has entered, each write and each mark.
pub(crate) fn read_refusal(journal: &Journal, ticket: &Ticket, id: RowId) -> Option<CallRefusal>
    requires { All (IsTouch journal.now.entries) ticket.now.call.touched }
    ensures value { result ≡ read_refusal journal.now.entries ticket.now.call id }
    ensures memory { IfSome result (λ e. e ≢ CallRefusal.OutOfMemory) }
    ensures steps { result ≡ None → ticket.now.call.steps < MAX_STEPS }
    ensures room { result ≡ None → is_put ticket.now.call.writes id ≡ false →
        is_marked ticket.now.call.marks (Row id) ≡ false →
        length ticket.now.call.marks < MAX_MARKS }
{
    if let Some(stale) = stale_in(journal, ticket.touched()) {
        return Some(CallRefusal::Revoked(stale));
    }
    if ticket.steps() == MAX_STEPS {
        return Some(CallRefusal::Steps);
    }
    if ticket.is_put(id) {
        return None;
    }
    reads_refusal(ticket, &ReadMark::Row(id))
}

/// Why a table may not be listed. It visits each group that the call has entered and each mark.
pub(crate) fn list_refusal(journal: &Journal, ticket: &Ticket, table: u8) -> Option<CallRefusal>
    requires { All (IsTouch journal.now.entries) ticket.now.call.touched }
    ensures value { result ≡ list_refusal journal.now.entries ticket.now.call table }
    ensures memory { IfSome result (λ e. e ≢ CallRefusal.OutOfMemory) }
    ensures steps { result ≡ None → ticket.now.call.steps < MAX_STEPS }
    ensures room { result ≡ None → is_marked ticket.now.call.marks (Table table) ≡ false →
        length ticket.now.call.marks < MAX_MARKS }
{
    if let Some(stale) = stale_in(journal, ticket.touched()) {
        return Some(CallRefusal::Revoked(stale));
    }
    if ticket.steps() == MAX_STEPS {
        return Some(CallRefusal::Steps);
    }
    reads_refusal(ticket, &ReadMark::Table(table))
}

/// A copy of bytes, where there are any.
fn copied(alloc: Global, bytes: Option<&RowBytes>) -> Result<Option<RowBytes>, OutOfMemory>
    ensures { IfOk result (λ copy. copy ≡ option_map (λ b. b.now) bytes.entry) }
{
    match bytes {
        None => Ok(None),
        Some(bytes) => Ok(Some(RowBytes::copied(alloc, bytes.as_slice())?)),
    }
}

/// Marks what was read, with a copy of what was found, where it is not marked yet. One step. Where memory ran out, the
/// ticket is as it was.
fn mark_found(
    alloc: Global,
    ticket: &mut Ticket,
    read: ReadMark,
    found: Option<&RowBytes>,
) -> Result<(), OutOfMemory>
    requires steps { ticket.old.call.steps < MAX_STEPS }
    requires room { is_marked ticket.old.call.marks read ≡ false →
        length ticket.old.call.marks < MAX_MARKS }
    requires short { value_bytes (option_map (λ b. b.now) found) ≤ MAX_ROW_BYTES }
    ensures ok { OnOk result (ticket.new
        ≡ ticket_marked read (option_map (λ b. b.now) found.entry) ticket.old) }
    ensures err { OnErr result (ticket.new ≡ ticket.old) }
{
    if ticket.marked(&read) {
        ticket.add_read(None, None);
    } else {
        let value = copied(alloc, found)?;
        ticket.add_read(Some(read), value);
    }
    Ok(())
}

/// What a call finds in a row that it has put itself. One step, and no mark.
fn read_own(alloc: Global, ticket: &mut Ticket, id: RowId) -> Result<Option<RowBytes>, OutOfMemory>
    requires steps { ticket.old.call.steps < MAX_STEPS }
    requires own { is_put ticket.old.call.writes id ≡ true }
    ensures value { (rows : List RowWrite) →
        IfOk result (λ value. value ≡ seen rows ticket.old.call.writes id) }
    ensures ok { (rows : List RowWrite) →
        OnOk result (ticket.new ≡ ticket_has_read rows id ticket.old) }
    ensures err { OnErr result (ticket.new ≡ ticket.old) }
{
    let value = copied(alloc, ticket.own_put(id))?;
    ticket.add_read(None, None);
    Ok(value)
}

/// What a call finds in a row that it has not put. One step, and a mark where there is none yet.
fn read_found(
    alloc: Global,
    ticket: &mut Ticket,
    id: RowId,
    found: Option<&RowBytes>,
) -> Result<Option<RowBytes>, OutOfMemory>
    requires steps { ticket.old.call.steps < MAX_STEPS }
    requires room { is_marked ticket.old.call.marks (Row id) ≡ false →
        length ticket.old.call.marks < MAX_MARKS }
    requires short { value_bytes (option_map (λ b. b.now) found) ≤ MAX_ROW_BYTES }
    ensures value { IfOk result (λ value. value ≡ option_map (λ b. b.now) found.entry) }
    ensures ok { OnOk result (ticket.new
        ≡ ticket_marked (Row id) (option_map (λ b. b.now) found.entry) ticket.old) }
    ensures err { OnErr result (ticket.new ≡ ticket.old) }
{
    let value = copied(alloc, found)?;
    mark_found(alloc, ticket, ReadMark::Row(id), found)?;
    Ok(value)
}

/// What a call finds in a row, and its mark. The row is found as `Rows::row_at` finds it.
pub(crate) fn read_row(
    alloc: Global,
    rows: &Rows,
    ticket: &mut Ticket,
    id: RowId,
) -> Result<Option<RowBytes>, OutOfMemory>
    requires steps { ticket.old.call.steps < MAX_STEPS }
    requires room { is_put ticket.old.call.writes id ≡ false →
        is_marked ticket.old.call.marks (Row id) ≡ false →
        length ticket.old.call.marks < MAX_MARKS }
    requires short { value_bytes (row_in (all_before rows.now ticket.old.call.at.0) id)
        ≤ MAX_ROW_BYTES }
    ensures value { IfOk result (λ value. value
        ≡ seen (all_before rows.now ticket.old.call.at.0) ticket.old.call.writes id) }
    ensures ok { OnOk result (ticket.new
        ≡ ticket_has_read (all_before rows.now ticket.old.call.at.0) id ticket.old) }
    ensures err { OnErr result (ticket.new ≡ ticket.old) }
{
    if ticket.is_put(id) {
        return read_own(alloc, ticket, id);
    }
    let found = rows.row_at(id, ticket.at());
    read_found(alloc, ticket, id, found)
}

/// What a call finds in a table, copied.
fn listed(alloc: Global, rows: &Rows, ticket: &Ticket, table: u8) -> Result<RowList, OutOfMemory>
    ensures { IfOk result (λ found. found
        ≡ listed (all_before rows.now ticket.now.call.at.0) ticket.now.call.writes table) }
{
    let mut found = rows.list_at(alloc, table, ticket.at())?;
    put_table(&mut found, ticket.writes(), table)?;
    found.copied(alloc)
}

/// What a call finds in a table, and its mark.
pub(crate) fn list_table(
    alloc: Global,
    rows: &Rows,
    ticket: &mut Ticket,
    table: u8,
) -> Result<RowList, OutOfMemory>
    requires steps { ticket.old.call.steps < MAX_STEPS }
    requires room { is_marked ticket.old.call.marks (Table table) ≡ false →
        length ticket.old.call.marks < MAX_MARKS }
    ensures value { IfOk result (λ found. found
        ≡ listed (all_before rows.now ticket.old.call.at.0) ticket.old.call.writes table) }
    ensures ok { OnOk result (ticket.new ≡ ticket_has_listed table ticket.old) }
    ensures err { OnErr result (ticket.new ≡ ticket.old) }
{
    let found = listed(alloc, rows, ticket, table)?;
    mark_found(alloc, ticket, ReadMark::Table(table), None)?;
    Ok(found)
}
