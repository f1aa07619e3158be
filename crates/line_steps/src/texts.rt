//! What lines write.

ghost use Rattle.std.specs.Prelude.{◌≡◌, ◌≢◌, ◌++◌, map, Some, OnOk, IfOk, string_bytes};
ghost use Rattle.std.specs.List.{flat_map};
ghost use Rattle.line_steps.specs.Texts.{boot_text, committed_text, revoked_text, sentinel_text, raised_text, hung_text, refusal_text, row_answer_text, listed_text, list_answer_text, already_text, mark_text, conflict_text, full_text, keeper_failed_text, commit_refusal_text, reboot_refusal_text, down_text, up_text, row_text, shown, table_text, journal_text};

use boot_core::{CallRefusal, CommitRefusal, Conflict, Journal, ReadMark, RebootRefusal, Stale};
use crash_base::{OutOfMemory, Place, RowBytes, RowList, RowWrite, SERVICE_TABLE};
use scenario_text::write_hex;
use std::alloc::Global;
use std::fmt::Write;

/// What a container writes that was started.
pub fn boot_text(alloc: Global, number: u32) -> Result<String, OutOfMemory>
    ensures { IfOk result (λ text. string_bytes text ≡ boot_text number) }
{
    let mut text = String::new(alloc);
    write!(text, "boot {number}\n")?;
    Ok(text)
}

/// What a commit writes.
pub fn committed_text(alloc: Global, caller: u64, place: u64) -> Result<String, OutOfMemory>
    ensures { IfOk result (λ text. string_bytes text ≡ committed_text caller place) }
{
    let mut text = String::new(alloc);
    write!(text, "c{caller} committed {place}\n")?;
    Ok(text)
}

/// What a call writes that is stale.
fn revoked_text(alloc: Global, caller: u64, stale: Stale) -> Result<String, OutOfMemory>
    ensures { IfOk result (λ text. string_bytes text ≡ revoked_text caller stale) }
{
    let group = stale.group.0;
    let had = stale.had;
    let now = stale.now;
    let mut text = String::new(alloc);
    write!(
        text,
        "c{caller} revoked group {group} had {had} now {now}\n"
    )?;
    Ok(text)
}

/// What a call writes that entered a group which is down.
fn sentinel_text(alloc: Global, caller: u64, group: u16, down: u64) -> Result<String, OutOfMemory>
    ensures { IfOk result (λ text. string_bytes text ≡ sentinel_text caller group down) }
{
    let mut text = String::new(alloc);
    write!(text, "c{caller} sentinel group {group} down {down}\n")?;
    Ok(text)
}

/// What a call writes that entered a component which fails, by the plan of this number.
fn raised_text(
    alloc: Global,
    caller: u64,
    component: u16,
    fault: u16,
) -> Result<String, OutOfMemory>
    ensures { IfOk result (λ text. string_bytes text ≡ raised_text caller component fault) }
{
    let mut text = String::new(alloc);
    write!(text, "c{caller} raised {component} fault {fault}\n")?;
    Ok(text)
}

/// What a call writes that entered a component which does not come back, by the plan of this number.
fn hung_text(alloc: Global, caller: u64, component: u16, fault: u16) -> Result<String, OutOfMemory>
    ensures { IfOk result (λ text. string_bytes text ≡ hung_text caller component fault) }
{
    let mut text = String::new(alloc);
    write!(text, "c{caller} hung {component} fault {fault}\n")?;
    Ok(text)
}

/// What a refused step of a call writes.
pub fn refusal_text(alloc: Global, caller: u64, refusal: CallRefusal) -> Result<String, OutOfMemory>
    ensures text { IfOk result (λ text. string_bytes text ≡ refusal_text caller refusal) }
    ensures memory { OnOk result (refusal ≢ CallRefusal.OutOfMemory) }
{
    let mut text = String::new(alloc);
    match refusal {
        CallRefusal::Revoked(stale) => return revoked_text(alloc, caller, stale),
        CallRefusal::Depth => write!(text, "c{caller} depth\n")?,
        CallRefusal::Steps => write!(text, "c{caller} steps\n")?,
        CallRefusal::Reads => write!(text, "c{caller} reads\n")?,
        CallRefusal::Writes => write!(text, "c{caller} writes\n")?,
        CallRefusal::Sentinel { group, down } => {
            return sentinel_text(alloc, caller, group.0, down.0);
        }
        CallRefusal::Hung { component, fault } => {
            return hung_text(alloc, caller, component.0, fault);
        }
        CallRefusal::Raised { component, fault } => {
            return raised_text(alloc, caller, component.0, fault);
        }
        CallRefusal::OutOfMemory => return Err(OutOfMemory),
    }
    Ok(text)
}

/// Writes what a read found.
fn write_found(text: &mut String, caller: u64, bytes: &[u8]) -> Result<(), OutOfMemory>
    ensures { OnOk result (string_bytes text.new
        ≡ string_bytes text.old ++ row_answer_text caller (Some bytes.now)) }
{
    write!(text, "c{caller} row ")?;
    write_hex(text, bytes)?;
    text.push_str("\n")?;
    Ok(())
}

/// What a read writes.
pub fn row_answer_text(
    alloc: Global,
    caller: u64,
    value: Option<RowBytes>,
) -> Result<String, OutOfMemory>
    ensures { IfOk result (λ text. string_bytes text ≡ row_answer_text caller value) }
{
    let mut text = String::new(alloc);
    match value {
        None => write!(text, "c{caller} row none\n")?,
        Some(bytes) => write_found(&mut text, caller, bytes.as_slice())?,
    }
    Ok(text)
}

/// Writes a row of a list.
fn write_listed(text: &mut String, row: &RowWrite) -> Result<(), OutOfMemory>
    ensures { OnOk result (string_bytes text.new ≡ string_bytes text.old ++ listed_text row.now) }
{
    let key = row.id.key;
    write!(text, " {key}=")?;
    write_hex(text, row.bytes.as_slice())?;
    Ok(())
}

/// Writes the rows of a list.
fn write_all_listed(text: &mut String, rows: &[RowWrite]) -> Result<(), OutOfMemory>
    ensures { OnOk result (string_bytes text.new
        ≡ string_bytes text.old ++ flat_map listed_text rows.now) }
{
    for row in rows {
        write_listed(text, row)?;
    }
    Ok(())
}

/// What a list of rows writes.
fn list_text(alloc: Global, caller: u64, rows: &[RowWrite]) -> Result<String, OutOfMemory>
    ensures { IfOk result (λ text. string_bytes text ≡ list_answer_text caller rows.now) }
{
    let count = rows.len();
    let mut text = String::new(alloc);
    write!(text, "c{caller} list {count}")?;
    write_all_listed(&mut text, rows)?;
    text.push_str("\n")?;
    Ok(text)
}

/// What a list writes. It visits each byte of each row.
pub fn list_answer_text(alloc: Global, caller: u64, rows: RowList) -> Result<String, OutOfMemory>
    ensures { IfOk result (λ text. string_bytes text ≡ list_answer_text caller rows) }
{
    let text = list_text(alloc, caller, rows.as_slice())?;
    Ok(text)
}

/// What a commit writes whose request has committed.
fn already_text(alloc: Global, caller: u64, place: u64) -> Result<String, OutOfMemory>
    ensures { IfOk result (λ text. string_bytes text ≡ already_text caller place) }
{
    let mut text = String::new(alloc);
    write!(text, "c{caller} already {place}\n")?;
    Ok(text)
}

/// Writes a row or a table.
fn write_mark(text: &mut String, mark: ReadMark) -> Result<(), OutOfMemory>
    ensures { OnOk result (string_bytes text.new ≡ string_bytes text.old ++ mark_text mark) }
{
    match mark {
        ReadMark::Table(table) => write!(text, "table {table}")?,
        ReadMark::Row(id) => {
            let table = id.table;
            let key = id.key;
            write!(text, "row {table} {key}")?;
        }
    }
    Ok(())
}

/// What a commit writes where a row or a table was written since its call began.
fn conflict_text(alloc: Global, caller: u64, conflict: Conflict) -> Result<String, OutOfMemory>
    ensures { IfOk result (λ text. string_bytes text ≡ conflict_text caller conflict) }
{
    let at = conflict.at.0;
    let newest = conflict.newest.0;
    let mut text = String::new(alloc);
    write!(text, "c{caller} conflict ")?;
    write_mark(&mut text, conflict.mark)?;
    write!(text, " at {at} newest {newest}\n")?;
    Ok(text)
}

/// What a commit writes whose keeper failed.
fn keeper_failed_text(alloc: Global, caller: u64) -> Result<String, OutOfMemory>
    ensures { IfOk result (λ text. string_bytes text ≡ keeper_failed_text caller) }
{
    let mut text = String::new(alloc);
    write!(text, "c{caller} keeper failed\n")?;
    Ok(text)
}

/// What a commit writes that finds the journal full.
fn full_text(alloc: Global, caller: u64, entries: u64, bytes: u64) -> Result<String, OutOfMemory>
    ensures { IfOk result (λ text. string_bytes text ≡ full_text caller entries bytes) }
{
    let mut text = String::new(alloc);
    write!(text, "c{caller} full {entries} {bytes}\n")?;
    Ok(text)
}

/// What a refused commit writes.
pub fn commit_refusal_text(
    alloc: Global,
    caller: u64,
    refusal: CommitRefusal,
) -> Result<String, OutOfMemory>
    ensures text { IfOk result (λ text. string_bytes text ≡ commit_refusal_text caller refusal) }
    ensures memory { OnOk result (refusal ≢ CommitRefusal.OutOfMemory) }
{
    match refusal {
        CommitRefusal::Already { place } => already_text(alloc, caller, place.0),
        CommitRefusal::Revoked(stale) => revoked_text(alloc, caller, stale),
        CommitRefusal::Conflict(conflict) => conflict_text(alloc, caller, conflict),
        CommitRefusal::JournalFull(full) => full_text(alloc, caller, full.entries, full.bytes),
        CommitRefusal::OutOfMemory => Err(OutOfMemory),
        CommitRefusal::KeeperFailed => keeper_failed_text(alloc, caller),
    }
}

/// What a Down writes.
pub fn down_text(alloc: Global, place: u64) -> Result<String, OutOfMemory>
    ensures { IfOk result (λ text. string_bytes text ≡ down_text place) }
{
    let mut text = String::new(alloc);
    write!(text, "down {place}\n")?;
    Ok(text)
}

/// What an Up writes.
pub fn up_text(alloc: Global, place: u64) -> Result<String, OutOfMemory>
    ensures { IfOk result (λ text. string_bytes text ≡ up_text place) }
{
    let mut text = String::new(alloc);
    write!(text, "up {place}\n")?;
    Ok(text)
}

/// What a Down and its Up write.
pub fn rebooted_text(alloc: Global, down: u64, up: u64) -> Result<String, OutOfMemory>
    ensures { IfOk result (λ text. string_bytes text ≡ down_text down ++ up_text up) }
{
    let mut text = String::new(alloc);
    write!(text, "down {down}\nup {up}\n")?;
    Ok(text)
}

/// What a refused reboot writes.
pub fn reboot_refusal_text(alloc: Global, refusal: RebootRefusal) -> Result<String, OutOfMemory>
    ensures text { IfOk result (λ text. string_bytes text ≡ reboot_refusal_text refusal) }
    ensures memory { OnOk result (refusal ≢ RebootRefusal.OutOfMemory) }
{
    let mut text = String::new(alloc);
    match refusal {
        RebootRefusal::Busy { group, down } => {
            let group = group.0;
            let down = down.0;
            write!(text, "busy group {group} down {down}\n")?;
        }
        RebootRefusal::JournalFull(full) => {
            let entries = full.entries;
            let bytes = full.bytes;
            write!(text, "full {entries} {bytes}\n")?;
        }
        RebootRefusal::OutOfMemory => return Err(OutOfMemory),
    }
    Ok(text)
}

/// Writes the line of a row.
fn write_row(text: &mut String, row: &RowWrite) -> Result<(), OutOfMemory>
    ensures { OnOk result (string_bytes text.new ≡ string_bytes text.old ++ row_text row.now) }
{
    let table = row.id.table;
    let key = row.id.key;
    write!(text, "{table} {key} ")?;
    write_hex(text, row.bytes.as_slice())?;
    text.push_str("\n")?;
    Ok(())
}

/// Writes the line of a row, and nothing for a row of the service's own table.
fn write_shown(text: &mut String, row: &RowWrite) -> Result<(), OutOfMemory>
    ensures { OnOk result (string_bytes text.new ≡ string_bytes text.old ++ shown row.now) }
{
    if row.id.table != SERVICE_TABLE {
        write_row(text, row)?;
    }
    Ok(())
}

/// The lines of rows.
pub fn table_text(alloc: Global, rows: &[&RowWrite]) -> Result<String, OutOfMemory>
    ensures { IfOk result (λ text. string_bytes text ≡ table_text (map (λ r. r.now) rows.now)) }
{
    let mut text = String::new(alloc);
    for row in rows {
        write_shown(&mut text, row)?;
    }
    Ok(text)
}

/// The lines of a journal. It visits each entry.
pub fn journal_text(alloc: Global, journal: &Journal) -> Result<String, OutOfMemory>
    ensures { IfOk result (λ text. string_bytes text ≡ journal_text journal.now.entries) }
{
    let mut text = String::new(alloc);
    for place in 0..journal.len() {
        let line = journal.print_entry(alloc, Place(place))?;
        text.push_str(line.as_str())?;
        text.push_str("\n")?;
    }
    Ok(text)
}
