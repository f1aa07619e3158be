//! What the workload writes at its end.

ghost use Rattle.std.specs.Prelude.{◌≡◌, ◌++◌, IfOk, OnOk, string_bytes};
ghost use Rattle.std.specs.List.{count_by};
ghost use Rattle.line_steps.specs.Texts.{table_text};
ghost use Rattle.workload.specs.Summary.{is_outside, row_count, call_lines, refusal_lines, row_lines, lines_of, digest_line, rows_now, summary_of};

use crate::tally::Tally;
use boot_core::Boot;
use crash_base::{LatestRows, OutOfMemory, Place, RowWrite, SERVICE_TABLE};
use line_steps::table_text;
use scenario_text::write_hex;
use sha2::{Digest, Sha256};
use std::alloc::Global;
use std::fmt::Write;

/// The current rows of a boot, in order of id.
fn rows_now<'a>(alloc: Global, boot: &'a Boot) -> Result<LatestRows<'a>, OutOfMemory>
    ensures { IfOk result (λ rows. rows ≡ rows_now boot.now) }
{
    let place = Place(boot.journal().len());
    let rows = boot.rows().all_at(alloc, place)?;
    Ok(rows)
}

/// Whether a row is not of the service's own table.
fn is_outside(row: &RowWrite) -> bool
    ensures { result ≡ is_outside row.now }
{
    row.id.table != SERVICE_TABLE
}

/// How many of these rows are not of the service's own table.
fn count_outside(rows: &[&RowWrite]) -> usize
    ensures { result ≡ count_by (λ r. is_outside r.now) rows.now }
{
    rows.iter().filter(|row| is_outside(row)).count()
}

/// How many of these rows are not of the service's own table. It visits each.
fn row_count(rows: &LatestRows) -> usize
    ensures { result ≡ row_count rows.now }
{
    count_outside(rows.as_slice())
}

/// The lines of rows.
fn rows_text(alloc: Global, rows: &LatestRows) -> Result<String, OutOfMemory>
    ensures { IfOk result (λ text. string_bytes text ≡ table_text rows.now) }
{
    let text = table_text(alloc, rows.as_slice())?;
    Ok(text)
}

/// Writes the lines that say how many calls committed, and how many were revoked.
#[tactic(auto, unfolding(crate::specs::Summary::call_lines))]
fn write_calls(text: &mut String, tally: Tally) -> Result<(), OutOfMemory>
    ensures { OnOk result (string_bytes text.new ≡ string_bytes text.old ++ call_lines tally) }
{
    let commits = tally.commits;
    let revoked = tally.revoked;
    write!(text, "commits {commits}\nrevoked {revoked}\n")?;
    Ok(())
}

/// Writes the lines that say how many calls met a conflict, and how many were refused for another cause.
#[tactic(auto, unfolding(crate::specs::Summary::refusal_lines))]
fn write_refusals(text: &mut String, tally: Tally) -> Result<(), OutOfMemory>
    ensures { OnOk result (string_bytes text.new ≡ string_bytes text.old ++ refusal_lines tally) }
{
    let conflicts = tally.conflicts;
    let refused = tally.refused;
    write!(text, "conflicts {conflicts}\nrefused {refused}\n")?;
    Ok(())
}

/// Writes the lines that say how many entries the journal has, and how many rows there are.
#[tactic(auto, unfolding(crate::specs::Summary::row_lines))]
fn write_rows(text: &mut String, entries: u64, rows: usize) -> Result<(), OutOfMemory>
    ensures { OnOk result (string_bytes text.new ≡ string_bytes text.old ++ row_lines entries rows) }
{
    write!(text, "journal {entries}\nrows {rows}\n")?;
    Ok(())
}

/// Writes the line of the digest of bytes.
#[tactic(auto, unfolding(crate::specs::Summary::digest_line))]
fn write_digest(text: &mut String, bytes: &[u8]) -> Result<(), OutOfMemory>
    ensures { OnOk result (string_bytes text.new ≡ string_bytes text.old ++ digest_line bytes.now) }
{
    let digest = Sha256::digest(bytes);
    write!(text, "digest ")?;
    write_hex(text, digest.as_slice())?;
    text.push_str("\n")?;
    Ok(())
}

/// Writes the lines of a summary.
#[tactic(auto, unfolding(crate::specs::Summary::lines_of))]
fn write_lines(
    text: &mut String,
    tally: Tally,
    entries: u64,
    rows: usize,
    table: &[u8],
) -> Result<(), OutOfMemory>
    ensures { OnOk result (string_bytes text.new ≡ string_bytes text.old
        ++ lines_of tally entries rows table.now) }
{
    write_calls(text, tally)?;
    write_refusals(text, tally)?;
    write_rows(text, entries, rows)?;
    write_digest(text, table)?;
    Ok(())
}

/// The summary of a tally and a boot.
pub(crate) fn summary_text(alloc: Global, tally: Tally, boot: &Boot) -> Result<String, OutOfMemory>
    ensures { IfOk result (λ text. string_bytes text ≡ summary_of tally boot.now) }
{
    let rows = rows_now(alloc, boot)?;
    let table = rows_text(alloc, &rows)?;
    let count = row_count(&rows);
    let mut text = String::new(alloc);
    write_lines(
        &mut text,
        tally,
        boot.journal().len(),
        count,
        table.as_bytes(),
    )?;
    Ok(text)
}
