//! How a server of a site ends.

ghost use Rattle.std.specs.Prelude.{◌≡◌, IfOk, string_bytes};
ghost use Rattle.service_log.specs.Ending.{IsToldAs, bad_row_line, end_line, status_of};
ghost use Rattle.service_log.specs.Logging.{WritesLine, log_of};

use crash_base::{OutOfMemory, RowId};
use outside::{Sink, write_all};
use std::alloc::Global;

/// How a server of a site ended.
#[derive(Clone, Copy)]
pub enum ServiceEnd {
    /// No more connections come.
    Closed,
    /// The keeper failed while a boot was to be started.
    KeeperFailed,
    /// A boot was not started, since the keeper gave this row, which may not be loaded.
    BadRow(RowId),
    /// A boot was not started, since the number of the last one is the greatest that there is.
    BootsSpent,
    /// There was no memory for a start.
    OutOfMemory,
}

impl ServiceEnd {
    /// The exit status.
    pub fn status(self) -> u8
        ensures { result ≡ status_of self }
    {
        match self {
            ServiceEnd::Closed => 0,
            ServiceEnd::KeeperFailed => 6,
            ServiceEnd::BadRow(_) => 7,
            ServiceEnd::BootsSpent => 11,
            ServiceEnd::OutOfMemory => 9,
        }
    }
}

/// The line of a bad row.
fn bad_row_line(alloc: Global, id: RowId) -> Result<String, OutOfMemory>
    ensures { IfOk result (λ text. string_bytes text ≡ bad_row_line id) }
{
    let table = id.table;
    let key = id.key;
    let text = format!(in alloc; "bad row {table} {key}\n")?;
    Ok(text)
}

/// Writes a line.
fn write_line<E: Sink>(errors: &mut E, line: &str)
    ensures { WritesLine line.now (log_of (E.written errors.old) (E.faults errors.old))
        (log_of (E.written errors.new) (E.faults errors.new)) }
{
    let _ = write_all(errors, line.as_bytes());
}

/// Reports a bad row, or that there was no memory for it.
fn report_bad_row<E: Sink>(alloc: Global, errors: &mut E, id: RowId) -> ServiceEnd
    ensures end { IsToldAs (ServiceEnd.BadRow id) result }
    ensures line { WritesLine (end_line result) (log_of (E.written errors.old) (E.faults errors.old))
        (log_of (E.written errors.new) (E.faults errors.new)) }
{
    match bad_row_line(alloc, id) {
        Ok(line) => {
            write_line(errors, line.as_str());
            ServiceEnd::BadRow(id)
        }
        Err(OutOfMemory) => {
            write_line(errors, "out of memory\n");
            ServiceEnd::OutOfMemory
        }
    }
}

/// Reports how a server ended, and answers it: with the line of the end, which is empty where no more connections come.
/// A fault changes nothing else. Where there is no memory for the numbers of a bad row, that is the end.
pub fn report_end<E: Sink>(alloc: Global, errors: &mut E, end: ServiceEnd) -> ServiceEnd
    ensures end { IsToldAs end result }
    ensures closed { end ≡ ServiceEnd.Closed → (result ≡ end) × (errors.new ≡ errors.old) }
    ensures line { WritesLine (end_line result) (log_of (E.written errors.old) (E.faults errors.old))
        (log_of (E.written errors.new) (E.faults errors.new)) }
{
    match end {
        ServiceEnd::Closed => {}
        ServiceEnd::KeeperFailed => write_line(errors, "keeper failed\n"),
        ServiceEnd::BadRow(id) => return report_bad_row(alloc, errors, id),
        ServiceEnd::BootsSpent => write_line(errors, "boots spent\n"),
        ServiceEnd::OutOfMemory => write_line(errors, "out of memory\n"),
    }
    end
}
