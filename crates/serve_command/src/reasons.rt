//! Why a server ended that was started.

ghost use Rattle.std.specs.Prelude.{◌≡◌, [], IsSome, List, ℕ};
ghost use Rattle.serve_command.specs.Ending.{IsAbout};
ghost use Rattle.serve_command.specs.Reasons.{row_rule, spent_rule};

use crate::ending::reason_about;
use crash_base::Items;
use keeper_sqlite::RowsFault;
use std::alloc::Global;

/// The line that names a file and what its keeper says of a refused call.
fn told_by_keeper(alloc: Global, file: &[u8], why: RowsFault) -> Items<u8>
    ensures { (text : List ℕ) × IsAbout file.now text result }
{
    match why.to_string(alloc) {
        Ok(text) => reason_about(alloc, file, text.as_bytes()),
        Err(_) => Items::new(alloc),
    }
}

/// The reason of an end with this status, by why the keeper of this file refused a call last; nothing where there is
/// none to tell, or no memory for it.
pub(crate) fn reason_of_end(
    alloc: Global,
    file: &[u8],
    status: u8,
    last: Option<RowsFault>,
) -> Items<u8>
    ensures row { status ≡ 7 → IsAbout file.now row_rule result }
    ensures spent { status ≡ 11 → IsAbout file.now spent_rule result }
    ensures keeper { status ≡ 6 → IsSome last → (text : List ℕ) × IsAbout file.now text result }
    ensures closed { status ≡ 0 → result ≡ [] }
{
    match (status, last) {
        (6, Some(why)) => told_by_keeper(alloc, file, why),
        (7, _) => reason_about(
            alloc,
            file,
            b"a row has at most 4096 bytes, and table 0 has one row alone, the number of the last boot in 4 bytes",
        ),
        (9, Some(RowsFault::OutOfMemory)) => reason_about(alloc, file, b"out of memory"),
        (11, _) => reason_about(
            alloc,
            file,
            b"the number of its last boot is the greatest, 4294967295",
        ),
        _ => Items::new(alloc),
    }
}
