//! Why a call of a keeper is refused.

ghost use Rattle.std.specs.Prelude.{◌≡◌};
ghost use Rattle.keeper_sqlite.specs.Faults.{fault_of};

use crash_base::OutOfMemory;
use outside::KeeperFault;
use sqlite::{Error, ErrorCode};
use std::fmt;

/// Why a call of a keeper is refused.
#[derive(Clone, Copy, Debug)]
pub enum RowsFault {
    /// The allocator had no memory.
    OutOfMemory,
    /// The values of a row in the table spell none.
    NoRow,
    /// An earlier failure of the disk closed the database.
    Closed,
    /// The database failed in another way.
    Database(Error),
}

impl RowsFault {
    /// What a keeper answers.
    pub fn fault(self) -> KeeperFault
        ensures { result ≡ fault_of self }
    {
        match self {
            RowsFault::OutOfMemory => KeeperFault::OutOfMemory,
            RowsFault::NoRow | RowsFault::Closed | RowsFault::Database(_) => KeeperFault::Failed,
        }
    }
}

impl From<Error> for RowsFault {
    fn from(error: Error) -> RowsFault {
        match error {
            Error::SqliteFailure(ErrorCode::OutOfMemory) => RowsFault::OutOfMemory,
            Error::SqliteFailure(ErrorCode::Closed) => RowsFault::Closed,
            _ => RowsFault::Database(error),
        }
    }
}

impl From<OutOfMemory> for RowsFault {
    fn from(_error: OutOfMemory) -> RowsFault {
        RowsFault::OutOfMemory
    }
}

impl fmt::Display for RowsFault {
    fn fmt<W: fmt::Write>(&self, f: &mut fmt::Formatter<W>) -> fmt::Result {
        match self {
            RowsFault::OutOfMemory => f.write_str("out of memory"),
            RowsFault::NoRow => {
                f.write_str(
                    "crash_rows has a row whose t is not from 0 to 255 or whose k is not 8 bytes",
                )
            }
            RowsFault::Closed => f.write_str("the database was closed by an earlier failure"),
            RowsFault::Database(error) => write!(f, "{error}"),
        }
    }
}
