//! Why a boot refused what it was asked, or was not started.

ghost use Rattle.std.specs.Prelude.{◌≡◌};

use commit_journal::{Conflict, FullAt, MarkList, Stale};
use crash_base::{ComponentNo, GroupNo, Place, RequestNo, RowId};

/// Why a step of a call was refused, in the order in which the causes are looked at. The call is as before.
#[derive(Clone, Copy)]
pub enum CallRefusal {
    /// A group that the call entered was rebooted since: the one that it entered first among these.
    Revoked(Stale),
    /// `MAX_FRAMES` frames of the call are open.
    Depth,
    /// The call has made `MAX_STEPS` steps.
    Steps,
    /// The call has read `MAX_MARKS` rows and tables, and this would be another one.
    Reads,
    /// The call writes `MAX_WRITES` rows, and this would be another one.
    Writes,
    /// The group of the component is down, by the Down at this place of the journal.
    Sentinel { group: GroupNo, down: Place },
    /// The component does not come back, by the fault plan of this number: the first of its plans that is active.
    Hung { component: ComponentNo, fault: u16 },
    /// The component fails, by the fault plan of this number: the first of its plans that is active.
    Raised { component: ComponentNo, fault: u16 },
    /// The allocator had no memory.
    OutOfMemory,
}

impl From<crash_base::OutOfMemory> for CallRefusal {
    ghost use Rattle.boot_core.specs.declared.refusals.CallRefusal.TheVariants.{OutOfMemory};

    ghost from_gives = { λ _ refusal. refusal ≡ OutOfMemory };

    fn from(_error: crash_base::OutOfMemory) -> CallRefusal {
        CallRefusal::OutOfMemory
    }
}

/// Why a commit was refused, in the order in which the causes are looked at.
#[derive(Clone, Copy)]
pub enum CommitRefusal {
    /// The request has committed, by the entry at this place of the journal.
    Already { place: Place },
    /// A group that the call entered was rebooted since: the one that it entered first among these.
    Revoked(Stale),
    /// What the call read, or a row that it writes, was written since the call began: the first such one, what it
    /// read before what it writes.
    Conflict(Conflict),
    /// The entry would pass a limit of the journal. This is how full the journal is.
    JournalFull(FullAt),
    /// The allocator had no memory, or the keeper had none.
    OutOfMemory,
    /// The keeper failed, and counted a fault. It has kept none of the writes.
    KeeperFailed,
}

/// A commit that was refused: which request made it, what it had read, and why.
#[derive(Drop)]
pub struct Refused {
    pub request: RequestNo,
    pub marks: MarkList,
    pub cause: CommitRefusal,
}

/// Why a reboot did not begin, in the order in which the causes are looked at. Nothing was rebooted.
#[derive(Clone, Copy)]
pub enum RebootRefusal {
    /// A group of the scope is down already, by the Down at this place: the least such group.
    Busy { group: GroupNo, down: Place },
    /// The Down and its Up would pass a limit of the journal. This is how full the journal is.
    JournalFull(FullAt),
    /// The allocator had no memory.
    OutOfMemory,
}

/// Why a container was not started, in the order in which the causes are looked at.
#[derive(Clone, Copy)]
pub enum StartRefusal {
    /// The keeper failed, and counted a fault.
    KeeperFailed,
    /// The keeper gave a row that is too long, or a second row of an id, or a row of the service's own table that is
    /// not that of the boot's number: the first such row.
    BadRow { id: RowId },
    /// The number of the last boot is the greatest that there is.
    BootsSpent,
    /// The allocator had no memory, or the keeper had none.
    OutOfMemory,
}

impl From<crash_base::OutOfMemory> for StartRefusal {
    ghost use Rattle.boot_core.specs.declared.refusals.StartRefusal.TheVariants.{OutOfMemory};

    ghost from_gives = { λ _ refusal. refusal ≡ OutOfMemory };

    fn from(_error: crash_base::OutOfMemory) -> StartRefusal {
        StartRefusal::OutOfMemory
    }
}
