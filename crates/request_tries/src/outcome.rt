//! What becomes of a request in a container.

use container_core::{DoneText, FullAt, ReadMark, Stale};
use crash_base::{ComponentNo, GroupNo, Items, PathList, Place};

/// The most tries of a request.
pub const MAX_TRIES: usize = 3;

/// Why a try did not commit, so that another one may be made.
#[derive(Clone, Copy)]
pub enum TryCause {
    /// A group that it entered was rebooted since: the one that it entered first among these.
    Revoked(Stale),
    /// What it read or writes was written since it began: the first such one, and the place after the last such write.
    Conflict { mark: ReadMark, newest: Place },
}

/// A try that did not commit.
#[derive(Clone, Copy)]
pub struct Try {
    /// The journal's length at its begin.
    pub at: Place,
    pub cause: TryCause,
    /// The journal's length at its end.
    pub front: Place,
}

/// Tries of a request, in order.
pub type TryList = Items<Try>;

/// What became of a request.
#[derive(Drop)]
pub enum RequestOutcome {
    /// It is committed, by the entry at this place of the journal: by an earlier call of it where `again` is true.
    Page {
        place: Place,
        again: bool,
    },
    /// The group of a component that it enters is down, by the Down at this place.
    Sentinel {
        group: GroupNo,
        down: Place,
    },
    /// A component that it enters does not come back, by the fault plan of this number. Its path: the components that
    /// the try entered, and the one that failed, last.
    Hung {
        component: ComponentNo,
        fault: u16,
        path: PathList,
    },
    /// A component that it enters fails, by the fault plan of this number. Its path: the components that the try
    /// entered, and the one that failed, last.
    Raised {
        component: ComponentNo,
        fault: u16,
        path: PathList,
    },
    /// Its last try was revoked.
    Revoked(TryList),
    /// Its last try, the third, was in conflict.
    Conflict(TryList),
    /// The journal has no room for its entry. This is how full the journal is.
    JournalFull(FullAt),
    /// The keeper failed, and counted a fault.
    KeeperFailed,
}

/// How far the history of a container has come.
#[derive(Clone, Copy)]
pub struct HistoryFront {
    /// The journal's length.
    pub front: Place,
    /// The number of events.
    pub held: u64,
}

/// The end of a request in a container.
#[derive(Drop)]
pub struct Ended {
    /// What became of it.
    pub outcome: RequestOutcome,
    /// The journal's length at the begin of its first try.
    pub from: Place,
    /// The journal's length after its last step.
    pub front: Place,
    /// The number of events of the history after its last step.
    pub held: u64,
    /// What an entry answers that was there already, copied; None where it has no action, and for any other outcome. A
    /// page of its own answers what was committed.
    pub done: Option<DoneText>,
}

/// What a step of a request comes to.
#[derive(Drop)]
pub enum Progress {
    /// The request goes on.
    Went,
    /// The program is done, and answers this where it commits. The attempt stays open for its commit.
    Done(DoneText),
    /// The request has ended.
    Ended(Ended),
}
