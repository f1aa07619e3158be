//! Tests of what an operator is told.

use auction_rows::site_deployment;
use crash_base::{GroupNo, RowId, Scope};
use outside::{BytesSink, CallList};
use service_log::{ServiceEnd, ServiceEvent, log_event, report_end};

/// What happens to a server. Users and Feedback are one group, and so are Items, Bids and Purchases.
const EVENTS: [ServiceEvent; 9] = [
    ServiceEvent::Started { boot: 1, rows: 0 },
    ServiceEvent::Started {
        boot: 4_294_967_295,
        rows: 18_446_744_073_709_551_615,
    },
    ServiceEvent::Rebooted {
        scope: Scope::Group(GroupNo(0)),
        milliseconds: 0,
    },
    ServiceEvent::Rebooted {
        scope: Scope::Group(GroupNo(1)),
        milliseconds: 7,
    },
    ServiceEvent::Rebooted {
        scope: Scope::Group(GroupNo(3)),
        milliseconds: 1_234,
    },
    ServiceEvent::Rebooted {
        scope: Scope::Group(GroupNo(4)),
        milliseconds: 18_446_744_073_709_551_615,
    },
    ServiceEvent::Rebooted {
        scope: Scope::App,
        milliseconds: 12,
    },
    ServiceEvent::Stopped { entries: 229_376 },
    ServiceEvent::HumanNeeded,
];

/// The line of each.
const LINES: &str = "boot 1 started over 0 rows
boot 4294967295 started over 18446744073709551615 rows
rebooted Web, down for 0 ms
rebooted Users Feedback, down for 7 ms
rebooted Items Bids Purchases, down for 1234 ms
rebooted Categories, down for 18446744073709551615 ms
rebooted all, down for 12 ms
restarting behind 229376 entries
human needed
";

/// How a server ends.
const ENDS: [ServiceEnd; 5] = [
    ServiceEnd::Closed,
    ServiceEnd::KeeperFailed,
    ServiceEnd::BadRow(RowId {
        table: 255,
        key: 18_446_744_073_709_551_615,
    }),
    ServiceEnd::OutOfMemory,
    ServiceEnd::BootsSpent,
];

/// The status of each.
const STATUSES: [u8; 5] = [0, 6, 7, 9, 11];

/// The line of each, of which the first has none.
const LAST_WORDS: &str = "keeper failed
bad row 255 18446744073709551615
out of memory
boots spent
";

#[test]
fn each_event_has_its_line(rt: HostRuntime) {
    let alloc = rt.alloc();
    let deployment = site_deployment(alloc).expect(&rt, "the site");
    let mut log = BytesSink::new(alloc, 10_000, CallList::new(alloc)).expect(&rt, "a log");
    for event in EVENTS {
        log_event(alloc, &mut log, &deployment, event);
    }
    assert!(rt; log.as_slice() == LINES.as_bytes());
}

/// The last line does not fit, so that it leaves a fault.
#[test]
fn each_end_has_its_status_and_its_line(rt: HostRuntime) {
    let alloc = rt.alloc();
    let room = LAST_WORDS.len() as u64;
    let mut log = BytesSink::new(alloc, room, CallList::new(alloc)).expect(&rt, "a log");
    for (at, end) in ENDS.iter().enumerate() {
        let told = report_end(alloc, &mut log, *end);
        assert!(rt; STATUSES.get(at).copied() == Some(told.status()));
    }
    assert!(rt; log.as_slice() == LAST_WORDS.as_bytes());
    let told = report_end(alloc, &mut log, ServiceEnd::BootsSpent);
    assert!(rt; told.status() == 11);
    assert!(rt; log.faults() == 1);
    assert!(rt; log.as_slice() == LAST_WORDS.as_bytes());
}
