//! Tests of the queue of reports.

use crate::senders::{REPORTS, number, report, send};
use report_queue::{Free, ReportQueue};

#[test]
fn a_queue_has_256_places(rt: HostRuntime) {
    let (queue, mut passes) = ReportQueue::<(), Free>::new(rt.alloc(), 1).expect(&rt, "a queue");
    let mut pass = passes.take().expect(&rt, "a pass");
    assert!(rt; queue.take::<Free, HostRuntime>(&rt, &mut pass).is_none());
    for next in 0..256 {
        assert!(rt;
            queue
                .put::<Free, HostRuntime>(&rt, &mut pass, report(next))
                .is_ok()
        );
    }
    match queue.put::<Free, HostRuntime>(&rt, &mut pass, report(256)) {
        Ok(()) => assert!(rt; false, "a place more"),
        Err(back) => assert_eq!(rt; number(back), Some(256)),
    }
    for next in 0..256 {
        match queue.take::<Free, HostRuntime>(&rt, &mut pass) {
            Some(report) => assert_eq!(rt; number(report), Some(next)),
            None => assert!(rt; false, "a report less"),
        }
    }
    assert!(rt; queue.take::<Free, HostRuntime>(&rt, &mut pass).is_none());
}

#[test]
fn reports_come_in_order(rt: HostRuntime) {
    let (queue, mut passes) = ReportQueue::<(), Free>::new(rt.alloc(), 2).expect(&rt, "a queue");
    let sender = passes.take().expect(&rt, "a pass");
    let receiver = passes.take().expect(&rt, "another pass");
    assert_eq!(rt; send(&rt, &queue, sender, receiver), (REPORTS, REPORTS));
}
