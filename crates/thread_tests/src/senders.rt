//! The two ends of a queue of reports, each in a thread of its own.

ghost use Rattle.std.specs.Prelude.{◌≡◌};
ghost use denote.Param.Send.{IsSync};

use crash_base::Moment;
use failure_scores::FailureReport;
use report_queue::{Free, ReportPass, ReportQueue};
use std::sync::Wait;
use std::thread::{Threads, join, yield_now};

/// How many reports go through.
pub const REPORTS: u64 = 10_000;

/// How often each end tries.
const TRIES: u64 = 100_000_000;

/// The report of a number: a full journal, at the moment of that number.
pub fn report(number: u64) -> FailureReport {
    FailureReport::JournalFull(Moment(number))
}

/// The number of a report.
pub fn number(report: FailureReport) -> Option<u64> {
    match report {
        FailureReport::JournalFull(moment) => Some(moment.0),
        FailureReport::Path(_) => None,
    }
}

/// Puts the reports from 0 on, in order. How many were put.
fn put_all<R: Wait>(rt: &R, queue: &ReportQueue, mut pass: ReportPass) -> u64
    requires { pass.queue ≡ queue.now }
{
    let mut next = 0;
    for _ in 0..TRIES {
        if next >= REPORTS {
            break;
        }
        match queue.put::<Free, R>(rt, &mut pass, report(next)) {
            Ok(()) => next += 1,
            Err(_) => yield_now(),
        }
    }
    next
}

/// Takes the reports, and looks whether they come in order. How many came so.
fn take_all<R: Wait>(rt: &R, queue: &ReportQueue, mut pass: ReportPass) -> u64
    requires { pass.queue ≡ queue.now }
{
    let mut next = 0;
    for _ in 0..TRIES {
        if next >= REPORTS {
            break;
        }
        match queue.take::<Free, R>(rt, &mut pass) {
            Some(report) => {
                if number(report) != Some(next) {
                    break;
                }
                next += 1;
            }
            None => yield_now(),
        }
    }
    next
}

/// Puts at the one end and takes at the other. How many were put, and how many came in order.
pub fn send<R: Threads + Wait + Sync>(
    rt: &R,
    queue: &ReportQueue,
    sender: ReportPass,
    receiver: ReportPass,
) -> (u64, u64)
    requires { (sender.queue ≡ queue.now) × (receiver.queue ≡ queue.now) }
{
    join(
        rt,
        move || -> u64
            requires sync { IsSync R.row }
            requires pass { sender.queue ≡ queue.now }
        { put_all(rt, queue, sender) },
        move || -> u64
            requires sync { IsSync R.row }
            requires pass { receiver.queue ≡ queue.now }
        { take_all(rt, queue, receiver) },
    )
}
