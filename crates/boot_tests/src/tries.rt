//! Requests in a container: reboots and commits of others between any two of their steps.
//!
//! A request enters the stock by a method: by method 0 it may be entered again, and by method 1 only once. `reboot@2`
//! reboots the stock after step 2 of the request, `down@1` takes it down after step 1, `write@5` has another request
//! write the same row after step 5, and `ask@6` asks the program again. Where the program is done, its commit comes
//! after what others do after that step. An end tells how many steps came before the last one, what became of the
//! request, with the path of one that failed, `from` and `front`, and the number of events; and of a page that was
//! there already its status.

ghost use Rattle.std.specs.Prelude.{◌≡◌, List, None, Some};
ghost use Rattle.call_ticket.specs.declared.next.Answer.{Answer};
ghost use Rattle.call_ticket.specs.declared.next.Next.{Next};
ghost use Rattle.call_ticket.specs.declared.next.Next.TheVariants as next;
ghost use Rattle.boot_core.specs.Boot.{BootValue, HasGrown};
ghost use Rattle.boot_tests.specs.Notes.{CanNote, note};
ghost use Rattle.request_tries.specs.Serving.{IsServing, wanted_by};
ghost use Rattle.request_tries.specs.Steps.{IfDone, end_of};

use crate::boot_fixtures::{LIMITS, request};
use crate::container_fixtures::over_failing;
use crate::notes::Note;
use crate::plans::plans_of;
use crate::words::{
    add_dotted, add_marked, add_named, add_number, add_pair, add_word, byte, cut, expect_words,
    number,
};
use container_core::{Container, DoneText, JournalLimits};
use crash_base::{ActionText, ComponentNo, GroupNo, PathList, RequestNo, Scope, WorkerNo};
use outside::{Keeper, MapKeeper};
use request_tries::{Ended, Progress, RequestOutcome, RequestTries, ends_stay_true};
use std::alloc::Global;
use std::process::Abort;

/// A cart and a stock, which owns the table. The second method of each may not be called again.
const SHOP: &str = "+cart.Mn +stock.Mn 3=1";

/// Asserts that the program may run here.
fn expect_stock<K: Keeper + Drop>(rt: &impl Abort, container: &Container<K>)
    ensures { CanNote container.now.boot.start.deployment }
{
    assert!(rt; container.deployment().count() > 1);
    match container.deployment().owner_of(3) {
        Some(owner) => assert!(rt; owner.0 == 1),
        None => panic!(rt; "nobody owns the table"),
    }
}

/// Makes a step of a request.
fn step<K: Keeper + Drop>(
    rt: &impl Abort,
    alloc: Global,
    container: &mut Container<K>,
    tries: &mut RequestTries,
    program: Note,
) -> Progress
    requires { IsServing container.old.boot (note program.method) tries.old }
    ensures serving { end_of result ≡ None → IsServing container.new.boot (note program.method) tries.new }
    ensures done { IfDone result (λ done. wanted_by (note program.method) tries.new ≡ Some (next.Done done)) }
    ensures grown { HasGrown container.old.boot container.new.boot }
{
    expect_stock(rt, container);
    tries.step(alloc, container, &program).expect(rt, "a step")
}

/// Makes the commit of a request whose program is done.
fn commit<K: Keeper + Drop>(
    rt: &impl Abort,
    alloc: Global,
    container: &mut Container<K>,
    tries: &mut RequestTries,
    program: Note,
    done: DoneText,
) -> Option<Ended>
    requires serving { IsServing container.old.boot (note program.method) tries.old }
    requires done { wanted_by (note program.method) tries.old ≡ Some (next.Done done) }
    ensures serving { result ≡ None → IsServing container.new.boot (note program.method) tries.new }
    ensures grown { HasGrown container.old.boot container.new.boot }
{
    expect_stock(rt, container);
    tries
        .commit(alloc, container, &program, done)
        .expect(rt, "a commit")
}

/// A request that was not begun.
fn begin(alloc: Global, request: RequestNo) -> RequestTries
    ensures { (boot : BootValue) (asks : List Answer → Next) → IsServing boot asks result }
{
    ends_stay_true();
    let text = ActionText::new(alloc);
    RequestTries::new(alloc, request, WorkerNo(4), text)
}

/// Makes the commit of another request, which ends.
fn commit_beside<K: Keeper + Drop>(
    rt: &impl Abort,
    alloc: Global,
    container: &mut Container<K>,
    other: &mut RequestTries,
    program: Note,
    done: DoneText,
)
    requires serving { IsServing container.old.boot (note program.method) other.old }
    requires done { wanted_by (note program.method) other.old ≡ Some (next.Done done) }
    ensures { HasGrown container.old.boot container.new.boot }
{
    let end = commit(rt, alloc, container, other, program, done);
    assert!(rt; end.is_some());
}

/// Adds the component that failed and the number of its plan, and the components on the way to it.
fn add_failed(
    rt: &impl Abort,
    words: &mut String,
    word: &str,
    component: ComponentNo,
    fault: u16,
    path: &PathList,
) {
    add_dotted(rt, words, word, u64::from(component.0), u64::from(fault));
    for entered in path.as_slice() {
        add_marked(rt, words, ">", u64::from(entered.0));
    }
}

fn add_outcome(rt: &impl Abort, words: &mut String, outcome: &RequestOutcome) {
    match outcome {
        RequestOutcome::Page { place, again } => {
            add_named(rt, words, if *again { "again" } else { "page" }, place.0)
        }
        RequestOutcome::Sentinel { group, down } => {
            add_pair(rt, words, u64::from(group.0), "down", down.0)
        }
        RequestOutcome::Hung {
            component,
            fault,
            path,
        } => add_failed(rt, words, "hung", *component, *fault, path),
        RequestOutcome::Raised {
            component,
            fault,
            path,
        } => add_failed(rt, words, "raised", *component, *fault, path),
        RequestOutcome::Revoked(tries) => add_named(rt, words, "revoked", tries.len() as u64),
        RequestOutcome::Conflict(tries) => add_named(rt, words, "conflict", tries.len() as u64),
        RequestOutcome::JournalFull(full) => add_pair(rt, words, full.entries, "/", full.bytes),
        RequestOutcome::KeeperFailed => add_word(rt, words, "keeper_failed"),
    }
}

fn add_end(rt: &impl Abort, words: &mut String, ended: &Ended) {
    add_outcome(rt, words, &ended.outcome);
    add_pair(rt, words, ended.from.0, "-", ended.front.0);
    add_number(rt, words, ended.held);
    if let Some(done) = &ended.done {
        add_number(rt, words, u64::from(done.status));
    }
}

/// Takes the stock down.
fn take_down<K: Keeper + Drop>(
    rt: &impl Abort,
    container: &mut Container<K>,
    tries: &RequestTries,
    program: Note,
)
    requires { IsServing container.old.boot (note program.method) tries.now }
    ensures { IsServing container.new.boot (note program.method) tries.now }
{
    ends_stay_true();
    match container.begin_reboot(Scope::Group(GroupNo(1))) {
        Ok(_) => {}
        Err(_) => panic!(rt; "the down is refused"),
    }
}

/// Reboots the stock.
fn reboot<K: Keeper + Drop>(
    rt: &impl Abort,
    container: &mut Container<K>,
    tries: &RequestTries,
    program: Note,
)
    requires { IsServing container.old.boot (note program.method) tries.now }
    ensures { IsServing container.new.boot (note program.method) tries.now }
{
    ends_stay_true();
    match container.begin_reboot(Scope::Group(GroupNo(1))) {
        Ok(down) => {
            assert!(rt; container.is_undone(down));
            container.end_reboot(down);
        }
        Err(_) => panic!(rt; "the reboot is refused"),
    }
}

/// Another request writes the row.
fn write_beside<K: Keeper + Drop>(
    rt: &impl Abort,
    alloc: Global,
    container: &mut Container<K>,
    tries: &RequestTries,
    program: Note,
    serial: u64,
)
    requires { IsServing container.old.boot (note program.method) tries.now }
    ensures { IsServing container.new.boot (note program.method) tries.now }
{
    ends_stay_true();
    let quick = Note { method: 0 };
    let mut other = begin(alloc, request(serial));
    for turn in 0..6u64 {
        match step(rt, alloc, container, &mut other, quick) {
            Progress::Went => assert!(rt; turn < 5),
            Progress::Done(done) => {
                commit_beside(rt, alloc, container, &mut other, quick, done);
                drop(other);
                return;
            }
            Progress::Ended(_) => panic!(rt; "the other request was stopped"),
        }
    }
    drop(other);
}

/// Does what an event says, where it comes after this step.
fn do_event<K: Keeper + Drop>(
    rt: &impl Abort,
    alloc: Global,
    container: &mut Container<K>,
    tries: &RequestTries,
    program: Note,
    event: &str,
    step: u64,
)
    requires { IsServing container.old.boot (note program.method) tries.now }
    ensures { IsServing container.new.boot (note program.method) tries.now }
{
    let (_, after) = cut(rt, event, '@');
    if number(rt, after) != step {
        return;
    }
    if event.starts_with("reboot") {
        reboot(rt, container, tries, program);
    } else if event.starts_with("down") {
        take_down(rt, container, tries, program);
    } else if event.starts_with("write") {
        write_beside(
            rt,
            alloc,
            container,
            tries,
            program,
            step.saturating_add(50),
        );
    }
}

/// Does the events that come after this step.
fn do_events<K: Keeper + Drop>(
    rt: &impl Abort,
    alloc: Global,
    container: &mut Container<K>,
    tries: &RequestTries,
    program: Note,
    events: &str,
    step: u64,
)
    requires { IsServing container.old.boot (note program.method) tries.now }
    ensures { IsServing container.new.boot (note program.method) tries.now }
{
    for event in events.split(' ') {
        do_event(rt, alloc, container, tries, program, event, step);
    }
}

/// Does the events that come after the last step of a request, asks its program again where they say so, and makes the
/// commit.
fn commit_later<K: Keeper + Drop>(
    rt: &impl Abort,
    alloc: Global,
    container: &mut Container<K>,
    tries: &mut RequestTries,
    program: Note,
    events: &str,
    made: u64,
    done: DoneText,
) -> Option<Ended>
    requires serving { IsServing container.old.boot (note program.method) tries.old }
    requires done { wanted_by (note program.method) tries.old ≡ Some (next.Done done) }
    ensures { result ≡ None → IsServing container.new.boot (note program.method) tries.new }
{
    do_events(rt, alloc, container, tries, program, events, made);
    if !events.ends_with("ask@6") {
        return commit(rt, alloc, container, tries, program, done);
    }
    match step(rt, alloc, container, tries, program) {
        Progress::Done(again) => commit(rt, alloc, container, tries, program, again),
        Progress::Went | Progress::Ended(_) => panic!(rt; "the program is not done again"),
    }
}

/// Makes the step of a request that has this number, with its commit where its program is done, and does the events
/// that come after the step.
fn turn<K: Keeper + Drop>(
    rt: &impl Abort,
    alloc: Global,
    container: &mut Container<K>,
    tries: &mut RequestTries,
    program: Note,
    events: &str,
    made: u64,
) -> Option<Ended>
    requires { IsServing container.old.boot (note program.method) tries.old }
    ensures { result ≡ None → IsServing container.new.boot (note program.method) tries.new }
{
    match step(rt, alloc, container, tries, program) {
        Progress::Ended(ended) => Some(ended),
        Progress::Went => {
            do_events(rt, alloc, container, tries, program, events, made);
            None
        }
        Progress::Done(done) => {
            commit_later(rt, alloc, container, tries, program, events, made, done)
        }
    }
}

/// Serves a request to its end, and tells how it ends.
fn serve<K: Keeper + Drop>(
    rt: &impl Abort,
    alloc: Global,
    container: &mut Container<K>,
    serial: u64,
    program: Note,
    events: &str,
) -> String {
    let mut words = String::new(alloc);
    let mut tries = begin(alloc, request(serial));
    for before in 0..30u64 {
        let made = before.saturating_add(1);
        let end = turn(rt, alloc, container, &mut tries, program, events, made);
        if let Some(ended) = end {
            add_number(rt, &mut words, before);
            add_end(rt, &mut words, &ended);
            drop(tries);
            return words;
        }
    }
    drop(tries);
    words
}

/// Serves a request in a container of its own. A row has the method, the fault plans, in which b is the stock, what
/// others do, and how the request ends.
fn expect_end(rt: &impl Abort, alloc: Global, row: &str) {
    let (setting, text) = cut(rt, row, '|');
    let (method, plans) = cut(rt, setting, ' ');
    let (events, want) = cut(rt, text, '|');
    let plans = plans_of(rt, alloc, plans);
    let program = Note {
        method: byte(rt, method),
    };
    let mut container = over_failing(rt, alloc, SHOP, 0, plans, LIMITS);
    let found = serve(rt, alloc, &mut container, 1, program, events);
    drop(container);
    expect_words(rt, &found, want, row);
}

/// By method 0, what may be called again is, after a reboot that the request met; and each conflict is tried again. By
/// method 1, what may be called only once is not tried again after a reboot of what was entered; a conflict is. Where
/// the stock fails until its group is rebooted, that it is down is told before that; and it fails from its second
/// entering on, whoever makes it, until the application is rebooted.
const ROWS: &str = "0 -|ask@0|5 page0 0-1 2
0 -|ask@6|5 page0 0-1 2
0 -|reboot@1|5 page2 0-3 4
0 -|reboot@2|8 page2 0-3 4
0 -|reboot@3|9 page2 0-3 4
0 -|reboot@4|10 page2 0-3 4
0 -|reboot@5|11 page2 0-3 4
0 -|reboot@6|11 page2 0-3 4
0 -|reboot@6 ask@6|11 page2 0-3 4
0 -|reboot@2 reboot@5|11 page4 0-5 6
0 -|reboot@2 reboot@5 reboot@8|8 revoked3 0-6 7
0 -|reboot@6 reboot@12 reboot@18|17 revoked3 0-6 7
0 -|down@1|1 1down0 0-1 2
0 -|down@2|4 1down0 0-1 2
0 -|down@6|7 1down0 0-1 2
0 -|write@1|11 page1 0-2 3
0 -|write@4|11 page1 0-2 3
0 -|write@6|11 page1 0-2 3
0 -|write@6 ask@6|11 page1 0-2 3
0 -|write@1 write@7|17 page2 0-3 4
0 -|write@1 write@7 write@13|17 conflict3 0-3 4
0 -|write@6 write@12 write@18|17 conflict3 0-3 4
0 -|write@1 reboot@8|14 page3 0-4 5
0 -|write@6 reboot@6|11 page3 0-4 5
0 -|reboot@2 write@4 reboot@11|11 revoked3 0-5 6
1 -|ask@0|5 page0 0-1 2
1 -|reboot@1|5 page2 0-3 4
1 -|reboot@2|2 revoked1 0-2 3
1 -|reboot@3|3 revoked1 0-2 3
1 -|reboot@4|4 revoked1 0-2 3
1 -|reboot@5|5 revoked1 0-2 3
1 -|reboot@6|5 revoked1 0-2 3
1 -|reboot@6 ask@6|5 revoked1 0-2 3
1 -|down@1|1 1down0 0-1 2
1 -|down@6|5 revoked1 0-1 2
1 -|write@1|11 page1 0-2 3
1 -|write@6|11 page1 0-2 3
1 -|write@6 reboot@6|5 revoked1 0-3 4
1 -|write@1 reboot@8|8 revoked2 0-3 4
1 -|write@1 write@7 write@13|17 conflict3 0-3 4
0 b 0 raise group|ask@0|1 raised1.0>1 0-0 1
0 b 0 raise group|reboot@1|5 page2 0-3 4
0 b 0 raise group|down@1|1 1down0 0-1 2
0 b 1 hang app|ask@0|5 page0 0-1 2
0 b 1 hang app|reboot@1|5 page2 0-3 4
0 b 1 hang app|reboot@2|4 hung1.0>1 0-2 3
0 b 1 hang app|write@1|1 hung1.0>1 0-1 2";

#[test]
fn requests_are_tried_again(rt: HostRuntime) {
    for row in ROWS.split('\n') {
        expect_end(&rt, rt.alloc(), row);
    }
}

/// Serves a request by method 0, and asserts how it ends.
fn expect_served(
    rt: &impl Abort,
    alloc: Global,
    container: &mut Container<MapKeeper>,
    serial: u64,
    events: &str,
    want: &str,
) {
    let found = serve(rt, alloc, container, serial, Note { method: 0 }, events);
    expect_words(rt, &found, want, events);
}

/// A request that is sent again is shown its page, and no reboot between changes that.
fn expect_page_again(rt: &impl Abort, alloc: Global, container: &mut Container<MapKeeper>) {
    expect_served(rt, alloc, container, 1, "ask@0", "5 page0 0-1 2");
    expect_served(rt, alloc, container, 1, "reboot@2", "8 again0 1-3 4 200");
    expect_served(rt, alloc, container, 2, "ask@0", "5 page3 3-4 5");
}

/// A container without fault plans, of whose keeper the call of this number fails.
fn container(
    rt: &impl Abort,
    alloc: Global,
    failing: u64,
    limits: JournalLimits,
) -> Container<MapKeeper> {
    over_failing(rt, alloc, SHOP, failing, plans_of(rt, alloc, "-"), limits)
}

/// A page is shown again. A journal without room and a keeper that failed end a request, which is served by that keeper
/// then.
#[test]
fn what_stands_before_a_request_ends_it(rt: HostRuntime) {
    let alloc = rt.alloc();
    let mut kept = container(&rt, alloc, 0, LIMITS);
    expect_page_again(&rt, alloc, &mut kept);
    drop(kept);
    let none = JournalLimits {
        entries: 0,
        bytes: 0,
    };
    let mut full = container(&rt, alloc, 0, none);
    expect_served(&rt, alloc, &mut full, 1, "ask@0", "5 0/0 0-0 1");
    drop(full);
    let mut failing = container(&rt, alloc, 3, LIMITS);
    expect_served(
        &rt,
        alloc,
        &mut failing,
        1,
        "ask@0",
        "5 keeper_failed 0-0 2",
    );
    expect_served(&rt, alloc, &mut failing, 1, "ask@0", "5 page0 0-1 3");
    drop(failing);
}
