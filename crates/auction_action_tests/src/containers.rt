//! Actions as programs over a container, while others act and groups are rebooted between their steps.

ghost use Rattle.std.specs.Prelude.{◌≡◌};
ghost use Rattle.boot_core.specs.Fits.{FitsIn};
ghost use Rattle.container_core.specs.Container.{HasGrownBy, IsButEntered};

use crate::calls::program_of;
use crate::driver::drive;
use crate::shop::SHOP;
use crate::tables::rows_of;
use crate::words::{
    add_hex, add_marked, add_part, cut, expect_so, expect_words, first_word, number, short_number,
};
use auction_actions::ActionProgram;
use auction_calls::action_text;
use auction_rows::site_deployment;
use call_ticket::{Answer, AnswerList, MAX_STEPS, Next, Program};
use container_core::{
    ActionEntry, CallRefusal, CommitRefusal, Container, DoneText, JournalLimits, Ticket,
    calls_go_on_fitting,
};
use crash_base::{
    ComponentNo, FaultList, GroupNo, MAX_GROUPS, MAX_ROW_BYTES, Place, RequestNo, RowId, RowList,
    RowWrite, Scope, WorkerNo,
};
use outside::{CallList, MapKeeper};
use std::alloc::Global;
use std::process::Abort;

/// The number of the request whose call is held.
const HELD_SERIAL: u64 = 1000;

/// As many answers as a call has steps, and one more.
const MAX_ANSWERS: usize = 129;

/// Room for each call of a row.
const LIMITS: JournalLimits = JournalLimits {
    entries: 100,
    bytes: 100_000,
};

/// A container over a keeper that holds these rows, of which no component fails.
fn container_of(rt: &impl Abort, alloc: Global, lines: &str) -> Container<MapKeeper> {
    let rows = RowList::from_vec(rows_of(rt, alloc, lines));
    let keeper = MapKeeper::new(alloc, rows, CallList::new(alloc)).expect(rt, "a keeper");
    let deployment = site_deployment(alloc).expect(rt, "the site");
    let plans = FaultList::from_vec(Vec::new(alloc));
    match Container::start(alloc, deployment, keeper, plans, LIMITS) {
        Ok(container) => container,
        Err(_) => panic!(rt; "the start is refused"),
    }
}

/// What comes of a step.
#[derive(Drop)]
enum StepEnd {
    Answered(Answer),
    Done(DoneText),
    /// The call entered a group that was rebooted since.
    Revoked,
    /// The group is down.
    Sentinel,
}

fn end_of(rt: &impl Abort, answer: Result<Answer, CallRefusal>) -> StepEnd {
    match answer {
        Ok(answer) => StepEnd::Answered(answer),
        Err(CallRefusal::Revoked(_)) => StepEnd::Revoked,
        Err(CallRefusal::Sentinel { .. }) => StepEnd::Sentinel,
        Err(_) => panic!(rt; "a limit is passed, or a component fails"),
    }
}

fn enter(
    rt: &impl Abort,
    container: &mut Container<MapKeeper>,
    ticket: &mut Ticket,
    component: ComponentNo,
    method: u8,
) -> Result<Answer, CallRefusal>
    requires { FitsIn container.old.boot ticket.old.call }
    ensures fits { FitsIn container.new.boot ticket.new.call }
    ensures but_entered { IsButEntered container.old container.new }
{
    assert!(rt; component.0 < container.deployment().count());
    assert!(rt; container.as_boot().may_enter(ticket, component));
    container.enter(ticket, component, method)?;
    Ok(Answer::Entered)
}

fn read(
    rt: &impl Abort,
    alloc: Global,
    container: &mut Container<MapKeeper>,
    ticket: &mut Ticket,
    id: RowId,
) -> Result<Answer, CallRefusal>
    requires { FitsIn container.old.boot ticket.old.call }
    ensures fits { FitsIn container.new.boot ticket.new.call }
    ensures same { container.new ≡ container.old }
{
    assert!(rt; container.as_boot().is_in_owner(ticket, id.table));
    let value = container.read(alloc, ticket, id)?;
    Ok(Answer::Row(value))
}

fn list(
    rt: &impl Abort,
    alloc: Global,
    container: &mut Container<MapKeeper>,
    ticket: &mut Ticket,
    table: u8,
) -> Result<Answer, CallRefusal>
    requires { FitsIn container.old.boot ticket.old.call }
    ensures fits { FitsIn container.new.boot ticket.new.call }
    ensures same { container.new ≡ container.old }
{
    assert!(rt; container.as_boot().is_in_owner(ticket, table));
    let rows = container.list(alloc, ticket, table)?;
    Ok(Answer::Rows(rows))
}

fn put(
    rt: &impl Abort,
    container: &mut Container<MapKeeper>,
    ticket: &mut Ticket,
    row: RowWrite,
) -> Result<Answer, CallRefusal>
    requires { FitsIn container.old.boot ticket.old.call }
    ensures fits { FitsIn container.new.boot ticket.new.call }
    ensures same { container.new ≡ container.old }
{
    assert!(rt; row.id.table > 0 && row.bytes.len() <= MAX_ROW_BYTES);
    assert!(rt; container.as_boot().is_in_owner(ticket, row.id.table));
    container.put(ticket, row)?;
    Ok(Answer::Kept)
}

fn exit(rt: &impl Abort, container: &mut Container<MapKeeper>, ticket: &mut Ticket) -> StepEnd
    requires { FitsIn container.old.boot ticket.old.call }
    ensures fits { FitsIn container.new.boot ticket.new.call }
    ensures same { container.new ≡ container.old }
{
    assert!(rt; ticket.depth() > 0);
    assert!(rt; ticket.steps() < MAX_STEPS);
    match container.exit(ticket) {
        Ok(()) => StepEnd::Answered(Answer::Left),
        Err(_) => StepEnd::Revoked,
    }
}

/// Makes a step of a program over a container.
fn make(
    rt: &impl Abort,
    alloc: Global,
    container: &mut Container<MapKeeper>,
    ticket: &mut Ticket,
    step: Next,
) -> StepEnd
    requires { FitsIn container.old.boot ticket.old.call }
    ensures fits { FitsIn container.new.boot ticket.new.call }
    ensures but_entered { IsButEntered container.old container.new }
{
    match step {
        Next::Enter { component, method } => {
            end_of(rt, enter(rt, container, ticket, component, method))
        }
        Next::Read(id) => end_of(rt, read(rt, alloc, container, ticket, id)),
        Next::List(table) => end_of(rt, list(rt, alloc, container, ticket, table)),
        Next::Put(row) => end_of(rt, put(rt, container, ticket, row)),
        Next::Exit => exit(rt, container, ticket),
        Next::Done(done) => StepEnd::Done(done),
    }
}

/// What comes of the steps of a call.
#[derive(Drop)]
enum CallEnd {
    /// It has more steps to make.
    Open,
    Done(DoneText),
    Stopped(&'static str),
}

/// Makes the steps of a program after these answers, up to so many answers in all, or until it is done or stopped.
fn make_steps(
    rt: &impl Abort,
    alloc: Global,
    container: &mut Container<MapKeeper>,
    ticket: &mut Ticket,
    program: &ActionProgram,
    answers: &mut AnswerList,
    most: usize,
) -> CallEnd
    requires { FitsIn container.old.boot ticket.old.call }
    ensures fits { FitsIn container.new.boot ticket.new.call }
    ensures but_entered { IsButEntered container.old container.new }
{
    'steps: for _ in answers.len()..most {
        let step = program.next(alloc, answers).expect(rt, "a step");
        match make(rt, alloc, container, ticket, step) {
            StepEnd::Done(done) => return CallEnd::Done(done),
            StepEnd::Revoked => return CallEnd::Stopped("revoked"),
            StepEnd::Sentinel => return CallEnd::Stopped("sentinel"),
            StepEnd::Answered(answer) => answers.push(answer).expect(rt, "an answer"),
        }
    }
    CallEnd::Open
}

/// Begins a call of the request of this number.
fn begin(
    rt: &impl Abort,
    alloc: Global,
    container: &mut Container<MapKeeper>,
    serial: u64,
) -> Ticket
    ensures fits { FitsIn container.new.boot result.call }
    ensures same { container.new ≡ container.old }
{
    let request = RequestNo { boot: 1, serial };
    container
        .begin(alloc, request, WorkerNo(4))
        .expect(rt, "a call")
}

/// The entry of an action and its answer.
fn entry_of(
    rt: &impl Abort,
    alloc: Global,
    program: &ActionProgram,
    done: DoneText,
) -> ActionEntry {
    ActionEntry {
        text: action_text(alloc, program.call()).expect(rt, "a text"),
        done,
    }
}

fn cause_word(rt: &impl Abort, cause: CommitRefusal) -> &'static str {
    match cause {
        CommitRefusal::Revoked(_) => "revoked",
        CommitRefusal::Conflict(_) => "conflict",
        _ => panic!(rt; "another cause"),
    }
}

/// Commits a call that is done, and says what came of it.
fn commit(
    rt: &impl Abort,
    alloc: Global,
    container: &mut Container<MapKeeper>,
    ticket: Ticket,
    program: &ActionProgram,
    done: DoneText,
) -> &'static str
    requires { FitsIn container.old.boot ticket.call }
    ensures { HasGrownBy container.old container.new }
{
    let entry = entry_of(rt, alloc, program, done);
    match container.commit(alloc, ticket, Some(entry)) {
        Ok(_) => "committed",
        Err(refused) => cause_word(rt, refused.cause),
    }
}

/// The answer of a call that is done.
fn done_of(rt: &impl Abort, end: CallEnd, words: &str) -> DoneText {
    match end {
        CallEnd::Done(done) => done,
        _ => panic!(rt; "not done: {words}"),
    }
}

/// Makes the call of an action, and commits it.
fn act_alone(rt: &impl Abort, alloc: Global, container: &mut Container<MapKeeper>, words: &str)
    ensures { HasGrownBy container.old container.new }
{
    let program = program_of(rt, alloc, words);
    let serial = container.events();
    let mut ticket = begin(rt, alloc, container, serial);
    let mut answers = AnswerList::new(alloc);
    let most = MAX_ANSWERS;
    let end = make_steps(
        rt,
        alloc,
        container,
        &mut ticket,
        &program,
        &mut answers,
        most,
    );
    let done = done_of(rt, end, words);
    let answer = commit(rt, alloc, container, ticket, &program, done);
    expect_so(rt, answer == "committed", words);
}

/// Begins the reboot of a group.
fn begin_reboot(rt: &impl Abort, container: &mut Container<MapKeeper>, group: &str)
    ensures { HasGrownBy container.old container.new }
{
    let group = short_number(rt, group);
    assert!(rt; group < MAX_GROUPS);
    let answer = container.begin_reboot(Scope::Group(GroupNo(group)));
    assert!(rt; answer.is_ok());
}

/// Ends the reboot that the Down at this place began.
fn end_reboot(rt: &impl Abort, container: &mut Container<MapKeeper>, place: &str)
    ensures { HasGrownBy container.old container.new }
{
    let down = Place(number(rt, place));
    assert!(rt; container.is_undone(down));
    container.end_reboot(down);
}

/// Does what a line says: `call ..` acts, `down GROUP` begins a reboot, and `up PLACE` ends it.
fn happen(rt: &impl Abort, alloc: Global, container: &mut Container<MapKeeper>, line: &str)
    ensures { HasGrownBy container.old container.new }
{
    let (word, rest) = first_word(line);
    match word {
        "call" => act_alone(rt, alloc, container, rest),
        "down" => begin_reboot(rt, container, rest),
        _ => end_reboot(rt, container, rest),
    }
}

/// Does what a line says, while a call is held.
fn happen_beside(
    rt: &impl Abort,
    alloc: Global,
    container: &mut Container<MapKeeper>,
    held: &Ticket,
    line: &str,
)
    requires { FitsIn container.old.boot held.now.call }
    ensures { FitsIn container.new.boot held.now.call }
{
    calls_go_on_fitting();
    happen(rt, alloc, container, line);
}

/// Does what each line of a text says, while a call is held.
fn meanwhile(
    rt: &impl Abort,
    alloc: Global,
    container: &mut Container<MapKeeper>,
    held: &Ticket,
    text: &str,
)
    requires { FitsIn container.old.boot held.now.call }
    ensures { FitsIn container.new.boot held.now.call }
{
    for line in text.split(';') {
        happen_beside(rt, alloc, container, held, line);
    }
}

/// Makes a call, and does what a text says once it has made so many steps. Says what came of it.
fn act(
    rt: &impl Abort,
    alloc: Global,
    container: &mut Container<MapKeeper>,
    words: &str,
    steps: usize,
    text: &str,
) -> &'static str {
    let program = program_of(rt, alloc, words);
    let mut ticket = begin(rt, alloc, container, HELD_SERIAL);
    let mut answers = AnswerList::new(alloc);
    make_steps(
        rt,
        alloc,
        container,
        &mut ticket,
        &program,
        &mut answers,
        steps,
    );
    meanwhile(rt, alloc, container, &ticket, text);
    let most = MAX_ANSWERS;
    match make_steps(
        rt,
        alloc,
        container,
        &mut ticket,
        &program,
        &mut answers,
        most,
    ) {
        CallEnd::Done(done) => commit(rt, alloc, container, ticket, &program, done),
        CallEnd::Stopped(word) => {
            container.abandon(ticket);
            word
        }
        CallEnd::Open => panic!(rt; "no end: {words}"),
    }
}

/// Acts over rows in memory, one call after the other: those of a text, and then this one where it was committed.
fn act_in_order(
    rt: &impl Abort,
    alloc: Global,
    rows: &mut Vec<RowWrite>,
    words: &str,
    text: &str,
    committed: bool,
) {
    for line in text.split(';') {
        if let Some(call) = line.strip_prefix("call ") {
            drive(rt, alloc, &program_of(rt, alloc, call), rows);
        }
    }
    if committed {
        drive(rt, alloc, &program_of(rt, alloc, words), rows);
    }
}

/// Adds each row but those of the service's own table, as its id and its bytes.
fn add_rows(rt: &impl Abort, words: &mut String, rows: &[RowWrite]) {
    for row in rows.iter().filter(|row| row.id.table > 0) {
        add_marked(rt, words, "", u64::from(row.id.table));
        add_marked(rt, words, ".", row.id.key);
        add_part(rt, words, " ");
        add_hex(rt, words, row.bytes.as_slice());
    }
}

/// A call; how many steps it has made when what follows happens: calls of others, which are committed, and reboots, by
/// the group that goes down and by the place of the Down that ends; and what comes of the call.
///
/// Bids and purchases go through group 3, as items do. Users and feedback are group 1.
const HELD: &str = "\
3 1000 bid 1 100|5|call 4 1000 bid 2 251;down 1;up 1|committed
3 1000 bid 1 100|4|down 1;call 4 1000 buy 2;up 0|committed
3 1000 bid 1 100|0|down 3;up 0|committed
3 1000 bid 1 100|1|down 3;call 1 1000 addcategory Maps;up 0|committed
3 1000 bid 1 100|1|down 3|sentinel
3 1000 bid 1 100|2|down 3;up 0;call 4 1000 bid 2 251|revoked
3 1000 bid 1 100|5|down 3;up 0|revoked
3 1000 bid 1 100|8|call 4 1000 bid 2 251;down 0;up 1|revoked
3 1000 bid 1 100|5|call 4 1000 bid 1 100;down 1;up 1|conflict
3 1000 bid 1 100|1|call 4 1000 bid 1 100|conflict
3 1000 bid 1 100|0|call 4 1000 buy 1|conflict
3 1000 buy 1|6|call 4 1000 sell 1 5 0 1 Globe;down 4;up 1|committed
4 1000 sell 1 5 0 1 Globe|21|call 3 1000 bid 1 100;down 3;up 1|revoked
4 1000 sell 1 5 0 1 Globe|9|call 3 1000 sell 2 5 0 1 Lamp|conflict
4 1000 sell 1 5 0 1 Globe|9|call 3 1000 addcategory Maps;call 1 1000 bid 1 100;down 3;up 2|committed
0 1000 categories|3|call 1 1000 addcategory Maps|conflict
0 1000 categories|0|call 1 1000 addcategory Maps|conflict
0 1000 categories|3|call 3 1000 bid 1 100;down 3;up 1|committed
0 1000 register zoe secret|9|call 0 1000 register eve secret|conflict
0 1000 register zoe secret|9|call 3 1000 feedback 4 good Fine|committed";

fn expect_held(rt: &impl Abort, alloc: Global, row: &str) {
    let (call, rest) = cut(rt, row, '|');
    let (steps, rest) = cut(rt, rest, '|');
    let (text, want) = cut(rt, rest, '|');
    let steps: usize = steps.parse().expect(rt, row);
    let mut container = container_of(rt, alloc, SHOP);
    let answer = act(rt, alloc, &mut container, call, steps, text);
    expect_words(rt, answer, want, row);
    let mut rows = rows_of(rt, alloc, SHOP);
    act_in_order(rt, alloc, &mut rows, call, text, answer == "committed");
    let mut ordered = String::new(alloc);
    add_rows(rt, &mut ordered, &rows);
    let kept = container.into_keeper().rows(alloc).expect(rt, row);
    let mut found = String::new(alloc);
    add_rows(rt, &mut found, kept.as_slice());
    expect_so(rt, found == ordered, row);
}

/// What the keeper holds is what the committed calls leave one after the other.
#[test]
fn actions_run_over_a_container(rt: HostRuntime) {
    for row in HELD.split('\n') {
        expect_held(&rt, rt.alloc(), row);
    }
}
