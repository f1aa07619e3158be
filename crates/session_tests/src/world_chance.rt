//! Lists of events by chance: whatever they are, a read answers what was written, or says why it does not.

use crate::words::expect_so;
use crash_base::{BrickNo, Items, Moment, SessionBytes, SessionKey, Version};
use session_cookie::{Cookie, Holder};
use ssm_stub::{BrickCause, BrickList, Cause, ReadRefusal, StubNext};
use ssm_world::{World, WorldEvent};
use std::alloc::Global;
use std::process::Abort;

/// How many worlds there are, and how many events happen in each.
const WORLDS: u64 = 1000;

const EVENTS: u64 = 2000;

/// A number that is below 2^16.
fn small(number: u64) -> u16 {
    u16::try_from(number).unwrap_or(0)
}

/// Numbers that look random.
#[derive(Clone, Copy)]
pub struct Dice {
    pub state: u64,
}

impl Dice {
    /// A number below `end`, or 0 where that is 0.
    pub fn below(&mut self, end: u64) -> u64 {
        self.state = self
            .state
            .wrapping_mul(6_364_136_223_846_793_005)
            .wrapping_add(1_442_695_040_888_963_407);
        (self.state >> 33).checked_rem(end).unwrap_or(0)
    }

    /// A number below `end`, mostly one of the last few.
    fn late(&mut self, end: u64) -> u64 {
        if self.below(4) == 0 {
            return self.below(end);
        }
        end.saturating_sub(self.below(8).saturating_add(1))
    }

    fn brick(&mut self) -> BrickNo {
        BrickNo(small(self.below(3).saturating_add(1)))
    }
}

/// What is known of a call: of a write its value, which is the number of its nonce, and the bricks that it
/// asks, of which `least` are to store; of a read the value that its cookie was acknowledged with, the moment
/// and the holders. And by each brick's number how often the link was silent to the call and how many strays
/// the call was given of the brick, and the incarnation in which the brick made the reply that the call was
/// given, or 0.
#[derive(Drop)]
struct Known {
    value: u64,
    moment: u64,
    expiry: u64,
    least: u64,
    bricks: BrickList,
    holders: Vec<Holder>,
    silences: [u64; 4],
    strays: [u64; 4],
    replied: [u64; 4],
    is_read: bool,
    is_told: bool,
}

/// A packet: the call whose ask it is or replies to, its brick, whether it is the ask, and of a reply the
/// incarnation in which the brick made it.
#[derive(Clone, Copy)]
struct Sent {
    call: u64,
    brick: BrickNo,
    incarnation: u64,
    is_ask: bool,
}

/// A world with what is known of it: its calls, those of them that were acknowledged, its packets,
/// how often each brick crashed and the latest moment that it was swept at, and the answers of reads.
#[derive(Drop)]
struct Game {
    world: World,
    calls: Vec<Known>,
    acknowledged: Vec<u64>,
    packets: Vec<Sent>,
    crashes: [u64; 4],
    swept: [u64; 4],
}

/// How many reads found a value, had expired, and were lost, and how many causes were Strayed.
#[derive(Clone, Copy)]
struct Answers {
    found: u64,
    expired: u64,
    lost: u64,
    strayed: u64,
}

fn version(serial: u64) -> Version {
    Version {
        node: 1,
        boot: 1,
        serial,
    }
}

/// The bytes of a value, which is a number.
fn bytes_of(rt: &impl Abort, alloc: Global, value: u64) -> SessionBytes {
    let bytes = value.to_be_bytes();
    SessionBytes::from_vec(Vec::from_slice(alloc, &bytes).expect(rt, "a value"))
}

fn copied_holders(rt: &impl Abort, alloc: Global, holders: &[Holder]) -> Vec<Holder> {
    Vec::from_slice(alloc, holders).expect(rt, "holders")
}

/// So many bricks, from this one on.
fn bricks_from(rt: &impl Abort, alloc: Global, first: u64, count: u64) -> BrickList {
    let mut bricks = Items::new(alloc);
    for more in 0..count {
        let number = first.wrapping_add(more) % 3;
        bricks.push(BrickNo(small(number + 1))).expect(rt, "bricks");
    }
    bricks
}

/// A write of a new value, by chance with a nonce that was used.
fn write(rt: &impl Abort, alloc: Global, dice: &mut Dice, game: &mut Game) -> WorldEvent {
    let value = game.calls.len() as u64;
    let serial = if dice.below(50) == 0 {
        dice.below(value)
    } else {
        value
    };
    let expiry = dice.below(2000);
    let count = dice.below(3).saturating_add(1);
    let first = dice.below(3);
    let least = dice.below(count).saturating_add(1);
    if serial == value {
        let write = Known {
            value,
            moment: 0,
            expiry,
            least,
            bricks: bricks_from(rt, alloc, first, count),
            holders: Vec::new(alloc),
            silences: [0; 4],
            strays: [0; 4],
            replied: [0; 4],
            is_read: false,
            is_told: false,
        };
        game.calls.push(write).expect(rt, "calls");
    }
    WorldEvent::Write {
        nonce: version(serial),
        key: SessionKey([dice.below(3).to_be_bytes()[7]; 16]),
        value: bytes_of(rt, alloc, value),
        expiry: Moment(expiry),
        bricks: bricks_from(rt, alloc, first, count),
        least: small(least),
    }
}

/// The cookie that a write answered.
fn cookie_of(rt: &impl Abort, alloc: Global, game: &Game, call: u64) -> Cookie {
    let write = game.world.write_of(call).expect(rt, "a write");
    match write.answer() {
        Some(Ok(cookie)) => Cookie {
            key: cookie.key,
            version: cookie.version,
            expiry: cookie.expiry,
            bricks: Items::from_vec(copied_holders(rt, alloc, cookie.bricks.as_slice())),
        },
        _ => panic!(rt; "no cookie"),
    }
}

/// A read of a cookie that was acknowledged, if there is one.
fn read(rt: &impl Abort, alloc: Global, dice: &mut Dice, game: &mut Game) -> Option<WorldEvent> {
    let at = dice.late(game.acknowledged.len() as u64);
    let call = *game.acknowledged.get(at as usize)?;
    let cookie = cookie_of(rt, alloc, game, call);
    let moment = dice.below(1500);
    let value = game.calls.get(call as usize).expect(rt, "a write").value;
    let serial = game.calls.len() as u64;
    let read = Known {
        value,
        moment,
        expiry: cookie.expiry.0,
        least: 0,
        bricks: Items::new(alloc),
        holders: copied_holders(rt, alloc, cookie.bricks.as_slice()),
        silences: [0; 4],
        strays: [0; 4],
        replied: [0; 4],
        is_read: true,
        is_told: false,
    };
    game.calls.push(read).expect(rt, "calls");
    Some(WorldEvent::Read {
        nonce: version(serial),
        now: Moment(moment),
        cookie,
    })
}

/// What was counted of a brick.
fn count_of(rt: &impl Abort, counts: &[u64; 4], brick: BrickNo) -> u64 {
    *counts.get(brick.0 as usize).expect(rt, "a brick")
}

/// Counts one more of a brick.
fn count(counts: &mut [u64; 4], brick: BrickNo) {
    if let Some(count) = counts.get_mut(brick.0 as usize) {
        *count = count.saturating_add(1);
    }
}

/// The link is silent to a call that sends to a brick or receives from it.
fn count_silence(game: &mut Game, call: u64, brick: BrickNo) {
    if let Some(known) = game.calls.get_mut(call as usize) {
        count(&mut known.silences, brick);
    }
}

/// A send, which meets silence by chance.
fn send(rt: &impl Abort, dice: &mut Dice, game: &mut Game) -> WorldEvent {
    let call = dice.late(game.calls.len() as u64);
    let silent = dice.below(12) == 0;
    let sent = dice.below(2) == 0;
    if let Some(StubNext::Send { brick }) = game.world.next_of(call) {
        if silent {
            count_silence(game, call, brick);
        }
        if sent || !silent {
            let ask = Sent {
                call,
                brick,
                incarnation: 0,
                is_ask: true,
            };
            game.packets.push(ask).expect(rt, "packets");
        }
    }
    WorldEvent::Send { call, silent, sent }
}

/// The link is silent to a call's receiving, if it is to receive.
fn hush(dice: &mut Dice, game: &mut Game) -> WorldEvent {
    let call = dice.late(game.calls.len() as u64);
    if let Some(StubNext::Receive { brick }) = game.world.next_of(call) {
        count_silence(game, call, brick);
    }
    WorldEvent::Hush { call }
}

/// A delivery: where the packet is an ask, its brick replies.
fn deliver(rt: &impl Abort, dice: &mut Dice, game: &mut Game) -> WorldEvent {
    let packet = dice.late(game.packets.len() as u64);
    if let Some(sent) = game.packets.get(packet as usize).copied() {
        if sent.is_ask {
            let crashes = count_of(rt, &game.crashes, sent.brick);
            let reply = Sent {
                call: sent.call,
                brick: sent.brick,
                incarnation: crashes.saturating_add(1),
                is_ask: false,
            };
            game.packets.push(reply).expect(rt, "packets");
        }
    }
    WorldEvent::Deliver { packet }
}

/// The packet, if it is a reply of the brick that a call receives from.
fn reply_for(game: &Game, call: u64, packet: u64) -> Option<Sent> {
    let sent = *game.packets.get(packet as usize)?;
    match game.world.next_of(call) {
        Some(StubNext::Receive { brick }) if brick.0 == sent.brick.0 && !sent.is_ask => Some(sent),
        _ => None,
    }
}

/// Notes that a packet comes to a call: a reply to another call is a stray.
fn note_heard(game: &mut Game, call: u64, packet: u64) {
    let Some(sent) = reply_for(game, call, packet) else {
        return;
    };
    let Some(known) = game.calls.get_mut(call as usize) else {
        return;
    };
    if sent.call != call {
        count(&mut known.strays, sent.brick);
    } else if let Some(replied) = known.replied.get_mut(sent.brick.0 as usize) {
        *replied = sent.incarnation;
    }
}

/// A packet comes to a call: mostly to the one that it is a reply to.
fn hear(dice: &mut Dice, game: &mut Game) -> WorldEvent {
    let packet = dice.late(game.packets.len() as u64);
    let call = match game.packets.get(packet as usize) {
        Some(sent) if dice.below(8) > 0 => sent.call,
        _ => dice.late(game.calls.len() as u64),
    };
    note_heard(game, call, packet);
    WorldEvent::Hear { call, packet }
}

/// A packet comes to a call 64 times, if it is a stray for the call.
fn flood(rt: &impl Abort, alloc: Global, dice: &mut Dice, game: &mut Game) {
    let call = dice.late(game.calls.len() as u64);
    let packet = dice.late(game.packets.len() as u64);
    match reply_for(game, call, packet) {
        Some(sent) if sent.call != call => {}
        _ => return,
    }
    let event = WorldEvent::Hear { call, packet };
    for _ in 0..64 {
        note_heard(game, call, packet);
        game.world.step(alloc, &event).expect(rt, "memory");
    }
}

/// A crash or a sweep, which is counted.
fn harm(dice: &mut Dice, game: &mut Game) -> WorldEvent {
    let brick = dice.brick();
    if dice.below(2) == 0 {
        count(&mut game.crashes, brick);
        return WorldEvent::Crash { brick };
    }
    let moment = dice.below(63_000);
    if let Some(swept) = game.swept.get_mut(brick.0 as usize) {
        *swept = (*swept).max(moment);
    }
    WorldEvent::Sweep {
        brick,
        moment: Moment(moment),
    }
}

/// The next event, if it has what it needs.
fn event(rt: &impl Abort, alloc: Global, dice: &mut Dice, game: &mut Game) -> Option<WorldEvent> {
    match dice.below(100) {
        0..=7 => Some(write(rt, alloc, dice, game)),
        8..=15 => read(rt, alloc, dice, game),
        16..=39 => Some(send(rt, dice, game)),
        40..=64 => Some(deliver(rt, dice, game)),
        65..=94 => Some(hear(dice, game)),
        95..=97 => Some(hush(dice, game)),
        _ => Some(harm(dice, game)),
    }
}

/// The cause of a holder is right by what happened to its brick, and by what came of it to the read.
fn expect_cause(rt: &impl Abort, game: &Game, read: &Known, holder: &Holder, cause: &BrickCause) {
    let brick = holder.brick;
    expect_so(rt, cause.brick.0 == brick.0, "the brick of a cause");
    match cause.cause {
        Cause::Silent => expect_so(
            rt,
            count_of(rt, &read.silences, brick) > 0,
            "a silent brick",
        ),
        Cause::Strayed => expect_so(
            rt,
            count_of(rt, &read.strays, brick) >= 64,
            "strays of a brick",
        ),
        Cause::Full { .. } => panic!(rt; "a read was told that a brick is full"),
        Cause::Crashed { incarnation } => {
            expect_so(rt, holder.incarnation < incarnation, "a later incarnation");
            expect_so(
                rt,
                incarnation == count_of(rt, &read.replied, brick),
                "the incarnation of a reply",
            );
        }
        Cause::Swept { moment } => {
            expect_so(rt, moment.0 <= count_of(rt, &game.swept, brick), "a sweep");
            expect_so(
                rt,
                moment.0 > read.expiry.saturating_add(60_000),
                "a value past its grace",
            );
        }
    }
}

/// How many of these causes are Strayed.
fn strayed_among(causes: &[BrickCause]) -> u64 {
    let mut strayed: u64 = 0;
    for cause in causes {
        if matches!(cause.cause, Cause::Strayed) {
            strayed = strayed.saturating_add(1);
        }
    }
    strayed
}

/// A read's answer is right, where it has one.
fn expect_answer(
    rt: &impl Abort,
    game: &Game,
    read: &Known,
    call: u64,
    answers: &mut Answers,
) -> bool {
    let told = game.world.read_of(call).expect(rt, "a read");
    match told.answer() {
        None => return false,
        Some(Ok(value)) => {
            let is_same = value.as_slice() == read.value.to_be_bytes().as_slice();
            expect_so(rt, is_same, "the value");
            expect_so(rt, read.moment <= read.expiry, "a read in time");
            answers.found = answers.found.saturating_add(1);
        }
        Some(Err(ReadRefusal::Expired { now, expiry })) => {
            expect_so(
                rt,
                now.0 == read.moment && expiry.0 == read.expiry && expiry.0 < now.0,
                "a read past the expiry",
            );
            answers.expired = answers.expired.saturating_add(1);
        }
        Some(Err(ReadRefusal::Lost(causes))) => {
            expect_so(rt, read.moment <= read.expiry, "a read in time");
            let is_whole = causes.as_slice().len() == read.holders.len();
            expect_so(rt, is_whole, "a cause of each holder");
            for (holder, cause) in read.holders.iter().zip(causes.as_slice()) {
                expect_cause(rt, game, read, holder, cause);
            }
            answers.lost = answers.lost.saturating_add(1);
            let strayed = strayed_among(causes.as_slice());
            answers.strayed = answers.strayed.saturating_add(strayed);
        }
        Some(Err(ReadRefusal::OutOfMemory)) => panic!(rt; "memory"),
    }
    true
}

/// A cookie is right by what its write was told: it names the first `least` of the write's bricks, in asked
/// order, that stored the value, and in which incarnations.
fn expect_cookie(rt: &impl Abort, write: &Known, cookie: &Cookie) {
    let holders = cookie.bricks.as_slice();
    let mut named: u64 = 0;
    for brick in write.bricks.as_slice() {
        let incarnation = count_of(rt, &write.replied, *brick);
        if incarnation > 0 && named < write.least {
            let holder = holders.get(named as usize).expect(rt, "a holder");
            expect_so(rt, holder.brick.0 == brick.0, "the brick of a holder");
            expect_so(
                rt,
                holder.incarnation == incarnation,
                "the incarnation of a holder",
            );
            named = named.saturating_add(1);
        }
    }
    expect_so(rt, named == write.least, "the named bricks");
    expect_so(rt, holders.len() as u64 == write.least, "the holders");
    expect_so(rt, cookie.version.serial == write.value, "the version");
    expect_so(rt, cookie.expiry.0 == write.expiry, "the expiry");
}

/// Whether a call has answered that had not before; of a write, whether it is acknowledged. A read's answer
/// and a write's cookie are right.
fn has_answered(rt: &impl Abort, game: &Game, call: u64, answers: &mut Answers) -> bool {
    let known = game.calls.get(call as usize).expect(rt, "a call");
    if known.is_told {
        return false;
    }
    if known.is_read {
        return expect_answer(rt, game, known, call, answers);
    }
    let write = game.world.write_of(call).expect(rt, "a write");
    match write.answer() {
        Some(Ok(cookie)) => {
            expect_cookie(rt, known, cookie);
            true
        }
        _ => false,
    }
}

/// A call has answered: a write is acknowledged by it.
fn mark_told(rt: &impl Abort, game: &mut Game, call: u64) {
    let known = game.calls.get_mut(call as usize).expect(rt, "a call");
    known.is_told = true;
    if !known.is_read {
        game.acknowledged.push(call).expect(rt, "writes");
    }
}

/// Looks at each call that may have answered since.
fn look(rt: &impl Abort, game: &mut Game, answers: &mut Answers) {
    let calls = game.calls.len() as u64;
    for call in 0..calls {
        if has_answered(rt, game, call, answers) {
            mark_told(rt, game, call);
        }
    }
}

/// A world of three bricks through its events.
fn play(rt: &impl Abort, alloc: Global, dice: &mut Dice, answers: &mut Answers) {
    let mut game = Game {
        world: World::new(alloc, 3).expect(rt, "a world"),
        calls: Vec::new(alloc),
        acknowledged: Vec::new(alloc),
        packets: Vec::new(alloc),
        crashes: [0; 4],
        swept: [0; 4],
    };
    for number in 0..EVENTS {
        if let Some(event) = event(rt, alloc, dice, &mut game) {
            game.world.step(alloc, &event).expect(rt, "memory");
            drop(event);
        }
        if number % 20 == 19 {
            look(rt, &mut game, answers);
            flood(rt, alloc, dice, &mut game);
        }
    }
    expect_so(
        rt,
        game.world.packets() == game.packets.len() as u64,
        "packets",
    );
    expect_so(rt, game.world.calls() == game.calls.len() as u64, "calls");
    drop(game);
}

#[test]
fn reads_answer_what_was_written(rt: HostRuntime) {
    let mut dice = Dice { state: 20_260_711 };
    let mut answers = Answers {
        found: 0,
        expired: 0,
        lost: 0,
        strayed: 0,
    };
    for _ in 0..WORLDS {
        play(&rt, rt.alloc(), &mut dice, &mut answers);
    }
    expect_so(
        &rt,
        answers.found > WORLDS && answers.expired > WORLDS && answers.lost > WORLDS,
        "answers",
    );
    expect_so(&rt, answers.strayed > WORLDS, "strays");
}
