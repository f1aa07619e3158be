//! What threads share in tests, and what one of them has.

ghost use Rattle.std.specs.Prelude.{◌≡◌, ◌+◌, ◌-◌, ◌<◌, ◌≤◌, ℕ, false, IfSome};
ghost use denote.Param.Send.{IsSync};
ghost use Rattle.thread_tests.specs.Hands.{IsHandOf};

use crate::notes::Notes;
use shared_words::{WordSeat, Words};
use std::alloc::Global;
use std::sync::Wait;
use std::thread::{Threads, join};
use turn_lock::{Seat, TurnLock};

/// How often each thread holds the lock.
pub const HOLDS: u32 = 100_000;

/// How often each thread draws a number.
pub const DRAWS: u32 = 10_000;

/// What threads share.
#[derive(Drop)]
pub struct Shared {
    pub lock: TurnLock<Notes>,
    pub words: Words,
}

/// What a thread has.
#[derive(Drop)]
pub struct Hand {
    pub lock: Seat<Notes>,
    pub words: WordSeat,
    /// The numbers that it drew.
    pub numbers: Vec<u64>,
}

impl Shared {
    /// A lock round no notes, words for four groups, and a hand with all parts. None where memory ran out.
    pub fn new(alloc: Global, parts: u32) -> Option<(Shared, Hand)>
        requires { 1 ≤ parts }
        ensures hand { IfSome result (λ made. IsHandOf made.0 parts made.1) }
        ensures parts { IfSome result (λ made. made.0.lock.parts ≡ parts) }
        ensures groups { IfSome result (λ made. made.0.words.groups ≡ 4) }
    {
        let Ok((lock, lock_seat)) = TurnLock::new(alloc, Notes::new(alloc), parts) else {
            return None;
        };
        let Ok((words, word_seat)) = Words::new(alloc, 4, parts) else {
            return None;
        };
        let shared = Shared { lock, words };
        let hand = Hand {
            lock: lock_seat,
            words: word_seat,
            numbers: Vec::new(alloc),
        };
        Some((shared, hand))
    }

    /// Cuts so many parts off a hand, for another thread.
    pub fn split(&self, alloc: Global, hand: &mut Hand, parts: u32) -> Hand
        requires hand { IsHandOf self.now hand.old.lock.parts hand.old }
        requires parts { (1 ≤ parts) × (parts < hand.old.lock.parts) }
        ensures left { IsHandOf self.now (hand.old.lock.parts - parts) hand.new }
        ensures cut { IsHandOf self.now parts result }
    {
        Hand {
            lock: self.lock.split(&mut hand.lock, parts),
            words: self.words.split(&mut hand.words, parts),
            numbers: Vec::new(alloc),
        }
    }

    /// Adds what another hand has.
    pub fn join(&self, hand: &mut Hand, other: Hand)
        requires hand { IsHandOf self.now hand.old.lock.parts hand.old }
        requires other { IsHandOf self.now other.lock.parts other }
        ensures { IsHandOf self.now (hand.old.lock.parts + other.lock.parts) hand.new }
    {
        let Hand {
            lock,
            words,
            numbers,
        } = other;
        self.lock.join(&mut hand.lock, lock);
        self.words.join(&mut hand.words, words);
        let _ = hand.numbers.extend_from_slice(numbers.as_slice());
    }

    /// Notes a thread in one hold.
    pub fn hold<R: Wait>(&self, rt: &R, hand: &mut Hand, who: u8)
        requires { IsHandOf self.now hand.old.lock.parts hand.old }
        ensures { IsHandOf self.now hand.old.lock.parts hand.new }
    {
        let mut notes = self.lock.take(rt, &mut hand.lock);
        notes.note(who);
        self.lock.give(&mut hand.lock, notes);
    }

    /// Draws a number, and keeps it where memory is found.
    pub fn draw(&self, hand: &mut Hand)
        requires { IsHandOf self.now hand.old.lock.parts hand.old }
        ensures { IsHandOf self.now hand.old.lock.parts hand.new }
    {
        match self.words.draw(&mut hand.words) {
            Ok(serial) => {
                let _ = hand.numbers.push(serial);
            }
            Err(_) => {}
        }
    }

    /// The notes, and the numbers of a hand that has all parts.
    pub fn close(self, hand: Hand) -> (Notes, Vec<u64>)
        requires { IsHandOf self self.lock.parts hand }
    {
        let Shared { lock, words: _ } = self;
        let Hand {
            lock: seat,
            words: _,
            numbers,
        } = hand;
        (lock.close(seat), numbers)
    }
}

/// Holds the lock often.
fn hold_often<R: Wait>(rt: &R, shared: &Shared, hand: &mut Hand, who: u8)
    requires { IsHandOf shared.now 1 hand.old }
    ensures { IsHandOf shared.now 1 hand.new }
{
    for _ in 0..HOLDS {
        shared.hold(rt, hand, who);
    }
}

/// Draws often.
fn draw_often(shared: &Shared, hand: &mut Hand)
    requires { IsHandOf shared.now 1 hand.old }
    ensures { IsHandOf shared.now 1 hand.new }
{
    for _ in 0..DRAWS {
        shared.draw(hand);
    }
}

/// What one thread does.
fn work<R: Wait>(rt: &R, shared: &Shared, mut hand: Hand, who: u8) -> Hand
    requires { IsHandOf shared.now 1 hand }
    ensures { IsHandOf shared.now 1 result }
{
    hold_often(rt, shared, &mut hand, who);
    draw_often(shared, &mut hand);
    hand
}

/// Two threads at work.
fn two<R: Threads + Wait + Sync>(
    rt: &R,
    alloc: Global,
    shared: &Shared,
    mut hand: Hand,
    who: u8,
) -> Hand
    requires who { who ≤ 6 }
    requires hand { IsHandOf shared.now 2 hand }
    ensures { IsHandOf shared.now 2 result }
{
    let other = shared.split(alloc, &mut hand, 1);
    let (mut hand, other) = join(
        rt,
        move || -> Hand
            requires sync { IsSync R.row }
            requires hand { IsHandOf shared.now 1 hand }
            ensures { IsHandOf shared.entry.now 1 result }
        { work(rt, shared, hand, who) },
        move || -> Hand
            requires sync { IsSync R.row }
            requires who { who ≤ 6 }
            requires hand { IsHandOf shared.now 1 other }
            ensures { IsHandOf shared.entry.now 1 result }
        { work(rt, shared, other, who + 1) },
    );
    shared.join(&mut hand, other);
    hand
}

/// Four threads at work.
fn four<R: Threads + Wait + Sync>(
    rt: &R,
    alloc: Global,
    shared: &Shared,
    mut hand: Hand,
    who: u8,
) -> Hand
    requires who { who ≤ 4 }
    requires hand { IsHandOf shared.now 4 hand }
    ensures { IsHandOf shared.now 4 result }
{
    let other = shared.split(alloc, &mut hand, 2);
    let (mut hand, other) = join(
        rt,
        move || -> Hand
            requires sync { IsSync R.row }
            requires who { who ≤ 4 }
            requires hand { IsHandOf shared.now 2 hand }
            ensures { IsHandOf shared.entry.now 2 result }
        { two(rt, alloc, shared, hand, who) },
        move || -> Hand
            requires sync { IsSync R.row }
            requires who { who ≤ 4 }
            requires hand { IsHandOf shared.now 2 other }
            ensures { IsHandOf shared.entry.now 2 result }
        { two(rt, alloc, shared, other, who + 2) },
    );
    shared.join(&mut hand, other);
    hand
}

/// Eight threads at work, of numbers 0 to 7.
pub fn eight<R: Threads + Wait + Sync>(
    rt: &R,
    alloc: Global,
    shared: &Shared,
    mut hand: Hand,
) -> Hand
    requires { IsHandOf shared.now 8 hand }
    ensures { IsHandOf shared.now 8 result }
{
    let other = shared.split(alloc, &mut hand, 4);
    let (mut hand, other) = join(
        rt,
        move || -> Hand
            requires sync { IsSync R.row }
            requires hand { IsHandOf shared.now 4 hand }
            ensures { IsHandOf shared.entry.now 4 result }
        { four(rt, alloc, shared, hand, 0) },
        move || -> Hand
            requires sync { IsSync R.row }
            requires hand { IsHandOf shared.now 4 other }
            ensures { IsHandOf shared.entry.now 4 result }
        { four(rt, alloc, shared, other, 4) },
    );
    shared.join(&mut hand, other);
    hand
}
