//! The lock.

ghost use Rattle.std.specs.Prelude.{◌≡◌, ℕ, ◌+◌, ◌-◌, ◌<◌, ◌≤◌, ◌⊎◌, [], ◌∷◌, ◌++◌, None, length, true, false, IfOk, IfErr};
ghost use mathlib.Core.List.{IsPrefix};
ghost use Rattle.turn_lock.specs.Seats.{new_places};
ghost use Rattle.turn_lock.specs.Turns.{longer};
ghost use Rattle.turn_lock.specs.declared.view.Stage.{Stage};

use crate::chronicle::Chronicle;
use crate::gate::Gate;
use crate::seat::Seat;
use crate::steps::{
    SERVING, TurnSeat, Turns, close, draw, hand_in, join_seats, look, make, split, take_out,
};
use crossbeam_utils::CachePadded;
use std::alloc::Global;
use std::hint::spin_loop;
use std::marker::Model;
use std::sync::Wait;
use std::sync::atomic::{AtomicU64, Ordering};

/// How often a thread with a ticket looks for its turn before it sleeps.
const LOOKS: u32 = 1000;

/// A lock round a value with a history.
#[derive(Drop)]
pub struct TurnLock<T: Chronicle + Drop> {
    /// What the lock promises is the rule of this table.
    table: Turns<T>,
    /// This and the count of sleepers save time, and no more.
    gate: Gate,
    /// How many threads with a ticket sleep, or are about to.
    sleepers: CachePadded<AtomicU64>,
}

impl<T: Chronicle + Drop> Model for TurnLock<T> {
    ghost use Rattle.std.specs.Prelude.{◌≡◌};
    ghost use Rattle.turn_lock.specs.Seats.{LockValue};

    ghost Value = { LockValue };

    ghost view = { λ l. record { id = l.table.shared.table_id; parts = l.table.shared.key.parts } };

    ghost invariant = { λ l. (l.table.shared.table_id.words ≡ 2) × (l.table.shared.table_id.slots ≡ 1) };
}

impl<T: Chronicle + Drop> TurnLock<T> {
    /// A lock round a value, and the seat with all parts, which has seen the value's history.
    ///
    /// # Errors
    /// The value, where memory ran out.
    pub fn new(alloc: Global, value: T, parts: u32) -> Result<(TurnLock<T>, Seat<T>), T>
        requires { 1 ≤ parts }
        ensures lock { IfOk result (λ made. made.0.parts ≡ parts) }
        ensures seat { IfOk result (λ made. made.1 ≡ record {
          lock = made.0.id;
          parts = parts;
          holds = false;
          seen = T.events value;
          own = [];
        }) }
        ensures back { IfErr result (λ given. given ≡ value) }
    {
        let (table, inner) = make(alloc, value, parts)?;
        Ok((
            TurnLock {
                table,
                gate: Gate::new(),
                sleepers: CachePadded::new(AtomicU64::new(0)),
            },
            Seat { inner },
        ))
    }

    /// Waits for the value. Its history begins with all that the seat has seen. It takes no memory.
    pub fn take<W: Wait>(&self, rt: &W, seat: &mut Seat<T>) -> T
        requires seat { seat.old.lock ≡ self.now.id }
        requires home { seat.old.holds ≡ false }
        ensures seat { seat.new ≡ record (seat.old) { holds = true; seen = T.events result } }
        ensures seen { IsPrefix seat.old.seen (T.events result) }
    {
        self.take_with(rt, &mut seat.inner)
    }

    /// Draws a ticket and waits for its turn.
    fn take_with<W: Wait>(&self, rt: &W, seat: &mut TurnSeat<T>) -> T
        requires table { seat.old.table_id ≡ self.now.id }
        requires idle { (seat.old.me.0.stage ≡ Stage.Idle) × (0 < seat.old.me.0.parts) × (seat.old.me.1 ≡ []) }
        ensures table { seat.new.table_id ≡ self.now.id }
        ensures out { (seat.new.me.0.stage ≡ Stage.Holding) × (seat.new.me.1 ≡ (0, None) ∷ []) }
        ensures seen { (seat.new.me.0.seen ≡ T.events result) × IsPrefix seat.old.me.0.seen (T.events result) }
        ensures own { (seat.new.me.0.own ≡ seat.old.me.0.own) × (seat.new.me.0.parts ≡ seat.old.me.0.parts) }
    {
        self.gate.enter(rt);
        let ticket = draw(&self.table, seat);
        for _ in rt.forever() {
            if look(&self.table, seat, ticket) {
                return take_out(&self.table, seat);
            }
            self.rest(rt, ticket);
        }
        unreachable!()
    }

    /// Rests until the turn of a ticket may have come. It may return for no reason.
    fn rest<W: Wait>(&self, rt: &W, ticket: u64) {
        for _ in 0..LOOKS {
            spin_loop();
            if self.table.shared.peek(SERVING) == ticket {
                return;
            }
        }
        self.sleepers.fetch_add(1, Ordering::SeqCst);
        let served = self.table.shared.peek(SERVING);
        if served != ticket {
            self.table
                .shared
                .park(rt, SERVING, (served % (1 << 32)) as u32);
        }
        self.sleepers.fetch_sub(1, Ordering::SeqCst);
    }

    /// Gives the value back, with a history that begins with the one at `take`. The seat's own places are then those
    /// of the events that were added, besides the places that it had. It takes no memory, and waits for nobody.
    pub fn give(&self, seat: &mut Seat<T>, value: T)
        requires seat { seat.old.lock ≡ self.now.id }
        requires out { seat.old.holds ≡ true }
        requires grows { IsPrefix seat.old.seen (T.events value) }
        ensures { seat.new ≡ record (seat.old) {
          holds = false;
          seen = T.events value;
          own = seat.old.own ++ new_places seat.old.seen (T.events value);
        } }
    {
        let ticket = hand_in(&self.table, &mut seat.inner, value);
        if self.sleepers.load(Ordering::SeqCst) > 0 {
            self.table.shared.wake_all(SERVING);
        }
        self.gate.leave(ticket);
    }

    /// Cuts that many parts off. The new seat has seen as much, and has added nothing. It takes no memory, and waits
    /// for nobody.
    pub fn split(&self, seat: &mut Seat<T>, parts: u32) -> Seat<T>
        requires seat { seat.old.lock ≡ self.now.id }
        requires home { seat.old.holds ≡ false }
        requires parts { (1 ≤ parts) × (parts < seat.old.parts) }
        ensures cut { result ≡ record (seat.old) { parts = parts; own = [] } }
        ensures left { seat.new ≡ record (seat.old) { parts = seat.old.parts - parts } }
    {
        Seat {
            inner: split(&self.table, &mut seat.inner, parts),
        }
    }

    /// Adds the other's parts. What was seen is then the longer of what the two have seen, which begins with either,
    /// and the places of both are the seat's own. It takes no memory, and waits for nobody.
    #[tactic(auto, using(crate::proofs::Beginnings::mine_begins, crate::proofs::Beginnings::others_begin))]
    pub fn join(&self, seat: &mut Seat<T>, other: Seat<T>)
        requires seats { (seat.old.lock ≡ self.now.id) × (other.lock ≡ self.now.id) }
        requires home { (seat.old.holds ≡ false) × (other.holds ≡ false) }
        ensures seat { seat.new ≡ record (seat.old) {
          parts = seat.old.parts + other.parts;
          seen = longer seat.old.seen other.seen;
          own = seat.old.own ++ other.own;
        } }
        ensures begun { IsPrefix seat.old.seen seat.new.seen × IsPrefix other.seen seat.new.seen }
    {
        let Seat { inner } = other;
        join_seats(&self.table, &mut seat.inner, inner);
    }

    /// The value, where a seat has all parts. Its history is what the seat has seen. It takes no memory, and waits for
    /// nobody.
    pub fn close(self, seat: Seat<T>) -> T
        requires seat { seat.lock ≡ self.id }
        requires home { seat.holds ≡ false }
        requires whole { seat.parts ≡ self.parts }
        ensures { T.events result ≡ seat.seen }
    {
        let TurnLock {
            table,
            gate: _,
            sleepers: _,
        } = self;
        let Seat { inner } = seat;
        close(table, inner)
    }
}
