//! The steps of the table, each with what it tells.

ghost use Rattle.std.specs.Prelude.{◌≡◌, ℕ, ◌+◌, ◌-◌, ◌%◌, ◌^◌, ◌<◌, ◌≤◌, List, [], ◌∷◌, ◌++◌, IfOk, IfErr, Some, None, IsTrue, false, length};
ghost use mathlib.Core.List.{IsPrefix};
ghost use Rattle.turn_lock.specs.Turns.{Comes, longer, shorter};
ghost use Rattle.turn_lock.specs.Seats.{new_places};
ghost use Rattle.turn_lock.specs.declared.view.Stage.{Stage};

use crate::chronicle::Chronicle;
use crate::plays::{Comparing, Count, Cut, Drawing, Giving, Looking, Sum};
use crate::view::{About, TurnRule, View};
use atomic_table::{Refused, Seat, Table};
use std::alloc::Global;
use std::marker::Brand;
use std::snapshot::Snapshot;

/// The word from which tickets are drawn.
const DRAWN: usize = 0;

/// The word with the ticket that is served.
pub const SERVING: usize = 1;

/// The table of a lock.
pub type Turns<T> = Table<Option<T>, View<<T as Chronicle>::Event>, About<T>, TurnRule<T>, Global>;

/// A seat of the table.
pub type TurnSeat<T> = Seat<Option<T>, View<<T as Chronicle>::Event>>;

/// Draws a ticket.
pub fn draw<T: Chronicle>(table: &Turns<T>, seat: &mut TurnSeat<T>) -> u64
    requires table { (seat.old.table_id ≡ table.now.shared.table_id) × (table.now.shared.table_id.words ≡ 2)
        × (table.now.shared.table_id.slots ≡ 1) }
    requires idle { (seat.old.me.0.stage ≡ Stage.Idle) × (0 < seat.old.me.0.parts) }
    ensures table { (seat.new.table_id ≡ table.now.shared.table_id) × (seat.new.me.1 ≡ seat.old.me.1) }
    ensures drawn { (seat.new.me.0.stage ≡ Stage.Waiting) × (result ≡ seat.new.me.0.ticket % 2 ^ 64) }
    ensures same { (seat.new.me.0.seen ≡ seat.old.me.0.seen) × (seat.new.me.0.own ≡ seat.old.me.0.own)
        × (seat.new.me.0.parts ≡ seat.old.me.0.parts) }
{
    table.shared.fetch_add::<Drawing<T>>(seat, DRAWN, 1)
}

/// Whether it is the turn of the seat's ticket. Then the value is out with the seat.
pub fn look<T: Chronicle>(table: &Turns<T>, seat: &mut TurnSeat<T>, ticket: u64) -> bool
    requires table { (seat.old.table_id ≡ table.now.shared.table_id) × (table.now.shared.table_id.words ≡ 2)
        × (table.now.shared.table_id.slots ≡ 1) }
    requires waits { (seat.old.me.0.stage ≡ Stage.Waiting) × (ticket ≡ seat.old.me.0.ticket % 2 ^ 64) }
    ensures table { seat.new.table_id ≡ table.now.shared.table_id }
    ensures comes { IsTrue result → Comes T.events seat.old.me seat.new.me }
    ensures waits { (result ≡ false) → seat.new.me ≡ seat.old.me }
{
    table.shared.load::<Looking<T>>(seat, SERVING) == ticket
}

/// The value, once it is out with the seat.
pub fn take_out<T: Chronicle>(table: &Turns<T>, seat: &mut TurnSeat<T>) -> T
    requires table { seat.old.table_id ≡ table.now.shared.table_id }
    requires out { (x : T) × (seat.old.me.1 ≡ (0, Some x) ∷ []) }
    ensures table { seat.new.table_id ≡ table.now.shared.table_id }
    ensures value { seat.old.me.1 ≡ (0, Some result) ∷ [] }
    ensures out { (seat.new.me.0 ≡ seat.old.me.0) × (seat.new.me.1 ≡ (0, None) ∷ []) }
{
    match table.shared.exchange(seat, 0, None) {
        Some(value) => value,
        None => unreachable!(),
    }
}

/// Gives the value back, and serves the next ticket.
pub fn hand_in<T: Chronicle>(table: &Turns<T>, seat: &mut TurnSeat<T>, value: T) -> u64
    requires table { (seat.old.table_id ≡ table.now.shared.table_id) × (table.now.shared.table_id.words ≡ 2)
        × (table.now.shared.table_id.slots ≡ 1) }
    requires out { (seat.old.me.0.stage ≡ Stage.Holding) × (seat.old.me.1 ≡ (0, None) ∷ []) }
    requires grows { IsPrefix seat.old.me.0.seen (T.events value) }
    ensures table { seat.new.table_id ≡ table.now.shared.table_id }
    ensures home { (seat.new.me.0.stage ≡ Stage.Idle) × (seat.new.me.1 ≡ []) }
    ensures parts { seat.new.me.0.parts ≡ seat.old.me.0.parts }
    ensures seen { seat.new.me.0.seen ≡ T.events value }
    ensures own { seat.new.me.0.own ≡ seat.old.me.0.own ++ new_places seat.old.me.0.seen (T.events value) }
{
    match table.shared.exchange(seat, 0, Some(value)) {
        Some(_) => unreachable!(),
        None => {}
    }
    table.shared.fetch_add::<Giving<T>>(seat, SERVING, 1)
}

/// A new table round a value. Its first seat has all parts, and has seen the value's events.
pub fn make<T: Chronicle>(alloc: Global, value: T, parts: u32) -> Result<(Turns<T>, TurnSeat<T>), T>
    requires { 1 ≤ parts }
    ensures table { IfOk result (λ t. (t.1.table_id ≡ t.0.shared.table_id) × (t.0.shared.table_id.words ≡ 2)
        × (t.0.shared.table_id.slots ≡ 1) × (t.0.shared.key.parts ≡ parts)) }
    ensures seat { IfOk result (λ t. (t.1.me.0.parts ≡ parts) × (t.1.me.0.stage ≡ Stage.Idle)
        × (t.1.me.0.seen ≡ T.events value) × (t.1.me.0.own ≡ []) × (t.1.me.1 ≡ [])) }
    ensures back { IfErr result (λ given. given ≡ value) }
{
    let about = About {
        parts,
        start: Snapshot::of(&value),
    };
    let mut slots = Vec::new(alloc);
    if let Err(failed) = slots.push(Some(value)) {
        slots.destroy_empty();
        let About { parts: _, start: _ } = about;
        return match failed.value {
            Some(value) => Err(value),
            None => unreachable!(),
        };
    }
    match Table::new(alloc, &[0, 0], slots, &about) {
        Ok(made) => {
            let About { parts: _, start: _ } = about;
            Ok(made)
        }
        Err(refused) => {
            let About { parts: _, start: _ } = about;
            let Refused { mut slots } = refused;
            let last = slots.pop();
            slots.destroy_empty();
            match last {
                Some(Some(value)) => Err(value),
                _ => unreachable!(),
            }
        }
    }
}

/// Cuts off as many parts as its parameter says.
fn split_by<T: Chronicle, C: Count>(
    table: &Turns<T>,
    seat: &mut TurnSeat<T>,
    parts: u32,
) -> TurnSeat<T>
    requires count { parts ≡ C.count }
    requires table { (seat.old.table_id ≡ table.now.shared.table_id) × (table.now.shared.table_id.words ≡ 2) }
    requires parts { (seat.old.me.0.stage ≡ Stage.Idle) × (0 < parts) × (parts < seat.old.me.0.parts) }
    ensures table { (seat.new.table_id ≡ table.now.shared.table_id)
        × (result.table_id ≡ table.now.shared.table_id) }
    ensures seen { (result.me.0.seen ≡ seat.old.me.0.seen) × (result.me.0.own ≡ [])
        × (seat.new.me.0.seen ≡ seat.old.me.0.seen) × (seat.new.me.0.own ≡ seat.old.me.0.own) }
    ensures parts { (result.me.0.parts ≡ parts) × (seat.new.me.0.parts + parts ≡ seat.old.me.0.parts) }
    ensures idle { (result.me.0.stage ≡ Stage.Idle) × (seat.new.me.0.stage ≡ Stage.Idle) × (result.me.1 ≡ [])
        × (seat.new.me.1 ≡ seat.old.me.1) }
{
    let _ = parts;
    table.shared.split_seat::<Cut<C>>(seat)
}

/// Cuts that many parts off.
pub fn split<T: Chronicle>(table: &Turns<T>, seat: &mut TurnSeat<T>, parts: u32) -> TurnSeat<T>
    requires table { (seat.old.table_id ≡ table.now.shared.table_id) × (table.now.shared.table_id.words ≡ 2) }
    requires parts { (seat.old.me.0.stage ≡ Stage.Idle) × (0 < parts) × (parts < seat.old.me.0.parts) }
    ensures table { (seat.new.table_id ≡ table.now.shared.table_id)
        × (result.table_id ≡ table.now.shared.table_id) }
    ensures seen { (result.me.0.seen ≡ seat.old.me.0.seen) × (result.me.0.own ≡ [])
        × (seat.new.me.0.seen ≡ seat.old.me.0.seen) × (seat.new.me.0.own ≡ seat.old.me.0.own) }
    ensures parts { (result.me.0.parts ≡ parts) × (seat.new.me.0.parts + parts ≡ seat.old.me.0.parts) }
    ensures idle { (result.me.0.stage ≡ Stage.Idle) × (seat.new.me.0.stage ≡ Stage.Idle) × (result.me.1 ≡ [])
        × (seat.new.me.1 ≡ seat.old.me.1) }
{
    split_by::<T, Brand>(table, seat, parts)
}

/// Adds the other's parts. What was seen is the longer of both, which begins with the shorter: one more look at the
/// served ticket says so.
pub fn join_seats<T: Chronicle>(table: &Turns<T>, seat: &mut TurnSeat<T>, other: TurnSeat<T>)
    requires table { (seat.old.table_id ≡ table.now.shared.table_id) × (other.table_id ≡ table.now.shared.table_id)
        × (table.now.shared.table_id.words ≡ 2) × (table.now.shared.table_id.slots ≡ 1) }
    requires idle { (seat.old.me.0.stage ≡ Stage.Idle) × (seat.old.me.1 ≡ []) × (other.me.0.stage ≡ Stage.Idle)
        × (other.me.1 ≡ []) }
    ensures table { seat.new.table_id ≡ table.now.shared.table_id }
    ensures idle { (seat.new.me.0.stage ≡ Stage.Idle) × (seat.new.me.1 ≡ []) }
    ensures parts { seat.new.me.0.parts ≡ seat.old.me.0.parts + other.me.0.parts }
    ensures own { seat.new.me.0.own ≡ seat.old.me.0.own ++ other.me.0.own }
    ensures longer { seat.new.me.0.seen ≡ longer seat.old.me.0.seen other.me.0.seen }
    ensures shorter { IsPrefix (shorter seat.old.me.0.seen other.me.0.seen)
        (longer seat.old.me.0.seen other.me.0.seen) }
{
    table.shared.join_seat::<Sum>(seat, other);
    let _ = table.shared.load::<Comparing<T>>(seat, SERVING);
}

/// The value, once a seat has all parts again.
pub fn close<T: Chronicle>(table: Turns<T>, seat: TurnSeat<T>) -> T
    requires table { (seat.table_id ≡ table.shared.table_id) × (table.shared.table_id.words ≡ 2)
        × (table.shared.table_id.slots ≡ 1) }
    requires whole { (seat.me.0.stage ≡ Stage.Idle) × (seat.me.0.parts ≡ table.shared.key.parts) }
    ensures { T.events result ≡ seat.me.0.seen }
{
    let mut closed = table.close_with(seat);
    let last = closed.take(0);
    closed.free();
    match last {
        Some(value) => value,
        None => unreachable!(),
    }
}
