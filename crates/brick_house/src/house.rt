//! A house of bricks.

ghost use Rattle.std.specs.Prelude.{◌≡◌, ◌+◌, ◌-◌, ◌<◌, ◌≤◌, ◌++◌, [], ◌∷◌, length, map, All, true, false, IfOk, OnOk, OnErr};
ghost use Rattle.ssm_frames.specs.Requests.{is_request};
ghost use Rattle.std.specs.Vec.{vec_len, vec_capacity};
ghost use Rattle.brick_house.specs.Houses.{id_of, lock_of, seats_from, AreSplit, with_one, with_one_less, IsHome, IsReplyOf, IsReplySeen};

use crate::cell::BrickCell;
use crate::seats::HouseSeats;
use brick_store::Brick;
use crash_base::{BrickNo, OutOfMemory};
use ssm_frames::Frame;
use std::alloc::Global;
use std::marker::Model;
use std::sync::Wait;
use turn_lock::{Seat, TurnLock};

/// The most bricks that a house has.
pub const MAX_HOUSE_BRICKS: u16 = 16;

/// Bricks 1 to n of one incarnation, each under a lock of its own.
#[derive(Drop)]
pub struct BrickHouse {
    locks: Vec<TurnLock<BrickCell>>,
    incarnation: u64,
}

impl Model for BrickHouse {
    ghost use Rattle.std.specs.Prelude.{◌≤◌, length, map};
    ghost use Rattle.brick_house.specs.declared.house.TheConstants.{MAX_HOUSE_BRICKS};
    ghost use Rattle.brick_house.specs.Houses.{HouseValue, id_of};

    ghost Value = { HouseValue };

    ghost view = { λ h. record { locks = map id_of h.locks.items; incarnation = h.incarnation } };

    ghost invariant = { λ h. length h.locks.items ≤ MAX_HOUSE_BRICKS };
}

/// Locks round new bricks, with a seat of each that has all parts.
fn make(
    alloc: Global,
    bricks: u16,
    incarnation: u64,
    links: u32,
) -> Result<(Vec<TurnLock<BrickCell>>, Vec<Seat<BrickCell>>), OutOfMemory>
    requires { 1 ≤ links }
    ensures locks { IfOk result (λ made. length made.0.items ≡ bricks) }
    ensures seats { IfOk result (λ made. made.1.items ≡ seats_from incarnation links 1 (map id_of made.0.items)) }
{
    let mut locks: Vec<TurnLock<BrickCell>> = Vec::with_capacity(alloc, bricks as usize)?;
    let mut seats: Vec<Seat<BrickCell>> = Vec::with_capacity(alloc, bricks as usize)?;
    for at in 0..bricks {
        let inner = Brick::new(alloc, BrickNo(at + 1), incarnation);
        match TurnLock::new(alloc, BrickCell { inner }, links) {
            Ok((lock, seat)) => {
                locks.push(lock)?;
                seats.push(seat)?;
            }
            Err(_) => return Err(OutOfMemory),
        }
    }
    Ok((locks, seats))
}

/// Cuts one part off each seat, and puts it behind those that were cut off, for which there is room.
fn split_each(
    locks: &[TurnLock<BrickCell>],
    seats: &mut Vec<Seat<BrickCell>>,
    cut: &mut Vec<Seat<BrickCell>>,
)
    requires seats { AreSplit (map id_of locks.now) seats.old.items }
    requires room { vec_len cut.old + length locks.now ≤ vec_capacity cut.old }
    ensures left { seats.new.items ≡ map with_one_less seats.old.items }
    ensures cut { cut.new.items ≡ cut.old.items ++ map with_one seats.old.items }
{
    for place in 0..locks.len() {
        let seat = locks[place].split(&mut seats[place], 1);
        cut.push_reserved(seat);
    }
}

/// One hold of a brick: it does what a request asks.
fn ask_in_turn<W: Wait>(
    rt: &W,
    alloc: Global,
    lock: &TurnLock<BrickCell>,
    seat: &mut Seat<BrickCell>,
    request: &Frame,
) -> Result<Frame, OutOfMemory>
    requires request { is_request request.now ≡ true }
    requires seat { seat.old.lock ≡ lock.now.id }
    requires home { IsHome seat.old }
    ensures seat { seat.new ≡ seat.old }
    ensures reply { IfOk result (λ answer. IsReplySeen seat.old.seen request.now answer) }
{
    let mut cell = lock.take(rt, seat);
    let answer = cell.answer(alloc, request);
    lock.give(seat, cell);
    answer
}

impl BrickHouse {
    /// A house of bricks 1 to `bricks`, at most 16 (`MAX_HOUSE_BRICKS`), which keep nothing, and the seats with all
    /// parts. Seats with one part can be cut off for all `links` but the last, which are these.
    ///
    /// # Errors
    /// Out of memory alone.
    pub fn new(
        alloc: Global,
        bricks: u16,
        incarnation: u64,
        links: u32,
    ) -> Result<(BrickHouse, HouseSeats), OutOfMemory>
        requires some { 1 ≤ bricks }
        requires few { bricks ≤ MAX_HOUSE_BRICKS }
        requires links { 1 ≤ links }
        ensures bricks { IfOk result (λ made. length made.0.locks ≡ bricks) }
        ensures incarnation { IfOk result (λ made. made.0.incarnation ≡ incarnation) }
        ensures seats { IfOk result (λ made. made.1 ≡ record { house = made.0; parts = links }) }
    {
        let (locks, seats) = make(alloc, bricks, incarnation, links)?;
        Ok((
            BrickHouse { locks, incarnation },
            HouseSeats { seats, incarnation },
        ))
    }

    /// How many bricks it has. They are numbered from 1. It takes no memory.
    pub fn bricks(&self) -> u16
        ensures bricks { result ≡ length self.now.locks }
        ensures few { result ≤ MAX_HOUSE_BRICKS }
    {
        self.locks.len() as u16
    }

    /// The incarnation of its bricks. It takes no memory.
    pub fn incarnation(&self) -> u64
        ensures { result ≡ self.now.incarnation }
    {
        self.incarnation
    }

    /// Cuts one part of each lock off, for another thread. It waits for nobody.
    ///
    /// # Errors
    /// Out of memory alone. The seats are then as they were.
    pub fn split(&self, alloc: Global, seats: &mut HouseSeats) -> Result<HouseSeats, OutOfMemory>
        requires house { seats.old.house ≡ self.now }
        requires parts { 2 ≤ seats.old.parts }
        ensures cut { IfOk result (λ cut. cut ≡ record (seats.old) { parts = 1 }) }
        ensures left { OnOk result (seats.new ≡ record (seats.old) { parts = seats.old.parts - 1 }) }
        ensures err { OnErr result (seats.new ≡ seats.old) }
    {
        let mut cut = Vec::with_capacity(alloc, seats.seats.len())?;
        split_each(self.locks.as_slice(), &mut seats.seats, &mut cut);
        Ok(HouseSeats {
            seats: cut,
            incarnation: seats.incarnation,
        })
    }

    /// Waits for a brick, which then does what a request asks, and replies. The seats are as they were. It costs what
    /// the brick's answer costs.
    ///
    /// # Errors
    /// Out of memory alone. The brick is then as it was.
    pub fn ask<W: Wait>(
        &self,
        rt: &W,
        alloc: Global,
        seats: &mut HouseSeats,
        to: BrickNo,
        request: &Frame,
    ) -> Result<Frame, OutOfMemory>
        requires house { seats.old.house ≡ self.now }
        requires some { 1 ≤ to.0 }
        requires few { to.0 ≤ length self.now.locks }
        requires request { is_request request.now ≡ true }
        ensures seats { seats.new ≡ seats.old }
        ensures reply { IfOk result (λ answer. IsReplyOf self.now to request.now answer) }
    {
        let place = to.0 as usize - 1;
        ask_in_turn(
            rt,
            alloc,
            &self.locks[place],
            &mut seats.seats[place],
            request,
        )
    }
}
