//! A link to a house.

ghost use Rattle.std.specs.Prelude.{◌≡◌, ◌^◌, ◌<◌, IfOk, replicate};
ghost use Rattle.outside.specs.Faults.{counted};
ghost use Rattle.brick_house.specs.HouseLinks.{HouseMakes, empty_lane, new_link, house_tally, with_bricks};

use crate::house::BrickHouse;
use crate::lane::Lane;
use crate::seats::HouseSeats;
use crash_base::{BrickNo, FrameBytes, OutOfMemory};
use link_lanes::place_of;
use outside::{Link, LinkCounts, Received, Sent};
use std::alloc::Global;
use std::marker::Model;
use std::sync::Wait;

/// A link of one thread to a house.
#[derive(Drop)]
pub struct HouseLink<'a, W: Wait> {
    rt: &'a W,
    house: &'a BrickHouse,
    seats: HouseSeats,
    lanes: Vec<Lane>,
    unknown: u64,
    hushed: u64,
    got: u64,
}

impl<'a, W: Wait> Model for HouseLink<'a, W> {
    ghost use Rattle.std.specs.Prelude.{◌≡◌, length};
    ghost use Rattle.brick_house.specs.HouseLinks.{HouseLinkValue};

    ghost Value = { HouseLinkValue };

    ghost view = { λ l. record {
      seats = l.seats;
      bricks = record { lanes = l.lanes.items; unknown = l.unknown; hushed = l.hushed; got = l.got };
    } };

    ghost invariant = { λ l. (l.seats.house ≡ l.house.now) × (length l.lanes.items ≡ length l.seats.house.locks) };
}

/// Lanes for so many bricks.
fn new_lanes(alloc: Global, bricks: u16) -> Result<Vec<Lane>, OutOfMemory>
    ensures { IfOk result (λ lanes. lanes.items ≡ replicate bricks empty_lane) }
{
    let mut lanes = Vec::with_capacity(alloc, bricks as usize)?;
    for at in 0..bricks {
        lanes.push(Lane::new(alloc))?;
    }
    Ok(lanes)
}

impl<'a, W: Wait> HouseLink<'a, W> {
    /// A link with these seats. No reply waits in it, and it has counted nothing.
    ///
    /// # Errors
    /// Out of memory alone.
    pub fn new(
        rt: &'a W,
        alloc: Global,
        house: &'a BrickHouse,
        seats: HouseSeats,
    ) -> Result<HouseLink<'a, W>, OutOfMemory>
        requires { seats.house ≡ house.now }
        ensures { IfOk result (λ link. link ≡ new_link seats) }
    {
        Ok(HouseLink {
            rt,
            house,
            seats,
            lanes: new_lanes(alloc, house.bricks())?,
            unknown: 0,
            hushed: 0,
            got: 0,
        })
    }

    /// The seats, which are as they were when the link was made. Replies that wait are thrown away. It takes no memory.
    pub fn into_seats(self) -> HouseSeats
        ensures { result ≡ self.entry.seats }
    {
        let HouseLink {
            rt: _,
            house: _,
            seats,
            lanes: _,
            unknown: _,
            hushed: _,
            got: _,
        } = self;
        seats
    }

    /// Counts a silence of a number without a brick.
    fn hush_unknown(&mut self)
        ensures counts { self.new
            ≡ with_bricks self.old
            (record (self.old.bricks) {
              unknown = counted self.old.bricks.unknown;
              hushed = counted self.old.bricks.hushed;
            }) }
        ensures unknown_fits { self.old.bricks.unknown < 2 ^ 64 }
        ensures hushed_fits { self.old.bricks.hushed < 2 ^ 64 }
    {
        self.unknown = self.unknown.saturating_add(1);
        self.hushed = self.hushed.saturating_add(1);
    }
}

impl<'a, W: Wait> Link for HouseLink<'a, W> {
    ghost use Rattle.brick_house.specs.Tallies.{house_tallies};

    ghost makes = { HouseMakes };

    ghost tally = { house_tally };

    /// As of the trait: it waits for the brick, which answers at once, and its reply waits. Done also where the bytes
    /// spell no request, which get no reply; Silent just where there is no such brick. Want of memory changes neither
    /// link nor brick. It costs what the brick's answer costs.
    fn send(&mut self, alloc: Global, to: BrickNo, frame: &[u8]) -> Sent {
        match place_of(&self.lanes, to) {
            None => {
                self.hush_unknown();
                Sent::Silent
            }
            Some(place) => {
                let lane = &mut self.lanes[place];
                match lane.ask(self.rt, alloc, self.house, &mut self.seats, to, frame) {
                    Ok(()) => Sent::Done,
                    Err(OutOfMemory) => Sent::OutOfMemory,
                }
            }
        }
    }

    /// As of the trait: the first reply of the brick that waits is given, and nobody is waited for. Silent just where
    /// none waits, or there is no such brick. Want of memory changes nothing. It visits each byte of the reply once.
    fn receive(&mut self, alloc: Global, from: BrickNo, into: &mut FrameBytes) -> Received {
        match place_of(&self.lanes, from) {
            None => {
                self.hush_unknown();
                Received::Silent
            }
            Some(place) => match self.lanes[place].receive(alloc, into) {
                Received::Got => {
                    self.got = self.got.saturating_add(1);
                    Received::Got
                }
                Received::Silent => {
                    self.hushed = self.hushed.saturating_add(1);
                    Received::Silent
                }
                Received::OutOfMemory => Received::OutOfMemory,
            },
        }
    }

    /// As of the trait.
    fn counts(&self) -> LinkCounts {
        LinkCounts {
            hushed: self.hushed,
            got: self.got,
        }
    }

    ghost tallies = { house_tallies };
}
