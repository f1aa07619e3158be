//! Seats of a house.

use crate::cell::BrickCell;
use std::marker::Model;
use turn_lock::Seat;

/// The right to ask the bricks of a house: a seat of each brick's lock, all with as many parts, at least one. Between
/// calls no brick is out with them.
#[derive(Drop)]
pub struct HouseSeats {
    pub(crate) seats: Vec<Seat<BrickCell>>,
    pub(crate) incarnation: u64,
}

impl Model for HouseSeats {
    ghost use Rattle.std.specs.Prelude.{◌≡◌, map};
    ghost use Rattle.brick_house.specs.Houses.{HouseSeatsValue, lock_of, parts_of, seats_from};

    ghost Value = { HouseSeatsValue };

    ghost view = { λ s. record { house = record { locks = map lock_of s.seats.items; incarnation = s.incarnation }; parts = parts_of s.seats.items } };

    ghost invariant = { λ s. s.seats.items ≡ seats_from s.incarnation (parts_of s.seats.items) 1 (map lock_of s.seats.items) };
}
