//! The bricks of the command, and what each of its threads works with.

ghost use Rattle.std.specs.Prelude.{◌≡◌, ◌+◌, ◌-◌, ◌≤◌, IfOk, OnOk, length};

use crate::ending::{StartFault, start_failed};
use brick_house::{BrickHouse, HouseLink, HouseSeats};
use crash_base::OutOfMemory;
use outside::Random;
use random_blocks::BlockRandom;
use std::alloc::Global;
use std::random::RandomSource;
use std::sync::Wait;
use std::time::Clock;

/// What a thread works with, beside a clock.
pub(crate) type Kit<'a, R> = (HouseLink<'a, R>, BlockRandom<&'a R>);

/// How many bricks keep the sessions.
pub(crate) const BRICKS: u16 = 3;

/// A source of random words.
fn random_of<'a, R: RandomSource>(
    rt: &'a R,
    alloc: Global,
) -> Result<BlockRandom<&'a R>, StartFault> {
    match BlockRandom::new(rt) {
        Ok(random) => Ok(random),
        Err(_) => Err(start_failed(alloc, b"random source", b"not read")),
    }
}

/// A house of bricks whose incarnation is drawn, so that no cookie of another run finds its session; and its seats, for
/// so many links.
pub(crate) fn open_house<R: RandomSource>(
    rt: &R,
    alloc: Global,
    links: u32,
) -> Result<(BrickHouse, HouseSeats), StartFault>
    requires { 1 ≤ links }
    ensures bricks { IfOk result (λ made. length made.0.locks ≡ BRICKS) }
    ensures seats { IfOk result (λ made. made.1 ≡ record { house = made.0; parts = links }) }
{
    let mut random = random_of(rt, alloc)?;
    match BrickHouse::new(alloc, BRICKS, random.word(), links) {
        Ok(made) => Ok(made),
        Err(OutOfMemory) => Err(StartFault::OutOfMemory),
    }
}

/// What one thread works with.
fn kit_of<'a, R: Wait + RandomSource>(
    rt: &'a R,
    alloc: Global,
    house: &'a BrickHouse,
    seats: HouseSeats,
) -> Result<Kit<'a, R>, StartFault>
    requires { seats.house ≡ house.now }
{
    let random = random_of(rt, alloc)?;
    match HouseLink::new(rt, alloc, house, seats) {
        Ok(link) => Ok((link, random)),
        Err(OutOfMemory) => Err(StartFault::OutOfMemory),
    }
}

/// Adds what one thread works with.
fn add_kit<'a, R: Wait + RandomSource>(
    rt: &'a R,
    alloc: Global,
    house: &'a BrickHouse,
    seats: HouseSeats,
    kits: &mut Vec<Kit<'a, R>>,
) -> Result<(), StartFault>
    requires { seats.house ≡ house.now }
{
    let kit = kit_of(rt, alloc, house, seats)?;
    match kits.push(kit) {
        Ok(()) => Ok(()),
        Err(_) => Err(StartFault::OutOfMemory),
    }
}

/// Cuts the seats of one link off.
fn cut_seats(
    alloc: Global,
    house: &BrickHouse,
    seats: &mut HouseSeats,
) -> Result<HouseSeats, StartFault>
    requires house { seats.old.house ≡ house.now }
    requires parts { 2 ≤ seats.old.parts }
    ensures cut { IfOk result (λ cut. cut.house ≡ house.now) }
    ensures left { OnOk result (seats.new ≡ record (seats.old) { parts = seats.old.parts - 1 }) }
{
    match house.split(alloc, seats) {
        Ok(cut) => Ok(cut),
        Err(OutOfMemory) => Err(StartFault::OutOfMemory),
    }
}

/// What so many threads work with, for each of which there is a part of the seats.
pub(crate) fn make_kits<'a, R: Wait + RandomSource>(
    rt: &'a R,
    alloc: Global,
    house: &'a BrickHouse,
    mut seats: HouseSeats,
    links: u32,
) -> Result<Vec<Kit<'a, R>>, StartFault>
    requires some { 1 ≤ links }
    requires seats { seats ≡ record { house = house.now; parts = links } }
{
    let mut kits = Vec::new(alloc);
    for at in 1..links {
        let cut = cut_seats(alloc, house, &mut seats)?;
        add_kit(rt, alloc, house, cut, &mut kits)?;
    }
    add_kit(rt, alloc, house, seats, &mut kits)?;
    Ok(kits)
}
