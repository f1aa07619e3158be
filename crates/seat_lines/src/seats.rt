//! The connections of a scenario, and the lines about one of them that make no step.

ghost use Rattle.std.specs.Prelude.{All, ◌≡◌, ◌<◌, ◌≤◌, List, [], length, slice_set, IfOk, Option, OnOk, is_some};
ghost use Rattle.container_core.specs.Container.{ContainerValue, HasGrownBy};
ghost use Rattle.scenario_text.specs.Answer.{KeepsRefused, answer_of};
ghost use Rattle.scenario_text.specs.declared.seat_line.TheConstants.{MAX_SEAT};
ghost use Rattle.seat_steps.specs.declared.seat.Seat.{Seat};
ghost use Rattle.seat_lines.specs.Lines.{bytes_line, bytes_step, end_line, end_step, open_line};
ghost use Rattle.seat_lines.specs.Site.{AllGoOn, IsGoingIn, SiteState, no_seats, padded, seat_at};

use auction_actions::ActionProgram;
use crash_base::OutOfMemory;
use deployment::Deployment;
use lane_link::LaneLink;
use recovery_manager::Manager;
use scenario_text::{HexBytes, LineAnswer};
use seat_steps::{Seat, SiteMaker};
use shepherd::connections_go_on;
use std::alloc::Global;
use std::marker::Model;
use std::mem;

/// A connection `sN` is the worker that has the number N behind this one. A caller `cN` is the worker N.
pub const FIRST_WORKER: u32 = 65_536;

/// The random word that is drawn first.
pub const FIRST_WORD: u64 = 1;

/// The connections of a scenario, by their numbers, the random word that is drawn next, and the manager that hears of
/// their requests that failed.
#[derive(Drop)]
pub struct Seats {
    pub(crate) seats: Vec<Option<Seat>>,
    pub(crate) word: u64,
    pub(crate) manager: Manager,
}

impl Model for Seats {
    ghost use Rattle.seat_lines.specs.Site.{SeatsState};

    ghost Value = { SeatsState };

    ghost view = { λ s. record { seats = s.seats.items; word = s.word; manager = s.manager } };
}

/// Makes a place for each number up to this one.
fn pad(seats: &mut Vec<Option<Seat>>, number: u64) -> Result<(), OutOfMemory>
    ensures padded { OnOk result (seats.new.items ≡ padded seats.old.items number) }
    ensures goes { (container : ContainerValue) → All (IsGoingIn container) seats.old.items
        → All (IsGoingIn container) seats.new.items }
{
    while seats.len() as u64 <= number {
        seats.push(None)?;
    }
    Ok(())
}

/// Puts a connection, or none, in a place. What was there is let go.
pub(crate) fn put(place: &mut Option<Seat>, seat: Option<Seat>)
    ensures { place.new ≡ seat }
{
    drop(mem::replace(place, seat));
}

/// Bytes come in on a connection, if it is there and its input has not ended.
fn feed(seat: &mut Option<Seat>, bytes: &[u8]) -> Result<LineAnswer, OutOfMemory>
    ensures answer { IfOk result (λ a. answer_of a seat.new ≡ bytes_step bytes.now seat.old) }
    ensures refused { IfOk result (λ a. KeepsRefused a seat.old seat.new) }
    ensures goes { (container : ContainerValue) → IsGoingIn container seat.old → IsGoingIn container seat.new }
{
    match seat {
        None => Ok(LineAnswer::Refused),
        Some(seat) => {
            if seat.connection.ended {
                return Ok(LineAnswer::Refused);
            }
            seat.feed(bytes)?;
            Ok(LineAnswer::Done)
        }
    }
}

/// The input of a connection ends, if it is there and its input has not ended.
fn end(seat: &mut Option<Seat>) -> LineAnswer
    ensures answer { answer_of result seat.new ≡ end_step seat.old }
    ensures refused { KeepsRefused result seat.old seat.new }
    ensures goes { (container : ContainerValue) → IsGoingIn container seat.old → IsGoingIn container seat.new }
{
    match seat {
        None => LineAnswer::Refused,
        Some(seat) => {
            if seat.connection.ended {
                return LineAnswer::Refused;
            }
            seat.end();
            LineAnswer::Done
        }
    }
}

impl Seats {
    /// No connection, and a manager of this deployment that was told of nothing. It takes memory for the manager.
    pub fn new(alloc: Global, deployment: &Deployment) -> Result<Seats, OutOfMemory>
        ensures state { IfOk result (λ seats. seats ≡ no_seats deployment.now) }
        ensures goes { IfOk result (λ seats. (container : ContainerValue) → AllGoOn container seats) }
    {
        let manager = Manager::new(alloc, deployment)?;
        Ok(Seats {
            seats: Vec::new(alloc),
            word: FIRST_WORD,
            manager,
        })
    }

    /// Whether a connection is there.
    pub(crate) fn is_there(&self, number: u64) -> bool
        ensures { result ≡ is_some (seat_at self.now.seats number) }
    {
        number < self.seats.len() as u64 && self.seats[number as usize].is_some()
    }

    /// A connection opens.
    #[tactic(auto, using(crate::proofs::Going::going_set), unfolding(crate::specs::Lines::open_line))]
    pub(crate) fn conn_line(
        &mut self,
        alloc: Global,
        number: u64,
    ) -> Result<LineAnswer, OutOfMemory>
        requires { number ≤ MAX_SEAT }
        ensures answer { IfOk result (λ a. (s : SiteState) → s.seats ≡ self.old
            → answer_of a (record s { seats = self.new }) ≡ open_line s number) }
        ensures refused { IfOk result (λ a. KeepsRefused a self.old self.new) }
        ensures goes { (container : ContainerValue) → AllGoOn container self.old → AllGoOn container self.new }
    {
        if self.is_there(number) {
            return Ok(LineAnswer::Refused);
        }
        pad(&mut self.seats, number)?;
        put(&mut self.seats[number as usize], Some(Seat::new(alloc)));
        Ok(LineAnswer::Done)
    }

    /// Bytes come in on a connection.
    #[tactic(auto, using(crate::proofs::Going::going_set, crate::proofs::Going::going_at), unfolding(crate::specs::Lines::bytes_line))]
    pub(crate) fn bytes_line(
        &mut self,
        number: u64,
        bytes: HexBytes,
    ) -> Result<LineAnswer, OutOfMemory>
        ensures answer { IfOk result (λ a. (s : SiteState) → s.seats ≡ self.old
            → answer_of a (record s { seats = self.new }) ≡ bytes_line s number bytes) }
        ensures refused { IfOk result (λ a. KeepsRefused a self.old self.new) }
        ensures goes { (container : ContainerValue) → AllGoOn container self.old → AllGoOn container self.new }
    {
        if number >= self.seats.len() as u64 {
            return Ok(LineAnswer::Refused);
        }
        feed(&mut self.seats[number as usize], bytes.as_slice())
    }

    /// The input of a connection ends.
    #[tactic(auto, using(crate::proofs::Going::going_set, crate::proofs::Going::going_at), unfolding(crate::specs::Lines::end_line))]
    pub(crate) fn end_line(&mut self, number: u64) -> LineAnswer
        ensures answer { (s : SiteState) → s.seats ≡ self.old
            → answer_of result (record s { seats = self.new }) ≡ end_line s number }
        ensures refused { KeepsRefused result self.old self.new }
        ensures goes { (container : ContainerValue) → AllGoOn container self.old → AllGoOn container self.new }
    {
        if number >= self.seats.len() as u64 {
            return LineAnswer::Refused;
        }
        end(&mut self.seats[number as usize])
    }

    /// The container has grown: each connection goes on in it. It does nothing.
    pub fn stay(&self)
        ensures { (old new : ContainerValue) → HasGrownBy old new → AllGoOn old self.now → AllGoOn new self.now }
    {
        connections_go_on::<ActionProgram, LaneLink, SiteMaker>();
    }
}
