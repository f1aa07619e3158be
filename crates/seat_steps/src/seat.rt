//! A seat: a connection of a scenario, and the number of its twin.

ghost use Rattle.std.specs.Prelude.{◌≡◌, ◌++◌, true, None, OnErr, OnOk};
ghost use Rattle.container_core.specs.Container.{ContainerValue};
ghost use Rattle.shepherd.specs.Shepherds.{fresh, turn};
ghost use Rattle.seat_steps.specs.Going.{GoesOnAtSeat};

use auction_actions::ActionProgram;
use crash_base::OutOfMemory;
use lane_link::LaneLink;
use shepherd::{Shepherd, ShepherdTurn, connections_go_on};
use site_programs::SiteMaker;
use std::alloc::Global;

/// The number of the service's node.
pub const NODE: u16 = 1;

/// A connection of the site.
pub type SeatShepherd = Shepherd<ActionProgram>;

/// The random word and the serial number that are drawn next.
#[derive(Clone, Copy)]
pub struct NextDraws {
    pub word: u64,
    pub serial: u64,
}

/// A connection of a scenario.
#[derive(Drop)]
pub struct Seat {
    pub connection: SeatShepherd,
    /// The number of the call of the world that is the twin of what the connection does with its session, if it does
    /// something.
    pub twin: Option<u64>,
}

impl Seat {
    /// A seat to which nothing came yet. It takes no memory.
    pub fn new(alloc: Global) -> Seat
        ensures fresh { result ≡ record { connection = fresh; twin = None } }
        ensures goes { (container : ContainerValue) → GoesOnAtSeat container result.connection }
    {
        connections_go_on::<ActionProgram, LaneLink, SiteMaker>();
        Seat {
            connection: Shepherd::new(alloc),
            twin: None,
        }
    }

    /// Whose step is next. It takes no memory.
    pub fn turn(&self) -> ShepherdTurn
        ensures { result ≡ turn self.now.connection }
    {
        self.connection.turn()
    }

    /// Bytes come.
    ///
    /// # Errors
    /// There is no memory: the connection has ended.
    pub fn feed(&mut self, bytes: &[u8]) -> Result<(), OutOfMemory>
        ensures fed { OnOk result (self.new ≡ record self.old {
          connection = record (self.old.connection) { received = self.old.connection.received ++ bytes.now };
        }) }
        ensures want { OnErr result (self.new ≡ record self.old {
          connection = record (self.old.connection) { wants_memory = true };
        }) }
        ensures goes { (container : ContainerValue) → GoesOnAtSeat container self.old.connection
            → GoesOnAtSeat container self.new.connection }
    {
        connections_go_on::<ActionProgram, LaneLink, SiteMaker>();
        match self.connection.feed(bytes) {
            Ok(()) => Ok(()),
            Err(OutOfMemory) => Err(OutOfMemory),
        }
    }

    /// No more bytes come. It takes no memory.
    pub fn end(&mut self)
        ensures ended { self.new ≡ record self.old { connection = record (self.old.connection) { ended = true } } }
        ensures goes { (container : ContainerValue) → GoesOnAtSeat container self.old.connection
            → GoesOnAtSeat container self.new.connection }
    {
        connections_go_on::<ActionProgram, LaneLink, SiteMaker>();
        self.connection.end();
    }
}
