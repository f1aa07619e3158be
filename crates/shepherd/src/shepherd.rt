//! A connection: what it holds, and whose step is next.

ghost use Rattle.std.specs.Prelude.{◌≡◌, ◌++◌, true, OnErr, OnOk};
ghost use Rattle.shepherd.specs.Shepherds.{fresh, last_entered, resting_turn, stage_turn, turn, turn_by};

use auction_calls::CheckedCall;
use crash_base::{ComponentNo, OutOfMemory, Place, RequestNo, ResponseBytes};
use http_wire::Received;
use request_visit::{Turn, Visit};
use site_responses::Untaken;
use std::alloc::Global;

/// How a connection ended.
#[derive(Clone, Copy)]
pub enum EndKind {
    /// Its bytes ended between two requests, or a request closed it.
    Closed,
    /// Its bytes ended inside a request.
    Cut,
    /// What followed is refused.
    Refused(Untaken),
    /// There was no memory.
    OutOfMemory,
}

/// What a request asks for, until its program is made of it.
#[derive(Drop)]
pub struct AskedCall {
    /// Its number.
    pub request: RequestNo,
    /// Its call, of no user yet.
    pub call: CheckedCall,
}

/// How far a connection has come.
#[derive(Drop)]
pub enum Stage<P> {
    /// No request is open.
    Resting,
    /// This request is served, and this is what it asks for, until its program is made.
    Serving(Visit<P>, Option<AskedCall>),
    /// No further request is taken, and this last response is to leave.
    Refusing(Untaken, ResponseBytes),
    /// It has ended.
    Over(EndKind),
}

/// Whose step is next.
#[derive(Clone, Copy)]
pub enum ShepherdTurn {
    /// Bytes are to come, or their end.
    Bytes,
    /// A request is to be taken off the bytes.
    Request,
    /// One call of the link.
    Outside,
    /// One call of the windows.
    Windows,
    /// One call of the container.
    Inside,
    /// The program of the request is to be made.
    Program,
    /// What was heard is to be taken in, or a response made: nobody else is asked.
    Own,
    /// A response is to leave.
    Output,
    /// The item of the request is to be taken.
    Item,
    /// The connection has ended.
    Ended(EndKind),
}

/// A connection.
#[derive(Drop)]
pub struct Shepherd<P> {
    /// The bytes that came and were not taken.
    pub received: Received,
    /// Whether no more will come.
    pub ended: bool,
    /// The front of the item before.
    pub front: Place,
    /// How far it has come.
    pub stage: Stage<P>,
    /// Whether memory was wanted: then it has ended.
    pub wants_memory: bool,
}

/// Whose step is next where no request is open.
fn resting_turn(received: &Received, ended: bool) -> ShepherdTurn
    ensures { result ≡ resting_turn received.now ended }
{
    if received.is_settled() {
        ShepherdTurn::Request
    } else if !ended {
        ShepherdTurn::Bytes
    } else if received.as_slice().is_empty() {
        ShepherdTurn::Ended(EndKind::Closed)
    } else {
        ShepherdTurn::Ended(EndKind::Cut)
    }
}

/// Whose step is next, by whose is next for the request that is open.
fn turn_by(turn: Turn) -> ShepherdTurn
    ensures { result ≡ turn_by turn }
{
    match turn {
        Turn::Outside => ShepherdTurn::Outside,
        Turn::Windows => ShepherdTurn::Windows,
        Turn::Inside => ShepherdTurn::Inside,
        Turn::Program => ShepherdTurn::Program,
        Turn::Own => ShepherdTurn::Own,
        Turn::Output => ShepherdTurn::Output,
        Turn::Over => ShepherdTurn::Item,
    }
}

impl<P> Stage<P> {
    /// Whose step is next, by what was received.
    fn turn(&self, received: &Received, ended: bool) -> ShepherdTurn
        ensures { result ≡ stage_turn self.now received.now ended }
    {
        match self {
            Stage::Resting => resting_turn(received, ended),
            Stage::Serving(visit, _) => turn_by(visit.turn()),
            Stage::Refusing(_, _) => ShepherdTurn::Output,
            Stage::Over(end) => ShepherdTurn::Ended(*end),
        }
    }

    /// The component that the last step of the open request entered, if it entered one.
    fn last_entered(&self) -> Option<ComponentNo>
        ensures { result ≡ last_entered self.now }
    {
        match self {
            Stage::Serving(visit, _) => visit.last_entered(),
            _ => None,
        }
    }
}

impl<P> Shepherd<P> {
    /// A connection of which nothing came yet. It takes no memory.
    pub fn new(alloc: Global) -> Shepherd<P>
        ensures { result ≡ fresh }
    {
        Shepherd {
            received: Received::new(alloc),
            ended: false,
            front: Place(0),
            stage: Stage::Resting,
            wants_memory: false,
        }
    }

    /// Whose step is next. It takes no memory.
    pub fn turn(&self) -> ShepherdTurn
        ensures { result ≡ turn self.now }
    {
        if self.wants_memory {
            ShepherdTurn::Ended(EndKind::OutOfMemory)
        } else {
            self.stage.turn(&self.received, self.ended)
        }
    }

    /// The component that the last step entered: none where no request is in the container, or that step entered none.
    /// It takes no memory.
    pub fn last_entered(&self) -> Option<ComponentNo>
        ensures { result ≡ last_entered self.now.stage }
    {
        self.stage.last_entered()
    }

    /// Adds bytes that came.
    ///
    /// # Errors
    /// There is no memory. The bytes are as they were, and the connection has ended.
    pub fn feed(&mut self, bytes: &[u8]) -> Result<(), OutOfMemory>
        ensures fed { OnOk result (self.new ≡ record self.old { received = self.old.received ++ bytes.now }) }
        ensures want { OnErr result (self.new ≡ record self.old { wants_memory = true }) }
    {
        match self.received.feed(bytes) {
            Ok(()) => Ok(()),
            Err(OutOfMemory) => {
                self.wants_memory = true;
                Err(OutOfMemory)
            }
        }
    }

    /// No more bytes come. It takes no memory.
    pub fn end(&mut self)
        ensures { self.new ≡ record self.old { ended = true } }
    {
        self.ended = true;
    }
}
