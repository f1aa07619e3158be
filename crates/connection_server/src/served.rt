//! What was served over a connection.

use crash_base::Place;
use outcome_items::ItemList;
use site_responses::Untaken;

/// How a call that serves a connection ended.
#[derive(Clone, Copy)]
pub enum ServedEnd {
    /// The bytes ended between two requests, or a request closed the connection.
    Closed,
    /// The bytes ended inside a request.
    Cut,
    /// What followed is refused, and the last response says so.
    Refused(Untaken),
    /// The container was found stopped in the last hold for a request, whose response did not close the connection.
    Stopped,
    /// The source failed.
    ReadFault,
    /// The sink failed.
    WriteFault,
    /// There was no memory.
    OutOfMemory,
}

/// What was served over a connection.
#[derive(Drop)]
pub struct Served {
    /// The items of the requests that were answered, in order.
    pub items: ItemList,
    /// The front of the last item; 0 where there is none.
    pub front: Place,
    pub ended: ServedEnd,
}
