//! What is told of a request once its response is made.

use crate::outcome::ItemOutcome;
use crash_base::{Items, Moment, Place, RequestNo, SessionBytes};
use outside::LinkCounts;
use session_cookie::Cookie;

/// How far a container had come when it was held for a request.
#[derive(Clone, Copy)]
pub struct Holds {
    /// The journal's length when it was first held. Where it was not held: the front of the item before.
    pub from: Place,
    /// The journal's length when it was last held. Where it was not held: the front of the item before.
    pub front: Place,
    /// The number of events of its history when it was last held; 0 where it was not.
    pub held: u64,
}

/// What is told of a request once its response is made.
#[derive(Drop)]
pub struct Item {
    /// What became of it.
    pub outcome: ItemOutcome,
    /// Its number, where one is known.
    pub request: Option<RequestNo>,
    /// How far the container had come when it was held for it.
    pub holds: Holds,
    /// What the link had counted when the request's last call of it was over.
    pub counts: LinkCounts,
    /// Its moment: the one reading of the clock that was made for it.
    pub moment: Moment,
    /// The value of its session, where that was read.
    pub value: Option<SessionBytes>,
    /// The cookie that its response sets, where it sets one.
    pub cookie: Option<Cookie>,
}

/// Items of the requests of a connection, in order.
pub type ItemList = Items<Item>;
