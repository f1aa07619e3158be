//! What is known of a request before it is served.

use crash_base::{Moment, Place, RequestNo, SessionKey, Version};

/// What is known of a request once it was decided, and the clock was read and all was drawn for it.
#[derive(Clone, Copy)]
pub struct VisitFacts {
    /// Its number, where one is known.
    pub request: Option<RequestNo>,
    /// Its moment.
    pub now: Moment,
    /// The key of its session.
    pub key: SessionKey,
    /// The nonce with which its session is written, if it is.
    pub write: Version,
    /// The journal's length when the container was last held for a request before it.
    pub front: Place,
    /// Whether the connection ends behind its response.
    pub close: bool,
    /// Whether its response leaves the page out.
    pub head_only: bool,
}
