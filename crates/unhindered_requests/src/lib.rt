//! Laws of requests that nothing hinders: each ends as a page, or memory is wanted.
//!
//! The other laws of a request say that what it is refused for was so. These say the rest: that it is refused for
//! nothing else. So a server that answers "try again", "failed" or that a session is lost, though nothing stands in its
//! way, does not meet them. What may stand in the way of a request is all named here:
//!
//! ```text
//! it is refused, or no serial number is left     ordered_requests_are_admitted
//! its session has expired                        the clause `read`: its moment is past the expiry of its cookie
//! each brick of its cookie was silent, strayed,  `Serve`, and `read`: no brick of the cookie serves
//! crashed, or was swept
//! a group that it enters is down                 `MayStep`: `up`
//! a component that it enters fails               `MayStep`: `works`
//! a group that it entered was rebooted           `MayBeRevoked`: in its last try, or where it may not call again
//! what it read or writes was written meanwhile   `MayConflict`: in its last try
//! the journal is full                            `MayCommit`: `room`
//! the keeper failed                              the clause `inside`: its count of faults rose
//! too few windows are open, or too few bricks    the clause `windows`: fewer bricks that passes are for serve than are
//! store its session                              to store a value
//! ```
//!
//! `unhindered_requests_end_as_pages` has a clause for each step of a request (`request_visit`): while that step's
//! hindrance is away the request stays unhindered (`specs/Unhindered.antt`), and then its item is a page. Each clause
//! has the premises of its own step, and no others; what others do meanwhile is left open.
//! `components_fail_by_plans_alone` says when a component works: in a boot without plans each does.
//! `bricks_serve_by_their_replies` says which calls of the link leave a brick as one that serves.
//! `requests_come_to_their_end` says that a request has no more than 2,476 steps, hindered or not.
//!
//! They do not promise that a step finds memory, that enough bricks serve, or that windows are open; and not that
//! somebody makes the next step.
#![tactic(auto)]

mod laws;

pub use laws::{
    bricks_serve_by_their_replies, components_fail_by_plans_alone, ordered_requests_are_admitted,
    requests_come_to_their_end, unhindered_requests_end_as_pages,
};
