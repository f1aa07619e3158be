//! What is decided of a request before anything is asked of anyone, and what is drawn for it.
//!
//! A request that was taken off the bytes of its connection is refused at once, or ordered:
//!
//! ```text
//! match decide(alloc, &router, key, boot, &head)? {
//!     Decision::Refused(refusal) => {}   // answer it; nothing is drawn
//!     Decision::Ordered(order) => {
//!         let drawn = draw_for(alloc, &order, &mut serials, &mut random)?;
//!         let number = request_of(boot, order.number, drawn.as_slice());
//!         let (call, cookie) = ordered_call(key, boot, order, now, drawn.as_slice());
//!         let value = None;                                // where there is a cookie: what its session was read as
//!         let call = call_by(call, value);                 // this is what the action is asked with
//!     }
//! }
//! ```
//!
//! These are the decisions, in their order. The first that refuses is told:
//!
//! | Decision | Refusal | Status |
//! |---|---|---|
//! | whether anything is at the path | `NotThere` | 404 |
//! | whether it is there by this method | `NotAllowed` | 405 |
//! | whether the form is understood | `Multipart` | 415 |
//! | which cookie is accepted: one that is none under the service's key counts as no cookie | none | |
//! | whether each field is as it must be | `BadForm` | 400 |
//! | of a POST: whether its token is one of the session that its cookie names | `BadForm` with `token` | 400 |
//! | of a POST: whether its token is of this boot | `StaleForm` | 409 |
//!
//! `specs/Decisions.antt` says so as `IsDecided`. The law `decisions_are_one` says that a request has one decision,
//! `refusals_come_in_order` which refusal each request is told that calls for one, and `orders_are_exact` which request
//! is ordered: with which cookie (`cookies_are_of_the_key`), and with which number. So the token of a POST was written
//! for the session of its cookie, in this boot (`posts_have_tokens_of_their_session`).
//!
//! `specs/Draws.antt` has what is drawn for an order, in its order. The law `each_draw_has_its_cause` says when. Where
//! a serial number is spent, nothing is drawn behind it, and what was drawn by then is a front of that list
//! (`AreCutShort`); the request is not served. `draw_for` draws so from any source of numbers, which others may draw
//! from too: what came of it is said by `specs/Drawing.antt` over the states of the source.
//!
//! `specs/Calls.antt` has the call of an order as `call_of`: its user is that of the session's value, and 0 without
//! one; its key that of the cookie, or of the two words of a new session, or 16 zero bytes; and its form the token of
//! that key and of the number that was drawn for it, or 56 zero bytes, which are the token of no session
//! (`calls_are_of_their_session`, `forms_have_tokens_of_their_session`). The law `orders_are_in_range` says that no
//! field of it is refused.
#![tactic(auto)]

mod calls;
mod deciding;
mod decision;
mod drawing;
mod draws;
mod laws;

pub use calls::{call_by, number_for, ordered_call, request_of};
pub use deciding::decide;
pub use decision::{Decision, Order, Refusal};
pub use drawing::{DrawRefusal, draw_for};
pub use draws::{Draw, DrawKind, DrawList, DrawnList, draws_for};
pub use laws::{
    calls_are_of_their_session, cookies_are_of_the_key, decisions_are_one, each_draw_has_its_cause,
    forms_have_tokens_of_their_session, orders_are_exact, orders_are_in_range,
    posts_have_tokens_of_their_session, refusals_come_in_order,
};
