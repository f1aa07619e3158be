//! The steps of a connection as functions.
//!
//! The crates below say what a step may leave as relations, since a keeper, a link, a clock and a source of numbers may
//! reply as they like. Here each step is a function of what it steps in and of these replies, and a law says that
//! whatever its relation allows is what the function gives. So two results of one step over the same state are one, but
//! for want of memory.
//!
//! ```text
//! the call of Shepherd   what it may leave   the function    the law
//! take_request           TakesRequest        take_request    taken_requests_are_fixed
//! step_outside           VisitsOutside       outside         steps_outside_are_fixed
//! step_windows           VisitsWindows       windows_step    steps_of_windows_are_fixed
//! step_inside            VisitsInside        inside          steps_inside_are_fixed
//! advance                Advances            own             own_steps_are_fixed
//! open                   OpensStage          open_stage      opened_requests_are_fixed
//! output                 PutsOut             output_of       what_is_put_out_is_fixed
//! take_item              TakesItem           item_taken      items_are_fixed
//! ```
//!
//! A connection goes on by itself, by `advance`, `open` and `take_item`, until others are to step: two such calls at
//! most, and the connection after them is `gone_alone` (`going_alone_is_fixed`, `going_alone_ends`). One step of a
//! connection is one event and what the connection then does by itself: `step`, over all that it may change
//! (`steps_are_fixed`), and so is the event alone (`events_are_fixed`, `what_keepers_tell_is_fixed`). What a step is,
//! whatever the functions say: one event, after which others are to step, and which changes what is of its turn alone
//! (`steps_are_one_event`).
//!
//! What is decided of a request is taken as a function that is given, `decides`. `decided_by` is one, where the texts
//! of cookies and of tokens are read by functions (`requests_are_decided_as_read`).
#![tactic(auto)]

mod events;
mod laws;
mod stepping;
mod taking;

pub use events::{events_are_fixed, steps_are_one_event, what_keepers_tell_is_fixed};
pub use laws::{
    going_alone_ends, going_alone_is_fixed, items_are_fixed, opened_requests_are_fixed,
    own_steps_are_fixed, steps_inside_are_fixed, steps_of_windows_are_fixed,
    steps_outside_are_fixed, what_is_put_out_is_fixed,
};
pub use stepping::steps_are_fixed;
pub use taking::{
    counted_numbers_come_in_turn, requests_are_decided_as_read, taken_requests_are_fixed,
};
