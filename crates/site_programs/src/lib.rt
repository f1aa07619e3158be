//! The programs of the site, as a connection makes them, and what the pages are that they come to.
//!
//! A connection is the same for whatever programs its requests have (`shepherd::Shepherd<P>`), and the sixteen actions
//! of the auction are programs (`auction_actions::ActionProgram`). `SiteMaker` joins the two:
//!
//! ```text
//! shepherd.open(alloc, worker, &SiteMaker)?    // the text and the program of the call that the open request makes
//! ```
//!
//! What it makes of a call is accepted in the site's deployment, and asks the site for that call
//! (`site_programs_are_accepted`). Where such a request has ended in a container of the site, the laws say in the words
//! of the auction what the history shows of it, and so of its item (`items_tell_their_ends`,
//! `items_are_what_the_site_means`):
//!
//! ```text
//! a page                      its entry wrote and answered what the site means by the request's call, over the rows
//!                             just before the entry, whatever ran beside it
//! a page that was there       an earlier entry of the request's number, and what that one answers
//! a journal without room      the entry that did not fit is what the site means by the call over the rows at its begin
//! a group that was down,      is of Web, of what the action goes through, or of the owner of a table that the action
//! or was rebooted             reaches
//! a component that failed     is such a one
//! a conflict                  is over a table that the action reaches
//! fewer than three tries      by a purchase alone
//! ```
#![tactic(auto)]

mod laws;
mod maker;
mod meaning;
mod reach;

pub use laws::{
    items_tell_their_ends, journals_stay_meant_by_requests, pages_are_what_the_site_means,
    site_programs_are_accepted,
};
pub use maker::SiteMaker;
pub use meaning::items_are_what_the_site_means;
pub use reach::requests_touch_what_their_actions_reach;
