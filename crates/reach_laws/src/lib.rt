//! Laws of what the sixteen actions enter and access, in the words of attempts and requests.
//!
//! `auction_site` says how far each action reaches: `reach_of`, a table of sixteen rows, has the components that it may
//! enter and the tables of which it may read, list and put rows. Each step of a call stays within that reach. Here it
//! is said of whole programs, so that who tries a request of the site knows what may have stopped it:
//!
//! ```text
//! a try was stopped by a group     EntersGroup: of Web, of what its action goes through, or of the owner of a table
//!                                  that the action reaches
//! a try was in conflict            Accesses: over a table that the action reaches
//! a request had fewer tries        EntersOnce: it was a purchase
//! ```
//!
//! `calls_enter_owners`, `calls_access_reached_tables` and `purchases_enter_once` hold after whatever answers, also
//! such as never come. `reaches_are_exact` keeps the table from being wider than what calls do over some rows.
#![tactic(auto)]

mod laws;

pub use laws::{
    calls_access_reached_tables, calls_enter_owners, purchases_enter_once, reaches_are_exact,
};
