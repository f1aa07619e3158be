//! The responses of the site: what a request is answered, and its bytes.
//!
//! Who serves a request ends with a `SiteAnswer`, and a connection that takes no further request off its bytes with an
//! `Untaken`:
//!
//! ```text
//! let bytes = response_of(alloc, &SiteAnswer::NotThere, head.close, head.method == MethodKind::HeadOnly)?;
//! let last = untaken_response(alloc, Untaken::TooLong)?;     // 431, and the connection ends
//! ```
//!
//! | Answer | Status | Heading of the page | Besides |
//! |---|---|---|---|
//! | `Page` | the page's | the page's | the cookie, where the session was written |
//! | `NotThere` | 404 | `Not there` | |
//! | `NotAllowed` | 405 | `Method not allowed` | `Allow` |
//! | `Multipart` | 415 | `Form not understood` | |
//! | `BadForm` | 400 | `Bad field` and its name | |
//! | `StaleForm` | 409 | `Form is old` | |
//! | `Expired` | 403 | `Session expired` | the cookie is cleared |
//! | `Lost` | 403 | `Session lost` | the cookie is cleared |
//! | `TryAgain` | 503 | `Try again` | `Retry-After` |
//! | `Failed` | 500 | `Failed` | |
//! | `Bad` | 400 | `Bad request` | the connection ends |
//! | `TooLong` | 431 | `Head too long` | the connection ends |
//! | `BodyTooLong` | 413 | `Body too long` | the connection ends |
//! | `NoCoding` | 501 | `Coding not supported` | the connection ends |
//!
//! `specs/Responses.antt` has this table as `said` and `said_untaken`, and the bytes over it as `response`. Each page
//! but the first is its heading and no lines. The law `cookies_change_with_sessions` says when a response sets the
//! cookie or clears it, `retries_keep_cookies` that the one that tells the client to try again does neither,
//! `fields_come_with_their_answers` when `Allow`, 403 and the end of the connection are told, and
//! `heads_are_answered_as_gets` that HEAD leaves out the page and nothing else.
//!
//! An entry of the journal may have no action, where its request was committed by another client than a shepherd. Who
//! is told that such an entry stands answers `Page` with status 500 and `failed_page`, and not `Failed`: its session
//! may be renewed, and its cookie is set then. `failed_pages_say_what_failed_says` says that nothing else differs.
//!
//! A response is written once, and a cookie's text is copied before.
#![tactic(auto)]

mod answer;
mod laws;
mod responses;

pub use answer::{SiteAnswer, Untaken};
pub use laws::{
    cookies_change_with_sessions, failed_pages_say_what_failed_says,
    fields_come_with_their_answers, heads_are_answered_as_gets, retries_keep_cookies,
};
pub use responses::{failed_page, page_response, response_of, untaken_response};
