//! What a server of a site tells its operator, in lines, and with which status it ends.
//!
//! ```text
//! log_event(alloc, &mut errors, &deployment, ServiceEvent::Started { boot: 7, rows: 120 });
//! // boot 7 started over 120 rows
//! log_event(alloc, &mut errors, &deployment, ServiceEvent::Rebooted { scope, milliseconds: 3 });
//! // rebooted Items Bids, down for 3 ms
//! ```
//!
//! Each event has one line (`line_of` of `specs/Lines`), and each end one status and one line (`status_of`, `end_line`).
//! A line for which there is no memory is not written, and a sink that fails changes nothing else.
#![tactic(auto)]

mod ending;
mod event;
mod lines;

pub use ending::{ServiceEnd, report_end};
pub use event::ServiceEvent;
pub use lines::log_event;
