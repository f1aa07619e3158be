//! Reports of requests that failed, on their way from the threads that serve requests to the one that decides.
//!
//! A queue has 256 places, and each thread that uses it has a pass to it:
//!
//! ```text
//! let (queue, mut passes) = ReportQueue::<(), Free>::new(alloc, 9)?;  // and 9 passes to it
//! let mut pass = passes.take();                                       // for one thread
//!
//! match queue.put::<Free, W>(rt, &mut pass, report) {                 // at the end
//!     Ok(()) => ..,
//!     Err(report) => ..,                                              // 256 reports stood in it
//! }
//! match queue.take::<Free, W>(rt, &mut pass) {                        // from the front
//!     Some(report) => ..,
//!     None => ..,                                                     // no report stood in it
//! }
//! ```
//!
//! What a queue holds no clause can name, since another thread may change it at any moment. So a queue is generic in a
//! rule of what it holds and of what its passes know, and each call in what its caller learns by it. A report comes
//! back only where 256 reports stood in the queue at a moment of the call, and none is taken only where none stood in
//! it at a moment of the call. A body that answers so without a look at the queue has nothing to show what the caller
//! learns with, since it knows of no reports that meet the rule; and one that loses a report, or makes one up, cannot
//! keep the rule. What is put joins the queue at its end, and what is taken left it at its front.
//!
//! The rule `Free` asks nothing and tells nothing; it is the rule of a queue of which no other is named.
//!
//! The queue is a `RuledArrayQueue` of `crossbeam_queue`. `new` takes memory, and nothing else does. Another thread
//! may keep a put or a take waiting while it is in the middle of its own; that a report arrives is not promised.
#![tactic(auto)]

mod pass;
mod queue;

pub use crossbeam_queue::protocol::Free;
pub use pass::{ReportPass, ReportPassList};
pub use queue::{REPORT_PLACES, ReportQueue};
