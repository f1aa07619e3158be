//! One request in a container, a step at a time: at most three tries, all under one number.
//!
//! ```text
//! let mut tries = RequestTries::new(alloc, request, worker, text);
//! loop {
//!     match tries.step(alloc, &mut container, &program)? {
//!         Progress::Went => { .. }
//!         Progress::Ended(ended) => return refuse(ended),
//!         Progress::Done(done) => {
//!             let response = respond(alloc, &done)?;
//!             if let Some(ended) = tries.commit(alloc, &mut container, &program, done)? {
//!                 return send(response, ended);
//!             }
//!         }
//!     }
//! }
//! ```
//!
//! Each step is one event of the container: the begin of an attempt, or the step that the program asks for; and so is a
//! commit. Who steps lets go of the container after each, and others may use it in between: what was said of a request
//! stays so (`ends_stay_true`). A step is fixed but for memory, and a commit but for memory and the keeper (`StepsAs`
//! and `CommitsAs` in `specs/Steps`). What they add to the history is told by `Brings`: a commit one entry, or the mark
//! of a keeper that failed, and all else nothing.
//!
//! A try that was in conflict is made again, and so is one that was revoked, where each method that it entered may be
//! called again; three tries at most. The end of a request says what became of it, and stands in the history at the end
//! of its last step (`EndStands` in `specs/Ends`): its own entry is the last event then, and is what the program makes
//! over the rows just before it, and each refusal has its cause there. A request commits once (`requests_commit_once`),
//! and where nothing hinders it, it does (`unhindered_requests_are_served`).
//!
//! A step never commits: where the program is done it answers `Done`, so that whoever serves the request can take all
//! the memory that its response wants before the commit. Once the entry was added no memory is wanted any more.
//!
//! Where a request has ended, or memory was wanted, nothing is said of its text and its tries: it is given up.
#![tactic(auto)]

mod answers;
mod laws;
mod outcome;
mod tries;

pub use laws::{
    ends_begin_with_the_first_try, ends_stay_true, requests_commit_once, requests_have_three_tries,
    single_calls_alone_end_early, single_calls_are_made_once, unhindered_requests_are_served,
};
pub use outcome::{
    Ended, HistoryFront, MAX_TRIES, Progress, RequestOutcome, Try, TryCause, TryList,
};
pub use tries::RequestTries;
