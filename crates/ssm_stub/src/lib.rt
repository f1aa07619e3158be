//! Writes of sessions to bricks, and reads from them, over a link that loses, repeats and reorders what
//! it will.
//!
//! A write puts a value to several bricks and is done once enough of them stored it; its cookie names
//! those. A read asks the bricks of a cookie, one after another, until one has the value:
//!
//! ```text
//! let written = write(alloc, &mut link, &mut passes, 2, nonce, key, &value, expiry);
//! settle(alloc, &mut link, &mut passes, nonce, key);       // hears the bricks that are left
//! windows.spend(passes);                                   // each pass is marked by now
//! let cookie = written?;
//! let value = read(alloc, &mut link, now, nonce, &cookie)?;
//! ```
//!
//! A brick is heard until one frame is a lawful reply: it has this call's nonce, key and version and the
//! brick's number, and is of a kind that answers (`lawful_put`, `lawful_get` in the contracts). Any other
//! frame is a stray. The outcome of a brick is such a reply, silence, or that 64 strays came
//! (`MAX_STRAYS`). A refusal tells each brick that did not serve with its cause (`Cause`). The law
//! `lawful_replies_are_exact` says which frames are lawful replies.
//!
//! Each call is a machine of small steps, `WriteCall` and `ReadCall`: `next` says what it wants, `ask` and
//! `frame` give what to send, as a frame and as bytes, `hear` and `hear_told` tell it what came of it, and
//! `answer` is its answer. So a test, or a world that delivers frames in any order, steps it by hand.
//! `write_step` and `read_step` make one step over any `Link`, and the law `runs_join` says that steps are
//! runs. `write`, `settle` and `read` are the loops; their contracts say that the link made just the calls for
//! the machine's events, in order, and what the answer of the last state is (`WriteEnds`, `ReadEnds`), and
//! the same of a call that memory broke off (`WriteStops`, `ReadStops`).
//!
//! Laws say what that means, by the calls of the link alone: a cookie names the first that gave a lawful
//! Stored (`written_cookies_name_who_stored`), a missed write and a lost read have a cause for each brick
//! (`missed_writes_have_causes`, `lost_reads_have_causes`), a value was found
//! (`read_values_were_found`), and causes are among what the link counts (`causes_are_counted`). What is
//! heard of a brick is its own (`each_hears_its_own`, `calls_tell_each_its_own`), and each outcome has
//! exactly its events (`an_outcome_of_a_put_has_its_events`, `an_outcome_of_a_get_has_its_events`). The same
//! of a call that was stepped without a link is said by `a_cookie_names_who_stored`,
//! `a_missed_write_has_causes`, `a_lost_read_has_causes` and `a_read_value_was_found`.
//!
//! A call keeps one entry a brick, at most 16 of them, and each step visits these a few times. The ask is
//! encoded once, and frames are received into one buffer.
#![tactic(auto)]

mod ask;
mod cause;
mod ear;
mod event;
mod exchange;
mod lawful;
mod laws;
mod read_call;
mod reading;
mod reply;
mod settling;
mod staying;
mod stepping;
mod told;
mod write_call;
mod writing;

pub use ask::{Ask, Turn};
pub use cause::{BrickCause, Cause, CauseList};
pub use ear::{Ear, MAX_STRAYS, Outcome, Stage};
pub use event::{BrickList, StubEvent, StubNext, Told};
pub use lawful::lawful_replies_are_exact;
pub use laws::{
    a_cookie_names_who_stored, a_silence_is_told, an_answered_write_is_a_run,
    an_outcome_of_a_get_has_its_events, an_outcome_of_a_put_has_its_events,
    calls_tell_each_its_own, causes_are_counted, each_hears_its_own, lost_reads_have_causes,
    missed_writes_have_causes, read_values_were_found, settled_bricks_have_outcomes,
    written_cookies_name_who_stored,
};
pub use read_call::{ReadCall, ReadRefusal};
pub use reading::read;
pub use reply::{ReadReply, Reference, WriteReply};
pub use settling::settle;
pub use staying::answers_stay;
pub use stepping::{read_step, runs_join, write_step};
pub use told::{a_lost_read_has_causes, a_missed_write_has_causes, a_read_value_was_found};
pub use write_call::{WriteCall, WriteRefusal};
pub use writing::{bricks_of, mark_passes, write};
