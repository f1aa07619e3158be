//! Laws of what writes and reads send, and of how writes mark their passes.
//!
//! A write sends its ask to each of its bricks once, in asked order, before it hears any; a read sends its
//! ask to one holder after another, until one gave the value; and neither sends anything after its answer.
//! `answered_writes_asked_each_brick` and `answered_reads_asked_in_order` say so of the very calls of the
//! link by which the answer of `ssm_stub::write` or `read` came about, and the two other laws of each run of
//! the machines. `marks_are_of_outcomes` says that each pass is marked by what the link's calls tell of its
//! brick.
#![tactic(auto)]

mod asking;
mod marking;

pub use asking::{
    answered_reads_asked_in_order, answered_writes_asked_each_brick, reads_send_their_ask_in_order,
    writes_send_their_ask_once,
};
pub use marking::marks_are_of_outcomes;
