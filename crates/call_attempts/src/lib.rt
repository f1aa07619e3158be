//! Attempts: calls that follow a program in a container, one step at a time.
//!
//! ```text
//! let ticket = container.begin(alloc, request, worker)?;
//! let mut attempt = Attempt::new(alloc, ticket);
//! match attempt.step(alloc, &mut container, &program)? {
//!     Stepped::Went => { .. }
//!     Stepped::Done(done) => container.commit(alloc, attempt.into_ticket(), Some(action)),
//!     Stepped::Stopped(stop) => container.abandon(attempt.into_ticket()),
//! }
//! ```
//!
//! An attempt is under way (`IsUnderWay` in `specs/Attempt`) from its begin on: its call made just the steps that the
//! program asked for, over the rows at its begin. Others may use the container between any two of its steps, and it
//! stays under way (`attempts_stay_under_way`). Each step comes to one thing alone (`steps_are_fixed`): it is answered,
//! or the program is done, or a reboot or a component that fails stops it (`reboots_and_faults_alone_stop`). No limit
//! of a call can stop it, since a program keeps them: where nothing stops it, its program is done after at most 128
//! answers (`attempts_come_to_their_end`). An attempt remembers each step that may not be made again
//! (`single_calls_are_remembered`), and the components that it entered, in order: the path of one that fails. It tells
//! which one its last step entered (`attempts_tell_what_they_entered_last`).
//!
//! A step costs one call of the container. The answers are kept until the attempt ends, and the program sees all of
//! them at each step.
#![tactic(auto)]

mod attempt;
mod laws;
mod steps;
mod stop;

pub use attempt::{Attempt, Stepped};
pub use laws::{
    attempts_come_to_their_end, attempts_stay_under_way, attempts_tell_what_they_entered_last,
    reboots_and_faults_alone_stop, single_calls_are_remembered, steps_are_fixed,
};
pub use stop::Stop;
