//! Plans of actions: what an action reads, one row or table after the other, and what it then writes and answers.
//!
//! An action is written as a plan over the answers to its reads: it reads, is refused or goes on, and gives its
//! outcome. All its reads come before its puts.
//!
//! ```text
//! let mut reads = Reads::new(answers);
//! let came = bid(alloc, &call, &mut reads);
//! let want = want_of(alloc, came)?;
//! next_step(alloc, tables, through, answers, want)
//! ```
//!
//! `next_step` makes a program of it: it enters the gateway and what the action goes through, accesses each table
//! inside its owner, puts what the outcome writes, leaves all and is done. The law `plans_run` says that the run of
//! this program over any rows gives just what the plan comes to over them at once. Which components and tables there
//! are is the deployment's affair: the code takes its tables, and the laws speak of any parts. By
//! `programs_begin_and_end` the program enters the gateway first, and has left all that it entered where it is done.
#![tactic(auto)]

mod laws;
mod plan;
mod reads;
mod steps;

pub use laws::{plans_run, programs_begin_and_end};
pub use plan::{GATEWAY, MAX_ACCESSES, Outcome, Stop, Through, Want};
pub use reads::Reads;
pub use steps::{fixed_step, next_step, want_of};
