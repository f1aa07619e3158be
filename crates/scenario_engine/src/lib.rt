//! A scenario, line by line, over a keeper.
//!
//! An `Engine` does one line after the other. Head lines build a deployment; the first event line starts a boot over
//! the rows of the keeper, `commit` hands its writes to the keeper before it is answered, as the steps of connections
//! do, and `reopen` starts the next boot over the keeper's rows. The engine owns the keeper, first beside its head and
//! then in a container with the boot, and hands it back at the end.
//!
//! ```text
//! let mut engine = Engine::new(alloc, keeper);
//! match engine.do_text(alloc, b"begin c1") { .. }
//! let keeper = engine.into_keeper();
//! ```
//!
//! A line with what the keeper replies while it is done is a `Turn` of `specs/Transcript`. What turns write, how they
//! end, and which calls of the keeper they make are functions of the turns alone: `transcript`, `end_from` and
//! `calls_from`. The engine is proved to answer each line so, and to make just these calls; over any keeper its count
//! of faults rises where it fails at one. The steps that connections make in a turn were made by their calls, and what
//! they heard is spelled by its bytes, as each frame of the code is (`WereMade` of `specs/Telling.antt`).
//!
//! The laws hold for all turns, whatever the keeper replies: `boots_are_sound`, `no_turns_commit_after_a_reboot`,
//! `no_turns_break_the_order` and `commits_are_of_their_boot` for the journals of the boots, `journals_are_meant` for
//! what their actions mean, `keepers_tell` for the rows that the keeper holds, `boots_rise` for the numbers of boots
//! over a keeper that tells, `connections_stand_over_bricks` for the sessions of connections, `scenarios_have_browsers`
//! for what browsers read of them, `connections_serve_their_requests` for what each connection serves, from the line on
//! by which it opened, and `keepers_decide` for what decides the transcript. A keeper replies to one step of a
//! connection after the other, so turns may stop inside a run: `lines_are_answered` and `lines_go_on_by_steps` say
//! where, and what the next step asks; `runs_come_to_rest` says that a run whose steps are counted comes to its end,
//! and `runs_of_scenarios_come_to_rest` that the steps of each run of a scenario are.
//!
//! `failures_are_of_calls` says at which calls a keeper has failed of which that is told, `nonces_are_of_one_node` that
//! lines and connections draw nonces at one node, `transcripts_begin_alike` that what is written up to a step of a run
//! begins what is written in the end, and `connections_read_what_was_written` what one step of a connection hears.
//! `lines_about_connections_are_taken` says that these lines are taken over a boot of the site, which has the site's
//! parts (`boots_of_the_site_have_its_parts`), and `steps_made_are_those_of_lines` that the steps of which the laws
//! speak are those that such lines make, which `seat_lines::steps_made_are_those_of_a_line` names.
//! `connections_go_by_their_lines` says which bytes came to a connection, and which of these steps are its own.
//!
//! A manager hears of requests that failed, over all boots: what lines `report` say of them, and what the steps of
//! connections report. `decisions_are_by_all_reports` says that on each report it decides by all reports so far, and
//! `reports_are_those_of_lines` which these are, and that each `decide` line tells such a decision.
#![tactic(auto)]

mod connections;
mod engine;
mod failure;
mod laws;
mod reporting;
mod resting;
mod running;
mod serving;

pub use connections::{
    connections_read_back, connections_read_what_was_written, connections_stand_over_bricks,
    journals_are_meant, scenarios_have_browsers, steps_made_are_those_of_lines,
};
pub use engine::Engine;
pub use failure::{LineFailure, UnstartedCause};
pub use laws::{
    boots_are_sound, boots_rise, commits_are_of_their_boot, failures_are_of_calls, keepers_decide,
    keepers_tell, lines_about_connections_are_taken, lines_are_answered, lines_go_on_by_steps,
    no_commit_is_kept_partly, no_turns_break_the_order, no_turns_commit_after_a_reboot,
    nonces_are_of_one_node, scenarios_have_sessions, transcripts_begin_alike,
};
pub use reporting::{decisions_are_by_all_reports, reports_are_those_of_lines};
pub use resting::{
    boots_of_the_site_have_its_parts, runs_come_to_rest, runs_of_scenarios_come_to_rest,
};
pub use serving::{connections_go_by_their_lines, connections_serve_their_requests};
