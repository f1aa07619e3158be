//! Commands, from the bytes of their input to the bytes that they write and the rows that their keeper holds.
//!
//! `run_command` is the program without its outside. For `drive` it reads a scenario piece by piece, does each
//! line over its keeper as soon as the line was read to its end, and writes what the line writes before it does
//! the next. A line with what the keeper replies to it is a turn of `scenario_engine`. What is written is a
//! function of the turns alone, `transcript` of its `specs/Transcript`; so is how the scenario ends, `end_from`,
//! and which calls of the keeper it makes, `calls_from`. For `groups` it reads a descriptor text to its end, and
//! writes the lines of its deployment, `groups_text` of `specs/Groups`. For `workload` it reads nothing, runs the
//! workload over the keeper, and writes its summary (`WritesSummary` of `specs/Work`); that is a function of the number
//! and of the count of turns alone where the keeper gave no rows and did not fail, `workload_text`.
//!
//! ```text
//! let (status, keeper) = run_command(alloc, words, &mut input, &mut out, &mut errors, keeper);
//! ```
//!
//! Which status a text calls for is `CallsFor` of `specs/Command`; the laws `texts_call_for_a_status` and
//! `texts_call_for_one_status` say that there is exactly one, whatever the keeper replies. However a scenario
//! ends, what it did stands (`ScenarioStands` of `specs/Drive`): a keeper that tells holds the rows that its boots
//! leave, over any keeper the count of faults rose where it failed at a call, each fetch of a session answers what
//! was written, or says why not, and on each report of a request that failed it was decided by all reports so far.
//! The keeper is handed back.
//!
//! A scenario takes room for one piece and one line, however long it is. A line visits its bytes and those that it
//! writes, and what its call of the boot visits; a begin also makes a place for each caller of a lesser number
//! that has none. `groups` visits each byte of its text and of its lines. `workload` costs what `run_workload` says.
#![tactic(auto)]

mod command;
mod drive;
mod ending;
mod groups;
mod laws;
mod play;
mod words;
mod work;

pub use command::run_command;
pub use drive::MAX_SCENARIO_BYTES;
pub use ending::Ending;
pub use groups::MAX_DESCRIPTOR_BYTES;
pub use laws::{
    texts_call_for_a_status, texts_call_for_one_status, workloads_over_no_rows_have_one_summary,
};
pub use words::{Command, USAGE};
