//! Laws of commands. Each is the contract of a function that does nothing: a caller that needs the
//! law calls the function.

ghost use Rattle.std.specs.Prelude.{◌≡◌, ℕ, List, [], Option, Some};
ghost use Rattle.outside.specs.Faults.{Rose};
ghost use Rattle.outside.specs.Keeper.{KeeperTold};
ghost use Rattle.scenario_engine.specs.KeeperCalls.{KeeperSeen};
ghost use Rattle.scenario_engine.specs.Transcript.{Turn, lines_in, first, end_from, IsAnswered};
ghost use Rattle.workload.specs.Working.{Works};
ghost use Rattle.drive_engine.specs.declared.words.Command.{Command};
ghost use Rattle.drive_engine.specs.Command.{CallsFor};
ghost use Rattle.drive_engine.specs.Drive.{ScenarioStands, TurnsStand, WereAsked, WereAskedWhole};
ghost use Rattle.drive_engine.specs.Work.{workload_text};

use descriptor_text::texts_have_an_answer;
use scenario_engine::{
    boots_are_sound, commits_are_of_their_boot, connections_serve_their_requests,
    decisions_are_by_all_reports, journals_are_meant, keepers_tell, no_turns_break_the_order,
    no_turns_commit_after_a_reboot, scenarios_have_browsers, scenarios_have_sessions,
};

/// Whatever the turns, what they did stands where they were done: the keeper was called as they say, and what
/// connections heard is spelled.
pub(crate) fn turns_stand()
    ensures { (turns : List Turn) (old new : KeeperSeen)
        → WereAsked turns old new → TurnsStand turns old new }
{
    keepers_tell();
    boots_are_sound();
    no_turns_commit_after_a_reboot();
    no_turns_break_the_order();
    commits_are_of_their_boot();
    journals_are_meant();
    scenarios_have_sessions();
    scenarios_have_browsers();
}

/// Whatever the turns, what they did stands where they were done, each step of a connection by its calls; each
/// connection of a browser served its requests; and it was decided by all reports so far.
pub(crate) fn scenarios_stand()
    ensures { (turns : List Turn) (old new : KeeperSeen)
        → WereAskedWhole turns old new → ScenarioStands turns old new }
{
    turns_stand();
    connections_serve_their_requests();
    decisions_are_by_all_reports();
}

/// A text has lines, and calls for a status whatever the keeper replies to each of them, where its replies are as many
/// as the steps of connections: no line is under way. A workload has one empty line, whatever the text. So each text
/// has one of the ends that the status's clauses describe.
pub fn texts_call_for_a_status()
    ensures { (command : Command) (text : List ℕ) → (lines : List (List ℕ))
        × ((turns : List Turn) → lines_in turns ≡ lines → IsAnswered (end_from first 1 turns)
        → (status : ℕ) × CallsFor command text turns status) }
{
    texts_have_an_answer();
}

/// A text calls for one status at most, where the keeper replies the same. So the status that a run ends with, where
/// neither input nor output fails and memory does not run out, comes exactly where text and keeper call for it.
pub fn texts_call_for_one_status()
    ensures { (command : Command) (text : List ℕ) (turns : List Turn) (a b : ℕ)
        → CallsFor command text turns a → CallsFor command text turns b → a ≡ b }
{}

/// The summary of a workload is a function of its two numbers where its keeper gave no rows and did not fail: as one
/// does that tells, holds none, and whose count of faults did not rise.
pub fn workloads_over_no_rows_have_one_summary()
    ensures given { (number count : ℕ) (text : List ℕ) (old new : Option KeeperTold) (before after : ℕ)
        → (works : Works number count text old new before after) → works.opens.rows ≡ []
        → ¬ Rose before after → text ≡ workload_text number count }
    ensures told { (number count : ℕ) (text : List ℕ) (old : KeeperTold) (new : Option KeeperTold)
        (before after : ℕ) → old.rows ≡ [] → Works number count text (Some old) new before after
        → ¬ Rose before after → text ≡ workload_text number count }
{}
