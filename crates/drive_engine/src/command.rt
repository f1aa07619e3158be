//! Commands over their outside.

ghost use Rattle.std.specs.Prelude.{codes, ◌≡◌, ◌≢◌, ◌≤◌, ◌↔◌, ◌⊎◌, ℕ, ◌==◌, true, false, [], ◌∷◌, Some, None, IfOk, IfSome, string_bytes};
ghost use Rattle.std.specs.List.{list_any};
ghost use Rattle.scenario_engine.specs.declared.failure.UnstartedCause.{UnstartedCause};
ghost use Rattle.outside.specs.Faults.{Rose};
ghost use Rattle.outside.specs.Sink.{AppendsOrFails};
ghost use Rattle.scenario_engine.specs.KeeperCalls.{seen};
ghost use Rattle.drive_engine.specs.Command.{WritesAll, FailsToRead, FailsToWrite, LeavesUnstarted, HasLongLine, EndsOutOfMemory, asks_keeper, Runs, Ends, IsCalledFor};
ghost use Rattle.drive_engine.specs.Drive.{StopsAtLine, StopsPastLimit};
ghost use Rattle.drive_engine.specs.Ending.{report, line_report, long_line_report, bad_row_report, IsReported};
ghost use Rattle.drive_engine.specs.Exchange.{exchange};
ghost use Rattle.drive_engine.specs.Groups.{RefusesDescriptors, is_silent};
ghost use Rattle.drive_engine.specs.Words.{command_of, HasFewTurns};

use crate::drive::drive;
use crate::ending::Ending;
use crate::groups::groups;
use crate::words::{Command, USAGE, command_of};
use crate::work::work;
use crash_base::{OutOfMemory, RowId, WordText};
use outside::{Keeper, Sink, Source, write_all};
use scenario_engine::UnstartedCause;
use std::alloc::Global;
use std::fmt::Write;

/// Writes a report to the errors. A fault there changes nothing else.
fn write_report<E: Sink>(errors: &mut E, text: &str)
    ensures { AppendsOrFails (E.written errors.old) (E.written errors.new)
        (E.faults errors.old) (E.faults errors.new) text.now }
{
    let _ = write_all(errors, text.as_bytes());
}

/// What is reported of a refused line.
fn line_report(alloc: Global, number: u64) -> Result<String, OutOfMemory>
    ensures { IfOk result (λ text. string_bytes text ≡ line_report number) }
{
    let mut text = String::new(alloc);
    write!(text, "line {number}\n")?;
    Ok(text)
}

/// What is reported of a line that is too long.
fn long_line_report(alloc: Global, number: u64) -> Result<String, OutOfMemory>
    ensures { IfOk result (λ text. string_bytes text ≡ long_line_report number) }
{
    let mut text = String::new(alloc);
    write!(text, "line {number} too long\n")?;
    Ok(text)
}

/// What is reported of a bad row.
fn bad_row_report(alloc: Global, id: RowId) -> Result<String, OutOfMemory>
    ensures { IfOk result (λ text. string_bytes text ≡ bad_row_report id) }
{
    let table = id.table;
    let key = id.key;
    let mut text = String::new(alloc);
    write!(text, "bad row {table} {key}\n")?;
    Ok(text)
}

/// Reports how a command ended, with the numbers of this report, or that there was no memory for it.
fn report_numbers<E: Sink>(
    ending: Ending,
    numbers: Result<String, OutOfMemory>,
    errors: &mut E,
) -> Ending
    requires { IfOk numbers (λ text. string_bytes text ≡ report ending) }
    ensures ending { (result ≡ ending) ⊎ (result ≡ Ending.OutOfMemory) }
    ensures reported { AppendsOrFails (E.written errors.old) (E.written errors.new)
        (E.faults errors.old) (E.faults errors.new) (report result) }
{
    match numbers {
        Ok(text) => {
            write_report(errors, text.as_str());
            ending
        }
        Err(OutOfMemory) => {
            write_report(errors, Ending::OutOfMemory.fixed_report());
            Ending::OutOfMemory
        }
    }
}

/// Reports how a command ended, and answers it.
fn report_ending<E: Sink>(alloc: Global, ending: Ending, errors: &mut E) -> Ending
    ensures ending { IsReported ending result }
    ensures reported { result ≢ Ending.Done
        → AppendsOrFails (E.written errors.old) (E.written errors.new)
        (E.faults errors.old) (E.faults errors.new) (report result) }
    ensures silent { result ≡ Ending.Done → errors.new ≡ errors.old }
{
    match ending {
        Ending::Done => ending,
        Ending::LineRefused(number) => report_numbers(ending, line_report(alloc, number), errors),
        Ending::LineTooLong(number) => {
            report_numbers(ending, long_line_report(alloc, number), errors)
        }
        Ending::BadRow(id) => report_numbers(ending, bad_row_report(alloc, id), errors),
        _ => {
            write_report(errors, ending.fixed_report());
            ending
        }
    }
}

/// Runs a command over its input, its output and its keeper, which is handed back.
fn run<S: Source, T: Sink, K: Keeper + Drop>(
    alloc: Global,
    command: Command,
    input: &mut S,
    out: &mut T,
    keeper: K,
) -> (Ending, K)
    requires { HasFewTurns command }
    ensures runs { Runs command result.0
        (exchange (S.left input.old) (S.left input.new) (T.written out.old) (T.written out.new)
        (seen (K.told keeper) (K.faults keeper)) (seen (K.told result.1) (K.faults result.1))) }
    ensures read_failed { result.0 ≡ Ending.ReadFailed
        → Rose (S.faults input.old) (S.faults input.new) }
    ensures write_failed { result.0 ≡ Ending.WriteFailed
        → Rose (T.faults out.old) (T.faults out.new) }
    ensures keeper_failed { result.0 ≡ Ending.KeeperFailed
        → Rose (K.faults keeper) (K.faults result.1) }
    ensures keeper_count { K.faults keeper ≤ K.faults result.1 }
    ensures silent { command ≡ Command.Groups → is_silent result.0 ≡ true → out.new ≡ out.old }
    ensures unasked { asks_keeper (Some command) ≡ false → result.1 ≡ keeper }
    ensures unwritten { (number count : ℕ) → command ≡ Command.Workload number count
        → result.0 ≢ Ending.Done → result.0 ≢ Ending.WriteFailed → out.new ≡ out.old }
    ensures unread { (number count : ℕ) → command ≡ Command.Workload number count → input.new ≡ input.old }
{
    match command {
        Command::Drive => drive(alloc, input, out, keeper),
        Command::Groups => (groups(alloc, input, out), keeper),
        Command::Workload { number, count } => work(alloc, number, count, out, keeper),
    }
}

/// Runs the command that words spell, if they do, over its input, its output and its keeper, which is handed back.
fn run_words<S: Source, T: Sink, K: Keeper + Drop>(
    alloc: Global,
    words: &[WordText],
    input: &mut S,
    out: &mut T,
    keeper: K,
) -> (Ending, K)
    ensures ends { Ends (command_of words.now) result.0
        (exchange (S.left input.old) (S.left input.new) (T.written out.old) (T.written out.new)
        (seen (K.told keeper) (K.faults keeper)) (seen (K.told result.1) (K.faults result.1))) }
    ensures read_failed { result.0 ≡ Ending.ReadFailed
        → Rose (S.faults input.old) (S.faults input.new) }
    ensures write_failed { result.0 ≡ Ending.WriteFailed
        → Rose (T.faults out.old) (T.faults out.new) }
    ensures keeper_failed { result.0 ≡ Ending.KeeperFailed
        → Rose (K.faults keeper) (K.faults result.1) }
    ensures keeper_count { K.faults keeper ≤ K.faults result.1 }
    ensures silent { command_of words.now ≡ Some Command.Groups
        → is_silent result.0 ≡ true → out.new ≡ out.old }
    ensures unasked { asks_keeper (command_of words.now) ≡ false → result.1 ≡ keeper }
    ensures unread { (number count : ℕ) → command_of words.now ≡ Some (Command.Workload number count)
        → input.new ≡ input.old }
    ensures unwritten { (number count : ℕ) → command_of words.now ≡ Some (Command.Workload number count)
        → result.0 ≢ Ending.Done → result.0 ≢ Ending.WriteFailed → out.new ≡ out.old }
    ensures unknown { command_of words.now ≡ None
        → (input.new ≡ input.old) × (out.new ≡ out.old) }
{
    match command_of(words) {
        Some(command) => run(alloc, command, input, out, keeper),
        None => (Ending::UnknownCommand, keeper),
    }
}

/// Runs a command over its outside, and answers its status and the keeper.
///
/// - 0: the input was read to its end. For `drive` what was written is the transcript of its lines, and for
///   `groups` the line of each component that it describes. For `workload` nothing was read, its turns were taken over
///   the keeper, and its summary was written.
/// - 2: the words spell no command.
/// - 3: a line of a scenario was refused, whose number is reported.
/// - 4, 5: the input, the output failed.
/// - 6: the keeper failed while a boot was to be started.
/// - 7: the keeper gave a row that may not be loaded, whose table and key are reported.
/// - 8: a line of a scenario has more than 8,192 bytes, whose number is reported; or a descriptor text has more
///   than 1,048,576 bytes, which is reported as its line 1.
/// - 9: memory ran out.
/// - 10: a descriptor text describes no deployment.
/// - 11: a boot was not started, since the number of the last one is the greatest that there is.
/// - 12: a scenario has more than 4,294,967,295 bytes.
///
/// `drive` reads piece by piece, and does each line as soon as it was read to its end. So at 3 to 9, 11 and 12
/// the lines before were done, and their transcript was written. The keeper, where it tells, holds what these lines
/// left; but a line that was refused (3), was not written whole (5), needs a boot that was not started (6, 7, 11) or
/// ran out of memory (9) may have handed it the number of a boot; at 5 also the rows of the commits of that line, and
/// at 9 those of the commits that the steps of a connection made by then.
///
/// A workload that has no summary writes nothing. At 0 and 5 the keeper, where it tells, holds just the rows that its
/// turns left, and at 9 those of the turns that were taken by then, if it came to the first.
///
/// How it ended is reported on `errors`, except at 0.
pub fn run_command<S: Source, T: Sink, E: Sink, K: Keeper + Drop>(
    alloc: Global,
    words: &[WordText],
    input: &mut S,
    out: &mut T,
    errors: &mut E,
    keeper: K,
) -> (u8, K)
    // Only a scenario and a workload ask the keeper, whose count of faults never falls. A workload reads nothing, and
    // but at 0 and 5 it writes nothing.
    ensures unasked { asks_keeper (command_of words.now) ≡ false → result.1 ≡ keeper }
    ensures keeper_count { K.faults keeper ≤ K.faults result.1 }
    ensures unread { (number count : ℕ) → command_of words.now ≡ Some (Command.Workload number count)
        → input.new ≡ input.old }
    ensures unwritten { (number count : ℕ) → command_of words.now ≡ Some (Command.Workload number count)
        → result.0 ≢ 0 → result.0 ≢ 5 → out.new ≡ out.old }
    ensures statuses { list_any (λ status. status == result.0)
        (0 ∷ 2 ∷ 3 ∷ 4 ∷ 5 ∷ 6 ∷ 7 ∷ 8 ∷ 9 ∷ 10 ∷ 11 ∷ 12 ∷ []) ≡ true }

    // At 0 the input was read to its end and all was written: the transcript of a scenario, or the groups of a
    // deployment. For a workload nothing was read, it ran to its end over the keeper, and its summary was written.
    // Nothing is reported.
    ensures done { result.0 ≡ 0 → (errors.new ≡ errors.old)
        × IfSome (command_of words.now) (λ command. WritesAll command
        (exchange (S.left input.old) (S.left input.new) (T.written out.old) (T.written out.new)
        (seen (K.told keeper) (K.faults keeper)) (seen (K.told result.1) (K.faults result.1)))) }

    // At 2 the words spell no command, and else they do. Nothing was read or written.
    ensures words { (result.0 ≡ 2) ↔ (command_of words.now ≡ None) }
    ensures usage { result.0 ≡ 2 → (input.new ≡ input.old) × (out.new ≡ out.old)
        × AppendsOrFails (E.written errors.old) (E.written errors.new)
        (E.faults errors.old) (E.faults errors.new) USAGE.now }

    // At 3 a line was refused, and the transcript of the lines before it was written.
    ensures refused { result.0 ≡ 3 → (command_of words.now ≡ Some Command.Drive)
        × ((n : ℕ) × StopsAtLine n
        (exchange (S.left input.old) (S.left input.new) (T.written out.old) (T.written out.new)
        (seen (K.told keeper) (K.faults keeper)) (seen (K.told result.1) (K.faults result.1)))
        × AppendsOrFails (E.written errors.old) (E.written errors.new)
        (E.faults errors.old) (E.faults errors.new) (line_report n)) }

    // At 4 the input's count of faults rose. The transcript of the lines that had ended was written, or
    // for groups nothing. At 5 the output's rose, and a prefix was written of what the command writes.
    ensures read_failed { result.0 ≡ 4 → Rose (S.faults input.old) (S.faults input.new)
        × IfSome (command_of words.now) (λ command. FailsToRead command
        (exchange (S.left input.old) (S.left input.new) (T.written out.old) (T.written out.new)
        (seen (K.told keeper) (K.faults keeper)) (seen (K.told result.1) (K.faults result.1))))
        × (command_of words.now ≡ Some Command.Groups → out.new ≡ out.old)
        × AppendsOrFails (E.written errors.old) (E.written errors.new)
        (E.faults errors.old) (E.faults errors.new) (codes "read failed\n") }
    ensures write_failed { result.0 ≡ 5 → Rose (T.faults out.old) (T.faults out.new)
        × IfSome (command_of words.now) (λ command. FailsToWrite command
        (exchange (S.left input.old) (S.left input.new) (T.written out.old) (T.written out.new)
        (seen (K.told keeper) (K.faults keeper)) (seen (K.told result.1) (K.faults result.1))))
        × AppendsOrFails (E.written errors.old) (E.written errors.new)
        (E.faults errors.old) (E.faults errors.new) (codes "write failed\n") }

    // At 6, 7 and 11 a line needs a boot that was not started, and the transcript of the lines before it was
    // written; or that of a workload was not started. At 6 the keeper's count of faults rose, at 7 it gave a bad row,
    // and at 11 no number is left.
    ensures keeper_failed { result.0 ≡ 6 → Rose (K.faults keeper) (K.faults result.1)
        × IfSome (command_of words.now) (λ command. LeavesUnstarted command UnstartedCause.KeeperFailed
        (exchange (S.left input.old) (S.left input.new) (T.written out.old) (T.written out.new)
        (seen (K.told keeper) (K.faults keeper)) (seen (K.told result.1) (K.faults result.1))))
        × AppendsOrFails (E.written errors.old) (E.written errors.new)
        (E.faults errors.old) (E.faults errors.new) (codes "keeper failed\n") }
    ensures bad_row { result.0 ≡ 7 → (id : RowId)
        × IfSome (command_of words.now) (λ command. LeavesUnstarted command (UnstartedCause.BadRow id)
        (exchange (S.left input.old) (S.left input.new) (T.written out.old) (T.written out.new)
        (seen (K.told keeper) (K.faults keeper)) (seen (K.told result.1) (K.faults result.1))))
        × AppendsOrFails (E.written errors.old) (E.written errors.new)
        (E.faults errors.old) (E.faults errors.new) (bad_row_report id) }
    ensures boots_spent { result.0 ≡ 11
        → IfSome (command_of words.now) (λ command. LeavesUnstarted command UnstartedCause.BootsSpent
        (exchange (S.left input.old) (S.left input.new) (T.written out.old) (T.written out.new)
        (seen (K.told keeper) (K.faults keeper)) (seen (K.told result.1) (K.faults result.1))))
        × AppendsOrFails (E.written errors.old) (E.written errors.new)
        (E.faults errors.old) (E.faults errors.new) (codes "boots spent\n") }

    // At 8 a line has more bytes than it may have, and the transcript of the lines before it was written. Or
    // descriptors have, and nothing was written.
    ensures line_too_long { result.0 ≡ 8 → (n : ℕ)
        × IfSome (command_of words.now) (λ command. HasLongLine command n
        (exchange (S.left input.old) (S.left input.new) (T.written out.old) (T.written out.new)
        (seen (K.told keeper) (K.faults keeper)) (seen (K.told result.1) (K.faults result.1))))
        × (command_of words.now ≡ Some Command.Groups → out.new ≡ out.old)
        × AppendsOrFails (E.written errors.old) (E.written errors.new)
        (E.faults errors.old) (E.faults errors.new) (long_line_report n) }

    // At 9 the transcript of the lines that were done was written, or for groups and for a workload nothing. What the
    // lines did stands, and so do the steps of a connection that the next line had made by then, also one whose commit
    // the keeper had just kept; and so do the turns that a workload had taken.
    ensures out_of_memory { result.0 ≡ 9
        → IfSome (command_of words.now) (λ command. EndsOutOfMemory command
        (exchange (S.left input.old) (S.left input.new) (T.written out.old) (T.written out.new)
        (seen (K.told keeper) (K.faults keeper)) (seen (K.told result.1) (K.faults result.1))))
        × AppendsOrFails (E.written errors.old) (E.written errors.new)
        (E.faults errors.old) (E.faults errors.new) (codes "out of memory\n") }

    // At 10 the input was read to its end and describes no deployment, and nothing was written.
    ensures descriptors_refused { result.0 ≡ 10 → (command_of words.now ≡ Some Command.Groups)
        × RefusesDescriptors
        (exchange (S.left input.old) (S.left input.new) (T.written out.old) (T.written out.new)
        (seen (K.told keeper) (K.faults keeper)) (seen (K.told result.1) (K.faults result.1)))
        × (out.new ≡ out.old)
        × AppendsOrFails (E.written errors.old) (E.written errors.new)
        (E.faults errors.old) (E.faults errors.new) (codes "descriptors refused\n") }

    // At 12 the input has more bytes than a scenario may have, and the transcript of the lines that end
    // within these was written.
    ensures scenario_too_long { result.0 ≡ 12 → (command_of words.now ≡ Some Command.Drive)
        × StopsPastLimit
        (exchange (S.left input.old) (S.left input.new) (T.written out.old) (T.written out.new)
        (seen (K.told keeper) (K.faults keeper)) (seen (K.told result.1) (K.faults result.1)))
        × AppendsOrFails (E.written errors.old) (E.written errors.new)
        (E.faults errors.old) (E.faults errors.new) (codes "input too long\n") }

    // Where the input tells its text, the words, the text and what the keeper replies decide the status, but
    // for out of memory and for faults of input and output. That of a workload is decided by the words and the keeper.
    ensures decided { IfSome (S.left input.old) (λ text. IfSome (command_of words.now) (λ command.
        IsCalledFor command text (K.told keeper) (K.told result.1) result.0
        ⊎ ((result.0 ≡ 9) ⊎ ((result.0 ≡ 4) ⊎ (result.0 ≡ 5))))) }
{
    let (ending, keeper) = run_words(alloc, words, input, out, keeper);
    let ending = report_ending(alloc, ending, errors);
    (ending.status(), keeper)
}
