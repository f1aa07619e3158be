//! One scenario, line by line.

ghost use Rattle.std.specs.Prelude.{◌≡◌, ◌≤◌, true, Some, Ok, Err, MatchResult};
ghost use Rattle.outside.specs.Faults.{Rose};
ghost use Rattle.scenario_text.specs.declared.line.Line.TheVariants as lines;
ghost use Rattle.scenario_text.specs.Reading.{line_of};
ghost use Rattle.scenario_text.specs.declared.answer.LineAnswer.{LineAnswer};
ghost use Rattle.scenario_engine.specs.declared.failure.LineFailure.{LineFailure};
ghost use Rattle.scenario_engine.specs.declared.failure.UnstartedCause.{UnstartedCause};
ghost use Rattle.scenario_engine.specs.Engine.{target_in, is_heading};
ghost use Rattle.scenario_engine.specs.KeeperCalls.{seen};
ghost use Rattle.scenario_engine.specs.Telling.{Reaches, FailsToReach, AnswersOn, EndsOn, Answers, Ends};
ghost use Rattle.scenario_engine.specs.Transcript.{first};

use crate::failure::{LineFailure, UnstartedCause};
use crate::running::Running;
use crash_base::OutOfMemory;
use line_steps::{Head, boot_text, head_line};
use outside::Keeper;
use scenario_text::{Line, LineAnswer, SeatLine, read_line};
use std::alloc::Global;
use std::marker::Model;
use std::mem;

/// What head lines have said, with the keeper, or a boot in its container, and its callers.
#[derive(Drop)]
enum Stage<K: Keeper + Drop> {
    Head(Head, K),
    Run(Running<K>),
    /// Only while a line is done.
    Away,
}

/// One scenario, with its keeper.
#[derive(Drop)]
pub struct Engine<K: Keeper + Drop> {
    stage: Stage<K>,
}

impl<K: Keeper + Drop> Model for Engine<K> {
    ghost use Rattle.scenario_engine.specs.Engine.{value_of, IsAccepted};
    ghost use Rattle.scenario_engine.specs.State.{EngineValue};

    ghost Value = { EngineValue };

    ghost view = { λ e. value_of K.told K.faults e.stage };

    ghost invariant = { λ e. IsAccepted e.stage };
}

/// The answer to a line about connections that is refused.
fn refused(_line: SeatLine) -> LineAnswer
    ensures { result ≡ LineAnswer.Refused }
{
    LineAnswer::Refused
}

/// What a line answers, or that there was no memory for it.
fn answered(answer: Result<LineAnswer, OutOfMemory>) -> Result<LineAnswer, LineFailure>
    ensures { MatchResult answer (λ a. result ≡ Ok a) (λ _. result ≡ Err LineFailure.OutOfMemory) }
{
    match answer {
        Ok(answer) => Ok(answer),
        Err(OutOfMemory) => Err(LineFailure::OutOfMemory),
    }
}

/// Puts a stage in place of another, which is let go.
fn put<K: Keeper + Drop>(stage: &mut Stage<K>, next: Stage<K>)
    ensures { stage.new ≡ next }
{
    drop(mem::replace(stage, next));
}

impl<K: Keeper + Drop> Engine<K> {
    /// A scenario before its first line, over this keeper. It takes no memory.
    pub fn new(alloc: Global, keeper: K) -> Engine<K>
        ensures state { result.state ≡ first }
        ensures keeper { result.keeper ≡ seen (K.told keeper) (K.faults keeper) }
    {
        Engine {
            stage: Stage::Head(Head::new(alloc), keeper),
        }
    }

    /// The keeper, with the rows of each commit that was answered. It takes no memory.
    pub fn into_keeper(self) -> K
        ensures { seen (K.told result) (K.faults result) ≡ self.keeper }
    {
        match self.stage {
            Stage::Head(head, keeper) => {
                drop(head);
                keeper
            }
            Stage::Run(running) => running.into_keeper(),
            Stage::Away => unreachable!(),
        }
    }

    /// Whether no boot is started.
    fn is_heading(&self) -> bool
        ensures { result ≡ is_heading self.now.state }
    {
        match &self.stage {
            Stage::Head(_, _) => true,
            Stage::Run(_) => false,
            Stage::Away => unreachable!(),
        }
    }

    /// Starts the boot over the head.
    fn start(&mut self, alloc: Global) -> Result<(), LineFailure>
        ensures starts { MatchResult result
            (λ _. Reaches self.old.state true (target_in self.new.state)
            self.old.keeper self.new.keeper)
            (λ failure. FailsToReach failure self.old.state true
            self.old.keeper self.new.keeper) }
        ensures failed { result ≡ Err (LineFailure.Unstarted UnstartedCause.KeeperFailed)
            → Rose self.old.keeper.faults self.new.keeper.faults }
        ensures count { self.old.keeper.faults ≤ self.new.keeper.faults }
    {
        match mem::replace(&mut self.stage, Stage::Away) {
            Stage::Head(head, keeper) => match Running::start(alloc, head, keeper) {
                Ok(running) => {
                    put(&mut self.stage, Stage::Run(running));
                    Ok(())
                }
                Err(unopened) => {
                    put(
                        &mut self.stage,
                        Stage::Head(Head::new(alloc), unopened.keeper),
                    );
                    Err(unopened.failure)
                }
            },
            Stage::Run(running) => {
                put(&mut self.stage, Stage::Run(running));
                Ok(())
            }
            Stage::Away => unreachable!(),
        }
    }

    /// Starts the boot before an event line, where none is started.
    fn reach(&mut self, alloc: Global, event: bool) -> Result<(), LineFailure>
        ensures reaches { MatchResult result
            (λ _. Reaches self.old.state event (target_in self.new.state)
            self.old.keeper self.new.keeper)
            (λ failure. FailsToReach failure self.old.state event
            self.old.keeper self.new.keeper) }
        ensures failed { result ≡ Err (LineFailure.Unstarted UnstartedCause.KeeperFailed)
            → Rose self.old.keeper.faults self.new.keeper.faults }
        ensures count { self.old.keeper.faults ≤ self.new.keeper.faults }
    {
        if event && self.is_heading() {
            self.start(alloc)
        } else {
            Ok(())
        }
    }

    /// Starts the next boot, where there is one, and writes its number.
    fn reopen(&mut self, alloc: Global) -> Result<LineAnswer, LineFailure>
        ensures answer { MatchResult result
            (λ a. AnswersOn a self.new.state (target_in self.old.state) lines.Reopen
            self.old.keeper self.new.keeper)
            (λ failure. EndsOn failure (target_in self.old.state) lines.Reopen
            self.old.keeper self.new.keeper) }
        ensures failed { result ≡ Err (LineFailure.Unstarted UnstartedCause.KeeperFailed)
            → Rose self.old.keeper.faults self.new.keeper.faults }
        ensures count { self.old.keeper.faults ≤ self.new.keeper.faults }
    {
        match mem::replace(&mut self.stage, Stage::Away) {
            Stage::Head(head, keeper) => {
                put(&mut self.stage, Stage::Head(head, keeper));
                Ok(LineAnswer::Refused)
            }
            Stage::Run(running) => match running.reopen(alloc) {
                Ok(next) => {
                    let number = next.number();
                    put(&mut self.stage, Stage::Run(next));
                    match boot_text(alloc, number) {
                        Ok(text) => Ok(LineAnswer::Wrote(text)),
                        Err(OutOfMemory) => Err(LineFailure::OutOfMemory),
                    }
                }
                Err(unopened) => {
                    put(
                        &mut self.stage,
                        Stage::Head(Head::new(alloc), unopened.keeper),
                    );
                    Err(unopened.failure)
                }
            },
            Stage::Away => unreachable!(),
        }
    }

    /// Does a line about connections over the boot, where one is started.
    fn seat_line(&mut self, alloc: Global, line: SeatLine) -> Result<LineAnswer, LineFailure>
        ensures answer { MatchResult result
            (λ a. AnswersOn a self.new.state (target_in self.old.state) (lines.Seat line)
            self.old.keeper self.new.keeper)
            (λ failure. EndsOn failure (target_in self.old.state) (lines.Seat line)
            self.old.keeper self.new.keeper) }
        ensures failed { result ≡ Err (LineFailure.Unstarted UnstartedCause.KeeperFailed)
            → Rose self.old.keeper.faults self.new.keeper.faults }
        ensures count { self.old.keeper.faults ≤ self.new.keeper.faults }
    {
        match mem::replace(&mut self.stage, Stage::Away) {
            Stage::Head(head, keeper) => {
                put(&mut self.stage, Stage::Head(head, keeper));
                Ok(refused(line))
            }
            Stage::Run(running) => {
                let (running, answer) = running.seat_line(alloc, line);
                put(&mut self.stage, Stage::Run(running));
                answered(answer)
            }
            Stage::Away => unreachable!(),
        }
    }

    /// Does a line, to the head or over the boot.
    fn line_on(&mut self, alloc: Global, line: Line) -> Result<LineAnswer, LineFailure>
        ensures answer { MatchResult result
            (λ a. AnswersOn a self.new.state (target_in self.old.state) line
            self.old.keeper self.new.keeper)
            (λ failure. EndsOn failure (target_in self.old.state) line
            self.old.keeper self.new.keeper) }
        ensures failed { result ≡ Err (LineFailure.Unstarted UnstartedCause.KeeperFailed)
            → Rose self.old.keeper.faults self.new.keeper.faults }
        ensures count { self.old.keeper.faults ≤ self.new.keeper.faults }
    {
        match &mut self.stage {
            Stage::Head(head, _) => answered(head_line(alloc, head, line)),
            Stage::Run(running) => match line {
                Line::Pass => Ok(LineAnswer::Done),
                Line::Head(_) => Ok(LineAnswer::Refused),
                Line::Call(caller, line) => answered(running.call_step(alloc, caller, line)),
                Line::Commit(caller) => answered(running.commit_step(alloc, caller)),
                Line::Boot(line) => answered(running.boot_line(alloc, line)),
                Line::Reopen => self.reopen(alloc),
                Line::Session(line) => answered(running.session_line(alloc, line)),
                Line::Seat(line) => self.seat_line(alloc, line),
            },
            Stage::Away => unreachable!(),
        }
    }

    /// Does one line. The first event line starts the boot, also where it is then refused.
    fn step(&mut self, alloc: Global, line: Line) -> Result<LineAnswer, LineFailure>
        ensures answer { MatchResult result
            (λ a. Answers a self.new.state self.old.state (Some line)
            self.old.keeper self.new.keeper)
            (λ failure. Ends failure self.old.state (Some line)
            self.old.keeper self.new.keeper) }
        ensures failed { result ≡ Err (LineFailure.Unstarted UnstartedCause.KeeperFailed)
            → Rose self.old.keeper.faults self.new.keeper.faults }
        ensures count { self.old.keeper.faults ≤ self.new.keeper.faults }
    {
        match self.reach(alloc, line.is_event()) {
            Ok(()) => self.line_on(alloc, line),
            Err(failure) => Err(failure),
        }
    }

    /// Does one line of text: reads it, and does the line that it spells. The first event line starts the boot over the
    /// keeper's rows, also where it is then refused. `commit` hands its writes to the keeper, and so do the steps of a
    /// connection that `step` and `run` make; `reopen` starts the next boot over the keeper's rows.
    ///
    /// # Errors
    /// `LineFailure` says why a boot was left unstarted, or that memory ran out. The scenario ends there: what state
    /// the engine holds then is not told, and its keeper is. A line that is refused leaves the engine as it was, but
    /// for the boot that it started.
    pub fn do_text(&mut self, alloc: Global, text: &[u8]) -> Result<LineAnswer, LineFailure>
        ensures answer { MatchResult result
            (λ a. Answers a self.new.state self.old.state (line_of text.now)
            self.old.keeper self.new.keeper)
            (λ failure. Ends failure self.old.state (line_of text.now)
            self.old.keeper self.new.keeper) }
        ensures failed { result ≡ Err (LineFailure.Unstarted UnstartedCause.KeeperFailed)
            → Rose self.old.keeper.faults self.new.keeper.faults }
        ensures count { self.old.keeper.faults ≤ self.new.keeper.faults }
    {
        match read_line(alloc, text) {
            Err(OutOfMemory) => Err(LineFailure::OutOfMemory),
            Ok(None) => Ok(LineAnswer::Refused),
            Ok(Some(line)) => self.step(alloc, line),
        }
    }
}
