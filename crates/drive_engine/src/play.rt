//! A scenario that is done line by line, as its pieces come.

ghost use Rattle.std.specs.Prelude.{◌≡◌, ◌≢◌, ℕ, ◌+◌, ◌<◌, ◌≤◌, [], ◌++◌, length, List, Option, IfOk, OnOk, MatchResult};
ghost use Rattle.outside.specs.Faults.{Rose};
ghost use Rattle.outside.specs.Source.{HasEnded};
ghost use Rattle.scenario_engine.specs.KeeperCalls.{KeeperSeen, seen};
ghost use Rattle.drive_engine.specs.Command.{Runs};
ghost use Rattle.drive_engine.specs.Exchange.{exchange};
ghost use Rattle.drive_engine.specs.Play.{first_play, DoesLine, EndsAtLine, HasCome, Comes, EndsFrom};

use crate::drive::MAX_SCENARIO_BYTES;
use crate::ending::Ending;
use crate::laws::{scenarios_stand, turns_stand};
use crate::words::Command;
use outside::{Keeper, Sink, write_all};
use scenario_engine::{Engine, LineFailure, UnstartedCause};
use scenario_text::{LineAnswer, MAX_LINE_BYTES, ended_line};
use std::alloc::Global;
use std::marker::Model;

/// A scenario between two pieces: the lines that have ended are done.
#[derive(Drop)]
pub struct Play<K: Keeper + Drop> {
    engine: Engine<K>,
    /// What was read of the line that has not ended.
    part: Vec<u8>,
    /// The number of that line.
    number: u64,
}

impl<K: Keeper + Drop> Model for Play<K> {
    ghost use Rattle.std.specs.Prelude.{◌≤◌, vec_len, vec_capacity};
    ghost use Rattle.scenario_text.specs.declared.line.TheConstants.{MAX_LINE_BYTES};
    ghost use Rattle.drive_engine.specs.Play.{PlayState};

    ghost Value = { PlayState };

    ghost view = { λ p. record {
      state = p.engine.state;
      keeper = p.engine.keeper;
      part = p.part.items;
      number = p.number;
    } };

    // Its room is taken at the start, so no line takes any.
    ghost invariant = { λ p. (vec_len p.part ≤ MAX_LINE_BYTES) × (MAX_LINE_BYTES ≤ vec_capacity p.part) };
}

/// Does the line of this number, and writes what it writes; or answers how the scenario ends there.
fn do_line<T: Sink, K: Keeper + Drop>(
    alloc: Global,
    engine: &mut Engine<K>,
    line: &[u8],
    number: u64,
    out: &mut T,
) -> Result<(), Ending>
    ensures does { MatchResult result
        (λ _. DoesLine engine.old.state engine.new.state line.now (T.written out.old) (T.written out.new)
        engine.old.keeper engine.new.keeper)
        (λ ending. EndsAtLine ending number engine.old.state line.now
        (T.written out.old) (T.written out.new) engine.old.keeper engine.new.keeper) }
    ensures failed { result ≡ Err Ending.WriteFailed → Rose (T.faults out.old) (T.faults out.new) }
    ensures count { T.faults out.old ≤ T.faults out.new }
    ensures keeper_failed { result ≡ Err Ending.KeeperFailed
        → Rose engine.old.keeper.faults engine.new.keeper.faults }
    ensures keeper_count { engine.old.keeper.faults ≤ engine.new.keeper.faults }
{
    if line.len() > MAX_LINE_BYTES {
        return Err(Ending::LineTooLong(number));
    }
    match engine.do_text(alloc, line) {
        Err(LineFailure::Unstarted(UnstartedCause::KeeperFailed)) => Err(Ending::KeeperFailed),
        Err(LineFailure::Unstarted(UnstartedCause::BadRow { id })) => Err(Ending::BadRow(id)),
        Err(LineFailure::Unstarted(UnstartedCause::BootsSpent)) => Err(Ending::BootsSpent),
        Err(LineFailure::OutOfMemory) => Err(Ending::OutOfMemory),
        Ok(LineAnswer::Refused) => Err(Ending::LineRefused(number)),
        Ok(LineAnswer::Done) => Ok(()),
        Ok(LineAnswer::Wrote(text)) => match write_all(out, text.as_bytes()) {
            Ok(()) => Ok(()),
            Err(_) => Err(Ending::WriteFailed),
        },
    }
}

impl<K: Keeper + Drop> Play<K> {
    /// A scenario before its first line, over this keeper, which is handed back where there is no memory for a line.
    pub fn new(alloc: Global, keeper: K) -> Result<Play<K>, K>
        ensures made { MatchResult result (λ play. play ≡ first_play play.keeper) (λ back. back ≡ keeper) }
        ensures keeper { IfOk result (λ play. play.keeper ≡ seen (K.told keeper) (K.faults keeper)) }
    {
        match Vec::with_capacity(alloc, MAX_LINE_BYTES) {
            Ok(part) => Ok(Play {
                part,
                number: 1,
                engine: Engine::new(alloc, keeper),
            }),
            Err(_) => Err(keeper),
        }
    }

    /// The keeper, with the rows of each commit that was answered.
    pub fn into_keeper(self) -> K
        ensures { seen (K.told result) (K.faults result) ≡ self.keeper }
    {
        self.engine.into_keeper()
    }

    /// Keeps a further part of the line that has not ended.
    fn keep(&mut self, part: &[u8]) -> Result<(), Ending>
        ensures keeps { MatchResult result
            (λ _. (self.new ≡ record self.old { part = self.old.part ++ part.now })
            × (length (self.old.part ++ part.now) ≤ MAX_LINE_BYTES))
            (λ ending. (ending ≡ Ending.LineTooLong self.old.number)
            × (MAX_LINE_BYTES < length (self.old.part ++ part.now))) }
        ensures kept { self.new.keeper ≡ self.old.keeper }
    {
        if part.len() > MAX_LINE_BYTES - self.part.len() {
            return Err(Ending::LineTooLong(self.number));
        }
        match self.part.extend_from_slice(part) {
            Ok(()) => Ok(()),
            Err(_) => unreachable!(),
        }
    }

    /// Does the line whose parts were kept.
    fn do_kept<T: Sink>(&mut self, alloc: Global, out: &mut T) -> Result<(), Ending>
        ensures does { MatchResult result
            (λ _. DoesLine self.old.state self.new.state self.old.part
            (T.written out.old) (T.written out.new) self.old.keeper self.new.keeper)
            (λ ending. EndsAtLine ending self.old.number self.old.state self.old.part
            (T.written out.old) (T.written out.new) self.old.keeper self.new.keeper) }
        ensures same { (self.new.part ≡ self.old.part) × (self.new.number ≡ self.old.number) }
        ensures failed { result ≡ Err Ending.WriteFailed
            → Rose (T.faults out.old) (T.faults out.new) }
        ensures count { T.faults out.old ≤ T.faults out.new }
        ensures keeper_failed { result ≡ Err Ending.KeeperFailed
            → Rose self.old.keeper.faults self.new.keeper.faults }
        ensures keeper_count { self.old.keeper.faults ≤ self.new.keeper.faults }
    {
        do_line(alloc, &mut self.engine, &self.part, self.number, out)
    }

    /// Does the line that ends with this part.
    fn end_line<T: Sink>(&mut self, alloc: Global, part: &[u8], out: &mut T) -> Result<(), Ending>
        requires { self.old.number ≤ MAX_SCENARIO_BYTES }
        ensures does { MatchResult result
            (λ _. DoesLine self.old.state self.new.state (self.old.part ++ part.now)
            (T.written out.old) (T.written out.new) self.old.keeper self.new.keeper)
            (λ ending. EndsAtLine ending self.old.number self.old.state (self.old.part ++ part.now)
            (T.written out.old) (T.written out.new) self.old.keeper self.new.keeper) }
        ensures next { OnOk result
            ((self.new.part ≡ []) × (self.new.number ≡ self.old.number + 1)) }
        ensures failed { result ≡ Err Ending.WriteFailed
            → Rose (T.faults out.old) (T.faults out.new) }
        ensures count { T.faults out.old ≤ T.faults out.new }
        ensures keeper_failed { result ≡ Err Ending.KeeperFailed
            → Rose self.old.keeper.faults self.new.keeper.faults }
        ensures keeper_count { self.old.keeper.faults ≤ self.new.keeper.faults }
    {
        if self.part.is_empty() {
            do_line(alloc, &mut self.engine, part, self.number, out)?;
        } else {
            self.keep(part)?;
            self.do_kept(alloc, out)?;
            self.part.clear();
        }
        self.number += 1;
        Ok(())
    }

    /// Does each line that ends in the piece, and keeps the rest.
    pub fn feed<T: Sink>(&mut self, alloc: Global, piece: &[u8], out: &mut T) -> Result<(), Ending>
        requires { self.old.number + length piece.now ≤ MAX_SCENARIO_BYTES + 1 }
        ensures comes { MatchResult result
            (λ _. Comes self.old piece.now (T.written out.old) self.old.keeper
            self.new [] (T.written out.new) self.new.keeper)
            (λ ending. EndsFrom self.old piece.now (T.written out.old) self.old.keeper ending
            (T.written out.new) self.new.keeper) }
        ensures number { OnOk result (self.new.number ≤ self.old.number + length piece.now) }
        ensures reads_nothing { result ≢ Err Ending.ReadFailed }
        ensures failed { result ≡ Err Ending.WriteFailed
            → Rose (T.faults out.old) (T.faults out.new) }
        ensures count { T.faults out.old ≤ T.faults out.new }
        ensures keeper_failed { result ≡ Err Ending.KeeperFailed
            → Rose self.old.keeper.faults self.new.keeper.faults }
        ensures keeper_count { self.old.keeper.faults ≤ self.new.keeper.faults }
    {
        scenarios_stand();
        turns_stand();
        let mut rest = piece;
        while let Some((part, more)) = ended_line(rest) {
            match self.end_line(alloc, part, out) {
                Ok(()) => {}
                Err(ending) => return Err(ending),
            }
            rest = more;
        }
        self.keep(rest)
    }

    /// Does the last line, which has no line feed, if there is one.
    pub fn finish<T: Sink>(&mut self, alloc: Global, out: &mut T) -> Ending
        ensures ends { (left left_now written : Option (List ℕ)) (held : KeeperSeen)
            (more : ℕ) → HasEnded left_now
            → HasCome (exchange left left_now written (T.written out.old) held self.old.keeper)
            more [] [] self.old
            → Runs Command.Drive result
            (exchange left left_now written (T.written out.new) held self.new.keeper) }
        ensures reads_nothing { result ≢ Ending.ReadFailed }
        ensures failed { result ≡ Ending.WriteFailed
            → Rose (T.faults out.old) (T.faults out.new) }
        ensures count { T.faults out.old ≤ T.faults out.new }
        ensures keeper_failed { result ≡ Ending.KeeperFailed
            → Rose self.old.keeper.faults self.new.keeper.faults }
        ensures keeper_count { self.old.keeper.faults ≤ self.new.keeper.faults }
    {
        scenarios_stand();
        turns_stand();
        if self.part.is_empty() {
            return Ending::Done;
        }
        match self.do_kept(alloc, out) {
            Ok(()) => Ending::Done,
            Err(ending) => ending,
        }
    }
}
