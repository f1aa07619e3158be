//! Runs of a connection, and the lines about connections.

ghost use Rattle.std.specs.Prelude.{◌≡◌, ◌≤◌, ◌++◌, true, false, is_some, string_bytes, IfOk, OnErr, OnOk, Some};
ghost use Rattle.auction_rows.specs.Parts.{site_parts};
ghost use Rattle.container_core.specs.Container.{HasGrownBy};
ghost use Rattle.scenario_text.specs.Answer.{KeepsRefused, answer_of};
ghost use Rattle.scenario_text.specs.declared.seat_line.SeatLine.TheVariants as lines;
ghost use Rattle.scenario_text.specs.declared.seat_line.TheConstants.{MAX_SEAT};
ghost use Rattle.session_steps.specs.Kept.{HasSoundStore};
ghost use Rattle.session_steps.specs.Lent.{put_back};
ghost use Rattle.seat_lines.specs.Handing.{BreaksOff, BreaksRun, BreaksStep, HasDone, RunsOnce};
ghost use Rattle.seat_lines.specs.Lines.{text_of};
ghost use Rattle.seat_lines.specs.Runs.{going, rests};
ghost use Rattle.seat_lines.specs.Site.{AllGoOn, seat_at, site_in};

use crate::lending::Lending;
use crate::seats::Seats;
use container_core::Container;
use crash_base::OutOfMemory;
use outside::Keeper;
use scenario_text::{LineAnswer, MAX_SEAT, SeatLine};
use seat_steps::Seat;
use session_steps::{LentSessions, Sessions};
use shepherd::ShepherdTurn;
use site_routes::SiteRouter;
use std::alloc::Global;

/// Whether a connection waits for bytes, or is not there.
fn rests(seat: &Option<Seat>) -> bool
    ensures { result ≡ rests seat.now }
{
    match seat {
        None => true,
        Some(seat) => match seat.turn() {
            ShepherdTurn::Bytes => true,
            ShepherdTurn::Request
            | ShepherdTurn::Outside
            | ShepherdTurn::Windows
            | ShepherdTurn::Inside
            | ShepherdTurn::Program
            | ShepherdTurn::Own
            | ShepherdTurn::Output
            | ShepherdTurn::Item
            | ShepherdTurn::Ended(_) => false,
        },
    }
}

/// Adds what a step writes to what a run has written.
fn add_text(text: &mut String, answer: LineAnswer) -> Result<(), OutOfMemory>
    ensures { OnOk result (string_bytes text.new ≡ string_bytes text.old ++ text_of answer) }
{
    match answer {
        LineAnswer::Refused => Ok(()),
        LineAnswer::Done => Ok(()),
        LineAnswer::Wrote(more) => Ok(text.push_str(&more)?),
    }
}

impl Seats {
    /// Whether the run of a connection is at its end.
    fn rests(&self, number: u64) -> bool
        ensures { result ≡ rests (seat_at self.now.seats number) }
    {
        number >= self.seats.len() as u64 || rests(&self.seats[number as usize])
    }

    /// One more step of a run that is not at its end.
    fn run_on<K: Keeper + Drop>(
        &mut self,
        alloc: Global,
        router: &SiteRouter,
        number: u64,
        container: &mut Container<K>,
        lent: &LentSessions,
        lending: Lending,
        text: &mut String,
    ) -> (Lending, Result<(), OutOfMemory>)
        requires number { number ≤ MAX_SEAT }
        requires site { container.old.boot.start.deployment ≡ site_parts }
        requires goes { AllGoOn container.old self.old }
        requires sound { HasSoundStore (Some lending.lanes) }
        requires goes_on { rests (seat_at self.old.seats number) ≡ false }
        ensures run { OnOk result.1 (RunsOnce number container.old
            (put_back lent.now (Some lending.lanes) lending.serial) self.old (string_bytes text.old) container.new
            (put_back lent.now (Some result.0.lanes) result.0.serial) self.new (string_bytes text.new)) }
        ensures breaks { OnErr result.1 (BreaksStep number container.old
            (put_back lent.now (Some lending.lanes) lending.serial) self.old container.new) }
        ensures sound { OnOk result.1 (HasSoundStore (Some result.0.lanes)) }
        ensures goes { AllGoOn container.new self.new }
        ensures grown { HasGrownBy container.old container.new }
        ensures count { container.old.faults ≤ container.new.faults }
    {
        let (lending, answer) = self.step(alloc, router, number, container, lent, lending);
        match answer {
            Err(OutOfMemory) => (lending, Err(OutOfMemory)),
            Ok(answer) => match add_text(text, answer) {
                Err(OutOfMemory) => (lending, Err(OutOfMemory)),
                Ok(()) => (lending, Ok(())),
            },
        }
    }

    /// Steps of a connection until it waits for bytes or is gone.
    ///
    /// # Errors
    /// There is no memory; or 2^64 - 1 steps were made, and it is not at rest.
    #[tactic(auto, using(crate::proofs::RunSteps::can_go))]
    fn run<K: Keeper + Drop>(
        &mut self,
        alloc: Global,
        router: &SiteRouter,
        number: u64,
        container: &mut Container<K>,
        lent: &LentSessions,
        lending: Lending,
    ) -> (Lending, Result<LineAnswer, OutOfMemory>)
        requires number { number ≤ MAX_SEAT }
        requires site { container.old.boot.start.deployment ≡ site_parts }
        requires goes { AllGoOn container.old self.old }
        requires sound { HasSoundStore (Some lending.lanes) }
        ensures answer { IfOk result.1 (λ a. HasDone (lines.Run number) container.old
            (put_back lent.now (Some lending.lanes) lending.serial) self.old (answer_of a
            (site_in container.new (put_back lent.now (Some result.0.lanes) result.0.serial) self.new)) container.new) }
        ensures refused { IfOk result.1 (λ a. KeepsRefused a
            (site_in container.old (put_back lent.now (Some lending.lanes) lending.serial) self.old)
            (site_in container.new (put_back lent.now (Some result.0.lanes) result.0.serial) self.new)) }
        ensures breaks { OnErr result.1 (BreaksRun number container.old
            (put_back lent.now (Some lending.lanes) lending.serial) self.old container.new) }
        ensures sound { OnOk result.1 (HasSoundStore (Some result.0.lanes)) }
        ensures goes { AllGoOn container.new self.new }
        ensures grown { HasGrownBy container.old container.new }
        ensures count { container.old.faults ≤ container.new.faults }
    {
        if !self.is_there(number) {
            return (lending, Ok(LineAnswer::Refused));
        }
        let mut text = String::new(alloc);
        let mut lending = lending;
        let mut left = u64::MAX;
        while !self.rests(number) {
            if left == 0 {
                return (lending, Err(OutOfMemory));
            }
            left -= 1;
            let (after, answer) = self.run_on(
                alloc, router, number, container, lent, lending, &mut text,
            );
            lending = after;
            match answer {
                Err(OutOfMemory) => return (lending, Err(OutOfMemory)),
                Ok(()) => {}
            }
        }
        (lending, Ok(LineAnswer::Wrote(text)))
    }

    /// A step or a run of a connection over bricks that are lent.
    fn go_over<K: Keeper + Drop>(
        &mut self,
        alloc: Global,
        router: &SiteRouter,
        number: u64,
        to_rest: bool,
        container: &mut Container<K>,
        lent: &LentSessions,
        lending: Lending,
    ) -> (Lending, Result<LineAnswer, OutOfMemory>)
        requires number { number ≤ MAX_SEAT }
        requires site { container.old.boot.start.deployment ≡ site_parts }
        requires goes { AllGoOn container.old self.old }
        requires sound { HasSoundStore (Some lending.lanes) }
        ensures answer { IfOk result.1 (λ a. HasDone (going to_rest number) container.old
            (put_back lent.now (Some lending.lanes) lending.serial) self.old (answer_of a
            (site_in container.new (put_back lent.now (Some result.0.lanes) result.0.serial) self.new)) container.new) }
        ensures refused { IfOk result.1 (λ a. KeepsRefused a
            (site_in container.old (put_back lent.now (Some lending.lanes) lending.serial) self.old)
            (site_in container.new (put_back lent.now (Some result.0.lanes) result.0.serial) self.new)) }
        ensures breaks { OnErr result.1 (BreaksOff (going to_rest number) container.old
            (put_back lent.now (Some lending.lanes) lending.serial) self.old container.new) }
        ensures sound { OnOk result.1 (HasSoundStore (Some result.0.lanes)) }
        ensures goes { AllGoOn container.new self.new }
        ensures grown { HasGrownBy container.old container.new }
        ensures count { container.old.faults ≤ container.new.faults }
    {
        if to_rest {
            self.run(alloc, router, number, container, lent, lending)
        } else {
            self.step(alloc, router, number, container, lent, lending)
        }
    }

    /// A step or a run of a connection over the bricks of sessions, which are lent and put back. It is refused where
    /// there are none, or where no connection has its number.
    fn go<K: Keeper + Drop>(
        &mut self,
        alloc: Global,
        router: &SiteRouter,
        number: u64,
        to_rest: bool,
        container: &mut Container<K>,
        sessions: Sessions,
    ) -> (Sessions, Result<LineAnswer, OutOfMemory>)
        requires site { container.old.boot.start.deployment ≡ site_parts }
        requires goes { AllGoOn container.old self.old }
        ensures answer { IfOk result.1 (λ a. HasDone (going to_rest number) container.old sessions self.old
            (answer_of a (site_in container.new result.0 self.new)) container.new) }
        ensures refused { IfOk result.1 (λ a. KeepsRefused a (site_in container.old sessions self.old)
            (site_in container.new result.0 self.new)) }
        ensures breaks { OnErr result.1 (BreaksOff (going to_rest number) container.old sessions self.old
            container.new) }
        ensures goes { AllGoOn container.new self.new }
        ensures grown { HasGrownBy container.old container.new }
        ensures count { container.old.faults ≤ container.new.faults }
    {
        if number > MAX_SEAT {
            return (sessions, Ok(LineAnswer::Refused));
        }
        let (lent, store, serial) = sessions.lend();
        match store {
            None => (lent.put_back(None, serial), Ok(LineAnswer::Refused)),
            Some(lanes) => {
                let lending = Lending { lanes, serial };
                let (lending, answer) = self.go_over(
                    alloc, router, number, to_rest, container, &lent, lending,
                );
                let Lending { lanes, serial } = lending;
                match answer {
                    Ok(answer) => (lent.put_back(Some(lanes), serial), Ok(answer)),
                    Err(OutOfMemory) => {
                        drop(lanes);
                        (lent.put_back(None, serial), Err(OutOfMemory))
                    }
                }
            }
        }
    }

    /// A line about connections, over the container and the sessions of its scenario. A step costs what the step of its
    /// connection costs, and a run what its steps do.
    ///
    /// # Errors
    /// Out of memory. Of a step or a run no bricks are left then, and a commit that the keeper has kept may be in the
    /// journal, whose response was not put out. Any other line leaves the container as it was.
    pub fn line<K: Keeper + Drop>(
        &mut self,
        alloc: Global,
        router: &SiteRouter,
        container: &mut Container<K>,
        sessions: Sessions,
        line: SeatLine,
    ) -> (Sessions, Result<LineAnswer, OutOfMemory>)
        requires site { container.old.boot.start.deployment ≡ site_parts }
        requires goes { AllGoOn container.old self.old }
        ensures answer { IfOk result.1 (λ a. HasDone line container.old sessions self.old
            (answer_of a (site_in container.new result.0 self.new)) container.new) }
        ensures refused { IfOk result.1 (λ a. KeepsRefused a (site_in container.old sessions self.old)
            (site_in container.new result.0 self.new)) }
        ensures breaks { OnErr result.1 (BreaksOff line container.old sessions self.old container.new) }
        ensures goes { AllGoOn container.new self.new }
        ensures grown { HasGrownBy container.old container.new }
        ensures count { container.old.faults ≤ container.new.faults }
    {
        match line {
            SeatLine::Conn(number) => {
                if number > MAX_SEAT {
                    return (sessions, Ok(LineAnswer::Refused));
                }
                let answer = self.conn_line(alloc, number);
                (sessions, answer)
            }
            SeatLine::Bytes(number, bytes) => {
                let answer = self.bytes_line(number, bytes);
                (sessions, answer)
            }
            SeatLine::End(number) => {
                let answer = self.end_line(number);
                (sessions, Ok(answer))
            }
            SeatLine::Step(number) => self.go(alloc, router, number, false, container, sessions),
            SeatLine::Run(number) => self.go(alloc, router, number, true, container, sessions),
        }
    }
}
