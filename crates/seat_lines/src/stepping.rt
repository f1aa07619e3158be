//! One step of a connection.

ghost use Rattle.std.specs.Prelude.{◌≡◌, ◌≤◌, ◌<◌, ◌^◌, ◌++◌, true, false, IfOk, IfSome, OnErr, OnOk, Some, string_bytes};
ghost use Rattle.auction_rows.specs.Parts.{site_parts};
ghost use Rattle.container_core.specs.Container.{ContainerValue, HasGrownBy};
ghost use Rattle.container_core.specs.History.{entries_in};
ghost use Rattle.recovery_manager.specs.Kept.{ManagerValue};
ghost use Rattle.scenario_text.specs.Answer.{Done, KeepsRefused, answer_of};
ghost use Rattle.scenario_text.specs.declared.seat_line.TheConstants.{MAX_SEAT};
ghost use Rattle.seat_steps.specs.Going.{GoesOnAtSeat};
ghost use Rattle.seat_steps.specs.Seats.{SeatWorld};
ghost use Rattle.shepherd.specs.Shepherds.{turn};
ghost use Rattle.session_steps.specs.Kept.{HasSoundStore};
ghost use Rattle.session_steps.specs.Lent.{put_back};
ghost use Rattle.seat_lines.specs.Handing.{BreaksIn, BreaksStep, HasMadeStep, HasMovedIn, place_from};
ghost use Rattle.seat_lines.specs.Hearing.{decided_text, manager_after};
ghost use Rattle.seat_lines.specs.Lines.{Place, end_of, moves, step_text, still_step};
ghost use Rattle.seat_lines.specs.Site.{AllGoOn, IsGoingIn, site_in};

use crate::hearing::hear;
use crate::lending::Lending;
use crate::seats::{FIRST_WORKER, Seats, put};
use crate::texts::{gone_text, out_text};
use auction_actions::ActionProgram;
use container_core::Container;
use crash_base::{OutOfMemory, WorkerNo};
use outside::Keeper;
use recovery_manager::Manager;
use scenario_text::LineAnswer;
use seat_steps::{NextDraws, Seat, SeatStepped, bricks_stay_sound};
use session_steps::LentSessions;
use shepherd::{EndKind, ShepherdTurn};
use shepherd_steps::steps_inside_are_fixed;
use site_routes::SiteRouter;
use std::alloc::Global;

/// What a connection of this number writes that put out these bytes at this turn.
fn step_text(
    alloc: Global,
    number: u64,
    turn: ShepherdTurn,
    bytes: &[u8],
) -> Result<String, OutOfMemory>
    ensures { IfOk result (λ text. string_bytes text ≡ step_text turn number bytes.now) }
{
    match turn {
        ShepherdTurn::Output => out_text(alloc, number, bytes),
        ShepherdTurn::Bytes => Ok(String::new(alloc)),
        ShepherdTurn::Request => Ok(String::new(alloc)),
        ShepherdTurn::Outside => Ok(String::new(alloc)),
        ShepherdTurn::Windows => Ok(String::new(alloc)),
        ShepherdTurn::Inside => Ok(String::new(alloc)),
        ShepherdTurn::Program => Ok(String::new(alloc)),
        ShepherdTurn::Own => Ok(String::new(alloc)),
        ShepherdTurn::Item => Ok(String::new(alloc)),
        ShepherdTurn::Ended(_) => Ok(String::new(alloc)),
    }
}

/// The manager hears what a step reports that a connection of this number made at this turn, and what the connection
/// writes, and the decision behind it.
fn tell_step(
    alloc: Global,
    number: u64,
    turn: ShepherdTurn,
    stepped: SeatStepped,
    manager: &mut Manager,
) -> Result<LineAnswer, OutOfMemory>
    ensures text { IfOk result (λ a. (place : Place) → answer_of a place
        ≡ Done place (step_text turn number stepped.bytes ++ decided_text manager.old stepped.report)) }
    ensures after { OnOk result (manager.new ≡ manager_after manager.old stepped.report) }
{
    let SeatStepped {
        bytes,
        items,
        report,
    } = stepped;
    drop(items);
    let mut text = step_text(alloc, number, turn, bytes.as_slice())?;
    let decided = hear(alloc, manager, report)?;
    text.push_str(&decided)?;
    Ok(LineAnswer::Wrote(text))
}

/// The entries of a boot are those of the events since its start. It does nothing.
fn tell_entries<K: Keeper + Drop>(container: &Container<K>)
    ensures { entries_in container.now.since ≡ container.now.boot.entries }
{
    container.as_boot();
}

/// The random word that is drawn next: it is one of 64 bits.
fn word_of(word: u64) -> u64
    ensures value { result ≡ word }
    ensures small { result < 2 ^ 64 }
{
    word
}

/// A step of a connection that is there and has not ended, and waits for no bytes. What it writes is told by its turn.
fn make_step<K: Keeper + Drop>(
    alloc: Global,
    router: &SiteRouter,
    number: u64,
    seat: &mut Seat,
    word: &mut u64,
    manager: &mut Manager,
    container: &mut Container<K>,
    lent: &LentSessions,
    lending: Lending,
) -> (Lending, Result<LineAnswer, OutOfMemory>)
    requires number { number ≤ MAX_SEAT }
    requires site { container.old.boot.start.deployment ≡ site_parts }
    requires goes { GoesOnAtSeat container.old seat.old.connection }
    requires moves { moves (turn seat.old.connection) ≡ true }
    requires sound { HasSoundStore (Some lending.lanes) }
    ensures step { IfOk result.1 (λ a. HasMovedIn lent.now.key lent.now.moment number (Some seat.old) container.old
        (place_from (Some seat.old) container.old lending word.old manager.old).world manager.old
        (answer_of a (place_from (Some seat.new) container.new result.0 word.new manager.new)) container.new) }
    ensures refused { IfOk result.1 (λ a.
        KeepsRefused a (place_from (Some seat.old) container.old lending word.old manager.old)
        (place_from (Some seat.new) container.new result.0 word.new manager.new)) }
    ensures breaks { OnErr result.1 (BreaksIn lent.now.key lent.now.moment number (Some seat.old) container.old
        (place_from (Some seat.old) container.old lending word.old manager.old).world manager.old container.new) }
    ensures sound { OnOk result.1 (HasSoundStore (Some result.0.lanes)) }
    ensures goes { GoesOnAtSeat container.new seat.new.connection }
    ensures grown { HasGrownBy container.old container.new }
    ensures count { container.old.faults ≤ container.new.faults }
{
    bricks_stay_sound();
    steps_inside_are_fixed::<ActionProgram>();
    let Lending { lanes, serial } = lending;
    lanes.keeps_limits();
    word_of(*word);
    tell_entries(container);
    let turn = seat.turn();
    let worker = WorkerNo(FIRST_WORKER + number as u32);
    let mut next = NextDraws {
        word: *word,
        serial,
    };
    let (lanes, stepped) = seat.step(
        alloc,
        router,
        lent.key(),
        worker,
        lent.moment(),
        container,
        lanes,
        &mut next,
    );
    tell_entries(container);
    *word = next.word;
    let lending = Lending {
        lanes,
        serial: next.serial,
    };
    match stepped {
        Ok(stepped) => match tell_step(alloc, number, turn, stepped, manager) {
            Ok(answer) => (lending, Ok(answer)),
            Err(OutOfMemory) => (lending, Err(OutOfMemory)),
        },
        Err(OutOfMemory) => (lending, Err(OutOfMemory)),
    }
}

/// Whether a connection makes a step at a turn: it waits for no bytes, and has not ended.
fn moves(turn: ShepherdTurn) -> bool
    ensures { result ≡ moves turn }
{
    match turn {
        ShepherdTurn::Bytes => false,
        ShepherdTurn::Request => true,
        ShepherdTurn::Outside => true,
        ShepherdTurn::Windows => true,
        ShepherdTurn::Inside => true,
        ShepherdTurn::Program => true,
        ShepherdTurn::Own => true,
        ShepherdTurn::Output => true,
        ShepherdTurn::Item => true,
        ShepherdTurn::Ended(_) => false,
    }
}

/// How a connection has ended, by its turn, if it has.
fn end_of(turn: ShepherdTurn) -> Option<EndKind>
    ensures { result ≡ end_of turn }
{
    match turn {
        ShepherdTurn::Bytes => None,
        ShepherdTurn::Request => None,
        ShepherdTurn::Outside => None,
        ShepherdTurn::Windows => None,
        ShepherdTurn::Inside => None,
        ShepherdTurn::Program => None,
        ShepherdTurn::Own => None,
        ShepherdTurn::Output => None,
        ShepherdTurn::Item => None,
        ShepherdTurn::Ended(end) => Some(end),
    }
}

/// A connection that makes no step at its turn stays, or goes where it has ended.
fn stay_or_go(
    alloc: Global,
    number: u64,
    place: &mut Option<Seat>,
) -> Result<LineAnswer, OutOfMemory>
    requires moves { IfSome place.old (λ seat. moves (turn seat.connection) ≡ false) }
    ensures answer { IfOk result (λ a. (world : SeatWorld) (manager : ManagerValue)
        → (let there : Place = record { seat = place.new; world = world; manager = manager } in answer_of a there)
        ≡ still_step number place.old world manager) }
    ensures refused { IfOk result (λ a. KeepsRefused a place.old place.new) }
    ensures goes { (container : ContainerValue) → IsGoingIn container place.old → IsGoingIn container place.new }
{
    let Some(seat) = place else {
        return Ok(LineAnswer::Refused);
    };
    match end_of(seat.turn()) {
        None => Ok(LineAnswer::Done),
        Some(end) => {
            let text = gone_text(alloc, number, end)?;
            put(place, None);
            Ok(LineAnswer::Wrote(text))
        }
    }
}

/// The step of a connection, if it is there: where it has ended, it goes.
fn step_seat<K: Keeper + Drop>(
    alloc: Global,
    router: &SiteRouter,
    number: u64,
    place: &mut Option<Seat>,
    word: &mut u64,
    manager: &mut Manager,
    container: &mut Container<K>,
    lent: &LentSessions,
    lending: Lending,
) -> (Lending, Result<LineAnswer, OutOfMemory>)
    requires number { number ≤ MAX_SEAT }
    requires site { container.old.boot.start.deployment ≡ site_parts }
    requires goes { IsGoingIn container.old place.old }
    requires sound { HasSoundStore (Some lending.lanes) }
    ensures step { IfOk result.1 (λ a. HasMovedIn lent.now.key lent.now.moment number place.old container.old
        (place_from place.old container.old lending word.old manager.old).world manager.old
        (answer_of a (place_from place.new container.new result.0 word.new manager.new)) container.new) }
    ensures refused { IfOk result.1 (λ a. KeepsRefused a (place_from place.old container.old lending word.old manager.old)
        (place_from place.new container.new result.0 word.new manager.new)) }
    ensures breaks { OnErr result.1 (BreaksIn lent.now.key lent.now.moment number place.old container.old
        (place_from place.old container.old lending word.old manager.old).world manager.old container.new) }
    ensures sound { OnOk result.1 (HasSoundStore (Some result.0.lanes)) }
    ensures goes { IsGoingIn container.new place.new }
    ensures grown { HasGrownBy container.old container.new }
    ensures count { container.old.faults ≤ container.new.faults }
{
    match place {
        None => (lending, Ok(LineAnswer::Refused)),
        Some(seat) => {
            if moves(seat.turn()) {
                return make_step(
                    alloc, router, number, seat, word, manager, container, lent, lending,
                );
            }
            let answer = stay_or_go(alloc, number, place);
            (lending, answer)
        }
    }
}

impl Seats {
    /// One step of a connection over bricks that are lent.
    pub(crate) fn step<K: Keeper + Drop>(
        &mut self,
        alloc: Global,
        router: &SiteRouter,
        number: u64,
        container: &mut Container<K>,
        lent: &LentSessions,
        lending: Lending,
    ) -> (Lending, Result<LineAnswer, OutOfMemory>)
        requires number { number ≤ MAX_SEAT }
        requires site { container.old.boot.start.deployment ≡ site_parts }
        requires goes { AllGoOn container.old self.old }
        requires sound { HasSoundStore (Some lending.lanes) }
        ensures step { IfOk result.1 (λ a. HasMadeStep number container.old
            (put_back lent.now (Some lending.lanes) lending.serial) self.old (answer_of a
            (site_in container.new (put_back lent.now (Some result.0.lanes) result.0.serial) self.new)) container.new) }
        ensures refused { IfOk result.1 (λ a. KeepsRefused a
            (site_in container.old (put_back lent.now (Some lending.lanes) lending.serial) self.old)
            (site_in container.new (put_back lent.now (Some result.0.lanes) result.0.serial) self.new)) }
        ensures breaks { OnErr result.1 (BreaksStep number container.old
            (put_back lent.now (Some lending.lanes) lending.serial) self.old container.new) }
        ensures sound { OnOk result.1 (HasSoundStore (Some result.0.lanes)) }
        ensures goes { AllGoOn container.new self.new }
        ensures grown { HasGrownBy container.old container.new }
        ensures count { container.old.faults ≤ container.new.faults }
    {
        self.stay();
        if number >= self.seats.len() as u64 {
            return (lending, Ok(LineAnswer::Refused));
        }
        let place = &mut self.seats[number as usize];
        step_seat(
            alloc,
            router,
            number,
            place,
            &mut self.word,
            &mut self.manager,
            container,
            lent,
            lending,
        )
    }
}
