//! A container under a lock.

ghost use Rattle.std.specs.Prelude.{◌≡◌, ◌-◌, ◌<◌, ◌≤◌, ◌+◌, [], ◌++◌, false, true, IfErr, IfOk, Some, slice_get};
ghost use mathlib.Core.List.{IsPrefix};
ghost use Rattle.commit_journal.specs.Journal.{IsScope};
ghost use Rattle.container_core.specs.Container.{ContainerValue, HasGrownBy, events_of};
ghost use Rattle.container_core.specs.History.{entries_in, is_stopped};
ghost use Rattle.container_core.specs.declared.history.Event.{Event};
ghost use Rattle.crash_base.specs.declared.scope.Scope.{Scope};
ghost use Rattle.journal_model.specs.Limits.{fullness};
ghost use Rattle.journal_model.specs.Reboots.{IsUndone};
ghost use Rattle.journal_model.specs.declared.entry.Entry.TheVariants.{Down};
ghost use Rattle.shepherd.specs.Shepherds.{turn};
ghost use Rattle.shepherd.specs.Steps.{dropped_stage};
ghost use Rattle.site_locks.specs.Holds.{GoesOnIn, Holds, InHold, Takes, Tells};
ghost use Rattle.site_locks.specs.Steps.{ComesUp, GoesDown, StepsInside, after_stop};
ghost use Rattle.turn_lock.specs.Seats.{SeatValue};
ghost use Rattle.turn_lock.specs.Turns.{longer};

use crate::calls::{NoMaker, come_up, step_inside};
use crate::cells::{ContainerCell, ContainerSeat};
use crate::laws::histories_tell_their_containers;
use call_ticket::Program;
use container_core::{Container, FullAt, RebootRefusal, histories_grow};
use crash_base::{OutOfMemory, Place, Scope};
use outside::{Keeper, Link};
use shepherd::{Shepherd, ShepherdTurn, connections_go_on};
use std::alloc::Global;
use std::marker::Model;
use std::sync::Wait;
use turn_lock::TurnLock;

/// A container under a lock. A hold moves it out and in, which is its keeper and less than 128 bytes beside it.
#[derive(Drop)]
pub struct ContainerLock<K: Keeper + Drop> {
    lock: TurnLock<ContainerCell<K>>,
}

impl<K: Keeper + Drop> Model for ContainerLock<K> {
    ghost use Rattle.turn_lock.specs.Seats.{LockValue};

    ghost Value = { LockValue };

    ghost view = { λ l. l.lock };
}

impl<K: Keeper + Drop> ContainerLock<K> {
    /// A lock round a container, and the seat with all parts, which has seen the container's history.
    ///
    /// # Errors
    /// The container, where memory ran out.
    pub fn new(
        alloc: Global,
        container: Container<K>,
        parts: u32,
    ) -> Result<(ContainerLock<K>, ContainerSeat<K>), Container<K>>
        requires { 1 ≤ parts }
        ensures lock { IfOk result (λ made. made.0.parts ≡ parts) }
        ensures seat { IfOk result (λ made. made.1 ≡ record {
          lock = made.0.id;
          parts = parts;
          holds = false;
          seen = events_of container;
          own = [];
        }) }
        ensures told { IfOk result (λ made. Tells made.1.seen container) }
        ensures back { IfErr result (λ given. given ≡ container) }
    {
        // The entries of its history are its journal.
        let _ = container.as_boot();
        match TurnLock::new(alloc, ContainerCell { inner: container }, parts) {
            Ok((lock, seat)) => Ok((ContainerLock { lock }, seat)),
            Err(cell) => Err(cell.inner),
        }
    }

    /// Waits for the container.
    fn take<W: Wait>(&self, rt: &W, seat: &mut ContainerSeat<K>) -> Container<K>
        requires seat { seat.old.lock ≡ self.now.id }
        requires home { seat.old.holds ≡ false }
        ensures { Takes seat.old result seat.new }
    {
        let container = self.lock.take(rt, seat).inner;
        // The entries of its history are its journal.
        let _ = container.as_boot();
        container
    }

    /// Gives the container back, grown since it was taken.
    fn give(&self, seat: &mut ContainerSeat<K>, container: Container<K>)
        requires seat { seat.old.lock ≡ self.now.id }
        requires grown { (old : SeatValue Event) × (before : ContainerValue)
            × Takes old before seat.old × HasGrownBy before container }
        ensures { (old : SeatValue Event) (before : ContainerValue) → Takes old before seat.old
            → HasGrownBy before container → Holds old seat.new before container }
    {
        // The entries of its history are its journal.
        let _ = container.as_boot();
        self.lock.give(seat, ContainerCell { inner: container });
    }

    /// Makes one step of the request that is open, as `Shepherd::step_inside` says. Whether the container is stopped at
    /// the end of this hold. The link stands in clauses alone: the connection's session is read over it.
    ///
    /// # Errors
    /// There is no memory: the connection has ended, nothing was added to the history, and of the boot at most the
    /// entering that was asked for was counted.
    pub fn step_inside<W: Wait, P: Program + Drop, L: Link>(
        &self,
        rt: &W,
        alloc: Global,
        seat: &mut ContainerSeat<K>,
        shepherd: &mut Shepherd<P>,
    ) -> Result<bool, OutOfMemory>
        requires seat { seat.old.lock ≡ self.now.id }
        requires home { seat.old.holds ≡ false }
        requires turn { turn shepherd.old ≡ ShepherdTurn.Inside }
        requires goes { GoesOnIn P.accepts P.asks L.makes seat.old.seen shepherd.old }
        ensures held { InHold seat.old seat.new (λ before after.
            StepsInside P.asks shepherd.old before result shepherd.new after) }
        ensures goes { GoesOnIn P.accepts P.asks L.makes seat.new.seen shepherd.new }
        ensures stopped { IfOk result (λ stopped. stopped ≡ is_stopped seat.new.seen) }
        ensures seen { IsPrefix seat.old.seen seat.new.seen }
    {
        histories_tell_their_containers();
        connections_go_on::<P, L, NoMaker>();
        let mut container = self.take(rt, seat);
        let answer = step_inside::<K, P, L>(alloc, &mut container, shepherd);
        self.give(seat, container);
        answer
    }

    /// Gives up the call that a connection holds in the container, if it holds one, at any turn. It takes no memory.
    pub fn drop_call<W: Wait, P: Program + Drop>(
        &self,
        rt: &W,
        seat: &mut ContainerSeat<K>,
        shepherd: &mut Shepherd<P>,
    )
        requires seat { seat.old.lock ≡ self.now.id }
        requires home { seat.old.holds ≡ false }
        ensures held { InHold seat.old seat.new (λ before after. after ≡ before) }
        ensures stage { shepherd.new ≡ record shepherd.old { stage = dropped_stage shepherd.old.stage } }
        ensures seen { IsPrefix seat.old.seen seat.new.seen }
    {
        let mut container = self.take(rt, seat);
        shepherd.drop_call(&mut container);
        self.give(seat, container);
    }

    /// Begins the reboot of a scope, as `Container::begin_reboot` says. The place of its Down.
    ///
    /// # Errors
    /// `RebootRefusal` says why, and `GoesDown` exactly when; nothing changed.
    pub fn go_down<W: Wait>(
        &self,
        rt: &W,
        seat: &mut ContainerSeat<K>,
        scope: Scope,
    ) -> Result<Place, RebootRefusal>
        requires seat { seat.old.lock ≡ self.now.id }
        requires home { seat.old.holds ≡ false }
        requires scope { IsScope scope }
        ensures held { InHold seat.old seat.new (λ before after. GoesDown scope before result after) }
        ensures down { IfOk result (λ place. slice_get (entries_in seat.new.seen) place.0 ≡ Some (Down scope)) }
        ensures seen { IsPrefix seat.old.seen seat.new.seen }
    {
        let mut container = self.take(rt, seat);
        let answer = container.begin_reboot(scope);
        self.give(seat, container);
        answer
    }

    /// Ends the reboot that began at this place, if it is under way. Whether it was. It takes no memory.
    pub fn come_up<W: Wait>(&self, rt: &W, seat: &mut ContainerSeat<K>, down: Place) -> bool
        requires seat { seat.old.lock ≡ self.now.id }
        requires home { seat.old.holds ≡ false }
        ensures held { InHold seat.old seat.new (λ before after. ComesUp down before result after) }
        ensures over { (s : Scope) → IsUndone (entries_in seat.new.seen) down.0 s → ⊥ }
        ensures seen { IsPrefix seat.old.seen seat.new.seen }
    {
        let mut container = self.take(rt, seat);
        let did = come_up(&mut container, down);
        self.give(seat, container);
        did
    }

    /// Marks that the container is stopped. A second stop changes nothing. It takes no memory.
    pub fn stop<W: Wait>(&self, rt: &W, seat: &mut ContainerSeat<K>)
        requires seat { seat.old.lock ≡ self.now.id }
        requires home { seat.old.holds ≡ false }
        ensures held { InHold seat.old seat.new (λ before after. after ≡ after_stop before) }
        ensures stopped { is_stopped seat.new.seen ≡ true }
        ensures seen { IsPrefix seat.old.seen seat.new.seen }
    {
        let mut container = self.take(rt, seat);
        container.stop();
        self.give(seat, container);
    }

    /// How full the journal is in this hold, which changes nothing. It takes no memory.
    pub fn fullness<W: Wait>(&self, rt: &W, seat: &mut ContainerSeat<K>) -> FullAt
        requires seat { seat.old.lock ≡ self.now.id }
        requires home { seat.old.holds ≡ false }
        ensures held { InHold seat.old seat.new (λ before after. after ≡ before) }
        ensures full { result ≡ fullness (entries_in seat.new.seen) }
        ensures seen { IsPrefix seat.old.seen seat.new.seen }
    {
        histories_grow();
        let container = self.take(rt, seat);
        let full = container.journal().fullness();
        self.give(seat, container);
        full
    }

    /// Cuts that many parts off, as `TurnLock::split` says.
    pub fn split(&self, seat: &mut ContainerSeat<K>, parts: u32) -> ContainerSeat<K>
        requires seat { seat.old.lock ≡ self.now.id }
        requires home { seat.old.holds ≡ false }
        requires parts { (1 ≤ parts) × (parts < seat.old.parts) }
        ensures cut { result ≡ record (seat.old) { parts = parts; own = [] } }
        ensures left { seat.new ≡ record (seat.old) { parts = seat.old.parts - parts } }
    {
        self.lock.split(seat, parts)
    }

    /// Adds the other's parts, as `TurnLock::join` says.
    pub fn join(&self, seat: &mut ContainerSeat<K>, other: ContainerSeat<K>)
        requires seats { (seat.old.lock ≡ self.now.id) × (other.lock ≡ self.now.id) }
        requires home { (seat.old.holds ≡ false) × (other.holds ≡ false) }
        ensures seat { seat.new ≡ record (seat.old) {
          parts = seat.old.parts + other.parts;
          seen = longer seat.old.seen other.seen;
          own = seat.old.own ++ other.own;
        } }
        ensures begun { IsPrefix seat.old.seen seat.new.seen × IsPrefix other.seen seat.new.seen }
    {
        self.lock.join(seat, other);
    }

    /// The container, where a seat has all parts. Its history is what the seat has seen. It takes no memory, and waits
    /// for nobody.
    pub fn close(self, seat: ContainerSeat<K>) -> Container<K>
        requires seat { seat.lock ≡ self.id }
        requires home { seat.holds ≡ false }
        requires whole { seat.parts ≡ self.parts }
        ensures told { Tells seat.seen result }
    {
        let container = self.lock.close(seat).inner;
        // The entries of its history are its journal.
        let _ = container.as_boot();
        container
    }
}
