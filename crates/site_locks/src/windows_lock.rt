//! Windows under a lock.

ghost use Rattle.std.specs.Prelude.{◌≡◌, ◌-◌, ◌<◌, ◌≤◌, ◌+◌, [], ◌++◌, false, List, IfErr, IfOk};
ghost use mathlib.Core.List.{IsPrefix};
ghost use Rattle.container_core.specs.declared.history.Event.{Event};
ghost use Rattle.send_windows.specs.Windows.{KeepLimits, WindowsValue};
ghost use Rattle.send_windows.specs.declared.history.WindowMark.{WindowMark};
ghost use Rattle.shepherd.specs.Shepherds.{turn};
ghost use Rattle.shepherd.specs.Steps.{GivesBack};
ghost use Rattle.site_locks.specs.Holds.{GoesOnIn, HoldsWindows, InWindowsHold, TakesWindows};
ghost use Rattle.site_locks.specs.Steps.{StepsWindows};
ghost use Rattle.turn_lock.specs.Seats.{SeatValue};
ghost use Rattle.turn_lock.specs.Turns.{longer};

use crate::calls::step_windows;
use crate::cells::{WindowsCell, WindowsSeat};
use call_ticket::Program;
use crash_base::OutOfMemory;
use outside::Link;
use send_windows::Windows;
use shepherd::{Shepherd, ShepherdTurn};
use std::alloc::Global;
use std::marker::Model;
use std::sync::Wait;
use turn_lock::TurnLock;

/// Windows under a lock. A hold moves them out and in, which is a vector and a few numbers.
#[derive(Drop)]
pub struct WindowsLock {
    lock: TurnLock<WindowsCell>,
}

impl Model for WindowsLock {
    ghost use Rattle.turn_lock.specs.Seats.{LockValue};

    ghost Value = { LockValue };

    ghost view = { λ l. l.lock };
}

impl WindowsLock {
    /// A lock round windows, and the seat with all parts, which has seen their history.
    ///
    /// # Errors
    /// The windows, where memory ran out.
    pub fn new(
        alloc: Global,
        windows: Windows,
        parts: u32,
    ) -> Result<(WindowsLock, WindowsSeat), Windows>
        requires { 1 ≤ parts }
        ensures lock { IfOk result (λ made. made.0.parts ≡ parts) }
        ensures seat { IfOk result (λ made. made.1 ≡ record {
          lock = made.0.id;
          parts = parts;
          holds = false;
          seen = windows.history;
          own = [];
        }) }
        ensures back { IfErr result (λ given. given ≡ windows) }
    {
        match TurnLock::new(alloc, WindowsCell { inner: windows }, parts) {
            Ok((lock, seat)) => Ok((WindowsLock { lock }, seat)),
            Err(cell) => Err(cell.inner),
        }
    }

    /// Waits for the windows.
    fn take<W: Wait>(&self, rt: &W, seat: &mut WindowsSeat) -> Windows
        requires seat { seat.old.lock ≡ self.now.id }
        requires home { seat.old.holds ≡ false }
        ensures { TakesWindows seat.old result seat.new }
    {
        let windows = self.lock.take(rt, seat).inner;
        // They keep their limits.
        let _ = windows.facts();
        windows
    }

    /// Gives the windows back, with marks that were only added to since they were taken.
    fn give(&self, seat: &mut WindowsSeat, windows: Windows)
        requires seat { seat.old.lock ≡ self.now.id }
        requires grown { (old : SeatValue WindowMark) × (before : WindowsValue)
            × TakesWindows old before seat.old × IsPrefix before.history windows.history }
        ensures { (old : SeatValue WindowMark) (before : WindowsValue) → TakesWindows old before seat.old
            → IsPrefix before.history windows.history → HoldsWindows old seat.new before windows }
    {
        // They keep their limits.
        let _ = windows.facts();
        self.lock.give(seat, WindowsCell { inner: windows });
    }

    /// Makes one call of the windows for the session of the request that is open, as `Shepherd::step_windows` says:
    /// passes are taken, or spent. The connection goes on wherever it did. The link stands in clauses alone: the
    /// session is read over it.
    ///
    /// # Errors
    /// There is no memory: the connection has ended.
    pub fn step<W: Wait, P: Program + Drop, L: Link>(
        &self,
        rt: &W,
        alloc: Global,
        seat: &mut WindowsSeat,
        shepherd: &mut Shepherd<P>,
    ) -> Result<(), OutOfMemory>
        requires seat { seat.old.lock ≡ self.now.id }
        requires home { seat.old.holds ≡ false }
        requires turn { turn shepherd.old ≡ ShepherdTurn.Windows }
        ensures held { InWindowsHold seat.old seat.new (λ before after.
            StepsWindows shepherd.old before result shepherd.new after) }
        ensures goes { (history : List Event) → GoesOnIn P.accepts P.asks L.makes history shepherd.old
            → GoesOnIn P.accepts P.asks L.makes history shepherd.new }
        ensures seen { IsPrefix seat.old.seen seat.new.seen }
    {
        let mut windows = self.take(rt, seat);
        let answer = step_windows::<P, L>(alloc, &mut windows, shepherd);
        self.give(seat, windows);
        answer
    }

    /// Gives back the passes that a connection holds, if it holds some, an unheard one as Silent, at any turn. It takes
    /// no memory.
    pub fn drop_passes<W: Wait, P: Drop>(
        &self,
        rt: &W,
        seat: &mut WindowsSeat,
        shepherd: &mut Shepherd<P>,
    )
        requires seat { seat.old.lock ≡ self.now.id }
        requires home { seat.old.holds ≡ false }
        ensures held { InWindowsHold seat.old seat.new (λ before after.
            GivesBack shepherd.old.stage before shepherd.new.stage after) }
        ensures rest { shepherd.new ≡ record shepherd.old { stage = shepherd.new.stage } }
        ensures seen { IsPrefix seat.old.seen seat.new.seen }
    {
        let mut windows = self.take(rt, seat);
        shepherd.drop_passes(&mut windows);
        self.give(seat, windows);
    }

    /// Cuts that many parts off, as `TurnLock::split` says.
    pub fn split(&self, seat: &mut WindowsSeat, parts: u32) -> WindowsSeat
        requires seat { seat.old.lock ≡ self.now.id }
        requires home { seat.old.holds ≡ false }
        requires parts { (1 ≤ parts) × (parts < seat.old.parts) }
        ensures cut { result ≡ record (seat.old) { parts = parts; own = [] } }
        ensures left { seat.new ≡ record (seat.old) { parts = seat.old.parts - parts } }
    {
        self.lock.split(seat, parts)
    }

    /// Adds the other's parts, as `TurnLock::join` says.
    pub fn join(&self, seat: &mut WindowsSeat, other: WindowsSeat)
        requires seats { (seat.old.lock ≡ self.now.id) × (other.lock ≡ self.now.id) }
        requires home { (seat.old.holds ≡ false) × (other.holds ≡ false) }
        ensures seat { seat.new ≡ record (seat.old) {
          parts = seat.old.parts + other.parts;
          seen = longer seat.old.seen other.seen;
          own = seat.old.own ++ other.own;
        } }
        ensures begun { IsPrefix seat.old.seen seat.new.seen × IsPrefix other.seen seat.new.seen }
    {
        self.lock.join(seat, other);
    }

    /// The windows, where a seat has all parts. Their history is what the seat has seen. It takes no memory, and waits
    /// for nobody.
    pub fn close(self, seat: WindowsSeat) -> Windows
        requires seat { seat.lock ≡ self.id }
        requires home { seat.holds ≡ false }
        requires whole { seat.parts ≡ self.parts }
        ensures seen { result.history ≡ seat.seen }
        ensures limits { KeepLimits result }
    {
        let windows = self.lock.close(seat).inner;
        // They keep their limits.
        let _ = windows.facts();
        windows
    }
}
