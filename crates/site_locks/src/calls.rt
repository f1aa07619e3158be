//! The calls that are made in holds.

ghost use Rattle.std.specs.Prelude.{◌≡◌};
ghost use mathlib.Core.List.{IsPrefix};
ghost use Rattle.container_core.specs.Container.{ContainerValue, HasGrownBy};
ghost use Rattle.shepherd.specs.Going.{GoesOn};
ghost use Rattle.shepherd.specs.Shepherds.{turn};
ghost use Rattle.site_locks.specs.Steps.{ComesUp, StepsInside, StepsWindows};

use auction_calls::CheckedCall;
use call_ticket::Program;
use container_core::{Container, histories_grow};
use crash_base::{ActionText, OutOfMemory, Place};
use outside::{Keeper, Link};
use send_windows::Windows;
use shepherd::{ProgramMaker, Shepherd, ShepherdTurn, connections_go_on};
use std::alloc::Global;

/// A maker that makes no program. The laws of connections are stated for each maker, and no hold calls one.
pub(crate) struct NoMaker;

impl<P> ProgramMaker<P> for NoMaker {
    ghost makes = { λ maker call text program. ⊥ };

    fn make(&self, _alloc: Global, _call: CheckedCall) -> Result<(ActionText, P), OutOfMemory> {
        Err(OutOfMemory)
    }
}

/// One step of the request that is open. Whether the container is stopped then.
pub(crate) fn step_inside<K: Keeper + Drop, P: Program + Drop, L: Link>(
    alloc: Global,
    container: &mut Container<K>,
    shepherd: &mut Shepherd<P>,
) -> Result<bool, OutOfMemory>
    requires turn { turn shepherd.old ≡ ShepherdTurn.Inside }
    requires goes { GoesOn P.accepts P.asks L.makes container.old shepherd.old }
    ensures step { StepsInside P.asks shepherd.old container.old result shepherd.new container.new }
    ensures goes { GoesOn P.accepts P.asks L.makes container.new shepherd.new }
    ensures grown { HasGrownBy container.old container.new }
{
    connections_go_on::<P, L, NoMaker>();
    match shepherd.step_inside(alloc, container) {
        Ok(()) => Ok(container.stopped()),
        Err(OutOfMemory) => Err(OutOfMemory),
    }
}

/// Ends the reboot that began at this place, if it is under way. Whether it was.
pub(crate) fn come_up<K: Keeper + Drop>(container: &mut Container<K>, down: Place) -> bool
    ensures up { ComesUp down container.old result container.new }
    ensures grown { HasGrownBy container.old container.new }
{
    histories_grow();
    if container.is_undone(down) {
        container.end_reboot(down);
        true
    } else {
        false
    }
}

/// One call of the windows for the session of the request that is open.
pub(crate) fn step_windows<P: Program + Drop, L: Link>(
    alloc: Global,
    windows: &mut Windows,
    shepherd: &mut Shepherd<P>,
) -> Result<(), OutOfMemory>
    requires turn { turn shepherd.old ≡ ShepherdTurn.Windows }
    ensures step { StepsWindows shepherd.old windows.old result shepherd.new windows.new }
    ensures goes { (container : ContainerValue) → GoesOn P.accepts P.asks L.makes container shepherd.old
        → GoesOn P.accepts P.asks L.makes container shepherd.new }
    ensures grown { IsPrefix windows.old.history windows.new.history }
{
    connections_go_on::<P, L, NoMaker>();
    // The windows keep their limits: 1 to 16 bricks are asked.
    let _ = windows.facts();
    match shepherd.step_windows(alloc, windows) {
        Ok(()) => Ok(()),
        Err(OutOfMemory) => Err(OutOfMemory),
    }
}
