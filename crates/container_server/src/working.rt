//! What a worker does.

ghost use Rattle.std.specs.Prelude.{◌≡◌};
ghost use Rattle.connection_server.specs.Seats.{IsOfSite};
ghost use Rattle.container_server.specs.Seats.{AreOf, WereUsed};

use crate::gate::Gate;
use crate::seats::Seats;
use crate::signals::{Signals, Watch};
use crate::site::Site;
use crate::tools::{ToolBox, Tools};
use connection_server::ServedEnd;
use outside::Keeper;
use std::alloc::Global;
use std::sync::Wait;

/// Serves a connection. Whether it found the container stopped.
fn serve<G: Gate, K: Keeper + Drop, W: Wait>(
    rt: &W,
    alloc: Global,
    gate: &G,
    site: &Site<K>,
    signals: &Signals,
    tools: &mut Tools<G::L, G::C, G::R>,
    seats: &mut Seats<K>,
    source: &mut G::In,
    sink: &mut G::Out,
) -> bool
    requires seats { AreOf site.now seats.old }
    requires seen { IsOfSite site.now.home seats.old.container.seen }
    ensures seats { AreOf site.now seats.new }
    ensures seen { IsOfSite site.now.home seats.new.container.seen }
    ensures used { WereUsed seats.old seats.new }
{
    let watch = Watch::new(gate, signals);
    let ended = seats.serve(
        rt,
        alloc,
        site,
        source,
        sink,
        &mut tools.link,
        &mut tools.clock,
        &mut tools.random,
        &watch,
    );
    watch.leave();
    match ended {
        ServedEnd::Stopped => true,
        ServedEnd::Closed
        | ServedEnd::Cut
        | ServedEnd::Refused(_)
        | ServedEnd::ReadFault
        | ServedEnd::WriteFault
        | ServedEnd::OutOfMemory => false,
    }
}

/// Serves the next connection, if one came. Whether the worker is to end; and that no more connections come, if so.
fn serve_next<G: Gate, K: Keeper + Drop, W: Wait>(
    rt: &W,
    alloc: Global,
    gate: &G,
    site: &Site<K>,
    signals: &Signals,
    tools: &mut Tools<G::L, G::C, G::R>,
    seats: &mut Seats<K>,
) -> (bool, Option<G::Closed>)
    requires seats { AreOf site.now seats.old }
    requires seen { IsOfSite site.now.home seats.old.container.seen }
    ensures seats { AreOf site.now seats.new }
    ensures seen { IsOfSite site.now.home seats.new.container.seen }
    ensures used { WereUsed seats.old seats.new }
{
    match gate.next(seats.worker()) {
        Err(closed) => (true, Some(closed)),
        Ok(None) => (false, None),
        Ok(Some((mut source, mut sink))) => {
            let stopped = serve::<G, K, W>(
                rt,
                alloc,
                gate,
                site,
                signals,
                tools,
                seats,
                &mut source,
                &mut sink,
            );
            (stopped, None)
        }
    }
}

/// Serves connections, until one of them has found the container stopped, or the container is stopped and there is
/// none, or no more come.
pub(crate) fn work<G: Gate, K: Keeper + Drop, W: Wait>(
    rt: &W,
    alloc: Global,
    gate: &G,
    site: &Site<K>,
    signals: &Signals,
    tools: &ToolBox<G>,
    seats: &mut Seats<K>,
) -> Option<G::Closed>
    requires seats { AreOf site.now seats.old }
    requires seen { IsOfSite site.now.home seats.old.container.seen }
    ensures seats { AreOf site.now seats.new }
    ensures used { WereUsed seats.old seats.new }
{
    let mut tools = tools.lock(rt);
    for _ in rt.forever() {
        if signals.is_stopped() {
            return None;
        }
        let (ends, closed) = serve_next::<G, K, W>(
            rt,
            alloc,
            gate,
            site,
            signals,
            &mut *tools,
            seats,
        );
        if ends {
            return closed;
        }
    }
    unreachable!()
}
