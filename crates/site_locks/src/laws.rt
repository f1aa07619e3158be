//! Laws of histories that tell their containers. Each is the contract of a function that does nothing: a caller that
//! needs the law calls the function.

ghost use Rattle.std.specs.Prelude.{List};
ghost use mathlib.Core.List.{IsPrefix};
ghost use Rattle.container_core.specs.Container.{ContainerValue, HasGrownBy};
ghost use Rattle.container_core.specs.declared.history.Event.{Event};
ghost use Rattle.shepherd.specs.Going.{GoesOn};
ghost use Rattle.shepherd.specs.declared.shepherd.Shepherd.{Shepherd};
ghost use Rattle.site_locks.specs.Holds.{GoesOnIn, Tells};

use call_ticket::Program;
use container_core::histories_grow;
use outside::Link;

/// Where the history of one container begins that of another, the first has grown to the other. So what a seat has seen
/// tells a container that has grown to the one that the seat's next hold finds, whatever others do meanwhile.
pub fn histories_tell_their_containers()
    ensures { (history later : List Event) (container after : ContainerValue) → Tells history container
        → Tells later after → IsPrefix history later → HasGrownBy container after }
{
    histories_grow();
}

/// A connection that goes on in a container goes on in the history that tells it (`told`). So one that begins does so
/// in what a new seat has seen. And where it goes on in a history, there is a container that the history tells, in
/// which it goes on (`goes_on`).
pub fn connections_go_on_in_histories<P: Program, L: Link>()
    ensures told { (history : List Event) (container : ContainerValue) (s : Shepherd P) → Tells history container
        → GoesOn P.accepts P.asks L.makes container s → GoesOnIn P.accepts P.asks L.makes history s }
    ensures goes_on { (history : List Event) (s : Shepherd P) → GoesOnIn P.accepts P.asks L.makes history s
        → (container : ContainerValue) × Tells history container
        × GoesOn P.accepts P.asks L.makes container s }
{}
