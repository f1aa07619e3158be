//! The law of requests that nothing hindered. It is the contract of a function that does nothing: a caller that needs
//! the law calls the function.

ghost use Rattle.std.specs.Prelude.{List};
ghost use Rattle.boot_core.specs.declared.boot.Start.{Start};
ghost use Rattle.container_core.specs.declared.history.Event.{Event};
ghost use Rattle.outcome_items.specs.declared.item.Item.{Item};
ghost use Rattle.served_items.specs.Attributing.{Service, TakenIn};
ghost use Rattle.served_items.specs.Served.{IsServedFor};
ghost use Rattle.served_connections.specs.Unhindered.{IsPage, NothingHindered};

use call_ticket::Program;
use outside::{Link, Random, Serials};
use shepherd::ProgramMaker;

/// Each item whose request nothing hindered is a page. So what an item tells in place of a page was so: whoever answers
/// that a request is refused, revoked, in conflict or failed, though nothing hindered it, does not meet `IsServedFor`,
/// and so not `HasServed`, by which there is such an item for each request that was served
/// (`courses_show_what_was_served`, clause `request`). That its session served and that no passes were refused is taken
/// as the item tells it: other clauses tie that to what was heard and seen.
pub fn unhindered_items_are_pages<P: Program, L: Link, M: ProgramMaker<P>, R: Random, S: Serials>()
    ensures { (service : Service M) (start : Start) (history : List Event) (t : TakenIn) (i : Item)
        → IsServedFor P.asks L.makes M.makes R.gives S.looks service start history t i
        → NothingHindered P.asks (M.makes service.maker) start history t i → IsPage i.outcome }
{}
