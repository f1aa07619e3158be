//! Laws of the event of a step: that a step is one, what it leaves, and what the keeper tells of it.

ghost use Rattle.std.specs.Prelude.{◌≡◌, ◌≢◌, ◌+◌, ℕ, true, List, [], length};
ghost use Rattle.boot_core.specs.Keeper.{kept_writes};
ghost use Rattle.outcome_items.specs.declared.item.Item.{Item};
ghost use Rattle.shepherd.specs.Shepherds.{turn};
ghost use Rattle.shepherd.specs.declared.shepherd.EndKind.{EndKind};
ghost use Rattle.shepherd.specs.declared.shepherd.ShepherdTurn.TheVariants as turns;
ghost use Rattle.shepherd_steps.specs.Alone.{HasCall};
ghost use Rattle.shepherd_steps.specs.Events.{AddsOneAtMost, event_of, handed_at_step, owes, requests_open};
ghost use Rattle.shepherd_steps.specs.Inside.{TellsReply};
ghost use Rattle.shepherd_steps.specs.Stepping.{AreFunctions, Calling, Calls, Givens, Leaves, MakesStep, World, step, world_of};
ghost use Rattle.shepherd_steps.specs.Taking.{Counts};

use outside::{Clock, Link, Random, Serials};
use request_decisions::decisions_are_one;
use shepherd::ProgramMaker;

/// A step of a connection is one event, after which others are to step, or it has ended: no program is to be made then,
/// no response, and no item to be taken. So a step in which an item is an event of its own is refused, and one that
/// leaves out what the connection does by itself. That holds where the call of a request is there until its program is
/// made, and a step leaves this so. While bytes are to come, and once the connection has ended, nothing happens: a step
/// that ends it by itself is refused. The link, the windows, the boot with its events, and how many numbers were drawn
/// change at their own turns alone, and one event at most joins the others. Bytes are put out at the turn of output
/// alone, and a response that is owed is owed until then: a step that makes one and throws it away is refused.
/// A request that is closed gives its item, so a step that drops one is refused.
pub fn steps_are_one_event<P, L>()
    ensures rests { (g : Givens P L) (w : World P L) → HasCall (event_of g w).world.connection.stage
        → (let next = turn (step g w).world.connection in
        (next ≢ turns.Program) × (next ≢ turns.Own) × (next ≢ turns.Item)) }
    ensures called { (g : Givens P L) (w : World P L) → HasCall w.connection.stage
        → HasCall (event_of g w).world.connection.stage × HasCall (step g w).world.connection.stage }
    ensures waits { (g : Givens P L) (w : World P L) → turn w.connection ≡ turns.Bytes
        → step g w ≡ record { world = w; bytes = []; items = [] } }
    ensures ended { (g : Givens P L) (w : World P L) (end : EndKind) → turn w.connection ≡ turns.Ended end
        → step g w ≡ record { world = w; bytes = []; items = [] } }
    ensures link { (g : Givens P L) (w : World P L) → turn w.connection ≢ turns.Outside
        → (step g w).world.link ≡ w.link }
    ensures windows { (g : Givens P L) (w : World P L) → turn w.connection ≢ turns.Windows
        → (step g w).world.windows ≡ w.windows }
    ensures inside { (g : Givens P L) (w : World P L) → turn w.connection ≢ turns.Inside
        → ((step g w).world.boot ≡ w.boot) × ((step g w).world.since ≡ w.since) }
    ensures drawn { (g : Givens P L) (w : World P L) → turn w.connection ≢ turns.Request
        → (step g w).world.drawn ≡ w.drawn }
    ensures put_out { (g : Givens P L) (w : World P L) → turn w.connection ≢ turns.Output → (step g w).bytes ≡ [] }
    ensures event { (g : Givens P L) (w : World P L) → AddsOneAtMost w.since (step g w).world.since }
    ensures owed { (g : Givens P L) (w : World P L) → turn w.connection ≢ turns.Output
        → owes w.connection.stage ≡ true → owes (step g w).world.connection.stage ≡ true }
    ensures items { (g : Givens P L) (w : World P L)
        → length (step g w).items + requests_open (step g w).world.connection.stage
        ≡ requests_open (event_of g w).world.connection.stage }
    ensures begun { (g : Givens P L) (w : World P L) → turn w.connection ≡ turns.Request
        → owes (step g w).world.connection.stage ≡ true }
{}

/// What the call leaves that is the event of a step is what the function `event_of` gives. So half a step is fixed too,
/// where memory ends in what the connection does by itself after the event.
pub fn events_are_fixed<P, L: Link, M: ProgramMaker<P>, C: Clock, R: Random, S: Serials>()
    ensures { (g : Givens P L) (maker : M) (words : ℕ → R) (serials : ℕ → S) (drawn : Counts)
        (old mid : Calling P L C R S) (bytes : List ℕ)
        → AreFunctions {C = C} L.makes M.makes C.told R.gives S.looks g maker words serials
        → old.random ≡ words drawn.words → old.serials ≡ serials drawn.serials
        → Calls L.makes M.makes C.told R.gives S.looks g (turn old.connection) old mid bytes
        → Leaves words serials mid bytes [] (event_of g (world_of old drawn)) }
{
    decisions_are_one();
}

/// What the keeper tells after a step is a function of the writes that the step hands to it, which is a function of the
/// world before, and of whether it keeps them: it keeps all, or refuses them; and it is not called where there are
/// none, as at each turn but that of the container. So it is after the event alone.
pub fn what_keepers_tell_is_fixed<P, L: Link, M: ProgramMaker<P>, C: Clock, R: Random, S: Serials>()
    ensures event { (g : Givens P L) (drawn : Counts) (old mid : Calling P L C R S) (bytes : List ℕ)
        → Calls L.makes M.makes C.told R.gives S.looks g (turn old.connection) old mid bytes
        → TellsReply (handed_at_step g (world_of old drawn)) g.keeps old.container.told mid.container.told }
    ensures step { (g : Givens P L) (maker : M) (drawn : Counts) (old new : Calling P L C R S) (bytes : List ℕ)
        (items : List Item) → MakesStep L.makes M.makes C.told R.gives S.looks g maker old new bytes items
        → TellsReply (handed_at_step g (world_of old drawn)) g.keeps old.container.told new.container.told }
    ensures kept { (g : Givens P L) (maker : M) (drawn : Counts) (old new : Calling P L C R S) (bytes : List ℕ)
        (items : List Item) → MakesStep L.makes M.makes C.told R.gives S.looks g maker old new bytes items
        → g.keeps ≡ true
        → new.container.told ≡ kept_writes (handed_at_step g (world_of old drawn)) old.container.told }
    ensures uncalled { (g : Givens P L) (maker : M) (drawn : Counts) (old new : Calling P L C R S) (bytes : List ℕ)
        (items : List Item) → MakesStep L.makes M.makes C.told R.gives S.looks g maker old new bytes items
        → handed_at_step g (world_of old drawn) ≡ [] → new.container.told ≡ old.container.told }
{}
