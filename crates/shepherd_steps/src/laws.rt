//! Laws of the steps of a connection. Each is the contract of a function that does nothing: a caller that needs the law
//! calls the function.

ghost use Rattle.std.specs.Prelude.{◌≡◌, ◌≤◌, ℕ, Bool, false, List, [], ◌∷◌, length};
ghost use Rattle.auction_calls.specs.declared.action.ActionCall.{ActionCall};
ghost use Rattle.container_core.specs.Container.{ContainerValue};
ghost use Rattle.crash_base.specs.declared.numbers.WorkerNo.{WorkerNo};
ghost use Rattle.http_wire.specs.declared.taken.Head.{Head};
ghost use Rattle.outcome_items.specs.declared.item.Item.{Item};
ghost use Rattle.request_visit.specs.Advancing.{Advances};
ghost use Rattle.request_visit.specs.Stepping.{VisitsInside, VisitsWindows};
ghost use Rattle.request_visit.specs.declared.visit.Visit.{Visit};
ghost use Rattle.send_windows.specs.Windows.{WindowsValue};
ghost use Rattle.shepherd.specs.Shepherds.{turn};
ghost use Rattle.shepherd.specs.Standing.{Standing};
ghost use Rattle.shepherd.specs.Steps.{OpensStage, PutsOut, TakesItem, VisitsOutside};
ghost use Rattle.shepherd.specs.declared.shepherd.Shepherd.{Shepherd};
ghost use Rattle.shepherd.specs.declared.shepherd.Stage.{Stage};
ghost use Rattle.shepherd_steps.specs.Inside.{HasReplied, Inside, TellsReply, added_to, handed, inside, kept_in};
ghost use Rattle.shepherd_steps.specs.Leaving.{item_taken, output_of};
ghost use Rattle.shepherd_steps.specs.Opening.{MakesJust, open_stage};
ghost use Rattle.shepherd_steps.specs.Outside.{AnswersBy, Replies, outside};
ghost use Rattle.shepherd_steps.specs.Own.{own};
ghost use Rattle.shepherd_steps.specs.Passes.{windows_step};
ghost use Rattle.shepherd_steps.specs.Alone.{GoesAloneThrough, HasCall, Making, goes_alone, gone_alone};

use call_ticket::Program;
use outside::Link;
use shepherd::ProgramMaker;

/// What a step in the container leaves of the request, of the boot and of its events is a function of these, and of
/// whether the keeper keeps what it is handed. That is told by the events that were added, and matters only where it is
/// handed something; and what the keeper tells then is a function of it too.
pub fn steps_inside_are_fixed<P: Program>()
    ensures told { (old new : Visit P) (container after : ContainerValue) → VisitsInside P.asks old container new after
        → (let to : Inside P = record { visit = new; boot = after.boot; since = after.since } in to)
        ≡ inside P.asks (kept_in (added_to container.since after.since)) old container.boot container.since }
    ensures replied { (keeps : Bool) (old new : Visit P) (container after : ContainerValue)
        → HasReplied keeps (handed P.asks old container.boot) (added_to container.since after.since)
        → VisitsInside P.asks old container new after
        → (let to : Inside P = record { visit = new; boot = after.boot; since = after.since } in to)
        ≡ inside P.asks keeps old container.boot container.since }
    ensures keeper { (keeps : Bool) (old new : Visit P) (container after : ContainerValue)
        → HasReplied keeps (handed P.asks old container.boot) (added_to container.since after.since)
        → VisitsInside P.asks old container new after
        → TellsReply (handed P.asks old container.boot) keeps container.told after.told }
{}

/// What a step outside leaves of the request and of the link is a function of both, where the link's answers are fixed
/// by its state.
pub fn steps_outside_are_fixed<P, L: Link>()
    ensures { (replies : Replies L) (old new : Visit P) (link after : L) → AnswersBy L.makes replies
        → VisitsOutside L.makes L.tally old link new after → (new, after) ≡ outside replies L.tally old link }
{}

/// What a step in the windows leaves of the request and of the windows is a function of both.
pub fn steps_of_windows_are_fixed<P>()
    ensures { (old new : Visit P) (windows after : WindowsValue) → VisitsWindows old windows new after
        → (new, after) ≡ windows_step old windows }
{}

/// What a request becomes by itself is a function of the service's key and of the request.
pub fn own_steps_are_fixed<P>()
    ensures { (key : List ℕ) (old new : Visit P) → Advances key old old.work new → new ≡ own key old }
{}

/// The stage after a program was made is a function of the stage before, where what is made of a call is one of the
/// call.
pub fn opened_requests_are_fixed<P, M: ProgramMaker<P>>()
    ensures { (made : ActionCall → List ℕ × P) (maker : M) (worker : WorkerNo) (old new : Stage P)
        → MakesJust M.makes maker made → OpensStage M.makes maker worker old new → new ≡ open_stage made worker old }
{}

/// The bytes that are put out, and the stage after, are a function of the stage before.
pub fn what_is_put_out_is_fixed<P>()
    ensures { (bytes : List ℕ) (old new : Stage P) → PutsOut old bytes new → (bytes, new) ≡ output_of old }
{}

/// The item that is taken, and the connection after, are a function of the connection before.
pub fn items_are_fixed<P>()
    ensures { (i : Item) (s : Shepherd P) (stage : Stage P) → TakesItem s.stage i stage
        → (record s { front = i.holds.front; stage = stage }, i ∷ []) ≡ item_taken s }
{}

/// A loop over the calls of a connection that goes on by itself makes two at most, and what it leaves, with the items
/// that it gave, is a function of the connection.
pub fn going_alone_is_fixed<P, M: ProgramMaker<P>>()
    ensures { (m : Making P) (maker : M) (through : List (Shepherd P × List Item)) (old new : Shepherd P)
        (items : List Item) → MakesJust M.makes maker m.made
        → GoesAloneThrough M.makes maker m.worker m.key through old new items
        → (length through ≤ 2) × ((new, items) ≡ gone_alone m old) }
{}

/// Once a connection has gone on by itself, others are to step, or it has ended, where the call of its request is there
/// until its program is made. So it is of each connection that stands for its requests.
pub fn going_alone_ends<P>()
    ensures rests { (m : Making P) (s : Shepherd P) → HasCall s.stage → goes_alone (turn (gone_alone m s).0) ≡ false }
    ensures standing { (fed : List ℕ) (heads : List Head) (written : List ℕ) (items : List Item) (s : Shepherd P)
        → Standing fed heads written items s → HasCall s.stage }
{}
