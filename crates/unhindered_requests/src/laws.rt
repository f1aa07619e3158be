//! The laws. Each is the contract of a function that does nothing: a caller that needs the law calls the function.

ghost use Rattle.std.specs.Prelude.{◌≡◌, ◌≤◌, ◌<◌, ◌+◌, ℕ, Bool, true, All, List, [], length, Option, None, Some, IfSome};
ghost use Rattle.std.specs.List.{count_by};
ghost use Rattle.boot_core.specs.Boot.{BootValue};
ghost use Rattle.boot_core.specs.Refusals.{HasRoomFor};
ghost use Rattle.call_attempts.specs.Attempt.{AttemptValue, wanted};
ghost use Rattle.call_ticket.specs.declared.next.Answer.{Answer};
ghost use Rattle.call_ticket.specs.declared.next.Next.{Next};
ghost use Rattle.call_ticket.specs.declared.next.Next.TheVariants as next;
ghost use Rattle.crash_base.specs.declared.numbers.BrickNo.{BrickNo};
ghost use Rattle.crash_base.specs.declared.numbers.ComponentNo.{ComponentNo};
ghost use Rattle.crash_base.specs.declared.numbers.RequestNo.{RequestNo};
ghost use Rattle.crash_base.specs.declared.numbers.Version.{Version};
ghost use Rattle.container_core.specs.Container.{ContainerValue};
ghost use Rattle.deployment.specs.Groups.{group_of};
ghost use Rattle.http_wire.specs.declared.taken.Head.{Head};
ghost use Rattle.journal_model.specs.Conflicts.{conflict_of};
ghost use Rattle.journal_model.specs.Reboots.{down_of};
ghost use Rattle.journal_model.specs.Stale.{stale_in};
ghost use Rattle.journal_model.specs.declared.conflict.Conflict.{Conflict};
ghost use Rattle.journal_model.specs.declared.entry.DoneText.{DoneText};
ghost use Rattle.journal_model.specs.declared.stale.Stale.{Stale};
ghost use Rattle.outside.specs.Faults.{Rose};
ghost use Rattle.outside.specs.declared.link.LinkCounts.{LinkCounts};
ghost use Rattle.outside.specs.declared.serials.TheConstants.{SERIALS_END};
ghost use Rattle.outcome_items.specs.declared.item.Item.{Item};
ghost use Rattle.request_decisions.specs.Decisions.{IsDecided};
ghost use Rattle.request_decisions.specs.declared.decision.Decision.TheVariants as decided;
ghost use Rattle.request_decisions.specs.declared.decision.Order.{Order};
ghost use Rattle.request_intake.specs.Intakes.{TakesIn};
ghost use Rattle.request_intake.specs.declared.intake.Admission.{Admission};
ghost use Rattle.request_intake.specs.declared.intake.Arrival.TheVariants.{SerialsSpent, Admitted};
ghost use Rattle.request_intake.specs.declared.intake.HomeBoot.{HomeBoot};
ghost use Rattle.request_intake.specs.declared.intake.Intake.{Intake};
ghost use Rattle.request_tries.specs.Serving.{IsServing, TriesValue};
ghost use Rattle.request_tries.specs.Steps.{action_of};
ghost use Rattle.send_windows.specs.declared.fact.TheConstants.{MAX_BRICKS};
ghost use Rattle.send_windows.specs.Windows.{WindowsValue};
ghost use Rattle.send_windows.specs.declared.pass.Pass.{Pass};
ghost use Rattle.session_cookie.specs.declared.cookie.Cookie.{Cookie};
ghost use Rattle.session_cookie.specs.declared.cookie.Holder.{Holder};
ghost use Rattle.session_cookie.specs.Cookie.{AreHolders};
ghost use Rattle.session_way.specs.Way.{StepsOutside, passes_for};
ghost use Rattle.session_way.specs.Writing.{WritingState};
ghost use Rattle.session_way.specs.declared.session_write.WriteOrder.{WriteOrder};
ghost use Rattle.session_way.specs.declared.way.SessionWay.{SessionWay};
ghost use Rattle.session_way.specs.declared.way.SessionWay.TheVariants as way_is;
ghost use Rattle.ssm_frames.specs.declared.frame.Frame.{Frame};
ghost use Rattle.ssm_stub.specs.Ears.{heard};
ghost use Rattle.ssm_stub.specs.Ends.{bricks_of};
ghost use Rattle.ssm_stub.specs.Hearing.{IsStray};
ghost use Rattle.ssm_stub.specs.Reads.{ReadState, get_lawful, hear_read, loss_by, read_start, turn_of_read};
ghost use Rattle.ssm_stub.specs.Turns.{turn_after_asks};
ghost use Rattle.ssm_stub.specs.Writes.{WriteState, cause_by, hear_write, put_lawful};
ghost use Rattle.ssm_stub.specs.declared.ask.Turn.{Turn as BrickTurn};
ghost use Rattle.ssm_stub.specs.declared.ear.Stage.{Stage};
ghost use Rattle.ssm_stub.specs.declared.ear.Stage.TheVariants.{Asked};
ghost use Rattle.ssm_stub.specs.declared.ear.TheConstants.{MAX_STRAYS};
ghost use Rattle.ssm_stub.specs.declared.event.Told.{Told};
ghost use Rattle.ssm_stub.specs.declared.event.Told.TheVariants.{Sent, Came};
ghost use Rattle.ssm_stub.specs.declared.reply.ReadReply.{ReadReply};
ghost use Rattle.ssm_stub.specs.declared.reply.ReadReply.TheVariants.{Found};
ghost use Rattle.ssm_stub.specs.declared.reply.WriteReply.{WriteReply};
ghost use Rattle.ssm_stub.specs.declared.reply.WriteReply.TheVariants.{Stored};
ghost use Rattle.request_visit.specs.Advancing.{Advances, IsItemOf, after_leaving};
ghost use Rattle.request_visit.specs.Stepping.{IsGivenBack, OnServing, VisitsInside, VisitsWindows};
ghost use Rattle.request_visit.specs.Visits.{begun, turn};
ghost use Rattle.request_visit.specs.declared.facts.VisitFacts.{VisitFacts};
ghost use Rattle.request_visit.specs.declared.visit.Fate.{Fate};
ghost use Rattle.request_visit.specs.declared.visit.Turn.TheVariants as turns;
ghost use Rattle.request_visit.specs.declared.visit.Visit.{Visit};
ghost use Rattle.request_visit.specs.declared.visit.Work.TheVariants.{Reading, Opening, Serving, Left};
ghost use Rattle.unhindered_requests.specs.Bricks.{BricksServe, HoldersServe, bricks_in};
ghost use Rattle.unhindered_requests.specs.StepsLeft.{steps_left};
ghost use Rattle.unhindered_requests.specs.Tries.{IsFree, NoFault, Works};
ghost use Rattle.unhindered_requests.specs.Unhindered.{IsPage, IsUnhindered, Serve};

use boot_core::commits_are_refused_in_order;
use call_attempts::{attempts_come_to_their_end, reboots_and_faults_alone_stop};
use call_ticket::Program;
use component_pool::active_plans_are_found;
use outside::{Link, Random, Serials};
use request_decisions::decisions_are_one;
use session_way::ways_have_answers;

/// A request that is ordered is admitted, unless no serial number is left for it: the number that was looked at is
/// 2^62 or more.
pub fn ordered_requests_are_admitted<R: Random, S: Serials>()
    ensures { (key : List ℕ) (home : HomeBoot) (head : Head) (random random_after : R) (serials serials_after : S)
        (i : Intake) (o : Order) → TakesIn R.gives S.looks key home head random serials i random_after serials_after
        → IsDecided key home.boot head (decided.Ordered o)
        → ((request : Option RequestNo) (seen : ℕ) → i.arrival ≡ SerialsSpent request seen → seen < SERIALS_END)
        → (a : Admission) × (i.arrival ≡ Admitted a) }
{
    decisions_are_one();
}

/// A request that nothing hinders ends as a page. Let some bricks serve (`serves`), whatever others do between two of
/// its steps. It begins unhindered where it has no session; and where its moment is not past the expiry of its cookie,
/// and a brick of the cookie serves. It stays so
///
/// - at a call of the link, where it gives no brick that serves a cause against it (`Serve`, by `serve` and
///   `serve_else`);
/// - at a step in the container, where that is free (`IsFree`, by `free`: no reboot, failing component, conflict or
///   full journal stands in its way) and the keeper did not fail, so that its count of faults did not rise;
/// - where passes are taken, if of the bricks that they are for as many serve as are to store a value: so as many
///   windows are open;
/// - and at each other step. Its item is then a page.
pub fn unhindered_requests_end_as_pages<P: Program, L: Link>()
    ensures unread { (serves : BrickNo → Bool) (facts : VisitFacts) (counts : LinkCounts) (way : SessionWay)
        (v : Visit P) → v ≡ begun facts counts way Opening → IsUnhindered serves v }
    ensures read { (serves : BrickNo → Bool) (facts : VisitFacts) (counts : LinkCounts) (nonce : Version)
        (cookie : Cookie) (v : Visit P)
        → v ≡ begun facts counts (way_is.Reading (read_start facts.now nonce cookie)) Reading
        → facts.now.0 ≤ cookie.expiry.0 → 1 ≤ count_by serves (bricks_in cookie.bricks) → IsUnhindered serves v }
    ensures outside { (serves : BrickNo → Bool) (v : Visit P) (way : SessionWay) (counts : LinkCounts) (link after : L)
        → StepsOutside L.makes v.way link way after → Serve serves way
        → IsUnhindered serves v → IsUnhindered serves (record v { way = way; counts = counts }) }
    ensures serve { (serves : BrickNo → Bool) (r : ReadState) (w : WritingState)
        → (All (λ ask. serves ask.who.brick ≡ true → loss_by ask.ear ≡ None) r.asks → Serve serves (way_is.Reading r))
        × (All (λ ask. serves ask.who ≡ true → cause_by ask.ear ≡ None) w.write.asks
        → Serve serves (way_is.Writing w)) }
    ensures serve_else { (serves : BrickNo → Bool) (order : WriteOrder) (w : WritingState) (passes : List Pass)
        → Serve serves way_is.Resting × Serve serves (way_is.Ordered order) × Serve serves (way_is.Settling w)
        × Serve serves (way_is.Holding passes) }
    ensures opens { (serves : BrickNo → Bool) (v : Visit P) (tries : TriesValue) (program : P)
        → IsUnhindered serves (record v { work = Serving tries program }) }
    ensures inside { (serves : BrickNo → Bool) (old new : Visit P) (container after : ContainerValue)
        → VisitsInside P.asks old container new after
        → OnServing old.work (λ tries program. IfSome tries.attempt (λ a. IsFree (P.asks program) container tries a))
        → (Rose container.faults after.faults → ⊥) → IsUnhindered serves new }
    ensures free { (asks : List Answer → Next) (c : ContainerValue) (tries : TriesValue) (a : AttemptValue)
        → ((shown : Stale) → stale_in c.boot.entries a.ticket.call.touched ≡ Some shown
        → (length tries.tries + 1 < 3) × (a.repeats ≡ true))
        → ((shown : Conflict) → conflict_of c.boot.entries a.ticket.call ≡ Some shown → length tries.tries + 1 < 3)
        → ((x : ComponentNo) (method : ℕ) → wanted asks a ≡ next.Enter x method
        → down_of c.boot.entries (group_of c.boot.start.deployment x.0) ≡ None)
        → ((x : ComponentNo) (method : ℕ) → wanted asks a ≡ next.Enter x method → Works c.boot x)
        → ((done : DoneText) → wanted asks a ≡ next.Done done
        → HasRoomFor c.boot.start.limits c.boot.entries a.ticket.call (action_of tries done))
        → IsFree asks c tries a }
    ensures windows { (serves : BrickNo → Bool) (old new : Visit P) (windows after : WindowsValue)
        → VisitsWindows old windows new after → ((order : WriteOrder) → old.way ≡ way_is.Ordered order
        → windows.wq ≤ count_by serves (bricks_of (passes_for order windows)))
        → IsUnhindered serves old → IsUnhindered serves new }
    ensures advance { (serves : BrickNo → Bool) (key : List ℕ) (old new : Visit P) → turn old ≡ turns.Own
        → Advances key old old.work new → IsUnhindered serves old → IsUnhindered serves new }
    ensures leave { (serves : BrickNo → Bool) (v : Visit P) → turn v ≡ turns.Output
        → IsUnhindered serves v → IsUnhindered serves (after_leaving v) }
    ensures back { (serves : BrickNo → Bool) (old new : Visit P) (fate : Fate) → IsGivenBack old new
        → old.work ≡ Left fate → IsUnhindered serves old → IsUnhindered serves new }
    ensures item { (serves : BrickNo → Bool) (v : Visit P) (i : Item) → IsItemOf v v.work i
        → IsUnhindered serves v → IsPage i.outcome }
{
    commits_are_refused_in_order();
    reboots_and_faults_alone_stop();
    ways_have_answers();
}

/// A component works, however often it was entered, where each of its plans was cured by a reboot of its group, or is
/// one that leaks. So each component of a boot without plans works.
pub fn components_fail_by_plans_alone()
    ensures spared { (boot : BootValue) (x : ComponentNo) → NoFault boot x → Works boot x }
    ensures unplanned { (boot : BootValue) (x : ComponentNo) → boot.start.plans ≡ [] → Works boot x }
{
    active_plans_are_found();
}

/// A request comes to its end, whether anything hinders it or not: each of its steps leaves fewer (`steps_left`), and
/// where it began there are at most 2,476, or 1,435 without a session. So no more than so many can be made.
pub fn requests_come_to_their_end<P: Program, L: Link>()
    ensures unread { (facts : VisitFacts) (counts : LinkCounts) (v : Visit P)
        → v ≡ begun facts counts way_is.Resting Opening → steps_left v ≤ 1435 }
    ensures read { (facts : VisitFacts) (counts : LinkCounts) (nonce : Version) (cookie : Cookie) (v : Visit P)
        → v ≡ begun facts counts (way_is.Reading (read_start facts.now nonce cookie)) Reading
        → AreHolders cookie.bricks → steps_left v ≤ 2476 }
    ensures outside { (v : Visit P) (way : SessionWay) (counts : LinkCounts) (link after : L)
        → StepsOutside L.makes v.way link way after
        → steps_left (record v { way = way; counts = counts }) < steps_left v }
    ensures opens { (v : Visit P) (tries : TriesValue) (program : P) → v.work ≡ Opening
        → steps_left (record v { work = Serving tries program }) < steps_left v }
    ensures inside { (old new : Visit P) (container after : ContainerValue)
        → VisitsInside P.asks old container new after
        → OnServing old.work (λ tries program. P.accepts program container.boot.start.deployment
        × IsServing container.boot (P.asks program) tries) → steps_left new < steps_left old }
    ensures windows { (old new : Visit P) (windows after : WindowsValue) → windows.w ≤ MAX_BRICKS
        → VisitsWindows old windows new after → steps_left new < steps_left old }
    ensures advance { (key : List ℕ) (old new : Visit P) → turn old ≡ turns.Own → Advances key old old.work new
        → steps_left new < steps_left old }
    ensures leave { (v : Visit P) → turn v ≡ turns.Output → steps_left (after_leaving v) < steps_left v }
{
    attempts_come_to_their_end();
}

/// What a call of the link gives is a cause against the brick that was called only where it was silent, where the 64th
/// stray came, or where its lawful reply was none that serves. So a brick serves to whose asks comes, each time, that
/// they were sent, and then fewer than 64 strays and a lawful Found, or Stored. A call changes nothing for any other
/// brick.
pub fn bricks_serve_by_their_replies()
    ensures read { (serves : BrickNo → Bool) (r : ReadState) (told : Told) → HoldersServe serves r.asks
        → ((called : BrickTurn Holder) → turn_of_read r ≡ Some called → serves called.who.brick ≡ true
        → loss_by (heard (get_lawful r.nonce r.key r.version r.expiry called.who) called.stage told) ≡ None)
        → HoldersServe serves (hear_read r told).asks }
    ensures write { (serves : BrickNo → Bool) (w : WriteState) (told : Told) → BricksServe serves w.asks
        → ((called : BrickTurn BrickNo) → turn_after_asks w.asks ≡ Some called → serves called.who ≡ true
        → cause_by (heard (put_lawful w.nonce w.key called.who) called.stage told) ≡ None)
        → BricksServe serves (hear_write w told).asks }
    ensures found { (lawful : Frame → Option ReadReply) (stage : Stage) (frame : Frame) (value : List ℕ)
        → lawful frame ≡ Some (Found value) → loss_by (heard lawful stage (Came (Some frame))) ≡ None }
    ensures stored { (lawful : Frame → Option WriteReply) (stage : Stage) (frame : Frame) (incarnation : ℕ)
        → lawful frame ≡ Some (Stored incarnation) → cause_by (heard lawful stage (Came (Some frame))) ≡ None }
    ensures read_strays { (lawful : Frame → Option ReadReply) (strays : ℕ) (frame : Option Frame)
        → IsStray lawful frame → strays + 1 < MAX_STRAYS
        → loss_by (heard lawful (Asked strays) (Came frame)) ≡ None }
    ensures write_strays { (lawful : Frame → Option WriteReply) (strays : ℕ) (frame : Option Frame)
        → IsStray lawful frame → strays + 1 < MAX_STRAYS
        → cause_by (heard lawful (Asked strays) (Came frame)) ≡ None }
    ensures read_sent { (lawful : Frame → Option ReadReply) (stage : Stage) → loss_by (heard lawful stage Sent) ≡ None }
    ensures write_sent { (lawful : Frame → Option WriteReply) (stage : Stage)
        → cause_by (heard lawful stage Sent) ≡ None }
{}
