//! Laws of the site's programs and of the pages that they come to. Each is the contract of a function that does
//! nothing: a caller that needs the law calls the function.

ghost use Rattle.std.specs.Prelude.{◌≡◌, false, true, List, ℕ, Option, Some, slice_get, take};
ghost use Rattle.action_plans.specs.declared.plan.Outcome.{Outcome};
ghost use Rattle.auction_calls.specs.Texts.{Spells};
ghost use Rattle.auction_calls.specs.declared.action.ActionCall.{ActionCall};
ghost use Rattle.auction_rows.specs.Parts.{site_parts};
ghost use Rattle.auction_site.specs.Actions.{site, steps_of};
ghost use Rattle.auction_site.specs.Meant.{AreMeant, IsMeant};
ghost use Rattle.boot_core.specs.declared.boot.Start.{Start};
ghost use Rattle.container_core.specs.Container.{ContainerValue, events_of};
ghost use Rattle.container_core.specs.History.{entries_in};
ghost use Rattle.container_core.specs.declared.history.Event.{Event};
ghost use Rattle.crash_base.specs.declared.numbers.Place.{Place};
ghost use Rattle.journal_model.specs.Snapshots.{snapshot};
ghost use Rattle.journal_model.specs.declared.entry.CommitEntry.{CommitEntry};
ghost use Rattle.journal_model.specs.declared.entry.Entry.TheVariants.{Commit};
ghost use Rattle.journal_model.specs.declared.limits.FullAt.{FullAt};
ghost use Rattle.outcome_items.specs.declared.item.Holds.{Holds};
ghost use Rattle.outcome_items.specs.declared.outcome.ItemOutcome.{ItemOutcome};
ghost use Rattle.request_tries.specs.Ends.{EndStands, Errand, done_of};
ghost use Rattle.request_tries.specs.Serving.{TriesValue, errand_of};
ghost use Rattle.request_tries.specs.Steps.{Brings};
ghost use Rattle.request_tries.specs.declared.outcome.Ended.{Ended};
ghost use Rattle.request_tries.specs.declared.outcome.RequestOutcome.{RequestOutcome};
ghost use Rattle.request_tries.specs.declared.outcome.RequestOutcome.TheVariants.{JournalFull, Page};
ghost use Rattle.request_visit.specs.Accounts.{Became, EndsWith};
ghost use Rattle.request_visit.specs.Stepping.{OnServing, VisitsInside};
ghost use Rattle.request_visit.specs.declared.facts.VisitFacts.{VisitFacts};
ghost use Rattle.request_visit.specs.declared.visit.Visit.{Visit};
ghost use Rattle.site_programs.specs.Errands.{AsksSite};
ghost use Rattle.site_programs.specs.Pages.{HasNoRoomFor, HasOutcome, IsMeantThere, ShowsEntry, end_in};

use crate::maker::SiteMaker;
use auction_actions::ActionProgram;
use auction_calls::texts_spell_one_call;
use auction_site::calls_run_as_the_site;
use call_ticket::Program;
use shepherd::ProgramMaker;

/// What the maker makes of a call is a program that a deployment with the site's parts accepts. A request that is
/// served by it, with the text that was made, in a container that was started with these parts, asks the site for the
/// call.
pub fn site_programs_are_accepted()
    ensures accepted { (maker : SiteMaker) (call : ActionCall) (text : List ℕ) (program : ActionCall)
        → ⟦<SiteMaker as ProgramMaker<ActionProgram>>⟧.makes maker call text program
        → ⟦<ActionProgram as Program>⟧.accepts program site_parts }
    ensures asks { (maker : SiteMaker) (call : ActionCall) (program : ActionCall) (start : Start) (s : TriesValue)
        → start.deployment ≡ site_parts
        → ⟦<SiteMaker as ProgramMaker<ActionProgram>>⟧.makes maker call s.text program
        → AsksSite start (errand_of s (⟦<ActionProgram as Program>⟧.asks program)) call }
{}

/// What became of an item's request in the container is what an end says that stands in the history, also where its
/// session could not be written. So what is said here of ends that stand is said of items that stand.
pub fn items_tell_their_ends()
    ensures { (start : Start) (history own : List Event) (errand : Errand) (facts : VisitFacts) (holds : Holds)
        (became : ItemOutcome) (outcome : RequestOutcome) → Became start history errand facts holds own became
        → end_in became ≡ Some outcome → EndsWith start history errand facts holds outcome own }
{}

/// A page is what the site means by its request's call. Its entry bears the request's number, and its text spells the
/// call; it wrote, and it answers, what the site means by the call over the rows just before it, tables that it listed
/// included, whatever ran beside it; and that is shown. The text spells no other call, and the entry has no other
/// outcome. Of a page whose entry was there already, an earlier call under the number made the entry, and what that one
/// answers is shown: where the journal is meant, what the site means by the call of its own text, at its own place. An
/// entry for which a journal had no room is what the site means by the call over the rows at the begin of its try.
pub fn pages_are_what_the_site_means()
    ensures own { (start : Start) (events : List Event) (errand : Errand) (call : ActionCall) (e : Ended)
        (place : Place) → AsksSite start errand call → EndStands start events errand e → e.outcome ≡ Page place false
        → IsMeantThere start.base (entries_in events) place errand call }
    ensures shown { (start : Start) (events : List Event) (errand : Errand) (call : ActionCall) (e : Ended)
        (place : Place) → AsksSite start errand call → EndStands start events errand e → e.outcome ≡ Page place false
        → done_of events e ≡ Some (site call (snapshot start.base (entries_in events) place.0)).done }
    ensures one { (start : Start) (events : List Event) (errand : Errand) (call other : ActionCall) (e : Ended)
        (place : Place) (entry : CommitEntry) (outcome : Outcome) → AsksSite start errand call
        → EndStands start events errand e → e.outcome ≡ Page place false
        → slice_get (entries_in events) place.0 ≡ Some (Commit entry) → Spells errand.text other
        → HasOutcome errand outcome entry
        → (other ≡ call) × (outcome ≡ site call (snapshot start.base (entries_in events) place.0)) }
    ensures again { (start : Start) (events : List Event) (errand : Errand) (e : Ended) (place : Place)
        → EndStands start events errand e → e.outcome ≡ Page place true → ShowsEntry events place errand.request e }
    ensures again_meant { (start : Start) (events : List Event) (errand : Errand) (e : Ended) (place : Place)
        → AreMeant start.base (entries_in events) → EndStands start events errand e → e.outcome ≡ Page place true
        → (shows : ShowsEntry events place errand.request e)
        × IsMeant (snapshot start.base (entries_in events) place.0) shows.entry }
    ensures full { (start : Start) (events : List Event) (errand : Errand) (call : ActionCall) (e : Ended)
        (full : FullAt) → AsksSite start errand call → EndStands start events errand e → e.outcome ≡ JournalFull full
        → HasNoRoomFor start (entries_in (take e.held events)) errand e.from.0 call full }
{
    calls_run_as_the_site();
    texts_spell_one_call();
}

/// A journal stays meant by each step and each commit of a request that asks the site for a call, whatever became of
/// the request; and so it does by each step in the container of a request on its way.
pub fn journals_stay_meant_by_requests()
    ensures requests { (old new : ContainerValue) (call : ActionCall) (s after : TriesValue) (end : Option Ended)
        → AsksSite new.boot.start (errand_of s (steps_of call)) call → Brings old new (steps_of call) s after end
        → AreMeant new.boot.start.base (entries_in (events_of old))
        → AreMeant new.boot.start.base (entries_in (events_of new)) }
    ensures visits { (old new : ContainerValue) (v after : Visit ActionCall)
        → OnServing v.work (λ s call. AsksSite new.boot.start (errand_of s (steps_of call)) call)
        → VisitsInside steps_of v old after new → AreMeant new.boot.start.base (entries_in (events_of old))
        → AreMeant new.boot.start.base (entries_in (events_of new)) }
{
    calls_run_as_the_site();
}
