//! The law that joins an item to the call of its request and to what the site means by it. It is the contract of a
//! function that does nothing: a caller that needs the law calls the function.

ghost use Rattle.std.specs.Prelude.{◌≡◌, false, true, List, Some};
ghost use Rattle.auction_calls.specs.Texts.{Spells};
ghost use Rattle.auction_rows.specs.Parts.{site_parts};
ghost use Rattle.auction_site.specs.Actions.{steps_of};
ghost use Rattle.boot_core.specs.declared.boot.Start.{Start};
ghost use Rattle.container_core.specs.History.{entries_in};
ghost use Rattle.container_core.specs.declared.history.Event.{Event};
ghost use Rattle.crash_base.specs.declared.numbers.Place.{Place};
ghost use Rattle.outcome_items.specs.declared.item.Item.{Item};
ghost use Rattle.request_decisions.specs.Calls.{call_by};
ghost use Rattle.request_intake.specs.declared.intake.Admission.{Admission};
ghost use Rattle.request_intake.specs.declared.intake.Arrival.TheVariants.{Admitted};
ghost use Rattle.request_tries.specs.Ends.{Errand};
ghost use Rattle.request_tries.specs.declared.outcome.RequestOutcome.TheVariants.{Page};
ghost use Rattle.served_items.specs.Attributing.{Service, TakenIn};
ghost use Rattle.served_items.specs.Served.{IsServedFor};
ghost use Rattle.site_programs.specs.Pages.{IsMeantThere, end_in};

use crate::laws::pages_are_what_the_site_means;
use crate::maker::SiteMaker;
use auction_actions::ActionProgram;
use outside::{Link, Random, Serials};
use shepherd::ProgramMaker;

/// A page of its own is what the site means by its own request's call. Where an item of a connection of the site says
/// that its request was committed, and not by an earlier call of it, the request was admitted, and the entry at the
/// page's place bears its number, has the text of its call, and wrote and answers what the site means by that call over
/// the rows just before the entry. The call is that of the request's head, made by the user of the session that was
/// read.
pub fn items_are_what_the_site_means<L: Link, R: Random, S: Serials>()
    ensures { (service : Service SiteMaker) (start : Start) (history : List Event) (t : TakenIn) (i : Item)
        (place : Place) → start.deployment ≡ site_parts
        → IsServedFor steps_of L.makes ⟦<SiteMaker as ProgramMaker<ActionProgram>>⟧.makes R.gives S.looks
        service start history t i
        → end_in i.outcome ≡ Some (Page place false)
        → (a : Admission) × (t.intake.arrival ≡ Admitted a)
        × (errand : Errand) × (errand.request ≡ a.request) × Spells errand.text (call_by a.call i.value)
        × IsMeantThere start.base (entries_in history) place errand (call_by a.call i.value) }
{
    pages_are_what_the_site_means();
}
