//! Laws of requests that are taken in. Each is the contract of a function that does nothing: a caller that needs the
//! law calls the function.

ghost use Rattle.std.specs.Prelude.{◌≡◌, ℕ, List, [], map, Option, Some};
ghost use Rattle.crash_base.specs.declared.numbers.RequestNo.{RequestNo};
ghost use Rattle.http_wire.specs.declared.taken.Head.{Head};
ghost use Rattle.outside.specs.Serials.{AllDiffer, Draws as DrawsSerials};
ghost use Rattle.request_decisions.specs.Decisions.{IsDecided};
ghost use Rattle.request_decisions.specs.Drawing.{HasDrawn};
ghost use Rattle.request_decisions.specs.declared.decision.Decision.TheVariants as decided;
ghost use Rattle.request_decisions.specs.declared.decision.Order.{Order};
ghost use Rattle.request_decisions.specs.declared.decision.Refusal.{Refusal};
ghost use Rattle.request_decisions.specs.declared.draws.Draw.{Draw};
ghost use Rattle.request_intake.specs.Intakes.{IsAdmittedBy, IsCutShortBy, TakesIn, serials_in};
ghost use Rattle.request_intake.specs.declared.intake.Admission.{Admission};
ghost use Rattle.request_intake.specs.declared.intake.Arrival.TheVariants.{Refused, SerialsSpent, Admitted};
ghost use Rattle.request_intake.specs.declared.intake.HomeBoot.{HomeBoot};
ghost use Rattle.request_intake.specs.declared.intake.Intake.{Intake};

use outside::{Random, Serials, serials_differ};
use request_decisions::{decisions_are_one, each_draw_has_its_cause};

/// A request that is refused draws nothing, and is told its refusal; and no other request is told one.
pub fn refused_requests_draw_nothing<R: Random, S: Serials>(_random: &R, _serials: &S)
    ensures nothing { (key : List ℕ) (home : HomeBoot) (head : Head) (random random_after : R) (serials serials_after : S)
        (i : Intake) (why : Refusal) → TakesIn R.gives S.looks key home head random serials i random_after serials_after
        → IsDecided key home.boot head (decided.Refused why)
        → (i.arrival ≡ Refused why) × (i.drawn ≡ []) × (random_after ≡ random) × (serials_after ≡ serials) }
    ensures told { (key : List ℕ) (home : HomeBoot) (head : Head) (random random_after : R) (serials serials_after : S)
        (i : Intake) (why : Refusal) → TakesIn R.gives S.looks key home head random serials i random_after serials_after
        → i.arrival ≡ Refused why → IsDecided key home.boot head (decided.Refused why) }
{
    decisions_are_one();
}

/// A request that is admitted is one that is ordered, and all that its order wants was drawn for it: of a GET its
/// number, which is of this boot; a POST has that of its token. Its call is that of its order, at its moment, and its
/// nonces are of this node and boot. Where a serial number is spent, the request was ordered too, and what was drawn by
/// then is a front of that; its number is told where its token has one or it was drawn.
pub fn ordered_requests_bear_what_was_drawn<R: Random, S: Serials>(_random: &R, _serials: &S)
    ensures admitted { (key : List ℕ) (home : HomeBoot) (head : Head) (random random_after : R)
        (serials serials_after : S) (i : Intake) (a : Admission)
        → TakesIn R.gives S.looks key home head random serials i random_after serials_after → i.arrival ≡ Admitted a
        → (o : Order) × IsDecided key home.boot head (decided.Ordered o) × IsAdmittedBy key home o i a }
    ensures short { (key : List ℕ) (home : HomeBoot) (head : Head) (random random_after : R)
        (serials serials_after : S) (i : Intake) (request : Option RequestNo) (seen : ℕ)
        → TakesIn R.gives S.looks key home head random serials i random_after serials_after
        → i.arrival ≡ SerialsSpent request seen
        → (o : Order) × IsDecided key home.boot head (decided.Ordered o) × IsCutShortBy home o i request seen }
{
    each_draw_has_its_cause();
}

/// The serial numbers that were drawn for a request are draws of the serial numbers, one after the other, with no other
/// between. So they differ, by `outside::serials_differ`.
pub fn drawn_serials_are_draws<R: Random, S: Serials>(_random: &R, serials: &S)
    ensures draws { (random random_after : R) (before after : S) (drawn : List Draw)
        → HasDrawn S.looks R.gives before random drawn after random_after
        → DrawsSerials S.looks before (map Some (serials_in drawn)) after }
    ensures differ { (random random_after : R) (before after : S) (drawn : List Draw)
        → HasDrawn S.looks R.gives before random drawn after random_after → AllDiffer (serials_in drawn) }
{
    serials_differ(serials);
}
