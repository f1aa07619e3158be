//! The law of how requests are served as they came. It is the contract of a function that does nothing: a caller that
//! needs the law calls the function.

ghost use Rattle.std.specs.Prelude.{◌≡◌, ℕ, List, None, Some};
ghost use Rattle.auction_calls.specs.declared.action.ActionCall.{ActionCall};
ghost use Rattle.crash_base.specs.declared.numbers.WorkerNo.{WorkerNo};
ghost use Rattle.http_wire.specs.declared.taken.Head.{Head};
ghost use Rattle.outside.specs.declared.link.LinkCounts.{LinkCounts};
ghost use Rattle.request_decisions.specs.Calls.{user_of};
ghost use Rattle.request_intake.specs.declared.intake.Admission.{Admission};
ghost use Rattle.request_intake.specs.declared.intake.Arrival.TheVariants.{Admitted};
ghost use Rattle.request_intake.specs.declared.intake.HomeBoot.{HomeBoot};
ghost use Rattle.request_tries.specs.Serving.{unbegun};
ghost use Rattle.request_visit.specs.declared.visit.Visit.{Visit};
ghost use Rattle.request_visit.specs.declared.visit.Work.TheVariants.{Serving as ServingBy};
ghost use Rattle.session_way.specs.declared.lease.SessionLease.{SessionLease};
ghost use Rattle.shepherd.specs.declared.shepherd.AskedCall.{AskedCall};
ghost use Rattle.shepherd.specs.declared.shepherd.Shepherd.{Shepherd};
ghost use Rattle.shepherd.specs.Serving.{IsServedWith};
ghost use Rattle.shepherd.specs.Steps.{Begins, OnVisit, OpensBy};

use crate::opening::ProgramMaker;
use outside::{Clock, Random, Serials};

/// A request is served as it came. One that is admitted begins with its own number, moment, key and nonces, and its
/// session is read before its program is made. Its program is that of its own call, as the user of the session that was
/// read asks for it, and as nobody where none was; and its tries bear its number.
pub fn requests_are_served_as_they_came<P, C: Clock, R: Random, S: Serials, M: ProgramMaker<P>>()
    ensures begins { (key : List ℕ) (home : HomeBoot) (counts : LinkCounts) (head : Head) (s new : Shepherd P)
        (clock clock_after : C) (random random_after : R) (serials serials_after : S)
        (h : Begins C.told R.gives S.looks key home counts head s clock random serials
        new clock_after random_after serials_after) (a : Admission) → h.intake.arrival ≡ Admitted a
        → OnVisit new.stage (λ v call. IsServedWith a h.intake.now v call) }
    ensures opens { (maker : M) (worker : WorkerNo) (v after : Visit P) (asked : AskedCall)
        → OpensBy M.makes maker worker v asked after → (call : ActionCall) × (text : List ℕ) × (program : P)
        × M.makes maker call text program
        × (after.work ≡ ServingBy (unbegun asked.request worker text) program)
        × (call ≡ record asked.call { user = call.user })
        × (v.lease ≡ None → call.user ≡ 0)
        × ((l : SessionLease) → v.lease ≡ Some l → call.user ≡ user_of (Some l.value)) }
{}
