//! How far a request has come, after what it was told.

ghost use Rattle.std.specs.Prelude.{◌≡◌};
ghost use Rattle.request_visit.specs.Visits.{fate_missed, fate_written, overloaded, with_fate};

use crate::visit::{Fate, Work};
use outcome_items::ItemOutcome;
use request_tries::RequestOutcome;
use send_windows::WindowList;
use ssm_stub::CauseList;

impl Fate {
    /// What became of a request whose session was written.
    fn written(self) -> Fate
        ensures { result ≡ fate_written self }
    {
        match self {
            Fate::Known(outcome) => Fate::Known(outcome),
            Fate::Writing { place, again } => {
                Fate::Known(ItemOutcome::Ended(RequestOutcome::Page { place, again }))
            }
        }
    }

    /// What became of a request whose session was not written, for these causes.
    fn missed(self, causes: CauseList) -> Fate
        ensures { result ≡ fate_missed causes self }
    {
        match self {
            Fate::Known(outcome) => Fate::Known(outcome),
            Fate::Writing { place, again } => Fate::Known(ItemOutcome::Missed {
                place,
                again,
                causes,
            }),
        }
    }
}

impl<P: Drop> Work<P> {
    /// The work once it is told that its session was written.
    pub(crate) fn written(self) -> Work<P>
        ensures { result ≡ with_fate fate_written self }
    {
        match self {
            Work::Reading => Work::Reading,
            Work::Opening => Work::Opening,
            Work::Serving(tries, program) => Work::Serving(tries, program),
            Work::Committed {
                place,
                again,
                shown,
            } => Work::Committed {
                place,
                again,
                shown,
            },
            Work::Decided(outcome) => Work::Decided(outcome),
            Work::Answered(fate, bytes) => Work::Answered(fate.written(), bytes),
            Work::Left(fate) => Work::Left(fate.written()),
        }
    }

    /// The work once it is told that its session was not written, for these causes.
    pub(crate) fn missed(self, causes: CauseList) -> Work<P>
        ensures { result ≡ with_fate (fate_missed causes) self }
    {
        match self {
            Work::Reading => Work::Reading,
            Work::Opening => Work::Opening,
            Work::Serving(tries, program) => Work::Serving(tries, program),
            Work::Committed {
                place,
                again,
                shown,
            } => Work::Committed {
                place,
                again,
                shown,
            },
            Work::Decided(outcome) => Work::Decided(outcome),
            Work::Answered(fate, bytes) => Work::Answered(fate.missed(causes), bytes),
            Work::Left(fate) => Work::Left(fate.missed(causes)),
        }
    }

    /// The work once it is told that its session cannot be written, since these windows are full.
    pub(crate) fn overloaded(self, full: WindowList) -> Work<P>
        ensures { result ≡ overloaded full self }
    {
        match self {
            Work::Reading => Work::Reading,
            Work::Opening => Work::Opening,
            Work::Serving(tries, program) => Work::Serving(tries, program),
            Work::Committed {
                place,
                again,
                shown: _,
            } => Work::Decided(ItemOutcome::Overload { place, again, full }),
            Work::Decided(outcome) => Work::Decided(outcome),
            Work::Answered(fate, bytes) => Work::Answered(fate, bytes),
            Work::Left(fate) => Work::Left(fate),
        }
    }
}
