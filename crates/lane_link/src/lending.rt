//! The windows of the lanes, lent to a way.

ghost use Rattle.std.specs.Prelude.{◌≡◌, IfOk, IfErr, OnOk};
ghost use Rattle.std.specs.Option.{option_map};
ghost use Rattle.session_way.specs.Way.{IsRefused, StepsWindows, after_give_back, answer_held, held, wants};
ghost use Rattle.session_way.specs.Writing.{answer_of_write};
ghost use Rattle.lane_link.specs.Links.{on_windows};

use crate::link::LaneLink;
use send_windows::TakeRefusal;
use session_way::{SessionWay, Wants, WriteOutcome};
use std::alloc::Global;

impl LaneLink {
    /// Makes the call of the windows that a way wants: of those of the lanes. Nothing else of the link changes.
    ///
    /// # Errors
    /// As of `SessionWay::step_windows`.
    pub fn step_windows(
        self,
        alloc: Global,
        way: &mut SessionWay,
    ) -> (LaneLink, Result<Option<WriteOutcome>, TakeRefusal>)
        requires { wants way.old ≡ Wants.Windows }
        ensures step { OnOk result.1 (StepsWindows way.old self.lanes.windows way.new result.0.lanes.windows) }
        ensures answer { IfOk result.1 (λ outcome. option_map answer_of_write outcome ≡ answer_held way.old) }
        ensures refused { IfErr result.1 (IsRefused way.old self.lanes.windows way.new result.0.lanes.windows) }
        ensures rest { result.0 ≡ on_windows self result.0.lanes.windows }
    {
        let LaneLink { lanes, active } = self;
        let (lent, mut windows) = lanes.lend_windows();
        let answer = way.step_windows(alloc, &mut windows);
        let lanes = lent.with_windows(windows);
        (LaneLink { lanes, active }, answer)
    }

    /// Gives back the passes that a way holds, if it holds some, to the windows of the lanes. Nothing else of the link
    /// changes. It takes no memory.
    #[tactic(auto, using(crate::proofs::Beginning::fit_back))]
    pub fn give_back(self, way: &mut SessionWay) -> (LaneLink, Option<WriteOutcome>)
        ensures link { result.0 ≡ on_windows self (after_give_back self.lanes.windows (held way.old)) }
        ensures answer { option_map answer_of_write result.1 ≡ answer_held way.old }
        ensures rests { way.new ≡ SessionWay.Resting }
    {
        let LaneLink { lanes, active } = self;
        let (lent, mut windows) = lanes.lend_windows();
        let outcome = way.give_back(&mut windows);
        let lanes = lent.with_windows(windows);
        (LaneLink { lanes, active }, outcome)
    }
}
