//! What holds of lanes whatever is done with them. Each law is the contract of a function that does nothing: a caller
//! that needs the law calls the function.

ghost use Rattle.std.specs.Prelude.{◌≡◌, ◌≤◌, ◌*◌, ℕ, List, [], ◌∷◌, true, false, slice_get, None, Some};
ghost use Rattle.std.specs.List.{list_any};
ghost use Rattle.crash_base.specs.declared.numbers.BrickNo.{BrickNo};
ghost use Rattle.crash_base.specs.declared.numbers.Version.{Version};
ghost use Rattle.outside.specs.Faults.{Rose};
ghost use Rattle.ssm_stub.specs.declared.event.StubNext.TheVariants as next;
ghost use Rattle.ssm_world.specs.declared.call.Call.{Call};
ghost use Rattle.ssm_world.specs.Worlds.{is_new};
ghost use Rattle.session_lanes.specs.declared.lanes.TheConstants.{TURNS_PER_BRICK};
ghost use Rattle.session_lanes.specs.Counts.{CountsFit, CountsGrow, SilenceRose};
ghost use Rattle.session_lanes.specs.Ends.{HasEnded, bricks_asked};
ghost use Rattle.session_lanes.specs.Lane.{LaneState, lane_at};
ghost use Rattle.session_lanes.specs.Lanes.{LanesState, new_lanes, turn_to, gone_on};
ghost use Rattle.session_lanes.specs.Sound.{LanesAreSound};
ghost use Rattle.session_lanes.specs.Steps.{LanesStep, after_step, after_steps, begins_with, turns_of};

/// Whatever is done with new lanes, they stay sound: events made their world, and each packet that a lane names is a
/// reply of its brick.
pub fn lanes_stay_sound()
    ensures new { (bricks most least : ℕ) → LanesAreSound (new_lanes bricks most least) }
    ensures step { (st : LanesState) (step : LanesStep) → LanesAreSound st → LanesAreSound (after_step st step) }
    ensures all { (st : LanesState) (steps : List LanesStep) → LanesAreSound st → LanesAreSound (after_steps st steps) }
{}

/// A call ends within 66 turns for each brick that it asks, whatever is done with the lanes between them: it wants
/// nothing more then, and has its answer. So it has ended where it has gone on.
pub fn calls_end()
    ensures gone { (st : LanesState) (number : ℕ) (call : Call)
        → LanesAreSound st → slice_get st.world.calls number ≡ Some call → HasEnded (gone_on st number) number }
    ensures between { (st : LanesState) (steps : List LanesStep) (number : ℕ) (call : Call)
        → LanesAreSound st → slice_get st.world.calls number ≡ Some call
        → TURNS_PER_BRICK * bricks_asked call ≤ turns_of number steps → HasEnded (after_steps st steps) number }
{}

/// A nonce that no call has stays new until a write or a read begins with it, whatever else is done with the lanes: so
/// each nonce that was drawn is new until its call begins.
pub fn nonces_stay_new()
    ensures { (st : LanesState) (steps : List LanesStep) (nonce : Version)
        → is_new st.world nonce ≡ true → list_any (begins_with nonce) steps ≡ false
        → is_new (after_steps st steps).world nonce ≡ true }
{
    ssm_world::nonces_stay_new();
}

/// The silences of each brick, those of all, and the frames that calls heard are counts below 2^64 that never fall. A
/// turn that sends or listens to a number without a brick, or listens where no reply waits, raises the silences of that
/// number and those of all, and a turn that hears a reply raises the frames. It refuses counts that stay.
pub fn counts_never_fall()
    ensures new { (bricks most least : ℕ) → CountsFit (new_lanes bricks most least).counts }
    ensures fit { (st : LanesState) (step : LanesStep) → CountsFit st.counts → CountsFit (after_step st step).counts }
    ensures grow { (st : LanesState) (step : LanesStep) → CountsFit st.counts → CountsGrow st.counts (after_step st step).counts }
    ensures unsent { (st : LanesState) (call : ℕ) (brick : BrickNo) → CountsFit st.counts → lane_at st.lanes brick.0 ≡ None
        → SilenceRose brick.0 st.counts (turn_to st call (next.Send brick)).counts }
    ensures unheard { (st : LanesState) (call : ℕ) (brick : BrickNo) → CountsFit st.counts → lane_at st.lanes brick.0 ≡ None
        → SilenceRose brick.0 st.counts (turn_to st call (next.Receive brick)).counts }
    ensures empty { (st : LanesState) (call : ℕ) (brick : BrickNo) (lane : LaneState)
        → CountsFit st.counts → lane_at st.lanes brick.0 ≡ Some lane → lane.queue ≡ []
        → SilenceRose brick.0 st.counts (turn_to st call (next.Receive brick)).counts }
    ensures got { (st : LanesState) (call : ℕ) (brick : BrickNo) (lane : LaneState) (packet : ℕ) (rest : List ℕ)
        → CountsFit st.counts → lane_at st.lanes brick.0 ≡ Some lane → lane.queue ≡ packet ∷ rest
        → Rose st.counts.got (turn_to st call (next.Receive brick)).counts.got }
{}
