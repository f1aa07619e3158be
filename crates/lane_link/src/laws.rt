//! Laws of the link and of twins. Each is the contract of a function that does nothing: a caller that needs the law
//! calls the function.

ghost use Rattle.std.specs.Prelude.{◌≡◌, ◌≤◌, ℕ, List, true, length, Some, Ok, Result};
ghost use Rattle.crash_base.specs.declared.numbers.Moment.{Moment};
ghost use Rattle.crash_base.specs.declared.numbers.Version.{Version};
ghost use Rattle.send_windows.specs.declared.pass.Pass.{Pass};
ghost use Rattle.send_windows.specs.declared.windows.TakeRefusal.{TakeRefusal};
ghost use Rattle.send_windows.specs.Windows.{AreTaken, WindowsValue};
ghost use Rattle.session_cookie.specs.declared.cookie.Cookie.{Cookie};
ghost use Rattle.session_cookie.specs.declared.cookie.TheConstants.{MAX_HOLDERS};
ghost use Rattle.session_cookie.specs.Cookie.{AreHolders};
ghost use Rattle.ssm_stub.specs.declared.read_call.ReadRefusal.{ReadRefusal};
ghost use Rattle.ssm_stub.specs.Reads.{ReadState, read_answer, read_start};
ghost use Rattle.ssm_stub.specs.Writes.{WriteState, write_answer};
ghost use Rattle.ssm_world.specs.declared.call.Call.TheVariants as kind;
ghost use Rattle.ssm_world.specs.declared.event.WorldEvent.{WorldEvent};
ghost use Rattle.ssm_world.specs.Claims.{IsAcknowledged, IsRight, ReadOrder, told_since};
ghost use Rattle.ssm_world.specs.Worlds.{is_new};
ghost use Rattle.session_lanes.specs.Lanes.{HasLanes, LanesState, begun_read, begun_write, silent_once};
ghost use Rattle.session_lanes.specs.Sound.{LanesAreSound};
ghost use Rattle.session_lanes.specs.Steps.{LanesStep, after_steps};
ghost use Rattle.session_way.specs.declared.session_write.WriteOrder.{WriteOrder};
ghost use Rattle.session_way.specs.declared.way.SessionWay.{SessionWay};
ghost use Rattle.session_way.specs.declared.way.SessionWay.TheVariants.{Reading, Writing};
ghost use Rattle.session_way.specs.Way.{IsRefused, StepsOutside, StepsWindows, after_give_back, held, settled};
ghost use Rattle.session_way.specs.Writing.{write_begun};
ghost use Rattle.lane_link.specs.declared.link.LaneLink.{LaneLink};
ghost use Rattle.lane_link.specs.Links.{LaneLinkMakes};
ghost use Rattle.lane_link.specs.Twins.{ByEvents, IsTwin, NoneTurns, ReadsAfter, TurnsTwin, call_held};

use ssm_world::{acknowledged_cookies_may_be_read, reads_answer_what_was_written};

/// A read and a write that begin in a world are twins of those that a way begins with the same nonce: where the nonce
/// is new, and the cookie names 1 to 16 distinct bricks, or the passes are as many as windows give. It does not matter
/// how late they begin there, so long as nothing was sent.
pub fn twins_begin()
    ensures read { (st : LanesState) (nonce : Version) (now : Moment) (cookie : Cookie)
        → is_new st.world nonce ≡ true → AreHolders cookie.bricks
        → IsTwin (begun_read st nonce now cookie) (length st.world.calls) (Reading (read_start now nonce cookie)) }
    ensures write { (st : LanesState) (order : WriteOrder) (most : ℕ) (passes : List Pass)
        → is_new st.world order.nonce ≡ true → 1 ≤ st.windows.wq → most ≤ MAX_HOLDERS
        → AreTaken st.windows.wq most passes
        → IsTwin (begun_write st order.nonce order.key order.value order.expiry passes) (length st.world.calls)
        (Writing (write_begun order st.windows.wq passes)) }
{}

/// A step of a way over the link, while its twin is active, is one turn of the twin, which stays its twin. So events
/// made the world, and the laws of worlds hold of it. It refuses a link that tells a way what its twin is not told.
pub fn steps_are_turns_of_twins()
    ensures { (old new : LaneLink) (number : ℕ) (way after : SessionWay)
        → LanesAreSound old.lanes → old.active ≡ Some number → IsTwin old.lanes number way
        → StepsOutside LaneLinkMakes way old after new → TurnsTwin number old new after }
{}

/// A twin stays that of its way whatever else is done with the lanes: while other calls take turns, begin and are
/// settled, replies are lost and asks dropped, bricks crash and are swept, passes are taken and spent, and frames are
/// sent that nobody wants. It stays so also where its write is settled from now on.
pub fn twins_stay()
    ensures steps { (st : LanesState) (steps : List LanesStep) (number : ℕ) (way : SessionWay)
        → LanesAreSound st → IsTwin st number way → NoneTurns number steps → IsTwin (after_steps st steps) number way }
    ensures windows { (st : LanesState) (windows : WindowsValue) (number : ℕ) (way : SessionWay)
        → IsTwin st number way → IsTwin (record st { windows = windows }) number way }
    ensures silence { (st : LanesState) (brick number : ℕ) (way : SessionWay)
        → IsTwin st number way → IsTwin (silent_once st brick) number way }
    ensures settle { (st : LanesState) (number : ℕ) (way : SessionWay)
        → IsTwin st number way → IsTwin st number (settled way) }
{}

/// All that is done with lanes is events of their world, which stays sound: turns and begins of calls, what happens to
/// bricks and to replies, and, with no event, what ways do to the windows, and a silence that no call met.
pub fn lanes_go_by_events()
    ensures steps { (st : LanesState) (steps : List LanesStep) → ByEvents st (after_steps st steps) }
    ensures windows { (st : LanesState) (windows : WindowsValue)
        → LanesAreSound st → LanesAreSound (record st { windows = windows }) }
    ensures silence { (st : LanesState) (brick : ℕ) → LanesAreSound st → LanesAreSound (silent_once st brick) }
{}

/// What a way reads is right, where its twin began in sound lanes, as a read of a cookie that was acknowledged there:
/// it is the value, where the cookie has not expired; or that it has expired, where it has; or that the value is lost,
/// with a cause for each holder, which the holder or this read met: whatever else happened in the world between its
/// turns. It refuses another value.
pub fn ways_read_what_was_written()
    ensures { (earlier later : LanesState) (order : ReadOrder) (value : List ℕ) (events : List WorldEvent)
        (read : ReadState) (answer : Result (List ℕ) ReadRefusal)
        → ReadsAfter earlier order value events later
        → IsTwin later (length earlier.world.calls) (Reading read) → read_answer read ≡ Some answer
        → IsRight later.world order value (told_since earlier.world order events) answer }
{
    reads_answer_what_was_written();
    acknowledged_cookies_may_be_read();
}

/// A cookie that a way's write answers is acknowledged in the world with the value of the write's order.
pub fn written_cookies_are_acknowledged()
    ensures { (st : LanesState) (number : ℕ) (way : SessionWay) (order : WriteOrder) (least : ℕ) (passes : List Pass)
        (here : WriteState) (cookie : Cookie)
        → IsTwin st number way → call_held way ≡ Some (kind.Write here)
        → here ≡ record ((write_begun order least passes).write) { asks = here.asks }
        → write_answer here ≡ Some (Ok cookie) → IsAcknowledged st.world cookie order.value }
{}

/// Windows that were lent to a way can be put back, whatever the way did with them: passes were taken, or refused, or
/// spent, and there are as many bricks as before.
pub fn lent_windows_fit()
    ensures step { (st : LanesState) (way after : SessionWay) (windows : WindowsValue)
        → HasLanes st → StepsWindows way st.windows after windows → HasLanes (record st { windows = windows }) }
    ensures refused { (st : LanesState) (way after : SessionWay) (windows : WindowsValue) (refusal : TakeRefusal)
        → HasLanes st → IsRefused way st.windows after windows refusal → HasLanes (record st { windows = windows }) }
    ensures back { (st : LanesState) (way : SessionWay)
        → HasLanes st → HasLanes (record st { windows = after_give_back st.windows (held way) }) }
{}
