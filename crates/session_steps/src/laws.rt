//! What holds of the sessions of every scenario. Each law is the contract of a function that does nothing: a caller
//! that needs the law calls the function.

ghost use Rattle.std.specs.Prelude.{◌≡◌, ◌≢◌, ◌⊎◌, ◌↔◌, ◌<◌, ◌≤◌, ◌-◌, ◌^◌, ℕ, All, List, true, false, codes, length, slice_get, Some};
ghost use Rattle.scenario_text.specs.Answer.{Refused, Done};
ghost use Rattle.crash_base.specs.declared.numbers.Version.{Version};
ghost use Rattle.scenario_text.specs.declared.session_line.SessionLine.{SessionLine};
ghost use Rattle.scenario_text.specs.declared.session_line.SessionLine.TheVariants as lines;
ghost use Rattle.session_cookie.specs.declared.cookie.Cookie.{Cookie};
ghost use Rattle.session_cookie.specs.declared.cookie.Holder.{Holder};
ghost use Rattle.session_cookie.specs.Text.{HasForm, HasNoForm, IsTextOf, Spells, SpellsNoBytes, tag_of};
ghost use Rattle.send_windows.specs.Calls.{Take, after_call};
ghost use Rattle.send_windows.specs.Facts.{open_count};
ghost use Rattle.send_windows.specs.Windows.{WindowsValue, chosen, refused, taken};
ghost use Rattle.ssm_stub.specs.declared.cause.BrickCause.{BrickCause};
ghost use Rattle.ssm_world.specs.declared.call.Call.{Call};
ghost use Rattle.ssm_world.specs.declared.event.WorldEvent.{WorldEvent};
ghost use Rattle.ssm_world.specs.Worlds.{after, is_new, may_be_asked, bricks_of, IsMade};
ghost use Rattle.ssm_world.specs.Claims.{IsAcknowledged as IsAcknowledgedInWorld};
ghost use Rattle.session_steps.specs.Kept.{HasSoundStore};
ghost use Rattle.session_steps.specs.Lent.{BeginsSo, IsNoTurnOf, LentStep, after_lent};
ghost use Rattle.session_steps.specs.Present.{presented_text};
ghost use Rattle.session_steps.specs.Promise.{SessionTurn, Lead, CanServe, FindsValue, IsLost, IsRight, IsAcknowledged, IsUnacknowledged, ComesFrom, BootsRise, FetchedWrite, IsOfWrite, fetch_of, HasCrashedOrWasUnheard, NoneSweptLate};
ghost use Rattle.session_steps.specs.Rule.{result_by_rule};
ghost use Rattle.session_steps.specs.Sessions.{SessionsState, nonce, reopened, cookie_of, expiry, fetched_text, session_line};
ghost use Rattle.scenario_text.specs.Setup.{SetupState, HasCounts, no_setup, bricks_step, key_step};
ghost use Rattle.session_steps.specs.Setup.{set_up};
ghost use Rattle.session_steps.specs.Standing.{SessionsStand};
ghost use Rattle.session_lanes.specs.Lanes.{LanesState};
ghost use Rattle.session_steps.specs.declared.sessions.TheConstants.{LEASE};
ghost use Rattle.session_steps.specs.Texts.{version_text, found_text, expired_text, lost_text};

use send_windows::{taken_passes_are_lawful, windows_keep_their_limits};
use ssm_world::acknowledged_cookies_stay_acknowledged;

/// Over all turns, of lines, of boots and of connections, the bricks of a scenario, their packets and calls are a world
/// that events made.
pub fn sessions_are_worlds()
    ensures { (setup : SetupState) (boot : ℕ) (turns : List SessionTurn) (t : SessionsState) (st : LanesState)
        → Lead (set_up setup boot) turns t → t.store ≡ Some st → IsMade st.world }
{}

/// A write line that is done is acknowledged or not. Where it is, the key's cookie has the nonce that the write drew as
/// its version and expires a lease later, and the line writes the version. Where it is not, no cookie changes, none has
/// that version, and the line writes which windows are full, or why too few bricks stored the value: the causes with
/// which this very write was missed in the world of the bricks. A lease is 1,800,000 ms. It refuses causes that the
/// write did not meet, and another lease.
pub fn writes_say_whether_they_are_acknowledged()
    ensures told { (setup : SetupState) (boot : ℕ) (before : List SessionTurn) (s t : SessionsState)
        (key : ℕ) (value text : List ℕ)
        → Lead (set_up setup boot) before s → session_line s (lines.Write key value) ≡ Done t text
        → IsAcknowledged s key t text ⊎ IsUnacknowledged s key value t text }
    ensures lease { LEASE ≡ 1800000 }
{
    acknowledged_cookies_stay_acknowledged();
}

/// A write line is refused only where there are no bricks, or where a call has had the nonce that it would draw: where
/// the bricks are as many as head lines allow, as those of each setup are that head lines make.
pub fn writes_with_new_nonces_are_done()
    ensures refused { (setup : SetupState) (boot : ℕ) (turns : List SessionTurn) (u : SessionsState) (st : LanesState)
        (key : ℕ) (value : List ℕ)
        → HasCounts setup.counts → Lead (set_up setup boot) turns u → u.store ≡ Some st
        → session_line u (lines.Write key value) ≡ Refused → is_new st.world (nonce u) ≡ false }
    ensures none { HasCounts no_setup.counts }
    ensures bricks { (setup : SetupState) (bricks most least : ℕ) (t : SetupState) (text : List ℕ)
        → bricks_step setup bricks most least ≡ Done t text → HasCounts t.counts }
    ensures key { (setup : SetupState) (key : List ℕ) (t : SetupState) (text : List ℕ)
        → HasCounts setup.counts → key_step setup key ≡ Done t text → HasCounts t.counts }
{
    windows_keep_their_limits();
    taken_passes_are_lawful();
}

/// While each boot that starts has a greater number than the one before, and serials are left, no call has had a nonce
/// that is still to be drawn in this boot: neither that of the next write or fetch, nor one of a later serial, in
/// whatever order their calls begin, of lines and of connections. The serials of each boot that starts begin at 0, and
/// the node is 1. It refuses a rule that draws a nonce twice, and serials that go on from another boot.
pub fn nonces_stay_new()
    ensures new { (setup : SetupState) (boot : ℕ) (turns : List SessionTurn) (u : SessionsState) (st : LanesState) (serial : ℕ)
        → BootsRise boot turns → Lead (set_up setup boot) turns u → u.store ≡ Some st → u.serial < 2 ^ 64 - 1
        → u.serial ≤ serial → is_new st.world (record (nonce u) { serial = serial }) ≡ true }
    ensures first { (s : SessionsState) (boot : ℕ)
        → nonce (reopened s boot) ≡ record { node = 1; boot = boot; serial = 0 } }
{}

/// A line begins a call with no nonce but the one that it draws: each other nonce that was new before the line stays
/// new, as one that a connection has drawn and with which its call is still to begin. It refuses a line that begins a
/// call with a nonce which was drawn before.
pub fn other_nonces_stay_new()
    ensures { (setup : SetupState) (boot : ℕ) (turns : List SessionTurn) (s t : SessionsState) (line : SessionLine)
        (text : List ℕ) (st later : LanesState) (other : Version)
        → Lead (set_up setup boot) turns s → session_line s line ≡ Done t text → s.store ≡ Some st
        → t.store ≡ Some later → is_new st.world other ≡ true → other ≢ nonce s → is_new later.world other ≡ true }
{}

/// Whatever connections do with bricks that are lent to them, they may be put back: events made their world, and each
/// packet that a lane names is a reply of its brick.
pub fn lent_bricks_stay_sound()
    ensures { (st : LanesState) (steps : List LentStep)
        → HasSoundStore (Some st) → HasSoundStore (Some (after_lent st steps)) }
{}

/// What connections do with lent bricks leaves to others what is theirs: a nonce with which none of these steps begins
/// a call stays new, and a call of which none is a turn stays as it is.
pub fn lent_steps_leave_others()
    ensures nonces { (st : LanesState) (steps : List LentStep) (other : Version)
        → HasSoundStore (Some st) → All (BeginsSo (λ (nonce : Version). nonce ≢ other)) steps
        → is_new st.world other ≡ true → is_new (after_lent st steps).world other ≡ true }
    ensures calls { (st : LanesState) (steps : List LentStep) (number : ℕ) (call : Call)
        → HasSoundStore (Some st) → All (IsNoTurnOf number) steps
        → slice_get st.world.calls number ≡ Some call → slice_get (after_lent st steps).world.calls number ≡ Some call }
{}

/// Passes that are taken of lent windows, as many as a write needs, are those of a call of the windows; and so is a
/// refusal where fewer windows are open.
pub fn takes_are_calls_of_windows()
    ensures taken { (windows : WindowsValue) (first : ℕ) → windows.wq ≤ length (chosen windows first)
        → after_call windows (Take first) ≡ taken windows (chosen windows first) }
    ensures refused { (windows : WindowsValue) (first : ℕ) → open_count windows.facts < windows.wq
        → after_call windows (Take first) ≡ refused windows }
{}

/// Turns lead from the bricks to later ones by events of their world, in which calls of connections may go on.
pub fn turns_go_by_events()
    ensures { (setup : SetupState) (boot : ℕ) (before turns : List SessionTurn) (s t : SessionsState)
        (st later : LanesState) → Lead (set_up setup boot) before s → Lead s turns t → s.store ≡ Some st
        → t.store ≡ Some later → (events : List WorldEvent) × (later.world ≡ after st.world events) }
{}

/// A line leaves each call that had begun as it is, as one of a connection that is under way. It refuses a line that
/// takes a turn of such a call.
pub fn lines_leave_calls()
    ensures { (setup : SetupState) (boot : ℕ) (turns : List SessionTurn) (s t : SessionsState) (line : SessionLine)
        (text : List ℕ) (st later : LanesState) (number : ℕ) (call : Call)
        → Lead (set_up setup boot) turns s → session_line s line ≡ Done t text → s.store ≡ Some st
        → t.store ≡ Some later → slice_get st.world.calls number ≡ Some call
        → slice_get later.world.calls number ≡ Some call }
{}

/// What is acknowledged in the world of the bricks, by a line or by a connection, stays acknowledged over all turns.
/// The cookie of a key is acknowledged with a value.
pub fn sessions_keep_what_is_acknowledged()
    ensures later { (setup : SetupState) (boot : ℕ) (before turns : List SessionTurn) (s t : SessionsState)
        (st later : LanesState) (cookie : Cookie) (value : List ℕ)
        → Lead (set_up setup boot) before s → Lead s turns t → s.store ≡ Some st → t.store ≡ Some later
        → IsAcknowledgedInWorld st.world cookie value → IsAcknowledgedInWorld later.world cookie value }
    ensures kept { (setup : SetupState) (boot : ℕ) (turns : List SessionTurn) (u : SessionsState) (key : ℕ)
        (cookie : Cookie) → Lead (set_up setup boot) turns u → cookie_of u key ≡ Some cookie
        → (st : LanesState) × (u.store ≡ Some st) × (value : List ℕ) × IsAcknowledgedInWorld st.world cookie value }
{
    acknowledged_cookies_stay_acknowledged();
}

/// A text that is presented is written as `ok` exactly where it is the text of a cookie under the key of the service,
/// as `notbase64` exactly where it spells no bytes, as `form` exactly where it spells bytes that are no cookie's fields
/// and a tag, and as `tag` exactly where it spells fields and a tag, and the tag is not that of the fields under the
/// key. It refuses a text that is taken under another key, and one whose fault is told by the wrong word.
pub fn presented_texts_are_told_apart()
    ensures ok { (key text : List ℕ)
        → (presented_text key text ≡ codes "cookie ok\n") ↔ ((cookie : Cookie) × IsTextOf key cookie text) }
    ensures notbase64 { (key text : List ℕ)
        → (presented_text key text ≡ codes "cookie notbase64\n") ↔ SpellsNoBytes text }
    ensures form { (key text : List ℕ)
        → (presented_text key text ≡ codes "cookie form\n") ↔ ((bytes : List ℕ) × Spells text bytes × HasNoForm bytes) }
    ensures tag { (key text : List ℕ)
        → (presented_text key text ≡ codes "cookie tag\n")
        ↔ ((bytes : List ℕ) × Spells text bytes × (cookie : Cookie) × (tag : List ℕ) × HasForm bytes cookie tag
        × (tag ≢ tag_of key cookie)) }
{}

/// Each cookie of a key comes from a write line that was acknowledged with it.
pub fn cookies_come_from_writes()
    ensures { (setup : SetupState) (boot : ℕ) (turns : List SessionTurn) (u : SessionsState) (key : ℕ) (cookie : Cookie)
        → Lead (set_up setup boot) turns u → cookie_of u key ≡ Some cookie
        → ComesFrom (set_up setup boot) turns u key cookie }
{}

/// A fetch of a key with a cookie is refused only where a call has had the nonce that it would draw.
pub fn fetches_with_new_nonces_are_done()
    ensures { (setup : SetupState) (boot : ℕ) (turns : List SessionTurn) (u : SessionsState) (key : ℕ) (cookie : Cookie)
        → Lead (set_up setup boot) turns u → cookie_of u key ≡ Some cookie
        → session_line u (lines.Fetch key) ≡ Refused
        → (st : LanesState) × (u.store ≡ Some st) × (is_new st.world (nonce u) ≡ false) }
{
    acknowledged_cookies_stay_acknowledged();
}

/// Over every list of lines, of boots and of what connections did, each fetch line that is done is of a write line
/// before it, and answers what was written: the value, in time, where a brick of the cookie can serve it; or that the
/// cookie has expired; or that the value was lost, with the cause of each brick of the cookie. The cookie names 1 to 16
/// distinct bricks, and expires a lease after the write, whose line wrote the version that the cookie names.
pub fn fetches_answer_what_was_written()
    ensures each { (setup : SetupState) (boot : ℕ) (turns : List SessionTurn) (u v : SessionsState) (key : ℕ) (text : List ℕ)
        → Lead (set_up setup boot) turns u → session_line u (lines.Fetch key) ≡ Done v text
        → IsOfWrite setup boot turns u key text }
    ensures right { (setup : SetupState) (boot : ℕ) (story : FetchedWrite setup boot) → IsRight (fetch_of story) story.text }
    ensures bricks { (setup : SetupState) (boot : ℕ) (story : FetchedWrite setup boot)
        → may_be_asked (bricks_of story.cookie.bricks) ≡ true }
    ensures lease { (setup : SetupState) (boot : ℕ) (story : FetchedWrite setup boot)
        → story.cookie.expiry ≡ expiry story.at_write }
    ensures version { (setup : SetupState) (boot : ℕ) (story : FetchedWrite setup boot)
        → story.written ≡ version_text story.key story.cookie }
{
    acknowledged_cookies_stay_acknowledged();
}

/// What a fetch line that is done writes follows from the lanes and the histories of the bricks before it.
pub fn fetches_answer_by_the_rule()
    ensures { (setup : SetupState) (boot : ℕ) (turns : List SessionTurn) (u v : SessionsState) (key : ℕ) (text : List ℕ)
        (cookie : Cookie) (st : LanesState)
        → Lead (set_up setup boot) turns u → session_line u (lines.Fetch key) ≡ Done v text
        → cookie_of u key ≡ Some cookie → u.store ≡ Some st
        → text ≡ fetched_text key (result_by_rule st (nonce u) u.moment cookie) }
{}

/// Within its lease a cookie reads back exactly the acknowledged value while one of its bricks has neither crashed nor
/// been swept late since the write, and was neither silent to the fetch nor strayed. No other value is ever found. Past
/// its expiry a fetch says that it has expired.
pub fn fetches_read_back()
    ensures found { (setup : SetupState) (boot : ℕ) (story : FetchedWrite setup boot)
        → story.at_fetch.moment.0 ≤ story.cookie.expiry.0 → CanServe (fetch_of story)
        → story.text ≡ found_text story.key story.value }
    ensures only { (setup : SetupState) (boot : ℕ) (story : FetchedWrite setup boot) (value : List ℕ)
        → story.text ≡ found_text story.key value → FindsValue (fetch_of story) story.text }
    ensures expired { (setup : SetupState) (boot : ℕ) (story : FetchedWrite setup boot)
        → story.cookie.expiry.0 < story.at_fetch.moment.0
        → story.text ≡ expired_text story.key story.at_fetch.moment story.cookie.expiry }
{
    acknowledged_cookies_stay_acknowledged();
}

/// Lost is answered only where each brick of the cookie has its cause; and within the lease only where every brick of
/// the cookie has crashed since the write, or was silent to this fetch, or strayed.
pub fn fetches_lose_only_where_all_have()
    ensures lost { (setup : SetupState) (boot : ℕ) (story : FetchedWrite setup boot) (causes : List BrickCause)
        → story.text ≡ lost_text story.key causes → IsLost (fetch_of story) story.text }
    ensures crashed_or_unheard { (setup : SetupState) (boot : ℕ) (story : FetchedWrite setup boot) (causes : List BrickCause)
        (place : ℕ) (holder : Holder)
        → story.text ≡ lost_text story.key causes → NoneSweptLate (fetch_of story)
        → slice_get story.cookie.bricks place ≡ Some holder → HasCrashedOrWasUnheard (fetch_of story) holder }
{
    acknowledged_cookies_stay_acknowledged();
}

/// Over every list of turns that were done, what a scenario did to its sessions stands.
pub fn sessions_stand()
    ensures { (setup : SetupState) (turns : List SessionTurn) (end : SessionsState)
        → Lead (set_up setup 0) turns end → SessionsStand setup turns end }
{
    sessions_are_worlds();
    fetches_answer_what_was_written();
    fetches_read_back();
    fetches_lose_only_where_all_have();
}
