//! Laws of writes and reads. Each is the contract of a function that does nothing: a caller that needs
//! the law calls the function.

ghost use Rattle.std.specs.Prelude.{◌≡◌, ℕ, ◌≤◌, All, List, [], ◌∷◌, map, slice_get, Option, Some, Ok, Err};
ghost use Rattle.std.specs.List.{count_by};
ghost use Rattle.crash_base.specs.declared.numbers.BrickNo.{BrickNo};
ghost use Rattle.crash_base.specs.declared.numbers.Moment.{Moment};
ghost use Rattle.crash_base.specs.declared.numbers.SessionKey.{SessionKey};
ghost use Rattle.crash_base.specs.declared.numbers.Version.{Version};
ghost use Rattle.outside.specs.declared.link.LinkEvent.{LinkEvent};
ghost use Rattle.outside.specs.Link.{is_silence_of};
ghost use Rattle.session_cookie.specs.declared.cookie.Cookie.{Cookie};
ghost use Rattle.session_cookie.specs.declared.cookie.Holder.{Holder};
ghost use Rattle.session_cookie.specs.Cookie.{AreHolders};
ghost use Rattle.send_windows.specs.declared.pass.Pass.{Pass};
ghost use Rattle.send_windows.specs.Passes.{HaveDistinctBricks};
ghost use Rattle.ssm_frames.specs.declared.frame.Frame.{Frame};
ghost use Rattle.ssm_frames.specs.declared.frame.TheConstants.{SWEEP_GRACE};
ghost use Rattle.ssm_stub.specs.declared.ear.TheConstants.{MAX_STRAYS};
ghost use Rattle.ssm_stub.specs.declared.cause.BrickCause.{BrickCause};
ghost use Rattle.ssm_stub.specs.declared.ear.Ear.TheVariants.{Open, Heard};
ghost use Rattle.ssm_stub.specs.declared.ear.Outcome.{Outcome};
ghost use Rattle.ssm_stub.specs.declared.ear.Outcome.TheVariants.{Answered, Silent};
ghost use Rattle.ssm_stub.specs.declared.ear.Stage.TheVariants.{Unasked, Asked};
ghost use Rattle.ssm_stub.specs.declared.ask.Ask.{Ask};
ghost use Rattle.ssm_stub.specs.declared.event.StubEvent.{StubEvent};
ghost use Rattle.ssm_stub.specs.declared.event.Told.{Told};
ghost use Rattle.ssm_stub.specs.declared.event.Told.TheVariants.{Sent};
ghost use Rattle.ssm_stub.specs.declared.reply.ReadReply.{ReadReply};
ghost use Rattle.ssm_stub.specs.declared.reply.WriteReply.{WriteReply};
ghost use Rattle.ssm_stub.specs.declared.reply.WriteReply.TheVariants.{Stored};
ghost use Rattle.ssm_stub.specs.declared.read_call.ReadRefusal.TheVariants.{Lost};
ghost use Rattle.ssm_stub.specs.declared.write_call.WriteRefusal.TheVariants.{Missed};
ghost use Rattle.ssm_stub.specs.Ears.{ear_after};
ghost use Rattle.ssm_stub.specs.Hearing.{AllDiffer, EndsIn, OwnAt, all_about, ear_machine, numbers, told_to};
ghost use Rattle.ssm_stub.specs.Runs.{Fits, Ran, after, calls, told_of};
ghost use Rattle.ssm_stub.specs.Writes.{WriteState, put_lawful, write_answer, write_start, write_machine, write_until};
ghost use Rattle.ssm_stub.specs.Reads.{ReadState, get_lawful, read_machine, read_start};
ghost use Rattle.ssm_stub.specs.Counted.{AreCounted};
ghost use Rattle.ssm_stub.specs.Turns.{none_asked};
ghost use Rattle.ssm_stub.specs.Ends.{bricks_of, ReadEnds, WriteEnds};
ghost use Rattle.ssm_stub.specs.Outcomes.{IsLost, IsMissed, IsRead, IsWritten};

use outside::{Link, links_count_their_events};

/// A brick comes to an outcome of a Put exactly by its ask and what came of it: silence, or fewer
/// than 64 strays and then a lawful reply or silence, or 64 strays.
pub fn an_outcome_of_a_put_has_its_events()
    ensures strays { MAX_STRAYS ≡ 64 }
    ensures grace { SWEEP_GRACE ≡ 60000 }
    ensures comes { (brick : BrickNo) (lawful : Frame → Option WriteReply) (events : List Told)
        (outcome : Outcome WriteReply)
        → Fits (ear_machine brick lawful) (Open Unasked) events → ear_after lawful events ≡ Heard outcome
        → EndsIn lawful events outcome }
    ensures only { (lawful : Frame → Option WriteReply) (events : List Told)
        (outcome : Outcome WriteReply)
        → EndsIn lawful events outcome → ear_after lawful events ≡ Heard outcome }
{}

/// The same of a Get.
pub fn an_outcome_of_a_get_has_its_events()
    ensures comes { (brick : BrickNo) (lawful : Frame → Option ReadReply) (events : List Told)
        (outcome : Outcome ReadReply)
        → Fits (ear_machine brick lawful) (Open Unasked) events → ear_after lawful events ≡ Heard outcome
        → EndsIn lawful events outcome }
    ensures only { (lawful : Frame → Option ReadReply) (events : List Told)
        (outcome : Outcome ReadReply)
        → EndsIn lawful events outcome → ear_after lawful events ≡ Heard outcome }
{}

/// What `settle` hears of a brick that was asked before is such an outcome, with the ask as its first
/// event.
pub fn settled_bricks_have_outcomes<L: Link>(_link: &L)
    ensures { (brick : BrickNo) (lawful : Frame → Option WriteReply) (old new : L) (events : List StubEvent)
        (outcome : Outcome WriteReply)
        → Ran (ear_machine brick lawful) L.makes [] (Open (Asked 0)) old events (Heard outcome) new
        → EndsIn lawful (Sent ∷ map told_of events) outcome }
{}

/// Whatever the order in which bricks are asked and heard, what is heard of each comes of the events of
/// the steps that are wanted of it, and of nothing else.
pub fn each_hears_its_own()
    ensures write { (events : List Told) (s : WriteState) (i : ℕ) (ask : Ask BrickNo WriteReply)
        → AllDiffer (numbers (λ brick. brick) s.asks) → Fits write_machine s events
        → slice_get s.asks i ≡ Some ask
        → OwnAt (λ brick. brick) (put_lawful s.nonce s.key) (after write_machine s events).asks
        (told_to write_machine s events) i ask }
    ensures read { (events : List Told) (s : ReadState) (i : ℕ) (ask : Ask Holder ReadReply)
        → AllDiffer (numbers (λ holder. holder.brick) s.asks) → Fits read_machine s events
        → slice_get s.asks i ≡ Some ask
        → OwnAt (λ holder. holder.brick) (get_lawful s.nonce s.key s.version s.expiry)
        (after read_machine s events).asks (told_to read_machine s events) i ask }
{}

/// The calls of a link tell each brick just what it is told in the run that made them.
pub fn calls_tell_each_its_own()
    ensures write { (ask : List ℕ) (events : List StubEvent) (s : WriteState) (brick : BrickNo)
        → Fits write_machine s (map told_of events)
        → all_about brick (calls write_machine ask s events)
        ≡ told_to write_machine s (map told_of events) brick }
    ensures read { (ask : List ℕ) (events : List StubEvent) (s : ReadState) (brick : BrickNo)
        → Fits read_machine s (map told_of events)
        → all_about brick (calls read_machine ask s events)
        ≡ told_to read_machine s (map told_of events) brick }
{}

/// A write up to its answer is a run of the write that goes on after it, by the same calls of the link.
pub fn an_answered_write_is_a_run()
    ensures fits { (events : List Told) (s : WriteState) → Fits write_until s events → Fits write_machine s events }
    ensures calls { (ask : List ℕ) (events : List StubEvent) (s : WriteState)
        → Fits write_until s (map told_of events)
        → calls write_until ask s events ≡ calls write_machine ask s events }
{}

/// Each brick that a cookie names was asked and gave a lawful Stored with this incarnation.
pub fn a_cookie_names_who_stored()
    ensures { (events : List Told) (bricks : List BrickNo) (s : WriteState) (cookie : Cookie)
        → s.asks ≡ none_asked bricks → AllDiffer (map (λ brick. brick.0) bricks) → Fits write_machine s events
        → write_answer (after write_machine s events) ≡ Some (Ok cookie)
        → All (λ holder. EndsIn (put_lawful s.nonce s.key holder.brick)
        (told_to write_machine s events holder.brick) (Answered (Stored holder.incarnation))) cookie.bricks }
{}

/// A brick is silent to a call only where the calls of the link tell a silence of it.
pub fn a_silence_is_told()
    ensures put { (lawful : Frame → Option WriteReply) (brick : BrickNo) (calls : List LinkEvent)
        → EndsIn lawful (all_about brick calls) Silent → 1 ≤ count_by (is_silence_of brick.0) calls }
    ensures get { (lawful : Frame → Option ReadReply) (brick : BrickNo) (calls : List LinkEvent)
        → EndsIn lawful (all_about brick calls) Silent → 1 ≤ count_by (is_silence_of brick.0) calls }
{}

/// A cookie that a write gave has the write's key, nonce and expiry, and names the first `least` of its
/// bricks that gave a lawful Stored, in asked order, with the incarnations that these tell.
pub fn written_cookies_name_who_stored<L: Link>(_link: &L)
    ensures { (old new : L) (before passes : List Pass) (least : ℕ) (nonce : Version)
        (key : SessionKey) (value : List ℕ) (expiry : Moment) (cookie : Cookie)
        → HaveDistinctBricks before
        → WriteEnds L.makes (write_start (bricks_of before) least nonce key value expiry)
        old new passes (Ok cookie)
        → IsWritten L.makes (bricks_of before) least nonce key expiry old new cookie }
{}

/// Where a write was missed, fewer than `least` of its bricks gave a lawful Stored, and each other one
/// has its cause, in asked order.
pub fn missed_writes_have_causes<L: Link>(_link: &L)
    ensures { (old new : L) (before passes : List Pass) (least : ℕ) (nonce : Version)
        (key : SessionKey) (value : List ℕ) (expiry : Moment) (causes : List BrickCause)
        → HaveDistinctBricks before
        → WriteEnds L.makes (write_start (bricks_of before) least nonce key value expiry)
        old new passes (Err (Missed causes))
        → IsMissed L.makes (bricks_of before) least nonce key old new causes }
{}

/// Where a read was lost, each holder of its cookie has its cause, in order.
pub fn lost_reads_have_causes<L: Link>(_link: &L)
    ensures { (old new : L) (now : Moment) (nonce : Version) (cookie : Cookie) (causes : List BrickCause)
        → AreHolders cookie.bricks
        → ReadEnds L.makes (read_start now nonce cookie) old new (Err (Lost causes))
        → IsLost L.makes nonce cookie old new causes }
{}

/// A value that a read gave came in a lawful Found of a holder; each holder before it has its cause, and
/// those behind it were not asked.
pub fn read_values_were_found<L: Link>(_link: &L)
    ensures { (old new : L) (now : Moment) (nonce : Version) (cookie : Cookie) (value : List ℕ)
        → AreHolders cookie.bricks
        → ReadEnds L.makes (read_start now nonce cookie) old new (Ok value)
        → IsRead L.makes nonce cookie old new value }
{}

/// Causes come only with what the link counted: where a brick was silent, its silences rose, and over
/// all bricks they rose by at least as many; where a brick strayed, at least 64 frames came. A count that
/// is at its greatest value, 2^64 - 1, stays there.
pub fn causes_are_counted<L: Link>(link: &L)
    ensures missed { (old new : L) (before passes : List Pass) (least : ℕ) (nonce : Version)
        (key : SessionKey) (value : List ℕ) (expiry : Moment) (causes : List BrickCause)
        → HaveDistinctBricks before
        → WriteEnds L.makes (write_start (bricks_of before) least nonce key value expiry)
        old new passes (Err (Missed causes))
        → AreCounted (L.tally old) (L.tally new) causes }
    ensures lost { (old new : L) (now : Moment) (nonce : Version) (cookie : Cookie) (causes : List BrickCause)
        → AreHolders cookie.bricks
        → ReadEnds L.makes (read_start now nonce cookie) old new (Err (Lost causes))
        → AreCounted (L.tally old) (L.tally new) causes }
{
    links_count_their_events(link)
}
