//! Laws of the link. Each is the contract of a function that does nothing: a caller that needs the law
//! calls the function.

ghost use Rattle.std.specs.Prelude.{◌≡◌, ◌^◌, ◌<◌, ℕ, List, [], ◌∷◌, ◌++◌, length, map, slice_get, All, Some, None, Option, Result};
ghost use Rattle.ssm_frames.specs.declared.frame.Frame.{Frame};
ghost use Rattle.ssm_frames.specs.declared.frame.Frame.TheVariants.{Put, Get};
ghost use Rattle.ssm_frames.specs.Spelling.{encode_of};
ghost use Rattle.ssm_stub.specs.declared.event.StubNext.TheVariants.{Ended};
ghost use Rattle.ssm_stub.specs.declared.read_call.ReadRefusal.{ReadRefusal};
ghost use Rattle.ssm_stub.specs.declared.ear.TheConstants.{MAX_STRAYS};
ghost use Rattle.ssm_stub.specs.declared.ear.Outcome.TheVariants.{Answered, Silent, Strayed};
ghost use Rattle.ssm_stub.specs.declared.ear.Outcome.{Outcome};
ghost use Rattle.ssm_stub.specs.declared.ear.Stage.TheVariants.{Asked};
ghost use Rattle.ssm_stub.specs.declared.ear.Ear.TheVariants.{Open, Heard};
ghost use Rattle.ssm_stub.specs.declared.event.StubEvent.{StubEvent};
ghost use Rattle.ssm_stub.specs.Hearing.{ear_machine};
ghost use Rattle.ssm_stub.specs.Ends.{bricks_of, Settled, WriteEnds, ReadEnds};
ghost use Rattle.send_windows.specs.declared.pass.Pass.{Pass};
ghost use Rattle.send_windows.specs.declared.pass.PassMark.{PassMark};
ghost use Rattle.send_windows.specs.Passes.{HaveDistinctBricks};
ghost use Rattle.ssm_stub.specs.Runs.{Ran};
ghost use Rattle.ssm_stub.specs.Reads.{ReadState, read_start, read_answer_of, read_machine, get_lawful};
ghost use Rattle.session_cookie.specs.declared.cookie.Cookie.{Cookie};
ghost use Rattle.session_cookie.specs.Cookie.{AreDistinct};
ghost use Rattle.ssm_stub.specs.Writes.{WriteState, answer_of, pass_of, write_start, write_until, write_machine, write_answer, put_lawful};
ghost use Rattle.crash_base.specs.declared.numbers.Moment.{Moment};
ghost use Rattle.crash_base.specs.declared.numbers.SessionKey.{SessionKey};
ghost use Rattle.crash_base.specs.declared.numbers.Version.{Version};
ghost use Rattle.crash_base.specs.declared.numbers.BrickNo.{BrickNo};
ghost use Rattle.outside.specs.declared.link.LinkEvent.{LinkEvent};
ghost use Rattle.brick_store.specs.declared.event.BrickEvent.{BrickEvent};
ghost use Rattle.brick_store.specs.declared.event.BrickEvent.TheVariants.{Crash, Sweep};
ghost use Rattle.link_lanes.specs.Lanes.{lane_of, on_lane, raised};
ghost use Rattle.link_memory.specs.Lane.{LaneValue, asked, counted_times, crashed_lane, swept_lane, losing, dropping, repeated};
ghost use Rattle.ssm_stub.specs.declared.ask.Ask.{Ask};
ghost use Rattle.ssm_stub.specs.declared.write_call.WriteRefusal.{WriteRefusal};
ghost use Rattle.link_memory.specs.Script.{ScriptValue, ScriptMakes, new_link};
ghost use Rattle.link_memory.specs.declared.script_link.TheConstants.{MAX_LINK_BRICKS};
ghost use Rattle.link_memory.specs.Standing.{AllStand, with_history, histories_after};
ghost use Rattle.ssm_stub.specs.declared.reply.WriteReply.{WriteReply};
ghost use Rattle.ssm_stub.specs.declared.reply.ReadReply.{ReadReply};
ghost use Rattle.link_memory.specs.Settling.{AllSettledOver};
ghost use Rattle.link_memory.specs.Rule.{heard_from};
ghost use Rattle.link_memory.specs.InOrder.{Over, heard_over, write_over, read_over};
ghost use Rattle.link_memory.specs.Leaving.{IsUnlawful, HeardOver, Leaves, HasOneEnd};

use brick_store::bricks_stand_for_their_history;

/// What is heard from a queue: a lawful reply, where fewer than 64 (`MAX_STRAYS`) strays stand before it,
/// and it goes with them; silence, where fewer than 64 frames stand there and all are strays, and all go;
/// else the first 64 strays, and these go.
pub fn hearing_a_queue()
    ensures strays { MAX_STRAYS ≡ 64 }
    ensures put_answered { (lawful : Frame → Option WriteReply) (strays : List Frame) (frame : Frame) (rest : List Frame) (reply : WriteReply)
        → All (IsUnlawful lawful) strays → length strays < MAX_STRAYS → lawful frame ≡ Some reply
        → heard_from lawful (strays ++ frame ∷ rest) ≡ record { outcome = Answered reply; left = rest } }
    ensures put_silent { (lawful : Frame → Option WriteReply) (strays : List Frame)
        → All (IsUnlawful lawful) strays → length strays < MAX_STRAYS
        → heard_from lawful strays ≡ record { outcome = Silent; left = [] } }
    ensures put_strayed { (lawful : Frame → Option WriteReply) (strays rest : List Frame)
        → All (IsUnlawful lawful) strays → length strays ≡ MAX_STRAYS
        → heard_from lawful (strays ++ rest) ≡ record { outcome = Strayed; left = rest } }
    ensures get_answered { (lawful : Frame → Option ReadReply) (strays : List Frame) (frame : Frame) (rest : List Frame) (reply : ReadReply)
        → All (IsUnlawful lawful) strays → length strays < MAX_STRAYS → lawful frame ≡ Some reply
        → heard_from lawful (strays ++ frame ∷ rest) ≡ record { outcome = Answered reply; left = rest } }
    ensures get_silent { (lawful : Frame → Option ReadReply) (strays : List Frame)
        → All (IsUnlawful lawful) strays → length strays < MAX_STRAYS
        → heard_from lawful strays ≡ record { outcome = Silent; left = [] } }
    ensures get_strayed { (lawful : Frame → Option ReadReply) (strays rest : List Frame)
        → All (IsUnlawful lawful) strays → length strays ≡ MAX_STRAYS
        → heard_from lawful (strays ++ rest) ≡ record { outcome = Strayed; left = rest } }
{}

/// Over the link a brick that was asked is heard by the rule from its queue: whatever calls the link made
/// for it, its outcome is the rule's, the queue has what the rule leaves, and no other lane changed. A
/// number without a brick is silent. So the outcome and the link then, counts included, are a function of
/// the link before. A count goes up to its last value, and stays there.
pub fn hearing_over_the_link()
    ensures counts { (more n : ℕ) → n < 2 ^ 64 → counted_times more n ≡ raised n more }
    ensures put { (lawful : Frame → Option WriteReply) (brick : BrickNo) (ask : List ℕ) (events : List StubEvent) (outcome : Outcome WriteReply) (old new : ScriptValue)
        → Ran (ear_machine brick lawful) ScriptMakes ask (Open (Asked 0)) old events (Heard outcome) new
        → HeardOver lawful brick outcome old new }
    ensures get { (lawful : Frame → Option ReadReply) (brick : BrickNo) (ask : List ℕ) (events : List StubEvent) (outcome : Outcome ReadReply) (old new : ScriptValue)
        → Ran (ear_machine brick lawful) ScriptMakes ask (Open (Asked 0)) old events (Heard outcome) new
        → HeardOver lawful brick outcome old new }
    ensures put_by_rule { (lawful : Frame → Option WriteReply) (brick : BrickNo) (ask : List ℕ) (events : List StubEvent) (outcome : Outcome WriteReply) (old new : ScriptValue)
        → Ran (ear_machine brick lawful) ScriptMakes ask (Open (Asked 0)) old events (Heard outcome) new
        → record { heard = outcome; link = new } ≡ heard_over lawful brick old }
    ensures get_by_rule { (lawful : Frame → Option ReadReply) (brick : BrickNo) (ask : List ℕ) (events : List StubEvent) (outcome : Outcome ReadReply) (old new : ScriptValue)
        → Ran (ear_machine brick lawful) ScriptMakes ask (Open (Asked 0)) old events (Heard outcome) new
        → record { heard = outcome; link = new } ≡ heard_over lawful brick old }
{}

/// What a write over the link leaves: from each of its bricks, which are distinct, the ask, and what was
/// heard of it by the rule; in the link's counts, the silences and frames of that; and nothing else. At its
/// answer a brick without outcome was asked, and nothing
/// was taken from its queue.
pub fn writes_over_the_link()
    ensures until_answer { (before : List Pass) (least : ℕ) (nonce : Version) (key : SessionKey) (value : List ℕ) (expiry : Moment)
        (ask : List ℕ) (events : List StubEvent) (end : WriteState) (old new : ScriptValue)
        → HaveDistinctBricks before
        → Ran write_until ScriptMakes ask (write_start (bricks_of before) least nonce key value expiry) old events end new
        → Leaves (λ brick. brick) (put_lawful nonce key) ask end.asks old new }
    ensures to_the_end { (before : List Pass) (least : ℕ) (nonce : Version) (key : SessionKey) (value : List ℕ) (expiry : Moment)
        (ask : List ℕ) (events : List StubEvent) (end : WriteState) (old new : ScriptValue)
        → HaveDistinctBricks before
        → Ran write_machine ScriptMakes ask (write_start (bricks_of before) least nonce key value expiry) old events end new
        → Leaves (λ brick. brick) (put_lawful nonce key) ask end.asks old new }
    ensures unheard { (before : List Pass) (least : ℕ) (nonce : Version) (key : SessionKey) (value : List ℕ) (expiry : Moment)
        (ask : List ℕ) (events : List StubEvent) (end : WriteState) (old new : ScriptValue) (answer : Result Cookie WriteRefusal)
        → HaveDistinctBricks before
        → Ran write_until ScriptMakes ask (write_start (bricks_of before) least nonce key value expiry) old events end new
        → write_answer end ≡ Some answer
        → (i strays : ℕ) (a : Ask BrickNo WriteReply) (lane : LaneValue)
        → slice_get end.asks i ≡ Some a → a.ear ≡ Open (Asked strays) → lane_of old a.who.0 ≡ Some lane
        → (strays ≡ 0) × (lane_of new a.who.0 ≡ Some (asked ask lane)) }
{}

/// What a read over the link leaves: from each holder that was asked, which are of distinct bricks, the
/// ask, and what was heard of it by the rule; in the link's counts, the silences and frames of that; and
/// nothing else.
pub fn reads_over_the_link()
    ensures { (now : Moment) (nonce : Version) (cookie : Cookie) (ask : List ℕ) (events : List StubEvent)
        (end : ReadState) (old new : ScriptValue)
        → AreDistinct cookie.bricks
        → Ran read_machine ScriptMakes ask (read_start now nonce cookie) old events end new
        → Leaves (λ holder. holder.brick) (get_lawful nonce cookie.key cookie.version cookie.expiry) ask end.asks old new }
{}

/// The answer of a write over the link follows from the link before, by the rule: the bricks are asked, in
/// order, and then heard, in order, until `least` have stored the value, and the others are not heard. The
/// marks of its passes and the link then, counts included, follow too.
pub fn writes_answer_by_the_rule()
    ensures run { (bricks : List BrickNo) (least : ℕ) (nonce : Version) (key : SessionKey) (value : List ℕ) (expiry : Moment)
        (ask : List ℕ) (events : List StubEvent) (end : WriteState) (old new : ScriptValue)
        → Ran write_until ScriptMakes ask (write_start bricks least nonce key value expiry) old events end new
        → write_until.next end ≡ Ended
        → let over = write_over (put_lawful nonce key) ask least bricks old in
        (end.asks ≡ over.heard) × (new ≡ over.link) }
    ensures answer { (bricks : List BrickNo) (least : ℕ) (nonce : Version) (key : SessionKey) (value : List ℕ) (expiry : Moment)
        (old new : ScriptValue) (passes : List Pass) (answer : Result Cookie WriteRefusal)
        → WriteEnds ScriptMakes (write_start bricks least nonce key value expiry) old new passes answer
        → let over = write_over (put_lawful nonce key) (encode_of (Put nonce key nonce expiry value)) least bricks old in
        (answer_of least nonce key expiry over.heard ≡ Some answer) × (passes ≡ map pass_of over.heard)
        × (new ≡ over.link) }
{}

/// The answer of a read over the link follows from the link before, by the rule: holders are asked and
/// heard, one after another, until one gives the value, and the others are not asked. The link then,
/// counts included, follows too.
pub fn reads_answer_by_the_rule()
    ensures run { (now : Moment) (nonce : Version) (cookie : Cookie) (ask : List ℕ) (events : List StubEvent)
        (end : ReadState) (old new : ScriptValue)
        → Ran read_machine ScriptMakes ask (read_start now nonce cookie) old events end new
        → read_machine.next end ≡ Ended
        → let over = read_over (get_lawful nonce cookie.key cookie.version cookie.expiry) ask now cookie.expiry cookie.bricks old in
        (end.asks ≡ over.heard) × (new ≡ over.link) }
    ensures answer { (now : Moment) (nonce : Version) (cookie : Cookie) (old new : ScriptValue)
        (answer : Result (List ℕ) ReadRefusal)
        → ReadEnds ScriptMakes (read_start now nonce cookie) old new answer
        → let over = read_over (get_lawful nonce cookie.key cookie.version cookie.expiry)
        (encode_of (Get nonce cookie.key cookie.version)) now cookie.expiry cookie.bricks old in
        (read_answer_of now cookie.expiry over.heard ≡ Some answer) × (new ≡ over.link) }
{}

/// What settling passes over the link comes to, pass by pass: the brick of an unheard pass is heard by the
/// rule, which gives the mark and the link then, counts included; or memory was wanted, and some strays
/// went, and perhaps one frame more. For any other pass nothing is done.
pub fn settling_over_the_link()
    ensures { (nonce : Version) (key : SessionKey) (passes : List Pass) (marks : List PassMark) (old new : ScriptValue)
        → Settled ScriptMakes (put_lawful nonce key) old passes marks new
        → AllSettledOver (put_lawful nonce key) passes marks old new }
{}

/// Each brick of the link has the number of its lane and stands for the history of what happened to it:
/// a new one for the empty history, and after each call for the history with what the call adds to it.
/// Only a send that is not dropped, a crash and a sweep add to it. A link has at most 16 bricks.
pub fn bricks_of_the_link_stand()
    ensures bricks { MAX_LINK_BRICKS ≡ 16 }
    ensures new { (bricks : ℕ) → AllStand (λ _. []) (new_link bricks) }
    ensures event { (old new : ScriptValue) (event : LinkEvent) (histories : ℕ → List BrickEvent)
        → AllStand histories old → ScriptMakes old event new → AllStand (histories_after old event histories) new }
    ensures crash { (link : ScriptValue) (brick : BrickNo) (histories : ℕ → List BrickEvent)
        → AllStand histories link
        → AllStand (with_history brick (Crash ∷ histories brick.0) histories) (on_lane brick crashed_lane link) }
    ensures sweep { (link : ScriptValue) (brick : BrickNo) (moment : Moment) (histories : ℕ → List BrickEvent)
        → AllStand histories link
        → AllStand (with_history brick (Sweep moment ∷ histories brick.0) histories) (on_lane brick (swept_lane moment) link) }
    ensures lose { (link : ScriptValue) (brick : BrickNo) (more : ℕ) (histories : ℕ → List BrickEvent)
        → AllStand histories link → AllStand histories (on_lane brick (losing more) link) }
    ensures drop_asks { (link : ScriptValue) (brick : BrickNo) (more : ℕ) (histories : ℕ → List BrickEvent)
        → AllStand histories link → AllStand histories (on_lane brick (dropping more) link) }
    ensures repeat { (link : ScriptValue) (brick : BrickNo) (number : ℕ) (histories : ℕ → List BrickEvent)
        → AllStand histories link → AllStand histories (on_lane brick (repeated number) link) }
{
    bricks_stand_for_their_history();
}

/// A write, a read and the hearing of one brick over the link have just one end: what was answered and
/// what was left follow from the state and the link at their start.
pub fn runs_over_the_link_have_one_end()
    ensures write_until_answer { HasOneEnd write_until }
    ensures write_to_the_end { HasOneEnd write_machine }
    ensures read { HasOneEnd read_machine }
    ensures put_hearing { (brick : BrickNo) (lawful : Frame → Option WriteReply) → HasOneEnd (ear_machine brick lawful) }
    ensures get_hearing { (brick : BrickNo) (lawful : Frame → Option ReadReply) → HasOneEnd (ear_machine brick lawful) }
{}
