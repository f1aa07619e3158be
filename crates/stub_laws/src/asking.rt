//! Laws of what writes and reads send, and to whom.

ghost use Rattle.std.specs.Prelude.{◌≡◌, ℕ, ◌≤◌, List, [], ◌∷◌, ◌++◌, map, take, Some, Ok, Err, Result};
ghost use Rattle.crash_base.specs.declared.numbers.BrickNo.{BrickNo};
ghost use Rattle.crash_base.specs.declared.numbers.Moment.{Moment};
ghost use Rattle.crash_base.specs.declared.numbers.SessionKey.{SessionKey};
ghost use Rattle.crash_base.specs.declared.numbers.Version.{Version};
ghost use Rattle.session_cookie.specs.declared.cookie.Cookie.{Cookie};
ghost use Rattle.session_cookie.specs.Cookie.{AreHolders};
ghost use Rattle.send_windows.specs.declared.pass.Pass.{Pass};
ghost use Rattle.send_windows.specs.Passes.{HaveDistinctBricks};
ghost use Rattle.ssm_frames.specs.declared.frame.Frame.TheVariants.{Get, Put};
ghost use Rattle.ssm_frames.specs.Spelling.{encode_of};
ghost use Rattle.ssm_stub.specs.declared.cause.BrickCause.{BrickCause};
ghost use Rattle.ssm_stub.specs.declared.event.StubEvent.{StubEvent};
ghost use Rattle.ssm_stub.specs.declared.event.StubNext.TheVariants.{Ended};
ghost use Rattle.ssm_stub.specs.declared.read_call.ReadRefusal.{ReadRefusal};
ghost use Rattle.ssm_stub.specs.declared.read_call.ReadRefusal.TheVariants.{Lost};
ghost use Rattle.ssm_stub.specs.declared.write_call.WriteRefusal.{WriteRefusal};
ghost use Rattle.ssm_stub.specs.declared.write_call.WriteRefusal.TheVariants.{Missed};
ghost use Rattle.ssm_stub.specs.Ends.{bricks_of, ReadEnds, WriteEnds};
ghost use Rattle.ssm_stub.specs.Outcomes.{IsLost, IsMissed, IsRead, IsWritten};
ghost use Rattle.ssm_stub.specs.Reads.{ReadState, read_answer, read_machine, read_start};
ghost use Rattle.ssm_stub.specs.Runs.{Fits, after, calls, told_of};
ghost use Rattle.ssm_stub.specs.Writes.{write_answer, write_machine, write_start};
ghost use Rattle.stub_laws.specs.Sends.{bricks_of_holders, each_sent, sends_in};

use outside::Link;

/// In each run of a write its ask is sent to the first so many of its bricks, once each and in order. It
/// was sent to all of them as soon as there is an answer, and so nothing is sent after that.
pub fn writes_send_their_ask_once()
    ensures first { (ask : List ℕ) (events : List StubEvent) (bricks : List BrickNo) (least : ℕ)
        (nonce : Version) (key : SessionKey) (value : List ℕ) (expiry : Moment)
        → Fits write_machine (write_start bricks least nonce key value expiry) (map told_of events)
        → (asked : ℕ) × (sends_in (calls write_machine ask (write_start bricks least nonce key value expiry) events)
        ≡ each_sent ask (take asked bricks)) }
    ensures answered { (ask : List ℕ) (events : List StubEvent) (bricks : List BrickNo) (least : ℕ)
        (nonce : Version) (key : SessionKey) (value : List ℕ) (expiry : Moment)
        (answer : Result Cookie WriteRefusal)
        → 1 ≤ least
        → Fits write_machine (write_start bricks least nonce key value expiry) (map told_of events)
        → write_answer (after write_machine (write_start bricks least nonce key value expiry) (map told_of events))
        ≡ Some answer
        → sends_in (calls write_machine ask (write_start bricks least nonce key value expiry) events)
        ≡ each_sent ask bricks }
    ensures ended { (ask : List ℕ) (events : List StubEvent) (bricks : List BrickNo) (least : ℕ)
        (nonce : Version) (key : SessionKey) (value : List ℕ) (expiry : Moment)
        → Fits write_machine (write_start bricks least nonce key value expiry) (map told_of events)
        → write_machine.next (after write_machine (write_start bricks least nonce key value expiry) (map told_of events))
        ≡ Ended
        → sends_in (calls write_machine ask (write_start bricks least nonce key value expiry) events)
        ≡ each_sent ask bricks }
{}

/// In each run of a read its ask is sent to the first so many holders of its cookie, once each and in
/// order. Once there is an answer, nothing is sent or received.
pub fn reads_send_their_ask_in_order()
    ensures first { (ask : List ℕ) (events : List StubEvent) (now : Moment) (nonce : Version) (cookie : Cookie)
        → Fits read_machine (read_start now nonce cookie) (map told_of events)
        → (asked : ℕ) × (sends_in (calls read_machine ask (read_start now nonce cookie) events)
        ≡ each_sent ask (take asked (bricks_of_holders cookie.bricks))) }
    ensures answered { (s : ReadState) (answer : Result (List ℕ) ReadRefusal)
        → read_answer s ≡ Some answer → read_machine.next s ≡ Ended }
{}

/// A write that ended with an answer sent its ask to each of its bricks once, in order, and sent nothing
/// else: this holds of the very calls of the link by which it was written or missed.
pub fn answered_writes_asked_each_brick<L: Link>(_link: &L)
    ensures written { (old new : L) (before passes : List Pass) (least : ℕ) (nonce : Version)
        (key : SessionKey) (value : List ℕ) (expiry : Moment) (cookie : Cookie)
        → HaveDistinctBricks before → 1 ≤ least
        → WriteEnds L.makes (write_start (bricks_of before) least nonce key value expiry)
        old new passes (Ok cookie)
        → (written : IsWritten L.makes (bricks_of before) least nonce key expiry old new cookie)
        × (sends_in written.calls ≡ each_sent (encode_of (Put nonce key nonce expiry value)) (bricks_of before)) }
    ensures missed { (old new : L) (before passes : List Pass) (least : ℕ) (nonce : Version)
        (key : SessionKey) (value : List ℕ) (expiry : Moment) (causes : List BrickCause)
        → HaveDistinctBricks before → 1 ≤ least
        → WriteEnds L.makes (write_start (bricks_of before) least nonce key value expiry)
        old new passes (Err (Missed causes))
        → (missed : IsMissed L.makes (bricks_of before) least nonce key old new causes)
        × (sends_in missed.calls ≡ each_sent (encode_of (Put nonce key nonce expiry value)) (bricks_of before)) }
{}

/// A read that gave a value sent its ask to the holders up to the one that gave it, once each and in
/// order; a read that was lost sent it to all. Neither sent anything else: this holds of the very calls
/// of the link by which the value was read or lost.
pub fn answered_reads_asked_in_order<L: Link>(_link: &L)
    ensures read { (old new : L) (now : Moment) (nonce : Version) (cookie : Cookie) (value : List ℕ)
        → AreHolders cookie.bricks
        → ReadEnds L.makes (read_start now nonce cookie) old new (Ok value)
        → (read : IsRead L.makes nonce cookie old new value)
        × (sends_in read.calls ≡ each_sent (encode_of (Get nonce cookie.key cookie.version))
        (bricks_of_holders (read.before ++ read.holder ∷ []))) }
    ensures lost { (old new : L) (now : Moment) (nonce : Version) (cookie : Cookie) (causes : List BrickCause)
        → AreHolders cookie.bricks
        → ReadEnds L.makes (read_start now nonce cookie) old new (Err (Lost causes))
        → (lost : IsLost L.makes nonce cookie old new causes)
        × (sends_in lost.calls ≡ each_sent (encode_of (Get nonce cookie.key cookie.version))
        (bricks_of_holders cookie.bricks)) }
{}
