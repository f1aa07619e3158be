//! What holds of every world. Each law is the contract of a function that does nothing: a caller that
//! needs the law calls the function.

ghost use Rattle.std.specs.Prelude.{◌≡◌, ◌≢◌, ◌⊎◌, ℕ, List, true, false, slice_get, Some, Result, Err};
ghost use Rattle.std.specs.List.{fold, list_any};
ghost use Rattle.crash_base.specs.declared.numbers.BrickNo.{BrickNo};
ghost use Rattle.crash_base.specs.declared.numbers.Moment.{Moment};
ghost use Rattle.crash_base.specs.declared.numbers.SessionKey.{SessionKey};
ghost use Rattle.crash_base.specs.declared.numbers.Version.{Version};
ghost use Rattle.session_cookie.specs.declared.cookie.Cookie.{Cookie};
ghost use Rattle.session_cookie.specs.declared.cookie.Holder.{Holder};
ghost use Rattle.session_cookie.specs.Cookie.{AreHolders};
ghost use Rattle.ssm_frames.specs.declared.frame.Frame.{Frame};
ghost use Rattle.ssm_frames.specs.declared.frame.Frame.TheVariants.{Put, Found};
ghost use Rattle.ssm_frames.specs.Requests.{is_request};
ghost use Rattle.ssm_stub.specs.declared.ask.Ask.{Ask};
ghost use Rattle.ssm_stub.specs.declared.event.StubNext.TheVariants as next;
ghost use Rattle.ssm_stub.specs.declared.ear.Outcome.{Outcome};
ghost use Rattle.ssm_stub.specs.declared.ear.Outcome.TheVariants as ended;
ghost use Rattle.ssm_stub.specs.declared.ear.Ear.TheVariants.{Heard};
ghost use Rattle.ssm_stub.specs.declared.reply.ReadReply.{ReadReply};
ghost use Rattle.ssm_stub.specs.declared.reply.ReadReply.TheVariants as answer;
ghost use Rattle.ssm_stub.specs.declared.cause.BrickCause.{BrickCause};
ghost use Rattle.ssm_stub.specs.declared.cause.Cause.TheVariants as why;
ghost use Rattle.ssm_stub.specs.declared.read_call.ReadRefusal.{ReadRefusal};
ghost use Rattle.ssm_stub.specs.declared.read_call.ReadRefusal.TheVariants.{Lost};
ghost use Rattle.ssm_stub.specs.declared.write_call.WriteRefusal.{WriteRefusal};
ghost use Rattle.ssm_stub.specs.declared.write_call.WriteRefusal.TheVariants.{Missed};
ghost use Rattle.ssm_stub.specs.Reads.{ReadState, read_answer};
ghost use Rattle.ssm_stub.specs.Writes.{WriteState, write_answer, write_next};
ghost use Rattle.ssm_world.specs.declared.call.Call.{Call};
ghost use Rattle.ssm_world.specs.declared.call.Call.TheVariants as kind;
ghost use Rattle.ssm_world.specs.declared.event.WorldEvent.{WorldEvent};
ghost use Rattle.ssm_world.specs.Worlds.{WorldValue, hear, is_new, may_be_asked, bricks_of, new_world, step, may_happen, after};
ghost use Rattle.ssm_world.specs.Traces.{all_told};
ghost use Rattle.ssm_world.specs.Facts.{begins, frame_nonce};
ghost use Rattle.ssm_world.specs.Sound.{IsSound, RepliesSince, Grows};
ghost use Rattle.ssm_world.specs.Claims.{IsAcknowledged, NamesWhoStored, kept_for, Keeps, IsIntact, HeardAs, IsRight, ReadOrder, ReadAfter, WasMissed, read_world, told_since};

use ssm_stub::{an_outcome_of_a_get_has_its_events, answers_stay, each_hears_its_own};

/// An event that may not happen changes nothing.
pub fn events_that_may_not_happen_change_nothing()
    ensures { (w : WorldValue) (event : WorldEvent) → may_happen w event ≡ false → step w event ≡ w }
{}

/// An event that may happen changes the world.
pub fn events_that_may_happen_change_the_world()
    ensures { (w : WorldValue) (event : WorldEvent) → may_happen w event ≡ true → step w event ≢ w }
{}

/// A nonce that no call has stays new until a write or a read begins with it, whatever else happens and in
/// whatever order other nonces begin: so each nonce that was drawn is new until its call begins. It refuses
/// that a nonce counts as used once a later one began.
pub fn nonces_stay_new()
    ensures { (w : WorldValue) (events : List WorldEvent) (nonce : Version)
        → is_new w nonce ≡ true → list_any (begins nonce) events ≡ false → is_new (after w events) nonce ≡ true }
{}

/// Worlds only grow: a later world has each packet and each call of an earlier one, and the history of each
/// brick stands behind its newer events. A call has heard besides, in order, what the events since told it,
/// and nothing else. Each reply that was sent since was made since.
pub fn worlds_only_grow()
    ensures grows { (bricks : ℕ) (earlier later : List WorldEvent)
        → Grows (after (new_world bricks) earlier) (after (after (new_world bricks) earlier) later) }
    ensures calls { (bricks : ℕ) (earlier later : List WorldEvent) (place : ℕ) (call : Call)
        → slice_get (after (new_world bricks) earlier).calls place ≡ Some call
        → slice_get (after (after (new_world bricks) earlier) later).calls place
        ≡ Some (fold hear call (all_told (after (new_world bricks) earlier) place later)) }
    ensures replies { (bricks : ℕ) (earlier later : List WorldEvent)
        → RepliesSince (after (new_world bricks) earlier) (after (after (new_world bricks) earlier) later) }
{}

/// Every world is sound: no two calls have one nonce, each request is the ask of a call and was sent to a
/// brick that this call asks, each value that a brick ever stored is one that a write asked this brick to
/// keep, a write wants at least one and at most all of its bricks to store its value, and what calls heard
/// was sent. Each reply was made by its brick, at a moment of the brick's history, to a request that was sent
/// to it.
pub fn worlds_are_sound()
    ensures sound { (bricks : ℕ) (events : List WorldEvent) → IsSound (after (new_world bricks) events) }
    ensures replies { (bricks : ℕ) (events : List WorldEvent)
        → RepliesSince (new_world bricks) (after (new_world bricks) events) }
{}

/// Every Put of one version carries one value, under one key and with one expiry.
pub fn one_value_per_version()
    ensures { (bricks : ℕ) (events : List WorldEvent) (i j : ℕ) (a b : BrickNo) (m n : Version) (k l : SessionKey)
        (version : Version) (d e : Moment) (x y : List ℕ)
        → slice_get (after (new_world bricks) events).packets i ≡ Some (record { brick = a; frame = Put m k version d x })
        → slice_get (after (new_world bricks) events).packets j ≡ Some (record { brick = b; frame = Put n l version e y })
        → (k ≡ l) × (d ≡ e) × (x ≡ y) }
{}

/// Each holder of an acknowledged cookie has stored the value in the incarnation that the cookie names, and
/// holds it while it has that incarnation and no sweep since was late for it.
pub fn acknowledged_values_are_held()
    ensures { (bricks : ℕ) (events : List WorldEvent) (cookie : Cookie) (value : List ℕ) (place : ℕ) (holder : Holder)
        → IsAcknowledged (after (new_world bricks) events) cookie value → slice_get cookie.bricks place ≡ Some holder
        → Keeps (after (new_world bricks) events) holder (kept_for cookie value) }
{}

/// Whatever follows, an answer stays: a write may go on to hear bricks after it, but sends nothing more, and
/// a read hears nothing more.
pub fn answers_stay_in_later_worlds()
    ensures write { (bricks : ℕ) (earlier later : List WorldEvent) (place : ℕ) (write : WriteState)
        (answer : Result Cookie WriteRefusal)
        → slice_get (after (new_world bricks) earlier).calls place ≡ Some (kind.Write write)
        → write_answer write ≡ Some answer
        → (now : WriteState)
        × (slice_get (after (after (new_world bricks) earlier) later).calls place ≡ Some (kind.Write now))
        × (write_answer now ≡ Some answer) }
    ensures read { (bricks : ℕ) (earlier later : List WorldEvent) (place : ℕ) (read : ReadState)
        (answer : Result (List ℕ) ReadRefusal)
        → slice_get (after (new_world bricks) earlier).calls place ≡ Some (kind.Read read)
        → read_answer read ≡ Some answer
        → slice_get (after (after (new_world bricks) earlier) later).calls place ≡ Some (kind.Read read) }
    ensures sends { (bricks : ℕ) (events : List WorldEvent) (place : ℕ) (write : WriteState)
        (answer : Result Cookie WriteRefusal) (brick : BrickNo)
        → slice_get (after (new_world bricks) events).calls place ≡ Some (kind.Write write)
        → write_answer write ≡ Some answer → write_next write ≢ next.Send brick }
{
    answers_stay();
}

/// Whatever follows, a cookie that is acknowledged with a value stays so: a write may go on to hear bricks
/// after its answer, which stays.
pub fn acknowledged_cookies_stay_acknowledged()
    ensures { (bricks : ℕ) (earlier later : List WorldEvent) (cookie : Cookie) (value : List ℕ)
        → IsAcknowledged (after (new_world bricks) earlier) cookie value
        → IsAcknowledged (after (after (new_world bricks) earlier) later) cookie value }
{
    answers_stay();
}

/// An acknowledged cookie is that of a write that began among the world's events: it has the write's nonce as
/// version, its key and its expiry, and names the first `least` of its bricks of which the events since told
/// it a lawful Stored, in asked order, with the incarnations that these tell.
pub fn acknowledged_cookies_name_who_stored()
    ensures { (bricks : ℕ) (events : List WorldEvent) (cookie : Cookie) (value : List ℕ)
        → IsAcknowledged (after (new_world bricks) events) cookie value
        → NamesWhoStored bricks events cookie value }
{}

/// A write that is missed has its causes: fewer than `least` of its bricks told it a lawful Stored, and each
/// other brick has its cause, in asked order. A cause is Silent only where the link was silent to this write's
/// send to the brick or to its receiving from it, Strayed only where this write was given 64 frames of the brick
/// that are no lawful reply, and Full only where the brick told this write so and had no room for the value at a
/// time since the write began.
/// It refuses a cause of a brick that told this write a lawful Stored, and one that another call met.
pub fn missed_writes_have_causes()
    ensures { (bricks : ℕ) (events : List WorldEvent) (place : ℕ) (write : WriteState) (causes : List BrickCause)
        → slice_get (after (new_world bricks) events).calls place ≡ Some (kind.Write write)
        → write_answer write ≡ Some (Err (Missed causes))
        → WasMissed bricks events place write causes }
{}

/// An acknowledged cookie names 1 to 16 distinct bricks, so a read of it may begin with any new nonce.
pub fn acknowledged_cookies_may_be_read()
    ensures asked { (bricks : ℕ) (events : List WorldEvent) (cookie : Cookie) (value : List ℕ)
        → IsAcknowledged (after (new_world bricks) events) cookie value
        → may_be_asked (bricks_of cookie.bricks) ≡ true }
    ensures holders { (bricks : ℕ) (events : List WorldEvent) (cookie : Cookie) (value : List ℕ)
        → IsAcknowledged (after (new_world bricks) events) cookie value → AreHolders cookie.bricks }
{}

/// A read of a cookie that was acknowledged when the read began answers the acknowledged value, which a
/// holder gave to it in a lawful Found, where its moment is not past the expiry; or Expired, where it is; or
/// Lost, with the cause of each holder. A cause is Crashed only where the holder has crashed since it stored
/// the value, Swept only where it was swept past the lease and the grace since it stored the value, in the
/// incarnation that the cookie names, Silent only where the link was silent to this read's send to the holder or
/// to its receiving from it, and Strayed only where this read was given 64 frames of the holder that are no
/// lawful reply. The cause of an intact holder, which since it stored the value has neither crashed nor been
/// swept past the lease and the grace, is Silent or Strayed. What the read heard of each holder is the outcome
/// of what it was told of that holder. It refuses another value, and a cause that the holder or this read did
/// not meet.
pub fn reads_answer_what_was_written()
    ensures right { (bricks : ℕ) (earlier later : List WorldEvent) (order : ReadOrder) (value : List ℕ) (read : ReadState)
        (result : Result (List ℕ) ReadRefusal)
        → ReadAfter (after (new_world bricks) earlier) order value later read → read_answer read ≡ Some result
        → IsRight (read_world (after (new_world bricks) earlier) order later) order value
        (told_since (after (new_world bricks) earlier) order later) result }
    ensures heard { (bricks : ℕ) (earlier later : List WorldEvent) (order : ReadOrder) (value : List ℕ) (read : ReadState)
        (place : ℕ) (ask : Ask Holder ReadReply) (outcome : Outcome ReadReply)
        → ReadAfter (after (new_world bricks) earlier) order value later read
        → slice_get read.asks place ≡ Some ask → ask.ear ≡ Heard outcome
        → (slice_get order.cookie.bricks place ≡ Some ask.who)
        × HeardAs order ask.who (told_since (after (new_world bricks) earlier) order later ask.who) outcome }
    ensures intact { (bricks : ℕ) (earlier later : List WorldEvent) (order : ReadOrder) (value : List ℕ) (read : ReadState)
        (causes : List BrickCause) (place : ℕ) (holder : Holder) (cause : BrickCause)
        → ReadAfter (after (new_world bricks) earlier) order value later read → read_answer read ≡ Some (Err (Lost causes))
        → slice_get order.cookie.bricks place ≡ Some holder → slice_get causes place ≡ Some cause
        → IsIntact (read_world (after (new_world bricks) earlier) order later) holder (kept_for order.cookie value)
        → (cause.cause ≡ why.Silent) ⊎ (cause.cause ≡ why.Strayed) }
{
    each_hears_its_own();
    an_outcome_of_a_get_has_its_events();
}

/// A holder that is intact, neither crashed nor swept past the lease and the grace since it stored the value,
/// replies Found with the value to the read, and where the read has heard it, it has heard this, or the link
/// was silent to the read or gave it 64 strays. It refuses a brick that loses a value otherwise.
pub fn holders_answer_found()
    ensures replies { (bricks : ℕ) (earlier later : List WorldEvent) (order : ReadOrder) (value : List ℕ) (read : ReadState)
        (place packet : ℕ) (holder : Holder) (frame : Frame)
        → ReadAfter (after (new_world bricks) earlier) order value later read
        → slice_get order.cookie.bricks place ≡ Some holder
        → IsIntact (read_world (after (new_world bricks) earlier) order later) holder (kept_for order.cookie value)
        → slice_get (read_world (after (new_world bricks) earlier) order later).packets packet
        ≡ Some (record { brick = holder.brick; frame = frame })
        → is_request frame ≡ false → frame_nonce frame ≡ order.nonce
        → frame ≡ Found order.nonce order.cookie.key order.cookie.version holder.brick holder.incarnation order.cookie.expiry value }
    ensures heard { (bricks : ℕ) (earlier later : List WorldEvent) (order : ReadOrder) (value : List ℕ) (read : ReadState)
        (place : ℕ) (ask : Ask Holder ReadReply) (outcome : Outcome ReadReply)
        → ReadAfter (after (new_world bricks) earlier) order value later read
        → slice_get read.asks place ≡ Some ask → ask.ear ≡ Heard outcome
        → IsIntact (read_world (after (new_world bricks) earlier) order later) ask.who (kept_for order.cookie value)
        → HeardAs order ask.who (told_since (after (new_world bricks) earlier) order later ask.who) outcome
        × ((outcome ≡ ended.Answered (answer.Found value))
        ⊎ ((outcome ≡ ended.Silent) ⊎ (outcome ≡ ended.Strayed))) }
{
    each_hears_its_own();
    an_outcome_of_a_get_has_its_events();
}
