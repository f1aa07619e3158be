//! Laws of the way of a session. Each is the contract of a function that does nothing: a caller that needs the law
//! calls the function.

ghost use Rattle.std.specs.Prelude.{◌≡◌, ◌≢◌, ℕ, ◌+◌, ◌<◌, ◌≤◌, List, [], ◌∷◌, ◌++◌, length, map, true, false, Option, None, Some, Ok, Err, Result};
ghost use Rattle.std.specs.Option.{option_map};
ghost use Rattle.crash_base.specs.declared.numbers.Moment.{Moment};
ghost use Rattle.crash_base.specs.declared.numbers.Version.{Version};
ghost use Rattle.session_cookie.specs.declared.cookie.Cookie.{Cookie};
ghost use Rattle.session_cookie.specs.declared.cookie.TheConstants.{MAX_HOLDERS};
ghost use Rattle.session_cookie.specs.Cookie.{AreHolders};
ghost use Rattle.send_windows.specs.declared.history.WindowMark.TheVariants.{Spent};
ghost use Rattle.send_windows.specs.declared.pass.Pass.{Pass};
ghost use Rattle.send_windows.specs.declared.windows.TakeRefusal.{TakeRefusal};
ghost use Rattle.send_windows.specs.Passes.{AreHeard, HaveDistinctBricks};
ghost use Rattle.send_windows.specs.Windows.{WindowsValue, after_spend, chosen};
ghost use Rattle.ssm_frames.specs.declared.frame.Frame.TheVariants.{Put};
ghost use Rattle.ssm_frames.specs.Spelling.{encode_of};
ghost use Rattle.ssm_stub.specs.declared.cause.BrickCause.{BrickCause};
ghost use Rattle.ssm_stub.specs.declared.read_call.ReadRefusal.{ReadRefusal};
ghost use Rattle.ssm_stub.specs.declared.read_call.ReadRefusal.TheVariants.{Expired, Lost};
ghost use Rattle.ssm_stub.specs.declared.read_call.ReadRefusal.TheVariants as read_refusal;
ghost use Rattle.ssm_stub.specs.declared.write_call.WriteRefusal.{WriteRefusal};
ghost use Rattle.ssm_stub.specs.declared.write_call.WriteRefusal.TheVariants.{Missed};
ghost use Rattle.ssm_stub.specs.declared.write_call.WriteRefusal.TheVariants as write_refusal;
ghost use Rattle.ssm_stub.specs.Counted.{AreCounted};
ghost use Rattle.ssm_stub.specs.Ends.{ReadEnds, WriteEnds, bricks_of};
ghost use Rattle.ssm_stub.specs.Outcomes.{IsLost, IsMissed, IsRead, IsWritten};
ghost use Rattle.ssm_stub.specs.declared.event.Told.{Told};
ghost use Rattle.ssm_stub.specs.Reads.{ReadState, hear_read, read_answer, read_ask, read_machine, read_start};
ghost use Rattle.ssm_stub.specs.Runs.{Steps};
ghost use Rattle.ssm_stub.specs.Writes.{WriteState, heard_passes, pass_of, write_answer, write_machine};
ghost use Rattle.session_way.specs.declared.lease.SessionLease.{SessionLease};
ghost use Rattle.session_way.specs.declared.session_write.WriteOrder.{WriteOrder};
ghost use Rattle.session_way.specs.declared.way.SessionWay.{SessionWay};
ghost use Rattle.session_way.specs.declared.way.SessionWay.TheVariants.{Holding, Reading, Resting, Settling, Writing};
ghost use Rattle.session_way.specs.declared.way.Wants.TheVariants as wanted;
ghost use Rattle.session_way.specs.Lease.{expiry_at, value_to_write, wants_write};
ghost use Rattle.session_way.specs.Reading.{cookie_asked};
ghost use Rattle.session_way.specs.Marks.{marks_by, owed, refusal_marks, spends, takes};
ghost use Rattle.session_way.specs.Runs.{HasRead, HasSettled, HasWritten};
ghost use Rattle.session_way.specs.Way.{IsHolding, IsRefused, IsTaken, OnHeld, StepsOutside, StepsWindows, after_give_back, answer_held, held, passes_for, settled, wants};
ghost use Rattle.session_way.specs.Writing.{IsBegunOf, WritingState, passes_spent, write_begun};

use outside::Link;
use ssm_stub::{
    causes_are_counted, lost_reads_have_causes, missed_writes_have_causes, read_values_were_found,
    runs_join, written_cookies_name_who_stored,
};

/// A session lasts half an hour. It is written where the action sets its value; and where the action keeps it, exactly
/// where it was read and less than a quarter of an hour is left: 899,999 ms are little enough, and 900,000 are not.
/// What is written is what the action sets, and else what was read. This refuses a renewal at each request, and one
/// that never comes.
pub fn sessions_are_renewed()
    ensures lease { (now : Moment) → (expiry_at now).0 ≡ now.0 + 1800000 }
    ensures set { (value : List ℕ) (now : Moment) (lease : Option SessionLease)
        → (wants_write (Some value) now lease ≡ true) × (value_to_write (Some value) now lease ≡ Some value) }
    ensures nobody { (now : Moment) → (wants_write None now None ≡ false) × (value_to_write None now None ≡ None) }
    ensures due { (now : Moment) (lease : SessionLease) → lease.expiry.0 ≤ now.0 + 899999
        → (wants_write None now (Some lease) ≡ true) × (value_to_write None now (Some lease) ≡ Some lease.value) }
    ensures early { (now : Moment) (lease : SessionLease) → now.0 + 900000 ≤ lease.expiry.0
        → (wants_write None now (Some lease) ≡ false) × (value_to_write None now (Some lease) ≡ None) }
{}

/// Steps that follow each other without a gap are one run of what began: of a read; of a write up to its answer; and of
/// a write that is settled, where the run goes on beyond that. It refuses a step that forgets a call of the link.
pub fn runs_go_on<L: Link>(link: &L)
    ensures read_begins { (start : ReadState) (l : L) → HasRead L.makes start l start l }
    ensures read { (start here after : ReadState) (old mid new : L) → HasRead L.makes start old here mid
        → Steps read_machine L.makes (encode_of (read_ask here)) here mid after new
        → HasRead L.makes start old after new }
    ensures write_begins { (start : WriteState) (l : L) → HasWritten L.makes start l start l }
    ensures write { (passes : List Pass) (start here after : WriteState) (old mid new : L)
        → HasWritten L.makes start old here mid
        → wants (Writing (record { write = here; passes = passes })) ≡ wanted.Outside
        → Steps write_machine L.makes (encode_of here.ask) here mid after new
        → HasWritten L.makes start old after new }
    ensures settle_begins { (start here : WriteState) (old new : L) → HasWritten L.makes start old here new
        → HasSettled L.makes start old here new }
    ensures settle { (start here after : WriteState) (old mid new : L) → HasSettled L.makes start old here mid
        → Steps write_machine L.makes (encode_of here.ask) here mid after new
        → HasSettled L.makes start old after new }
{
    runs_join(link);
}

/// A read with an answer has ended as a call of `ssm_stub::read` ends with this answer, and a write with an answer as a
/// call of `ssm_stub::write`; so the laws of these say what it means. A value that was read came in a lawful Found of a
/// brick that the cookie names. A read has expired exactly where its moment is past the expiry of its cookie, and then
/// the link was not touched. Where it is lost, each brick of the cookie has its cause. A cookie names the first bricks
/// that gave a lawful Stored, as many as are to store the value, so it may be read; and these are as many as the
/// windows give at least. Where a write is missed, fewer did, and each other brick has its cause. The link has counted
/// what causes say.
pub fn ways_end_as_calls_do<L: Link>(link: &L)
    ensures read { (now : Moment) (nonce : Version) (cookie : Cookie) (here : ReadState) (old new : L)
        (answer : Result (List ℕ) ReadRefusal)
        → HasRead L.makes (read_start now nonce cookie) old here new → read_answer here ≡ Some answer
        → ReadEnds L.makes (read_start now nonce cookie) old new answer }
    ensures expired { (now : Moment) (nonce : Version) (cookie : Cookie) (here : ReadState) (old new : L)
        → HasRead L.makes (read_start now nonce cookie) old here new → cookie.expiry.0 < now.0
        → (read_answer here ≡ Some (Err (Expired now cookie.expiry))) × (old ≡ new) }
    ensures expired_only { (now : Moment) (nonce : Version) (cookie : Cookie) (here : ReadState) (old new : L)
        (at expiry : Moment)
        → HasRead L.makes (read_start now nonce cookie) old here new
        → read_answer here ≡ Some (Err (Expired at expiry)) → cookie.expiry.0 < now.0 }
    ensures found { (now : Moment) (nonce : Version) (cookie : Cookie) (here : ReadState) (old new : L)
        (value : List ℕ)
        → AreHolders cookie.bricks → HasRead L.makes (read_start now nonce cookie) old here new
        → read_answer here ≡ Some (Ok value)
        → IsRead L.makes nonce cookie old new value }
    ensures lost { (now : Moment) (nonce : Version) (cookie : Cookie) (here : ReadState) (old new : L)
        (causes : List BrickCause)
        → AreHolders cookie.bricks → HasRead L.makes (read_start now nonce cookie) old here new
        → read_answer here ≡ Some (Err (Lost causes))
        → IsLost L.makes nonce cookie old new causes × AreCounted (L.tally old) (L.tally new) causes }
    ensures write { (order : WriteOrder) (least : ℕ) (passes : List Pass) (here : WriteState) (old new : L)
        (answer : Result Cookie WriteRefusal)
        → HasWritten L.makes (write_begun order least passes).write old here new → write_answer here ≡ Some answer
        → WriteEnds L.makes (write_begun order least passes).write old new (map pass_of here.asks) answer }
    ensures written { (order : WriteOrder) (least : ℕ) (passes : List Pass) (here : WriteState) (old new : L)
        (cookie : Cookie)
        → HaveDistinctBricks passes → HasWritten L.makes (write_begun order least passes).write old here new
        → write_answer here ≡ Some (Ok cookie)
        → IsWritten L.makes (bricks_of passes) least order.nonce order.key order.expiry old new cookie }
    ensures holders { (order : WriteOrder) (least : ℕ) (passes : List Pass) (here : WriteState) (old new : L)
        (cookie : Cookie)
        → HaveDistinctBricks passes → 1 ≤ least → least ≤ MAX_HOLDERS
        → HasWritten L.makes (write_begun order least passes).write old here new
        → write_answer here ≡ Some (Ok cookie)
        → AreHolders cookie.bricks }
    ensures many { (order : WriteOrder) (windows taken : WindowsValue) (w : WritingState) (here : WriteState)
        (old new : L) (cookie : Cookie)
        → IsTaken order windows (Writing w) taken → HasWritten L.makes w.write old here new
        → write_answer here ≡ Some (Ok cookie)
        → length cookie.bricks ≡ windows.wq }
    ensures missed { (order : WriteOrder) (least : ℕ) (passes : List Pass) (here : WriteState) (old new : L)
        (causes : List BrickCause)
        → HaveDistinctBricks passes → HasWritten L.makes (write_begun order least passes).write old here new
        → write_answer here ≡ Some (Err (Missed causes))
        → IsMissed L.makes (bricks_of passes) least order.nonce order.key old new causes
        × AreCounted (L.tally old) (L.tally new) causes }
{
    read_values_were_found(link);
    lost_reads_have_causes(link);
    written_cookies_name_who_stored(link);
    missed_writes_have_causes(link);
    causes_are_counted(link);
}

/// Where nothing is wanted for a read or a write, it has its answer; so has a write whose passes are to be spent, since
/// all its bricks were heard. What is handed on where passes are spent is the answer of their write, and it stays while
/// the response leaves. No answer is that memory was wanted.
pub fn ways_have_answers()
    ensures settle { (way : SessionWay) → answer_held (settled way) ≡ answer_held way }
    ensures read { (here : ReadState) → wants (Reading here) ≡ wanted.Nothing → read_answer here ≢ None }
    ensures write { (w : WritingState) → wants (Writing w) ≡ wanted.Nothing → write_answer w.write ≢ None }
    ensures settled { (w : WritingState) → wants (Settling w) ≡ wanted.Windows → write_answer w.write ≢ None }
    ensures handed { (w : WritingState)
        → (answer_held (Writing w) ≡ write_answer w.write) × (answer_held (Settling w) ≡ write_answer w.write) }
    ensures read_memory { (here : ReadState) → read_answer here ≢ Some (Err read_refusal.OutOfMemory) }
    ensures write_memory { (here : WriteState) → write_answer here ≢ Some (Err write_refusal.OutOfMemory) }
{}

/// What a write sends to each brick is the value of its order, under its key, as the version that its nonce names,
/// until its expiry; and its passes are chosen from the serial of its nonce on. It refuses a write that sends something
/// else, or that asks the first bricks each time.
pub fn writes_follow_their_orders()
    ensures sent { (order : WriteOrder) (old new : WindowsValue) (w : WritingState)
        → IsTaken order old (Writing w) new
        → w.write.ask ≡ Put order.nonce order.key order.nonce order.expiry order.value }
    ensures passes { (order : WriteOrder) (old new : WindowsValue) (w : WritingState)
        → IsTaken order old (Writing w) new → w.passes ≡ chosen old order.nonce.serial }
    ensures bricks { (order : WriteOrder) (old new : WindowsValue) (w : WritingState)
        → IsTaken order old (Writing w) new → map (λ ask. ask.who) w.write.asks ≡ bricks_of w.passes }
{}

/// The cookie that a read tells is that by which it was begun, whatever it has heard since; and the order that a write
/// tells is that of which it was begun. So the same call can be begun elsewhere. It refuses a copy that leaves out a
/// holder.
pub fn ways_tell_how_they_began()
    ensures read { (now : Moment) (nonce : Version) (cookie : Cookie)
        → cookie_asked (read_start now nonce cookie) ≡ cookie }
    ensures read_stays { (here : ReadState) (told : Told) → cookie_asked (hear_read here told) ≡ cookie_asked here }
    ensures write { (order copy : WriteOrder) (least : ℕ) (passes : List Pass)
        → IsBegunOf copy (write_begun order least passes).write → copy ≡ order }
{}

/// No pass is lost on the way: those that were taken are held, each brick once and in their order, whatever steps are
/// made outside, and while the response leaves, and where the write is taken apart; a step of the windows spends just
/// those that are held, and holds none after; and none of those that are given back is unheard. It refuses a step that
/// loses a pass, or adds one.
pub fn no_pass_is_lost<L: Link>(_link: &L)
    ensures taken { (order : WriteOrder) (old new : WindowsValue) (way : SessionWay)
        → IsTaken order old way new → option_map bricks_of (held way) ≡ Some (bricks_of (passes_for order old)) }
    ensures holding { (order : WriteOrder) (old new : WindowsValue) (way : SessionWay)
        → IsHolding order old way new → option_map bricks_of (held way) ≡ Some (bricks_of (passes_for order old)) }
    ensures step { (old new : L) (way after : SessionWay) → StepsOutside L.makes way old after new
        → option_map bricks_of (held after) ≡ option_map bricks_of (held way) }
    ensures settle { (way : SessionWay) → held (settled way) ≡ held way }
    ensures apart { (w : WritingState) → held (Holding (passes_spent w)) ≡ held (Writing w) }
    ensures spent { (old new : WindowsValue) (way after : SessionWay) (passes : List Pass)
        → StepsWindows way old after new → held way ≡ Some passes
        → (new ≡ after_spend old passes) × (held after ≡ None) }
    ensures back { (windows : WindowsValue) (passes : List Pass)
        → after_give_back windows (Some passes) ≡ after_spend windows passes }
    ensures nothing { (windows : WindowsValue) → after_give_back windows None ≡ windows }
    ensures heard { (way : SessionWay) → OnHeld AreHeard (held way) }
{}

/// Passes are held between the mark that they were taken and the mark that they were spent, and in each step the
/// history grows by just these marks. So a way that holds passes owes one Spent, and no other way owes any: takes and
/// what was owed are as many as spends and what is owed. It refuses a step that leaves a mark out, or puts one twice.
pub fn takes_are_spent_once<L: Link>(_link: &L)
    ensures step { (old new : WindowsValue) (way after : SessionWay) → StepsWindows way old after new
        → new.history ≡ old.history ++ marks_by way after }
    ensures refused { (old new : WindowsValue) (way after : SessionWay) (refusal : TakeRefusal)
        → IsRefused way old after new refusal → new.history ≡ old.history ++ refusal_marks refusal way after }
    ensures back { (windows : WindowsValue) (way : SessionWay)
        → (after_give_back windows (held way)).history ≡ windows.history ++ marks_by way Resting }
    ensures outside { (old new : L) (way after : SessionWay) → StepsOutside L.makes way old after new
        → marks_by way after ≡ [] }
    ensures settle { (way : SessionWay) → marks_by way (settled way) ≡ [] }
    ensures once { (way : SessionWay) (passes : List Pass) → held way ≡ Some passes
        → marks_by way Resting ≡ Spent ∷ [] }
    ensures balance { (way after : SessionWay)
        → takes (marks_by way after) + owed (held way) ≡ spends (marks_by way after) + owed (held after) }
{}

/// A write whose bricks were all heard gives each of its passes back by what was heard of the pass's own brick: none is
/// counted as Silent because it was not heard. So does one whose response has left, once its passes are to be spent. It
/// refuses a way that spends passes before its write is settled.
pub fn settled_passes_are_heard<L: Link>(_link: &L)
    ensures settling { (order : WriteOrder) (least : ℕ) (passes : List Pass) (here : WriteState) (old new : L)
        → HasSettled L.makes (write_begun order least passes).write old here new
        → wants (Settling (record { write = here; passes = passes })) ≡ wanted.Windows
        → passes_spent (record { write = here; passes = passes }) ≡ heard_passes here passes }
    ensures left { (order : WriteOrder) (least : ℕ) (passes : List Pass) (here : WriteState) (old new : L)
        → HasSettled L.makes (write_begun order least passes).write old here new
        → wants (settled (Writing (record { write = here; passes = passes }))) ≡ wanted.Windows
        → held (settled (Writing (record { write = here; passes = passes }))) ≡ Some (heard_passes here passes) }
{}
