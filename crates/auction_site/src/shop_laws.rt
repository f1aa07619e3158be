//! Laws of the shop in its users' words: when actions are accepted and refused, whose the session is, which
//! components they enter, and the limits. Each is the contract of a function that does nothing: a caller that needs the
//! law calls the function.

ghost use Rattle.std.specs.Prelude.{◌≡◌, ◌≢◌, ◌↔◌, ℕ, ◌+◌, ◌-◌, ◌^◌, ◌≤◌, Bool, true, false, List, [], ◌∷◌, ◌++◌, All, Some, Ok, Err};
ghost use Rattle.sha2.specs.Sha256.{sha256};
ghost use Rattle.crash_base.specs.declared.rows.RowWrite.{RowWrite};
ghost use Rattle.crash_base.specs.Rows.{put_all};
ghost use Rattle.action_plans.specs.declared.plan.Outcome.{Outcome};
ghost use Rattle.journal_model.specs.declared.entry.DoneText.{DoneText};
ghost use Rattle.journal_model.specs.declared.entry.SessionChange.TheVariants.{Keep};
ghost use Rattle.call_ticket.specs.declared.next.Answer.{Answer};
ghost use Rattle.call_ticket.specs.declared.next.Answer.TheVariants.{Entered};
ghost use Rattle.call_ticket.specs.declared.next.Next.TheVariants as next;
ghost use Rattle.auction_calls.specs.declared.action.Action.TheVariants.{Register, SignIn, SignOut, AddCategory, Sell, Bid, Buy, Close, Feedback, Form};
ghost use Rattle.auction_calls.specs.declared.action.ActionCall.{ActionCall};
ghost use Rattle.auction_calls.specs.declared.action.FormKind.{FormKind};
ghost use Rattle.auction_calls.specs.Calls.{is_call, is_user_name};
ghost use Rattle.auction_rows.specs.declared.rows.ItemRow.{ItemRow};
ghost use Rattle.auction_rows.specs.declared.rows.ItemState.TheVariants.{Sold};
ghost use Rattle.auction_rows.specs.declared.rows.NameRow.{NameRow};
ghost use Rattle.auction_rows.specs.declared.rows.UserRow.{UserRow};
ghost use Rattle.auction_rows.specs.Ids.{name_id, user_id, users_counter};
ghost use Rattle.auction_rows.specs.Parts.{site_parts};
ghost use Rattle.auction_rows.specs.Reading.{name_of, user_of};
ghost use Rattle.auction_rows.specs.Spelling.{u64_bytes};
ghost use Rattle.auction_rules.specs.declared.refusal.RuleRefusal.TheVariants.{AlreadyGiven, BidTooLow};
ghost use Rattle.auction_rules.specs.Rules.{bid_refusal, feedback_refusal, IsOnASide, IsRunning};
ghost use Rattle.auction_site.specs.declared.limits.TheConstants.{LAST_NUMBER, LAST_BID, LAST_FEEDBACK, HOUR, CATEGORY_EDITOR, PAGE_ITEMS};
ghost use Rattle.auction_site.specs.Actions.{meaning, offer_of, site, steps_of};
ghost use Rattle.auction_site.specs.Answers.{wrong_password};
ghost use Rattle.auction_site.specs.Coherent.{row_at};
ghost use Rattle.auction_site.specs.Done.{IsOver};
ghost use Rattle.auction_site.specs.Outcomes.{registered, category_added, offered, bid_made, bought, closed, after_close, feedback_given, signed_in, sold_to, with_bid, with_given};
ghost use Rattle.call_ticket.specs.Repeated.{may_repeat};
ghost use Rattle.auction_site.specs.Reached.{reach_of, stays_within};
ghost use Rattle.auction_site.specs.Sessions.{SetsSession, leaves_session};
ghost use Rattle.auction_site.specs.Accepted.{Counts, MayRegister, MaySignIn, MayAddCategory, MaySell, MayBid, MayBuy, MayClose, MayGiveFeedback};
ghost use Rattle.auction_site.specs.Written.{HaveBytes, SpellsARow};

use auction_rules::{
    bid_refusals_are_exact, buy_refusals_are_exact, close_refusals_are_exact,
    feedback_refusals_are_exact,
};

/// A side that gave feedback is refused a second one; the other side may do what it might before. A bid on an item
/// that was bought or closed, a purchase of it and its seller's close are refused. A bid of no more than the last, on
/// an item that is running and another's, is too low.
pub fn what_was_done_is_refused()
    ensures feedback { (item : ItemRow) (user : ℕ) → item.state ≡ Sold → IsOnASide item user →
        feedback_refusal (with_given item user) user ≡ Some AlreadyGiven }
    ensures other { (item : ItemRow) (user other : ℕ) → IsOnASide item user → other ≢ user →
        feedback_refusal (with_given item user) other ≡ feedback_refusal item other }
    ensures bought { (item : ItemRow) (buyer : ℕ) → IsOver (sold_to item buyer) }
    ensures closed { (item : ItemRow) → IsOver (after_close item) }
    ensures low { (item : ItemRow) (bidder amount user next now : ℕ) → IsRunning item now →
        item.seller ≢ user → next ≤ amount →
        bid_refusal (with_bid item bidder amount) user next now ≡ Some BidTooLow }
{}

/// Over the rows that registering leaves, the user of the next number is there, and is counted. Over these rows any
/// call signs in with the name and the password, and none with a password of another digest. The digest is that of
/// the salt and the password, and the salt is the call's random number. The rows have no more of the password: with
/// another one of the same digest they are the same.
pub fn who_registers_signs_in()
    ensures kept { (call : ActionCall) (name password : List ℕ) (users : ℕ) (rows : List RowWrite) (outcome : Outcome) →
        is_user_name name ≡ true → meaning call (Register name password) rows ≡ Ok outcome →
        Counts rows users_counter users →
        (user : UserRow) × (row_at (put_all outcome.writes rows) user_of (user_id (users + 1)) ≡ Some user)
        × (user.name ≡ name) × (user.salt ≡ u64_bytes call.fresh)
        × (user.digest ≡ sha256 (u64_bytes call.fresh ++ password)) }
    ensures counted { (call : ActionCall) (name password : List ℕ) (users : ℕ) (rows : List RowWrite) (outcome : Outcome) →
        meaning call (Register name password) rows ≡ Ok outcome → Counts rows users_counter users →
        Counts (put_all outcome.writes rows) users_counter (users + 1) }
    ensures right { (call later : ActionCall) (name password : List ℕ) (users : ℕ) (rows : List RowWrite) (outcome : Outcome) →
        is_user_name name ≡ true → meaning call (Register name password) rows ≡ Ok outcome →
        Counts rows users_counter users →
        meaning later (SignIn name password) (put_all outcome.writes rows) ≡ Ok (signed_in name later.now.0 (users + 1)) }
    ensures wrong { (call later : ActionCall) (name password other : List ℕ) (rows : List RowWrite) (outcome : Outcome) →
        is_user_name name ≡ true → meaning call (Register name password) rows ≡ Ok outcome →
        sha256 (u64_bytes call.fresh ++ other) ≢ sha256 (u64_bytes call.fresh ++ password) →
        meaning later (SignIn name other) (put_all outcome.writes rows) ≡ Err wrong_password }
    ensures hidden { (call : ActionCall) (name password other : List ℕ) (rows : List RowWrite) →
        sha256 (u64_bytes call.fresh ++ other) ≡ sha256 (u64_bytes call.fresh ++ password) →
        meaning call (Register name other) rows ≡ meaning call (Register name password) rows }
{}

/// After registering and after signing in the session is that of the user, set at the moment of the call, and after
/// signing out that of nobody. Whoever is not signed in and asks for a form gets a session of nobody. Every other
/// answer, and every refusal, leaves the session as it is.
pub fn sessions_are_of_users()
    ensures register { (call : ActionCall) (name password : List ℕ) (users : ℕ) (rows : List RowWrite) (outcome : Outcome) →
        meaning call (Register name password) rows ≡ Ok outcome → Counts rows users_counter users →
        SetsSession outcome.done (users + 1) call.now.0 }
    ensures sign_in { (call : ActionCall) (name password : List ℕ) (rows : List RowWrite) (outcome : Outcome) (found : NameRow) →
        meaning call (SignIn name password) rows ≡ Ok outcome →
        row_at rows name_of (name_id name) ≡ Some found → SetsSession outcome.done found.user call.now.0 }
    ensures sign_out { (call : ActionCall) (rows : List RowWrite) → call.action ≡ SignOut →
        SetsSession (site call rows).done 0 call.now.0 }
    ensures form { (call : ActionCall) (rows : List RowWrite) (kind : FormKind) → call.action ≡ Form kind →
        call.user ≡ 0 → SetsSession (site call rows).done 0 call.now.0 }
    ensures others { (call : ActionCall) (rows : List RowWrite) → leaves_session call call.action ≡ true →
        (site call rows).done.session ≡ Keep }
    ensures refused { (call : ActionCall) (rows : List RowWrite) (done : DoneText) →
        meaning call call.action rows ≡ Err done → done.session ≡ Keep }
{}

/// Signing in and each action that writes are accepted exactly where they may be, and come to just their outcome.
pub fn actions_are_accepted()
    ensures sign_in { (call : ActionCall) (name password : List ℕ) (rows : List RowWrite) (outcome : Outcome) →
        (meaning call (SignIn name password) rows ≡ Ok outcome) ↔ ((found : NameRow) × (user : UserRow)
        × MaySignIn rows name password found user × (outcome ≡ signed_in name call.now.0 found.user)) }
    ensures register { (call : ActionCall) (name password : List ℕ) (rows : List RowWrite) (outcome : Outcome) →
        (meaning call (Register name password) rows ≡ Ok outcome) ↔ ((users : ℕ) × MayRegister rows name users
        × (outcome ≡ registered name password call.fresh call.now.0 (users + 1))) }
    ensures add_category { (call : ActionCall) (name : List ℕ) (rows : List RowWrite) (outcome : Outcome) →
        (meaning call (AddCategory name) rows ≡ Ok outcome) ↔ ((categories : ℕ)
        × MayAddCategory rows call.user categories × (outcome ≡ category_added name (categories + 1))) }
    ensures sell { (call : ActionCall) (title : List ℕ) (category start buy_now hours : ℕ) (rows : List RowWrite) (outcome : Outcome) →
        (meaning call (Sell title category start buy_now hours) rows ≡ Ok outcome)
        ↔ ((items entries : ℕ) × (user : UserRow)
        × MaySell rows call.user (offer_of title category start buy_now hours) items entries user
        × (outcome ≡ offered call.user call.now.0 (offer_of title category start buy_now hours) (items + 1) (entries + 1) user)) }
    ensures bid { (call : ActionCall) (number amount : ℕ) (rows : List RowWrite) (outcome : Outcome) →
        (meaning call (Bid number amount) rows ≡ Ok outcome) ↔ ((item : ItemRow)
        × MayBid rows call.user call.now.0 number amount item
        × (outcome ≡ bid_made call.user call.now.0 number amount item)) }
    ensures buy { (call : ActionCall) (number : ℕ) (rows : List RowWrite) (outcome : Outcome) →
        (meaning call (Buy number) rows ≡ Ok outcome) ↔ ((item : ItemRow)
        × MayBuy rows call.user call.now.0 number item × (outcome ≡ bought call.user number item)) }
    ensures close { (call : ActionCall) (number : ℕ) (rows : List RowWrite) (outcome : Outcome) →
        (meaning call (Close number) rows ≡ Ok outcome) ↔ ((item : ItemRow)
        × MayClose rows call.user number item × (outcome ≡ closed number item)) }
    ensures feedback { (call : ActionCall) (number : ℕ) (good : Bool) (text : List ℕ) (rows : List RowWrite) (outcome : Outcome) →
        (meaning call (Feedback number good text) rows ≡ Ok outcome) ↔ ((item : ItemRow) × (about : UserRow)
        × MayGiveFeedback rows call.user number item about
        × (outcome ≡ feedback_given call.user number good text item about)) }
{
    bid_refusals_are_exact();
    buy_refusals_are_exact();
    close_refusals_are_exact();
    feedback_refusals_are_exact();
}

/// The limits of the shop, and what an hour is in milliseconds.
pub fn limits_are()
    ensures numbers { LAST_NUMBER ≡ 2 ^ 32 - 1 }
    ensures bids { LAST_BID ≡ 2 ^ 20 - 1 }
    ensures feedback { LAST_FEEDBACK ≡ 2 ^ 20 - 1 }
    ensures hour { HOUR ≡ 3600000 }
    ensures editor { CATEGORY_EDITOR ≡ 1 }
    ensures page { PAGE_ITEMS ≡ 16 }
{}

/// Right after Web a bid enters Bids, a close Purchases and feedback Feedback, each by the method `call`, and a
/// purchase enters Purchases by its method `buy`.
pub fn actions_go_through_their_components()
    ensures bid { (call : ActionCall) (item amount : ℕ) → call.action ≡ Bid item amount →
        steps_of call (Entered ∷ []) ≡ next.Enter (record { 0 = 5 }) 0 }
    ensures buy { (call : ActionCall) (item : ℕ) → call.action ≡ Buy item →
        steps_of call (Entered ∷ []) ≡ next.Enter (record { 0 = 6 }) 1 }
    ensures close { (call : ActionCall) (item : ℕ) → call.action ≡ Close item →
        steps_of call (Entered ∷ []) ≡ next.Enter (record { 0 = 6 }) 0 }
    ensures feedback { (call : ActionCall) (item : ℕ) (good : Bool) (text : List ℕ) → call.action ≡ Feedback item good text →
        steps_of call (Entered ∷ []) ≡ next.Enter (record { 0 = 7 }) 0 }
{}

/// Each step of a call, after whatever answers, enters a component, or reads, lists or puts a row of a table, that the
/// action may (`reach_of`, which has them for each action), and no other.
pub fn actions_stay_within_their_reach()
    ensures { (call : ActionCall) (answers : List Answer) →
        stays_within (reach_of call.action) (steps_of call answers) ≡ true }
{}

/// A purchase enters a component by a method that may not be called again, right after Web, and no other action
/// enters one so.
pub fn only_buying_is_not_repeated()
    ensures buy { (call : ActionCall) (item : ℕ) → call.action ≡ Buy item →
        may_repeat site_parts (steps_of call (Entered ∷ [])) ≡ false }
    ensures others { (call : ActionCall) (answers : List Answer) → ((item : ℕ) → call.action ≢ Buy item) →
        may_repeat site_parts (steps_of call answers) ≡ true }
{}

/// Each write of a call spells a row of its table, over any rows of bytes. The rows after the call are rows
/// of bytes too, so that the law can be used of the next call.
pub fn writes_are_rows()
    ensures spelled { (call : ActionCall) (rows : List RowWrite) → is_call call ≡ true → HaveBytes rows →
        All SpellsARow (site call rows).writes }
    ensures bytes { (call : ActionCall) (rows : List RowWrite) → is_call call ≡ true → HaveBytes rows →
        HaveBytes (put_all (site call rows).writes rows) }
{}
