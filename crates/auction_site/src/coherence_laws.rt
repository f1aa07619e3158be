//! Laws of coherent rows. Each is the contract of a function that does nothing: a caller that needs the law
//! calls the function.

ghost use Rattle.std.specs.Prelude.{◌≡◌, ◌≢◌, ◌↔◌, ◌≤◌, ℕ, List, [], ◌∷◌, ◌++◌, Some, true, Err};
ghost use Rattle.crash_base.specs.declared.rows.RowWrite.{RowWrite};
ghost use Rattle.crash_base.specs.declared.row_id.TheConstants.{SERVICE_TABLE};
ghost use Rattle.crash_base.specs.Rows.{put, put_all};
ghost use Rattle.journal_model.specs.declared.entry.CommitEntry.{CommitEntry};
ghost use Rattle.journal_model.specs.declared.entry.Entry.{Entry};
ghost use Rattle.journal_model.specs.declared.entry.Entry.TheVariants.{Commit};
ghost use Rattle.journal_model.specs.Legal.{IsCurrent};
ghost use Rattle.journal_model.specs.Rows.{rows_after};
ghost use Rattle.journal_model.specs.Snapshots.{snapshot};
ghost use Rattle.auction_calls.specs.declared.action.Action.TheVariants.{Bid};
ghost use Rattle.auction_calls.specs.declared.action.ActionCall.{ActionCall};
ghost use Rattle.auction_calls.specs.Calls.{is_call};
ghost use Rattle.auction_rows.specs.declared.rows.BidRow.{BidRow};
ghost use Rattle.auction_rows.specs.declared.rows.ItemRow.{ItemRow};
ghost use Rattle.auction_rows.specs.declared.rows.ItemState.TheVariants.{Closed, Sold};
ghost use Rattle.auction_rows.specs.Ids.{item_id};
ghost use Rattle.auction_rows.specs.Reading.{item_of};
ghost use Rattle.auction_rules.specs.declared.refusal.RuleRefusal.TheVariants.{BidTooLow};
ghost use Rattle.auction_rules.specs.Rules.{bid_refusal, is_running};
ghost use Rattle.auction_site.specs.Actions.{meaning, site};
ghost use Rattle.auction_site.specs.Answers.{rule_answer};
ghost use Rattle.auction_site.specs.Coherent.{row_at, AgreeOnItems, IsCoherent, IsGreatestBid, IsTooLowFor};
ghost use Rattle.auction_site.specs.Meant.{IsMade};
ghost use Rattle.auction_site.specs.Outcomes.{after_close};
ghost use Rattle.auction_site.specs.Accepted.{BidsTooLow};

use auction_rules::{bid_refusals_are_exact, running_is_exact};

/// The empty list of rows is coherent. So are rows that agree with coherent ones on items, bids and the counter of
/// items, and coherent rows after a put of a row of the service's own table, as a boot puts its number. Each call
/// leaves coherent rows coherent, and so does its commit that is appended to a journal.
pub fn actions_keep_rows_coherent()
    ensures empty { IsCoherent [] }
    ensures alike { (rows others : List RowWrite) → AgreeOnItems rows others → IsCoherent rows → IsCoherent others }
    ensures service { (rows : List RowWrite) (w : RowWrite) → w.id.table ≡ SERVICE_TABLE → IsCoherent rows →
        IsCoherent (put w rows) }
    ensures action { (call : ActionCall) (rows : List RowWrite) → is_call call ≡ true →
        IsCoherent rows → IsCoherent (put_all (site call rows).writes rows) }
    ensures entry { (base : List RowWrite) (es : List Entry) (entry : CommitEntry) →
        IsCurrent base es entry → IsMade (snapshot base es entry.at.0) entry →
        IsCoherent (rows_after base es) → IsCoherent (rows_after base (es ++ Commit entry ∷ [])) }
{}

/// Over coherent rows a bid of at least 1 is answered as too low exactly where the user is signed in, the item is
/// another's and running, and the amount is below the start or no more than that of some bid on the item. The rule
/// for bids says so too.
pub fn low_bids_are_exact()
    ensures answer { (call : ActionCall) (rows : List RowWrite) (number amount : ℕ) → IsCoherent rows → 1 ≤ amount →
        (meaning call (Bid number amount) rows ≡ Err (rule_answer BidTooLow)) ↔ ((item : ItemRow)
        × BidsTooLow rows call.user call.now.0 number amount item) }
    ensures rule { (rows : List RowWrite) (number user amount now : ℕ) (item : ItemRow) →
        IsCoherent rows → row_at rows item_of (item_id number) ≡ Some item →
        is_running item now ≡ true → item.seller ≢ user → 1 ≤ amount →
        (bid_refusal item user amount now ≡ Some BidTooLow) ↔ IsTooLowFor rows number item amount }
{
    bid_refusals_are_exact();
    running_is_exact();
}

/// Over coherent rows an item is sold after its close (`after_close`) to the bidder of the greatest bid on it, where
/// that is of at least 1, and closed where there is no bid.
pub fn closing_sells_to_the_greatest_bid()
    ensures sold { (rows : List RowWrite) (number n : ℕ) (item : ItemRow) (bid : BidRow) → IsCoherent rows →
        row_at rows item_of (item_id number) ≡ Some item → IsGreatestBid rows number item n bid → 1 ≤ bid.amount →
        after_close item ≡ record item { state = Sold; buyer = bid.bidder } }
    ensures unsold { (rows : List RowWrite) (number : ℕ) (item : ItemRow) → IsCoherent rows →
        row_at rows item_of (item_id number) ≡ Some item → item.bids ≡ 0 →
        after_close item ≡ record item { state = Closed } }
{}
