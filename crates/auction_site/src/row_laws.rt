//! The law of what actions leave in the rows, as the contract of a function that does nothing: a caller that needs
//! it calls the function.

ghost use Rattle.std.specs.Prelude.{◌≡◌, ℕ, ◌+◌, ◌-◌, ◌^◌, ◌<◌, Bool, true, false, List, Some};
ghost use Rattle.crash_base.specs.declared.rows.RowWrite.{RowWrite};
ghost use Rattle.crash_base.specs.Rows.{put_all};
ghost use Rattle.auction_calls.specs.Calls.{is_text};
ghost use Rattle.auction_rows.specs.Bounds.{IsItem, IsUser};
ghost use Rattle.auction_rows.specs.declared.rows.ItemRow.{ItemRow};
ghost use Rattle.auction_rows.specs.declared.rows.ItemState.TheVariants.{Sold};
ghost use Rattle.auction_rows.specs.declared.rows.UserRow.{UserRow};
ghost use Rattle.auction_rows.specs.Ids.{categories_counter, category_id, feedback_id, item_id, user_id};
ghost use Rattle.auction_rows.specs.Reading.{category_of, feedback_of, item_of, user_of};
ghost use Rattle.auction_rules.specs.Rules.{other_side};
ghost use Rattle.auction_site.specs.Accepted.{Counts};
ghost use Rattle.auction_site.specs.Coherent.{row_at, bid_at};
ghost use Rattle.auction_site.specs.Offered.{IsOffered};
ghost use Rattle.auction_site.specs.Outcomes.{Offer, after_close, bid_made, bought, category_added, closed, feedback_given, new_item, offered, with_feedback, with_given};

/// What comes of an action is read back from the rows that it leaves, for rows and fields in their ranges: a category
/// and the raised counter; a new item with its seller, its fields and its end, as an entry of its category and as an
/// own item of the seller, who has one item more, and the raised counters; a bid with its bidder, amount and moment,
/// and the item with it; the item sold to its buyer; the item after its close; feedback, the user whom it is about
/// with one good or bad more, and the item with the mark of the side.
pub fn actions_leave_their_rows()
    ensures category { (name : List ℕ) (category : ℕ) (rows : List RowWrite) → is_text 1 40 name ≡ true →
        row_at (put_all (category_added name category).writes rows) category_of (category_id category)
        ≡ Some (record { name = name }) }
    ensures categories { (name : List ℕ) (category : ℕ) (rows : List RowWrite) → category < 2 ^ 64 →
        Counts (put_all (category_added name category).writes rows) categories_counter category }
    ensures sell { (seller now : ℕ) (offer : Offer) (item entry : ℕ) (user : UserRow) (rows : List RowWrite) →
        IsItem (new_item seller now offer) → IsUser user → user.items + 1 < 2 ^ 32 → item < 2 ^ 32 → entry < 2 ^ 32 →
        IsOffered (put_all (offered seller now offer item entry user).writes rows) seller now offer item entry user }
    ensures bid { (user now number amount : ℕ) (item : ItemRow) (rows : List RowWrite) → IsItem item →
        user < 2 ^ 32 → now < 2 ^ 64 → amount < 2 ^ 64 → item.bids < 2 ^ 20 - 1 →
        (row_at (put_all (bid_made user now number amount item).writes rows) item_of (item_id number)
        ≡ Some (record item { best = amount; best_bidder = user; bids = item.bids + 1 }))
        × (bid_at (put_all (bid_made user now number amount item).writes rows) number (item.bids + 1)
        ≡ Some (record { bidder = user; amount = amount; moment = record { 0 = now } })) }
    ensures buy { (user number : ℕ) (item : ItemRow) (rows : List RowWrite) → IsItem item → user < 2 ^ 32 →
        row_at (put_all (bought user number item).writes rows) item_of (item_id number)
        ≡ Some (record item { state = Sold; buyer = user }) }
    ensures close { (number : ℕ) (item : ItemRow) (rows : List RowWrite) → IsItem item →
        row_at (put_all (closed number item).writes rows) item_of (item_id number) ≡ Some (after_close item) }
    ensures feedback { (user number : ℕ) (good : Bool) (text : List ℕ) (item : ItemRow) (about : UserRow) (rows : List RowWrite) →
        IsItem item → IsUser about → about.good + about.bad < 2 ^ 20 - 1 → is_text 0 200 text ≡ true →
        user < 2 ^ 32 → number < 2 ^ 32 →
        (row_at (put_all (feedback_given user number good text item about).writes rows) item_of (item_id number)
        ≡ Some (with_given item user))
        × (row_at (put_all (feedback_given user number good text item about).writes rows) user_of (user_id (other_side item user))
        ≡ Some (with_feedback about good))
        × (row_at (put_all (feedback_given user number good text item about).writes rows) feedback_of
        (feedback_id (other_side item user) (about.good + about.bad + 1))
        ≡ Some (record { from = user; item = number; good = good; text = text })) }
    ensures good { (about : UserRow) → with_feedback about true ≡ record about { good = about.good + 1 } }
    ensures bad { (about : UserRow) → with_feedback about false ≡ record about { bad = about.bad + 1 } }
{}
