//! Laws of rows, ids, session values and the site. Each is the contract of a function that does nothing: a caller
//! that needs the law calls the function.

ghost use Rattle.std.specs.Prelude.{◌≡◌, ◌≢◌, ◌↔◌, ℕ, ◌<◌, ◌^◌, ◌&&◌, nat_le, true, List, [], ◌∷◌, length, map, Some, None};
ghost use Rattle.std.specs.Str.{is_utf8};
ghost use Rattle.auction_rows.specs.declared.rows.AuctionRow.{AuctionRow};
ghost use Rattle.auction_rows.specs.declared.rows.BidRow.{BidRow};
ghost use Rattle.auction_rows.specs.declared.rows.CategoryRow.{CategoryRow};
ghost use Rattle.auction_rows.specs.declared.rows.CounterRow.{CounterRow};
ghost use Rattle.auction_rows.specs.declared.rows.EntryRow.{EntryRow};
ghost use Rattle.auction_rows.specs.declared.rows.FeedbackRow.{FeedbackRow};
ghost use Rattle.auction_rows.specs.declared.rows.ItemRow.{ItemRow};
ghost use Rattle.auction_rows.specs.declared.rows.NameRow.{NameRow};
ghost use Rattle.auction_rows.specs.declared.rows.OwnItemRow.{OwnItemRow};
ghost use Rattle.auction_rows.specs.declared.rows.UserRow.{UserRow};
ghost use Rattle.auction_rows.specs.Bounds.{is_user, is_name, is_counter, is_item, is_category, is_bid, is_entry, is_feedback, is_own_item, AreBytes, IsRow, Spells, SpellsNoRow, IsUser, IsName, IsCounter, IsItem, IsCategory, IsBid, IsEntry, IsFeedback, IsOwnItem};
ghost use Rattle.auction_rows.specs.Reading.{row_of, user_of, name_of, counter_of, item_of, category_of, bid_of, entry_of, feedback_of, own_item_of};
ghost use Rattle.auction_rows.specs.Spelling.{row_bytes, table_of, user_bytes, name_bytes, counter_bytes, item_bytes, category_bytes, bid_bytes, entry_bytes, feedback_bytes, own_item_bytes};
ghost use Rattle.auction_rows.specs.Ids.{users_counter, items_counter, categories_counter, category_counter, bid_id, entry_id, feedback_id, own_item_id};
ghost use Rattle.deployment.specs.Groups.{group_of};
ghost use Rattle.auction_rows.specs.Parts.{site_parts};
ghost use Rattle.auction_rows.specs.Session.{session_bytes, session_user};

/// Bytes are read to exactly the row of a table that they spell, and to none exactly where they spell
/// none.
pub fn rows_are_exact()
    ensures some { (table : ℕ) (bytes : List ℕ) (row : AuctionRow) → AreBytes bytes
        → (row_of table bytes ≡ Some row) ↔ Spells table bytes row }
    ensures none { (table : ℕ) (bytes : List ℕ) → AreBytes bytes
        → (row_of table bytes ≡ None) ↔ SpellsNoRow table bytes }
{}

/// A row within its bounds is read back from its bytes.
pub fn rows_read_back()
    ensures { (row : AuctionRow) → IsRow row → row_of (table_of row) (row_bytes row) ≡ Some row }
{}

/// The user of a session is read back from its value.
pub fn sessions_read_back()
    ensures { (user moment : ℕ) → user < 2 ^ 32
        → session_user (session_bytes user moment) ≡ user }
{}

/// A row is within its bounds exactly where its text is UTF-8 and leaves room for its other fields. A
/// row without a text always is.
pub fn texts_decide_bounds()
    ensures user { (user : UserRow) → length user.salt ≡ 8 → length user.digest ≡ 32
        → is_user user ≡ (is_utf8 user.name && nat_le (length user.name) 4042) }
    ensures name { (name : NameRow)
        → is_name name ≡ (is_utf8 name.name && nat_le (length name.name) 4086) }
    ensures counter { (counter : CounterRow) → is_counter counter ≡ true }
    ensures item { (item : ItemRow)
        → is_item item ≡ (is_utf8 item.title && nat_le (length item.title) 4024) }
    ensures category { (category : CategoryRow)
        → is_category category ≡ (is_utf8 category.name && nat_le (length category.name) 4094) }
    ensures bid { (bid : BidRow) → is_bid bid ≡ true }
    ensures entry { (entry : EntryRow) → is_entry entry ≡ true }
    ensures feedback { (feedback : FeedbackRow)
        → is_feedback feedback ≡ (is_utf8 feedback.text && nat_le (length feedback.text) 4077) }
    ensures own_item { (own : OwnItemRow) → is_own_item own ≡ true }
{}

/// The groups of the site's components, in order: Web, Numbers and Categories are alone, Users and
/// Feedback are rebooted together, and so are Items, Bids and Purchases.
pub fn site_groups()
    ensures { map (group_of site_parts) (0 ∷ 1 ∷ 2 ∷ 3 ∷ 4 ∷ 5 ∷ 6 ∷ 7 ∷ [])
        ≡ 0 ∷ 1 ∷ 2 ∷ 3 ∷ 4 ∷ 3 ∷ 3 ∷ 1 ∷ [] }
{}

/// Rows with numbers have ids of their own where the numbers are below 2^20, or below 2^32, and no
/// category's counter is one of the three others.
pub fn ids_differ()
    ensures bids { (item number other n : ℕ) → number < 2 ^ 20 → n < 2 ^ 20
        → bid_id item number ≡ bid_id other n → (item ≡ other) × (number ≡ n) }
    ensures entries { (category number other n : ℕ) → number < 2 ^ 32 → n < 2 ^ 32
        → entry_id category number ≡ entry_id other n → (category ≡ other) × (number ≡ n) }
    ensures feedback { (user number other n : ℕ) → number < 2 ^ 20 → n < 2 ^ 20
        → feedback_id user number ≡ feedback_id other n → (user ≡ other) × (number ≡ n) }
    ensures own_items { (user number other n : ℕ) → number < 2 ^ 32 → n < 2 ^ 32
        → own_item_id user number ≡ own_item_id other n → (user ≡ other) × (number ≡ n) }
    ensures counters { (category : ℕ) → (category_counter category ≢ users_counter)
        × (category_counter category ≢ items_counter)
        × (category_counter category ≢ categories_counter) }
    ensures categories { (category other : ℕ)
        → category_counter category ≡ category_counter other → category ≡ other }
{}

/// Bytes are read to exactly the user that they spell, and a user is read back from its bytes.
pub fn users_are_exact()
    ensures exact { (bytes : List ℕ) (user : UserRow) → AreBytes bytes
        → (user_of bytes ≡ Some user) ↔ (IsUser user × (bytes ≡ user_bytes user)) }
    ensures back { (user : UserRow) → IsUser user → user_of (user_bytes user) ≡ Some user }
{}

/// Bytes are read to exactly the name that they spell, and a name is read back from its bytes.
pub fn names_are_exact()
    ensures exact { (bytes : List ℕ) (name : NameRow) → AreBytes bytes
        → (name_of bytes ≡ Some name) ↔ (IsName name × (bytes ≡ name_bytes name)) }
    ensures back { (name : NameRow) → IsName name → name_of (name_bytes name) ≡ Some name }
{}

/// Bytes are read to exactly the counter that they spell, and a counter is read back from its bytes.
pub fn counters_are_exact()
    ensures exact { (bytes : List ℕ) (counter : CounterRow) → AreBytes bytes
        → (counter_of bytes ≡ Some counter) ↔ (IsCounter counter × (bytes ≡ counter_bytes counter)) }
    ensures back { (counter : CounterRow) → IsCounter counter → counter_of (counter_bytes counter) ≡ Some counter }
{}

/// Bytes are read to exactly the item that they spell, and an item is read back from its bytes.
pub fn items_are_exact()
    ensures exact { (bytes : List ℕ) (item : ItemRow) → AreBytes bytes
        → (item_of bytes ≡ Some item) ↔ (IsItem item × (bytes ≡ item_bytes item)) }
    ensures back { (item : ItemRow) → IsItem item → item_of (item_bytes item) ≡ Some item }
{}

/// Bytes are read to exactly the category that they spell, and a category is read back from its bytes.
pub fn categories_are_exact()
    ensures exact { (bytes : List ℕ) (category : CategoryRow) → AreBytes bytes
        → (category_of bytes ≡ Some category) ↔ (IsCategory category × (bytes ≡ category_bytes category)) }
    ensures back { (category : CategoryRow) → IsCategory category → category_of (category_bytes category) ≡ Some category }
{}

/// Bytes are read to exactly the bid that they spell, and a bid is read back from its bytes.
pub fn bids_are_exact()
    ensures exact { (bytes : List ℕ) (bid : BidRow) → AreBytes bytes
        → (bid_of bytes ≡ Some bid) ↔ (IsBid bid × (bytes ≡ bid_bytes bid)) }
    ensures back { (bid : BidRow) → IsBid bid → bid_of (bid_bytes bid) ≡ Some bid }
{}

/// Bytes are read to exactly the entry that they spell, and an entry is read back from its bytes.
pub fn entries_are_exact()
    ensures exact { (bytes : List ℕ) (entry : EntryRow) → AreBytes bytes
        → (entry_of bytes ≡ Some entry) ↔ (IsEntry entry × (bytes ≡ entry_bytes entry)) }
    ensures back { (entry : EntryRow) → IsEntry entry → entry_of (entry_bytes entry) ≡ Some entry }
{}

/// Bytes are read to exactly the feedback that they spell, and feedback is read back from its bytes.
pub fn feedback_is_exact()
    ensures exact { (bytes : List ℕ) (feedback : FeedbackRow) → AreBytes bytes
        → (feedback_of bytes ≡ Some feedback) ↔ (IsFeedback feedback × (bytes ≡ feedback_bytes feedback)) }
    ensures back { (feedback : FeedbackRow) → IsFeedback feedback → feedback_of (feedback_bytes feedback) ≡ Some feedback }
{}

/// Bytes are read to exactly the own item that they spell, and an own item is read back from its bytes.
pub fn own_items_are_exact()
    ensures exact { (bytes : List ℕ) (own : OwnItemRow) → AreBytes bytes
        → (own_item_of bytes ≡ Some own) ↔ (IsOwnItem own × (bytes ≡ own_item_bytes own)) }
    ensures back { (own : OwnItemRow) → IsOwnItem own → own_item_of (own_item_bytes own) ≡ Some own }
{}
