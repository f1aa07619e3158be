//! Laws of the rules: each refusal comes exactly where it is to. Each is the contract of a function
//! that does nothing: a caller that needs the law calls the function.

ghost use Rattle.std.specs.Prelude.{◌≡◌, ◌≢◌, ◌↔◌, ℕ, true, Some, None};
ghost use Rattle.auction_rows.specs.declared.rows.ItemRow.{ItemRow};
ghost use Rattle.auction_rows.specs.declared.rows.ItemState.TheVariants.{Running, Sold};
ghost use Rattle.auction_rules.specs.declared.refusal.RuleRefusal.TheVariants.{AuctionOver, OwnItem, BidTooLow, NotForSale, NotSold, NotAllowed, AlreadyGiven};
ghost use Rattle.auction_rules.specs.Rules.{is_running, other_side, bid_refusal, buy_refusal, close_refusal, feedback_refusal, IsRunning, IsTooLow, IsNotForSale, IsOnASide, HasGiven};

/// An item is running exactly where its state is `Running` and its auction has not ended.
pub fn running_is_exact()
    ensures { (item : ItemRow) (now : ℕ) → (is_running item now ≡ true) ↔ IsRunning item now }
{}

/// When each refusal of a bid comes, and when none.
pub fn bid_refusals_are_exact()
    ensures over { (item : ItemRow) (user amount now : ℕ)
        → (bid_refusal item user amount now ≡ Some AuctionOver) ↔ (¬ IsRunning item now) }
    ensures own { (item : ItemRow) (user amount now : ℕ)
        → (bid_refusal item user amount now ≡ Some OwnItem)
        ↔ (IsRunning item now × (item.seller ≡ user)) }
    ensures low { (item : ItemRow) (user amount now : ℕ)
        → (bid_refusal item user amount now ≡ Some BidTooLow)
        ↔ (IsRunning item now × (item.seller ≢ user) × IsTooLow item amount) }
    ensures none { (item : ItemRow) (user amount now : ℕ)
        → (bid_refusal item user amount now ≡ None)
        ↔ (IsRunning item now × (item.seller ≢ user) × (¬ IsTooLow item amount)) }
{}

/// When each refusal to sell an item at once comes, and when none.
pub fn buy_refusals_are_exact()
    ensures over { (item : ItemRow) (user now : ℕ)
        → (buy_refusal item user now ≡ Some AuctionOver) ↔ (¬ IsRunning item now) }
    ensures own { (item : ItemRow) (user now : ℕ)
        → (buy_refusal item user now ≡ Some OwnItem)
        ↔ (IsRunning item now × (item.seller ≡ user)) }
    ensures not_for_sale { (item : ItemRow) (user now : ℕ)
        → (buy_refusal item user now ≡ Some NotForSale)
        ↔ (IsRunning item now × (item.seller ≢ user) × IsNotForSale item) }
    ensures none { (item : ItemRow) (user now : ℕ)
        → (buy_refusal item user now ≡ None)
        ↔ (IsRunning item now × (item.seller ≢ user) × (¬ IsNotForSale item)) }
{}

/// When each refusal to close an item comes, and when none.
pub fn close_refusals_are_exact()
    ensures not_allowed { (item : ItemRow) (user : ℕ)
        → (close_refusal item user ≡ Some NotAllowed) ↔ (item.seller ≢ user) }
    ensures over { (item : ItemRow) (user : ℕ)
        → (close_refusal item user ≡ Some AuctionOver)
        ↔ ((item.seller ≡ user) × (item.state ≢ Running)) }
    ensures none { (item : ItemRow) (user : ℕ)
        → (close_refusal item user ≡ None)
        ↔ ((item.seller ≡ user) × (item.state ≡ Running)) }
{}

/// When each refusal of feedback comes, and when none.
pub fn feedback_refusals_are_exact()
    ensures not_sold { (item : ItemRow) (user : ℕ)
        → (feedback_refusal item user ≡ Some NotSold) ↔ (item.state ≢ Sold) }
    ensures not_allowed { (item : ItemRow) (user : ℕ)
        → (feedback_refusal item user ≡ Some NotAllowed)
        ↔ ((item.state ≡ Sold) × (¬ IsOnASide item user)) }
    ensures already_given { (item : ItemRow) (user : ℕ)
        → (feedback_refusal item user ≡ Some AlreadyGiven)
        ↔ ((item.state ≡ Sold) × IsOnASide item user × HasGiven item user) }
    ensures none { (item : ItemRow) (user : ℕ)
        → (feedback_refusal item user ≡ None)
        ↔ ((item.state ≡ Sold) × IsOnASide item user × (¬ HasGiven item user)) }
{}

/// The other side is the seller for the buyer, and the buyer for each other user, so for the seller.
pub fn other_sides_are_exact()
    ensures seller { (item : ItemRow) → other_side item item.buyer ≡ item.seller }
    ensures buyer { (item : ItemRow) (user : ℕ) → item.buyer ≢ user
        → other_side item user ≡ item.buyer }
{}
