//! The law of the places of items. It is the contract of a function that does nothing: a caller that needs the law
//! calls the function.

ghost use Rattle.std.specs.Prelude.{◌≡◌, ◌≤◌, List, ◌∷◌, ◌++◌};
ghost use Rattle.crash_base.specs.declared.numbers.Place.{Place};
ghost use Rattle.outcome_items.specs.declared.item.Item.{Item};
ghost use Rattle.served_items.specs.Following.{FollowOn, KeepFront};

/// The places of items are in order: the journal was no shorter when the container was first held for one than when it
/// was last held for the one before, and no shorter at the last hold than at the first (`follows`). Where it was not
/// held for one, both of its places are the front of the one before (`kept`), and of the first what the connection
/// began with (`first_kept`).
pub fn places_of_items_are_in_order()
    ensures follows { (front : Place) (before behind : List Item) (i next : Item)
        → FollowOn front (before ++ i ∷ next ∷ behind)
        → (i.holds.front.0 ≤ next.holds.from.0) × (next.holds.from.0 ≤ next.holds.front.0) }
    ensures kept { (front : Place) (before behind : List Item) (i next : Item)
        → KeepFront front (before ++ i ∷ next ∷ behind) → next.holds.held ≡ 0
        → (next.holds.from ≡ i.holds.front) × (next.holds.front ≡ i.holds.front) }
    ensures first_kept { (front : Place) (behind : List Item) (i : Item) → KeepFront front (i ∷ behind)
        → i.holds.held ≡ 0 → (i.holds.from ≡ front) × (i.holds.front ≡ front) }
{}
