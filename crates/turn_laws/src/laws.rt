//! Laws of places. Each is the contract of a function that does nothing: a caller that needs the law calls the
//! function.

ghost use Rattle.std.specs.Prelude.{◌≡◌, ℕ, ◌<◌, List, [], ◌∷◌, ◌++◌, length, map, slice_get, Some};
ghost use mathlib.Core.List.{IsPrefix};
ghost use Rattle.turn_lock.specs.Seats.{new_places};
ghost use Rattle.turn_laws.specs.Places.{RiseBelow};

/// At the places that a hold adds, the history has just the events that it added, in order.
pub fn holds_add_at_new_places<E>()
    ensures { (taken added : List E) →
        map (slice_get (taken ++ added)) (new_places taken (taken ++ added)) ≡ map Some added }
{}

/// A new seat has no places. Where those of a seat rise and lie within what it has seen, they do so after a hold too:
/// the value that it takes has a history that begins with what it has seen, and it gives one that begins with that. Of
/// two places that rise, the one that stands behind is greater (`rise`), and each lies within (`within`).
pub fn places_rise<E>()
    ensures none { (n : ℕ) → RiseBelow n [] }
    ensures hold { (own : List ℕ) (seen taken given : List E) → RiseBelow (length seen) own →
        IsPrefix seen taken → IsPrefix taken given →
        RiseBelow (length given) (own ++ new_places taken given) }
    ensures rise { (n : ℕ) (before between behind : List ℕ) (p q : ℕ) →
        RiseBelow n (before ++ p ∷ (between ++ q ∷ behind)) → p < q }
    ensures within { (n : ℕ) (before behind : List ℕ) (p : ℕ) → RiseBelow n (before ++ p ∷ behind) → p < n }
{}
