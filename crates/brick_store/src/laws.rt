//! Laws of bricks and their histories, which are newest first. Each is the contract of a function that
//! does nothing: a caller that needs the law calls the function.

ghost use Rattle.std.specs.Prelude.{◌≡◌, ◌↔◌, ◌⊎◌, ◌+◌, ◌<◌, ◌≤◌, ℕ, true, false, if◌then◌else◌, List, [], ◌∷◌, length, None, Some};
ghost use Rattle.crash_base.specs.declared.numbers.BrickNo.{BrickNo};
ghost use Rattle.crash_base.specs.declared.numbers.Moment.{Moment};
ghost use Rattle.crash_base.specs.declared.numbers.SessionKey.{SessionKey};
ghost use Rattle.crash_base.specs.declared.numbers.Version.{Version};
ghost use Rattle.ssm_frames.specs.declared.frame.TheConstants.{SWEEP_GRACE};
ghost use Rattle.ssm_frames.specs.declared.frame.Frame.{Frame};
ghost use Rattle.ssm_frames.specs.declared.frame.Frame.TheVariants as frame;
ghost use Rattle.brick_store.specs.declared.kept.Kept.{Kept};
ghost use Rattle.brick_store.specs.declared.kept.TheConstants.{MAX_BRICK_VALUES, MAX_BRICK_BYTES};
ghost use Rattle.brick_store.specs.declared.event.BrickEvent.{BrickEvent};
ghost use Rattle.brick_store.specs.declared.event.BrickEvent.TheVariants.{Stored, Sweep, Crash};
ghost use Rattle.brick_store.specs.Bricks.{BrickValue, new_brick, put_value, swept_at, crashed, answered, get_reply, reply};
ghost use Rattle.brick_store.specs.History.{held, all_held, incarnation_after, swept_after};
ghost use Rattle.brick_store.specs.Kept.{AreInOrder, is_under, kept_under, bytes_of, size_of, is_full};
ghost use Rattle.brick_store.specs.Standing.{StandsFor, heard};

/// A brick that stands for a history stands after each of its calls for the history with what the call
/// adds to it, and a new brick stands for the empty history.
pub fn bricks_stand_for_their_history()
    ensures new { (number : BrickNo) (first : ℕ) → StandsFor first [] (new_brick number first) }
    ensures answered { (first : ℕ) (h : List BrickEvent) (b : BrickValue) (request : Frame)
        → StandsFor first h b → StandsFor first (heard h request) (answered b request) }
    ensures swept { (first : ℕ) (h : List BrickEvent) (b : BrickValue) (moment : Moment)
        → StandsFor first h b → StandsFor first (Sweep moment ∷ h) (swept_at b moment) }
    ensures crashed { (first : ℕ) (h : List BrickEvent) (b : BrickValue)
        → StandsFor first h b → StandsFor first (Crash ∷ h) (crashed b) }
{}

/// A brick that stands for a history replies what the history says: to a Get with what is held, and
/// where nothing is, with the greatest moment swept since the last crash; to a Put with Stored, or, where it has no
/// room, with how many values and bytes are held; and to a Sweep with its moment.
pub fn replies_are_held()
    ensures get { (first : ℕ) (h : List BrickEvent) (b : BrickValue) (nonce : Version) (key : SessionKey) (version : Version)
        → StandsFor first h b
        → reply b (frame.Get nonce key version)
        ≡ Some (get_reply b.number (incarnation_after first h) (swept_after h) nonce key version (held h key version)) }
    ensures put { (first : ℕ) (h : List BrickEvent) (b : BrickValue)
        (nonce : Version) (key : SessionKey) (version : Version) (expiry : Moment) (value : List ℕ)
        → StandsFor first h b
        → reply b (frame.Put nonce key version expiry value)
        ≡ Some (if is_full (all_held h) (put_value key version expiry value)
        then frame.BrickFull nonce key version b.number (incarnation_after first h)
        (length (all_held h)) (bytes_of (all_held h))
        else frame.Stored nonce key version b.number (incarnation_after first h)) }
    ensures sweep { (first : ℕ) (h : List BrickEvent) (b : BrickValue) (nonce : Version) (moment : Moment)
        → StandsFor first h b
        → reply b (frame.Sweep nonce moment)
        ≡ Some (frame.Swept nonce b.number (incarnation_after first h) moment) }
{}

/// A brick has no room for a value exactly at a limit: where nothing is held under the value's key and
/// version and 65,536 values are, or where the bytes would pass 67,108,864. The bytes that a value
/// under this key and version has are taken off first.
pub fn limits_fill_bricks()
    ensures values { MAX_BRICK_VALUES ≡ 65536 }
    ensures bytes { MAX_BRICK_BYTES ≡ 67108864 }
    ensures full { (first : ℕ) (h : List BrickEvent) (b : BrickValue) (s : Kept)
        → StandsFor first h b → length b.kept ≤ MAX_BRICK_VALUES
        → (is_full b.kept s ≡ true)
        ↔ (((held h s.key s.version ≡ None) × (length b.kept ≡ MAX_BRICK_VALUES))
        ⊎ (MAX_BRICK_BYTES + size_of (held h s.key s.version) < bytes_of b.kept + length s.value)) }
{}

/// What a brick keeps is a function of each history that it stands for: all values held, in order of key
/// and version.
pub fn bricks_keep_all_held()
    ensures { (first : ℕ) (h : List BrickEvent) (b : BrickValue)
        → StandsFor first h b → b.kept ≡ all_held h }
{}

/// A sweep takes exactly the values whose expiry and 60,000 ms more are before its moment.
pub fn late_values_go()
    ensures grace { SWEEP_GRACE ≡ 60000 }
    ensures taken { (h : List BrickEvent) (key : SessionKey) (version : Version) (moment : Moment) (s : Kept)
        → held h key version ≡ Some s → s.expiry.0 + SWEEP_GRACE < moment.0
        → held (Sweep moment ∷ h) key version ≡ None }
    ensures left { (h : List BrickEvent) (key : SessionKey) (version : Version) (moment : Moment) (s : Kept)
        → held h key version ≡ Some s → moment.0 ≤ s.expiry.0 + SWEEP_GRACE
        → held (Sweep moment ∷ h) key version ≡ Some s }
    ensures none { (h : List BrickEvent) (key : SessionKey) (version : Version) (moment : Moment)
        → held h key version ≡ None → held (Sweep moment ∷ h) key version ≡ None }
{}

/// What is held under a key and a version is what is found there among all values held, which are in order of key and
/// version.
pub fn held_values_are_found()
    ensures found { (h : List BrickEvent) (key : SessionKey) (version : Version)
        → kept_under key version (all_held h) ≡ held h key version }
    ensures ordered { (h : List BrickEvent) → AreInOrder (all_held h) }
{}

/// A value is under a key and a version exactly where both are its own, and what is held under them is. A value that is
/// stored is held, whatever was held under its pair. It refuses a store that leaves the older value.
pub fn held_values_are_under_their_pair()
    ensures under { (key : SessionKey) (version : Version) (s : Kept)
        → (is_under key version s ≡ true) ↔ ((key ≡ s.key) × (version ≡ s.version)) }
    ensures held { (h : List BrickEvent) (key : SessionKey) (version : Version) (s : Kept)
        → held h key version ≡ Some s → (key ≡ s.key) × (version ≡ s.version) }
    ensures last { (h : List BrickEvent) (s : Kept) → held (Stored s ∷ h) s.key s.version ≡ Some s }
{}

/// A history says what came to its brick: of a Put that its value was stored, where there was room, and else nothing;
/// nothing of a Get; and of a Sweep its moment. At first nothing is held, and a crash leaves nothing held. A value that
/// is stored leaves each other pair what it holds. The incarnation is one more for each crash, and for nothing else.
/// The moment swept is 0 at first and behind a crash; a sweep leaves it at least its own moment and at least what it
/// was, and at one of the two. It refuses a brick that says Stored and keeps nothing, one whose values outlive a crash,
/// and one that tells the last moment swept for the greatest.
pub fn histories_say_what_came()
    ensures stored { (h : List BrickEvent) (nonce : Version) (s : Kept) → is_full (all_held h) s ≡ false
        → heard h (frame.Put nonce s.key s.version s.expiry s.value) ≡ Stored s ∷ h }
    ensures full { (h : List BrickEvent) (nonce : Version) (s : Kept) → is_full (all_held h) s ≡ true
        → heard h (frame.Put nonce s.key s.version s.expiry s.value) ≡ h }
    ensures get { (h : List BrickEvent) (nonce : Version) (key : SessionKey) (version : Version)
        → heard h (frame.Get nonce key version) ≡ h }
    ensures sweep { (h : List BrickEvent) (nonce : Version) (moment : Moment)
        → heard h (frame.Sweep nonce moment) ≡ Sweep moment ∷ h }
    ensures new { (first : ℕ) (key : SessionKey) (version : Version)
        → (held [] key version ≡ None) × (incarnation_after first [] ≡ first) }
    ensures crash { (h : List BrickEvent) (key : SessionKey) (version : Version)
        → held (Crash ∷ h) key version ≡ None }
    ensures others { (h : List BrickEvent) (s : Kept) (key : SessionKey) (version : Version)
        → ((key ≡ s.key) × (version ≡ s.version) → ⊥) → held (Stored s ∷ h) key version ≡ held h key version }
    ensures incarnation { (first : ℕ) (h : List BrickEvent) (s : Kept) (moment : Moment)
        → (incarnation_after first (Crash ∷ h) ≡ incarnation_after first h + 1)
        × (incarnation_after first (Stored s ∷ h) ≡ incarnation_after first h)
        × (incarnation_after first (Sweep moment ∷ h) ≡ incarnation_after first h) }
    ensures swept { (h : List BrickEvent) (s : Kept) (moment : Moment)
        → ((swept_after []).0 ≡ 0) × ((swept_after (Crash ∷ h)).0 ≡ 0)
        × (moment.0 ≤ (swept_after (Sweep moment ∷ h)).0) × ((swept_after h).0 ≤ (swept_after (Sweep moment ∷ h)).0)
        × ((swept_after (Sweep moment ∷ h) ≡ moment) ⊎ (swept_after (Sweep moment ∷ h) ≡ swept_after h))
        × (swept_after (Stored s ∷ h) ≡ swept_after h) }
{}
