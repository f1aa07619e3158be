//! Laws of links to houses. Each is the contract of a function that does nothing: a caller that needs the law calls the
//! function.

ghost use Rattle.std.specs.Prelude.{◌≡◌, ◌^◌, ◌<◌, ℕ, true, List, [], ◌∷◌, ◌++◌, All, IsSome, Some};
ghost use Rattle.std.specs.List.{count_by};
ghost use Rattle.crash_base.specs.declared.numbers.BrickNo.{BrickNo};
ghost use Rattle.ssm_frames.specs.Reading.{decode_of};
ghost use Rattle.ssm_frames.specs.Requests.{is_request};
ghost use Rattle.crash_base.specs.declared.numbers.Moment.{Moment};
ghost use Rattle.crash_base.specs.declared.numbers.SessionKey.{SessionKey};
ghost use Rattle.crash_base.specs.declared.numbers.Version.{Version};
ghost use Rattle.ssm_frames.specs.declared.frame.Frame.{Frame};
ghost use Rattle.ssm_frames.specs.declared.frame.Frame.TheVariants.{Absent, BrickFull, Found, Stored, Swept};
ghost use Rattle.brick_store.specs.Bricks.{BrickValue, reply};
ghost use Rattle.outside.specs.declared.link.LinkEvent.{LinkEvent};
ghost use Rattle.outside.specs.declared.link.LinkEvent.TheVariants.{Gets, HearsSilence, Sends};
ghost use Rattle.outside.specs.Link.{Made, is_silence, is_silence_of, is_frame};
ghost use Rattle.link_lanes.specs.Lanes.{lane_of, raised};
ghost use Rattle.brick_house.specs.Houses.{HouseSeatsValue};
ghost use Rattle.brick_house.specs.HouseLinks.{HouseLinkValue, HouseMakes, new_link, silences_of};
ghost use Rattle.brick_house.specs.InOrder.{AllBear, BearsBrick, ComeInOrder, waiting};

/// Each frame that comes from a brick over a link is a reply that bears this brick's number and the house's
/// incarnation, whatever the brick kept and whoever else asked it: it does so as a frame of each kind (`stored`,
/// `found`, `absent`, `full`, `swept`). A link keeps its seats.
pub fn houses_answer_for_their_bricks()
    ensures new { (seats : HouseSeatsValue) → AllBear (new_link seats) }
    ensures waiting { (old new : HouseLinkValue) (events : List LinkEvent)
        → AllBear old → Made HouseMakes old events new → AllBear new }
    ensures frames { (old new : HouseLinkValue) (events : List LinkEvent)
        → AllBear old → Made HouseMakes old events new → All (BearsBrick old.seats.house.incarnation) events }
    ensures seats { (old new : HouseLinkValue) (events : List LinkEvent)
        → Made HouseMakes old events new → new.seats ≡ old.seats }
    ensures stored { (old new : HouseLinkValue) (before behind : List LinkEvent) (from : BrickNo) (bytes : List ℕ)
        (nonce : Version) (key : SessionKey) (version : Version) (brick : BrickNo) (incarnation : ℕ) → AllBear old
        → Made HouseMakes old (before ++ Gets from bytes ∷ behind) new
        → decode_of bytes ≡ Some (Stored nonce key version brick incarnation)
        → (brick ≡ from) × (incarnation ≡ old.seats.house.incarnation) }
    ensures found { (old new : HouseLinkValue) (before behind : List LinkEvent) (from : BrickNo) (bytes : List ℕ)
        (nonce : Version) (key : SessionKey) (version : Version) (brick : BrickNo) (incarnation : ℕ)
        (expiry : Moment) (value : List ℕ) → AllBear old
        → Made HouseMakes old (before ++ Gets from bytes ∷ behind) new
        → decode_of bytes ≡ Some (Found nonce key version brick incarnation expiry value)
        → (brick ≡ from) × (incarnation ≡ old.seats.house.incarnation) }
    ensures absent { (old new : HouseLinkValue) (before behind : List LinkEvent) (from : BrickNo) (bytes : List ℕ)
        (nonce : Version) (key : SessionKey) (version : Version) (brick : BrickNo) (incarnation : ℕ)
        (swept : Moment) → AllBear old
        → Made HouseMakes old (before ++ Gets from bytes ∷ behind) new
        → decode_of bytes ≡ Some (Absent nonce key version brick incarnation swept)
        → (brick ≡ from) × (incarnation ≡ old.seats.house.incarnation) }
    ensures full { (old new : HouseLinkValue) (before behind : List LinkEvent) (from : BrickNo) (bytes : List ℕ)
        (nonce : Version) (key : SessionKey) (version : Version) (brick : BrickNo) (incarnation entries stored : ℕ)
        → AllBear old
        → Made HouseMakes old (before ++ Gets from bytes ∷ behind) new
        → decode_of bytes ≡ Some (BrickFull nonce key version brick incarnation entries stored)
        → (brick ≡ from) × (incarnation ≡ old.seats.house.incarnation) }
    ensures swept { (old new : HouseLinkValue) (before behind : List LinkEvent) (from : BrickNo) (bytes : List ℕ)
        (nonce : Version) (brick : BrickNo) (incarnation : ℕ) (moment : Moment) → AllBear old
        → Made HouseMakes old (before ++ Gets from bytes ∷ behind) new
        → decode_of bytes ≡ Some (Swept nonce brick incarnation moment)
        → (brick ≡ from) × (incarnation ≡ old.seats.house.incarnation) }
{}

/// Each request that was sent to a brick over a link is answered once, and the replies come in the order of their
/// requests: those that have not come wait. In a new link none waits. Where none waits, what comes directly behind a
/// request is the reply to it of a brick of that number and of the house's incarnation (`heard`); and directly behind a
/// request its brick is not silent (`answered`).
pub fn houses_answer_in_order()
    ensures new { (seats : HouseSeatsValue) (brick : ℕ) → waiting (new_link seats) brick ≡ [] }
    ensures events { (old new : HouseLinkValue) (events : List LinkEvent) (brick : BrickNo)
        → Made HouseMakes old events new → ComeInOrder old brick events new }
    ensures heard { (old mid new : HouseLinkValue) (brick : BrickNo) (request frame : List ℕ)
        → waiting old brick.0 ≡ [] → HouseMakes old (Sends brick request) mid
        → HouseMakes mid (Gets brick frame) new
        → (b : BrickValue) × (asked : Frame) × (b.number ≡ brick) × (b.incarnation ≡ old.seats.house.incarnation)
        × (decode_of request ≡ Some asked) × (decode_of frame ≡ reply b asked) }
    ensures answered { (old mid new : HouseLinkValue) (brick : BrickNo) (request : List ℕ) (asked : Frame)
        → decode_of request ≡ Some asked → is_request asked ≡ true → HouseMakes old (Sends brick request) mid
        → HouseMakes mid (HearsSilence brick) new → ⊥ }
{}

/// A link counts what it answers: each silence, those of each brick, and each frame that came, up to 2^64 - 1, where a
/// count stays.
pub fn house_links_count_their_events()
    ensures hushed { (old new : HouseLinkValue) (events : List LinkEvent)
        → old.bricks.hushed < 2 ^ 64 → Made HouseMakes old events new
        → new.bricks.hushed ≡ raised old.bricks.hushed (count_by is_silence events) }
    ensures got { (old new : HouseLinkValue) (events : List LinkEvent)
        → old.bricks.got < 2 ^ 64 → Made HouseMakes old events new
        → new.bricks.got ≡ raised old.bricks.got (count_by is_frame events) }
    ensures brick { (old new : HouseLinkValue) (events : List LinkEvent) (brick : ℕ)
        → IsSome (lane_of old.bricks brick) → silences_of old brick < 2 ^ 64 → Made HouseMakes old events new
        → silences_of new brick ≡ raised (silences_of old brick) (count_by (is_silence_of brick) events) }
{}
