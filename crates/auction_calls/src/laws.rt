//! Laws of calls and their texts. Each is the contract of a function that does nothing: a caller that
//! needs the law calls the function.

ghost use Rattle.std.specs.Prelude.{◌≡◌, ◌≢◌, ◌↔◌, ◌^◌, List, ℕ, Some, None, true};
ghost use Rattle.std.specs.Str.{is_utf8};
ghost use Rattle.auction_calls.specs.declared.action.ActionCall.{ActionCall};
ghost use Rattle.auction_calls.specs.declared.action.FormKind.{FormKind};
ghost use Rattle.auction_calls.specs.declared.call_field.CallField.{CallField};
ghost use Rattle.auction_calls.specs.declared.ranges.TheConstants.{MAX_USER_NAME_BYTES, MAX_PASSWORD_BYTES, MAX_CATEGORY_NAME_BYTES, MAX_TITLE_BYTES, MAX_FEEDBACK_BYTES, MAX_PAGE, MAX_AMOUNT, MAX_HOURS, MOMENT_LIMIT};
ghost use Rattle.auction_calls.specs.Calls.{is_call, is_sized, is_user_name};
ghost use Rattle.auction_calls.specs.BadFields.{bad_field, call_fields, IsFirstOut};
ghost use Rattle.auction_calls.specs.Reading.{call_of, kind_of};
ghost use Rattle.byte_fields.specs.Spelling.{AreBytes};
ghost use Rattle.auction_calls.specs.Texts.{Spells, SpellsNoCall, call_bytes, kind_text};

/// A text is read as exactly the call that it spells, and as none exactly where it spells none.
pub fn texts_are_exact()
    ensures some { (text : List ℕ) (call : ActionCall) → AreBytes text
        → (call_of text ≡ Some call) ↔ Spells text call }
    ensures none { (text : List ℕ) → AreBytes text → (call_of text ≡ None) ↔ SpellsNoCall text }
{}

/// The text of a call is read as it, so no two calls have the same text.
pub fn texts_read_back()
    ensures { (call : ActionCall) → is_call call ≡ true → call_of (call_bytes call) ≡ Some call }
{}

/// No text spells two calls.
pub fn texts_spell_one_call()
    ensures { (text : List ℕ) (call other : ActionCall) → Spells text call → Spells text other
        → call ≡ other }
{}

/// A name of a user is UTF-8, as each other text of a call is by its range.
pub fn user_names_are_utf8()
    ensures { (name : List ℕ) → is_user_name name ≡ true → is_utf8 name ≡ true }
{}

/// A word names exactly the form whose word it is, and none where it is the word of none.
pub fn words_are_of_one_form()
    ensures some { (word : List ℕ) (kind : FormKind)
        → (kind_of word ≡ Some kind) ↔ (word ≡ kind_text kind) }
    ensures none { (word : List ℕ)
        → (kind_of word ≡ None) ↔ ((kind : FormKind) → word ≢ kind_text kind) }
{}

/// A call is in its ranges exactly where it has no bad field, and the bad field is the first that is out of its range:
/// each before it is in its own. So none is named that is in its range, or that stands behind another one that is out.
pub fn bad_fields_are_first()
    ensures none { (call : ActionCall) → is_sized call ≡ true → (bad_field call ≡ None) ↔ (is_call call ≡ true) }
    ensures some { (call : ActionCall) (field : CallField)
        → (bad_field call ≡ Some field) ↔ IsFirstOut (call_fields call) field }
{}

/// The greatest lengths of texts in bytes, the last page, the greatest amount in cents, the most hours, and the moment
/// that each is before.
pub fn ranges_are()
    ensures names { (MAX_USER_NAME_BYTES ≡ 24) × (MAX_CATEGORY_NAME_BYTES ≡ 40) }
    ensures texts { (MAX_PASSWORD_BYTES ≡ 72) × (MAX_TITLE_BYTES ≡ 80) × (MAX_FEEDBACK_BYTES ≡ 200) }
    ensures numbers { (MAX_PAGE ≡ 9999) × (MAX_AMOUNT ≡ 4000000000) × (MAX_HOURS ≡ 720) }
    ensures moments { MOMENT_LIMIT ≡ 2 ^ 62 }
{}
