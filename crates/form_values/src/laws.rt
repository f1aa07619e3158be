//! A law of fields. It is the contract of a function that does nothing: a caller that needs the law calls the function.

ghost use Rattle.std.specs.Prelude.{◌≡◌, ◌↔◌, ℕ, List, Some, None};
ghost use Rattle.form_urlencoded.specs.Form.{raw_pairs};
ghost use Rattle.form_values.specs.FirstPairs.{IsFirstPair, NoneHasName};
ghost use Rattle.form_values.specs.Values.{field_text};

/// A field is the text of the first pair of its name: such a pair is there, and none before it has the name. A form
/// without such a field has no pair of the name.
pub fn first_pairs_count()
    ensures some { (form name text : List ℕ) → (field_text form name ≡ Some text) ↔ IsFirstPair name text (raw_pairs form) }
    ensures none { (form name : List ℕ) → (field_text form name ≡ None) ↔ NoneHasName name (raw_pairs form) }
{}
