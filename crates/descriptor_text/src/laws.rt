//! Laws of answers. Each is the contract of a function that does nothing: a caller that needs the
//! law calls the function.

ghost use Rattle.std.specs.Prelude.{◌≡◌, ◌≢◌, ℕ, List, Result, Err};
ghost use Rattle.deployment.specs.declared.parts.Parts.{Parts};
ghost use Rattle.toml.specs.Data.{Items};
ghost use Rattle.descriptor_text.specs.declared.refusals.TextRefusal.{TextRefusal};
ghost use Rattle.descriptor_text.specs.declared.refusals.TextRefusal.TheVariants.{OutOfMemory};
ghost use Rattle.descriptor_text.specs.declared.refusals.WrongField.{WrongField};
ghost use Rattle.descriptor_text.specs.Description.{descriptions_of, IsFirstWrong};
ghost use Rattle.descriptor_text.specs.Text.{IsAnswer};

/// For every text there is an answer other than out of memory.
pub fn texts_have_an_answer()
    ensures { (text : List ℕ)
        → (a : Result Parts TextRefusal) × (a ≢ Err OutOfMemory) × IsAnswer text a }
{}

/// A text has one answer at most besides out of memory. So each answer comes exactly where its text
/// calls for it.
pub fn texts_have_one_answer()
    ensures { (text : List ℕ) (a b : Result Parts TextRefusal)
        → IsAnswer text a → IsAnswer text b → a ≢ Err OutOfMemory → b ≢ Err OutOfMemory → a ≡ b }
{}

/// A field that is reported is the first wrong one: each component before it has its form.
pub fn wrong_fields_are_first()
    ensures { (items : Items) (wrong : WrongField)
        → descriptions_of items ≡ Err wrong → IsFirstWrong items wrong }
{}
