//! Laws of escaped texts and of pages. Each is the contract of a function that does nothing: a caller that needs
//! the law calls the function.

ghost use Rattle.std.specs.Prelude.{◌≡◌, ℕ, List, [], filter, map, Some, IsSome, All, false};
ghost use Rattle.page_text.specs.declared.page_line.PageLine.{PageLine};
ghost use Rattle.page_text.specs.WithoutTexts.{without_texts};
ghost use Rattle.page_text.specs.Escapes.{escaped, is_markup, unescaped};
ghost use Rattle.page_text.specs.Pages.{page_bytes};

/// An escaped text has no `<`, `>`, `"` or `'`. So it begins no tag and ends no attribute.
pub fn escapes_hide_markup()
    ensures { (text : List ℕ) → All (λ byte. is_markup byte ≡ false) (escaped text) }
{}

/// What was escaped reads back as the text that was given. So each `&` in it begins one of the five
/// references.
pub fn escapes_read_back()
    ensures { (text : List ℕ) → unescaped (escaped text) ≡ Some text }
{}

/// Texts that are escaped to the same bytes are the same.
pub fn escapes_differ()
    ensures { (text other : List ℕ) → escaped text ≡ escaped other → text ≡ other }
{}

/// A page has the markup of its lines alone: each `<`, `>`, `"` and `'` that it has with no heading and
/// with empty texts and addresses, in order, and no other. Each `&` of a page begins one of the five
/// references.
pub fn pages_have_own_markup_alone()
    ensures markup { (heading : List ℕ) (lines : List PageLine) →
        filter is_markup (page_bytes heading lines) ≡ filter is_markup (page_bytes [] (map without_texts lines)) }
    ensures references { (heading : List ℕ) (lines : List PageLine) → IsSome (unescaped (page_bytes heading lines)) }
{}
