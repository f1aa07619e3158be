//! The words of a line, one after another.

ghost use Rattle.std.specs.Prelude.{◌≡◌, ◌==◌, ◌∷◌, [], position, length, IfSome, IfNone};
ghost use Rattle.std.specs.Option.{option_copied, option_map};
ghost use Rattle.scenario_text.specs.Words.{words_of, words_after, no_words, one_word, two_words, three_words, four_words};

/// The place of the first space.
fn first_space(text: &[u8]) -> Option<usize>
    ensures { result ≡ position (λ b. b == 32) text.now }
{
    text.iter().position(|b| *b == b' ')
}

/// The first word of a text, and what is left from the space that ends it.
pub fn first_word(text: &[u8]) -> (&[u8], &[u8])
    ensures { words_of text.now ≡ result.0.now ∷ words_after result.1.now }
{
    match first_space(text) {
        None => (text, &text[text.len()..]),
        Some(at) => (&text[..at], &text[at..]),
    }
}

/// The next word, and what is left after it.
pub fn next_word(left: &[u8]) -> Option<(&[u8], &[u8])>
    ensures some { IfSome result (λ next.
        words_after left.now ≡ next.0.now ∷ words_after next.1.now) }
    ensures none { IfNone result (words_after left.now ≡ []) }
{
    match left {
        [] => None,
        [_, text @ ..] => Some(first_word(text)),
    }
}

/// Nothing, where no word is left.
pub fn no_words(left: &[u8]) -> Option<()>
    ensures { result ≡ no_words (words_after left.now) }
{
    if left.is_empty() { Some(()) } else { None }
}

/// The only word that is left.
pub fn one_word(left: &[u8]) -> Option<&[u8]>
    ensures { option_copied result ≡ one_word (words_after left.now) }
{
    let (word, left) = next_word(left)?;
    no_words(left)?;
    Some(word)
}

/// The two words that are left.
pub fn two_words(left: &[u8]) -> Option<(&[u8], &[u8])>
    ensures { option_map (λ w. (w.0.now, w.1.now)) result ≡ two_words (words_after left.now) }
{
    let (first, left) = next_word(left)?;
    let second = one_word(left)?;
    Some((first, second))
}

/// The three words that are left.
pub fn three_words(left: &[u8]) -> Option<(&[u8], &[u8], &[u8])>
    ensures { option_map (λ w. (w.0.now, w.1.now, w.2.now)) result
        ≡ three_words (words_after left.now) }
{
    let (first, left) = next_word(left)?;
    let (second, third) = two_words(left)?;
    Some((first, second, third))
}

/// The four words that are left.
pub fn four_words(left: &[u8]) -> Option<(&[u8], &[u8], &[u8], &[u8])>
    ensures { option_map (λ w. (w.0.now, w.1.now, w.2.now, w.3.now)) result
        ≡ four_words (words_after left.now) }
{
    let (first, left) = next_word(left)?;
    let (second, third, fourth) = three_words(left)?;
    Some((first, second, third, fourth))
}
