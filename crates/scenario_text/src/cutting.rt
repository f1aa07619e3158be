//! Cutting a text into its lines.

ghost use Rattle.std.specs.Prelude.{◌≡◌, ◌++◌, ◌==◌, ◌<◌, ◌∷◌, position, length, MatchOption, IfSome};
ghost use Rattle.scenario_text.specs.Cutting.{IsOneLine};

/// The place of the first line feed.
fn first_feed(text: &[u8]) -> Option<usize>
    ensures { result ≡ position (λ b. b == 10) text.now }
{
    text.iter().position(|b| *b == b'\n')
}

/// The first line that has ended, and what follows its line feed. None exactly where there is no line
/// feed. It visits the bytes of that line.
pub fn ended_line(text: &[u8]) -> Option<(&[u8], &[u8])>
    ensures ended { MatchOption result (IsOneLine text.now)
        (λ cut. IsOneLine cut.0.now × (text.now ≡ cut.0.now ++ 10 ∷ cut.1.now)) }
    ensures shorter { IfSome result (λ cut. length cut.1.now < length text.now) }
{
    let at = first_feed(text)?;
    Some((&text[..at], &text[at + 1..]))
}
