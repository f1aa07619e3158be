//! What head lines say of sessions.

ghost use Rattle.std.specs.Prelude.{◌≡◌};
ghost use Rattle.scenario_text.specs.Answer.{KeepsRefused, answer_of};
ghost use Rattle.scenario_text.specs.Setup.{HasCounts, no_setup, are_counts, bricks_step, key_step};

use crate::answer::LineAnswer;
use crate::line::HexBytes;
use send_windows::MAX_BRICKS;
use std::marker::Model;

/// The fewest bytes of a key of the service.
pub const LEAST_KEY_BYTES: usize = 16;

/// The most bytes of a key of the service.
pub const MOST_KEY_BYTES: usize = 64;

/// How many bricks there are, how many of them a write asks at most, and how many are to store its value.
#[derive(Clone, Copy)]
pub struct BrickCounts {
    pub bricks: u16,
    pub most: u16,
    pub least: u16,
}

/// What head lines have said of sessions: the bricks, and the key of the service.
#[derive(Drop)]
pub struct Setup {
    counts: Option<BrickCounts>,
    key: Option<HexBytes>,
}

impl Model for Setup {
    ghost use Rattle.scenario_text.specs.Setup.{SetupState, HasCounts};

    ghost Value = { SetupState };

    ghost view = { λ s. record { counts = s.counts; key = s.key } };

    ghost invariant = { λ s. HasCounts s.counts };
}

/// Whether a write may ask and need so many of so many bricks.
fn are_counts(bricks: u64, most: u64, least: u64) -> bool
    ensures { result ≡ are_counts bricks most least }
{
    (1 <= least && least <= most) && (most <= bricks && bricks <= MAX_BRICKS as u64)
}

impl Setup {
    /// Nothing was said. It takes no memory.
    pub fn new() -> Setup
        ensures { result ≡ no_setup }
    {
        Setup {
            counts: None,
            key: None,
        }
    }

    /// There are so many bricks, of which a write asks at most and needs at least so many. It takes no memory.
    #[tactic(auto, unfolding(crate::specs::Setup::bricks_step))]
    pub fn bricks_line(&mut self, bricks: u64, most: u64, least: u64) -> LineAnswer
        ensures answer { answer_of result self.new ≡ bricks_step self.old bricks most least }
        ensures refused { KeepsRefused result self.old self.new }
    {
        if self.counts.is_some() {
            return LineAnswer::Refused;
        }
        if !are_counts(bricks, most, least) {
            return LineAnswer::Refused;
        }
        self.counts = Some(BrickCounts {
            bricks: bricks as u16,
            most: most as u16,
            least: least as u16,
        });
        LineAnswer::Done
    }

    /// The key of the service is given, which is not copied. It takes no memory.
    #[tactic(auto, unfolding(crate::specs::Setup::key_step))]
    pub fn key_line(&mut self, key: HexBytes) -> LineAnswer
        ensures answer { answer_of result self.new ≡ key_step self.old key }
        ensures refused { KeepsRefused result self.old self.new }
    {
        if self.key.is_some() {
            return LineAnswer::Refused;
        }
        if key.as_slice().len() < LEAST_KEY_BYTES {
            return LineAnswer::Refused;
        }
        if key.as_slice().len() > MOST_KEY_BYTES {
            return LineAnswer::Refused;
        }
        self.key = Some(key);
        LineAnswer::Done
    }

    /// The counts of the bricks and the key of the service, each where it was given. They are not copied.
    pub fn into_parts(self) -> (Option<BrickCounts>, Option<HexBytes>)
        ensures counts { result.0 ≡ self.counts }
        ensures key { result.1 ≡ self.key }
        ensures allowed { HasCounts result.0 }
    {
        (self.counts, self.key)
    }
}
