//! A source of random words over the system's.

ghost use Rattle.std.specs.Prelude.{◌≡◌, IfOk, length};
ghost use Rattle.outside.specs.Random.{HasDrawn, word_of};

use crate::failed::Failed;
use crate::random::Random;
use crash_base::take_u64;
use sha2::{Digest, Sha256};
use std::marker::Model;
use std::random::RandomSource;

/// A source of random words over the system's, which gives 32 bytes for each word. Where the system's
/// source fails, the bytes are the SHA-256 (FIPS 180-4) of those before, and the failure is counted.
#[derive(Drop)]
pub struct SystemRandom<R: RandomSource + Drop> {
    system: R,
    seed: [u8; 32],
    faults: u64,
}

impl<R: RandomSource + Drop> Model for SystemRandom<R> {
    ghost use Rattle.outside.specs.Random.{SystemRandomValue};

    ghost Value = { SystemRandomValue };

    ghost view = { λ r. record { seed = r.seed; faults = r.faults } };
}

impl<R: RandomSource + Drop> SystemRandom<R> {
    /// A source that is filled by the system's.
    ///
    /// # Errors
    /// `Failed` where the system's source fails.
    pub fn new(system: R) -> Result<SystemRandom<R>, Failed>
        ensures { IfOk result (λ r. r.faults ≡ 0) }
    {
        let mut seed = [0; 32];
        match system.fill_bytes(&mut seed) {
            Ok(()) => Ok(SystemRandom {
                system,
                seed,
                faults: 0,
            }),
            Err(_) => Err(Failed),
        }
    }

    /// How often the system's source has failed.
    pub fn faults(&self) -> u64
        ensures { result ≡ self.now.faults }
    {
        self.faults
    }
}

impl<R: RandomSource + Drop> Random for SystemRandom<R> {
    ghost gives = { λ old word new. word ≡ word_of new.seed };

    fn word(&mut self) -> u64
        ensures answer { result ≡ word_of self.new.seed }
        ensures drawn { HasDrawn self.old self.new }
    {
        let mut next = [0; 32];
        match self.system.fill_bytes(&mut next) {
            Ok(()) => self.seed = next,
            Err(_) => {
                self.seed = Sha256::digest(&self.seed);
                self.faults = self.faults.saturating_add(1);
            }
        }
        first_word(&self.seed)
    }
}

/// The first 8 bytes, as a big-endian number.
fn first_word(seed: &[u8; 32]) -> u64
    ensures { result ≡ word_of seed.now }
{
    match take_u64(seed) {
        Some((word, _)) => word,
        None => 0,
    }
}
