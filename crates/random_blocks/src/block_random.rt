//! A source of random words over the system's, by blocks.

ghost use Rattle.std.specs.Prelude.{◌≡◌, ◌<◌, ◌+◌, ◌≤◌, ◌⊎◌, length, take, drop, IfOk};
ghost use Rattle.outside.specs.Random.{word_of};
ghost use Rattle.random_blocks.specs.Blocks.{HasDrawn, IsCut, IsFilled, IsFirst, IsHashed};

use crash_base::take_u64;
use outside::{Failed, Random};
use sha2::{Digest, Sha256};
use std::marker::Model;
use std::random::RandomSource;

/// How many bytes the system's source is asked for at once: no call of the system gives more.
const BLOCK_BYTES: usize = 256;

/// How many bytes at the beginning of a block go into no word.
const SEED_BYTES: usize = 32;

/// A source of random words over the system's, which is asked for 256 bytes at once. Where it fails, a word comes of the
/// SHA-256 (FIPS 180-4) of 32 bytes that went into no word, and the failure is counted.
#[derive(Drop)]
pub struct BlockRandom<R: RandomSource + Drop> {
    system: R,
    block: [u8; BLOCK_BYTES],
    /// Where the bytes of the block begin that went into no word yet.
    at: usize,
    seed: [u8; SEED_BYTES],
    faults: u64,
}

impl<R: RandomSource + Drop> Model for BlockRandom<R> {
    ghost use Rattle.std.specs.Prelude.{◌≤◌, drop};
    ghost use Rattle.random_blocks.specs.Blocks.{BlockValue};

    ghost Value = { BlockValue };

    ghost view = { λ r. record { left = drop r.at r.block; seed = r.seed; faults = r.faults } };

    ghost invariant = { λ r. r.at ≤ 256 };
}

/// The 8 bytes at a place of a block, as a big-endian number.
#[tactic(auto, using(crate::proofs::Words::rest_of))]
fn word_at(block: &[u8; BLOCK_BYTES], at: usize) -> u64
    requires { at + 8 ≤ 256 }
    ensures { result ≡ word_of (drop at block.now) }
{
    match take_u64(&block[at..]) {
        Some((word, _)) => word,
        None => unreachable!(),
    }
}

/// The first 8 bytes of a seed, as a big-endian number.
fn first_word(seed: &[u8; SEED_BYTES]) -> u64
    ensures { result ≡ word_of seed.now }
{
    match take_u64(seed) {
        Some((word, _)) => word,
        None => unreachable!(),
    }
}

/// The first bytes of a block, which go into no word.
fn seed_of(block: &[u8; BLOCK_BYTES]) -> [u8; SEED_BYTES]
    ensures { result ≡ take 32 block.now }
{
    let mut seed = [0; SEED_BYTES];
    seed.copy_from_slice(&block[..SEED_BYTES]);
    seed
}

impl<R: RandomSource + Drop> BlockRandom<R> {
    /// A source with a block of the system's.
    ///
    /// # Errors
    /// `Failed` where the system's source fails.
    pub fn new(system: R) -> Result<BlockRandom<R>, Failed>
        ensures filled { IfOk result (λ r. IsFilled r.left r.seed) }
        ensures faults { IfOk result (λ r. r.faults ≡ 0) }
    {
        let mut block = [0; BLOCK_BYTES];
        match system.fill_bytes(&mut block) {
            Ok(()) => Ok(BlockRandom {
                system,
                at: SEED_BYTES,
                seed: seed_of(&block),
                block,
                faults: 0,
            }),
            Err(_) => Err(Failed),
        }
    }

    /// How often the system's source has failed.
    pub fn faults(&self) -> u64
        ensures { result ≡ self.now.faults }
    {
        self.faults
    }

    /// The next word of the block.
    fn cut(&mut self) -> u64
        requires { 8 ≤ length self.old.left }
        ensures { IsCut self.old result self.new }
    {
        let word = word_at(&self.block, self.at);
        self.at += 8;
        word
    }

    /// A word where the block is spent: the first one of a new block, or one of the seed.
    fn draw(&mut self) -> u64
        requires { length self.old.left < 8 }
        ensures { IsFirst self.old result self.new ⊎ IsHashed self.old result self.new }
    {
        let mut block = [0; BLOCK_BYTES];
        match self.system.fill_bytes(&mut block) {
            Ok(()) => {
                self.seed = seed_of(&block);
                self.block = block;
                self.at = SEED_BYTES + 8;
                word_at(&block, SEED_BYTES)
            }
            Err(_) => {
                self.seed = Sha256::digest(&self.seed);
                self.faults = self.faults.saturating_add(1);
                first_word(&self.seed)
            }
        }
    }
}

impl<R: RandomSource + Drop> Random for BlockRandom<R> {
    ghost gives = { HasDrawn };

    fn word(&mut self) -> u64
        ensures { HasDrawn self.old result self.new }
    {
        if BLOCK_BYTES - self.at < 8 {
            self.draw()
        } else {
            self.cut()
        }
    }
}
