//! Random words off blocks: a source of words that asks the system for many of them at once.
//!
//! ```text
//! let mut random = BlockRandom::new(system)?;  // a block of 256 bytes, in one call of the system's source
//! let word = random.word();                    // 8 bytes of the block; only each 28th word makes a call again
//! ```
//!
//! A call of the system's source costs more than all else that a word takes, and a call for 256 bytes hardly more than
//! one for 8. So a word is cut off a block, and each byte of a block goes into one word at most. The first 32 bytes of a
//! block go into none: where the system's source fails, the words come of their SHA-256, as those of `SystemRandom` of
//! `outside` do.
//!
//! What is promised is `HasDrawn` of `specs/Blocks`. A word takes no memory. A source has 300 bytes, and belongs to one
//! thread.
#![tactic(auto)]

mod block_random;
#[cfg(test)]
mod tests;

pub use block_random::BlockRandom;
