//! Words at values, which another program has made: the 256 bytes of a block are 0, 1, 2 and so on.

use crate::block_random::BlockRandom;
use outside::{Failed, Random};
use std::cell::Cell;
use std::io;
use std::io::ErrorKind;
use std::process::Abort;
use std::random::RandomSource;

/// The first word of a block, the second one, and the last one.
const FIRST: u64 = 0x2021_2223_2425_2627;

const SECOND: u64 = 0x2829_2a2b_2c2d_2e2f;

const LAST: u64 = 0xf8f9_fafb_fcfd_feff;

/// The first 8 bytes of the SHA-256 of the first 32 bytes of a block.
const HASHED: u64 = 7_137_586_562_153_591_654;

/// Gives the bytes from 0 on, but for the call that fails.
#[derive(Drop)]
struct Rising {
    calls: Cell<usize>,
    failing: usize,
}

impl RandomSource for Rising {
    fn fill_bytes(&self, buf: &mut [u8]) -> io::Result<()> {
        let calls = self.calls.get();
        self.calls.set(calls.saturating_add(1));
        if calls == self.failing {
            return Err(io::Error::from(ErrorKind::Other));
        }
        let mut next = 0u8;
        for byte in buf {
            *byte = next;
            next = next.wrapping_add(1);
        }
        Ok(())
    }
}

/// Expects the first word of a block, the last one, the two behind it, and so many failures and calls.
fn expect_words(rt: &impl Abort, failing: usize, behind: (u64, u64), faults: u64, calls: usize) {
    let source = Rising {
        calls: Cell::new(0),
        failing,
    };
    let mut random = BlockRandom::new(&source).ok().expect(rt, "a block");
    assert!(rt; random.word() == FIRST);
    for _ in 0..26 {
        let _ = random.word();
    }
    assert!(rt; random.word() == LAST);
    assert!(rt; source.calls.get() == 1);
    assert!(rt; random.word() == behind.0);
    assert!(rt; random.word() == behind.1);
    assert!(rt; random.faults() == faults);
    assert!(rt; source.calls.get() == calls);
}

#[test]
fn words_are_cut_off_blocks(rt: HostRuntime) {
    let failed = BlockRandom::new(Rising {
        calls: Cell::new(0),
        failing: 0,
    });
    assert!(rt; matches!(failed, Err(Failed)));
    expect_words(&rt, 1, (HASHED, FIRST), 1, 3);
    expect_words(&rt, 2, (FIRST, SECOND), 0, 2);
}
