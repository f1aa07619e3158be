//! HMAC-SHA-256.

ghost use Rattle.std.specs.Prelude.{◌≡◌, ◌↔◌, length, IsTrue};
ghost use Rattle.session_cookie.specs.Hmac.{block_of, hmac, masked};

use sha2::{Digest, Sha256};

/// The key as one block.
fn block_of(key: &[u8]) -> [u8; 64]
    ensures { result ≡ block_of key.now }
{
    let mut block = [0u8; 64];
    if key.len() > 64 {
        let digest = Sha256::digest(key);
        for i in 0..32 {
            block[i] = digest[i];
        }
    } else {
        for i in 0..key.len() {
            block[i] = key[i];
        }
    }
    block
}

fn masked(mask: u8, block: &[u8; 64]) -> [u8; 64]
    ensures { result ≡ masked mask block.now }
{
    let mut masked = [0u8; 64];
    for i in 0..64 {
        masked[i] = block[i] ^ mask;
    }
    masked
}

/// The HMAC-SHA-256 of a text under a key (RFC 2104, section 2). Both have any length; a key of more
/// than 64 bytes is hashed first. It takes no memory, and visits each byte of both once.
#[tactic(auto, unfolding(crate::specs::Hmac::hmac))]
pub fn hmac_sha256(key: &[u8], text: &[u8]) -> [u8; 32]
    ensures { result ≡ hmac key.now text.now }
{
    let block = block_of(key);
    let mut inner = Sha256::new();
    inner.update(masked(0x36, &block).as_slice());
    inner.update(text);
    let digest = inner.finalize();
    let mut outer = Sha256::new();
    outer.update(masked(0x5c, &block).as_slice());
    outer.update(digest.as_slice());
    outer.finalize()
}

/// Whether two lists of bytes are the same. It visits each byte, also after one that differs, so that
/// the time tells nothing of where they do.
pub fn is_same(a: &[u8], b: &[u8]) -> bool
    requires { length a.now ≡ length b.now }
    ensures { IsTrue result ↔ (a.now ≡ b.now) }
{
    let mut differing = 0u8;
    for i in 0..a.len() {
        differing |= a[i] ^ b[i];
    }
    differing == 0
}
