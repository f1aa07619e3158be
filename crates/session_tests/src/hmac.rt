//! HMAC-SHA-256 at values.

use crate::words::{add_hex, cut, expect_so, hex_bytes, number};
use session_cookie::hmac_sha256;
use std::alloc::Global;
use std::process::Abort;

/// The cases 1 to 7 of RFC 4231: a key, a text and how the value begins, since of case 5 only half is
/// there. `0b*20` is a byte 20 times, `0x01` begins bytes, and other words are text.
const RFC_4231: &str =
    "0b*20|Hi There|b0344c61d8db38535ca8afceaf0bf12b881dc200c9833da726e9376c2e32cff7
Jefe|what do ya want for nothing?|5bdcc146bf60754e6a042426089575c75a003f089d2739839dec58b964ec3843
aa*20|dd*50|773ea91e36800e46854db8ebd09181a72959098b3ef8c122d9635514ced565fe
0x0102030405060708090a0b0c0d0e0f10111213141516171819|cd*50|82558a389a443c0ea4cc819899f2083a85f0faa3e578f8077a2e3ff46729665b
0c*20|Test With Truncation|a3b6167473100ee06e0c796c2955552b
aa*131|Test Using Larger Than Block-Size Key - Hash Key First|60e431591ee0b67f0d8a26aacbf5b77f8e0bc6213728c5140546040f0ee37f54
aa*131|This is a test using a larger than block-size key and a larger than block-size data. The key needs to be hashed before being used by the HMAC algorithm.|9b09ffa71b942fcb27635fbcd5b0e944bfdc63644f0713938a7f51535c3a35e2";

/// Keys about as long as a block, by Python: `hmac.new(b"k" * 65, b"key of 65 bytes", "sha256").hexdigest()`
/// and so on. The third key is `hashlib.sha256(b"k" * 65).digest()`, so its value is the first one. The
/// last row is of no key and no text.
const AT_THE_BLOCK: &str =
    "6b*65|key of 65 bytes|5ccdd89c17268210155fd7ab12a301494d44a5d933d4dc48959b8937f84eba40
6b*64|key of 64 bytes|963777f182b5207cc287511d0b802e25e9366470dd64b2d792b8b7609280477a
0xf39cdc2584758c99cf81c1f41d2572f54e17066afffc9d187aeafe5f7cbe2122|key of 65 bytes|5ccdd89c17268210155fd7ab12a301494d44a5d933d4dc48959b8937f84eba40
||b613679a0814d9ec772f95d778c35fc5ff1697c493715653c6c712144292c5ad";

fn repeated(rt: &impl Abort, alloc: Global, digits: &str, count: &str) -> Vec<u8> {
    let bytes = hex_bytes(rt, alloc, digits);
    bytes
        .repeat(alloc, number(rt, count) as usize)
        .expect(rt, digits)
}

/// The bytes that a word of a row means.
fn bytes(rt: &impl Abort, alloc: Global, word: &str) -> Vec<u8> {
    match word.split_once('*') {
        Some((digits, count)) => repeated(rt, alloc, digits, count),
        None => match word.strip_prefix("0x") {
            Some(digits) => hex_bytes(rt, alloc, digits),
            None => Vec::from_slice(alloc, word.as_bytes()).expect(rt, word),
        },
    }
}

fn expect_value(rt: &impl Abort, alloc: Global, row: &str) {
    let (key, rest) = cut(rt, row, '|');
    let (text, want) = cut(rt, rest, '|');
    let value = hmac_sha256(&bytes(rt, alloc, key), &bytes(rt, alloc, text));
    let mut found = String::new(alloc);
    add_hex(rt, &mut found, "", &value);
    expect_so(rt, found.trim_start().starts_with(want), row);
}

/// Values are those of RFC 4231. A key longer than a block is hashed first.
#[test]
fn values_are_those_of_others(rt: HostRuntime) {
    for table in [RFC_4231, AT_THE_BLOCK] {
        for row in table.split('\n') {
            expect_value(&rt, rt.alloc(), row);
        }
    }
}
