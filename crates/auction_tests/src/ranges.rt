//! Each range of a call at its ends, and one over and one under.

use crate::texts::{HEAD, read};
use crate::words::{
    add_byte, add_hex_bytes, add_slice, byte_number, cut, expect_words, number, short_number,
};
use std::alloc::Global;
use std::process::Abort;

/// The fields of an action: `n5` is the number 5, `t3` a text of three letters, and `x` stands before
/// bytes in hexadecimal. Then whether there is such a call.
///
/// c3a9 is one letter of UTF-8; ff, c3 alone and c328 are none.
const FIELDS: &str = "2 t1 t1|call
2 t24 t72|call
2 t0 t1|none
2 t25 t72|none
2 t24 t0|none
2 t24 t73|none
2 x00015f t1|call
2 x00012d t1|none
2 x000120 t1|none
2 x0002c3a9 t1|none
2 t1 x0001ff|none
2 t1 x0002c328|none
3 t24 t72|call
3 t0 t1|none
3 t25 t1|none
3 t1 t0|none
3 t1 t73|none
6 t1|call
6 t40|call
6 t0|none
6 t41|none
6 x0002c3a9|call
6 x0001c3|none
7 n1 n0|call
7 n4294967295 n9999|call
7 n0 n0|none
7 n4294967296 n0|none
7 n4294967297 n0|none
7 n1 n10000|none
7 n1 n4294967296|none
8 n1|call
8 n4294967295|call
8 n0|none
8 n4294967296|none
9 n1|call
9 n4294967295|call
9 n0|none
9 n4294967296|none
11 t1 n1 n1 n0 n1|call
11 t80 n4294967295 n4000000000 n4000000000 n720|call
11 t0 n1 n1 n0 n1|none
11 t81 n1 n1 n0 n1|none
11 x0001ff n1 n1 n0 n1|none
11 t1 n0 n1 n0 n1|none
11 t1 n4294967296 n1 n0 n1|none
11 t1 n1 n0 n0 n1|none
11 t1 n1 n4000000001 n0 n1|none
11 t1 n1 n1 n4000000001 n1|none
11 t1 n1 n1 n0 n0|none
11 t1 n1 n1 n0 n721|none
11 t1 n1 n1 n0 n4294967297|none
12 n1 n1|call
12 n4294967295 n4000000000|call
12 n0 n1|none
12 n4294967296 n1|none
12 n1 n0|none
12 n1 n4000000001|none
13 n1|call
13 n4294967295|call
13 n0|none
13 n4294967296|none
14 n1|call
14 n4294967295|call
14 n0|none
14 n4294967296|none
15 n1 n0 t0|call
15 n4294967295 n1 t200|call
15 n0 n0 t0|none
15 n4294967296 n0 t0|none
15 n1 n2 t0|none
15 n1 n256 t0|none
15 n1 n0 t201|none
15 n1 n0 x0001ff|none
16 x0004626964|none
16 x0003424944|none
16 x0000|none
16 x0005686f6d6531|none";

/// The user, the moment and the random number of a call, and whether there is such a call.
const HEADS: &str = "n0 n0 n0|call
n4294967295 n4611686018427387903 n18446744073709551615|call
n4294967296 n0 n0|none
n0 n4611686018427387904 n0|none";

/// Adds a byte so many times.
fn add_times(rt: &impl Abort, bytes: &mut Vec<u8>, byte: u8, count: u64) {
    for _ in 0..count {
        add_byte(rt, bytes, byte);
    }
}

/// Adds the bytes of a field.
fn add_field(rt: &impl Abort, bytes: &mut Vec<u8>, field: &str) {
    if let Some(text) = field.strip_prefix('n') {
        add_slice(rt, bytes, &number(rt, text).to_be_bytes());
    } else if let Some(text) = field.strip_prefix('t') {
        add_slice(rt, bytes, &short_number(rt, text).to_be_bytes());
        add_times(rt, bytes, b'a', number(rt, text));
    } else if let Some(text) = field.strip_prefix('x') {
        add_hex_bytes(rt, bytes, text);
    }
}

/// Asserts whether bytes are a call.
fn expect_call(rt: &impl Abort, alloc: Global, bytes: &[u8], want: &str, row: &str) {
    let is_call = read(rt, alloc, bytes).is_some();
    expect_words(rt, if is_call { "call" } else { "none" }, want, row);
}

fn expect_fields(rt: &impl Abort, alloc: Global, row: &str) {
    let (text, want) = cut(rt, row, '|');
    let (number, fields) = cut(rt, text, ' ');
    let mut bytes = Vec::new(alloc);
    add_byte(rt, &mut bytes, byte_number(rt, number));
    add_hex_bytes(rt, &mut bytes, HEAD);
    for field in fields.split(' ') {
        add_field(rt, &mut bytes, field);
    }
    expect_call(rt, alloc, &bytes, want, row);
}

fn expect_head(rt: &impl Abort, alloc: Global, row: &str) {
    let (text, want) = cut(rt, row, '|');
    let (user, rest) = cut(rt, text, ' ');
    let (now, fresh) = cut(rt, rest, ' ');
    let mut bytes = Vec::new(alloc);
    add_byte(rt, &mut bytes, 1);
    add_field(rt, &mut bytes, user);
    add_times(rt, &mut bytes, 0, 16);
    add_field(rt, &mut bytes, now);
    add_field(rt, &mut bytes, fresh);
    add_times(rt, &mut bytes, 0, 56);
    expect_call(rt, alloc, &bytes, want, row);
}

#[test]
fn fields_and_heads_have_ranges(rt: HostRuntime) {
    for row in FIELDS.split('\n') {
        expect_fields(&rt, rt.alloc(), row);
    }
    for row in HEADS.split('\n') {
        expect_head(&rt, rt.alloc(), row);
    }
}
