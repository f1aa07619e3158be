//! Form tokens at values.

use crate::words::{
    add_number, add_text, add_word, cut, expect_so, expect_words, hex_bytes, number, session,
};
use crash_base::RequestNo;
use session_cookie::{TOKEN_DIGITS, form_token, read_token};
use std::alloc::Global;
use std::process::Abort;

/// A key, a session, the boot and the serial of a request, and the token, by Python:
///
/// ```text
/// at = struct.pack(">IQ", boot, serial)
/// tag = hmac.new(key, b"form" + session + at, hashlib.sha256).digest()
/// print((at + tag[:16]).hex())
/// ```
const TOKENS: &str =
    "0000000000000000000000000000000000000000000000000000000000000000|00000000000000000000000000000001|1|0|0000000100000000000000002ce89bc0d438870ec540e9825e0a378c
4a656665|ffffffffffffffffffffffffffffffff|4294967295|18446744073709551615|ffffffffffffffffffffffffde66ae703c54a1652d6bcefe4df62662
6b6b6b6b6b6b6b6b6b6b6b6b6b6b6b6b6b6b6b6b6b6b6b6b6b6b6b6b6b6b6b6b6b6b6b6b6b6b6b6b6b6b6b6b6b6b6b6b6b6b6b6b6b6b6b6b6b6b6b6b6b6b6b6b6b|00112233445566778899aabbccddeeff|2882400001|81985529216486895|abcdef010123456789abcdefda68e6b968d3c8324c543b0be67b3a7d";

/// The number below 2^32 that a text spells.
fn word_number(rt: &impl Abort, text: &str) -> u32 {
    let number = number(rt, text);
    assert!(rt; number < 0x1_0000_0000);
    number as u32
}

fn expect_token(rt: &impl Abort, alloc: Global, row: &str) {
    let (key, rest) = cut(rt, row, '|');
    let (session_text, rest) = cut(rt, rest, '|');
    let (boot, rest) = cut(rt, rest, '|');
    let (serial, want) = cut(rt, rest, '|');
    let request = RequestNo {
        boot: word_number(rt, boot),
        serial: number(rt, serial),
    };
    let token = form_token(
        &hex_bytes(rt, alloc, key),
        session(rt, alloc, session_text),
        request,
    );
    let mut words = String::new(alloc);
    add_text(rt, &mut words, &token);
    expect_words(rt, &words, want, row);
}

/// Adds the request that a token is of, or `none`.
fn add_request(rt: &impl Abort, words: &mut String, request: Option<RequestNo>) {
    match request {
        None => add_word(rt, words, "none"),
        Some(request) => {
            add_number(rt, words, u64::from(request.boot));
            add_number(rt, words, request.serial);
        }
    }
}

/// A key, a session, a token, and the request that is read.
const READ: &str =
    "0000000000000000000000000000000000000000000000000000000000000000|00000000000000000000000000000001|0000000100000000000000002ce89bc0d438870ec540e9825e0a378c|1 0
4a656665|ffffffffffffffffffffffffffffffff|ffffffffffffffffffffffffde66ae703c54a1652d6bcefe4df62662|4294967295 18446744073709551615
6b6b6b6b6b6b6b6b6b6b6b6b6b6b6b6b6b6b6b6b6b6b6b6b6b6b6b6b6b6b6b6b6b6b6b6b6b6b6b6b6b6b6b6b6b6b6b6b6b6b6b6b6b6b6b6b6b6b6b6b6b6b6b6b6b|00112233445566778899aabbccddeeff|abcdef010123456789abcdefda68e6b968d3c8324c543b0be67b3a7d|2882400001 81985529216486895";

fn expect_request(rt: &impl Abort, alloc: Global, row: &str) {
    let (key, rest) = cut(rt, row, '|');
    let (session_text, rest) = cut(rt, rest, '|');
    let (token, want) = cut(rt, rest, '|');
    let found = read_token(
        &hex_bytes(rt, alloc, key),
        session(rt, alloc, session_text),
        token.as_bytes(),
    );
    let mut words = String::new(alloc);
    add_request(rt, &mut words, found);
    expect_words(rt, &words, want, row);
}

/// The first token above: with capital digits, cut, longer, with its boot, serial or tag changed, with
/// bytes that are no digits, and as one of another session and under another key.
const REFUSED: &str =
    "0000000000000000000000000000000000000000000000000000000000000000|00000000000000000000000000000001|0000000100000000000000002CE89BC0D438870EC540E9825E0A378C|none
6b6b6b6b6b6b6b6b6b6b6b6b6b6b6b6b6b6b6b6b6b6b6b6b6b6b6b6b6b6b6b6b6b6b6b6b6b6b6b6b6b6b6b6b6b6b6b6b6b6b6b6b6b6b6b6b6b6b6b6b6b6b6b6b6b|00112233445566778899aabbccddeeff|ABCDEF010123456789abcdefda68e6b968d3c8324c543b0be67b3a7d|none
6b6b6b6b6b6b6b6b6b6b6b6b6b6b6b6b6b6b6b6b6b6b6b6b6b6b6b6b6b6b6b6b6b6b6b6b6b6b6b6b6b6b6b6b6b6b6b6b6b6b6b6b6b6b6b6b6b6b6b6b6b6b6b6b6b|00112233445566778899aabbccddeeff|Abcdef010123456789abcdefda68e6b968d3c8324c543b0be67b3a7d|none
0000000000000000000000000000000000000000000000000000000000000000|00000000000000000000000000000001|0000000100000000000000002ce89bc0d438870ec540e9825e0a378|none
0000000000000000000000000000000000000000000000000000000000000000|00000000000000000000000000000001|000000010000000000000000|none
0000000000000000000000000000000000000000000000000000000000000000|00000000000000000000000000000001||none
0000000000000000000000000000000000000000000000000000000000000000|00000000000000000000000000000001|0000000100000000000000002ce89bc0d438870ec540e9825e0a378c0|none
0000000000000000000000000000000000000000000000000000000000000000|00000000000000000000000000000001|00000000100000000000000002ce89bc0d438870ec540e9825e0a378c|none
0000000000000000000000000000000000000000000000000000000000000000|00000000000000000000000000000001|0000000200000000000000002ce89bc0d438870ec540e9825e0a378c|none
0000000000000000000000000000000000000000000000000000000000000000|00000000000000000000000000000001|0000000100000000000000012ce89bc0d438870ec540e9825e0a378c|none
0000000000000000000000000000000000000000000000000000000000000000|00000000000000000000000000000001|0000000100000000000000003ce89bc0d438870ec540e9825e0a378c|none
0000000000000000000000000000000000000000000000000000000000000000|00000000000000000000000000000001|0000000100000000000000002ce89bc0d438870ec540e9825e0a378d|none
0000000000000000000000000000000000000000000000000000000000000000|00000000000000000000000000000001|g000000100000000000000002ce89bc0d438870ec540e9825e0a378c|none
0000000000000000000000000000000000000000000000000000000000000000|00000000000000000000000000000001|0000000100000000000000002ce89bc0d438870ec540e9825e0a378 |none
0000000000000000000000000000000000000000000000000000000000000000|00000000000000000000000000000002|0000000100000000000000002ce89bc0d438870ec540e9825e0a378c|none
0100000000000000000000000000000000000000000000000000000000000000|00000000000000000000000000000001|0000000100000000000000002ce89bc0d438870ec540e9825e0a378c|none";

/// Tokens are written and read, and no other text is a token. Contracts cite the number of digits by its name alone, so
/// its value is tested.
#[test]
fn tokens_are_written_and_read(rt: HostRuntime) {
    for row in TOKENS.split('\n') {
        expect_token(&rt, rt.alloc(), row);
    }
    for table in [READ, REFUSED] {
        for row in table.split('\n') {
            expect_request(&rt, rt.alloc(), row);
        }
    }
    expect_so(&rt, TOKEN_DIGITS == 56, "the number of digits");
}
