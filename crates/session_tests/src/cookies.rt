//! Cookies at values, signed by another implementation.

use crate::words::{
    add_hex, add_number, add_text, add_word, cut, expect_so, expect_words, hex_bytes,
};
use session_cookie::{Cookie, CookieRefusal, MAX_HOLDERS, decode_cookie, encode_cookie};
use std::alloc::Global;
use std::process::Abort;

/// A key, the text of a cookie, and what it says: the session's key, the version's node, boot and
/// serial, the expiry, and each brick with its incarnation. The texts are by Python:
///
/// ```text
/// fields = b"\x01" + session + struct.pack(">HIQQB", node, boot, serial, expiry, len(bricks))
/// fields += b"".join(struct.pack(">HQ", brick, incarnation) for brick, incarnation in bricks)
/// tag = hmac.new(key, fields, hashlib.sha256).digest()
/// print(base64.urlsafe_b64encode(fields + tag).rstrip(b"=").decode())
/// ```
///
/// The first has 123 characters, and its fields are, in hexadecimal, `01
/// 00000000000000000000000000000001 0001 00000001 0000000000000000 00000000001b7740 02 0001
/// 0000000000000001 0002 0000000000000001`. The last has 16 bricks, and a key of no bytes.
const SIGNED: &str =
    "0000000000000000000000000000000000000000000000000000000000000000|AQAAAAAAAAAAAAAAAAAAAAEAAQAAAAEAAAAAAAAAAAAAAAAAG3dAAgABAAAAAAAAAAEAAgAAAAAAAAAB_ciuFDDRY0zhwNcPAY6BG1axCldaHWsQAvkpd2WX8RU|00000000000000000000000000000001 1 1 0 1800000 1 1 2 1
4a656665|Af__________________________________________________Af____________9cpz-23kaJtM493PnWAGbFb_neNlAgMfWQ2gpeBmvoSg|ffffffffffffffffffffffffffffffff 65535 4294967295 18446744073709551615 18446744073709551615 65535 18446744073709551615
6b6b6b6b6b6b6b6b6b6b6b6b6b6b6b6b6b6b6b6b6b6b6b6b6b6b6b6b6b6b6b6b6b6b6b6b6b6b6b6b6b6b6b6b6b6b6b6b6b6b6b6b6b6b6b6b6b6b6b6b6b6b6b6b6b|AfDh0sO0pZaHeGlaSzwtHg8AAAAAAAAAAAAAAAAAAQAAAAAAAAAAAwAHAAAAAAAAAAABLAAAAAAAAQAAAAYAAAAAAAAAAUoSfRnkNWl2-n24TKeGfqI5brDAim4ZGVP9XiSx98-c|f0e1d2c3b4a5968778695a4b3c2d1e0f 0 0 1 0 7 0 300 65536 6 1
|AQARIjNEVWZ3iJmqu8zd7v8AAwAAAQKAAAAAAAAAAEAAAAAAAAAAEAAAAAAAAAAAAAEAAQAAAAAAAAACAAIAAAAAAAAABAADAAAAAAAAAAgABAAAAAAAAAAQAAUAAAAAAAAAIAAGAAAAAAAAAEAABwAAAAAAAACAAAgAAAAAAAABAAAJAAAAAAAAAgAACgAAAAAAAAQAAAsAAAAAAAAIAAAMAAAAAAAAEAAADQAAAAAAACAAAA4AAAAAAABAAAAPAAAAAAAAgABxqcmEiAmq1nUUY_vZhIFL_xpGgF9K3SzZI1q4lzpmrA|00112233445566778899aabbccddeeff 3 258 9223372036854775808 4611686018427387904 0 1 1 2 2 4 3 8 4 16 5 32 6 64 7 128 8 256 9 512 10 1024 11 2048 12 4096 13 8192 14 16384 15 32768";

/// Adds what a cookie says.
fn add_cookie(rt: &impl Abort, words: &mut String, cookie: &Cookie) {
    add_hex(rt, words, "", &cookie.key.0);
    add_number(rt, words, u64::from(cookie.version.node));
    add_number(rt, words, u64::from(cookie.version.boot));
    add_number(rt, words, cookie.version.serial);
    add_number(rt, words, cookie.expiry.0);
    for holder in cookie.bricks.as_slice() {
        add_number(rt, words, u64::from(holder.brick.0));
        add_number(rt, words, holder.incarnation);
    }
}

/// Adds what a cookie says, or why there is none.
fn add_answer(rt: &impl Abort, words: &mut String, answer: &Result<Cookie, CookieRefusal>) {
    match answer {
        Ok(cookie) => add_cookie(rt, words, cookie),
        Err(CookieRefusal::NotBase64) => add_word(rt, words, "not_base64"),
        Err(CookieRefusal::Form) => add_word(rt, words, "form"),
        Err(CookieRefusal::Tag) => add_word(rt, words, "tag"),
        Err(CookieRefusal::OutOfMemory) => add_word(rt, words, "out_of_memory"),
    }
}

fn expect_answer(rt: &impl Abort, alloc: Global, key: &[u8], text: &str, want: &str) {
    let mut words = String::new(alloc);
    add_answer(rt, &mut words, &decode_cookie(alloc, key, text.as_bytes()));
    expect_words(rt, &words, want, text);
}

/// Asserts that what a text says is written as the same text again.
fn expect_again(rt: &impl Abort, alloc: Global, key: &[u8], text: &str) {
    match decode_cookie(alloc, key, text.as_bytes()) {
        Err(_) => expect_words(rt, "no cookie", text, text),
        Ok(cookie) => {
            let again = encode_cookie(alloc, key, &cookie).expect(rt, text);
            let mut words = String::new(alloc);
            add_text(rt, &mut words, again.as_slice());
            expect_words(rt, &words, text, text);
        }
    }
}

fn expect_cookie(rt: &impl Abort, alloc: Global, row: &str) {
    let (key, rest) = cut(rt, row, '|');
    let (text, want) = cut(rt, rest, '|');
    let key = hex_bytes(rt, alloc, key);
    expect_answer(rt, alloc, &key, text, want);
    expect_again(rt, alloc, &key, text);
}

/// What is wrong with the first text above, the text so, and the refusal, under a key of 32 zero bytes.
/// Other fields have their own tag under this key, by the same lines of Python.
const REFUSED: &str =
    "padded|AQAAAAAAAAAAAAAAAAAAAAEAAQAAAAEAAAAAAAAAAAAAAAAAG3dAAgABAAAAAAAAAAEAAgAAAAAAAAAB_ciuFDDRY0zhwNcPAY6BG1axCldaHWsQAvkpd2WX8RU=|not_base64
its last unused bit set|AQAAAAAAAAAAAAAAAAAAAAEAAQAAAAEAAAAAAAAAAAAAAAAAG3dAAgABAAAAAAAAAAEAAgAAAAAAAAAB_ciuFDDRY0zhwNcPAY6BG1axCldaHWsQAvkpd2WX8RV|not_base64
a length that no bytes have|AQAAAAAAAAAAAAAAAAAAAAEAAQAAAAEAAAAAAAAAAAAAAAAAG3dAAgABAAAAAAAAAAEAAgAAAAAAAAAB_ciuFDDRY0zhwNcPAY6BG1axCldaHWsQAvkpd2WX8|not_base64
a byte that is none of the alphabet|AQAAAAAAAAAAAAAAAAAAAAEAAQAAAAEAAAAAAAAAAAAAAAAAG3dAAgABAAA+AAAAAAEAAgAAAAAAAAAB_ciuFDDRY0zhwNcPAY6BG1axCldaHWsQAvkpd2WX8RU|not_base64
empty||form
cut to 120 characters|AQAAAAAAAAAAAAAAAAAAAAEAAQAAAAEAAAAAAAAAAAAAAAAAG3dAAgABAAAAAAAAAAEAAgAAAAAAAAAB_ciuFDDRY0zhwNcPAY6BG1axCldaHWsQAvkpd2WX|form
a byte behind the tag|AQAAAAAAAAAAAAAAAAAAAAEAAQAAAAEAAAAAAAAAAAAAAAAAG3dAAgABAAAAAAAAAAEAAgAAAAAAAAAB_ciuFDDRY0zhwNcPAY6BG1axCldaHWsQAvkpd2WX8RUA|form
another first byte|AgAAAAAAAAAAAAAAAAAAAAEAAQAAAAEAAAAAAAAAAAAAAAAAG3dAAgABAAAAAAAAAAEAAgAAAAAAAAABb-QPLH5DAAIaXyjzNRR4FmpUxCfQtZ85x_ZcejHbecc|form
no bricks|AQAAAAAAAAAAAAAAAAAAAAEAAQAAAAEAAAAAAAAAAAAAAAAAG3dAAEyrzkiIroR7Ztyw-LhMp9MAB6CV50YVnuvfHU0qCDAk|form
two equal bricks|AQAAAAAAAAAAAAAAAAAAAAEAAQAAAAEAAAAAAAAAAAAAAAAAG3dAAwABAAAAAAAAAAEAAgAAAAAAAAABAAEAAAAAAAAAAnLobGeXC39dGSXg-01Eu8jRUJ7IjoWuDyvbYkscs8ra|form
17 bricks|AQAAAAAAAAAAAAAAAAAAAAEAAQAAAAEAAAAAAAAAAAAAAAAAG3dAEQAAAAAAAAAAAAEAAQAAAAAAAAABAAIAAAAAAAAAAQADAAAAAAAAAAEABAAAAAAAAAABAAUAAAAAAAAAAQAGAAAAAAAAAAEABwAAAAAAAAABAAgAAAAAAAAAAQAJAAAAAAAAAAEACgAAAAAAAAABAAsAAAAAAAAAAQAMAAAAAAAAAAEADQAAAAAAAAABAA4AAAAAAAAAAQAPAAAAAAAAAAEAEAAAAAAAAAABoQ8wvxMJxCchxnCvzPEU-1pSDCy3AlDr-8MsF-VHiHU|form
a count of one brick more|AQAAAAAAAAAAAAAAAAAAAAEAAQAAAAEAAAAAAAAAAAAAAAAAG3dAAwABAAAAAAAAAAEAAgAAAAAAAAABtnKJHwIbrjUO--YFqzWIderOn1pskLEa-08Pwqk4qD8|form
its sixtieth character changed|AQAAAAAAAAAAAAAAAAAAAAEAAQAAAAEAAAAAAAAAAAAAAAAAG3dAAgABAAABAAAAAAEAAgAAAAAAAAAB_ciuFDDRY0zhwNcPAY6BG1axCldaHWsQAvkpd2WX8RU|tag
signed under another key|AQAAAAAAAAAAAAAAAAAAAAEAAQAAAAEAAAAAAAAAAAAAAAAAG3dAAgABAAAAAAAAAAEAAgAAAAAAAAABhl-reubJ4OQoysFE6DXiKVhDHJ0EBcICMZBciqM1Ims|tag
the last bit of the tag|AQAAAAAAAAAAAAAAAAAAAAEAAQAAAAEAAAAAAAAAAAAAAAAAG3dAAgABAAAAAAAAAAEAAgAAAAAAAAAB_ciuFDDRY0zhwNcPAY6BG1axCldaHWsQAvkpd2WX8RQ|tag
the first bit of the tag|AQAAAAAAAAAAAAAAAAAAAAEAAQAAAAEAAAAAAAAAAAAAAAAAG3dAAgABAAAAAAAAAAEAAgAAAAAAAAABfciuFDDRY0zhwNcPAY6BG1axCldaHWsQAvkpd2WX8RU|tag";

fn expect_refusal(rt: &impl Abort, alloc: Global, row: &str) {
    let (_, rest) = cut(rt, row, '|');
    let (text, want) = cut(rt, rest, '|');
    expect_answer(rt, alloc, &[0; 32], text, want);
}

/// Cookies of another implementation are read, and texts that are no cookie are refused. Contracts cite the greatest
/// number of bricks by its name alone, so its value is tested.
#[test]
fn cookies_are_read_or_refused(rt: HostRuntime) {
    for row in SIGNED.split('\n') {
        expect_cookie(&rt, rt.alloc(), row);
    }
    for row in REFUSED.split('\n') {
        expect_refusal(&rt, rt.alloc(), row);
    }
    expect_so(&rt, MAX_HOLDERS == 16, "the greatest number of bricks");
}
