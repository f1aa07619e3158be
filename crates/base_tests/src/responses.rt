//! The bytes of responses, written by hand.

use crate::words::{byte, cut, expect_bytes, number};
use crash_base::{CookieText, PageText};
use http_wire::{CookieField, ExtraFields, response_bytes};
use std::alloc::Global;
use std::process::Abort;

fn extra(cookie: CookieField, retry: bool, allow: u8, close: bool) -> ExtraFields {
    ExtraFields {
        cookie,
        retry,
        allow,
        close,
    }
}

/// Asserts that a response with the page `abc` has these bytes, and the one to HEAD the same without the page.
fn expect_response(rt: &impl Abort, alloc: Global, status: u16, extra: &ExtraFields, head: &str) {
    let page = PageText::copied(alloc, b"abc").expect(rt, head);
    let whole = response_bytes(alloc, status, extra, &page, false).expect(rt, head);
    let want = format!(in alloc; "{head}abc").expect(rt, head);
    expect_bytes(rt, whole.as_slice(), want.as_bytes(), head);
    let bare = response_bytes(alloc, status, extra, &page, true).expect(rt, head);
    expect_bytes(rt, bare.as_slice(), head.as_bytes(), head);
}

/// A response has its fields in order.
fn expect_order(rt: &impl Abort, alloc: Global) {
    let none = extra(CookieField::None, false, 0, false);
    let head =
        "HTTP/1.1 200 OK\r\nContent-Type: text/html; charset=utf-8\r\nContent-Length: 3\r\n\r\n";
    expect_response(rt, alloc, 200, &none, head);
    let text = CookieText::copied(alloc, b"AbC-_9").expect(rt, "a cookie");
    let all = extra(CookieField::Set(text), true, 3, true);
    let head =
        "HTTP/1.1 503 Service Unavailable\r\nContent-Type: text/html; charset=utf-8\r\nContent-Length: 3\r\n\
                Set-Cookie: crash=AbC-_9; Path=/; Max-Age=1800; HttpOnly\r\nRetry-After: 2\r\n\
                Allow: GET, HEAD, POST\r\nConnection: close\r\n\r\n";
    expect_response(rt, alloc, 503, &all, head);
    let cleared = extra(CookieField::Clear, false, 0, false);
    let head =
        "HTTP/1.1 403 Forbidden\r\nContent-Type: text/html; charset=utf-8\r\nContent-Length: 3\r\n\
                Set-Cookie: crash=; Path=/; Max-Age=0; HttpOnly\r\n\r\n";
    expect_response(rt, alloc, 403, &cleared, head);
}

/// Asserts that a response of a status, where these methods are there, has this reason and these fields.
fn expect_head(rt: &impl Abort, alloc: Global, row: &str) {
    let (status, rest) = cut(rt, row, '|');
    let (reason, rest) = cut(rt, rest, '|');
    let (allow, field) = cut(rt, rest, '|');
    let head = format!(in alloc;
        "HTTP/1.1 {status} {reason}\r\nContent-Type: text/html; charset=utf-8\r\nContent-Length: 3\r\n{field}\r\n"
    ).expect(rt, row);
    let status = number(rt, status);
    assert!(rt; status < 0x1_0000);
    let extra = extra(CookieField::None, false, byte(rt, allow), false);
    expect_response(rt, alloc, status as u16, &extra, head.as_str());
}

/// Methods that there are, and the field that names them; then statuses, and their reasons.
const HEADS: &str = "405|Method Not Allowed|1|Allow: GET, HEAD\r\n~\
405|Method Not Allowed|2|Allow: POST\r\n~\
405|Method Not Allowed|3|Allow: GET, HEAD, POST\r\n~\
405|Method Not Allowed|0|~\
405|Method Not Allowed|4|~\
405|Method Not Allowed|255|~\
200|OK|0|~\
400|Bad Request|0|~\
403|Forbidden|0|~\
404|Not Found|0|~\
405|Method Not Allowed|0|~\
409|Conflict|0|~\
413|Content Too Large|0|~\
415|Unsupported Media Type|0|~\
431|Request Header Fields Too Large|0|~\
500|Internal Server Error|0|~\
501|Not Implemented|0|~\
503|Service Unavailable|0|~\
204||0|~\
999||0|~\
0||0|~\
65535||0|";

/// The first page of who is signed out has 120 bytes.
fn expect_home(rt: &impl Abort, alloc: Global) {
    let home = "<!doctype html>\n<title>Auctions</title>\n<h1>Auctions</h1>\n<p>Signed out</p>\n\
                <p><a href=\"/categories\">Categories</a></p>\n";
    let page = PageText::copied(alloc, home.as_bytes()).expect(rt, "a page");
    let none = extra(CookieField::None, false, 0, false);
    let response = response_bytes(alloc, 200, &none, &page, false).expect(rt, "a response");
    let want = format!(in alloc;
        "HTTP/1.1 200 OK\r\nContent-Type: text/html; charset=utf-8\r\nContent-Length: 120\r\n\r\n{home}"
    ).expect(rt, "a response");
    expect_bytes(rt, response.as_slice(), want.as_bytes(), "the first page");
}

#[test]
fn responses_have_their_bytes(rt: HostRuntime) {
    expect_order(&rt, rt.alloc());
    for row in HEADS.split('~') {
        expect_head(&rt, rt.alloc(), row);
    }
    expect_home(&rt, rt.alloc());
}
