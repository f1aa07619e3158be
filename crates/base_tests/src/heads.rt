//! Heads of requests, as clients send them and as none should, and what is taken from them.

use crate::words::{add_text, add_word, cut, expect_words, is_heading};
use http_wire::{Head, MethodKind, Received, Taken, is_settled, path_and_query, take_request};
use std::alloc::Global;
use std::fmt::Write;
use std::process::Abort;

fn method_word(method: MethodKind) -> &'static str {
    match method {
        MethodKind::Get => "get",
        MethodKind::HeadOnly => "head",
        MethodKind::Post => "post",
        MethodKind::Other => "other",
    }
}

/// Adds a request: its method, its target, and of the rest what is there.
fn add_request(rt: &impl Abort, words: &mut String, head: &Head) {
    add_word(rt, words, method_word(head.method));
    add_text(rt, words, " ", head.target.as_slice());
    if head.close {
        add_word(rt, words, "close");
    }
    match &head.cookie {
        None => {}
        Some(text) => add_text(rt, words, " cookie=", text.as_slice()),
    }
    if head.multipart {
        add_word(rt, words, "multipart");
    }
    if !head.body.is_empty() {
        add_text(rt, words, " body=", head.body.as_slice());
    }
}

/// Adds what was taken.
fn add_taken(rt: &impl Abort, words: &mut String, taken: &Taken) {
    match taken {
        Taken::Request(head) => add_request(rt, words, head),
        Taken::Bad => add_word(rt, words, "bad"),
        Taken::TooLong { len, lines } => {
            write!(words, " long {len} {lines}").expect(rt, "a long head");
        }
        Taken::NoCoding => add_word(rt, words, "coding"),
        Taken::BodyTooLong { length } => {
            write!(words, " body {length}").expect(rt, "a long body");
        }
        Taken::More => add_word(rt, words, "more"),
    }
}

/// Asserts that this is taken from bytes.
fn expect_taken(rt: &impl Abort, alloc: Global, bytes: &[u8], want: &str) {
    let taken = take_request(alloc, bytes).expect(rt, want);
    let mut words = String::new(alloc);
    add_taken(rt, &mut words, &taken);
    expect_words(rt, words.as_str(), want, want);
    assert!(rt; is_settled(bytes) == (want != "more"), "{want}");
}

/// Asserts that the whole of a text is this request, and that no front of it is one.
fn expect_request(rt: &impl Abort, alloc: Global, text: &str, want: &str) {
    let bytes = text.as_bytes();
    expect_taken(rt, alloc, bytes, want);
    match take_request(alloc, bytes).expect(rt, want) {
        Taken::Request(head) => assert!(rt; head.len == bytes.len() as u64, "{want}"),
        _ => assert!(rt; false, "{want}"),
    }
    for len in 0..bytes.len() {
        assert!(rt; !is_settled(&bytes[..len]), "{want}");
    }
}

/// Requests as clients send them, then requests that few clients send, and what is taken from each. Behind each row but
/// the last is a `~`.
const REQUESTS: &str = "\
# Firefox 128~\
GET /item/7 HTTP/1.1\r\nHost: localhost:8080\r\nUser-Agent: Mozilla/5.0 (X11; Linux x86_64; rv:128.0) \
         Gecko/20100101 Firefox/128.0\r\nAccept: text/html,application/xhtml+xml,application/xml;q=0.9,*/*;q=0.8\r\n\
         Accept-Language: en-US,en;q=0.5\r\nAccept-Encoding: gzip, deflate, br, zstd\r\nConnection: keep-alive\r\n\
         Cookie: crash=AbC-_9\r\nUpgrade-Insecure-Requests: 1\r\nSec-Fetch-Dest: document\r\nSec-Fetch-Mode: \
         navigate\r\nSec-Fetch-Site: none\r\nSec-Fetch-User: ?1\r\nPriority: u=0, i\r\n\r\n|get /item/7 cookie=AbC-_9~\
# Chromium 129, a form that is sent~\
POST /bid HTTP/1.1\r\nHost: localhost:8080\r\nConnection: keep-alive\r\nContent-Length: 17\r\n\
         Cache-Control: max-age=0\r\nsec-ch-ua: \"Chromium\";v=\"129\", \"Not=A?Brand\";v=\"8\"\r\nsec-ch-ua-mobile: \
         ?0\r\nsec-ch-ua-platform: \"Linux\"\r\nOrigin: http://localhost:8080\r\nContent-Type: \
         application/x-www-form-urlencoded\r\nUpgrade-Insecure-Requests: 1\r\nAccept: text/html,*/*;q=0.8\r\n\
         Sec-Fetch-Site: same-origin\r\nReferer: http://localhost:8080/form/bid\r\nAccept-Encoding: gzip, deflate, \
         br, zstd\r\nAccept-Language: en-US,en;q=0.9\r\nCookie: theme=dark; crash=x1; lang=en\r\n\r\n\
         item=7&amount=500|post /bid cookie=x1 body=item=7&amount=500~\
# curl 8~\
GET / HTTP/1.1\r\nHost: localhost\r\nUser-Agent: curl/8.5.0\r\nAccept: */*\r\n\r\n|get /~\
# curl 8, by -I and -d~\
HEAD /about HTTP/1.1\r\nHost: localhost\r\nUser-Agent: curl/8.5.0\r\nAccept: */*\r\n\r\n|head /about~\
POST /signin HTTP/1.1\r\nHost: localhost\r\nUser-Agent: curl/8.5.0\r\nAccept: */*\r\nContent-Length: 8\r\n\
         Content-Type: application/x-www-form-urlencoded\r\n\r\nname=ann|post /signin body=name=ann~\
# curl 8, by -F~\
POST /sell HTTP/1.1\r\nHost: localhost\r\nUser-Agent: curl/8.5.0\r\nAccept: */*\r\nContent-Length: 2\r\n\
         Content-Type: multipart/form-data; boundary=------------------------d74496d66958873e\r\n\r\nxy|post /sell multipart body=xy~\
# wget 1.21~\
GET /category/1?page=2 HTTP/1.1\r\nHost: localhost:8080\r\nUser-Agent: Wget/1.21.4\r\nAccept: */*\r\n\
         Accept-Encoding: identity\r\nConnection: Keep-Alive\r\n\r\n|get /category/1?page=2~\
# ab 2.3, without and with -k~\
GET / HTTP/1.0\r\nHost: localhost:8080\r\nUser-Agent: ApacheBench/2.3\r\nAccept: */*\r\n\r\n|get / close~\
GET / HTTP/1.0\r\nConnection: Keep-Alive\r\nHost: localhost:8080\r\nUser-Agent: ApacheBench/2.3\r\n\
         Accept: */*\r\n\r\n|get / close~\
# nginx's proxy_pass~\
GET / HTTP/1.0\r\nHost: auction\r\nConnection: close\r\nUser-Agent: curl/8.5.0\r\nAccept: */*\r\n\r\n|get / close~\
# no Host, empty lines before, line feeds alone, methods that nobody serves~\
GET / HTTP/1.1\r\n\r\n|get /~\
\r\n\r\nGET / HTTP/1.1\r\n\r\n|get /~\
GET / HTTP/1.1\n\n|get /~\
GET / HTTP/1.1\r\nHost: a\n\r\n|get /~\
PUT /sell HTTP/1.1\r\n\r\n|other /sell~\
get / HTTP/1.1\r\n\r\n|other /~\
OPTIONS * HTTP/1.1\r\n\r\n|other *~\
# names in odd case~\
GET / HTTP/1.1\r\ncOOkIE: crash=q\r\nCONNECTION: CLOSE\r\n\r\n|get / close cookie=q~\
POST / HTTP/1.1\r\ncontent-LENGTH: 1\r\nCONTENT-type: MultiPart/x\r\n\r\nb|post / multipart body=b~\
# elements of Connection, in any of its fields~\
GET / HTTP/1.1\r\nConnection: te,\tclose \r\n\r\n|get / close~\
GET / HTTP/1.1\r\nConnection: te\r\nConnection: close\r\n\r\n|get / close~\
GET / HTTP/1.1\r\nConnection: closed, not-close\r\n\r\n|get /~\
# blanks and tabs at the ends of an element~\
GET / HTTP/1.1\r\nConnection: close ,te\r\n\r\n|get / close~\
GET / HTTP/1.1\r\nConnection: te , close\t, x\r\n\r\n|get / close~\
# pairs of Cookie: the first of the name; a space before `=` makes another name~\
GET / HTTP/1.1\r\nCookie: a=1;crash=2; crash=3\r\n\r\n|get / cookie=2~\
GET / HTTP/1.1\r\nCookie: crash =2\r\n\r\n|get /~\
GET / HTTP/1.1\r\nCookie: crash; Crash=2; crash2=3\r\n\r\n|get /~\
GET / HTTP/1.1\r\nCookie: a=1\r\nCookie: crash=\r\n\r\n|get / cookie=~\
GET / HTTP/1.1\r\nCookie:   crash=a=b c  \r\n\r\n|get / cookie=a=b c~\
GET / HTTP/1.1\r\nCookie: crash=1\r\nCookie: crash=2\r\n\r\n|get / cookie=1~\
# spaces at the ends of a pair are no part of it, and tabs are~\
GET / HTTP/1.1\r\nCookie: crash=2 ;b=3\r\n\r\n|get / cookie=2~\
GET / HTTP/1.1\r\nCookie: crash=2\t;b=3\r\n\r\n|get / cookie=2\t~\
GET / HTTP/1.1\r\nCookie: a=1;\tcrash=2\r\n\r\n|get /~\
# a type that has `multipart` in it and does not begin with `multipart/`~\
POST / HTTP/1.1\r\nContent-Type: multipart\r\n\r\n|post /~\
POST / HTTP/1.1\r\nContent-Type: text/multipart/x\r\n\r\n|post /~\
# a second Content-Type, and lengths that are the same number~\
POST / HTTP/1.1\r\nContent-Type: text/plain\r\nContent-Type: multipart/x\r\n\r\n|post / multipart~\
POST / HTTP/1.1\r\nContent-Length: 0000000001\r\nContent-Length: 1\r\n\r\nz|post / body=z~\
POST / HTTP/1.1\r\nContent-Length: 0\r\n\r\n|post /";

/// Bytes that are no request, and what is taken from them.
const NONE: &str = "\
@@@\r\n\r\n|bad~\
@@@\n\n|bad~\
# no such version~\
GET /\r\n\r\n|bad~\
GET / HTTP/0.9\r\n\r\n|bad~\
GET / HTTP/1.2\r\n\r\n|bad~\
GET / HTTP/2.0\r\n\r\n|bad~\
GET / http/1.1\r\n\r\n|bad~\
PRI * HTTP/2.0\r\n\r\nSM\r\n\r\n|bad~\
# a field that goes on in the next line, zero bytes, a carriage return alone, a blank before the colon~\
GET / HTTP/1.1\r\nA: b\r\n c\r\n\r\n|bad~\
GET / HTTP/1.1\r\nA: b\r\n\tc\r\n\r\n|bad~\
GET / HTTP/1.1\r\nA: b\0c\r\n\r\n|bad~\
GET /\0 HTTP/1.1\r\n\r\n|bad~\
GET / HTTP/1.1\r\nA: b\rc\r\n\r\n|bad~\
GET / HTTP/1.1\r\nA : b\r\n\r\n|bad~\
GET  / HTTP/1.1\r\n\r\n|bad~\
GET / HTTP/1.1 \r\n\r\n|bad~\
GET / HTTP/1.1\r\nA\r\n\r\n|bad~\
GET / HTTP/1.1\r\n: b\r\n\r\n|bad~\
# lengths~\
POST / HTTP/1.1\r\nContent-Length: 5, 5\r\n\r\nabcde|bad~\
POST / HTTP/1.1\r\nContent-Length: 5\r\nContent-Length: 6\r\n\r\nabcdef|bad~\
POST / HTTP/1.1\r\nContent-Length:\r\n\r\n|bad~\
POST / HTTP/1.1\r\nContent-Length: -1\r\n\r\n|bad~\
POST / HTTP/1.1\r\nContent-Length: +1\r\n\r\na|bad~\
POST / HTTP/1.1\r\nContent-Length: 00000000001\r\n\r\na|bad~\
POST / HTTP/1.1\r\nContent-Length: 65537\r\n\r\n|body 65537~\
POST / HTTP/1.1\r\nContent-Length: 9999999999\r\n\r\n|body 9999999999~\
# each length is looked at before one is too great~\
POST / HTTP/1.1\r\nContent-Length: 65537\r\nContent-Length: 1\r\n\r\n|bad~\
POST / HTTP/1.1\r\nContent-Length: 65537\r\nContent-Length: x\r\n\r\n|bad~\
POST / HTTP/1.1\r\nContent-Length: 65537\r\nContent-Length: 065537\r\n\r\n|body 65537~\
# a coding, whatever the length~\
POST / HTTP/1.1\r\nTransfer-Encoding: chunked\r\n\r\n|coding~\
POST / HTTP/1.1\r\ntransfer-encoding: identity\r\n\r\n|coding~\
POST / HTTP/1.1\r\nContent-Length: x\r\nTransfer-Encoding: chunked\r\n\r\n|coding~\
# too few bytes: nothing is judged before its empty line~\
|more~\
@@@\n|more~\
\r\n\r\n\r\n|more~\
GET / HTTP/1.1\r\nA: b\r\n\r|more~\
POST / HTTP/1.1\r\nContent-Length: 65536\r\n\r\nab|more";

fn expect_whole(rt: &impl Abort, alloc: Global, row: &str) {
    if !is_heading(row) {
        let (text, want) = cut(rt, row, '|');
        expect_request(rt, alloc, text, want);
    }
}

fn expect_none(rt: &impl Abort, alloc: Global, row: &str) {
    if !is_heading(row) {
        let (text, want) = cut(rt, row, '|');
        expect_taken(rt, alloc, text.as_bytes(), want);
    }
}

/// A text so often.
fn repeated(rt: &impl Abort, alloc: Global, text: &str, count: usize) -> String {
    let mut out = String::new(alloc);
    for _ in 0..count {
        out.push_str(text).expect(rt, text);
    }
    out
}

/// A head of so many fields.
fn head_of_fields(rt: &impl Abort, alloc: Global, count: usize) -> String {
    let mut text = repeated(rt, alloc, "GET / HTTP/1.1\r\n", 1);
    let fields = repeated(rt, alloc, "A: b\r\n", count);
    text.push_str(fields.as_str()).expect(rt, "fields");
    text.push_str("\r\n").expect(rt, "an empty line");
    text
}

/// 66 line feeds are those of the first line and of 65 fields: 16 + 65 · 6 bytes.
fn expect_fields(rt: &impl Abort, alloc: Global) {
    let most = head_of_fields(rt, alloc, 64);
    expect_request(rt, alloc, most.as_str(), "get /");
    let more = head_of_fields(rt, alloc, 65);
    expect_taken(rt, alloc, more.as_str().as_bytes(), "long 406 66");
}

/// A head of 16,384 bytes.
fn longest(rt: &impl Abort, alloc: Global) -> String {
    let mut whole = repeated(rt, alloc, "GET / HTTP/1.1\r\nA: ", 1);
    let value = repeated(rt, alloc, "v", 16_361);
    whole.push_str(value.as_str()).expect(rt, "a value");
    whole.push_str("\r\n\r\n").expect(rt, "the end");
    assert!(rt; whole.len() == 16_384, "the longest head");
    whole
}

/// A head of 16,384 bytes is taken, and one byte less without an end is no answer yet.
fn expect_bytes(rt: &impl Abort, alloc: Global) {
    let target = repeated(rt, alloc, "x", 16_384);
    expect_taken(rt, alloc, target.as_str().as_bytes(), "long 16384 0");
    let less = repeated(rt, alloc, "x", 16_383);
    expect_taken(rt, alloc, less.as_str().as_bytes(), "more");
    expect_taken(rt, alloc, longest(rt, alloc).as_bytes(), "get /");
}

/// A head has 64 fields and 16,384 bytes at most.
#[test]
fn heads_are_requests_or_refused(rt: HostRuntime) {
    let alloc = rt.alloc();
    for row in REQUESTS.split('~') {
        expect_whole(&rt, alloc, row);
    }
    for row in NONE.split('~') {
        expect_none(&rt, alloc, row);
    }
    expect_fields(&rt, alloc);
    expect_bytes(&rt, alloc);
}

/// Adds what can be taken from the bytes that are there, twice at most.
fn add_settled(rt: &impl Abort, alloc: Global, words: &mut String, received: &mut Received) {
    for _ in 0..2 {
        if received.is_settled() {
            let taken = received.take(alloc).expect(rt, "memory");
            add_taken(rt, words, &taken);
        }
    }
}

const TWICE: &str =
    "GET / HTTP/1.1\r\nHost: localhost\r\nUser-Agent: curl/8.5.0\r\nAccept: */*\r\n\r\n\
                     GET / HTTP/1.1\r\nHost: localhost\r\nUser-Agent: curl/8.5.0\r\nAccept: */*\r\n\r\n";

/// Asserts that two requests are taken from these pieces, and nothing is left.
fn expect_two(rt: &impl Abort, alloc: Global, front: &[u8], rest: &[u8]) {
    let mut words = String::new(alloc);
    let mut received = Received::new(alloc);
    received.feed(front).expect(rt, "a front");
    add_settled(rt, alloc, &mut words, &mut received);
    received.feed(rest).expect(rt, "the rest");
    add_settled(rt, alloc, &mut words, &mut received);
    expect_words(rt, words.as_str(), "get / get /", "two pieces");
    assert!(rt; received.as_slice().is_empty(), "two pieces");
}

/// Feeds bytes one by one, and adds what can be taken.
fn feed_each(
    rt: &impl Abort,
    alloc: Global,
    words: &mut String,
    received: &mut Received,
    bytes: &[u8],
) {
    for byte in bytes {
        received.feed(&[*byte]).expect(rt, "a byte");
        add_settled(rt, alloc, words, received);
    }
}

/// Requests may come byte by byte: one of the two is there, before the last byte of the other one has come.
fn expect_bytewise(rt: &impl Abort, alloc: Global) {
    let mut words = String::new(alloc);
    let mut received = Received::new(alloc);
    let (last, front) = TWICE.as_bytes().split_last().expect(rt, "bytes");
    feed_each(rt, alloc, &mut words, &mut received, front);
    let left = received.take(alloc).expect(rt, "memory");
    add_taken(rt, &mut words, &left);
    expect_words(rt, words.as_str(), "get / more", "all but one");
    feed_each(rt, alloc, &mut words, &mut received, &[*last]);
    expect_words(rt, words.as_str(), "get / more get /", "byte by byte");
    assert!(rt; received.as_slice().is_empty(), "byte by byte");
}

/// Targets, each with its path and its query.
const TARGETS: &str = "/category/1?page=2|/category/1|page=2
/category/1|/category/1|
/?|/|
?a?b||a?b";

fn expect_target(rt: &impl Abort, row: &str) {
    let (target, rest) = cut(rt, row, '|');
    let (path, query) = cut(rt, rest, '|');
    let parts = path_and_query(target.as_bytes());
    assert!(rt; parts.0 == path.as_bytes(), "{target}");
    assert!(rt; parts.1 == query.as_bytes(), "{target}");
}

#[test]
fn requests_do_not_depend_on_cuts(rt: HostRuntime) {
    let bytes = TWICE.as_bytes();
    for at in 0..bytes.len() {
        expect_two(&rt, rt.alloc(), &bytes[..at], &bytes[at..]);
    }
    expect_two(&rt, rt.alloc(), bytes, b"");
    expect_bytewise(&rt, rt.alloc());
    for row in TARGETS.split('\n') {
        expect_target(&rt, row);
    }
}
