//! Tests of how connections end.

use crate::play::{end_word, sink_of, source_of};
use crate::site::{PARTS, open, split};
use crate::stops::Stopper;
use crate::visitor::Visitor;
use std::alloc::Global;
use std::process::Abort;
use std::sync::Wait;

/// A request of curl for the home page.
const HOME: &str =
    "GET / HTTP/1.1\r\nHost: localhost\r\nUser-Agent: curl/8.5.0\r\nAccept: */*\r\n\r\n";

/// What is answered: the page of the signed out, of 120 bytes, behind its head.
const PAGE: &str =
    "HTTP/1.1 200 OK\r\nContent-Type: text/html; charset=utf-8\r\nContent-Length: 120\r\n\r\n\
<!doctype html>\n<title>Auctions</title>\n<h1>Auctions</h1>\n<p>Signed out</p>\n\
<p><a href=\"/categories\">Categories</a></p>\n";

/// What is answered to what is no head.
const BAD: &str =
    "HTTP/1.1 400 Bad Request\r\nContent-Type: text/html; charset=utf-8\r\nContent-Length: 64\r\n\
Connection: close\r\n\r\n<!doctype html>\n<title>Bad request</title>\n<h1>Bad request</h1>\n";

/// A request for a page that is not there.
const NOPE: &str = "GET /nope HTTP/1.1\r\nHost: localhost\r\n\r\n";

/// What is answered to it.
const NOT_THERE: &str =
    "HTTP/1.1 404 Not Found\r\nContent-Type: text/html; charset=utf-8\r\nContent-Length: 60\r\n\r\n\
<!doctype html>\n<title>Not there</title>\n<h1>Not there</h1>\n";

/// A form.
const FORM: &str =
    "POST /register HTTP/1.1\r\nHost: localhost\r\nContent-Type: application/x-www-form-urlencoded\r\n\
Content-Length: 19\r\n\r\nname=abc&password=x";

/// How many requests a conversation has.
const REQUESTS: usize = 10;

/// Serves a connection of a new site over these bytes, which come in pieces of this size, of whose calls of the source
/// and of the sink one may fail. How it ended, how many items it has, and what was written.
fn go<W: Wait + Abort>(
    rt: &W,
    alloc: Global,
    bytes: &str,
    size: u64,
    reads: u64,
    writes: u64,
) -> (&'static str, usize, String) {
    let (shared, seat, _pass) = open(alloc).expect(rt, "a site");
    let mut visitor = Visitor::new(alloc, &shared, seat, PARTS, 1).expect(rt, "who serves");
    let mut source = source_of(rt, alloc, bytes.as_bytes(), size, 2000, reads);
    let mut sink = sink_of(rt, alloc, writes);
    let served = visitor.serve(rt, alloc, &mut source, &mut sink);
    let written = std::str::from_utf8(sink.as_slice()).expect(rt, "a text");
    let written = String::from_str(alloc, written).expect(rt, "what was written");
    (end_word(&served), served.items.len(), written)
}

/// So many pages, and then this.
fn pages(rt: &impl Abort, alloc: Global, count: usize, last: &str) -> String {
    let mut text = PAGE.repeat(alloc, count).expect(rt, "pages");
    text.push_str(last).expect(rt, "pages");
    text
}

fn expect_end(
    rt: &impl Abort,
    found: &(&'static str, usize, String),
    end: &str,
    items: usize,
    written: &str,
) {
    assert!(rt; found.0 == end);
    assert!(rt; found.1 == items);
    assert!(rt; found.2.as_str() == written);
}

#[test]
fn requests_are_answered_however_cut(rt: HostRuntime) {
    let alloc = rt.alloc();
    let twice = HOME.repeat(alloc, 2).expect(&rt, "requests");
    let cut = format!(in alloc; "{HOME}GET / HTTP/1.1\r\nHost: loc").expect(&rt, "requests");
    let bad = format!(in alloc; "{HOME}@@@\r\n\r\n{HOME}").expect(&rt, "requests");
    for size in [1, 100, 1000] {
        let found = go(&rt, alloc, &twice, size, 0, 0);
        expect_end(&rt, &found, "closed", 2, &pages(&rt, alloc, 2, ""));
        let found = go(&rt, alloc, &cut, size, 0, 0);
        expect_end(&rt, &found, "cut", 1, PAGE);
        let found = go(&rt, alloc, &bad, size, 0, 0);
        expect_end(&rt, &found, "refused", 1, &pages(&rt, alloc, 1, BAD));
        let found = go(&rt, alloc, NOPE, size, 0, 0);
        expect_end(&rt, &found, "closed", 1, NOT_THERE);
        let found = go(&rt, alloc, "", size, 0, 0);
        expect_end(&rt, &found, "closed", 0, "");
    }
}

/// Nothing is answered to a form of which something is left out at its end.
#[test]
fn a_form_is_answered_once_it_is_whole(rt: HostRuntime) {
    let alloc = rt.alloc();
    for size in 1..FORM.len() {
        let found = go(
            &rt,
            alloc,
            FORM.get(..size).expect(&rt, "a part"),
            1000,
            0,
            0,
        );
        expect_end(&rt, &found, "cut", 0, "");
    }
    let (end, items, written) = go(&rt, alloc, FORM, 1000, 0, 0);
    assert!(rt; end == "closed");
    assert!(rt; items == 1);
    assert!(rt; written.starts_with("HTTP/1.1 400 Bad Request\r\n"));
    assert!(rt; written.contains("<h1>Bad field token</h1>"));
}

/// Each request comes with one call of the source, and each response leaves with one of the sink.
#[test]
fn faults_end_a_conversation_where_they_come(rt: HostRuntime) {
    let alloc = rt.alloc();
    let all = HOME.repeat(alloc, REQUESTS).expect(&rt, "requests");
    for at in 0..REQUESTS {
        let call = at as u64 + 1;
        let found = go(&rt, alloc, &all, HOME.len() as u64, call, 0);
        expect_end(&rt, &found, "read fault", at, &pages(&rt, alloc, at, ""));
        let found = go(&rt, alloc, &all, HOME.len() as u64, 0, call);
        expect_end(
            &rt,
            &found,
            "write fault",
            at + 1,
            &pages(&rt, alloc, at, ""),
        );
    }
    let found = go(&rt, alloc, &all, HOME.len() as u64, REQUESTS as u64 + 1, 0);
    expect_end(
        &rt,
        &found,
        "read fault",
        REQUESTS,
        &pages(&rt, alloc, REQUESTS, ""),
    );
}

/// How many requests come, of which one finds the container stopped.
const STOPPING: u64 = 3;

/// Serves a connection of a new site, whose container is stopped behind this many steps in it. How it ended, how many
/// items it has, and how many steps were made.
fn stop_at<W: Wait + Abort>(rt: &W, alloc: Global, at: u64) -> (&'static str, u64, u64) {
    let (shared, mut seat, pass) = open(alloc).expect(rt, "a site");
    let other = split(&shared, &mut seat, pass);
    let gate = Stopper::new(rt, &shared.container, other.container, at);
    let mut visitor = Visitor::new(alloc, &shared, seat, 1, 1).expect(rt, "who serves");
    let requests = HOME.repeat(alloc, STOPPING as usize).expect(rt, "requests");
    let mut source = source_of(rt, alloc, requests.as_bytes(), 1000, 1, 0);
    let mut sink = sink_of(rt, alloc, 0);
    let served = visitor.serve_gated(rt, alloc, &mut source, &mut sink, &gate);
    let items = served.items.len() as u64;
    assert!(rt; sink.as_slice().len() as u64 == items * PAGE.len() as u64);
    (end_word(&served), items, gate.steps())
}

/// The container is stopped between any two holds of a conversation: the request that finds it so in its last hold is
/// the last one.
#[test]
fn a_stop_is_heeded_by_the_request_that_finds_it(rt: HostRuntime) {
    let alloc = rt.alloc();
    let (end, items, steps) = stop_at(&rt, alloc, 0);
    assert!(rt; end == "closed");
    assert!(rt; items == STOPPING);
    let each = steps / STOPPING;
    assert!(rt; each > 2);
    for at in 1..steps {
        let (end, items, _) = stop_at(&rt, alloc, at);
        assert!(rt; end == "stopped");
        assert!(rt; items == at / each + 1);
    }
    let (end, items, _) = stop_at(&rt, alloc, steps);
    assert!(rt; end == "closed");
    assert!(rt; items == STOPPING);
}
