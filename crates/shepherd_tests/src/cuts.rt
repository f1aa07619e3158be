//! Bytes of a connection, however they are cut.

use crate::play::{Play, SHOP, play_lines, play_of};
use crate::scene::PLAIN;
use crate::words::expect_words;
use std::alloc::Global;
use std::fmt::Write;
use std::process::Abort;

/// A request of curl.
pub const CURL: &str =
    "GET / HTTP/1.1\r\nHost: localhost\r\nUser-Agent: curl/8.5.0\r\nAccept: */*\r\n\r\n";

/// The page of the signed out, of 120 bytes, behind its head.
pub const HOME: &str =
    "HTTP/1.1 200 OK\r\nContent-Type: text/html; charset=utf-8\r\nContent-Length: 120\r\n\r\n\
<!doctype html>\n<title>Auctions</title>\n<h1>Auctions</h1>\n<p>Signed out</p>\n\
<p><a href=\"/categories\">Categories</a></p>\n";

/// The head of that page alone.
const HOME_HEAD: &str =
    "HTTP/1.1 200 OK\r\nContent-Type: text/html; charset=utf-8\r\nContent-Length: 120\r\n\r\n";

/// What is answered to what is no head.
const BAD: &str =
    "HTTP/1.1 400 Bad Request\r\nContent-Type: text/html; charset=utf-8\r\nContent-Length: 64\r\n\
Connection: close\r\n\r\n<!doctype html>\n<title>Bad request</title>\n<h1>Bad request</h1>\n";

/// What is answered to a coding.
const CODING: &str =
    "HTTP/1.1 501 Not Implemented\r\nContent-Type: text/html; charset=utf-8\r\nContent-Length: 82\r\n\
Connection: close\r\n\r\n<!doctype html>\n<title>Coding not supported</title>\n<h1>Coding not supported</h1>\n";

/// What is answered to a body of more than 65,536 bytes.
const BODY: &str =
    "HTTP/1.1 413 Content Too Large\r\nContent-Type: text/html; charset=utf-8\r\nContent-Length: 68\r\n\
Connection: close\r\n\r\n<!doctype html>\n<title>Body too long</title>\n<h1>Body too long</h1>\n";

/// What is answered to a head of more than 16,384 bytes or 66 line feeds.
const LONG: &str =
    "HTTP/1.1 431 Request Header Fields Too Large\r\nContent-Type: text/html; charset=utf-8\r\n\
Content-Length: 68\r\nConnection: close\r\n\r\n<!doctype html>\n<title>Head too long</title>\n<h1>Head too long</h1>\n";

/// The page of the signed out, behind which the connection ends.
const LAST: &str =
    "HTTP/1.1 200 OK\r\nContent-Type: text/html; charset=utf-8\r\nContent-Length: 120\r\n\
Connection: close\r\n\r\n<!doctype html>\n<title>Auctions</title>\n<h1>Auctions</h1>\n<p>Signed out</p>\n\
<p><a href=\"/categories\">Categories</a></p>\n";

fn empty_play(rt: &impl Abort, alloc: Global) -> Play {
    play_of(rt, alloc, PLAIN)
}

/// What a connection puts out, its items and how it ended, where its bytes come in pieces of this size, each as soon as
/// what came before was done.
fn in_pieces(rt: &impl Abort, alloc: Global, bytes: &[u8], size: usize) -> String {
    assert!(rt; size > 0);
    let mut play = empty_play(rt, alloc);
    let mut found = String::new(alloc);
    for piece in bytes.chunks(size) {
        play.feed(rt, "ann", piece);
        let left = play.hear(rt, alloc, "ann");
        found.push_str(left.response.as_str()).expect(rt, "bytes");
    }
    let ended = play.end(rt, alloc, "ann");
    write!(found, "{ended}").expect(rt, "words");
    found
}

fn expect_pieces(rt: &impl Abort, alloc: Global, text: &str, want: &str) {
    for size in [1, 2, 3, 7, 64, 1000] {
        let found = in_pieces(rt, alloc, text.as_bytes(), size);
        expect_words(rt, &found, want, text);
    }
}

#[test]
fn requests_of_curl_are_answered_however_cut(rt: HostRuntime) {
    let alloc = rt.alloc();
    let twice = format!(in alloc; "{HOME}{HOME}closed").expect(&rt, "words");
    let text = format!(in alloc; "{CURL}{CURL}").expect(&rt, "words");
    expect_pieces(&rt, alloc, &text, &twice);
    let once = format!(in alloc; "{HOME}cut").expect(&rt, "words");
    let text = format!(in alloc; "{CURL}GET / HTTP/1.1\r\nHost: loc").expect(&rt, "words");
    expect_pieces(&rt, alloc, &text, &once);
    expect_pieces(&rt, alloc, "", "closed");
    let bad = format!(in alloc; "{HOME}{BAD}bad").expect(&rt, "words");
    let text = format!(in alloc; "{CURL}@@@\r\n\r\nGET / HTTP/1.1\r\n\r\n").expect(&rt, "words");
    expect_pieces(&rt, alloc, &text, &bad);
    let head = format!(in alloc; "{HOME_HEAD}closed").expect(&rt, "words");
    expect_pieces(&rt, alloc, "HEAD / HTTP/1.1\r\n\r\n", &head);
    let coding = format!(in alloc; "{CODING}nocoding").expect(&rt, "words");
    expect_pieces(
        &rt,
        alloc,
        "POST / HTTP/1.1\r\nTransfer-Encoding: chunked\r\n\r\n0\r\n\r\n",
        &coding,
    );
    let body = format!(in alloc; "{BODY}bodytoolong").expect(&rt, "words");
    expect_pieces(
        &rt,
        alloc,
        "POST / HTTP/1.1\r\nContent-Length: 65537\r\n\r\nx",
        &body,
    );
}

#[test]
fn connections_end_behind_what_closes_them(rt: HostRuntime) {
    let alloc = rt.alloc();
    let last = format!(in alloc; "{LAST}closed").expect(&rt, "words");
    expect_pieces(
        &rt,
        alloc,
        "GET / HTTP/1.1\r\nConnection: close\r\n\r\nGET / HTTP/1.1\r\n\r\n",
        &last,
    );
    expect_pieces(
        &rt,
        alloc,
        "GET / HTTP/1.0\r\n\r\nGET / HTTP/1.0\r\n\r\n",
        &last,
    );
    let long = format!(in alloc; "{LONG}toolong").expect(&rt, "words");
    let feeds = "GET / HTTP/1.1\r\n".repeat(alloc, 66).expect(&rt, "words");
    expect_pieces(&rt, alloc, &feeds, &long);
    let start = "GET / HTTP/1.1 ".repeat(alloc, 1092).expect(&rt, "words");
    let text = format!(in alloc; "{start}1234").expect(&rt, "words");
    expect_pieces(&rt, alloc, &text, &long);
    let text = format!(in alloc; "{start}123").expect(&rt, "words");
    expect_pieces(&rt, alloc, &text, "cut");
}

/// A bid of Ben is cut in two at each place. The first is made, and each other one is the same request again; each is
/// answered by its page once its last byte came, and by nothing before.
#[test]
fn a_bid_is_answered_at_its_last_byte(rt: HostRuntime) {
    let mut play = empty_play(&rt, rt.alloc());
    play_lines(&rt, rt.alloc(), &mut play, SHOP);
    let text = play.text(&rt, rt.alloc(), "ben", "post /bid item=1&amount=300");
    for size in 0..text.len() {
        let (first, last) = text.as_bytes().split_at(size);
        play.feed(&rt, "ben", first);
        let before = play.hear(&rt, rt.alloc(), "ben");
        assert!(rt;
            before.response.is_empty() && before.words.is_empty(),
            "{size}"
        );
        play.feed(&rt, "ben", last);
        let left = play.hear(&rt, rt.alloc(), "ben");
        assert!(rt;
            left.response.contains("<h1>Bid 1 on item 1</h1>"),
            "{size}"
        );
        let want = if size == 0 {
            "page 12 | 1:28 "
        } else {
            "again 12 | 1:28 "
        };
        assert!(rt; left.words.starts_with(want), "{size}");
    }
    assert!(rt; play.site.container().journal().len() == 13);
}
