//! Each outcome of a request: its item, and the bytes of its response.

use crate::faults::plan_of;
use crate::play::{Left, Play, SHOP, play_line, play_lines, play_of};
use crate::scene::Setting;
use crate::words::{expect_words, first_word, number};
use std::alloc::Global;
use std::fmt::Write;
use std::process::Abort;

/// A row has eight parts: the most entries of the journal, which call of the keeper fails, the first serial, and the
/// plan by which a component fails, if one does; what happens before, where `shop` is `SHOP`; the request; what happens
/// after so many more steps of it; the status of the response; its further fields; its page, by its heading and its
/// other lines; and the item.
const OUTCOMES: &str = "\
1000 0 0 ||  || ann get /nope ||  || 404 Not Found ||  || Not there || notthere | none 0-0 0 0/0 at 0
1000 0 0 ||  || ann get /register ||  || 405 Method Not Allowed || Allow: POST || Method not allowed || notallowed 2 | none 0-0 0 0/0 at 0
1000 0 0 ||  || ann bare / x=1 ||  || 405 Method Not Allowed || Allow: GET, HEAD || Method not allowed || notallowed 1 | none 0-0 0 0/0 at 0
1000 0 0 ||  || ann put /categories ||  || 405 Method Not Allowed || Allow: GET, HEAD, POST || Method not allowed || notallowed 3 | none 0-0 0 0/0 at 0
1000 0 0 ||  || ann parts /register x ||  || 415 Unsupported Media Type ||  || Form not understood || multipart | none 0-0 0 0/0 at 0
1000 0 0 ||  || ann bare /register name=abc&password=x ||  || 400 Bad Request ||  || Bad field token || badform token | none 0-0 0 0/0 at 0
1000 0 0 || shop || ben post /bid item=1&amount=4000000001 ||  || 400 Bad Request ||  || Bad field amount || badform amount | none 11-11 0 0/27 at 0
1000 0 0 || shop || ben bare /bid token=0000000100000000000000208a24c8eb9881d714984bbd9e63d59787&item=1&amount=500 ||  || 400 Bad Request ||  || Bad field token || badform token | none 11-11 0 0/27 at 0
1000 0 0 || shop || ben bare /bid token=00000002000000000000001cc06effb5fa3ff6f58dd0e2cdb4ff32f8&item=1&amount=500 ||  || 409 Conflict ||  || Form is old || staleform 2 1 | none 11-11 0 0/27 at 0
1000 0 4611686018427387904 ||  || ann get / ||  || 503 Service Unavailable || Retry-After: 2 || Try again || spent 4611686018427387904 | none 0-0 0 0/0 at 0
1000 0 4611686018427387903 ||  || ann get / ||  || 503 Service Unavailable || Retry-After: 2 || Try again || spent 4611686018427387904 | 1:4611686018427387903 0-0 0 0/0 at 0
1000 0 0 || shop; now 1800001 || ben post /bid item=1&amount=500 ||  || 403 Forbidden || Set-Cookie: crash=; Path=/; Max-Age=0; HttpOnly || Session expired || expired 1800001 1800000 | 1:28 11-11 0 0/27 at 1800001
1000 0 0 || shop; crash 1; crash 2 || ben post /bid item=1&amount=500 ||  || 403 Forbidden || Set-Cookie: crash=; Path=/; Max-Age=0; HttpOnly || Session lost || lost 1:crashed/2 2:crashed/2 | 1:28 11-11 0 0/29 at 0
1000 0 0 || shop; mute 1 1; lose 2 1 || ben post /bid item=1&amount=500 ||  || 403 Forbidden || Set-Cookie: crash=; Path=/; Max-Age=0; HttpOnly || Session lost || lost 1:silent 2:silent | 1:28 11-11 0 2/27 at 0
1000 0 0 || shop; sweep 1 1860001; crash 2 || ben post /bid item=1&amount=500 ||  || 403 Forbidden || Set-Cookie: crash=; Path=/; Max-Age=0; HttpOnly || Session lost || lost 1:swept/1860001 2:crashed/2 | 1:28 11-11 0 0/29 at 0
1000 0 0 || down 0 || ann get / ||  || 503 Service Unavailable || Retry-After: 2 || Try again || sentinel 0 0 | 1:0 1-1 2 0/0 at 0
1000 0 0 || shop; down 3 || ben post /bid item=1&amount=500 ||  || 503 Service Unavailable || Retry-After: 2 || Try again || sentinel 3 12 | 1:28 13-13 14 0/28 at 0 value 00000000000000020000000000000000
1000 0 0 0 0 raise group ||  || ann get / ||  || 500 Internal Server Error ||  || Failed || raised 0 0 by 0 | 1:0 0-0 1 0/0 at 0
1000 0 0 0 0 hang group ||  || ann get / ||  || 500 Internal Server Error ||  || Failed || hung 0 0 by 0 | 1:0 0-0 1 0/0 at 0
1000 0 0 5 0 raise group || shop || ben post /bid item=1&amount=500 ||  || 500 Internal Server Error ||  || Failed || raised 5 0 by 0 5 | 1:28 12-12 13 0/28 at 0 value 00000000000000020000000000000000
1000 0 0 0 13 hang app || shop || ben post /bid item=1&amount=500 || 5 reboot 0 || 500 Internal Server Error ||  || Failed || hung 0 0 by 0 | 1:28 12-14 15 0/28 at 0 value 00000000000000020000000000000000
1000 0 0 || shop; cat get /form/buy || cat post /buy item=1 || 7 reboot 3 || 503 Service Unavailable || Retry-After: 2 || Try again || revoked / 13 group 3 had 0 now 1 15 | 1:36 13-15 16 0/29 at 0 value 00000000000000030000000000000000
1000 0 0 || shop || ben post /bid item=1&amount=500 || 5 reboot 0; 3 reboot 0; 3 reboot 0 || 503 Service Unavailable || Retry-After: 2 || Try again || revoked / 12 group 0 had 0 now 1 14 / 14 group 0 had 1 now 2 16 / 16 group 0 had 2 now 3 18 | 1:28 12-18 19 0/28 at 0 value 00000000000000020000000000000000
1000 0 0 || shop || ben post /bid item=1&amount=900 || 5 cat post /bid item=1&amount=200; 12 cat get /form/bid; 0 cat post /bid item=1&amount=300; 13 cat get /form/bid; 0 cat post /bid item=1&amount=400 || 503 Service Unavailable || Retry-After: 2 || Try again || conflict / 12 row 4 1 newest 13 13 / 13 row 4 1 newest 15 15 / 15 row 4 1 newest 17 17 | 1:28 12-17 18 0/28 at 0 value 00000000000000020000000000000000
0 0 0 ||  || ann get / ||  || 503 Service Unavailable || Retry-After: 2 || Try again || full 0 0 | 1:0 0-0 1 0/0 at 0
1000 8 0 || shop || ben post /bid item=1&amount=500 ||  || 503 Service Unavailable || Retry-After: 2 || Try again || keeper failed | 1:28 12-12 14 0/28 at 0 value 00000000000000020000000000000000
1000 0 0 || hold 1; hold 1; hold 1; hold 1; hold 2; hold 2; hold 2; hold 2 || ann get /form/register ||  || 503 Service Unavailable || Retry-After: 2 || Try again || overload page 0 1:4/4 2:4/4 | 1:0 0-1 2 0/0 at 0
1000 0 0 || ann get /form/register; ann post /register name=ann&password=pw1; hold 1; hold 1; hold 1; hold 1; hold 1; hold 1; hold 2; hold 2; hold 2; hold 2; hold 2; hold 2 || ann post /register name=zoe&password=pw9 ||  || 503 Service Unavailable || Retry-After: 2 || Try again || overload again 1 1:6/6 2:6/6 | 1:1 2-2 3 0/8 at 0 value 00000000000000010000000000000000
1000 0 0 || mute 1 1; lose 2 1 || ann get /form/register ||  || 503 Service Unavailable || Retry-After: 2 || Try again || missed page 0 1:silent 2:silent | 1:0 0-1 2 2/1 at 0
1000 0 0 || ann get /form/register; ann post /register name=ann&password=pw1; mute 1 1; lose 2 2 || ann post /register name=zoe&password=pw9 ||  || 503 Service Unavailable || Retry-After: 2 || Try again || missed again 1 1:silent 2:silent | 1:1 2-2 3 3/9 at 0 value 00000000000000010000000000000000
1000 0 0 ||  || ann get / ||  || 200 OK ||  || Auctions ~ <p>Signed out</p> ~ <p><a href=\"/categories\">Categories</a></p> || page 0 | 1:0 0-1 2 0/0 at 0
1000 0 0 ||  || ann last / ||  || 200 OK || Connection: close || Auctions ~ <p>Signed out</p> ~ <p><a href=\"/categories\">Categories</a></p> || page 0 | 1:0 0-1 2 0/0 at 0
1000 0 0 ||  || ann last /nope ||  || 404 Not Found || Connection: close || Not there || notthere | none 0-0 0 0/0 at 0
1000 0 0 ||  || ann get /form/register ||  || 200 OK || Set-Cookie: crash=AQAAAAAAAAABAAAAAAAAAAIAAQAAAAEAAAAAAAAAAgAAAAAAG3dAAgADAAAAAAAAAAEAAQAAAAAAAAAB7OVTcUhoqpjjXPZ7zDSCeCZj4sjVeGA0Sb-6U9whe0c; Path=/; Max-Age=1800; HttpOnly || Form register ~ <form method=\"post\" action=\"/register\"> ~ <input type=\"hidden\" name=\"token\" value=\"00000001000000000000000182b81bc961cd0e30933b06ca801a3a7f\"> ~ <label>name <input name=\"name\"></label> ~ <label>password <input name=\"password\"></label> ~ <button>Send</button> ~ </form> || page 0 | 1:0 0-1 2 0/3 at 0 cookie 2 1800000 3 1
1000 0 0 || ann get /form/register; ann post /register name=ann&password=pw1 || ann post /register name=zoe&password=pw9 ||  || 200 OK || Set-Cookie: crash=AQAAAAAAAAABAAAAAAAAAAIAAQAAAAEAAAAAAAAABgAAAAAAG3dAAgABAAAAAAAAAAEAAgAAAAAAAAABWvnmNo0t3Ts5rM9H6oe31RCwo2gOgFPHFwnHBF0UTgA; Path=/; Max-Age=1800; HttpOnly || Welcome ann || again 1 | 1:1 2-2 3 0/11 at 0 value 00000000000000010000000000000000 cookie 6 1800000 1 2
1000 0 0 || shop; ben post /bid item=1&amount=500 || ben post /bid item=1&amount=500 ||  || 200 OK ||  || Bid 1 on item 1 || again 12 | 1:28 13-13 14 0/29 at 0 value 00000000000000020000000000000000
1000 0 0 || shop; call 28 || ben post /bid item=1&amount=500 ||  || 500 Internal Server Error ||  || Failed || again 12 | 1:28 13-13 14 0/28 at 0 value 00000000000000020000000000000000
1000 0 0 || shop; now 900000 || ben get / ||  || 200 OK ||  || Auctions ~ <p>User 2</p> ~ <p><a href=\"/categories\">Categories</a></p> || page 12 | 1:35 12-13 14 0/28 at 900000 value 00000000000000020000000000000000
1000 0 0 || shop; now 900001 || ben get / ||  || 200 OK || Set-Cookie: crash=AQAAAAAAAAAJAAAAAAAAAAoAAQAAAAEAAAAAAAAAJQAAAAAAKTLhAgACAAAAAAAAAAEAAwAAAAAAAAABzyifsX8cTQ5kbKFIxsb1KnMkTUVzKu9kOnAubv1DTlQ; Path=/; Max-Age=1800; HttpOnly || Auctions ~ <p>User 2</p> ~ <p><a href=\"/categories\">Categories</a></p> || page 12 | 1:35 12-13 14 0/31 at 900001 value 00000000000000020000000000000000 cookie 37 2700001 2 3
1000 0 0 || shop; ben cookie AQAAAAAAAAAJAAAAAAAAAAoAAQAAAAEAAAAAAAAAFQAAAAAAG3dAAgABAAABAAAAAAEAAgAAAAAAAAABKZBOusMaqhN4vqjmqX_iIA-3Ww0_W-gjGXKcHdHiRBg || ben get / ||  || 200 OK ||  || Auctions ~ <p>Signed out</p> ~ <p><a href=\"/categories\">Categories</a></p> || page 12 | 1:35 12-13 14 0/27 at 0
1000 0 0 || shop; ben cookie AQAAAAAAAAAJAAAAAAAAAAoAAQAAAAEAAAAAAAAAFQAAAAAAG3dAAgABAAAAAAAAAAEAAgAAAAAAAAABKZBOusMaqhN4vqjmqX_iIA-3Ww0_W-gjGXKcHdHiRBg= || ben get / ||  || 200 OK ||  || Auctions ~ <p>Signed out</p> ~ <p><a href=\"/categories\">Categories</a></p> || page 12 | 1:35 12-13 14 0/27 at 0
1000 0 0 || shop; ben cookie AQAAAAAAAAAJAAAAAAAAAAoAAQAAAAEAAAAAAAAAFQAAAAAAG3dAAgABAAAAAAAAAAEAAgAAAAAAAAABKZBOusMaqhN4vqjmqX_iIA-3Ww0_W-gjGXKcHdHi || ben get / ||  || 200 OK ||  || Auctions ~ <p>Signed out</p> ~ <p><a href=\"/categories\">Categories</a></p> || page 12 | 1:35 12-13 14 0/27 at 0
1000 0 0 || shop; ben cookie ;a=b || ben get / ||  || 200 OK ||  || Auctions ~ <p>Signed out</p> ~ <p><a href=\"/categories\">Categories</a></p> || page 12 | 1:35 12-13 14 0/27 at 0
1000 0 0 || shop; ben cookie AQAAAAAAAAAJAAAAAAAAAAoAAQAAAAEAAAAAAAAAFQAAAAAAG3dAAgABAAAAAAAAAAEAAgAAAAAAAAABKZBOusMaqhN4vqjmqX_iIA-3Ww0_W-gjGXKcHdHiRBg || ben get / ||  || 200 OK ||  || Auctions ~ <p>User 2</p> ~ <p><a href=\"/categories\">Categories</a></p> || page 12 | 1:35 12-13 14 0/28 at 0 value 00000000000000020000000000000000";

/// The setting that a row asks for.
fn setting_of(rt: &impl Abort, words: &str) -> Setting {
    let (entries, rest) = first_word(words);
    let (failing, rest) = first_word(rest);
    let (serial, plan) = first_word(rest);
    Setting {
        entries: number(rt, entries),
        failing: number(rt, failing),
        serial: number(rt, serial),
        fault: if plan.is_empty() {
            None
        } else {
            Some(plan_of(rt, plan))
        },
    }
}

/// Plays what happens before a request.
fn prepare(rt: &impl Abort, alloc: Global, play: &mut Play, lines: &str) {
    for line in lines.split("; ") {
        match line {
            "" => {}
            "shop" => play_lines(rt, alloc, play, SHOP),
            _ => {
                play_line(rt, alloc, play, line);
            }
        }
    }
}

/// Goes a request's way to its end, while other things happen after so many more steps of it.
fn go_on(rt: &impl Abort, alloc: Global, play: &mut Play, name: &str, events: &str) -> Left {
    for event in events.split("; ") {
        let (steps, line) = first_word(event);
        if !line.is_empty() {
            play.run_all(rt, alloc, name, number(rt, steps));
            play_line(rt, alloc, play, line);
        }
    }
    play.hear(rt, alloc, name)
}

/// The bytes of a response, by the status, the further fields and the lines of the page.
fn response_of(rt: &impl Abort, alloc: Global, status: &str, fields: &str, page: &str) -> String {
    let heading = page.split(" ~ ").next().unwrap_or(page);
    let mut body = format!(in alloc;
        "<!doctype html>\n<title>{heading}</title>\n<h1>{heading}</h1>\n"
    ).expect(rt, page);
    for line in page.split(" ~ ").skip(1) {
        writeln!(body, "{line}").expect(rt, page);
    }
    let size = body.len();
    let mut text = format!(in alloc;
        "HTTP/1.1 {status}\r\nContent-Type: text/html; charset=utf-8\r\nContent-Length: {size}\r\n"
    ).expect(rt, page);
    if !fields.is_empty() {
        write!(text, "{fields}\r\n").expect(rt, page);
    }
    write!(text, "\r\n{body}").expect(rt, page);
    text
}

fn expect_outcome(rt: &impl Abort, alloc: Global, row: &str) {
    let mut parts = row.split(" || ");
    let setting = setting_of(rt, parts.next().expect(rt, row));
    let before = parts.next().expect(rt, row);
    let (name, words) = first_word(parts.next().expect(rt, row));
    let events = parts.next().expect(rt, row);
    let mut play = play_of(rt, alloc, setting);
    prepare(rt, alloc, &mut play, before);
    play.ask(rt, alloc, name, words);
    let left = go_on(rt, alloc, &mut play, name, events);
    let status = parts.next().expect(rt, row);
    let fields = parts.next().expect(rt, row);
    let page = parts.next().expect(rt, row);
    let response = response_of(rt, alloc, status, fields, page);
    assert!(rt; left.response == response, "{}\n{row}", left.response);
    expect_words(rt, &left.words, parts.next().expect(rt, row), row);
}

#[test]
fn each_outcome_is_told_and_answered(rt: HostRuntime) {
    for row in OUTCOMES.split('\n') {
        expect_outcome(&rt, rt.alloc(), row);
    }
}
