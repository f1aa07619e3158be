//! What is decided of a request, and what is drawn for it.

use crate::words::{add_bytes, add_number, add_text, add_word, cut, expect_words, number};
use auction_calls::ActionCall;
use crash_base::{FieldText, Moment, RequestNo, SessionBytes};
use http_wire::{BodyBytes, Head, MethodKind};
use outside::{PlainRandom, PlainSerials, SERIALS_END};
use request_decisions::{
    Decision, Draw, DrawKind, DrawRefusal, DrawnList, Order, Refusal, call_by, decide, draw_for,
    draws_for, number_for, ordered_call, orders_are_in_range, request_of,
};
use site_routes::SiteRouter;
use std::alloc::Global;
use std::fmt::Write;
use std::process::Abort;

/// The service's key.
pub const KEY: &[u8] = b"a key of the service, 32 bytes..";

/// The cookie of a session whose key is 16 times 07, under the key; it was computed elsewhere, as were the others.
const GOOD: &str =
    "AQcHBwcHBwcHBwcHBwcHBwcAAQAAAAEAAAAAAAAABQAAAAAAG3dAAQABAAAAAAAAAAEQR3QoW-lWbNI6fu-PGZEwo_Cl-VTjFhwxtcAEdClhLg";

/// The same cookie under `another key`.
const FOREIGN: &str =
    "AQcHBwcHBwcHBwcHBwcHBwcAAQAAAAEAAAAAAAAABQAAAAAAG3dAAQABAAAAAAAAAAG0wyUeoDGhi41GC0HP5Hn2pfHKTUl0CYLmrO6svstJfg";

/// The token of request 9 of boot 3 in this session.
const TOKEN: &str = "0000000300000000000000099dfaa88e401afa050bb822036821d8d6";

/// That of request 9 of boot 2.
const OLD: &str = "0000000200000000000000091ebde92db7faf01493ec1b1a001ae002";

/// That of request 9 of boot 4.
const LATER: &str = "000000040000000000000009d5b5e48b2fae20affd53689f0668e971";

/// `TOKEN` with a digit less, with a digit more, in upper case, and with its first digit escaped.
const SHORT: &str = "0000000300000000000000099dfaa88e401afa050bb822036821d8d";

const LONG: &str = "0000000300000000000000099dfaa88e401afa050bb822036821d8d60";

const UPPER: &str = "0000000300000000000000099DFAA88E401AFA050BB822036821D8D6";

const ESCAPED: &str = "%30000000300000000000000099dfaa88e401afa050bb822036821d8d6";

/// That of request 9 of boot 3 in the session whose key is 16 times 08.
const STRANGE: &str = "000000030000000000000009311533feb7a55bff021f6c4e16bf966b";

/// The text that a word stands for, if it stands for one.
fn sent(word: &str) -> Option<&'static str> {
    match word {
        "good" => Some(GOOD),
        "foreign" => Some(FOREIGN),
        "broken" => Some("AAAA"),
        "token" => Some(TOKEN),
        "old" => Some(OLD),
        "later" => Some(LATER),
        "short" => Some(SHORT),
        "long" => Some(LONG),
        "upper" => Some(UPPER),
        "escaped" => Some(ESCAPED),
        "strange" => Some(STRANGE),
        _ => None,
    }
}

/// The cookie that a word stands for.
fn cookie(rt: &impl Abort, alloc: Global, word: &str) -> Option<FieldText> {
    let text = sent(word)?;
    Some(FieldText::copied(alloc, text.as_bytes()).expect(rt, word))
}

/// The form with the token that a word stands for.
fn body(rt: &impl Abort, alloc: Global, word: &str, fields: &str) -> BodyBytes {
    let mut bytes = Vec::new(alloc);
    bytes
        .extend_from_slice(fields.as_bytes())
        .expect(rt, fields);
    if let Some(token) = sent(word) {
        bytes.extend_from_slice(b"&token=").expect(rt, word);
        bytes.extend_from_slice(token.as_bytes()).expect(rt, word);
    }
    BodyBytes::from_vec(bytes)
}

fn method(word: &str) -> MethodKind {
    match word {
        "GET" => MethodKind::Get,
        "HEAD" => MethodKind::HeadOnly,
        "POST" => MethodKind::Post,
        _ => MethodKind::Other,
    }
}

/// The request that a text spells: `METHOD TARGET COOKIE TOKEN PARTS FIELDS`.
pub fn request(rt: &impl Abort, alloc: Global, text: &str) -> Head {
    let (verb, rest) = cut(rt, text, ' ');
    let (target, rest) = cut(rt, rest, ' ');
    let (bears, rest) = cut(rt, rest, ' ');
    let (shown, rest) = cut(rt, rest, ' ');
    let (parts, fields) = cut(rt, rest, ' ');
    Head {
        method: method(verb),
        target: FieldText::copied(alloc, target.as_bytes()).expect(rt, text),
        close: false,
        cookie: cookie(rt, alloc, bears),
        multipart: parts == "parts",
        body: body(rt, alloc, shown, fields),
        len: 0,
    }
}

pub fn add_refusal(rt: &impl Abort, words: &mut String, refusal: Refusal) {
    match refusal {
        Refusal::NotThere => add_word(rt, words, "404"),
        Refusal::NotAllowed { allow } => write!(words, " 405/{allow}").expect(rt, "405"),
        Refusal::Multipart => add_word(rt, words, "415"),
        Refusal::BadForm { field } => write!(words, " 400 {}", field.word()).expect(rt, "400"),
        Refusal::StaleForm { token_boot, boot } => {
            write!(words, " 409 {token_boot}/{boot}").expect(rt, "409")
        }
    }
}

pub fn draw_word(kind: DrawKind) -> &'static str {
    match kind {
        DrawKind::Request => "request",
        DrawKind::Token => "token",
        DrawKind::KeyWord => "key",
        DrawKind::Fresh => "fresh",
        DrawKind::Read => "read",
        DrawKind::Write => "write",
    }
}

/// Adds the number of an order, whether it has a cookie, and what is drawn for it.
fn add_order(rt: &impl Abort, alloc: Global, words: &mut String, order: &Order) {
    if let Some(number) = order.number {
        write!(words, " {}:{}", number.boot, number.serial).expect(rt, "a number");
    }
    if order.cookie.is_some() {
        add_word(rt, words, "cookie");
    }
    add_word(rt, words, "draws");
    let draws = draws_for(alloc, order).expect(rt, "draws");
    for kind in draws.as_slice() {
        add_word(rt, words, draw_word(*kind));
    }
}

/// Asserts what is decided of the request that a row spells, up to its `|`, in boot 3.
fn expect_decision(rt: &impl Abort, alloc: Global, router: &SiteRouter, row: &str) {
    let (text, want) = cut(rt, row, '|');
    let head = request(rt, alloc, text);
    let mut words = String::new(alloc);
    match decide(alloc, router, KEY, 3, &head).expect(rt, row) {
        Decision::Refused(refusal) => add_refusal(rt, &mut words, refusal),
        Decision::Ordered(order) => add_order(rt, alloc, &mut words, &order),
    }
    expect_words(rt, words.as_str(), want, row);
}

/// Requests that are refused, of which the earlier refusal is told, and requests that are taken, with what is drawn for
/// them.
const DECIDED: &str = "PUT /nope none none parts x|404
POST /item/0 none none parts x|404
PUT /bid none none parts x|405/2
GET /bid none none parts x|405/2
POST /about good token parts x|405/1
DELETE /categories none none parts x|405/3
POST /bid none none parts item=0|415
GET / none none parts x|415
HEAD /item/7 none none parts x|415
POST /bid none none whole item=0|400 item
POST /bid good old whole item=7&amount=0|400 amount
POST /bid none token whole item=7&amount=5|400 token
POST /bid broken token whole item=7&amount=5|400 token
POST /bid foreign token whole item=7&amount=5|400 token
POST /bid good none whole item=7&amount=5|400 token
POST /bid good none whole item=7&amount=5&token=ab|400 token
POST /bid good strange whole item=7&amount=5|400 token
POST /bid good short whole item=7&amount=5|400 token
POST /bid good long whole item=7&amount=5|400 token
POST /bid good upper whole item=7&amount=5|400 token
POST /bid good old whole item=7&amount=5|409 2/3
POST /bid good later whole item=7&amount=5|409 4/3
GET /category/7?page=x good none whole |400 page
GET / none none whole |draws request fresh write
HEAD /?page=x none none whole |draws request fresh write
GET / broken none whole |draws request fresh write
GET / good none whole |cookie draws request fresh read write
GET /form/bid none none whole |draws request token key key fresh write
HEAD /form/bid none none whole |draws request token key key fresh write
GET /form/bid foreign none whole |draws request token key key fresh write
GET /form/bid good none whole |cookie draws request token fresh read write
POST /bid good token whole item=7&amount=5|3:9 cookie draws fresh read write
POST /bid good escaped whole item=7&amount=5|3:9 cookie draws fresh read write
POST /signout good token whole |3:9 cookie draws fresh read write";

/// Adds what comes of the draws of an order, whose words count from 1 and whose serial numbers from this one.
fn add_drawn(rt: &impl Abort, alloc: Global, words: &mut String, order: &Order, serial: u64) {
    let mut serials = PlainSerials::new(serial);
    let mut random = PlainRandom::new(1);
    match draw_for(alloc, order, &mut serials, &mut random) {
        Ok(drawn) => add_draws(rt, words, "all", drawn.as_slice()),
        Err(DrawRefusal::Spent { seen: _, drawn }) => {
            add_draws(rt, words, "spent", drawn.as_slice());
        }
        Err(DrawRefusal::OutOfMemory) => add_word(rt, words, "no memory"),
    }
}

/// Adds a word, and for what numbers were drawn.
fn add_draws(rt: &impl Abort, words: &mut String, word: &str, drawn: &[Draw]) {
    add_word(rt, words, word);
    for draw in drawn {
        add_word(rt, words, draw_word(draw.kind));
    }
}

/// Asserts what is drawn for the request that a row spells, up to its `|`, behind how many serial numbers are left.
fn expect_drawn(rt: &impl Abort, alloc: Global, router: &SiteRouter, row: &str) {
    let (left, rest) = cut(rt, row, ' ');
    let (text, want) = cut(rt, rest, '|');
    let head = request(rt, alloc, text);
    let mut words = String::new(alloc);
    match decide(alloc, router, KEY, 3, &head).expect(rt, row) {
        Decision::Refused(refusal) => add_refusal(rt, &mut words, refusal),
        Decision::Ordered(order) => {
            let serial = SERIALS_END.wrapping_sub(number(rt, left));
            add_drawn(rt, alloc, &mut words, &order, serial);
        }
    }
    expect_words(rt, words.as_str(), want, row);
}

/// How many serial numbers are left, and a request. Nothing is drawn behind a spent serial number.
const SPENT: &str = "0 GET / none none whole |spent
1 GET / none none whole |spent request fresh
2 GET / none none whole |all request fresh write
1 GET /form/bid none none whole |spent request
2 GET /form/bid none none whole |spent request token key key fresh
0 POST /signout good token whole |spent fresh
1 POST /signout good token whole |spent fresh read
0 GET /nope none none whole |404";

/// What is drawn for an order, where serial numbers and words count from 1.
fn drawn_for(rt: &impl Abort, alloc: Global, order: &Order) -> DrawnList {
    let mut serials = PlainSerials::new(1);
    let mut random = PlainRandom::new(1);
    match draw_for(alloc, order, &mut serials, &mut random) {
        Ok(drawn) => drawn,
        Err(_) => DrawnList::new(alloc),
    }
}

/// Adds the number of a request, and of its call the user, the key, the moment, the fresh word and the form.
fn add_call(rt: &impl Abort, words: &mut String, number: RequestNo, call: &ActionCall) {
    write!(
        words,
        " {}:{} user {} key",
        number.boot, number.serial, call.user
    )
    .expect(rt, "call");
    add_bytes(rt, words, &call.key.0);
    write!(words, " at {} fresh {}", call.now.0, call.fresh).expect(rt, "a call");
    if call.form[0] == 0 {
        add_word(rt, words, "no form");
    } else {
        add_text(rt, words, " ", &call.form);
    }
}

/// The value of a session of user 7.
fn session(rt: &impl Abort, alloc: Global) -> SessionBytes {
    let bytes = [0u8, 0, 0, 0, 0, 0, 0, 7, 0, 0, 0, 0, 0, 0, 0, 9];
    SessionBytes::from_vec(Vec::from_slice(alloc, &bytes).expect(rt, "a value"))
}

/// Asserts the call of the request that a row spells, up to its `|`, at moment 1,000, where a session is one of user 7:
/// what `add_call` adds, and the numbers of the nonces.
fn expect_call(rt: &impl Abort, alloc: Global, router: &SiteRouter, row: &str) {
    let (text, want) = cut(rt, row, '|');
    let head = request(rt, alloc, text);
    let value = session(rt, alloc);
    let mut words = String::new(alloc);
    orders_are_in_range();
    match decide(alloc, router, KEY, 3, &head).expect(rt, row) {
        Decision::Refused(refusal) => add_refusal(rt, &mut words, refusal),
        Decision::Ordered(order) => {
            let drawn = drawn_for(rt, alloc, &order);
            let number = request_of(3, order.number, drawn.as_slice());
            let (call, cookie) = ordered_call(KEY, 3, order, Moment(1000), drawn.as_slice());
            let read = if cookie.is_some() { Some(&value) } else { None };
            let call = call_by(call, read);
            add_call(rt, &mut words, number, call.call());
            add_number(rt, &mut words, number_for(drawn.as_slice(), DrawKind::Read));
            add_number(
                rt,
                &mut words,
                number_for(drawn.as_slice(), DrawKind::Write),
            );
        }
    }
    expect_words(rt, words.as_str(), want, row);
}

/// Requests, and their calls.
const CALLED: &str =
    "GET / none none whole |3:1 user 0 key 0 0 0 0 0 0 0 0 0 0 0 0 0 0 0 0 at 1000 fresh 1 no form 0 2
GET / good none whole |3:1 user 7 key 7 7 7 7 7 7 7 7 7 7 7 7 7 7 7 7 at 1000 fresh 1 no form 2 3
GET /form/bid none none whole |3:1 user 0 key 0 0 0 0 0 0 0 1 0 0 0 0 0 0 0 2 at 1000 fresh 3 00000003000000000000000266a8563b58bcd948a9a89c638f0306ae 0 3
GET /form/bid good none whole |3:1 user 7 key 7 7 7 7 7 7 7 7 7 7 7 7 7 7 7 7 at 1000 fresh 1 0000000300000000000000024e770db2c7138dee2b3c8ecaa6e48852 3 4
POST /bid good token whole item=7&amount=5|3:9 user 7 key 7 7 7 7 7 7 7 7 7 7 7 7 7 7 7 7 at 1000 fresh 1 no form 1 2";

#[test]
fn requests_are_refused_or_ordered(rt: HostRuntime) {
    let router = SiteRouter::new(rt.alloc()).expect(&rt, "the routes");
    for row in DECIDED.split('\n') {
        expect_decision(&rt, rt.alloc(), &router, row);
    }
    for row in SPENT.split('\n') {
        expect_drawn(&rt, rt.alloc(), &router, row);
    }
    for row in CALLED.split('\n') {
        expect_call(&rt, rt.alloc(), &router, row);
    }
}
