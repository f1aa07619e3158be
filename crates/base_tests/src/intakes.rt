//! How a request is taken in: what is decided, what is drawn in order, and what it is served with.

use crate::decisions::{KEY, add_refusal, draw_word, request};
use crate::words::{add_number, add_word, cut, expect_words, number};
use auction_calls::ActionCall;
use crash_base::{Moment, RequestNo};
use outside::{MOMENTS_END, PlainClock, PlainRandom, PlainSerials, Random, Serials};
use request_decisions::Draw;
use request_intake::{Admission, Arrival, HomeBoot, Intake, take_in};
use site_routes::SiteRouter;
use std::alloc::Global;
use std::fmt::Write;
use std::process::Abort;

/// A clock that shows the moment that a text spells.
fn clock(rt: &impl Abort, text: &str) -> PlainClock {
    let now = number(rt, text);
    assert!(rt; now < MOMENTS_END);
    PlainClock::new(Moment(now))
}

fn add_drawn(rt: &impl Abort, words: &mut String, drawn: &[Draw]) {
    for draw in drawn {
        write!(words, " {}={}", draw_word(draw.kind), draw.number).expect(rt, "a draw");
    }
}

/// Adds the number of a request, where it is known.
fn add_own(rt: &impl Abort, words: &mut String, request: Option<RequestNo>) {
    match request {
        Some(own) => write!(words, " as {}:{}", own.boot, own.serial).expect(rt, "a number"),
        None => add_word(rt, words, "unknown"),
    }
}

/// Adds the user, the moment and the fresh word of a call, the last two bytes of each half of its key, and the number
/// in its form.
fn add_call(rt: &impl Abort, words: &mut String, call: &ActionCall) {
    let key = &call.key.0;
    write!(words, " call {} {} {}", call.user, call.now.0, call.fresh).expect(rt, "a call");
    write!(words, " key {} {} {} {}", key[6], key[7], key[14], key[15]).expect(rt, "a key");
    if call.form[0] != 0 {
        let digits = std::str::from_utf8(&call.form[..24])
            .ok()
            .expect(rt, "a form");
        write!(words, " form {digits}").expect(rt, "a form");
    }
}

/// Adds what a request is served with. Its nonces are `NODE.BOOT.SERIAL`.
fn add_admission(rt: &impl Abort, words: &mut String, a: &Admission) {
    add_own(rt, words, Some(a.request));
    add_call(rt, words, a.call.call());
    if a.cookie.is_some() {
        let read = a.read;
        write!(words, " read {}.{}.{}", read.node, read.boot, read.serial).expect(rt, "a nonce");
    }
    let write = a.write;
    write!(
        words,
        " write {}.{}.{}",
        write.node, write.boot, write.serial
    )
    .expect(rt, "a nonce");
}

fn add_arrival(rt: &impl Abort, words: &mut String, arrival: &Arrival) {
    match arrival {
        Arrival::Refused(refusal) => add_refusal(rt, words, *refusal),
        Arrival::SerialsSpent { request, seen } => {
            add_own(rt, words, *request);
            write!(words, " spent {seen}").expect(rt, "a spent number");
        }
        Arrival::Admitted(admission) => add_admission(rt, words, admission),
    }
}

fn add_intake(rt: &impl Abort, words: &mut String, intake: &Intake) {
    write!(words, " at {}", intake.now.0).expect(rt, "a moment");
    add_drawn(rt, words, intake.drawn.as_slice());
    add_arrival(rt, words, &intake.arrival);
}

/// Adds the random word and the serial number that are drawn next.
fn add_next(
    rt: &impl Abort,
    words: &mut String,
    random: &mut PlainRandom,
    serials: &mut PlainSerials,
) {
    write!(words, " next {}", random.word()).expect(rt, "a word");
    match serials.draw() {
        Ok(serial) => add_number(rt, words, serial),
        Err(_) => add_word(rt, words, "none"),
    }
}

/// Asserts how the request that a row spells, up to its `|`, is taken in in boot 3 of node 7. The row begins with the
/// moment, the next random word and the next serial number.
fn expect_intake(rt: &impl Abort, alloc: Global, router: &SiteRouter, row: &str) {
    let (text, want) = cut(rt, row, '|');
    let (moment, rest) = cut(rt, text, ' ');
    let (word, rest) = cut(rt, rest, ' ');
    let (serial, rest) = cut(rt, rest, ' ');
    let head = request(rt, alloc, rest);
    let home = HomeBoot { node: 7, boot: 3 };
    let mut clock = clock(rt, moment);
    let mut random = PlainRandom::new(number(rt, word));
    let mut serials = PlainSerials::new(number(rt, serial));
    let intake = take_in(
        alloc,
        router,
        KEY,
        home,
        &head,
        &mut clock,
        &mut random,
        &mut serials,
    )
    .expect(rt, row);
    let mut words = String::new(alloc);
    add_intake(rt, &mut words, &intake);
    add_next(rt, &mut words, &mut random, &mut serials);
    expect_words(rt, words.as_str(), want, row);
}

/// Requests that are refused, for which nothing is drawn; that are served with what is drawn; and for which too few
/// serial numbers are left, behind which nothing is drawn.
const INTAKES: &str = "5 900 40 GET /nope good none whole |at 5 404 next 900 40
6 900 40 POST /about good token whole |at 6 405/1 next 900 40
7 900 40 POST /bid good old whole item=7&amount=5|at 7 409 2/3 next 900 40
8 900 4611686018427387904 GET /category/7?page=x good none whole |at 8 400 page next 900 none
5 900 40 GET / none none whole |at 5 request=40 fresh=900 write=41 as 3:40 call 0 5 900 key 0 0 0 0 write 7.3.41 next 901 42
6 900 40 GET / good none whole |at 6 request=40 fresh=900 read=41 write=42 as 3:40 call 0 6 900 key 7 7 7 7 read 7.3.41 write 7.3.42 next 901 43
7 900 40 GET /form/bid none none whole |at 7 request=40 token=41 key=900 key=901 fresh=902 write=42 as 3:40 call 0 7 902 key 3 132 3 133 form 000000030000000000000029 write 7.3.42 next 903 43
8 900 40 GET /form/bid good none whole |at 8 request=40 token=41 fresh=900 read=42 write=43 as 3:40 call 0 8 900 key 7 7 7 7 form 000000030000000000000029 read 7.3.42 write 7.3.43 next 901 44
9 900 40 POST /bid good token whole item=7&amount=5|at 9 fresh=900 read=40 write=41 as 3:9 call 0 9 900 key 7 7 7 7 read 7.3.40 write 7.3.41 next 901 42
5 900 4611686018427387904 GET / none none whole |at 5 unknown spent 4611686018427387904 next 900 none
5 900 4611686018427387903 GET / none none whole |at 5 request=4611686018427387903 fresh=900 as 3:4611686018427387903 spent 4611686018427387904 next 901 none
5 900 4611686018427387903 GET /form/bid none none whole |at 5 request=4611686018427387903 as 3:4611686018427387903 spent 4611686018427387904 next 900 none
5 900 4611686018427387902 GET /form/bid none none whole |at 5 request=4611686018427387902 token=4611686018427387903 key=900 key=901 fresh=902 as 3:4611686018427387902 spent 4611686018427387904 next 903 none
5 900 4611686018427387904 POST /bid good token whole item=7&amount=5|at 5 fresh=900 as 3:9 spent 4611686018427387904 next 901 none";

#[test]
fn requests_are_taken_in_by_what_is_drawn(rt: HostRuntime) {
    let router = SiteRouter::new(rt.alloc()).expect(&rt, "the routes");
    for row in INTAKES.split('\n') {
        expect_intake(&rt, rt.alloc(), &router, row);
    }
}
