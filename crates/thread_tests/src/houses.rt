//! Tests of a house of bricks and of links to it.

ghost use Rattle.std.specs.Prelude.{◌≡◌, length};

use crate::links::{
    BRICKS, ROUNDS, Reply, Told, from, get, number_of, put, receive, reply_of, send, two_ask,
};
use brick_house::{BrickHouse, HouseLink, HouseSeats};
use crash_base::{BrickNo, FrameBytes, Moment, Version};
use outside::{Link, LinkCounts, Received, Sent};
use ssm_frames::{Frame, encode};
use std::alloc::Global;
use std::process::Abort;

/// Expects that a brick takes a frame.
fn expect_taken<L: Link>(rt: &impl Abort, alloc: Global, link: &mut L, to: u16, frame: &Frame) {
    let sent = send(alloc, link, to, frame).expect(rt, "a send");
    assert_eq!(rt; sent, Sent::Done);
}

/// Expects that a reply waits.
fn expect_reply<L: Link>(
    rt: &impl Abort,
    alloc: Global,
    link: &mut L,
    from: u16,
    reply: Option<Reply>,
) {
    let received = receive(alloc, link, from).expect(rt, "a receive");
    assert_eq!(rt; received, reply);
}

/// Expects that a brick is silent.
fn expect_silence<L: Link>(rt: &impl Abort, alloc: Global, link: &mut L, from: u16) {
    let mut bytes = FrameBytes::new(alloc);
    let received = link.receive(alloc, BrickNo(from), &mut bytes);
    assert_eq!(rt; received, Received::Silent);
}

/// A house of three bricks of incarnation 7.
fn house(rt: &impl Abort, alloc: Global, links: u32) -> (BrickHouse, HouseSeats)
    ensures bricks { length result.0.locks ≡ 3 }
    ensures seats { result.1 ≡ record { house = result.0; parts = links } }
{
    assert!(rt; links >= 1);
    BrickHouse::new(alloc, BRICKS, 7, links).expect(rt, "a house")
}

/// Puts and gets at one brick.
fn expect_kept<L: Link>(rt: &impl Abort, alloc: Global, link: &mut L, brick: u16) {
    let number = brick as u64;
    let put = put(alloc, 1, 5, number).expect(rt, "a request");
    expect_taken(rt, alloc, link, brick, &get(1, 5));
    expect_taken(rt, alloc, link, brick, &put);
    expect_taken(rt, alloc, link, brick, &get(1, 5));
    expect_reply(rt, alloc, link, brick, from(brick, 5, Told::Absent));
    expect_reply(rt, alloc, link, brick, from(brick, 5, Told::Stored));
    expect_reply(rt, alloc, link, brick, from(brick, 5, Told::Found(number)));
    expect_silence(rt, alloc, link, brick);
}

#[test]
fn each_brick_keeps_what_it_is_sent(rt: HostRuntime) {
    let alloc = rt.alloc();
    let (house, seats) = house(&rt, alloc, 1);
    assert_eq!(rt; house.bricks(), 3);
    assert_eq!(rt; house.incarnation(), 7);
    let mut link = HouseLink::new(&rt, alloc, &house, seats).expect(&rt, "a link");
    for place in 0..BRICKS {
        expect_kept(&rt, alloc, &mut link, place + 1);
    }
    assert_eq!(rt; link.counts(), LinkCounts { hushed: 3, got: 9 });
}

#[test]
fn a_brick_that_is_not_there_is_silent(rt: HostRuntime) {
    let alloc = rt.alloc();
    let (house, seats) = house(&rt, alloc, 1);
    let mut link = HouseLink::new(&rt, alloc, &house, seats).expect(&rt, "a link");
    for number in [0, 4, 65_535] {
        let sent = send(alloc, &mut link, number, &get(1, 5)).expect(&rt, "a send");
        assert_eq!(rt; sent, Sent::Silent);
        expect_silence(&rt, alloc, &mut link, number);
    }
    assert_eq!(rt; link.counts(), LinkCounts { hushed: 6, got: 0 });
}

#[test]
fn what_spells_no_request_is_not_answered(rt: HostRuntime) {
    let alloc = rt.alloc();
    let (house, seats) = house(&rt, alloc, 1);
    let mut link = HouseLink::new(&rt, alloc, &house, seats).expect(&rt, "a link");
    let sent = link.send(alloc, BrickNo(2), b"no frame");
    assert_eq!(rt; sent, Sent::Done);
    let reply = Frame::Swept {
        nonce: Version {
            node: 1,
            boot: 1,
            serial: 5,
        },
        brick: BrickNo(2),
        incarnation: 7,
        moment: Moment(9),
    };
    expect_taken(&rt, alloc, &mut link, 2, &reply);
    expect_silence(&rt, alloc, &mut link, 2);
    expect_taken(&rt, alloc, &mut link, 2, &get(1, 5));
    expect_reply(&rt, alloc, &mut link, 2, from(2, 5, Told::Absent));
    assert_eq!(rt; link.counts(), LinkCounts { hushed: 1, got: 1 });
}

#[test]
fn a_brick_is_asked_without_a_link(rt: HostRuntime) {
    let alloc = rt.alloc();
    let (house, mut seats) = house(&rt, alloc, 1);
    let put = put(alloc, 1, 5, 11).expect(&rt, "a request");
    let stored = house
        .ask(&rt, alloc, &mut seats, BrickNo(3), &put)
        .expect(&rt, "a reply");
    assert_eq!(rt; reply_of(&stored), from(3, 5, Told::Stored));
    let found = house
        .ask(&rt, alloc, &mut seats, BrickNo(3), &get(1, 5))
        .expect(&rt, "a reply");
    assert_eq!(rt; reply_of(&found), from(3, 5, Told::Found(11)));
    let swept = Frame::Sweep {
        nonce: Version {
            node: 1,
            boot: 1,
            serial: 6,
        },
        moment: Moment(60_001),
    };
    let swept = house
        .ask(&rt, alloc, &mut seats, BrickNo(3), &swept)
        .expect(&rt, "a reply");
    assert_eq!(rt; reply_of(&swept), from(3, 6, Told::Swept(60_001)));
    let gone = house
        .ask(&rt, alloc, &mut seats, BrickNo(3), &get(1, 5))
        .expect(&rt, "a reply");
    assert_eq!(rt; reply_of(&gone), from(3, 5, Told::Absent));
}

#[test]
fn replies_that_wait_go_with_their_link(rt: HostRuntime) {
    let alloc = rt.alloc();
    let (house, seats) = house(&rt, alloc, 1);
    let mut link = HouseLink::new(&rt, alloc, &house, seats).expect(&rt, "a link");
    let bytes = encode(alloc, &put(alloc, 1, 5, 11).expect(&rt, "a request")).expect(&rt, "bytes");
    let sent = link.send(alloc, BrickNo(1), bytes.as_slice());
    assert_eq!(rt; sent, Sent::Done);
    let seats = link.into_seats();
    let mut link = HouseLink::new(&rt, alloc, &house, seats).expect(&rt, "another link");
    expect_silence(&rt, alloc, &mut link, 1);
    expect_taken(&rt, alloc, &mut link, 1, &get(1, 5));
    expect_reply(&rt, alloc, &mut link, 1, from(1, 5, Told::Found(11)));
}

/// Expects that each brick found the last number of a thread.
fn expect_last<L: Link>(rt: &impl Abort, alloc: Global, link: &mut L, who: u8) {
    for place in 0..BRICKS {
        let brick = place + 1;
        let serial = ROUNDS - 1;
        expect_taken(rt, alloc, link, brick, &get(who, serial));
        expect_reply(
            rt,
            alloc,
            link,
            brick,
            from(brick, serial, Told::Found(number_of(who, serial))),
        );
    }
}

#[test]
fn two_threads_ask_one_house(rt: HostRuntime) {
    let alloc = rt.alloc();
    let (house, mut seats) = house(&rt, alloc, 3);
    let first = house.split(alloc, &mut seats).expect(&rt, "seats");
    let second = house.split(alloc, &mut seats).expect(&rt, "more seats");
    let (first, second) = two_ask(&rt, alloc, &house, first, second);
    assert_eq!(rt; first.expect(&rt, "the first"), ROUNDS * BRICKS as u64);
    assert_eq!(rt; second.expect(&rt, "the second"), ROUNDS * BRICKS as u64);
    let mut link = HouseLink::new(&rt, alloc, &house, seats).expect(&rt, "a link");
    expect_last(&rt, alloc, &mut link, 1);
    expect_last(&rt, alloc, &mut link, 2);
}
