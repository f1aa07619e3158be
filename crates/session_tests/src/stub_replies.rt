//! Events that a row spells, as a call is told them.
//!
//! An event is `sent`, `silent`, `junk`, `empty`, or a frame: its name, and behind it, parted by
//! points, the brick, one number or two, and what of the frame is not as the call wants it. So
//! `stored.2.7` says that brick 2 stored the value in incarnation 7, and `stored.2.7.0.key` says
//! so of another key.

use crate::words::{key, value};
use crash_base::{BrickNo, FrameBytes, Moment, SessionKey, Version};
use ssm_frames::{Frame, encode};
use ssm_stub::StubEvent;
use std::alloc::Global;
use std::process::Abort;

/// What the frames of a row refer to: the nonce of a call, and the key and version of a value.
#[derive(Clone, Copy)]
pub struct Wanted {
    pub nonce: Version,
    pub key: SessionKey,
    pub version: Version,
}

/// The part of an event at a place, and nothing where it has no such part.
fn part(event: &str, place: usize) -> &str {
    event.split('.').nth(place).unwrap_or("")
}

/// The number at a place, and 0 where there is none.
fn part_number(event: &str, place: usize) -> u64 {
    part(event, place).parse().unwrap_or(0)
}

/// The brick of an event, and brick 0 where it names none.
fn part_brick(event: &str) -> BrickNo {
    BrickNo(part(event, 1).parse().unwrap_or(0))
}

/// The version of node, boot and serial, each of which is one more where it is named.
fn altered(version: Version, what: &str) -> Version {
    Version {
        node: version.node.wrapping_add(u16::from(what == "node")),
        boot: version.boot.wrapping_add(u32::from(what == "boot")),
        serial: version.serial.wrapping_add(u64::from(what == "serial")),
    }
}

/// What a frame refers to of which something is not as a call wants it.
fn referred(wanted: Wanted, what: &str) -> Wanted {
    Wanted {
        nonce: altered(wanted.nonce, what),
        key: if what == "key" { key(99) } else { wanted.key },
        version: altered(
            wanted.version,
            if what == "version" { "serial" } else { "" },
        ),
    }
}

/// The frame that an event spells.
fn frame_of(rt: &impl Abort, alloc: Global, wanted: Wanted, event: &str) -> Frame {
    let Wanted {
        nonce,
        key,
        version,
    } = referred(wanted, part(event, 4));
    let brick = part_brick(event);
    let incarnation = part_number(event, 2);
    let last = part_number(event, 3);
    match part(event, 0) {
        "stored" => Frame::Stored {
            nonce,
            key,
            version,
            brick,
            incarnation,
        },
        "found" => Frame::Found {
            nonce,
            key,
            version,
            brick,
            incarnation,
            expiry: Moment(last),
            value: value(rt, alloc, "61"),
        },
        "absent" => Frame::Absent {
            nonce,
            key,
            version,
            brick,
            incarnation,
            swept: Moment(last),
        },
        "full" => Frame::BrickFull {
            nonce,
            key,
            version,
            brick,
            incarnation: 7,
            entries: part(event, 2).parse().unwrap_or(0),
            bytes: last,
        },
        _ => other_frame(rt, alloc, wanted, event),
    }
}

/// The frame that an event spells, which is a reply to no Put and to no Get.
fn other_frame(rt: &impl Abort, alloc: Global, wanted: Wanted, event: &str) -> Frame {
    let Wanted {
        nonce,
        key,
        version,
    } = wanted;
    match part(event, 0) {
        "put" => Frame::Put {
            nonce,
            key,
            version,
            expiry: Moment(5000),
            value: value(rt, alloc, "61"),
        },
        "get" => Frame::Get {
            nonce,
            key,
            version,
        },
        "sweep" => Frame::Sweep {
            nonce,
            moment: Moment(part_number(event, 3)),
        },
        "swept" => Frame::Swept {
            nonce,
            brick: part_brick(event),
            incarnation: part_number(event, 2),
            moment: Moment(part_number(event, 3)),
        },
        _ => panic!(rt; "{event}"),
    }
}

/// The bytes that an event spells.
pub fn bytes_of(rt: &impl Abort, alloc: Global, wanted: Wanted, event: &str) -> FrameBytes {
    match event {
        "empty" => FrameBytes::new(alloc),
        "junk" => FrameBytes::copied(alloc, b"\x55\x00").expect(rt, event),
        _ => encode(alloc, &frame_of(rt, alloc, wanted, event)).expect(rt, event),
    }
}

/// The event that a word spells.
pub fn event_of(rt: &impl Abort, alloc: Global, wanted: Wanted, event: &str) -> StubEvent {
    match event {
        "sent" => StubEvent::Sent,
        "silent" => StubEvent::Silent,
        _ => StubEvent::Frame(bytes_of(rt, alloc, wanted, event)),
    }
}
