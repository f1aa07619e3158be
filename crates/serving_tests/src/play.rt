//! What clients ask of a site, a connection for each request.

ghost use Rattle.std.specs.Prelude.{◌≡◌};

use crate::browser::Client;
use crate::visitor::Visitor;
use connection_server::{Served, ServedEnd};
use crash_base::InputBytes;
use outcome_items::ItemOutcome;
use outside::{BytesSink, BytesSource, CallList, SizeList};
use request_tries::RequestOutcome;
use std::alloc::Global;
use std::process::Abort;
use std::sync::Wait;

/// A source of bytes that come in pieces of up to this size, so many of them, and then the rest; one call of which may
/// fail.
pub fn source_of(
    rt: &impl Abort,
    alloc: Global,
    bytes: &[u8],
    size: u64,
    pieces: usize,
    failing: u64,
) -> BytesSource {
    let mut sizes = SizeList::new(alloc);
    for _ in 0..pieces {
        sizes.push(size).expect(rt, "a size");
    }
    let mut calls = CallList::new(alloc);
    if failing > 0 {
        calls.push(failing).expect(rt, "a call");
    }
    let bytes = InputBytes::copied(alloc, bytes).expect(rt, "bytes");
    BytesSource::new(bytes, sizes, calls)
}

/// A sink with room, one call of which may fail.
pub fn sink_of(rt: &impl Abort, alloc: Global, failing: u64) -> BytesSink {
    let mut calls = CallList::new(alloc);
    if failing > 0 {
        calls.push(failing).expect(rt, "a call");
    }
    BytesSink::new(alloc, 100_000, calls).expect(rt, "a sink")
}

/// A word for how a call ended.
pub fn end_word(served: &Served) -> &'static str {
    match served.ended {
        ServedEnd::Closed => "closed",
        ServedEnd::Cut => "cut",
        ServedEnd::Refused(_) => "refused",
        ServedEnd::Stopped => "stopped",
        ServedEnd::ReadFault => "read fault",
        ServedEnd::WriteFault => "write fault",
        ServedEnd::OutOfMemory => "out of memory",
    }
}

/// What a sink was written, as a text.
pub fn text_of<'a>(rt: &impl Abort, sink: &'a BytesSink) -> &'a str {
    std::str::from_utf8(sink.as_slice()).expect(rt, "a text")
}

/// The place of the entry that the page of the only request is of, if it is of one.
fn only_place(served: &Served) -> Option<u64> {
    match served.items.as_slice() {
        [item] => match &item.outcome {
            ItemOutcome::Ended(RequestOutcome::Page { place, .. }) => Some(place.0),
            _ => None,
        },
        _ => None,
    }
}

/// Sends a request of a client over a connection of its own, cut behind so many bytes, and hears the response. With it
/// comes the place of the entry that its page is of, if it is of one.
pub fn ask<W: Wait + Abort>(
    rt: &W,
    alloc: Global,
    visitor: &mut Visitor<'_>,
    client: &mut Client,
    request: &str,
    cut: u64,
) -> (String, Option<u64>)
    ensures there { visitor.new.shared.now ≡ visitor.old.shared.now }
{
    let mut source = source_of(rt, alloc, request.as_bytes(), cut, 1, 0);
    let mut sink = sink_of(rt, alloc, 0);
    let served = visitor.serve(rt, alloc, &mut source, &mut sink);
    assert!(rt; end_word(&served) == "closed");
    assert!(rt; served.items.len() == 1);
    let response = text_of(rt, &sink);
    client.hear(rt, response);
    let response = String::from_str(alloc, response).expect(rt, "a response");
    (response, only_place(&served))
}
