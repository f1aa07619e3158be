//! The loops.

use crash_base::{OutOfMemory, PageText};
use http_wire::{
    CookieField, ExtraFields, MAX_HEAD_BYTES, Received, Taken, response_bytes, take_request,
};
use std::alloc::Global;

/// The page of who is signed out.
const PAGE: &str =
    "<!doctype html>\n<title>Auctions</title>\n<h1>Auctions</h1>\n<p>Signed out</p>\n\
                    <p><a href=\"/categories\">Categories</a></p>\n";

/// How often a request was taken from bytes, of so many times.
pub fn taken(alloc: Global, bytes: &[u8], count: u64) -> Result<u64, OutOfMemory> {
    let mut requests: u64 = 0;
    for _ in 0..count {
        if let Taken::Request(_) = take_request(alloc, bytes)? {
            requests = requests.wrapping_add(1);
        }
    }
    Ok(requests)
}

/// Whether a head that does not end is refused as soon as it has as many bytes as a head may have, which come one by
/// one. The byte at each 256th place is `other`.
fn is_refused(alloc: Global, other: u8) -> Result<bool, OutOfMemory> {
    let mut received = Received::new(alloc);
    for index in 0..MAX_HEAD_BYTES {
        if received.is_settled() {
            return Ok(false);
        }
        let byte = if index % 256 == 255 { other } else { b'x' };
        received.feed(&[byte])?;
    }
    Ok(received.is_settled())
}

/// How many long heads were refused, of so many. Their byte at each 256th place is `other`.
pub fn refused(alloc: Global, other: u8, count: u64) -> Result<u64, OutOfMemory> {
    let mut heads: u64 = 0;
    for _ in 0..count {
        if is_refused(alloc, other)? {
            heads = heads.wrapping_add(1);
        }
    }
    Ok(heads)
}

/// Whether a request is taken as soon as the last byte of its body is there, whose bytes come one by one.
fn is_taken(alloc: Global, head: &[u8], size: usize) -> Result<bool, OutOfMemory> {
    let mut received = Received::new(alloc);
    received.feed(head)?;
    for _ in 0..size {
        if received.is_settled() {
            return Ok(false);
        }
        received.feed(b"x")?;
    }
    match received.take(alloc)? {
        Taken::Request(request) => Ok(request.body.len() == size),
        _ => Ok(false),
    }
}

/// How many requests were taken behind the last byte of a body of so many bytes, of so many.
pub fn bodies(alloc: Global, head: &[u8], size: usize, count: u64) -> Result<u64, OutOfMemory> {
    let mut requests: u64 = 0;
    for _ in 0..count {
        if is_taken(alloc, head, size)? {
            requests = requests.wrapping_add(1);
        }
    }
    Ok(requests)
}

/// The bytes of so many responses with the page of who is signed out.
pub fn responded(alloc: Global, count: u64) -> Result<u64, OutOfMemory> {
    let page = PageText::copied(alloc, PAGE.as_bytes())?;
    let extra = ExtraFields {
        cookie: CookieField::None,
        retry: false,
        allow: 0,
        close: false,
    };
    let mut sum: u64 = 0;
    for _ in 0..count {
        let bytes = response_bytes(alloc, 200, &extra, &page, false)?;
        sum = sum.wrapping_add(bytes.len() as u64);
    }
    Ok(sum)
}
