//! Loops over the heads of requests and the bytes of a response, whose time `bench/http` takes.
//!
//! The words are a loop, `take`, `browser`, `bytes`, `lines`, `body` or `respond`, and how often it goes round. What it
//! writes is the loop and a sum, which is known beforehand: how many requests were taken, how often a long head was
//! refused once its last byte was there, with or without line feeds in it, or the bytes of the responses.
#![tactic(auto)]

mod loops;

use crash_base::OutOfMemory;
use loops::{bodies, refused, responded, taken};
use std::alloc::Global;
use std::env;
use std::process::ExitCode;

/// A request as curl sends it.
const CURL: &str =
    "GET / HTTP/1.1\r\nHost: localhost\r\nUser-Agent: curl/8.5.0\r\nAccept: */*\r\n\r\n";

/// A request of about 700 bytes with six cookies, as a browser sends it.
const BROWSER: &str =
    "GET /category/3?page=1 HTTP/1.1\r\nHost: localhost:8080\r\nUser-Agent: Mozilla/5.0 (X11; Linux \
    x86_64; rv:128.0) Gecko/20100101 Firefox/128.0\r\nAccept: text/html,application/xhtml+xml,application/xml;q=0.9,\
    image/avif,image/webp,image/png,image/svg+xml,*/*;q=0.8\r\nAccept-Language: en-US,en;q=0.5\r\nAccept-Encoding: gzip, \
    deflate, br, zstd\r\nReferer: http://localhost:8080/categories\r\nConnection: keep-alive\r\nCookie: theme=dark; \
    lang=en; seen=1700000000; choice=a1b2c3; visit=42; crash=AQAAAAAAAAAAAAAAAAAAAAAAAQABAAAAAQ\r\n\
    Upgrade-Insecure-Requests: 1\r\nSec-Fetch-Dest: document\r\nSec-Fetch-Mode: navigate\r\nSec-Fetch-Site: same-origin\
    \r\nSec-Fetch-User: ?1\r\nPriority: u=0, i\r\n\r\n";

/// The head of a request with a long body.
const FORM: &str = "POST /sell HTTP/1.1\r\nHost: localhost\r\nContent-Length: 16384\r\n\r\n";

/// How many bytes its body has.
const FORM_BYTES: usize = 16_384;

/// A loop and how often it goes round, where there are two words and the second one is a number.
fn words(rt: &HostRuntime) -> Option<(String, u64)> {
    let mut words = env::args(rt).ok()?.skip(1);
    let name = words.next()?;
    let count = words.next()?.parse().ok()?;
    Some((name, count))
}

/// The sum of a loop. None where there is no such loop.
fn sum_of(alloc: Global, name: &str, count: u64) -> Result<Option<u64>, OutOfMemory> {
    match name {
        "take" => Ok(Some(taken(alloc, CURL.as_bytes(), count)?)),
        "browser" => Ok(Some(taken(alloc, BROWSER.as_bytes(), count)?)),
        "bytes" => Ok(Some(refused(alloc, b'x', count)?)),
        "lines" => Ok(Some(refused(alloc, b'\n', count)?)),
        "body" => Ok(Some(bodies(alloc, FORM.as_bytes(), FORM_BYTES, count)?)),
        "respond" => Ok(Some(responded(alloc, count)?)),
        _ => Ok(None),
    }
}

fn main(rt: HostRuntime) -> ExitCode {
    let Some((name, count)) = words(&rt) else {
        return ExitCode::from(2);
    };
    match sum_of(rt.alloc(), name.as_str(), count) {
        Ok(Some(sum)) => match println!(&rt; "{name} {sum}") {
            Ok(()) => ExitCode::from(0),
            Err(_) => ExitCode::from(5),
        },
        Ok(None) => ExitCode::from(2),
        Err(OutOfMemory) => ExitCode::from(9),
    }
}
