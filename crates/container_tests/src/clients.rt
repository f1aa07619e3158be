//! Clients of a server: what they ask and hear.

ghost use Rattle.std.specs.Prelude.{◌≡◌, ◌≤◌, None};

use crash_base::{InputBytes, OutOfMemory};
use outside::{Failed, Sink, SizeList, SureSource};
use std::alloc::Global;
use std::sync::{Mutex, Wait};

/// What a client hears over its connections, at which another thread may look.
#[derive(Drop)]
pub struct Ear {
    bytes: Mutex<Vec<u8>>,
}

impl Ear {
    /// A client that has heard nothing yet.
    pub fn new(alloc: Global) -> Ear {
        Ear {
            bytes: Mutex::new(Vec::new(alloc)),
        }
    }

    /// What was heard so far.
    pub fn heard<W: Wait>(&self, rt: &W, alloc: Global) -> Result<Vec<u8>, OutOfMemory> {
        let bytes = self.bytes.lock(rt);
        Ok(Vec::from_slice(alloc, bytes.as_slice())?)
    }
}

/// What stands in a text behind the last mark of one kind, up to the next of another; nothing, where it is not there.
pub fn last_between<'a>(text: &'a str, open: &str, close: &str) -> &'a str {
    match text.rsplit_once(open) {
        None => "",
        Some((_, rest)) => match rest.split_once(close) {
            None => "",
            Some((part, _)) => part,
        },
    }
}

/// The request for a page.
fn get(alloc: Global, target: &str, cookie: &str) -> Result<String, OutOfMemory> {
    let text = format!(in alloc; "GET {target} HTTP/1.1\r\nHost: localhost\r\n{cookie}\r\n")?;
    Ok(text)
}

/// The request with the fields of a form.
fn post(alloc: Global, target: &str, cookie: &str, fields: &str) -> Result<String, OutOfMemory> {
    let size = fields.len();
    let head = format!(in alloc; "POST {target} HTTP/1.1\r\nHost: localhost\r\n{cookie}")?;
    let text = format!(in alloc;
        "{head}Content-Type: application/x-www-form-urlencoded\r\nContent-Length: {size}\r\n\r\n{fields}"
    )?;
    Ok(text)
}

/// What a browser asks that has heard this: a target, or a form, if it has fields. It sends the cookie that it was
/// given last, and the token of the form that it was shown last.
pub fn request(
    alloc: Global,
    heard: &str,
    target: &str,
    form: &str,
) -> Result<String, OutOfMemory> {
    let kept = last_between(heard, "\r\nSet-Cookie: crash=", ";");
    let mut cookie = String::new(alloc);
    if !kept.is_empty() {
        cookie = format!(in alloc; "Cookie: crash={kept}\r\n")?;
    }
    if form.is_empty() {
        return get(alloc, target, &cookie);
    }
    let token = last_between(heard, "name=\"token\" value=\"", "\"");
    let fields = format!(in alloc; "token={token}&{form}")?;
    post(alloc, target, &cookie, &fields)
}

/// The sink of a connection, whose bytes a client hears.
#[derive(Drop)]
pub struct EarSink<'a, W: Wait> {
    rt: &'a W,
    ear: &'a Ear,
    faults: u64,
}

impl<'a, W: Wait> Sink for EarSink<'a, W> {
    ghost written = { λ _. None };

    ghost faults = { λ s. s.faults };

    /// It takes all bytes, or fails where there is no memory for them.
    fn write(&mut self, bytes: &[u8]) -> Result<usize, Failed> {
        match self.ear.bytes.lock(self.rt).extend_from_slice(bytes) {
            Ok(()) => Ok(bytes.len()),
            Err(_) => {
                self.faults = self.faults.saturating_add(1);
                Err(Failed)
            }
        }
    }
}

/// That no more connections come.
#[derive(Drop)]
pub struct Ended;

/// A connection: all bytes that its client sends, and where it hears.
pub type Connection<'a, W> = (SureSource, EarSink<'a, W>);

/// A connection over which a client sends these bytes and hears here.
pub fn connection<'a, W: Wait>(
    rt: &'a W,
    alloc: Global,
    bytes: &[u8],
    ear: &'a Ear,
) -> Result<Connection<'a, W>, OutOfMemory> {
    let bytes = InputBytes::copied(alloc, bytes)?;
    let source = SureSource::new(alloc, bytes, SizeList::new(alloc));
    Ok((source, EarSink { rt, ear, faults: 0 }))
}
