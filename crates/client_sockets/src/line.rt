//! A connection, as its source and its sink share it.

ghost use Rattle.std.specs.Prelude.{◌≤◌, length};
ghost use Rattle.client_sockets.specs.Lines.{GotWithin, PutSome};

use crate::waits::WAIT_MILLIS;
use std::io::{self, ErrorKind, Read, Write};
use std::net::{Shutdown, TcpStream};
use std::sync::atomic::{AtomicBool, Ordering};
use std::time::Duration;

/// How often a client that still sends is waited for at most when its connection is ended: for a second in all.
const MAX_LAST_WAITS: u32 = 10;

/// How many pieces of what it has sent are thrown away at most before each of these waits.
const MAX_LAST_PIECES: u32 = 256;

/// What one wait for bytes gave.
#[derive(Clone, Copy)]
pub(crate) enum Got {
    /// So many bytes; 0 into a room that is not empty is the end.
    Bytes(usize),
    /// The wait was over.
    Nothing,
    Failed,
}

/// What one wait for a client to take bytes gave.
#[derive(Clone, Copy)]
pub(crate) enum Put {
    /// So many were taken, at least one.
    Bytes(usize),
    /// The wait was over.
    Nothing,
    Failed,
}

/// A connection, and whether a request is open on it.
pub(crate) struct Line {
    socket: TcpStream,
    is_asked: AtomicBool,
    /// Whether it is to be ended with no wait.
    is_hurried: AtomicBool,
}

/// Sets what the waits of a socket are, and that each piece leaves at once.
fn set_waits(socket: &TcpStream) -> io::Result<()> {
    socket.set_nodelay(true)?;
    socket.set_read_timeout(Some(Duration::from_millis(WAIT_MILLIS)))?;
    socket.set_write_timeout(Some(Duration::from_millis(WAIT_MILLIS)))
}

/// Whether a piece of what a client still sends was read, and thrown away.
fn throws_away(mut socket: &TcpStream) -> bool {
    let mut room = [0u8; 4096];
    match socket.read(&mut room) {
        Ok(count) => count > 0,
        Err(_) => false,
    }
}

/// Whether anything was there to be thrown away. All that has come is, unless there is too much.
fn throws_all_away(socket: &TcpStream) -> bool {
    for pieces in 0..MAX_LAST_PIECES {
        if !throws_away(socket) {
            return pieces > 0;
        }
    }
    true
}

/// Whether a client that is waited for once sent more, which was thrown away.
fn waits_for_more(socket: &TcpStream) -> bool {
    socket.set_nonblocking(false).is_ok()
        && throws_away(socket)
        && socket.set_nonblocking(true).is_ok()
}

/// Throws away what a client still sends, until it pauses or a second has passed. A connection that is closed over bytes
/// that nobody read may lose the response that is on its way.
fn throw_away(socket: &TcpStream) {
    for _ in 0..MAX_LAST_WAITS {
        if !waits_for_more(socket) {
            return;
        }
        let _ = throws_all_away(socket);
    }
}

/// Ends a connection. It waits only for a client that still sends, and not where it is hurried.
fn leave(socket: &TcpStream, is_hurried: bool) {
    if socket.shutdown(Shutdown::Write).is_err() || socket.set_nonblocking(true).is_err() {
        return;
    }
    if throws_all_away(socket) && !is_hurried {
        throw_away(socket);
    }
}

impl Line {
    /// A line over a new connection, on which no request is open.
    pub fn new(socket: TcpStream) -> io::Result<Line> {
        set_waits(&socket)?;
        Ok(Line {
            socket,
            is_asked: AtomicBool::new(false),
            is_hurried: AtomicBool::new(false),
        })
    }

    /// It is to be ended with no wait.
    pub fn hurry(&self) {
        self.is_hurried.store(true, Ordering::SeqCst);
    }

    /// Whether a request is open.
    pub fn is_asked(&self) -> bool {
        self.is_asked.load(Ordering::SeqCst)
    }

    /// Waits once for bytes, which are of a request.
    pub fn read(&self, into: &mut [u8]) -> Got
        ensures { GotWithin (length into.old) result }
    {
        let mut socket = &self.socket;
        match socket.read(into) {
            Ok(count) => {
                self.is_asked.store(true, Ordering::SeqCst);
                Got::Bytes(count)
            }
            Err(error) => match error.kind() {
                ErrorKind::WouldBlock | ErrorKind::Interrupted => Got::Nothing,
                _ => Got::Failed,
            },
        }
    }

    /// Waits once for the client to take bytes, of a response.
    pub fn write(&self, bytes: &[u8]) -> Put
        ensures { PutSome (length bytes.now) result }
    {
        self.is_asked.store(false, Ordering::SeqCst);
        let mut socket = &self.socket;
        match socket.write(bytes) {
            Ok(0) => Put::Failed,
            Ok(count) => Put::Bytes(count),
            Err(error) => match error.kind() {
                ErrorKind::WouldBlock | ErrorKind::Interrupted => Put::Nothing,
                _ => Put::Failed,
            },
        }
    }
}

impl Drop for Line {
    fn drop(self) {
        leave(&self.socket, self.is_hurried.load(Ordering::SeqCst));
        let Line {
            socket: _,
            is_asked: _,
            is_hurried: _,
        } = self;
    }
}
