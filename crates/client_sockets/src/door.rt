//! The door through which clients come.

use crate::client_sink::ClientSink;
use crate::client_source::ClientSource;
use crate::line::Line;
use crate::waits::WAIT_MILLIS;
use std::alloc::Global;
use std::io::{self, ErrorKind};
use std::net::{Net, TcpListener, TcpStream};
use std::os::fd::OwnedFd;
use std::sync::atomic::{AtomicU64, Ordering};
use std::sync::{Arc, Mutex, Wait};
use std::thread;
use std::time::{Clock, Duration};

/// The errors of an `accept` that come of the listener: EBADF, EFAULT, EINVAL and ENOTSOCK. Others come of one client, or
/// of a want that passes.
const LISTENER_ERRORS: [i32; 4] = [9, 14, 22, 88];

/// A door on 127.0.0.1, which threads share.
#[derive(Drop)]
pub struct Door {
    listener: TcpListener,
    /// How many threads wait for a client.
    free: AtomicU64,
    /// How often it was stopped.
    stops: AtomicU64,
    /// Connections that came while it was stopped.
    held: Mutex<Vec<TcpStream>>,
}

/// Sets how long one `accept` waits. On Linux that is the wait of a read.
fn with_wait(listener: TcpListener) -> io::Result<TcpListener> {
    let socket = TcpStream::from(OwnedFd::from(listener));
    socket.set_read_timeout(Some(Duration::from_millis(WAIT_MILLIS)))?;
    Ok(TcpListener::from(OwnedFd::from(socket)))
}

/// Whether an `accept` failed so that none will succeed.
fn is_broken(error: &io::Error) -> bool {
    match error.raw_os_error() {
        Some(number) => LISTENER_ERRORS.contains(&number),
        None => false,
    }
}

/// The source and the sink over a connection, which came when the door had been stopped so often. None where there is no
/// memory, or the client has gone.
fn pair_of<'a, C: Clock>(
    clock: &'a C,
    alloc: Global,
    door: &'a Door,
    stops: u64,
    socket: TcpStream,
) -> Option<(ClientSource<'a, C>, ClientSink<'a, C>)> {
    let line = Line::new(socket).ok()?;
    let line = Arc::new(alloc, line).ok()?;
    let other = Arc::try_clone(&line).ok()?;
    Some((
        ClientSource::new(clock, door, line, stops),
        ClientSink::new(clock, door, other, stops),
    ))
}

impl Door {
    /// A door on this port of 127.0.0.1, or on one that the system chooses, where it is 0.
    ///
    /// # Errors
    /// The system's, as where the port is taken.
    pub fn open<R: Net<Listener = TcpListener, Stream = TcpStream>>(
        net: &R,
        alloc: Global,
        port: u16,
    ) -> io::Result<Door> {
        let listener = with_wait(TcpListener::bind(net, ("127.0.0.1", port))?)?;
        Ok(Door {
            listener,
            free: AtomicU64::new(0),
            stops: AtomicU64::new(0),
            held: Mutex::new(Vec::new(alloc)),
        })
    }

    /// Its port.
    ///
    /// # Errors
    /// The system's.
    pub fn port(&self) -> io::Result<u16> {
        Ok(self.listener.local_addr()?.port())
    }

    /// Waits once for a connection.
    fn wait(&self) -> io::Result<TcpStream> {
        self.free.fetch_add(1, Ordering::SeqCst);
        let came = self.listener.accept();
        self.free.fetch_sub(1, Ordering::SeqCst);
        let (socket, _) = came?;
        Ok(socket)
    }

    /// Keeps a connection for the next call. Without memory for it it is ended.
    fn hold<R: Wait>(&self, rt: &R, socket: TcpStream) {
        let _ = self.held.lock(rt).push(socket);
    }

    /// The next client's connection. None where nobody came within a tenth of a second, or somebody who could not be
    /// let in; and where the door was stopped meanwhile: who came then is let in by the next call.
    ///
    /// # Errors
    /// The system's, where the listener failed.
    pub fn next<'a, R: Wait + Clock>(
        &'a self,
        rt: &'a R,
        alloc: Global,
    ) -> io::Result<Option<(ClientSource<'a, R>, ClientSink<'a, R>)>> {
        let stops = self.stops();
        if let Some(socket) = self.held.lock(rt).pop() {
            return Ok(pair_of(rt, alloc, self, stops, socket));
        }
        match self.wait() {
            Ok(socket) if self.stops() == stops => Ok(pair_of(rt, alloc, self, stops, socket)),
            Ok(socket) => {
                self.hold(rt, socket);
                Ok(None)
            }
            Err(error) if is_broken(&error) => Err(error),
            Err(error) => {
                if error.kind() != ErrorKind::WouldBlock {
                    thread::sleep(rt, Duration::from_millis(WAIT_MILLIS));
                }
                Ok(None)
            }
        }
    }

    /// Ends the connections that were let in: each where it next waits for its client.
    pub fn stop(&self) {
        self.stops.fetch_add(1, Ordering::SeqCst);
    }

    /// How often it was stopped.
    pub(crate) fn stops(&self) -> u64 {
        self.stops.load(Ordering::SeqCst)
    }

    /// How many threads wait for a client.
    pub(crate) fn free(&self) -> u64 {
        self.free.load(Ordering::SeqCst)
    }
}
