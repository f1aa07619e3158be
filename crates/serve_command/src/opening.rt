//! What a server opens: the file of the key, the database and the port.
//!
//! This file is trusted: no contract says what the system opens and reads, but that a keeper that was opened has not
//! failed yet.

ghost use Rattle.std.specs.Prelude.{◌≡◌, IfOk, box_value};

use crate::ending::{StartFault, key_refused, start_failed};
use crate::file_keeper::FileKeeper;
use crate::key::{KeyFault, read_key};
use client_sockets::Door;
use crash_base::Items;
use keeper_sqlite::{OpenFault, RowsFault, SqlKeeper};
use outside::InputSource;
use sqlite::{Alter, Connection, Error, ErrorCode};
use sqlite_std_file::{File as DatabaseFile, OpenError, Unknown};
use sqlite_store::FileStore;
use std::alloc::Global;
use std::fmt::Display;
use std::fs::File;
use std::io::{self, ErrorKind, Read};

/// The text of a word; nothing where it is none, of which nothing can be opened.
fn text_of(word: &[u8]) -> &str {
    match std::str::from_utf8(word) {
        Ok(text) => text,
        Err(_) => "",
    }
}

/// What has this name was not opened or not read, for what the error tells.
fn failed<D: Display + Drop>(alloc: Global, name: &[u8], error: D) -> StartFault {
    match error.to_string(alloc) {
        Ok(text) => start_failed(alloc, name, text.as_bytes()),
        Err(_) => start_failed(alloc, name, b"not opened"),
    }
}

/// Reads the first byte of a file.
fn first_byte(host: &HostRuntime, path: &str) -> io::Result<usize> {
    let mut file = File::open(host, path)?;
    let mut first = [0];
    file.read(&mut first)
}

/// A file was not read: what the system says where it is read once more.
fn unread(host: &HostRuntime, path: &[u8]) -> StartFault {
    match first_byte(host, text_of(path)) {
        Ok(_) => start_failed(host.alloc(), path, b"not read"),
        Err(error) => failed(host.alloc(), path, error),
    }
}

/// Opens the file of the key, and reads it.
pub(crate) fn open_key(host: &HostRuntime, path: &[u8]) -> Result<Items<u8>, StartFault> {
    let alloc = host.alloc();
    let file = match File::open(host, text_of(path)) {
        Ok(file) => file,
        Err(error) => return Err(failed(alloc, path, error)),
    };
    match read_key(alloc, &mut InputSource::new(file)) {
        Ok(key) => Ok(key),
        Err(KeyFault::Length) => Err(key_refused(alloc, path)),
        Err(KeyFault::Failed) => Err(unread(host, path)),
        Err(KeyFault::OutOfMemory) => Err(StartFault::OutOfMemory),
    }
}

/// What the system says of files that were not opened. The database crate keeps its word to itself, so they are opened
/// once more.
fn unopened(alloc: Global, path: &[u8], error: OpenError) -> StartFault {
    match error {
        OpenError::OutOfMemory => StartFault::OutOfMemory,
        OpenError::Io(error) if error.kind() == ErrorKind::Unsupported => {
            start_failed(alloc, path, b"it is no file, or has another name as well")
        }
        error => failed(alloc, path, error),
    }
}

/// Why the database crate cannot open the files of a path.
fn why_unopened(host: &HostRuntime, path: &[u8]) -> StartFault {
    let text = text_of(path);
    if text == ":memory:" || text.starts_with("file:") {
        return start_failed(host.alloc(), path, b"it is no path of a file");
    }
    match sqlite_std_file::open(host, text, Unknown) {
        Ok(_) => start_failed(host.alloc(), path, b"not opened"),
        Err(error) => unopened(host.alloc(), path, error),
    }
}

/// Opens the database in a file.
fn open_database(
    host: &HostRuntime,
    path: &[u8],
) -> Result<Connection<FileStore<DatabaseFile>>, StartFault> {
    match Connection::open(host, text_of(path)) {
        Ok(connection) => Ok(connection),
        Err(Error::SqliteFailure(ErrorCode::OutOfMemory)) => Err(StartFault::OutOfMemory),
        Err(Error::SqliteFailure(ErrorCode::CannotOpen)) => Err(why_unopened(host, path)),
        Err(error) => Err(failed(host.alloc(), path, error)),
    }
}

/// A keeper on the heap over a database, in which it makes the table of its rows where there is none.
fn keeper_over<S: Alter + Send + Drop>(
    alloc: Global,
    path: &[u8],
    connection: Connection<S>,
) -> Result<Box<SqlKeeper<S>>, StartFault>
    ensures { IfOk result (λ keeper. (box_value keeper).faults ≡ 0) }
{
    match SqlKeeper::new(connection) {
        Ok(keeper) => match Box::new(alloc, keeper) {
            Ok(keeper) => Ok(keeper),
            Err(_) => Err(StartFault::OutOfMemory),
        },
        Err(OpenFault::OtherSchema) => {
            Err(start_failed(alloc, path, b"crash_rows is another table in it"))
        }
        Err(OpenFault::Failed(RowsFault::OutOfMemory)) => Err(StartFault::OutOfMemory),
        Err(OpenFault::Failed(why)) => Err(failed(alloc, path, why)),
    }
}

/// Opens the keeper whose rows are in the database in a file.
pub(crate) fn open_keeper(host: &HostRuntime, path: &[u8]) -> Result<FileKeeper, StartFault>
    ensures { IfOk result (λ keeper. (box_value keeper.inner).faults ≡ 0) }
{
    match open_database(host, path) {
        Ok(connection) => match keeper_over(host.alloc(), path, connection) {
            Ok(inner) => Ok(FileKeeper { inner }),
            Err(fault) => Err(fault),
        },
        Err(fault) => Err(fault),
    }
}

/// Opens a door on a port of 127.0.0.1.
pub(crate) fn open_door(host: &HostRuntime, port: u16) -> Result<Door, StartFault> {
    let alloc = host.alloc();
    match Door::open(host, alloc, port) {
        Ok(door) => Ok(door),
        Err(error) if error.kind() == ErrorKind::OutOfMemory => Err(StartFault::OutOfMemory),
        Err(error) => Err(port_failed(alloc, port, error)),
    }
}

/// A port was not opened.
pub(crate) fn port_failed(alloc: Global, port: u16, error: io::Error) -> StartFault {
    match format!(in alloc; "port {port}") {
        Ok(name) => failed(alloc, name.as_bytes(), error),
        Err(_) => failed(alloc, b"port", error),
    }
}
