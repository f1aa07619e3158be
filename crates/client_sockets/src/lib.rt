//! Connections of clients on this machine: a door that lets them in, and a source and a sink over each.
//!
//! ```text
//! let door = Door::open(rt, alloc, 8080)?;                       // on 127.0.0.1 alone
//! let Some((mut source, mut sink)) = door.next(rt, alloc)? else { // nobody came within a tenth of a second
//!     continue;
//! };
//! source.read(&mut room)                                         // Ok(0) where the wait was over, as at the end
//! door.stop();                                                   // ends all that were let in
//! ```
//!
//! A client that does nothing holds a thread for a bounded time. A connection is ended
//! - between two requests, after a minute; after a fifth of a second while no worker is free; and after a tenth behind a
//!   thousand requests,
//! - inside a request, ten seconds after its first bytes,
//! - where its client has not taken a response after ten seconds, which is a fault of the sink,
//! - at most a tenth of a second after a stop, where its client is waited for.
//!
//! A request is open from its first byte until a byte is written. To a client that still sends when its connection is
//! ended, the last response comes all the same: what it sends is read and thrown away for up to a second, with no wait
//! where the door was stopped.
//!
//! Nothing is promised of time, of bytes, or of what reaches a client; the count of faults is.
#![tactic(auto)]

mod client_sink;
mod client_source;
mod door;
mod line;
mod waits;

pub use client_sink::ClientSink;
pub use client_source::ClientSource;
pub use door::Door;
