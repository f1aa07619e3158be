//! Connections of clients on this machine, by a door.

use client_sockets::{ClientSink, ClientSource, Door};
use outside::{Failed, Sink, Source};
use std::alloc::Global;
use std::io::{Read, Write};
use std::net::{Net, TcpListener, TcpStream};
use std::process::Abort;
use std::sync::Wait;
use std::time::Clock;

/// A client of a door, and the connection that was let in.
fn let_in<'a, R: Abort + Wait + Clock + Net<Listener = TcpListener, Stream = TcpStream>>(
    rt: &'a R,
    alloc: Global,
    door: &'a Door,
) -> (TcpStream, ClientSource<'a, R>, ClientSink<'a, R>) {
    let port = door.port().expect(rt, "a port");
    let client = TcpStream::connect(rt, ("127.0.0.1", port)).expect(rt, "a client");
    let came = door.next(rt, alloc).expect(rt, "the door");
    let (source, sink) = came.expect(rt, "a connection");
    (client, source, sink)
}

/// How many bytes were read or written.
fn count_of(rt: &impl Abort, answer: Result<usize, Failed>) -> usize {
    match answer {
        Ok(count) => count,
        Err(Failed) => panic!(rt; "a fault"),
    }
}

/// Asserts that a connection is at its end.
fn expect_end(rt: &impl Abort, source: &mut impl Source) {
    let mut room = [0u8; 8];
    let count = count_of(rt, source.read(&mut room));
    assert!(rt; count == 0);
}

/// Asserts that a client is answered.
fn expect_answer(
    rt: &impl Abort,
    client: &mut TcpStream,
    source: &mut impl Source,
    sink: &mut impl Sink,
) {
    let mut room = [0u8; 8];
    client.write_all(b"ask").expect(rt, "a question");
    let count = count_of(rt, source.read(&mut room));
    assert!(rt; count == 3);
    let count = count_of(rt, sink.write(b"answer"));
    assert!(rt; count == 6);
    let mut answer = [0u8; 6];
    client.read_exact(&mut answer).expect(rt, "the answer");
    assert!(rt; answer == *b"answer");
}

#[test]
fn a_client_is_answered_and_then_not_waited_for(rt: HostRuntime) {
    let door = Door::open(&rt, rt.alloc(), 0).expect(&rt, "a door");
    let (mut client, mut source, mut sink) = let_in(&rt, rt.alloc(), &door);
    expect_answer(&rt, &mut client, &mut source, &mut sink);
    // Nobody waits at the door meanwhile.
    expect_end(&rt, &mut source);
    drop(source);
    drop(sink);
    let mut room = [0u8; 8];
    let count = client.read(&mut room).expect(&rt, "the end");
    assert!(rt; count == 0);
    assert!(rt; door.next(&rt, rt.alloc()).expect(&rt, "the door").is_none());
}

#[test]
fn a_stop_ends_those_that_were_let_in(rt: HostRuntime) {
    let door = Door::open(&rt, rt.alloc(), 0).expect(&rt, "a door");
    let (mut client, mut source, mut sink) = let_in(&rt, rt.alloc(), &door);
    expect_answer(&rt, &mut client, &mut source, &mut sink);
    door.stop();
    client.write_all(b"ask").expect(&rt, "a question");
    expect_end(&rt, &mut source);
    let (mut client, mut source, mut sink) = let_in(&rt, rt.alloc(), &door);
    expect_answer(&rt, &mut client, &mut source, &mut sink);
}

#[test]
fn a_port_is_opened_once(rt: HostRuntime) {
    let door = Door::open(&rt, rt.alloc(), 0).expect(&rt, "a door");
    let port = door.port().expect(&rt, "a port");
    assert!(rt; Door::open(&rt, rt.alloc(), port).is_err());
}
