//! The client of the mapping over a host in memory: what comes back.

use crate::client::client;
use std::alloc::{AllocError, AllocGlobal, Global};
use std::sync::Wait;
use std::test::Fail;
use vs_outside::{FreeGate, MemSink, MemSource, MemStream, PeerHost, PreparedStream};
use vs_peer::{BAD_SOURCE, DONE, REFUSED, SOURCE_MAX, WAITED};

const IDLE: u32 = 3;

/// What the host's program does at the other end of the stream.
fn prepared(alloc: Global, bytes: &[u8], ended: bool) -> Result<PreparedStream, AllocError> {
    Ok(PreparedStream {
        bytes: Vec::from_slice(alloc, bytes)?,
        ended,
        room: None,
        closed: false,
    })
}

/// Runs a client of port 70 with the source `yo`, whose bytes come and go one by one: its status, what it wrote, and the pauses of its gate.
fn run<R: AllocGlobal + Wait>(
    rt: &R,
    host: &mut PeerHost,
) -> Result<(u8, MemSink, u64), AllocError> {
    let mut source = MemSource::new(rt.alloc(), Vec::from_slice(rt.alloc(), b"yo")?, 1);
    let mut sink = MemSink::new(rt.alloc(), 1);
    let mut gate = FreeGate::new();
    let status = client(rt, "v.sock", IDLE, &mut source, host, &mut gate, &mut sink);
    Ok((status, sink, gate.pauses()))
}

/// Whether the stream was given just these bytes, of which there are 64 at most.
fn is_given(stream: &MemStream, bytes: &[u8]) -> bool {
    let read = stream.read_after_ok();
    read.count == bytes.len() as u64 && read.front.as_slice().starts_with(bytes)
}

/// Whether the client ends with that status, writes that text, and gives these bytes to its stream; where it waited, with a pause a step.
fn ends<R: AllocGlobal + Wait>(
    rt: &R,
    prepared: PreparedStream,
    status: u8,
    written: &[u8],
    given: &[u8],
) -> Result<bool, AllocError> {
    let mut host = PeerHost::new(rt.alloc(), "v.sock", prepared)?;
    let (ended, sink, pauses) = run(rt, &mut host)?;
    let mut right = ended == status && sink.bytes() == written;
    right = right && (status != WAITED || pauses == u64::from(IDLE));
    for stream in host.host().streams() {
        right = right && is_given(stream, given);
    }
    Ok(right)
}

#[test]
fn a_client_is_answered_and_is_done(rt: HostRuntime) -> Result<(), Fail> {
    let stream = prepared(rt.alloc(), b"OK 1073741824\nhi", true)?;
    assert!(rt; ends(&rt, stream, DONE, b"port 1073741824\nhi", b"CONNECT 70\nyo")?);
    Ok(())
}

#[test]
fn a_stream_that_ends_at_once_refuses(rt: HostRuntime) -> Result<(), Fail> {
    let stream = prepared(rt.alloc(), b"", true)?;
    assert!(rt; ends(&rt, stream, REFUSED, b"peer refused\n", b"CONNECT 70\n")?);
    Ok(())
}

#[test]
fn another_line_refuses(rt: HostRuntime) -> Result<(), Fail> {
    let stream = prepared(rt.alloc(), b"ok 52\nhi", false)?;
    assert!(rt; ends(&rt, stream, REFUSED, b"peer refused\n", b"CONNECT 70\n")?);
    Ok(())
}

#[test]
fn a_stream_without_room_is_waited_for(rt: HostRuntime) -> Result<(), Fail> {
    let mut stream = prepared(rt.alloc(), b"", false)?;
    stream.room = Some(0);
    assert!(rt; ends(&rt, stream, WAITED, b"waited 3\n", b"")?);
    Ok(())
}

#[test]
fn bytes_without_an_end_are_waited_for(rt: HostRuntime) -> Result<(), Fail> {
    let stream = prepared(rt.alloc(), b"OK 52\nhi", false)?;
    assert!(rt;
        ends(
            &rt,
            stream,
            WAITED,
            b"port 52\nhiwaited 3\n",
            b"CONNECT 70\nyo"
        )?
    );
    Ok(())
}

/// Whether a client with this source ends with that status and text, at a host where nobody listens.
fn ends_at<R: AllocGlobal + Wait>(
    rt: &R,
    mut source: MemSource,
    status: u8,
    written: &[u8],
) -> Result<bool, AllocError> {
    let mut host = PeerHost::refusing(rt.alloc(), "v.sock")?;
    let mut sink = MemSink::new(rt.alloc(), 64);
    let mut gate = FreeGate::new();
    let ended = client(
        rt,
        "v.sock",
        IDLE,
        &mut source,
        &mut host,
        &mut gate,
        &mut sink,
    );
    Ok(ended == status && sink.bytes() == written)
}

#[test]
fn a_source_is_too_long(rt: HostRuntime) -> Result<(), Fail> {
    let bytes = vec![in rt.alloc(); 0; SOURCE_MAX + 1]?;
    let source = MemSource::new(rt.alloc(), bytes, 4096);
    assert!(rt; ends_at(&rt, source, BAD_SOURCE, b"line 0 TooLong\n")?);
    Ok(())
}

#[test]
fn nobody_listens(rt: HostRuntime) -> Result<(), Fail> {
    let source = MemSource::new(rt.alloc(), Vec::from_slice(rt.alloc(), b"yo")?, 1);
    assert!(rt; ends_at(&rt, source, REFUSED, b"peer refused\n")?);
    Ok(())
}
