//! A host that gives back what its streams are given.

use std::alloc::{AllocError, Global};
use vs_echo::EchoHost;
use vs_flow::Flow;
use vs_outside::{Dialed, HostNet, StreamRead, StreamWrite};

// The stream of a dial, or 0, where there is none.
fn dials(host: &mut EchoHost, path: &str, port: u32) -> u64 {
    match host.dial(path, Flow::to_host(port, 7)) {
        Dialed::Stream(id) => id,
        _ => 0,
    }
}

// How many bytes an open stream took.
fn writes(host: &mut EchoHost, id: u64, bytes: &[u8]) -> usize {
    if !host.is_open(id) {
        return 0;
    }
    match host.write(id, bytes) {
        StreamWrite::Took(n) => n,
        _ => 0,
    }
}

// How many bytes an open stream gave back.
fn reads(host: &mut EchoHost, id: u64, out: &mut [u8]) -> usize {
    if !host.is_open(id) {
        return 0;
    }
    match host.read(id, out) {
        StreamRead::Got(n) => n,
        _ => 0,
    }
}

// Whether an open stream has no bytes now, and may get more.
fn waits(host: &mut EchoHost, id: u64, out: &mut [u8]) -> bool {
    host.is_open(id) && host.read(id, out) == StreamRead::Again
}

// Whether a stream takes 70,000 bytes in two pieces, and gives them back in order.
fn many_bytes(alloc: Global) -> Result<bool, AllocError> {
    let mut host = EchoHost::new(alloc, "v.sock", 7)?;
    let id = dials(&mut host, "v.sock_7", 1024);
    let mut bytes = vec![in alloc; 5; 70_000]?;
    bytes[0] = 1;
    bytes[65_536] = 2;
    let mut front = vec![in alloc; 0; 65_536]?;
    let mut rest = vec![in alloc; 0; 4_464]?;
    let first = writes(&mut host, id, &bytes) == 65_536 && writes(&mut host, id, &bytes) == 0;
    let half = reads(&mut host, id, &mut front) == 65_536 && bytes.starts_with(&front);
    let last = writes(&mut host, id, &bytes[65_536..]) == 4_464;
    Ok(first && half && last && reads(&mut host, id, &mut rest) == 4_464 && bytes.ends_with(&rest))
}

#[test]
fn many_bytes_come_back(rt: HostRuntime) {
    assert!(rt; matches!(many_bytes(rt.alloc()), Ok(true)));
}

// Whether each of two streams gives back its own bytes, also once its write side is shut, and then waits; and a dial of another port is refused.
fn two_streams(alloc: Global) -> Result<bool, AllocError> {
    let mut host = EchoHost::new(alloc, "v.sock", 7)?;
    let one = dials(&mut host, "v.sock_7", 1024);
    let two = dials(&mut host, "v.sock_7", 1025);
    let took = writes(&mut host, one, b"one") == 3 && writes(&mut host, two, b"second") == 6;
    if host.is_open(one) {
        host.shut_write(one);
    }
    let mut out = [0; 8];
    let back = reads(&mut host, one, &mut out) == 3 && out.starts_with(b"one");
    let other = reads(&mut host, two, &mut out) == 6 && out.starts_with(b"second");
    Ok(
        took && back
            && other
            && waits(&mut host, one, &mut out)
            && dials(&mut host, "v.sock_8", 1026) == 0,
    )
}

#[test]
fn two_streams_give_back_their_own(rt: HostRuntime) {
    assert!(rt; matches!(two_streams(rt.alloc()), Ok(true)));
}
