//! What waits where something is full.

use crate::running::played;
use std::alloc::{AllocError, AllocGlobal, Global};
use std::sync::Wait;
use std::test::Fail;
use std::thread::Threads;
use tests_support::{COUNTED, before_end};

/// These texts, each so many times.
fn script_of(alloc: Global, texts: &[(u16, &str)]) -> Result<String, AllocError> {
    let mut script = String::new(alloc);
    for (times, text) in texts {
        for _ in 0..*times {
            script.push_str(text)?;
        }
    }
    Ok(script)
}

/// Whether a play of these texts ends with status 0, these lines, and that nothing was counted.
fn ends_with<R: AllocGlobal + Wait + Threads + Sync>(
    rt: &R,
    line: &str,
    texts: &[(u16, &str)],
    last: &str,
) -> Result<bool, AllocError> {
    let script = script_of(rt.alloc(), texts)?;
    let (status, sink) = played(rt, line, script.as_str(), 4_096)?;
    match before_end(sink.bytes(), COUNTED) {
        Some(bytes) => Ok(status == 0 && bytes.ends_with(last.as_bytes())),
        None => Ok(false),
    }
}

/// Sixteen handshakes at once: the 17th client's line is read once there is a place.
const CLIENTS: [(u16, &str); 3] = [
    (17, "client\n"),
    (17, "turn\n"),
    (
        1,
        "host write 17 434f4e4e4543542037300a\nturn\ntick 2000\nturn\n",
    ),
];

const CLIENTS_END: &str =
    "turned 0 0 0 0 0 0\nok\nturned 0 0 0 0 0 0\nok\nturned 0 1 11 0 1 0\nguest open 0\ndevice open 1\n\
                           stream 1 - - wrote 0 - read 0 -\nstream 2 - - wrote 0 - read 0 -\nstream 3 - - wrote 0 - read 0 -\n\
                           stream 4 - - wrote 0 - read 0 -\nstream 5 - - wrote 0 - read 0 -\nstream 6 - - wrote 0 - read 0 -\n\
                           stream 7 - - wrote 0 - read 0 -\nstream 8 - - wrote 0 - read 0 -\nstream 9 - - wrote 0 - read 0 -\n\
                           stream 10 - - wrote 0 - read 0 -\nstream 11 - - wrote 0 - read 0 -\nstream 12 - - wrote 0 - read 0 -\n\
                           stream 13 - - wrote 0 - read 0 -\nstream 14 - - wrote 0 - read 0 -\nstream 15 - - wrote 0 - read 0 -\n\
                           stream 16 - - wrote 0 - read 0 -\nstream 17 70 1073741824 wrote 0 - read 0 -\n";

#[test]
fn the_17th_client_waits(rt: HostRuntime) -> Result<(), Fail> {
    assert!(rt; ends_with(&rt, "vsock play", &CLIENTS, CLIENTS_END)?);
    Ok(())
}

/// Nine REQUESTs in one poll for a port at which eight may wait: the ninth gets RST.
const REQUESTS: [(u16, &str); 5] = [
    (1, "listen 70\n"),
    (9, "client\n"),
    (9, "turn\n"),
    (
        1,
        "host write 1 434f4e4e4543542037300a\nhost write 2 434f4e4e4543542037300a\nhost write 3 434f4e4e4543542037300a\n\
         host write 4 434f4e4e4543542037300a\nhost write 5 434f4e4e4543542037300a\nhost write 6 434f4e4e4543542037300a\n\
         host write 7 434f4e4e4543542037300a\nhost write 8 434f4e4e4543542037300a\nhost write 9 434f4e4e4543542037300a\n\
         turn\npoll\nturn\n",
    ),
    (9, "accept 70\n"),
];

const REQUESTS_END: &str =
    "turned 0 9 99 0 9 0\npolled 9 9 0\nturned 9 0 0 112 0 1\nconn 1 on 70 1073741824\n\
                            conn 2 on 70 1073741825\nconn 3 on 70 1073741826\nconn 4 on 70 1073741827\nconn 5 on 70 1073741828\n\
                            conn 6 on 70 1073741829\nconn 7 on 70 1073741830\nconn 8 on 70 1073741831\nnone\nguest open 8\n\
                            device open 8\nstream 1 70 1073741824 wrote 0 - read 0 -\nstream 2 70 1073741825 wrote 0 - read 0 -\n\
                            stream 3 70 1073741826 wrote 0 - read 0 -\nstream 4 70 1073741827 wrote 0 - read 0 -\n\
                            stream 5 70 1073741828 wrote 0 - read 0 -\nstream 6 70 1073741829 wrote 0 - read 0 -\n\
                            stream 7 70 1073741830 wrote 0 - read 0 -\nstream 8 70 1073741831 wrote 0 - read 0 -\n\
                            stream 9 70 1073741832 wrote 0 - read 0 -\n";

#[test]
fn the_ninth_that_waits_gets_rst(rt: HostRuntime) -> Result<(), Fail> {
    assert!(rt; ends_with(&rt, "vsock play", &REQUESTS, REQUESTS_END)?);
    Ok(())
}

/// Of 65 REQUESTs that nobody answers a turn takes 64: then the device owes 64 RSTs, and has no room for another. The RST of the connection that
/// was closed and the 65th REQUEST stay in the ring.
const REFUSED: [(u16, &str); 2] = [
    (64, "connect 53\n"),
    (1, "close 1\npoll\nconnect 53\nturn\nturn\npoll\n"),
];

const REFUSED_END: &str =
    "conn 64 on 1087 53\nok\npolled 0 1 0\nconn 65 on 1088 53\nturned 64 64 0 0 0 0\nturned 2 1 0 0 0 0\npolled 65 0 0\n\
                           guest open 0\ndevice open 0\n";

#[test]
fn the_65th_request_waits_in_the_ring(rt: HostRuntime) -> Result<(), Fail> {
    assert!(rt; ends_with(&rt, "vsock play --queue 128", &REFUSED, REFUSED_END)?);
    Ok(())
}
