//! Plays over each kind of rings: all print the same.

use crate::running::{are_printed, played};
use std::alloc::{AllocError, Global};
use std::test::Fail;
use tests_support::{COUNTED, HOSTILE_COUNTED, before_end};

/// Each kind of rings.
const KINDS: [&str; 3] = [
    "vsock play --rings list",
    "vsock play --rings plain",
    "vsock play --rings shared",
];

/// A client of the host asks for port 1234 of the guest, and both talk.
const CLIENT: (&str, &str) = (
    "listen 1234\nclient\nhost write 1 434f4e4e45435420313233340a616263\nturn\npoll\naccept 1234\nsend 1 78\nturn\npoll\n\
     recv 1 10\n",
    "ok\nstream 1\nok\nturned 0 1 13 0 1 0\npolled 1 1 0\nconn 1 on 1234 1073741824\ntook 1\nturned 2 1 3 15 0 0\n\
     polled 1 0 0\ngot 3 616263\nguest open 1\ndevice open 1\nstream 1 1234 1073741824 wrote 3 616263 read 1 78\n",
);

/// The host's program ends what it writes, and the guest still sends.
const HALF_CLOSED: (&str, &str) = (
    "host listen 52\nconnect 52\nturn\npoll\nhost write 1 616263\nhost end 1\nturn\nturn\npoll\nrecv 1 10\nrecv 1 10\n\
     send 1 78\nturn\n",
    "ok\nconn 1 on 1024 52\nturned 1 1 0 0 1 0\npolled 1 0 0\nok\nok\nturned 0 1 3 0 0 0\nturned 0 1 0 0 0 0\npolled 2 0 0\n\
     got 3 616263\nend\ntook 1\nturned 1 0 0 1 0 0\nguest open 1\ndevice open 1\nstream 1 1024 52 wrote 3 616263 read 1 78\n",
);

/// A transport reset ends both connections; listeners stay, and the next connection has a port of its own.
const RESET: (&str, &str) = (
    "host listen 52\nlisten 70\nconnect 52\nconnect 52\nturn\npoll\nhost write 1 78\nturn\nreset 9\nturn\npoll\nturn\nrecv 1 1\n\
     listen 70\nconnect 52\nturn\n",
    "ok\nok\nconn 1 on 1024 52\nconn 2 on 1025 52\nturned 2 2 0 0 2 0\npolled 2 0 0\nok\nturned 0 1 1 0 0 0\nok\n\
     turned 0 0 0 0 0 0\npolled 1 3 1\nturned 3 0 0 0 0 0\nreset\ntaken\nconn 3 on 1026 52\nturned 1 1 0 0 1 0\nguest open 1\n\
     device open 1\nstream 1 1024 52 wrote 1 78 read 0 -\nstream 2 1025 52 wrote 0 - read 0 -\n\
     stream 3 1026 52 wrote 0 - read 0 -\n",
);

#[test]
fn each_kind_of_rings_prints_the_same(rt: HostRuntime) -> Result<(), Fail> {
    assert!(rt; are_printed(&rt, &KINDS, &[CLIENT, HALF_CLOSED, RESET], COUNTED)?);
    Ok(())
}

/// A REQUEST for a port where nobody listens lies in two pieces, of 20 and 24 bytes, behind descriptors 0 and 1 of tx; rx has a page of 100 bytes
/// behind descriptor 3. Looked at are the RST in it, the used ring of rx, and the used index of tx.
const PIECES: (&str, &str) = (
    "memory 4096 65536\nrings 8\nwrite 8192 03000000000000000200000000000000d0070000\n\
     write 9000 350000000000000001000100000000000000010000000000\ndesc tx 0 8192 20 1 1\ndesc tx 1 9000 24 0 0\ngive tx 0 0\n\
     index tx 1\ndesc rx 3 12288 100 2 0\ngive rx 0 3\nindex rx 1\nturn\nlook 12288 44\nlook 4248 12\nlook 4474 2\n",
    "ok\nok\nok\nok\nok\nok\nok\nok\nok\nok\nok\nturned 1 1 0 0 0 0\n\
     bytes 0200000000000000030000000000000035000000d00700000000000001000300000000000000000000000000\n\
     bytes 00000100030000002c000000\nbytes 0100\ndevice open 0\n",
);

#[test]
fn a_packet_in_two_pieces_is_answered(rt: HostRuntime) -> Result<(), Fail> {
    assert!(rt; are_printed(&rt, &["vsock hostile"], &[PIECES], HOSTILE_COUNTED)?);
    Ok(())
}

/// A script of 20,000 lines: on one connection 6,665 bytes, each with a turn and a poll of its own, and one line more.
fn long(alloc: Global) -> Result<String, AllocError> {
    let mut script = String::from_str(alloc, "host listen 52\nconnect 52\nturn\npoll\nstate 1\n")?;
    for _ in 0..6_665 {
        script.push_str("send 1 61\nturn\npoll\n")?;
    }
    Ok(script)
}

/// The last lines of its answer, but for what was counted.
const LONG_ENDS: &str = "took 1\nturned 1 0 0 1 0 0\npolled 0 0 0\nguest open 1\ndevice open 1\n\
                         stream 1 1024 52 wrote 0 - read 6665 61616161616161616161616161616161..61616161616161616161616161616161\n";

#[test]
fn twenty_thousand_lines_over_eight_shared_pages(rt: HostRuntime) -> Result<(), Fail> {
    let script = long(rt.alloc())?;
    let (status, sink) = played(
        &rt,
        "vsock play --rings shared --queue 8",
        script.as_str(),
        4_096,
    )?;
    assert!(rt;
        status == 0
            && before_end(sink.bytes(), COUNTED).is_some_and(|bytes: &[u8]| bytes.ends_with(
                LONG_ENDS.as_bytes()
            ))
    );
    Ok(())
}
