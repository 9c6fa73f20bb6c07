//! Words and statuses.

use crate::running::ends;
use std::alloc::{AllocError, AllocGlobal};
use std::sync::Wait;
use std::test::Fail;
use std::thread::Threads;
use tests_support::{COUNTED, HOSTILE_COUNTED};

const NONE: &str = "guest open 0\ndevice open 0\n";

const HELLO: &str = "host listen 52\nconnect 52\nturn\npoll\nsend 1 68656c6c6f\nturn\nrecv 1 10\n";

const HELLO_PRINTED: &str =
    "ok\nconn 1 on 1024 52\nturned 1 1 0 0 1 0\npolled 1 0 0\ntook 5\nturned 1 0 0 5 0 0\nempty\n\
     guest open 1\ndevice open 1\nstream 1 1024 52 wrote 0 - read 5 68656c6c6f\n";

const HOSTILE: &str = "memory 4096 65536\nrings 8\nindex tx 9\nturn\nturn\n";

const HOSTILE_PRINTED: &str = "ok\nok\nok\nfailed AvailJump 0 9\nfailed AvailJump 0 9\n\
                               device open 0\n";

/// Whether each of these command lines is none.
fn are_usage<R: AllocGlobal + Wait + Threads + Sync>(
    rt: &R,
    lines: &[&str],
) -> Result<bool, AllocError> {
    for line in lines {
        if !ends(rt, line, HELLO, 100, 1, ("usage\n", ""))? {
            return Ok(false);
        }
    }
    Ok(true)
}

/// Whether each of these plays ends with its status and prints its text.
fn are_answered<R: AllocGlobal + Wait + Threads + Sync>(
    rt: &R,
    plays: &[(&str, &str, u8, &str, &str)],
) -> Result<bool, AllocError> {
    for (line, script, status, printed, last) in plays {
        if !ends(rt, line, script, 100, *status, (printed, last))? {
            return Ok(false);
        }
    }
    Ok(true)
}

#[test]
fn short_plays_print_their_answers(rt: HostRuntime) -> Result<(), Fail> {
    let plays: [(&str, &str, u8, &str, &str); 9] = [
        ("vsock play", HELLO, 0, HELLO_PRINTED, COUNTED),
        (
            "vsock play --rings list --queue=8",
            HELLO,
            0,
            HELLO_PRINTED,
            COUNTED,
        ),
        ("vsock play --", "", 0, NONE, COUNTED),
        (
            "vsock hostile",
            HOSTILE,
            7,
            HOSTILE_PRINTED,
            HOSTILE_COUNTED,
        ),
        ("vsock play", "send 1 6\n", 2, "line 1 BadHex\n", ""),
        (
            "vsock play",
            "# none\n\n   \npoll x\n",
            2,
            "line 4 BadWord\n",
            "",
        ),
        ("vsock hostile", "turn\n", 2, "line 1 BadWord\n", ""),
        (
            "vsock play",
            "connect 53\nturn\npoll\nrecv 1 1\nstate 1",
            0,
            "conn 1 on 1024 53\nturned 1 1 0 0 0 0\npolled 1 0 0\nreset\ngone\n\
             guest open 0\ndevice open 0\n",
            COUNTED,
        ),
        (
            "vsock peer --base v.sock --port 70",
            "yo",
            8,
            "peer refused\n",
            "",
        ),
    ];
    assert!(rt; are_answered(&rt, &plays)?);
    Ok(())
}

#[test]
fn words_that_are_no_command_print_usage(rt: HostRuntime) -> Result<(), Fail> {
    let lines = [
        "",
        "vsock",
        "vsock --",
        "vsock -- play",
        "vsock help",
        "vsock --help",
        "vsock play --help",
        "vsock play -h",
        "vsock play list",
        "vsock play --queue",
        "vsock play --queue 9",
        "vsock play --queue 08",
        "vsock play --queue 8 --queue 8",
        "vsock play --queue --rings list",
        "vsock play --rings ring",
        "vsock play -- --queue 8",
        "vsock hostile --queue 8",
        "vsock peer --base v.sock",
        "vsock peer --port 1",
        "vsock peer --base= --port 1",
        "vsock peer --base v.sock --port 4294967296",
        "vsock peer --base v.sock --port +1",
        "vsock peer --base v.sock --port 01",
        "vsock peer --base v.sock --port 1 --idle 0",
        "vsock peer --base v.sock --port 1 --idle 1000001",
    ];
    assert!(rt; are_usage(&rt, &lines)?);
    Ok(())
}

#[test]
fn pieces_of_one_byte_print_the_same(rt: HostRuntime) -> Result<(), Fail> {
    assert!(rt; ends(&rt, "vsock play", HELLO, 1, 0, (HELLO_PRINTED, COUNTED))?);
    Ok(())
}
