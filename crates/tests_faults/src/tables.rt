//! How commands end of which one call fails.

use crate::failing::{Called, Command, failing};
use std::alloc::{AllocError, AllocGlobal};
use std::sync::Wait;
use std::test::Fail;
use std::thread::Threads;
use tests_support::{COUNTED, FAULT_COUNTED, NOTHING_COUNTED, before_end};

/// So many calls; the status of a command of which one of these fails, and what it prints, in two parts.
type Row = (u64, u8, &'static str, &'static str);

/// Whether a command ends as these rows say, whichever call fails: those of the first row are its first calls behind so many, and so on. The
/// last row is that of a call that isn't made, where all calls are there.
fn ends<R: AllocGlobal + Wait + Threads + Sync>(
    rt: &R,
    command: &Command,
    called: Called,
    before: u64,
    rows: &[Row],
) -> Result<bool, AllocError> {
    let mut n = before;
    for (calls, status, printed, last) in rows {
        for _ in 0..*calls {
            n = n.saturating_add(1);
            let (ended, sink) = failing(rt, command, called, n)?;
            if ended != *status || before_end(sink.bytes(), last) != Some(printed.as_bytes()) {
                return Ok(false);
            }
        }
    }
    Ok(true)
}

/// Whether a command that gives its sink these pieces, and no more, ends with status 4 behind those before the one that fails.
fn is_cut_off<R: AllocGlobal + Wait + Threads + Sync>(
    rt: &R,
    command: &Command,
    pieces: &[&str],
) -> Result<bool, AllocError> {
    let mut before = String::new(rt.alloc());
    for (n, piece) in pieces.iter().enumerate() {
        let (ended, sink) = failing(rt, command, Called::Sink, n as u64 + 1)?;
        if ended != 4 || sink.bytes() != before.as_bytes() {
            return Ok(false);
        }
        before.push_str(piece)?;
    }
    let (ended, sink) = failing(rt, command, Called::Sink, pieces.len() as u64 + 1)?;
    Ok(ended == 0 && sink.bytes() == before.as_bytes())
}

const PLAY: Command = Command {
    line: "vsock play",
    source: "listen 1234\nclient\nhost write 1 434f4e4e45435420313233340a616263\nturn\npoll\naccept 1234\nsend 1 78\nturn\npoll\nrecv 1 10\n",
    path: "v.sock",
};

const PLAY_PIECES: [&str; 14] = [
    "ok\n",
    "stream 1\n",
    "ok\n",
    "turned 0 1 13 0 1 0\n",
    "polled 1 1 0\n",
    "conn 1 on 1234 1073741824\n",
    "took 1\n",
    "turned 2 1 3 15 0 0\n",
    "polled 1 0 0\n",
    "got 3 616263\n",
    "guest open 1\n",
    "device open 1\n",
    "stream 1 1234 1073741824 wrote 3 616263 read 1 78\n",
    NOTHING_COUNTED,
];

const PLAY_READS: [Row; 2] = [
    (9, 3, "read fault\n", ""),
    (
        1,
        0,
        "ok\nstream 1\nok\nturned 0 1 13 0 1 0\npolled 1 1 0\nconn 1 on 1234 1073741824\ntook 1\nturned 2 1 3 15 0 0\npolled 1 0 0\n\
         got 3 616263\nguest open 1\ndevice open 1\nstream 1 1234 1073741824 wrote 3 616263 read 1 78\n",
        COUNTED,
    ),
];

/// What the play prints behind the answer of `host fail`, where no stream fails.
const PLAY_WHOLE: &str =
    "ok\nok\nstream 1\nok\nturned 0 1 13 0 1 0\npolled 1 1 0\nconn 1 on 1234 1073741824\ntook 1\nturned 2 1 3 15 0 0\npolled 1 0 0\n\
     got 3 616263\nguest open 1\ndevice open 1\nstream 1 1234 1073741824 wrote 3 616263 read 1 78\n";

const PLAY_ACCEPT: [Row; 1] = [
    // The accept of the client, who is accepted in the next turn.
    (
        1,
        0,
        "ok\nok\nstream 1\nok\nturned 0 0 0 0 0 0\npolled 0 0 0\nnone\nunknown\nturned 0 1 13 0 1 0\npolled 1 1 0\nempty\n\
         guest open 1\ndevice open 1\nstream 1 1234 1073741824 wrote 0 - read 0 -\n",
        FAULT_COUNTED,
    ),
];

const PLAY_HOST: [Row; 4] = [
    // The accept of the second turn.
    (1, 0, PLAY_WHOLE, FAULT_COUNTED),
    // The write of the OK line.
    (
        1,
        0,
        "ok\nok\nstream 1\nok\nturned 0 1 13 0 1 0\npolled 1 1 0\nconn 1 on 1234 1073741824\ntook 1\nturned 2 1 0 0 0 1\npolled 1 0 0\n\
         reset\nguest open 0\ndevice open 0\nstream 1 1234 1073741824 wrote 0 - read 0 -\n",
        FAULT_COUNTED,
    ),
    // The read behind the line.
    (
        1,
        0,
        "ok\nok\nstream 1\nok\nturned 0 1 13 0 1 0\npolled 1 1 0\nconn 1 on 1234 1073741824\ntook 1\nturned 2 1 0 15 0 1\npolled 1 0 0\n\
         reset\nguest open 0\ndevice open 0\nstream 1 1234 1073741824 wrote 0 - read 1 78\n",
        FAULT_COUNTED,
    ),
    (1, 0, PLAY_WHOLE, COUNTED),
];

const DIAL: Command = Command {
    line: "vsock play",
    source: "host listen 52\nconnect 52\nturn\npoll\nsend 1 6869\n",
    path: "v.sock",
};

const DIAL_HOST: [Row; 1] = [
    // The dial.
    (
        1,
        0,
        "ok\nok\nconn 1 on 1024 52\nturned 1 1 0 0 0 0\npolled 1 0 0\nreset\nguest open 0\ndevice open 0\n",
        FAULT_COUNTED,
    ),
];

/// Whether a client whose line can't be read further, once these many bytes of it came, gets no connection.
fn is_line_cut<R: AllocGlobal + Wait + Threads + Sync>(
    rt: &R,
    came: u64,
) -> Result<bool, AllocError> {
    let text = format!(in rt.alloc();
        "ok\nok\nstream 1\nok\nturned 0 0 {came} 0 0 0\npolled 0 0 0\nnone\nunknown\nturned 0 0 0 0 0 0\npolled 0 0 0\nunknown\n\
         guest open 0\ndevice open 0\nstream 1 - - wrote 0 - read 0 -\n"
    )?;
    let (ended, sink) = failing(rt, &PLAY, Called::OwnHost, came.saturating_add(2))?;
    Ok(ended == 0 && before_end(sink.bytes(), FAULT_COUNTED) == Some(text.as_bytes()))
}

#[test]
fn each_call_of_a_play_fails_once(rt: HostRuntime) -> Result<(), Fail> {
    assert!(rt; ends(&rt, &PLAY, Called::Source, 0, &PLAY_READS)?);
    assert!(rt; is_cut_off(&rt, &PLAY, &PLAY_PIECES)?);
    assert!(rt; ends(&rt, &PLAY, Called::OwnHost, 0, &PLAY_ACCEPT)?);
    for came in 0..13 {
        assert!(rt; is_line_cut(&rt, came)?);
    }
    assert!(rt; ends(&rt, &PLAY, Called::OwnHost, 14, &PLAY_HOST)?);
    assert!(rt; ends(&rt, &DIAL, Called::OwnHost, 0, &DIAL_HOST)?);
    Ok(())
}

const RUN: Command = Command {
    line: "vsock run --base v.sock",
    source: "app\nconnect 52\nsend 68656c6c6f\ndrain\nclose\n",
    path: "v.sock_52",
};

const RUN_PIECES: [&str; 5] = [
    "app 1 done\n",
    "conn 1024 52 sent 5 received 16 4f4b20313037333734313832340a6869\n",
    "guest open 0\n",
    "device open 0\n",
    NOTHING_COUNTED,
];

const RUN_WHOLE: &str =
    "app 1 done\nconn 1024 52 sent 5 received 16 4f4b20313037333734313832340a6869\nguest open 0\ndevice open 0\n";

/// What the run prints where its connection ended before anything passed.
const RUN_REFUSED: &str =
    "app 1 done\nconn 1024 52 sent 0 received 0 -\nguest open 0\ndevice open 0\n";

const RUN_READS: [Row; 2] = [(4, 3, "read fault\n", ""), (1, 0, RUN_WHOLE, COUNTED)];

const RUN_START: [Row; 2] = [(1, 6, "host fault\n", ""), (1, 0, RUN_WHOLE, COUNTED)];

const RUN_HOST: [Row; 6] = [
    // The accept of the first turn.
    (1, 0, RUN_WHOLE, FAULT_COUNTED),
    // The dial.
    (1, 0, RUN_REFUSED, FAULT_COUNTED),
    // The accepts of two turns.
    (2, 0, RUN_WHOLE, FAULT_COUNTED),
    // The read, before the app sends.
    (1, 0, RUN_REFUSED, FAULT_COUNTED),
    // An accept; the write and the read of the end, once the app has all bytes; and the accepts of the last five turns.
    (8, 0, RUN_WHOLE, FAULT_COUNTED),
    (1, 0, RUN_WHOLE, COUNTED),
];

#[test]
fn each_call_of_a_run_fails_once(rt: HostRuntime) -> Result<(), Fail> {
    assert!(rt; ends(&rt, &RUN, Called::Source, 0, &RUN_READS)?);
    assert!(rt; is_cut_off(&rt, &RUN, &RUN_PIECES)?);
    assert!(rt; ends(&rt, &RUN, Called::Start, 0, &RUN_START)?);
    assert!(rt; ends(&rt, &RUN, Called::Host, 0, &RUN_HOST)?);
    Ok(())
}

const PEER: Command = Command {
    line: "vsock peer --base v.sock --port 70",
    source: "yo",
    path: "v.sock",
};

const PEER_PIECES: [&str; 2] = ["port 1073741824\n", "hi"];

const PEER_READS: [Row; 2] = [
    (2, 3, "read fault\n", ""),
    (1, 0, "port 1073741824\n", "hi"),
];

const PEER_HOST: [Row; 4] = [
    // The dial, the write of the CONNECT line, and a read for each byte of the OK line.
    (16, 6, "", "host fault\n"),
    // The write of what the source held, and the read of what came.
    (2, 6, "port 1073741824\n", "host fault\n"),
    // The read of the end.
    (1, 6, "port 1073741824\nhi", "host fault\n"),
    (1, 0, "port 1073741824\n", "hi"),
];

#[test]
fn each_call_of_a_client_fails_once(rt: HostRuntime) -> Result<(), Fail> {
    assert!(rt; ends(&rt, &PEER, Called::Source, 0, &PEER_READS)?);
    assert!(rt; is_cut_off(&rt, &PEER, &PEER_PIECES)?);
    assert!(rt; ends(&rt, &PEER, Called::Host, 0, &PEER_HOST)?);
    Ok(())
}
