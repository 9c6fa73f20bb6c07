//! Runs of one app each, over a host whose program gives bytes, ends its streams, or takes only so much.

use crate::running::{Case, Ended, commanded};
use std::alloc::{AllocError, AllocGlobal, Global};
use std::sync::Wait;
use std::test::Fail;
use std::thread::Threads;
use tests_support::{NONE_OPEN, ONE_OPEN};
use vs_outside::{PeerHost, PreparedStream};

/// What a stream of port 52 gives, whether it ends behind that, and how many bytes it takes, where not all.
type Stream = (&'static str, bool, Option<usize>);

/// A host with such streams.
fn host_of(alloc: Global, stream: &Stream) -> Result<PeerHost, AllocError> {
    let prepared = PreparedStream {
        bytes: Vec::from_slice(alloc, stream.0.as_bytes())?,
        ended: stream.1,
        room: stream.2,
        closed: false,
    };
    PeerHost::new(alloc, "v.sock_52", prepared)
}

/// How a run over such a host ends, on so many threads.
fn ran<R: AllocGlobal + Threads + Wait + Sync>(
    rt: &R,
    line: &str,
    script: &str,
    threads: u32,
    stream: &Stream,
) -> Result<Ended, AllocError> {
    let mut host = host_of(rt.alloc(), stream)?;
    commanded(rt, line, script, threads, &mut host)
}

/// Whether each of these runs ends as told, on so many threads.
fn end<R: AllocGlobal + Threads + Wait + Sync>(
    rt: &R,
    line: &str,
    cases: &[(Stream, Case<'_>)],
    threads: u32,
) -> Result<bool, AllocError> {
    for (stream, case) in cases {
        if !ran(rt, line, case.0, threads, stream)?.is(case.1, case.2, case.3) {
            return Ok(false);
        }
    }
    Ok(true)
}

/// The command lines of these runs: pages of some numbers, and apps that give up sooner than they would without being told.
const LINES: [&str; 3] = [
    "vsock run --base v.sock --idle 100",
    "vsock run --base=v.sock --queue=8 --idle=100",
    "vsock run --idle 100 --queue 256 --base v.sock",
];

/// Whether they end as told by each of these lines, on one thread and on two.
fn end_always<R: AllocGlobal + Threads + Wait + Sync>(
    rt: &R,
    cases: &[(Stream, Case<'_>)],
) -> Result<bool, AllocError> {
    for line in LINES {
        if !end(rt, line, cases, 0)? || !end(rt, line, cases, 2)? {
            return Ok(false);
        }
    }
    Ok(true)
}

const DONE: [(Stream, Case<'static>); 11] = [
    // Both directions, and sides that are shut by the app, by the host, or by both.
    (
        ("hi", true, None),
        (
            "app\nconnect 52\nsend 68656c6c6f\nshutdown 2\ndrain\nclose\n",
            0,
            "app 1 done\nconn 1024 52 sent 5 received 2 6869\n",
            NONE_OPEN,
        ),
    ),
    (
        ("", true, None),
        (
            "app\nconnect 52\nrecv 1\nsend 6162\nclose\n",
            0,
            "app 1 done\nconn 1024 52 sent 2 received 0 -\n",
            NONE_OPEN,
        ),
    ),
    (
        ("", true, None),
        (
            "app\nconnect 52\ndrain\nsend 6162\n",
            0,
            "app 1 done\nconn 1024 52 sent 2 received 0 -\n",
            ONE_OPEN,
        ),
    ),
    (
        ("ab", true, None),
        (
            "app\nconnect 52\nexchange 616263\nclose\n",
            0,
            "app 1 done\nconn 1024 52 sent 3 received 2 6162\n",
            NONE_OPEN,
        ),
    ),
    (
        ("", false, None),
        (
            "app\nconnect 52\nshutdown 1\nrecv 5\nsend 6162\nclose\n",
            0,
            "app 1 done\nconn 1024 52 sent 2 received 0 -\n",
            NONE_OPEN,
        ),
    ),
    (
        ("", false, None),
        (
            "app\nconnect 52\nsend 6162\nshutdown 2\nsend 63\n",
            0,
            "app 1 done\nconn 1024 52 sent 2 received 0 -\n",
            ONE_OPEN,
        ),
    ),
    (
        ("", false, None),
        (
            "app\nconnect 52\nshutdown 3\ndrain\nsend 61\n",
            0,
            "app 1 done\nconn 1024 52 sent 0 received 0 -\n",
            NONE_OPEN,
        ),
    ),
    (
        ("abc", false, None),
        (
            "app\nconnect 52\nexchange 78797a\nclose\nconnect 52\nrecv 2\nsend 6262\nclose\n",
            0,
            "app 1 done\nconn 1024 52 sent 3 received 3 616263\nconn 1025 52 sent 2 received 2 6162\n",
            NONE_OPEN,
        ),
    ),
    // A refused port, and then one that isn't.
    (
        ("abc", true, None),
        (
            "app\nconnect 53\nrecv 1\nconnect 52\nrecv 9\nclose\n",
            0,
            "app 1 done\nconn 1024 53 sent 0 received 0 -\nconn 1025 52 sent 0 received 3 616263\n",
            NONE_OPEN,
        ),
    ),
    // As much as a stream without room leaves place for, and more than a buffer holds.
    (
        ("", false, Some(0)),
        (
            "app\nconnect 52\nsend fill 65536 3\n",
            0,
            "app 1 done\nconn 1024 52 sent 65536 received 0 -\n",
            ONE_OPEN,
        ),
    ),
    (
        ("", false, None),
        (
            "app\nconnect 52\nsend fill 1000000 5\nexchange -\nclose\n",
            0,
            "app 1 done\nconn 1024 52 sent 1000000 received 0 -\n",
            NONE_OPEN,
        ),
    ),
];

#[test]
fn apps_are_done(rt: HostRuntime) -> Result<(), Fail> {
    assert!(rt; end_always(&rt, &DONE)?);
    Ok(())
}

const WAITS: [(Stream, Case<'static>); 6] = [
    (
        ("abcdef", false, None),
        (
            "app\nconnect 52\nrecv 4\nrecv 4\nclose\n",
            5,
            "app 1 waited 100 empty at 3\nconn 1024 52 sent 0 received 6 616263646566\n",
            ONE_OPEN,
        ),
    ),
    (
        ("ab", false, None),
        (
            "app\nconnect 52\nshutdown 2\ndrain\nclose\n",
            5,
            "app 1 waited 100 empty at 3\nconn 1024 52 sent 0 received 2 6162\n",
            ONE_OPEN,
        ),
    ),
    (
        ("ab", false, None),
        (
            "app\nconnect 52\nexchange 616263\nclose\n",
            5,
            "app 1 waited 100 empty at 2\nconn 1024 52 sent 3 received 2 6162\n",
            ONE_OPEN,
        ),
    ),
    (
        ("", false, Some(0)),
        (
            "app\nconnect 52\nsend fill 65537 3\nclose\n",
            5,
            "app 1 waited 100 no credit at 2\nconn 1024 52 sent 65536 received 0 -\n",
            ONE_OPEN,
        ),
    ),
    (
        ("", false, Some(0)),
        (
            "app\nconnect 52\nexchange fill 70000 4\nclose\n",
            5,
            "app 1 waited 100 empty at 2\nconn 1024 52 sent 65536 received 0 -\n",
            ONE_OPEN,
        ),
    ),
    (
        ("", false, None),
        (
            "app\nlisten 70\naccept 70\nclose\n",
            5,
            "app 1 waited 100 none at 2\n",
            NONE_OPEN,
        ),
    ),
];

#[test]
fn apps_wait_for_bytes_for_credit_and_for_a_client(rt: HostRuntime) -> Result<(), Fail> {
    assert!(rt; end_always(&rt, &WAITS)?);
    Ok(())
}

/// An app that waits long enough for its thread to rest, beside one that is done.
const RESTS: [(Stream, Case<'static>); 1] = [(
    ("ab", true, None),
    (
        "app\nlisten 70\naccept 70\nclose\napp\nconnect 52\nsend fill 65536 3\nshutdown 2\ndrain\nclose\n",
        5,
        "app 1 waited 2000 none at 2\napp 2 done\nconn 1024 52 sent 65536 received 2 6162\n",
        NONE_OPEN,
    ),
)];

#[test]
fn an_app_whose_thread_rests_gives_up(rt: HostRuntime) -> Result<(), Fail> {
    assert!(rt; end(&rt, "vsock run --base v.sock --idle 2000", &RESTS, 2)?);
    Ok(())
}
