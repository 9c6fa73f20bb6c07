//! Runs of apps that clients of the host reach.

use crate::running::{Case, Ended, commanded, listening};
use std::alloc::{AllocError, AllocGlobal};
use std::sync::Wait;
use std::test::Fail;
use std::thread::Threads;
use tests_support::{NONE_OPEN, ONE_OPEN};
use vs_outside::MemHost;

/// What a client writes, and whether it ends behind that.
type Client = (&'static str, bool);

/// A client that writes nothing comes, and behind it this one. The device accepts one a turn, so an app that listens in its first step does
/// so before the second client asks.
fn add_clients(host: &mut MemHost, client: &Client) -> Result<(), AllocError> {
    host.client()?;
    let id = host.client()?;
    host.host_write(id, client.0.as_bytes())?;
    if client.1 {
        host.end(id);
    }
    Ok(())
}

/// How a run on one thread ends that this client reaches.
fn reached<R: AllocGlobal + Threads + Wait + Sync>(
    rt: &R,
    script: &str,
    client: &Client,
) -> Result<Ended, AllocError> {
    let mut host = listening(rt.alloc())?;
    add_clients(&mut host, client)?;
    commanded(
        rt,
        "vsock run --base v.sock --idle 100",
        script,
        0,
        &mut host,
    )
}

/// Whether each of these runs ends as told.
fn end<R: AllocGlobal + Threads + Wait + Sync>(
    rt: &R,
    cases: &[(Client, Case<'_>)],
) -> Result<bool, AllocError> {
    for (client, case) in cases {
        if !reached(rt, case.0, client)?.is(case.1, case.2, case.3) {
            return Ok(false);
        }
    }
    Ok(true)
}

/// An app that serves one client.
const SERVED: &str = "app\nlisten 70\naccept 70\nrecv 5\nsend 68656c6c6f\nclose\n";

const CASES: [(Client, Case<'static>); 7] = [
    (
        ("CONNECT 70\nworld", false),
        (
            SERVED,
            0,
            "app 1 done\nconn 70 1073741824 sent 5 received 5 776f726c64\n",
            NONE_OPEN,
        ),
    ),
    // The client has ended, and still reads.
    (
        ("connect  0070 \r\nabc", true),
        (
            "app\nlisten 70\naccept 70\ndrain\nsend 6162\nclose\n",
            0,
            "app 1 done\nconn 70 1073741824 sent 2 received 3 616263\n",
            NONE_OPEN,
        ),
    ),
    // Both sides have ended, and both could still read: the connection stays.
    (
        ("CONNECT 70\nabc", true),
        (
            "app\nlisten 70\naccept 70\nsend 61\nshutdown 2\ndrain\n",
            0,
            "app 1 done\nconn 70 1073741824 sent 1 received 3 616263\n",
            ONE_OPEN,
        ),
    ),
    // Its line is no line, it asks for another port, or it ended before its line did.
    (
        ("HELLO\nabc", false),
        (SERVED, 5, "app 1 waited 100 none at 2\n", NONE_OPEN),
    ),
    (
        ("CONNECT 71\nabc", false),
        (SERVED, 5, "app 1 waited 100 none at 2\n", NONE_OPEN),
    ),
    (
        ("CONNECT 7", true),
        (SERVED, 5, "app 1 waited 100 none at 2\n", NONE_OPEN),
    ),
    // One app is reached, and another one reaches the host.
    (
        ("CONNECT 70\nworld", false),
        (
            "app\nlisten 70\naccept 70\nrecv 5\nsend 68656c6c6f\nclose\napp\nconnect 52\nsend fill 100000 1\nclose\n",
            0,
            "app 1 done\napp 2 done\nconn 70 1073741824 sent 5 received 5 776f726c64\n\
             conn 1024 52 sent 100000 received 0 -\n",
            NONE_OPEN,
        ),
    ),
];

#[test]
fn clients_reach_apps(rt: HostRuntime) -> Result<(), Fail> {
    assert!(rt; end(&rt, &CASES)?);
    Ok(())
}
