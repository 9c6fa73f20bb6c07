//! Small runs over a host in memory that listens on port 52.

use crate::running::{Case, Ended, commanded, listening, ran};
use std::alloc::{AllocError, AllocGlobal};
use std::sync::Wait;
use std::test::Fail;
use std::thread::Threads;
use tests_support::{NONE_OPEN, ONE_OPEN};

/// Whether each of these runs ends as told, on so many threads.
fn end<R: AllocGlobal + Threads + Wait + Sync>(
    rt: &R,
    line: &str,
    cases: &[Case<'_>],
    threads: u32,
) -> Result<bool, AllocError> {
    for (script, status, printed, last) in cases {
        if !ran(rt, line, script, threads)?.is(*status, printed, last) {
            return Ok(false);
        }
    }
    Ok(true)
}

/// How a run ends whose host doesn't start.
fn not_started<R: AllocGlobal + Threads + Wait + Sync>(rt: &R) -> Result<Ended, AllocError> {
    let mut host = listening(rt.alloc())?;
    host.fail_start(1)?;
    commanded(rt, RUN, HELLO, 0, &mut host)
}

const RUN: &str = "vsock run --base v.sock";

const HELLO: &str = "app\nconnect 52\nsend 68656c6c6f\nclose\n";

const ENDS: [Case<'static>; 6] = [
    (
        HELLO,
        0,
        "app 1 done\nconn 1024 52 sent 5 received 0 -\n",
        NONE_OPEN,
    ),
    ("connect 52\n", 2, "line 1 BadWord\n", ""),
    ("# none\n\n  app\nclose\n", 0, "app 1 done\n", NONE_OPEN),
    // Nobody listens on the first port, and the device assigns the other one itself.
    (
        "app\nconnect 53\nsend 61\nrecv 1\nclose\n",
        0,
        "app 1 done\nconn 1024 53 sent 0 received 0 -\n",
        NONE_OPEN,
    ),
    (
        "app\nconnect 1073741824\nsend 61\nrecv 1\nclose",
        0,
        "app 1 done\n",
        NONE_OPEN,
    ),
    // Three apps.
    (
        "app\nclose\napp\nlisten 70\nlisten 70\naccept 71\napp\nsend 61\nrecv 1\ndrain\nexchange 61\nshutdown 1\n",
        0,
        "app 1 done\napp 2 done\napp 3 done\n",
        NONE_OPEN,
    ),
];

#[test]
fn small_runs_print_their_report(rt: HostRuntime) -> Result<(), Fail> {
    assert!(rt; end(&rt, RUN, &ENDS, 0)?);
    assert!(rt; end(&rt, RUN, &ENDS, 4)?);
    Ok(())
}

#[test]
fn a_host_that_does_not_start(rt: HostRuntime) -> Result<(), Fail> {
    assert!(rt; not_started(&rt)?.is(6, "host fault\n", ""));
    Ok(())
}

// On one thread a whole turn of the device passes before each step of an app.
#[test]
fn an_app_waits_as_often_as_it_may(rt: HostRuntime) -> Result<(), Fail> {
    let printed = "app 1 waited 3 empty at 2\nconn 1024 52 sent 0 received 0 -\n";
    let waits = ran(
        &rt,
        "vsock run --base v.sock --idle 3",
        "app\nconnect 52\nrecv 1\n",
        0,
    )?;
    assert!(rt; waits.is(5, printed, ONE_OPEN));
    Ok(())
}
