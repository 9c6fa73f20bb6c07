//! Runs and clients over the machine's Unix sockets.

use crate::running::{Ended, commanded};
use std::alloc::AllocGlobal;
use std::fs::{self, Files};
use std::io;
use std::net::Net;
use std::os::unix::net::UnixListener;
use std::sync::Wait;
use std::test::Fail;
use std::thread::{self, Threads};
use std::time::{Clock, Duration};
use tests_support::NONE_OPEN;
use vs_real::UnixHost;

/// Gives a client back what it gives, up to its end.
fn echo(listener: UnixListener) -> io::Result<()> {
    let (stream, _) = listener.accept()?;
    io::copy(&mut &stream, &mut &stream)?;
    Ok(())
}

/// How a command ends on so many threads, over sockets.
fn over_sockets<R: AllocGlobal + Threads + Wait + Sync + Net + Files + Clone + Drop>(
    rt: &R,
    line: &str,
    source: &str,
    threads: u32,
) -> io::Result<Ended> {
    let mut host = UnixHost::new(rt.clone()?)?;
    Ok(commanded(rt, line, source, threads, &mut host)?)
}

/// An app asks for a port at whose path a plain listener is.
#[test]
fn an_app_and_a_plain_listener(rt: HostRuntime) -> Result<(), Fail> {
    let listener = UnixListener::bind(&rt, "app.sock_52")?;
    let server = thread::spawn(&rt, move || echo(listener))?;
    let ended = over_sockets(
        &rt,
        "vsock run --base app.sock --idle 1000000",
        "app\nconnect 52\nexchange fill 500000 3\nclose\n",
        2,
    )?;
    let echoed = server.join(&rt);
    fs::remove_file(&rt, "app.sock_52")?;
    assert!(rt; echoed.is_ok());
    assert!(rt;
        ended.is(
            0,
            "app 1 done\nconn 1024 52 sent 500000 received 500000 030a11181f262d343b424950575e656c..3a41484f565d646b737a81888f969da4\n",
            NONE_OPEN
        )
    );
    Ok(())
}

/// How a client of the guest's port 70 ends that begins some time after an app has reached this listener.
fn client<R: AllocGlobal + Threads + Wait + Sync + Net + Files + Clock + Clone + Drop>(
    rt: &R,
    listener: UnixListener,
) -> io::Result<Ended> {
    let _ = listener.accept()?;
    thread::sleep(rt, Duration::from_millis(20));
    over_sockets(
        rt,
        "vsock peer --base guest.sock --port 70 --idle 1000000",
        "hello",
        0,
    )
}

/// A client of the host asks for a port that an app listens on. The app says that it does by another connection, and has waited so long when the
/// client comes that its thread rests.
#[test]
fn a_client_and_a_listening_app(rt: HostRuntime) -> Result<(), Fail> {
    let listener = UnixListener::bind(&rt, "guest.sock_52")?;
    let theirs = rt.clone()?;
    let client = thread::spawn(&rt, move || client(&theirs, listener))?;
    let ended = over_sockets(
        &rt,
        "vsock run --base guest.sock --idle 1000000",
        "app\nlisten 70\nconnect 52\nclose\naccept 70\nrecv 5\nsend 776f726c64\nclose\n",
        1,
    )?;
    let client = client.join(&rt)?;
    fs::remove_file(&rt, "guest.sock_52")?;
    assert!(rt; client.is(0, "port 1073741824\n", "world"));
    assert!(rt;
        ended.is(
            0,
            "app 1 done\nconn 1024 52 sent 0 received 0 -\nconn 70 1073741824 sent 5 received 5 68656c6c6f\n",
            NONE_OPEN
        )
    );
    Ok(())
}
