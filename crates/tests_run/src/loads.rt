//! Loads, whose line doesn't depend on how their threads go beside each other.

use crate::running::ran;
use std::alloc::{AllocError, AllocGlobal};
use std::sync::Wait;
use std::test::Fail;
use std::thread::Threads;

/// Whether each of these loads prints its line, on so many threads.
fn are_printed<R: AllocGlobal + Threads + Wait + Sync>(
    rt: &R,
    loads: &[(&str, &str)],
    threads: u32,
) -> Result<bool, AllocError> {
    for (line, printed) in loads {
        if !ran(rt, line, "", threads)?.is(0, printed, "") {
            return Ok(false);
        }
    }
    Ok(true)
}

const LOADS: [(&str, &str); 6] = [
    (
        "vsock load --number 0 --conns 1 --bytes 0",
        "conns 1 bytes 0 matched 0\n",
    ),
    (
        "vsock load --number 255 --conns 64 --bytes 1000 --queue 8",
        "conns 64 bytes 64000 matched 64000\n",
    ),
    (
        "vsock load --number 7 --conns 16 --bytes 100000",
        "conns 16 bytes 1600000 matched 1600000\n",
    ),
    (
        "vsock load --number=4294967295 --conns=1 --bytes=1000000 --queue=256",
        "conns 1 bytes 1000000 matched 1000000\n",
    ),
    (
        "vsock load --number 1 --conns 64 --bytes 15625",
        "conns 64 bytes 1000000 matched 1000000\n",
    ),
    (
        "vsock load --number 1 --conns 64 --bytes 15625 --queue 8",
        "conns 64 bytes 1000000 matched 1000000\n",
    ),
];

#[test]
fn loads_with_a_thread_for_each_app(rt: HostRuntime) -> Result<(), Fail> {
    assert!(rt; are_printed(&rt, &LOADS, 65)?);
    Ok(())
}

// Apps without a thread are stepped by the one that turns the device, as are those of which no thread could be started.
#[test]
fn loads_with_fewer_threads_than_apps(rt: HostRuntime) -> Result<(), Fail> {
    assert!(rt; are_printed(&rt, &LOADS, 9)?);
    Ok(())
}

#[test]
fn loads_on_one_thread(rt: HostRuntime) -> Result<(), Fail> {
    assert!(rt; are_printed(&rt, &LOADS, 0)?);
    Ok(())
}
