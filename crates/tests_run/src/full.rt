//! Runs of apps whose connections fill the tables.

use crate::running::{Ended, ran};
use std::alloc::{AllocError, AllocGlobal, Global};
use std::fmt::Write;
use std::sync::Wait;
use std::test::Fail;
use std::thread::Threads;
use tests_support::ALL_OPEN;

/// The lines of so many connections from guest port 1024 on, on which nothing passed, behind that line.
fn report_of(alloc: Global, line: &str, conns: u32) -> Result<String, AllocError> {
    let mut text = String::from_str(alloc, line)?;
    for n in 0..conns {
        write!(text, "conn {} 52 sent 0 received 0 -\n", 1024 + n as u64).map_err(|_| AllocError)?;
    }
    Ok(text)
}

/// An app that asks for 64 connections, and then does this.
fn script_of(alloc: Global, rest: &str) -> Result<String, AllocError> {
    let mut script = String::from_str(alloc, "app\n")?;
    for _ in 0..64u32 {
        script.push_str("connect 52\n")?;
    }
    script.push_str(rest)?;
    Ok(script)
}

/// How such an app ends, on so many threads.
fn asked<R: AllocGlobal + Threads + Wait + Sync>(
    rt: &R,
    line: &str,
    rest: &str,
    threads: u32,
) -> Result<Ended, AllocError> {
    let script = script_of(rt.alloc(), rest)?;
    ran(rt, line, script.as_str(), threads)
}

/// Whether it ends with that status and 64 connections open. Told of are a line for the app, and so many connections.
fn ends<R: AllocGlobal + Threads + Wait + Sync>(
    rt: &R,
    line: &str,
    rest: &str,
    status: u8,
    told: (&str, u32),
    threads: u32,
) -> Result<bool, AllocError> {
    let report = report_of(rt.alloc(), told.0, told.1)?;
    Ok(asked(rt, line, rest, threads)?.is(status, report.as_str(), ALL_OPEN))
}

const LINES: [&str; 2] = [
    "vsock run --base v.sock --idle 100",
    "vsock run --base v.sock --idle 100 --queue 8",
];

#[test]
fn the_65th_connect_waits(rt: HostRuntime) -> Result<(), Fail> {
    let told = ("app 1 waited 100 full at 65\n", 64);
    for line in LINES {
        assert!(rt; ends(&rt, line, "connect 52\n", 5, told, 0)?);
        assert!(rt; ends(&rt, line, "connect 52\n", 5, told, 2)?);
    }
    Ok(())
}

#[test]
fn a_place_that_is_left_is_taken(rt: HostRuntime) -> Result<(), Fail> {
    let told = ("app 1 done\n", 65);
    for line in LINES {
        assert!(rt; ends(&rt, line, "close\nconnect 52\n", 0, told, 0)?);
        assert!(rt; ends(&rt, line, "close\nconnect 52\n", 0, told, 2)?);
    }
    Ok(())
}
