//! A run whose guest has fewer ports to give than its app opens connections.

use crate::running::ran;
use std::alloc::{AllocError, Global};
use std::fmt::Write;
use std::test::Fail;
use tests_support::NONE_OPEN;

/// How many connections there are, and over how many ports.
const CONNECTIONS: u64 = 200;

const PORTS: u64 = 50;

/// The guest has these ports from here on.
const LINE: &str = "vsock run --base v.sock --first 1073741774";

const FIRST: u64 = 1_073_741_774;

/// An app that opens all connections, one after the other, and sends two bytes on each.
fn script(alloc: Global) -> Result<String, AllocError> {
    let mut text = String::from_str(alloc, "app\n")?;
    for n in 1..=CONNECTIONS {
        write!(text, "connect 52\nsend {}\nclose\n", 1000 + n).map_err(|_| AllocError)?;
    }
    Ok(text)
}

/// The report of its run, but for the tables.
fn report(alloc: Global) -> Result<String, AllocError> {
    let mut text = String::from_str(alloc, "app 1 done\n")?;
    for n in 0..CONNECTIONS {
        write!(text, "conn {} 52 sent 2 received 0 -\n", FIRST + n % PORTS).map_err(
            |_| AllocError,
        )?;
    }
    Ok(text)
}

#[test]
fn two_hundred_connections_over_fifty_ports(rt: HostRuntime) -> Result<(), Fail> {
    let script = script(rt.alloc())?;
    let report = report(rt.alloc())?;
    for threads in 0..3u32 {
        let ended = ran(&rt, LINE, script.as_str(), threads)?;
        assert!(rt; ended.is(0, report.as_str(), NONE_OPEN));
    }
    Ok(())
}
