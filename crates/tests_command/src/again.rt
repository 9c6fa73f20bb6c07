//! A play whose guest has fewer ports to give than it opens connections.

ghost use Rattle.std.specs.Prelude.{◌<◌};

use crate::running::ends;
use std::alloc::{AllocError, Global};
use std::fmt::Write;
use std::test::Fail;
use tests_support::COUNTED;

/// So many connections are open at a time, each on a port of its own, and so often that many are opened.
const PORTS: u64 = 50;

const ROUNDS: u64 = 4;

/// The first of these ports. Behind the last one the guest has none.
const FIRST: u64 = 1_073_741_774;

/// The play over each kind of rings.
const KINDS: [&str; 3] = [
    "vsock play --first 1073741774 --rings list",
    "vsock play --first 1073741774 --rings plain",
    "vsock play --first 1073741774 --rings shared",
];

/// What the device and the driver print of a round: REQUESTs and RESPONSEs, payload, SHUTDOWNs and RSTs.
const OPENED: &str = "turned 50 50 0 0 50 0\npolled 50 0 0\n";

const SENT: &str = "turned 50 0 0 100 0 0\n";

const SHUT: &str = "polled 0 50 0\nturned 50 50 0 0 0 50\npolled 50 0 0\n";

/// A line of the script, and what it prints.
fn push(
    script: &mut String,
    printed: &mut String,
    line: &str,
    answer: &str,
) -> Result<(), AllocError> {
    script.push_str(line)?;
    printed.push_str(answer)
}

/// A round: connections are opened, two bytes are sent on each, and they are shut and closed.
fn push_round(script: &mut String, printed: &mut String, round: u64) -> Result<(), AllocError>
    requires { round < 4 }
{
    let first = round * PORTS + 1;
    for n in 0..PORTS {
        script.push_str("connect 52\n")?;
        write!(printed, "conn {} on {} 52\n", first + n, FIRST + n).map_err(|_| AllocError)?;
    }
    push(script, printed, "turn\npoll\n", OPENED)?;
    for n in 0..PORTS {
        write!(script, "send {} {}\n", first + n, 1000 + first + n).map_err(|_| AllocError)?;
        printed.push_str("took 2\n")?;
    }
    push(script, printed, "turn\n", SENT)?;
    for n in 0..PORTS {
        write!(script, "shutdown {} 3\n", first + n).map_err(|_| AllocError)?;
        printed.push_str("ok\n")?;
    }
    push(script, printed, "poll\nturn\npoll\n", SHUT)?;
    for n in 0..PORTS {
        write!(script, "close {}\n", first + n).map_err(|_| AllocError)?;
        printed.push_str("ok\n")?;
    }
    Ok(())
}

/// The script, and what it prints.
fn play(alloc: Global) -> Result<(String, String), AllocError> {
    let mut script = String::from_str(alloc, "host listen 52\n")?;
    let mut printed = String::from_str(alloc, "ok\n")?;
    for round in 0..ROUNDS {
        push_round(&mut script, &mut printed, round)?;
    }
    printed.push_str("guest open 0\ndevice open 0\n")?;
    for n in 0..ROUNDS * PORTS {
        write!(
            printed,
            "stream {} {} 52 wrote 0 - read 2 {}\n",
            n + 1,
            FIRST + n % PORTS,
            1001 + n
        )
        .map_err(|_| AllocError)?;
    }
    Ok((script, printed))
}

#[test]
fn two_hundred_connections_over_fifty_ports(rt: HostRuntime) -> Result<(), Fail> {
    let (script, printed) = play(rt.alloc())?;
    for line in KINDS {
        assert!(rt;
            ends(
                &rt,
                line,
                script.as_str(),
                4096,
                0,
                (printed.as_str(), COUNTED)
            )?
        );
    }
    Ok(())
}

/// A pair is given again only where it was over cleanly, and with the port of the host that it had.
const PAIR: (&str, &str) = (
    "host listen 52\nconnect 52\nturn\npoll\nconnect 52\nshutdown 1 3\npoll\nturn\npoll\nconnect 53\nconnect 52\nturn\npoll\nsend 2 78\nturn\n",
    "ok\nconn 1 on 1073741823 52\nturned 1 1 0 0 1 0\npolled 1 0 0\nports spent\nok\npolled 0 1 0\nturned 1 1 0 0 0 1\npolled 1 0 0\n\
     ports spent\nconn 2 on 1073741823 52\nturned 1 1 0 0 1 0\npolled 1 0 0\ntook 1\nturned 1 0 0 1 0 0\nguest open 1\ndevice open 1\n\
     stream 1 1073741823 52 wrote 0 - read 0 -\nstream 2 1073741823 52 wrote 0 - read 1 78\n",
);

#[test]
fn a_pair_that_is_over_cleanly_is_given_again(rt: HostRuntime) -> Result<(), Fail> {
    let (script, printed) = PAIR;
    let line = "vsock play --first 1073741823";
    assert!(rt; ends(&rt, line, script, 100, 0, (printed, COUNTED))?);
    Ok(())
}
