//! The program `vsock`: makes the real world outside, and calls `vs_run`.
#![tactic(auto)]

use std::alloc::{AllocError, AllocGlobal};
use std::env::{self, Env};
use std::fs::Files;
use std::io::{self, ErrorKind};
use std::net::Net;
use std::process::ExitCode;
use std::time::Clock;
use vs_real::{BackoffGate, MachineClock, ReadSource, UnixHost, WriteSink};
use vs_run::{host_fault, no_memory, vsock_main};

/// The gates of the threads of a run: one for each of 64 apps, and one for the thread that turns the device.
const GATES: usize = 65;

fn main(rt: HostRuntime) -> ExitCode {
    let mut out = WriteSink::new(io::writer(&rt));
    let (words, mut host, mut clock, mut gate, gates) = match outside(&rt) {
        Ok(outside) => outside,
        Err(e) if e.kind() == ErrorKind::OutOfMemory => {
            return ExitCode::from(no_memory(&mut out));
        }
        Err(_) => return ExitCode::from(host_fault(&mut out)),
    };
    let mut script = ReadSource::new(rt.stdin());
    let status = vsock_main(
        &rt,
        &words,
        &mut script,
        &mut host,
        &mut clock,
        &mut gate,
        gates,
        &mut out,
    );
    if let Some(error) = host.start_error() {
        let _ = eprintln!(rt; "vsock: no socket at the base path: {error}");
    }
    ExitCode::from(status)
}

/// The program's words, the host's sockets, the clock, a client's gate, and the gates of a run. The error is want of memory, or that the
/// system gives no poll or no clock.
fn outside<R: AllocGlobal + Env + Net + Files + Clock + Clone + Drop>(
    rt: &R,
) -> io::Result<
    (
        Vec<String>,
        UnixHost<R>,
        MachineClock<R>,
        BackoffGate<R>,
        Vec<BackoffGate<R>>,
    ),
> {
    let host = UnixHost::new(rt.clone()?)?;
    let gate = BackoffGate::beside(rt.clone()?, host.moves()?);
    let clock = MachineClock::beside(rt.clone()?, host.moves()?)?;
    Ok((words(rt)?, host, clock, gate, gates(rt)?))
}

/// The gates of a run.
fn gates<R: AllocGlobal + Clock + Clone + Drop>(rt: &R) -> Result<Vec<BackoffGate<R>>, AllocError> {
    let mut gates = Vec::new(rt.alloc());
    for _ in 0..GATES {
        gates.push(BackoffGate::new(rt.clone()?))?;
    }
    Ok(gates)
}

/// The program's words, its name first. Where one isn't text there are none.
fn words<R: AllocGlobal + Env>(rt: &R) -> Result<Vec<String>, AllocError> {
    let mut words = Vec::new(rt.alloc());
    match env::args(rt) {
        Ok(args) => {
            for arg in args {
                words.push(arg)?;
            }
        }
        Err(e) if e.kind() == ErrorKind::OutOfMemory => return Err(AllocError),
        Err(_) => {}
    }
    Ok(words)
}
