//! The command over a source, a sink and a host of which one call fails.

use std::alloc::{AllocError, AllocGlobal, Global};
use std::sync::Wait;
use std::thread::Threads;
use tests_support::words_of;
use vs_outside::{FreeGate, MemSink, MemSource, PeerHost, PreparedStream, StepClock};
use vs_run::vsock_main;

/// A command: its words, what its source holds, and the one path at which its host takes a dial.
pub struct Command {
    pub line: &'static str,
    pub source: &'static str,
    pub path: &'static str,
}

/// Whose calls fail.
#[derive(Clone, Copy)]
pub enum Called {
    Source,
    Sink,
    /// The host that is handed in: its starts alone.
    Start,
    /// The same: its other calls.
    Host,
    /// The host that a play has of its own: a line more at the script's head says so.
    OwnHost,
}

/// A stream that gives an OK line and `hi`, and ends.
fn answered(alloc: Global) -> Result<PreparedStream, AllocError> {
    Ok(PreparedStream {
        bytes: Vec::from_slice(alloc, b"OK 1073741824\nhi")?,
        ended: true,
        room: None,
        closed: false,
    })
}

/// What the source holds of a command whose nth call fails.
fn text_of(alloc: Global, source: &str, called: Called, n: u64) -> Result<String, AllocError> {
    match called {
        Called::OwnHost => format!(in alloc; "host fail {n}\n{source}"),
        _ => String::from_str(alloc, source),
    }
}

/// The nth call fails of the one of these that is called.
fn fail_one(
    source: &mut MemSource,
    sink: &mut MemSink,
    host: &mut PeerHost,
    called: Called,
    n: u64,
) -> Result<(), AllocError> {
    match called {
        Called::Source => source.fail(n),
        Called::Sink => sink.fail(n),
        Called::Start => host.fail_start(n),
        Called::Host => host.fail(n),
        Called::OwnHost => Ok(()),
    }
}

/// The status of a command whose nth call fails, and what it prints, on one thread.
pub fn failing<R: AllocGlobal + Wait + Threads + Sync>(
    rt: &R,
    command: &Command,
    called: Called,
    n: u64,
) -> Result<(u8, MemSink), AllocError> {
    let alloc = rt.alloc();
    let words = words_of(alloc, command.line)?;
    let text = text_of(alloc, command.source, called, n)?;
    let mut input = MemSource::new(alloc, text.into_bytes(), 16);
    let mut out = MemSink::new(alloc, 4096);
    let mut host = PeerHost::new(alloc, command.path, answered(alloc)?)?;
    fail_one(&mut input, &mut out, &mut host, called, n)?;
    let (mut time, mut gate) = (StepClock::new(), FreeGate::new());
    let none = Vec::new(alloc);
    let ended = vsock_main(
        rt, &words, &mut input, &mut host, &mut time, &mut gate, none, &mut out,
    );
    Ok((ended, out))
}
