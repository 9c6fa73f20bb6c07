//! The command over sources, sinks and hosts in memory.

ghost use Rattle.std.specs.Prelude.{◌≤◌};

use std::alloc::{AllocError, AllocGlobal};
use std::sync::Wait;
use std::thread::Threads;
use tests_support::{before_end, words_of};
use vs_outside::{FreeGate, MemSink, MemSource, PeerHost, StepClock};
use vs_run::vsock_main;

/// The status of these words over this source, host and sink.
fn run<R: AllocGlobal + Wait + Threads + Sync>(
    rt: &R,
    words: &[String],
    source: &mut MemSource,
    host: &mut PeerHost,
    sink: &mut MemSink,
) -> u8 {
    let mut clock = StepClock::new();
    let mut gate = FreeGate::new();
    let gates = Vec::new(rt.alloc());
    vsock_main(rt, words, source, host, &mut clock, &mut gate, gates, sink)
}

/// The status of a command line's run of a script, in pieces of that size, and what it prints.
pub fn played<R: AllocGlobal + Wait + Threads + Sync>(
    rt: &R,
    line: &str,
    script: &str,
    piece: usize,
) -> Result<(u8, MemSink), AllocError>
    requires piece { 1 ≤ piece }
{
    let alloc = rt.alloc();
    let words = words_of(alloc, line)?;
    let mut source = MemSource::new(alloc, Vec::from_slice(alloc, script.as_bytes())?, piece);
    let mut sink = MemSink::new(alloc, piece);
    let mut host = PeerHost::refusing(alloc, "v.sock")?;
    let status = run(rt, &words, &mut source, &mut host, &mut sink);
    Ok((status, sink))
}

/// Whether such a run ends with this status and prints this, in two pieces.
pub fn ends<R: AllocGlobal + Wait + Threads + Sync>(
    rt: &R,
    line: &str,
    script: &str,
    piece: usize,
    status: u8,
    printed: (&str, &str),
) -> Result<bool, AllocError>
    requires piece { 1 ≤ piece }
{
    let (ended, sink) = played(rt, line, script, piece)?;
    Ok(ended == status && before_end(sink.bytes(), printed.1) == Some(printed.0.as_bytes()))
}

/// Whether each of these scripts, played by each of these command lines, ends with status 0 and prints its text and then that last line.
pub fn are_printed<R: AllocGlobal + Wait + Threads + Sync>(
    rt: &R,
    lines: &[&str],
    plays: &[(&str, &str)],
    last: &str,
) -> Result<bool, AllocError> {
    for line in lines {
        for (script, printed) in plays {
            if !ends(rt, line, script, 100, 0, (printed, last))? {
                return Ok(false);
            }
        }
    }
    Ok(true)
}
