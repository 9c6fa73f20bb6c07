//! The command over a script and a host that is handed in.

use crate::gate::YieldGate;
use std::alloc::{AllocError, AllocGlobal, Global};
use std::sync::Wait;
use std::thread::Threads;
use tests_support::{before_end, words_of};
use vs_header::Kind;
use vs_outside::{HostNet, MemHost, MemSink, MemSource, StepClock};
use vs_run::vsock_main;

/// A script, the status that its run ends with, and what it prints, in two parts.
pub type Case<'a> = (&'a str, u8, &'a str, &'a str);

/// How a command ended: its status, and what it printed.
#[derive(Drop)]
pub struct Ended {
    status: u8,
    sink: MemSink,
}

impl Ended {
    /// Whether it ended so.
    pub fn is(&self, status: u8, printed: &str, last: &str) -> bool {
        self.status == status && before_end(self.sink.bytes(), last) == Some(printed.as_bytes())
    }
}

/// The gates of so many threads.
fn gates(alloc: Global, threads: u32) -> Result<Vec<YieldGate>, AllocError> {
    let mut gates = Vec::new(alloc);
    for _ in 0..threads {
        gates.push(YieldGate::new())?;
    }
    Ok(gates)
}

/// How a command line ends over this source and host, on so many threads: one turns the device, and steps the apps that have none.
pub fn commanded<R: AllocGlobal + Threads + Wait + Sync, H: HostNet>(
    rt: &R,
    line: &str,
    source: &str,
    threads: u32,
    host: &mut H,
) -> Result<Ended, AllocError> {
    let alloc = rt.alloc();
    let words = words_of(alloc, line)?;
    let gates = gates(alloc, threads)?;
    let mut source = MemSource::new(alloc, Vec::from_slice(alloc, source.as_bytes())?, 100);
    let mut sink = MemSink::new(alloc, 4096);
    let status = status_of(rt, &words, &mut source, host, gates, &mut sink);
    Ok(Ended { status, sink })
}

/// The status of these words.
fn status_of<R: AllocGlobal + Threads + Wait + Sync, H: HostNet>(
    rt: &R,
    words: &[String],
    source: &mut MemSource,
    host: &mut H,
    gates: Vec<YieldGate>,
    sink: &mut MemSink,
) -> u8 {
    let mut clock = StepClock::new();
    let mut gate = YieldGate::new();
    vsock_main(rt, words, source, host, &mut clock, &mut gate, gates, sink)
}

/// A host in memory that listens on port 52 alone, takes all that its streams are given, and gives nothing.
pub fn listening(alloc: Global) -> Result<MemHost, AllocError> {
    let mut host = MemHost::new(alloc, "v.sock")?;
    host.listen(52, Kind::Stream)?;
    Ok(host)
}

/// How a command line ends over this source and such a host, on so many threads.
pub fn ran<R: AllocGlobal + Threads + Wait + Sync>(
    rt: &R,
    line: &str,
    source: &str,
    threads: u32,
) -> Result<Ended, AllocError> {
    let mut host = listening(rt.alloc())?;
    commanded(rt, line, source, threads, &mut host)
}
