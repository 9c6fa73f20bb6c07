//! The command `load`.
ghost use Rattle.std.specs.Prelude.{◌≤◌};
ghost use Rattle.vs_words.specs.Command.{IsQueueSize};
ghost use Rattle.vs_run.specs.Runs.{EndsLoad};

use crate::ending::{ended, no_memory};
use std::alloc::Global;
use std::sync::Wait;
use std::thread::Threads;
use vs_load::load::load;
use vs_outside::{Clock, FreeGate, Gate, Sink};
use vs_peer::DONE;

/// Runs so many apps, which exchange so many bytes each with a host of the load's own, and writes the load's line. The gates are those of a run.
pub fn load_apps<W: Threads + Wait + Sync, C: Clock, G: Gate + Send + Drop, K: Sink>(
    rt: &W,
    alloc: Global,
    number: u32,
    conns: u32,
    bytes: u32,
    queue: u16,
    clock: &mut C,
    gates: Vec<G>,
    out: &mut K,
) -> u8
    requires conns { conns ≤ 64 }
    requires bytes { bytes ≤ 1000000 }
    requires queue { IsQueueSize queue }
    ensures { EndsLoad number conns bytes (K.contents out.old) (K.contents out.new) (K.faults out.old) (K.faults out.new) result }
{
    let mut gates = gates;
    match gates.pop() {
        Some(gate) => load_gated(
            rt, alloc, number, conns, bytes, queue, clock, gates, gate, out,
        ),
        None => {
            let none = Vec::new(alloc);
            let gate = FreeGate::new();
            load_gated(
                rt, alloc, number, conns, bytes, queue, clock, none, gate, out,
            )
        }
    }
}

// The same, with a gate for the thread that turns the device.
fn load_gated<W: Threads + Wait + Sync, C: Clock, G: Gate + Send + Drop, K: Sink>(
    rt: &W,
    alloc: Global,
    number: u32,
    conns: u32,
    bytes: u32,
    queue: u16,
    clock: &mut C,
    gates: Vec<G>,
    gate: G,
    out: &mut K,
) -> u8
    requires conns { conns ≤ 64 }
    requires bytes { bytes ≤ 1000000 }
    requires queue { IsQueueSize queue }
    ensures { EndsLoad number conns bytes (K.contents out.old) (K.contents out.new) (K.faults out.old) (K.faults out.new) result }
{
    match load(rt, alloc, number, conns, bytes, queue, clock, gates, gate) {
        Ok(line) => ended(out, line.as_bytes(), DONE),
        Err(_) => no_memory(out),
    }
}
