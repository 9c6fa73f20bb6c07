//! The command `run`.
ghost use Rattle.std.specs.Prelude.{Ok};
ghost use Rattle.vs_words.specs.Command.{IsBase, IsFirst, IsQueueSize};
ghost use Rattle.vs_script.specs.Script.{parse_of, script_view};
ghost use Rattle.vs_script.specs.declared.script.Command.TheVariants as command;
ghost use Rattle.vs_apps_parts.specs.Scripts.{AreRight, script_of};
ghost use Rattle.vs_run.specs.{Ends.EndsScript, Runs.EndsOver, Runs.EndsRun, Runs.IsRight, Runs.IsUntouched};

use crate::ending::{host_fault, no_memory, refused, unread};
use laws_apps::laws::law_of_scripts;
use std::alloc::Global;
use std::sync::Wait;
use std::thread::Threads;
use vs_outside::{Clock, FreeGate, Gate, HostNet, Sink, Source};
use vs_peer::{DONE, SINK_FAULT, read_source};
use vs_report::giving::GiveError;
use vs_run_apps::whole::{RunError, run};
use vs_script::{App, Command, Script, parse};

/// Runs the apps of the script that the source holds, over queues of so many pages, with the host's sockets under the base path. An app gives up
/// after `idle` steps in a row in which it waits, and the guest's first port is `first`. The thread that turns the device has the last of the gates, and each app's one of the others;
/// where there is none, nothing holds a run up.
pub fn run_script<
    W: Threads + Wait + Sync,
    S: Source,
    H: HostNet,
    C: Clock,
    G: Gate + Send + Drop,
    K: Sink,
>(
    rt: &W,
    alloc: Global,
    base: &str,
    queue: u16,
    idle: u32,
    first: u32,
    script: &mut S,
    host: &mut H,
    clock: &mut C,
    gates: Vec<G>,
    out: &mut K,
) -> u8
    requires base { IsBase base.now }
    requires queue { IsQueueSize queue }
    requires first { IsFirst first }
    ensures { EndsScript command.Run (IsUntouched (H.contents host.old) (H.contents host.new) (H.faults host.old) (H.faults host.new))
        (EndsRun base.now idle first (H.contents host.old) (H.contents host.new) (H.faults host.old) (H.faults host.new)
        (K.contents out.old) (K.contents out.new) (K.faults out.old) (K.faults out.new) result)
        (S.contents script.old) (S.faults script.old) (S.faults script.new)
        (K.contents out.old) (K.contents out.new) (K.faults out.old) (K.faults out.new) result }
{
    match read_source(alloc, script) {
        Ok(bytes) => run_bytes(
            rt, alloc, base, queue, idle, first, &bytes, host, clock, gates, out,
        ),
        Err(error) => unread(out, error),
    }
}

// Runs the script that bytes spell.
fn run_bytes<W: Threads + Wait + Sync, H: HostNet, C: Clock, G: Gate + Send + Drop, K: Sink>(
    rt: &W,
    alloc: Global,
    base: &str,
    queue: u16,
    idle: u32,
    first: u32,
    bytes: &[u8],
    host: &mut H,
    clock: &mut C,
    gates: Vec<G>,
    out: &mut K,
) -> u8
    requires base { IsBase base.now }
    requires queue { IsQueueSize queue }
    requires first { IsFirst first }
    ensures { EndsRun base.now idle first (H.contents host.old) (H.contents host.new) (H.faults host.old) (H.faults host.new)
        (K.contents out.old) (K.contents out.new) (K.faults out.old) (K.faults out.new) result (parse_of command.Run bytes.now) }
{
    law_of_scripts();
    match parse(alloc, Command::Run, bytes) {
        Ok(script) => run_parsed(
            rt, alloc, base, queue, idle, first, script, host, clock, gates, out,
        ),
        Err(fault) => refused(alloc, fault, out),
    }
}

// Runs a script. One of another command has no lines.
fn run_parsed<W: Threads + Wait + Sync, H: HostNet, C: Clock, G: Gate + Send + Drop, K: Sink>(
    rt: &W,
    alloc: Global,
    base: &str,
    queue: u16,
    idle: u32,
    first: u32,
    script: Script,
    host: &mut H,
    clock: &mut C,
    gates: Vec<G>,
    out: &mut K,
) -> u8
    requires base { IsBase base.now }
    requires queue { IsQueueSize queue }
    requires first { IsFirst first }
    requires right { IsRight (script_view script) }
    ensures { EndsRun base.now idle first (H.contents host.old) (H.contents host.new) (H.faults host.old) (H.faults host.new)
        (K.contents out.old) (K.contents out.new) (K.faults out.old) (K.faults out.new) result (Ok (script_view script)) }
{
    match script {
        Script::Run(apps) => run_apps(
            rt, alloc, base, queue, idle, first, apps, host, clock, gates, out,
        ),
        Script::Play(_) => DONE,
        Script::Hostile(_) => DONE,
    }
}

// Runs these apps.
fn run_apps<W: Threads + Wait + Sync, H: HostNet, C: Clock, G: Gate + Send + Drop, K: Sink>(
    rt: &W,
    alloc: Global,
    base: &str,
    queue: u16,
    idle: u32,
    first: u32,
    apps: Vec<App>,
    host: &mut H,
    clock: &mut C,
    gates: Vec<G>,
    out: &mut K,
) -> u8
    requires base { IsBase base.now }
    requires queue { IsQueueSize queue }
    requires first { IsFirst first }
    requires right { AreRight (script_of apps.items) }
    ensures { EndsOver base.now idle first (script_of apps.items) (H.contents host.old) (H.contents host.new) (H.faults host.old) (H.faults host.new)
        (K.contents out.old) (K.contents out.new) (K.faults out.old) (K.faults out.new) result }
{
    let mut gates = gates;
    match gates.pop() {
        Some(gate) => run_gated(
            rt, alloc, base, queue, idle, first, apps, host, clock, gates, gate, out,
        ),
        None => {
            let none = Vec::new(alloc);
            let gate = FreeGate::new();
            run_gated(
                rt, alloc, base, queue, idle, first, apps, host, clock, none, gate, out,
            )
        }
    }
}

// Runs these apps, with a gate for the thread that turns the device.
fn run_gated<W: Threads + Wait + Sync, H: HostNet, C: Clock, G: Gate + Send + Drop, K: Sink>(
    rt: &W,
    alloc: Global,
    base: &str,
    queue: u16,
    idle: u32,
    first: u32,
    apps: Vec<App>,
    host: &mut H,
    clock: &mut C,
    gates: Vec<G>,
    gate: G,
    out: &mut K,
) -> u8
    requires base { IsBase base.now }
    requires queue { IsQueueSize queue }
    requires first { IsFirst first }
    requires right { AreRight (script_of apps.items) }
    ensures { EndsOver base.now idle first (script_of apps.items) (H.contents host.old) (H.contents host.new) (H.faults host.old) (H.faults host.new)
        (K.contents out.old) (K.contents out.new) (K.faults out.old) (K.faults out.new) result }
{
    match run(
        rt, alloc, apps, queue, first, base, host, clock, idle, gates, gate, out,
    ) {
        Ok(status) => status,
        Err(RunError::NotStarted) => host_fault(out),
        Err(RunError::NotGiven(GiveError::Sink)) => SINK_FAULT,
        Err(RunError::NotGiven(GiveError::OutOfMemory)) => no_memory(out),
    }
}
