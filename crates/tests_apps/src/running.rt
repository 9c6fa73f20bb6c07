//! A run of apps that each say hello to a host in memory.

ghost use Rattle.std.specs.Prelude.{IfOk};
ghost use Rattle.vs_apps_parts.specs.Scripts.{AreRight, script_of};
ghost use Rattle.vs_ring_shared.specs.Ports.{IsRingSize};
ghost use Rattle.tests_apps.specs.Apps.{IsRightApp};

use std::alloc::{AllocError, AllocGlobal, Global};
use std::sync::Wait;
use std::thread::Threads;
use vs_header::Kind;
use vs_outside::{Gate, MemHost, MemSink, StepClock};
use vs_run_apps::whole::{RunError, run};
use vs_script::{App, Data, Instruction};

/// After how many steps in a row that waited an app gives up for a while.
const IDLE: u32 = 10_000;

/// An app that says hello to port 52 of the host.
fn hello(alloc: Global) -> Result<App, AllocError>
    ensures { IfOk result IsRightApp }
{
    let content = Data::Given(Vec::from_slice(alloc, b"hello")?);
    let mut instructions = Vec::new(alloc);
    instructions.push(Instruction::Connect { port: 52 })?;
    instructions.push(Instruction::Send { content })?;
    instructions.push(Instruction::Close)?;
    Ok(App { instructions })
}

/// So many such apps.
#[tactic(auto, using(crate::proofs::Righted::one_more))]
fn hellos(alloc: Global, apps: u32) -> Result<Vec<App>, AllocError>
    ensures { IfOk result (λ script. AreRight (script_of script.items)) }
{
    let mut script = Vec::new(alloc);
    for _ in 0..apps {
        script.push(hello(alloc)?)?;
    }
    Ok(script)
}

/// The run of so many such apps over queues of that size, with these gates; and what it prints. The nth start of the host fails; none, where
/// that is 0.
pub fn run_hellos<R: AllocGlobal + Threads + Wait + Sync, G: Gate + Send + Drop>(
    rt: &R,
    apps: u32,
    queue: u16,
    fails: u64,
    gates: Vec<G>,
    gate: G,
) -> Result<(Result<u8, RunError>, MemSink), AllocError>
    requires { IsRingSize queue }
{
    let alloc = rt.alloc();
    let script = hellos(alloc, apps)?;
    let mut host = MemHost::new(alloc, "v.sock")?;
    host.listen(52, Kind::Stream)?;
    host.fail_start(fails)?;
    let mut clock = StepClock::new();
    let mut sink = MemSink::new(alloc, 4096);
    let ended = run(
        rt, alloc, script, queue, 1_024, "v.sock", &mut host, &mut clock, IDLE, gates, gate,
        &mut sink,
    );
    Ok((ended, sink))
}
