//! A run of a script, and its report.

ghost use Rattle.std.specs.Prelude.{◌≡◌, ◌≤◌, ℕ, Option, length};
ghost use Rattle.vs_limits.specs.declared.TheConstants.{FIRST_PORT, LAST_PORT};
ghost use Rattle.vs_uds.specs.declared.path.TheConstants.{BASE_MAX};
ghost use Rattle.vs_outside.specs.Host.{HostContents};
ghost use Rattle.vs_ring_shared.specs.{Ports.IsRingSize, Sights.DeviceSight};
ghost use Rattle.laws_settled.specs.Begun.{start_with};
ghost use Rattle.vs_apps_parts.specs.Scripts.{AreRight, script_of};
ghost use Rattle.vs_run_apps.specs.{Printed.Answers, Printed.Reports, Sides.IsReady, Sides.IsSilent};

use crate::beginning::new_proxy;
use crate::reporting::give_report;
use crate::running::run_under;
use crate::start_name::StartName;
use std::alloc::Global;
use std::marker::Brand;
use std::sync::Wait;
use std::thread::Threads;
use vs_outside::{Clock, Gate, HostNet, Sink, Started};
use vs_proxy::Proxy;
use vs_report::giving::GiveError;
use vs_ring_shared::{NewRings, make};
use vs_script::App;

/// Why a run has no report, or not all of it.
#[derive(Clone, Copy, Drop)]
pub enum RunError {
    /// The host didn't start, and counted a fault. Nothing was given to the sink.
    NotStarted,
    /// Memory ran out, and nothing was given; or a call of the sink failed, and less than all was given.
    NotGiven(GiveError),
}

// A run under a name, of which nothing with that name is left but the report.
#[tactic(auto, using(crate::proofs::Told::reported))]
fn run_and_report<
    W: Threads + Wait + Sync,
    N: StartName + Send,
    H: HostNet,
    C: Clock,
    G: Gate + Send + Drop,
    K: Sink,
>(
    rt: &W,
    alloc: Global,
    script: Vec<App>,
    rings: NewRings,
    first: u32,
    proxy: Proxy,
    host: &mut H,
    clock: &mut C,
    idle: u32,
    gates: Vec<G>,
    gate: G,
    out: &mut K,
) -> Result<u8, GiveError>
    requires script { script_of script.items ≡ N.script }
    requires right { AreRight N.script }
    requires rings { rings.table ≡ N.ring }
    requires first { (FIRST_PORT ≤ first) × (first ≤ LAST_PORT) }
    requires own { first ≡ N.first }
    requires ready { (ring : DeviceSight) (contents : Option HostContents) (faults : ℕ) → IsSilent ring
        → IsReady (start_with N.start.base contents faults) (record { proxy = proxy; ring = ring; contents = contents; faults = faults }) }
    requires start { N.start ≡ start_with N.start.base (H.contents host.old) (H.faults host.old) }
    ensures { Reports idle N.first N.script N.start (H.contents host.new) (H.faults host.new) (K.contents out.old) (K.contents out.new) (K.faults out.old)
        (K.faults out.new) result }
{
    match run_under::<W, N, H, C, G>(
        rt, alloc, script, rings, first, proxy, host, clock, idle, gates, gate,
    ) {
        Ok(ran) => give_report(alloc, &ran, idle, out),
        Err(_) => Err(GiveError::OutOfMemory),
    }
}

// A run over rings of its own, with a host that has started.
fn run_started<W: Threads + Wait + Sync, H: HostNet, C: Clock, G: Gate + Send + Drop, K: Sink>(
    rt: &W,
    alloc: Global,
    script: Vec<App>,
    queue: u16,
    first: u32,
    base: &str,
    host: &mut H,
    clock: &mut C,
    idle: u32,
    gates: Vec<G>,
    gate: G,
    out: &mut K,
) -> Result<u8, GiveError>
    requires right { AreRight (script_of script.items) }
    requires queue { IsRingSize queue }
    requires first { (FIRST_PORT ≤ first) × (first ≤ LAST_PORT) }
    requires base { (1 ≤ length base.now) × (length base.now ≤ BASE_MAX) }
    ensures { Reports idle first (script_of script.items) (start_with base.now (H.contents host.old) (H.faults host.old)) (H.contents host.new) (H.faults host.new)
        (K.contents out.old) (K.contents out.new) (K.faults out.old) (K.faults out.new) result }
{
    let Ok(rings) = make(alloc, queue) else {
        return Err(GiveError::OutOfMemory);
    };
    let Ok(proxy) = new_proxy(alloc, base) else {
        return Err(GiveError::OutOfMemory);
    };
    run_and_report::<W, Brand, H, C, G, K>(
        rt, alloc, script, rings, first, proxy, host, clock, idle, gates, gate, out,
    )
}

/// A run of a script whose shutdowns have the bits 1 to 3, over new shared rings of `queue` descriptors each, a power of two from 1 to 32,768,
/// by a guest whose first port is `first`, 1,024 to 1,073,741,823. The host starts at the base path, of 1 to 90 bytes; the apps run, each on a
/// thread of its own with a gate off the end of `gates`, beside the device on the caller's, with `gate`; an app that has no gate, or of which no
/// thread could be started, is stepped by the caller between turns. An app gives up for a while where it waited `idle` steps in a row. When all
/// have ended they settle: both ends are at rest, and each app is done or waits. Then the report is given to the sink, each line by itself, LF
/// included.
///
/// Answers the run's status: 0, or 5 where an app isn't done. The errors are a host that didn't start, want of memory, and a call of the sink
/// that failed.
pub fn run<W: Threads + Wait + Sync, H: HostNet, C: Clock, G: Gate + Send + Drop, K: Sink>(
    rt: &W,
    alloc: Global,
    script: Vec<App>,
    queue: u16,
    first: u32,
    base: &str,
    host: &mut H,
    clock: &mut C,
    idle: u32,
    gates: Vec<G>,
    gate: G,
    out: &mut K,
) -> Result<u8, RunError>
    requires right { AreRight (script_of script.items) }
    requires queue { IsRingSize queue }
    requires first { (FIRST_PORT ≤ first) × (first ≤ LAST_PORT) }
    requires base { (1 ≤ length base.now) × (length base.now ≤ BASE_MAX) }
    ensures { Answers idle first (script_of script.items) (start_with base.now (H.contents host.old) (H.faults host.old)) (H.contents host.new) (H.faults host.new)
        (K.contents out.old) (K.contents out.new) (K.faults out.old) (K.faults out.new) result }
{
    match host.start(base) {
        Started::Failed => Err(RunError::NotStarted),
        Started::Ready => match run_started(
            rt, alloc, script, queue, first, base, host, clock, idle, gates, gate, out,
        ) {
            Ok(status) => Ok(status),
            Err(error) => Err(RunError::NotGiven(error)),
        },
    }
}
