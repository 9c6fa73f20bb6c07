//! A load, from its numbers to its line.

ghost use Rattle.std.specs.Prelude.{◌≡◌, ℕ, IfOk, Option, Some, string_bytes};
ghost use Rattle.vs_limits.specs.declared.TheConstants.{FIRST_PORT};
ghost use Rattle.vs_outside.specs.Host.{HostContents};
ghost use Rattle.vs_ring_shared.specs.{Ports.IsRingSize, Sights.DeviceSight};
ghost use Rattle.laws_settled.specs.Begun.{IsUnlabelled, start_with};
ghost use Rattle.vs_apps_parts.specs.Scripts.{AreRight, script_of};
ghost use Rattle.vs_run_apps.specs.Sides.{IsReady, IsSilent};
ghost use Rattle.vs_load_parts.specs.Line.{load_line};
ghost use Rattle.vs_load.specs.Loads.{AllCameBack, IsLoaded, IsOver};

use std::alloc::{AllocError, Global};
use std::marker::Brand;
use std::sync::Wait;
use std::thread::Threads;
use vs_apps::guests::{Guests, RunName};
use vs_echo::{EchoHost, law_of_echoes};
use vs_limits::FIRST_PORT;
use vs_load_parts::apps::{law_of_loads, load_apps};
use vs_load_parts::tally::load_line;
use vs_outside::{Clock, Gate};
use vs_proxy::Proxy;
use vs_ring_shared::{NewRings, make};
use vs_run_apps::beginning::new_proxy;
use vs_run_apps::running::run_under;
use vs_run_apps::start_name::StartName;
use vs_run_report::load::LOAD_PORT;
use vs_script::App;

/// After how many steps in a row that waited an app of a load gives up.
pub const LOAD_IDLE: u32 = 10_000;

/// The base path of a load's host.
const LOAD_BASE: &str = "v.sock";

// The line of a load that is over.
fn line_of<N: RunName>(alloc: Global, conns: u32, guests: &Guests<N>) -> Result<String, AllocError>
    requires { AllCameBack N.script guests.now }
    ensures { IfOk result (λ line. string_bytes line ≡ load_line conns N.script guests.now.entries guests.now.bytes) }
{
    load_line(alloc, conns, guests.script(), guests.journal())
}

// A load under a name, of which nothing with that name is left but the line.
#[tactic(auto, using(crate::proofs::Over::over))]
fn load_under<W: Threads + Wait + Sync, N: StartName + Send, C: Clock, G: Gate + Send + Drop>(
    rt: &W,
    alloc: Global,
    script: Vec<App>,
    rings: NewRings,
    proxy: Proxy,
    host: &mut EchoHost,
    clock: &mut C,
    conns: u32,
    gates: Vec<G>,
    gate: G,
) -> Result<String, AllocError>
    requires script { script_of script.items ≡ N.script }
    requires right { AreRight N.script }
    requires rings { rings.table ≡ N.ring }
    requires ready { (ring : DeviceSight) (contents : Option HostContents) (faults : ℕ) → IsSilent ring
        → IsReady (start_with N.start.base contents faults) (record { proxy = proxy; ring = ring; contents = contents; faults = faults }) }
    requires first { N.first ≡ FIRST_PORT }
    requires start { N.start ≡ start_with N.start.base (Some host.old.contents) host.old.faults }
    requires unlabelled { IsUnlabelled host.old.contents }
    ensures { IfOk result (λ line. IsOver conns N.script N.start (Some host.new.contents) host.new.faults (string_bytes line)) }
{
    match run_under::<W, N, EchoHost, C, G>(
        rt, alloc, script, rings, FIRST_PORT, proxy, host, clock, LOAD_IDLE, gates, gate,
    ) {
        Ok(ran) => {
            law_of_echoes(host);
            line_of(alloc, conns, &ran.guests)
        }
        Err(_) => Err(AllocError),
    }
}

/// A load: `conns` apps, each of which exchanges `bytes` bytes with a host that gives back what it is given (`load_apps`), over new shared rings
/// of `queue` descriptors each, a power of two from 1 to 32,768. Each app runs on a thread of its own with a gate off the end of `gates`, beside the
/// device on the caller's, with `gate`; an app that has no gate, or of which no thread could be started, is stepped by the caller between turns.
/// An app gives up for a while where it waited `LOAD_IDLE` steps in a row. When all have ended they settle, and both ends are at rest. The answer is
/// the load's line.
///
/// The only error is want of memory, that of the host among it.
pub fn load<W: Threads + Wait + Sync, C: Clock, G: Gate + Send + Drop>(
    rt: &W,
    alloc: Global,
    number: u32,
    conns: u32,
    bytes: u32,
    queue: u16,
    clock: &mut C,
    gates: Vec<G>,
    gate: G,
) -> Result<String, AllocError>
    requires queue { IsRingSize queue }
    ensures { IfOk result (λ line. IsLoaded number conns bytes (string_bytes line)) }
{
    law_of_loads(number, conns, bytes);
    let script = load_apps(alloc, number, conns, bytes)?;
    let rings = make(alloc, queue)?;
    let proxy = new_proxy(alloc, LOAD_BASE)?;
    let mut host = EchoHost::new(alloc, LOAD_BASE, LOAD_PORT)?;
    let line = load_under::<W, Brand, C, G>(
        rt, alloc, script, rings, proxy, &mut host, clock, conns, gates, gate,
    )?;
    if host.starved() {
        return Err(AllocError);
    }
    Ok(line)
}
