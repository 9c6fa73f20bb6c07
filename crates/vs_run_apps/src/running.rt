//! A run of apps under a name, until both ends are at rest.

ghost use Rattle.std.specs.Prelude.{◌≡◌, ◌≤◌, ℕ, IfOk, Option};
ghost use Rattle.vs_limits.specs.declared.TheConstants.{FIRST_PORT, LAST_PORT};
ghost use Rattle.vs_outside.specs.Host.{HostContents};
ghost use Rattle.vs_ring_shared.specs.Sights.{DeviceSight};
ghost use Rattle.laws_settled.specs.Begun.{start_with};
ghost use Rattle.vs_apps_parts.specs.Scripts.{AreRight, script_of};
ghost use Rattle.vs_run_apps.specs.{Runs.HasRun, Sides.IsReady, Sides.IsSilent};

use crate::beginning::new_guests;
use crate::device_side::DeviceSide;
use crate::start_name::StartName;
use std::alloc::Global;
use std::sync::Wait;
use std::thread::Threads;
use vs_apps::guests::{Guests, RunName, laws_of_guests};
use vs_apps::threads::{OutOfMemory, run_all};
use vs_outside::{Clock, Gate, HostNet};
use vs_proxy::Proxy;
use vs_ring_shared::{DeviceEnd, Met, NewRings, laws_of_device_end};
use vs_script::App;
use vs_settle::settling::settle;

/// Both sides of a run that is over, and how many packets and events each end put and got, modulo 2^64.
#[derive(Drop)]
pub struct Ran<N: RunName> {
    pub guests: Guests<N>,
    pub proxy: Proxy,
    pub ring: DeviceEnd<N>,
    pub met: Met,
}

// Rounds until both ends are at rest. The only error is want of memory.
fn settled<W: Wait, N: StartName, H: HostNet, C: Clock>(
    rt: &W,
    guests: Guests<N>,
    proxy: Proxy,
    ring: DeviceEnd<N>,
    host: &mut H,
    clock: &mut C,
) -> Result<Ran<N>, OutOfMemory>
    requires ready { IsReady N.start (record { proxy = proxy; ring = ring; contents = H.contents host.old; faults = H.faults host.old }) }
    ensures ran { IfOk result (λ r. HasRun N.first N.script N.start r.guests
        (record { proxy = r.proxy; ring = r.ring; contents = H.contents host.new; faults = H.faults host.new }) r.met) }
{
    let mut guests = guests;
    let mut proxy = proxy;
    let mut ring = ring;
    let Ok(met) = settle(rt, &mut guests, &mut proxy, &mut ring, host, clock) else {
        return Err(OutOfMemory);
    };
    laws_of_guests(&guests);
    laws_of_device_end(&ring);
    Ok(Ran {
        guests,
        proxy,
        ring,
        met,
    })
}

// The apps run beside the device, and then come to rest.
fn run_on<
    W: Threads + Wait + Sync,
    N: StartName + Send,
    H: HostNet,
    C: Clock,
    G: Gate + Send + Drop,
>(
    rt: &W,
    alloc: Global,
    guests: Guests<N>,
    proxy: Proxy,
    ring: DeviceEnd<N>,
    host: &mut H,
    clock: &mut C,
    idle: u32,
    gates: Vec<G>,
    gate: G,
) -> Result<Ran<N>, OutOfMemory>
    requires ready { IsReady N.start (record { proxy = proxy; ring = ring; contents = H.contents host.old; faults = H.faults host.old }) }
    ensures ran { IfOk result (λ r. HasRun N.first N.script N.start r.guests
        (record { proxy = r.proxy; ring = r.ring; contents = H.contents host.new; faults = H.faults host.new }) r.met) }
{
    let mut side = DeviceSide::new(proxy, ring, host, clock);
    let ran = run_all(rt, alloc, guests, &mut side, idle, gates, gate);
    let (proxy, ring, host, clock) = side.into_parts();
    match ran {
        Ok(guests) => settled(rt, guests, proxy, ring, host, clock),
        Err(_) => Err(OutOfMemory),
    }
}

/// A run of the script of a name, over new rings of its identity, by a guest with this first port, the name's, with a host that has started: the apps run,
/// each on a thread of its own, beside the device on the caller's (`run_all`); then they settle: both ends are at rest, and each app is done or
/// waits.
///
/// The only error is want of memory.
pub fn run_under<
    W: Threads + Wait + Sync,
    N: StartName + Send,
    H: HostNet,
    C: Clock,
    G: Gate + Send + Drop,
>(
    rt: &W,
    alloc: Global,
    script: Vec<App>,
    rings: NewRings,
    first: u32,
    proxy: Proxy,
    host: &mut H,
    clock: &mut C,
    idle: u32,
    gates: Vec<G>,
    gate: G,
) -> Result<Ran<N>, OutOfMemory>
    requires script { script_of script.items ≡ N.script }
    requires right { AreRight N.script }
    requires rings { rings.table ≡ N.ring }
    requires first { (FIRST_PORT ≤ first) × (first ≤ LAST_PORT) }
    requires own { first ≡ N.first }
    requires ready { (ring : DeviceSight) (contents : Option HostContents) (faults : ℕ) → IsSilent ring
        → IsReady (start_with N.start.base contents faults) (record { proxy = proxy; ring = ring; contents = contents; faults = faults }) }
    requires start { N.start ≡ start_with N.start.base (H.contents host.old) (H.faults host.old) }
    ensures ran { IfOk result (λ r. HasRun N.first N.script N.start r.guests
        (record { proxy = r.proxy; ring = r.ring; contents = H.contents host.new; faults = H.faults host.new }) r.met) }
{
    let Ok((guests, ring)) = new_guests::<N>(alloc, script, rings, first) else {
        return Err(OutOfMemory);
    };
    run_on(
        rt, alloc, guests, proxy, ring, host, clock, idle, gates, gate,
    )
}
