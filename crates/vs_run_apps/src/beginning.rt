//! Both sides of a run before its first step.

ghost use Rattle.std.specs.Prelude.{◌≡◌, ◌≤◌, ℕ, Option, [], IfOk, length};
ghost use Rattle.vs_limits.specs.declared.TheConstants.{FIRST_PORT, LAST_PORT};
ghost use Rattle.vs_outside.specs.Host.{HostContents};
ghost use Rattle.vs_uds.specs.declared.path.TheConstants.{BASE_MAX};
ghost use Rattle.vs_ring_shared.specs.Sights.{DeviceSight};
ghost use Rattle.laws_settled.specs.Begun.{start_with};
ghost use Rattle.vs_apps_parts.specs.Scripts.{AreRight, script_of};
ghost use Rattle.vs_run_apps.specs.Sides.{IsReady, IsSilent};

use std::alloc::{AllocError, Global};
use vs_apps::guests::{Guests, RunName};
use vs_limits::FIRST_CID;
use vs_proxy::Proxy;
use vs_ring_shared::{DeviceEnd, NewRings, named};
use vs_script::App;

/// The guests of a run and the device's end, over new rings, with the guest's first port, which is the name's. The only error is want of memory.
pub fn new_guests<N: RunName>(
    alloc: Global,
    script: Vec<App>,
    rings: NewRings,
    first: u32,
) -> Result<(Guests<N>, DeviceEnd<N>), AllocError>
    requires script { script_of script.items ≡ N.script }
    requires right { AreRight N.script }
    requires rings { rings.table ≡ N.ring }
    requires first { (FIRST_PORT ≤ first) × (first ≤ LAST_PORT) }
    requires own { first ≡ N.first }
    ensures silent { IfOk result (λ x. IsSilent x.1) }
    ensures entries { IfOk result (λ x. x.0.entries ≡ []) }
{
    let (driver, mut device) = named(rings);
    let guests = Guests::new(alloc, script, driver, &mut device, first)?;
    Ok((guests, device))
}

/// A proxy that may be turned with any host, over an end on which nothing passed. The base path is that of the host's sockets, and has 1 to 90
/// bytes. The only error is want of memory.
pub fn new_proxy(alloc: Global, base: &str) -> Result<Proxy, AllocError>
    requires base { (1 ≤ length base.now) × (length base.now ≤ BASE_MAX) }
    ensures base { IfOk result (λ proxy. proxy.device.base ≡ base.now) }
    ensures ready { IfOk result (λ proxy. (ring : DeviceSight) (contents : Option HostContents) (faults : ℕ) → IsSilent ring
        → IsReady (start_with base.now contents faults) (record { proxy = proxy; ring = ring; contents = contents; faults = faults })) }
{
    Proxy::new(alloc, FIRST_CID, base)
}
