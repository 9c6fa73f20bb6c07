//! The world: a driver, a device with its proxy, list rings and a host in memory.

ghost use Rattle.laws_world.specs.{World.{from_lowest, first_cid, opened_host, opening}, Over.over_lists};
ghost use Rattle.std.specs.Prelude.{◌≡◌, ◌≤◌, IfOk, [], length};
ghost use Rattle.vs_outside.specs.HostProgram.{new_host, plain};
ghost use Rattle.vs_ring_list.specs.Ends.{IsQueueSize, empty_ends};
ghost use Rattle.vs_driver_parts.specs.Conversations.{new_of};
ghost use Rattle.vs_limits.specs.declared.TheConstants.{FIRST_PORT};
ghost use Rattle.vs_proxy_parts.specs.Turns.{new_proxy};
ghost use Rattle.vs_uds.specs.declared.path.TheConstants.{BASE_MAX};
ghost use Rattle.vs_core.specs.Ready.{IsDrivenAtWork, IsReady, shown};

use std::alloc::{AllocError, Global};
use std::marker::Model;
use vs_driver::Driver;
use vs_limits::FIRST_CID;
use vs_outside::{MemHost, MemStream};
use vs_proxy::Proxy;
use vs_ring_list::ListRings;

/// The world of one thread.
#[derive(Drop)]
pub struct World {
    pub(crate) rings: ListRings,
    pub(crate) driver: Driver,
    pub(crate) proxy: Proxy,
    pub(crate) host: MemHost,
}

impl Model for World {
    ghost use Rattle.vs_core.specs.Ready.{WorldState};

    ghost Value = { WorldState };

    ghost view = { λ w. record { driver = w.driver; proxy = w.proxy; rings = w.rings; host = w.host.contents } };
}

impl World {
    /// The world in which nothing has happened yet: queues of `n` pages, which is 8, 16, 32, 64, 128 or 256, and a host at which nobody
    /// listens, with a base path of 1 to 90 bytes. The only error is want of memory.
    pub fn new(alloc: Global, n: u16, base: &str) -> Result<World, AllocError>
        requires size { IsQueueSize n }
        requires base { (1 ≤ length base.now) × (length base.now ≤ BASE_MAX) }
        ensures opened { IfOk result (λ world. world ≡ shown (opening (from_lowest n) (opened_host base.now))) }
        ensures ready { IfOk result IsReady }
    {
        let (rings, driver) = guest_end(alloc, n)?;
        let (proxy, host) = host_end(alloc, base)?;
        Ok(World {
            rings,
            driver,
            proxy,
            host,
        })
    }

    /// The guest's driver.
    pub fn driver(&self) -> &Driver
        ensures { result.now ≡ self.now.driver }
    {
        &self.driver
    }

    /// The proxy with its device.
    pub fn proxy(&self) -> &Proxy
        ensures { result.now ≡ self.now.proxy }
    {
        &self.proxy
    }

    /// The host's streams, by rising id.
    pub fn streams(&self) -> &[MemStream]
        ensures { result.now ≡ self.now.host.streams }
    {
        self.host.streams()
    }
}

// Rings of `n` pages a queue, and a driver just made over them. The only error is want of memory.
fn guest_end(alloc: Global, n: u16) -> Result<(ListRings, Driver), AllocError>
    requires size { IsQueueSize n }
    ensures played { IfOk result (λ made. over_lists (new_of n FIRST_PORT 1) (empty_ends n) ≡ (made.1, made.0)) }
    ensures driven { IfOk result (λ made. IsDrivenAtWork made.1 made.0) }
{
    let mut rings = ListRings::new(alloc, n)?;
    let driver = Driver::new(alloc, &mut rings)?;
    Ok((rings, driver))
}

// A proxy just made, and a host at which nobody listens. The only error is want of memory.
fn host_end(alloc: Global, base: &str) -> Result<(Proxy, MemHost), AllocError>
    requires base { (1 ≤ length base.now) × (length base.now ≤ BASE_MAX) }
    ensures proxy { IfOk result (λ made. made.0 ≡ new_proxy first_cid base.now) }
    ensures host { IfOk result (λ made. made.1 ≡ new_host base.now [] plain) }
{
    let proxy = Proxy::new(alloc, FIRST_CID, base)?;
    let host = MemHost::new(alloc, base)?;
    Ok((proxy, host))
}
