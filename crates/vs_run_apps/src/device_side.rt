//! The device of a run, which is turned beside the apps.

ghost use Rattle.std.specs.Prelude.{◌≡◌};
ghost use Rattle.vs_run_apps.specs.Sides.{IsReady};

use crate::start_name::StartName;
use std::marker::Model;
use vs_apps::threads::Turning;
use vs_outside::{Clock, HostNet};
use vs_proxy::Proxy;
use vs_ring_shared::DeviceEnd;
use vs_settle::rounds::turn;

/// The proxy and its end of the rings, with a host and a clock that were lent. It may be turned at any time.
pub struct DeviceSide<'h, 'c, N: StartName, H: HostNet, C: Clock> {
    proxy: Proxy,
    ring: DeviceEnd<N>,
    host: &'h mut H,
    clock: &'c mut C,
}

impl<'h, 'c, N: StartName, H: HostNet, C: Clock> Model for DeviceSide<'h, 'c, N, H, C> {
    ghost use Rattle.vs_run_apps.specs.Sides.{IsReady, Side};

    ghost Value = { Side };

    ghost view = { λ d. record {
      state = record { proxy = d.proxy; ring = d.ring; contents = H.contents d.host.now; faults = H.faults d.host.now };
      lent = d.host.ghost_name;
    } };

    ghost invariant = { λ d. IsReady N.start (record { proxy = d.proxy; ring = d.ring; contents = H.contents d.host.now; faults = H.faults d.host.now }) };
}

impl<'h, 'c, N: StartName, H: HostNet, C: Clock> DeviceSide<'h, 'c, N, H, C> {
    /// A device of these parts.
    pub fn new(
        proxy: Proxy,
        ring: DeviceEnd<N>,
        host: &'h mut H,
        clock: &'c mut C,
    ) -> DeviceSide<'h, 'c, N, H, C>
        requires ready { IsReady N.start (record { proxy = proxy; ring = ring; contents = H.contents host.old; faults = H.faults host.old }) }
        ensures lent { result.lent ≡ host.entry.ghost_name }
    {
        DeviceSide {
            proxy,
            ring,
            host,
            clock,
        }
    }

    /// Its parts, with the host that was lent.
    pub fn into_parts(self) -> (Proxy, DeviceEnd<N>, &'h mut H, &'c mut C)
        ensures ready { IsReady N.start (record { proxy = result.0; ring = result.1; contents = H.contents result.2.now; faults = H.faults result.2.now }) }
        ensures lent { result.2.ghost_name ≡ self.entry.lent }
    {
        let DeviceSide {
            proxy,
            ring,
            host,
            clock,
        } = self;
        (proxy, ring, host, clock)
    }
}

impl<'h, 'c, N: StartName, H: HostNet, C: Clock> Turning for DeviceSide<'h, 'c, N, H, C> {
    ghost lent = { λ d. d.lent };

    fn turn(&mut self) -> bool {
        let now = self.clock.now();
        turn(&mut self.proxy, &mut self.ring, &mut *self.host, now)
    }
}
