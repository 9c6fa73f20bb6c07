//! The proxy: the device, the handshakes of the host's clients, and the host ports that it gives.

ghost use Rattle.std.specs.Prelude.{◌≡◌, ◌≤◌, ◌+◌, ℕ, [], Some, IfOk, length};
ghost use Rattle.vs_limits.specs.declared.TheConstants.{ASSIGNED_FIRST, ASSIGNED_LAST, GUEST_CID_MIN, GUEST_CID_MAX};
ghost use Rattle.vs_outside.specs.Host.{HostContents};
ghost use Rattle.vs_ring_port.specs.EndLog.{EndLog};
ghost use Rattle.vs_uds.specs.declared.path.TheConstants.{BASE_MAX};
ghost use Rattle.vs_device_parts.specs.{Calls.Situation, State.counters_of};
ghost use Rattle.laws_device.specs.Honest.{AgreesWith, IsFresh};
ghost use Rattle.laws_proxy.specs.{Account.{Made.account_of, Told.{AreAccounted, Shows}}, Order.IsInOrder};
ghost use Rattle.vs_proxy_parts.specs.Turns.{new_proxy, new_proxy_at};

use std::alloc::{AllocError, Global};
use std::marker::Model;
use vs_device::{Counters, Device};
use vs_limits::ASSIGNED_FIRST;
use vs_page::PAYLOAD_MAX;
use vs_proxy_parts::handshakes::Handshakes;

/// A proxy between the guest's socket device and the host's sockets (Firecracker's vsock documentation). The ring and the host are lent to
/// each call that needs them, and must be those of the proxy's earlier calls. All memory is taken when the proxy is made.
#[derive(Drop)]
pub struct Proxy {
    pub(crate) device: Device,
    pub(crate) handshakes: Handshakes,
    pub(crate) next_port: u32,
    // Room for the payload that a stream is read for.
    pub(crate) buffer: [u8; PAYLOAD_MAX],
}

impl Model for Proxy {
    ghost use Rattle.std.specs.Prelude.{◌≤◌, ◌+◌};
    ghost use Rattle.vs_limits.specs.declared.TheConstants.{ASSIGNED_LAST};
    ghost use Rattle.vs_proxy_parts.specs.State.{ProxyState};

    ghost Value = { ProxyState };

    ghost view = { λ p. record { device = p.device; handshakes = p.handshakes; next_port = p.next_port } };

    ghost invariant = { λ p. p.next_port ≤ ASSIGNED_LAST + 1 };
}

impl Proxy {
    /// A proxy without connections and handshakes, for the guest with a CID from 3 to 4,294,967,294. The base path is that of the host's
    /// sockets, and has 1 to 90 bytes. All its memory is taken here. The only error is want of memory.
    pub fn new(alloc: Global, cid: u64, base: &str) -> Result<Proxy, AllocError>
        requires cid { (GUEST_CID_MIN ≤ cid) × (cid ≤ GUEST_CID_MAX) }
        requires base { (1 ≤ length base.now) × (length base.now ≤ BASE_MAX) }
        ensures state { IfOk result (λ proxy. proxy ≡ new_proxy cid base.now) }
        // With a host, and with a ring on which nothing passed, it is in order.
        ensures order { IfOk result (λ proxy. (a : Situation) → IsFresh a.ring → IsInOrder cid proxy a) }
        // With a host whose streams are those of clients that weren't accepted yet, no call is made, and that accounts for them.
        ensures bytes { IfOk result (λ proxy. (host : HostContents) → Shows (account_of []) host
            → AreAccounted [] proxy.device.table proxy.handshakes (Some host)) }
    {
        Proxy::new_at(alloc, cid, base, ASSIGNED_FIRST)
    }

    /// The same of a proxy that gives host ports from `port` on, 1,073,741,824 to 2,147,483,648. The last of these says that all were given.
    pub fn new_at(alloc: Global, cid: u64, base: &str, port: u32) -> Result<Proxy, AllocError>
        requires cid { (GUEST_CID_MIN ≤ cid) × (cid ≤ GUEST_CID_MAX) }
        requires base { (1 ≤ length base.now) × (length base.now ≤ BASE_MAX) }
        requires port { (ASSIGNED_FIRST ≤ port) × (port ≤ ASSIGNED_LAST + 1) }
        ensures state { IfOk result (λ proxy. proxy ≡ new_proxy_at cid base.now port) }
        ensures order { IfOk result (λ proxy. (a : Situation) → IsFresh a.ring → IsInOrder cid proxy a) }
        ensures bytes { IfOk result (λ proxy. (host : HostContents) → Shows (account_of []) host
            → AreAccounted [] proxy.device.table proxy.handshakes (Some host)) }
    {
        Ok(Proxy {
            device: Device::new(alloc, cid, base)?,
            handshakes: Handshakes::new(alloc)?,
            next_port: port,
            buffer: [0; PAYLOAD_MAX],
        })
    }

    /// What the device counted since the proxy was made. A count stands still at the last value of its type.
    pub fn counters(&self) -> Counters
        ensures counters { result ≡ counters_of self.now.device }
        // Over an honest ring that tells its log no packet held more payload than there was room for.
        ensures honest { (first port : ℕ) (l : EndLog) → AgreesWith first port self.now.device l → result.overrun ≡ 0 }
    {
        self.device.counters()
    }
}
