//! What the device and its proxy do in the world, one event at a time. The only error is want of memory, which the host found in a dial or a
//! write, and then the world may not go on.

ghost use Rattle.std.specs.Prelude.{◌≡◌, ◌&&◌, OnOk, false, nat_le};
ghost use Rattle.vs_ring_port.specs.Chains.{same_queue};
ghost use Rattle.laws_world.specs.Events.{DeviceGrows, DevicePays, DevicePutsEvent, DeviceReads, DeviceReplies, DeviceReturns, DeviceShutsWrite, DeviceTakes, DeviceWrites};
ghost use Rattle.laws_world.specs.Events.{HandshakeTimesOut, Moment, ProxyAccepts, ProxyReads, Reset, TimesOut, is_guest_cid};
ghost use Rattle.laws_device.specs.Honest.{is_held};
ghost use Rattle.vs_core.specs.Ready.{Happens, IsReady};
ghost use Rattle.vs_ring_port.specs.declared.queue.Queue.TheVariants as q;

use crate::world::World;
use std::alloc::AllocError;
use vs_flow::{Flow, Slot};
use vs_limits::{GUEST_CID_MAX, GUEST_CID_MIN};
use vs_outside::MemHost;
use vs_proxy::steps;
use vs_ring_list::ListRings;
use vs_ring_port::{Chain, Queue};

impl World {
    /// The device takes a page of a queue.
    pub(crate) fn device_takes(&mut self, queue: Queue) -> Result<(), AllocError>
        requires ready { IsReady self.old }
        ensures { OnOk result (Happens (DeviceTakes queue) self.old self.new) }
    {
        if steps::has_failed(&self.proxy) {
            return Ok(());
        }
        match queue {
            Queue::Rx => {
                steps::hold_chain(&mut self.proxy, &mut self.rings);
                fed(&self.host)
            }
            Queue::Tx => {
                steps::take_packet(&mut self.proxy, &mut self.rings, &mut self.host);
                fed(&self.host)
            }
            Queue::Event => {
                steps::take_event(&self.proxy, &mut self.rings);
                fed(&self.host)
            }
        }
    }

    /// It returns a transmit page.
    pub(crate) fn device_returns(&mut self, chain: &Chain) -> Result<(), AllocError>
        requires ready { IsReady self.old }
        ensures { OnOk result (Happens (DeviceReturns chain.now) self.old self.new) }
    {
        if !holds_packet(&self.rings, chain) {
            return Ok(());
        }
        steps::return_chain(&self.proxy, &mut self.rings, chain.twin());
        fed(&self.host)
    }

    /// It puts the event that it owes.
    pub(crate) fn device_puts_event(&mut self, chain: &Chain) -> Result<(), AllocError>
        requires ready { IsReady self.old }
        ensures { OnOk result (Happens (DevicePutsEvent chain.now) self.old self.new) }
    {
        if !holds_event(&self.rings, chain) {
            return Ok(());
        }
        steps::put_event(&mut self.proxy, &mut self.rings, chain.twin());
        fed(&self.host)
    }

    /// It puts the oldest reply that it owes.
    pub(crate) fn device_replies(&mut self) -> Result<(), AllocError>
        requires ready { IsReady self.old }
        ensures { OnOk result (Happens DeviceReplies self.old self.new) }
    {
        if steps::has_failed(&self.proxy) {
            return Ok(());
        }
        steps::put_reply(&mut self.proxy, &mut self.rings);
        fed(&self.host)
    }

    /// It puts payload that it reads of a connection's stream.
    pub(crate) fn device_reads(&mut self, slot: Slot) -> Result<(), AllocError>
        requires ready { IsReady self.old }
        ensures { OnOk result (Happens (DeviceReads slot) self.old self.new) }
    {
        if steps::has_failed(&self.proxy) {
            return Ok(());
        }
        steps::put_payload(&mut self.proxy, &mut self.rings, &mut self.host, slot);
        fed(&self.host)
    }

    /// It puts what a connection owes.
    pub(crate) fn device_pays(&mut self, slot: Slot) -> Result<(), AllocError>
        requires ready { IsReady self.old }
        ensures { OnOk result (Happens (DevicePays slot) self.old self.new) }
    {
        if steps::has_failed(&self.proxy) {
            return Ok(());
        }
        steps::put_owed(&mut self.proxy, &mut self.rings, &mut self.host, slot);
        fed(&self.host)
    }

    /// It writes to a connection's stream.
    pub(crate) fn device_writes(&mut self, slot: Slot) -> Result<(), AllocError>
        requires ready { IsReady self.old }
        ensures { OnOk result (Happens (DeviceWrites slot) self.old self.new) }
    {
        if steps::has_failed(&self.proxy) {
            return Ok(());
        }
        steps::write(&mut self.proxy, &mut self.host, slot);
        fed(&self.host)
    }

    /// It shuts the side of a connection's stream that it writes to.
    pub(crate) fn device_shuts_write(&mut self, slot: Slot) -> Result<(), AllocError>
        requires ready { IsReady self.old }
        ensures { OnOk result (Happens (DeviceShutsWrite slot) self.old self.new) }
    {
        if steps::has_failed(&self.proxy) {
            return Ok(());
        }
        steps::shut_write(&mut self.proxy, &mut self.host, slot);
        fed(&self.host)
    }

    /// It raises the buffer space of the connection of a flow.
    pub(crate) fn device_grows(&mut self, flow: Flow, alloc: u32)
        requires ready { IsReady self.old }
        ensures { Happens (DeviceGrows flow alloc) self.old self.new }
    {
        let _answer = self.proxy.grow(flow, alloc);
    }

    /// The proxy accepts a client.
    pub(crate) fn proxy_accepts(&mut self) -> Result<(), AllocError>
        requires ready { IsReady self.old }
        ensures { OnOk result (Happens ProxyAccepts self.old self.new) }
    {
        if steps::has_failed(&self.proxy) {
            return Ok(());
        }
        steps::accept(&mut self.proxy, &mut self.host);
        fed(&self.host)
    }

    /// It reads a byte of a client's line.
    pub(crate) fn proxy_reads(&mut self, stream: u64) -> Result<(), AllocError>
        requires ready { IsReady self.old }
        ensures { OnOk result (Happens (ProxyReads stream) self.old self.new) }
    {
        if steps::has_failed(&self.proxy) {
            return Ok(());
        }
        steps::read_line(&mut self.proxy, &mut self.host, stream);
        fed(&self.host)
    }

    /// The moment is this now, in milliseconds.
    pub(crate) fn moment(&mut self, now: u64)
        requires ready { IsReady self.old }
        ensures { Happens (Moment now) self.old self.new }
    {
        steps::set_moment(&mut self.proxy, now);
    }

    /// A connection times out.
    pub(crate) fn times_out(&mut self, slot: Slot) -> Result<(), AllocError>
        requires ready { IsReady self.old }
        ensures { OnOk result (Happens (TimesOut slot) self.old self.new) }
    {
        if steps::has_failed(&self.proxy) {
            return Ok(());
        }
        steps::time_out(&mut self.proxy, &mut self.host, slot);
        fed(&self.host)
    }

    /// A client's handshake times out.
    pub(crate) fn handshake_times_out(&mut self, stream: u64) -> Result<(), AllocError>
        requires ready { IsReady self.old }
        ensures { OnOk result (Happens (HandshakeTimesOut stream) self.old self.new) }
    {
        if steps::has_failed(&self.proxy) {
            return Ok(());
        }
        steps::time_out_handshake(&mut self.proxy, &mut self.host, stream);
        fed(&self.host)
    }

    /// A transport reset: the guest gets this CID.
    pub(crate) fn reset(&mut self, cid: u64) -> Result<(), AllocError>
        requires ready { IsReady self.old }
        ensures { OnOk result (Happens (Reset cid) self.old self.new) }
    {
        if !is_guest_cid(cid) {
            return Ok(());
        }
        let _answer = steps::reset(&mut self.proxy, &mut self.rings, &mut self.host, cid);
        fed(&self.host)
    }
}

// A guest may have this CID.
fn is_guest_cid(cid: u64) -> bool
    ensures { result ≡ is_guest_cid cid }
{
    GUEST_CID_MIN as u64 <= cid && cid <= GUEST_CID_MAX as u64
}

// It is a chain of the transmit queue.
fn is_packet(chain: &Chain) -> bool
    ensures { result ≡ same_queue q.Tx chain.now.queue }
{
    matches!(chain.queue, Queue::Tx)
}

// It is one of the event queue.
fn is_event(chain: &Chain) -> bool
    ensures { result ≡ same_queue q.Event chain.now.queue }
{
    matches!(chain.queue, Queue::Event)
}

// The device holds this chain.
fn is_held(rings: &ListRings, chain: &Chain) -> bool
    ensures { result ≡ is_held chain.now rings.now.device.held }
{
    rings.holds(chain)
}

// The device holds this chain, of the transmit queue.
fn holds_packet(rings: &ListRings, chain: &Chain) -> bool
    ensures { result ≡ (same_queue q.Tx chain.now.queue && is_held chain.now rings.now.device.held) }
{
    is_packet(chain) && is_held(rings, chain)
}

// It holds this one, of the event queue.
fn holds_on_event(rings: &ListRings, chain: &Chain) -> bool
    ensures { result ≡ (same_queue q.Event chain.now.queue && is_held chain.now rings.now.device.held) }
{
    is_event(chain) && is_held(rings, chain)
}

// It holds this one, of the event queue, with room for an event.
fn holds_event(rings: &ListRings, chain: &Chain) -> bool
    ensures { result ≡ ((same_queue q.Event chain.now.queue && is_held chain.now rings.now.device.held) && nat_le 4 chain.now.writable) }
{
    holds_on_event(rings, chain) && 4 <= chain.writable
}

// The host found memory in each dial and each write. The only error is that it didn't.
fn fed(host: &MemHost) -> Result<(), AllocError>
    ensures { OnOk result (host.now.contents.starved ≡ false) }
{
    if host.starved() {
        return Err(AllocError);
    }
    Ok(())
}
