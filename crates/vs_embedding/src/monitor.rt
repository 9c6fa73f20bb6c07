//! The device's thread: when it turns, when it interrupts the guest, and what it does after a failure.

ghost use Rattle.std.specs.Prelude.{◌≡◌, ◌<◌, ◌≤◌, length, true, OnOk};
ghost use Rattle.vs_limits.specs.declared.TheConstants.{GUEST_CID_MIN, GUEST_CID_MAX};
ghost use Rattle.vs_ring_port.specs.declared.queue.TheConstants.{QUEUE_SIZE_MAX};
ghost use Rattle.vs_uds.specs.declared.path.TheConstants.{BASE_MAX};
ghost use Rattle.vs_device_parts.specs.Playing.{Runs};
ghost use Rattle.vs_proxy_parts.specs.{Turns.turn_of, declared.answers.Turn.Turn};
ghost use Rattle.vs_embedding.specs.{Ring.around, Rounds.interrupts, Rounds.moved, Rounds.served_by};

use crate::queues::{MonitorRing, Virtqueues};
use laws_proxy::laws::law_of_order;
use std::alloc::{AllocError, Global};
use std::marker::Model;
use vs_outside::{HostNet, Started};
use vs_proxy::{Proxy, Turn, Turned};
use vs_ring_port::{Failure, Queue};

/// What a round of the device's thread came to.
#[derive(Clone, Copy, Debug, PartialEq, Eq)]
pub enum Served {
    /// A turn was made.
    Turned {
        /// Chains were returned on one of the queues: the guest is to be interrupted. What the host took alone is no reason.
        interrupt: bool,
        /// Something moved: the thread turns again. Else it may sleep until the guest notifies, a socket is ready, or 100 ms have passed.
        again: bool,
    },
    /// The guest broke a rule of its rings, and this says which. The device needs a reset; until then no call touches ring or host.
    NeedsReset(Failure),
}

/// Why there is no monitor.
#[derive(Clone, Copy, Debug, PartialEq, Eq)]
pub enum NewError {
    /// Want of memory.
    OutOfMemory,
    /// The host doesn't listen at its base path.
    NotStarted,
}

impl From<AllocError> for NewError {
    fn from(_error: AllocError) -> NewError {
        NewError::OutOfMemory
    }
}

/// The device with its ring and its host, all on one thread.
#[derive(Drop)]
pub struct Monitor<V, H: HostNet> {
    proxy: Proxy,
    ring: MonitorRing<V>,
    host: H,
}

impl<V, H: HostNet> Model for Monitor<V, H> {
    ghost use Rattle.vs_embedding.specs.Ring.{IsServing, MonitorState};

    ghost Value = { MonitorState };

    ghost view = { λ m. record { proxy = m.proxy; ring = m.ring; streams = H.contents m.host; faults = H.faults m.host } };

    ghost invariant = { λ m. IsServing (record { proxy = m.proxy; ring = m.ring; streams = H.contents m.host; faults = H.faults m.host }) };
}

impl<V: Virtqueues, H: HostNet> Monitor<V, H> {
    /// A device for the guest with a CID from 3 to 4,294,967,294, over virtqueues of `size` descriptors each and a host that no device had
    /// before. The host starts to listen at the base path, 1 to 90 bytes, of its sockets. The device takes no memory in later calls; the
    /// host may, as one over Unix sockets does when it accepts or dials.
    pub fn new(
        alloc: Global,
        queues: V,
        size: u16,
        host: H,
        cid: u64,
        base: &str,
    ) -> Result<Monitor<V, H>, NewError>
    where
        H: Drop,
        requires nonzero { 0 < size }
        requires limit { size ≤ QUEUE_SIZE_MAX }
        requires cid { (GUEST_CID_MIN ≤ cid) × (cid ≤ GUEST_CID_MAX) }
        requires base { (1 ≤ length base.now) × (length base.now ≤ BASE_MAX) }
    {
        law_of_order();
        let mut host = host;
        let started = host.start(base);
        if started != Started::Ready {
            return Err(NewError::NotStarted);
        }
        let ring = MonitorRing::new(alloc, queues, size)?;
        let proxy = Proxy::new(alloc, cid, base)?;
        Ok(Monitor { proxy, ring, host })
    }

    /// One turn at the moment `now`, in milliseconds of a clock that doesn't fall.
    pub fn serve(&mut self, now: u64) -> Served
        ensures turn { (t : Turn) × (result ≡ served_by t) × Runs (turn_of self.old.ring.size now self.old.proxy) (around self.old) (self.new.proxy, t) (around self.new) }
    {
        law_of_order();
        let turn = self.proxy.turn(&mut self.ring, &mut self.host, now);
        outcome_of(turn)
    }

    /// Ends all connections of a guest that goes on under another CID, 3 to 4,294,967,294, as after a snapshot was restored: a turn tells
    /// its driver by the event of a transport reset (Virtio 1.2, section 5.10.6.7). The error is the ring's failure; then nothing changes.
    pub fn transport_reset(&mut self, cid: u64) -> Result<(), Failure>
        requires cid { (GUEST_CID_MIN ≤ cid) × (cid ≤ GUEST_CID_MAX) }
        ensures owed { OnOk result (self.new.proxy.device.event_owed ≡ true) }
    {
        law_of_order();
        self.proxy.reset(&mut self.ring, &mut self.host, cid)
    }

    /// The failure of the guest's rings, where there was one.
    pub fn failure(&self) -> Option<Failure>
        ensures { result ≡ self.now.proxy.device.failed }
    {
        self.proxy.failure()
    }

    /// The host that the guest's bytes go to.
    pub fn host(&self) -> &H {
        &self.host
    }

    /// The virtqueues.
    pub fn queues(&self) -> &V {
        self.ring.queues()
    }

    /// Ends the device, as the driver asks by a reset: all that it held is let go, the host with its streams too. The virtqueues are for the
    /// next `new`.
    pub fn end(self) -> V
    where
        H: Drop,
    {
        self.ring.into_queues()
    }
}

// What a turn's answer says of the next round.
fn outcome_of(turn: Turn) -> Served
    ensures { result ≡ served_by turn }
{
    match turn {
        Turn::Turned(turned) => Served::Turned {
            interrupt: interrupts(&turned),
            again: has_moved(&turned),
        },
        Turn::Failed(failure) => Served::NeedsReset(failure),
    }
}

// Whether chains were returned on one of the queues.
fn interrupts(turned: &Turned) -> bool
    ensures { result ≡ interrupts turned.now }
{
    turned.has_used(Queue::Rx) || turned.has_used(Queue::Tx) || turned.has_used(Queue::Event)
}

// Whether a turn moved anything.
fn has_moved(turned: &Turned) -> bool
    ensures { result ≡ moved turned.now }
{
    interrupts(turned)
        || 0 < turned.read
        || 0 < turned.wrote
        || 0 < turned.opened
        || 0 < turned.closed
        || 0 < turned.hands
}
