//! The event of a transport reset (Virtio 1.2, section 5.10.6.7).

ghost use Rattle.std.specs.Prelude.{◌≡◌, ◌≤◌, ◌&&◌, ℕ, not, true, false, List, Contains, Option, Some, Ok, Err, IfOk, IfErr};
ghost use Rattle.vs_contents.specs.CallTree.{Leads};
ghost use Rattle.byteorder.specs.Endian.{little_bytes};
ghost use Rattle.vs_ring_port.specs.{Chains.without, Contents.{Write, Return}, DeviceCalls.{CanReturn, LeavesNoGap}, declared.failure.Failure.Failure};
ghost use Rattle.vs_device_parts.specs.{Playing.{AllowsOnRing, IsItsRing, MayRunOnRing, RunsOnRing}, Receiving.{event_on, pay_event_of}};
ghost use Rattle.laws_device.specs.Honest.{IsWith};
ghost use Rattle.vs_outside.specs.Host.{HostContents};
ghost use Rattle.laws_proxy.specs.Account.{Judged.AreUnmoved, Made.{Made, Makes}, Told.{AreAccounted, StayAccounted}};
ghost use Rattle.vs_proxy_parts.specs.State.{Handshake};
ghost use Rattle.vs_ring_port.specs.declared.device_ring.Next.TheVariants as next;

use crate::device::Device;
use vs_device_parts::ring_calls::take;
use vs_event::{EVENT_LEN, TRANSPORT_RESET, event_bytes};
use vs_ring_port::{Chain, DeviceRing, Failure, Next, Queue};

impl Device {
    /// Puts the event that is owed since a transport reset, and tells whether it did: without an owed event, or without a chain of the event
    /// queue, it does nothing. The error is the ring's failure, now or before.
    pub fn pay_event<R: DeviceRing>(&mut self, ring: &mut R) -> Result<bool, Failure>
        requires ring { IsItsRing (R.held ring.old) self.old }
        requires may { MayRunOnRing (pay_event_of self.old) (R.contents ring.old) }
        ensures ring { IsItsRing (R.held ring.new) self.new }
        ensures calls { RunsOnRing (pay_event_of self.old) (R.contents ring.old) (self.new, result) (R.contents ring.new) }
        ensures kept { (f : Failure) → self.old.failed ≡ Some f → (self.new ≡ self.old) × (result ≡ Err f) }
        ensures failed { IfErr result (λ f. self.new.failed ≡ Some f) }
        ensures paid { IfOk result (λ paid. self.new ≡ record self.old { event_owed = self.old.event_owed && not paid }) }
        ensures streams { self.new.table ≡ self.old.table }
        // Over an honest ring that tells its log the connections are those that the log left, and all that is put keeps the log fair.
        ensures honest { (first port : ℕ) → IsWith first port self.old (R.contents ring.old)
            → IsWith first port self.new (R.contents ring.new) }
        // The calls made account for the host's streams, as they did before, and say nothing more of any.
        ensures bytes { (calls : List Made) (hands : List Handshake) (host : Option HostContents)
            → AreAccounted calls self.old.table hands host
            → StayAccounted (pay_event_of self.old) calls (self.new, result) self.new.table hands host }
        ensures unmoved { (calls later : List Made) → Leads Makes (pay_event_of self.old) calls (self.new, result) later
            → AreUnmoved calls later }
    {
        if let Some(failure) = self.failed {
            return Err(failure);
        }
        if !self.event.owed() {
            return Ok(false);
        }
        match take(ring, Queue::Event) {
            Next::Chain(chain) => {
                self.put_event(ring, chain);
                Ok(true)
            }
            Next::None => Ok(false),
            Next::Failed(failure) => {
                self.fail(failure);
                Err(failure)
            }
        }
    }

    /// Puts the owed event into a chain.
    pub(crate) fn put_event<R: DeviceRing>(&mut self, ring: &mut R, chain: Chain)
        requires is_held { Contains (R.held ring.old) chain }
        requires long_enough { 4 ≤ chain.writable }
        requires owed { self.old.event_owed ≡ true }
        requires may { MayRunOnRing (event_on (next.Chain chain) self.old) (R.contents ring.old) }
        ensures held { R.held ring.new ≡ without chain (R.held ring.old) }
        ensures calls { RunsOnRing (event_on (next.Chain chain) self.old) (R.contents ring.old) (self.new, Ok true) (R.contents ring.new) }
        ensures state { self.new ≡ record self.old { event_owed = false } }
    {
        write_event(ring, &chain);
        return_event(ring, chain);
        self.event.paid();
    }
}

// Writes the event of a transport reset into a chain.
fn write_event<R: DeviceRing>(ring: &mut R, chain: &Chain)
    requires is_held { Contains (R.held ring.old) chain.now }
    requires long_enough { 4 ≤ chain.now.writable }
    requires may { LeavesNoGap chain.now 0 (R.contents ring.old) }
    ensures calls { AllowsOnRing (Write chain.now 0 (little_bytes 4 0)) tt (R.contents ring.old) (R.contents ring.new) }
    ensures held { R.held ring.new ≡ R.held ring.old }
{
    ring.write(chain, 0, &event_bytes(TRANSPORT_RESET));
}

// Returns a chain into which an event was written.
fn return_event<R: DeviceRing>(ring: &mut R, chain: Chain)
    requires is_held { Contains (R.held ring.old) chain }
    requires may { CanReturn chain 4 (R.contents ring.old) }
    ensures calls { AllowsOnRing (Return chain 4) tt (R.contents ring.old) (R.contents ring.new) }
    ensures held { R.held ring.new ≡ without chain (R.held ring.old) }
{
    ring.done(chain, EVENT_LEN as u32);
}
