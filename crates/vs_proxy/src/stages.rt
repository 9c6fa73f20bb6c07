//! The stages of a turn, each of which is left out once the ring failed.

ghost use Rattle.std.specs.Prelude.{◌≡◌, ◌≤◌, ◌<◌, ◌+◌, ◌*◌, ◌^◌, List, None, is_some};
ghost use Rattle.vs_ring_port.specs.declared.device_ring.Chain.{Chain};
ghost use Rattle.vs_uds.specs.declared.connect.TheConstants.{CONNECT_MAX};
ghost use Rattle.vs_limits.specs.declared.TheConstants.{DEVICE_CONNECTIONS, DEVICE_REPLIES, HANDSHAKES, OWED_MAX};
ghost use Rattle.vs_device_parts.specs.Playing.{IsItsRing, MayRun, MayRunOnHost, MayRunOnRing, Runs, RunsOnHost, RunsOnRing, situation};
ghost use Rattle.vs_proxy_parts.specs.{Handshakes.shake_hands, Turning.{CountsFew, turning_of}, Turns.{event_stage, fill_stage, pump_stage, take_one, take_stage, tick_stage}};
ghost use Rattle.vs_proxy_parts.specs.{Turns.{took_packet, unless_failed}, declared.tally.Tally.Tally};

use crate::proxy::Proxy;
use vs_device::Taken;
use vs_outside::HostNet;
use vs_proxy_parts::tally::Tally;
use vs_ring_port::DeviceRing;

impl Proxy {
    /// Timeouts: of connections, and of handshakes.
    pub(crate) fn tick_stage<H: HostNet>(&mut self, host: &mut H, now: u64, tally: &mut Tally)
        requires few { tally.old.hands ≡ 0 }
        requires may { MayRunOnHost (unless_failed (tick_stage now) (turning_of self.old tally.old)) (H.contents host.old) (H.faults host.old) }
        ensures few { tally.new.hands ≤ HANDSHAKES }
        ensures others { tally.new ≡ record tally.old { hands = tally.new.hands } }
        ensures same { CountsFew 0 0 self.old.device self.new.device }
        ensures ring { (held : List Chain) → IsItsRing held self.old.device → IsItsRing held self.new.device }
        ensures calls { RunsOnHost (unless_failed (tick_stage now) (turning_of self.old tally.old)) (H.contents host.old) (H.faults host.old) (turning_of self.new tally.new) (H.contents host.new) (H.faults host.new) }
    {
        if self.has_failed() {
            return;
        }
        self.device.tick(now, host);
        self.tick_handshakes(host, tally);
    }

    /// The owed event.
    pub(crate) fn event_stage<R: DeviceRing>(&mut self, ring: &mut R)
        requires ring { IsItsRing (R.held ring.old) self.old.device }
        requires may { (tally : Tally) × MayRunOnRing (unless_failed event_stage (turning_of self.old tally)) (R.contents ring.old) }
        ensures same { CountsFew 0 0 self.old.device self.new.device }
        ensures ring { IsItsRing (R.held ring.new) self.new.device }
        ensures calls { (tally : Tally) → RunsOnRing (unless_failed event_stage (turning_of self.old tally)) (R.contents ring.old) (turning_of self.new tally) (R.contents ring.new) }
    {
        if self.has_failed() {
            return;
        }
        let _paid = self.device.pay_event(ring);
    }

    /// Packets that the guest sent, at most as many as the queue has descriptors.
    pub(crate) fn take_stage<R: DeviceRing, H: HostNet>(
        &mut self,
        ring: &mut R,
        host: &mut H,
        size: u16,
        tally: &mut Tally,
    )
        requires ring { IsItsRing (R.held ring.old) self.old.device }
        requires none { tally.old.took ≡ 0 }
        requires may { MayRun (unless_failed (take_stage size) (turning_of self.old tally.old)) (situation (R.contents ring.old) (H.contents host.old) (H.faults host.old)) }
        ensures others { tally.new ≡ record tally.old { took = tally.new.took } }
        ensures opened { CountsFew size size self.old.device self.new.device }
        ensures ring { IsItsRing (R.held ring.new) self.new.device }
        ensures calls { Runs (unless_failed (take_stage size) (turning_of self.old tally.old)) (situation (R.contents ring.old) (H.contents host.old) (H.faults host.old)) (turning_of self.new tally.new) (situation (R.contents ring.new) (H.contents host.new) (H.faults host.new)) }
    {
        if self.has_failed() {
            return;
        }
        self.take_packets(ring, host, size, tally);
    }

    // Takes packets that the guest sent, at most so many.
    fn take_packets<R: DeviceRing, H: HostNet>(
        &mut self,
        ring: &mut R,
        host: &mut H,
        size: u16,
        tally: &mut Tally,
    )
        requires ring { IsItsRing (R.held ring.old) self.old.device }
        requires none { tally.old.took ≡ 0 }
        requires may { MayRun (take_stage size (turning_of self.old tally.old)) (situation (R.contents ring.old) (H.contents host.old) (H.faults host.old)) }
        ensures others { tally.new ≡ record tally.old { took = tally.new.took } }
        ensures opened { CountsFew size size self.old.device self.new.device }
        ensures ring { IsItsRing (R.held ring.new) self.new.device }
        ensures calls { Runs (take_stage size (turning_of self.old tally.old)) (situation (R.contents ring.old) (H.contents host.old) (H.faults host.old)) (turning_of self.new tally.new) (situation (R.contents ring.new) (H.contents host.new) (H.faults host.new)) }
    {
        for _ in 0..size {
            if !self.take_one(ring, host, tally) {
                return;
            }
        }
    }

    // Takes the next packet that the guest sent, and tells whether it did.
    fn take_one<R: DeviceRing, H: HostNet>(
        &mut self,
        ring: &mut R,
        host: &mut H,
        tally: &mut Tally,
    ) -> bool
        requires ring { IsItsRing (R.held ring.old) self.old.device }
        requires few { tally.old.took < 2 ^ 16 }
        requires may { MayRun (take_one (turning_of self.old tally.old)) (situation (R.contents ring.old) (H.contents host.old) (H.faults host.old)) }
        ensures count { tally.new.took ≤ tally.old.took + 1 }
        ensures others { tally.new ≡ record tally.old { took = tally.new.took } }
        ensures opened { CountsFew 1 1 self.old.device self.new.device }
        ensures ring { IsItsRing (R.held ring.new) self.new.device }
        ensures calls { Runs (take_one (turning_of self.old tally.old)) (situation (R.contents ring.old) (H.contents host.old) (H.faults host.old)) (turning_of self.new tally.new, result) (situation (R.contents ring.new) (H.contents host.new) (H.faults host.new)) }
    {
        let taken = self.device.take_tx(ring, host);
        if !took_packet(taken) {
            return false;
        }
        tally.took += 1;
        true
    }

    /// Clients are accepted, and their lines are read.
    pub(crate) fn hands_stage<H: HostNet>(&mut self, host: &mut H, tally: &mut Tally)
        requires few { tally.old.hands ≤ HANDSHAKES }
        requires none { tally.old.read ≡ 0 }
        requires may { MayRunOnHost (unless_failed shake_hands (turning_of self.old tally.old)) (H.contents host.old) (H.faults host.old) }
        ensures read { tally.new.read ≤ CONNECT_MAX * HANDSHAKES }
        ensures others { tally.new ≡ record tally.old { read = tally.new.read; hands = tally.new.hands } }
        ensures opened { CountsFew (CONNECT_MAX * HANDSHAKES) 0 self.old.device self.new.device }
        ensures ring { (held : List Chain) → IsItsRing held self.old.device → IsItsRing held self.new.device }
        ensures calls { RunsOnHost (unless_failed shake_hands (turning_of self.old tally.old)) (H.contents host.old) (H.faults host.old) (turning_of self.new tally.new) (H.contents host.new) (H.faults host.new) }
    {
        if self.has_failed() {
            return;
        }
        self.shake_hands(host, tally);
    }

    /// What is pending is written to the host's streams.
    pub(crate) fn pump_stage<H: HostNet>(&mut self, host: &mut H, tally: &mut Tally)
        requires none { tally.old.wrote ≡ 0 }
        requires may { MayRunOnHost (unless_failed pump_stage (turning_of self.old tally.old)) (H.contents host.old) (H.faults host.old) }
        ensures others { tally.new ≡ record tally.old { wrote = tally.new.wrote } }
        ensures same { CountsFew 0 0 self.old.device self.new.device }
        ensures ring { (held : List Chain) → IsItsRing held self.old.device → IsItsRing held self.new.device }
        ensures calls { RunsOnHost (unless_failed pump_stage (turning_of self.old tally.old)) (H.contents host.old) (H.faults host.old) (turning_of self.new tally.new) (H.contents host.new) (H.faults host.new) }
    {
        if self.has_failed() {
            return;
        }
        tally.wrote = self.device.pump_out(host);
    }

    /// Packets are put on the receive queue.
    pub(crate) fn fill_stage<R: DeviceRing, H: HostNet>(
        &mut self,
        ring: &mut R,
        host: &mut H,
        tally: &mut Tally,
    )
        requires ring { IsItsRing (R.held ring.old) self.old.device }
        requires none { tally.old.put ≡ 0 }
        requires few { tally.old.read ≤ CONNECT_MAX * HANDSHAKES }
        requires may { MayRun (unless_failed fill_stage (turning_of self.old tally.old)) (situation (R.contents ring.old) (H.contents host.old) (H.faults host.old)) }
        ensures opened { self.new.device.failed ≡ None → CountsFew 0 (DEVICE_REPLIES + (OWED_MAX + 1) * DEVICE_CONNECTIONS) self.old.device self.new.device }
        ensures ring { IsItsRing (R.held ring.new) self.new.device }
        ensures calls { Runs (unless_failed fill_stage (turning_of self.old tally.old)) (situation (R.contents ring.old) (H.contents host.old) (H.faults host.old)) (turning_of self.new tally.new) (situation (R.contents ring.new) (H.contents host.new) (H.faults host.new)) }
    {
        if self.has_failed() {
            return;
        }
        let Ok(filled) = self.device.fill_rx(ring, host, &mut self.buffer) else {
            return;
        };
        tally.put += filled.put;
        tally.read += filled.read;
    }

    /// Whether the ring failed.
    pub(crate) fn has_failed(&self) -> bool
        ensures { result ≡ is_some self.now.device.failed }
    {
        self.device.failure().is_some()
    }
}

// Whether a packet was taken.
fn took_packet(taken: Taken) -> bool
    ensures { result ≡ took_packet taken }
{
    matches!(taken, Taken::Packet(_))
}
