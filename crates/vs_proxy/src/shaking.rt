//! Handshakes: clients of the host are accepted, and those that wait too long end (Firecracker's vsock documentation).

ghost use Rattle.std.specs.{Prelude.{◌≡◌, ◌≤◌, ◌<◌, ◌+◌, ◌^◌, Some, false}, Option.option_map_or};
ghost use Rattle.vs_device_parts.specs.{Playing.{MayRunOnHost, RunsOnHost}, Connections.is_late};
ghost use Rattle.vs_limits.specs.declared.TheConstants.{HANDSHAKES};
ghost use Rattle.vs_proxy_parts.specs.{Handshakes.{accept_one, dropping, handshake_on, tick_handshake, tick_handshakes}, Turning.{CountsFew, turning_of}};

use crate::proxy::Proxy;
use vs_limits::{HANDSHAKES, TIMEOUT};
use vs_outside::{Accepted, HostNet};
use vs_proxy_parts::host_calls::{accept, close};
use vs_proxy_parts::tally::Tally;

impl Proxy {
    /// Ends the handshakes that wait too long for their lines, in the order in which they were accepted.
    pub(crate) fn tick_handshakes<H: HostNet>(&mut self, host: &mut H, tally: &mut Tally)
        requires few { tally.old.hands ≡ 0 }
        requires may { MayRunOnHost (tick_handshakes (turning_of self.old tally.old)) (H.contents host.old) (H.faults host.old) }
        ensures few { tally.new.hands ≤ HANDSHAKES }
        ensures others { tally.new ≡ record tally.old { hands = tally.new.hands } }
        ensures same { CountsFew 0 0 self.old.device self.new.device }
        ensures chain { self.new.device.chain ≡ self.old.device.chain }
        ensures calls { RunsOnHost (tick_handshakes (turning_of self.old tally.old)) (H.contents host.old) (H.faults host.old) (turning_of self.new tally.new) (H.contents host.new) (H.faults host.new) }
    {
        let streams = self.handshakes.streams();
        for stream in streams.as_slice() {
            self.tick_handshake(host, *stream, tally);
        }
    }

    /// Ends the handshake on a stream where it waits too long for its line.
    pub(crate) fn tick_handshake<H: HostNet>(
        &mut self,
        host: &mut H,
        stream: u64,
        tally: &mut Tally,
    )
        requires few { tally.old.hands < 2 ^ 16 }
        requires may { MayRunOnHost (tick_handshake stream (turning_of self.old tally.old)) (H.contents host.old) (H.faults host.old) }
        ensures count { tally.new.hands ≤ tally.old.hands + 1 }
        ensures others { tally.new ≡ record tally.old { hands = tally.new.hands } }
        ensures same { CountsFew 0 0 self.old.device self.new.device }
        ensures chain { self.new.device.chain ≡ self.old.device.chain }
        ensures calls { RunsOnHost (tick_handshake stream (turning_of self.old tally.old)) (H.contents host.old) (H.faults host.old) (turning_of self.new tally.new) (H.contents host.new) (H.faults host.new) }
    {
        if self.is_late(stream) {
            self.drop_handshake(host, stream, tally);
        }
    }

    // Whether the handshake on a stream waits too long for its line.
    fn is_late(&self, stream: u64) -> bool
        ensures { result ≡ option_map_or (λ h. is_late self.now.device.now (Some h.accepted_at)) (handshake_on stream self.now) false }
    {
        match self.handshakes.accepted_at(stream) {
            Some(moment) => self.device.now().saturating_sub(moment) >= TIMEOUT,
            None => false,
        }
    }

    // Ends the handshake on a stream without a connection: the stream is closed.
    pub(crate) fn drop_handshake<H: HostNet>(
        &mut self,
        host: &mut H,
        stream: u64,
        tally: &mut Tally,
    )
        requires few { tally.old.hands < 2 ^ 20 }
        requires may { MayRunOnHost (dropping stream (turning_of self.old tally.old)) (H.contents host.old) (H.faults host.old) }
        ensures count { tally.new.hands ≤ tally.old.hands + 1 }
        ensures others { tally.new ≡ record tally.old { hands = tally.new.hands } }
        ensures same { CountsFew 0 0 self.old.device self.new.device }
        ensures chain { self.new.device.chain ≡ self.old.device.chain }
        ensures calls { RunsOnHost (dropping stream (turning_of self.old tally.old)) (H.contents host.old) (H.faults host.old) (turning_of self.new tally.new) (H.contents host.new) (H.faults host.new) }
    {
        close(host, stream);
        self.handshakes.remove(stream);
        tally.hands += 1;
    }

    // Accepts the client that waits longest, where a place is free.
    pub(crate) fn accept_one<H: HostNet>(&mut self, host: &mut H, tally: &mut Tally)
        requires few { tally.old.hands < 2 ^ 16 }
        ensures count { tally.new.hands ≤ tally.old.hands + 1 }
        ensures others { tally.new ≡ record tally.old { hands = tally.new.hands } }
        ensures same { CountsFew 0 0 self.old.device self.new.device }
        ensures chain { self.new.device.chain ≡ self.old.device.chain }
        ensures calls { RunsOnHost (accept_one (turning_of self.old tally.old)) (H.contents host.old) (H.faults host.old) (turning_of self.new tally.new) (H.contents host.new) (H.faults host.new) }
    {
        if self.handshakes.len() >= HANDSHAKES {
            return;
        }
        match accept(host) {
            Accepted::Stream(stream) => {
                self.handshakes.accept(stream, self.device.now());
                tally.hands += 1;
            }
            Accepted::None => {}
            Accepted::Failed => self.device.count_fault(),
        }
    }
}
