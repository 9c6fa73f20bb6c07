//! A packet in a chain of the receive queue, and the read of a stream that gives its payload.

ghost use Rattle.std.specs.{Prelude.{◌≡◌, ◌≤◌, ◌+◌, length, Contains}, Option.ForSome};
ghost use Rattle.vs_header.specs.declared.TheConstants.{HEADER_LEN};
ghost use Rattle.vs_outside.specs.Host.{IsOpen, ReadsSome};
ghost use Rattle.vs_page.specs.declared.page.TheConstants.{PAYLOAD_MAX};
ghost use Rattle.vs_ring_port.specs.Chains.{without};
ghost use Rattle.vs_device_parts.specs.{Calls.ReadStream, Filling.bytes_read, Playing.{AllowsOnHost, MayRunOnRing, RunsOnRing}, Receiving.written};

use vs_header::{HEADER_LEN, Header};
use vs_outside::{HostNet, StreamRead};
use vs_ring_port::{Chain, DeviceRing};

/// Writes a packet into a chain, header first, and returns the chain.
pub fn write_packet<R: DeviceRing>(ring: &mut R, chain: Chain, header: &Header, payload: &[u8])
    requires is_held { Contains (R.held ring.old) chain }
    requires room { HEADER_LEN + length payload.now ≤ chain.writable }
    requires most { length payload.now ≤ PAYLOAD_MAX }
    requires may { MayRunOnRing (written chain header.now payload.now) (R.contents ring.old) }
    ensures held { R.held ring.new ≡ without chain (R.held ring.old) }
    ensures calls { RunsOnRing (written chain header.now payload.now) (R.contents ring.old) tt (R.contents ring.new) }
{
    ring.write(&chain, 0, &header.encode());
    if payload.is_empty() {
        ring.done(chain, HEADER_LEN as u32);
    } else {
        ring.write(&chain, HEADER_LEN as u64, payload);
        ring.done(chain, (HEADER_LEN + payload.len()) as u32);
    }
}

/// Reads the next bytes of an open stream into the front of `out`, at most `room` ones.
#[inline(always)]
pub fn read_into<H: HostNet>(host: &mut H, stream: u64, out: &mut [u8], room: usize) -> StreamRead
    requires open { ForSome (H.contents host.old) (IsOpen stream) }
    requires room { room ≤ length out.old }
    ensures allowed { AllowsOnHost (ReadStream stream room) (result, bytes_read result out.new) (H.contents host.old) (H.faults host.old) (H.contents host.new) (H.faults host.new) }
    ensures some { ReadsSome result room }
{
    host.read(stream, &mut out[..room])
}
