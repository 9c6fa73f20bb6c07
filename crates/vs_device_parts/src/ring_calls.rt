//! The device's calls on the ring, each as it stands in a conversation.

ghost use Rattle.std.specs.Prelude.{◌≡◌, ◌<◌, ◌≤◌, ◌+◌, List, ℕ, IfSome, Contains, length, slice_index, take};
ghost use Rattle.vs_limits.specs.declared.TheConstants.{GUEST_CID_MIN, GUEST_CID_MAX};
ghost use Rattle.vs_header.specs.{Packet.header_of, declared.TheConstants.HEADER_LEN};
ghost use Rattle.vs_ring_port.specs.{Chains.{chain_of, held_after, IsLongEnough, without}, Contents.{Take, Read, Return, PublishCid}, DeviceCalls.CanReturn};
ghost use Rattle.vs_device_parts.specs.Playing.{AllowsOnRing};

use vs_header::{HEADER_LEN, Header};
use vs_ring_port::{Chain, DeviceRing, Next, Queue};

/// Takes the next chain of a queue.
pub fn take<R: DeviceRing>(ring: &mut R, queue: Queue) -> Next
    ensures calls { AllowsOnRing (Take queue) result (R.contents ring.old) (R.contents ring.new) }
    ensures held { R.held ring.new ≡ held_after result (R.held ring.old) }
    ensures queue { IfSome (chain_of result) (λ chain. chain.queue ≡ queue) }
    ensures long_enough { IfSome (chain_of result) (IsLongEnough queue) }
{
    ring.next(queue)
}

/// Reads the header of a packet that the guest sent.
pub fn read_header<R: DeviceRing>(ring: &mut R, chain: &Chain) -> Header
    requires is_held { Contains (R.held ring.old) chain.now }
    requires long_enough { HEADER_LEN ≤ chain.now.readable }
    ensures calls { (bytes : List ℕ) × AllowsOnRing (Read chain.now 0 HEADER_LEN) bytes (R.contents ring.old) (R.contents ring.new) × (result ≡ header_of bytes) }
    ensures held { R.held ring.new ≡ R.held ring.old }
{
    let mut bytes = [0; HEADER_LEN];
    ring.read(chain, 0, &mut bytes);
    are_bounded(&bytes);
    Header::decode(&bytes)
}

// A byte has 8 bits.
fn are_bounded(bytes: &[u8])
    ensures { (i : ℕ) → slice_index bytes.now i < 256 }
{}

/// Reads a payload of `len` bytes, which follows the header, into the front of `out`.
pub fn read_payload<R: DeviceRing>(ring: &mut R, chain: &Chain, len: usize, out: &mut [u8])
    requires is_held { Contains (R.held ring.old) chain.now }
    requires in_range { HEADER_LEN + len ≤ chain.now.readable }
    requires room { len ≤ length out.old }
    ensures calls { AllowsOnRing (Read chain.now HEADER_LEN len) (take len out.new) (R.contents ring.old) (R.contents ring.new) }
    ensures held { R.held ring.new ≡ R.held ring.old }
    ensures same_length { length out.new ≡ length out.old }
{
    ring.read(chain, HEADER_LEN as u64, &mut out[..len]);
}

/// Returns a chain that was read.
pub fn return_read<R: DeviceRing>(ring: &mut R, chain: Chain)
    requires is_held { Contains (R.held ring.old) chain }
    requires may { CanReturn chain 0 (R.contents ring.old) }
    ensures calls { AllowsOnRing (Return chain 0) tt (R.contents ring.old) (R.contents ring.new) }
    ensures held { R.held ring.new ≡ without chain (R.held ring.old) }
{
    ring.done(chain, 0);
}

/// Publishes the guest's CID.
pub fn publish_cid<R: DeviceRing>(ring: &mut R, cid: u64)
    requires cid { (GUEST_CID_MIN ≤ cid) × (cid ≤ GUEST_CID_MAX) }
    ensures calls { AllowsOnRing (PublishCid cid) tt (R.contents ring.old) (R.contents ring.new) }
    ensures held { R.held ring.new ≡ R.held ring.old }
{
    ring.publish_cid(cid);
}
