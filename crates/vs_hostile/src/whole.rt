//! The device's end of the queues in a guest's memory, seen as a whole.

ghost use Rattle.std.specs.Prelude.{◌≡◌};

use std::marker::Model;
use vs_ring_plain::device::DeviceSide;
use vs_ring_port::{Chain, DeviceRing, Next, Queue};

/// The device's end of the three queues in a guest's memory (Virtio 1.2, section 2.7), seen as a whole: what it exposes to contracts tells
/// all of its state, the bytes that no chain has too.
#[derive(Drop)]
pub struct WholeSide {
    pub(crate) side: DeviceSide,
}

impl Model for WholeSide {
    ghost use Rattle.vs_ring_plain.specs.Device.{DeviceState};

    ghost Value = { DeviceState };

    ghost view = { λ w. w.side };
}

impl WholeSide {
    /// The same end, seen as a whole.
    pub fn new(side: DeviceSide) -> WholeSide
        ensures { result ≡ side }
    {
        WholeSide { side }
    }
}

impl DeviceRing for WholeSide {
    ghost use Rattle.std.specs.Prelude.{true};
    ghost use Rattle.vs_ring_plain.specs.Device.{chains_held};
    ghost use Rattle.vs_hostile.specs.Whole.{whole_contents};

    ghost size = { λ d. d.size };

    ghost held = { chains_held };

    ghost contents = { whole_contents };

    ghost kicks = { λ r queue. true };

    fn size(&self) -> u16 {
        DeviceRing::size(&self.side)
    }

    #[tactic(auto, using(crate::proofs::Seen::allowed, crate::proofs::Seen::takes))]
    fn next(&mut self, queue: Queue) -> Next {
        self.side.take(queue)
    }

    fn readable(&self, chain: &Chain) -> u64 {
        chain.readable
    }

    fn writable(&self, chain: &Chain) -> u64 {
        chain.writable
    }

    #[tactic(auto, using(crate::proofs::Seen::allowed, crate::proofs::Seen::reads))]
    fn read(&mut self, chain: &Chain, at: u64, out: &mut [u8]) {
        self.side.read_chain(chain, at, out);
    }

    #[tactic(auto, using(crate::proofs::Seen::allowed, crate::proofs::Seen::writes))]
    fn write(&mut self, chain: &Chain, at: u64, bytes: &[u8]) {
        self.side.write_chain(chain, at, bytes);
    }

    #[tactic(auto, using(crate::proofs::Seen::allowed_return, crate::proofs::Seen::returns))]
    fn done(&mut self, chain: Chain, len: u32) {
        self.side.give_back(chain, len);
    }

    #[tactic(auto, using(crate::proofs::Seen::allowed, crate::proofs::Seen::counts))]
    fn given(&mut self, queue: Queue) -> u16 {
        self.side.given_of(queue)
    }

    // The CID doesn't lie in the guest's memory.
    #[tactic(auto, using(crate::proofs::Seen::allowed))]
    fn publish_cid(&mut self, _cid: u64) {}

    fn kick(&self, _queue: Queue) -> bool {
        true
    }
}
