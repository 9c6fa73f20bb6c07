//! Standard rings whose memory their two ends alone change.
ghost use Rattle.std.specs.Prelude.{◌≡◌, ◌≤◌, ◌<◌, IfOk};
ghost use Rattle.vs_ring_list.specs.Ends.{IsQueueSize, empty_ends};
ghost use Rattle.vs_both_ends.specs.Standard.{memory_size};

use crate::both_ends::BothEnds;
use std::alloc::{AllocError, Global};
use std::marker::Model;
use vs_guest_mem::PlainMem;
use vs_layout::queue_areas;
use vs_page::{PAGE_LEN, Page};
use vs_plain_rings::PlainRings;
use vs_plain_rings::plain_rings::laws_of_standard_rings;
use vs_ring_port::{Chain, DeviceRing, DriverRing, Next, NoDescriptor, Queue, Reaped};

/// Where the memory of standard rings begins.
pub const MEMORY_BASE: u64 = 4096;

/// Both ends of standard rings in a memory of their own, which nobody else changes (Virtio 1.2, section 2.7). Seen as the pages in flight,
/// and what each end did so far, as list rings are.
///
/// All memory is taken when they are made.
#[derive(Drop)]
pub struct StandardRings {
    rings: PlainRings,
}

impl Model for StandardRings {
    ghost use Rattle.vs_ring_list.specs.Ends.{Ends};

    ghost Value = { Ends };

    ghost use Rattle.vs_both_ends.specs.View.{ends_in, AreKnown};

    ghost view = { ends_in };

    ghost invariant = { AreKnown };
}

impl StandardRings {
    /// Rings of which each queue has `n` places, with nothing in them, the CID 3 and empty logs, in a memory that is just large enough.
    /// `n` is 8, 16, 32, 64, 128 or 256.
    ///
    /// The only error is want of memory.
    pub fn new(alloc: Global, n: u16) -> Result<StandardRings, AllocError>
        requires { IsQueueSize n }
        ensures { IfOk result (λ rings. rings ≡ empty_ends n) }
    {
        let mem = PlainMem::new(alloc, MEMORY_BASE, memory_size(n))?;
        let rings = PlainRings::new(alloc, mem, MEMORY_BASE, n, false)?;
        Ok(StandardRings { rings })
    }
}

/// How many bytes the areas of three queues of `n` places take, and behind them, from the next multiple of 4,096 on, a page for each
/// descriptor.
fn memory_size(n: u16) -> u64
    requires { IsQueueSize n }
    ensures exact { result ≡ memory_size n }
    ensures limit { result ≤ 16777216 }
{
    let page = PAGE_LEN as u64;
    let areas = queue_areas(MEMORY_BASE, n);
    areas.event.end.next_multiple_of(page) + 3 * (page * n as u64) - MEMORY_BASE
}

impl DriverRing for StandardRings {
    ghost use Rattle.std.specs.Prelude.{true};
    ghost use Rattle.vs_ring_list.specs.Ends.{driver_contents, flight_of, staged_of};

    ghost size = { λ r. r.lists.size };

    ghost flight = { flight_of };

    ghost staged = { staged_of };

    ghost contents = { driver_contents };

    ghost kicks = { λ r queue. true };

    fn size(&self) -> u16 {
        laws_of_standard_rings(&self.rings);
        DriverRing::size(&self.rings)
    }

    fn stage(&mut self, queue: Queue, page: Page) -> Result<(), (NoDescriptor, Page)> {
        laws_of_standard_rings(&self.rings);
        let answer = self.rings.stage(queue, page);
        laws_of_standard_rings(&self.rings);
        answer
    }

    fn publish(&mut self, queue: Queue) {
        laws_of_standard_rings(&self.rings);
        self.rings.publish(queue);
        laws_of_standard_rings(&self.rings);
    }

    fn reap(&mut self, queue: Queue) -> Reaped {
        laws_of_standard_rings(&self.rings);
        let answer = self.rings.reap(queue);
        laws_of_standard_rings(&self.rings);
        answer
    }

    fn cid(&mut self) -> u64 {
        laws_of_standard_rings(&self.rings);
        let cid = self.rings.cid();
        laws_of_standard_rings(&self.rings);
        cid
    }

    fn in_flight(&self, queue: Queue) -> u16 {
        laws_of_standard_rings(&self.rings);
        self.rings.in_flight(queue)
    }

    fn kick(&self, _queue: Queue) -> bool {
        true
    }
}

impl DeviceRing for StandardRings {
    ghost use Rattle.std.specs.Prelude.{true};
    ghost use Rattle.vs_ring_port.specs.Chains.{chains_of};
    ghost use Rattle.vs_ring_list.specs.Ends.{device_contents};

    ghost size = { λ r. r.lists.size };

    ghost held = { λ r. chains_of r.device.held };

    ghost contents = { device_contents };

    ghost kicks = { λ r queue. true };

    fn size(&self) -> u16 {
        laws_of_standard_rings(&self.rings);
        DeviceRing::size(&self.rings)
    }

    fn next(&mut self, queue: Queue) -> Next {
        laws_of_standard_rings(&self.rings);
        let next = self.rings.next(queue);
        laws_of_standard_rings(&self.rings);
        next
    }

    fn readable(&self, chain: &Chain) -> u64 {
        chain.readable
    }

    fn writable(&self, chain: &Chain) -> u64 {
        chain.writable
    }

    fn read(&mut self, chain: &Chain, at: u64, out: &mut [u8]) {
        laws_of_standard_rings(&self.rings);
        self.rings.read(chain, at, out);
        laws_of_standard_rings(&self.rings);
    }

    fn write(&mut self, chain: &Chain, at: u64, bytes: &[u8]) {
        laws_of_standard_rings(&self.rings);
        self.rings.write(chain, at, bytes);
        laws_of_standard_rings(&self.rings);
    }

    fn done(&mut self, chain: Chain, len: u32) {
        laws_of_standard_rings(&self.rings);
        self.rings.done(chain, len);
        laws_of_standard_rings(&self.rings);
    }

    fn given(&mut self, queue: Queue) -> u16 {
        laws_of_standard_rings(&self.rings);
        let count = self.rings.given(queue);
        laws_of_standard_rings(&self.rings);
        count
    }

    fn publish_cid(&mut self, cid: u64) {
        laws_of_standard_rings(&self.rings);
        self.rings.publish_cid(cid);
        laws_of_standard_rings(&self.rings);
    }

    fn kick(&self, _queue: Queue) -> bool {
        true
    }
}

impl BothEnds for StandardRings {
    ghost use Rattle.std.specs.Prelude.{refl};

    ghost ends = { λ rings. rings };

    fn make(alloc: Global, n: u16) -> Result<StandardRings, AllocError> {
        StandardRings::new(alloc, n)
    }

    ghost driver = { λ rings. record { size_is = refl; flight_is = refl; staged_is = refl; exposes = refl } };

    ghost device = { λ rings. record { size_is = refl; held_is = refl; exposes = refl } };
}
