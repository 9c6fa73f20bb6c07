//! The device's end of the three queues in a guest's memory.
ghost use Rattle.std.specs.Prelude.{◌≡◌, ◌<◌, ◌≤◌, IfOk, Contains, length, ◌+◌, ◌^◌, IsTrue, IfErr, OnErr, OnOk, is_ok};
ghost use Rattle.vs_guest_mem.specs.Memory.{after_write, bytes_at, is_inside};
ghost use Rattle.vs_ring_port.specs.{declared.queue.{Queue.Queue, TheConstants.QUEUE_SIZE_MAX}, Contents.{Take, Read, Write, Return, Given}};
ghost use Rattle.vs_layout.specs.Layout.{AreInside};
ghost use Rattle.vs_ring_plain.specs.{Device.{SamePlace, answer_to, areas_at, chains_held, cleared_used, new_device, with_change, with_memory}, Take.whole};

use crate::access::{count_given, read_pieces, return_chain, write_pieces};
use crate::holds::HeldChains;
use crate::take::PlainQueue;
use crate::turns::{QueueTurns, Turns};
use std::alloc::{AllocError, Global};
use std::marker::Model;
use vs_guest_mem::{AddrRange, PlainMem};
use vs_layout::{Areas, QueueAreas};
use vs_ring_port::{Chain, DeviceRing, Next, Queue};

/// The device's end of the three queues in a guest's memory (Virtio 1.2, section 2.7), whatever lies in it and whoever writes there. Of
/// each queue it holds as many chains as that has places, but only one that has several pieces: until one of those is returned, `next`
/// finds no other there.
///
/// Seen as the memory, where the queues lie, how many chains of each were taken and returned, and the chains held with their pieces.
/// All memory is taken when it is made.
#[derive(Drop)]
pub struct DeviceSide {
    mem: PlainMem,
    size: u16,
    areas: QueueAreas,
    indirect: bool,
    turns: QueueTurns,
    held: HeldChains,
}

impl Model for DeviceSide {
    ghost use Rattle.vs_ring_plain.specs.Device.{DeviceState};

    ghost Value = { DeviceState };

    ghost use Rattle.vs_ring_plain.specs.Side.{state_in, IsInOrder};

    ghost view = { state_in };

    ghost invariant = { IsInOrder };
}

impl DeviceSide {
    /// The device's end of queues of `n` descriptors each in a memory, from which no chain was taken. `indirect` says whether indirect
    /// descriptors were agreed on.
    ///
    /// The only error is want of memory.
    pub fn new(
        alloc: Global,
        mem: PlainMem,
        areas: QueueAreas,
        n: u16,
        indirect: bool,
    ) -> Result<DeviceSide, AllocError>
        requires nonzero { 0 < n }
        requires limit { n ≤ QUEUE_SIZE_MAX }
        requires rx_inside { AreInside areas.rx n (whole mem) }
        requires tx_inside { AreInside areas.tx n (whole mem) }
        requires event_inside { AreInside areas.event n (whole mem) }
        ensures { IfOk result (λ d. d ≡ new_device mem n areas indirect) }
    {
        let none = Turns { taken: 0, used: 0 };
        Ok(DeviceSide {
            mem,
            size: n,
            areas,
            indirect,
            turns: QueueTurns {
                rx: none,
                tx: none,
                event: none,
            },
            held: HeldChains::new(alloc, n)?,
        })
    }

    /// The memory.
    pub fn mem(&self) -> &PlainMem
        ensures { result.now ≡ self.now.memory }
    {
        &self.mem
    }

    /// Where the queues lie: all of their areas are in the memory.
    pub fn areas(&self) -> QueueAreas
        ensures value { result ≡ self.now.areas }
        ensures inside { (queue : Queue) → AreInside (areas_at queue self.now.areas) self.now.size (whole self.now.memory) }
        ensures fits { self.now.memory.base + length self.now.memory.bytes < 2 ^ 64 }
        ensures nonzero { 0 < self.now.size }
        ensures limit { self.now.size ≤ QUEUE_SIZE_MAX }
    {
        let _fits = self.mem.size();
        self.areas
    }

    /// Writes bytes, all of them inside the memory, as the driver does: without an access of the device.
    pub fn set(&mut self, addr: u64, bytes: &[u8])
        requires inside { IsTrue (is_inside self.old.memory addr (length bytes.now)) }
        ensures written { self.new ≡ with_memory self.old (after_write self.old.memory addr bytes.now) }
        ensures place { SamePlace self.old self.new }
    {
        let _written = self.mem.poke(addr, bytes);
    }

    /// Reads bytes, all of them inside the memory, as the driver does: without an access of the device.
    pub fn get(&self, addr: u64, out: &mut [u8])
        requires inside { IsTrue (is_inside self.now.memory addr (length out.old)) }
        ensures { out.new ≡ bytes_at self.now.memory addr (length out.old) }
    {
        let _read = self.mem.look(addr, out);
    }

    /// Writes what the device owns of a queue's used ring beside the elements, as it stands before the first call: flags, index and
    /// `avail_event` are 0 (Virtio 1.2, sections 2.7.8 and 2.7.10). No access is counted.
    pub fn clear(&mut self, queue: Queue)
        ensures memory { let d = self.old in self.new ≡ with_memory d (cleared_used (areas_at queue d.areas) d.size d.memory) }
        ensures place { SamePlace self.old self.new }
    {
        let _fits = self.areas();
        let areas = queue_in(queue, self.size, &self.areas, self.indirect).areas;
        self.set(areas.used, &[0, 0]);
        self.set(areas.used_idx_at(), &[0, 0]);
        self.set(areas.avail_event_at(self.size), &[0, 0]);
    }

    /// Writes bytes as somebody else does, without an access of the device. `AddrRange` where a byte lies outside the memory; all is as
    /// before then.
    pub fn poke(&mut self, addr: u64, bytes: &[u8]) -> Result<(), AddrRange>
        ensures ok { is_ok result ≡ is_inside self.old.memory addr (length bytes.now) }
        ensures written { OnOk result (self.new ≡ with_memory self.old (after_write self.old.memory addr bytes.now)) }
        ensures err { IfErr result (λ e. e ≡ record { addr = addr; len = length bytes.now }) }
        ensures unchanged { OnErr result (self.new ≡ self.old) }
        ensures place { SamePlace self.old self.new }
    {
        self.mem.poke(addr, bytes)
    }

    /// Adds a change: bytes that somebody else writes before the nth access of the device from now on, 1 being the next one. Takes
    /// memory; without it all is as before.
    pub fn change_before(
        &mut self,
        alloc: Global,
        nth: u64,
        addr: u64,
        bytes: &[u8],
    ) -> Result<(), AllocError>
        requires later { 1 ≤ nth }
        requires inside { IsTrue (is_inside self.old.memory addr (length bytes.now)) }
        ensures ok { OnOk result (self.new ≡ with_memory self.old (with_change self.old.memory record {
          nth = nth;
          addr = addr;
          bytes = bytes.now;
        })) }
        ensures err { OnErr result (self.new ≡ self.old) }
        ensures place { SamePlace self.old self.new }
    {
        self.mem.change_before(alloc, nth, addr, bytes)
    }

    /// Takes the next chain of a queue. Where as many are held as it has places, or one that has several pieces, there is none, and no
    /// access is made.
    pub fn take(&mut self, queue: Queue) -> Next
        ensures exact { answer_to (Take queue) self.old ≡ (result, self.new) }
        ensures place { SamePlace self.old self.new }
    {
        if self.held.is_busy(queue) {
            return Next::None;
        }
        let ring = queue_in(queue, self.size, &self.areas, self.indirect);
        let taken = self.turns.at(queue).taken;
        match self.held.take(&mut self.mem, &ring, taken) {
            Ok(None) => Next::None,
            Err(failure) => Next::Failed(failure),
            Ok(Some(chain)) => {
                self.turns.take(queue);
                Next::Chain(chain)
            }
        }
    }

    /// Reads the bytes of a chain from place `at` on: one access for each piece that they lie in.
    pub fn read_chain(&mut self, chain: &Chain, at: u64, out: &mut [u8])
        requires is_held { Contains (chains_held self.old) chain.now }
        requires in_range { at + length out.old ≤ chain.now.readable }
        ensures exact { answer_to (Read chain.now at (length out.old)) self.old ≡ (out.new, self.new) }
        ensures place { SamePlace self.old self.new }
    {
        read_pieces(&mut self.mem, self.held.pieces(chain), at, out);
    }

    /// Writes into a chain from place `at` on: one access for each piece that the bytes lie in.
    pub fn write_chain(&mut self, chain: &Chain, at: u64, bytes: &[u8])
        requires is_held { Contains (chains_held self.old) chain.now }
        requires in_range { at + length bytes.now ≤ chain.now.writable }
        ensures exact { answer_to (Write chain.now at bytes.now) self.old ≡ (tt, self.new) }
        ensures place { SamePlace self.old self.new }
    {
        write_pieces(&mut self.mem, self.held.pieces(chain), at, bytes);
    }

    /// Returns a chain into which `len` bytes were written: the used element, then the index of the used ring, one access each.
    pub fn give_back(&mut self, chain: Chain, len: u32)
        requires is_held { Contains (chains_held self.old) chain }
        ensures exact { answer_to (Return chain len) self.old ≡ (tt, self.new) }
        ensures place { SamePlace self.old self.new }
    {
        let queue = chain.queue;
        let ring = queue_in(queue, self.size, &self.areas, self.indirect);
        let head = self.held.release(&chain);
        return_chain(&mut self.mem, &ring, self.turns.at(queue).used, head, len);
        self.turns.give_back(queue);
    }

    /// How many chains of a queue are given and not returned, by the index of the available ring: one access. No more than the queue has
    /// places.
    pub fn given_of(&mut self, queue: Queue) -> u16
        ensures exact { answer_to (Given queue) self.old ≡ (result, self.new) }
        ensures place { SamePlace self.old self.new }
        ensures within { result ≤ self.old.size }
    {
        let ring = queue_in(queue, self.size, &self.areas, self.indirect);
        count_given(&mut self.mem, &ring, self.turns.at(queue).used)
    }
}

// The queue in the memory.
fn queue_in(queue: Queue, n: u16, areas: &QueueAreas, indirect: bool) -> PlainQueue
    ensures { result ≡ record { queue = queue; n = n; areas = areas_at queue areas.now; indirect = indirect } }
{
    let areas = match queue {
        Queue::Rx => areas.rx,
        Queue::Tx => areas.tx,
        Queue::Event => areas.event,
    };
    PlainQueue {
        queue,
        n,
        areas,
        indirect,
    }
}

impl DeviceRing for DeviceSide {
    ghost use Rattle.std.specs.Prelude.{true};
    ghost use Rattle.vs_ring_plain.specs.Device.{chains_held, contents_of};

    ghost size = { λ d. d.size };

    ghost held = { chains_held };

    ghost contents = { contents_of };

    ghost kicks = { λ r queue. true };

    fn size(&self) -> u16 {
        self.size
    }

    #[tactic(auto, using(crate::proofs::Calls::allowed, crate::proofs::Calls::takes_by))]
    fn next(&mut self, queue: Queue) -> Next {
        self.take(queue)
    }

    fn readable(&self, chain: &Chain) -> u64 {
        chain.readable
    }

    fn writable(&self, chain: &Chain) -> u64 {
        chain.writable
    }

    #[tactic(auto, using(crate::proofs::Calls::allowed, crate::proofs::Calls::reads_by))]
    fn read(&mut self, chain: &Chain, at: u64, out: &mut [u8]) {
        self.read_chain(chain, at, out);
    }

    #[tactic(auto, using(crate::proofs::Calls::allowed, crate::proofs::Calls::writes_by))]
    fn write(&mut self, chain: &Chain, at: u64, bytes: &[u8]) {
        self.write_chain(chain, at, bytes);
    }

    #[tactic(auto, using(crate::proofs::Calls::allowed, crate::proofs::Calls::returns_by))]
    fn done(&mut self, chain: Chain, len: u32) {
        self.give_back(chain, len);
    }

    #[tactic(auto, using(crate::proofs::Calls::allowed, crate::proofs::Calls::counts_by))]
    fn given(&mut self, queue: Queue) -> u16 {
        self.given_of(queue)
    }

    // The CID doesn't lie in the guest's memory.
    #[tactic(auto, using(crate::proofs::Calls::allowed))]
    fn publish_cid(&mut self, _cid: u64) {}

    fn kick(&self, _queue: Queue) -> bool {
        true
    }
}
