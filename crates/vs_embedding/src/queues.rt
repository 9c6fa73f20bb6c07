//! A monitor's own virtqueues as the device's end of the rings.

ghost use Rattle.std.specs.{Prelude.{◌≡◌, ◌<◌, ◌≤◌, ◌*◌, ℕ, [], length, IfOk, IfSome, IsNone, Contains}, List.position};
ghost use Rattle.vs_ring_port.specs.{declared.queue.TheConstants.QUEUE_SIZE_MAX, Chains.{chain_of, held_after, IsLongEnough, same_chain, without}};

use std::alloc::{AllocError, Global};
use std::collections::VecDeque;
use std::marker::Model;
use vs_header::HEADER_LEN;
use vs_ring_port::{Chain, DeviceRing, Failure, Next, Queue};

/// What a monitor's implementation of the split virtqueue does (Virtio 1.2, section 2.7). A chain is named by its queue and by the place
/// of its entry in the available ring. Nothing is promised of what stands in the guest's memory, now or later.
pub trait Virtqueues: Drop {
    /// Takes the next available chain: it checks the index, the entry and each descriptor, once each.
    fn pop(&mut self, queue: Queue) -> Popped;

    /// Copies bytes of a chain's device-readable descriptors, from place `at` on.
    fn read(&mut self, queue: Queue, place: u16, at: u64, out: &mut [u8]);

    /// Copies bytes into a chain's device-writable descriptors, from place `at` on.
    fn write(&mut self, queue: Queue, place: u16, at: u64, bytes: &[u8]);

    /// Puts a chain into the used ring with the number of bytes written, and then stores the used index.
    fn push_used(&mut self, queue: Queue, place: u16, len: u32);

    /// How many chains are available and not returned.
    fn waiting(&mut self, queue: Queue) -> u16;

    /// Writes the guest's CID into the configuration.
    fn set_cid(&mut self, cid: u64);
}

/// What a monitor's virtqueue has next.
#[derive(Clone, Copy, Debug, PartialEq, Eq)]
pub enum Popped {
    /// A chain, with how many bytes may be read from it and written into it.
    Chain {
        place: u16,
        readable: u64,
        writable: u64,
    },
    /// None is available.
    None,
    /// The guest broke a rule of the ring.
    Failed(Failure),
}

/// The device's end over a monitor's virtqueues. It exposes nothing of the guest's memory to contracts, and keeps only which chains the
/// device holds: at most as many as the three queues have descriptors.
#[derive(Drop)]
pub struct MonitorRing<V> {
    queues: V,
    size: u16,
    held: VecDeque<Chain>,
}

impl<V> Model for MonitorRing<V> {
    ghost use Rattle.std.specs.{Prelude.{◌<◌, ◌≤◌, ◌*◌}, VecDeque.deque_capacity};
    ghost use Rattle.vs_ring_port.specs.declared.queue.TheConstants.{QUEUE_SIZE_MAX};
    ghost use Rattle.vs_embedding.specs.Ring.{RingState};

    ghost Value = { RingState };

    ghost view = { λ r. record { size = r.size; held = r.held.items; room = deque_capacity r.held } };

    ghost invariant = { λ r. (0 < r.size) × (r.size ≤ QUEUE_SIZE_MAX) };
}

impl<V: Virtqueues> MonitorRing<V> {
    /// The ring over these virtqueues of `size` descriptors each, 1 to 32,768. The only error is want of memory.
    pub fn new(alloc: Global, queues: V, size: u16) -> Result<MonitorRing<V>, AllocError>
        requires nonzero { 0 < size }
        requires limit { size ≤ QUEUE_SIZE_MAX }
        ensures { IfOk result (λ ring. ring ≡ record { size = size; held = []; room = 3 * size }) }
    {
        let held = VecDeque::with_capacity(alloc, 3 * size as usize)?;
        Ok(MonitorRing { queues, size, held })
    }

    /// The virtqueues.
    pub fn queues(&self) -> &V {
        &self.queues
    }

    /// The virtqueues. The chains that the device held are let go: they don't come back to the guest.
    pub fn into_queues(self) -> V {
        self.queues
    }
}

impl<V: Virtqueues> DeviceRing for MonitorRing<V> {
    ghost use Rattle.std.specs.Prelude.{true};
    ghost use Rattle.vs_embedding.specs.Ring.{silent};

    ghost size = { λ r. r.size };

    ghost held = { λ r. r.held };

    ghost contents = { λ _. silent };

    ghost kicks = { λ r queue. true };

    fn size(&self) -> u16 {
        self.size
    }

    fn next(&mut self, queue: Queue) -> Next {
        if self.held.len() == self.held.capacity() {
            return Next::None;
        }
        match self.queues.pop(queue) {
            Popped::Chain {
                place,
                readable,
                writable,
            } => self.hold(queue, place, readable, writable),
            Popped::None => Next::None,
            Popped::Failed(failure) => Next::Failed(failure),
        }
    }

    fn readable(&self, chain: &Chain) -> u64 {
        chain.readable
    }

    fn writable(&self, chain: &Chain) -> u64 {
        chain.writable
    }

    fn read(&mut self, chain: &Chain, at: u64, out: &mut [u8]) {
        self.queues.read(chain.queue, chain.place, at, out);
    }

    fn write(&mut self, chain: &Chain, at: u64, bytes: &[u8]) {
        self.queues.write(chain.queue, chain.place, at, bytes);
    }

    fn done(&mut self, chain: Chain, len: u32) {
        self.queues.push_used(chain.queue, chain.place, len);
        self.release(&chain);
    }

    fn given(&mut self, queue: Queue) -> u16 {
        self.queues.waiting(queue).min(self.size)
    }

    fn publish_cid(&mut self, cid: u64) {
        self.queues.set_cid(cid);
    }

    fn kick(&self, _queue: Queue) -> bool {
        true
    }
}

impl<V: Virtqueues> MonitorRing<V> {
    // Holds a chain that is long enough for its queue; a shorter one is a failure of the ring.
    fn hold(&mut self, queue: Queue, place: u16, readable: u64, writable: u64) -> Next
        requires room { length self.old.held < self.old.room }
        ensures held { self.new ≡ record self.old { held = held_after result self.old.held } }
        ensures queue { IfSome (chain_of result) (λ chain. chain.queue ≡ queue) }
        ensures long_enough { IfSome (chain_of result) (IsLongEnough queue) }
    {
        match too_short(queue, readable, writable) {
            Some(failure) => Next::Failed(failure),
            None => {
                self.held
                    .push_front_reserved(chain(queue, place, readable, writable));
                Next::Chain(chain(queue, place, readable, writable))
            }
        }
    }

    // Lets go of a chain.
    fn release(&mut self, chain: &Chain)
        requires { Contains self.old.held chain.now }
        ensures { self.new ≡ record self.old { held = without chain.now self.old.held } }
    {
        let place = find(&self.held, chain).unwrap();
        let _returned = self.held.remove(place).unwrap();
    }
}

// The place of the newest hold of that very chain, where it is held.
fn find(held: &VecDeque<Chain>, chain: &Chain) -> Option<usize>
    ensures { result ≡ position (same_chain chain.now) held.now.items }
{
    held.iter().position(|held| *chain == *held)
}

// A chain of a queue.
fn chain(queue: Queue, place: u16, readable: u64, writable: u64) -> Chain
    ensures { result ≡ record { queue = queue; place = place; readable = readable; writable = writable } }
{
    Chain {
        queue,
        place,
        readable,
        writable,
    }
}

// What is wrong with a chain that is too short for its queue: a packet's header has 44 bytes, a receive chain needs a byte more, an event
// has 4.
fn too_short(queue: Queue, readable: u64, writable: u64) -> Option<Failure>
    ensures { IsNone result → (place : ℕ) → IsLongEnough queue (record { queue = queue; place = place; readable = readable; writable = writable }) }
{
    match queue {
        Queue::Tx if readable < HEADER_LEN as u64 => Some(Failure::TxShort { readable }),
        Queue::Rx if writable <= HEADER_LEN as u64 => Some(Failure::RxSmall { writable }),
        Queue::Event if writable < 4 => Some(Failure::EventSmall { writable }),
        _ => None,
    }
}
