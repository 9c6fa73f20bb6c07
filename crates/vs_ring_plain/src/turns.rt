//! How many chains of each queue the device took and returned.
ghost use Rattle.std.specs.Prelude.{◌≡◌};
ghost use Rattle.vs_ring_plain.specs.Device.{one_returned, one_taken, turns_at};

use vs_ring_port::Queue;

/// Chains of a queue that the device took so far, and those that it returned, each modulo 2^16 (Virtio 1.2, sections 2.7.6 and 2.7.8).
#[derive(Clone, Copy, Debug, PartialEq, Eq)]
pub struct Turns {
    /// Chains taken: the index of the available ring at which the next one stands.
    pub taken: u16,
    /// Chains returned: the index of the used ring.
    pub used: u16,
}

/// The same of the three queues.
#[derive(Clone, Copy, Debug, PartialEq, Eq)]
pub struct QueueTurns {
    pub rx: Turns,
    pub tx: Turns,
    pub event: Turns,
}

impl QueueTurns {
    /// Those of a queue.
    pub fn at(&self, queue: Queue) -> Turns
        ensures { result ≡ turns_at queue self.now }
    {
        match queue {
            Queue::Rx => self.rx,
            Queue::Tx => self.tx,
            Queue::Event => self.event,
        }
    }

    /// One more chain of a queue is taken.
    pub fn take(&mut self, queue: Queue)
        ensures { self.new ≡ one_taken queue self.old }
    {
        match queue {
            Queue::Rx => self.rx.taken = self.rx.taken.wrapping_add(1),
            Queue::Tx => self.tx.taken = self.tx.taken.wrapping_add(1),
            Queue::Event => self.event.taken = self.event.taken.wrapping_add(1),
        }
    }

    /// One more chain of a queue is returned.
    pub fn give_back(&mut self, queue: Queue)
        ensures { self.new ≡ one_returned queue self.old }
    {
        match queue {
            Queue::Rx => self.rx.used = self.rx.used.wrapping_add(1),
            Queue::Tx => self.tx.used = self.tx.used.wrapping_add(1),
            Queue::Event => self.event.used = self.event.used.wrapping_add(1),
        }
    }
}
