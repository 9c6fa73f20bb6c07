//! The driver's end of a ring of pages in memory, which counts the stores of the available index, and returns the pages that it is given.

ghost use Rattle.std.specs.Prelude.{◌≡◌, ◌+◌, ◌<◌, ◌≤◌, IfErr, IfNone, OnErr, OnOk, OnSome};
ghost use Rattle.vs_ring_port.specs.DriverCalls.{page_of};

use arrayvec::ArrayVec;
use std::marker::Model;
use vs_page::Page;
use vs_ring_port::{DriverRing, NoDescriptor, Queue, Reaped};

/// The pages of a queue of 32 places: those in flight, those of them that are staged, those that each of the first eight stores of the
/// available index gave, and those that the device returns, once they are in flight.
#[derive(Drop)]
pub(crate) struct Pages {
    in_flight: u16,
    staged: u16,
    stores: ArrayVec<u16, 8>,
    returned: Vec<Page>,
}

impl Model for Pages {
    ghost use Rattle.std.specs.Prelude.{◌≤◌, ℕ};

    ghost Value = { ℕ × ℕ };

    ghost view = { λ p. (p.in_flight, p.staged) };

    ghost invariant = { λ p. p.in_flight ≤ 32 };
}

impl Pages {
    pub(crate) fn new(returned: Vec<Page>) -> Pages
        ensures { result ≡ (0, 0) }
    {
        Pages {
            in_flight: 0,
            staged: 0,
            stores: ArrayVec::new(),
            returned,
        }
    }

    /// How many pages each of the first eight stores gave.
    pub(crate) fn stores(&self) -> &[u16] {
        self.stores.as_slice()
    }

    fn stage(&mut self, page: Page) -> Result<(), (NoDescriptor, Page)>
        requires { self.old.1 < 16 }
        ensures staged { OnOk result ((self.old.0 < 32) × (self.new ≡ (self.old.0 + 1, self.old.1 + 1))) }
        ensures full { OnErr result ((self.old.0 ≡ 32) × (self.new ≡ self.old)) }
        ensures page_back { IfErr result (λ (refusal, back). (refusal.in_flight ≡ 32) × (back ≡ page)) }
    {
        if self.in_flight == 32 {
            return Err((NoDescriptor { in_flight: 32 }, page));
        }
        self.in_flight += 1;
        self.staged += 1;
        Ok(())
    }

    fn publish(&mut self)
        ensures { self.new ≡ (self.old.0, 0) }
    {
        if self.staged != 0 {
            let _noted = self.stores.try_push(self.staged);
        }
        self.staged = 0;
    }

    fn reap(&mut self) -> Reaped
        ensures back { OnSome (page_of result) ((self.old ≡ (self.new.0 + 1, self.new.1)) × (self.old.1 < self.old.0)) }
        ensures none { IfNone (page_of result) (self.new ≡ self.old) }
        ensures within { self.old.0 ≤ 32 }
    {
        if self.staged >= self.in_flight {
            return Reaped::None;
        }
        match self.returned.pop() {
            Some(page) => {
                self.in_flight -= 1;
                Reaped::Back(page)
            }
            None => Reaped::None,
        }
    }
}

/// The driver's end of a ring that counts the stores.
#[derive(Drop)]
pub(crate) struct CountingRing {
    pub(crate) rx: Pages,
    pub(crate) tx: Pages,
    pub(crate) event: Pages,
}

impl DriverRing for CountingRing {
    ghost use Rattle.std.specs.Prelude.{None, false, true};

    ghost size = { λ r. 32 };

    ghost flight = { λ r. record { rx = r.rx.0; tx = r.tx.0; event = r.event.0 } };

    ghost staged = { λ r. record { rx = r.rx.1; tx = r.tx.1; event = r.event.1 } };

    ghost contents = { λ r. record { lists = None; log = None; other = None; plain = None; known = None; honest = false } };

    ghost kicks = { λ r queue. true };

    fn size(&self) -> u16 {
        32
    }

    fn stage(&mut self, queue: Queue, page: Page) -> Result<(), (NoDescriptor, Page)> {
        match queue {
            Queue::Rx => self.rx.stage(page),
            Queue::Tx => self.tx.stage(page),
            Queue::Event => self.event.stage(page),
        }
    }

    fn publish(&mut self, queue: Queue) {
        match queue {
            Queue::Rx => self.rx.publish(),
            Queue::Tx => self.tx.publish(),
            Queue::Event => self.event.publish(),
        }
    }

    fn reap(&mut self, queue: Queue) -> Reaped {
        match queue {
            Queue::Rx => self.rx.reap(),
            Queue::Tx => self.tx.reap(),
            Queue::Event => self.event.reap(),
        }
    }

    fn cid(&mut self) -> u64 {
        3
    }

    fn in_flight(&self, queue: Queue) -> u16 {
        match queue {
            Queue::Rx => self.rx.in_flight,
            Queue::Tx => self.tx.in_flight,
            Queue::Event => self.event.in_flight,
        }
    }

    fn kick(&self, _queue: Queue) -> bool {
        true
    }
}
