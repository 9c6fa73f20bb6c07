//! The driver's side of shared rings: what an end of a name, and rings on one thread, stand on.
ghost use Rattle.std.specs.Prelude.{◌≡◌, ◌+◌, ◌<◌, ◌≤◌, length, OnOk, OnErr, IfErr, IfNone, IfSome};
ghost use Rattle.vs_page.specs.Fair.{IsFairLog};
ghost use Rattle.vs_ring_port.specs.{Counts.at, DriverCalls.HoldsPacket, EndLog.entries_published, declared.queue.{Queue.Queue, TheConstants.QUEUE_SIZE_MAX}};
ghost use Rattle.vs_ring_shared.specs.Sights.{ReapsNone, ReapsOne, LoadsNewest, after_publishing, after_staging, flight_of, sight_in};
ghost use Rattle.vs_page.specs.Log as log;

use crate::counters::{DriverCounters, events_in, packets_in};
use crate::driver_queue::{DriverQueue, publish, reap, stage};
use crate::port::Port;
use std::marker::Model;
use vs_page::Page;
use vs_ring_port::{NoDescriptor, Queue};

/// The driver's side. Seen as the table that it belongs to, the rings' size, its log and what it was told of the device's,
/// and the pages of each queue that it gave, took back and staged.
#[derive(Drop)]
pub(crate) struct DriverSide {
    pub(crate) port: Port,
    pub(crate) rx: DriverQueue,
    pub(crate) tx: DriverQueue,
    pub(crate) event: DriverQueue,
    pub(crate) counters: DriverCounters,
}

impl Model for DriverSide {
    ghost use Rattle.vs_ring_shared.specs.Sights.{Sight};

    ghost Value = { Sight };

    ghost use Rattle.vs_ring_shared.specs.Sides.{IsDriverSide, driver_sight};

    ghost view = { driver_sight };

    ghost invariant = { IsDriverSide };
}

impl DriverSide {
    /// Descriptors of each queue.
    pub fn size(&self) -> u16
        ensures value { result ≡ self.now.size }
        ensures nonzero { 0 < result }
        ensures limit { result ≤ QUEUE_SIZE_MAX }
    {
        self.port.size as u16
    }

    /// Pages of the queue that were staged and not reaped.
    pub fn in_flight(&self, queue: Queue) -> u16
        ensures value { result ≡ at queue (flight_of self.now) }
        ensures within { result ≤ self.now.size }
    {
        let free = match queue {
            Queue::Rx => self.rx.free.len(),
            Queue::Tx => self.tx.free.len(),
            Queue::Event => self.event.free.len(),
        };
        self.port.size as u16 - free as u16
    }

    /// Stages a page: it lies ready in a slot of the queue, but isn't given to the device yet.
    ///
    /// The page comes back with `NoDescriptor` exactly where as many pages of the queue are in flight, staged ones included, as it has
    /// descriptors.
    #[inline(always)]
    pub fn stage_page(&mut self, queue: Queue, page: Page) -> Result<(), (NoDescriptor, Page)>
        requires packet { queue ≡ Queue.Tx → HoldsPacket page }
        ensures ok { OnOk result (self.new ≡ after_staging queue page self.old) }
        ensures room { OnOk result (at queue (flight_of self.old) < self.old.size) }
        ensures full { OnErr result (at queue (flight_of self.old) ≡ self.old.size) }
        ensures refused { IfErr result (λ (refusal, _). refusal.in_flight ≡ self.old.size) }
        ensures page_back { IfErr result (λ (_, back). back ≡ page) }
        ensures same { OnErr result (self.new ≡ self.old) }
    {
        match queue {
            Queue::Rx => stage(&mut self.port, &mut self.rx, queue, page),
            Queue::Tx => {
                stage(&mut self.port, &mut self.tx, queue, page)?;
                self.counters.tx_offered = self.counters.tx_offered.wrapping_add(1);
                Ok(())
            }
            Queue::Event => stage(&mut self.port, &mut self.event, queue, page),
        }
    }

    /// Gives all pages staged on a queue to the device, by one store of the available index; where none is staged, by
    /// none. The log with their packets has to be fair.
    #[inline(always)]
    pub fn publish_staged(&mut self, queue: Queue)
        requires fair { IsFairLog log.Driver (entries_published queue (sight_in queue self.old).staged self.old.log) }
        ensures { self.new ≡ after_publishing queue self.old }
    {
        match queue {
            Queue::Rx => publish(&mut self.port, &mut self.rx, queue),
            Queue::Tx => {
                publish(&mut self.port, &mut self.tx, queue);
                self.counters.tx_put = self.counters.tx_offered;
            }
            Queue::Event => publish(&mut self.port, &mut self.event, queue),
        }
    }

    /// Takes back the page that the device gave back first of those not yet taken. The used index is loaded where all pages that it showed
    /// before were taken. `None` comes exactly where it then shows as many pages as were taken: all that it was told of is among them.
    #[inline(always)]
    pub fn reap_page(&mut self, queue: Queue) -> Option<Page>
        ensures none { IfNone result (ReapsNone queue self.old self.new) }
        ensures back { IfSome result (λ page. ReapsOne queue page self.old self.new) }
        ensures fair { IsFairLog log.Driver self.new.log }
    {
        match queue {
            Queue::Rx => {
                let page = reap(&mut self.port, &mut self.rx, queue)?;
                self.counters.rx_got = self.counters.rx_got.wrapping_add(packets_in(&page));
                Some(page)
            }
            Queue::Tx => reap(&mut self.port, &mut self.tx, queue),
            Queue::Event => {
                let page = reap(&mut self.port, &mut self.event, queue)?;
                self.counters.ev_got = self.counters.ev_got.wrapping_add(events_in(&page));
                Some(page)
            }
        }
    }

    /// Loads the guest's CID, the newest one that the device stored by then, and so no older than what it was told of. Once anything
    /// passed, that marks a transport reset in the log.
    pub fn load_cid(&mut self) -> u64
        ensures { LoadsNewest result self.old self.new }
    {
        self.port.load_cid()
    }
}

/// What is true of it between any two calls. Its log is fair; it took back no more pages of a queue than it gave; and at most as many are in
/// flight, staged ones included, as the queue has descriptors.
pub(crate) fn laws_of_driver_side(side: &DriverSide)
    ensures size { (0 < side.now.size) × (side.now.size ≤ QUEUE_SIZE_MAX) }
    ensures fair { IsFairLog log.Driver side.now.log }
    ensures taken { (queue : Queue) → let q = sight_in queue side.now in length q.got ≤ length q.put }
    ensures in_flight { (queue : Queue) → let q = sight_in queue side.now in length q.put + length q.staged ≤ length q.got + side.now.size }
{
    let _size = side.port.size;
}
