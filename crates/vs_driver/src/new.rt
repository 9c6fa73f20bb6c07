//! Making a driver: its memory first, then all receive and event pages are posted (Virtio 1.2, section 5.10.6.1).

ghost use Rattle.std.specs.{Prelude.{◌≡◌, ◌≢◌, ◌<◌, ◌≤◌, [], true, length, IfOk, OnErr}, List.All};
ghost use Rattle.vs_ring_port.specs.{declared.queue.Queue.TheVariants.{Rx, Tx, Event}, Counts.{at, no_counts, with_count}};
ghost use Rattle.vs_limits.specs.declared.TheConstants.{FIRST_PORT, LAST_PORT};
ghost use Rattle.vs_driver_parts.specs.{Conversations.{new_of, new_state, post_all, posts}, Playing.{IsRingOf, MayPublishAll, Plays}};
ghost use Rattle.laws_driver.specs.Honest.{IsFresh, IsHonestWith};

use crate::driver::Driver;
use std::alloc::{AllocError, Global};
use vs_driver_parts::answers::ConnId;
use vs_driver_parts::listeners::Listeners;
use vs_driver_parts::pages::{Pages, free_pages};
use vs_driver_parts::slots::Slots;
use vs_limits::{DRIVER_REPLIES, FIRST_PORT};
use vs_page::Page;
use vs_replies::Replies;
use vs_ring_port::{DriverRing, Queue};

impl Driver {
    /// A driver on a ring of which nothing is in flight. It posts as many receive pages and as many event pages as the ring has descriptors,
    /// and loads the guest's CID. It gives guest ports from 1,024 on, and ids from 1 on. All its memory is taken here.
    ///
    /// The only error is want of memory. Then the ring is as it was.
    pub fn new<R: DriverRing>(alloc: Global, ring: &mut R) -> Result<Driver, AllocError>
        requires unused { R.flight ring.old ≡ no_counts }
        requires none_staged { R.staged ring.old ≡ no_counts }
        requires fresh { IsFresh (R.contents ring.old) }
        ensures ring { IfOk result (λ driver. IsRingOf (R.size ring.new) (R.flight ring.new) (R.staged ring.new) driver) }
        ensures calls { IfOk result (λ driver. Plays (new_of (R.size ring.old) FIRST_PORT 1) (R.contents ring.old) driver (R.contents ring.new)) }
        ensures honest { IfOk result (λ driver. IsHonestWith true driver.cid driver (R.contents ring.new)) }
        ensures same_size { R.size ring.new ≡ R.size ring.old }
        ensures same_flight { OnErr result (R.flight ring.new ≡ R.flight ring.old) }
        ensures same_contents { OnErr result (R.contents ring.new ≡ R.contents ring.old) }
    {
        Driver::new_at(alloc, ring, FIRST_PORT, 1)
    }

    /// A driver as `new` makes it, but that it gives guest ports from `port` on, which is 1,024 to 1,073,741,823, and ids from `id` on, which
    /// is at least 1.
    ///
    /// The only error is want of memory. Then the ring is as it was.
    pub fn new_at<R: DriverRing>(
        alloc: Global,
        ring: &mut R,
        port: u32,
        id: ConnId,
    ) -> Result<Driver, AllocError>
        requires unused { R.flight ring.old ≡ no_counts }
        requires none_staged { R.staged ring.old ≡ no_counts }
        requires port { (FIRST_PORT ≤ port) × (port ≤ LAST_PORT) }
        requires id { 1 ≤ id }
        requires fresh { IsFresh (R.contents ring.old) }
        ensures ring { IfOk result (λ driver. IsRingOf (R.size ring.new) (R.flight ring.new) (R.staged ring.new) driver) }
        ensures calls { IfOk result (λ driver. Plays (new_of (R.size ring.old) port id) (R.contents ring.old) driver (R.contents ring.new)) }
        ensures honest { IfOk result (λ driver. IsHonestWith true driver.cid driver (R.contents ring.new)) }
        ensures same_size { R.size ring.new ≡ R.size ring.old }
        ensures same_flight { OnErr result (R.flight ring.new ≡ R.flight ring.old) }
        ensures same_contents { OnErr result (R.contents ring.new ≡ R.contents ring.old) }
    {
        let size = ring.size();
        let mut driver = Driver::unposted(alloc, size, port, id)?;
        let packets = free_pages(alloc, size)?;
        let events = free_pages(alloc, size)?;
        driver.post_all(ring, Queue::Rx, packets);
        driver.post_all(ring, Queue::Event, events);
        driver.cid = ring.cid();
        Ok(driver)
    }

    // A driver that has posted nothing, and knows no CID.
    fn unposted(alloc: Global, size: u16, port: u32, id: ConnId) -> Result<Driver, AllocError>
        requires port { port ≤ LAST_PORT }
        ensures { IfOk result (λ driver. driver ≡ new_state size port id 0) }
    {
        Ok(Driver {
            cid: 0,
            slots: Slots::new(alloc, port, id)?,
            listeners: Listeners::new(alloc)?,
            replies: Replies::new(alloc, DRIVER_REPLIES)?,
            broken: 0,
            pages: Pages::new(alloc, size)?,
        })
    }

    // Posts pages on a queue of which none is in flight.
    fn post_all<R: DriverRing>(&mut self, ring: &mut R, queue: Queue, pages: Vec<Page>)
        requires size { self.old.size ≡ R.size ring.old }
        requires pages { length pages.items ≡ self.old.size }
        requires empty { All (λ page. page ≡ []) pages.items }
        requires not_tx { queue ≢ Tx }
        requires none { self.old.staged ≡ 0 }
        requires none_staged { R.staged ring.old ≡ no_counts }
        requires unused { at queue (R.flight ring.old) ≡ 0 }
        requires may { MayPublishAll (post_all queue self.old) (R.contents ring.old) }
        ensures same_size { R.size ring.new ≡ R.size ring.old }
        ensures flight { R.flight ring.new ≡ with_count queue (R.size ring.old) (R.flight ring.old) }
        ensures staged { R.staged ring.new ≡ no_counts }
        ensures calls { Plays (post_all queue self.old) (R.contents ring.old) self.new (R.contents ring.new) }
        ensures state { self.new ≡ self.old }
    {
        self.stage_all(ring, queue, pages);
        self.publish_staged(ring, queue);
    }

    // Stages pages on a queue of which none is in flight.
    fn stage_all<R: DriverRing>(&mut self, ring: &mut R, queue: Queue, pages: Vec<Page>)
        requires size { self.old.size ≡ R.size ring.old }
        requires pages { length pages.items ≡ self.old.size }
        requires empty { All (λ page. page ≡ []) pages.items }
        requires not_tx { queue ≢ Tx }
        requires none { self.old.staged ≡ 0 }
        requires none_staged { R.staged ring.old ≡ no_counts }
        requires unused { at queue (R.flight ring.old) ≡ 0 }
        requires may { MayPublishAll (posts queue self.old) (R.contents ring.old) }
        ensures same_size { R.size ring.new ≡ R.size ring.old }
        ensures flight { R.flight ring.new ≡ with_count queue (R.size ring.old) (R.flight ring.old) }
        ensures staged { R.staged ring.new ≡ with_count queue self.new.staged no_counts }
        ensures calls { Plays (posts queue self.old) (R.contents ring.old) self.new (R.contents ring.new) }
        ensures state { self.new ≡ record self.old { staged = self.new.staged } }
    {
        let size = self.pages.size();
        let mut pages = pages;
        for _ in 0..size {
            let page = pages.take_last();
            self.stage_page(ring, queue, page);
        }
    }
}
