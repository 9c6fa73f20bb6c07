//! Pages on the ring: transmit pages that the device returned come back, and pages are staged, published and posted.

ghost use Rattle.std.specs.Prelude.{◌≡◌, ◌+◌, ◌-◌, ◌<◌, ◌≤◌, ◌++◌, [], length, true};
ghost use Rattle.vs_header.specs.Packet.{header_bytes};
ghost use Rattle.vs_page.specs.declared.page.TheConstants.{PAYLOAD_MAX};
ghost use Rattle.vs_ring_port.specs.{declared.queue.Queue.TheVariants.Tx, Counts.{at, no_counts, one_more, with_count}};
ghost use Rattle.vs_driver_parts.specs.Conversations.{reap_one, reap_all, stage_of, after_stage, publish_of, stage_packet, post_packet, one_more_in_flight, has_page};
ghost use Rattle.vs_driver_parts.specs.Playing.{IsRingOf, IsAtWork, MayPublishAll, Plays};
ghost use Rattle.vs_limits.specs.declared.TheConstants.{STAGED_MAX};

use crate::driver::Driver;
use vs_header::Header;
use vs_page::{Page, put_packet};
use vs_ring_port::{DriverRing, Queue, Reaped};

impl Driver {
    /// Takes back one transmit page, if one is in flight and the device returned one.
    pub(crate) fn reap<R: DriverRing>(&mut self, ring: &mut R) -> bool
        requires flight { (R.flight ring.old).tx ≡ self.old.in_flight }
        ensures flight { R.flight ring.new ≡ record (R.flight ring.old) { tx = self.new.in_flight } }
        ensures same_staged { R.staged ring.new ≡ R.staged ring.old }
        ensures same_size { R.size ring.new ≡ R.size ring.old }
        ensures calls { Plays (reap_one self.old) (R.contents ring.old) (self.new, result) (R.contents ring.new) }
        ensures others { self.new ≡ record self.old { in_flight = self.new.in_flight } }
    {
        if self.pages.in_flight() == 0 {
            return false;
        }
        match ring.reap(Queue::Tx) {
            Reaped::Back(page) => {
                self.pages.give_back(page);
                true
            }
            Reaped::None => false,
        }
    }

    /// Takes back all transmit pages that the device returned.
    pub(crate) fn reap_all<R: DriverRing>(&mut self, ring: &mut R)
        requires ring { IsRingOf (R.size ring.old) (R.flight ring.old) (R.staged ring.old) self.old }
        ensures ring { IsRingOf (R.size ring.new) (R.flight ring.new) (R.staged ring.new) self.new }
        ensures calls { Plays (reap_all self.old) (R.contents ring.old) self.new (R.contents ring.new) }
        ensures others { self.new ≡ record self.old { in_flight = self.new.in_flight } }
    {
        let most = self.pages.in_flight();
        for _ in 0..most {
            if !self.reap(ring) {
                return;
            }
        }
    }

    /// Posts a packet with at most 4,052 bytes of payload. A page has to be free.
    pub(crate) fn post_packet<R: DriverRing>(
        &mut self,
        ring: &mut R,
        header: &Header,
        payload: &[u8],
    )
        requires ring { IsRingOf (R.size ring.old) (R.flight ring.old) (R.staged ring.old) self.old }
        requires free { has_page self.old ≡ true }
        requires payload { length payload.now ≤ PAYLOAD_MAX }
        requires may { MayPublishAll (post_packet (header_bytes header.now ++ payload.now) self.old) (R.contents ring.old) }
        ensures ring { IsRingOf (R.size ring.new) (R.flight ring.new) (R.staged ring.new) self.new }
        ensures same_size { R.size ring.new ≡ R.size ring.old }
        ensures calls { Plays (post_packet (header_bytes header.now ++ payload.now) self.old) (R.contents ring.old) self.new (R.contents ring.new) }
        ensures state { self.new ≡ one_more_in_flight self.old }
    {
        let mut page = self.pages.take();
        put_packet(&mut page, header, payload);
        match ring.stage(Queue::Tx, page) {
            Ok(()) => ring.publish(Queue::Tx),
            Err(_) => unreachable!(),
        }
    }

    /// Posts a packet without payload. A page has to be free.
    pub(crate) fn post_header<R: DriverRing>(&mut self, ring: &mut R, header: &Header)
        requires ring { IsRingOf (R.size ring.old) (R.flight ring.old) (R.staged ring.old) self.old }
        requires free { has_page self.old ≡ true }
        requires may { MayPublishAll (post_packet (header_bytes header.now) self.old) (R.contents ring.old) }
        ensures ring { IsRingOf (R.size ring.new) (R.flight ring.new) (R.staged ring.new) self.new }
        ensures same_size { R.size ring.new ≡ R.size ring.old }
        ensures calls { Plays (post_packet (header_bytes header.now) self.old) (R.contents ring.old) self.new (R.contents ring.new) }
        ensures state { self.new ≡ one_more_in_flight self.old }
    {
        self.post_packet(ring, header, &[]);
    }

    /// Stages a transmit page with a packet without payload; 16 staged pages are published together. A page has to be free.
    pub(crate) fn stage_packet<R: DriverRing>(&mut self, ring: &mut R, header: &Header)
        requires ring { IsAtWork Tx (R.size ring.old) (R.flight ring.old) (R.staged ring.old) self.old }
        requires free { has_page self.old ≡ true }
        requires may { MayPublishAll (stage_packet (header_bytes header.now) self.old) (R.contents ring.old) }
        ensures ring { IsAtWork Tx (R.size ring.new) (R.flight ring.new) (R.staged ring.new) self.new }
        ensures same_size { R.size ring.new ≡ R.size ring.old }
        ensures calls { Plays (stage_packet (header_bytes header.now) self.old) (R.contents ring.old) self.new (R.contents ring.new) }
        ensures state { self.new ≡ record (one_more_in_flight self.old) { staged = self.new.staged } }
    {
        let mut page = self.pages.take();
        put_packet(&mut page, header, &[]);
        self.stage_page(ring, Queue::Tx, page);
    }

    /// Stages a page; 16 staged pages are published together.
    pub(crate) fn stage_page<R: DriverRing>(&mut self, ring: &mut R, queue: Queue, page: Page)
        requires room { at queue (R.flight ring.old) < R.size ring.old }
        requires staged { R.staged ring.old ≡ with_count queue self.old.staged no_counts }
        requires few { self.old.staged < STAGED_MAX }
        requires header { queue ≡ Tx → 44 ≤ length page }
        requires may { MayPublishAll (stage_of queue page self.old) (R.contents ring.old) }
        ensures flight { R.flight ring.new ≡ one_more queue (R.flight ring.old) }
        ensures staged { R.staged ring.new ≡ with_count queue self.new.staged no_counts }
        ensures few { self.new.staged < STAGED_MAX }
        ensures same_size { R.size ring.new ≡ R.size ring.old }
        ensures calls { Plays (stage_of queue page self.old) (R.contents ring.old) self.new (R.contents ring.new) }
        ensures state { self.new ≡ record self.old { staged = self.new.staged } }
    {
        match ring.stage(queue, page) {
            Ok(()) => self.count_staged(ring, queue),
            Err(_) => unreachable!(),
        }
    }

    // Counts a page as staged, and publishes all that are staged where there are 16.
    fn count_staged<R: DriverRing>(&mut self, ring: &mut R, queue: Queue)
        requires staged { R.staged ring.old ≡ with_count queue (self.old.staged + 1) no_counts }
        requires few { self.old.staged < STAGED_MAX }
        requires may { MayPublishAll (after_stage queue self.old) (R.contents ring.old) }
        ensures staged { R.staged ring.new ≡ with_count queue self.new.staged no_counts }
        ensures few { self.new.staged < STAGED_MAX }
        ensures same_flight { R.flight ring.new ≡ R.flight ring.old }
        ensures same_size { R.size ring.new ≡ R.size ring.old }
        ensures calls { Plays (after_stage queue self.old) (R.contents ring.old) self.new (R.contents ring.new) }
        ensures state { self.new ≡ record self.old { staged = self.new.staged } }
    {
        self.pages.count_staged();
        if self.pages.are_all_staged() {
            ring.publish(queue);
            self.pages.count_published();
        }
    }

    /// Publishes the pages that are staged on a queue. All pages of the ring are in flight.
    pub(crate) fn publish<R: DriverRing>(&mut self, ring: &mut R, queue: Queue)
        requires ring { IsAtWork queue (R.size ring.old) (R.flight ring.old) (R.staged ring.old) self.old }
        requires may { MayPublishAll (publish_of queue self.old) (R.contents ring.old) }
        ensures ring { IsRingOf (R.size ring.new) (R.flight ring.new) (R.staged ring.new) self.new }
        ensures same_size { R.size ring.new ≡ R.size ring.old }
        ensures calls { Plays (publish_of queue self.old) (R.contents ring.old) self.new (R.contents ring.new) }
        ensures state { self.new ≡ record self.old { staged = 0 } }
    {
        self.publish_staged(ring, queue);
    }

    /// Publishes the pages that are staged on a queue.
    pub(crate) fn publish_staged<R: DriverRing>(&mut self, ring: &mut R, queue: Queue)
        requires staged { R.staged ring.old ≡ with_count queue self.old.staged no_counts }
        requires may { MayPublishAll (publish_of queue self.old) (R.contents ring.old) }
        ensures staged { R.staged ring.new ≡ no_counts }
        ensures same_flight { R.flight ring.new ≡ R.flight ring.old }
        ensures same_size { R.size ring.new ≡ R.size ring.old }
        ensures calls { Plays (publish_of queue self.old) (R.contents ring.old) self.new (R.contents ring.new) }
        ensures state { self.new ≡ record self.old { staged = 0 } }
    {
        ring.publish(queue);
        self.pages.count_published();
    }
}
