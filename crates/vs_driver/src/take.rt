//! The first stages of a poll: events and packets are taken from the ring, and their pages given back to it.

ghost use Rattle.std.specs.Prelude.{◌≡◌, ◌+◌, ◌-◌, ◌<◌, ◌≤◌, ◌==◌, [], length, false, true, ◌^◌};
ghost use Rattle.vs_ring_port.specs.{declared.queue.Queue.TheVariants.{Rx, Tx, Event}, Counts.{at, no_counts, one_more, with_count}};
ghost use Rattle.vs_driver_parts.specs.{Conversations.{take_all, all_taken, take_event, take_packet, event_taken, stage_of, round_of}, Receiving.is_reset_event, Playing.IsRingOf};
ghost use Rattle.vs_driver_parts.specs.Playing.{IsAtWork, MayPublishAll, Plays, SamePages};
ghost use Rattle.vs_limits.specs.declared.TheConstants.{DRIVER_REPLIES_FULL, STAGED_MAX};

use crate::driver::Driver;
use byteorder::{ByteOrder, LittleEndian};
use vs_driver_parts::tally::Tally;
use vs_limits::DRIVER_REPLIES_FULL;
use vs_page::Page;
use vs_ring_port::{DriverRing, Queue, Reaped};

impl Driver {
    /// Takes events, while 64 or fewer replies are owed, and publishes their pages again.
    pub(crate) fn take_events<R: DriverRing>(&mut self, ring: &mut R) -> Tally
        requires ring { IsRingOf (R.size ring.old) (R.flight ring.old) (R.staged ring.old) self.old }
        requires may { MayPublishAll (take_all Event take_event self.old) (R.contents ring.old) }
        ensures ring { IsRingOf (R.size ring.new) (R.flight ring.new) (R.staged ring.new) self.new }
        ensures calls { Plays (take_all Event take_event self.old) (R.contents ring.old) (round_of self.new result) (R.contents ring.new) }
    {
        let tally = self.stage_events(ring);
        self.publish(ring, Queue::Event);
        tally
    }

    // Takes events, and stages their pages again.
    fn stage_events<R: DriverRing>(&mut self, ring: &mut R) -> Tally
        requires ring { IsRingOf (R.size ring.old) (R.flight ring.old) (R.staged ring.old) self.old }
        requires may { MayPublishAll (all_taken take_event self.old) (R.contents ring.old) }
        ensures ring { IsAtWork Event (R.size ring.new) (R.flight ring.new) (R.staged ring.new) self.new }
        ensures calls { Plays (all_taken take_event self.old) (R.contents ring.old) (round_of self.new result) (R.contents ring.new) }
    {
        let most = self.pages.size();
        let mut tally = Tally::none();
        for _ in 0..most {
            if !self.take_event(ring, &mut tally) {
                return tally;
            }
        }
        tally
    }

    /// Takes an event, and stages its page again. False where none is taken.
    pub(crate) fn take_event<R: DriverRing>(&mut self, ring: &mut R, tally: &mut Tally) -> bool
        requires ring { IsAtWork Event (R.size ring.old) (R.flight ring.old) (R.staged ring.old) self.old }
        requires few { tally.old.count < 2 ^ 16 }
        requires may { MayPublishAll (take_event (round_of self.old tally.old)) (R.contents ring.old) }
        ensures ring { IsAtWork Event (R.size ring.new) (R.flight ring.new) (R.staged ring.new) self.new }
        ensures same_size { R.size ring.new ≡ R.size ring.old }
        ensures calls { Plays (take_event (round_of self.old tally.old)) (R.contents ring.old) (round_of self.new tally.new, result) (R.contents ring.new) }
        ensures count { tally.new.count ≤ tally.old.count + 1 }
    {
        if self.replies.len() > DRIVER_REPLIES_FULL {
            return false;
        }
        match ring.reap(Queue::Event) {
            Reaped::Back(page) => {
                self.on_event(ring, &page, tally);
                self.stage_empty(ring, Queue::Event, page);
                true
            }
            Reaped::None => false,
        }
    }

    // Takes a page of the event queue. At a transport reset the guest's CID is loaded.
    fn on_event<R: DriverRing>(&mut self, ring: &mut R, page: &Page, tally: &mut Tally)
        requires few { tally.old.count < 2 ^ 16 }
        requires replies { length self.old.replies ≤ DRIVER_REPLIES_FULL }
        ensures same_flight { R.flight ring.new ≡ R.flight ring.old }
        ensures same_staged { R.staged ring.new ≡ R.staged ring.old }
        ensures same_size { R.size ring.new ≡ R.size ring.old }
        ensures pages { SamePages self.old self.new }
        ensures calls { Plays (event_taken page.now (round_of self.old tally.old)) (R.contents ring.old) (round_of self.new tally.new) (R.contents ring.new) }
        ensures count { tally.new.count ≡ tally.old.count + 1 }
    {
        if !is_reset_event(page) {
            tally.count += 1;
            return;
        }
        let cid = ring.cid();
        self.reset(cid);
        tally.count += 1;
        tally.reset = true;
    }

    /// Takes packets, while fewer than 64 replies are owed, and publishes their pages again.
    pub(crate) fn take_packets<R: DriverRing>(&mut self, ring: &mut R) -> Tally
        requires ring { IsRingOf (R.size ring.old) (R.flight ring.old) (R.staged ring.old) self.old }
        requires may { MayPublishAll (take_all Rx take_packet self.old) (R.contents ring.old) }
        ensures ring { IsRingOf (R.size ring.new) (R.flight ring.new) (R.staged ring.new) self.new }
        ensures calls { Plays (take_all Rx take_packet self.old) (R.contents ring.old) (round_of self.new result) (R.contents ring.new) }
    {
        let tally = self.stage_packets(ring);
        self.publish(ring, Queue::Rx);
        tally
    }

    // Takes packets, and stages their pages again.
    fn stage_packets<R: DriverRing>(&mut self, ring: &mut R) -> Tally
        requires ring { IsRingOf (R.size ring.old) (R.flight ring.old) (R.staged ring.old) self.old }
        requires may { MayPublishAll (all_taken take_packet self.old) (R.contents ring.old) }
        ensures ring { IsAtWork Rx (R.size ring.new) (R.flight ring.new) (R.staged ring.new) self.new }
        ensures calls { Plays (all_taken take_packet self.old) (R.contents ring.old) (round_of self.new result) (R.contents ring.new) }
    {
        let most = self.pages.size();
        let mut tally = Tally::none();
        for _ in 0..most {
            if !self.take_packet(ring, &mut tally) {
                return tally;
            }
        }
        tally
    }

    /// Takes a packet, and stages its page again. False where none is taken.
    pub(crate) fn take_packet<R: DriverRing>(&mut self, ring: &mut R, tally: &mut Tally) -> bool
        requires ring { IsAtWork Rx (R.size ring.old) (R.flight ring.old) (R.staged ring.old) self.old }
        requires few { tally.old.count < 2 ^ 16 }
        requires may { MayPublishAll (take_packet (round_of self.old tally.old)) (R.contents ring.old) }
        ensures ring { IsAtWork Rx (R.size ring.new) (R.flight ring.new) (R.staged ring.new) self.new }
        ensures same_size { R.size ring.new ≡ R.size ring.old }
        ensures calls { Plays (take_packet (round_of self.old tally.old)) (R.contents ring.old) (round_of self.new tally.new, result) (R.contents ring.new) }
        ensures count { tally.new.count ≤ tally.old.count + 1 }
    {
        if self.replies.len() >= DRIVER_REPLIES_FULL {
            return false;
        }
        match ring.reap(Queue::Rx) {
            Reaped::Back(page) => {
                self.on_page(&page);
                tally.count += 1;
                self.stage_empty(ring, Queue::Rx, page);
                true
            }
            Reaped::None => false,
        }
    }

    // Stages a page for the device to write into.
    fn stage_empty<R: DriverRing>(&mut self, ring: &mut R, queue: Queue, page: Page)
        requires room { at queue (R.flight ring.old) < R.size ring.old }
        requires staged { R.staged ring.old ≡ with_count queue self.old.staged no_counts }
        requires few { self.old.staged < STAGED_MAX }
        requires queue { queue ≡ Tx → ⊥ }
        requires may { MayPublishAll (stage_of queue [] self.old) (R.contents ring.old) }
        ensures flight { R.flight ring.new ≡ one_more queue (R.flight ring.old) }
        ensures staged { R.staged ring.new ≡ with_count queue self.new.staged no_counts }
        ensures few { self.new.staged < STAGED_MAX }
        ensures same_size { R.size ring.new ≡ R.size ring.old }
        ensures calls { Plays (stage_of queue [] self.old) (R.contents ring.old) self.new (R.contents ring.new) }
        ensures state { self.new ≡ record self.old { staged = self.new.staged } }
    {
        let mut page = page;
        page.clear();
        self.stage_page(ring, queue, page);
    }
}

// Whether a page of the event queue tells a transport reset.
fn is_reset_event(page: &Page) -> bool
    ensures { result ≡ is_reset_event page.now }
{
    let bytes = page.bytes();
    bytes.len() >= 4 && LittleEndian::read_u32(bytes) == 0
}
