//! The last stages of a poll: owed replies are put, and then what each connection owes (Virtio 1.2, sections 5.10.6.3 to 5.10.6.5).

ghost use Rattle.std.specs.Prelude.{◌≡◌, ◌+◌, ◌-◌, ◌<◌, ◌≤◌, ◌^◌, false, true, Some};
ghost use Rattle.vs_conn.specs.End.{owes_of};
ghost use Rattle.vs_flow.specs.Table.{entry_under};
ghost use Rattle.vs_ring_port.specs.declared.queue.Queue.TheVariants.{Tx};
ghost use Rattle.vs_limits.specs.declared.TheConstants.{DRIVER_REPLIES, HOST_CID, OWED_MAX};
ghost use Rattle.vs_driver_parts.specs.{State.DriverEntry, Conversations.{put_all, put_replies, put_reply, pay_all, pay_slot, put_owed, after_paying, is_rst, reply_header}};
ghost use Rattle.vs_driver_parts.specs.{Conversations.round_of, Playing.{IsRingOf, IsAtWork, MayPublishAll, Plays, SamePages}};
ghost use Rattle.vs_conn.specs.declared.end.Owed.TheVariants as owed;

use crate::driver::Driver;
use vs_conn::{Owed, Route};
use vs_driver_parts::route::route_to_host;
use vs_driver_parts::tally::Tally;
use vs_flow::Slot;
use vs_header::{Header, Kind, Op};
use vs_limits::{HOST_CID, OWED_MAX};
use vs_replies::Reply;
use vs_ring_port::{DriverRing, Queue};

impl Driver {
    /// Puts owed replies, oldest first, and then what each connection owes, by rising slot, while transmit pages are free.
    pub(crate) fn put_all<R: DriverRing>(&mut self, ring: &mut R) -> Tally
        requires ring { IsRingOf (R.size ring.old) (R.flight ring.old) (R.staged ring.old) self.old }
        requires may { MayPublishAll (put_all self.old) (R.contents ring.old) }
        ensures ring { IsRingOf (R.size ring.new) (R.flight ring.new) (R.staged ring.new) self.new }
        ensures calls { Plays (put_all self.old) (R.contents ring.old) (round_of self.new result) (R.contents ring.new) }
    {
        let mut tally = self.put_replies(ring);
        self.publish(ring, Queue::Tx);
        self.pay_all(ring, &mut tally);
        self.publish(ring, Queue::Tx);
        tally
    }

    // Stages owed replies, oldest first, while transmit pages are free.
    fn put_replies<R: DriverRing>(&mut self, ring: &mut R) -> Tally
        requires ring { IsRingOf (R.size ring.old) (R.flight ring.old) (R.staged ring.old) self.old }
        requires may { MayPublishAll (put_replies self.old) (R.contents ring.old) }
        ensures ring { IsAtWork Tx (R.size ring.new) (R.flight ring.new) (R.staged ring.new) self.new }
        ensures calls { Plays (put_replies self.old) (R.contents ring.old) (round_of self.new result) (R.contents ring.new) }
        ensures count { result.count ≤ DRIVER_REPLIES }
    {
        let most = self.replies.len();
        let mut tally = Tally::none();
        for _ in 0..most {
            if !self.put_reply(ring, &mut tally) {
                return tally;
            }
        }
        tally
    }

    /// Stages the oldest owed reply, if there is one and a page is free.
    pub(crate) fn put_reply<R: DriverRing>(&mut self, ring: &mut R, tally: &mut Tally) -> bool
        requires ring { IsAtWork Tx (R.size ring.old) (R.flight ring.old) (R.staged ring.old) self.old }
        requires few { tally.old.count < 2 ^ 16 }
        requires may { MayPublishAll (put_reply (round_of self.old tally.old)) (R.contents ring.old) }
        ensures ring { IsAtWork Tx (R.size ring.new) (R.flight ring.new) (R.staged ring.new) self.new }
        ensures same_size { R.size ring.new ≡ R.size ring.old }
        ensures calls { Plays (put_reply (round_of self.old tally.old)) (R.contents ring.old) (round_of self.new tally.new, result) (R.contents ring.new) }
        ensures count { tally.new.count ≤ tally.old.count + 1 }
    {
        let Some(reply) = self.replies.front() else {
            return false;
        };
        if !self.pages.has_page() {
            return false;
        }
        let header = reply_header(self.cid, reply);
        self.replies.paid();
        self.stage_packet(ring, &header);
        tally.count += 1;
        true
    }

    // Stages what each connection owes, by rising slot. Where none may owe a packet, none is looked at.
    fn pay_all<R: DriverRing>(&mut self, ring: &mut R, tally: &mut Tally)
        requires ring { IsRingOf (R.size ring.old) (R.flight ring.old) (R.staged ring.old) self.old }
        requires few { tally.old.count ≤ DRIVER_REPLIES }
        requires may { MayPublishAll (pay_all (round_of self.old tally.old)) (R.contents ring.old) }
        ensures ring { IsAtWork Tx (R.size ring.new) (R.flight ring.new) (R.staged ring.new) self.new }
        ensures calls { Plays (pay_all (round_of self.old tally.old)) (R.contents ring.old) (round_of self.new tally.new) (R.contents ring.new) }
    {
        if !self.slots.may_owe() {
            return;
        }
        let slots = self.slots.all();
        for slot in slots.as_slice() {
            self.pay_if_owed(ring, *slot, tally);
        }
    }

    // Stages what the connection in a slot owes, while pages are free. One that may owe nothing isn't looked at.
    fn pay_if_owed<R: DriverRing>(&mut self, ring: &mut R, slot: Slot, tally: &mut Tally)
        requires ring { IsAtWork Tx (R.size ring.old) (R.flight ring.old) (R.staged ring.old) self.old }
        requires few { tally.old.count < 2 ^ 15 }
        requires may { MayPublishAll (pay_slot slot (round_of self.old tally.old)) (R.contents ring.old) }
        ensures ring { IsAtWork Tx (R.size ring.new) (R.flight ring.new) (R.staged ring.new) self.new }
        ensures calls { Plays (pay_slot slot (round_of self.old tally.old)) (R.contents ring.old) (round_of self.new tally.new) (R.contents ring.new) }
        ensures count { tally.new.count ≤ tally.old.count + OWED_MAX }
    {
        if self.slots.may_owe_in(slot) {
            self.pay_slot(ring, slot, tally);
        }
    }

    // Stages what the connection in a slot owes, while pages are free.
    fn pay_slot<R: DriverRing>(&mut self, ring: &mut R, slot: Slot, tally: &mut Tally)
        requires ring { IsAtWork Tx (R.size ring.old) (R.flight ring.old) (R.staged ring.old) self.old }
        requires few { tally.old.count < 2 ^ 15 }
        requires may { MayPublishAll (pay_slot slot (round_of self.old tally.old)) (R.contents ring.old) }
        ensures ring { IsAtWork Tx (R.size ring.new) (R.flight ring.new) (R.staged ring.new) self.new }
        ensures calls { Plays (pay_slot slot (round_of self.old tally.old)) (R.contents ring.old) (round_of self.new tally.new) (R.contents ring.new) }
        ensures count { tally.new.count ≤ tally.old.count + OWED_MAX }
    {
        for _ in 0..OWED_MAX {
            if !self.put_owed(ring, slot, tally) {
                return;
            }
        }
    }

    /// Stages the packet that the connection in a slot owes, if it owes one and a page is free.
    pub(crate) fn put_owed<R: DriverRing>(
        &mut self,
        ring: &mut R,
        slot: Slot,
        tally: &mut Tally,
    ) -> bool
        requires ring { IsAtWork Tx (R.size ring.old) (R.flight ring.old) (R.staged ring.old) self.old }
        requires few { tally.old.count < 2 ^ 16 }
        requires may { MayPublishAll (put_owed slot (round_of self.old tally.old)) (R.contents ring.old) }
        ensures ring { IsAtWork Tx (R.size ring.new) (R.flight ring.new) (R.staged ring.new) self.new }
        ensures same_size { R.size ring.new ≡ R.size ring.old }
        ensures calls { Plays (put_owed slot (round_of self.old tally.old)) (R.contents ring.old) (round_of self.new tally.new, result) (R.contents ring.new) }
        ensures count { tally.new.count ≤ tally.old.count + 1 }
    {
        let Some((what, header)) = self.slots.owed(slot, self.cid) else {
            return false;
        };
        if !self.pages.has_page() {
            return false;
        }
        self.count_paid(slot, what);
        self.stage_packet(ring, &header);
        tally.count += 1;
        true
    }

    // Counts what the connection in a slot owed as put. With its RST it leaves the table.
    fn count_paid(&mut self, slot: Slot, what: Owed)
        requires owed { (e : DriverEntry) → entry_under self.old.table slot ≡ Some e → owes_of e.value.end ≡ Some what }
        ensures state { (e : DriverEntry) → entry_under self.old.table slot ≡ Some e → self.new ≡ after_paying what e self.old }
        ensures pages { SamePages self.old self.new }
    {
        if is_rst(what) {
            self.leave(slot, false);
        } else {
            self.slots.paid(slot, what);
        }
    }
}

// Whether a packet that is owed is RST.
fn is_rst(what: Owed) -> bool
    ensures { result ≡ is_rst what }
{
    matches!(what, Owed::Rst)
}

// The header of an RST that is owed to an unknown flow.
fn reply_header(cid: u64, reply: Reply) -> Header
    ensures { result ≡ reply_header cid reply }
{
    let route = route_to_host(cid, reply.flow);
    Header {
        src_cid: route.src_cid,
        dst_cid: route.dst_cid,
        src_port: route.src_port,
        dst_port: route.dst_port,
        len: 0,
        kind: reply.kind.number(),
        op: Op::Rst.number(),
        flags: 0,
        buf_alloc: 0,
        fwd_cnt: 0,
    }
}
