//! Sending on a connection (Virtio 1.2, section 5.10.6.3).

ghost use Rattle.std.specs.Prelude.{◌≡◌, ℕ, Bool, ◌≤◌, ◌<◌, ◌==◌, true, length, min, Some, None, Ok, Err, IfOk, is_some};
ghost use Rattle.vs_conn.specs.End.{CanSend, may_send_of, wanting_credit};
ghost use Rattle.vs_flow.specs.Table.{IsTable, entry_under};
ghost use Rattle.vs_page.specs.declared.page.TheConstants.{PAYLOAD_MAX};
ghost use Rattle.vs_driver_parts.specs.{State.DriverEntry, Connections.{unread_of_id, with_end}, Conversations.{send_of, send_on, send_with_credit, send_with_page, send_stopped}};
ghost use Rattle.vs_driver_parts.specs.{Conversations.{no_credit, not_sent}, Steps.{sends, sends_on, sends_with_credit}, Playing.{IsRingOf, MayPublishAll, Plays, SamePages}};
ghost use Rattle.vs_driver.specs.{Outcomes.{Readies, Sends}, Pipes.KeepsOthers};
ghost use Rattle.laws_driver.specs.Honest.{IsHonest, IsHonestWith};

use crate::driver::Driver;
use vs_conn::Stop;
use vs_driver_parts::answers::{ConnId, Sent};
use vs_flow::Slot;
use vs_page::PAYLOAD_MAX;
use vs_ring_port::DriverRing;

impl Driver {
    /// Sends bytes on a connection: as many from the front as its peer has room for and as one packet carries, 4,052 at most. `Took` tells how
    /// many. Pages that the device returned are taken back before one is needed.
    ///
    /// In this order: `Unknown` comes exactly where no connection has the id, `NotOpen` exactly where it isn't open yet, `Reset` exactly where
    /// it ended or is over, and `ShutDown` exactly where this end has shut its sending or its peer the receiving. For no bytes `Took` then
    /// tells 0. `NoCredit` comes exactly where the peer has no room for a byte: then credit is asked for with a later packet. `NoDescriptor`
    /// comes exactly where as many transmit pages are in flight as the queue has descriptors.
    pub fn send<R: DriverRing>(&mut self, ring: &mut R, id: ConnId, bytes: &[u8]) -> Sent
        requires ring { IsRingOf (R.size ring.old) (R.flight ring.old) (R.staged ring.old) self.old }
        requires honest { IsHonest self.old (R.contents ring.old) }
        ensures ring { IsRingOf (R.size ring.new) (R.flight ring.new) (R.staged ring.new) self.new }
        ensures calls { Plays (send_of id bytes.now self.old) (R.contents ring.old) (self.new, result) (R.contents ring.new) }
        ensures outcome { Sends id bytes.now self.old self.new result }
        ensures unread { unread_of_id id self.new ≡ unread_of_id id self.old }
        ensures others { KeepsOthers id self.old self.new }
        ensures honest { (hosts : Bool) (first : ℕ) → IsHonestWith hosts first self.old (R.contents ring.old) → IsHonestWith hosts first self.new (R.contents ring.new) }
    {
        match self.ready_to_send(id, bytes) {
            Ok((slot, most)) => {
                self.reap_all(ring);
                self.send_with_page(ring, slot, &bytes[..most])
            }
            Err(answer) => answer,
        }
    }

    /// What a send comes to before a page is looked for: how many bytes go on the connection in which slot, or an answer.
    pub(crate) fn ready_to_send(&mut self, id: ConnId, bytes: &[u8]) -> Result<(Slot, usize), Sent>
        ensures ready { Readies bytes.now (send_of id bytes.now self.old) (sends id bytes.now self.old) self.old self.new result }
        ensures sound { IsTable self.old.table }
        ensures in_flight { self.old.in_flight ≤ self.old.size }
        ensures within { IfOk result (λ (_, most). (most ≤ length bytes.now) × (most ≤ PAYLOAD_MAX)) }
        ensures pages { SamePages self.old self.new }
    {
        match self.slots.known_as(id) {
            Some(slot) => self.ready_in(slot, bytes),
            None => Err(self.not_sent(id)),
        }
    }

    // What a send answers where no connection of the table has the id.
    fn not_sent(&self, id: ConnId) -> Sent
        ensures { result ≡ not_sent id self.now }
    {
        if self.slots.gone_as(id).is_some() {
            Sent::Reset
        } else {
            Sent::Unknown
        }
    }

    // What a send on the connection in a slot comes to.
    fn ready_in(&mut self, slot: Slot, bytes: &[u8]) -> Result<(Slot, usize), Sent>
        requires held { is_some (entry_under self.old.table slot) ≡ true }
        ensures ready { (e : DriverEntry) → entry_under self.old.table slot ≡ Some e → Readies bytes.now (send_on e bytes.now self.old) (sends_on e bytes.now self.old) self.old self.new result }
        ensures within { IfOk result (λ (_, most). (most ≤ length bytes.now) × (most ≤ PAYLOAD_MAX)) }
        ensures pages { SamePages self.old self.new }
    {
        match self.slots.may_send(slot) {
            Some(Ok(credit)) => self.ready_with(slot, credit, bytes),
            Some(Err(why)) => Err(stopped(why)),
            None => unreachable!(),
        }
    }

    // What a send comes to on the connection in a slot, which has this much credit.
    fn ready_with(&mut self, slot: Slot, credit: u32, bytes: &[u8]) -> Result<(Slot, usize), Sent>
        requires credit { (e : DriverEntry) → entry_under self.old.table slot ≡ Some e → may_send_of e.value.end ≡ Ok credit }
        requires held { is_some (entry_under self.old.table slot) ≡ true }
        ensures ready { (e : DriverEntry) → entry_under self.old.table slot ≡ Some e → Readies bytes.now (send_with_credit e credit bytes.now self.old) (sends_with_credit e credit bytes.now self.old) self.old self.new result }
        ensures within { IfOk result (λ (_, most). (most ≤ length bytes.now) × (most ≤ PAYLOAD_MAX)) }
        ensures pages { SamePages self.old self.new }
    {
        let len = bytes.len();
        if len == 0 {
            return Err(Sent::Took(0));
        }
        if credit == 0 {
            return Err(self.no_credit(slot));
        }
        let most = (credit as usize).min(PAYLOAD_MAX).min(len);
        Ok((slot, most))
    }

    // Finds no credit on the connection in a slot, and asks for some.
    fn no_credit(&mut self, slot: Slot) -> Sent
        requires credit { (e : DriverEntry) → entry_under self.old.table slot ≡ Some e → may_send_of e.value.end ≡ Ok 0 }
        requires held { is_some (entry_under self.old.table slot) ≡ true }
        ensures answer { (e : DriverEntry) → entry_under self.old.table slot ≡ Some e → result ≡ no_credit e.value.end }
        ensures state { (e : DriverEntry) → entry_under self.old.table slot ≡ Some e → self.new ≡ with_end (wanting_credit e.value.end) e self.old }
        ensures pages { (self.new.size ≡ self.old.size) × (self.new.in_flight ≡ self.old.in_flight) × (self.new.staged ≡ self.old.staged) }
    {
        let Some(connection) = self.slots.connection(slot) else {
            unreachable!()
        };
        let credit = connection.end().credit;
        self.slots.want_credit(slot);
        Sent::NoCredit {
            tx: credit.tx_cnt,
            alloc: credit.peer_alloc,
            fwd: credit.peer_fwd,
        }
    }

    /// Puts payload on the connection in a slot, if a page is free.
    pub(crate) fn send_with_page<R: DriverRing>(
        &mut self,
        ring: &mut R,
        slot: Slot,
        payload: &[u8],
    ) -> Sent
        requires ring { IsRingOf (R.size ring.old) (R.flight ring.old) (R.staged ring.old) self.old }
        requires payload { length payload.now ≤ PAYLOAD_MAX }
        requires credit { (e : DriverEntry) → entry_under self.old.table slot ≡ Some e → CanSend e.value.end (length payload.now) }
        requires may { (e : DriverEntry) → entry_under self.old.table slot ≡ Some e → MayPublishAll (send_with_page e payload.now self.old) (R.contents ring.old) }
        requires held { is_some (entry_under self.old.table slot) ≡ true }
        ensures ring { IsRingOf (R.size ring.new) (R.flight ring.new) (R.staged ring.new) self.new }
        ensures same_size { R.size ring.new ≡ R.size ring.old }
        ensures calls { (e : DriverEntry) → entry_under self.old.table slot ≡ Some e → Plays (send_with_page e payload.now self.old) (R.contents ring.old) (self.new, result) (R.contents ring.new) }
    {
        if !self.pages.has_page() {
            return Sent::NoDescriptor {
                in_flight: self.pages.in_flight(),
            };
        }
        let Some(header) = self
            .slots
            .payload_header(slot, self.cid, payload.len() as u32)
        else {
            unreachable!()
        };
        self.post_packet(ring, &header, payload);
        self.slots.sent(slot, payload.len() as u32);
        Sent::Took(payload.len())
    }
}

// What a send answers where the connection may not send.
fn stopped(why: Stop) -> Sent
    ensures { result ≡ send_stopped why }
{
    match why {
        Stop::NotOpen => Sent::NotOpen,
        Stop::ShutDown => Sent::ShutDown,
        Stop::Reset => Sent::Reset,
    }
}
