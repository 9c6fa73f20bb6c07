//! What the driver does with the packets that it takes, and at a transport reset (Virtio 1.2, sections 5.10.6.4 to 5.10.6.7).

ghost use Rattle.std.specs.Prelude.{◌≡◌, ℕ, List, ◌<◌, ◌≤◌, ◌==◌, ◌&&◌, ◌^◌, [], true, length, Some, None, not};
ghost use Rattle.vs_conn.specs.End.{is_refused};
ghost use Rattle.vs_flow.specs.{Table.{entry_of, entry_under}, declared.flow.Flow.Flow, Flow.host_asks};
ghost use Rattle.laws_history.specs.declared.packet.Packet.{Packet};
ghost use Rattle.vs_page.specs.{Held.IsWhole, Log.flow_to_guest, Open.is_dropped};
ghost use Rattle.vs_limits.specs.declared.TheConstants.{DRIVER_REPLIES, DRIVER_REPLIES_FULL};
ghost use Rattle.vs_driver_parts.specs.{State.DriverEntry, Connections.{after_leaving, leaves_list, with_request, keeping}, Playing.{BringsFit, SamePages}};
ghost use Rattle.vs_driver_parts.specs.Receiving.{ends_connection, on_page, on_packet, on_heard, on_known, on_unknown, is_request, may_open, with_reply, after_reset};
ghost use Rattle.vs_wrap.specs.Wrap.{counted};
ghost use Rattle.vs_page.specs.Log as log;

use crate::driver::Driver;
use vs_conn::Verdict;
use vs_flow::{Flow, Slot, is_assigned};
use vs_header::{Header, Kind, Op};
use vs_limits::{DRIVER_CONNECTIONS, HOST_CID, LAST_ID};
use vs_page::{Page, packet_in, packet_payload};
use vs_replies::Reply;

impl Driver {
    /// Takes a page of the receive queue. One that holds no packet does nothing.
    pub(crate) fn on_page(&mut self, page: &Page)
        requires room { length self.old.replies < DRIVER_REPLIES }
        ensures state { self.new ≡ on_page page.now self.old }
        ensures pages { SamePages self.old self.new }
        ensures fits { BringsFit page.now }
    {
        fields_fit(page.bytes());
        let Some(header) = packet_in(page) else {
            return;
        };
        let Some(payload) = packet_payload(page, &header) else {
            return;
        };
        self.on_packet(&header, payload);
    }

    // Takes a packet.
    fn on_packet(&mut self, header: &Header, payload: &[u8])
        requires room { length self.old.replies < DRIVER_REPLIES }
        requires whole { let p : Packet = record { header = header.now; payload = payload.now } in IsWhole p }
        ensures state { let p : Packet = record { header = header.now; payload = payload.now } in self.new ≡ on_packet p self.old }
        ensures pages { SamePages self.old self.new }
    {
        let flow = flow_to_guest(header);
        if is_dropped(self.cid, header) {
            return;
        }
        self.on_heard(flow, header, payload);
    }

    // Takes a packet that isn't dropped.
    fn on_heard(&mut self, flow: Flow, header: &Header, payload: &[u8])
        requires room { length self.old.replies < DRIVER_REPLIES }
        requires whole { let p : Packet = record { header = header.now; payload = payload.now } in IsWhole p }
        requires flow { flow ≡ flow_to_guest header.now }
        ensures state { let p : Packet = record { header = header.now; payload = payload.now } in self.new ≡ on_heard p self.old }
        ensures pages { SamePages self.old self.new }
    {
        match self.slots.by_flow(flow) {
            Some(slot) => self.on_known(slot, header, payload),
            None => self.on_unknown(flow, header),
        }
    }

    // Takes a packet of the connection in a slot.
    fn on_known(&mut self, slot: Slot, header: &Header, payload: &[u8])
        requires whole { let p : Packet = record { header = header.now; payload = payload.now } in IsWhole p }
        ensures state { (e : DriverEntry) → entry_under self.old.table slot ≡ Some e → let p : Packet = record { header = header.now; payload = payload.now } in self.new ≡ on_known p e self.old }
        ensures pages { SamePages self.old self.new }
    {
        let cleanly = self.slots.ends_cleanly(slot, header);
        let verdict = self.slots.on_packet(slot, header, payload);
        if is_refused(verdict) {
            self.refuse(slot);
        } else if ends_connection(verdict, header) {
            self.leave(slot, cleanly);
        }
    }

    // Counts a packet that got RST on the connection in a slot, which waits no more where it isn't answered.
    fn refuse(&mut self, slot: Slot)
        ensures state { (e : DriverEntry) → entry_under self.old.table slot ≡ Some e → self.new ≡ leaves_list e (record self.old { broken = counted self.old.broken }) }
        ensures pages { SamePages self.old self.new }
    {
        self.broken = self.broken.saturating_add(1);
        self.leave_list(slot);
    }

    // The connection in a slot waits no more on its port, where its RESPONSE isn't put.
    fn leave_list(&mut self, slot: Slot)
        ensures state { (e : DriverEntry) → entry_under self.old.table slot ≡ Some e → self.new ≡ leaves_list e self.old }
        ensures pages { SamePages self.old self.new }
    {
        if let (Some(flow), Some(connection)) = (
            self.slots.flow_of(slot),
            self.slots.connection(slot),
        )
            && connection.is_unanswered()
        {
            self.listeners.leave(flow.guest, connection.id());
        }
    }

    /// The connection in a slot leaves the table. Its flow may be used again where it ended cleanly and the guest opened it.
    pub(crate) fn leave(&mut self, slot: Slot, cleanly: bool)
        ensures state { (e : DriverEntry) → entry_under self.old.table slot ≡ Some e → self.new ≡ keeping (cleanly && not (host_asks e.flow)) e.flow (after_leaving e self.old) }
        ensures pages { SamePages self.old self.new }
    {
        self.leave_list(slot);
        self.slots.leave(slot, cleanly);
    }

    // Takes a packet of an unknown flow.
    fn on_unknown(&mut self, flow: Flow, header: &Header)
        requires room { length self.old.replies < DRIVER_REPLIES }
        requires flow { flow ≡ flow_to_guest header.now }
        requires unknown { entry_of self.old.table flow ≡ None }
        ensures state { (payload : List ℕ) → let p : Packet = record { header = header.now; payload = payload } in self.new ≡ on_unknown p self.old }
        ensures pages { SamePages self.old self.new }
    {
        if header.op == Op::Rst.number() {
            return;
        }
        if is_request(header) && self.may_open(flow) {
            self.open_for_request(flow, header);
        } else {
            self.owe(Reply::to(flow, header));
        }
    }

    // Whether a REQUEST of this flow opens a connection.
    fn may_open(&self, flow: Flow) -> bool
        ensures { result ≡ may_open flow self.now }
    {
        flow.is_host()
            && is_assigned(flow.host)
            && self.listeners.has_place(flow.guest)
            && self.slots.held() < DRIVER_CONNECTIONS
            && self.slots.next_id() <= LAST_ID as u64
    }

    // Opens the connection that a REQUEST asks for. It waits on its port.
    fn open_for_request(&mut self, flow: Flow, request: &Header)
        requires may { may_open flow self.old ≡ true }
        requires unknown { entry_of self.old.table flow ≡ None }
        ensures state { self.new ≡ with_request flow request.now self.old }
        ensures pages { SamePages self.old self.new }
    {
        let id = self.slots.open_answering(flow, request);
        self.listeners.wait(flow.guest, id);
    }

    // Owes one more reply, for which there is room.
    fn owe(&mut self, reply: Reply)
        requires room { length self.old.replies < DRIVER_REPLIES }
        ensures state { self.new ≡ with_reply reply self.old }
        ensures pages { SamePages self.old self.new }
    {
        match self.replies.owe(reply) {
            Ok(()) => {}
            Err(_) => unreachable!(),
        }
    }

    /// A transport reset: each connection leaves the table, by rising slot, and RST is owed for its flow. The guest has a CID from now on,
    /// so of the flows that may be used again those with the host stay.
    pub(crate) fn reset(&mut self, cid: u64)
        requires room { length self.old.replies ≤ DRIVER_REPLIES_FULL }
        ensures state { self.new ≡ after_reset cid self.old }
        ensures pages { SamePages self.old self.new }
    {
        let connections = self.slots.open();
        prove!(connections <= DRIVER_CONNECTIONS);
        self.cid = cid;
        self.slots.keep_host();
        while let Some((slot, reply)) = self.slots.first() {
            self.leave(slot, false);
            self.owe(reply);
        }
    }
}

// The numbers of the packet that a page brings have their widths, since a byte has 8 bits.
fn fields_fit(bytes: &[u8])
    ensures { BringsFit bytes.now }
{}

// The flow of a packet to the guest.
fn flow_to_guest(header: &Header) -> Flow
    ensures { result ≡ flow_to_guest header.now }
{
    Flow {
        guest: header.dst_port,
        host: header.src_port,
        peer: header.src_cid,
    }
}

// Whether a packet is dropped, where this is the guest's CID: it is another guest's, and for another CID.
fn is_dropped(cid: u64, header: &Header) -> bool
    ensures { result ≡ is_dropped log.Driver cid header.now }
{
    !(header.src_cid == HOST_CID) && !(header.dst_cid == cid)
}

// Whether a packet asks for a stream connection.
fn is_request(header: &Header) -> bool
    ensures { result ≡ is_request header.now }
{
    header.kind == Kind::Stream.number() && header.op == Op::Request.number()
}

// Whether a verdict refuses its packet.
fn is_refused(verdict: Verdict) -> bool
    ensures { result ≡ is_refused verdict }
{
    matches!(verdict, Verdict::Rst(_))
}

// Whether a packet ends its connection: an RST of the peer.
fn ends_connection(verdict: Verdict, header: &Header) -> bool
    ensures { result ≡ ends_connection verdict header.now }
{
    verdict == Verdict::Peer && header.op == Op::Rst.number()
}
