//! The last stage of a turn: packets are put on the receive queue, what is owed to unknown flows first, and then, connection by connection,
//! what is read of the host's streams and what each owes (Virtio 1.2, sections 5.10.6.1 to 5.10.6.5).

ghost use Rattle.std.specs.Prelude.{◌≡◌, ◌≤◌, ◌<◌, ◌+◌, ◌*◌, ◌^◌, ℕ, List, not, length, false, true, Some, None, is_some, IfSome, IsSomeAnd, Err, IfErr, IfOk, OnOk};
ghost use Rattle.std.specs.Option.{ForSome};
ghost use Rattle.vs_conn.specs.{End.{CanSend, owes_of}, Headers.reset_header};
ghost use Rattle.vs_contents.specs.CallTree.{for_each, while_up_to};
ghost use Rattle.vs_credit.specs.Credit.{free_of};
ghost use Rattle.vs_flow.specs.Table.{IsTable, entry_under, value_under};
ghost use Rattle.vs_header.specs.declared.TheConstants.{HEADER_LEN};
ghost use Rattle.vs_outside.specs.Host.{ReadsSome};
ghost use Rattle.vs_page.specs.declared.page.TheConstants.{PAYLOAD_MAX};
ghost use Rattle.vs_ring_port.specs.declared.{device_ring.Chain.Chain, failure.Failure.Failure};
ghost use Rattle.laws_device.specs.{Named.Streams.HasStreams, Honest.IsWith};
ghost use Rattle.laws_proxy.specs.Account.{Made.Made, Told.{AreAccounted, StayAccounted}};
ghost use Rattle.vs_proxy_parts.specs.State.{Handshake};
ghost use Rattle.vs_device_parts.specs.{Connections.route_to_guest, Filling.{bytes_read, filling_of, is_rst, put_header, read_slot, serve_all, serve_rest}, Playing.IsAmong};
ghost use Rattle.vs_device_parts.specs.{Playing.{IsItsRing, IsRingOf, MayRun, MayRunOnHost, MayRunOnRing, Runs, RunsOnHost, RunsOnRing, beside, situation}, Receiving.after_paying};
ghost use Rattle.vs_device_parts.specs.Receiving.{fill_rx_of, filled_of, hold, may_read, put_owed, put_payload, put_reply, read_answered, read_room, read_with_chain, serve_slot};
ghost use Rattle.vs_device_parts.specs.{Served.{IsServedSo, OnlyReads, Reads}, State.DeviceEntry, Steps.to_read};
ghost use Rattle.vs_limits.specs.declared.TheConstants.{DEVICE_CONNECTIONS, DEVICE_REPLIES, OWED_MAX};
ghost use Rattle.vs_conn.specs.declared.end.Owed.TheVariants as owed;
ghost use Rattle.vs_outside.specs.declared.host_net.StreamRead.TheVariants as read;

use crate::device::Device;
use vs_conn::Owed;
use vs_device_parts::answers::Filled;
use vs_device_parts::fill::Fill;
use vs_device_parts::packets::{read_into, write_packet};
use vs_device_parts::round::first_from;
use vs_device_parts::service::Service;
use vs_flow::Slot;
use vs_header::{HEADER_LEN, Header, Kind, Op};
use vs_limits::{HOST_CID, OWED_MAX};
use vs_outside::{HostNet, StreamRead};
use vs_page::PAYLOAD_MAX;
use vs_replies::Reply;
use vs_ring_port::{DeviceRing, Failure, Next, Queue};

impl Device {
    /// Puts packets on the receive queue while chains are there: owed RSTs to unknown flows, oldest first, and then, from the slot after the one
    /// that last put a packet on, what is read of each connection's stream and what it owes. A stream is read only with a chain held and only
    /// as far as the guest has credit for, the chain takes and one packet holds. At most one chain is held, also over calls. What is read goes
    /// through `buffer`, whatever that held before.
    ///
    /// Answers how many packets were put and how many bytes were read, or the ring's failure: one of this call, or the one that is kept
    /// of an earlier call (Virtio 1.2, sections 5.10.6.1 to 5.10.6.5).
    pub fn fill_rx<R: DeviceRing, H: HostNet>(
        &mut self,
        ring: &mut R,
        host: &mut H,
        buffer: &mut [u8; PAYLOAD_MAX],
    ) -> Result<Filled, Failure>
        requires ring { IsItsRing (R.held ring.old) self.old }
        requires may { MayRun (fill_rx_of self.old) (situation (R.contents ring.old) (H.contents host.old) (H.faults host.old)) }
        ensures ring { IsItsRing (R.held ring.new) self.new }
        ensures calls { Runs (fill_rx_of self.old) (situation (R.contents ring.old) (H.contents host.old) (H.faults host.old)) (self.new, result) (situation (R.contents ring.new) (H.contents host.new) (H.faults host.new)) }
        ensures kept { (f : Failure) → self.old.failed ≡ Some f → (self.new ≡ self.old) × (result ≡ Err f) }
        ensures failed { IfErr result (λ f. self.new.failed ≡ Some f) }
        ensures ok { OnOk result (self.new.failed ≡ None) }
        ensures few { IfOk result (λ f. f.put ≤ DEVICE_REPLIES + (OWED_MAX + 1) * DEVICE_CONNECTIONS) }
        ensures few_read { IfOk result (λ f. f.read ≤ PAYLOAD_MAX * DEVICE_CONNECTIONS) }
        // Where each connection has an open stream of its own, it has one after the call.
        ensures streams { (others : List ℕ) → ForSome (H.contents host.old) (HasStreams others self.old.table)
            → ForSome (H.contents host.new) (HasStreams others self.new.table) }
        // Over an honest ring that tells its log the connections are those that the log left, and all that is put keeps the log fair.
        ensures honest { (first port : ℕ) → IsWith first port self.old (R.contents ring.old)
            → IsWith first port self.new (R.contents ring.new) }
        // The calls made account for the host's streams, as they did before.
        ensures bytes { (calls : List Made) (hands : List Handshake) → AreAccounted calls self.old.table hands (H.contents host.old)
            → StayAccounted (fill_rx_of self.old) calls (self.new, result) self.new.table hands (H.contents host.new) }
    {
        if let Some(failure) = self.failed {
            return Err(failure);
        }
        let mut fill = Fill {
            put: 0,
            read: 0,
            over: false,
        };
        self.put_replies(ring, &mut fill);
        self.serve(ring, host, buffer, &mut fill);
        self.filled(fill)
    }

    // What the call answers.
    fn filled(&self, fill: Fill) -> Result<Filled, Failure>
        ensures exact { (self.now, result) ≡ filled_of (filling_of self.now fill) }
        ensures failed { IfErr result (λ f. self.now.failed ≡ Some f) }
        ensures ok { OnOk result (self.now.failed ≡ None) }
        ensures filled { IfOk result (λ f. (f.put ≡ fill.put) × (f.read ≡ fill.read)) }
    {
        match self.failed {
            Some(failure) => Err(failure),
            None => Ok(Filled {
                put: fill.put,
                read: fill.read,
            }),
        }
    }

    // Serves all connections, where chains are still there.
    fn serve<R: DeviceRing, H: HostNet>(
        &mut self,
        ring: &mut R,
        host: &mut H,
        buffer: &mut [u8; PAYLOAD_MAX],
        fill: &mut Fill,
    )
        requires ring { IsRingOf (R.held ring.old) self.old }
        requires few { fill.old.put ≤ DEVICE_REPLIES }
        requires none { fill.old.read ≡ 0 }
        requires may { MayRun (serve_rest (filling_of self.old fill.old)) (situation (R.contents ring.old) (H.contents host.old) (H.faults host.old)) }
        ensures ring { IsRingOf (R.held ring.new) self.new }
        ensures count { fill.new.put ≤ DEVICE_REPLIES + (OWED_MAX + 1) * DEVICE_CONNECTIONS }
        ensures read { fill.new.read ≤ PAYLOAD_MAX * DEVICE_CONNECTIONS }
        ensures calls { Runs (serve_rest (filling_of self.old fill.old)) (situation (R.contents ring.old) (H.contents host.old) (H.faults host.old)) (filling_of self.new fill.new) (situation (R.contents ring.new) (H.contents host.new) (H.faults host.new)) }
    {
        if !fill.over {
            self.serve_all(ring, host, buffer, fill);
        }
    }

    // Serves all connections, those after the slot that last put a packet first.
    fn serve_all<R: DeviceRing, H: HostNet>(
        &mut self,
        ring: &mut R,
        host: &mut H,
        buffer: &mut [u8; PAYLOAD_MAX],
        fill: &mut Fill,
    )
        requires ring { IsRingOf (R.held ring.old) self.old }
        requires few { fill.old.put ≤ DEVICE_REPLIES }
        requires none { fill.old.read ≡ 0 }
        requires may { MayRun (serve_all (filling_of self.old fill.old)) (situation (R.contents ring.old) (H.contents host.old) (H.faults host.old)) }
        ensures ring { IsRingOf (R.held ring.new) self.new }
        ensures count { fill.new.put ≤ DEVICE_REPLIES + (OWED_MAX + 1) * DEVICE_CONNECTIONS }
        ensures read { fill.new.read ≤ PAYLOAD_MAX * DEVICE_CONNECTIONS }
        ensures calls { Runs (serve_all (filling_of self.old fill.old)) (situation (R.contents ring.old) (H.contents host.old) (H.faults host.old)) (filling_of self.new fill.new) (situation (R.contents ring.new) (H.contents host.new) (H.faults host.new)) }
    {
        let slots = self.slots.all();
        let first = first_from(self.last_put, slots.as_slice());
        let (others, above) = slots.as_slice().split_at(first);
        self.serve_part(ring, host, above, first, buffer, fill);
        self.serve_part(ring, host, others, 0, buffer, fill);
        self.watch_owed();
    }

    // Serves the connections in some slots, one after the other. The first of them stands at a place of the table, if none went before.
    fn serve_part<R: DeviceRing, H: HostNet>(
        &mut self,
        ring: &mut R,
        host: &mut H,
        slots: &[Slot],
        first: usize,
        buffer: &mut [u8; PAYLOAD_MAX],
        fill: &mut Fill,
    )
        requires ring { IsRingOf (R.held ring.old) self.old }
        requires few { fill.old.put + (OWED_MAX + 1) * length slots.now < 2 ^ 14 }
        requires few_read { fill.old.read + PAYLOAD_MAX * length slots.now < 2 ^ 20 }
        requires may { MayRun (for_each serve_slot slots.now (filling_of self.old fill.old)) (situation (R.contents ring.old) (H.contents host.old) (H.faults host.old)) }
        ensures ring { IsRingOf (R.held ring.new) self.new }
        ensures count { fill.new.put ≤ fill.old.put + (OWED_MAX + 1) * length slots.now }
        ensures read { fill.new.read ≤ fill.old.read + PAYLOAD_MAX * length slots.now }
        ensures calls { Runs (for_each serve_slot slots.now (filling_of self.old fill.old)) (situation (R.contents ring.old) (H.contents host.old) (H.faults host.old)) (filling_of self.new fill.new) (situation (R.contents ring.new) (H.contents host.new) (H.faults host.new)) }
    {
        let mut place = first;
        for slot in slots {
            self.serve_slot(ring, host, *slot, place, buffer, fill);
            place = place.wrapping_add(1);
        }
    }

    // Looks at all connections anew where one may have owed a packet.
    fn watch_owed(&mut self)
        ensures { self.new ≡ self.old }
    {
        self.slots.watch_owed();
    }

    // Serves the connection in a slot: its stream is read, and what it owes is put.
    #[inline(always)]
    fn serve_slot<R: DeviceRing, H: HostNet>(
        &mut self,
        ring: &mut R,
        host: &mut H,
        slot: Slot,
        place: usize,
        buffer: &mut [u8; PAYLOAD_MAX],
        fill: &mut Fill,
    )
        requires ring { IsRingOf (R.held ring.old) self.old }
        requires few { fill.old.put < 2 ^ 14 }
        requires few_read { fill.old.read < 2 ^ 20 }
        requires may { MayRun (serve_slot slot (filling_of self.old fill.old)) (situation (R.contents ring.old) (H.contents host.old) (H.faults host.old)) }
        ensures ring { IsRingOf (R.held ring.new) self.new }
        ensures count { fill.new.put ≤ fill.old.put + (OWED_MAX + 1) }
        ensures read { fill.new.read ≤ fill.old.read + PAYLOAD_MAX }
        ensures calls { Runs (serve_slot slot (filling_of self.old fill.old)) (situation (R.contents ring.old) (H.contents host.old) (H.faults host.old)) (filling_of self.new fill.new) (situation (R.contents ring.new) (H.contents host.new) (H.faults host.new)) }
    {
        if fill.over {
            return;
        }
        match self.service(slot, place) {
            Service::Nothing => {}
            Service::Read { stream, credit } => {
                self.serve_reading(ring, host, slot, stream, credit, buffer, fill);
            }
            Service::Owed => self.serve_owing(ring, host, slot, buffer, fill),
        }
    }

    // What the round does on the connection in a slot, as far as one look at it tells.
    #[inline(always)]
    fn service(&self, slot: Slot, place: usize) -> Service
        ensures served { IsServedSo (value_under self.now.table slot) result }
        ensures sound { IsTable self.now.table }
    {
        self.slots.service(slot, place)
    }

    // Serves the connection in a slot, which reads a stream with so much credit and owes nothing. Where nothing comes of the read it owes
    // nothing still.
    #[inline(always)]
    fn serve_reading<R: DeviceRing, H: HostNet>(
        &mut self,
        ring: &mut R,
        host: &mut H,
        slot: Slot,
        stream: u64,
        credit: u32,
        buffer: &mut [u8; PAYLOAD_MAX],
        fill: &mut Fill,
    )
        requires ring { IsRingOf (R.held ring.old) self.old }
        requires going { fill.old.over ≡ false }
        requires few { fill.old.put < 2 ^ 14 }
        requires few_read { fill.old.read < 2 ^ 20 }
        requires known { IsSomeAnd (value_under self.old.table slot) (OnlyReads stream credit) }
        requires may { MayRun (serve_slot slot (filling_of self.old fill.old)) (situation (R.contents ring.old) (H.contents host.old) (H.faults host.old)) }
        ensures ring { IsRingOf (R.held ring.new) self.new }
        ensures count { fill.new.put ≤ fill.old.put + (OWED_MAX + 1) }
        ensures read { fill.new.read ≤ fill.old.read + PAYLOAD_MAX }
        ensures calls { Runs (serve_slot slot (filling_of self.old fill.old)) (situation (R.contents ring.old) (H.contents host.old) (H.faults host.old)) (filling_of self.new fill.new) (situation (R.contents ring.new) (H.contents host.new) (H.faults host.new)) }
    {
        self.hold(ring, fill);
        if !self.read_stream(ring, host, slot, stream, credit, buffer, fill) {
            return;
        }
        if !fill.over {
            self.put_all_owed(ring, host, slot, fill);
        }
    }

    // Serves the connection in a slot, which may owe a packet or want credit.
    #[inline(never)]
    fn serve_owing<R: DeviceRing, H: HostNet>(
        &mut self,
        ring: &mut R,
        host: &mut H,
        slot: Slot,
        buffer: &mut [u8; PAYLOAD_MAX],
        fill: &mut Fill,
    )
        requires ring { IsRingOf (R.held ring.old) self.old }
        requires going { fill.old.over ≡ false }
        requires few { fill.old.put < 2 ^ 14 }
        requires few_read { fill.old.read < 2 ^ 20 }
        requires may { MayRun (serve_slot slot (filling_of self.old fill.old)) (situation (R.contents ring.old) (H.contents host.old) (H.faults host.old)) }
        ensures ring { IsRingOf (R.held ring.new) self.new }
        ensures count { fill.new.put ≤ fill.old.put + (OWED_MAX + 1) }
        ensures read { fill.new.read ≤ fill.old.read + PAYLOAD_MAX }
        ensures calls { Runs (serve_slot slot (filling_of self.old fill.old)) (situation (R.contents ring.old) (H.contents host.old) (H.faults host.old)) (filling_of self.new fill.new) (situation (R.contents ring.new) (H.contents host.new) (H.faults host.new)) }
    {
        self.read_slot(ring, host, slot, buffer, fill);
        if !fill.over {
            self.put_all_owed(ring, host, slot, fill);
        }
    }

    // Reads the stream of the connection in a slot, where it may send. Without credit it wants some.
    fn read_slot<R: DeviceRing, H: HostNet>(
        &mut self,
        ring: &mut R,
        host: &mut H,
        slot: Slot,
        buffer: &mut [u8; PAYLOAD_MAX],
        fill: &mut Fill,
    )
        requires ring { IsRingOf (R.held ring.old) self.old }
        requires going { fill.old.over ≡ false }
        requires few { fill.old.put < 2 ^ 14 }
        requires few_read { fill.old.read < 2 ^ 20 }
        requires may { MayRun (read_slot slot (filling_of self.old fill.old)) (situation (R.contents ring.old) (H.contents host.old) (H.faults host.old)) }
        ensures ring { IsRingOf (R.held ring.new) self.new }
        ensures count { fill.new.put ≤ fill.old.put + 1 }
        ensures read { fill.new.read ≤ fill.old.read + PAYLOAD_MAX }
        ensures calls { Runs (read_slot slot (filling_of self.old fill.old)) (situation (R.contents ring.old) (H.contents host.old) (H.faults host.old)) (filling_of self.new fill.new) (situation (R.contents ring.new) (H.contents host.new) (H.faults host.new)) }
    {
        if self.is_to_read(slot) {
            self.hold(ring, fill);
            self.read_with_chain(ring, host, slot, buffer, fill);
        }
    }

    /// Whether the stream of the connection in a slot is to be read. Where it may send and has no credit it wants some.
    pub(crate) fn is_to_read(&mut self, slot: Slot) -> bool
        ensures read { (self.new, result) ≡ to_read slot self.old }
        ensures chain { self.new.chain ≡ self.old.chain }
    {
        let Some(connection) = self.slots.connection(slot) else {
            return false;
        };
        if !connection.may_read() {
            return false;
        }
        if connection.free() == 0 {
            self.slots.want_credit(slot);
            return false;
        }
        true
    }

    /// Reads the stream of the connection in a slot, which has credit, into the chain that is held, where one is.
    pub(crate) fn read_with_chain<R: DeviceRing, H: HostNet>(
        &mut self,
        ring: &mut R,
        host: &mut H,
        slot: Slot,
        buffer: &mut [u8; PAYLOAD_MAX],
        fill: &mut Fill,
    )
        requires ring { IsAmong (R.held ring.old) self.old }
        requires few { fill.old.put < 2 ^ 14 }
        requires few_read { fill.old.read < 2 ^ 20 }
        requires reads { IfSome (value_under self.old.table slot) (λ c. may_read c.end c.end.state ≡ true) }
        requires credit { IfSome (value_under self.old.table slot) (λ c. 0 < free_of c.end.credit) }
        requires may { (e : DeviceEntry) → entry_under self.old.table slot ≡ Some e → MayRun (read_with_chain e (filling_of self.old fill.old)) (situation (R.contents ring.old) (H.contents host.old) (H.faults host.old)) }
        ensures ring { IsAmong (R.held ring.new) self.new }
        ensures beside { beside self.new.chain (R.held ring.new) ≡ beside self.old.chain (R.held ring.old) }
        ensures count { fill.new.put ≤ fill.old.put + 1 }
        ensures read { fill.new.read ≤ fill.old.read + PAYLOAD_MAX }
        ensures calls { (e : DeviceEntry) → entry_under self.old.table slot ≡ Some e → Runs (read_with_chain e (filling_of self.old fill.old)) (situation (R.contents ring.old) (H.contents host.old) (H.faults host.old)) (filling_of self.new fill.new) (situation (R.contents ring.new) (H.contents host.new) (H.faults host.new)) }
    {
        let Some(connection) = self.slots.connection(slot) else {
            return;
        };
        let stream = connection.stream();
        let credit = connection.free();
        self.read_stream(ring, host, slot, stream, credit, buffer, fill);
    }

    // Reads the stream of the connection in a slot, with so much credit, into the chain that is held, where one is. Tells whether something
    // came of it.
    #[inline(always)]
    fn read_stream<R: DeviceRing, H: HostNet>(
        &mut self,
        ring: &mut R,
        host: &mut H,
        slot: Slot,
        stream: u64,
        credit: u32,
        buffer: &mut [u8; PAYLOAD_MAX],
        fill: &mut Fill,
    ) -> bool
        requires ring { IsAmong (R.held ring.old) self.old }
        requires few { fill.old.put < 2 ^ 14 }
        requires few_read { fill.old.read < 2 ^ 20 }
        requires known { IsSomeAnd (value_under self.old.table slot) (Reads stream credit) }
        requires may { (e : DeviceEntry) → entry_under self.old.table slot ≡ Some e → MayRun (read_with_chain e (filling_of self.old fill.old)) (situation (R.contents ring.old) (H.contents host.old) (H.faults host.old)) }
        ensures ring { IsAmong (R.held ring.new) self.new }
        ensures beside { beside self.new.chain (R.held ring.new) ≡ beside self.old.chain (R.held ring.old) }
        ensures count { fill.new.put ≤ fill.old.put + 1 }
        ensures read { fill.new.read ≤ fill.old.read + PAYLOAD_MAX }
        ensures calls { (e : DeviceEntry) → entry_under self.old.table slot ≡ Some e → Runs (read_with_chain e (filling_of self.old fill.old)) (situation (R.contents ring.old) (H.contents host.old) (H.faults host.old)) (filling_of self.new fill.new) (situation (R.contents ring.new) (H.contents host.new) (H.faults host.new)) }
        ensures still { result ≡ false → self.new ≡ self.old }
    {
        let Some(chain) = &self.chain else {
            return false;
        };
        let answer = read_into(host, stream, buffer, read_room(credit, chain.writable));
        if is_again(answer) {
            return false;
        }
        self.read_answered(ring, host, slot, answer, buffer, fill);
        true
    }

    // The read of the stream of the connection in a slot was answered. Apart, so that the round keeps what it looks at in registers.
    #[inline(never)]
    fn read_answered<R: DeviceRing, H: HostNet>(
        &mut self,
        ring: &mut R,
        host: &mut H,
        slot: Slot,
        answer: StreamRead,
        buffer: &[u8; PAYLOAD_MAX],
        fill: &mut Fill,
    )
        requires ring { IsAmong (R.held ring.old) self.old }
        requires few { fill.old.put < 2 ^ 14 }
        requires few_read { fill.old.read < 2 ^ 20 }
        requires reads { IsSomeAnd (value_under self.old.table slot) (λ c. may_read c.end c.end.state ≡ true) }
        requires some { IsSomeAnd self.old.chain (λ chain. IsSomeAnd (value_under self.old.table slot) (λ c. ReadsSome answer (read_room (free_of c.end.credit) chain))) }
        requires may { (e : DeviceEntry) (chain : Chain) → entry_under self.old.table slot ≡ Some e → self.old.chain ≡ Some chain → MayRun (read_answered chain e answer (bytes_read answer buffer.now) (filling_of self.old fill.old)) (situation (R.contents ring.old) (H.contents host.old) (H.faults host.old)) }
        ensures ring { IsAmong (R.held ring.new) self.new }
        ensures beside { beside self.new.chain (R.held ring.new) ≡ beside self.old.chain (R.held ring.old) }
        ensures count { fill.new.put ≤ fill.old.put + 1 }
        ensures read { fill.new.read ≤ fill.old.read + PAYLOAD_MAX }
        ensures calls { (e : DeviceEntry) (chain : Chain) → entry_under self.old.table slot ≡ Some e → self.old.chain ≡ Some chain → Runs (read_answered chain e answer (bytes_read answer buffer.now) (filling_of self.old fill.old)) (situation (R.contents ring.old) (H.contents host.old) (H.faults host.old)) (filling_of self.new fill.new) (situation (R.contents ring.new) (H.contents host.new) (H.faults host.new)) }
    {
        match answer {
            StreamRead::Got(n) => self.put_payload(ring, slot, &buffer[..n], fill),
            StreamRead::Again => {}
            StreamRead::End => self.slots.shut(slot, 2, self.moment),
            StreamRead::Failed => {
                self.faults = self.faults.saturating_add(1);
                self.cut_off(host, slot);
            }
        }
    }

    // Puts payload of the connection in a slot into the chain that is held.
    fn put_payload<R: DeviceRing>(
        &mut self,
        ring: &mut R,
        slot: Slot,
        payload: &[u8],
        fill: &mut Fill,
    )
        requires ring { IsAmong (R.held ring.old) self.old }
        requires few { fill.old.put < 2 ^ 14 }
        requires few_read { fill.old.read < 2 ^ 20 }
        requires most { length payload.now ≤ PAYLOAD_MAX }
        requires room { IfSome self.old.chain (λ chain. HEADER_LEN + length payload.now ≤ chain.writable) }
        requires credit { IfSome (value_under self.old.table slot) (λ c. CanSend c.end (length payload.now)) }
        requires may { (e : DeviceEntry) (chain : Chain) → entry_under self.old.table slot ≡ Some e → self.old.chain ≡ Some chain → MayRunOnRing (put_payload chain e payload.now (filling_of self.old fill.old)) (R.contents ring.old) }
        ensures ring { IsAmong (R.held ring.new) self.new }
        ensures beside { beside self.new.chain (R.held ring.new) ≡ beside self.old.chain (R.held ring.old) }
        ensures count { fill.new.put ≤ fill.old.put + 1 }
        ensures read { fill.new.read ≤ fill.old.read + PAYLOAD_MAX }
        ensures calls { (e : DeviceEntry) (chain : Chain) → entry_under self.old.table slot ≡ Some e → self.old.chain ≡ Some chain → RunsOnRing (put_payload chain e payload.now (filling_of self.old fill.old)) (R.contents ring.old) (filling_of self.new fill.new) (R.contents ring.new) }
    {
        let len = payload.len() as u32;
        let Some(header) = self.slots.payload_header(slot, self.cid, len) else {
            return;
        };
        let Some(chain) = self.chain.take() else {
            return;
        };
        write_packet(ring, chain, &header, payload);
        self.slots.sent(slot, len);
        self.last_put = Some(slot);
        fill.put += 1;
        fill.read += len;
    }

    // Puts owed replies, oldest first, while chains are there.
    fn put_replies<R: DeviceRing>(&mut self, ring: &mut R, fill: &mut Fill)
        requires ring { IsRingOf (R.held ring.old) self.old }
        requires start { fill.old ≡ record { put = 0; read = 0; over = false } }
        requires may { MayRunOnRing (while_up_to (length self.old.replies) put_reply (filling_of self.old fill.old)) (R.contents ring.old) }
        ensures ring { IsRingOf (R.held ring.new) self.new }
        ensures count { fill.new.put ≤ DEVICE_REPLIES }
        ensures read { fill.new.read ≡ 0 }
        ensures calls { RunsOnRing (while_up_to (length self.old.replies) put_reply (filling_of self.old fill.old)) (R.contents ring.old) (filling_of self.new fill.new) (R.contents ring.new) }
    {
        let most = self.replies.len();
        for _ in 0..most {
            if !self.put_reply(ring, fill) {
                return;
            }
        }
    }

    /// Puts the oldest owed reply, if there is one and a chain for it.
    pub(crate) fn put_reply<R: DeviceRing>(&mut self, ring: &mut R, fill: &mut Fill) -> bool
        requires ring { IsAmong (R.held ring.old) self.old }
        requires going { fill.old.over ≡ false }
        requires few { fill.old.put < 2 ^ 16 }
        requires may { MayRunOnRing (put_reply (filling_of self.old fill.old)) (R.contents ring.old) }
        ensures ring { IsAmong (R.held ring.new) self.new }
        ensures beside { beside self.new.chain (R.held ring.new) ≡ beside self.old.chain (R.held ring.old) }
        ensures over { result ≡ true → fill.new.over ≡ false }
        ensures count { fill.new.put ≤ fill.old.put + 1 }
        ensures read { fill.new.read ≡ fill.old.read }
        ensures calls { RunsOnRing (put_reply (filling_of self.old fill.old)) (R.contents ring.old) (filling_of self.new fill.new, result) (R.contents ring.new) }
    {
        let Some(reply) = self.replies.front() else {
            return false;
        };
        let header = reply_header(self.cid, reply);
        if !self.put_header(ring, &header, fill) {
            return false;
        }
        self.replies.paid();
        true
    }

    // Puts what the connection in a slot owes, while chains are there.
    #[inline(never)]
    fn put_all_owed<R: DeviceRing, H: HostNet>(
        &mut self,
        ring: &mut R,
        host: &mut H,
        slot: Slot,
        fill: &mut Fill,
    )
        requires ring { IsRingOf (R.held ring.old) self.old }
        requires going { fill.old.over ≡ false }
        requires few { fill.old.put < 2 ^ 15 }
        requires may { MayRun (while_up_to OWED_MAX (put_owed slot) (filling_of self.old fill.old)) (situation (R.contents ring.old) (H.contents host.old) (H.faults host.old)) }
        ensures ring { IsRingOf (R.held ring.new) self.new }
        ensures count { fill.new.put ≤ fill.old.put + OWED_MAX }
        ensures read { fill.new.read ≡ fill.old.read }
        ensures calls { Runs (while_up_to OWED_MAX (put_owed slot) (filling_of self.old fill.old)) (situation (R.contents ring.old) (H.contents host.old) (H.faults host.old)) (filling_of self.new fill.new) (situation (R.contents ring.new) (H.contents host.new) (H.faults host.new)) }
    {
        for _ in 0..OWED_MAX {
            if !self.put_owed(ring, host, slot, fill) {
                return;
            }
        }
    }

    /// Puts the packet that the connection in a slot owes, if it owes one and a chain is there.
    pub(crate) fn put_owed<R: DeviceRing, H: HostNet>(
        &mut self,
        ring: &mut R,
        host: &mut H,
        slot: Slot,
        fill: &mut Fill,
    ) -> bool
        requires ring { IsAmong (R.held ring.old) self.old }
        requires going { fill.old.over ≡ false }
        requires few { fill.old.put < 2 ^ 16 }
        requires may { MayRun (put_owed slot (filling_of self.old fill.old)) (situation (R.contents ring.old) (H.contents host.old) (H.faults host.old)) }
        ensures ring { IsAmong (R.held ring.new) self.new }
        ensures beside { beside self.new.chain (R.held ring.new) ≡ beside self.old.chain (R.held ring.old) }
        ensures over { result ≡ true → fill.new.over ≡ false }
        ensures count { fill.new.put ≤ fill.old.put + 1 }
        ensures read { fill.new.read ≡ fill.old.read }
        ensures calls { Runs (put_owed slot (filling_of self.old fill.old)) (situation (R.contents ring.old) (H.contents host.old) (H.faults host.old)) (filling_of self.new fill.new, result) (situation (R.contents ring.new) (H.contents host.new) (H.faults host.new)) }
    {
        let Some((what, header)) = self.slots.owed(slot, self.cid) else {
            return false;
        };
        if !self.put_header(ring, &header, fill) {
            return false;
        }
        self.count_paid(host, slot, what);
        true
    }

    // Counts what the connection in a slot owed as put. With its RST it leaves the table.
    fn count_paid<H: HostNet>(&mut self, host: &mut H, slot: Slot, what: Owed)
        requires owed { (e : DeviceEntry) → entry_under self.old.table slot ≡ Some e → owes_of e.value.end ≡ Some what }
        requires may { (e : DeviceEntry) → entry_under self.old.table slot ≡ Some e → MayRunOnHost (after_paying what e self.old) (H.contents host.old) (H.faults host.old) }
        ensures chain { self.new.chain ≡ self.old.chain }
        ensures calls { (e : DeviceEntry) → entry_under self.old.table slot ≡ Some e → RunsOnHost (after_paying what e self.old) (H.contents host.old) (H.faults host.old) self.new (H.contents host.new) (H.faults host.new) }
    {
        self.last_put = Some(slot);
        if is_rst(what) {
            self.leave(host, slot, false);
        } else {
            self.slots.paid(slot, what, self.moment);
        }
    }

    // Puts a packet without payload where a chain is or becomes held, and tells whether it did.
    fn put_header<R: DeviceRing>(&mut self, ring: &mut R, header: &Header, fill: &mut Fill) -> bool
        requires ring { IsAmong (R.held ring.old) self.old }
        requires going { fill.old.over ≡ false }
        requires few { fill.old.put < 2 ^ 16 }
        requires may { MayRunOnRing (put_header header.now (filling_of self.old fill.old)) (R.contents ring.old) }
        ensures ring { IsAmong (R.held ring.new) self.new }
        ensures beside { beside self.new.chain (R.held ring.new) ≡ beside self.old.chain (R.held ring.old) }
        ensures over { fill.new.over ≡ not result }
        ensures count { fill.new.put ≤ fill.old.put + 1 }
        ensures read { fill.new.read ≡ fill.old.read }
        ensures others { self.new ≡ record self.old { chain = self.new.chain; failed = self.new.failed } }
        ensures calls { RunsOnRing (put_header header.now (filling_of self.old fill.old)) (R.contents ring.old) (filling_of self.new fill.new, result) (R.contents ring.new) }
    {
        self.hold(ring, fill);
        let Some(chain) = self.chain.take() else {
            return false;
        };
        write_packet(ring, chain, header, &[]);
        fill.put += 1;
        true
    }

    /// Holds a chain of the receive queue: the one that is held already, or the next one. Where there is none, the stage is over.
    #[inline(always)]
    pub(crate) fn hold<R: DeviceRing>(&mut self, ring: &mut R, fill: &mut Fill)
        requires ring { IsAmong (R.held ring.old) self.old }
        requires going { fill.old.over ≡ false }
        ensures ring { IsAmong (R.held ring.new) self.new }
        ensures beside { beside self.new.chain (R.held ring.new) ≡ beside self.old.chain (R.held ring.old) }
        ensures over { fill.new.over ≡ not (is_some self.new.chain) }
        ensures others { self.new ≡ record self.old { chain = self.new.chain; failed = self.new.failed } }
        ensures counts { fill.new ≡ record fill.old { over = fill.new.over } }
        ensures calls { RunsOnRing (hold (filling_of self.old fill.old)) (R.contents ring.old) (filling_of self.new fill.new) (R.contents ring.new) }
    {
        if self.chain.is_none() {
            self.hold_next(ring, fill);
        }
    }

    // Holds the next chain of the receive queue, where none is held. Apart, so that a chain that is held already costs one test.
    #[inline(never)]
    fn hold_next<R: DeviceRing>(&mut self, ring: &mut R, fill: &mut Fill)
        requires ring { IsAmong (R.held ring.old) self.old }
        requires none { self.old.chain ≡ None }
        requires going { fill.old.over ≡ false }
        ensures ring { IsAmong (R.held ring.new) self.new }
        ensures beside { beside self.new.chain (R.held ring.new) ≡ beside self.old.chain (R.held ring.old) }
        ensures over { fill.new.over ≡ not (is_some self.new.chain) }
        ensures others { self.new ≡ record self.old { chain = self.new.chain; failed = self.new.failed } }
        ensures counts { fill.new ≡ record fill.old { over = fill.new.over } }
        ensures calls { RunsOnRing (hold (filling_of self.old fill.old)) (R.contents ring.old) (filling_of self.new fill.new) (R.contents ring.new) }
    {
        match ring.next(Queue::Rx) {
            Next::Chain(chain) => self.chain = Some(chain),
            Next::None => fill.over = true,
            Next::Failed(failure) => {
                self.failed = Some(failure);
                fill.over = true;
            }
        }
    }
}

// How many bytes a connection with this credit may read into a chain with so many bytes to write.
fn read_room(credit: u32, writable: u64) -> usize
    requires { HEADER_LEN ≤ writable }
    ensures room { (chain : Chain) → chain.writable ≡ writable → result ≡ read_room credit chain }
    ensures most { result ≤ PAYLOAD_MAX }
{
    let held = writable - HEADER_LEN as u64;
    u64::from(credit).min(held).min(PAYLOAD_MAX as u64) as usize
}

// Whether nothing came of a read.
fn is_again(answer: StreamRead) -> bool
    ensures { result ≡ true → answer ≡ read.Again }
{
    matches!(answer, StreamRead::Again)
}

// Whether a packet that is owed is RST.
fn is_rst(what: Owed) -> bool
    ensures { result ≡ is_rst what }
{
    matches!(what, Owed::Rst)
}

// The header of an RST that is owed to an unknown flow.
fn reply_header(cid: u64, reply: Reply) -> Header
    ensures { result ≡ reset_header reply.kind (route_to_guest cid reply.flow) }
{
    Header {
        src_cid: reply.flow.peer,
        dst_cid: cid,
        src_port: reply.flow.host,
        dst_port: reply.flow.guest,
        len: 0,
        kind: reply.kind.number(),
        op: Op::Rst.number(),
        flags: 0,
        buf_alloc: 0,
        fwd_cnt: 0,
    }
}
