//! The device's slots: the connections of the table, and the buffers of free slots.

ghost use Rattle.std.specs.Prelude.{◌≡◌, ◌<◌, ◌≤◌, ◌++◌, ◌+◌, ◌&&◌, [], true, false, length, Some, None, if◌then◌else◌, IfOk, IfSome, IfNone, IsSomeAnd, AllPairs, map, option_copied};
ghost use Rattle.std.specs.{Prelude.{slice_get, vec_capacity}, List.All, Option.{option_map, option_map_or}};
ghost use Rattle.vs_conn.specs.{End.{CanSend, asked, answering, grown, may_shut, owes_of, verdict_of, wanting_credit, with_payload_sent}, Headers.{owed_header, payload_header}};
ghost use Rattle.vs_conn.specs.{Shut.is_both, declared.end.{State.TheVariants.Live, Verdict.TheVariants.{Deliver, Accept}}};
ghost use Rattle.laws_history.specs.Packets.{is_clean_rst};
ghost use Rattle.vs_credit.specs.Credit.{free_of, unread_of};
ghost use Rattle.vs_flow.specs.Table.{IsTable, emptied, entry_of, entry_under, has_place, refusal, slots, value_under, with_entry, with_value, without};
ghost use Rattle.vs_header.specs.declared.Kind.TheVariants.{Stream};
ghost use Rattle.vs_limits.specs.declared.TheConstants.{BUF_ALLOC, BUF_ALLOC_MAX, DEVICE_CONNECTIONS};
ghost use Rattle.vs_uds.specs.OkLine.{ok_text};
ghost use Rattle.vs_device_parts.specs.{Connections.{after_shut, after_written, cut_off, is_timed_out, new_connection, route_to_guest, stream_closed}, Paid.paid_connection};
ghost use Rattle.vs_device_parts.specs.{Room.IsSpare, State.{DeviceConnection, DeviceEntry}, Transmitting.{heard, without_payload}, Growing.grow_answer, Served.IsServedSo};
ghost use Rattle.vs_device_parts.specs.{Noted.{note_of, renoted}, Watched.{IsWatched, has_to_write}, declared.answers.Grown.TheVariants.Done};

use crate::connection::{Buffers, Connection};
use crate::notes::{Note, Notes};
use crate::service::Service;
use crate::watch::Watch;
use arrayvec::ArrayVec;
use std::alloc::{AllocError, Global};
use std::marker::Model;
use vs_buffer::ByteFifo;
use vs_conn::{Owed, Route, Verdict};
use vs_flow::{Entry, Flow, FlowTable, Slot, TableFault};
use vs_header::Header;
use vs_limits::{BUF_ALLOC_MAX, DEVICE_CONNECTIONS, HOST_CID};
use vs_uds::OK_MAX;

/// Bytes of a connection's receive buffer: as many as its buffer space may be raised to.
pub const BUFFER_LEN: usize = BUF_ALLOC_MAX as usize;

/// The connections, each in a slot of its own.
#[derive(Drop)]
pub struct Slots {
    table: FlowTable<Connection>,
    // The buffers of the free slots.
    spare: Vec<Buffers>,
    // All slots of the table, by rising slot.
    order: ArrayVec<Slot, DEVICE_CONNECTIONS>,
    // What is known of all connections.
    watch: Watch,
    // What the rounds do on each connection.
    notes: Notes,
}

impl Model for Slots {
    ghost use Rattle.vs_device_parts.specs.State.{DeviceConnection};
    ghost use Rattle.vs_flow.specs.Table.{Table};

    ghost Value = { Table DeviceConnection };

    ghost use Rattle.vs_device_parts.specs.SlotFields.{AreKept};

    ghost view = { λ s. s.table };

    ghost invariant = { AreKept };
}

impl Slots {
    /// The slots of a device that has no connection yet. All memory is taken here.
    pub fn new(alloc: Global) -> Result<Slots, AllocError>
        ensures { IfOk result (λ s. s ≡ record { room = DEVICE_CONNECTIONS; entries = []; given = 0 }) }
    {
        Ok(Slots {
            table: FlowTable::new(alloc, DEVICE_CONNECTIONS)?,
            spare: all_buffers(alloc)?,
            order: ArrayVec::new(),
            watch: Watch::new(),
            notes: Notes::new(),
        })
    }

    /// How many connections there are.
    pub fn open(&self) -> usize
        ensures count { result ≡ length self.now.entries }
        ensures most { result ≤ DEVICE_CONNECTIONS }
    {
        self.table.len()
    }

    /// Whether there is place for one more connection.
    pub fn has_place(&self) -> bool
        ensures { result ≡ has_place self.now }
    {
        self.table.has_place()
    }

    /// Why no connection of a flow can come into the table, where that is so.
    pub fn refusal(&self, flow: Flow) -> Option<TableFault>
        ensures { result ≡ refusal self.now flow }
    {
        if self.table.by_flow(flow).is_some() {
            return Some(TableFault::Taken { flow });
        }
        if self.table.has_place() {
            return None;
        }
        Some(TableFault::Full {
            n: DEVICE_CONNECTIONS,
        })
    }

    /// The slot of the connection of a flow.
    pub fn by_flow(&self, flow: Flow) -> Option<Slot>
        ensures slot { result ≡ option_map (λ e. e.slot) (entry_of self.now flow) }
        ensures sound { IsTable self.now }
    {
        self.table.by_flow(flow)
    }

    /// The flow of the connection in a slot.
    pub fn flow_of(&self, slot: Slot) -> Option<Flow>
        ensures { result ≡ option_map (λ e. e.flow) (entry_under self.now slot) }
    {
        self.table.flow_of(slot)
    }

    /// The connection in a slot.
    pub fn connection(&self, slot: Slot) -> Option<&Connection>
        ensures { option_copied result ≡ value_under self.now slot }
    {
        self.table.get(slot)
    }

    /// Whether a packet ends the connection in a slot cleanly: a marked RST, where both directions were shut.
    pub fn ends_cleanly(&self, slot: Slot, header: &Header) -> bool
        ensures { (c : DeviceConnection) → value_under self.now slot ≡ Some c → result ≡ (is_both c.end.own && is_clean_rst (without_payload header.now)) }
    {
        match self.table.get(slot) {
            Some(connection) => connection.ends_cleanly(header),
            None => false,
        }
    }

    /// All slots of the table, by rising slot.
    pub fn all(&self) -> ArrayVec<Slot, DEVICE_CONNECTIONS>
        ensures all { result.items ≡ slots self.now }
        ensures most { length (slots self.now) ≤ DEVICE_CONNECTIONS }
        ensures rising { AllPairs (λ j k. j < k) (slots self.now) }
    {
        let mut all = ArrayVec::new();
        all.try_extend_from_slice(self.order.as_slice()).unwrap();
        all
    }

    /// The connection at a place of the table, counted from 0 by rising slot.
    pub fn at(&self, place: usize) -> Option<&Entry<Connection>>
        ensures { option_copied result ≡ slice_get self.now.entries place }
    {
        self.table.at(place)
    }

    /// Whether a connection may wait too long at a moment. Where none may, none does.
    pub fn may_time_out(&self, now: u64) -> bool
        ensures { result ≡ false → All (λ e. is_timed_out now e.value ≡ false) self.now.entries }
    {
        self.watch.due <= now
    }

    /// Whether a round of writing does something on the connection in a slot: told at once at the place where it stands if none went before.
    #[inline(always)]
    pub fn has_to_write(&self, slot: Slot, place: usize) -> bool
        ensures { result ≡ option_map_or (λ e. has_to_write e.value) (entry_under self.now slot) false }
    {
        match self.notes.at(place) {
            Some(note) if note.slot == slot => note.writes,
            _ => self.has_to_write_under(slot),
        }
    }

    // The same, wherever it stands.
    fn has_to_write_under(&self, slot: Slot) -> bool
        ensures { result ≡ option_map_or (λ e. has_to_write e.value) (entry_under self.now slot) false }
    {
        match self.table.get(slot) {
            Some(connection) => connection.has_to_write(),
            None => false,
        }
    }

    /// What the round over all connections does on the one in a slot, as far as one look tells at the place where it stands if none went before.
    #[inline(always)]
    pub fn service(&self, slot: Slot, place: usize) -> Service
        ensures served { IsServedSo (value_under self.now slot) result }
        ensures sound { IsTable self.now }
    {
        match self.notes.at(place) {
            Some(note) if note.slot == slot => note.service,
            _ => Service::Owed,
        }
    }

    /// Whether a round of writing may do something. Where it may not, it does nothing on any connection.
    pub fn may_write(&self) -> bool
        ensures { result ≡ false → All (λ e. has_to_write e.value ≡ false) self.now.entries }
    {
        self.watch.writes
    }

    /// Looks at all connections anew, after a stage that went over them.
    pub fn watch_anew(&mut self)
        ensures { self.new ≡ self.old }
    {
        let mut watch = Watch::new();
        let mut place = 0;
        while let Some(entry) = self.table.at(place) {
            watch.note(&entry.value);
            place += 1;
        }
        self.watch = watch;
    }

    /// Looks at all connections anew where one may have owed a packet.
    pub fn watch_owed(&mut self)
        ensures { self.new ≡ self.old }
    {
        if self.watch.owes {
            self.watch_anew();
        }
    }

    /// The packet that the connection in a slot owes, if it owes one, and its header.
    pub fn owed(&self, slot: Slot, cid: u64) -> Option<(Owed, Header)>
        ensures none { IfNone result (IfSome (entry_under self.now slot) (λ e. owes_of e.value.end ≡ None)) }
        ensures some { IfSome result (λ (what, header). IsSomeAnd (entry_under self.now slot) (λ e. (owes_of e.value.end ≡ Some what) × (header ≡ owed_header e.value.end (route_to_guest cid e.flow) what))) }
    {
        let connection = self.table.get(slot)?;
        let what = connection.owes()?;
        let flow = self.table.flow_of(slot)?;
        Some((
            what,
            connection.owed_header(route_to_guest(cid, flow), what),
        ))
    }

    /// The header of an RW with `len` bytes of payload on the connection in a slot.
    pub fn payload_header(&self, slot: Slot, cid: u64, len: u32) -> Option<Header>
        ensures { result ≡ option_map (λ e. payload_header e.value.end (route_to_guest cid e.flow) len) (entry_under self.now slot) }
    {
        let flow = self.table.flow_of(slot)?;
        let connection = self.table.get(slot)?;
        Some(connection.payload_header(route_to_guest(cid, flow), len))
    }

    /// A connection opens that a client of the host asks for, on the client's stream. Its slot is returned.
    pub fn open_client(&mut self, flow: Flow, stream: u64) -> Slot
        requires place { has_place self.old ≡ true }
        requires unknown { entry_of self.old flow ≡ None }
        ensures opened { self.new ≡ with_entry self.old flow (new_connection (asked Stream BUF_ALLOC) stream true) }
        ensures slot { result ≡ self.old.given }
    {
        let connection = Connection::client(stream, self.spare.take_last());
        self.watch.note(&connection);
        let slot = insert(&mut self.table, flow, connection);
        self.order = slots_of(&self.table);
        self.notes = Notes::of(&self.table);
        slot
    }

    /// A connection opens that the guest's REQUEST asks for, on the stream that a dial gave.
    pub fn open_dialed(&mut self, flow: Flow, request: &Header, stream: u64)
        requires place { has_place self.old ≡ true }
        requires unknown { entry_of self.old flow ≡ None }
        ensures { self.new ≡ with_entry self.old flow (new_connection (answering Stream BUF_ALLOC request.now) stream false) }
    {
        let connection = Connection::dialed(stream, request, self.spare.take_last());
        self.watch.note(&connection);
        insert(&mut self.table, flow, connection);
        self.order = slots_of(&self.table);
        self.notes = Notes::of(&self.table);
    }

    /// All connections leave the table.
    pub fn clear(&mut self)
        ensures { self.new ≡ emptied self.old }
    {
        while let Some(slot) = self.first() {
            self.leave(slot);
        }
    }

    // The slot of the connection that was opened first of those in the table.
    fn first(&self) -> Option<Slot>
        ensures first { result ≡ option_map (λ e. e.slot) (slice_get self.now.entries 0) }
        ensures sound { IsTable self.now }
    {
        Some(self.table.at(0)?.slot)
    }

    /// The connection in a slot leaves the table, and its slot is free.
    pub fn leave(&mut self, slot: Slot)
        ensures { self.new ≡ without self.old slot }
    {
        let Some(connection) = self.table.remove(slot) else {
            return;
        };
        self.spare.push_reserved(connection.into_buffers());
        self.order = slots_of(&self.table);
        self.notes = Notes::of(&self.table);
    }
}

#[tactic(auto, using(crate::proofs::SlotChanges::kept_with_value))]
impl Slots {
    /// Takes a packet of the connection in a slot, and says what its end says to it.
    pub fn on_packet(&mut self, slot: Slot, header: &Header) -> Verdict
        ensures verdict { (c : DeviceConnection) → value_under self.old slot ≡ Some c → result ≡ verdict_of c.end header.now }
        ensures left { (c : DeviceConnection) → value_under self.old slot ≡ Some c → self.new ≡ with_value self.old slot (heard header.now c) }
        ensures room { (c : DeviceConnection) → value_under self.old slot ≡ Some c → result ≡ Deliver → length c.pending + header.now.len ≤ unread_of (heard header.now c).end.credit }
        ensures most { (c : DeviceConnection) → value_under self.old slot ≡ Some c → result ≡ Deliver → header.now.len ≤ BUF_ALLOC_MAX }
        ensures delivers { (c : DeviceConnection) → value_under self.old slot ≡ Some c → result ≡ Deliver → may_shut (heard header.now c).end.state ≡ true }
        ensures accepts { (c : DeviceConnection) → value_under self.old slot ≡ Some c → result ≡ Accept → may_shut (heard header.now c).end.state ≡ true }
    {
        let Some(connection) = self.table.get_mut(slot) else {
            return Verdict::Ignore;
        };
        let verdict = connection.on_packet(header);
        note(&mut self.watch, &mut self.notes, slot, connection);
        verdict
    }

    /// The connection in a slot stands since its RESPONSE came.
    pub fn accept(&mut self, slot: Slot)
        requires stands { IfSome (value_under self.old slot) (λ c. may_shut c.end.state ≡ true) }
        ensures left { (e : DeviceEntry) → entry_under self.old slot ≡ Some e → self.new ≡ with_value self.old slot (record e.value { ok_line = if e.value.by_client then ok_text e.flow.host else [] }) }
    {
        let Some(flow) = self.table.flow_of(slot) else {
            return;
        };
        let Some(connection) = self.table.get_mut(slot) else {
            return;
        };
        connection.accept(flow.host);
        note(&mut self.watch, &mut self.notes, slot, connection);
    }

    /// Payload that the end of the connection in a slot delivers is to be written.
    pub fn deliver(&mut self, slot: Slot, payload: &[u8])
        requires stands { IfSome (value_under self.old slot) (λ c. may_shut c.end.state ≡ true) }
        requires room { IfSome (value_under self.old slot) (λ c. length c.pending + length payload.now ≤ unread_of c.end.credit) }
        ensures left { (c : DeviceConnection) → value_under self.old slot ≡ Some c → self.new ≡ with_value self.old slot (record c { pending = c.pending ++ payload.now }) }
    {
        let Some(connection) = self.table.get_mut(slot) else {
            return;
        };
        connection.deliver(payload);
        note(&mut self.watch, &mut self.notes, slot, connection);
    }

    /// The stream of the connection in a slot is closed.
    pub fn stream_closed(&mut self, slot: Slot)
        ensures left { (c : DeviceConnection) → value_under self.old slot ≡ Some c → self.new ≡ with_value self.old slot (stream_closed c) }
    {
        let Some(connection) = self.table.get_mut(slot) else {
            return;
        };
        connection.stream_closed();
        note(&mut self.watch, &mut self.notes, slot, connection);
    }

    /// The connection in a slot is over, and its stream is closed.
    pub fn cut_off(&mut self, slot: Slot)
        ensures left { (c : DeviceConnection) → value_under self.old slot ≡ Some c → self.new ≡ with_value self.old slot (cut_off c) }
    {
        let Some(connection) = self.table.get_mut(slot) else {
            return;
        };
        connection.cut_off();
        note(&mut self.watch, &mut self.notes, slot, connection);
    }

    /// Shuts directions of the connection in a slot, at a moment.
    pub fn shut(&mut self, slot: Slot, bits: u8, now: u64)
        requires state { IfSome (value_under self.old slot) (λ c. may_shut c.end.state ≡ true) }
        requires bits { (1 ≤ bits) × (bits ≤ 3) }
        ensures left { (c : DeviceConnection) → value_under self.old slot ≡ Some c → self.new ≡ with_value self.old slot (after_shut bits now c) }
    {
        let Some(connection) = self.table.get_mut(slot) else {
            return;
        };
        connection.shut(bits, now);
        note(&mut self.watch, &mut self.notes, slot, connection);
    }

    /// The stream of the connection in a slot took the first `n` of the bytes that were to be written.
    pub fn written(&mut self, slot: Slot, n: usize)
        requires { IfSome (value_under self.old slot) (λ c. n ≤ length c.ok_line + length c.pending) }
        ensures left { (c : DeviceConnection) → value_under self.old slot ≡ Some c → self.new ≡ with_value self.old slot (after_written n c) }
    {
        let Some(connection) = self.table.get_mut(slot) else {
            return;
        };
        connection.written(n);
        note(&mut self.watch, &mut self.notes, slot, connection);
    }

    /// The side that the device writes to is shut, of the stream of the connection in a slot.
    pub fn write_shut(&mut self, slot: Slot)
        ensures left { (c : DeviceConnection) → value_under self.old slot ≡ Some c → self.new ≡ with_value self.old slot (record c { write_shut = true }) }
    {
        let Some(connection) = self.table.get_mut(slot) else {
            return;
        };
        connection.write_shut();
        note(&mut self.watch, &mut self.notes, slot, connection);
    }

    /// Notes that the connection in a slot had no credit for what was to be sent.
    pub fn want_credit(&mut self, slot: Slot)
        requires live { IfSome (value_under self.old slot) (λ c. c.end.state ≡ Live) }
        requires none { IfSome (value_under self.old slot) (λ c. free_of c.end.credit ≡ 0) }
        ensures left { (c : DeviceConnection) → value_under self.old slot ≡ Some c → self.new ≡ with_value self.old slot (record c { end = wanting_credit c.end }) }
    {
        let Some(connection) = self.table.get_mut(slot) else {
            return;
        };
        connection.want_credit();
        note(&mut self.watch, &mut self.notes, slot, connection);
    }

    /// Raises the buffer space of the connection in a slot to `alloc` bytes.
    pub fn grow(&mut self, slot: Slot, alloc: u32)
        requires may { IfSome (value_under self.old slot) (λ c. grow_answer c.end.state alloc c.end ≡ Done) }
        ensures left { (c : DeviceConnection) → value_under self.old slot ≡ Some c → self.new ≡ with_value self.old slot (record c { end = grown c.end alloc }) }
    {
        let Some(connection) = self.table.get_mut(slot) else {
            return;
        };
        connection.grow(alloc);
        note(&mut self.watch, &mut self.notes, slot, connection);
    }

    /// Counts `n` bytes as sent on the connection in a slot.
    pub fn sent(&mut self, slot: Slot, n: u32)
        requires credit { IfSome (value_under self.old slot) (λ c. CanSend c.end n) }
        ensures left { (c : DeviceConnection) → value_under self.old slot ≡ Some c → self.new ≡ with_value self.old slot (record c { end = with_payload_sent c.end n }) }
    {
        let Some(connection) = self.table.get_mut(slot) else {
            return;
        };
        connection.sent(n);
        note(&mut self.watch, &mut self.notes, slot, connection);
    }

    /// Counts a packet that the connection in a slot owed as put, at a moment.
    pub fn paid(&mut self, slot: Slot, what: Owed, now: u64)
        requires owed { IfSome (value_under self.old slot) (λ c. owes_of c.end ≡ Some what) }
        ensures left { (c : DeviceConnection) → value_under self.old slot ≡ Some c → self.new ≡ with_value self.old slot (paid_connection what now c) }
    {
        let Some(connection) = self.table.get_mut(slot) else {
            return;
        };
        connection.paid(what, now);
        note(&mut self.watch, &mut self.notes, slot, connection);
    }
}

/// The route of packets on a flow to the guest.
pub fn route_to_guest(cid: u64, flow: Flow) -> Route
    ensures { result ≡ route_to_guest cid flow }
{
    Route {
        src_cid: flow.peer,
        dst_cid: cid,
        src_port: flow.host,
        dst_port: flow.guest,
    }
}

// Puts a connection into the table, where there is room and its flow is new, and returns its slot.
fn insert(table: &mut FlowTable<Connection>, flow: Flow, connection: Connection) -> Slot
    requires place { has_place table.old ≡ true }
    requires unknown { entry_of table.old flow ≡ None }
    ensures opened { table.new ≡ with_entry table.old flow connection }
    ensures slot { result ≡ table.old.given }
{
    match table.insert(flow, connection) {
        Ok(slot) => slot,
        Err(_) => unreachable!(),
    }
}

// All slots of a table, by rising slot.
fn slots_of(table: &FlowTable<Connection>) -> ArrayVec<Slot, DEVICE_CONNECTIONS>
    requires most { length table.now.entries ≤ DEVICE_CONNECTIONS }
    ensures { result.items ≡ slots table.now }
{
    let mut all = ArrayVec::new();
    let mut place = 0;
    while let Some(entry) = table.at(place) {
        all.push(entry.slot);
        place += 1;
    }
    all
}

// Notes anew the connection in a slot, which may have changed.
fn note(watch: &mut Watch, notes: &mut Notes, slot: Slot, connection: &Connection)
    ensures watched { IsWatched watch.new connection.now }
    ensures others { (c : DeviceConnection) → IsWatched watch.old c → IsWatched watch.new c }
    ensures noted { notes.new ≡ map (renoted (note_of slot connection.now)) notes.old }
{
    watch.note(connection);
    notes.put(Note::of(slot, connection));
}

// The buffers of all slots.
fn all_buffers(alloc: Global) -> Result<Vec<Buffers>, AllocError>
    ensures all { IfOk result (λ v. length v.items ≡ DEVICE_CONNECTIONS) }
    ensures spare { IfOk result (λ v. All IsSpare v.items) }
    ensures room { IfOk result (λ v. DEVICE_CONNECTIONS ≤ vec_capacity v) }
{
    let mut all = Vec::with_capacity(alloc, DEVICE_CONNECTIONS)?;
    for _ in 0..DEVICE_CONNECTIONS {
        all.push_reserved(spare_buffers(alloc)?);
    }
    Ok(all)
}

// The buffers of one slot.
fn spare_buffers(alloc: Global) -> Result<Buffers, AllocError>
    ensures { IfOk result IsSpare }
{
    Ok(Buffers {
        ok_line: ByteFifo::new(alloc, OK_MAX)?,
        pending: ByteFifo::new(alloc, BUFFER_LEN)?,
    })
}
