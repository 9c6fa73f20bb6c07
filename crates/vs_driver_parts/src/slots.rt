//! The driver's slots: connections of the table, those that are gone and not closed, and the buffers of free slots.

ghost use Rattle.std.specs.Prelude.{◌≡◌, ◌<◌, ◌≤◌, ◌++◌, ◌==◌, [], true, false, length, min, take, drop, find, Some, None, IfOk, IfSome, IfNone, IsSomeAnd, option_copied};
ghost use Rattle.std.specs.{Prelude.{position, remove, slice_get, ◌^◌, vec_capacity, ◌+◌, ◌&&◌, not, ℕ, List}, List.All, Option.option_map};
ghost use Rattle.vs_conn.specs.{Headers.{owed_header, payload_header}, End.{CanSend, answering, grown, may_send_of, owes_of, verdict_of, may_shut, with_payload_sent}};
ghost use Rattle.vs_conn.specs.{End.wanting_credit, declared.end.State.TheVariants.Live, Shut.is_both};
ghost use Rattle.vs_credit.specs.Credit.{free_of};
ghost use Rattle.vs_flow.specs.{CleanPairs.kept_if, Flow.host_asks, Table.{IsTable, entry_of, entry_under, slots, value_under, with_entry}};
ghost use Rattle.laws_history.specs.{declared.packet.Packet.Packet, Packets.is_clean_rst};
ghost use Rattle.vs_page.specs.Held.{IsWhole};
ghost use Rattle.vs_limits.specs.declared.TheConstants.{BUF_ALLOC_MAX, LAST_PORT, LAST_ID, DRIVER_CONNECTIONS};
ghost use Rattle.vs_driver_parts.specs.{State.{DriverEntry, DriverConnection, GoneConnection, is_known_as}, Connections.{route_to_host, after_read, after_shut, after_closing}};
ghost use Rattle.vs_driver_parts.specs.{Connections.{OweNothing, paid_connection, without_gone, all_gone_after_read, free_flow}, Receiving.{after_packet, reset_reply}};
ghost use Rattle.vs_driver_parts.specs.{Room.IsSpare, Held.{KnowsNone, no_slots, held_in, with_asked_in, with_answering_in, with_connection_in, left_in, kept_in, host_kept_in}};
ghost use Rattle.laws_tables.specs.Steps.{port_after};

use crate::answers::ConnId;
use crate::connection::Connection;
use crate::gone::Gone;
use crate::owing::{Owing, looked_at, noted, noted_new};
use crate::route::route_to_host;
use arrayvec::ArrayVec;
use std::alloc::{AllocError, Global};
use std::marker::Model;
use vs_buffer::ByteFifo;
use vs_conn::{Owed, Stop, Verdict};
use vs_flow::{CleanPairs, Entry, Flow, FlowTable, Slot};
use vs_header::Header;
use vs_limits::{BUF_ALLOC_MAX, DRIVER_CONNECTIONS, LAST_PORT};
use vs_replies::Reply;

/// Bytes of a connection's receive buffer: all that its buffer space may be raised to.
pub const BUFFER_LEN: usize = BUF_ALLOC_MAX as usize;

/// The connections, each in a slot of its own, and the numbers that are given to them. A connection gets the next slot and the next id
/// together.
#[derive(Drop)]
pub struct Slots {
    // The id that the first slot has.
    first_id: u64,
    next_port: u32,
    next_id: u64,
    last_port: u32,
    last_id: u32,
    table: FlowTable<Connection>,
    gone: Vec<Gone>,
    clean: CleanPairs,
    // The buffers of the free slots.
    spare: Vec<ByteFifo>,
    // Which connections may owe a packet.
    owes: Owing,
}

impl Model for Slots {
    ghost use Rattle.vs_driver_parts.specs.Held.{HeldSlots};

    ghost Value = { HeldSlots };

    ghost use Rattle.vs_driver_parts.specs.SlotFields.{AreKept};

    ghost view = { λ s. record {
      next_port = s.next_port;
      next_id = s.next_id;
      last_port = s.last_port;
      last_id = s.last_id;
      table = s.table;
      gone = s.gone.items;
      clean = s.clean;
    } };

    ghost invariant = { AreKept };
}

impl Slots {
    /// The slots of a driver that has no connection yet, and gives guest ports from `port` on and ids from `id` on. All memory is taken
    /// here.
    #[tactic(auto, unfolding(crate::specs::SlotFields::AreClean))]
    pub fn new(alloc: Global, port: u32, id: ConnId) -> Result<Slots, AllocError>
        requires port { port ≤ LAST_PORT }
        ensures { IfOk result (λ s. s ≡ no_slots port id) }
    {
        Ok(Slots {
            first_id: u64::from(id),
            next_port: port,
            next_id: u64::from(id),
            last_port: 0,
            last_id: 0,
            table: FlowTable::new(alloc, DRIVER_CONNECTIONS)?,
            gone: Vec::with_capacity(alloc, DRIVER_CONNECTIONS)?,
            clean: CleanPairs::new(alloc)?,
            spare: buffers(alloc)?,
            owes: Owing::Nobody,
        })
    }

    /// How many slots are held.
    pub fn held(&self) -> usize
        ensures held { result ≡ held_in self.now }
        ensures most { result ≤ DRIVER_CONNECTIONS }
    {
        self.table.len() + self.gone.len()
    }

    /// How many connections the table has.
    pub fn open(&self) -> usize
        ensures count { result ≡ length self.now.table.entries }
        ensures most { result ≤ DRIVER_CONNECTIONS }
    {
        self.table.len()
    }

    /// The flow of the next connection of this side to a port of a peer. `None` comes exactly where the last guest port was given and no flow
    /// to that port may be used again.
    pub fn next_flow(&self, peer: u64, port: u32) -> Option<Flow>
        ensures { result ≡ free_flow peer port self.now.next_port self.now.clean }
    {
        if self.next_port <= LAST_PORT {
            return Some(Flow {
                guest: self.next_port,
                host: port,
                peer,
            });
        }
        self.clean.oldest_to(peer, port)
    }

    /// The id that the next connection gets, up to 2^32.
    pub fn next_id(&self) -> u64
        ensures { result ≡ self.now.next_id }
    {
        self.next_id
    }

    /// The guest port and the id that were given last, 0 where none was.
    pub fn last(&self) -> (u32, u32)
        ensures { result ≡ (self.now.last_port, self.now.last_id) }
    {
        (self.last_port, self.last_id)
    }

    /// The slot of the connection of the table that the application knows by an id.
    pub fn known_as(&self, id: ConnId) -> Option<Slot>
        ensures slot { result ≡ option_map (λ e. e.slot) (find (is_known_as id) self.now.table.entries) }
        ensures sound { IsTable self.now.table }
    {
        let slot = u64::from(id).checked_sub(self.first_id)?;
        let connection = self.table.get(slot)?;
        if connection.is_closed() {
            return None;
        }
        Some(slot)
    }

    /// The connection of the table that the application knows by an id.
    pub fn known(&self, id: ConnId) -> Option<&Connection>
        ensures { option_copied result ≡ option_map (λ e. e.value) (find (is_known_as id) self.now.table.entries) }
    {
        let slot = self.known_as(id)?;
        self.table.get(slot)
    }

    /// The slot of the connection of a flow.
    pub fn by_flow(&self, flow: Flow) -> Option<Slot>
        ensures slot { result ≡ option_map (λ e. e.slot) (entry_of self.now.table flow) }
        ensures sound { IsTable self.now.table }
    {
        self.table.by_flow(flow)
    }

    /// The flow of the connection in a slot.
    pub fn flow_of(&self, slot: Slot) -> Option<Flow>
        ensures { result ≡ option_map (λ e. e.flow) (entry_under self.now.table slot) }
    {
        self.table.flow_of(slot)
    }

    /// The connection in a slot.
    pub fn connection(&self, slot: Slot) -> Option<&Connection>
        ensures { option_copied result ≡ value_under self.now.table slot }
    {
        self.table.get(slot)
    }

    /// The bytes that may be sent now on the connection in a slot, or why none may.
    pub fn may_send(&self, slot: Slot) -> Option<Result<u32, Stop>>
        ensures { result ≡ option_map (λ e. may_send_of e.value.end) (entry_under self.now.table slot) }
    {
        Some(self.table.get(slot)?.may_send())
    }

    /// The header of an RW with `len` bytes of payload on the connection in a slot.
    pub fn payload_header(&self, slot: Slot, cid: u64, len: u32) -> Option<Header>
        ensures { result ≡ option_map (λ e. payload_header e.value.end (route_to_host cid e.flow) len) (entry_under self.now.table slot) }
    {
        let flow = self.table.flow_of(slot)?;
        let connection = self.table.get(slot)?;
        Some(connection.payload_header(route_to_host(cid, flow), len))
    }

    /// The packet that the connection in a slot owes, if it owes one, and its header.
    pub fn owed(&self, slot: Slot, cid: u64) -> Option<(Owed, Header)>
        ensures none { IfNone result (IfSome (entry_under self.now.table slot) (λ e. owes_of e.value.end ≡ None)) }
        ensures some { IfSome result (λ (what, header). IsSomeAnd (entry_under self.now.table slot) (λ e. (owes_of e.value.end ≡ Some what) × (header ≡ owed_header e.value.end (route_to_host cid e.flow) what))) }
    {
        let connection = self.table.get(slot)?;
        let what = connection.owes()?;
        let flow = self.table.flow_of(slot)?;
        Some((what, connection.owed_header(route_to_host(cid, flow), what)))
    }

    /// Whether a connection may owe a packet. Those that may have owed one are looked at.
    pub fn may_owe(&mut self) -> bool
        ensures same { self.new ≡ self.old }
        ensures none { result ≡ false → OweNothing self.old.table }
    {
        self.owes = looked_at(self.owes, &self.table);
        !matches!(self.owes, Owing::Nobody)
    }

    /// Whether the connection in a slot may owe a packet.
    #[inline(always)]
    pub fn may_owe_in(&self, slot: Slot) -> bool
        ensures none { result ≡ false → IfSome (entry_under self.now.table slot) (λ e. owes_of e.value.end ≡ None) }
    {
        self.owes.may_owe_in(slot)
    }

    /// Whether a packet ends the connection in a slot cleanly: a marked RST, where both directions were shut.
    pub fn ends_cleanly(&self, slot: Slot, header: &Header) -> bool
        ensures { (e : DriverEntry) (payload : List ℕ) → entry_under self.now.table slot ≡ Some e → let p : Packet = record { header = header.now; payload = payload } in result ≡ (is_both e.value.end.own && is_clean_rst p) }
    {
        match self.table.get(slot) {
            Some(connection) => connection.ends_cleanly(header),
            None => false,
        }
    }

    /// All slots of the table, by rising slot.
    pub fn all(&self) -> ArrayVec<Slot, DRIVER_CONNECTIONS>
        ensures all { result.items ≡ slots self.now.table }
        ensures most { length (slots self.now.table) ≤ DRIVER_CONNECTIONS }
    {
        let mut all = ArrayVec::new();
        let mut place = 0;
        while let Some(entry) = self.table.at(place) {
            all.push(entry.slot);
            place += 1;
        }
        all
    }

    /// The connection at a place of the table, counted from 0 by rising slot.
    pub fn at(&self, place: usize) -> Option<&Entry<Connection>>
        ensures { option_copied result ≡ slice_get self.now.table.entries place }
    {
        self.table.at(place)
    }

    /// The slot of the connection that was opened first of those in the table, and the RST that is owed once it has left at a transport
    /// reset.
    pub fn first(&self) -> Option<(Slot, Reply)>
        ensures first { result ≡ option_map (λ e. (e.slot, reset_reply e)) (slice_get self.now.table.entries 0) }
        ensures sound { IsTable self.now.table }
    {
        let entry = self.table.at(0)?;
        let reply = Reply {
            flow: entry.flow,
            kind: entry.value.kind(),
        };
        Some((entry.slot, reply))
    }

    /// The connection that is gone, and that the application knows by an id.
    pub fn gone_as(&self, id: ConnId) -> Option<&Gone>
        ensures { option_copied result ≡ find (λ g. g.id == id) self.now.gone }
    {
        self.gone.iter().find(|gone| gone.has_id(id))
    }

    /// A connection opens on the next flow to its port, and its REQUEST is put. Its id is returned.
    pub fn open_asked(&mut self, flow: Flow) -> ConnId
        requires free { held_in self.old < DRIVER_CONNECTIONS }
        requires next { free_flow flow.peer flow.host self.old.next_port self.old.clean ≡ Some flow }
        requires id { self.old.next_id ≤ LAST_ID }
        requires host { host_asks flow ≡ false }
        ensures opened { self.new ≡ with_asked_in flow self.old }
        ensures id { result ≡ self.old.next_id }
    {
        let id = self.next_id as u32;
        let connection = Connection::asked(id, self.spare.take_last());
        self.owes = noted_new(self.owes, &connection);
        insert(&mut self.table, flow, connection);
        let next = port_after(self.next_port, flow.guest);
        self.next_port = next;
        self.clean.remove(flow);
        self.last_port = flow.guest;
        self.last_id = id;
        self.next_id += 1;
        id
    }

    /// A connection opens that the host's REQUEST asks for. Its id is returned.
    pub fn open_answering(&mut self, flow: Flow, request: &Header) -> ConnId
        requires free { held_in self.old < DRIVER_CONNECTIONS }
        requires id { self.old.next_id ≤ LAST_ID }
        requires host { host_asks flow ≡ true }
        requires unknown { entry_of self.old.table flow ≡ None }
        ensures opened { self.new ≡ with_answering_in flow request.now self.old }
        ensures id { result ≡ self.old.next_id }
    {
        let id = self.next_id as u32;
        let connection = Connection::answering(id, request, self.spare.take_last());
        self.owes = noted_new(self.owes, &connection);
        insert(&mut self.table, flow, connection);
        self.last_id = id;
        self.next_id += 1;
        id
    }

    /// Of the flows that may be used again those with the host stay.
    pub fn keep_host(&mut self)
        ensures { self.new ≡ host_kept_in self.old }
    {
        self.clean.keep_host();
    }

    /// The connection in a slot leaves the table. It is gone then, or its slot is free where it was closed or never answered. Its flow may be
    /// used again where it ended cleanly and this side opened it.
    pub fn leave(&mut self, slot: Slot, cleanly: bool)
        ensures { (e : DriverEntry) → entry_under self.old.table slot ≡ Some e → self.new ≡ kept_in (cleanly && not (host_asks e.flow)) e.flow (left_in e self.old) }
    {
        let Some(flow) = self.table.flow_of(slot) else {
            return;
        };
        let Some(connection) = self.table.remove(slot) else {
            return;
        };
        keep_own(&mut self.clean, cleanly, flow);
        let id = connection.id();
        let let_go = connection.is_let_go();
        let (end, mut unread) = connection.into_parts();
        if let_go {
            unread.clear();
            self.spare.push_reserved(unread);
            return;
        }
        self.gone.push_reserved(Gone::new(id, flow, end, unread));
    }

    /// Moves the first unread bytes of the connection that is gone under an id to the front of `out`, as many as it holds, and says how
    /// many. The rest of `out` stays.
    pub fn read_gone(&mut self, id: ConnId, out: &mut [u8]) -> usize
        ensures count { (g : GoneConnection) → find (λ g. g.id == id) self.old.gone ≡ Some g → result ≡ min (length out.old) (length g.unread) }
        ensures moved { (g : GoneConnection) → find (λ g. g.id == id) self.old.gone ≡ Some g → out.new ≡ take result g.unread ++ drop result out.old }
        ensures left { self.new ≡ record self.old { gone = all_gone_after_read id (length out.old) self.old.gone } }
        ensures empty { (g : GoneConnection) → find (λ g. g.id == id) self.old.gone ≡ Some g → g.unread ≡ [] → self.new ≡ self.old }
    {
        match place_of(&self.gone, id) {
            Some(place) => {
                let gone = &mut self.gone[place];
                gone.read(out)
            }
            None => 0,
        }
    }

    /// Lets go of the connection that is gone under an id, and gives its flow. `None` comes where none is.
    pub fn close_gone(&mut self, id: ConnId) -> Option<Flow>
        ensures flow { result ≡ option_map (λ g. g.flow) (find (λ g. g.id == id) self.old.gone) }
        ensures left { self.new ≡ record self.old { gone = without_gone id self.old.gone } }
        ensures none { IfNone result (self.new ≡ self.old) }
    {
        match place_of(&self.gone, id) {
            Some(place) => Some(self.release(place)),
            None => None,
        }
    }

    // Lets go of the connection that is gone and stands at a place, and gives its flow.
    fn release(&mut self, place: usize) -> Flow
        requires { place < length self.old.gone }
        ensures flow { Some result ≡ option_map (λ g. g.flow) (slice_get self.old.gone place) }
        ensures left { self.new ≡ record self.old { gone = remove self.old.gone place } }
    {
        let gone = self.gone.remove(place);
        let flow = gone.flow();
        self.spare.push_reserved(gone.into_spare());
        flow
    }
}

impl Slots {
    /// Takes a packet of the connection in a slot, and says what its end says to it.
    pub fn on_packet(&mut self, slot: Slot, header: &Header, payload: &[u8]) -> Verdict
        requires whole { let p : Packet = record { header = header.now; payload = payload.now } in IsWhole p }
        ensures verdict { (c : DriverConnection) → value_under self.old.table slot ≡ Some c → result ≡ verdict_of c.end header.now }
        ensures left { (c : DriverConnection) → value_under self.old.table slot ≡ Some c → let p : Packet = record { header = header.now; payload = payload.now } in self.new ≡ with_connection_in slot (after_packet (verdict_of c.end header.now) p c) self.old }
    {
        let Some(connection) = self.table.get_mut(slot) else {
            return Verdict::Ignore;
        };
        let verdict = connection.on_packet(header, payload);
        self.owes = noted(self.owes, slot, connection);
        verdict
    }

    /// Counts a packet that the connection in a slot owed as put.
    pub fn paid(&mut self, slot: Slot, what: Owed)
        requires owed { IfSome (value_under self.old.table slot) (λ c. owes_of c.end ≡ Some what) }
        ensures left { (c : DriverConnection) → value_under self.old.table slot ≡ Some c → self.new ≡ with_connection_in slot (paid_connection what c) self.old }
    {
        let Some(connection) = self.table.get_mut(slot) else {
            return;
        };
        connection.paid(what);
        self.owes = noted(self.owes, slot, connection);
    }

    /// Counts `n` bytes as sent on the connection in a slot.
    pub fn sent(&mut self, slot: Slot, n: u32)
        requires credit { IfSome (value_under self.old.table slot) (λ c. CanSend c.end n) }
        ensures left { (c : DriverConnection) → value_under self.old.table slot ≡ Some c → self.new ≡ with_connection_in slot (record c { end = with_payload_sent c.end n }) self.old }
    {
        let Some(connection) = self.table.get_mut(slot) else {
            return;
        };
        connection.sent(n);
        self.owes = noted(self.owes, slot, connection);
    }

    /// Notes that the connection in a slot had no credit for what was to be sent.
    pub fn want_credit(&mut self, slot: Slot)
        requires live { IfSome (value_under self.old.table slot) (λ c. c.end.state ≡ Live) }
        requires none { IfSome (value_under self.old.table slot) (λ c. free_of c.end.credit ≡ 0) }
        ensures left { (c : DriverConnection) → value_under self.old.table slot ≡ Some c → self.new ≡ with_connection_in slot (record c { end = wanting_credit c.end }) self.old }
    {
        let Some(connection) = self.table.get_mut(slot) else {
            return;
        };
        connection.want_credit();
        self.owes = noted(self.owes, slot, connection);
    }

    /// Moves the first unread bytes of the connection in a slot to the front of `out`, as many as it holds. The rest of `out` stays.
    pub fn read(&mut self, slot: Slot, out: &mut [u8]) -> usize
        ensures count { (c : DriverConnection) → value_under self.old.table slot ≡ Some c → result ≡ min (length out.old) (length c.unread) }
        ensures moved { (c : DriverConnection) → value_under self.old.table slot ≡ Some c → out.new ≡ take result c.unread ++ drop result out.old }
        ensures left { (c : DriverConnection) → value_under self.old.table slot ≡ Some c → self.new ≡ with_connection_in slot (after_read (length out.old) c) self.old }
    {
        let Some(connection) = self.table.get_mut(slot) else {
            return 0;
        };
        let count = connection.read(out);
        self.owes = noted(self.owes, slot, connection);
        count
    }

    /// Shuts directions of the connection in a slot.
    pub fn shutdown(&mut self, slot: Slot, bits: u8)
        requires state { IfSome (value_under self.old.table slot) (λ c. may_shut c.end.state ≡ true) }
        requires bits { (1 ≤ bits) × (bits ≤ 3) }
        ensures left { (c : DriverConnection) → value_under self.old.table slot ≡ Some c → self.new ≡ with_connection_in slot (after_shut bits c) self.old }
    {
        let Some(connection) = self.table.get_mut(slot) else {
            return;
        };
        connection.shutdown(bits);
        self.owes = noted(self.owes, slot, connection);
    }

    /// Raises the buffer space of the connection in a slot to `alloc` bytes.
    pub fn grow(&mut self, slot: Slot, alloc: u32)
        requires live { IfSome (value_under self.old.table slot) (λ c. c.end.state ≡ Live) }
        requires rises { IfSome (value_under self.old.table slot) (λ c. c.end.credit.alloc ≤ alloc) }
        requires most { alloc ≤ BUF_ALLOC_MAX }
        ensures left { (c : DriverConnection) → value_under self.old.table slot ≡ Some c → self.new ≡ with_connection_in slot (record c { end = grown c.end alloc }) self.old }
    {
        let Some(connection) = self.table.get_mut(slot) else {
            return;
        };
        connection.grow(alloc);
        self.owes = noted(self.owes, slot, connection);
    }

    /// Closes the connection in a slot: the application knows it no more.
    pub fn close(&mut self, slot: Slot)
        ensures left { (c : DriverConnection) → value_under self.old.table slot ≡ Some c → self.new ≡ with_connection_in slot (after_closing c.end.state c) self.old }
        ensures unknown { (c : DriverConnection) → value_under self.old.table slot ≡ Some c → KnowsNone c.id self.new }
    {
        let Some(connection) = self.table.get_mut(slot) else {
            return;
        };
        connection.close();
        self.owes = noted(self.owes, slot, connection);
    }
}

// The guest port that is given next, once this one was given.
fn port_after(next: u32, port: u32) -> u32
    requires left { port ≤ LAST_PORT }
    ensures { result ≡ port_after next port }
{
    if next <= port {
        return port + 1;
    }
    next
}

// Keeps the flow of a connection that this side opened, where it ended cleanly.
fn keep_own(clean: &mut CleanPairs, cleanly: bool, flow: Flow)
    ensures { clean.new ≡ kept_if (cleanly && not (host_asks flow)) flow clean.old }
{
    if cleanly && !flow.host_asks() {
        clean.keep(flow);
    }
}

// The place of a connection that is gone.
fn place_of(gone: &[Gone], id: ConnId) -> Option<usize>
    ensures { result ≡ position (λ g. g.id == id) gone.now }
{
    gone.iter().position(|gone| gone.has_id(id))
}

// Puts a connection into the table, where there is room and its flow is new.
fn insert(table: &mut FlowTable<Connection>, flow: Flow, connection: Connection)
    requires room { length table.old.entries < table.old.room }
    requires slot { table.old.given < 2 ^ 64 }
    requires unknown { entry_of table.old flow ≡ None }
    ensures { table.new ≡ with_entry table.old flow connection }
{
    match table.insert(flow, connection) {
        Ok(_) => {}
        Err(_) => unreachable!(),
    }
}

// The buffers of all slots.
fn buffers(alloc: Global) -> Result<Vec<ByteFifo>, AllocError>
    ensures all { IfOk result (λ v. length v.items ≡ DRIVER_CONNECTIONS) }
    ensures spare { IfOk result (λ v. All IsSpare v.items) }
    ensures room { IfOk result (λ v. DRIVER_CONNECTIONS ≤ vec_capacity v) }
{
    let mut buffers = Vec::with_capacity(alloc, DRIVER_CONNECTIONS)?;
    for _ in 0..DRIVER_CONNECTIONS {
        buffers.push_reserved(ByteFifo::new(alloc, BUFFER_LEN)?);
    }
    Ok(buffers)
}
