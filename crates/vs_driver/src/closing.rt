//! Shutting a connection's directions and closing it (Virtio 1.2, section 5.10.6.5), and listening on a port no more.

ghost use Rattle.std.specs.Prelude.{◌≡◌, ℕ, Bool, ◌≤◌, [], true, false, Some, is_some, if◌then◌else◌, OnOk, OnErr, IsOk, ◌↔◌, IsTrue};
ghost use Rattle.vs_conn.specs.Shut.{shut_of};
ghost use Rattle.vs_flow.specs.Table.{entry_under};
ghost use Rattle.vs_driver_parts.specs.{State.{DriverEntry, gone_known_as}, Listening.listener_on, Connections.{state_of, unread_of_id, shutdown_of, after_shutdown, after_close}};
ghost use Rattle.vs_driver_parts.specs.Connections.{close_of, after_unlisten, shut_answer, shut_in, entry_closed, gone_closed};
ghost use Rattle.vs_driver.specs.Pipes.{IfShut, KeepsOthers, UnlessShut, receives};
ghost use Rattle.vs_ring_port.specs.Contents.{RingContents};
ghost use Rattle.laws_driver.specs.Honest.{IsHonestWith};
ghost use Rattle.vs_driver_parts.specs.declared.answers.Closed.TheVariants as closed;
ghost use Rattle.vs_driver_parts.specs.declared.answers.ConnectionState.TheVariants as seen;

use crate::driver::Driver;
use vs_conn::State;
use vs_driver_parts::answers::{Closed, ConnId, NotListening, Shut};
use vs_flow::Slot;

impl Driver {
    /// Shuts directions of a connection: bit 0 of `bits` to receive no more, bit 1 to send no more, 1 to 3 in all. What is unread is dropped
    /// where nothing is to be received any more. The host hears of it by a later packet.
    ///
    /// `Unknown` comes exactly where no connection has the id, `NotOpen` exactly where it isn't open yet, and `Reset` exactly where it ended or
    /// is over. Then nothing changes.
    pub fn shutdown(&mut self, id: ConnId, bits: u8) -> Shut
        requires bits { (1 ≤ bits) × (bits ≤ 3) }
        ensures answer { result ≡ shutdown_of id self.old }
        ensures state { self.new ≡ after_shutdown id bits self.old }
        ensures dropped { IfShut result ((shut_of bits).receive ≡ true → unread_of_id id self.new ≡ []) }
        ensures kept { receives id self.old ≡ true → (shut_of bits).receive ≡ false → unread_of_id id self.new ≡ unread_of_id id self.old }
        ensures others { KeepsOthers id self.old self.new }
        ensures unchanged { UnlessShut result (self.new ≡ self.old) }
        ensures honest { (hosts : Bool) (first : ℕ) (c : RingContents) → IsHonestWith hosts first self.old c → IsHonestWith hosts first self.new c }
    {
        match self.slots.known_as(id) {
            Some(slot) => self.shutdown_in(slot, bits),
            None if self.slots.gone_as(id).is_some() => Shut::Reset,
            None => Shut::Unknown,
        }
    }

    // Shuts directions of the connection in a slot.
    fn shutdown_in(&mut self, slot: Slot, bits: u8) -> Shut
        requires bits { (1 ≤ bits) × (bits ≤ 3) }
        ensures answer { (e : DriverEntry) → entry_under self.old.table slot ≡ Some e → result ≡ shut_answer e.value.end.state }
        ensures state { (e : DriverEntry) → entry_under self.old.table slot ≡ Some e → self.new ≡ shut_in e.value.end.state bits e self.old }
    {
        let Some(connection) = self.slots.connection(slot) else {
            return Shut::Unknown;
        };
        match connection.state() {
            State::Asked | State::Answering => Shut::NotOpen,
            State::Ended => Shut::Reset,
            State::Live => {
                self.slots.shutdown(slot, bits);
                Shut::Done
            }
        }
    }

    /// Closes a connection: its id is unknown from now on, and it waits on no port any more. One that is open shuts both directions, one that
    /// isn't open yet is aborted, and one that is over frees its slot. `Unknown` comes exactly where no connection has the id.
    pub fn close(&mut self, id: ConnId) -> Closed
        ensures answer { result ≡ close_of id self.old }
        ensures state { self.new ≡ after_close id self.old }
        ensures unknown { state_of id self.new ≡ seen.Unknown }
        ensures others { KeepsOthers id self.old self.new }
        ensures honest { (hosts : Bool) (first : ℕ) (c : RingContents) → IsHonestWith hosts first self.old c → IsHonestWith hosts first self.new c }
    {
        match self.slots.known_as(id) {
            Some(slot) => self.close_in(slot, id),
            None => self.close_gone(id),
        }
    }

    // Closes the connection in a slot, which has this id.
    fn close_in(&mut self, slot: Slot, id: ConnId) -> Closed
        ensures state { (e : DriverEntry) → entry_under self.old.table slot ≡ Some e → e.value.id ≡ id → self.new ≡ entry_closed e self.old }
        ensures answer { is_some (entry_under self.old.table slot) ≡ true → result ≡ closed.Done }
        ensures unknown { (e : DriverEntry) → entry_under self.old.table slot ≡ Some e → e.value.id ≡ id → state_of id self.new ≡ seen.Unknown }
    {
        let Some(flow) = self.slots.flow_of(slot) else {
            return Closed::Unknown;
        };
        self.slots.close(slot);
        self.listeners.leave(flow.guest, id);
        Closed::Done
    }

    // Lets go of the connection that is gone under an id, if there is one.
    fn close_gone(&mut self, id: ConnId) -> Closed
        ensures answer { result ≡ (if is_some (gone_known_as id self.old) then closed.Done else closed.Unknown) }
        ensures state { self.new ≡ gone_closed id self.old }
    {
        match self.slots.close_gone(id) {
            Some(flow) => {
                self.listeners.leave(flow.guest, id);
                Closed::Done
            }
            None => Closed::Unknown,
        }
    }

    /// Listens on a port no more. The connections that wait there are closed, as by `close`, oldest first. `NotListening` comes exactly where
    /// nobody listens on the port. Then nothing changes.
    pub fn unlisten(&mut self, port: u32) -> Result<(), NotListening>
        ensures answer { IsOk result ↔ IsTrue (is_some (listener_on port self.old.listeners)) }
        ensures state { OnOk result (self.new ≡ after_unlisten port self.old) }
        ensures unchanged { OnErr result (self.new ≡ self.old) }
        ensures honest { (hosts : Bool) (first : ℕ) (c : RingContents) → IsHonestWith hosts first self.old c → IsHonestWith hosts first self.new c }
    {
        if !self.listeners.is_listened(port) {
            return Err(NotListening);
        }
        let waiting = self.listeners.all_waiting(port);
        for id in waiting.as_slice() {
            self.close(*id);
        }
        self.listeners.unlisten(port);
        Ok(())
    }
}
