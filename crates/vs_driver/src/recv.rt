//! Reading what came in on a connection (Virtio 1.2, section 5.10.6.3).

ghost use Rattle.std.specs.{Option.option_map_or, Prelude.{◌≡◌, ℕ, Bool, ◌++◌, ◌||◌, [], length, Some, if◌then◌else◌}};
ghost use Rattle.vs_conn.specs.{End.{ConnectionEnd, view_of}, Shut.shut_of};
ghost use Rattle.vs_flow.specs.Table.{entry_under};
ghost use Rattle.vs_driver_parts.specs.{State.{DriverEntry, gone_known_as}, Connections.{recv_of, unread_of_id, after_recv, is_at_end, nothing_read, all_gone_after_read}};
ghost use Rattle.vs_driver_parts.specs.Connections.{gone_answer, entry_answer, entry_read, bytes_read};
ghost use Rattle.vs_driver.specs.Pipes.{KeepsOthers, UnlessGot, bytes_given};
ghost use Rattle.vs_ring_port.specs.Contents.{RingContents};
ghost use Rattle.laws_driver.specs.Honest.{IsHonestWith};
ghost use Rattle.vs_driver_parts.specs.declared.answers.Received.TheVariants as got;

use crate::driver::Driver;
use vs_conn::{EndView, Shut, State};
use vs_driver_parts::answers::{ConnId, Received};
use vs_flow::Slot;

impl Driver {
    /// Moves the first unread bytes of a connection to the front of `out`, as many as it holds. The rest of `out` stays. The bytes count as
    /// forwarded: the host hears of it with a later packet on the connection.
    ///
    /// `Unknown` comes exactly where no connection has the id. `Got` comes exactly where bytes are unread; else `End` where the host sends no
    /// more or this end receives no more, `NotOpen` where the connection isn't open yet, `Reset` where it ended or is over, and `Empty` where
    /// it is open.
    pub fn recv(&mut self, id: ConnId, out: &mut [u8]) -> Received
        ensures answer { result ≡ recv_of id (length out.old) self.old }
        ensures bytes { out.new ≡ bytes_read (unread_of_id id self.old) out.old }
        ensures state { self.new ≡ after_recv id (length out.old) self.old }
        ensures pipe { bytes_given result out.new ++ unread_of_id id self.new ≡ unread_of_id id self.old }
        ensures others { KeepsOthers id self.old self.new }
        ensures unchanged { UnlessGot result (self.new ≡ self.old) }
        ensures honest { (hosts : Bool) (first : ℕ) (c : RingContents) → IsHonestWith hosts first self.old c → IsHonestWith hosts first self.new c }
    {
        match self.slots.known_as(id) {
            Some(slot) => self.recv_in(slot, out),
            None => self.recv_gone(id, out),
        }
    }

    // Reads on the connection in a slot.
    fn recv_in(&mut self, slot: Slot, out: &mut [u8]) -> Received
        ensures unchanged { UnlessGot result (self.new ≡ self.old) }
        ensures answer { (e : DriverEntry) → entry_under self.old.table slot ≡ Some e → result ≡ entry_answer (length out.old) e }
        ensures bytes { (e : DriverEntry) → entry_under self.old.table slot ≡ Some e → out.new ≡ bytes_read e.value.unread out.old }
        ensures state { (e : DriverEntry) → entry_under self.old.table slot ≡ Some e → self.new ≡ entry_read (length out.old) e self.old }
    {
        let Some(connection) = self.slots.connection(slot) else {
            return Received::Unknown;
        };
        if connection.is_empty() {
            return nothing_read(connection.end());
        }
        Received::Got(self.slots.read(slot, out))
    }

    // Reads on the connection that is gone under an id, if there is one.
    fn recv_gone(&mut self, id: ConnId, out: &mut [u8]) -> Received
        ensures unchanged { UnlessGot result (self.new ≡ self.old) }
        ensures answer { result ≡ option_map_or (λ g. gone_answer (length out.old) g) (gone_known_as id self.old) got.Unknown }
        ensures bytes { out.new ≡ bytes_read (option_map_or (λ g. g.unread) (gone_known_as id self.old) []) out.old }
        ensures state { self.new ≡ record self.old { gone = all_gone_after_read id (length out.old) self.old.gone } }
    {
        let Some(gone) = self.slots.gone_as(id) else {
            return Received::Unknown;
        };
        let is_empty = gone.is_empty();
        let at_end = is_at_end(gone.end());
        let count = self.slots.read_gone(id, out);
        if !is_empty {
            Received::Got(count)
        } else if at_end {
            Received::End
        } else {
            Received::Reset
        }
    }
}

// Whether nothing comes any more: the peer sends no more, or this end receives no more.
fn is_at_end(end: EndView) -> bool
    ensures test { result ≡ ((shut_of end.got).send || (shut_of end.put).receive) }
    ensures end { (e : ConnectionEnd) → end ≡ view_of e → result ≡ is_at_end e }
{
    Shut::of(u32::from(end.got)).send || Shut::of(u32::from(end.put)).receive
}

// What a receive answers on a connection of the table where no byte is unread.
fn nothing_read(end: EndView) -> Received
    ensures { (e : ConnectionEnd) → end ≡ view_of e → result ≡ (if is_at_end e then got.End else nothing_read e.state) }
{
    if is_at_end(end) {
        return Received::End;
    }
    match end.state {
        State::Asked | State::Answering => Received::NotOpen,
        State::Live => Received::Empty,
        State::Ended => Received::Reset,
    }
}
