//! Raising the buffer space of a connection (Virtio 1.2, section 5.10.6.3).

ghost use Rattle.std.specs.Prelude.{◌≡◌, ℕ, Bool, true, Some};
ghost use Rattle.vs_conn.specs.{End.{ConnectionEnd, view_of}, declared.end.Owed.TheVariants.CreditUpdate};
ghost use Rattle.vs_flow.specs.Table.{entry_under};
ghost use Rattle.vs_driver_parts.specs.{State.DriverEntry, Connections.{after_grow, entry_grow_answer, grow_answer, grow_of, grown_by, live_grow_answer, unread_of_id}};
ghost use Rattle.vs_driver.specs.Pipes.{IfGrown, KeepsOthers, UnlessGrown, owed_by, rises};
ghost use Rattle.vs_ring_port.specs.Contents.{RingContents};
ghost use Rattle.laws_driver.specs.Honest.{IsHonestWith};

use crate::driver::Driver;
use vs_conn::{EndView, State};
use vs_driver_parts::answers::{ConnId, Grown};
use vs_flow::Slot;
use vs_limits::BUF_ALLOC_MAX;

impl Driver {
    /// Raises the buffer space that a connection advertises to `alloc` bytes. The host hears of a rise by a CREDIT_UPDATE, which the next poll
    /// puts. No memory is taken: a connection's buffer has all its places from the driver's making.
    ///
    /// `Unknown` comes exactly where no connection has the id, `NotOpen` exactly where it isn't open yet, and `Reset` exactly where it ended or
    /// is over; on one that is open `TooBig` exactly where `alloc` is above 262,144, and else `Shrinks`, with the present buffer space, exactly
    /// where `alloc` is below it. Then nothing changes.
    pub fn grow(&mut self, id: ConnId, alloc: u32) -> Grown
        ensures answer { result ≡ grow_of id alloc self.old }
        ensures state { self.new ≡ after_grow id alloc self.old }
        ensures told { IfGrown result (rises id alloc self.old ≡ true → owed_by id self.new ≡ Some CreditUpdate) }
        ensures others { KeepsOthers id self.old self.new }
        ensures kept { unread_of_id id self.new ≡ unread_of_id id self.old }
        ensures unchanged { UnlessGrown result (self.new ≡ self.old) }
        ensures honest { (hosts : Bool) (first : ℕ) (c : RingContents) → IsHonestWith hosts first self.old c → IsHonestWith hosts first self.new c }
    {
        match self.slots.known_as(id) {
            Some(slot) => self.grow_in(slot, alloc),
            None if self.slots.gone_as(id).is_some() => Grown::Reset,
            None => Grown::Unknown,
        }
    }

    // Raises the buffer space of the connection in a slot.
    fn grow_in(&mut self, slot: Slot, alloc: u32) -> Grown
        ensures answer { (e : DriverEntry) → entry_under self.old.table slot ≡ Some e → result ≡ entry_grow_answer alloc e }
        ensures state { (e : DriverEntry) → entry_under self.old.table slot ≡ Some e → self.new ≡ grown_by result alloc e self.old }
    {
        let Some(connection) = self.slots.connection(slot) else {
            return Grown::Unknown;
        };
        let end = connection.end();
        let answer = grow_answer(end, alloc);
        if answer != Grown::Done {
            return answer;
        }
        self.slots.grow(slot, alloc);
        answer
    }
}

// What is answered where the buffer space of an end is to be `alloc` bytes.
fn grow_answer(end: EndView, alloc: u32) -> Grown
    ensures { (e : ConnectionEnd) → end ≡ view_of e → result ≡ grow_answer e.state alloc e }
{
    match end.state {
        State::Asked | State::Answering => Grown::NotOpen,
        State::Live => live_answer(end.credit.alloc, alloc),
        State::Ended => Grown::Reset,
    }
}

// The same of an end that is open, whose buffer space is `now` bytes.
fn live_answer(now: u32, alloc: u32) -> Grown
    ensures { (e : ConnectionEnd) → e.credit.alloc ≡ now → result ≡ live_grow_answer alloc e }
{
    if alloc > BUF_ALLOC_MAX {
        Grown::TooBig {
            most: BUF_ALLOC_MAX,
        }
    } else if alloc < now {
        Grown::Shrinks { now }
    } else {
        Grown::Done
    }
}
