//! What the driver shows of its connections.

ghost use Rattle.std.specs.{Prelude.{◌≡◌, ℕ, ◌<◌, ◌^◌, Bool, true, length}, Iterator.YieldsFirst, Iterator.item_count};
ghost use Rattle.vs_ring_port.specs.EndLog.{EndLog};
ghost use Rattle.vs_driver_parts.specs.Connections.{state_of, state_shown, flow_of, table_shown};
ghost use Rattle.laws_driver.specs.Honest.{AgreesWith, IsLeftOpen};

use crate::driver::Driver;
use std::marker::Model;
use vs_conn::State;
use vs_driver_parts::answers::{ConnId, ConnectionState};
use vs_driver_parts::slots::Slots;
use vs_flow::Flow;
use vs_limits::DRIVER_CONNECTIONS;

impl Driver {
    /// How the connection with an id stands.
    pub fn state(&self, id: ConnId) -> ConnectionState
        ensures { result ≡ state_of id self.now }
    {
        match self.slots.known(id) {
            Some(connection) => state_shown(connection.state()),
            None if self.slots.gone_as(id).is_some() => ConnectionState::Gone,
            None => ConnectionState::Unknown,
        }
    }

    /// The flow of the connection with an id. `None` comes exactly where no connection has it.
    pub fn flow(&self, id: ConnId) -> Option<Flow>
        ensures { result ≡ flow_of id self.now }
    {
        match self.slots.known_as(id) {
            Some(slot) => self.slots.flow_of(slot),
            None => Some(self.slots.gone_as(id)?.flow()),
        }
    }

    /// Packets on known flows that were answered by RST. The count stands still at its last value.
    pub fn broken(&self) -> u64
        ensures count { result ≡ self.now.broken }
        // None is over an honest ring, where the guest has asked the host alone.
        ensures honest { (first : ℕ) (l : EndLog) → AgreesWith true first self.now l → result ≡ 0 }
    {
        self.broken
    }

    /// The entries of the driver's table, each its flow and the state of its end, by rising slot.
    pub fn table(&self) -> Entries<'_>
        ensures entries { result ≡ table_shown self.now }
        ensures countable { length result < 2 ^ 64 }
        // They are the connections that the ring's log left open.
        ensures open { (hosts : Bool) (first : ℕ) (l : EndLog) → AgreesWith hosts first self.now l → IsLeftOpen first result self.now.replies l }
    {
        let slots = &self.slots;
        let connections = slots.open();
        prove!(connections <= DRIVER_CONNECTIONS);
        Entries { slots, place: 0 }
    }
}

/// The entries of a driver's table, each its flow and the state of its end, by rising slot. It is seen as the list of those that are left.
#[derive(Drop)]
pub struct Entries<'a> {
    slots: &'a Slots,
    place: usize,
}

impl<'a> Model for Entries<'a> {
    ghost use Rattle.std.specs.Prelude.{Bool, List, map, drop};
    ghost use Rattle.vs_conn.specs.declared.end.State.{State};
    ghost use Rattle.vs_flow.specs.declared.flow.Flow.{Flow};

    ghost Value = { List (Flow × State) };

    ghost view = { λ e. map (λ x. (x.flow, x.value.end.state)) (drop e.place e.slots.now.table.entries) };
}

impl<'a> Iterator for Entries<'a> {
    type Item = (Flow, State);

    ghost next_gives = { YieldsFirst (λ left. left) };

    ghost remaining = { item_count (λ left. left) };

    fn next(&mut self) -> Option<(Flow, State)> {
        if self.place >= self.slots.open() {
            return None;
        }
        let entry = self.slots.at(self.place)?;
        self.place += 1;
        Some((entry.flow, entry.value.state()))
    }
}

// The state of an end, as it is shown.
fn state_shown(state: State) -> ConnectionState
    ensures { result ≡ state_shown state }
{
    match state {
        State::Asked => ConnectionState::Asked,
        State::Answering => ConnectionState::Answering,
        State::Live => ConnectionState::Live,
        State::Ended => ConnectionState::Ended,
    }
}
