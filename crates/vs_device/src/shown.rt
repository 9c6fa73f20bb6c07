//! What the device shows of itself to the proxy above it.

ghost use Rattle.std.specs.Prelude.{◌≡◌};
ghost use Rattle.vs_flow.specs.Table.{has_place};
ghost use Rattle.vs_proxy_parts.specs.Growing.{slot_of};

use crate::device::Device;
use vs_flow::{Flow, Slot};
use vs_ring_port::Failure;

impl Device {
    /// The moment of the last tick, in milliseconds.
    pub fn now(&self) -> u64
        ensures { result ≡ self.now.now }
    {
        self.moment
    }

    /// Whether the table has place for one more connection.
    pub fn has_place(&self) -> bool
        ensures { result ≡ has_place self.now.table }
    {
        self.slots.has_place()
    }

    /// The slot of the connection of a flow.
    pub fn by_flow(&self, flow: Flow) -> Option<Slot>
        ensures { result ≡ slot_of flow self.now }
    {
        self.slots.by_flow(flow)
    }

    /// Whether the event of a transport reset is owed.
    pub fn owes_event(&self) -> bool
        ensures { result ≡ self.now.event_owed }
    {
        self.event.owed()
    }

    /// The failure of the ring, where it failed.
    pub fn failure(&self) -> Option<Failure>
        ensures { result ≡ self.now.failed }
    {
        self.failed
    }
}
