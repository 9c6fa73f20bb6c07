//! The event record of the socket device (Virtio 1.2, section 5.10.6.7), and the event that the device owes the driver.
#![tactic(auto)]

ghost use Rattle.std.specs.Prelude.{◌≡◌, true, false};
ghost use Rattle.vs_event.specs.Event.{event_id, event_record};

use byteorder::{ByteOrder, LittleEndian};
use std::marker::Model;

/// Bytes of an event record.
pub const EVENT_LEN: usize = 4;

/// The id of the event that tells the driver of a transport reset: established connections have ended, and the
/// guest's CID is to be read again. It is the only id that the standard defines.
pub const TRANSPORT_RESET: u32 = 0;

/// The record of an event: its id, little-endian.
pub fn event_bytes(id: u32) -> [u8; 4]
    ensures bytes { result ≡ event_record id }
    ensures back { event_id result ≡ id }
{
    let mut bytes = [0; EVENT_LEN];
    LittleEndian::write_u32(&mut bytes, id);
    bytes
}

/// The id of the event that a record tells. Every four bytes are a record.
pub fn event_of(bytes: &[u8; 4]) -> u32
    ensures id { result ≡ event_id bytes.now }
    ensures back { event_record result ≡ bytes.now }
{
    LittleEndian::read_u32(bytes)
}

/// Whether the device owes the driver the event of a transport reset. Resets before it is paid make one event.
#[derive(Debug, Drop)]
pub struct OwedEvent {
    owed: bool,
}

impl Model for OwedEvent {
    ghost use Rattle.std.specs.Prelude.{Bool};

    ghost Value = { Bool };

    ghost view = { λ event. event.owed };
}

impl OwedEvent {
    /// No event is owed.
    pub fn new() -> OwedEvent
        ensures { result ≡ false }
    {
        OwedEvent { owed: false }
    }

    /// From now on the event is owed, once, also where it was owed before.
    pub fn owe(&mut self)
        ensures { self.new ≡ true }
    {
        self.owed = true;
    }

    /// Whether the event is owed.
    pub fn owed(&self) -> bool
        ensures { result ≡ self.now }
    {
        self.owed
    }

    /// The event was put, and is owed no more. It must be owed.
    pub fn paid(&mut self)
        requires { self.old ≡ true }
        ensures { self.new ≡ false }
    {
        self.owed = false;
    }
}
