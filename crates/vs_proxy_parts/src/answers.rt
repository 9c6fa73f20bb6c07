//! What the proxy's calls answer.

ghost use Rattle.std.specs.Prelude.{◌≡◌};
ghost use Rattle.vs_proxy_parts.specs.Used.{has_used};

use vs_ring_port::{Failure, Queue};

/// What a turn did.
#[derive(Clone, Copy, Debug, PartialEq, Eq)]
pub struct Turned {
    /// Packets taken from the transmit queue.
    pub took: u32,
    /// Packets put on the receive queue.
    pub put: u32,
    /// Bytes read from the host's streams, those of handshakes included.
    pub read: u32,
    /// Bytes written to the host's streams, those of handshakes included.
    pub wrote: u32,
    /// Connections that came into the table.
    pub opened: u32,
    /// Connections that left it.
    pub closed: u32,
    /// Streams accepted and handshakes closed.
    pub hands: u32,
    /// Whether the event of a transport reset was put on the event queue.
    pub event: bool,
}

impl Turned {
    /// Whether chains of this queue were returned, so that the guest, where it asked to be told of them, has to be interrupted (Virtio 1.2,
    /// section 2.7.7).
    pub fn has_used(&self, queue: Queue) -> bool
        ensures { result ≡ has_used queue self.now }
    {
        match queue {
            Queue::Rx => 0 < self.put,
            Queue::Tx => 0 < self.took,
            Queue::Event => self.event,
        }
    }
}

/// What a turn answers.
#[derive(Clone, Copy, Debug, PartialEq, Eq)]
pub enum Turn {
    /// It was made.
    Turned(Turned),
    /// The ring failed, in this call or before.
    Failed(Failure),
}
