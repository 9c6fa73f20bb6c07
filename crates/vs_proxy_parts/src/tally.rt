//! What a turn did so far.

ghost use Rattle.std.specs.Prelude.{◌≡◌};

/// What a turn did so far.
#[derive(Clone, Copy, Debug, PartialEq, Eq)]
pub struct Tally {
    /// Packets taken from the transmit queue.
    pub took: u32,
    /// Packets put on the receive queue.
    pub put: u32,
    /// Bytes read from the host's streams.
    pub read: u32,
    /// Bytes written to the host's streams.
    pub wrote: u32,
    /// Streams accepted and handshakes closed.
    pub hands: u32,
}

impl Tally {
    /// Nothing was done yet.
    pub fn new() -> Tally
        ensures { result ≡ record { took = 0; put = 0; read = 0; wrote = 0; hands = 0 } }
    {
        Tally {
            took: 0,
            put: 0,
            read: 0,
            wrote: 0,
            hands: 0,
        }
    }
}
