//! What a call of `fill_rx` did so far.

ghost use Rattle.std.specs.Prelude.{◌≡◌, false};

/// What a call of `fill_rx` did so far.
#[derive(Clone, Copy, Debug, PartialEq, Eq)]
pub struct Fill {
    /// Packets put on the receive queue.
    pub put: u32,
    /// Bytes read from the host's streams.
    pub read: u32,
    /// No chain is there for the next packet, or the ring failed.
    pub over: bool,
}

impl Fill {
    /// Nothing yet.
    pub fn none() -> Fill
        ensures { result ≡ record { put = 0; read = 0; over = false } }
    {
        Fill {
            put: 0,
            read: 0,
            over: false,
        }
    }
}
