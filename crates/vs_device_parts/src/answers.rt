//! What the device's calls answer.
use vs_conn::Verdict;
use vs_ring_port::Failure;

/// What `take_tx` did.
#[derive(Clone, Copy, Debug, PartialEq, Eq)]
pub enum Taken {
    /// It took a packet, with this verdict. A dropped packet has the verdict Ignore; of an unknown flow it is Accept, Rst or Ignore.
    Packet(Verdict),
    /// No chain was there.
    None,
    /// So many replies are owed that no packet is taken.
    RepliesFull {
        /// How many.
        replies: u32,
    },
    /// The ring failed, in this call or before.
    Failed(Failure),
}

/// What `fill_rx` did.
#[derive(Clone, Copy, Debug, PartialEq, Eq)]
pub struct Filled {
    /// Packets put on the receive queue.
    pub put: u32,
    /// Bytes read from the host's streams.
    pub read: u32,
}

/// What a growth of the buffer space answers.
#[derive(Clone, Copy, Debug, PartialEq, Eq)]
pub enum Grown {
    /// The buffer space is as asked for.
    Done,
    /// No connection has this slot, or this flow.
    Unknown,
    /// The connection isn't open yet.
    NotOpen,
    /// The connection ended.
    Reset,
    /// More was asked for than a buffer space may be.
    TooBig {
        /// The most that it may be.
        most: u32,
    },
    /// The buffer space is larger already.
    Shrinks {
        /// What it is.
        now: u32,
    },
}

/// What the device counted since it was made. A count stays at its type's last value.
#[derive(Clone, Copy, Debug, PartialEq, Eq)]
pub struct Counters {
    /// Packets dropped for their CIDs.
    pub dropped: u64,
    /// Packets on known flows that held more payload than there was room for.
    pub overrun: u64,
    /// Host calls that failed.
    pub faults: u64,
    /// Connections that came into the table.
    pub opened: u64,
    /// Connections that left it, a reset aside.
    pub closed: u64,
}
