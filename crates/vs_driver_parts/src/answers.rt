//! What the driver's calls answer.

ghost use Rattle.std.specs.Prelude.{◌≡◌};
ghost use Rattle.vs_driver_parts.specs.Connections.{got_count};

/// Number of a connection, from 1 on. None is given twice.
pub type ConnId = u32;

/// Why a connect opened nothing.
#[derive(Clone, Copy, Debug, PartialEq, Eq)]
pub enum ConnectError {
    /// No peer has the CID: it is the guest's own, 0, 1, or above the highest of a guest.
    BadCid {
        /// The CID.
        cid: u64,
    },
    /// The host port is one of those that the device assigns itself.
    BadPort {
        /// The port.
        port: u32,
    },
    /// As many slots are held as there are.
    Full {
        /// How many.
        slots: u32,
    },
    /// The last guest port or the last connection id was given.
    PortsSpent {
        /// The guest port given last, 0 where none was.
        port: u32,
        /// The id given last, 0 where none was.
        id: u32,
    },
    /// No descriptor of the transmit queue is free.
    NoDescriptor {
        /// Pages posted and not reaped: as many as the queue has descriptors.
        in_flight: u16,
    },
}

/// Why a port isn't listened on anew.
#[derive(Clone, Copy, Debug, PartialEq, Eq)]
pub enum ListenError {
    /// It is listened on already.
    Taken,
    /// As many ports are listened on as may be.
    Full {
        /// How many.
        listeners: u32,
    },
}

/// Nobody listens on the port.
#[derive(Clone, Copy, Debug, PartialEq, Eq)]
pub struct NotListening;

/// What an accept answers.
#[derive(Clone, Copy, Debug, PartialEq, Eq)]
pub enum Accepted {
    /// The oldest connection that waits on the port and whose RESPONSE was put.
    Conn(ConnId),
    /// No such connection waits.
    None,
    /// Nobody listens on the port.
    NotListening,
}

/// What a send answers.
#[derive(Clone, Copy, Debug, PartialEq, Eq)]
pub enum Sent {
    /// So many bytes are on their way, from the front of those given.
    Took(usize),
    /// No connection has this id.
    Unknown,
    /// The connection isn't open yet.
    NotOpen,
    /// The connection ended.
    Reset,
    /// This end has shut its sending, or its peer the receiving.
    ShutDown,
    /// The peer has no room for a further byte now.
    NoCredit {
        /// Bytes sent so far, modulo 2^32.
        tx: u32,
        /// Bytes of buffer space that the peer told last.
        alloc: u32,
        /// Bytes that the peer said it forwarded, modulo 2^32.
        fwd: u32,
    },
    /// No descriptor of the transmit queue is free.
    NoDescriptor {
        /// Pages posted and not reaped: as many as the queue has descriptors.
        in_flight: u16,
    },
}

/// What a receive answers.
#[derive(Clone, Copy, Debug, PartialEq, Eq)]
pub enum Received {
    /// So many bytes were read.
    Got(usize),
    /// No connection has this id.
    Unknown,
    /// Nothing is unread, and nothing will come: the peer sends no more, or this end receives no more.
    End,
    /// The connection isn't open yet.
    NotOpen,
    /// The connection ended, and nothing is unread.
    Reset,
    /// The connection is open, and nothing is unread.
    Empty,
}

impl Received {
    /// How many bytes were read: 0 where none were.
    pub fn count(self) -> usize
        ensures { result ≡ got_count self }
    {
        match self {
            Received::Got(n) => n,
            _ => 0,
        }
    }
}

/// What a shutdown answers.
#[derive(Clone, Copy, Debug, PartialEq, Eq)]
pub enum Shut {
    /// The directions are shut.
    Done,
    /// No connection has this id.
    Unknown,
    /// The connection isn't open yet.
    NotOpen,
    /// The connection ended.
    Reset,
}

/// What a growth of the buffer space answers.
#[derive(Clone, Copy, Debug, PartialEq, Eq)]
pub enum Grown {
    /// The buffer space is as asked for.
    Done,
    /// No connection has this id.
    Unknown,
    /// The connection isn't open yet.
    NotOpen,
    /// The connection ended.
    Reset,
    /// More was asked for than a buffer space may be.
    TooBig {
        /// The most that it may be.
        most: u32,
    },
    /// The buffer space is larger already.
    Shrinks {
        /// What it is.
        now: u32,
    },
}

/// What a close answers.
#[derive(Clone, Copy, Debug, PartialEq, Eq)]
pub enum Closed {
    /// The id is unknown from now on.
    Done,
    /// No connection has this id.
    Unknown,
}

/// How a connection stands.
#[derive(Clone, Copy, Debug, PartialEq, Eq)]
pub enum ConnectionState {
    /// It was asked for, and not answered yet.
    Asked,
    /// The host asked for it, and the answer isn't put yet.
    Answering,
    /// It is open.
    Live,
    /// It ended, and the peer isn't told yet.
    Ended,
    /// It is over, and its id isn't closed.
    Gone,
    /// No connection has this id.
    Unknown,
}

/// What a poll did.
#[derive(Clone, Copy, Debug, PartialEq, Eq)]
pub struct Polled {
    /// Pages taken from the receive queue.
    pub took: u32,
    /// Packets put on the transmit queue.
    pub posted: u32,
    /// Whether a transport reset was taken.
    pub reset: bool,
}
