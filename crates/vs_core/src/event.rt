//! What may happen in the world, and what a call of the guest's answers.

use vs_driver::{
    Accepted, Closed, ConnId, ConnectError, ConnectionState, Grown, ListenError, Received, Sent,
    Shut,
};
use vs_flow::{Flow, Slot};
use vs_ring_port::{Chain, Queue};

/// A call that the guest makes on its driver, a poll aside.
#[derive(Debug, Drop)]
pub enum GuestCall {
    /// It asks for a connection to a port of the host.
    Connect(u32),
    /// It listens on a port.
    Listen(u32),
    /// It listens on a port no more.
    Unlisten(u32),
    /// It accepts a connection that waits on a port.
    Accept(u32),
    /// It sends bytes on a connection.
    Send(ConnId, Vec<u8>),
    /// It receives at most so many bytes of a connection.
    Recv(ConnId, usize),
    /// It shuts directions of a connection: bit 0 to receive no more, bit 1 to send no more.
    Shutdown(ConnId, u8),
    /// It raises the buffer space of a connection to so many bytes.
    Grow(ConnId, u32),
    /// It closes a connection.
    Close(ConnId),
    /// It asks how a connection stands.
    LookAt(ConnId),
}

/// One page move, one call, or one act of a program of the host. A connection is named by its slot, a stream by its id.
#[derive(Debug, Drop)]
pub enum Event {
    /// The guest makes a call.
    GuestCalls(GuestCall),
    /// The driver takes a page of a queue, and stages it again.
    GuestTakes(Queue),
    /// It stages the oldest reply that it owes.
    GuestReplies,
    /// It stages what a connection owes.
    GuestPays(Slot),
    /// It publishes the pages that are staged on a queue.
    GuestPublishes(Queue),
    /// The device takes a page of a queue.
    DeviceTakes(Queue),
    /// It returns a transmit page.
    DeviceReturns(Chain),
    /// It puts the event that it owes.
    DevicePutsEvent(Chain),
    /// It puts the oldest reply that it owes.
    DeviceReplies,
    /// It puts payload that it reads of a connection's stream.
    DeviceReads(Slot),
    /// It puts what a connection owes.
    DevicePays(Slot),
    /// It writes to a connection's stream.
    DeviceWrites(Slot),
    /// It shuts the side of a connection's stream that it writes to.
    DeviceShutsWrite(Slot),
    /// It raises the buffer space of the connection of a flow to so many bytes.
    DeviceGrows(Flow, u32),
    /// The proxy accepts a client.
    ProxyAccepts,
    /// It reads a byte of a client's line.
    ProxyReads(u64),
    /// The moment is this now, in milliseconds.
    Moment(u64),
    /// A connection times out.
    TimesOut(Slot),
    /// A client's handshake times out.
    HandshakeTimesOut(u64),
    /// A transport reset: the guest gets this CID.
    Reset(u64),
    /// A program of the host listens on a port.
    HostListens(u32),
    /// It listens there no more.
    HostUnlistens(u32),
    /// A client connects to the host's base path.
    ClientConnects,
    /// A program of the host writes bytes to a stream.
    HostWrites(u64, Vec<u8>),
    /// It takes so many more bytes of a stream.
    HostTakes(u64, usize),
    /// It ends what it writes to a stream.
    HostEnds(u64),
    /// It closes a stream.
    HostCloses(u64),
    /// A call on the host is to fail, so many calls from now.
    HostFails(u64),
}

/// What a call of the guest's answers. Any other event answers nothing, and so does a call that isn't possible.
#[derive(Debug, PartialEq, Eq, Drop)]
pub enum Reply {
    /// No call was made.
    None,
    /// What a connect answered.
    Connected(Result<ConnId, ConnectError>),
    /// What a listen answered.
    Listened(Result<(), ListenError>),
    /// Whether the port was listened on.
    Unlistened(bool),
    /// What an accept answered.
    Accepted(Accepted),
    /// What a send answered.
    Sent(Sent),
    /// What a receive answered, and the bytes that it gave.
    Received(Received, Vec<u8>),
    /// What a shutdown answered.
    Shut(Shut),
    /// What a growth answered.
    Grown(Grown),
    /// What a close answered.
    Closed(Closed),
    /// How the connection stands.
    Looked(ConnectionState),
}
