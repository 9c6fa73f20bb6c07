//! The packet header of the socket device (Virtio 1.2, section 5.10.6): its fields, its 44 bytes,
//! and the numbers of operations and types.
#![tactic(auto)]

ghost use Rattle.std.specs.Prelude.{◌≡◌, ◌≢◌, ◌≤◌, IfNone, IfSome};
ghost use Rattle.vs_header.specs.{Kind.kind_named, Kind.kind_number, Op.op_named, Op.op_number, Packet.header_bytes, Packet.header_of};

use byteorder::{ByteOrder, LittleEndian};

/// Bytes of a header.
pub const HEADER_LEN: usize = 44;

/// Flag of an RW: its payload ends a message (a seqpacket socket).
pub const END_OF_MESSAGE: u32 = 1;

/// Flag of such an RW: the message ends a record.
pub const END_OF_RECORD: u32 = 2;

/// Flags of an RST that marks a connection over cleanly: both of SHUTDOWN's.
pub const CLEAN: u32 = 3;

/// The header of a packet, each field as wide as on the wire.
#[derive(Clone, Copy, Debug, PartialEq, Eq)]
pub struct Header {
    /// CID of the sender.
    pub src_cid: u64,
    /// CID of the receiver.
    pub dst_cid: u64,
    /// Port of the sender.
    pub src_port: u32,
    /// Port of the receiver.
    pub dst_port: u32,
    /// Bytes of payload, where the operation is RW.
    pub len: u32,
    /// Type of the socket, as `Kind` numbers it.
    pub kind: u16,
    /// Operation, as `Op` numbers it.
    pub op: u16,
    /// Flags of the operation.
    pub flags: u32,
    /// Bytes of buffer space that the sender has for the stream.
    pub buf_alloc: u32,
    /// Bytes that the sender has taken out of that space so far, modulo 2^32.
    pub fwd_cnt: u32,
}

impl Header {
    /// The 44 bytes of the header.
    pub fn encode(&self) -> [u8; 44]
        ensures bytes { result ≡ header_bytes self.now }
        ensures back { header_of result ≡ self.now }
    {
        bytes_of(*self)
    }

    /// The header that 44 bytes hold. Every 44 bytes hold one.
    pub fn decode(bytes: &[u8; 44]) -> Header
        ensures fields { result ≡ header_of bytes.now }
        ensures back { header_bytes result ≡ bytes.now }
    {
        Header {
            src_cid: LittleEndian::read_u64(bytes),
            dst_cid: LittleEndian::read_u64(&bytes[8..]),
            src_port: LittleEndian::read_u32(&bytes[16..]),
            dst_port: LittleEndian::read_u32(&bytes[20..]),
            len: LittleEndian::read_u32(&bytes[24..]),
            kind: LittleEndian::read_u16(&bytes[28..]),
            op: LittleEndian::read_u16(&bytes[30..]),
            flags: LittleEndian::read_u32(&bytes[32..]),
            buf_alloc: LittleEndian::read_u32(&bytes[36..]),
            fwd_cnt: LittleEndian::read_u32(&bytes[40..]),
        }
    }
}

// The 44 bytes of a header, which comes by value.
fn bytes_of(header: Header) -> [u8; 44]
    ensures bytes { result ≡ header_bytes header }
    ensures back { header_of result ≡ header }
{
    let mut bytes = [0; 44];
    LittleEndian::write_u64(&mut bytes, header.src_cid);
    LittleEndian::write_u64(&mut bytes[8..], header.dst_cid);
    LittleEndian::write_u32(&mut bytes[16..], header.src_port);
    LittleEndian::write_u32(&mut bytes[20..], header.dst_port);
    LittleEndian::write_u32(&mut bytes[24..], header.len);
    LittleEndian::write_u16(&mut bytes[28..], header.kind);
    LittleEndian::write_u16(&mut bytes[30..], header.op);
    LittleEndian::write_u32(&mut bytes[32..], header.flags);
    LittleEndian::write_u32(&mut bytes[36..], header.buf_alloc);
    LittleEndian::write_u32(&mut bytes[40..], header.fwd_cnt);
    bytes
}

/// The operation of a packet.
#[derive(Clone, Copy, Debug, PartialEq, Eq)]
pub enum Op {
    /// No operation: a packet that carries it breaks the protocol.
    Invalid,
    /// Asks for a connection.
    Request,
    /// Answers a request: the connection stands.
    Response,
    /// Ends the connection at once, or refuses one.
    Rst,
    /// Says that its sender will receive or send no more.
    Shutdown,
    /// Carries payload.
    Rw,
    /// Tells the sender's buffer space.
    CreditUpdate,
    /// Asks the receiver to tell its buffer space.
    CreditRequest,
}

impl Op {
    /// The number of the operation, as a header carries it.
    pub fn number(self) -> u16
        ensures number { result ≡ op_number self }
        ensures back { op_named result ≡ Some self }
    {
        self as u16
    }
}

/// The operation of a number; `None` for every number above 7.
pub fn op_of(number: u16) -> Option<Op>
    ensures exact { result ≡ op_named number }
    ensures number { IfSome result (λ op. op_number op ≡ number) }
    ensures none { IfNone result (8 ≤ number) }
{
    match number {
        0 => Some(Op::Invalid),
        1 => Some(Op::Request),
        2 => Some(Op::Response),
        3 => Some(Op::Rst),
        4 => Some(Op::Shutdown),
        5 => Some(Op::Rw),
        6 => Some(Op::CreditUpdate),
        7 => Some(Op::CreditRequest),
        _ => None,
    }
}

/// The type of a socket.
#[derive(Clone, Copy, Debug, PartialEq, Eq)]
pub enum Kind {
    /// A stream of bytes.
    Stream = 1,
    /// Messages that keep their bounds.
    Seqpacket = 2,
}

impl Kind {
    /// The number of the type, as a header carries it.
    pub fn number(self) -> u16
        ensures number { result ≡ kind_number self }
        ensures back { kind_named result ≡ Some self }
    {
        self as u16
    }
}

/// The type of a number; `None` for every number but 1 and 2.
pub fn kind_of(number: u16) -> Option<Kind>
    ensures exact { result ≡ kind_named number }
    ensures number { IfSome result (λ kind. kind_number kind ≡ number) }
    ensures none { IfNone result ((number ≢ 1) × (number ≢ 2)) }
{
    match number {
        1 => Some(Kind::Stream),
        2 => Some(Kind::Seqpacket),
        _ => None,
    }
}
