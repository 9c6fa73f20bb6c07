//! Descriptors and used elements, and their bytes (Virtio 1.2, sections 2.7.5 and 2.7.8). All fields are little-endian.
ghost use Rattle.std.specs.Prelude.{◌≡◌, [], ◌∷◌};
ghost use Rattle.vs_layout.specs.Entry.{desc_bytes, desc_of, used_elem_bytes, used_elem_of};

use byteorder::{ByteOrder, LittleEndian};

/// Bytes of a descriptor.
pub const DESC_LEN: usize = 16;

/// Bytes of a used element.
pub const USED_ELEM_LEN: usize = 8;

/// Flag of a descriptor: the chain goes on at `next`.
pub const NEXT: u16 = 1;

/// Flag of a descriptor: the device writes the piece. Without it the device reads it.
pub const WRITE: u16 = 2;

/// Flag of a descriptor: the piece is a table of descriptors.
pub const INDIRECT: u16 = 4;

/// A descriptor: one piece of a chain.
#[derive(Clone, Copy, Debug, PartialEq, Eq)]
pub struct Desc {
    /// Address of the piece in the guest's memory.
    pub addr: u64,
    /// Bytes of the piece.
    pub len: u32,
    /// `NEXT`, `WRITE` and `INDIRECT`, added up.
    pub flags: u16,
    /// Number of the next descriptor, where the flag NEXT is set.
    pub next: u16,
}

impl Desc {
    /// The 16 bytes of the descriptor.
    pub fn encode(&self) -> [u8; 16]
        ensures bytes { result ≡ desc_bytes self.now }
        ensures back { desc_of result ≡ self.now }
    {
        desc_bytes_of(*self)
    }

    /// The descriptor that 16 bytes hold. Every 16 bytes hold one.
    pub fn decode(bytes: &[u8; 16]) -> Desc
        ensures fields { result ≡ desc_of bytes.now }
        ensures back { desc_bytes result ≡ bytes.now }
    {
        Desc {
            addr: LittleEndian::read_u64(bytes),
            len: LittleEndian::read_u32(&bytes[8..]),
            flags: LittleEndian::read_u16(&bytes[12..]),
            next: LittleEndian::read_u16(&bytes[14..]),
        }
    }
}

// The 16 bytes of a descriptor, which comes by value.
fn desc_bytes_of(desc: Desc) -> [u8; 16]
    ensures bytes { result ≡ desc_bytes desc }
    ensures back { desc_of result ≡ desc }
{
    let mut bytes = [0; 16];
    LittleEndian::write_u64(&mut bytes, desc.addr);
    LittleEndian::write_u32(&mut bytes[8..], desc.len);
    LittleEndian::write_u16(&mut bytes[12..], desc.flags);
    LittleEndian::write_u16(&mut bytes[14..], desc.next);
    bytes
}

/// A used element: a chain that the device gives back.
#[derive(Clone, Copy, Debug, PartialEq, Eq)]
pub struct UsedElem {
    /// Number of the chain's first descriptor.
    pub id: u32,
    /// Bytes that the device wrote into the chain.
    pub len: u32,
}

impl UsedElem {
    /// The 8 bytes of the element.
    pub fn encode(&self) -> [u8; 8]
        ensures bytes { result ≡ used_elem_bytes self.now }
        ensures back { used_elem_of result ≡ self.now }
    {
        used_elem_bytes_of(*self)
    }

    /// The element that 8 bytes hold. Every 8 bytes hold one.
    pub fn decode(bytes: &[u8; 8]) -> UsedElem
        ensures fields { result ≡ used_elem_of bytes.now }
        ensures back { used_elem_bytes result ≡ bytes.now }
    {
        UsedElem {
            id: LittleEndian::read_u32(bytes),
            len: LittleEndian::read_u32(&bytes[4..]),
        }
    }
}

// The 8 bytes of a used element, which comes by value.
fn used_elem_bytes_of(element: UsedElem) -> [u8; 8]
    ensures bytes { result ≡ used_elem_bytes element }
    ensures back { used_elem_of result ≡ element }
{
    let mut bytes = [0; 8];
    LittleEndian::write_u32(&mut bytes, element.id);
    LittleEndian::write_u32(&mut bytes[4..], element.len);
    bytes
}

/// A descriptor of 4,096 writable bytes at address 65,536, and a used element of 49 bytes, written out by hand.
pub fn worked_bytes()
    ensures descriptor { desc_bytes record { addr = 65536; len = 4096; flags = 2; next = 0 }
        ≡ 0 ∷ 0 ∷ 1 ∷ 0 ∷ 0 ∷ 0 ∷ 0 ∷ 0 ∷ 0 ∷ 16 ∷ 0 ∷ 0 ∷ 2 ∷ 0 ∷ 0 ∷ 0 ∷ [] }
    ensures element { used_elem_bytes record { id = 258; len = 49 } ≡ 2 ∷ 1 ∷ 0 ∷ 0 ∷ 49 ∷ 0 ∷ 0 ∷ 0 ∷ [] }
{}
