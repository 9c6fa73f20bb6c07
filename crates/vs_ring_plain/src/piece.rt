//! The pieces of a chain.

/// A piece of a chain: what one descriptor names (Virtio 1.2, section 2.7.5).
#[derive(Clone, Copy, Debug, PartialEq, Eq)]
pub struct Piece {
    /// Its address in the guest's memory.
    pub addr: u64,
    /// Its bytes.
    pub len: u32,
}
