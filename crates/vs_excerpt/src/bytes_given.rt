//! Bytes that came one after another, which stand in proofs alone.

ghost use Rattle.std.specs.Prelude.{◌≡◌, ◌++◌, [], List, ℕ};
ghost use base.Fml.{ftrue};

use std::marker::Model;

/// All bytes that were given so far, one after another. Only contracts see them, and they take no memory.
#[derive(Drop)]
pub struct BytesGiven {
    pub ghost items: { List ℕ },
}

impl Model for BytesGiven {
    ghost also_owns = { λ _. ftrue };
}

// It owns nothing.
unsafe impl Send for BytesGiven {}

/// Bytes that were given at once.
#[derive(Clone, Copy, Drop)]
pub struct Piece<'a> {
    pub bytes: &'a [u8],
}

impl BytesGiven {
    /// No byte.
    pub fn new() -> BytesGiven
        ensures { result.items ≡ [] }
    {
        BytesGiven {}
    }

    /// The bytes with a piece more.
    pub fn then(&self, _piece: &Piece<'_>) -> BytesGiven
        ensures { result.items ≡ self.now.items ++ _piece.now.bytes.now }
    {
        BytesGiven {}
    }
}
