//! Pieces of memory.
ghost use Rattle.std.specs.Prelude.{◌↔◌, IsTrue};
ghost use Rattle.vs_layout.specs.Span.{IsApart, LiesIn};

/// A contiguous piece of memory: its address and its length, in bytes.
#[derive(Clone, Copy, Debug, PartialEq, Eq)]
pub struct Span {
    pub at: u64,
    pub len: u64,
}

impl Span {
    /// Whether one of the two ends where the other begins, or before.
    pub fn is_apart(self, other: Span) -> bool
        ensures { IsTrue result ↔ IsApart self other }
    {
        (self.at <= other.at && self.len <= other.at - self.at)
            || (other.at <= self.at && other.len <= self.at - other.at)
    }

    /// Whether this piece begins and ends within the other one.
    pub fn lies_in(self, other: Span) -> bool
        ensures { IsTrue result ↔ LiesIn self other }
    {
        other.at <= self.at && self.len <= other.len && self.at - other.at <= other.len - self.len
    }
}
