//! The three areas of a queue, and the addresses of what lies in them (Virtio 1.2, sections 2.7.5, 2.7.6 and 2.7.8).
ghost use Rattle.std.specs.Prelude.{◌≡◌, ◌≢◌, ◌↔◌, ◌<◌, ◌+◌, ◌^◌, ℕ, IsTrue};
ghost use Rattle.vs_layout.specs.Span.{IsApart, LiesIn};
ghost use Rattle.vs_layout.specs.Layout.{
  desc_area,
  avail_area,
  used_area,
  desc_entry,
  avail_idx,
  avail_entry,
  used_event,
  used_idx,
  used_elem,
  avail_event,
  IsPlaced,
  AreInside,
};

use crate::span::Span;

/// Where the three areas of a queue begin, and where the used ring ends. Addresses in the guest's memory, in bytes.
#[derive(Clone, Copy, Debug, PartialEq, Eq)]
pub struct Areas {
    /// The descriptors.
    pub desc: u64,
    /// The available ring, which its flags begin.
    pub avail: u64,
    /// The used ring, which its flags begin.
    pub used: u64,
    /// The address behind the used ring.
    pub end: u64,
}

impl Areas {
    /// The n descriptors, of 16 bytes each.
    pub fn desc_area(&self, n: u16) -> Span
        ensures { result ≡ desc_area self.now n }
    {
        Span {
            at: self.desc,
            len: 16 * n as u64,
        }
    }

    /// The available ring of n entries: flags, index, entries and `used_event`, of 2 bytes each.
    pub fn avail_area(&self, n: u16) -> Span
        ensures { result ≡ avail_area self.now n }
    {
        Span {
            at: self.avail,
            len: 6 + 2 * n as u64,
        }
    }

    /// The used ring of n elements: flags and index of 2 bytes, elements of 8, `avail_event` of 2.
    pub fn used_area(&self, n: u16) -> Span
        ensures { result ≡ used_area self.now n }
    {
        Span {
            at: self.used,
            len: 6 + 8 * n as u64,
        }
    }

    /// Whether the areas of a queue of n entries are aligned (to 16, 2 and 4 bytes) and don't overlap.
    pub fn is_placed(&self, n: u16) -> bool
        ensures { IsTrue result ↔ IsPlaced self.now n }
    {
        let (desc, avail, used) = (self.desc_area(n), self.avail_area(n), self.used_area(n));
        desc.at % 16 == 0
            && avail.at % 2 == 0
            && used.at % 4 == 0
            && desc.is_apart(avail)
            && avail.is_apart(used)
            && desc.is_apart(used)
    }

    /// Whether the areas of a queue of n entries lie in a piece of memory.
    pub fn are_inside(&self, n: u16, memory: Span) -> bool
        ensures { IsTrue result ↔ AreInside self.now n memory }
    {
        self.desc_area(n).lies_in(memory)
            && self.avail_area(n).lies_in(memory)
            && self.used_area(n).lies_in(memory)
    }

    /// The address of the descriptor of a number, 16 bytes.
    pub fn desc_at(&self, number: u16) -> u64
        requires fits { (desc_entry self.now number).at < 2 ^ 64 }
        ensures exact { result ≡ (desc_entry self.now number).at }
        ensures inside { (n : ℕ) → number < n → LiesIn (desc_entry self.now number) (desc_area self.now n) }
        ensures apart { (other : ℕ) → other ≢ number → IsApart (desc_entry self.now other) (desc_entry self.now number) }
    {
        self.desc + 16 * number as u64
    }

    /// The address of the available ring's index, 2 bytes.
    pub fn avail_idx_at(&self) -> u64
        requires fits { (avail_idx self.now).at < 2 ^ 64 }
        ensures exact { result ≡ (avail_idx self.now).at }
        ensures inside { (n : ℕ) → LiesIn (avail_idx self.now) (avail_area self.now n) }
    {
        self.avail + 2
    }

    /// The address of the available ring's entry at a place, 2 bytes.
    pub fn avail_entry_at(&self, place: u16) -> u64
        requires fits { (avail_entry self.now place).at < 2 ^ 64 }
        ensures exact { result ≡ (avail_entry self.now place).at }
        ensures inside { (n : ℕ) → place < n → LiesIn (avail_entry self.now place) (avail_area self.now n) }
        ensures apart { (other : ℕ) → other ≢ place → IsApart (avail_entry self.now other) (avail_entry self.now place) }
        ensures behind_idx { IsApart (avail_idx self.now) (avail_entry self.now place) }
    {
        self.avail + 4 + 2 * place as u64
    }

    /// The address of `used_event`, behind the n entries of the available ring, 2 bytes.
    pub fn used_event_at(&self, n: u16) -> u64
        requires fits { (used_event self.now n).at < 2 ^ 64 }
        ensures exact { result ≡ (used_event self.now n).at }
        ensures inside { LiesIn (used_event self.now n) (avail_area self.now n) }
        ensures behind_idx { IsApart (avail_idx self.now) (used_event self.now n) }
        ensures apart { (place : ℕ) → place < n → IsApart (avail_entry self.now place) (used_event self.now n) }
    {
        self.avail + 4 + 2 * n as u64
    }

    /// The address of the used ring's index, 2 bytes.
    pub fn used_idx_at(&self) -> u64
        requires fits { (used_idx self.now).at < 2 ^ 64 }
        ensures exact { result ≡ (used_idx self.now).at }
        ensures inside { (n : ℕ) → LiesIn (used_idx self.now) (used_area self.now n) }
    {
        self.used + 2
    }

    /// The address of the used ring's element at a place, 8 bytes.
    pub fn used_elem_at(&self, place: u16) -> u64
        requires fits { (used_elem self.now place).at < 2 ^ 64 }
        ensures exact { result ≡ (used_elem self.now place).at }
        ensures inside { (n : ℕ) → place < n → LiesIn (used_elem self.now place) (used_area self.now n) }
        ensures apart { (other : ℕ) → other ≢ place → IsApart (used_elem self.now other) (used_elem self.now place) }
        ensures behind_idx { IsApart (used_idx self.now) (used_elem self.now place) }
    {
        self.used + 4 + 8 * place as u64
    }

    /// The address of `avail_event`, behind the n elements of the used ring, 2 bytes.
    pub fn avail_event_at(&self, n: u16) -> u64
        requires fits { (avail_event self.now n).at < 2 ^ 64 }
        ensures exact { result ≡ (avail_event self.now n).at }
        ensures inside { LiesIn (avail_event self.now n) (used_area self.now n) }
        ensures behind_idx { IsApart (used_idx self.now) (avail_event self.now n) }
        ensures apart { (place : ℕ) → place < n → IsApart (used_elem self.now place) (avail_event self.now n) }
    {
        self.used + 4 + 8 * n as u64
    }
}
