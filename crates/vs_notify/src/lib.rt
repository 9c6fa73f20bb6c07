//! When a notification is needed on a split virtqueue (Virtio 1.2, sections 2.7.7 and 2.7.10), and why none is lost.
//!
//! A queue has two indices. The driver publishes available buffers, which the device takes; the device publishes used buffers, which the
//! driver takes. So each index has a publisher and a consumer, and what is said here holds of both. By a word of its own the consumer says
//! when it has to be kicked: by its event index (`avail_event` is the device's, `used_event` the driver's) where VIRTIO_F_EVENT_IDX was
//! negotiated, by bit 0 of its flags where it was not. The publisher stores the index, and then loads that word. A consumer that found nothing
//! stores its word, and then loads the index once more: it may rest only where this second look shows nothing either.
#![tactic(auto)]

pub mod laws;

ghost use Rattle.std.specs.Prelude.{◌≡◌, ℕ, ◌+◌, ◌%◌, ◌^◌, ◌<◌, ◌≤◌, ◌==◌, ◌↔◌, true, IsTrue, bit_and};
ghost use Rattle.vs_notify.specs.Words.{asks_for_next, may_rest, needs_kick, vring_need_event, word_before_rest};

/// The bit of the driver's flags, in the available ring, by which it suppresses used buffer notifications.
pub const VIRTQ_AVAIL_F_NO_INTERRUPT: u16 = 1;

/// The bit of the device's flags, in the used ring, by which it suppresses available buffer notifications.
pub const VIRTQ_USED_F_NO_NOTIFY: u16 = 1;

/// How a consumer suppresses notifications.
#[derive(Clone, Copy, Debug, PartialEq, Eq)]
pub enum Suppression {
    /// By its flags: VIRTIO_F_EVENT_IDX was not negotiated.
    Flags,
    /// By its event index: VIRTIO_F_EVENT_IDX was negotiated.
    EventIndex,
}

/// Where a consumer stands between its accesses.
#[derive(Clone, Copy, Debug, PartialEq, Eq)]
pub enum Consumer {
    /// It takes entries, or has not yet asked to be told of the next.
    Working,
    /// It has stored the word that asks to be told of the next, and not yet looked again.
    Asked,
    /// It looked again and found nothing: it waits for a kick.
    Resting,
}

/// Whether a kick is needed: the entry that the consumer's event index names is among those published since `old`. `new` is the index that
/// was stored, `old` the index when the event index was loaded last.
pub fn needs(event: u16, new: u16, old: u16) -> bool
    ensures formula { result ≡ vring_need_event event new old }
    // In counts, where fewer than 2^16 entries were published since `old`.
    ensures among { (n o : ℕ) → n % 2 ^ 16 ≡ new → o % 2 ^ 16 ≡ old → o ≤ n → n < o + 2 ^ 16
        → IsTrue result ↔ ((k : ℕ) × (o ≤ k) × (k < n) × (k % 2 ^ 16 ≡ event)) }
    // The event index as a count, which its word tells where it is at most 2^16 before `n` and less than 2^16 after `o`.
    ensures counts { (e n o : ℕ) → e % 2 ^ 16 ≡ event → n % 2 ^ 16 ≡ new → o % 2 ^ 16 ≡ old → o ≤ n → n < o + 2 ^ 16
        → n ≤ e + 2 ^ 16 → e < o + 2 ^ 16 → IsTrue result ↔ ((o ≤ e) × (e < n)) }
{
    new.wrapping_sub(event).wrapping_sub(1) < new.wrapping_sub(old)
}

/// Whether a consumer's flags ask for a kick: bit 0 is clear.
pub fn flags_allow(flags: u16) -> bool
    ensures notify { result ≡ (bit_and flags VIRTQ_USED_F_NO_NOTIFY == 0) }
    ensures interrupt { result ≡ (bit_and flags VIRTQ_AVAIL_F_NO_INTERRUPT == 0) }
{
    flags & VIRTQ_USED_F_NO_NOTIFY == 0
}

impl Suppression {
    /// Whether the publisher has to kick, by the consumer's event index or flags, which it loads after it stored the index `new`. `old`
    /// is the index when it loaded them last.
    pub fn needs_kick(self, word: u16, new: u16, old: u16) -> bool
        ensures { result ≡ needs_kick self word new old }
    {
        match self {
            Suppression::Flags => flags_allow(word),
            Suppression::EventIndex => needs(word, new, old),
        }
    }

    /// What a consumer stores before it rests: as event index (`avail_event`, `used_event`) the count of entries taken, as flags 0.
    pub fn word_before_rest(self, taken: u16) -> u16
        ensures exact { result ≡ word_before_rest self taken }
        ensures asks { asks_for_next self result taken ≡ true }
    {
        match self {
            Suppression::Flags => 0,
            Suppression::EventIndex => taken,
        }
    }
}

impl Consumer {
    /// Whether it may rest, by the index that it loads and the count of entries taken: only after it asked to be told of the next, and where
    /// the index shows none.
    pub fn may_rest(self, index: u16, taken: u16) -> bool
        ensures exact { result ≡ may_rest self index taken }
        // In counts, where fewer than 2^16 entries are published and not taken, it has taken all.
        ensures counts { (p t : ℕ) → p % 2 ^ 16 ≡ index → t % 2 ^ 16 ≡ taken → t ≤ p → p < t + 2 ^ 16
            → IsTrue result ↔ ((self ≡ Consumer.Asked) × (p ≡ t)) }
    {
        matches!(self, Consumer::Asked) && index == taken
    }
}
