//! The credit of one end of a connection (Virtio 1.2, section 5.10.6.3): how much it may send to its peer, and how much
//! room it has itself. Counts of bytes run modulo 2^32, and only payload counts.
#![tactic(auto)]

ghost use Rattle.std.specs.Prelude.{◌≡◌, ℕ, ◌+◌, ◌-◌, ◌%◌, ◌^◌, ◌<◌, ◌≤◌, ◌↔◌, IfErr, IsErr, OnErr, OnOk};
ghost use Rattle.vs_credit.specs.Credit.{free_of, in_transit_of, new_credit, room_of, unread_of, with_forwarded, with_heard, with_sent, with_taken};

use vs_wrap::{add32, sub32};

/// The byte counts of one end of a connection.
#[derive(Clone, Copy, Debug, PartialEq, Eq)]
pub struct Credit {
    /// Bytes that this end sent, modulo 2^32.
    pub tx_cnt: u32,
    /// Bytes of buffer space that the peer told last.
    pub peer_alloc: u32,
    /// Bytes that the peer forwarded, modulo 2^32, as it told last.
    pub peer_fwd: u32,
    /// Bytes of buffer space that this end has for payload.
    pub alloc: u32,
    /// Bytes that this end forwarded out of its buffer, modulo 2^32.
    pub fwd_cnt: u32,
    /// Bytes that came in at this end, modulo 2^32.
    pub rx_cnt: u32,
}

/// A payload that is longer than the room for it.
#[derive(Clone, Copy, Debug, PartialEq, Eq)]
pub struct Overrun {
    /// Bytes of the payload.
    pub len: u32,
    /// Bytes of room.
    pub room: u32,
}

impl Credit {
    /// A credit with `alloc` bytes of buffer space, of a peer that told nothing yet: nothing may be sent.
    pub fn new(alloc: u32) -> Credit
        ensures { result ≡ new_credit alloc }
    {
        Credit {
            tx_cnt: 0,
            peer_alloc: 0,
            peer_fwd: 0,
            alloc,
            fwd_cnt: 0,
            rx_cnt: 0,
        }
    }

    /// Bytes that this end may send now: the peer's buffer space less what is in transit, and 0 where more is in
    /// transit than that.
    pub fn free(&self) -> u32
        ensures exact { result ≡ free_of self.now }
        ensures exceeded { self.now.peer_alloc < in_transit_of self.now → result ≡ 0 }
        ensures granted { in_transit_of self.now ≤ self.now.peer_alloc
            → result + in_transit_of self.now ≡ self.now.peer_alloc }
        // Of the plain numbers of bytes sent and forwarded: what the peer has forwarded and has buffer space for, less
        // the bytes sent.
        ensures plain { (put forwarded : ℕ)
            → put % 2 ^ 32 ≡ self.now.tx_cnt → forwarded % 2 ^ 32 ≡ self.now.peer_fwd
            → forwarded ≤ put → put ≤ forwarded + self.now.peer_alloc
            → result + put ≡ forwarded + self.now.peer_alloc }
    {
        let peer_alloc = self.peer_alloc;
        peer_alloc.saturating_sub(sub32(self.tx_cnt, self.peer_fwd))
    }

    /// Counts `n` bytes as sent. They may be at most the bytes that this end may send.
    pub fn sent(&mut self, n: u32)
        requires { n ≤ free_of self.old }
        ensures exact { self.new ≡ with_sent self.old n }
        ensures plain { (put : ℕ) → put % 2 ^ 32 ≡ self.old.tx_cnt → (put + n) % 2 ^ 32 ≡ self.new.tx_cnt }
    {
        self.tx_cnt = add32(self.tx_cnt, n);
    }

    /// Takes over what the peer told: `alloc` bytes of buffer space, and `fwd` bytes forwarded, modulo 2^32.
    pub fn heard(&mut self, alloc: u32, fwd: u32)
        ensures { self.new ≡ with_heard self.old alloc fwd }
    {
        self.peer_alloc = alloc;
        self.peer_fwd = fwd;
    }

    /// Counts `n` bytes as come in. Where that is more than the room it is an error that tells both numbers, and nothing
    /// is counted.
    pub fn took(&mut self, n: u32) -> Result<(), Overrun>
        ensures refused { IsErr result ↔ (room_of self.old < n) }
        ensures ok { OnOk result (self.new ≡ with_taken self.old n) }
        ensures overrun { IfErr result (λ e. e ≡ record { len = n; room = room_of self.old }) }
        ensures kept { OnErr result (self.new ≡ self.old) }
        // Of the plain numbers of bytes that came in and were forwarded: where those forwarded and the buffer space are
        // fewer than all that came in.
        ensures plain { (taken forwarded : ℕ)
            → taken % 2 ^ 32 ≡ self.old.rx_cnt → forwarded % 2 ^ 32 ≡ self.old.fwd_cnt
            → forwarded ≤ taken → taken ≤ forwarded + self.old.alloc
            → IsErr result ↔ (forwarded + self.old.alloc < taken + n) }
    {
        let room = self.room();
        if n > room {
            return Err(Overrun { len: n, room });
        }
        self.rx_cnt = add32(self.rx_cnt, n);
        Ok(())
    }

    /// Counts `n` bytes as forwarded. They may be at most the unread bytes.
    pub fn forwarded(&mut self, n: u32)
        requires { n ≤ unread_of self.old }
        ensures exact { self.new ≡ with_forwarded self.old n }
        ensures plain { (forwarded : ℕ) → forwarded % 2 ^ 32 ≡ self.old.fwd_cnt
            → (forwarded + n) % 2 ^ 32 ≡ self.new.fwd_cnt }
    {
        self.fwd_cnt = add32(self.fwd_cnt, n);
    }

    /// Bytes that came in and were not forwarded yet.
    pub fn unread(&self) -> u32
        ensures exact { result ≡ unread_of self.now }
        // Of the plain numbers of bytes that came in and were forwarded: their difference.
        ensures plain { (taken forwarded : ℕ)
            → taken % 2 ^ 32 ≡ self.now.rx_cnt → forwarded % 2 ^ 32 ≡ self.now.fwd_cnt
            → forwarded ≤ taken → taken ≤ forwarded + (2 ^ 32 - 1)
            → forwarded + result ≡ taken }
    {
        sub32(self.rx_cnt, self.fwd_cnt)
    }

    /// Bytes of room that this end has for payload: 0 to `alloc`.
    pub fn room(&self) -> u32
        ensures exact { result ≡ room_of self.now }
        // Of the plain numbers of bytes that came in and were forwarded: what their difference leaves of the space.
        ensures plain { (taken forwarded : ℕ)
            → taken % 2 ^ 32 ≡ self.now.rx_cnt → forwarded % 2 ^ 32 ≡ self.now.fwd_cnt
            → forwarded ≤ taken → taken ≤ forwarded + self.now.alloc
            → result + taken ≡ forwarded + self.now.alloc }
    {
        let alloc = self.alloc;
        alloc.saturating_sub(self.unread())
    }
}

/// Laws of counting. Bytes sent are taken from what may be sent; bytes that came in where there was room are unread;
/// bytes forwarded are unread no more.
pub fn laws_of_counting()
    ensures sent { (c : Credit) (n : ℕ) → c.peer_fwd < 2 ^ 32 → c.peer_alloc < 2 ^ 32
        → n ≤ free_of c → free_of (with_sent c n) + n ≡ free_of c }
    ensures taken { (c : Credit) (n : ℕ) → c.fwd_cnt < 2 ^ 32 → c.alloc < 2 ^ 32
        → n ≤ room_of c → unread_of (with_taken c n) ≡ unread_of c + n }
    ensures forwarded { (c : Credit) (n : ℕ) → c.fwd_cnt < 2 ^ 32
        → n ≤ unread_of c → unread_of (with_forwarded c n) + n ≡ unread_of c }
{}

/// Two examples where counters wrap. A sender that passed 2^32 after its peer told 0xFFFFFFF0 has 32 bytes in transit. A
/// peer that says to have forwarded more than was sent gets nothing, and not more than its buffer space.
pub fn examples_of_wrapped_credit()
    ensures past_wrap { (c : Credit) → c.tx_cnt ≡ 0x10 → c.peer_fwd ≡ 0xFFFF_FFF0 → c.peer_alloc ≡ 65_536
        → free_of c ≡ 65_504 }
    ensures told_too_much { (c : Credit) → c.tx_cnt ≡ 0 → c.peer_fwd ≡ 1 → c.peer_alloc ≡ 65_536
        → free_of c ≡ 0 }
{}
