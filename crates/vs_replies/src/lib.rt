//! Replies that are owed to packets of no known connection: each such packet, where it is no RST, gets RST (Virtio 1.2,
//! section 5.10.6.5). They wait in a bounded queue until they are put, so that packets still come in while none can be
//! put (section 5.10.6.1).
#![tactic(auto)]

ghost use Rattle.std.specs.Prelude.{◌≡◌, ◌+◌, ◌-◌, ◌<◌, ◌≤◌, ◌==◌, ◌↔◌, [], ◌∷◌, ◌++◌, IfErr, IfOk, IsErr, OnErr, OnOk, drop, length, slice_get};
ghost use Rattle.vs_replies.specs.Owed.{reply_to};

use circular_buffer::HeapCircularBuffer;
use std::alloc::{AllocError, Global};
use std::marker::Model;
use vs_flow::Flow;
use vs_header::{Header, Kind};

/// An RST that is owed as a reply.
#[derive(Clone, Copy, Debug, PartialEq, Eq)]
pub struct Reply {
    /// The flow that it is put on.
    pub flow: Flow,
    /// The type of sockets that it answers.
    pub kind: Kind,
}

impl Reply {
    /// The reply to a packet of a flow, of the type that the packet has where that is known.
    pub fn to(flow: Flow, packet: &Header) -> Reply
        ensures { result ≡ reply_to flow packet.now }
    {
        let kind = match packet.kind {
            2 => Kind::Seqpacket,
            _ => Kind::Stream,
        };
        Reply { flow, kind }
    }
}

/// As many replies are owed as there may be.
#[derive(Clone, Copy, Debug, PartialEq, Eq)]
pub struct Full {
    /// How many replies are owed.
    pub n: usize,
}

/// A bounded queue of the replies that are owed. All its memory is taken when it is made.
#[derive(Drop)]
pub struct Replies {
    ring: HeapCircularBuffer<Reply>,
}

impl Model for Replies {
    ghost use Rattle.vs_replies.specs.Owed.{OwedReplies};

    ghost Value = { OwedReplies };

    ghost view = { λ r. record { owed = r.ring.items; capacity = r.ring.capacity } };
}

impl Replies {
    /// An empty queue for at most `n` replies, or an error where there is no memory for them.
    pub fn new(alloc: Global, n: usize) -> Result<Replies, AllocError>
        ensures { IfOk result (λ r. r ≡ record { owed = []; capacity = n }) }
    {
        let ring = HeapCircularBuffer::with_capacity(alloc, n)?;
        Ok(Replies { ring })
    }

    /// Owes one more reply, after all others. Where as many are owed as there may be it is an error that tells how many,
    /// and all stays as it was.
    pub fn owe(&mut self, reply: Reply) -> Result<(), Full>
        ensures refused { IsErr result ↔ (length self.old.owed ≡ self.old.capacity) }
        ensures ok { OnOk result (self.new ≡ record self.old { owed = self.old.owed ++ reply ∷ [] }) }
        ensures full { IfErr result (λ e. e ≡ record { n = self.old.capacity }) }
        ensures kept { OnErr result (self.new ≡ self.old) }
    {
        match self.ring.try_push_back(reply) {
            Ok(()) => Ok(()),
            Err(_) => Err(Full { n: self.ring.len() }),
        }
    }

    /// The reply that is owed longest, if one is owed.
    pub fn front(&self) -> Option<Reply>
        ensures { result ≡ slice_get self.now.owed 0 }
    {
        self.ring.front().copied()
    }

    /// Counts the reply that is owed longest as put. One has to be owed.
    pub fn paid(&mut self)
        requires { 0 < length self.old.owed }
        ensures { self.new ≡ record self.old { owed = drop 1 self.old.owed } }
    {
        self.ring.pop_front();
    }

    /// How many replies are owed.
    pub fn len(&self) -> usize
        ensures exact { result ≡ length self.now.owed }
        ensures within { result ≤ self.now.capacity }
    {
        self.ring.len()
    }

    /// Whether no reply is owed.
    pub fn is_empty(&self) -> bool
        ensures { result ≡ (length self.now.owed == 0) }
    {
        self.ring.is_empty()
    }

    /// How many more replies may be owed.
    pub fn room(&self) -> usize
        ensures exact { result ≡ self.now.capacity - length self.now.owed }
        ensures within { length self.now.owed + result ≡ self.now.capacity }
    {
        self.ring.capacity() - self.ring.len()
    }

    /// Drops all replies: none is owed.
    pub fn clear(&mut self)
        ensures { self.new ≡ record self.old { owed = [] } }
    {
        self.ring.clear();
    }
}
