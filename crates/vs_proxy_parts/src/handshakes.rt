//! The handshakes of a proxy, in the order in which they were accepted.

ghost use Rattle.std.specs.Prelude.{◌≡◌, ◌≤◌, ◌<◌, ◌==◌, ◌++◌, ◌∷◌, [], length, map, find, position, Some, IfOk, option_map};
ghost use Rattle.vs_uds.specs.ConnectLine.{connect_step};
ghost use Rattle.vs_uds.specs.declared.scan.Step.TheVariants as step;
ghost use Rattle.vs_proxy_parts.specs.Handshakes.{with_line, without_stream};
ghost use Rattle.vs_proxy_parts.specs.State as spec;
ghost use Rattle.vs_limits.specs.declared.TheConstants.{HANDSHAKES};

use crate::handshake::Handshake;
use arrayvec::ArrayVec;
use std::alloc::{AllocError, Global};
use std::marker::Model;
use vs_limits::HANDSHAKES;
use vs_uds::Step;

/// The handshakes, at most 16.
#[derive(Drop)]
pub struct Handshakes {
    all: Vec<Handshake>,
}

impl Model for Handshakes {
    ghost use Rattle.std.specs.Prelude.{List};
    ghost use Rattle.vs_proxy_parts.specs.State as spec;
    ghost use Rattle.vs_proxy_parts.specs.HandshakeFields.{AreUndecided};

    ghost Value = { List spec.Handshake };

    ghost view = { λ h. h.all.items };

    ghost invariant = { AreUndecided };
}

impl Handshakes {
    /// No handshakes. All memory is taken here.
    pub fn new(alloc: Global) -> Result<Handshakes, AllocError>
        ensures { IfOk result (λ h. h ≡ []) }
    {
        Ok(Handshakes {
            all: Vec::with_capacity(alloc, HANDSHAKES)?,
        })
    }

    /// How many there are.
    pub fn len(&self) -> usize
        ensures count { result ≡ length self.now }
        ensures most { result ≤ HANDSHAKES }
    {
        self.all.len()
    }

    /// Their streams, in the order in which they were accepted.
    pub fn streams(&self) -> ArrayVec<u64, HANDSHAKES>
        ensures { result.items ≡ map (λ h. h.stream) self.now }
    {
        let mut streams = ArrayVec::new();
        for handshake in &self.all {
            streams.push(handshake.stream());
        }
        streams
    }

    /// The moment at which the handshake on a stream was accepted.
    pub fn accepted_at(&self, stream: u64) -> Option<u64>
        ensures { result ≡ option_map (λ h. h.accepted_at) (find (λ h. h.stream == stream) self.now) }
    {
        let handshake = self.all.iter().find(|handshake| handshake.is_on(stream))?;
        Some(handshake.accepted_at())
    }

    /// A client is accepted at a moment. There has to be a place.
    pub fn accept(&mut self, stream: u64, now: u64)
        requires place { length self.old < HANDSHAKES }
        ensures { self.new ≡ self.old ++ record { stream = stream; accepted_at = now; line = [] } ∷ [] }
    {
        self.all.push_reserved(Handshake::new(stream, now));
    }

    /// Takes the next byte of the line of the handshake on a stream. With a whole line, or bytes that are none, the handshake is over.
    pub fn feed(&mut self, stream: u64, byte: u8) -> Step
        ensures step { (h : spec.Handshake) → find (λ h. h.stream == stream) self.old ≡ Some h → result ≡ connect_step (h.line ++ byte ∷ []) }
        ensures more { (h : spec.Handshake) → find (λ h. h.stream == stream) self.old ≡ Some h → result ≡ step.More → self.new ≡ with_line stream (h.line ++ byte ∷ []) self.old }
        ensures over { (h : spec.Handshake) → find (λ h. h.stream == stream) self.old ≡ Some h → (result ≡ step.More → ⊥) → self.new ≡ without_stream stream self.old }
    {
        let Some(place) = place_of(&self.all, stream) else {
            return Step::Bad;
        };
        let handshake = &mut self.all[place];
        match handshake.feed(byte) {
            Step::More => Step::More,
            step => {
                self.all.remove(place);
                step
            }
        }
    }

    /// The handshake on a stream is over.
    pub fn remove(&mut self, stream: u64)
        ensures { self.new ≡ without_stream stream self.old }
    {
        if let Some(place) = place_of(&self.all, stream) {
            self.all.remove(place);
        }
    }

    /// All handshakes are over.
    pub fn clear(&mut self)
        ensures { self.new ≡ [] }
    {
        self.all.clear();
    }
}

// The place of the handshake on a stream.
fn place_of(all: &[Handshake], stream: u64) -> Option<usize>
    ensures { result ≡ position (λ h. h.stream == stream) all.now }
{
    all.iter().position(|handshake| handshake.is_on(stream))
}
