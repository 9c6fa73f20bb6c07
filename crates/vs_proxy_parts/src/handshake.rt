//! A client's stream whose line `CONNECT PORT` isn't whole yet.

ghost use Rattle.std.specs.Prelude.{◌≡◌, ◌==◌, []};
ghost use Rattle.vs_uds.specs.{ConnectLine.connect_step, Reading.fed, declared.connect.TheConstants.CONNECT_MAX};

use std::marker::Model;
use vs_uds::{ConnectLine, Step};

/// A handshake: the client's stream, the moment at which it was accepted, and the reader of its line.
#[derive(Drop)]
pub struct Handshake {
    stream: u64,
    accepted_at: u64,
    line: ConnectLine,
}

impl Model for Handshake {
    ghost use Rattle.vs_proxy_parts.specs.State as spec;

    ghost Value = { spec.Handshake };

    ghost view = { λ h. record { stream = h.stream; accepted_at = h.accepted_at; line = h.line } };
}

impl Handshake {
    /// A handshake on a stream that was accepted at a moment.
    pub fn new(stream: u64, now: u64) -> Handshake
        ensures { result ≡ record { stream = stream; accepted_at = now; line = [] } }
    {
        Handshake {
            stream,
            accepted_at: now,
            line: ConnectLine::new(),
        }
    }

    /// Its stream.
    pub fn stream(&self) -> u64
        ensures { result ≡ self.now.stream }
    {
        self.stream
    }

    /// The moment at which it was accepted.
    pub fn accepted_at(&self) -> u64
        ensures { result ≡ self.now.accepted_at }
    {
        self.accepted_at
    }

    /// Whether it is on this stream.
    pub fn is_on(&self, stream: u64) -> bool
        ensures { result ≡ (self.now.stream == stream) }
    {
        self.stream == stream
    }

    /// Takes the next byte of its line.
    pub fn feed(&mut self, byte: u8) -> Step
        ensures step { result ≡ connect_step self.new.line }
        ensures fed { self.new ≡ record self.old { line = fed CONNECT_MAX self.old.line byte } }
    {
        self.line.feed(byte)
    }
}
