//! What a client sends once it was answered: the bytes of its source, and then the end of its side.
ghost use Rattle.std.specs.{Prelude.{◌≡◌, [], false}, Option.ForSome};
ghost use Rattle.vs_contents.specs.Contents.{Relates};
ghost use Rattle.vs_outside.specs.{Host.IsOpen, Faults.CountsFault};
ghost use Rattle.vs_peer.specs.{Sending.{IsSending, GoesOn, between, Sends, Writes, shuts}, Passing.Moves, Failing.host_failed};

use crate::stop::Stop;
use crate::stream::write;
use vs_outside::{HostNet, StreamWrite};

/// The most bytes that are written at once.
pub const PIECE: usize = 4096;

/// Whether more is sent.
#[derive(Clone, Copy, Debug, PartialEq, Eq)]
pub enum Side {
    /// Bytes are unsent, or the client's side isn't shut yet.
    Open,
    /// All is sent, and the client's side is shut.
    Shut,
    /// The stream takes nothing more.
    Closed,
}

/// How far a client is with what it sends.
#[derive(Clone, Copy, Debug, PartialEq, Eq)]
pub struct Sending {
    /// How many bytes were sent.
    pub sent: usize,
    /// Whether more is sent.
    pub side: Side,
}

impl Sending {
    /// Makes a step of the sending: one write of unsent bytes, where there are any. When all is sent the client's side is shut. Answers
    /// whether bytes were sent.
    pub fn step<H: HostNet>(&mut self, host: &mut H, id: u64, bytes: &[u8]) -> Result<bool, Stop>
        requires open { ForSome (H.contents host.old) (IsOpen id) }
        requires sending { IsSending id bytes.now self.old (H.contents host.old) }
        ensures open { ForSome (H.contents host.new) (IsOpen id) }
        ensures sending { IsSending id bytes.now self.new (H.contents host.new) }
        ensures goes_on { GoesOn self.old self.new }
        ensures passes { Relates (H.contents host.old) (H.contents host.new)
            (Moves id (between self.old self.new bytes.now) [] (shuts self.old.side self.new.side)) }
        ensures sends { Sends id bytes.now self.new (H.contents host.new) result }
        ensures faults { CountsFault (host_failed result) (H.faults host.old) (H.faults host.new) }
    {
        let moved = self.write(host, id, bytes)?;
        if self.side == Side::Open && self.sent == bytes.len() {
            host.shut_write(id);
            self.side = Side::Shut;
        }
        Ok(moved)
    }

    // Writes unsent bytes, where there are any.
    fn write<H: HostNet>(&mut self, host: &mut H, id: u64, bytes: &[u8]) -> Result<bool, Stop>
        requires open { ForSome (H.contents host.old) (IsOpen id) }
        requires sending { IsSending id bytes.now self.old (H.contents host.old) }
        ensures open { ForSome (H.contents host.new) (IsOpen id) }
        ensures sending { IsSending id bytes.now self.new (H.contents host.new) }
        ensures goes_on { GoesOn self.old self.new }
        ensures passes { Relates (H.contents host.old) (H.contents host.new) (Moves id (between self.old self.new bytes.now) [] false) }
        ensures open_still { self.new.side ≡ Side.Open → self.old.side ≡ Side.Open }
        ensures shut_still { self.new.side ≡ Side.Shut → self.old.side ≡ Side.Shut }
        ensures sends { Writes id bytes.now self.new (H.contents host.new) result }
        ensures faults { CountsFault (host_failed result) (H.faults host.old) (H.faults host.new) }
    {
        if self.side != Side::Open || self.sent == bytes.len() {
            return Ok(false);
        }
        let unsent = &bytes[self.sent..];
        match write(host, id, &unsent[..unsent.len().min(PIECE)]) {
            StreamWrite::Took(n) => {
                self.sent += n;
                Ok(true)
            }
            StreamWrite::Again => Ok(false),
            StreamWrite::Closed => {
                self.side = Side::Closed;
                Ok(false)
            }
            StreamWrite::Failed => Err(Stop::Host),
        }
    }
}
