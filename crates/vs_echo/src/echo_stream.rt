//! A stream whose program gives back what it is given.

ghost use Rattle.std.specs.Prelude.{◌≡◌, IfOk, Some, length, true, IsTrue, ◌↔◌};
ghost use Rattle.vs_outside.specs.{Host.{dialed_stream, read_of, write_of}, HostProgram.{ReadsStream, stream_after_write}, declared.host_net.StreamState.TheVariants.Closed};
ghost use Rattle.vs_outside.specs.declared.host_net.StreamState.TheVariants.{Open};
ghost use Rattle.vs_echo.specs.Echo.{IsEcho, echoing};

use std::alloc::{AllocError, Global};
use std::marker::Model;
use vs_buffer::ByteFifo;
use vs_excerpt::bytes_given::{BytesGiven, Piece};
use vs_flow::Flow;
use vs_outside::{StreamRead, StreamWrite};

/// How many bytes wait in a stream at most.
pub const ECHO_ROOM: usize = 65_536;

/// A stream that echoes.
#[derive(Drop)]
pub struct EchoStream {
    label: Flow,
    closed: bool,
    // What came back, and then what waits, is what it was given.
    given: BytesGiven,
    back: BytesGiven,
    waiting: ByteFifo,
    write_shut: bool,
}

impl Model for EchoStream {
    ghost use Rattle.std.specs.Prelude.{◌≡◌, ◌≤◌, ◌-◌, ◌++◌, if◌then◌else◌, true, false, length, Some};
    ghost use Rattle.vs_outside.specs.{Host.Stream, declared.host_net.StreamState.TheVariants.{Closed, Open}};
    ghost use Rattle.vs_echo.specs.declared.echo_stream.TheConstants.{ECHO_ROOM};

    ghost Value = { Stream };

    ghost view = { λ s. record {
      label = Some s.label;
      by_client = false;
      state = if s.closed then Closed else Open;
      taken = s.back.items;
      untaken = s.waiting.bytes;
      ended = false;
      given = s.given.items;
      room = Some (ECHO_ROOM - length s.waiting.bytes);
      echoes = true;
      host_closed = false;
      write_shut = s.write_shut;
    } };

    ghost invariant = { λ s. (s.back.items ++ s.waiting.bytes ≡ s.given.items) × (s.waiting.capacity ≡ ECHO_ROOM)
        × (length s.waiting.bytes ≤ ECHO_ROOM) };
}

impl EchoStream {
    /// A stream that was dialled. All its memory is taken here.
    pub(crate) fn dialed(alloc: Global, flow: Flow) -> Result<EchoStream, AllocError>
        ensures is { IfOk result (λ stream. stream ≡ dialed_stream flow echoing) }
        ensures echo { IfOk result (λ stream. IsEcho stream) }
    {
        Ok(EchoStream {
            label: flow,
            closed: false,
            given: BytesGiven::new(),
            back: BytesGiven::new(),
            waiting: ByteFifo::new(alloc, ECHO_ROOM)?,
            write_shut: false,
        })
    }

    /// The flow that the proxy gave the stream.
    pub fn label(&self) -> Flow
        ensures { self.now.label ≡ Some result }
    {
        self.label
    }

    /// Whether the proxy hasn't closed it.
    pub fn is_open(&self) -> bool
        ensures { IsTrue result ↔ (self.now.state ≡ Open) }
    {
        !self.closed
    }

    /// The stream has that label from now on.
    pub(crate) fn set_label(&mut self, flow: Flow)
        ensures is { self.new ≡ record self.old { label = Some flow } }
        ensures echo { IsEcho self.new }
    {
        self.label = flow;
    }

    /// The proxy shuts the side that it writes to.
    pub(crate) fn shut_write(&mut self)
        ensures is { self.new ≡ record self.old { write_shut = true } }
        ensures echo { IsEcho self.new }
    {
        self.write_shut = true;
    }

    /// The proxy closes it.
    pub(crate) fn close(&mut self)
        ensures is { self.new ≡ record self.old { state = Closed } }
        ensures echo { IsEcho self.new }
    {
        self.closed = true;
    }

    /// The proxy reads the next bytes into the front of `out`.
    pub(crate) fn read(&mut self, out: &mut [u8]) -> StreamRead
        ensures answer { result ≡ read_of (length out.old) self.old }
        ensures reads { ReadsStream result out.new self.old self.new }
        ensures echo { IsEcho self.new }
    {
        if self.waiting.is_empty() {
            return StreamRead::Again;
        }
        let n = self.waiting.take_into(out);
        self.back = self.back.then(&Piece { bytes: &out[..n] });
        StreamRead::Got(n)
    }

    /// The proxy writes the first ones of these bytes.
    pub(crate) fn write(&mut self, bytes: &[u8]) -> StreamWrite
        ensures answer { result ≡ write_of (length bytes.now) self.old }
        ensures after { self.new ≡ stream_after_write bytes.now result self.old }
        ensures echo { IsEcho self.new }
    {
        let n = bytes.len().min(self.waiting.room());
        if n == 0 {
            return StreamWrite::Again;
        }
        self.waiting.put(&bytes[..n]);
        self.given = self.given.then(&Piece { bytes: &bytes[..n] });
        StreamWrite::Took(n)
    }
}
