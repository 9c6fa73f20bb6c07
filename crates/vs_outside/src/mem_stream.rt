//! A stream of a host in memory.
ghost use Rattle.std.specs.{Prelude.{◌≡◌, ◌≤◌, ◌+◌, ◌-◌, ◌++◌, drop, length, min, take, IfOk, OnOk, OnErr, is_none}, Option.option_map};
ghost use Rattle.vs_outside.specs.{Host.{dialed_stream, is_waiting, read_of, take_bytes, taken_of, write_of}, HostProgram.{plain, client_stream, ReadsStream, stream_after_write, is_over}};
ghost use Rattle.vs_outside.specs.{HostProgram.{with_bytes, changed}, HostBytes.{wrote_after_connect, read_after_ok}};
ghost use Rattle.vs_excerpt.specs.Excerpt.{excerpt_of};

use crate::host_net::{StreamRead, StreamState, StreamWrite};
use crate::passed::Passed;
use std::alloc::{AllocError, Global};
use std::marker::Model;
use vs_excerpt::Excerpt;
use vs_flow::Flow;

/// What the host's program is answered when it writes to a stream.
#[derive(Clone, Copy, Debug, PartialEq, Eq)]
pub enum HostWritten {
    /// All bytes wait to be taken by the proxy.
    Ok,
    /// The host's program ended the stream, or the proxy closed it.
    Ended,
    /// There is no stream of that id.
    NoStream,
}

/// A change of a stream that moves no bytes.
#[derive(Clone, Copy)]
pub(crate) enum StreamChange {
    /// The proxy accepts it.
    Accept,
    /// The proxy shuts the side that it writes to.
    ShutWrite,
    /// The proxy closes it.
    Close,
    /// The host's program takes so many bytes more.
    Allow(usize),
    /// The host's program ends it.
    End,
    /// The host's program closes it.
    CloseByHost,
}

/// What a stream is like when a dial makes it, at the end of the host's program.
#[derive(Drop)]
pub struct PreparedStream {
    /// The bytes that wait to be taken by the proxy.
    pub bytes: Vec<u8>,
    /// Whether no more bytes come.
    pub ended: bool,
    /// How many bytes the stream takes; none: any number.
    pub room: Option<usize>,
    /// Whether the host's program closed it.
    pub closed: bool,
}

impl Model for PreparedStream {
    ghost use Rattle.std.specs.Prelude.{false};
    ghost use Rattle.vs_outside.specs.Host.{Prepared};

    ghost Value = { Prepared };

    ghost view = { λ p. record { untaken = p.bytes.items; ended = p.ended; room = p.room; echoes = false; host_closed = p.closed } };
}

impl PreparedStream {
    /// A stream to which the host's program wrote nothing yet, and which takes all.
    pub fn plain(alloc: Global) -> PreparedStream
        ensures { result ≡ plain }
    {
        PreparedStream {
            bytes: Vec::new(alloc),
            ended: false,
            room: None,
            closed: false,
        }
    }
}

/// A stream of a host in memory. Of the bytes that the proxy gave it, and of those that it took, it keeps an excerpt, and no more.
#[derive(Drop)]
pub struct MemStream {
    label: Option<Flow>,
    by_client: bool,
    state: StreamState,
    /// Bytes that the host's program wrote, of which the proxy took the first `at`. Others that it took before aren't kept.
    written: Vec<u8>,
    at: usize,
    /// How many bytes the host's program wrote in all.
    total: u64,
    ended: bool,
    taken: Passed,
    given: Passed,
    room: Option<usize>,
    host_closed: bool,
    write_shut: bool,
}

impl Model for MemStream {
    ghost use Rattle.std.specs.Prelude.{◌≡◌, ◌≤◌, ◌+◌, false, drop, length, vec_len};
    ghost use Rattle.vs_outside.specs.{Host.Stream, KeptBytes.IsKept};

    ghost Value = { Stream };

    ghost view = { λ s. record {
      label = s.label;
      by_client = s.by_client;
      state = s.state;
      taken = s.taken.bytes.items;
      untaken = drop s.at s.written.items;
      ended = s.ended;
      given = s.given.bytes.items;
      room = s.room;
      echoes = false;
      host_closed = s.host_closed;
      write_shut = s.write_shut;
    } };

    ghost invariant = { λ s. (s.at ≤ vec_len s.written) × (s.total + s.at ≡ length s.taken.bytes.items + vec_len s.written)
        × IsKept s.by_client s.taken.bytes.items s.taken.kept s.taken.line_over
        × IsKept s.by_client s.given.bytes.items s.given.kept s.given.line_over };
}

impl MemStream {
    /// A client's stream, which waits to be accepted.
    pub(crate) fn client(alloc: Global) -> MemStream
        ensures { result ≡ client_stream }
    {
        MemStream {
            label: None,
            by_client: true,
            state: StreamState::Waiting,
            written: Vec::new(alloc),
            at: 0,
            total: 0,
            ended: false,
            taken: Passed::none(false),
            given: Passed::none(false),
            room: None,
            host_closed: false,
            write_shut: false,
        }
    }

    /// A stream that the proxy dialled.
    pub(crate) fn dialed(
        alloc: Global,
        flow: Flow,
        prepared: &PreparedStream,
    ) -> Result<MemStream, AllocError>
        ensures { IfOk result (λ stream. stream ≡ dialed_stream flow prepared.now) }
    {
        Ok(MemStream {
            label: Some(flow),
            by_client: false,
            state: StreamState::Open,
            written: Vec::from_slice(alloc, &prepared.bytes)?,
            at: 0,
            total: prepared.bytes.len() as u64,
            ended: prepared.ended,
            taken: Passed::none(true),
            given: Passed::none(true),
            room: prepared.room,
            host_closed: prepared.closed,
            write_shut: false,
        })
    }

    /// The flow that the proxy gave the stream.
    pub fn label(&self) -> Option<Flow>
        ensures { result ≡ self.now.label }
    {
        self.label
    }

    /// Whether a client of the host made the stream, or else a dial of the proxy.
    pub fn is_by_client(&self) -> bool
        ensures { result ≡ self.now.by_client }
    {
        self.by_client
    }

    /// Whether the proxy was given the stream, and whether it closed it.
    pub fn state(&self) -> StreamState
        ensures { result ≡ self.now.state }
    {
        self.state
    }

    /// The bytes that the host's program wrote and the proxy hasn't taken yet.
    pub fn untaken(&self) -> &[u8]
        ensures { result.now ≡ self.now.untaken }
    {
        self.written.split_at(self.at).1
    }

    /// Whether the proxy shut the side that it writes to.
    pub fn is_write_shut(&self) -> bool
        ensures { result ≡ self.now.write_shut }
    {
        self.write_shut
    }

    /// What is kept of what the host's program wrote and the proxy took, without the CONNECT line of a client.
    pub fn wrote_after_connect(&self) -> &Excerpt
        ensures { result.now ≡ excerpt_of (wrote_after_connect self.now) }
    {
        &self.taken.kept
    }

    /// What is kept of what the host's program was given to read, without the OK line that a client gets.
    pub fn read_after_ok(&self) -> &Excerpt
        ensures { result.now ≡ excerpt_of (read_after_ok self.now) }
    {
        &self.given.kept
    }

    /// Whether a client made the stream and it isn't accepted yet.
    pub(crate) fn is_waiting(&self) -> bool
        ensures { result ≡ is_waiting self.now }
    {
        self.state == StreamState::Waiting
    }

    /// The stream has that label from now on. Answers whether it had none.
    pub(crate) fn set_label(&mut self, flow: Flow) -> bool
        ensures first { result ≡ is_none self.old.label }
        ensures after { self.new ≡ record self.old { label = Some flow } }
    {
        let first = self.label.is_none();
        self.label = Some(flow);
        first
    }

    /// Changes the stream so.
    pub(crate) fn change(&mut self, change: StreamChange)
        ensures { self.new ≡ changed usize.MAX change self.old }
    {
        match change {
            StreamChange::Accept => self.state = StreamState::Open,
            StreamChange::ShutWrite => self.write_shut = true,
            StreamChange::Close => self.state = StreamState::Closed,
            StreamChange::Allow(n) => {
                self.room = Some(self.room.unwrap_or(0).saturating_add(n));
            }
            StreamChange::End => self.ended = true,
            StreamChange::CloseByHost => self.host_closed = true,
        }
    }

    /// The proxy reads the next bytes into the front of `out`.
    #[inline(always)]
    pub(crate) fn read(&mut self, out: &mut [u8]) -> StreamRead
        ensures answer { result ≡ read_of (length out.old) self.old }
        ensures reads { ReadsStream result out.new self.old self.new }
    {
        if self.untaken().is_empty() {
            return if self.ended {
                StreamRead::End
            } else {
                StreamRead::Again
            };
        }
        StreamRead::Got(self.take_front(out))
    }

    /// The proxy takes the next bytes into the front of `out`. Of most streams, most of the time, there are none.
    #[tactic(auto, using(crate::proofs::Bytes::take_more, crate::proofs::Bytes::drop_more))]
    #[inline(never)]
    fn take_front(&mut self, out: &mut [u8]) -> usize
        ensures count { result ≡ min (length out.old) (length self.old.untaken) }
        ensures front { take result out.new ≡ take result self.old.untaken }
        ensures after { self.new ≡ take_bytes result self.old }
    {
        let n = copy_front(self.untaken(), out);
        self.taken.pass(&self.written[self.at..self.at + n]);
        self.at += n;
        n
    }

    /// How many of `n` bytes the stream takes now.
    fn taken_of(&self, n: usize) -> usize
        ensures value { result ≡ taken_of n self.now }
        ensures most { result ≤ n }
    {
        match self.room {
            Some(room) => n.min(room),
            None => n,
        }
    }

    /// The proxy writes the first ones of these bytes. The only error is that the bytes of the stream can't be counted in 64 bits; then
    /// all is as before.
    pub(crate) fn write(&mut self, bytes: &[u8]) -> Result<StreamWrite, AllocError>
        ensures answer { IfOk result (λ answer. answer ≡ write_of (length bytes.now) self.old) }
        ensures ok { IfOk result (λ answer. self.new ≡ stream_after_write bytes.now answer self.old) }
        ensures err { OnErr result (self.new ≡ self.old) }
    {
        if self.host_closed {
            return Ok(StreamWrite::Closed);
        }
        let n = self.taken_of(bytes.len());
        if n == 0 {
            return Ok(StreamWrite::Again);
        }
        self.give(&bytes[..n])?;
        self.room = room_left(self.room, n);
        Ok(StreamWrite::Took(n))
    }

    /// The stream is given these bytes. The only error is that its bytes can't be counted in 64 bits; then all is as before.
    fn give(&mut self, bytes: &[u8]) -> Result<(), AllocError>
        ensures ok { OnOk result (self.new ≡ record self.old { given = self.old.given ++ bytes.now }) }
        ensures err { OnErr result (self.new ≡ self.old) }
    {
        if !self.given.has_room_for(bytes.len()) {
            return Err(AllocError);
        }
        self.given.pass(bytes);
        Ok(())
    }

    /// Whether the host's program can write no more: it ended the stream, or the proxy closed it.
    pub(crate) fn is_over(&self) -> bool
        ensures { result ≡ is_over self.now }
    {
        self.ended || self.state == StreamState::Closed
    }

    /// The host's program writes bytes. Where there is no memory for them, or all that it wrote can't be counted in 64 bits, all is as
    /// before.
    pub(crate) fn append(&mut self, bytes: &[u8]) -> Result<(), AllocError>
        ensures ok { OnOk result (self.new ≡ with_bytes bytes.now self.old) }
        ensures err { OnErr result (self.new ≡ self.old) }
    {
        self.forget_taken();
        let Some(total) = self.total.checked_add(bytes.len() as u64) else {
            return Err(AllocError);
        };
        self.written.extend_from_slice(bytes)?;
        self.total = total;
        Ok(())
    }

    /// Drops what is left of the bytes that the proxy took, where that moves no more bytes than it drops.
    fn forget_taken(&mut self)
        ensures { self.new ≡ self.old }
    {
        if self.written.len() - self.at <= self.at {
            drop_front(&mut self.written, self.at);
            self.at = 0;
        }
    }
}

/// Drops the first bytes, at least as many as are left.
fn drop_front(bytes: &mut Vec<u8>, at: usize)
    requires part { at ≤ length bytes.old.items }
    requires fits { length bytes.old.items ≤ at + at }
    ensures { bytes.new.items ≡ drop at bytes.old.items }
{
    let left = bytes.len() - at;
    let (front, back) = bytes.split_at_mut(at);
    front[..left].copy_from_slice(back);
    bytes.truncate(left);
}

/// What is left of the room for bytes, where there is a limit, after so many were taken.
fn room_left(room: Option<usize>, n: usize) -> Option<usize>
    ensures { result ≡ option_map (λ room. room - n) room }
{
    match room {
        Some(room) => Some(room.saturating_sub(n)),
        None => None,
    }
}

/// Copies the first bytes of `from` to the front of `out`, as many as there are and as there is room for.
fn copy_front(from: &[u8], out: &mut [u8]) -> usize
    ensures count { result ≡ min (length out.old) (length from.now) }
    ensures front { take result out.new ≡ take result from.now }
{
    let n = out.len().min(from.len());
    out[..n].copy_from_slice(&from[..n]);
    n
}
