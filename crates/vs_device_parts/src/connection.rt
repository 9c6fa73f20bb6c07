//! A connection of the device's table: its end, the host's stream that it is joined to, and what is left to write to that stream.

ghost use Rattle.std.specs.Prelude.{◌≡◌, ◌≤◌, ◌<◌, ◌==◌, ◌&&◌, ◌+◌, ◌-◌, ◌++◌, ℕ, [], true, false, Some, if◌then◌else◌, length, take};
ghost use Rattle.vs_conn.specs.{End.{CanSend, asked, answering, grown, may_shut, owes_of, verdict_of, view_of, wanting_credit, with_payload_sent}, Headers.owed_header};
ghost use Rattle.vs_conn.specs.{Headers.payload_header, Shut.is_both, declared.end.{State.TheVariants.Live, Verdict.TheVariants.{Deliver, Accept}}};
ghost use Rattle.vs_credit.specs.Credit.{free_of, unread_of};
ghost use Rattle.laws_history.specs.Packets.{is_clean_rst};
ghost use Rattle.vs_header.specs.declared.Kind.TheVariants.{Stream};
ghost use Rattle.vs_limits.specs.declared.TheConstants.{BUF_ALLOC, BUF_ALLOC_MAX, WRITE_MAX};
ghost use Rattle.vs_uds.specs.OkLine.{ok_text};
ghost use Rattle.vs_device_parts.specs.{Connections.{after_shut, after_written, cut_off, is_late, is_timed_out, new_connection, stream_closed}, Paid.paid_connection};
ghost use Rattle.vs_device_parts.specs.{Receiving.may_read, Room.IsSpare, Streams.{to_write, is_written_out}, Transmitting.{heard, without_payload}, Watched.has_to_write};
ghost use Rattle.vs_device_parts.specs.{Growing.grow_answer, Noted.service_of, declared.answers.Grown.TheVariants.Done};
ghost use Rattle.vs_device_parts.specs.declared.service.Service.TheVariants as service;

use crate::answers::Grown;
use crate::service::Service;
use std::marker::Model;
use vs_buffer::ByteFifo;
use vs_conn::{End, EndView, Owed, Route, Shut, State, Verdict};
use vs_header::{CLEAN, Header, Kind, Op};
use vs_limits::{BUF_ALLOC, BUF_ALLOC_MAX, TIMEOUT, WRITE_MAX};
use vs_uds::ok_line;

/// The buffers of a connection.
#[derive(Drop)]
pub struct Buffers {
    /// What is left to write of the OK line.
    pub ok_line: ByteFifo,
    /// What is left to write of the payload that came in.
    pub pending: ByteFifo,
}

/// A connection of the table.
#[derive(Drop)]
pub struct Connection {
    end: End,
    stream: u64,
    by_client: bool,
    buffers: Buffers,
    asked_at: Option<u64>,
    shut_at: Option<u64>,
    closed: bool,
    write_shut: bool,
}

impl Model for Connection {
    ghost use Rattle.vs_device_parts.specs.{State.DeviceConnection, Room.HasRoom};

    ghost Value = { DeviceConnection };

    ghost view = { λ c. record {
      end = c.end;
      stream = c.stream;
      by_client = c.by_client;
      ok_line = c.buffers.ok_line.bytes;
      pending = c.buffers.pending.bytes;
      asked_at = c.asked_at;
      shut_at = c.shut_at;
      closed = c.closed;
      write_shut = c.write_shut;
    } };

    ghost invariant = { λ c. HasRoom c.end c.buffers };
}

impl Connection {
    // A connection that comes into the table.
    fn new(end: End, stream: u64, by_client: bool, buffers: Buffers) -> Connection
        requires spare { IsSpare buffers }
        requires alloc { end.credit.alloc ≡ BUF_ALLOC }
        requires rx_cnt { end.credit.rx_cnt ≡ 0 }
        requires fwd_cnt { end.credit.fwd_cnt ≡ 0 }
        ensures { result ≡ new_connection end stream by_client }
    {
        Connection {
            end,
            stream,
            by_client,
            buffers,
            asked_at: None,
            shut_at: None,
            closed: false,
            write_shut: false,
        }
    }

    /// A connection that a client of the host asks for, on the client's stream. Its REQUEST is owed.
    pub fn client(stream: u64, buffers: Buffers) -> Connection
        requires spare { IsSpare buffers }
        ensures { result ≡ new_connection (asked Stream BUF_ALLOC) stream true }
    {
        Connection::new(End::ask(Kind::Stream, BUF_ALLOC), stream, true, buffers)
    }

    /// A connection that the guest's REQUEST opens, on the stream that a dial gave. Its RESPONSE is owed.
    pub fn dialed(stream: u64, request: &Header, buffers: Buffers) -> Connection
        requires spare { IsSpare buffers }
        ensures { result ≡ new_connection (answering Stream BUF_ALLOC request.now) stream false }
    {
        Connection::new(
            End::answer(Kind::Stream, BUF_ALLOC, request),
            stream,
            false,
            buffers,
        )
    }

    /// The host's stream that it is joined to.
    pub fn stream(&self) -> u64
        ensures { result ≡ self.now.stream }
    {
        self.stream
    }

    /// Whether the device closed that stream.
    pub fn is_closed(&self) -> bool
        ensures { result ≡ self.now.closed }
    {
        self.closed
    }

    /// Whether a packet ends it cleanly: a marked RST, where its end decided to shut both directions.
    pub fn ends_cleanly(&self, header: &Header) -> bool
        ensures { result ≡ (is_both self.now.end.own && is_clean_rst (without_payload header.now)) }
    {
        self.has_shut() && is_marked(header)
    }

    // Whether its end decided to shut both directions.
    fn has_shut(&self) -> bool
        ensures { result ≡ is_both self.now.end.own }
    {
        self.end.view().put == 3
    }

    /// What its end shows.
    pub fn end(&self) -> EndView
        ensures { result ≡ view_of self.now.end }
    {
        self.end.view()
    }

    /// The state of its end.
    pub fn state(&self) -> State
        ensures { result ≡ self.now.end.state }
    {
        self.end.view().state
    }

    /// Takes a packet of its flow, and says what the end says to it. Payload that is delivered has room among the pending bytes.
    pub fn on_packet(&mut self, header: &Header) -> Verdict
        ensures verdict { result ≡ verdict_of self.old.end header.now }
        ensures heard { self.new ≡ heard header.now self.old }
        ensures room { result ≡ Deliver → length self.old.pending + header.now.len ≤ unread_of self.new.end.credit }
        ensures most { result ≡ Deliver → header.now.len ≤ BUF_ALLOC_MAX }
        ensures delivers { result ≡ Deliver → may_shut self.new.end.state ≡ true }
        ensures accepts { result ≡ Accept → may_shut self.new.end.state ≡ true }
    {
        self.end.on_packet(header)
    }

    /// The connection stands since the RESPONSE came. To a client's stream the OK line is to be written, with the host port.
    pub fn accept(&mut self, port: u32)
        requires stands { may_shut self.old.end.state ≡ true }
        ensures { self.new ≡ record self.old { ok_line = if self.old.by_client then ok_text port else [] } }
    {
        self.buffers.ok_line.clear();
        if self.by_client {
            self.buffers.ok_line.put(ok_line(port).as_bytes());
        }
    }

    /// Payload of a packet that its end delivers is to be written.
    pub fn deliver(&mut self, payload: &[u8])
        requires stands { may_shut self.old.end.state ≡ true }
        requires room { length self.old.pending + length payload.now ≤ unread_of self.old.end.credit }
        ensures { self.new ≡ record self.old { pending = self.old.pending ++ payload.now } }
    {
        self.buffers.pending.put(payload);
    }

    /// The stream is closed: nothing is left to write.
    pub fn stream_closed(&mut self)
        ensures { self.new ≡ stream_closed self.old }
    {
        self.buffers.ok_line.clear();
        self.buffers.pending.clear();
        self.closed = true;
    }

    /// The connection is over: its stream is closed, and RST is owed.
    pub fn cut_off(&mut self)
        ensures { self.new ≡ cut_off self.old }
    {
        self.end.abort();
        self.stream_closed();
    }

    /// Decides to shut directions: bit 0 to receive no more, which drops what is left to write, bit 1 to send no more.
    pub fn shut(&mut self, bits: u8, now: u64)
        requires state { may_shut self.old.end.state ≡ true }
        requires bits { (1 ≤ bits) × (bits ≤ 3) }
        ensures { self.new ≡ after_shut bits now self.old }
    {
        self.end.shutdown(bits);
        let own = Shut::of(u32::from(self.end.view().put));
        if own.receive {
            self.buffers.ok_line.clear();
            self.buffers.pending.clear();
        }
        if self.shut_at.is_none() && own.receive && own.send {
            self.shut_at = Some(now);
        }
    }

    /// Copies the first bytes that are to be written to the front of `out`, those of the OK line first, and returns how many.
    pub fn copy_to_write(&self, out: &mut [u8; WRITE_MAX]) -> usize
        ensures count { result ≡ length (to_write self.now) }
        ensures copied { take result out.new ≡ to_write self.now }
        ensures most { result ≤ WRITE_MAX }
        ensures stands { 1 ≤ result → may_shut self.now.end.state ≡ true }
    {
        let line = self.buffers.ok_line.copy_front(out);
        let payload = self.buffers.pending.copy_front(&mut out[line..]);
        line + payload
    }

    /// The stream took the first `n` of the bytes that were to be written. Those of the OK line count in no credit.
    pub fn written(&mut self, n: usize)
        requires { n ≤ length self.old.ok_line + length self.old.pending }
        ensures { self.new ≡ after_written n self.old }
    {
        let line = n.min(self.buffers.ok_line.len());
        let payload = n - line;
        self.buffers.ok_line.drop_front(line);
        self.buffers.pending.drop_front(payload);
        self.end.forwarded(payload as u32);
    }

    /// Whether the side that the device writes to is to be shut: the guest sends no more, and all that it sent is written.
    pub fn is_written_out(&self) -> bool
        ensures { result ≡ is_written_out self.now }
    {
        !self.closed
            && Shut::of(u32::from(self.end.view().got)).send
            && self.buffers.ok_line.is_empty()
            && self.buffers.pending.is_empty()
            && !self.write_shut
    }

    /// The side that the device writes to is shut.
    pub fn write_shut(&mut self)
        ensures { self.new ≡ record self.old { write_shut = true } }
    {
        self.write_shut = true;
    }

    /// Whether it waits too long at a moment: for the answer to its REQUEST, or for RST since both directions are shut.
    pub fn is_timed_out(&self, now: u64) -> bool
        ensures { result ≡ is_timed_out now self.now }
    {
        (self.state() == State::Asked && is_late(now, self.asked_at)) || is_late(now, self.shut_at)
    }

    /// A moment before which it doesn't wait too long, if it stays as it is: the last one of all where it waits for nothing.
    pub fn due(&self) -> u64
        ensures { (now : ℕ) → now < result → is_timed_out now self.now ≡ false }
    {
        let shut = due_of(self.shut_at);
        if self.state() != State::Asked {
            return shut;
        }
        shut.min(due_of(self.asked_at))
    }

    /// Whether a round of writing does something on it: bytes are to be written, or the write side is to be shut.
    pub fn has_to_write(&self) -> bool
        ensures { result ≡ has_to_write self.now }
    {
        let ends = Shut::of(u32::from(self.end.view().got)).send && !self.write_shut;
        !self.closed
            && (!self.buffers.ok_line.is_empty() || !self.buffers.pending.is_empty() || ends)
    }

    /// Whether its stream is to be read: both ends let it send.
    pub fn may_read(&self) -> bool
        ensures { result ≡ may_read self.now.end self.now.end.state }
    {
        self.end.may_send().is_ok()
    }

    /// The credit that it has, in bytes.
    pub fn free(&self) -> u32
        ensures { result ≡ free_of self.now.end.credit }
    {
        self.end.view().credit.free()
    }

    /// Notes that there was no credit for what was to be sent.
    pub fn want_credit(&mut self)
        requires live { self.old.end.state ≡ Live }
        requires none { free_of self.old.end.credit ≡ 0 }
        ensures { self.new ≡ record self.old { end = wanting_credit self.old.end } }
    {
        self.end.want_credit();
    }

    /// What is answered where its buffer space is to be `alloc` bytes.
    pub fn grow_answer(&self, alloc: u32) -> Grown
        ensures { result ≡ grow_answer self.now.end.state alloc self.now.end }
    {
        let now = self.end.view().credit.alloc;
        match self.state() {
            State::Asked | State::Answering => Grown::NotOpen,
            State::Ended => Grown::Reset,
            State::Live if alloc > BUF_ALLOC_MAX => Grown::TooBig {
                most: BUF_ALLOC_MAX,
            },
            State::Live if alloc < now => Grown::Shrinks { now },
            State::Live => Grown::Done,
        }
    }

    /// Raises its buffer space to `alloc` bytes. After a rise a CREDIT_UPDATE is owed. The buffer has the places already.
    pub fn grow(&mut self, alloc: u32)
        requires { grow_answer self.old.end.state alloc self.old.end ≡ Done }
        ensures { self.new ≡ record self.old { end = grown self.old.end alloc } }
    {
        self.end.grow(alloc);
    }

    /// The header of an RW with `len` bytes of payload.
    pub fn payload_header(&self, route: Route, len: u32) -> Header
        ensures { result ≡ payload_header self.now.end route len }
    {
        self.end.payload_header(route, len)
    }

    /// Counts `n` bytes as sent.
    pub fn sent(&mut self, n: u32)
        requires credit { CanSend self.old.end n }
        ensures { self.new ≡ record self.old { end = with_payload_sent self.old.end n } }
    {
        self.end.sent(n);
    }

    /// The packet that its end owes, if it owes one.
    pub fn owes(&self) -> Option<Owed>
        ensures { result ≡ owes_of self.now.end }
    {
        self.end.owes()
    }

    /// The header of the packet that its end owes.
    pub fn owed_header(&self, route: Route, what: Owed) -> Header
        ensures { result ≡ owed_header self.now.end route what }
    {
        self.end.owed_header(route, what)
    }

    /// What the round over all connections does on it.
    pub fn service(&self) -> Service
        ensures { result ≡ service_of self.now }
    {
        if self.owes().is_some() {
            return Service::Owed;
        }
        if !self.may_read() {
            return Service::Nothing;
        }
        let credit = self.free();
        if credit == 0 {
            return self.without_credit();
        }
        Service::Read {
            stream: self.stream,
            credit,
        }
    }

    // What the round does on it where it has no credit, and owes nothing: it asks for some, once.
    fn without_credit(&self) -> Service
        ensures { result ≡ if self.now.end.credit_asked then service.Nothing else service.Owed }
    {
        if self.end.has_asked_for_credit() {
            Service::Nothing
        } else {
            Service::Owed
        }
    }

    /// Counts what its end owed as put, at a moment: from a REQUEST on it waits for the answer.
    pub fn paid(&mut self, what: Owed, now: u64)
        requires owed { owes_of self.old.end ≡ Some what }
        ensures { self.new ≡ paid_connection what now self.old }
    {
        self.end.paid(what);
        if what == Owed::Request {
            self.asked_at = Some(now);
        }
    }

    /// Its buffers, once it has left the table, with nothing in them.
    pub fn into_buffers(self) -> Buffers
        ensures { IsSpare result }
    {
        let mut buffers = self.buffers;
        buffers.ok_line.clear();
        buffers.pending.clear();
        buffers
    }
}

// Whether a packet is a marked RST.
fn is_marked(header: &Header) -> bool
    ensures { result ≡ is_clean_rst (without_payload header.now) }
{
    header.op == Op::Rst.number() && header.flags == CLEAN
}

// The moment that comes `TIMEOUT` milliseconds after another one, and the last one of all where there is none.
fn due_of(moment: Option<u64>) -> u64
    ensures { (now : ℕ) → now < result → is_late now moment ≡ false }
{
    match moment {
        Some(moment) => moment.saturating_add(TIMEOUT),
        None => u64::MAX,
    }
}

// Whether a moment lies `TIMEOUT` milliseconds back, or more.
fn is_late(now: u64, moment: Option<u64>) -> bool
    ensures { result ≡ is_late now moment }
{
    match moment {
        Some(moment) => now.saturating_sub(moment) >= TIMEOUT,
        None => false,
    }
}
