//! A connection of the driver's table: its end, and the bytes that came in on it and weren't read.

ghost use Rattle.std.specs.Prelude.{◌≡◌, ◌≤◌, ◌==◌, ◌+◌, ◌++◌, [], true, false, Some, length, min, take, drop, ℕ, List, ◌&&◌};
ghost use Rattle.vs_conn.specs.End.{CanSend, asked, answering, grown, may_send_of, may_shut, owes_of, paid_of, verdict_of, view_of, wanting_credit, with_payload_sent};
ghost use Rattle.vs_conn.specs.{Headers.{owed_header, payload_header}, declared.end.State.TheVariants.Live, Shut.is_both};
ghost use Rattle.vs_credit.specs.Credit.{free_of};
ghost use Rattle.vs_header.specs.declared.Kind.TheVariants.{Stream};
ghost use Rattle.vs_limits.specs.declared.TheConstants.{BUF_ALLOC, BUF_ALLOC_MAX};
ghost use Rattle.laws_history.specs.{declared.packet.Packet.Packet, Packets.is_clean_rst};
ghost use Rattle.vs_page.specs.Held.{IsWhole};
ghost use Rattle.vs_driver_parts.specs.{Connections.{after_read, after_shut, after_closing, paid_connection, is_let_go}, Receiving.after_packet, Room.IsSpare};
ghost use Rattle.vs_conn.specs.declared.end.Owed.TheVariants as owed;

use crate::answers::ConnId;
use std::marker::Model;
use vs_buffer::ByteFifo;
use vs_conn::{End, EndView, Owed, Route, State, Stop, Verdict};
use vs_header::{CLEAN, Header, Kind, Op};
use vs_limits::BUF_ALLOC;

/// A connection of the table.
#[derive(Drop)]
pub struct Connection {
    id: ConnId,
    end: End,
    unread: ByteFifo,
    unanswered: bool,
    closed: bool,
}

impl Model for Connection {
    ghost use Rattle.vs_driver_parts.specs.{State.DriverConnection, Room.HasRoom};

    ghost Value = { DriverConnection };

    ghost view = { λ c. record {
      id = c.id;
      end = c.end;
      unread = c.unread.bytes;
      unanswered = c.unanswered;
      closed = c.closed;
    } };

    ghost invariant = { λ c. HasRoom c.end.credit c.unread };
}

impl Connection {
    /// A connection whose REQUEST is put. Its buffer is empty, and has room for all that the end may take.
    pub fn asked(id: ConnId, unread: ByteFifo) -> Connection
        requires spare { IsSpare unread }
        ensures { result ≡ record { id = id; end = paid_of (asked Stream BUF_ALLOC) owed.Request; unread = []; unanswered = false; closed = false } }
    {
        let mut end = End::ask(Kind::Stream, BUF_ALLOC);
        end.paid(Owed::Request);
        Connection {
            id,
            end,
            unread,
            unanswered: false,
            closed: false,
        }
    }

    /// A connection that the host's REQUEST opens. Its RESPONSE is owed.
    pub fn answering(id: ConnId, request: &Header, unread: ByteFifo) -> Connection
        requires spare { IsSpare unread }
        ensures { result ≡ record { id = id; end = answering Stream BUF_ALLOC request.now; unread = []; unanswered = true; closed = false } }
    {
        Connection {
            id,
            end: End::answer(Kind::Stream, BUF_ALLOC, request),
            unread,
            unanswered: true,
            closed: false,
        }
    }

    /// Its id.
    pub fn id(&self) -> ConnId
        ensures { result ≡ self.now.id }
    {
        self.id
    }

    /// Whether its slot is free once it leaves the table: it was closed, or its RESPONSE was never put.
    pub fn is_let_go(&self) -> bool
        ensures { result ≡ is_let_go self.now }
    {
        self.closed || self.unanswered
    }

    /// Whether its RESPONSE isn't put yet.
    pub fn is_unanswered(&self) -> bool
        ensures { result ≡ self.now.unanswered }
    {
        self.unanswered
    }

    /// Whether its id was closed.
    pub fn is_closed(&self) -> bool
        ensures { result ≡ self.now.closed }
    {
        self.closed
    }

    /// Whether a packet ends it cleanly: a marked RST, where its end decided to shut both directions.
    pub fn ends_cleanly(&self, header: &Header) -> bool
        ensures { (payload : List ℕ) → let p : Packet = record { header = header.now; payload = payload } in result ≡ (is_both self.now.end.own && is_clean_rst p) }
    {
        self.has_shut() && is_marked(header)
    }

    // Whether its end decided to shut both directions.
    fn has_shut(&self) -> bool
        ensures { result ≡ is_both self.now.end.own }
    {
        self.end.view().put == 3
    }

    /// What its end shows.
    pub fn end(&self) -> EndView
        ensures { result ≡ view_of self.now.end }
    {
        self.end.view()
    }

    /// The type of its sockets.
    pub fn kind(&self) -> Kind
        ensures { result ≡ self.now.end.kind }
    {
        self.end.kind()
    }

    /// The state of its end.
    pub fn state(&self) -> State
        ensures { result ≡ self.now.end.state }
    {
        self.end.view().state
    }

    /// Takes a packet of its flow, and says what the end says to it. Payload that is delivered is unread then.
    pub fn on_packet(&mut self, header: &Header, payload: &[u8]) -> Verdict
        requires whole { let p : Packet = record { header = header.now; payload = payload.now } in IsWhole p }
        ensures verdict { result ≡ verdict_of self.old.end header.now }
        ensures taken { let p : Packet = record { header = header.now; payload = payload.now } in self.new ≡ after_packet result p self.old }
    {
        let verdict = self.end.on_packet(header);
        if verdict == Verdict::Deliver {
            self.unread.put(payload);
        }
        verdict
    }

    /// The packet that its end owes, if it owes one.
    pub fn owes(&self) -> Option<Owed>
        ensures { result ≡ owes_of self.now.end }
    {
        self.end.owes()
    }

    /// The header of the packet that its end owes.
    pub fn owed_header(&self, route: Route, what: Owed) -> Header
        ensures { result ≡ owed_header self.now.end route what }
    {
        self.end.owed_header(route, what)
    }

    /// Counts what its end owed as put.
    pub fn paid(&mut self, what: Owed)
        requires owed { owes_of self.old.end ≡ Some what }
        ensures { self.new ≡ paid_connection what self.old }
    {
        self.end.paid(what);
        if what == Owed::Response {
            self.unanswered = false;
        }
    }

    /// The bytes that may be sent on it now, or why none may.
    pub fn may_send(&self) -> Result<u32, Stop>
        ensures { result ≡ may_send_of self.now.end }
    {
        self.end.may_send()
    }

    /// The header of an RW with `len` bytes of payload.
    pub fn payload_header(&self, route: Route, len: u32) -> Header
        ensures { result ≡ payload_header self.now.end route len }
    {
        self.end.payload_header(route, len)
    }

    /// Counts `n` bytes as sent.
    pub fn sent(&mut self, n: u32)
        requires credit { CanSend self.old.end n }
        ensures { self.new ≡ record self.old { end = with_payload_sent self.old.end n } }
    {
        self.end.sent(n);
    }

    /// Notes that there was no credit for what was to be sent.
    pub fn want_credit(&mut self)
        requires live { self.old.end.state ≡ Live }
        requires none { free_of self.old.end.credit ≡ 0 }
        ensures { self.new ≡ record self.old { end = wanting_credit self.old.end } }
    {
        self.end.want_credit();
    }

    /// Whether no byte is unread.
    pub fn is_empty(&self) -> bool
        ensures { result ≡ (length self.now.unread == 0) }
    {
        self.unread.is_empty()
    }

    /// Moves the first unread bytes to the front of `out`, as many as it holds, and counts them as forwarded. The rest of `out` stays.
    pub fn read(&mut self, out: &mut [u8]) -> usize
        ensures count { result ≡ min (length out.old) (length self.old.unread) }
        ensures moved { out.new ≡ take result self.old.unread ++ drop result out.old }
        ensures left { self.new ≡ after_read (length out.old) self.old }
    {
        let count = self.unread.take_into(out);
        self.end.forwarded(count as u32);
        count
    }

    /// Raises its buffer space to `alloc` bytes. After a rise a CREDIT_UPDATE is owed. The buffer has the places already.
    pub fn grow(&mut self, alloc: u32)
        requires live { self.old.end.state ≡ Live }
        requires rises { self.old.end.credit.alloc ≤ alloc }
        requires most { alloc ≤ BUF_ALLOC_MAX }
        ensures { self.new ≡ record self.old { end = grown self.old.end alloc } }
    {
        self.end.grow(alloc);
    }

    /// Shuts directions: bit 0 to receive no more, which drops the unread bytes, bit 1 to send no more.
    pub fn shutdown(&mut self, bits: u8)
        requires state { may_shut self.old.end.state ≡ true }
        requires bits { (1 ≤ bits) × (bits ≤ 3) }
        ensures { self.new ≡ after_shut bits self.old }
    {
        self.end.shutdown(bits);
        if vs_conn::Shut::of(u32::from(self.end.view().put)).receive {
            self.unread.clear();
        }
    }

    /// Closes it: the application knows it no more. A live end shuts both directions, any other is ended.
    pub fn close(&mut self)
        ensures { self.new ≡ after_closing self.old.end.state self.old }
    {
        if self.state() == State::Live {
            self.shutdown(3);
        } else {
            self.end.abort();
        }
        self.closed = true;
    }

    /// Its parts, once it has left the table: its end and its unread bytes.
    pub fn into_parts(self) -> (End, ByteFifo)
        ensures end { result.0 ≡ self.end }
        ensures unread { result.1.bytes ≡ self.unread }
        ensures room { BUF_ALLOC_MAX ≤ result.1.capacity }
    {
        (self.end, self.unread)
    }
}

// Whether a packet is a marked RST.
fn is_marked(header: &Header) -> bool
    ensures { (payload : List ℕ) → let p : Packet = record { header = header.now; payload = payload } in result ≡ is_clean_rst p }
{
    header.op == Op::Rst.number() && header.flags == CLEAN
}
