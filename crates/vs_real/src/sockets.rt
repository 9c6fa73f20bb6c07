//! Unix sockets that never wait.
ghost use Rattle.std.specs.Prelude.{length};
ghost use Rattle.vs_outside.specs.Host.{ReadsSome, TakesSome};

use crate::again;
use crate::ahead::AheadStream;
use crate::readiness::{Ask, Readiness};
use crate::starting::StartError;
use indexmap::IndexMap;
use mio::event::Event;
use mio::net::{UnixListener, UnixStream};
use mio::{Events, Interest, Poll, Token};
use std::alloc::{AllocGlobal, Global};
use std::fs::Files;
use std::io::{self, ErrorKind};
use std::mem;
use std::net::Net;
use std::os::fd::{AsRawFd, RawFd};
use std::time::Duration;
use vs_outside::{Accepted, Dialed, StreamRead, StreamWrite};

/// The most sockets that one poll shows.
const EVENTS: usize = 128;

/// The streams for which there is room from the beginning on: more than a device has at once.
const STREAMS: usize = 128;

/// So many accepts in a row are answered without a poll while bytes move: one poll then serves so many turns, and a client waits that much
/// longer.
const PUT_OFF: u32 = 63;

/// The listener's token. A stream's is its id, which is at least 1.
const LISTENER: Token = Token(0);

/// A connected socket, and what the polls showed of it.
#[derive(Drop)]
struct Socket {
    stream: AheadStream,
    input: Readiness,
    output: Readiness,
}

/// Sockets of one poll: at most one that listens, and the streams by their ids, none of which is given twice.
#[derive(Drop)]
pub struct Sockets {
    alloc: Global,
    poll: Poll,
    events: Events,
    // the number of the last poll
    polls: u64,
    listener: Option<UnixListener>,
    clients: Readiness,
    // whether bytes moved since the last accept, and how many accepts in a row were answered without the poll that they wanted
    moved: bool,
    put_off: u32,
    // whether the last accept failed, so that a further one that does counts no fault
    accept_failed: bool,
    streams: IndexMap<u64, Socket>,
    last_id: u64,
}

impl Sockets {
    /// No socket yet. The error is want of memory, or that the system gives no poll.
    pub fn new<R: Net + AllocGlobal>(rt: &R) -> io::Result<Sockets> {
        let poll = Poll::new(rt)?;
        let events = Events::with_capacity(rt.alloc(), EVENTS)?;
        let streams = IndexMap::with_capacity(rt.alloc(), STREAMS)?;
        Ok(Sockets {
            alloc: rt.alloc(),
            poll,
            events,
            polls: 0,
            listener: None,
            clients: Readiness::new(),
            moved: false,
            put_off: 0,
            accept_failed: false,
            streams,
            last_id: 0,
        })
    }

    /// Listens at a path. Nothing that is there is removed.
    pub fn start<R: Net + Files>(&mut self, rt: &R, path: &str) -> Result<(), StartError> {
        let listener = UnixListener::bind(rt, path).map_err(|e| StartError::of(e.kind()))?;
        self.listener = Some(listener);
        self.clients = Readiness::new();
        Ok(())
    }

    /// Puts the socket that listens into the poll.
    pub fn watch(&mut self) -> Result<(), StartError> {
        let Some(listener) = &mut self.listener else {
            return Ok(());
        };
        self.poll
            .registry()
            .register(listener, LISTENER, Interest::READABLE)
            .map_err(|_| StartError::NoSocket)
    }

    /// Listens no more.
    pub fn stop(&mut self) {
        self.listener = None;
    }

    /// The descriptor that is readable where a poll would show something.
    pub fn poll_fd(&self) -> RawFd {
        self.poll.as_raw_fd()
    }

    /// Bytes moved on a stream.
    pub fn note_move(&mut self) {
        self.moved = true;
    }

    /// Accepts a client that waits. While bytes move it polls in one call of 64 alone. Where accepts fail in a row only the first answers so,
    /// and the others that nobody waits.
    pub fn accept(&mut self) -> Accepted {
        match self.clients.ask(self.polls) {
            Ask::Socket => self.accept_now(),
            Ask::Poll if self.puts_off() => Accepted::None,
            Ask::Poll => self.accept_polled(),
            Ask::Nothing => Accepted::None,
        }
    }

    // Whether an accept that wants a poll is answered without one, since bytes moved since the last accept.
    fn puts_off(&mut self) -> bool {
        let moved = self.moved;
        self.moved = false;
        let puts_off = moved && self.put_off < PUT_OFF;
        self.put_off = if puts_off {
            self.put_off.saturating_add(1)
        } else {
            0
        };
        puts_off
    }

    // Polls, and accepts a client that this showed.
    fn accept_polled(&mut self) -> Accepted {
        if !self.look(Duration::ZERO) {
            Accepted::Failed
        } else if self.clients.polled(self.polls) {
            self.accept_now()
        } else {
            Accepted::None
        }
    }

    // Accepts a client, where one waits.
    fn accept_now(&mut self) -> Accepted {
        let Some(listener) = &self.listener else {
            return Accepted::None;
        };
        let failed_before = mem::replace(&mut self.accept_failed, false);
        match again::accept(listener) {
            Ok(stream) => match self.add(stream) {
                Some(id) => Accepted::Stream(id),
                None => Accepted::Failed,
            },
            Err(e) if e.kind() == ErrorKind::WouldBlock => {
                self.clients.wait(self.polls);
                Accepted::None
            }
            Err(_) => {
                self.accept_failed = true;
                if failed_before {
                    Accepted::None
                } else {
                    Accepted::Failed
                }
            }
        }
    }

    /// Connects to whoever listens at a path.
    pub fn dial<R: Net + Files>(&mut self, rt: &R, path: &str) -> Dialed {
        match again::connect(rt, path) {
            Ok(stream) => match self.add(stream) {
                Some(id) => Dialed::Stream(id),
                None => Dialed::Failed,
            },
            Err(e) if is_nobody(e.kind()) => Dialed::Refused,
            Err(_) => Dialed::Failed,
        }
    }

    // Keeps a new stream, under the next id. None: there is no memory, no id, or no place in the poll.
    fn add(&mut self, stream: UnixStream) -> Option<u64> {
        let id = self.last_id.checked_add(1)?;
        let socket = registered(self.alloc, &self.poll, stream, id)?;
        self.streams.insert(id, socket).ok()?;
        self.last_id = id;
        Some(id)
    }

    /// Reads the next bytes of a stream. A stream whose other end was closed has no more.
    pub fn read(&mut self, id: u64, out: &mut [u8]) -> StreamRead
        ensures { ReadsSome result (length out.new) }
    {
        let Some(socket) = self.streams.get_mut(&id) else {
            return StreamRead::Failed;
        };
        match socket.input.ask(self.polls) {
            Ask::Socket => read_once(socket, out, self.polls),
            Ask::Poll => self.read_polled(id, out),
            Ask::Nothing => StreamRead::Again,
        }
    }

    // Polls, and reads a stream where this showed that it may be ready.
    fn read_polled(&mut self, id: u64, out: &mut [u8]) -> StreamRead
        ensures { ReadsSome result (length out.new) }
    {
        if !self.look(Duration::ZERO) {
            return StreamRead::Failed;
        }
        let Some(socket) = self.streams.get_mut(&id) else {
            return StreamRead::Failed;
        };
        if socket.input.polled(self.polls) {
            read_once(socket, out, self.polls)
        } else {
            StreamRead::Again
        }
    }

    /// Writes the first ones of these bytes to a stream.
    pub fn write(&mut self, id: u64, bytes: &[u8]) -> StreamWrite
        ensures { TakesSome result (length bytes.now) }
    {
        let Some(socket) = self.streams.get_mut(&id) else {
            return StreamWrite::Failed;
        };
        match socket.output.ask(self.polls) {
            Ask::Socket => write_once(socket, bytes, self.polls),
            Ask::Poll => self.write_polled(id, bytes),
            Ask::Nothing => StreamWrite::Again,
        }
    }

    // Polls, and writes to a stream where this showed that it may be ready.
    fn write_polled(&mut self, id: u64, bytes: &[u8]) -> StreamWrite
        ensures { TakesSome result (length bytes.now) }
    {
        if !self.look(Duration::ZERO) {
            return StreamWrite::Failed;
        }
        let Some(socket) = self.streams.get_mut(&id) else {
            return StreamWrite::Failed;
        };
        if socket.output.polled(self.polls) {
            write_once(socket, bytes, self.polls)
        } else {
            StreamWrite::Again
        }
    }

    /// Shuts the side of a stream that is written to. One that the other end closed has none.
    pub fn shut_write(&mut self, id: u64) {
        if let Some(socket) = self.streams.get(&id) {
            socket.stream.shut_write();
        }
    }

    /// Closes a stream.
    pub fn close(&mut self, id: u64) {
        self.streams.swap_remove(&id);
    }

    /// Polls once, and waits at most so long until a socket is ready. Answers whether that went well.
    pub fn look(&mut self, timeout: Duration) -> bool {
        self.polls = self.polls.wrapping_add(1);
        if self.poll.poll(&mut self.events, Some(timeout)).is_err() {
            return false;
        }
        wake_all(&self.events, &mut self.clients, &mut self.streams);
        true
    }
}

// Puts a stream into the poll, under the token of its id. None: there is no such token, or no place in the poll.
fn registered(alloc: Global, poll: &Poll, mut stream: UnixStream, id: u64) -> Option<Socket> {
    let token = Token(usize::try_from(id).ok()?);
    poll.registry()
        .register(&mut stream, token, Interest::READABLE | Interest::WRITABLE)
        .ok()?;
    Some(Socket {
        stream: AheadStream::new(alloc, stream),
        input: Readiness::new(),
        output: Readiness::new(),
    })
}

// What a poll showed: of the listener, and of streams.
fn wake_all(events: &Events, clients: &mut Readiness, streams: &mut IndexMap<u64, Socket>) {
    for event in events.iter() {
        if event.token() == LISTENER {
            clients.wake();
        } else if let Some(socket) = streams.get_mut(&(event.token().0 as u64)) {
            wake(socket, event);
        }
    }
}

// What a poll showed of a socket. One that failed or was closed is ready: its next call tells.
fn wake(socket: &mut Socket, event: &Event) {
    if event.is_readable() || event.is_read_closed() || event.is_error() {
        socket.input.wake();
    }
    if event.is_writable() || event.is_write_closed() || event.is_error() {
        socket.output.wake();
    }
}

// Whether a failed connect says that nobody listens.
fn is_nobody(kind: ErrorKind) -> bool {
    matches!(kind, ErrorKind::NotFound | ErrorKind::ConnectionRefused)
}

// Reads a socket once, or gives what was read ahead.
fn read_once(socket: &mut Socket, out: &mut [u8], polls: u64) -> StreamRead
    ensures { ReadsSome result (length out.new) }
{
    if out.is_empty() {
        return StreamRead::Again;
    }
    match socket.stream.read(out) {
        Ok(0) => StreamRead::End,
        Ok(n) => StreamRead::Got(n),
        Err(e) => match e.kind() {
            ErrorKind::WouldBlock => {
                socket.input.wait(polls);
                StreamRead::Again
            }
            ErrorKind::ConnectionReset => StreamRead::End,
            _ => StreamRead::Failed,
        },
    }
}

// Writes to a socket once.
fn write_once(socket: &mut Socket, bytes: &[u8], polls: u64) -> StreamWrite
    ensures { TakesSome result (length bytes.now) }
{
    match socket.stream.write(bytes) {
        Ok(0) => StreamWrite::Again,
        Ok(n) => StreamWrite::Took(n),
        Err(e) => match e.kind() {
            ErrorKind::WouldBlock => {
                socket.output.wait(polls);
                StreamWrite::Again
            }
            ErrorKind::BrokenPipe | ErrorKind::ConnectionReset => StreamWrite::Closed,
            _ => StreamWrite::Failed,
        },
    }
}
