//! A host's streams over Unix sockets (Firecracker's vsock documentation).
ghost use Rattle.std.specs.Prelude.{◌≡◌};
ghost use Rattle.vs_outside.specs.Faults.{CountsFault};

use crate::moves::Moves;
use crate::sockets::Sockets;
use crate::starting::{MadePath, StartError};
use std::alloc::{AllocError, AllocGlobal};
use std::fs::Files;
use std::io;
use std::net::Net;
use std::os::fd::RawFd;
use std::time::Duration;
use vs_flow::Flow;
use vs_outside::{Accepted, Dialed, HostNet, Started, StreamRead, StreamWrite};

/// A host over Unix sockets, none of which waits. A read or a write makes at most one system call on its socket, behind a poll where it was
/// told of the last one, and none where that poll showed that nothing can be there. While bytes move an accept polls once in 64 calls, so that
/// a busy device makes a poll in 64 turns. Each error is a fault, and is counted; of accepts that fail in a row, one.
///
/// A stream is read ahead, by up to 32,416 bytes, for which it takes room when it is accepted or dialed. They are given by the next reads, and
/// are lost with the stream.
///
/// The socket of the base path is removed with the host that made it, or by `stop`.
pub struct UnixHost<R: Net + Files + AllocGlobal + Drop> {
    rt: R,
    sockets: Sockets,
    made: MadePath,
    start_error: Option<StartError>,
    moves: Moves,
    faults: u64,
}

impl<R: Net + Files + AllocGlobal + Drop> UnixHost<R> {
    /// A host without streams, and without a fault so far. The error is want of memory, or that the system gives no poll.
    pub fn new(rt: R) -> io::Result<UnixHost<R>> {
        let sockets = Sockets::new(&rt)?;
        let made = MadePath::new(rt.alloc())?;
        let moves = Moves::new(rt.alloc())?;
        Ok(UnixHost {
            rt,
            sockets,
            made,
            start_error: None,
            moves,
            faults: 0,
        })
    }

    /// How many calls failed so far. The count stands still at its last value.
    pub fn faults(&self) -> u64 {
        self.faults
    }

    /// The count of reads and writes that moved bytes.
    pub fn moves(&self) -> Result<Moves, AllocError> {
        self.moves.try_clone()
    }

    /// What stood in the way of the last start, where it failed.
    pub fn start_error(&self) -> Option<StartError> {
        self.start_error
    }

    /// Waits until a stream that wasn't ready may be read or written, or a client comes, but at most so long. It is for a loop that has
    /// nothing else to do, before a turn: what it saw holds in that turn, in which the first call on each socket polls no more.
    ///
    /// A poll that fails is a fault, and is counted.
    pub fn wait(&mut self, timeout: Duration) {
        let looked = self.sockets.look(timeout);
        self.faults = counted(self.faults, !looked);
    }

    /// A descriptor that is readable where `wait` wouldn't wait, for a loop that waits for more than this host.
    pub fn poll_fd(&self) -> RawFd {
        self.sockets.poll_fd()
    }

    /// Listens no more, and removes the socket that was made at the base path. One that was put in its place stays, and so do the streams.
    pub fn stop(&mut self)
        ensures counts { self.new.faults ≡ self.old.faults }
    {
        self.sockets.stop();
        self.made.remove(&self.rt);
    }

    // Bytes moved.
    fn note_move(&mut self)
        ensures counts { self.new.faults ≡ self.old.faults }
    {
        self.moves.add();
        self.sockets.note_move();
    }

    // Listens at a path, in place of an earlier one.
    fn listen(&mut self, path: &str) -> Result<(), StartError>
        ensures counts { self.new.faults ≡ self.old.faults }
    {
        self.stop();
        self.sockets.start(&self.rt, path)?;
        self.made.keep(&self.rt, path);
        let watched = self.sockets.watch();
        if watched.is_err() {
            self.stop();
        }
        watched
    }
}

impl<R: Net + Files + AllocGlobal + Drop> Drop for UnixHost<R> {
    fn drop(self) {
        let UnixHost {
            rt,
            sockets,
            mut made,
            start_error: _,
            moves: _,
            faults: _,
        } = self;
        drop(sockets);
        made.remove(&rt);
    }
}

impl<R: Net + Files + AllocGlobal + Drop> HostNet for UnixHost<R> {
    ghost use Rattle.std.specs.Prelude.{None};

    ghost faults = { λ h. h.faults };

    ghost contents = { λ _. None };

    fn start(&mut self, path: &str) -> Started {
        self.start_error = self.listen(path).err();
        self.faults = counted(self.faults, self.start_error.is_some());
        match self.start_error {
            Some(_) => Started::Failed,
            None => Started::Ready,
        }
    }

    fn accept(&mut self) -> Accepted {
        let accepted = self.sockets.accept();
        self.faults = counted(self.faults, matches!(accepted, Accepted::Failed));
        accepted
    }

    fn dial(&mut self, path: &str, flow: Flow) -> Dialed {
        let dialed = self.sockets.dial(&self.rt, path);
        self.faults = counted(self.faults, matches!(dialed, Dialed::Failed));
        dialed
    }

    fn label(&mut self, id: u64, flow: Flow) {}

    fn read(&mut self, id: u64, out: &mut [u8]) -> StreamRead {
        let read = self.sockets.read(id, out);
        if matches!(read, StreamRead::Got(_)) {
            self.note_move();
        }
        self.faults = counted(self.faults, matches!(read, StreamRead::Failed));
        read
    }

    fn write(&mut self, id: u64, bytes: &[u8]) -> StreamWrite {
        let wrote = self.sockets.write(id, bytes);
        if matches!(wrote, StreamWrite::Took(_)) {
            self.note_move();
        }
        self.faults = counted(self.faults, matches!(wrote, StreamWrite::Failed));
        wrote
    }

    fn shut_write(&mut self, id: u64) {
        self.sockets.shut_write(id);
    }

    fn close(&mut self, id: u64) {
        self.sockets.close(id);
    }
}

// One more fault, where a call failed. The count stands still at its last value.
fn counted(faults: u64, failed: bool) -> u64
    ensures { CountsFault failed faults result }
{
    if failed {
        faults.saturating_add(1)
    } else {
        faults
    }
}
