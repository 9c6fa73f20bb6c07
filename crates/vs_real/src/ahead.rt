//! A stream that is read ahead of what is asked for, so that few reads are system calls.
ghost use Rattle.std.specs.{Prelude.{◌≡◌, ◌≤◌, ◌<◌, ◌-◌, ◌++◌, Ok, IfOk, min, length, take, slice_range}, Io.{ReadsAtMost, WritesAtMost}};

use crate::again;
use mio::net::UnixStream;
use std::alloc::Global;
use std::io;
use std::net::Shutdown;

/// So many bytes are read at a time: what a device asks for in eight reads, which are of 4,052 bytes where nothing bounds them further.
const AHEAD: usize = 8 * 4052;

/// A stream with the bytes that were read and not asked for yet.
#[derive(Drop)]
pub struct AheadStream {
    stream: UnixStream,
    // `bytes[next..end]` was read and not asked for yet. There is room for `AHEAD` bytes, or for none
    bytes: Vec<u8>,
    next: usize,
    end: usize,
    ghost ordered: { next ≤ end },
    ghost within: { end ≤ length bytes.items },
}

impl AheadStream {
    /// A stream of which nothing was read. Where there is no memory it is never read ahead.
    pub fn new(alloc: Global, stream: UnixStream) -> AheadStream {
        AheadStream {
            stream,
            bytes: vec![in alloc; 0; AHEAD].unwrap_or(Vec::new(alloc)),
            next: 0,
            end: 0,
        }
    }

    /// Reads the next bytes: those that were read ahead, or else of the stream. None are there at the stream's end.
    pub fn read(&mut self, out: &mut [u8]) -> io::Result<usize>
        ensures bound { ReadsAtMost result out.new }
        ensures ahead { self.old.next < self.old.end → result ≡ Ok (min (self.old.end - self.old.next) (length out.old)) }
        ensures bytes { self.old.next < self.old.end → IfOk result (λ n. slice_range self.old.bytes.items self.old.next self.old.end
            ≡ take n out.new ++ slice_range self.new.bytes.items self.new.next self.new.end) }
    {
        if self.next == self.end {
            if out.len() >= self.bytes.len() {
                return again::read(&mut self.stream, out);
            }
            self.read_ahead()?;
        }
        Ok(self.give(out))
    }

    // Reads the stream once, where all that was read was asked for.
    fn read_ahead(&mut self) -> io::Result<()> {
        self.next = 0;
        self.end = 0;
        self.end = again::read(&mut self.stream, self.bytes.as_mut_slice())?;
        Ok(())
    }

    // Gives the first ones of the bytes that were read ahead: as many as there are, and as `out` takes.
    fn give(&mut self, out: &mut [u8]) -> usize
        ensures count { result ≡ min (self.old.end - self.old.next) (length out.old) }
        ensures within { result ≤ length out.new }
        ensures bytes { slice_range self.old.bytes.items self.old.next self.old.end
            ≡ take result out.new ++ slice_range self.new.bytes.items self.new.next self.new.end }
    {
        let n = (self.end - self.next).min(out.len());
        out[..n].copy_from_slice(&self.bytes[self.next..self.next + n]);
        self.next += n;
        n
    }

    /// Writes.
    pub fn write(&mut self, bytes: &[u8]) -> io::Result<usize>
        ensures { WritesAtMost result bytes.now }
    {
        again::write(&mut self.stream, bytes)
    }

    /// Shuts the side that is written to. A stream that the other end closed has none.
    pub fn shut_write(&self) {
        let _ = self.stream.shutdown(Shutdown::Write);
    }
}
