//! Calls that a signal interrupted are made again.
ghost use Rattle.std.specs.{Prelude.length, Io.{ReadsAtMost, WritesAtMost}};

use mio::net::{UnixListener, UnixStream};
use std::io::{self, ErrorKind, Read, Write};
use std::net::Net;

/// How often a call is made where signals interrupt it.
const TRIES: u32 = 1_000;

/// Whether a call has to be made again.
fn is_interrupted<T>(answer: &io::Result<T>) -> bool {
    matches!(answer, Err(e) if e.kind() == ErrorKind::Interrupted)
}

/// Reads.
pub fn read<S: Read>(source: &mut S, out: &mut [u8]) -> io::Result<usize>
    ensures { ReadsAtMost result out.new }
{
    for _ in 1..TRIES {
        let answer = source.read(out);
        if !is_interrupted(&answer) {
            return answer;
        }
    }
    source.read(out)
}

/// Writes.
pub fn write<S: Write>(sink: &mut S, bytes: &[u8]) -> io::Result<usize>
    ensures { WritesAtMost result bytes.now }
{
    for _ in 1..TRIES {
        let answer = sink.write(bytes);
        if !is_interrupted(&answer) {
            return answer;
        }
    }
    sink.write(bytes)
}

/// Accepts a client.
pub fn accept(listener: &UnixListener) -> io::Result<UnixStream> {
    for _ in 1..TRIES {
        let answer = listener.accept();
        if !is_interrupted(&answer) {
            return Ok(answer?.0);
        }
    }
    Ok(listener.accept()?.0)
}

/// Connects to whoever listens at a path.
pub fn connect<R: Net>(rt: &R, path: &str) -> io::Result<UnixStream> {
    for _ in 1..TRIES {
        let answer = UnixStream::connect(rt, path);
        if !is_interrupted(&answer) {
            return answer;
        }
    }
    UnixStream::connect(rt, path)
}
