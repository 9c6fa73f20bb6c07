//! What a client receives: the bytes of its stream, which go to its sink.
ghost use Rattle.std.specs.Option.{ForSome};
ghost use Rattle.vs_outside.specs.{Faults.CountsFault, Host.IsOpen};
ghost use Rattle.vs_peer.specs.{Failing.host_failed, Failing.sink_failed, Receiving.Gives, Receiving.Receives};

use crate::sink::{SinkFault, emit};
use crate::stop::Stop;
use crate::stream::read;
use vs_outside::{HostNet, Sink, StreamRead};

/// The most bytes that are read at once.
const PIECE: usize = 4096;

/// What came of a stream.
#[derive(Clone, Copy, Debug, PartialEq, Eq)]
pub enum Came {
    /// Some bytes.
    Bytes,
    /// Nothing, now.
    Nothing,
    /// Nothing, and nothing more comes.
    End,
}

/// Reads once, and gives the bytes that came to the sink.
pub fn receive<H: HostNet, K: Sink>(host: &mut H, id: u64, out: &mut K) -> Result<Came, Stop>
    requires open { ForSome (H.contents host.old) (IsOpen id) }
    ensures open { ForSome (H.contents host.new) (IsOpen id) }
    ensures receives { Receives id (H.contents host.old) (H.contents host.new) (K.contents out.old) (K.contents out.new) result }
    ensures host_faults { CountsFault (host_failed result) (H.faults host.old) (H.faults host.new) }
    ensures sink_faults { CountsFault (sink_failed result) (K.faults out.old) (K.faults out.new) }
{
    let mut piece = [0; PIECE];
    match read(host, id, &mut piece) {
        StreamRead::Got(n) => give(out, &piece[..n]),
        StreamRead::End => Ok(Came::End),
        StreamRead::Again => Ok(Came::Nothing),
        StreamRead::Failed => Err(Stop::Host),
    }
}

// Gives bytes that came to the sink.
fn give<K: Sink>(out: &mut K, bytes: &[u8]) -> Result<Came, Stop>
    ensures gives { Gives (K.contents out.old) (K.contents out.new) bytes.now result }
    ensures faults { CountsFault (sink_failed result) (K.faults out.old) (K.faults out.new) }
{
    match emit(out, bytes) {
        Ok(()) => Ok(Came::Bytes),
        Err(SinkFault) => Err(Stop::Sink),
    }
}
